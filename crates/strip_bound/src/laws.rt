//! Laws of the static bounds: functions that do nothing when they run, with theorems as contracts.
ghost use Rattle.std.specs.Prelude.{◌≡◌, ℕ, ◌↔◌, ◌⊎◌, ◌+◌, ◌<◌, ◌≤◌, true, false, Contains, List};
ghost use Rattle.std.specs.List.{AllPairs};
ghost use Rattle.std.specs.List.Sorted.{IsStrictlyIncreasing};
ghost use Rattle.strip_mask.specs.Set.{IsSet, has};
ghost use Rattle.strip_model.specs.declared.kind.Kind.{Kind};
ghost use Rattle.strip_model.specs.declared.kind.Kind.TheVariants.{Arrivals, Groups, Pairs, Plain};
ghost use Rattle.strip_model.specs.Film.{FilmData};
ghost use Rattle.strip_film.specs.Bounds.{plain_bound};
ghost use Rattle.strip_film.specs.Film.{IsFilm, LiesIn};
ghost use Rattle.strip_film.specs.Finish.{IsAtMostFinish, steps_cost};
ghost use Rattle.strip_film.specs.Shoot.{cast_of, on_location};
ghost use Rattle.strip_group.specs.Group.{group_extra};
ghost use Rattle.strip_bound.specs.Bounds.{bound, group_data, groups_extra, newcomers_at};
ghost use Rattle.strip_bound.specs.Falling.{by_falling};
ghost use Rattle.strip_bound.specs.Waiting.{AreGroups, HasEach, wait_pay};

/// The extra of a group, of any size and however chosen, is its least pay for waiting over the lists of the set. No
/// list has less, and some list has no more.
pub fn the_extra_is_the_least_waiting()
    ensures least { (film : FilmData) (set group : ℕ) (scenes : List ℕ) → IsFilm film → LiesIn film set → IsSet group
        → ((actor : ℕ) → has group actor ≡ true → has (cast_of film set) actor ≡ true) → HasEach set scenes
        → group_extra (group_data film) set group ≤ wait_pay film group set scenes }
    ensures attained { (film : FilmData) (set group : ℕ) → IsFilm film → LiesIn film set → IsSet group
        → ((actor : ℕ) → has group actor ≡ true → has (cast_of film set) actor ≡ true)
        → (scenes : List ℕ) × HasEach set scenes × (wait_pay film group set scenes
        ≤ group_extra (group_data film) set group) }
{}

/// The plain bound plus the extras of disjoint groups on location, of any sizes and however chosen, bounds every list
/// of the set from below. The list need not keep the pairs.
pub fn groups_bound_every_tail()
    ensures { (film : FilmData) (set : ℕ) (groups scenes : List ℕ) → IsFilm film → LiesIn film set
        → AreGroups film set groups
        → HasEach set scenes → plain_bound film set + groups_extra film set groups ≤ steps_cost film set scenes }
{}

/// Suppose that actors come in rising order. Then of two actors of their list by falling value, the former has the
/// greater value, or an equal value and the lower number. The list has the actors that came, and no others.
pub fn lists_fall_by_value()
    ensures fall { (value : ℕ → ℕ) (actors : List ℕ) → IsStrictlyIncreasing actors
        → AllPairs (λ a b. (value b < value a) ⊎ ((value b ≡ value a) × (a < b))) (by_falling value actors) }
    ensures members { (value : ℕ → ℕ) (actors : List ℕ) (actor : ℕ) → Contains (by_falling value actors) actor
        ↔ Contains actors actor }
{}

/// The bound of arrivals is at most the tail cost of every list of the set. The list need not keep the pairs.
pub fn parties_bound_every_tail()
    ensures { (film : FilmData) (set : ℕ) (scenes : List ℕ) → IsFilm film → LiesIn film set → HasEach set scenes
        → bound Arrivals film set ≤ steps_cost film set scenes }
{}

/// Parties of one size share no newcomer, and none of their newcomers is on location.
pub fn parties_share_no_newcomer()
    ensures apart { (film : FilmData) (set many first later place other actor : ℕ) → place < other
        → has (newcomers_at film set many first place) actor ≡ true
        → ¬ (has (newcomers_at film set many later other) actor ≡ true) }
    ensures away { (film : FilmData) (set many count place actor : ℕ)
        → has (newcomers_at film set many count place) actor ≡ true → has (on_location film set) actor ≡ false }
{}

/// Pairs and arrivals are at least as strong as the plain bound, and groups as pairs. Each bound is at most the cost of
/// finishing.
pub fn the_bounds_are_true()
    ensures plain { (film : FilmData) (set : ℕ) → bound Plain film set ≤ bound Pairs film set }
    ensures arrivals { (film : FilmData) (set : ℕ) → bound Plain film set ≤ bound Arrivals film set }
    ensures pairs { (film : FilmData) (set : ℕ) → IsFilm film → LiesIn film set
        → bound Pairs film set ≤ bound Groups film set }
    ensures finish { (kind : Kind) (film : FilmData) (set : ℕ) → IsFilm film → LiesIn film set
        → IsAtMostFinish film set (bound kind film set) }
{}
