//! Laws of lines and of counting paths: functions that do nothing when they run but call other laws, with theorems as
//! contracts.
ghost use Rattle.std.specs.Prelude.{◌≡◌, ℕ, ◌<◌, ◌≤◌, List, [], ◌∷◌, ◌++◌, length, All, ◌≢◌, ◌↔◌, suc, ◌+◌, ◌*◌, ◌==◌, ◌⊎◌, nat_eq, Bool, true, false, Option, Some, count_by};
ghost use Rattle.std.specs.Cmp.Lexicographic.{pointwise};
ghost use Rattle.strip_mask.specs.Sums.{sum_below};
ghost use Rattle.strip_model.specs.declared.kind.Kind.{Kind};
ghost use Rattle.strip_model.specs.Film.{FilmData};
ghost use Rattle.strip_model.specs.Order.{IsBefore};
ghost use Rattle.strip_film.specs.declared.shared.Line.{Line};
ghost use Rattle.strip_film.specs.Film.{IsFilm, LiesIn};
ghost use Rattle.strip_film.specs.Finish.{IsAtMostFinish, rest_after};
ghost use Rattle.strip_film.specs.Rules.{BeginLeast, BoundsFinish, FirstsAreReady, Rules, IsOpen, rank};
ghost use Rattle.strip_film.specs.Path.{IsPath, PathData};
ghost use Rattle.strip_film.specs.Ranks.{IsEarlier, IsSooner};
ghost use Rattle.strip_lines.specs.Lines.{AreJustified, GrowTo, IsJustified, ahead, known, line_at, rules_of, with_raised};
ghost use Rattle.strip_lines.specs.Apart.{AreApart, IsLeft};
ghost use Rattle.strip_lines.specs.Paths.{ComesAfter, IsUnfinished, factorial, candidate_count, is_candidate, number_of, number_up_to, path_count, leaving_count};
ghost use Rattle.strip_lines.specs.Parts.{AreCounted, AreTasks, Enlists, inside, lies_in};

use strip_bound::laws::the_bounds_are_true;
use strip_rule::laws::an_open_first_begins_a_least_tail;

/// The rules of a search hold for every film and kind of bound. The static bounds are at most the cost of finishing.
/// Some open first begins a least tail, and open firsts are ready.
pub fn the_rules_are_true()
    ensures bounds { (kind : Kind) (film : FilmData) → IsFilm film → BoundsFinish (rules_of kind film) }
    ensures begin { (kind : Kind) (film : FilmData) → IsFilm film → BeginLeast (rules_of kind film) }
    ensures ready { (kind : Kind) (film : FilmData) → IsFilm film → FirstsAreReady (rules_of kind film) }
{
    the_bounds_are_true();
    an_open_first_begins_a_least_tail();
}

/// Every bound derived from a justified list of lines is valid: it is at most the cost of finishing its set.
pub fn a_justified_list_is_true()
    ensures lines { (rules : Rules) (lines : List Line) → IsFilm rules.film → BoundsFinish rules → BeginLeast rules
        → AreJustified rules lines → All (λ line. IsAtMostFinish rules.film line.set line.bound) lines }
    ensures known { (rules : Rules) (lines : List Line) (set : ℕ) → IsFilm rules.film → BoundsFinish rules
        → BeginLeast rules
        → AreJustified rules lines → LiesIn rules.film set → IsAtMostFinish rules.film set (known rules lines set) }
{}

/// The look-ahead of a set is a valid lower bound. It is the greater of its static bound and the least step plus bound
/// over its firsts.
pub fn the_look_ahead_is_true()
    ensures { (rules : Rules) → IsFilm rules.film → BoundsFinish rules → BeginLeast rules → FirstsAreReady rules
        → (set : ℕ) → LiesIn rules.film set → IsAtMostFinish rules.film set (ahead rules set) }
{}

/// The bound known of a set is the greatest of its static bound and the bounds of its lines.
pub fn what_is_known_is_the_greatest()
    ensures bound { (rules : Rules) (lines : List Line) (set : ℕ) → rules.bound set ≤ known rules lines set }
    ensures line { (rules : Rules) (lines : List Line) (place : ℕ) → place < length lines
        → (line_at lines place).bound ≤ known rules lines (line_at lines place).set }
    ensures least { (rules : Rules) (lines : List Line) (set most : ℕ) → rules.bound set ≤ most
        → ((place : ℕ) → place < length lines → (line_at lines place).set ≡ set → (line_at lines place).bound ≤ most)
        → known rules lines set ≤ most }
{}

/// When lines grow, the bounds known of sets don't fall, and justified lines stay justified.
pub fn what_is_known_stays()
    ensures known { (rules : Rules) (lines more : List Line) (set : ℕ) → GrowTo lines more
        → known rules lines set ≤ known rules more set }
    ensures justified { (rules : Rules) (lines more : List Line) (line : Line) → GrowTo lines more
        → IsJustified rules lines line → IsJustified rules more line }
{}

/// A justified list stays justified, and grows, in two ways. A line with at most the static bound of its set is
/// appended, or a line's bound is raised to a justified one.
pub fn justified_lists_grow()
    ensures added { (rules : Rules) (lines : List Line) (line : Line) → AreJustified rules lines
        → LiesIn rules.film line.set
        → line.bound ≤ rules.bound line.set → AreJustified rules (lines ++ line ∷ []) }
    ensures added_grows { (lines : List Line) (line : Line) → GrowTo lines (lines ++ line ∷ []) }
    ensures raised { (rules : Rules) (lines : List Line) (place bound : ℕ) → AreJustified rules lines
        → place < length lines
        → IsJustified rules lines (record { set = (line_at lines place).set; bound = bound })
        → AreJustified rules (with_raised lines place bound) }
    ensures raised_grows { (lines : List Line) (place bound : ℕ) → place < length lines
        → GrowTo lines (with_raised lines place bound) }
{}

/// Each unfinished path (one with scenes that remain) is counted exactly once. If no unfinished path passes a test, the
/// count is 0.
pub fn paths_are_counted_once()
    ensures once { (film : FilmData) (path : PathData) → IsFilm film → IsUnfinished film path
        → number_of film (λ other. pointwise nat_eq path.scenes other.scenes) ≡ 1 }
    ensures none { (film : FilmData) (test : PathData → Bool) → IsFilm film
        → ((path : PathData) → IsUnfinished film path → test path ≡ false) → number_of film test ≡ 0 }
{}

/// A film of n scenes has at most `path_count n` unfinished paths, and exactly as many if it has no pairs. That is at
/// most twice the factorial of n.
pub fn paths_are_few()
    ensures most { (film : FilmData) (test : PathData → Bool) → IsFilm film
        → number_of film test ≤ path_count (length film.casts) }
    ensures all { (film : FilmData) → IsFilm film → film.pairs ≡ []
        → number_of film (λ _. true) ≡ path_count (length film.casts) }
    ensures orders { (scenes : ℕ) → path_count scenes ≤ 2 * factorial scenes }
{}

/// A path is a candidate if it is open and its pay plus the static bound of the rest is below the cost.
pub fn candidates_are_open()
    ensures { (rules : Rules) (cost : ℕ) (path : PathData) → IsPath rules.film path
        → (is_candidate rules cost path ≡ true) ↔ (IsOpen rules path × (path.paid + rules.bound path.rest < cost)) }
{}

/// The order in which a search meets paths, by rank, is a strict total order. A path comes before its extensions. Two
/// paths that part are ordered by the scenes at which they part. If all promises are equal, the order is lexicographic
/// by scene numbers.
pub fn paths_come_one_after_the_other()
    ensures never { (rules : Rules) (set : ℕ) (a : List ℕ) → ¬ IsEarlier rules set a a }
    ensures transitive { (rules : Rules) (set : ℕ) (a b c : List ℕ) → IsEarlier rules set a b → IsEarlier rules set b c
        → IsEarlier rules set a c }
    ensures total { (rules : Rules) (set : ℕ) (a b : List ℕ)
        → IsEarlier rules set a b ⊎ ((a ≡ b) ⊎ IsEarlier rules set b a) }
    ensures longer { (rules : Rules) (set scene : ℕ) (a more : List ℕ) → IsEarlier rules set a (a ++ scene ∷ more) }
    ensures parted { (rules : Rules) (set s t : ℕ) (begun a b : List ℕ) → s ≢ t
        → IsEarlier rules set (begun ++ s ∷ a) (begun ++ t ∷ b) ↔ IsSooner (rank rules (rest_after set begun)) s t }
    ensures by_number { (rules : Rules) (set : ℕ) (a b : List ℕ) → ((paid set : ℕ) → rules.promise paid set ≡ 0)
        → IsEarlier rules set a b ↔ IsBefore a b }
{}

/// If a path that passes a test comes after the last one, the count up to it is greater by at least one. The count up
/// to any path is at most the count of all paths that pass.
pub fn a_later_path_counts_one_more()
    ensures more { (rules : Rules) (last : Option PathData) (next : PathData) (test : PathData → Bool)
        → IsFilm rules.film
        → IsUnfinished rules.film next → ComesAfter rules last next → test next ≡ true
        → number_up_to rules last test + 1 ≤ number_up_to rules (Some next) test }
    ensures stays { (rules : Rules) (last : Option PathData) (next : PathData) (test : PathData → Bool)
        → IsFilm rules.film
        → ComesAfter rules last next → number_up_to rules last test ≤ number_up_to rules (Some next) test }
    ensures most { (rules : Rules) (last : Option PathData) (test : PathData → Bool) → IsFilm rules.film
        → number_up_to rules last test ≤ number_of rules.film test }
{}

/// No path lies in two parts. So the counts of the parts add up to at most the count of all paths that pass. The sum is
/// less if some part has a later path that passes.
pub fn parts_add_up()
    ensures most { (rules : Rules) (depth : ℕ) (tasks : List PathData) (last : ℕ → Option PathData) (test : PathData
        → Bool)
        → IsFilm rules.film → AreTasks depth tasks
        → sum_below (suc (length tasks)) (λ part. number_up_to rules (last part) (inside depth tasks part test))
        ≤ number_of rules.film test }
    ensures room { (rules : Rules) (depth part : ℕ) (tasks : List PathData) (last : ℕ
        → Option PathData) (next : PathData) (test : PathData → Bool)
        → IsFilm rules.film → AreTasks depth tasks → part < suc (length tasks) → IsUnfinished rules.film next
        → ComesAfter rules (last part) next
        → lies_in depth tasks part next ≡ true → test next ≡ true
        → sum_below (suc (length tasks)) (λ part. number_up_to rules (last part) (inside depth tasks part test)) + 1
        ≤ number_of rules.film test }
{}

/// Lines stay counted when a part enlists a later candidate: a line of its remaining set is appended, and it becomes
/// the part's last path.
pub fn lines_stay_counted()
    ensures none { (rules : Rules) (cost depth : ℕ) (tasks : List PathData) (last : ℕ → Option PathData)
        → AreCounted rules cost depth tasks [] last (λ _. 0) }
    ensures more { (rules : Rules) (cost depth part : ℕ) (tasks : List PathData) (lines : List Line)
        (last last_then : ℕ → Option PathData)
        (number number_then : ℕ → ℕ) (next : PathData) (line : Line)
        → IsFilm rules.film → AreCounted rules cost depth tasks lines last number → part < suc (length tasks)
        → IsUnfinished rules.film next → ComesAfter rules (last part) next → lies_in depth tasks part next ≡ true
        → is_candidate rules cost next ≡ true → line.set ≡ next.rest
        → Enlists part next last last_then number number_then
        → AreCounted rules cost depth tasks (lines ++ line ∷ []) last_then number_then }
{}

/// Counted lines are at most as many as the candidates, in total and for each set. They are fewer if some part has a
/// later candidate.
pub fn counted_lines_are_few()
    ensures most { (rules : Rules) (cost depth : ℕ) (tasks : List PathData) (lines : List Line) (last : ℕ
        → Option PathData) (number : ℕ → ℕ)
        → IsFilm rules.film → AreTasks depth tasks → AreCounted rules cost depth tasks lines last number
        → length lines ≤ candidate_count rules cost }
    ensures sets { (rules : Rules) (cost depth set : ℕ) (tasks : List PathData) (lines : List Line) (last : ℕ
        → Option PathData) (number : ℕ → ℕ)
        → IsFilm rules.film → AreTasks depth tasks → AreCounted rules cost depth tasks lines last number
        → count_by (λ line. line.set == set) lines ≤ leaving_count rules cost set }
    ensures room { (rules : Rules) (cost depth part : ℕ) (tasks : List PathData) (lines : List Line) (last : ℕ
        → Option PathData) (number : ℕ → ℕ)
        (next : PathData) → IsFilm rules.film → AreTasks depth tasks
        → AreCounted rules cost depth tasks lines last number
        → part < suc (length tasks) → IsUnfinished rules.film next → ComesAfter rules (last part) next
        → lies_in depth tasks part next ≡ true → is_candidate rules cost next ≡ true
        → length lines + 1 ≤ candidate_count rules cost }
{}

/// Below a lesser cost there are at most as many candidates, in total and for each set. So a limit for the cost of one
/// order holds for every cheaper order.
pub fn a_lesser_cost_has_fewer_candidates()
    ensures few { (rules : Rules) (lesser cost : ℕ) → lesser ≤ cost → candidate_count rules lesser ≤ candidate_count rules cost }
    ensures ways { (rules : Rules) (lesser cost set : ℕ) → lesser ≤ cost
        → leaving_count rules lesser set ≤ leaving_count rules cost set }
{}

/// Lines with different sets, each left by some candidate, are at most as many as the candidates, in total and for each
/// set.
pub fn lines_of_different_sets_are_few()
    ensures most { (rules : Rules) (cost : ℕ) (lines : List Line) → IsFilm rules.film → AreApart lines
        → All (λ line. IsLeft rules cost line.set) lines → length lines ≤ candidate_count rules cost }
    ensures sets { (rules : Rules) (cost set : ℕ) (lines : List Line) → IsFilm rules.film → AreApart lines
        → All (λ line. IsLeft rules cost line.set) lines
        → count_by (λ line. line.set == set) lines ≤ leaving_count rules cost set }
{}
