// The bound of arrivals: the pay for waiting of parties. A party is a group of actors on location with some newcomers.
ghost use Rattle.std.specs.Prelude.{◌≡◌, ℕ, ◌+◌, ◌-◌, ◌*◌, ◌^◌, ◌<◌, ◌≤◌, ◌⊎◌, not, All, drop, filter, length, max, min, slice_index, slice_set, sum_by, take};
ghost use Rattle.strip_mask.specs.Set.{LiesBelow, members};
ghost use Rattle.strip_film.specs.Film.{LiesIn};
ghost use Rattle.strip_film.specs.Shoot.{on_location};
ghost use Rattle.strip_bound.specs.Bounds.{located_by_hold, newcomers_at, newcomers_of, number_of_parties, parties_extra, set_of};
ghost use Rattle.strip_bound.specs.Falling.{by_falling};
ghost use Rattle.strip_bound.specs.Parties.{AreAsked, AreChoices, AreParties};
ghost use Rattle.strip_bound.specs.Tables.{AreTables};

use crate::falling::Falling;
use crate::newcomers::{Choices, newcomers};
use crate::tables::BoundTables;
use arrayvec::ArrayVec;
use strip_arrivals::Room;
use strip_arrivals::laws::fewer_newcomers_wait_no_more;
use strip_film::{Film, on};
use strip_mask::Mask;

/// Number of actors of a small group; the last group has the rest.
const FEW: usize = 7;

/// Number of actors of a large group.
const MANY: usize = 10;

/// Maximum number of parties.
pub(crate) const PARTIES: usize = 10;

/// The parties of a set, and the progress of their computation:
///
/// - `many`: number of actors of each group but the last;
/// - `number`: number of parties;
/// - `asked`: one more than the number of newcomers with which the parties were last computed, or 0;
/// - `values`: the greatest value known of each party;
/// - `extra`: the sum of these values;
/// - `need`: the value of `extra` at which the computation stops.
#[derive(Drop)]
pub(crate) struct Parties {
    pub(crate) many: usize,
    pub(crate) number: usize,
    pub(crate) asked: usize,
    pub(crate) values: [u64; PARTIES],
    pub(crate) extra: u64,
    pub(crate) need: u64,
}

/// A set of a film's scenes that remain, and the actors on location by falling hold rate.
#[derive(Drop)]
pub(crate) struct OnLocation<'a> {
    pub(crate) film: &'a Film,
    pub(crate) tables: &'a BoundTables,
    pub(crate) q: Mask,
    pub(crate) actors: &'a [u32],
    pub ghost are_tables: { AreTables film.now tables.now },
    pub ghost lies: { LiesIn film.now q.0 },
    pub ghost located: { actors.now ≡ located_by_hold film.now q.0 },
}

/// Returns the extra of parties of seven or of ten, whichever is greater, or a part of it that is at least `need`. It
/// first computes the values of groups of seven alone, then with newcomers. Last come groups of ten, with all newcomers
/// at once, since more newcomers don't lower a value.
pub(crate) fn extra_of_parties(
    film: &Film,
    tables: &BoundTables,
    q: Mask,
    need: u64,
    room: &mut Room,
) -> u64
    requires tables { AreTables film.now tables.now }
    requires lies { LiesIn film.now q.0 }
    ensures most { result ≤ max (parties_extra film.now q.0 7) (parties_extra film.now q.0 10) }
    ensures reaches { (need ≤ result) ⊎ (result ≡ max (parties_extra film.now q.0 7) (parties_extra film.now q.0 10)) }
{
    film.keeps_limits();
    let on = on(film, q);
    let located = located(film, tables, on);
    let here = OnLocation {
        film,
        tables,
        q,
        actors: &located,
    };
    let mut few = Parties::new(&here, FEW, need);
    few.ask(&here, &Choices::none(), 0, room);
    if few.extra >= need {
        return few.extra;
    }
    let newcomers = newcomers(film, tables, q, on);
    let choices = Choices::of(&here, newcomers, &few);
    few.ask_all(&here, &choices, room);
    if few.extra >= need || here.actors.len() <= FEW {
        return few.extra;
    }
    few.extra.max(extra_of_many(&here, newcomers, need, room))
}

/// Returns the extra of parties of ten, or a part of it that is at least `need`.
fn extra_of_many(here: &OnLocation, newcomers: Mask, need: u64, room: &mut Room) -> u64
    requires newcomers { newcomers.0 ≡ newcomers_of here.now.film.now here.now.q.0 }
    ensures most { result ≤ parties_extra here.now.film.now here.now.q.0 10 }
    ensures reaches { (need ≤ result) ⊎ (result ≡ parties_extra here.now.film.now here.now.q.0 10) }
{
    let mut many = Parties::new(here, MANY, need);
    let choices = Choices::of(here, newcomers, &many);
    many.ask(here, &choices, 2, room);
    many.extra
}

impl Parties {
    /// Makes the parties, with no value known.
    fn new(here: &OnLocation, many: usize, need: u64) -> Parties
        requires { (many ≡ 7) ⊎ (many ≡ 10) }
        ensures parties { AreParties here.now.film.now here.now.q.0 many result }
        ensures asked { AreAsked here.now.film.now here.now.q.0 many result }
        ensures none { result.asked ≡ 0 }
        ensures need { result.need ≡ need }
    {
        Parties {
            many,
            number: (here.actors.len() + (many - 1)) / many,
            asked: 0,
            values: [0; PARTIES],
            extra: 0,
            need,
        }
    }

    /// Computes each party's value with all of its newcomers. If the groups alone come near to `need`, it tries the
    /// first newcomer alone before.
    fn ask_all(&mut self, here: &OnLocation, choices: &Choices, room: &mut Room)
        requires choices { AreChoices here.now.film.now here.now.q.0 self.old.many choices.now }
        requires many { (self.old.many ≡ 7) ⊎ (self.old.many ≡ 10) }
        requires parties { AreParties here.now.film.now here.now.q.0 self.old.many self.old }
        requires asked { AreAsked here.now.film.now here.now.q.0 self.old.many self.old }
        requires fewer { self.old.asked ≤ 1 }
        ensures same { (self.new.many ≡ self.old.many) × (self.new.need ≡ self.old.need) }
        ensures parties { AreParties here.now.film.now here.now.q.0 self.new.many self.new }
        ensures asked { AreAsked here.now.film.now here.now.q.0 self.new.many self.new }
        ensures all { self.new.asked ≡ 3 }
    {
        if !self.is_near() {
            self.ask(here, choices, 2, room);
            return;
        }
        self.ask(here, choices, 1, room);
        self.ask(here, choices, 2, room);
    }

    /// Returns whether at most a sixth of `need` is lacking. It affects the time only, not the result.
    fn is_near(&self) -> bool {
        self.extra >= self.need - self.need / 6
    }

    /// Computes each party's value with at most `count` of its newcomers, until `need` is reached. A party without
    /// further newcomers is skipped.
    fn ask(&mut self, here: &OnLocation, choices: &Choices, count: usize, room: &mut Room)
        requires choices { (count ≡ 0) ⊎ AreChoices here.now.film.now here.now.q.0 self.old.many choices.now }
        requires count { count ≤ 2 }
        requires many { (self.old.many ≡ 7) ⊎ (self.old.many ≡ 10) }
        requires parties { AreParties here.now.film.now here.now.q.0 self.old.many self.old }
        requires asked { AreAsked here.now.film.now here.now.q.0 self.old.many self.old }
        requires fewer { self.old.asked ≤ count }
        ensures same { (self.new.many ≡ self.old.many) × (self.new.need ≡ self.old.need) }
        ensures parties { AreParties here.now.film.now here.now.q.0 self.new.many self.new }
        ensures asked { AreAsked here.now.film.now here.now.q.0 self.new.many self.new }
        ensures more { self.new.asked ≡ count + 1 }
    {
        here.film.keeps_limits();
        fewer_newcomers_wait_no_more();
        let asked = self.asked;
        self.asked = count + 1;
        for place in 0..self.number {
            if self.extra >= self.need {
                return;
            }
            let newcomers = choices.at(place, count);
            if asked > 0 && choices.at(place, asked - 1).0 == newcomers.0 {
                continue;
            }
            let group = set_from(here.actors, place * self.many, self.many);
            let value = here.tables.arrivals.value(here.q, group, newcomers, room);
            self.raise(place, value);
        }
    }

    /// Raises the known value of the party at this place, if `value` is greater.
    fn raise(&mut self, place: usize, value: u64)
        requires place { place < length self.old.values }
        requires fits { self.old.extra + (value - slice_index self.old.values place) < 2 ^ 64 }
        ensures { self.new ≡ record self.old {
          values = slice_set self.old.values place (max (slice_index self.old.values place) value);
          extra = self.old.extra + (value - slice_index self.old.values place);
        } }
    {
        let more = value.saturating_sub(self.values[place]);
        self.values[place] += more;
        self.extra += more;
    }
}

/// Returns the actors of the set by falling hold rate. Time is linear in the film's number of actors.
fn located(film: &Film, tables: &BoundTables, on: Mask) -> Falling
    requires tables { AreTables film.now tables.now }
    requires lies { LiesBelow (length film.now.rates) on.0 }
    ensures { result.items ≡ by_falling (slice_index film.now.holds) (members on.0) }
{
    film.keeps_limits();
    let mut located = ArrayVec::new();
    for &actor in tables.by_hold.iter() {
        if on.has(actor) {
            located.push(actor);
        }
    }
    located
}

/// Returns the set of the actors at `count` places of a list from `from` on, or of fewer at its end. Time is linear in
/// `count`.
pub(crate) fn set_from(actors: &[u32], from: usize, count: usize) -> Mask
    requires listed { All (λ actor. actor < 64) actors.now }
    requires fits { from + count < 2 ^ 63 }
    ensures { result.0 ≡ set_of (take count (drop from actors.now)) }
{
    let mut set = Mask(0);
    for place in from..(from + count).min(actors.len()) {
        set = set.with(actors[place]);
    }
    set
}
