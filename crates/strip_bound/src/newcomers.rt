// Choice of the newcomers of each party. A newcomer is an actor who is still to come.
ghost use Rattle.std.specs.Prelude.{◌≡◌, ℕ, ◌+◌, ◌*◌, ◌^◌, ◌<◌, ◌≤◌, ◌⊎◌, true, All, length, slice_index};
ghost use Rattle.strip_mask.specs.Set.{LiesBelow, has};
ghost use Rattle.strip_film.specs.Film.{LiesIn};
ghost use Rattle.strip_film.specs.Shoot.{on_location};
ghost use Rattle.strip_bound.specs.Bounds.{chosen, company, is_newcomer, located_by_hold, newcomers_at, newcomers_of, number_of_parties, pay_of_company, pay_of_newcomer, score, works_any};
ghost use Rattle.strip_bound.specs.Parties.{AreChoices, AreParties};
ghost use Rattle.strip_bound.specs.Tables.{AreTables};

use crate::bounds::days_apart;
use crate::falling::{Falling, place};
use crate::parties::{OnLocation, PARTIES, Parties, set_from};
use crate::tables::BoundTables;
use arrayvec::ArrayVec;
use strip_film::{Film, cast_of};
use strip_mask::Mask;

/// Maximum number of newcomers of a party.
const NEWCOMERS: usize = 2;

/// The newcomers of each party, as sets: the first newcomer alone, and all of them, at most two.
#[derive(Clone, Copy)]
pub(crate) struct Choices {
    pub(crate) first: [u64; PARTIES],
    pub(crate) both: [u64; PARTIES],
}

impl Choices {
    /// Makes choices without newcomers.
    pub(crate) fn none() -> Choices {
        Choices {
            first: [0; PARTIES],
            both: [0; PARTIES],
        }
    }

    /// Chooses the newcomers of the parties greedily. Each party in turn takes, of the newcomers left, the two with the
    /// greatest scores for its group.
    pub(crate) fn of(here: &OnLocation, newcomers: Mask, parties: &Parties) -> Choices
        requires newcomers { newcomers.0 ≡ newcomers_of here.now.film.now here.now.q.0 }
        requires many { (parties.now.many ≡ 7) ⊎ (parties.now.many ≡ 10) }
        requires parties { AreParties here.now.film.now here.now.q.0 parties.now.many parties.now }
        ensures { AreChoices here.now.film.now here.now.q.0 parties.now.many result }
    {
        here.film.keeps_limits();
        let many = parties.many;
        let mut choices = Choices::none();
        let mut left = newcomers;
        for place in 0..parties.number {
            let group = set_from(here.actors, place * many, many);
            let chosen = chosen(here.film, here.tables, here.q, group, left);
            let both = set_from(&chosen, 0, NEWCOMERS);
            choices.first[place] = set_from(&chosen, 0, 1).0;
            choices.both[place] = both.0;
            left = left.minus(both);
        }
        choices
    }

    /// Returns the newcomers of the party at this place, at most `count` of them.
    pub(crate) fn at(&self, place: usize, count: usize) -> Mask
        requires place { place < 10 }
        ensures none { count ≡ 0 → result.0 ≡ 0 }
        ensures first { count ≡ 1 → result.0 ≡ slice_index self.now.first place }
        ensures both { 2 ≤ count → result.0 ≡ slice_index self.now.both place }
    {
        match count {
            0 => Mask(0),
            1 => Mask(self.first[place]),
            _ => Mask(self.both[place]),
        }
    }
}

/// Returns the newcomers of the set. Time is linear in the film's number of actors.
pub(crate) fn newcomers(film: &Film, tables: &BoundTables, q: Mask, on: Mask) -> Mask
    requires tables { AreTables film.now tables.now }
    requires lies { LiesIn film.now q.0 }
    requires on { on.0 ≡ on_location film.now q.0 }
    ensures { result.0 ≡ newcomers_of film.now q.0 }
{
    film.keeps_limits();
    let mut newcomers = Mask(0);
    for actor in 0..film.rates().len() as u32 {
        if is_newcomer(film, tables, q, on, actor) {
            newcomers = newcomers.with(actor);
        }
    }
    newcomers
}

/// Returns whether the actor isn't on location and has at least two scenes in the set.
fn is_newcomer(film: &Film, tables: &BoundTables, q: Mask, on: Mask, actor: u32) -> bool
    requires tables { AreTables film.now tables.now }
    requires lies { LiesIn film.now q.0 }
    requires on { on.0 ≡ on_location film.now q.0 }
    requires known { actor < length film.now.rates }
    ensures { result ≡ is_newcomer film.now q.0 actor }
{
    film.keeps_limits();
    let scenes = Mask(tables.plays[actor as usize]).meet(q);
    !on.has(actor) && scenes.size() >= 2
}

/// Returns the two newcomers with the greatest scores for the group, by number at equal scores, or all if there are
/// fewer. It computes a score for each newcomer.
fn chosen(film: &Film, tables: &BoundTables, q: Mask, group: Mask, newcomers: Mask) -> Falling
    requires tables { AreTables film.now tables.now }
    requires lies { LiesIn film.now q.0 }
    requires group { LiesBelow (length film.now.rates) group.0 }
    requires newcomers { LiesBelow (length film.now.rates) newcomers.0 }
    ensures { result.items ≡ chosen film.now q.0 group.0 newcomers.0 }
{
    film.keeps_limits();
    let mut best = ArrayVec::new();
    if newcomers.is_empty() {
        return best;
    }
    let scores = scores(film, tables, q, group, newcomers);
    for newcomer in newcomers.iter() {
        place(&mut best, &scores, newcomer);
        best.truncate(NEWCOMERS);
    }
    best
}

/// Returns the newcomers' scores for the group, indexed by actor number.
fn scores(film: &Film, tables: &BoundTables, q: Mask, group: Mask, newcomers: Mask) -> [u64; 64]
    requires tables { AreTables film.now tables.now }
    requires lies { LiesIn film.now q.0 }
    requires group { LiesBelow (length film.now.rates) group.0 }
    requires newcomers { LiesBelow (length film.now.rates) newcomers.0 }
    ensures long { length result ≡ 64 }
    ensures scores { (newcomer : ℕ) → has newcomers.0 newcomer ≡ true
        → slice_index result newcomer ≡ score film.now q.0 group.0 newcomer }
{
    film.keeps_limits();
    let mut scores = [0; 64];
    for newcomer in newcomers.iter() {
        scores[newcomer as usize] = score(film, tables, q, group, newcomer);
    }
    scores
}

/// Returns an estimate of the pay for waiting of the newcomer and his company in the group, if one waits for the other.
/// Time is linear in the newcomer's number of scenes and in the size of his company.
fn score(film: &Film, tables: &BoundTables, q: Mask, group: Mask, newcomer: u32) -> u64
    requires tables { AreTables film.now tables.now }
    requires lies { LiesIn film.now q.0 }
    requires group { LiesBelow (length film.now.rates) group.0 }
    requires known { newcomer < length film.now.rates }
    ensures { result ≡ score film.now q.0 group.0 newcomer }
{
    let company = company(film, tables, q, group, newcomer);
    let company_waits = pay_of_company(film, tables, q, company, newcomer);
    company_waits.min(pay_of_newcomer(film, tables, q, company, newcomer))
}

/// Returns the newcomer's company: the actors of the group who work with him in a scene of the set.
fn company(film: &Film, tables: &BoundTables, q: Mask, group: Mask, newcomer: u32) -> Mask
    requires tables { AreTables film.now tables.now }
    requires lies { LiesIn film.now q.0 }
    requires group { LiesBelow (length film.now.rates) group.0 }
    requires known { newcomer < length film.now.rates }
    ensures company { result.0 ≡ company film.now q.0 group.0 newcomer }
    ensures known { LiesBelow (length film.now.rates) result.0 }
{
    film.keeps_limits();
    let scenes = Mask(tables.plays[newcomer as usize]).meet(q);
    group.meet(cast_of(film, scenes))
}

/// Returns the actors' pay if they wait on all of the newcomer's days without them.
fn pay_of_company(film: &Film, tables: &BoundTables, q: Mask, actors: Mask, newcomer: u32) -> u64
    requires tables { AreTables film.now tables.now }
    requires lies { LiesIn film.now q.0 }
    requires actors { LiesBelow (length film.now.rates) actors.0 }
    requires known { newcomer < length film.now.rates }
    ensures { result ≡ pay_of_company film.now q.0 actors.0 newcomer }
{
    film.keeps_limits();
    let holds = film.holds();
    let mut pay = 0;
    for actor in actors.iter() {
        pay += holds[actor as usize] * days_apart(film, tables, q, newcomer, actor);
    }
    pay
}

/// Returns the newcomer's pay if he waits on all days of the actors without him.
fn pay_of_newcomer(film: &Film, tables: &BoundTables, q: Mask, actors: Mask, newcomer: u32) -> u64
    requires tables { AreTables film.now tables.now }
    requires lies { LiesIn film.now q.0 }
    requires actors { LiesBelow (length film.now.rates) actors.0 }
    requires known { newcomer < length film.now.rates }
    ensures { result ≡ pay_of_newcomer film.now q.0 actors.0 newcomer }
{
    film.keeps_limits();
    let own = Mask(tables.plays[newcomer as usize]);
    let without = scenes_with_any(film, tables, actors).meet(q).minus(own);
    film.holds()[newcomer as usize] * tables.groups.day_sums().sum(without)
}

/// Returns the scenes in which at least one of the actors works. Time is linear in the number of actors.
fn scenes_with_any(film: &Film, tables: &BoundTables, actors: Mask) -> Mask
    requires tables { AreTables film.now tables.now }
    requires actors { LiesBelow (length film.now.rates) actors.0 }
    ensures { (scene : ℕ) → has result.0 scene ≡ works_any film.now actors.0 scene }
{
    film.keeps_limits();
    let mut scenes = Mask(0);
    for actor in actors.iter() {
        scenes = scenes.union(Mask(tables.plays[actor as usize]));
    }
    scenes
}
