// Static bounds of four kinds.
ghost use Rattle.std.specs.Prelude.{◌≡◌, ◌≢◌, ℕ, ◌<◌, ◌≤◌, ◌⊎◌, true, ◌∷◌, drop, length, take};
ghost use Rattle.strip_mask.specs.Set.{has, members, size, without};
ghost use Rattle.strip_model.specs.declared.kind.Kind.TheVariants.{Arrivals, Groups, Pairs, Plain};
ghost use Rattle.strip_film.specs.Film.{LiesIn};
ghost use Rattle.strip_film.specs.Shoot.{on_location};
ghost use Rattle.strip_bound.specs.Bounds.{bound, days_with_without, groups_extra, groups_of, pair_extra, pairs_extra, set_of};
ghost use Rattle.strip_bound.specs.Tables.{AreTables};

use crate::parties::extra_of_parties;
use crate::tables::BoundTables;
use strip_arrivals::Room;
use strip_film::{Film, on};
use strip_mask::{Mask, sum_over};
use strip_model::Kind;

/// Returns the static bound of this kind: a lower bound, in whole units of money, of the cost of finishing a set of the
/// film's scenes. It allocates no memory.
pub fn static_bound(film: &Film, tables: &BoundTables, kind: Kind, q: Mask) -> u64
    requires tables { AreTables film.now tables.now }
    requires lies { LiesIn film.now q.0 }
    ensures { result ≡ bound kind film.now q.0 }
{
    film.keeps_limits();
    match kind {
        Kind::Plain => plain(film, tables, q),
        Kind::Pairs => pairs(film, tables, q),
        Kind::Groups => groups(film, tables, q),
        Kind::Arrivals => arrivals_reach(film, tables, q, u64::MAX, &mut Room::new()),
    }
}

/// Returns a number that is at most the static bound of this kind, and at least `need` or the bound, in whole units of
/// money. The bound `Arrivals` is a sum that is computed only until it reaches `need`; the other kinds return their
/// bound. It allocates no memory.
pub(crate) fn static_reach(
    film: &Film,
    tables: &BoundTables,
    kind: Kind,
    q: Mask,
    need: u64,
    room: &mut Room,
) -> u64
    requires tables { AreTables film.now tables.now }
    requires lies { LiesIn film.now q.0 }
    ensures most { result ≤ bound kind film.now q.0 }
    ensures reaches { (need ≤ result) ⊎ (result ≡ bound kind film.now q.0) }
{
    match kind {
        Kind::Plain | Kind::Pairs | Kind::Groups => static_bound(film, tables, kind, q),
        Kind::Arrivals => arrivals_reach(film, tables, q, need, room),
    }
}

/// Returns the plain bound, in whole units of money: each scene's days at the rates of its cast. Time is linear in the
/// size of the set.
pub fn plain(film: &Film, tables: &BoundTables, q: Mask) -> u64
    requires tables { AreTables film.now tables.now }
    requires lies { LiesIn film.now q.0 }
    ensures { result ≡ bound Plain film.now q.0 }
{
    film.keeps_limits();
    sum_over(&tables.weights, q)
}

/// Returns the plain bound plus a lower bound of the pay for waiting, by pairs of actors on location. Each pair takes a
/// few lookups of days.
pub fn pairs(film: &Film, tables: &BoundTables, q: Mask) -> u64
    requires tables { AreTables film.now tables.now }
    requires lies { LiesIn film.now q.0 }
    ensures { result ≡ bound Pairs film.now q.0 }
{
    film.keeps_limits();
    plain(film, tables, q) + extras_of_pairs(film, tables, q)
}

/// Returns the plain bound plus a lower bound of the pay for waiting, by groups of six actors on location. It computes
/// the extra of each group.
pub fn groups(film: &Film, tables: &BoundTables, q: Mask) -> u64
    requires tables { AreTables film.now tables.now }
    requires lies { LiesIn film.now q.0 }
    ensures { result ≡ bound Groups film.now q.0 }
{
    film.keeps_limits();
    plain(film, tables, q) + extras_of_groups(film, tables, q)
}

/// Returns the plain bound. If `need` exceeds it, adds the parties' pay for waiting.
fn arrivals_reach(film: &Film, tables: &BoundTables, q: Mask, need: u64, room: &mut Room) -> u64
    requires tables { AreTables film.now tables.now }
    requires lies { LiesIn film.now q.0 }
    ensures most { result ≤ bound Arrivals film.now q.0 }
    ensures reaches { (need ≤ result) ⊎ (result ≡ bound Arrivals film.now q.0) }
{
    film.keeps_limits();
    let plain = plain(film, tables, q);
    if plain >= need {
        return plain;
    }
    plain + extra_of_parties(film, tables, q, need - plain, room)
}

/// Returns the sum of the extras of the actors on location, paired by rising number. A single last actor adds nothing.
fn extras_of_pairs(film: &Film, tables: &BoundTables, q: Mask) -> u64
    requires tables { AreTables film.now tables.now }
    requires lies { LiesIn film.now q.0 }
    ensures { result ≡ pairs_extra film.now q.0 (members (on_location film.now q.0)) }
{
    film.keeps_limits();
    let mut left = on(film, q);
    let mut sum = 0;
    while left.size() >= 2 {
        let a = least(left);
        let rest = left.without(a);
        let b = least(rest);
        sum += pair_extra(film, tables, q, a, b);
        left = rest.without(b);
    }
    sum
}

/// Returns a lower bound of the pay for waiting of two actors on location. One of them leaves last, and waits on the
/// days of the other alone.
fn pair_extra(film: &Film, tables: &BoundTables, q: Mask, a: u32, b: u32) -> u64
    requires tables { AreTables film.now tables.now }
    requires lies { LiesIn film.now q.0 }
    requires first { a < length film.now.rates }
    requires second { b < length film.now.rates }
    ensures { result ≡ pair_extra film.now q.0 a b }
{
    film.keeps_limits();
    let holds = film.holds();
    let a_waits = holds[a as usize] * days_apart(film, tables, q, b, a);
    let b_waits = holds[b as usize] * days_apart(film, tables, q, a, b);
    a_waits.min(b_waits)
}

/// Returns the days of the set's scenes in which the first actor works and the second doesn't.
pub(crate) fn days_apart(film: &Film, tables: &BoundTables, q: Mask, a: u32, b: u32) -> u64
    requires tables { AreTables film.now tables.now }
    requires lies { LiesIn film.now q.0 }
    requires first { a < length film.now.rates }
    requires second { b < length film.now.rates }
    ensures days { result ≡ days_with_without film.now q.0 a b }
    ensures small { result ≤ 19_800 }
{
    film.keeps_limits();
    let of_a = Mask(tables.plays[a as usize]).meet(q);
    let of_b = Mask(tables.plays[b as usize]).meet(q);
    tables.groups.day_sums().sum(of_a.minus(of_b))
}

/// Returns the sum of the extras of the actors on location, in groups of six by rising number.
fn extras_of_groups(film: &Film, tables: &BoundTables, q: Mask) -> u64
    requires tables { AreTables film.now tables.now }
    requires lies { LiesIn film.now q.0 }
    ensures { result ≡ groups_extra film.now q.0 (groups_of film.now q.0) }
{
    film.keeps_limits();
    let mut left = on(film, q);
    let mut sum = 0;
    while !left.is_empty() {
        let (group, rest) = first_six(left);
        sum += tables.groups.extra(group, q);
        left = rest;
    }
    sum
}

/// Returns the six least numbers of the set, or all if there are fewer, and the rest of the set.
fn first_six(set: Mask) -> (Mask, Mask)
    ensures group { result.0.0 ≡ set_of (take 6 (members set.0)) }
    ensures rest { members result.1.0 ≡ drop 6 (members set.0) }
    ensures few { size result.0.0 ≤ 6 }
    ensures within { (number : ℕ) → has result.1.0 number ≡ true → has set.0 number ≡ true }
{
    let mut group = Mask(0);
    let mut left = set;
    for _turn in 0..6u32 {
        if left.is_empty() {
            return (group, left);
        }
        let number = least(left);
        group = group.with(number);
        left = left.without(number);
    }
    (group, left)
}

/// Returns the least number of a nonempty set.
fn least(set: Mask) -> u32
    requires { set.0 ≢ 0 }
    ensures begins { members set.0 ≡ result ∷ members (without set.0 result) }
    ensures member { has set.0 result ≡ true }
    ensures below { result < 64 }
{
    match set.first() {
        Some(number) => number,
        None => unreachable!(),
    }
}
