// The rows of pairs, after those of the scenes: one scene is shot before another.
ghost use Rattle.std.specs.Prelude.{◌≡◌, ◌≤◌, ◌∷◌, ◌<◌, [], drop, length, map, false, All, IfOk, IfErr, OnOk};
ghost use Rattle.std.specs.String.{string_bytes};
ghost use Rattle.strip_model.specs.Befores.{Knows};
ghost use Rattle.strip_model.specs.Pairs.{FitPairs, IsKnownPair, Leads};
ghost use Rattle.strip_text.specs.Checks.{check};
ghost use Rattle.strip_text.specs.Rows.{field_of, is_empty_row};
ghost use Rattle.strip_instance.specs.declared.fault.InstanceFault.TheVariants.{Memory as OutOfMemory};
ghost use Rattle.strip_instance.specs.Befores.{joined, pairs_of, said_pair, shortest_way};
ghost use Rattle.strip_instance.specs.Checks.{Makes};
ghost use Rattle.strip_instance.specs.Fault.{fault_data};
ghost use Rattle.strip_instance.specs.Faults.{before_checks, befores_checks, way_checks};
ghost use Rattle.strip_instance.specs.Shown.{names_of, rows_from};

use crate::fault::InstanceFault;
use crate::laws::the_shortest_way_is_one;
use crate::names::scene_number;
use crate::row::{is_before_row, next_row};
use crate::way::shortest_way;
use std::alloc::Global;
use strip_io::Memory;
use strip_model::{Befores, Pair, Scene};
use strip_text::{Row, Rows};

/// Reads the pairs from the rows after those of these scenes. If `there` holds, `row` has the first of these rows; the
/// other rows follow.
pub(crate) fn read_befores(
    alloc: Global,
    scenes: &[Scene],
    rows: &mut Rows<'_>,
    row: &mut Row,
    there: bool,
) -> Result<Vec<Pair>, InstanceFault>
    requires { length scenes.now ≤ 200 }
    ensures makes { Makes (befores_checks (names_of scenes.now) rows.old.number
        (rows_from there row.old rows.old.left)) result }
    ensures pairs { IfOk result (λ pairs. pairs.items
        ≡ pairs_of (names_of scenes.now) (rows_from there row.old rows.old.left)) }
{
    let mut befores = Befores::new();
    let mut pairs = Vec::new(alloc);
    let mut there = there;
    while there {
        take_before(alloc, scenes, &mut befores, &mut pairs, row, rows.number())?;
        there = next_row(rows, row)?;
    }
    Ok(pairs)
}

/// Appends the pair of the row with this number. It skips a pair that is there already, and an empty row.
fn take_before(
    alloc: Global,
    scenes: &[Scene],
    befores: &mut Befores,
    pairs: &mut Vec<Pair>,
    row: &Row,
    number: u64,
) -> Result<(), InstanceFault>
    requires few { length scenes.now ≤ 200 }
    requires known { Knows befores.old pairs.old.items }
    requires fit { FitPairs (length (names_of scenes.now)) pairs.old.items }
    ensures makes { Makes (before_checks (names_of scenes.now) pairs.old.items number row.now) result }
    ensures pairs { OnOk result (pairs.new.items ≡ joined pairs.old.items (said_pair (names_of scenes.now) row.now)) }
    ensures known { OnOk result (Knows befores.new pairs.new.items) }
{
    if row.is_empty() {
        return Ok(());
    }
    let Some(pair) = pair_of(scenes, row) else {
        return Err(InstanceFault::BadBefore { row: number });
    };
    if befores.stands(pair) {
        return Ok(());
    }
    if befores.leads(pair.then, pair.first) {
        return Err(cycle(alloc, scenes, pairs, pair, number)?);
    }
    befores.add(pair);
    pairs.push(pair)?;
    Ok(())
}

/// Returns the row's pair, or none if the row has no pair.
fn pair_of(scenes: &[Scene], row: &Row) -> Option<Pair>
    requires { length scenes.now ≤ 200 }
    ensures { result ≡ said_pair (names_of scenes.now) row.now }
{
    if !is_before_row(row) || row.len() < 3 || !ends_behind_third(row) {
        return None;
    }
    let first = scene_number(scenes, row.field(1))?;
    let then = scene_number(scenes, row.field(2))?;
    if first == then {
        return None;
    }
    Some(Pair { first, then })
}

/// Tells whether each field after the third is empty.
fn ends_behind_third(row: &Row) -> bool
    ensures { result ≡ is_empty_row (drop 3 row.now) }
{
    for place in 3..row.len() {
        if !row.field(place).is_empty() {
            return false;
        }
    }
    true
}

/// Returns the fault of the row with this number, whose pair makes a cycle with the earlier pairs.
fn cycle(
    alloc: Global,
    scenes: &[Scene],
    pairs: &[Pair],
    pair: Pair,
    number: u64,
) -> Result<InstanceFault, Memory>
    requires few { length scenes.now ≤ 200 }
    requires fit { FitPairs (length (names_of scenes.now)) pairs.now }
    requires known { IsKnownPair (length (names_of scenes.now)) pair }
    requires leads { Leads pairs.now pair.then pair.first }
    ensures { IfOk result (λ fault.
        way_checks (names_of scenes.now) number (shortest_way (length (names_of scenes.now)) pairs.now pair.then pair.first)
        ≡ check false (fault_data fault) ∷ []) }
{
    the_shortest_way_is_one();
    let way = shortest_way(alloc, pairs, pair.then, pair.first)?;
    let names = names_along(alloc, scenes, &way)?;
    Ok(InstanceFault::Cycle {
        row: number,
        scenes: way,
        names,
    })
}

/// Returns the names of the scenes with these numbers.
fn names_along(alloc: Global, scenes: &[Scene], numbers: &[u16]) -> Result<Vec<String>, Memory>
    requires { All (λ number. number < length scenes.now) numbers.now }
    ensures { IfOk result (λ names. map string_bytes names.items ≡ map (field_of (names_of scenes.now)) numbers.now) }
{
    let mut names = Vec::new(alloc);
    for number in numbers {
        let name = String::from_str(alloc, scenes[*number as usize].name.as_str())?;
        names.push(name)?;
    }
    Ok(names)
}
