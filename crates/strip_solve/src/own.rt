// The order of an instance's rows.
ghost use Rattle.std.specs.Prelude.{◌≡◌, ◌^◌, ◌<◌, IfOk};
ghost use Rattle.strip_mask.specs.Set.{numbers_below};
ghost use Rattle.strip_model.specs.FilmOf.{film_of};
ghost use Rattle.strip_solve.specs.Own.{IsOwn, own_cost};

use std::alloc::Global;
use strip_io::Memory;
use strip_model::{Instance, keeps_pairs, pay};

/// The order of an instance's scenes in its file, and its cost in units of money.
#[derive(Debug, Drop)]
pub struct Own {
    pub order: Vec<u16>,
    pub cost: u64,
}

/// Returns the order of the instance's rows, or none if it breaks a pair.
pub fn own_order(alloc: Global, inst: &Instance) -> Result<Option<Own>, Memory>
    ensures { IfOk result (IsOwn (film_of inst.now)) }
{
    inst.keeps_limits();
    let order = numbers(alloc, inst.scenes().len() as u16)?;
    if !keeps_pairs(inst, &order) {
        return Ok(None);
    }
    let cost = pay(inst, &order);
    Ok(Some(Own { order, cost }))
}

/// Returns the numbers below `count`.
pub(crate) fn numbers(alloc: Global, count: u16) -> Result<Vec<u16>, Memory>
    ensures { IfOk result (λ numbers. numbers.items ≡ numbers_below count) }
{
    let mut numbers = Vec::new(alloc);
    for number in 0..count {
        numbers.push(number)?;
    }
    Ok(numbers)
}

/// Returns the cost of the rows' order without the cost `apart` set apart, in units of money. Without an order it is
/// the greatest number, more than any order costs.
pub fn own_cost(own: &Option<Own>, apart: u64) -> u64
    ensures { result ≡ own_cost own.now apart }
{
    match own {
        Some(own) => own.cost.saturating_sub(apart),
        None => u64::MAX,
    }
}
