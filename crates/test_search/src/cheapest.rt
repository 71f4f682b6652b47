// Enumeration of all orders that keep the pairs.
ghost use Rattle.std.specs.Prelude.{◌≡◌, length, nat_lt, MatchBool, MatchOption, IfOk};
ghost use Rattle.strip_model.specs.Order.{IsOrder};
ghost use Rattle.strip_model.specs.Pay.{pay_of, IsOptimum};
ghost use Rattle.strip_film.specs.Path.{IsPath};
ghost use Rattle.strip_film.specs.Shown.{path_data};
ghost use Rattle.test_search.specs.Cheapest.{IsFirstCheapest};
ghost use Rattle.test_search.specs.Beginning.{IsFirstCheapestFrom};

use std::alloc::Global;
use strip_film::{Film, Path, ready};
use strip_io::Memory;

/// An order of a film's scenes and its pay, in units of money.
#[derive(Debug, Drop)]
pub struct Cheapest {
    pub order: Vec<u8>,
    pub pay: u64,
}

/// Returns a cheapest order that keeps the pairs: the lexicographically first if several cost the same. Time is
/// factorial in the number of scenes. It fails only if memory runs out.
pub fn cheapest_order(alloc: Global, film: &Film) -> Result<Cheapest, Memory>
    ensures order { IfOk result (λ best. IsOrder (length film.now.casts) best.order.items) }
    ensures first { IfOk result (λ best. IsFirstCheapest film.now best.order.items) }
    ensures pay { IfOk result (λ best. best.pay ≡ pay_of film.now best.order.items) }
    ensures optimum { IfOk result (λ best. IsOptimum film.now best.pay) }
{
    cheapest_from(alloc, film, &Path::start(film))
}

/// Returns the lexicographically first of the cheapest orders that keep the pairs and begin with the path's scenes.
fn cheapest_from(alloc: Global, film: &Film, path: &Path) -> Result<Cheapest, Memory>
    requires { IsPath film.now (path_data path.now) }
    ensures first { IfOk result (λ best. IsFirstCheapestFrom film.now (path_data path.now).scenes best.order.items) }
    ensures pay { IfOk result (λ best. best.pay ≡ pay_of film.now best.order.items) }
{
    film.keeps_limits();
    let mut best = None;
    for scene in ready(film, path.rest()).iter() {
        let found = cheapest_from(alloc, film, &path.extend(film, scene))?;
        best = Some(cheaper(best, found));
    }
    match best {
        Some(best) => Ok(best),
        // No scene remains: the path itself is the only order that begins with it.
        None => complete(alloc, path),
    }
}

/// Returns the path's scenes and its pay.
fn complete(alloc: Global, path: &Path) -> Result<Cheapest, Memory>
    ensures order { IfOk result (λ best. best.order.items ≡ (path_data path.now).scenes) }
    ensures pay { IfOk result (λ best. best.pay ≡ (path_data path.now).paid) }
{
    Ok(Cheapest {
        order: Vec::from_slice(alloc, path.scenes())?,
        pay: path.paid(),
    })
}

/// Returns the cheaper of the two, or the earlier one if they cost the same.
fn cheaper(best: Option<Cheapest>, found: Cheapest) -> Cheapest
    ensures { MatchOption best (result ≡ found) (λ b. MatchBool (nat_lt found.pay b.pay) (result ≡ found) (result
        ≡ b)) }
{
    match best {
        Some(best) if best.pay <= found.pay => best,
        _ => found,
    }
}
