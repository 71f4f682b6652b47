// From orders of classes back to orders of scenes.
ghost use Rattle.std.specs.Prelude.{◌≡◌, ℕ, ◌<◌, All, IfOk, length, reverse};
ghost use Rattle.strip_model.specs.Film.{FilmData};
ghost use Rattle.strip_model.specs.Order.{IsOrder};
ghost use Rattle.strip_model.specs.Pay.{pay_of};
ghost use Rattle.strip_reduce.specs.Shown.{reduced_data};
ghost use Rattle.strip_reduce.specs.State.{way_back};
ghost use Rattle.strip_reduce.specs.Oriented.{oriented};

use crate::reduced::Reduced;
use std::alloc::Global;
use strip_io::Memory;

/// Expands an order of classes to an order of scenes: each class becomes its scenes, in the class's own order. Time and
/// memory are linear in the number of scenes. It fails only if memory runs out.
pub fn expand(alloc: Global, reduced: &Reduced, order: &[u8]) -> Result<Vec<u16>, Memory>
    requires { All (λ class. class < length reduced.now.film.casts) order.now }
    ensures { IfOk result (λ scenes. scenes.items ≡ way_back (reduced_data reduced.now).members order.now) }
{
    let mut scenes = Vec::new(alloc);
    for class in order {
        scenes.extend_from_slice(&reduced.classes[*class as usize])?;
    }
    Ok(scenes)
}

/// Reverses the order if its first number is greater than its last. So an order and its reverse, which pay the same,
/// give one result. It allocates no memory.
pub fn orient(order: &mut [u8])
    ensures oriented { order.new ≡ oriented order.old }
    ensures order { (n : ℕ) → IsOrder n order.old → IsOrder n order.new }
    ensures pay { (film : FilmData) → pay_of film order.new ≡ pay_of film order.old }
    ensures same { (n : ℕ) → IsOrder n order.old → oriented (reverse order.old) ≡ order.new }
{
    if !order.is_empty() && order[order.len() - 1] < order[0] {
        order.reverse();
    }
}
