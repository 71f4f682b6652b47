// Simulated annealing of an order.
ghost use Rattle.std.specs.Prelude.{◌≡◌, ◌≤◌, IfSome};
ghost use Rattle.strip_film.specs.Path.{IsComplete};
ghost use Rattle.strip_film.specs.Shown.{path_data};

use crate::cooling::Cooling;
use crate::draws::Draws;
use crate::order::Order;
use crate::prices::Prices;
use strip_film::laws::what_remains_lies_in_the_film;
use strip_film::{Film, MAX_COUNT, Path, ready};

/// Improves a path by simulated annealing, with `tries` random changes in turn. A change is accepted if its order keeps
/// the pairs and costs no more than the slack beyond the current order. Returns the path of the cheapest order
/// accepted, or the given path if there are no tries or fewer than three scenes. It allocates no memory. Each try takes
/// time linear in the number of scenes.
pub(crate) fn anneal(
    film: &Film,
    start: &Path,
    tries: u32,
    cooling: Cooling,
    draws: &mut Draws,
) -> Path
    requires { IsComplete film.now (path_data start.now) }
    ensures complete { IsComplete film.now (path_data result) }
    ensures untried { tries ≡ 0 → path_data result ≡ path_data start.now }
{
    film.keeps_limits();
    let scenes = start.scenes();
    let count = scenes.len();
    if tries == 0 || count < 3 {
        return *start;
    }
    let prices = Prices::of(film);
    let order = Order::of(film, &prices, scenes);
    let best = cheapest_scenes(&prices, order, count, tries, cooling, draws);
    walked(film, &best[..count]).unwrap_or(*start)
}

/// Returns the scenes of the cheapest order accepted, or of the first if several cost the same. The given order counts
/// as the first.
fn cheapest_scenes(
    prices: &Prices,
    start: Order,
    count: usize,
    tries: u32,
    cooling: Cooling,
    draws: &mut Draws,
) -> [u8; MAX_COUNT]
    requires { (3 ≤ count) × (count ≤ MAX_COUNT) }
{
    let mut now = start;
    let mut next = start;
    let begun = start.waits(0, count);
    let mut waits = begun;
    let mut least = begun;
    let mut best = start.scenes();
    for turn in 0..tries {
        let Some(change) = draws.draw(count) else {
            continue;
        };
        let piece = now.waits(change.first, change.end);
        let most = piece.saturating_add(cooling.slack(begun, turn));
        if let Some(changed) = next.change(prices, &now, &change, most) {
            now.take(&next, &change);
            waits = waits.saturating_sub(piece).saturating_add(changed);
            if waits < least {
                least = waits;
                best = now.scenes();
            }
        }
    }
    best
}

/// Returns the complete path along the scenes, or none if some scene is not ready in its turn or some scene remains.
fn walked(film: &Film, scenes: &[u8]) -> Option<Path>
    ensures { IfSome result (λ path. IsComplete film.now (path_data path)) }
{
    what_remains_lies_in_the_film();
    let mut path = Path::start(film);
    for scene in scenes {
        let scene = u32::from(*scene);
        if scene as usize >= MAX_COUNT || !ready(film, path.rest()).has(scene) {
            return None;
        }
        path = path.extend(film, scene);
    }
    path.rest().is_empty().then_some(path)
}
