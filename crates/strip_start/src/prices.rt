// Precomputed numbers by which the annealing compares orders.
use strip_film::{Film, MAX_COUNT};

/// Number of sets of eight actors.
const SETS: usize = 256;

/// A film's numbers in arrays: casts, days, the scenes directly before each scene, and the sums of hold rates. There is
/// a sum for each set within each eight actors. Sums saturate; those of a film within its limits never do.
#[derive(Drop)]
pub(crate) struct Prices {
    casts: [u64; MAX_COUNT],
    days: [u64; MAX_COUNT],
    before: [u64; MAX_COUNT],
    has_pairs: bool,
    holds: [[u64; SETS]; 8],
}

impl Prices {
    /// Makes the prices of a film. It takes an iteration for each scene, and 256 for each eight actors.
    pub(crate) fn of(film: &Film) -> Prices {
        Prices {
            casts: in_array(film.casts()),
            days: in_array(film.days()),
            before: directly_before(film),
            has_pairs: !film.pairs().is_empty(),
            holds: sums_by_eight(film.holds()),
        }
    }

    pub(crate) fn has_pairs(&self) -> bool {
        self.has_pairs
    }

    pub(crate) fn cast(&self, scene: u8) -> u64 {
        self.casts[scene as usize % MAX_COUNT]
    }

    pub(crate) fn before(&self, scene: u8) -> u64 {
        self.before[scene as usize % MAX_COUNT]
    }

    /// Returns the pay for waiting in the scene, if these actors work both before and behind it.
    pub(crate) fn wait(&self, scene: u8, actors: u64) -> u64 {
        let mut waiting = actors & !self.cast(scene);
        let mut hold = 0u64;
        for sums in &self.holds {
            if waiting == 0 {
                break;
            }
            hold = hold.saturating_add(sums[waiting as usize % SETS]);
            waiting >>= 8;
        }
        hold.saturating_mul(self.days[scene as usize % MAX_COUNT])
    }
}

/// Copies the numbers to the front of an array.
fn in_array(numbers: &[u64]) -> [u64; MAX_COUNT] {
    let mut array = [0; MAX_COUNT];
    for (place, number) in array.iter_mut().zip(numbers) {
        *place = *number;
    }
    array
}

fn directly_before(film: &Film) -> [u64; MAX_COUNT] {
    let mut before = [0; MAX_COUNT];
    for scene in 0..MAX_COUNT {
        before[scene] = film.before(scene as u32).0;
    }
    before
}

/// Returns for each eight actors the sums of the hold rates of all sets of them.
fn sums_by_eight(holds: &[u64]) -> [[u64; SETS]; 8] {
    let mut sums = [[0; SETS]; 8];
    for (eight, holds) in sums.iter_mut().zip(holds.chunks(8)) {
        *eight = sums_of(holds);
    }
    sums
}

fn sums_of(holds: &[u64]) -> [u64; SETS] {
    let mut sums = [0u64; SETS];
    for set in 0..SETS {
        sums[set] = sum_in(holds, set);
    }
    sums
}

/// Returns the sum of the numbers whose places are in the set.
fn sum_in(holds: &[u64], set: usize) -> u64 {
    let mut left = set;
    let mut sum = 0u64;
    for hold in holds {
        if left % 2 == 1 {
            sum = sum.saturating_add(*hold);
        }
        left /= 2;
    }
    sum
}
