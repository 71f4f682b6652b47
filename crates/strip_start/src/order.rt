// The current order of the annealing, with the pay for waiting at each place.
ghost use Rattle.std.specs.Prelude.{◌≤◌, ◌<◌, All, length};

use crate::change::Change;
use crate::prices::Prices;
use crate::sides::Sides;
use strip_film::{Film, MAX_COUNT};

/// An order: its scenes, the actors who work before and behind each place as sets of actor numbers, and the pay for
/// waiting at it.
#[derive(Clone, Copy)]
pub(crate) struct Order {
    scenes: [u8; MAX_COUNT],
    before: [u64; MAX_COUNT],
    behind: [u64; MAX_COUNT],
    waits: [u64; MAX_COUNT],
}

impl Order {
    /// Makes the order of these scenes. Time is linear in their number.
    pub(crate) fn of(film: &Film, prices: &Prices, list: &[u8]) -> Order
        requires known { All (λ scene. scene < length film.now.casts) list.now }
        requires few { length list.now ≤ MAX_COUNT }
    {
        let Sides { before, behind } = Sides::of(film, list);
        let mut scenes = [0; MAX_COUNT];
        let mut waits = [0; MAX_COUNT];
        for place in 0..list.len() {
            scenes[place] = list[place];
            waits[place] = prices.wait(list[place], before[place] & behind[place]);
        }
        Order {
            scenes,
            before,
            behind,
            waits,
        }
    }

    pub(crate) fn scenes(&self) -> [u8; MAX_COUNT] {
        self.scenes
    }

    /// Returns the pay for waiting from place `first` to before place `end`.
    pub(crate) fn waits(&self, first: usize, end: usize) -> u64
        requires { (first ≤ end) × (end ≤ MAX_COUNT) }
    {
        let mut sum = 0u64;
        for wait in &self.waits[first..end] {
            sum = sum.saturating_add(*wait);
        }
        sum
    }

    /// Sets the piece to its changed state, from the order `from`, and returns the pay for waiting in it. Returns none
    /// if that exceeds `most` or a pair is broken; the piece is then in no valid state.
    pub(crate) fn change(
        &mut self,
        prices: &Prices,
        from: &Order,
        change: &Change,
        most: u64,
    ) -> Option<u64> {
        let Change { first, end, .. } = *change;
        change.write(&from.scenes[first..end], &mut self.scenes[first..end]);
        if prices.has_pairs() && !self.keeps_pairs(prices, first, end) {
            return None;
        }
        self.look_back(prices, first, end, from.behind[end - 1]);
        self.look_ahead(prices, first, end, from.before[first], most)
    }

    /// Returns whether the piece keeps the pairs.
    fn keeps_pairs(&self, prices: &Prices, first: usize, end: usize) -> bool
        requires { (first ≤ end) × (end ≤ MAX_COUNT) }
    {
        let mut later = 0u64;
        for scene in self.scenes[first..end].iter().rev() {
            if prices.before(*scene) & later != 0 {
                return false;
            }
            later |= 1 << (*scene as u32 % 64);
        }
        true
    }

    /// Sets the actors who work behind each place of the piece, given those who work behind its last place.
    fn look_back(&mut self, prices: &Prices, first: usize, end: usize, behind: u64)
        requires { (first ≤ end) × (end ≤ MAX_COUNT) }
    {
        let mut cast = behind;
        for place in (first..end).rev() {
            self.behind[place] = cast;
            cast |= prices.cast(self.scenes[place]);
        }
    }

    /// Sets the actors who work before each place of the piece, given those who work before its first place. Returns
    /// the pay for waiting in it, or none if that exceeds `most`.
    fn look_ahead(
        &mut self,
        prices: &Prices,
        first: usize,
        end: usize,
        before: u64,
        most: u64,
    ) -> Option<u64>
        requires { (first ≤ end) × (end ≤ MAX_COUNT) }
    {
        let mut cast = before;
        let mut paid = 0u64;
        for place in first..end {
            let scene = self.scenes[place];
            let wait = prices.wait(scene, cast & self.behind[place]);
            paid = paid.saturating_add(wait);
            if paid > most {
                return None;
            }
            self.before[place] = cast;
            self.waits[place] = wait;
            cast |= prices.cast(scene);
        }
        Some(paid)
    }

    /// Copies the changed piece of the other order.
    pub(crate) fn take(&mut self, other: &Order, change: &Change) {
        let Change { first, end, .. } = *change;
        self.scenes[first..end].copy_from_slice(&other.scenes[first..end]);
        self.before[first..end].copy_from_slice(&other.before[first..end]);
        self.behind[first..end].copy_from_slice(&other.behind[first..end]);
        self.waits[first..end].copy_from_slice(&other.waits[first..end]);
    }
}
