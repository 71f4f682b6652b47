// Bit sets of numbers below 64: bit `i` stands for number `i`.
ghost use Rattle.std.specs.Prelude.{◌≡◌, ◌↔◌, ℕ, ◌^◌, ◌<◌, ◌≤◌, true, length, IfSome, IsTrue, Some};
ghost use Rattle.std.specs.Iterator.{UpTo, YieldsFirst, item_count};
ghost use Rattle.std.specs.Iterator.SizeHint.{IsWithinCount};
ghost use Rattle.strip_mask.specs.Iter.{rest_of};
ghost use Rattle.strip_mask.specs.Set.{LiesBelow, closed_up, first, full, has, meet, members, minus, size, sum_over, union, with, without};

/// A set of numbers below 64: bit `i` stands for number `i`. Each method but `below`, `lies_below` and the iteration
/// takes a few instructions.
#[derive(Clone, Copy, Debug, PartialEq, Eq)]
pub struct Mask(pub u64);

impl Mask {
    /// Returns the set of the numbers below `count`, which is at most 64. Time is linear in `count`.
    pub fn below(count: u32) -> Mask
        requires { count ≤ 64 }
        ensures { result.0 ≡ full count }
    {
        let mut all = Mask(0);
        for number in 0..count {
            all = all.with(number);
        }
        all
    }

    /// Returns whether each number of the set is below `count`, which is at most 64. Time is linear in `count`.
    pub fn lies_below(self, count: u32) -> bool
        requires { count ≤ 64 }
        ensures { IsTrue result ↔ LiesBelow count self.0 }
    {
        self.minus(Mask::below(count)).is_empty()
    }

    /// Returns whether the set has number `i`, which is below 64.
    pub fn has(self, i: u32) -> bool
        requires { i < 64 }
        ensures { result ≡ has self.0 i }
    {
        self.0 >> i & 1 == 1
    }

    /// Returns the set with number `i`, which is below 64, added.
    pub fn with(self, i: u32) -> Mask
        requires { i < 64 }
        ensures { result.0 ≡ with self.0 i }
    {
        Mask(self.0 | 1 << i)
    }

    /// Returns the set with number `i`, which is below 64, removed.
    pub fn without(self, i: u32) -> Mask
        requires { i < 64 }
        ensures { result.0 ≡ without self.0 i }
    {
        Mask(self.0 & !(1 << i))
    }

    /// Returns the set with number `i`, which is below 64, removed, and each greater number lowered by one.
    pub fn closed_up(self, i: u32) -> Mask
        requires { i < 64 }
        ensures { result.0 ≡ closed_up self.0 i }
    {
        let lower = (1 << i) - 1;
        Mask(self.0 & lower | (self.0 >> 1) & !lower)
    }

    /// Returns the union of both sets.
    pub fn union(self, other: Mask) -> Mask
        ensures { result.0 ≡ union self.0 other.0 }
    {
        Mask(self.0 | other.0)
    }

    /// Returns the intersection of both sets.
    pub fn meet(self, other: Mask) -> Mask
        ensures { result.0 ≡ meet self.0 other.0 }
    {
        Mask(self.0 & other.0)
    }

    /// Returns the set difference: the numbers of this set that the other lacks.
    pub fn minus(self, other: Mask) -> Mask
        ensures { result.0 ≡ minus self.0 other.0 }
    {
        Mask(self.0 & !other.0)
    }

    /// Returns the number of members.
    pub fn size(self) -> u32
        ensures { result ≡ size self.0 }
    {
        self.0.count_ones()
    }

    /// Returns the least member, or none if the set is empty.
    pub fn first(self) -> Option<u32>
        ensures { result ≡ first self.0 }
    {
        if self.0 == 0 {
            None
        } else {
            Some(self.0.trailing_zeros())
        }
    }

    /// Returns whether the set is empty.
    pub fn is_empty(self) -> bool
        ensures { IsTrue result ↔ (self.0 ≡ 0) }
    {
        self.0 == 0
    }

    /// Returns an iterator over the members, in rising order.
    pub fn iter(self) -> MaskIter
        ensures left { rest_of result ≡ members self.0 }
        ensures few { length (rest_of result) ≤ 64 }
    {
        MaskIter { rest: self.0 }
    }
}

impl IntoIterator for Mask {
    type Item = u32;

    type IntoIter = MaskIter;

    ghost into_iter_gives = { λ mask it. rest_of it ≡ members mask.0 };

    fn into_iter(self) -> MaskIter {
        self.iter()
    }
}

/// An iterator over the members of a set, in rising order.
#[derive(Clone, Debug, Drop)]
pub struct MaskIter {
    rest: u64,
}

impl Iterator for MaskIter {
    type Item = u32;

    ghost next_gives = { YieldsFirst rest_of };

    ghost remaining = { item_count rest_of };

    fn next(&mut self) -> Option<u32> {
        if self.rest == 0 {
            return None;
        }
        let i = self.rest.trailing_zeros();
        self.rest &= self.rest - 1;
        Some(i)
    }

    fn size_hint(&self) -> (usize, Option<usize>)
        ensures lower { IsWithinCount result.0 (item_count rest_of self.now) }
        ensures upper { IfSome result.1 (UpTo (item_count rest_of self.now)) }
        ensures value { result ≡ (length (rest_of self.now), Some (length (rest_of self.now))) }
    {
        let count = self.rest.count_ones() as usize;
        (count, Some(count))
    }
}

/// Returns the sum of the values whose indices are in the set. Each member must be an index of the slice, and the sum
/// must be below 2^64. Time is linear in the number of members.
pub fn sum_over(values: &[u64], m: Mask) -> u64
    requires within { (i : ℕ) → has m.0 i ≡ true → i < length values.now }
    requires fits { sum_over values.now m.0 < 2 ^ 64 }
    ensures { result ≡ sum_over values.now m.0 }
{
    let mut sum = 0;
    for i in m.iter() {
        sum += values[i as usize];
    }
    sum
}
