// The shared table: stripes behind locks.
ghost use Rattle.std.specs.Prelude.{◌≡◌, ◌≤◌, vec_len};
ghost use Rattle.strip_hand.specs.Hand.{Knows};
ghost use Rattle.strip_book.specs.Pass.{IsPassOf, known, table_of};
ghost use Rattle.strip_stripes.specs.Shelf.{IsProbed, IsTrueAnswer};

use crate::named::Named;
use crate::shelf::Shelf;
use std::alloc::Global;
use std::sync::{Mutex, Wait};
use strip_book::{Book, BookPass};
use strip_film::{Known, Noted, Probe};
use strip_io::Memory;
use strip_table::{PLACES, STRIPES, stripe_of};

/// The table that workers share: 16 shelves, each behind its own lock.
#[derive(Drop)]
pub struct Stripes<N: Named> {
    shelves: Vec<Mutex<Shelf<N>>>,
    pub ghost count: { vec_len shelves ≡ 16 },
}

impl<N: Named> Stripes<N> {
    /// Makes an empty table of `entries` entries, 64 to 4,194,304, in buckets of four. It allocates all memory of the
    /// table, at most 24 bytes for each entry, and fails only if memory runs out.
    pub fn new(
        alloc: Global,
        book: &Book,
        pass: &mut BookPass,
        entries: u32,
    ) -> Result<Stripes<N>, Memory>
        requires named { table_of book.now ≡ N.table }
        requires pass { IsPassOf book.now pass.old }
        requires some_entries { 64 ≤ entries }
        ensures pass { IsPassOf book.now pass.new }
        ensures same { known pass.new ≡ known pass.old }
    {
        let buckets = entries / (STRIPES * PLACES as u32);
        let mut shelves = Vec::new(alloc);
        for _turn in 0..16usize {
            let shelf: Shelf<N> = Shelf::new(alloc, book, pass, buckets)?;
            shelves.push(Mutex::new(shelf))?;
        }
        Ok(Stripes { shelves })
    }

    /// Looks up the set's entry, whose bound is at most the cost of finishing the set. If there is one, the pass then
    /// knows its line, with this set and a bound at least as great. It waits for the lock of the set's stripe.
    pub fn probe<R: Wait>(&self, rt: &R, book: &Book, pass: &mut BookPass, set: u64) -> Probe
        requires named { table_of book.now ≡ N.table }
        requires pass { IsPassOf book.now pass.old }
        ensures pass { IsPassOf book.now pass.new }
        ensures probed { IsProbed (known pass.old) set result (known pass.new) }
        ensures true_bound { IsTrueAnswer N.table set result }
    {
        let shelf = &self.shelves[stripe_of(set) as usize];
        shelf.lock(rt).probe(book, pass, set)
    }

    /// Inserts a line that the pass knows, so that others can find it, and returns the effect. It waits for the lock of
    /// the set's stripe.
    pub fn note<R: Wait>(&self, rt: &R, book: &Book, pass: &mut BookPass, line: &Known) -> Noted
        requires named { table_of book.now ≡ N.table }
        requires pass { IsPassOf book.now pass.old }
        requires knows { Knows (known pass.old).lines line.now }
        ensures pass { IsPassOf book.now pass.new }
        ensures same { known pass.new ≡ known pass.old }
    {
        let shelf = &self.shelves[stripe_of(line.set) as usize];
        shelf.lock(rt).note(book, pass, line)
    }
}
