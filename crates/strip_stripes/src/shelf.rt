// A stripe with the knowledge of its lines.
ghost use Rattle.std.specs.Prelude.{◌≡◌, ◌<◌, [], length, replicate, slice_set, IfOk};
ghost use Rattle.strip_table.specs.Home.{bucket_of};
ghost use Rattle.strip_table.specs.Bucket.{Puts, find_in};
ghost use Rattle.strip_table.specs.Stripe.{home};
ghost use Rattle.strip_hand.specs.Hand.{Knows};
ghost use Rattle.strip_book.specs.Pass.{IsPassOf, known, table_of};
ghost use Rattle.strip_stripes.specs.Shelf.{AreTrue, IsProbed, IsTrueAnswer, answer_of};

use crate::laws::the_entries_of_a_shelf_are_true;
use crate::named::Named;
use std::alloc::Global;
use std::marker::{Model, PhantomData};
use strip_book::{Book, BookCopy, BookPass};
use strip_film::{Known, Noted, Probe};
use strip_io::Memory;
use strip_table::Stripe;
use strip_table::laws::the_entry_of_a_set_is_found;

/// A stripe of the table, and a copy of a pass's knowledge. The copy knows the line of each entry, with a bound at
/// least as great.
#[derive(Drop)]
pub struct Shelf<N: Named> {
    stripe: Stripe,
    copy: BookCopy,
    of: PhantomData<N>,
}

impl<N: Named> Model for Shelf<N> {
    ghost use Rattle.std.specs.Prelude.{List};
    ghost use Rattle.strip_film.specs.declared.shared.Known.{Known};
    ghost use Rattle.strip_stripes.specs.Shelf.{IsShelf};

    ghost Value = { List (List Known) };

    ghost view = { λ s. s.stripe };

    ghost invariant = { λ s. IsShelf N.table s.copy s.stripe };
}

impl<N: Named> Shelf<N> {
    /// Makes a shelf of `buckets` empty buckets, at least 1. It allocates all memory of the shelf, and fails only if
    /// memory runs out.
    pub fn new(
        alloc: Global,
        book: &Book,
        pass: &mut BookPass,
        buckets: u32,
    ) -> Result<Shelf<N>, Memory>
        requires named { table_of book.now ≡ N.table }
        requires pass { IsPassOf book.now pass.old }
        requires buckets { 0 < buckets }
        ensures pass { IsPassOf book.now pass.new }
        ensures same { known pass.new ≡ known pass.old }
        ensures empty { IfOk result (λ shelf. shelf ≡ replicate buckets []) }
    {
        let copy = pass.copy(book);
        Ok(Shelf {
            stripe: Stripe::new(alloc, buckets)?,
            copy,
            of: PhantomData,
        })
    }

    /// A law: each entry is at most the cost of finishing its set, whenever the shelf is taken from its lock. The call
    /// does nothing when it runs.
    pub fn keeps_true_bounds(&self)
        ensures { AreTrue N.table self.now }
    {
        let _ = &self.copy;
        the_entries_of_a_shelf_are_true();
    }

    /// Looks up the set's entry, whose bound is a valid lower bound. If there is one, the pass then knows its line.
    pub fn probe(&mut self, book: &Book, pass: &mut BookPass, set: u64) -> Probe
        requires named { table_of book.now ≡ N.table }
        requires pass { IsPassOf book.now pass.old }
        ensures stays { self.new ≡ self.old }
        ensures answer { result ≡ answer_of (find_in (home self.old set) set) }
        ensures pass { IsPassOf book.now pass.new }
        ensures probed { IsProbed (known pass.old) set result (known pass.new) }
        ensures true_bound { IsTrueAnswer N.table set result }
    {
        self.stripe.keeps_limits();
        the_entry_of_a_set_is_found();
        the_entries_of_a_shelf_are_true();
        match self.stripe.find(set) {
            Some(entry) => {
                pass.hear(book, self.copy.copy(book));
                Probe::Hit(entry)
            }
            None => Probe::Miss,
        }
    }

    /// Inserts a line that the pass knows into the bucket of its set, and returns the effect.
    pub fn note(&mut self, book: &Book, pass: &mut BookPass, line: &Known) -> Noted
        requires named { table_of book.now ≡ N.table }
        requires pass { IsPassOf book.now pass.old }
        requires knows { Knows (known pass.old).lines line.now }
        ensures puts { Puts (home self.old line.now.set) line.now (home self.new line.now.set) result }
        ensures others { self.new ≡ slice_set self.old (bucket_of line.now.set (length self.old))
            (home self.new line.now.set) }
        ensures pass { IsPassOf book.now pass.new }
        ensures same { known pass.new ≡ known pass.old }
    {
        self.stripe.keeps_limits();
        self.copy.hear(book, pass.copy(book));
        self.stripe.put(line)
    }
}
