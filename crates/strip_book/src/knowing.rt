// How passes share their knowledge.
ghost use Rattle.std.specs.Prelude.{◌≡◌, ◌<◌, ◌≤◌};
ghost use Rattle.strip_lines.specs.Lines.{GrowTo};
ghost use Rattle.strip_book.specs.Pass.{Hears, IsCopyOf, IsPassOf, Joins, Settles, known, known_lines, table_of};
ghost use Rattle.strip_book.specs.Steps.{lightened, split_off};

use crate::book::Book;
use crate::pass::{BookCopy, BookPass};
use crate::rule::{Compare, Copied, Cut, Heard, Merge, See};
use crate::words::QUIET;

impl BookPass {
    /// Splits off a pass of weight 1, which has this pass's knowledge, but no parts. It announces at the given desk,
    /// one of 64. The weight of this pass must be at least 2, and falls by 1.
    pub fn split(&mut self, book: &Book, desk: u32) -> BookPass
        requires pass { IsPassOf book.now self.old }
        requires weight { 2 ≤ (known self.old).weight }
        requires desk { desk < 64 }
        ensures pass { IsPassOf book.now self.new }
        ensures lighter { known self.new ≡ lightened (known self.old) }
        ensures new_pass { IsPassOf book.now result }
        ensures knows { known result ≡ split_off (known self.old) }
    {
        let seat = book.table.shared.split_seat::<Cut>(&mut self.seat);
        BookPass {
            seat,
            desk,
            is_spent: self.is_spent,
        }
    }

    /// Joins another pass of the same book into this one: its weight, its lines, and its entries, behind this one's.
    pub fn join(&mut self, book: &Book, other: BookPass)
        requires pass { IsPassOf book.now self.old }
        requires other { IsPassOf book.now other }
        ensures pass { IsPassOf book.now self.new }
        ensures joined { Joins (known self.old) (known other) (known self.new) }
    {
        let BookPass { seat, is_spent, .. } = other;
        let words = &book.table.shared;
        words.join_seat::<Merge>(&mut self.seat, seat);
        words.load::<See>(&mut self.seat, QUIET);
        self.is_spent |= is_spent;
    }

    /// Lets the pass learn all lines. If it has the full weight, 2^32, since all others were joined into it, these are
    /// all lines of its own entries.
    pub fn settle(&mut self, book: &Book)
        requires { IsPassOf book.now self.old }
        ensures pass { IsPassOf book.now self.new }
        ensures settled { Settles (known self.old) (known self.new) }
    {
        book.table.shared.load::<See>(&mut self.seat, QUIET);
    }

    /// Returns a copy with this pass's knowledge of lines.
    pub fn copy(&mut self, book: &Book) -> BookCopy
        requires { IsPassOf book.now self.old }
        ensures pass { IsPassOf book.now self.new }
        ensures same { known self.new ≡ known self.old }
        ensures copy { IsCopyOf (table_of book.now) result }
        ensures knows { known_lines result ≡ (known self.old).lines }
    {
        let seat = book.table.shared.split_seat::<Copied>(&mut self.seat);
        BookCopy { seat }
    }

    /// Gives the pass the knowledge of a copy.
    pub fn hear(&mut self, book: &Book, copy: BookCopy)
        requires pass { IsPassOf book.now self.old }
        requires copy { IsCopyOf (table_of book.now) copy }
        ensures pass { IsPassOf book.now self.new }
        ensures heard { Hears (known self.old) (known_lines copy) (known self.new) }
    {
        let BookCopy { seat } = copy;
        let words = &book.table.shared;
        words.join_seat::<Heard>(&mut self.seat, seat);
        words.load::<See>(&mut self.seat, QUIET);
    }
}

impl BookCopy {
    /// Returns a copy with this copy's knowledge of lines.
    pub fn copy(&mut self, book: &Book) -> BookCopy
        requires { IsCopyOf (table_of book.now) self.old }
        ensures kept { IsCopyOf (table_of book.now) self.new }
        ensures same { known_lines self.new ≡ known_lines self.old }
        ensures copy { IsCopyOf (table_of book.now) result }
        ensures knows { known_lines result ≡ known_lines self.old }
    {
        let seat = book.table.shared.split_seat::<Copied>(&mut self.seat);
        BookCopy { seat }
    }

    /// Gives the copy the knowledge of another copy.
    pub fn hear(&mut self, book: &Book, other: BookCopy)
        requires copy { IsCopyOf (table_of book.now) self.old }
        requires other { IsCopyOf (table_of book.now) other }
        ensures copy { IsCopyOf (table_of book.now) self.new }
        ensures grow { GrowTo (known_lines self.old) (known_lines self.new) }
        ensures heard { GrowTo (known_lines other) (known_lines self.new) }
    {
        let BookCopy { seat } = other;
        let words = &book.table.shared;
        words.join_seat::<Heard>(&mut self.seat, seat);
        words.load::<Compare>(&mut self.seat, QUIET);
    }
}
