// Beginning parts and making lines.
ghost use Rattle.std.specs.Prelude.{◌≡◌, ◌<◌, false};
ghost use Rattle.strip_film.specs.Shown.{path_data};
ghost use Rattle.strip_book.specs.Pass.{BeginsPart, Enlists, IsNext, IsPassOf, IsSeatOf, MayBegin, MayEnlistNext, Writes, known};
ghost use Rattle.strip_book.specs.Steps.{HasDrawn, about, half_written, written};

use crate::book::Book;
use crate::pass::BookPass;
use crate::rule::{Announce, Begin, Draw, See, WriteBound, WriteSet};
use crate::view::View;
use crate::words::{COUNT, QUIET, bound_word, desk_word, set_word};
use atomic_table::Seat;
use strip_film::{Listed, Path};

impl BookPass {
    /// Begins a part of the search that the pass has not begun, as an entry without a path.
    pub fn begin(&mut self, book: &Book, part: u32)
        requires pass { IsPassOf book.now self.old }
        requires may { MayBegin (known self.old) part }
        ensures pass { IsPassOf book.now self.new }
        ensures begun { BeginsPart (known self.old) part (known self.new) }
    {
        let desk = desk_word(self.desk);
        let part = u64::from(part);
        book.table
            .shared
            .compare_exchange::<Begin>(&mut self.seat, desk, part, part);
    }

    /// Makes a line of the set that remains after a path, with its static bound in units of money. The path must be the
    /// next one of a part that the pass began, and a candidate below the start's cost. If the line budget is used up,
    /// it returns `Spent`. After that the pass draws no further number.
    pub fn enlist(&mut self, book: &Book, part: u32, path: &Path, bound: u64) -> Listed
        requires pass { IsPassOf book.now self.old }
        requires may { MayEnlistNext (known self.old) part (path_data path.now) bound }
        ensures pass { IsPassOf book.now self.new }
        ensures listed { Enlists (known self.old) part (path_data path.now) bound result (known self.new) }
    {
        if self.is_spent {
            book.table.shared.load::<See>(&mut self.seat, QUIET);
            return Listed::Spent { lines: book.nodes };
        }
        let number = draw(book, &mut self.seat, self.desk, part, path);
        if number >= u64::from(book.nodes) {
            self.is_spent = true;
            return Listed::Spent { lines: book.nodes };
        }
        let line = number as u32;
        write(book, &mut self.seat, line, path, bound);
        Listed::Line(line)
    }
}

/// Announces a path at a desk, and draws the number of its line. A number that is not below the line budget means that
/// no line is left.
fn draw(book: &Book, seat: &mut Seat<Path, View>, desk: u32, part: u32, path: &Path) -> u64
    requires seat { IsSeatOf book.now seat.old }
    requires desk { desk < 64 }
    requires idle { seat.old.me.0.writing ≡ false }
    requires unspent { seat.old.me.0.spent ≡ false }
    requires next { IsNext seat.old.me.0.search seat.old.me.0.entries part (path_data path.now) }
    ensures seat { IsSeatOf book.now seat.new }
    ensures drawn { HasDrawn (about seat.old.me.0 part (path_data path.now)) result seat.new.me.0 }
{
    let words = &book.table.shared;
    let desk = desk_word(desk);
    let part = u64::from(part);
    words.compare_exchange_with::<Announce>(seat, desk, part, part, path);
    words.fetch_add::<Draw>(seat, COUNT, 1)
}

/// Writes the words of a line whose number was drawn, the bound first.
fn write(book: &Book, seat: &mut Seat<Path, View>, line: u32, path: &Path, bound: u64)
    requires seat { IsSeatOf book.now seat.old }
    requires within { line < book.now.nodes }
    requires writes { Writes seat.old.me.0 line (path_data path.now) bound }
    ensures seat { IsSeatOf book.now seat.new }
    ensures written { seat.new.me.0 ≡ written (half_written seat.old.me.0) }
{
    let words = &book.table.shared;
    words.fetch_max::<WriteBound>(seat, bound_word(line), bound);
    words.store::<WriteSet>(seat, set_word(line), path.rest().0);
}
