//! Laws of entries: functions that do nothing when they run, with theorems as contracts.
ghost use Rattle.std.specs.Prelude.{◌≡◌, ℕ, ◌≤◌, ◌==◌, Some, None, List, All, count_by, length};
ghost use Rattle.strip_film.specs.declared.shared.Line.{Line};
ghost use Rattle.strip_film.specs.Film.{IsFilm};
ghost use Rattle.strip_lines.specs.Parts.{AreCounted};
ghost use Rattle.strip_hand.specs.Hand.{IsRecord, RecordData};
ghost use Rattle.strip_hand.specs.Search.{SearchData, depth_of, search_rules};
ghost use Rattle.strip_book.specs.Rule.{IsEntry, candidates_at, lines_of, number_of, total};
ghost use Rattle.strip_book.specs.View.{AreApart, EntryData, last_in, number_in, parts_of, record_at};

/// The entry of a pass for a part is a valid record of the part.
pub fn entries_are_records()
    ensures { (search : SearchData) (entries : List EntryData) (part : ℕ) (kept : RecordData)
        → All (IsEntry search) entries
        → record_at part entries ≡ Some kept → IsRecord search part kept }
{}

/// A pass has no record of a part without an entry.
pub fn other_parts_have_no_record()
    ensures { (entries : List EntryData) (part : ℕ) → count_by (λ other. other == part) (parts_of entries) ≡ 0
        → record_at part entries ≡ None }
{}

/// If lines are all the lines of some entries, and no part occurs twice among these, the lines are counted by parts.
pub fn lines_of_entries_are_counted()
    ensures { (search : SearchData) (entries : List EntryData) (lines : List Line) → IsFilm search.film
        → All (IsEntry search) entries
        → AreApart entries → total number_of entries ≡ length lines
        → ((set : ℕ) → lines_of set lines ≤ total (candidates_at search set) entries)
        → AreCounted (search_rules search) search.start (depth_of search) search.tasks lines (last_in entries)
        (number_in entries) }
{}
