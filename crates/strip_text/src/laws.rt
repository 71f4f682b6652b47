//! Laws of the definitions: functions that do nothing when they run, each with a theorem as its contract.
ghost use Rattle.std.specs.Prelude.{◌≡◌, ◌≤◌, ◌<◌, ◌^◌, ◌↔◌, ℕ, true, List, All, None, Some, map};
ghost use Rattle.std.specs.Fmt.{decimal};
ghost use Rattle.csv.specs.Reading.{AreRecords, default_config, strip_bom};
ghost use Rattle.csv.specs.declared.parser.State.TheVariants as st;
ghost use Rattle.strip_text.specs.Field.{trimmed};
ghost use Rattle.strip_text.specs.Number.{is_number, number_of};
ghost use Rattle.strip_text.specs.Rows.{Row, rows_of, csv_text, IsWritable};
ghost use Rattle.strip_text.specs.Checks.{Check, IsFirst, first_fault};

/// The rows of any text are its CSV records, with their fields trimmed.
pub fn rows_are_records_of_csv()
    ensures { (text : List ℕ) (records : List Row) → AreRecords default_config st.StartRecord (strip_bom text) records
        → rows_of text ≡ map (map trimmed) records }
{}

/// Written rows read back, with their fields trimmed, if each has fields and the first doesn't begin with a byte-order
/// mark.
pub fn written_rows_read_back()
    ensures { (rows : List Row) → IsWritable rows → rows_of (csv_text rows) ≡ map (map trimmed) rows }
{}

/// A written number reads back.
pub fn written_numbers_read_back()
    ensures bare { (number : ℕ) → number < 2 ^ 64 → trimmed (decimal number) ≡ decimal number }
    ensures same { (number : ℕ) → number < 2 ^ 64 → number_of (decimal number) ≡ number }
    ensures within { (least most number : ℕ) → least ≤ number → number ≤ most → number < 2 ^ 64
        → is_number least most (decimal number) ≡ true }
{}

/// The fault of a list of checks is that of the first check that fails. There is none if all hold.
pub fn the_first_fault_is_the_first<Fault>()
    ensures first { (checks : List (Check Fault)) (fault : Fault) → (first_fault checks ≡ Some fault)
        ↔ IsFirst checks fault }
    ensures none { (checks : List (Check Fault)) → (first_fault checks ≡ None)
        ↔ All (λ check. check.holds ≡ true) checks }
{}
