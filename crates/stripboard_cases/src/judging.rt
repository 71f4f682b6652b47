// Case files, of which all cases are run.
ghost use Rattle.std.specs.Prelude.{◌≡◌, ◌↔◌, ◌+◌, ◌-◌, ◌^◌, ◌≤◌, min, false, List, [], ◌∷◌, ◌++◌, length, Option, Some, IfOk, IfSome, OnOk, string_bytes};
ghost use Rattle.strip_words.specs.Shown.{texts};
ghost use Rattle.strip_answer.specs.Run.{run_data};
ghost use Rattle.stripboard_cases.specs.declared.case.Cases.{Cases};
ghost use Rattle.stripboard_cases.specs.Runs.{IsCaseMet};
ghost use Rattle.stripboard_cases.specs.Judged.{IsCounted, IsJudgement, IsReadFrom, end_status, last_row};

use crate::case::{Case, Cases, Given};
use crate::fault::{CaseFault, Wrong};
use crate::reading::read_cases;
use crate::running::run_case;
use std::alloc::{AllocError, Global};
use std::sync::Wait;
use std::thread::Threads;
use strip_io::{Failed, Files, LoadFault, Memory, Sink, load, send};

/// The greatest size of a case file, in bytes.
const LONGEST: u64 = 16_777_216;

/// Number of cases run and of those that differ, and whether a file couldn't be read.
#[derive(Clone, Copy)]
struct Tally {
    cases: u64,
    differing: u64,
    is_unread: bool,
}

/// Runs all cases of the named files. It sends a row for each case that differs, a row for each file that can't be
/// read, and a last row with the counts. No case of an unreadable file is run. The status is 0 if no case differs, and
/// 1 if some do. It is 2 if a file can't be read, and 8 if the rows can't be sent.
pub fn judge<R: Threads + Wait + Sync, F: Files, S: Sink>(
    rt: &R,
    alloc: Global,
    names: &[String],
    files: &mut F,
    out: &mut S,
) -> Result<u8, Memory>
    ensures judged { IfOk result (IsJudgement (run_data (texts names.now)
        (F.state files.old) (F.state files.new) (S.state out.old) (S.state out.new))) }
{
    let mut tally = Tally {
        cases: 0,
        differing: 0,
        is_unread: false,
    };
    for name in names {
        let rows = judge_file(rt, alloc, files, name.as_str(), &mut tally)?;
        let Ok(()) = send(out, rows.as_bytes()) else {
            return Ok(8);
        };
    }
    let row = last_row(alloc, tally.cases, tally.differing)?;
    match send(out, row.as_bytes()) {
        Ok(()) => Ok(status_of(tally)),
        Err(Failed) => Ok(8),
    }
}

/// Returns the row with the number of cases run and of those that differ.
fn last_row(alloc: Global, cases: u64, differing: u64) -> Result<String, AllocError>
    ensures { IfOk result (λ row. string_bytes row ≡ last_row cases differing) }
{
    format!(in alloc; "{cases} cases, {differing} differ\n")
}

/// Returns the status: 0 exactly if each file was read and no case differs.
fn status_of(tally: Tally) -> u8
    ensures zero { (result ≡ 0) ↔ ((tally.differing ≡ 0) × (tally.is_unread ≡ false)) }
    ensures status { result ≡ end_status tally.differing tally.is_unread }
{
    if tally.is_unread {
        2
    } else if tally.differing > 0 {
        1
    } else {
        0
    }
}

/// Returns the rows of a case file: its fault, or a row for each case that differs.
fn judge_file<R: Threads + Wait + Sync, F: Files>(
    rt: &R,
    alloc: Global,
    files: &mut F,
    name: &str,
    tally: &mut Tally,
) -> Result<String, Memory>
    ensures told { (F.state files.new).bytes ≡ (F.state files.old).bytes }
    ensures counted { OnOk result ((file : Option Cases)
        × IfSome file (IsReadFrom ((F.state files.old).bytes name.now)) × ((files : List (Option Cases))
        → IsCounted files tally.old.cases tally.old.differing tally.old.is_unread
        → IsCounted (files ++ file ∷ []) tally.new.cases tally.new.differing tally.new.is_unread)) }
{
    match cases_of(alloc, files, name) {
        Ok(cases) => judge_cases(rt, alloc, name, &cases, tally),
        Err(fault) if fault.wrong == Wrong::Memory => Err(Memory),
        Err(fault) => {
            tally.is_unread = true;
            Ok(format!(in alloc; "{name}: {fault}\n")?)
        }
    }
}

/// Reads the cases of the file with this name.
fn cases_of<F: Files>(alloc: Global, files: &mut F, name: &str) -> Result<Cases, CaseFault>
    ensures told { (F.state files.new).bytes ≡ (F.state files.old).bytes }
    ensures read { IfOk result (IsReadFrom ((F.state files.old).bytes name.now)) }
{
    match load(alloc, files, name, LONGEST) {
        Ok(text) => read_cases(alloc, &text),
        Err(LoadFault::Memory) => Err(CaseFault {
            row: 1,
            wrong: Wrong::Memory,
        }),
        Err(_) => Err(CaseFault {
            row: 1,
            wrong: Wrong::Unread,
        }),
    }
}

/// Runs the cases, and returns a row for each that differs.
fn judge_cases<R: Threads + Wait + Sync>(
    rt: &R,
    alloc: Global,
    name: &str,
    cases: &Cases,
    tally: &mut Tally,
) -> Result<String, Memory>
    ensures { OnOk result ((files : List (Option Cases))
        → IsCounted files tally.old.cases tally.old.differing tally.old.is_unread
        → IsCounted (files ++ Some cases.now ∷ []) tally.new.cases tally.new.differing tally.new.is_unread) }
{
    let mut rows = String::new(alloc);
    for case in &cases.cases {
        judge_case(rt, alloc, name, &cases.shared, case, tally, &mut rows)?;
    }
    Ok(rows)
}

/// Runs a case, and appends a row if it differs.
fn judge_case<R: Threads + Wait + Sync>(
    rt: &R,
    alloc: Global,
    name: &str,
    shared: &[Given],
    case: &Case,
    tally: &mut Tally,
    rows: &mut String,
) -> Result<(), Memory>
    ensures one { OnOk result (tally.new.cases ≡ min (tally.old.cases + 1) (2 ^ 64 - 1)) }
    ensures few { OnOk result (tally.old.differing ≤ tally.old.cases → tally.new.differing ≤ tally.new.cases) }
    ensures earlier { OnOk result (tally.new.differing ≡ 0 → tally.old.differing ≡ 0) }
    ensures met { OnOk result (tally.new.differing ≡ 0 → IsCaseMet shared.now case.now) }
    ensures unread { tally.new.is_unread ≡ tally.old.is_unread }
{
    tally.cases = tally.cases.saturating_add(1);
    match run_case(rt, alloc, shared, case)? {
        None => Ok(()),
        Some(difference) => {
            tally.differing = tally.differing.saturating_add(1);
            let case = case.name.as_str();
            rows.push_str(format!(in alloc; "{name}: {case}: {difference}\n")?.as_str())?;
            Ok(())
        }
    }
}
