// The parts of a case file: the lines before its cases, each case, and in a case each file and step.
ghost use Rattle.std.specs.Prelude.{◌≡◌, ◌≤◌, length, take};
ghost use Rattle.stripboard_cases.specs.CaseRows.{case_lines};

use crate::lines::{Head, Line};

/// Returns the number of lines before the next case.
pub(crate) fn before_case(lines: &[Line]) -> usize
    ensures within { result ≤ length lines.now }
    ensures none { case_lines (take result lines.now) ≡ 0 }
{
    for (place, line) in lines.iter().enumerate() {
        if line.head == Head::Case {
            return place;
        }
    }
    lines.len()
}

/// Returns the number of lines before the next file or step.
pub(crate) fn before_action(lines: &[Line]) -> usize
    ensures { result ≤ length lines.now }
{
    lines
        .iter()
        .position(|line| line.head == Head::File || line.head == Head::Run)
        .unwrap_or(lines.len())
}

/// Returns the number of lines at the front that give a name several values.
pub(crate) fn of_each(lines: &[Line]) -> usize
    ensures { result ≤ length lines.now }
{
    lines
        .iter()
        .position(|line| line.head != Head::Each)
        .unwrap_or(lines.len())
}
