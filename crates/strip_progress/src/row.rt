// Texts of progress rows.
ghost use Rattle.std.specs.Prelude.{◌≡◌};
ghost use Rattle.strip_progress.specs.Row.{kind_word, workers_word};

use std::fmt;
use strip_hand::{Limit, Stage, Standing};
use strip_model::Kind;

/// A row for a task: the number of tasks begun, of tasks wanted, and of workers that began them, and the state of the
/// search.
#[derive(Drop)]
pub(crate) struct Row {
    pub(crate) begun: u32,
    pub(crate) wanted: u32,
    pub(crate) workers: u32,
    pub(crate) standing: Standing,
}

impl fmt::Display for Row {
    ghost use Rattle.std.specs.Prelude.{Some};
    ghost use Rattle.strip_progress.specs.Row.{row_text};

    ghost output = { λ row. Some (row_text row) };

    fn fmt<W: fmt::Write>(&self, f: &mut fmt::Formatter<W>) -> fmt::Result {
        let Row {
            begun,
            wanted,
            workers,
            standing,
        } = self;
        let word = workers_word(*workers);
        let end = RowEnd {
            standing: *standing,
        };
        write!(
            f,
            "{begun} of {wanted} tasks begun, by {workers} {word}: {end}"
        )
    }
}

/// A limit that a search by layers reached.
#[derive(Drop)]
pub(crate) struct LimitRow {
    pub(crate) limit: Limit,
}

impl fmt::Display for LimitRow {
    ghost use Rattle.std.specs.Prelude.{Some};
    ghost use Rattle.strip_progress.specs.Row.{limit_text};

    ghost output = { λ row. Some (limit_text row.limit) };

    fn fmt<W: fmt::Write>(&self, f: &mut fmt::Formatter<W>) -> fmt::Result {
        let Limit {
            number,
            steps,
            standing,
        } = self.limit;
        let end = RowEnd { standing };
        write!(f, "limit {number} of {steps}: {end}")
    }
}

/// A stage of a search that has ended.
#[derive(Drop)]
pub(crate) struct StageRow {
    pub(crate) stage: Stage,
}

impl fmt::Display for StageRow {
    ghost use Rattle.std.specs.Prelude.{Some};
    ghost use Rattle.strip_progress.specs.Row.{stage_text};

    ghost output = { λ row. Some (stage_text row.stage) };

    fn fmt<W: fmt::Write>(&self, f: &mut fmt::Formatter<W>) -> fmt::Result {
        let Stage { kind, standing } = self.stage;
        let word = kind_word(kind);
        let end = RowEnd { standing };
        write!(f, "search with {word} ended: {end}")
    }
}

/// The end of each row: the state of the search.
#[derive(Clone, Copy, Debug)]
struct RowEnd {
    standing: Standing,
}

impl fmt::Display for RowEnd {
    ghost use Rattle.std.specs.Prelude.{Some};
    ghost use Rattle.strip_progress.specs.Row.{standing_text};

    ghost output = { λ end. Some (standing_text end.standing) };

    fn fmt<W: fmt::Write>(&self, f: &mut fmt::Formatter<W>) -> fmt::Result {
        let Standing {
            cost,
            bound,
            lines,
            nodes,
        } = self.standing;
        match bound {
            Some(bound) => write!(f, "cost {cost}, bound {bound}, {lines} of {nodes} lines"),
            None => write!(f, "cost {cost}, {lines} of {nodes} lines"),
        }
    }
}

/// Returns the word that follows the number of workers.
fn workers_word(workers: u32) -> &'static str
    ensures { result.now ≡ workers_word workers }
{
    if workers == 1 { "worker" } else { "workers" }
}

/// Returns the word for static bounds of this kind.
fn kind_word(kind: Kind) -> &'static str
    ensures { result.now ≡ kind_word kind }
{
    match kind {
        Kind::Plain => "plain",
        Kind::Pairs => "pairs",
        Kind::Groups => "groups",
        Kind::Arrivals => "arrivals",
    }
}
