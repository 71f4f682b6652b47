// The words of `solve`.
ghost use Rattle.std.specs.Prelude.{◌≡◌, ◌↔◌, ◌∷◌, ℕ, Option, Contains, IfOk, IfErr, IsTrue, codes, true};
ghost use Rattle.strip_words.specs.declared.fault.WordsFault.TheVariants.{BadWords as NoJob};
ghost use Rattle.strip_words.specs.Options.{IsChosen};
ghost use Rattle.strip_words.specs.Solve.{AreWorkers, LeavesOpen, NameSolve, SolveData, auto_flag, bounds_option, bound_word, nodes_for};
ghost use Rattle.strip_words.specs.Words.{AreDistinct, Flag as AFlag, options_in};
ghost use Rattle.strip_words.specs.Shown.{items_data, solve_data, texts};

use crate::WordsFault;
use crate::command::{ChoiceOption, Command, CommandOption, FreeOption, NumberOption};
use crate::effort::effort_of;
use crate::item::Item;
use crate::number::number_of;
use crate::options::{has_flag, is_left_out, value_of};
use crate::reader::read;
use std::alloc::Global;
use strip_model::Kind;

const SOLVE: Command = Command {
    word: "solve",
    operands: 1,
    options: &[
        CommandOption::Number(WORKERS),
        CommandOption::Number(NODES),
        CommandOption::Number(TABLE),
        CommandOption::Free(TRIES),
        CommandOption::Free(STEPS),
        CommandOption::Choice(BOUNDS),
        CommandOption::Flag(PROOF),
        CommandOption::Flag(PROGRESS),
        CommandOption::Flag(STEAL),
        CommandOption::Flag(AUTO),
    ],
};

const WORKERS: NumberOption = NumberOption {
    name: "--workers",
    least: 1,
    most: 64,
    default: 1,
};

pub(crate) const NODES: NumberOption = NumberOption {
    name: "--nodes",
    least: 1,
    most: 16_777_216,
    default: 1_000_000,
};

/// The option `--nodes` with its default under `--auto`.
const NODES_OF_AUTO: NumberOption = NumberOption {
    default: 20_000,
    ..NODES
};

pub(crate) const TABLE: NumberOption = NumberOption {
    name: "--table",
    least: 64,
    most: 4_194_304,
    default: 65_536,
};

pub(crate) const TRIES: FreeOption = FreeOption {
    name: "--tries",
    least: 0,
    most: 100_000_000,
};

pub(crate) const STEPS: FreeOption = FreeOption {
    name: "--steps",
    least: 1,
    most: 1_000,
};

pub(crate) const BOUNDS: ChoiceOption = ChoiceOption {
    name: "--bounds",
    choices: &["plain", "pairs", "groups", "arrivals"],
    default: "pairs",
};

const PROOF: &str = "--proof";

const PROGRESS: &str = "--progress";

const STEAL: &str = "--steal";

const AUTO: &str = "--auto";

/// The value of `--workers` that stands for the number of processors.
const ALL_WORKERS: &str = "auto";

/// A film to be solved, and the options of its search.
#[derive(Drop)]
pub struct SolveJob {
    /// The film's file.
    pub file: String,
    /// Number of workers, 1 to 64; none stands for the number of processors.
    pub workers: Option<u64>,
    /// The greatest number of lines, 1 to 16,777,216.
    pub nodes: u64,
    /// Number of entries of the transposition table, 64 to 4,194,304.
    pub table: u64,
    /// Number of local-search moves on the initial order, 0 to 100,000,000, if the words give it.
    pub tries: Option<u64>,
    /// Number of steps in which a search by layers raises the bound, 1 to 1,000; none for a depth-first search, and if
    /// `auto` holds.
    pub steps: Option<u64>,
    /// The kind of static bounds.
    pub kind: Kind,
    /// Whether the plan's line rows (its proof) are printed.
    pub proof: bool,
    /// Whether the progress of the search is printed on standard error.
    pub progress: bool,
    /// Whether several workers have queues of tasks and steal from one another.
    pub steal: bool,
    /// Whether the program chooses the bounds and the steps. If so, the words don't give the table, steps, bounds or
    /// stealing.
    pub auto: bool,
}

/// Reads the words that follow `solve`, and returns the job. It fails with `BadWords` or `Memory`.
pub(crate) fn solve_job(alloc: Global, later: &[String]) -> Result<SolveJob, WordsFault>
    ensures named { IfOk result (λ job. NameSolve (codes "solve" ∷ texts later.now) (solve_data job)) }
    ensures bad { IfErr result (λ e. e ≡ NoJob → (job : SolveData)
        → ¬ NameSolve (codes "solve" ∷ texts later.now) job) }
{
    let reading = read(alloc, &SOLVE, later)?;
    let items = reading.items.as_slice();
    let workers = workers_of(items)?;
    let auto = auto_of(items)?;
    let nodes = nodes_of(items, auto)?;
    let effort = effort_of(items)?;
    let proof = has_flag(items, PROOF);
    let progress = has_flag(items, PROGRESS);
    let steal = has_flag(items, STEAL);
    let operands = reading.operands(alloc)?;
    let file = String::from_str(alloc, operands[0])?;
    Ok(SolveJob {
        file,
        workers,
        nodes,
        table: effort.table,
        tries: effort.tries,
        steps: effort.steps,
        kind: effort.kind,
        proof,
        progress,
        steal,
        auto,
    })
}

/// Tells whether the items leave the bounds and the steps to the program. It fails with `BadWords` if they do, but also
/// give one of the options that the program then chooses.
fn auto_of(items: &[Item]) -> Result<bool, WordsFault>
    ensures flag { IfOk result (λ auto. IsTrue auto ↔ Contains (items_data items.now) (AFlag auto_flag)) }
    ensures chosen { IfOk result (λ auto. auto ≡ true → LeavesOpen (items_data items.now)) }
    ensures bad { IfErr result (λ e. Contains (items_data items.now) (AFlag auto_flag)
        × ¬ LeavesOpen (items_data items.now)) }
{
    if !has_flag(items, AUTO) {
        Ok(false)
    } else if leaves_open(items) {
        Ok(true)
    } else {
        Err(WordsFault::BadWords)
    }
}

/// Tells whether the items give none of the options that `--auto` leaves to the program.
fn leaves_open(items: &[Item]) -> bool
    ensures { IsTrue result ↔ LeavesOpen (items_data items.now) }
{
    // Without short circuits the result is one formula of four tests, so one lemma proves it.
    is_left_out(items, TABLE.name)
        & is_left_out(items, STEPS.name)
        & is_left_out(items, BOUNDS.name)
        & !has_flag(items, STEAL)
}

/// Returns the greatest number of lines. Its default is less if the program chooses the bounds and the steps.
fn nodes_of(items: &[Item], auto: bool) -> Result<u64, WordsFault>
    requires { AreDistinct (options_in (items_data items.now)) }
    ensures ok { IfOk result (IsChosen (nodes_for auto) (items_data items.now)) }
    ensures bad { IfErr result (λ e. (n : ℕ) → ¬ IsChosen (nodes_for auto) (items_data items.now) n) }
{
    if auto {
        NODES_OF_AUTO.chosen(items)
    } else {
        NODES.chosen(items)
    }
}

/// Returns the number of workers, or none if the items ask for as many as there are processors.
fn workers_of(items: &[Item]) -> Result<Option<u64>, WordsFault>
    requires { AreDistinct (options_in (items_data items.now)) }
    ensures ok { IfOk result (AreWorkers (items_data items.now)) }
    ensures bad { IfErr result (λ e. (workers : Option ℕ) → ¬ AreWorkers (items_data items.now) workers) }
{
    match value_of(items, WORKERS.name) {
        None => Ok(Some(WORKERS.default)),
        Some(value) if value == ALL_WORKERS => Ok(None),
        Some(value) => match number_of(value, WORKERS.least, WORKERS.most) {
            Some(number) => Ok(Some(number)),
            None => Err(WordsFault::BadWords),
        },
    }
}

/// Returns the kind of static bounds that this word names.
pub(crate) fn kind_of(word: &str) -> Kind
    requires { Contains bounds_option.choices word.now }
    ensures { bound_word result ≡ word.now }
{
    if word == "plain" {
        Kind::Plain
    } else if word == "pairs" {
        Kind::Pairs
    } else if word == "groups" {
        Kind::Groups
    } else {
        Kind::Arrivals
    }
}
