// The words of the commands that generate a film from a seed.
ghost use Rattle.std.specs.Prelude.{◌≡◌, ◌∷◌, IfOk, IfErr, codes, length};
ghost use Rattle.strip_words.specs.declared.fault.WordsFault.TheVariants.{BadWords as NoJob};
ghost use Rattle.strip_words.specs.Gen.{GenData, NameFilm, NameGen, NameTrial, TrialData};
ghost use Rattle.strip_words.specs.Shown.{gen_data, strs, texts, trial_data};

use crate::WordsFault;
use crate::command::{Command, CommandOption};
use crate::effort::effort_of;
use crate::number::number_of;
use crate::reader::read;
use crate::solve::{BOUNDS, NODES, STEPS, TABLE, TRIES};
use std::alloc::Global;
use strip_model::Kind;

const GEN: Command = Command {
    word: "gen",
    operands: 3,
    options: &[],
};

const TRIAL: Command = Command {
    word: "trial",
    operands: 3,
    options: &[
        CommandOption::Number(NODES),
        CommandOption::Number(TABLE),
        CommandOption::Free(TRIES),
        CommandOption::Free(STEPS),
        CommandOption::Choice(BOUNDS),
    ],
};

/// A film to be generated from the seed `number`.
#[derive(Clone, Copy)]
pub struct GenJob {
    pub number: u64,
    /// Number of scenes, 1 to 200.
    pub scenes: u64,
    /// Number of actors, 0 to 64.
    pub actors: u64,
}

/// A film to be generated from a seed, and the options of its search.
#[derive(Clone, Copy)]
pub struct TrialJob {
    pub film: GenJob,
    /// The greatest number of lines, 1 to 16,777,216.
    pub nodes: u64,
    /// Number of entries of the transposition table, 64 to 4,194,304.
    pub table: u64,
    /// Number of local-search moves on the initial order, 0 to 100,000,000, if the words give it.
    pub tries: Option<u64>,
    /// Number of steps in which a search by layers raises the bound, 1 to 1,000; none for a depth-first search.
    pub steps: Option<u64>,
    /// The kind of static bounds.
    pub kind: Kind,
}

/// Reads the words that follow `gen`, and returns the film to be generated. It fails with `BadWords` or `Memory`.
pub(crate) fn gen_job(alloc: Global, later: &[String]) -> Result<GenJob, WordsFault>
    ensures named { IfOk result (λ film. NameGen (codes "gen" ∷ texts later.now) (gen_data film)) }
    ensures bad { IfErr result (λ e. e ≡ NoJob → (film : GenData) → ¬ NameGen (codes "gen" ∷ texts later.now) film) }
{
    let reading = read(alloc, &GEN, later)?;
    let operands = reading.operands(alloc)?;
    film_named(operands.as_slice())
}

/// Reads the words that follow `trial`, and returns the trial. It fails with `BadWords` or `Memory`.
pub(crate) fn trial_job(alloc: Global, later: &[String]) -> Result<TrialJob, WordsFault>
    ensures named { IfOk result (λ job. NameTrial (codes "trial" ∷ texts later.now) (trial_data job)) }
    ensures bad { IfErr result (λ e. e ≡ NoJob → (job : TrialData)
        → ¬ NameTrial (codes "trial" ∷ texts later.now) job) }
{
    let reading = read(alloc, &TRIAL, later)?;
    let items = reading.items.as_slice();
    let nodes = NODES.chosen(items)?;
    let effort = effort_of(items)?;
    let operands = reading.operands(alloc)?;
    let film = film_named(operands.as_slice())?;
    Ok(TrialJob {
        film,
        nodes,
        table: effort.table,
        tries: effort.tries,
        steps: effort.steps,
        kind: effort.kind,
    })
}

/// Reads the film to be generated from three operands: seed, scenes, actors.
fn film_named(operands: &[&str]) -> Result<GenJob, WordsFault>
    requires { length operands.now ≡ 3 }
    ensures named { IfOk result (λ film. NameFilm (strs operands.now) (gen_data film)) }
    ensures bad { IfErr result (λ e. (film : GenData) → ¬ NameFilm (strs operands.now) film) }
{
    let number = number_of(operands[0], 0, u64::MAX).ok_or(WordsFault::BadWords)?;
    let scenes = number_of(operands[1], 1, 200).ok_or(WordsFault::BadWords)?;
    let actors = number_of(operands[2], 0, 64).ok_or(WordsFault::BadWords)?;
    Ok(GenJob {
        number,
        scenes,
        actors,
    })
}
