// The words that name a film's file and a plan's file.
ghost use Rattle.std.specs.Prelude.{◌≡◌, ◌∷◌, IfOk, IfErr};
ghost use Rattle.strip_words.specs.declared.fault.WordsFault.TheVariants.{BadWords as NoJob};
ghost use Rattle.strip_words.specs.Plans.{NamePlanFiles, PlanFilesData};
ghost use Rattle.strip_words.specs.Shown.{plan_files_data, texts};

use crate::WordsFault;
use crate::command::Command;
use crate::reader::read;
use std::alloc::Global;

/// A film's file and a plan's file.
#[derive(Drop)]
pub struct PlanFiles {
    pub film: String,
    pub plan: String,
}

/// Reads the words that follow `word`, a command with a film's file, a plan's file and no options, and returns the
/// files' names. It fails with `BadWords` if they don't name two files, and with `Memory` if memory runs out.
pub fn plan_files(
    alloc: Global,
    word: &'static str,
    later: &[String],
) -> Result<PlanFiles, WordsFault>
    ensures named { IfOk result (λ files. NamePlanFiles word.now (word.now ∷ texts later.now) (plan_files_data files)) }
    ensures bad { IfErr result (λ e. e ≡ NoJob → (files : PlanFilesData)
        → ¬ NamePlanFiles word.now (word.now ∷ texts later.now) files) }
{
    let command = Command {
        word,
        operands: 2,
        options: &[],
    };
    let reading = read(alloc, &command, later)?;
    let operands = reading.operands(alloc)?;
    let film = String::from_str(alloc, operands[0])?;
    let plan = String::from_str(alloc, operands[1])?;
    Ok(PlanFiles { film, plan })
}
