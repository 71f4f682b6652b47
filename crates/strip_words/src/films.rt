// The words that name a film's file.
ghost use Rattle.std.specs.Prelude.{◌≡◌, ◌∷◌, IfOk, IfErr, string_bytes};
ghost use Rattle.strip_words.specs.declared.fault.WordsFault.TheVariants.{BadWords as NoJob};
ghost use Rattle.strip_words.specs.Films.{NameFilmFile};
ghost use Rattle.strip_words.specs.Shown.{texts};
ghost use Rattle.strip_words.specs.Words.{Word};

use crate::WordsFault;
use crate::command::Command;
use crate::reader::read;
use std::alloc::Global;

/// A film's file.
#[derive(Drop)]
pub struct FilmFile {
    pub film: String,
}

/// Reads the words that follow `word`, a command with a film's file and no options, and returns the file's name. It
/// fails with `BadWords` if they don't name one file, and with `Memory` if memory runs out.
pub(crate) fn film_file(
    alloc: Global,
    word: &'static str,
    later: &[String],
) -> Result<FilmFile, WordsFault>
    ensures named { IfOk result (λ file. NameFilmFile word.now (word.now ∷ texts later.now) (string_bytes file.film)) }
    ensures bad { IfErr result (λ e. e ≡ NoJob → (file : Word)
        → ¬ NameFilmFile word.now (word.now ∷ texts later.now) file) }
{
    let command = Command {
        word,
        operands: 1,
        options: &[],
    };
    let reading = read(alloc, &command, later)?;
    let operands = reading.operands(alloc)?;
    let film = String::from_str(alloc, operands[0])?;
    Ok(FilmFile { film })
}
