// The command words.
ghost use Rattle.std.specs.Prelude.{◌≡◌, ◌≢◌, [], drop, String, Ok, Err, IfOk, IsOkAnd, IsErr};
ghost use Rattle.std.specs.IoError.{error_kind};
ghost use Rattle.std.specs.Vec.Iter.{into_iter_items};
ghost use Rattle.std.specs.declared.alloc.Global.{Global};
ghost use Rattle.std.specs.declared.vec.IntoIter.{IntoIter};

use std::alloc::Global;
use std::env::Args;
use std::io::ErrorKind;
use std::rt::Env;
use std::{env, io};
use strip_io::Memory;

/// Returns the words after the program's name. If a word isn't UTF-8, it returns no words, which name no job.
pub fn command_words<R: Env + AllocGlobal>(rt: &R) -> Result<Vec<String>, Memory> {
    behind_name(rt.alloc(), env::args(rt))
}

// Returns all words but the first, which is the program's name.
fn behind_name(alloc: Global, command: io::Result<Args>) -> Result<Vec<String>, Memory>
    ensures words { (all : IntoIter (String Global) Global) → command ≡ Ok all
        → IfOk result (λ words. words.items ≡ drop 1 (into_iter_items all)) }
    ensures no_text { (error : _) → command ≡ Err error → error_kind error ≢ ErrorKind.OutOfMemory
        → IsOkAnd result (λ words. words.items ≡ []) }
    ensures memory { (error : _) → command ≡ Err error → error_kind error ≡ ErrorKind.OutOfMemory → IsErr result }
{
    match command {
        Ok(mut words) => {
            words.next();
            Ok(words.collect(alloc)?)
        }
        Err(error) if error.kind() == ErrorKind::OutOfMemory => Err(Memory),
        Err(_) => Ok(Vec::new(alloc)),
    }
}
