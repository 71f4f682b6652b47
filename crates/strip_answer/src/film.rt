// A film's file.
ghost use Rattle.std.specs.Prelude.{◌≡◌, ◌≢◌, ◌≤◌, length, Err, IfOk, OnOk};
ghost use Rattle.strip_io.specs.Counts.{ReadFailed};
ghost use Rattle.strip_instance.specs.declared.fault.InstanceFault.TheVariants.{Memory as OutOfMemory};
ghost use Rattle.strip_instance.specs.Fault.{fault_data};
ghost use Rattle.strip_instance.specs.Told.{told_of};
ghost use Rattle.strip_answer.specs.declared.status.Status.TheVariants.{BadInstance};
ghost use Rattle.strip_answer.specs.Ending.{answer_text};
ghost use Rattle.strip_answer.specs.Run.{FilesStay};
ghost use Rattle.strip_answer.specs.Said.{IsFilmGiven, IsRefusal, film_said};
ghost use Rattle.strip_answer.specs.Input.{HasInput};

use crate::input::{Input, too_long};
use crate::{Answer, Status, Stop};
use std::alloc::Global;
use strip_instance::laws::{what_is_said_has_readable_names, what_is_said_keeps_the_limits};
use strip_instance::{InstanceFault, read_instance};
use strip_io::{Files, LoadFault, Memory, load};
use strip_model::Instance;

/// The greatest size of a film's file, in bytes.
pub const MAX_FILM: u64 = 1_048_576;

/// Reads the instance from its file, or returns the answer that refuses the file.
pub fn film_input<F: Files>(
    alloc: Global,
    files: &mut F,
    name: &str,
) -> Result<Input<Instance>, Stop>
    ensures given { IfOk result (λ input. HasInput name.now 1_048_576 (F.state files.old) (F.state files.new)
        (λ text. IsFilmGiven (film_said text) input)) }
    ensures read { result ≡ Err Stop.Read
        → ReadFailed name.now (F.state files.old).holds (F.state files.old).faults (F.state files.new).faults }
    ensures files { FilesStay (F.state files.old) (F.state files.new)
        (λ file. name.now ≡ file) (result ≡ Err Stop.Read) }
{
    match load(alloc, files, name, MAX_FILM) {
        Ok(text) => Ok(said(alloc, &text)?),
        Err(LoadFault::TooLong) => Ok(Input::Refused(too_long(alloc, Status::BadInstance)?)),
        Err(LoadFault::Read) => Err(Stop::Read),
        Err(LoadFault::Memory) => Err(Stop::Memory),
    }
}

/// Reads the instance from a text that isn't too long.
fn said(alloc: Global, text: &[u8]) -> Result<Input<Instance>, Memory>
    requires { length text.now ≤ 1_048_576 }
    ensures { IfOk result (IsFilmGiven (film_said text.now)) }
{
    match read_instance(alloc, text) {
        Ok(inst) => {
            what_is_said_keeps_the_limits();
            what_is_said_has_readable_names();
            Ok(Input::Said(inst))
        }
        Err(fault) => Ok(Input::Refused(refused(alloc, fault)?)),
    }
}

/// Returns the answer that refuses a text with this fault. If memory ran out, it fails, since the text has no fault.
fn refused(alloc: Global, fault: InstanceFault) -> Result<Answer, Memory>
    ensures of_text { OnOk result (fault ≢ OutOfMemory) }
    ensures refusal { IfOk result (λ answer. IsRefusal BadInstance (told_of (fault_data fault)) answer.status
        (answer_text answer)) }
{
    match fault.told() {
        Some(told) => Answer::error(alloc, Status::BadInstance, told),
        None => Err(Memory),
    }
}
