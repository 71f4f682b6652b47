// The exit code.
ghost use Rattle.std.specs.Prelude.{◌≡◌, ℕ, Ok, IsErr};
ghost use Rattle.std.specs.Process.{exit_status};

use std::process::ExitCode;
use strip_answer::Status;
use strip_io::Memory;

/// Returns the exit code of a run with this status, or the code 9 if memory ran out before the run.
pub fn exit_code(outcome: Result<u8, Memory>) -> ExitCode
    ensures status { (status : ℕ) → outcome ≡ Ok status → exit_status result ≡ status }
    ensures memory { IsErr outcome → exit_status result ≡ 9 }
{
    ExitCode::from(outcome.unwrap_or(Status::OutOfMemory.code()))
}
