// A run of the program over a host.
ghost use Rattle.std.specs.Prelude.{◌≡◌};
ghost use Rattle.std.specs.Process.{exit_status};
ghost use Rattle.strip_answer.specs.Headline.{IsHeadline};
ghost use Rattle.strip_host.specs.Run.{files_told, run_over};
ghost use Rattle.strip_words.specs.Shown.{texts};
ghost use Rattle.strip_check_command.specs.Claims.{IsProved, audit_claims};

use std::process::ExitCode;
use std::rt;
use strip_check_command::report;
use strip_host::Host;

/// Runs the program `stripcheck` with the words, files and output of this host, and returns its exit code.
pub fn run<R: rt::Files + Input + Print + AllocGlobal>(rt: &R, host: &mut Host<R>) -> ExitCode
    ensures headline { IsHeadline audit_claims (run_over (texts host.old.words.items) host.old.files.held
        host.new.files.held host.old.out.faults host.new.out.faults) (exit_status result) }
    ensures proved { exit_status result ≡ 0 → IsProved (texts host.old.words.items) (files_told host.old.files.held) }
{
    let Host { words, files, out } = host;
    ExitCode::from(report(rt.alloc(), words, files, out))
}
