//! Laws of the definitions: functions that do nothing when they run, each with a theorem as its contract.
ghost use Rattle.std.specs.Prelude.{◌≡◌};
ghost use Rattle.strip_answer.specs.declared.status.Status.{Status};
ghost use Rattle.strip_answer.specs.Status.{code_of};

/// Different ends of a run have different exit statuses.
pub fn codes_tell_statuses()
    ensures { (a b : Status) → code_of a ≡ code_of b → a ≡ b }
{}
