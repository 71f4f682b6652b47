//! Laws of the definitions: functions that do nothing when they run, each with a theorem as its contract.
ghost use Rattle.std.specs.Prelude.{ℕ, ◌<◌, ◌≤◌, List};
ghost use Rattle.strip_progress.specs.Due.{IsDue, limit_rows, rows};

/// A row is due with each task if at most forty are wanted, and always with the last task. In all, at most forty rows
/// are due.
pub fn rows_are_few()
    ensures each { (begun wanted : ℕ) → 0 < begun → 0 < wanted → wanted ≤ 40 → IsDue begun wanted }
    ensures last { (wanted : ℕ) → 0 < wanted → IsDue wanted wanted }
    ensures few { (wanted : ℕ) → 0 < wanted → rows wanted wanted ≤ 40 }
{}

/// For any number of steps, rows are due with at most 41 limits, whichever limits are reached, and in any order.
pub fn limit_rows_are_few()
    ensures { (numbers : List ℕ) (steps : ℕ) → 0 < steps → limit_rows numbers steps 0 ≤ 41 }
{}
