//! Laws of the definitions: functions that do nothing when they run, each with a theorem as its contract.
ghost use Rattle.std.specs.Prelude.{◌≡◌, ◌≤◌, List, IfSome};
ghost use Rattle.strip_words.specs.Words.{Word};
ghost use Rattle.strip_words.specs.Jobs.{JobData, NameJob};
ghost use Rattle.strip_words.specs.Solve.{NameSolve, SolveData};
ghost use Rattle.strip_words.specs.Gen.{GenData, IsSized, NameGen, NameTrial, TrialData};

/// Words name at most one job.
pub fn words_name_one_job()
    ensures { (words : List Word) (a b : JobData) → NameJob words a → NameJob words b → a ≡ b }
{}

/// The numbers of a job to solve and of a trial lie within the limits of their options. A film to be generated has as
/// many scenes and actors as an instance may have.
pub fn numbers_lie_within_their_ends()
    ensures workers { (words : List Word) (job : SolveData) → NameSolve words job
        → IfSome job.workers (λ workers. (1 ≤ workers) × (workers ≤ 64)) }
    ensures nodes { (words : List Word) (job : SolveData) → NameSolve words job
        → (1 ≤ job.nodes) × (job.nodes ≤ 16777216) }
    ensures table { (words : List Word) (job : SolveData) → NameSolve words job
        → (64 ≤ job.table) × (job.table ≤ 4194304) }
    ensures tries { (words : List Word) (job : SolveData) → NameSolve words job
        → IfSome job.tries (λ tries. tries ≤ 100000000) }
    ensures steps { (words : List Word) (job : SolveData) → NameSolve words job
        → IfSome job.steps (λ steps. (1 ≤ steps) × (steps ≤ 1000)) }
    ensures film { (words : List Word) (film : GenData) → NameGen words film → IsSized film }
    ensures trial { (words : List Word) (job : TrialData) → NameTrial words job
        → IsSized job.film × (1 ≤ job.nodes) × (job.nodes ≤ 16777216) × (64 ≤ job.table) × (job.table ≤ 4194304)
        × IfSome job.tries (λ tries. tries ≤ 100000000) × IfSome job.steps (λ steps. (1 ≤ steps) × (steps ≤ 1000)) }
{}
