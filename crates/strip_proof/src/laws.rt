//! Laws of the definitions: functions that do nothing when they run, each with a theorem as its contract.
ghost use Rattle.std.specs.Prelude.{◌≡◌, ◌≢◌, ◌<◌, ◌^◌, ℕ, List, [], ◌++◌, length, map, codes, Ok, Err};
ghost use Rattle.std.specs.Str.Parse.{digits_value};
ghost use Rattle.strip_model.specs.Data.{InstanceData};
ghost use Rattle.strip_film.specs.declared.shared.Line.{Line};
ghost use Rattle.strip_text.specs.Field.{trimmed};
ghost use Rattle.strip_text.specs.Rows.{rows_of, csv_text};
ghost use Rattle.strip_proof.specs.declared.fault.PlanFault.TheVariants.{Memory};
ghost use Rattle.strip_proof.specs.Plan.{PlanData};
ghost use Rattle.strip_proof.specs.Rows.{set_field, head_rows, line_row, plan_text, bare_text};
ghost use Rattle.strip_proof.specs.Text.{HasReadableScenes, IsReadablePlan, says};

/// The text of a plan begins with the row `plan,2`.
pub fn texts_begin_with_their_format()
    ensures { (inst : InstanceData) (plan : PlanData) → (rest : List ℕ)
        × (plan_text inst plan ≡ codes "plan,2\n" ++ rest) }
{}

/// The text of a plan consists of its head rows and its line rows, and reads back as these rows.
pub fn texts_read_back()
    ensures rows { (inst : InstanceData) (plan : PlanData)
        → plan_text inst plan ≡ csv_text (head_rows inst plan (length plan.lines) ++ map line_row plan.lines) }
    ensures back { (inst : InstanceData) (plan : PlanData)
        → rows_of (plan_text inst plan) ≡ map (map trimmed) (head_rows inst plan (length plan.lines)
        ++ map line_row plan.lines) }
{}

/// A plan without lines has one text, with and without a proof.
pub fn plans_without_lines_are_bare()
    ensures { (inst : InstanceData) (plan : PlanData) → plan.lines ≡ [] → plan_text inst plan ≡ bare_text inst plan }
{}

/// A set's field has 16 digits, which spell the set in base 16. Different lines have different rows.
pub fn line_rows_tell_their_lines()
    ensures count { (set : ℕ) → length (set_field set) ≡ 16 }
    ensures value { (set : ℕ) → set < 2 ^ 64 → digits_value 16 (set_field set) ≡ set }
    ensures apart { (a b : Line) → a.set < 2 ^ 64 → b.set < 2 ^ 64 → a.bound < 2 ^ 64 → b.bound < 2 ^ 64
        → line_row a ≡ line_row b → a ≡ b }
{}

/// The text of a plan reads back as the plan with its kind; without a proof it reads back as the plan without lines.
/// This holds if the plan and its scenes' names can be written in a text.
pub fn written_plans_read_back()
    ensures whole { (inst : InstanceData) (plan : PlanData) → HasReadableScenes inst → IsReadablePlan inst plan
        → says inst (plan_text inst plan) ≡ Ok plan }
    ensures bare { (inst : InstanceData) (plan : PlanData) → HasReadableScenes inst → IsReadablePlan inst plan
        → says inst (bare_text inst plan) ≡ Ok (record plan { lines = [] }) }
{}

/// A plan that was read from a text can be written in a text, so it reads back.
pub fn what_is_said_is_readable()
    ensures { (inst : InstanceData) (text : List ℕ) (plan : PlanData) → says inst text ≡ Ok plan
        → IsReadablePlan inst plan }
{}

/// No text means that memory ran out: this fault depends on the machine alone.
pub fn want_of_memory_is_never_said()
    ensures { (inst : InstanceData) (text : List ℕ) → says inst text ≢ Err Memory }
{}
