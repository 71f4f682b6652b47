// Conditions under which a row is due.
ghost use Rattle.std.specs.Prelude.{◌≡◌, ◌<◌, ◌↔◌, IsTrue};
ghost use Rattle.strip_progress.specs.Due.{IsDue, IsLimitDue, fortieths, reached};

/// Tells whether a further fortieth of the wanted tasks is begun with this task, counted from 1.
pub fn is_due(begun: u32, wanted: u32) -> bool
    requires some_begun { 0 < begun }
    requires some_wanted { 0 < wanted }
    ensures { IsTrue result ↔ IsDue begun wanted }
{
    fortieths(begun - 1, wanted) < fortieths(begun, wanted)
}

/// Tells whether a row is due with the limit of this number: if it is the first, or reaches farther than all earlier
/// limits. `earlier` is the farthest that they reached, 0 if there are none.
pub fn is_limit_due(number: u64, steps: u32, earlier: u64) -> bool
    requires { 0 < steps }
    ensures { IsTrue result ↔ IsLimitDue number steps earlier }
{
    earlier < reached(number, steps)
}

/// Returns one more than the number of whole fortieths of the steps that this limit reaches.
pub(crate) fn reached(number: u64, steps: u32) -> u64
    requires { 0 < steps }
    ensures { result ≡ reached number steps }
{
    let within = number.min(u64::from(steps)) as u32;
    1 + fortieths(within, steps)
}

/// Returns the number of whole fortieths of the wanted tasks in `tasks`.
fn fortieths(tasks: u32, wanted: u32) -> u64
    requires { 0 < wanted }
    ensures { result ≡ fortieths tasks wanted }
{
    u64::from(tasks) * 40 / u64::from(wanted)
}
