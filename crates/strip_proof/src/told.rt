// The text fields of a fault.
ghost use Rattle.std.specs.Prelude.{◌≡◌, option_map};
ghost use Rattle.strip_text.specs.Told.{told_data};
ghost use Rattle.strip_proof.specs.Told.{told_of};

use crate::fault::PlanFault;
use strip_text::Told;

impl PlanFault {
    /// Returns the fault's name, and its row if it has one. It returns none if memory ran out, which is no fault of a
    /// text.
    pub fn told(&self) -> Option<Told<'static>>
        ensures { option_map told_data result ≡ told_of self.now }
    {
        let (name, first) = match *self {
            PlanFault::BadRow { row } => ("BadRow", Some(row)),
            PlanFault::Missing { which } => ("Missing", Some(which)),
            PlanFault::UnknownScene { row } => ("UnknownScene", Some(row)),
            PlanFault::TooManyLines => ("TooManyLines", None),
            PlanFault::Memory => return None,
        };
        Some(Told::alone(name, first, None))
    }
}
