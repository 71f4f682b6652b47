// The text fields of a reason.
ghost use Rattle.std.specs.Prelude.{◌≡◌};
ghost use Rattle.strip_text.specs.Told.{told_data};
ghost use Rattle.strip_check.specs.Told.{told_of};

use crate::verdict::Reason;
use strip_text::Told;

impl Reason {
    /// Returns the reason's name and its numbers. For a line these are its number, then the greatest justified bound,
    /// in units of money.
    pub fn told(&self) -> Told<'static>
        ensures { told_data result ≡ told_of self.now }
    {
        let (name, first, second) = match *self {
            Reason::NotAnOrder => ("NotAnOrder", None, None),
            Reason::BrokenPair { pair } => ("BrokenPair", Some(pair), None),
            Reason::WrongCost { found } => ("WrongCost", Some(found), None),
            Reason::BadSet { line } => ("BadSet", Some(line), None),
            Reason::Unjustified { line, justified } => ("Unjustified", Some(line), Some(justified)),
            Reason::RootBound { known } => ("RootBound", Some(known), None),
            Reason::StatusWrong => ("StatusWrong", None, None),
        };
        Told {
            name,
            first,
            second,
            names: &[],
        }
    }
}
