// The text fields of a fault.
ghost use Rattle.std.specs.Prelude.{◌≡◌, option_map};
ghost use Rattle.strip_text.specs.Told.{told_data};
ghost use Rattle.strip_instance.specs.Fault.{fault_data};
ghost use Rattle.strip_instance.specs.Told.{told_of};

use crate::fault::InstanceFault;
use strip_text::Told;

impl InstanceFault {
    /// Returns the fault's name, its row and column if it has them, and the names of a cycle's scenes. It returns none
    /// if memory ran out, which is no fault of a text.
    pub fn told(&self) -> Option<Told<'_>>
        ensures { option_map told_data result ≡ told_of (fault_data self.now) }
    {
        let (name, first, second) = match self {
            InstanceFault::Empty => ("Empty", None, None),
            InstanceFault::BadHeader => ("BadHeader", None, None),
            InstanceFault::NoRateRow => ("NoRateRow", None, None),
            InstanceFault::Width { row } => ("Width", Some(*row), None),
            InstanceFault::BadName { row, col } => ("BadName", Some(*row), Some(*col)),
            InstanceFault::DuplicateScene { row } => ("DuplicateScene", Some(*row), None),
            InstanceFault::DuplicateActor { col } => ("DuplicateActor", None, Some(*col)),
            InstanceFault::BadDays { row } => ("BadDays", Some(*row), None),
            InstanceFault::BadRate { col } => ("BadRate", None, Some(*col)),
            InstanceFault::BadHold { col } => ("BadHold", None, Some(*col)),
            InstanceFault::BadMark { row, col } => ("BadMark", Some(*row), Some(*col)),
            InstanceFault::BadBefore { row } => ("BadBefore", Some(*row), None),
            InstanceFault::Cycle { row, names, .. } => {
                return Some(Told {
                    name: "Cycle",
                    first: Some(*row),
                    second: None,
                    names,
                });
            }
            InstanceFault::NoScene => ("NoScene", None, None),
            InstanceFault::TooManyScenes => ("TooManyScenes", None, None),
            InstanceFault::TooManyActors => ("TooManyActors", None, None),
            InstanceFault::NotUtf8 { row, col } => ("NotUtf8", Some(*row), Some(*col)),
            InstanceFault::Memory => return None,
        };
        Some(Told::alone(name, first, second))
    }
}
