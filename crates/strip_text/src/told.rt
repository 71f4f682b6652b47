// The text fields of a fault.
ghost use Rattle.std.specs.Prelude.{◌≡◌};
ghost use Rattle.strip_text.specs.Told.{told_alone, told_data};

/// A fault's name, its numbers (a place or a count) if it has any, and the names that it lists.
#[derive(Clone, Copy, Debug, PartialEq, Eq)]
pub struct Told<'a> {
    /// The name of the fault.
    pub name: &'static str,
    /// The row, or a count.
    pub first: Option<u64>,
    /// The column.
    pub second: Option<u64>,
    /// Names that the fault lists, in its order; empty for most faults.
    pub names: &'a [String],
}

impl Told<'static> {
    /// Makes a fault's fields with this name and these numbers, and without listed names.
    pub fn alone(name: &'static str, first: Option<u64>, second: Option<u64>) -> Told<'static>
        ensures { told_data result ≡ told_alone name.now first second }
    {
        Told {
            name,
            first,
            second,
            names: &[],
        }
    }
}
