// The trait of an output sink.
ghost use Rattle.std.specs.Prelude.{◌≡◌, ◌<◌, ◌≤◌, length, take, IfOk, OnOk, OnErr};
ghost use Rattle.strip_io.specs.Counts.{Rose};
ghost use Rattle.strip_io.specs.Sink.{SinkData, Took};

use crate::Failed;

/// A sink: takes text in pieces.
pub trait Sink {
    /// The current state: the bytes taken, if they are known, and the number of failed writes.
    ghost state: { Self → SinkData };

    /// Takes at least one byte from the front of the piece, and returns the number of bytes taken.
    fn write(&mut self, piece: &[u8]) -> Result<usize, Failed>
        requires { 0 < length piece.now }

        ensures some { IfOk result (λ n. (0 < n) × (n ≤ length piece.now)) }
        ensures taken { IfOk result (λ n. Took (state self.old).taken (state self.new).taken (take n piece.now)) }

        // A write fails only if the count of failures rose in this call. It then takes nothing.
        ensures cause { OnErr result (Rose (state self.old).faults (state self.new).faults) }
        ensures failed { OnErr result ((state self.new).taken ≡ (state self.old).taken) }

        ensures later { (state self.old).faults ≤ (state self.new).faults }

        // A successful write leaves the count of failures as it is.
        ensures unfailed { OnOk result ((state self.new).faults ≡ (state self.old).faults) };
}
