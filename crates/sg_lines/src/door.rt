//! The door, at which the lines of devices come.

ghost use Rattle.std.specs.Prelude.{◌≤◌, ℕ, Option};
ghost use Rattle.sg_outside.specs.Sink.{Counts};
ghost use Rattle.sg_lines.specs.Door.{DoorRecord, CountsMet, OpensIfRecorded, AcceptsIfRecorded, IsWithin, IsFresh, BacksIfRecorded};

use crate::line::Line;
use sg_outside::{Bytes, Gave};

/// What accepting gave.
#[derive(Drop)]
pub enum Met<L> {
    /// A caller, by its line.
    Caller(L),
    /// No more callers come.
    End,
    /// A fault.
    Failed,
    /// Memory ran out: no caller was taken.
    Memory,
}

/// The words of an opening: the address, and how many callers are accepted.
#[derive(Drop)]
pub struct Opening {
    pub bind: Bytes,
    pub accepts: u64,
}

/// Accepts lines, and takes back what is left of them.
pub trait Door: Drop {
    type Line: Line + Send;

    /// How often it failed so far.
    ghost faults: { Self → ℕ };

    /// Its openings, callers and traces so far, where it records them.
    ghost recorded: { Self → Option (DoorRecord Self.Line.Trace) };

    /// Opens at this address, for so many callers.
    fn open(&mut self, bind: &str, accepts: u64) -> Gave
        ensures counted { Counts (faults self.old) result (faults self.new) }
        ensures recorded { OpensIfRecorded (recorded self.old) bind.now accepts result
            (recorded self.new) };

    fn accept(&mut self) -> Met<Self::Line>
        ensures counted { CountsMet (faults self.old) result (faults self.new) }
        ensures recorded { AcceptsIfRecorded (recorded self.old) result (recorded self.new) }
        ensures within { IsWithin (recorded self.old) result }
        ensures fresh { IsFresh Self.Line.recorded (recorded self.old) result };

    /// Takes back what is left of a line.
    fn back(&mut self, trace: <Self::Line as Line>::Trace)
        ensures counted { faults self.old ≤ faults self.new }
        ensures recorded { BacksIfRecorded (recorded self.old) trace (recorded self.new) };
}
