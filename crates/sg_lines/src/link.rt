//! A link, which gives and takes bytes.

ghost use Rattle.std.specs.Prelude.{◌≤◌, ℕ, Option, length};
ghost use Rattle.sg_outside.specs.Sink.{Counts};
ghost use Rattle.sg_outside.specs.Wire.{LinkRecord};
ghost use Rattle.sg_lines.specs.Link.{CountsTook, Fits, read_of, ReadsIfRecorded, WritesIfRecorded};

use sg_outside::Gave;

/// What reading gave.
#[derive(Clone, Copy, Debug, PartialEq, Eq)]
pub enum Took {
    /// So many bytes, in front of the buffer.
    Read(usize),
    /// Nothing is there yet.
    Idle,
    /// The link has ended.
    End,
    /// A fault.
    Failed,
}

/// Gives bytes and takes bytes, in order.
pub trait Link: Drop {
    /// How often it failed so far.
    ghost faults: { Self → ℕ };

    /// What was read, what it took and what writes answered so far, where it records them.
    ghost recorded: { Self → Option LinkRecord };

    /// Reads into the front of the buffer, which has room for a byte.
    fn read(&mut self, into: &mut [u8]) -> Took
        requires { 1 ≤ length into.old }
        ensures counted { CountsTook (faults self.old) result (faults self.new) }
        ensures fits { Fits result (length into.old) }
        ensures recorded { ReadsIfRecorded (recorded self.old) (read_of result into.new)
            (recorded self.new) };

    fn write(&mut self, bytes: &[u8]) -> Gave
        ensures counted { Counts (faults self.old) result (faults self.new) }
        ensures recorded { WritesIfRecorded (recorded self.old) bytes.now result
            (recorded self.new) };
}
