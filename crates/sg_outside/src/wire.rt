//! The wire to one device: results that come, and frames that go.

ghost use Rattle.std.specs.Prelude.{◌≡◌, ℕ, List, Option};
ghost use Rattle.sg_outside.specs.Sink.{Counts};
ghost use Rattle.sg_outside.specs.Wire.{Traffic, CountsGot, ReceivesIfRecorded, SendsIfRecorded};

use crate::bytes::Bytes;
use crate::sink::Gave;

/// What receiving gave.
#[derive(Drop)]
pub enum Got {
    /// A frame: the bytes of one binary message.
    Frame(Bytes),
    /// A text message.
    Text,
    /// Nothing is there yet.
    Idle,
    /// The device has ended.
    End,
    /// A fault.
    Failed,
    /// Memory ran out: nothing was received.
    Memory,
}

/// Receives frames, and sends them. It keeps the allocator that what is received is made with.
pub trait Wire: Drop {
    /// How often it failed so far.
    ghost faults: { Self → ℕ };

    /// What was received and sent so far, and what is still to come, where it records them.
    ghost recorded: { Self → Option Traffic };

    fn recv(&mut self) -> Got
        ensures counted { CountsGot (faults self.old) result (faults self.new) }
        ensures recorded { ReceivesIfRecorded (recorded self.old) result (recorded self.new) };

    /// Sends one frame: the whole of it, or at every other answer none that is recorded.
    fn send(&mut self, frame: &[u8]) -> Gave
        ensures counted { Counts (faults self.old) result (faults self.new) }
        ensures recorded { SendsIfRecorded (recorded self.old) frame.now result
            (recorded self.new) };
}
