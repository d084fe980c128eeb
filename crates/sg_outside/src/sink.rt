//! Where output goes.

ghost use Rattle.std.specs.Prelude.{◌≡◌, ℕ, List, Option, [], Some};
ghost use Rattle.sg_outside.specs.Sink.{Counts, TakesIfRecorded};

use crate::bytes::Bytes;
use std::alloc::Global;

/// How giving went.
#[derive(Clone, Copy, Debug, PartialEq, Eq)]
pub enum Gave {
    /// All was taken.
    Done,
    /// A fault: a beginning was taken.
    Failed,
    /// Memory ran out: nothing was taken.
    Memory,
}

/// Takes bytes in the order in which they are given.
pub trait Sink: Drop {
    /// How often it failed so far.
    ghost faults: { Self → ℕ };

    /// The bytes taken so far, where it records them.
    ghost taken: { Self → Option (List ℕ) };

    fn give(&mut self, bytes: &[u8]) -> Gave
        ensures counted { Counts (faults self.old) result (faults self.new) }
        ensures taken { TakesIfRecorded (taken self.old) bytes.now result (taken self.new) };
}

/// A sink in memory, which never fails and records what it took.
#[derive(Drop)]
pub struct MemSink {
    pub bytes: Bytes,
}

impl MemSink {
    /// A sink that took nothing yet.
    pub fn new(alloc: Global) -> MemSink
        ensures { result.bytes ≡ [] }
    {
        MemSink {
            bytes: Bytes::new(alloc),
        }
    }
}

impl Sink for MemSink {
    ghost faults = { λ _. 0 };

    ghost taken = { λ s. Some s.bytes };

    fn give(&mut self, bytes: &[u8]) -> Gave {
        match self.bytes.extend_from_slice(bytes) {
            Ok(()) => Gave::Done,
            Err(_) => Gave::Memory,
        }
    }
}
