//! Files that are read whole.

ghost use Rattle.std.specs.Prelude.{◌≡◌, ◌⊎◌, ◌++◌, ◌∷◌, [], ℕ, List, Option, Some};
ghost use Rattle.sg_outside.specs.Files.{Load, CountsLoad, LoadsIfRecorded};

use crate::bytes::Bytes;
use std::alloc::{AllocError, Global};

/// The bytes that a loaded file may have.
pub const LARGEST_FILE: usize = 1_073_741_824;

/// How loading went.
#[derive(Clone, Copy, Debug, PartialEq, Eq)]
pub enum Loaded {
    /// The whole file was appended.
    Whole,
    /// The file has more than 1,073,741,824 bytes.
    Longer,
    /// A fault, or no such file.
    Failed,
    /// Memory ran out.
    Memory,
}

/// Counts a fault; at the counter's end it can't be counted, and is answered as lack of memory.
pub(crate) fn count_fault(faults: &mut u64) -> Loaded
    ensures counted { CountsLoad faults.old result faults.new }
    ensures answer { (result ≡ Loaded.Failed) ⊎ (result ≡ Loaded.Memory) }
{
    if *faults == u64::MAX {
        return Loaded::Memory;
    }
    *faults += 1;
    Loaded::Failed
}

/// Files by name.
pub trait Files: Drop {
    /// How often it failed so far.
    ghost faults: { Self → ℕ };

    /// The bytes under each name that has a file, where it records them.
    ghost recorded: { Self → Option (List ℕ → Option (List ℕ)) };

    /// The loads so far, in order.
    ghost loads: { Self → List Load };

    /// Appends the whole file to `into`; every answer but `Whole` leaves `into` as it was.
    fn load(&mut self, name: &str, into: &mut Bytes) -> Loaded
        ensures counted { CountsLoad (faults self.old) result (faults self.new) }
        ensures kept { recorded self.new ≡ recorded self.old }
        ensures loads { loads self.new
            ≡ loads self.old ++ record { name = name.now; answer = result } ∷ [] }
        ensures loaded { LoadsIfRecorded (recorded self.old) name.now result into.old into.new };
}
