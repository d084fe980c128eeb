//! What the calls on checkpoints answer.

use sg_outside::Bytes;

/// The checkpoint of a user's client: its number and its whole body, or that there is none.
#[derive(Drop)]
pub enum Kept0 {
    Found { rev: u64, body: Bytes },
    Absent404,
}

/// What became of a set. `Set` has the new number and `Conflict409` the one that is kept, 0 where none is; `TooLarge413` has
/// the body's length in bytes. `Full503` finds no room for a new pair, or no number past the kept one.
#[derive(Clone, Copy)]
pub enum SetAnswer {
    Set { rev: u64 },
    Conflict409 { current: u64 },
    TooLarge413 { bytes: u64 },
    Full503,
    Memory,
}
