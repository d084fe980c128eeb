//! What is to be stored, and its outcome.

use crate::room::Room;
use rev_tree::Tree;
use sg_history::{Entry, Number, Write};

/// What is to be stored.
#[derive(Drop)]
pub enum Candidate {
    /// A write, with the document's tree after it, and the sequence of the document's last write before it, 0 where there was none.
    Write { entry: Write, tree: Tree, base: u64 },
    /// An entry that neither writes a document nor replaces the sync function.
    Plain(Entry),
}

/// The outcome of storing a candidate.
pub enum Commit {
    /// It is stored: the entry's sequence, and the front at which a write was judged, or the log's length before another entry.
    Stored {
        sequence: u64,
        at: u64,
    },
    /// The document was written since: all is handed back, with the sequence of its last write.
    Stale {
        room: Room,
        number: Number,
        candidate: Candidate,
        last: u64,
    },
}

/// Why there is no room.
#[derive(Clone, Copy, Debug, PartialEq, Eq)]
pub enum NoRoom {
    /// So many places are taken: those of entries that wait, and two for each room that is outstanding.
    Full503 { places: u64 },
    /// The log with those places has so many entries, and all bodies with those that rooms were made for, and the one that
    /// is asked for, so many bytes.
    LogFull509 { entries: u64, bytes: u64 },
    /// Memory ran out.
    Memory,
}
