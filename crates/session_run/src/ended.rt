//! How a session ends.

use session_core::Looks;
use session_mux::FrameWhy;
use sg_names::List;

/// How a session ends.
#[derive(Clone, Copy, Debug, PartialEq, Eq)]
pub enum End {
    /// The wire has ended, and all was sent that may be sent.
    Closed,
    /// The wire failed.
    WireFault,
    /// A frame is at fault. Frames and text messages are counted from 1.
    BadFrame { index: u64, why: FrameWhy },
    /// So many looks were taken as a session takes at most, 1,000,000, and one more is needed. A proposal is one too.
    LooksFull,
    /// So many results were received as a session receives at most: 2^40.
    TurnsFull,
    /// Out of memory.
    Memory,
}

/// A list of sequences.
pub type Sequences = List<u64>;

/// A session that has ended: how; at which lengths of the history it looked, in order; and at which sequences its revisions
/// were stored, in order.
#[derive(Drop)]
pub struct Ended {
    pub end: End,
    pub looks: Looks,
    pub stored: Sequences,
}
