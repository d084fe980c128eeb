//! What happens to a session.

use blip_mux::Message;
use doc_board::{Kept0, Outcome, SetAnswer};
use repl_messages::{Asked, Bodies, Fed};

/// One event.
#[derive(Drop)]
pub enum Event {
    /// A message of the device became whole.
    Whole(Message),
    /// Nothing came, and this is the length of the history.
    Idle { front: u64 },
    /// What the look for a feed answered.
    Fed(Fed),
    /// What the look for the bodies of rows answered.
    Bodies(Bodies),
    /// What the look for offered revisions answered.
    Asked(Asked),
    /// The outcome of the proposed revision.
    Judged(Outcome),
    /// The checkpoint that was asked for.
    Got(Kept0),
    /// What became of the checkpoint that was set.
    Set(SetAnswer),
}
