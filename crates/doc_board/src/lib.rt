//! The documents of the gateway: the log, and the tree of revisions of each document.
#![tactic(auto)]

mod base;
mod board;
mod candidate;
mod document;
mod granted;
pub mod laws;
mod offers;
mod open;
pub mod outcome;
mod room;
mod snapshot;
mod storage;
mod waiting;

pub use board::Board;
pub use candidate::{Candidate, Commit, NoRoom};
pub use checkpoint_store::{Kept0, SetAnswer};
pub use offers::answer_offer;
pub use open::OpenFault;
pub use outcome::{MOST_BODY_BYTES, Outcome, outcome_error};
pub use room::Room;
pub use sg_history::RoomFor;
pub use snapshot::Snapshot;
pub use sync_meaning::{Context, Rule};
