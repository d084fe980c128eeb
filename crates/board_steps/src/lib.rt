//! What one board does for a proposal, a command and a look, step by step.
#![tactic(auto)]

mod accepted;
mod ask;
mod bodies;
mod command;
mod fresh;
mod judging;
pub mod laws;
mod propose;
mod refused;
mod retry;
mod texts;
mod trying;

pub use accepted::{Accepted, Judged, accepted_of};
pub use ask::asked_at;
pub use bodies::bodies_at;
pub use command::command_to;
pub use fresh::commit_fresh;
pub use propose::{extension_of, propose_to, share_and_read};
pub use refused::no_room_outcome;
pub use retry::{Ready, Retried, propose_again, store_at_fresh};
pub use trying::store_or_retry;
