//! BLIP messages: joined from frames, and cut into frames.
#![tactic(auto)]

mod acknowledgement;
mod class;
pub mod inbox;
mod index;
pub mod laws;
pub mod message;
mod numbers;
pub mod outbox;
mod part;
mod parts;
mod queue;
mod ready;
mod stamped;
mod stamps;
mod waiting;

pub use inbox::{Inbox, TakeFault, Taken};
pub use message::Message;
pub use outbox::{BadAck, Next, Outbox};
