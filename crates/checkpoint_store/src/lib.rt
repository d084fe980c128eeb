//! Checkpoints of devices: for each user and client a number and a body, which a device gets and sets.
#![tactic(auto)]

mod answers;
mod checkpoints;
mod kept;
pub mod laws;

pub use answers::{Kept0, SetAnswer};
pub use checkpoints::Checkpoints;
