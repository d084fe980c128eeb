//! The rows of a user's changes feed by what came since a key.
#![tactic(auto)]

mod feeds;
mod latest;
pub mod laws;
mod listed;
mod periods;
mod segment;
mod switched;

pub use feeds::{Advanced, Feeds};
