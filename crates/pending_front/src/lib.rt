//! Entries whose sequences were drawn before those below them were stored: they wait for their places in the log, and are
//! released to its end in the order of their numbers.
#![tactic(auto)]

pub mod laws;
mod pending;

pub use pending::Pending;
