//! The command `feed`.
#![tactic(auto)]

mod command;
mod feed;
pub mod laws;
mod text;

pub use command::run;
