//! The command `replay`, and `replay` in turn.
#![tactic(auto)]

mod command;
mod inputs;

pub use command::{run_in_turn, run_replay};
pub use inputs::load_config;
