//! The gateway's commands, and `serve` among them.
#![tactic(auto)]

mod commands;
mod serve_command;

pub use command_line::Status;
pub use commands::run;
