//! Replays: a configuration, an administrator's script and recorded sessions run at the same time over one history, and a transcript
//! says the outcome of each line, what each session was sent, and the history that they left.
#![tactic(auto)]

mod given;
mod text;
mod whole;

pub use whole::replay;
