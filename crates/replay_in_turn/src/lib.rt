//! Replays one after another: a configuration, an administrator's script and recorded sessions become one history, each line and each
//! session once the one before has ended, and a transcript says the outcome of each line and what each session was sent. It is the
//! plain form of `session_threads`, and what tables of worked cases are compared with, since its transcript is one text alone.
#![tactic(auto)]

pub mod laws;
mod script;
mod session;
mod whole;

pub use whole::replay_in_turn;
