//! Transcripts: what a replay prints of the outcomes of a script's lines, of sessions, and of the history that they leave.
#![tactic(auto)]

mod history_text;
mod outcome_text;
mod session_text;

pub use history_text::write_history;
pub use outcome_text::write_outcome;
pub use session_text::{write_ended, write_title};
