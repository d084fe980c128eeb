//! A script and sessions at the same time over one history: each in a thread of its own, at a ground of its own behind one gate.
#![tactic(auto)]

mod job;
pub mod laws;
mod line;
mod opening;
mod played;
mod ready;
mod run;
mod script;
mod session;

pub use line::own_revision;
pub use opening::{open, opened, run_command};
pub use played::{LineOutcome, LineOutcomes, Played, PlayedSession, PlayedSessions, Sessions};
pub use run::run_sessions;
