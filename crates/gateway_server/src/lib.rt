//! Serving the callers of a door, each by a job in a thread of its own. What a job does is the server's.
#![tactic(auto)]

mod accepting;
mod job;
mod serve;
mod stop;

pub use accepting::serve_door;
pub use job::Job;
pub use serve::{NoJob, Serve};
pub use stop::{DoorEnd, Stop};
