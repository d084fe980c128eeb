//! Serves the devices that come to a door, each a session in a thread of its own, over one history.
#![tactic(auto)]

mod caller;
mod server;
mod serving;

pub use serving::serve_devices;
