//! Lines to devices, as traits: a link that gives and takes bytes, the line that becomes a device's
//! socket, and the door at which lines come. Each has a count of faults, and records what it did where it
//! can; there are forms in memory that never fail, and forms with a script of the calls that fail.
#![tactic(auto)]

mod door;
mod door_state;
mod inputs;
mod line;
mod line_log;
mod line_socket;
mod link;
mod mem_door;
mod mem_link;
mod read_trail;
mod scripted_door;
mod scripted_link;
mod scripts;
mod trail;

pub use door::{Door, Met, Opening};
pub use inputs::LineInput;
pub use line::Line;
pub use line_log::LineLog;
pub use line_socket::{LineSocket, LineTrace};
pub use link::{Link, Took};
pub use mem_door::MemDoor;
pub use mem_link::MemLink;
pub use scripted_door::ScriptedDoor;
pub use scripted_link::ScriptedLink;
