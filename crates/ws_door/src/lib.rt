//! The door: the head of a request is read from a link, and answered as the upgrade to a WebSocket or
//! refused.
#![tactic(auto)]

mod accept;
mod answer;
mod asked;
mod cookies;
mod greeting;
mod head_reader;
mod heads;
mod items;
pub mod laws;
mod reply;
mod request;
mod upgrading;
mod users;

pub use answer::{Refused, Upgrade};
pub use greeting::{GreetFault, greet};
pub use heads::{HeadFault, read_head};
pub use upgrading::upgrade;
