//! A message that came whole.

use blip_frame::{Kind, Payload};

/// A request, a reply or an error reply.
#[derive(Drop)]
pub struct Message {
    /// The number of a request; a reply has that of its request.
    pub number: u64,
    pub kind: Kind,
    pub urgent: bool,
    pub no_reply: bool,
    pub payload: Payload,
}
