//! How the door answers.

use repl_messages::Version;
use sg_history::Name;
use sg_outside::Bytes;

/// An upgrade to a WebSocket: who comes, the version that is spoken, and the text that answers the head.
#[derive(Drop)]
pub struct Upgrade {
    pub user: Name,
    pub version: Version,
    pub reply: Bytes,
}

/// Why there is no upgrade.
#[derive(Clone, Copy, Debug, PartialEq, Eq)]
pub enum Refused {
    /// No complete head of a request for a WebSocket.
    Bad400,
    /// Another target than the database's.
    Path404,
    /// No subprotocol is offered that the gateway speaks.
    Protocol426,
    /// No cookie with a session.
    NoCookie401,
    /// No user has the session.
    UnknownCookie401,
    /// Memory ran out.
    Memory,
}
