//! The accept value of a WebSocket handshake.

ghost use Rattle.std.specs.Prelude.{◌≡◌, IfOk, string_bytes};
ghost use Rattle.ws_door.specs.Accept.{accept_of};

use base64::engine::general_purpose::STANDARD;
use sha1::Sha1;
use std::alloc::{AllocError, Global};

/// The value that answers a client's key.
#[tactic(auto, unfolding(crate::specs::Accept::accept_of))]
pub(crate) fn accept_value(alloc: Global, key: &[u8]) -> Result<String, AllocError>
    ensures { IfOk result (λ value. string_bytes value ≡ accept_of key.now) }
{
    let mut hasher = Sha1::new();
    hasher.update(key);
    hasher.update(b"258EAFA5-E914-47DA-95CA-C5AB0DC85B11");
    STANDARD.encode(alloc, &hasher.finalize())
}
