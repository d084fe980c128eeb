//! The texts that answer a head.

ghost use Rattle.std.specs.Prelude.{◌≡◌, IfOk};
ghost use Rattle.std.specs.List.{flat_map};
ghost use Rattle.ws_door.specs.Upgrades as spec;
ghost use Rattle.ws_door.specs.Greetings as greetings;

use crate::accept::accept_value;
use crate::answer::Refused;
use crate::asked::protocol_of;
use repl_messages::Version;
use sg_outside::Bytes;
use std::alloc::{AllocError, Global};

/// The pieces, one behind another.
fn joined(alloc: Global, pieces: &[&[u8]]) -> Result<Bytes, AllocError>
    ensures { IfOk result (λ text. text ≡ flat_map (λ p. p.now) pieces.now) }
{
    let mut text = Bytes::new(alloc);
    for piece in pieces {
        text.extend_from_slice(piece)?;
    }
    Ok(text)
}

/// The text that answers a key with the upgrade.
pub(crate) fn switching_text(
    alloc: Global,
    key: &[u8],
    version: Version,
) -> Result<Bytes, AllocError>
    ensures { IfOk result (λ text. text ≡ spec.switching_text key.now version) }
{
    let accept = accept_value(alloc, key)?;
    joined(
        alloc,
        &[
            b"HTTP/1.1 101 Switching Protocols\r\nUpgrade: websocket\r\nConnection: Upgrade\r\nSec-WebSocket-Accept: ",
            accept.as_bytes(),
            b"\r\nSec-WebSocket-Protocol: ",
            protocol_of(version),
            b"\r\n\r\n",
        ],
    )
}

/// The text that answers a head with a refusal; none where memory ran out.
pub(crate) fn refusal_text(refused: Refused) -> &'static [u8]
    ensures { result.now ≡ greetings.refusal_text refused }
{
    match refused {
        Refused::Bad400 => {
            b"HTTP/1.1 400 Bad Request\r\nContent-Length: 0\r\nConnection: close\r\n\r\n"
        }
        Refused::Path404 => {
            b"HTTP/1.1 404 Not Found\r\nContent-Length: 0\r\nConnection: close\r\n\r\n"
        }
        Refused::Protocol426 => {
            b"HTTP/1.1 426 Upgrade Required\r\nContent-Length: 0\r\nConnection: close\r\n\r\n"
        }
        Refused::NoCookie401 => {
            b"HTTP/1.1 401 Unauthorized\r\nX-Rule: no cookie\r\nContent-Length: 0\r\nConnection: close\r\n\r\n"
        }
        Refused::UnknownCookie401 => {
            b"HTTP/1.1 401 Unauthorized\r\nX-Rule: unknown cookie\r\nContent-Length: 0\r\nConnection: close\r\n\r\n"
        }
        Refused::Memory => b"",
    }
}
