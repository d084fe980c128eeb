//! Lines of the tables of heads.

use gateway_config::{Config, read_config};
use sg_outside::Bytes;
use std::alloc::{AllocError, Global};
use std::test::Fail;

/// Two users, each with a session.
const USERS: &[u8] = b"{\"database\":\"db\",\"users\":[{\"name\":\"ann\",\"session\":\"s1\"},\
{\"name\":\"ben\",\"session\":\"s2\"}]}";

pub fn config_of(alloc: Global) -> Result<Config, Fail> {
    match read_config(alloc, USERS) {
        Ok(config) => Ok(config),
        Err(_) => Err(Fail::from("no configuration")),
    }
}

/// What stands before the first such mark, and behind it; nothing behind it where there is none.
pub fn cut(text: &str, mark: char) -> (&str, &str) {
    text.split_once(mark).unwrap_or((text, ""))
}

/// A piece so many times.
pub fn write_many(piece: &[u8], count: u64, text: &mut Bytes) -> Result<(), AllocError> {
    for _ in 0..count {
        text.extend_from_slice(piece)?;
    }
    Ok(())
}

/// What a byte of a table stands for.
fn write_meant(byte: u8, text: &mut Bytes) -> Result<(), AllocError> {
    match byte {
        b'^' => text.extend_from_slice(b"\r\n"),
        b'%' => text.push(0),
        b'~' => text.push(0xff),
        b'@' => text.extend_from_slice(b"GET /db/_blipsync HTTP/1.1\r\n"),
        b'*' => text.extend_from_slice(
            b"Upgrade: websocket\r\nSec-WebSocket-Version: 13\r\nSec-WebSocket-Key: dGhlIHNhbXBsZSBub25jZQ==\r\n",
        ),
        b'&' => text.extend_from_slice(b"Sec-WebSocket-Protocol: "),
        b'$' => text.extend_from_slice(b"SyncGatewaySession"),
        b'#' => write_many(b"a: b\r\n", 251, text),
        _ => text.push(byte),
    }
}

/// The bytes of a text of a table: `^` stands for the end of a line, `%` and `~` for the bytes 0 and FF, `@` for the first line of a
/// request for the endpoint of `db`, `*` for three headers that ask for a WebSocket, `&` and `$` for the names of the header of
/// protocols and of the session's cookie, and `#` for 251 headers.
pub fn meant(alloc: Global, text: &str) -> Result<Bytes, AllocError> {
    let mut bytes = Bytes::new(alloc);
    for byte in text.as_bytes() {
        write_meant(*byte, &mut bytes)?;
    }
    Ok(bytes)
}
