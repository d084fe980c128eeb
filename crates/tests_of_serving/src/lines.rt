//! Callers' lines, and what is served over them.

use gateway_app::{Status, run};
use sg_lines::{Door, LineInput, LineTrace, MemLink, Opening, ScriptedLink};
use sg_outside::{Bytes, MemFile, MemFiles, MemSink};
use std::alloc::{AllocError, Global};
use std::sync::Wait;
use std::thread::Threads;

const CONFIG: &[u8] =
    b"{\"database\":\"db\",\"users\":[{\"name\":\"ann\",\"channels\":[\"A\"],\"session\":\"s1\"}]}";

/// The head of a request for ann's device.
pub const HEAD: &[u8] = b"GET /db/_blipsync HTTP/1.1\r\nUpgrade: websocket\r\n\
Sec-WebSocket-Version: 13\r\nSec-WebSocket-Key: dGhlIHNhbXBsZSBub25jZQ==\r\n\
Sec-WebSocket-Protocol: BLIP_3+CBMobile_3\r\nCookie: SyncGatewaySession=s1\r\n\r\n";

/// The answer to it.
pub const UPGRADE: &[u8] = b"HTTP/1.1 101 Switching Protocols\r\nUpgrade: websocket\r\n\
Connection: Upgrade\r\nSec-WebSocket-Accept: s3pPLMBiTxaQ9kYGzzhZRbK+xOo=\r\n\
Sec-WebSocket-Protocol: BLIP_3+CBMobile_3\r\n\r\n";

fn inputs_of(alloc: Global, head: &[u8]) -> Result<Vec<LineInput>, AllocError> {
    let mut inputs = Vec::new(alloc);
    inputs.push(LineInput::Bytes(Bytes::from_slice(alloc, head)?))?;
    Ok(inputs)
}

/// A line by which this head comes, and whose socket ends at once.
pub fn line_of(alloc: Global, head: &[u8]) -> Result<MemLink, AllocError> {
    Ok(MemLink::new(alloc, inputs_of(alloc, head)?, Vec::new(alloc)))
}

/// The same, with a script by which no call fails.
pub fn good_line(alloc: Global, head: &[u8]) -> Result<ScriptedLink, AllocError> {
    let inputs = inputs_of(alloc, head)?;
    Ok(ScriptedLink::new(
        alloc,
        Vec::new(alloc),
        inputs,
        Vec::new(alloc),
        Vec::new(alloc),
    ))
}

/// The same, of which only the call behind so many fails, a write after seven bytes.
pub fn failing_line(alloc: Global, head: &[u8], calls: usize) -> Result<ScriptedLink, AllocError> {
    let mut script = Vec::new(alloc);
    for _ in 0..calls {
        script.push(None)?;
    }
    script.push(Some(7))?;
    let inputs = inputs_of(alloc, head)?;
    Ok(ScriptedLink::new(alloc, script, inputs, Vec::new(alloc), Vec::new(alloc)))
}

fn words_of(alloc: Global) -> Result<Vec<String>, AllocError> {
    let mut words = Vec::new(alloc);
    words.push(String::from_str(alloc, "serve")?)?;
    words.push(String::from_str(alloc, "notes")?)?;
    Ok(words)
}

fn files_of(alloc: Global) -> Result<MemFiles, AllocError> {
    let mut files = MemFiles::new(alloc);
    files.files.push(MemFile {
        name: String::from_str(alloc, "notes")?,
        bytes: Bytes::from_slice(alloc, CONFIG)?,
    })?;
    Ok(files)
}

/// How serving the door's callers ended, and how many bytes were printed.
pub fn serve<R: Threads + Wait + Sync, D: Door>(
    rt: &R,
    alloc: Global,
    door: &mut D,
) -> Result<(Status, usize), AllocError> {
    let words = words_of(alloc)?;
    let mut files = files_of(alloc)?;
    let mut out = MemSink::new(alloc);
    let status = run(rt, alloc, words.as_slice(), &mut files, door, &mut out);
    Ok((status, out.bytes.len()))
}

pub fn is_ok(ended: (Status, usize)) -> bool {
    match ended {
        (Status::Ok, printed) => printed == 0,
        _ => false,
    }
}

pub fn is_door_fault(ended: (Status, usize)) -> bool {
    match ended {
        (Status::DoorFault, printed) => printed == 0,
        _ => false,
    }
}

/// Whether the only opening was by these words.
pub fn was_opened(openings: &[Opening], bind: &str, accepts: u64) -> bool {
    match openings {
        [opening] => opening.bind.as_slice() == bind.as_bytes() && opening.accepts == accepts,
        _ => false,
    }
}

/// Whether the trace at this place has a socket, and its line took these bytes.
pub fn was_let_in<W: Drop>(traces: &[LineTrace<W>], place: usize, taken: &[u8]) -> bool {
    match traces.get(place) {
        Some(trace) => trace.wire().is_some() && trace.taken() == taken,
        None => false,
    }
}

/// Whether the trace at this place has no socket, and its line took these bytes.
pub fn was_shut<W: Drop>(traces: &[LineTrace<W>], place: usize, taken: &[u8]) -> bool {
    match traces.get(place) {
        Some(trace) => trace.wire().is_none() && trace.taken() == taken,
        None => false,
    }
}
