//! A worked case of each line and each door in memory.

use crate::words::{
    inputs_of, write_gave, write_met, write_opened, write_read, write_received, write_sent,
};
use sg_lines::{Door, Line, LineTrace, Link, MemDoor, MemLink, ScriptedDoor, ScriptedLink};
use sg_outside::{Bytes, Got, Input, MemWire, ScriptedWire, Wire};
use std::alloc::{AllocError, Global};
use std::test::Fail;

/// By it come `abc`, nothing and `d`, and by its socket `one`.
fn mem_link(alloc: Global) -> Result<MemLink, AllocError> {
    let inputs = inputs_of(alloc, &[b"abc", b"", b"d"])?;
    let frame = Bytes::from_slice(alloc, b"one")?;
    let frames = vec![in alloc; Input::Frame(frame)]?;
    Ok(MemLink::new(alloc, inputs, frames))
}

/// The same by a script: its second call fails, its third after a byte, and what its socket sends.
fn scripted_link(alloc: Global) -> Result<ScriptedLink, AllocError> {
    let inputs = inputs_of(alloc, &[b"abc", b"", b"d"])?;
    let frame = Bytes::from_slice(alloc, b"one")?;
    let frames = vec![in alloc; Got::Frame(frame)]?;
    let script = vec![in alloc; None, Some(0), Some(1)]?;
    let send_fails = vec![in alloc; true]?;
    Ok(ScriptedLink::new(alloc, script, inputs, frames, send_fails))
}

/// Reads twice, writes `xy`, and reads three times.
fn use_link<L: Link>(link: &mut L, text: &mut Bytes) -> Result<(), AllocError> {
    for _ in 0..2 {
        write_read(link, text)?;
    }
    write_gave(link, b"xy", text)?;
    for _ in 0..3 {
        write_read(link, text)?;
    }
    Ok(())
}

/// Receives once, and sends `two`.
fn use_socket<W: Wire>(socket: &mut W, text: &mut Bytes) -> Result<(), AllocError> {
    write_received(socket, text)?;
    write_sent(socket, b"two", text)
}

/// Uses a line and then its socket; what is left of it, once it is shut.
fn use_line<L: Line>(line: L, text: &mut Bytes) -> Result<L::Trace, AllocError> {
    let mut line = line;
    use_link(&mut line, text)?;
    match line.socket() {
        Ok(socket) => {
            let mut socket = socket;
            use_socket(&mut socket, text)?;
            Ok(L::shut_socket(socket))
        }
        Err(trace) => Ok(trace),
    }
}

/// Whether using the line gives this text, and it took these bytes.
fn line_in_memory(alloc: Global) -> Result<bool, AllocError> {
    let mut text = Bytes::new(alloc);
    let trace: LineTrace<MemWire> = use_line(mem_link(alloc)?, &mut text)?;
    let sent = match trace.wire() {
        Some(wire) => wire.sent.len() == 1,
        None => false,
    };
    let taken = trace.taken() == b"xy".as_slice();
    drop(trace);
    Ok(sent && taken && text.as_slice() == b"ab c done idle d end one done ".as_slice())
}

fn line_by_script(alloc: Global) -> Result<bool, AllocError> {
    let mut text = Bytes::new(alloc);
    let trace: LineTrace<ScriptedWire> = use_line(scripted_link(alloc)?, &mut text)?;
    let taken = trace.taken() == b"x".as_slice();
    drop(trace);
    Ok(taken && text.as_slice() == b"ab failed failed c idle d one failed ".as_slice())
}

/// Opens twice, for one caller, and accepts three times.
fn use_door<D: Door>(door: &mut D, text: &mut Bytes) -> Result<(), AllocError> {
    for _ in 0..2 {
        write_opened(door, "127.0.0.1:4984", 1, text)?;
    }
    for _ in 0..3 {
        write_met(door, text)?;
    }
    Ok(())
}

/// How many callers left a trace at a door in memory, to which two lines come.
fn door_in_memory(alloc: Global, text: &mut Bytes) -> Result<usize, AllocError> {
    let lines = vec![in alloc; mem_link(alloc)?, mem_link(alloc)?]?;
    let mut door = MemDoor::new(alloc, lines);
    use_door(&mut door, text)?;
    Ok(door.traces().len())
}

/// The same at a door whose first and third call fail, and its faults.
fn door_by_script(alloc: Global, text: &mut Bytes) -> Result<(usize, u64), AllocError> {
    let lines = vec![in alloc; scripted_link(alloc)?]?;
    let mut door = ScriptedDoor::new(alloc, vec![in alloc; true, false, true]?, lines);
    use_door(&mut door, text)?;
    Ok((door.traces().len(), door.faults()))
}

#[test]
fn lines_and_doors_in_memory(rt: HostRuntime) -> Result<(), Fail> {
    let alloc = rt.alloc();
    assert!(rt; line_in_memory(alloc)?);
    assert!(rt; line_by_script(alloc)?);
    let mut text = Bytes::new(alloc);
    assert!(rt; door_in_memory(alloc, &mut text)? == 1);
    assert!(rt; text.as_slice() == b"done done caller end end ".as_slice());
    text.truncate(0);
    assert!(rt; door_by_script(alloc, &mut text)? == (1, 2));
    assert!(rt; text.as_slice() == b"failed done failed caller end ".as_slice());
    Ok(())
}
