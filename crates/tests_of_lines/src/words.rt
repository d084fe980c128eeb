//! What links, doors and wires answer, as words.

use sg_lines::{Door, Line, LineInput, Link, Met, Took};
use sg_outside::{Bytes, Gave, Got, Wire};
use std::alloc::{AllocError, Global};

/// A frame's bytes, or which other result it is.
pub fn word_of(got: &Got) -> &[u8] {
    match got {
        Got::Frame(frame) => frame.as_slice(),
        Got::Text => b"text",
        Got::Idle => b"idle",
        Got::End => b"end",
        Got::Failed => b"failed",
        Got::Memory => b"memory",
    }
}

fn word_of_gave(gave: Gave) -> &'static [u8] {
    match gave {
        Gave::Done => b"done ",
        Gave::Failed => b"failed ",
        Gave::Memory => b"memory ",
    }
}

/// Reads into two bytes; writes the bytes, or which other answer came.
pub fn write_read<L: Link>(link: &mut L, text: &mut Bytes) -> Result<(), AllocError> {
    let mut into = [0u8; 2];
    let word: &[u8] = match link.read(&mut into) {
        Took::Read(count) => &into[..count],
        Took::Idle => b"idle",
        Took::End => b"end",
        Took::Failed => b"failed",
    };
    text.extend_from_slice(word)?;
    text.push(b' ')
}

/// Writes these bytes to a link; and what it answers.
pub fn write_gave<L: Link>(link: &mut L, bytes: &[u8], text: &mut Bytes) -> Result<(), AllocError> {
    let gave = link.write(bytes);
    text.extend_from_slice(word_of_gave(gave))
}

/// Receives by a wire; writes what came.
pub fn write_received<W: Wire>(wire: &mut W, text: &mut Bytes) -> Result<(), AllocError> {
    let got = wire.recv();
    text.extend_from_slice(word_of(&got))?;
    text.push(b' ')
}

/// Sends a frame by a wire; writes what it answers.
pub fn write_sent<W: Wire>(wire: &mut W, frame: &[u8], text: &mut Bytes) -> Result<(), AllocError> {
    let gave = wire.send(frame);
    text.extend_from_slice(word_of_gave(gave))
}

/// Opens a door; writes what it answers.
pub fn write_opened<D: Door>(
    door: &mut D,
    bind: &str,
    accepts: u64,
    text: &mut Bytes,
) -> Result<(), AllocError> {
    let gave = door.open(bind, accepts);
    text.extend_from_slice(word_of_gave(gave))
}

/// Accepts at a door, and shuts the caller's line, whose trace goes back; writes what came.
pub fn write_met<D: Door>(door: &mut D, text: &mut Bytes) -> Result<(), AllocError> {
    match door.accept() {
        Met::Caller(line) => {
            door.back(line.shut());
            text.extend_from_slice(b"caller ")
        }
        Met::End => text.extend_from_slice(b"end "),
        Met::Failed => text.extend_from_slice(b"failed "),
        Met::Memory => text.extend_from_slice(b"memory "),
    }
}

/// Inputs of a link: the pieces, of which one without bytes is a moment of idleness.
pub fn inputs_of(alloc: Global, pieces: &[&[u8]]) -> Result<Vec<LineInput>, AllocError> {
    let mut inputs = Vec::new(alloc);
    for piece in pieces {
        inputs.push(LineInput::Bytes(Bytes::from_slice(alloc, piece)?))?;
    }
    Ok(inputs)
}
