//! How sessions end over wires that fail.

use crate::programs::{OPEN, setup};
use doc_board::Board;
use session_mux::FrameWhy;
use session_run::{End, Setup, serve_session};
use sg_outside::{Bytes, Got, ScriptedWire, Wire};
use std::alloc::{AllocError, Global};
use std::test::Fail;
use write_path::{Shelf, SoloGround};

/// subChanges with since 0, as request 1.
const ASK: &[u8] = b"\x01\0\x1bProfile\0subChanges\0since\x000\0\x95\x2c\x1f\xb6";

/// The beginning of a frame that is compressed.
const COMPRESSED: &[u8] = b"\x01\x08";

/// A ground with an empty history.
pub fn ground(alloc: Global) -> Result<SoloGround, Fail> {
    let board = Board::new(alloc)?;
    Ok(SoloGround::new(Shelf::new(board)?))
}

fn got(alloc: Global, word: &str) -> Result<Got, AllocError> {
    match word {
        "idle" => Ok(Got::Idle),
        "failed" => Ok(Got::Failed),
        "text" => Ok(Got::Text),
        "memory" => Ok(Got::Memory),
        "ask" => Ok(Got::Frame(Bytes::from_slice(alloc, ASK)?)),
        _ => Ok(Got::Frame(Bytes::from_slice(alloc, COMPRESSED)?)),
    }
}

/// What comes, and whether the second sending fails.
fn wire(alloc: Global, words: &str, fails: bool) -> Result<ScriptedWire, AllocError> {
    let mut script = Vec::new(alloc);
    for word in words.split(' ') {
        script.push(got(alloc, word)?)?;
    }
    let sendings = vec![in alloc; false, fails]?;
    Ok(ScriptedWire::new(alloc, script, sendings))
}

/// How a session at a ground ends, and after how many looks.
fn served<W: Wire>(alloc: Global, ground: SoloGround, setup: Setup, wire: &mut W) -> (End, usize) {
    let (ground, ended) = serve_session(alloc, ground, setup, wire);
    drop(ground);
    let end = ended.end;
    let looks = ended.looks.as_slice().len();
    drop(ended);
    (end, looks)
}

/// The same of a session of ann's device.
pub fn end_at<W: Wire>(
    alloc: Global,
    ground: SoloGround,
    wire: &mut W,
) -> Result<(End, usize), Fail> {
    match setup(alloc, OPEN) {
        Ok(setup) => Ok(served(alloc, ground, setup, wire)),
        Err(fail) => {
            drop(ground);
            Err(fail)
        }
    }
}

/// How a session with an empty history ends, and how many frames are sent.
fn end(alloc: Global, words: &str, fails: bool) -> Result<(End, usize), Fail> {
    let mut wire = wire(alloc, words, fails)?;
    let (end, _) = end_at(alloc, ground(alloc)?, &mut wire)?;
    Ok((end, wire.sent.len()))
}

fn at(index: u64, why: FrameWhy) -> End {
    End::BadFrame { index, why }
}

#[test]
fn each_end_has_its_cause(rt: HostRuntime) -> Result<(), Fail> {
    for (words, fails, is) in [
        ("idle failed", false, (End::WireFault, 0)),
        ("compressed", false, (at(1, FrameWhy::Compressed), 0)),
        ("ask text", false, (at(2, FrameWhy::NotBinary), 2)),
        ("ask", true, (End::WireFault, 1)),
        ("memory", false, (End::Memory, 0)),
    ] {
        assert!(rt; end(rt.alloc(), words, fails)? == is, "{words}");
    }
    Ok(())
}
