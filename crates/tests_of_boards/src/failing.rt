//! A session over a wire of which each call fails in turn.

use crate::ends::end_at;
use crate::sharing::shelf_of;
use session_run::End;
use sg_history::from_hex;
use sg_outside::{Bytes, Got, ScriptedWire};
use std::alloc::{AllocError, Global};
use std::test::Fail;
use write_path::SoloGround;

/// Ann, with the channel of every user alone.
const ANN: &[u8] = b"sgjournal 1\nU\tann\t-\t-\n";

/// Ann's device pushes two documents, pulls both, answers the first body, pushes a third, and asks for its checkpoint before it sets one
/// and behind it: what comes, as `examples/record` writes it.
const CAME: &str = "\
01001a50726f66696c65007265760069640064310072657600312d61007b7dce816d8e \
02001a50726f66696c65007265760069640064320072657600312d61007b7d369fc689 \
03001b50726f66696c65007375624368616e6765730073696e6365003000359be28b \
0101005b5b5d2c5b5d5df6f6b129 \
02010090468150 \
04001a50726f66696c65007265760069640064330072657600312d61007b7defe556f3 \
05001f50726f66696c6500676574436865636b706f696e7400636c69656e7400630094c38f42 \
06001f50726f66696c6500736574436865636b706f696e7400636c69656e740063007b7dd8224b0b \
07001f50726f66696c6500676574436865636b706f696e7400636c69656e740063005d856fdc";

/// How many frames come, and how many go.
const RECEIVED: usize = 9;

const SENT: usize = 11;

fn frame(alloc: Global, text: &str) -> Result<Got, Fail> {
    let mut bytes = Bytes::new(alloc);
    if from_hex(text.as_bytes(), &mut bytes).is_err() {
        return Err(Fail::from("no frame"));
    }
    Ok(Got::Frame(bytes))
}

/// The first frames that come, so many of them.
fn came(alloc: Global, count: usize) -> Result<Vec<Got>, Fail> {
    let mut script = Vec::new(alloc);
    for text in CAME.split(' ') {
        if script.len() < count {
            script.push(frame(alloc, text)?)?;
        }
    }
    Ok(script)
}

/// Which sending fails, if one does.
fn marks(alloc: Global, sending: Option<usize>) -> Result<Vec<bool>, AllocError> {
    let mut marks = Vec::new(alloc);
    for place in 0..SENT {
        marks.push(sending == Some(place))?;
    }
    Ok(marks)
}

/// A wire that fails at the receiving of this place, or at the sending, or never.
fn wire(
    alloc: Global,
    receiving: Option<usize>,
    sending: Option<usize>,
) -> Result<ScriptedWire, Fail> {
    let mut script = came(alloc, receiving.unwrap_or(RECEIVED))?;
    if receiving.is_some() {
        script.push(Got::Failed)?;
    }
    let marks = marks(alloc, sending)?;
    Ok(ScriptedWire::new(alloc, script, marks))
}

/// How the session over a wire ends.
fn end(alloc: Global, wire: &mut ScriptedWire) -> Result<End, Fail> {
    let ground = SoloGround::new(shelf_of(alloc, ANN)?);
    let (end, _) = end_at(alloc, ground, wire)?;
    Ok(end)
}

/// Whether frames are the first of others.
fn are_first(frames: &[Bytes], all: &[Bytes]) -> bool {
    frames.len() <= all.len()
        && frames
            .iter()
            .zip(all)
            .all(|(one, other)| one.as_slice() == other.as_slice())
}

/// Whether the session ends with the one fault of its wire, what was sent by then are the first of these frames, and after a sending
/// that failed none was tried.
fn breaks(
    alloc: Global,
    receiving: Option<usize>,
    sending: Option<usize>,
    all: &[Bytes],
) -> Result<bool, Fail> {
    let mut wire = wire(alloc, receiving, sending)?;
    let end = end(alloc, &mut wire)?;
    let went = sending.unwrap_or(wire.sent.len());
    let tried = went.saturating_add(usize::from(sending.is_some()));
    Ok(
        end == End::WireFault
            && wire.faults() == 1
            && wire.sent.len() == went
            && wire.gave.len() == tried
            && are_first(wire.sent.as_slice(), all),
    )
}

#[test]
fn each_call_of_a_wire_fails_in_turn(rt: HostRuntime) -> Result<(), Fail> {
    let mut whole = wire(rt.alloc(), None, None)?;
    assert!(rt; end(rt.alloc(), &mut whole)? == End::Closed && whole.sent.len() == SENT);
    for place in 0..=RECEIVED {
        let broken = breaks(rt.alloc(), Some(place), None, whole.sent.as_slice())?;
        assert!(rt; broken, "receiving {place}");
    }
    for place in 0..SENT {
        let broken = breaks(rt.alloc(), None, Some(place), whole.sent.as_slice())?;
        assert!(rt; broken, "sending {place}");
    }
    Ok(())
}
