//! Checkpoints: what a ground answers, what a session sends, and how many a board keeps.

use crate::programs::{NAMED, setup};
use crate::sharing::shelf_of;
use doc_board::Board;
use session_core::{Look, Purpose};
use session_run::{End, Setup, serve_session};
use sg_history::{Client, Name};
use sg_outside::{Bytes, Input, MemWire};
use std::alloc::{AllocError, Global};
use std::test::Fail;
use write_path::{Ground, Kept0, SetAnswer, SoloGround};

/// The bodies that a device gives to its checkpoint, one after another.
const BODIES: [&[u8]; 2] = [b"{\"a\":1}", b"{\"a\":2}"];

/// setCheckpoint of c1 without a number, with the first body and with the second, and with `0-1`; then getCheckpoint of c2 and of c1.
const ASKED: [&[u8]; 5] = [
    b"\x01\0 Profile\0setCheckpoint\0client\0c1\0{\"a\":1}\xc8a@\x85",
    b"\x02\0 Profile\0setCheckpoint\0client\0c1\0{\"a\":2}6M\x92\xdd",
    b"\x03\0(Profile\0setCheckpoint\0client\0c1\0rev\x000-1\0{\"a\":2}t\x17\xc3\x7f",
    b"\x04\0 Profile\0getCheckpoint\0client\0c2\0\x9a\x8d\r\xa5",
    b"\x05\0 Profile\0getCheckpoint\0client\0c1\0\x16\xadO\xa3",
];

/// `0-1`; `checkpoint is 0-1`; `0-2`; `no checkpoint`; and `0-2` with the second body.
const ANSWERED: [Frame; 5] = [
    Frame::Whole(b"\x01\x01\x08rev\x000-1\0\xb1\xb2\x87e"),
    Frame::Whole(b"\x02\x02!Error-Domain\0HTTP\0Error-Code\x00409\0checkpoint is 0-1!$\xa9!"),
    Frame::Whole(b"\x03\x01\x08rev\x000-2\0M\x15u\xfd"),
    Frame::Whole(b"\x04\x02!Error-Domain\0HTTP\0Error-Code\x00404\0no checkpointBiV\x9d"),
    Frame::Whole(b"\x05\x01\x08rev\x000-2\0{\"a\":2}\xb1\xe0\x03z"),
];

/// subChanges with since 0, continuous; the first row is wanted, then none; three documents in A; an idle moment; no row is wanted; and
/// setCheckpoint of c1.
const PULLED: [&[u8]; 9] = [
    b"\x01\0+Profile\0subChanges\0since\x000\0continuous\0true\0\xc7\x85J\x86",
    b"\x01\x01\0[[]]\tB\xd56",
    b"\x03\x01\0[]\xf7\xaf\xf8\t",
    b"\x02\0\x1cProfile\0rev\0id\0d252\0rev\x001-a\0{\"channels\":[\"A\"]}\xfbAlz",
    b"\x03\0\x1cProfile\0rev\0id\0d253\0rev\x001-a\0{\"channels\":[\"A\"]}\x82\x19P}",
    b"\x04\0\x1cProfile\0rev\0id\0d254\0rev\x001-a\0{\"channels\":[\"A\"]}%\x80\xe5\xd6",
    b"",
    b"\x05\x01\0[]\xf4a\xbd\xea",
    b"\x05\0 Profile\0setCheckpoint\0client\0c1\0{\"since\":254}\xad:\x08\xfd",
];

/// A reply; 200 rows; the document of the first; 50 rows; no row; three replies; the rows of the three documents; and `0-1`.
const GIVEN: [Frame; 10] = [
    Frame::Whole(b"\x01\x01\0\xd2\x02\xef\x8d"),
    Frame::Rows {
        head: b"\x01\0\x10Profile\0changes\0",
        first: 2,
        last: 201,
        tail: b"]\x8daD\xde",
    },
    Frame::Whole(b"\x02\0%Profile\0rev\0id\0d2\0rev\x001-a\0sequence\x002\0{}\xfa\xad-\x17"),
    Frame::Rows {
        head: b"\x03\0\x10Profile\0changes\0",
        first: 202,
        last: 251,
        tail: b"]|r\xbb\x1c",
    },
    Frame::Whole(b"\x04 \x10Profile\0changes\0[]L1\xfd7"),
    Frame::Whole(b"\x02\x01\0j\xf3{\x7f"),
    Frame::Whole(b"\x03\x01\0\x12\xd2p["),
    Frame::Whole(b"\x04\x01\0.\xa9\xb5\x81"),
    Frame::Rows {
        head: b"\x05\0\x10Profile\0changes\0",
        first: 252,
        last: 254,
        tail: b"]e\x01\xb2\xcf",
    },
    Frame::Whole(b"\x05\x01\x08rev\x000-1\0\xbcQ\x0f{"),
];

/// subChanges with since 254, continuous.
const RESUMED: [&[u8]; 1] = [
    b"\x01\0-Profile\0subChanges\0since\x00254\0continuous\0true\0G\xeaH\x8e",
];

/// A reply, and no row.
const UP_TO_DATE: [Frame; 2] = [
    Frame::Whole(b"\x01\x01\0\xd2\x02\xef\x8d"),
    Frame::Whole(b"\x01 \x10Profile\0changes\0[]\x82\xf2\xcb\x1a"),
];

/// What is to be sent: a frame in whole; or the changes of documents, by the frame's beginning, the first and the last of their
/// numbers, and its end.
#[derive(Clone, Copy)]
enum Frame {
    Whole(&'static [u8]),
    Rows {
        head: &'static [u8],
        first: u64,
        last: u64,
        tail: &'static [u8],
    },
}

/// The looks of the first session, each by its front and its purpose.
const LOOKS: [(u64, Purpose); 8] = [
    (251, Purpose::Feed),
    (251, Purpose::Bodies),
    (251, Purpose::Feed),
    (251, Purpose::Push),
    (252, Purpose::Push),
    (253, Purpose::Push),
    (254, Purpose::Feed),
    (254, Purpose::Feed),
];

/// Puts the rows of these documents at the end.
fn push_rows(alloc: Global, bytes: &mut Vec<u8>, first: u64, last: u64) -> Result<(), AllocError> {
    for number in first..=last {
        let before = if number == first { "[" } else { "," };
        let row = format!(in alloc; "{before}[{number},\"d{number}\",\"1-a\"]")?;
        bytes.extend_from_slice(row.as_bytes())?;
    }
    Ok(())
}

fn bytes_of(alloc: Global, frame: Frame) -> Result<Vec<u8>, AllocError> {
    let mut bytes = Vec::new(alloc);
    match frame {
        Frame::Whole(whole) => bytes.extend_from_slice(whole)?,
        Frame::Rows {
            head,
            first,
            last,
            tail,
        } => {
            bytes.extend_from_slice(head)?;
            push_rows(alloc, &mut bytes, first, last)?;
            bytes.extend_from_slice(tail)?;
        }
    }
    Ok(bytes)
}

fn are_sent(alloc: Global, sent: &[Bytes], frames: &[Frame]) -> Result<bool, AllocError> {
    if sent.len() != frames.len() {
        return Ok(false);
    }
    for (bytes, frame) in sent.iter().zip(frames) {
        if bytes.as_slice() != bytes_of(alloc, *frame)?.as_slice() {
            return Ok(false);
        }
    }
    Ok(true)
}

fn are_looks(looks: &[Look], are: &[(u64, Purpose)]) -> bool {
    looks.len() == are.len()
        && looks.iter().zip(are).all(|(look, (front, purpose))| look.front == *front
            && look.purpose == *purpose)
}

/// A frame; an idle moment where it is empty.
fn input(alloc: Global, frame: &[u8]) -> Result<Input, AllocError> {
    if frame.is_empty() {
        return Ok(Input::Idle);
    }
    Ok(Input::Frame(Bytes::from_slice(alloc, frame)?))
}

fn inputs(alloc: Global, frames: &[&[u8]]) -> Result<Vec<Input>, AllocError> {
    let mut inputs = Vec::new(alloc);
    for frame in frames {
        inputs.push(input(alloc, frame)?)?;
    }
    Ok(inputs)
}

/// Ann's device, and what comes from it.
fn device_of(alloc: Global, frames: &[&[u8]]) -> Result<(Setup, MemWire), Fail> {
    let inputs = inputs(alloc, frames)?;
    match setup(alloc, NAMED) {
        Ok(setup) => Ok((setup, MemWire::new(alloc, inputs))),
        Err(fail) => {
            drop(inputs);
            Err(fail)
        }
    }
}

/// Whether a session of ann's device with these frames is closed after these looks and frames.
fn served(
    alloc: Global,
    ground: SoloGround,
    frames: &[&[u8]],
    looks: &[(u64, Purpose)],
    sent: &[Frame],
) -> Result<(SoloGround, bool), Fail> {
    let (setup, mut wire) = match device_of(alloc, frames) {
        Ok(device) => device,
        Err(fail) => {
            drop(ground);
            return Err(fail);
        }
    };
    let (ground, ended) = serve_session(alloc, ground, setup, &mut wire);
    let right = ended.end == End::Closed
        && are_looks(ended.looks.as_slice(), looks)
        && matches!(are_sent(alloc, wire.sent.as_slice(), sent), Ok(true));
    drop(ended);
    drop(wire);
    Ok((ground, right))
}

/// Ann has A; each entry from the second to the one of this number is a document in A.
fn ground_of(alloc: Global, last: u64) -> Result<SoloGround, Fail> {
    let mut journal = String::from_str(alloc, "sgjournal 1\nU\tann\tA\t-\n")?;
    for at in 1..last {
        let number = at + 1;
        let line = format!(in alloc; "W\td{number}\t1-a\t-\t0\t7b7d\t-\t{at}\t1-a\tA\t-\t-\n")?;
        journal.push_str(line.as_str())?;
    }
    Ok(SoloGround::new(shelf_of(alloc, journal.as_bytes())?))
}

fn requested(alloc: Global) -> Result<bool, Fail> {
    let (ground, right) = served(alloc, ground_of(alloc, 1)?, &ASKED, &[], &ANSWERED)?;
    drop(ground);
    Ok(right)
}

#[test]
fn requests_for_checkpoints(rt: HostRuntime) -> Result<(), Fail> {
    assert!(rt; requested(rt.alloc())?);
    Ok(())
}

/// Whether both sessions are as they should be, one after the other.
fn pulled(alloc: Global) -> Result<(bool, bool), Fail> {
    let ground = ground_of(alloc, 251)?;
    let (ground, first) = served(alloc, ground, &PULLED, &LOOKS, &GIVEN)?;
    let looks = [(254, Purpose::Feed)];
    let (ground, second) = served(alloc, ground, &RESUMED, &looks, &UP_TO_DATE)?;
    drop(ground);
    Ok((first, second))
}

/// A device pulls 250 documents, pushes three, has their rows, and keeps up to where; its next session goes on from there.
#[test]
fn a_session_that_goes_on_from_a_checkpoint(rt: HostRuntime) -> Result<(), Fail> {
    assert!(rt; pulled(rt.alloc())? == (true, true));
    Ok(())
}

/// Sets the checkpoint of ann's client.
fn set(
    alloc: Global,
    ground: &mut SoloGround,
    client: &str,
    rev: u64,
    body: &[u8],
) -> Result<SetAnswer, Fail> {
    let user = Name::parse(alloc, "ann")?;
    let client = Client::parse(alloc, client)?;
    let body = Bytes::from_slice(alloc, body)?;
    Ok(ground.set_checkpoint(&user, &client, rev, body))
}

/// The number of the checkpoint of ann's client, and whether it has the second body; none where there is no checkpoint.
fn get(alloc: Global, ground: &mut SoloGround, client: &str) -> Result<Option<(u64, bool)>, Fail> {
    let user = Name::parse(alloc, "ann")?;
    let client = Client::parse(alloc, client)?;
    Ok(match ground.get_checkpoint(&user, &client)? {
        Kept0::Found { rev, body } => Some((rev, body.as_slice() == BODIES[1])),
        Kept0::Absent404 => None,
    })
}

fn answers(alloc: Global, ground: &mut SoloGround) -> Result<bool, Fail> {
    let first = set(alloc, ground, "c1", 0, BODIES[0])?;
    let again = set(alloc, ground, "c1", 0, BODIES[1])?;
    let next = set(alloc, ground, "c1", 1, BODIES[1])?;
    let sets = matches!(
        (first, again, next),
        (
            SetAnswer::Set { rev: 1 },
            SetAnswer::Conflict409 { current: 1 },
            SetAnswer::Set { rev: 2 }
        )
    );
    let gets = (get(alloc, ground, "c2")?, get(alloc, ground, "c1")?);
    Ok(sets && gets == (None, Some((2, true))))
}

fn answered(alloc: Global) -> Result<bool, Fail> {
    let mut ground = ground_of(alloc, 1)?;
    let right = answers(alloc, &mut ground);
    drop(ground);
    right
}

/// The checkpoint of c1 is set, not set without its number, and set with it; and c2 has none.
#[test]
fn checkpoints_at_a_ground(rt: HostRuntime) -> Result<(), Fail> {
    assert!(rt; answered(rt.alloc())?);
    Ok(())
}

/// Sets the checkpoint of ann's client of this number at a board.
fn set_at(
    alloc: Global,
    board: &mut Board,
    user: &Name,
    number: u64,
    rev: u64,
) -> Result<SetAnswer, Fail> {
    let text = format!(in alloc; "c{number}")?;
    let client = Client::parse(alloc, text.as_str())?;
    let body = Bytes::from_slice(alloc, b"{}")?;
    Ok(board.set_checkpoint(user, &client, rev, body))
}

/// Whether at a new board the checkpoints of 100,000 clients are set, that of one more finds no room, and one that is there is set
/// still.
pub fn fills_checkpoints(alloc: Global, board: &mut Board) -> Result<bool, Fail> {
    let user = Name::parse(alloc, "ann")?;
    for number in 0..100_000 {
        let answer = set_at(alloc, board, &user, number, 0)?;
        if !matches!(answer, SetAnswer::Set { rev: 1 }) {
            return Ok(false);
        }
    }
    let more = set_at(alloc, board, &user, 100_000, 0)?;
    let there = set_at(alloc, board, &user, 99_999, 1)?;
    Ok(matches!(
        (more, there),
        (SetAnswer::Full503, SetAnswer::Set { rev: 2 })
    ))
}
