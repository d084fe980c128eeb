//! Frames that an inbox takes or refuses, by their numbers and by how much has come.

use blip_frame::{Frame, Kind};
use blip_mux::{Inbox, TakeFault, Taken};
use sg_history::write_decimal;
use sg_outside::Bytes;
use std::alloc::{AllocError, Global};
use std::test::Fail;

/// The first of several frames of a request.
fn first_of(number: u64) -> Frame<'static> {
    Frame {
        number,
        kind: Kind::Msg,
        urgent: false,
        no_reply: true,
        more: true,
        payload: b"\x00",
    }
}

/// The number that is out of order, or `taken`.
fn write_taken(inbox: &mut Inbox, number: u64, text: &mut Bytes) -> Result<(), AllocError> {
    match inbox.take(&first_of(number)) {
        Ok(_) => text.extend_from_slice(b"taken"),
        Err(TakeFault::OutOfOrder { number }) => write_decimal(number, text),
        Err(_) => text.extend_from_slice(b"another fault"),
    }
}

/// The same of these numbers, one after another.
fn write_all_taken(alloc: Global, text: &mut Bytes) -> Result<(), AllocError> {
    let mut inbox = Inbox::new(alloc);
    for number in [2, 0, 1, 3, 2, 9] {
        write_taken(&mut inbox, number, text)?;
        text.push(b' ')?;
    }
    Ok(())
}

fn all_taken(alloc: Global) -> Result<Bytes, AllocError> {
    let mut text = Bytes::new(alloc);
    write_all_taken(alloc, &mut text)?;
    Ok(text)
}

#[test]
fn requests_come_in_order(rt: HostRuntime) -> Result<(), Fail> {
    let text = all_taken(rt.alloc())?;
    assert!(rt; text.as_slice() == b"2 0 taken 3 taken 9 ".as_slice());
    Ok(())
}

/// A frame of a request that has more to come.
fn part_of(number: u64, payload: &[u8]) -> Frame<'_> {
    Frame {
        number,
        kind: Kind::Msg,
        urgent: false,
        no_reply: true,
        more: true,
        payload,
    }
}

/// `o` where an acknowledgement is owed for a frame, or why it is refused.
fn write_part(inbox: &mut Inbox, frame: &Frame<'_>, text: &mut Bytes) -> Result<(), AllocError> {
    match inbox.take(frame) {
        Ok(Taken::Owed { .. }) => text.push(b'o'),
        Ok(_) => text.push(b'-'),
        Err(TakeFault::TooLong { number }) => {
            text.extend_from_slice(b" TooLong ")?;
            write_decimal(number, text)
        }
        Err(TakeFault::Full { number }) => {
            text.extend_from_slice(b" Full ")?;
            write_decimal(number, text)
        }
        Err(_) => text.extend_from_slice(b"another fault"),
    }
}

/// The same of so many frames of one request.
fn write_parts(
    inbox: &mut Inbox,
    number: u64,
    payload: &[u8],
    count: usize,
    text: &mut Bytes,
) -> Result<(), AllocError> {
    for _ in 0..count {
        write_part(inbox, &part_of(number, payload), text)?;
    }
    text.push(b'|')
}

/// What an inbox gives for a message of 24 frames and one byte, and another one for five of 24 frames,
/// none whole, and eight of a sixth.
fn large_taken(alloc: Global, large: &[u8]) -> Result<Bytes, AllocError> {
    let mut text = Bytes::new(alloc);
    let mut inbox = Inbox::new(alloc);
    write_parts(&mut inbox, 1, large, 24, &mut text)?;
    write_parts(&mut inbox, 1, &large[..large.len().min(1)], 1, &mut text)?;
    drop(inbox);
    let mut inbox = Inbox::new(alloc);
    for number in 1..6 {
        write_parts(&mut inbox, number, large, 24, &mut text)?;
    }
    write_parts(&mut inbox, 6, large, 8, &mut text)?;
    Ok(text)
}

const LARGE_TAKEN: &str = "\
oooooooooooooooooooooooo| TooLong 1|\
oooooooooooooooooooooooo|oooooooooooooooooooooooo|oooooooooooooooooooooooo|\
oooooooooooooooooooooooo|oooooooooooooooooooooooo|ooooooo Full 6|";

#[test]
fn messages_are_bounded_alone_and_together(rt: HostRuntime) -> Result<(), Fail> {
    let large = vec![in rt.alloc(); 0u8; 1_048_576]?;
    let text = large_taken(rt.alloc(), large.as_slice())?;
    assert!(rt; text.as_slice() == LARGE_TAKEN.as_bytes());
    Ok(())
}
