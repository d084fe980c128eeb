//! Messages of a WebSocket, as bytes that come by a link in memory.

use crate::words::{inputs_of, word_of};
use sg_lines::MemLink;
use sg_outside::{Bytes, Got, Wire};
use sg_sockets::WsWire;
use std::alloc::{AllocError, Global};
use std::test::Fail;

/// Frames of the examples of RFC 6455: a text, and a ping, with the word `Hello`.
const TEXT: &[u8] = b"\x81\x85\x37\xfa\x21\x3d\x7f\x9f\x4d\x51\x58";

const PING: &[u8] = b"\x89\x85\x37\xfa\x21\x3d\x7f\x9f\x4d\x51\x58";

/// The same word as a binary message.
const BINARY: &[u8] = b"\x82\x85\x37\xfa\x21\x3d\x7f\x9f\x4d\x51\x58";

/// The same in three frames, masked by zeros.
const FIRST: &[u8] = b"\x02\x82\0\0\0\0He";

const SECOND: &[u8] = b"\0\x82\0\0\0\0ll";

const THIRD: &[u8] = b"\x80\x81\0\0\0\0o";

/// A close with the number 1000.
const CLOSE: &[u8] = b"\x88\x82\0\0\0\0\x03\xe8";

/// The heads of messages of 2,097,152 bytes and of one more.
const LARGEST: &[u8] = b"\x82\xff\0\0\0\0\0\x20\0\0\0\0\0\0";

const LARGER: &[u8] = b"\x82\xff\0\0\0\0\0\x20\0\x01\0\0\0\0";

fn wire_of(alloc: Global, pieces: &[&[u8]]) -> Result<WsWire<MemLink>, AllocError> {
    let inputs = inputs_of(alloc, pieces)?;
    WsWire::new(alloc, MemLink::new(alloc, inputs, Vec::new(alloc)))
}

/// Receives once; writes what came, and all that the link has taken by then.
fn write_step(wire: &mut WsWire<MemLink>, text: &mut Bytes) -> Result<(), AllocError> {
    let got = wire.recv();
    text.extend_from_slice(word_of(&got))?;
    text.push(b'<')?;
    text.extend_from_slice(wire.link().taken())?;
    text.push(b'>')
}

/// The same so often.
fn steps(alloc: Global, pieces: &[&[u8]], count: u64) -> Result<Bytes, AllocError> {
    let mut wire = wire_of(alloc, pieces)?;
    let mut text = Bytes::new(alloc);
    for _ in 0..count {
        write_step(&mut wire, &mut text)?;
    }
    Ok(text)
}

/// Whether these pieces give this text at so many receivings.
fn gives(alloc: Global, pieces: &[&[u8]], count: u64, want: &[u8]) -> Result<bool, AllocError> {
    let text = steps(alloc, pieces, count)?;
    Ok(text.as_slice() == want)
}

/// The length of the frame that is received.
fn length_received(wire: &mut WsWire<MemLink>) -> Option<usize> {
    match wire.recv() {
        Got::Frame(frame) => Some(frame.len()),
        _ => None,
    }
}

/// The same where a message comes with this head and so many zeros.
fn length_of(alloc: Global, head: &[u8], zeros: usize) -> Result<Option<usize>, AllocError> {
    let zeros = vec![in alloc; 0u8; zeros]?;
    let mut wire = wire_of(alloc, &[head, zeros.as_slice()])?;
    Ok(length_received(&mut wire))
}

/// What comes at the last of so many receivings, where nothing but idleness comes, and what was taken.
fn after_idles(alloc: Global, count: u64) -> Result<Bytes, AllocError> {
    let mut wire = wire_of(alloc, vec![in alloc; b"".as_slice(); 1800]?.as_slice())?;
    for _ in 1..count {
        drop(wire.recv());
    }
    let mut text = Bytes::new(alloc);
    write_step(&mut wire, &mut text)?;
    Ok(text)
}

/// Sends `Hello`, and gives the link back.
fn send_and_close(wire: WsWire<MemLink>) -> MemLink {
    let mut wire = wire;
    wire.send(b"Hello");
    wire.into_link()
}

/// What the link has taken then.
fn sent_and_closed(alloc: Global) -> Result<Bytes, AllocError> {
    let link = send_and_close(wire_of(alloc, &[])?);
    let taken = Bytes::from_slice(alloc, link.taken());
    drop(link);
    taken
}

#[test]
fn messages_over_a_link_in_memory(rt: HostRuntime) -> Result<(), Fail> {
    let alloc = rt.alloc();
    assert!(rt; gives(alloc, &[BINARY], 2, b"Hello<>failed<>")?);
    assert!(rt; gives(alloc, &[TEXT, BINARY], 2, b"text<>Hello<>")?);
    assert!(rt; gives(alloc, &[PING, BINARY], 2, b"idle<>Hello<\x8a\x05Hello>")?);
    assert!(rt;
        gives(
            alloc,
            &[FIRST, b"", SECOND, b"", THIRD],
            3,
            b"idle<>idle<>Hello<>"
        )?
    );
    assert!(rt; gives(alloc, &[CLOSE], 1, b"end<\x88\x02\x03\xe8>")?);
    assert!(rt; gives(alloc, &[b"\x82\x05Hello"], 1, b"failed<>")?);
    Ok(())
}

#[test]
fn long_messages_and_long_silence(rt: HostRuntime) -> Result<(), Fail> {
    let alloc = rt.alloc();
    assert!(rt; length_of(alloc, LARGEST, 2_097_152)? == Some(2_097_152));
    assert!(rt; length_of(alloc, LARGER, 2_097_153)? == None);
    for (count, want) in [
        (599, b"idle<>".as_slice()),
        (600, b"idle<\x89\0>".as_slice()),
        (1799, b"idle<\x89\0>".as_slice()),
        (1800, b"failed<\x89\0>".as_slice()),
    ] {
        assert!(rt;
            after_idles(alloc, count)?.as_slice() == want,
            "after {count}"
        );
    }
    assert!(rt; sent_and_closed(alloc)?.as_slice() == b"\x82\x05Hello\x88\0".as_slice());
    Ok(())
}
