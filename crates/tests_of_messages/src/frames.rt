//! Examples from outside: CRC-32 values of zlib, frames and payloads of BLIP, and each fault once.

use crate::table::{bytes_of, number_of, parts_of, write_all, write_many, write_props};
use blip_frame::{
    Crc, Frame, FrameFault, Kind, Payload, PayloadFault, Props, VarintFault, read_frame,
    read_payload, read_varint, take_payload, write_frame, write_payload, write_varint,
};
use sg_history::{TextFault, write_decimal, write_hex};
use sg_outside::Bytes;
use std::alloc::{AllocError, Global};
use std::test::Fail;

const EXAMPLES: &str = "\
checksum |00000000\n\
checksum a|e8b7be43\n\
checksum 123456789|cbf43926\n\
checksum The quick brown fox jumps over the lazy dog|414fa339\n\
zeros 16385|d6729d4a\n\
write_varint 0|00\n\
write_varint 127|7f\n\
write_varint 128|8001\n\
write_varint 65536|808004\n\
write_varint 18446744073709551615|ffffffffffffffffff01\n\
varint 808004|65536\n\
varint 8100|1\n\
varint ff808080808080808001|9223372036854775935\n\
varint ffffffffffffffffff|Short\n\
varint ffffffffffffffffff02|BadVarint\n\
varint 8080808080808080808000|BadVarint\n\
frames 81000000000000 0371313233343536373839cbf43926 0302cbf43926 030507|1 Msg plain , 3 Rpy marked 313233343536373839, 3 Err plain , 3 AckRpy plain 07, cbf43926\n\
frames |Short, 00000000\n\
frames 01|Short, 00000000\n\
frames 0108|Compressed, 00000000\n\
frames 010b|BadType 11, 00000000\n\
frames 0103|BadType 3, 00000000\n\
frames 018700|BadType 7, 00000000\n\
frames 018001|BadType 128, 00000000\n\
frames 0100000000|Short, 00000000\n\
frames 0100313233343536373839cbf43927|BadChecksum 3421780263 3421780262, 00000000\n\
frames ffffffffffffffffff02|BadVarint, 00000000\n\
frames 01ffffffffffffffffff02|BadVarint, 00000000\n\
largest 1048576|1048576\n\
largest 1048577|TooLong 1048577\n\
payload 2050726f66696c6500676574436865636b706f696e7400636c69656e7400633100|2 Profile=getCheckpoint&client=c1&  2050726f66696c6500676574436865636b706f696e7400636c69656e7400633100\n\
payload 0861006200c3a900007b7d|2 a=b&é=& 7b7d 0861006200c3a900007b7d\n\
payload |Short\n\
payload 80|Short\n\
payload ffffffffffffffffffff|BadVarint\n\
payload 0561006200|Short\n\
payload 0361006200|NotClosed\n\
payload 0100|Odd\n\
payload 0661006200ff00|Odd\n\
payload 04ff006200|NotText\n\
payload 08610062006100c300|NotText\n\
payload 086100620061006300|Twice\n\
payload 0400000000|Twice\n\
taken 0461006200626f6479|+b 626f6479 true";

fn write_checksum(bytes: &[u8], text: &mut Bytes) -> Result<(), AllocError> {
    let mut crc = Crc::new();
    crc.add(bytes);
    write_hex(&crc.value.to_be_bytes(), text)
}

/// So many zeros behind some bytes.
fn zeros_behind(alloc: Global, first: &[u8], count: u64) -> Result<Bytes, AllocError> {
    let mut bytes = Bytes::from_slice(alloc, first)?;
    write_many(0, count, &mut bytes)?;
    Ok(bytes)
}

fn write_zeros(alloc: Global, count: u64, text: &mut Bytes) -> Result<(), AllocError> {
    let zeros = zeros_behind(alloc, b"", count)?;
    write_checksum(zeros.as_slice(), text)
}

fn varint(alloc: Global, number: u64) -> Result<Bytes, AllocError> {
    let mut out = Bytes::new(alloc);
    write_varint(number, &mut out)?;
    Ok(out)
}

fn write_written(alloc: Global, number: u64, text: &mut Bytes) -> Result<(), AllocError> {
    let out = varint(alloc, number)?;
    write_hex(out.as_slice(), text)
}

/// The number at the front.
fn write_number(bytes: &[u8], text: &mut Bytes) -> Result<(), AllocError> {
    match read_varint(bytes) {
        Ok((number, _)) => write_decimal(number, text),
        Err(VarintFault::Short) => text.extend_from_slice(b"Short"),
        Err(VarintFault::BadVarint) => text.extend_from_slice(b"BadVarint"),
    }
}

fn kind_word(kind: Kind) -> &'static [u8] {
    match kind {
        Kind::Msg => b" Msg ",
        Kind::Rpy => b" Rpy ",
        Kind::Err => b" Err ",
        Kind::AckMsg => b" AckMsg ",
        Kind::AckRpy => b" AckRpy ",
    }
}

/// Whether all marks or none are there.
fn marks_word(frame: &Frame<'_>) -> &'static [u8] {
    match (frame.urgent, frame.no_reply, frame.more) {
        (true, true, true) => b"marked ",
        (false, false, false) => b"plain ",
        _ => b"mixed ",
    }
}

/// The number, the kind, whether all marks or none are there, and the payload of a frame.
fn write_parts(frame: &Frame<'_>, text: &mut Bytes) -> Result<(), AllocError> {
    write_decimal(frame.number, text)?;
    write_all(&[kind_word(frame.kind), marks_word(frame)], text)?;
    write_hex(frame.payload, text)
}

/// Why a frame is refused: its name and numbers.
fn fault_parts(fault: FrameFault) -> (&'static [u8], Option<u64>, Option<u64>) {
    match fault {
        FrameFault::Short => (b"Short", None, None),
        FrameFault::BadVarint => (b"BadVarint", None, None),
        FrameFault::BadType { flags } => (b"BadType", Some(flags), None),
        FrameFault::Compressed => (b"Compressed", None, None),
        FrameFault::TooLong { bytes } => (b"TooLong", Some(bytes), None),
        FrameFault::BadChecksum { kept, computed } => {
            (
                b"BadChecksum",
                Some(u64::from(kept)),
                Some(u64::from(computed)),
            )
        }
    }
}

/// A blank and a number, if there is one.
fn write_some(number: Option<u64>, text: &mut Bytes) -> Result<(), AllocError> {
    match number {
        Some(number) => {
            text.push(b' ')?;
            write_decimal(number, text)
        }
        None => Ok(()),
    }
}

fn write_fault(fault: FrameFault, text: &mut Bytes) -> Result<(), AllocError> {
    let (name, first, second) = fault_parts(fault);
    text.extend_from_slice(name)?;
    write_some(first, text)?;
    write_some(second, text)
}

fn write_read(crc: &mut Crc, bytes: &[u8], text: &mut Bytes) -> Result<(), AllocError> {
    match read_frame(crc, bytes) {
        Ok(frame) => write_parts(&frame, text),
        Err(fault) => write_fault(fault, text),
    }
}

/// Reads a frame on a state, and adds what it is read as.
fn add_read(alloc: Global, crc: &mut Crc, hex: &str, text: &mut Bytes) -> Result<(), TextFault> {
    let bytes = bytes_of(alloc, hex)?;
    write_read(crc, bytes.as_slice(), text)?;
    Ok(text.extend_from_slice(b", ")?)
}

/// What frames are read as, one after another, and the checksum after them.
fn write_frames(alloc: Global, frames: &str, text: &mut Bytes) -> Result<(), TextFault> {
    let mut crc = Crc::new();
    for hex in frames.split(' ') {
        add_read(alloc, &mut crc, hex, text)?;
    }
    Ok(write_hex(&crc.value.to_be_bytes(), text)?)
}

/// How long the payload of a frame is.
fn write_length(bytes: &[u8], text: &mut Bytes) -> Result<(), AllocError> {
    match read_frame(&mut Crc::new(), bytes) {
        Ok(frame) => write_decimal(frame.payload.len() as u64, text),
        Err(fault) => write_fault(fault, text),
    }
}

/// How long the payload of an acknowledgement of so many zeros is after it is read.
fn write_largest(alloc: Global, count: u64, text: &mut Bytes) -> Result<(), AllocError> {
    let bytes = zeros_behind(alloc, b"\x00\x04", count)?;
    write_length(bytes.as_slice(), text)
}

/// The value of a key behind `+`, or `-` where there is none, and a blank.
fn write_value(props: &Props, key: &str, text: &mut Bytes) -> Result<(), AllocError> {
    match props.get(key) {
        Some(value) => write_all(&[b"+", value.as_bytes(), b" "], text),
        None => text.extend_from_slice(b"- "),
    }
}

fn word(is: bool) -> &'static [u8] {
    if is { b"true" } else { b"false" }
}

/// How many properties there are, and all of them.
fn write_counted(props: &Props, text: &mut Bytes) -> Result<(), AllocError> {
    write_decimal(props.len() as u64, text)?;
    text.push(b' ')?;
    write_props(props, text)?;
    text.push(b' ')
}

fn payload_word(fault: PayloadFault) -> &'static [u8] {
    match fault {
        PayloadFault::Short => b"Short",
        PayloadFault::BadVarint => b"BadVarint",
        PayloadFault::NotClosed => b"NotClosed",
        PayloadFault::Odd => b"Odd",
        PayloadFault::NotText => b"NotText",
        PayloadFault::Twice => b"Twice",
        PayloadFault::Memory => b"Memory",
    }
}

/// A payload written again.
fn again(alloc: Global, payload: &Payload) -> Result<Bytes, AllocError> {
    let mut out = Bytes::new(alloc);
    write_payload(payload, &mut out)?;
    Ok(out)
}

fn write_again(alloc: Global, payload: &Payload, text: &mut Bytes) -> Result<(), AllocError> {
    let out = again(alloc, payload)?;
    text.push(b' ')?;
    write_hex(out.as_slice(), text)
}

/// The properties of a payload, its body, and all of it written again.
fn write_whole(alloc: Global, payload: &Payload, text: &mut Bytes) -> Result<(), AllocError> {
    write_counted(&payload.props, text)?;
    write_hex(payload.body.as_slice(), text)?;
    write_again(alloc, payload, text)
}

fn write_read_payload(alloc: Global, bytes: &[u8], text: &mut Bytes) -> Result<(), AllocError> {
    match read_payload(alloc, bytes) {
        Ok(payload) => write_whole(alloc, &payload, text),
        Err(fault) => text.extend_from_slice(payload_word(fault)),
    }
}

/// A value and the body of a payload that is taken from a buffer.
fn write_taken(alloc: Global, buffer: &mut Bytes, text: &mut Bytes) -> Result<(), AllocError> {
    match take_payload(alloc, buffer) {
        Ok(payload) => {
            write_value(&payload.props, "a", text)?;
            write_hex(payload.body.as_slice(), text)
        }
        Err(fault) => text.extend_from_slice(payload_word(fault)),
    }
}

/// The same, and whether the buffer is empty then.
fn write_emptied(alloc: Global, buffer: &mut Bytes, text: &mut Bytes) -> Result<(), AllocError> {
    write_taken(alloc, buffer, text)?;
    write_all(&[b" ", word(buffer.is_empty())], text)
}

/// What a call answers to bytes.
fn write_of_bytes(
    alloc: Global,
    call: &str,
    bytes: &mut Bytes,
    text: &mut Bytes,
) -> Result<(), AllocError> {
    match call {
        "varint" => write_number(bytes.as_slice(), text),
        "payload" => write_read_payload(alloc, bytes.as_slice(), text),
        _ => write_emptied(alloc, bytes, text),
    }
}

fn write_of_hex(alloc: Global, call: &str, hex: &str, text: &mut Bytes) -> Result<(), TextFault> {
    let mut bytes = bytes_of(alloc, hex)?;
    Ok(write_of_bytes(alloc, call, &mut bytes, text)?)
}

/// What a call answers to a number.
fn write_of_number(
    alloc: Global,
    call: &str,
    number: u64,
    text: &mut Bytes,
) -> Result<(), AllocError> {
    match call {
        "zeros" => write_zeros(alloc, number, text),
        "write_varint" => write_written(alloc, number, text),
        _ => write_largest(alloc, number, text),
    }
}

fn write_answer(alloc: Global, call: &str, input: &str, text: &mut Bytes) -> Result<(), TextFault> {
    match call {
        "checksum" => Ok(write_checksum(input.as_bytes(), text)?),
        "frames" => write_frames(alloc, input, text),
        "varint" | "payload" | "taken" => write_of_hex(alloc, call, input, text),
        _ => Ok(write_of_number(alloc, call, number_of(input), text)?),
    }
}

fn is_right(alloc: Global, line: &str) -> Result<bool, TextFault> {
    let (call, input, want) = parts_of(line);
    let mut text = Bytes::new(alloc);
    write_answer(alloc, call, input, &mut text)?;
    Ok(text.as_slice() == want.as_bytes())
}

#[test]
fn examples_of_frames_and_payloads(rt: HostRuntime) -> Result<(), Fail> {
    for line in EXAMPLES.split('\n') {
        assert!(rt; is_right(rt.alloc(), line)?, "{line}");
    }
    Ok(())
}

/// Request 1, with no reply.
fn written_request(alloc: Global, crc: &mut Crc) -> Result<Bytes, AllocError> {
    let mut out = Bytes::new(alloc);
    let request = Frame {
        number: 1,
        kind: Kind::Msg,
        urgent: false,
        no_reply: true,
        more: false,
        payload: b"123456789",
    };
    write_frame(crc, &request, &mut out)?;
    Ok(out)
}

/// Request 2, with an empty payload.
fn written_empty(alloc: Global, crc: &mut Crc) -> Result<Bytes, AllocError> {
    let mut out = Bytes::new(alloc);
    let request = Frame {
        number: 2,
        kind: Kind::Msg,
        urgent: false,
        no_reply: false,
        more: false,
        payload: b"",
    };
    write_frame(crc, &request, &mut out)?;
    Ok(out)
}

/// The acknowledgement of request 1.
fn written_acknowledgement(alloc: Global, crc: &mut Crc) -> Result<Bytes, AllocError> {
    let mut out = Bytes::new(alloc);
    let acknowledgement = Frame {
        number: 1,
        kind: Kind::AckMsg,
        urgent: true,
        no_reply: true,
        more: false,
        payload: b"\x80\x80\x04",
    };
    write_frame(crc, &acknowledgement, &mut out)?;
    Ok(out)
}

#[test]
fn frames_written_on_one_state(rt: HostRuntime) -> Result<(), Fail> {
    let mut crc = Crc::new();
    let first = written_request(rt.alloc(), &mut crc)?;
    assert!(rt; first.as_slice() == b"\x01\x20123456789\xcb\xf4\x39\x26".as_slice());
    let second = written_empty(rt.alloc(), &mut crc)?;
    assert!(rt; second.as_slice() == b"\x02\x00\xcb\xf4\x39\x26".as_slice());
    let third = written_acknowledgement(rt.alloc(), &mut crc)?;
    assert!(rt; third.as_slice() == b"\x01\x34\x80\x80\x04".as_slice());
    assert!(rt; crc.value == 0xcbf4_3926);
    assert!(rt; !Kind::AckRpy.has_checksum());
    Ok(())
}
