//! Checkpoints, and errors that no recorded session brings about.

use crate::table::{cut, meant, props_of, write_all, write_props};
use blip_frame::{Kind, Payload};
use blip_mux::Message;
use repl_messages::{
    ErrorKind, Request, RequestFault, Version, read_request, write_checkpoint, write_error,
};
use sg_history::{Client, write_decimal};
use sg_outside::Bytes;
use std::alloc::{AllocError, Global};
use std::test::Fail;

/// A request with these properties and this body.
fn message_of(alloc: Global, props: &str, body: Bytes) -> Result<Message, AllocError> {
    let props = props_of(alloc, props)?;
    Ok(Message {
        number: 1,
        kind: Kind::Msg,
        urgent: false,
        no_reply: false,
        payload: Payload { props, body },
    })
}

fn write_checkpoint_of(
    client: &Client,
    rev: u64,
    body: &Bytes,
    text: &mut Bytes,
) -> Result<(), AllocError> {
    write_all(&[b"set ", client.as_bytes(), b" "], text)?;
    write_decimal(rev, text)?;
    write_all(&[b" ", body.as_slice()], text)
}

fn write_request(request: &Request, text: &mut Bytes) -> Result<(), AllocError> {
    match request {
        Request::GetCheckpoint { client } => write_all(&[b"get ", client.as_bytes()], text),
        Request::SetCheckpoint { client, rev, body } => write_checkpoint_of(
            client, *rev, body, text,
        ),
        _ => text.extend_from_slice(b"other"),
    }
}

fn write_fault(fault: RequestFault, text: &mut Bytes) -> Result<(), AllocError> {
    match fault {
        RequestFault::Bad400 { field } => write_all(&[b"bad ", field.as_str().as_bytes()], text),
        _ => text.extend_from_slice(b"other"),
    }
}

fn write_read(alloc: Global, message: &Message, text: &mut Bytes) -> Result<(), AllocError> {
    match read_request(alloc, message, Version::Three) {
        Ok(request) => write_request(&request, text),
        Err(fault) => write_fault(fault, text),
    }
}

/// What a request is read as, in words.
fn write_answer(
    alloc: Global,
    props: &str,
    body: &str,
    text: &mut Bytes,
) -> Result<(), AllocError> {
    let body = meant(alloc, body)?;
    let message = message_of(alloc, props, body)?;
    write_read(alloc, &message, text)
}

/// Requests of checkpoints, one a line: properties, body, and what it is read as, with `|` between each two and `~` for a byte that is
/// in no text.
const REQUESTS: &str = "\
Profile=getCheckpoint&client=c 1|~|get c 1\n\
Profile=getCheckpoint||bad client\n\
Profile=getCheckpoint&client=||bad client\n\
Profile=getCheckpoint&client=a\tb||bad client\n\
Profile=setCheckpoint&client=c1|{}|set c1 0 {}\n\
Profile=setCheckpoint&client=c1&rev=0-0|{}|set c1 0 {}\n\
Profile=setCheckpoint&client=c1&rev=0-7| {\"a\":[1]} |set c1 7  {\"a\":[1]} \n\
Profile=setCheckpoint&client=c1&rev=0-18446744073709551615|{}|set c1 18446744073709551615 {}\n\
Profile=setCheckpoint&client=c1&rev=0-18446744073709551616|{}|bad rev\n\
Profile=setCheckpoint&client=c1&rev=|{}|bad rev\n\
Profile=setCheckpoint&client=c1&rev=7|{}|bad rev\n\
Profile=setCheckpoint&client=c1&rev=1-7|{}|bad rev\n\
Profile=setCheckpoint&client=c1&rev=0-07|{}|bad rev\n\
Profile=setCheckpoint&rev=x||bad client\n\
Profile=setCheckpoint&client=c1&rev=x||bad rev\n\
Profile=setCheckpoint&client=c1||bad body\n\
Profile=setCheckpoint&client=c1|[]|bad body\n\
Profile=setCheckpoint&client=c1|{\"a\":\"~\"}|bad body";

fn is_read_so(alloc: Global, line: &str) -> Result<bool, AllocError> {
    let (props, rest) = cut(line, '|');
    let (body, want) = cut(rest, '|');
    let mut text = Bytes::new(alloc);
    write_answer(alloc, props, body, &mut text)?;
    Ok(text.as_slice() == want.as_bytes())
}

#[test]
fn requests_of_checkpoints(rt: HostRuntime) -> Result<(), Fail> {
    for line in REQUESTS.split('\n') {
        assert!(rt; is_read_so(rt.alloc(), line)?, "{line}");
    }
    Ok(())
}

/// Replies, one a line: the value of a checkpoint, or the name of an error, and the properties of the payload, with `&` after
/// each, and its body.
const WRITTEN: &str = "\
value|rev=0-1&{}\n\
checkpoint|Error-Domain=HTTP&Error-Code=404&no checkpoint\n\
other checkpoint|Error-Domain=HTTP&Error-Code=409&checkpoint is 0-1\n\
large|Error-Domain=HTTP&Error-Code=413&too large\n\
pending|Error-Domain=HTTP&Error-Code=503&pending is full\n\
checkpoints|Error-Domain=HTTP&Error-Code=503&checkpoints are full\n\
memory|Error-Domain=HTTP&Error-Code=507&no memory\n\
log|Error-Domain=HTTP&Error-Code=509&log is full";

fn error_of(name: &str) -> ErrorKind {
    match name {
        "checkpoint" => ErrorKind::NoCheckpoint404,
        "other checkpoint" => ErrorKind::Checkpoint409 { current: 1 },
        "large" => ErrorKind::TooLarge413,
        "pending" => ErrorKind::PendingFull503,
        "checkpoints" => ErrorKind::CheckpointsFull503,
        "memory" => ErrorKind::Memory507,
        _ => ErrorKind::LogFull509,
    }
}

fn reply_of(alloc: Global, name: &str) -> Result<Payload, AllocError> {
    match name {
        "value" => write_checkpoint(alloc, 1, b"{}"),
        _ => write_error(alloc, &error_of(name)),
    }
}

fn write_reply(alloc: Global, name: &str, text: &mut Bytes) -> Result<(), AllocError> {
    let payload = reply_of(alloc, name)?;
    write_props(&payload.props, text)?;
    text.extend_from_slice(payload.body.as_slice())
}

fn is_written_so(alloc: Global, line: &str) -> Result<bool, AllocError> {
    let (name, want) = cut(line, '|');
    let mut text = Bytes::new(alloc);
    write_reply(alloc, name, &mut text)?;
    Ok(text.as_slice() == want.as_bytes())
}

#[test]
fn replies(rt: HostRuntime) -> Result<(), Fail> {
    for line in WRITTEN.split('\n') {
        assert!(rt; is_written_so(rt.alloc(), line)?, "{line}");
    }
    Ok(())
}
