//! Heads that are read from a link, and what is written to it.

use crate::table::{config_of, cut, meant, write_many};
use gateway_config::Config;
use sg_lines::{Line, LineInput, LineTrace, MemLink, ScriptedLink};
use sg_outside::Bytes;
use std::alloc::{AllocError, Global};
use std::test::Fail;
use ws_door::{GreetFault, HeadFault, Upgrade, greet, read_head};

/// Heads, one a line, each with what is written in answer; both texts of tables.
const WRITTEN: &str = "\
@*&BLIP_3+CBMobile_3^Cookie: $=s1^^|HTTP/1.1 101 Switching Protocols^Upgrade: websocket^\
Connection: Upgrade^Sec-WebSocket-Accept: s3pPLMBiTxaQ9kYGzzhZRbK+xOo=^&BLIP_3+CBMobile_3^^\n\
^^|HTTP/1.1 400 Bad Request^Content-Length: 0^Connection: close^^\n\
GET /x HTTP/1.1^^|HTTP/1.1 404 Not Found^Content-Length: 0^Connection: close^^\n\
@*^|HTTP/1.1 426 Upgrade Required^Content-Length: 0^Connection: close^^\n\
@*&BLIP_3+CBMobile_3^^|HTTP/1.1 401 Unauthorized^X-Rule: no cookie^\
Content-Length: 0^Connection: close^^\n\
@*&BLIP_3+CBMobile_2^Cookie: $=s3^^|HTTP/1.1 401 Unauthorized^X-Rule: unknown cookie^\
Content-Length: 0^Connection: close^^";

/// The head in two parts, with a moment of idleness before each, and a byte behind it.
fn inputs_of(alloc: Global, head: &[u8]) -> Result<Vec<LineInput>, AllocError> {
    let (first, second) = head.split_at(head.len() / 2);
    let mut inputs = Vec::new(alloc);
    inputs.push(LineInput::Idle)?;
    inputs.push(LineInput::Bytes(Bytes::from_slice(alloc, first)?))?;
    inputs.push(LineInput::Idle)?;
    inputs.push(LineInput::Bytes(Bytes::from_slice(alloc, second)?))?;
    inputs.push(LineInput::Bytes(Bytes::from_slice(alloc, b"x")?))?;
    Ok(inputs)
}

/// Whether a head comes whole by a link, and this is written in answer.
fn is_answered(
    alloc: Global,
    config: &Config,
    head: &[u8],
    want: &[u8],
) -> Result<bool, AllocError> {
    let mut link = MemLink::new(alloc, inputs_of(alloc, head)?, Vec::new(alloc));
    let Ok(read) = read_head(alloc, &mut link) else {
        return Ok(false);
    };
    let answer = greet(alloc, &mut link, read.as_slice(), config);
    let is_right = read.as_slice() == head && link.taken() == want;
    drop(answer);
    Ok(is_right)
}

fn is_right(alloc: Global, config: &Config, line: &str) -> Result<bool, AllocError> {
    let (head, want) = cut(line, '|');
    let head = meant(alloc, head)?;
    let want = meant(alloc, want)?;
    is_answered(alloc, config, head.as_slice(), want.as_slice())
}

#[test]
fn what_is_written_in_answer(rt: HostRuntime) -> Result<(), Fail> {
    let config = config_of(rt.alloc())?;
    for line in WRITTEN.split('\n') {
        assert!(rt; is_right(rt.alloc(), &config, line)?, "{line}");
    }
    Ok(())
}

/// The head of a whole upgrade.
const HEAD: &str = "@*&BLIP_3+CBMobile_3^Cookie: $=s1^^";

/// A script by which only the call behind these fails, a write after seven bytes.
fn script_of(alloc: Global, calls: usize) -> Result<Vec<Option<usize>>, AllocError> {
    let mut script = Vec::new(alloc);
    for _ in 0..calls {
        script.push(None)?;
    }
    script.push(Some(7))?;
    Ok(script)
}

fn link_of(alloc: Global, head: &[u8], calls: usize) -> Result<ScriptedLink, AllocError> {
    let mut inputs = Vec::new(alloc);
    inputs.push(LineInput::Bytes(Bytes::from_slice(alloc, head)?))?;
    let script = script_of(alloc, calls)?;
    Ok(ScriptedLink::new(alloc, script, inputs, Vec::new(alloc), Vec::new(alloc)))
}

/// Whether a link has taken these bytes and no more.
fn has_taken(link: ScriptedLink, want: &[u8]) -> bool {
    match link.shut() {
        LineTrace::Shut(log) => log.taken() == want,
        LineTrace::Served(_) => false,
    }
}

fn is_link_fault(answer: &Result<Upgrade, GreetFault>) -> bool {
    match answer {
        Err(GreetFault::LinkFault) => true,
        _ => false,
    }
}

/// Whether the upgrade fails where only this call does, and the link has taken what came before.
fn fails_at(alloc: Global, config: &Config, head: &[u8], call: usize) -> Result<bool, AllocError> {
    let mut link = link_of(alloc, head, call)?;
    match read_head(alloc, &mut link) {
        Ok(read) => {
            let answer = greet(alloc, &mut link, read.as_slice(), config);
            let failed = is_link_fault(&answer);
            drop(answer);
            Ok(call == head.len() && failed && has_taken(link, b"HTTP/1."))
        }
        Err(fault) => {
            Ok(call < head.len() && fault == HeadFault::LinkFault && has_taken(link, b""))
        }
    }
}

#[test]
fn each_call_that_fails(rt: HostRuntime) -> Result<(), Fail> {
    let config = config_of(rt.alloc())?;
    let bytes = meant(rt.alloc(), HEAD)?;
    let head = bytes.as_slice();
    for call in 0..head.len() + 1 {
        assert!(rt; fails_at(rt.alloc(), &config, head, call)?, "call {call}");
    }
    Ok(())
}

/// So many moments of idleness, then these bytes.
fn idle_link(alloc: Global, idle: u64, bytes: &[u8]) -> Result<MemLink, AllocError> {
    let mut inputs = Vec::new(alloc);
    for _ in 0..idle {
        inputs.push(LineInput::Idle)?;
    }
    inputs.push(LineInput::Bytes(Bytes::from_slice(alloc, bytes)?))?;
    Ok(MemLink::new(alloc, inputs, Vec::new(alloc)))
}

/// Whether reading a head ends so: with a head of this length, or the fault.
fn ends_so(
    alloc: Global,
    idle: u64,
    bytes: &[u8],
    want: Result<usize, HeadFault>,
) -> Result<bool, AllocError> {
    let mut link = idle_link(alloc, idle, bytes)?;
    match read_head(alloc, &mut link) {
        Ok(head) => Ok(want == Ok(head.len())),
        Err(fault) => Ok(want == Err(fault)),
    }
}

/// So many idle moments, the bytes that come then, and how reading the head ends.
#[test]
fn where_a_head_ends(rt: HostRuntime) -> Result<(), Fail> {
    for (idle, bytes, want) in [
        (999, b"a\n\na".as_slice(), Ok(3)),
        (999, b"\r\n\r\n\n", Ok(4)),
        (0, b"a\r\n\r\r\n\n\n", Ok(7)),
        (0, b"", Err(HeadFault::Ended)),
        (999, b"a\r\n\r", Err(HeadFault::Ended)),
        (1000, b"a\n\na", Err(HeadFault::Slow)),
    ] {
        assert!(rt; ends_so(rt.alloc(), idle, bytes, want)?, "{idle}");
    }
    Ok(())
}

/// Heads without an empty line, by how many bytes come.
#[test]
fn where_a_long_head_ends(rt: HostRuntime) -> Result<(), Fail> {
    for (count, want) in [(8191, Err(HeadFault::Ended)), (8193, Ok(8192))] {
        let mut bytes = Bytes::new(rt.alloc());
        write_many(b"a", count, &mut bytes)?;
        assert!(rt; ends_so(rt.alloc(), 0, bytes.as_slice(), want)?, "{count}");
    }
    Ok(())
}
