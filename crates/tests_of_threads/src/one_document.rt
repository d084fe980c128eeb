//! Sessions that push revisions of one document at the same time, beside a script.

use crate::played::{OPEN, STRICT, played};
use doc_board::Outcome;
use record_file::read_record;
use session_run::End;
use session_threads::{LineOutcome, Played, PlayedSession};
use sg_history::Entry;
use sg_outside::MemWire;
use std::alloc::Global;
use std::sync::Wait;
use std::test::Fail;
use std::thread::Threads;

/// Sessions of ann, each of which pushes a first revision of d1 and one that follows it.
const SESSIONS: [&[u8]; 3] = [
    b"sgsession 1\nuser\tann\t3\n\
01001a50726f66696c65007265760069640064310072657600312d61007b226368616e6e656c73223a5b2241225d7d9238102a\n\
02002650726f66696c65007265760069640064310072657600322d6100686973746f727900312d61007b226368616e6e656c73223a5b2241225d7ded77a20e\n",
    b"sgsession 1\nuser\tann\t3\n\
01001a50726f66696c65007265760069640064310072657600312d62007b226368616e6e656c73223a5b2241225d7d3d915de0\n\
02002650726f66696c65007265760069640064310072657600322d6200686973746f727900312d62007b226368616e6e656c73223a5b2241225d7d12810014\n",
    b"sgsession 1\nuser\tann\t3\n\
01001a50726f66696c65007265760069640064310072657600312d63007b226368616e6e656c73223a5b2241225d7d58f666a6\n\
02002650726f66696c65007265760069640064310072657600322d6300686973746f727900312d63007b226368616e6e656c73223a5b2241225d7d47d361e2\n",
];

/// A document, and a user.
const SCRIPT: &[u8] = b"sgadmin 1\ndoc\td2\t-\t0\t7b7d\nuser\tbob\tA\t-\n";

fn wire_of(alloc: Global, text: &[u8]) -> Result<MemWire, Fail> {
    match read_record(alloc, text) {
        Ok(recorded) => Ok(recorded.items.into_wire(alloc)?),
        Err(_) => Err(Fail::from("no recorded session")),
    }
}

fn wires(alloc: Global) -> Result<Vec<MemWire>, Fail> {
    let mut wires = Vec::new(alloc);
    for text in SESSIONS {
        wires.push(wire_of(alloc, text)?)?;
    }
    Ok(wires)
}

fn is_stored(outcome: &LineOutcome) -> bool {
    matches!(outcome, LineOutcome::Plain(Outcome::Stored { .. }))
}

/// How many sessions ended with their wire, and how many revisions they stored.
fn sum_of(sessions: &[PlayedSession<MemWire>]) -> (u64, u64) {
    let mut closed = 0_u64;
    let mut stored = 0_u64;
    for played in sessions {
        if played.ended.end == End::Closed {
            closed = closed.saturating_add(1);
        }
        stored = stored.saturating_add(played.ended.stored.as_slice().len() as u64);
    }
    (closed, stored)
}

/// How many entries a history has but for sequences that were given up.
fn used(entries: &[Entry]) -> u64 {
    let mut count = 0_u64;
    for entry in entries {
        if !matches!(entry, Entry::Unused) {
            count = count.saturating_add(1);
        }
    }
    count
}

/// Whether both lines were stored; how many sessions ended with their wire, and how many revisions they stored; and how many entries the
/// history has.
fn all_of(played: &Played<MemWire>) -> (bool, u64, u64, u64) {
    let lines = played.script.as_slice();
    let (closed, stored) = sum_of(played.sessions.as_slice());
    let lines = lines.len() == 2 && lines.iter().all(is_stored);
    let log = played.shelf.board().log();
    (lines, closed, stored, used(log.entries.as_slice()))
}

fn pushed<R: Threads + Wait + Sync>(
    rt: &R,
    alloc: Global,
    config: &[u8],
) -> Result<(bool, u64, u64, u64), Fail> {
    let played = played(rt, alloc, config, SCRIPT, wires(alloc)?)?;
    let all = all_of(&played);
    drop(played);
    Ok(all)
}

/// Behind ann's entry stand two of the script, and all six revisions.
#[test]
fn each_revision_is_stored(rt: HostRuntime) -> Result<(), Fail> {
    assert!(rt; pushed(&rt, rt.alloc(), OPEN)? == (true, 3, 6, 9));
    Ok(())
}

/// Without conflicts those of one session are stored, whichever came first, and all others are refused.
#[test]
fn those_of_one_session_are_stored(rt: HostRuntime) -> Result<(), Fail> {
    assert!(rt; pushed(&rt, rt.alloc(), STRICT)? == (true, 3, 2, 5));
    Ok(())
}
