//! Doors and lines that fail at a call: it ends what failed, and nothing else.

use crate::lines::{
    HEAD, UPGRADE, failing_line, good_line, is_door_fault, is_ok, serve, was_let_in, was_shut,
};
use sg_lines::ScriptedDoor;
use std::alloc::{AllocError, Global};
use std::sync::Wait;
use std::test::Fail;
use std::thread::Threads;

/// A door at which two devices come, and of which only the call behind so many fails.
fn failing_door(alloc: Global, calls: usize) -> Result<ScriptedDoor, AllocError> {
    let mut fails = Vec::new(alloc);
    for _ in 0..calls {
        fails.push(false)?;
    }
    fails.push(true)?;
    let mut lines = Vec::new(alloc);
    lines.push(good_line(alloc, HEAD)?)?;
    lines.push(good_line(alloc, HEAD)?)?;
    Ok(ScriptedDoor::new(alloc, fails, lines))
}

/// Whether so many devices were served before the door failed at this call.
fn fails_behind<R: Threads + Wait + Sync>(
    rt: &R,
    alloc: Global,
    call: usize,
) -> Result<bool, AllocError> {
    let mut door = failing_door(alloc, call)?;
    let failed = is_door_fault(serve(rt, alloc, &mut door)?);
    let served = call.saturating_sub(1);
    let mut right = failed && door.faults() == 1 && door.traces().len() == served;
    for place in 0..served {
        right = right && was_let_in(door.traces(), place, UPGRADE);
    }
    Ok(right)
}

/// The opening fails, or the first, second or third time that a caller is waited for.
#[test]
fn doors(rt: HostRuntime) -> Result<(), Fail> {
    for call in 0..4 {
        assert!(rt; fails_behind(&rt, rt.alloc(), call)?, "call {call}");
    }
    Ok(())
}

/// Whether of three devices the other two are served though a call of the second one's line fails.
fn others_are_served<R: Threads + Wait + Sync>(
    rt: &R,
    alloc: Global,
    call: usize,
) -> Result<bool, AllocError> {
    let mut lines = Vec::new(alloc);
    lines.push(good_line(alloc, HEAD)?)?;
    lines.push(failing_line(alloc, HEAD, call)?)?;
    lines.push(good_line(alloc, HEAD)?)?;
    let mut door = ScriptedDoor::new(alloc, Vec::new(alloc), lines);
    let ended = is_ok(serve(rt, alloc, &mut door)?);
    let wrote: &[u8] = if call == HEAD.len() { b"HTTP/1." } else { b"" };
    let mut let_in = 0usize;
    let mut failed = 0usize;
    for place in 0..door.traces().len() {
        if was_let_in(door.traces(), place, UPGRADE) {
            let_in = let_in.saturating_add(1);
        }
        if was_shut(door.traces(), place, wrote) {
            failed = failed.saturating_add(1);
        }
    }
    Ok(ended && door.faults() == 0 && door.traces().len() == 3 && let_in == 2 && failed == 1)
}

/// Each reading of the head fails in turn, and then the write of the answer.
#[test]
fn lines(rt: HostRuntime) -> Result<(), Fail> {
    for call in 0..HEAD.len() + 1 {
        assert!(rt; others_are_served(&rt, rt.alloc(), call)?, "call {call}");
    }
    Ok(())
}
