//! Two sessions of which each ends once the other was answered.

ghost use Rattle.sg_outside.specs.Wire.{CountsGot};

use crate::played::{OPEN, played};
use session_run::End;
use session_threads::PlayedSession;
use sg_outside::{Bytes, Gave, Got, Wire};
use std::alloc::Global;
use std::sync::atomic::{AtomicU64, Ordering};
use std::sync::{Arc, Wait};
use std::test::Fail;
use std::thread::Threads;
use std::time::Duration;

/// subChanges with since 0, continuous and revocations, as request 1.
const ASK: &[u8] =
    b"\x01\0<Profile\0subChanges\0since\x000\0continuous\0true\0revocations\0true\0\xbd\xc9\x9c\xf3";

/// How often a wire waits for the other one.
const MOST_WAITS: u64 = 10_000;

/// A wire that gives one request, then nothing until a frame was sent on the other wire, and then its end; and, where that takes too
/// long, a frame that is none.
#[derive(Drop)]
struct Gated<'g, R: Wait + Sync> {
    rt: &'g R,
    alloc: Global,
    /// 1 once a frame was sent on this one, and on the other one.
    mine: Arc<AtomicU64>,
    other: Arc<AtomicU64>,
    asked: bool,
    waits: u64,
}

fn frame(alloc: Global, bytes: &[u8]) -> Got
    ensures { CountsGot 0 result 0 }
{
    match Bytes::from_slice(alloc, bytes) {
        Ok(bytes) => Got::Frame(bytes),
        Err(_) => Got::Memory,
    }
}

impl<'g, R: Wait + Sync> Wire for Gated<'g, R> {
    ghost use Rattle.std.specs.Prelude.{None};

    ghost faults = { λ w. 0 };

    ghost recorded = { λ w. None };

    fn recv(&mut self) -> Got {
        if !self.asked {
            self.asked = true;
            return frame(self.alloc, ASK);
        }
        if self.other.load(Ordering::SeqCst) != 0 {
            return Got::End;
        }
        if self.waits >= MOST_WAITS {
            return frame(self.alloc, b"\x01\x08");
        }
        self.waits += 1;
        self.other
            .park_timeout(self.rt, 0, Duration::from_millis(1));
        Got::Idle
    }

    fn send(&mut self, _frame: &[u8]) -> Gave {
        self.mine.store(1, Ordering::SeqCst);
        Gave::Done
    }
}

/// Two wires that wait for each other.
fn wires<'g, R: Wait + Sync>(rt: &'g R, alloc: Global) -> Result<Vec<Gated<'g, R>>, Fail> {
    let one = Arc::new(alloc, AtomicU64::new(0))?;
    let two = Arc::new(alloc, AtomicU64::new(0))?;
    let mut wires = Vec::new(alloc);
    wires.push(Gated {
        rt,
        alloc,
        mine: one.clone()?,
        other: two.clone()?,
        asked: false,
        waits: 0,
    })?;
    wires.push(Gated {
        rt,
        alloc,
        mine: two,
        other: one,
        asked: false,
        waits: 0,
    })?;
    Ok(wires)
}

fn are_closed<W: Wire>(sessions: &[PlayedSession<W>]) -> bool {
    sessions.len() == 2
        && sessions
            .iter()
            .all(|played| played.ended.end == End::Closed)
}

fn both_closed<R: Threads + Wait + Sync>(rt: &R, alloc: Global) -> Result<bool, Fail> {
    let played = played(rt, alloc, OPEN, b"sgadmin 1\n", wires(rt, alloc)?)?;
    let closed = are_closed(played.sessions.as_slice());
    drop(played);
    Ok(closed)
}

/// Both end as their wires do, since each is answered while the other one waits. Where one were served after the other, the first would
/// wait too long.
#[test]
fn each_is_answered_while_the_other_waits(rt: HostRuntime) -> Result<(), Fail> {
    assert!(rt; both_closed(&rt, rt.alloc())?);
    Ok(())
}
