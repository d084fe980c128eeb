//! Numbers that are drawn, turns that are taken, by one pass or by two in two threads, and a mutex that is locked as often.

ghost use Rattle.std.specs.Prelude.{◌≡◌, ◌≤◌, ◌^◌};
ghost use Rattle.std.specs.Thread.{IsSync};

use seq_gate::laws::turns;
use seq_gate::{Gate, Kept, Pass, open};
use std::alloc::{AllocError, Global};
use std::sync::{Mutex, Wait};
use std::thread::{Threads, join};

/// A board with nothing.
#[derive(Drop)]
struct Blank;

impl Kept for Blank {
    ghost use Rattle.std.specs.Prelude.{[], None};

    ghost seen = { λ b. record { limit = None; log = []; pending = []; rooms = []; bytes = 0; side = []; faults = 0 } };

    fn front(&self) -> u64 {
        0
    }
}

/// Draws so many numbers.
fn draw_all(gate: &Gate<Blank>, pass: Pass<Blank>, count: u64) -> Pass<Blank>
    requires here { pass.gate ≡ gate.now }
    requires left { count ≤ pass.knows.left }
    ensures { result.gate ≡ pass.gate }
{
    let mut pass = pass;
    for _ in 0..count {
        pass.draw(gate).spend();
    }
    pass
}

/// Takes a turn, and leaves the board as it was.
fn look<R: Wait>(rt: &R, gate: &Gate<Blank>, pass: Pass<Blank>) -> Pass<Blank>
    requires { pass.gate ≡ gate.now }
    ensures { result.gate ≡ pass.gate }
{
    turns();
    pass.enter(rt, gate).leave(gate)
}

/// Takes so many turns.
fn turn_all<R: Wait>(rt: &R, gate: &Gate<Blank>, pass: Pass<Blank>, count: u64) -> Pass<Blank>
    requires { pass.gate ≡ gate.now }
    ensures { result.gate ≡ pass.gate }
{
    let mut pass = pass;
    for _ in 0..count {
        pass = look(rt, gate, pass);
    }
    pass
}

/// Locks so often.
fn lock_all<R: Wait>(rt: &R, counter: &Mutex<u64>, count: u64) {
    for _ in 0..count {
        let mut counted = counter.lock(rt);
        *counted = counted.wrapping_add(1);
    }
}

/// Draws so many numbers by each of two passes in two threads.
fn draw_both<R: Threads + Sync>(rt: &R, gate: Gate<Blank>, pass: Pass<Blank>, count: u64)
    requires here { pass.gate ≡ gate }
    requires few { count ≤ 2 ^ 31 }
    requires left { 2 ^ 34 ≤ pass.knows.left }
{
    let mut one = pass;
    let two = one.split(&gate);
    let _both = join(
        rt,
        || -> Pass<Blank>
            requires { (one.gate ≡ gate) × (count ≤ one.knows.left) }
        { draw_all(&gate, one, count) },
        || -> Pass<Blank>
            requires { (two.gate ≡ gate) × (count ≤ two.knows.left) }
        { draw_all(&gate, two, count) },
    );
}

/// Takes so many turns by each of two passes in two threads.
fn turn_both<R: Threads + Wait + Sync>(rt: &R, gate: Gate<Blank>, pass: Pass<Blank>, count: u64)
    requires here { pass.gate ≡ gate }
    requires left { 2 ^ 34 ≤ pass.knows.left }
{
    let mut one = pass;
    let two = one.split(&gate);
    let _both = join(
        rt,
        || -> Pass<Blank>
            requires { IsSync R.row × (one.gate ≡ gate) }
        { turn_all(rt, &gate, one, count) },
        || -> Pass<Blank>
            requires { IsSync R.row × (two.gate ≡ gate) }
        { turn_all(rt, &gate, two, count) },
    );
}

/// Locks so often in each of two threads.
fn lock_both<R: Threads + Wait + Sync>(rt: &R, count: u64) {
    let counter = Mutex::new(0u64);
    let _both = join(
        rt,
        || -> ()
            requires { IsSync R.row }
        { lock_all(rt, &counter, count) },
        || -> ()
            requires { IsSync R.row }
        { lock_all(rt, &counter, count) },
    );
}

/// Does what a name says, by one pass or by two.
fn job<R: Threads + Wait + Sync>(
    rt: &R,
    name: &str,
    gate: Gate<Blank>,
    pass: Pass<Blank>,
    two: bool,
    count: u64,
)
    requires here { pass.gate ≡ gate }
    requires few { count ≤ 2 ^ 31 }
    requires left { 2 ^ 34 ≤ pass.knows.left }
{
    match (name, two) {
        ("draw", false) => {
            let _pass = draw_all(&gate, pass, count);
        }
        ("draw", true) => draw_both(rt, gate, pass, count),
        ("turn", false) => {
            let _pass = turn_all(rt, &gate, pass, count);
        }
        ("turn", true) => turn_both(rt, gate, pass, count),
        (_, false) => lock_all(rt, &Mutex::new(0u64), count),
        _ => lock_both(rt, count),
    }
}

/// Does a job so often, by one pass or by two.
pub fn run<R: Threads + Wait + Sync>(
    rt: &R,
    alloc: Global,
    name: &str,
    two: bool,
    count: u64,
) -> Result<(), AllocError> {
    let (gate, pass) = open(alloc, Blank)?;
    job(rt, name, gate, pass, two, count.min(1 << 31));
    Ok(())
}
