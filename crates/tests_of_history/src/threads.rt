//! Two passes in two threads.

ghost use Rattle.std.specs.Prelude.{◌≡◌, ◌<◌, ◌≤◌, ◌+◌, ◌^◌, [], None, IfOk};
ghost use Rattle.std.specs.Thread.{IsSync};
ghost use Rattle.sg_history.specs.History.{as_sync, as_write};
ghost use Rattle.seq_gate.specs.Passes.{share};
ghost use Rattle.tests_of_history.specs.inner.Boards.{board_with};
ghost use Rattle.tests_of_history.specs.inner.Passes.{HoldsNothing};

use crate::plain::{Plain, board_of};
use crate::turns::{close_both, draw_and_store};
use seq_gate::{Gate, Pass, open};
use sg_history::{Channels, Entry, Log, Name, Names, TextFault, read_decimal};
use std::alloc::{AllocError, Global};
use std::sync::Wait;
use std::test::Fail;
use std::thread::{Threads, join};

/// The put of a user of this name with a number after it.
fn put_of(alloc: Global, name: &str, number: u64) -> Result<Entry, TextFault>
    ensures write { IfOk result (λ e. as_write e ≡ None) }
    ensures sync { IfOk result (λ e. as_sync e ≡ None) }
{
    let text = format!(in alloc; "{name}{number}")?;
    let name = Name::parse(alloc, text.as_str())?;
    Ok(Entry::PutUser(name, Channels::new(alloc), Names::new(alloc)))
}

/// Draws a number, and then stores the put of a user there in a turn.
fn store_user<R: Wait>(
    rt: &R,
    alloc: Global,
    gate: &Gate<Plain>,
    pass: Pass<Plain>,
    name: &str,
    number: u64,
) -> Result<Pass<Plain>, TextFault>
    requires here { pass.gate ≡ gate.now }
    requires left { 0 < pass.knows.left }
    requires nothing { HoldsNothing pass.knows (share pass.knows) }
    ensures gate { IfOk result (λ p. p.gate ≡ pass.gate) }
    ensures left { IfOk result (λ p. p.knows.left + 1 ≡ pass.knows.left) }
    ensures knows { IfOk result (λ p. HoldsNothing p.knows (share pass.knows)) }
{
    match put_of(alloc, name, number) {
        Ok(entry) => Ok(draw_and_store(rt, gate, pass, entry)?),
        Err(fault) => {
            drop(pass);
            Err(fault)
        }
    }
}

/// A thousand times draws a number, and then stores the put of a user with a name of its own there in a turn.
fn store_all<R: Wait>(
    rt: &R,
    alloc: Global,
    gate: &Gate<Plain>,
    pass: Pass<Plain>,
    name: &str,
) -> Result<Pass<Plain>, TextFault>
    requires here { pass.gate ≡ gate.now }
    requires left { 1000 ≤ pass.knows.left }
    requires nothing { HoldsNothing pass.knows (share pass.knows) }
    ensures gate { IfOk result (λ p. p.gate ≡ pass.gate) }
    ensures knows { IfOk result (λ p. HoldsNothing p.knows (share pass.knows)) }
{
    let mut pass = pass;
    for number in 0..1000 {
        pass = store_user(rt, alloc, gate, pass, name, number)?;
    }
    Ok(pass)
}

/// What two passes in two threads leave, each of which stores a thousand entries.
fn in_two<R: Threads + Wait + Sync>(
    rt: &R,
    alloc: Global,
    gate: Gate<Plain>,
    pass: Pass<Plain>,
) -> Result<Plain, TextFault>
    requires here { pass.gate ≡ gate }
    requires left { pass.knows.left ≡ 2 ^ 62 }
    requires nothing { HoldsNothing pass.knows (2 ^ 62) }
{
    let mut one = pass;
    let two = one.split(&gate);
    let (one, two) = join(
        rt,
        || -> Result<Pass<Plain>, TextFault>
            requires { IsSync R.row × (one.gate ≡ gate) × (1000 ≤ one.knows.left)
                × HoldsNothing one.knows (share one.knows) }
            ensures { IfOk result (λ p. (p.gate ≡ gate) × HoldsNothing p.knows (share one.knows)) }
        { store_all(rt, alloc, &gate, one, "ann") },
        || -> Result<Pass<Plain>, TextFault>
            requires { IsSync R.row × (two.gate ≡ gate) × (1000 ≤ two.knows.left)
                × HoldsNothing two.knows (share two.knows) }
            ensures { IfOk result (λ p. (p.gate ≡ gate) × HoldsNothing p.knows (share two.knows)) }
        { store_all(rt, alloc, &gate, two, "bob") },
    );
    let one = match one {
        Ok(one) => one,
        Err(fault) => {
            drop(two);
            drop(gate);
            return Err(fault);
        }
    };
    match two {
        Ok(two) => Ok(close_both(gate, one, two)),
        Err(fault) => {
            drop(one);
            drop(gate);
            Err(fault)
        }
    }
}

/// What two passes in two threads leave of an empty board.
fn stored_by_two<R: Threads + Wait + Sync>(
    rt: &R,
    alloc: Global,
    board: Plain,
) -> Result<Plain, TextFault>
    requires { board_with board.log.entries.list board.pending.waiting ≡ board_with [] [] }
{
    let (gate, pass) = open(alloc, board)?;
    in_two(rt, alloc, gate, pass)
}

/// The place of a user among all: ann0 to ann999, and then bob0 to bob999.
fn place_of(name: &str) -> Option<usize> {
    let (first, number) = match name.strip_prefix("ann") {
        Some(number) => (0, number),
        None => (1000, name.strip_prefix("bob")?),
    };
    match read_decimal(number) {
        Some(number) if number < 1000 => Some(first + number as usize),
        _ => None,
    }
}

/// The place of the user that an entry puts.
fn put_place(entry: &Entry) -> Option<usize> {
    match entry {
        Entry::PutUser(name, _, _) => place_of(name.as_str()),
        _ => None,
    }
}

/// How many entries put each of the users.
fn counts_of(alloc: Global, entries: &[Entry]) -> Result<Vec<u64>, AllocError> {
    let mut counts = vec![in alloc; 0u64; 2000]?;
    for entry in entries {
        if let Some(place) = put_place(entry) {
            if let Some(count) = counts.get_mut(place) {
                *count = count.saturating_add(1);
            }
        }
    }
    Ok(counts)
}

#[test]
fn two_threads_a_thousand_each(rt: HostRuntime) -> Result<(), Fail> {
    let alloc = rt.alloc();
    let board = board_of(alloc, Log::new(alloc, None), 2000)?;
    let left = stored_by_two(&rt, alloc, board)?;
    let entries = left.log.entries.len();
    let waiting = left.pending.len();
    let counts = counts_of(alloc, left.log.entries.as_slice());
    drop(left);
    assert!(rt; entries == 2000);
    assert!(rt; waiting == 0);
    let counts = counts?;
    assert!(rt; counts.len() == 2000);
    assert!(rt; counts.iter().all(|count| *count == 1));
    Ok(())
}
