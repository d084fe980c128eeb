//! Checkpoints that are set and got at a gate, by one pass, or by two in two threads.

ghost use Rattle.std.specs.Prelude.{◌≡◌, ◌≤◌, ◌^◌};
ghost use Rattle.write_path.specs.Shared.{Rests};

use crate::sharing::{Job, by_two};
use crate::stop::Stop;
use doc_board::Board;
use seq_gate::{Gate, Pass, open};
use sg_history::{Client, Name};
use sg_outside::Bytes;
use std::alloc::Global;
use std::sync::Wait;
use std::thread::Threads;
use write_path::{Ground, Kept0, SetAnswer, SharedGround, Shelf};

/// What each pass does: so many sets of checkpoints of so many clients, in turn, with bodies of so many bytes; then so many gets.
#[derive(Clone, Copy)]
struct Work {
    clients: u64,
    sets: u64,
    gets: u64,
    bytes: usize,
}

/// The client whose turn it is.
fn client_at(alloc: Global, work: &Work, number: u64) -> Result<Client, Stop> {
    let place = number.checked_rem(work.clients).unwrap_or(0);
    let text = format!(in alloc; "c{place}")?;
    Ok(Client::parse(alloc, text.as_str())?)
}

/// How many checkpoints are set.
fn sets<G: Ground>(alloc: Global, ground: &mut G, user: &Name, work: &Work) -> Result<u64, Stop> {
    let body = Bytes::from_vec(vec![in alloc; b'a'; work.bytes]?);
    let mut count = 0u64;
    for number in 0..work.sets {
        let client = client_at(alloc, work, number)?;
        let rev = number.checked_div(work.clients).unwrap_or(0);
        let answer = ground.set_checkpoint(user, &client, rev, body.copy(alloc)?);
        if matches!(answer, SetAnswer::Set { .. }) {
            count = count.saturating_add(1);
        }
    }
    Ok(count)
}

/// How many checkpoints are got.
fn gets<G: Ground>(alloc: Global, ground: &mut G, user: &Name, work: &Work) -> Result<u64, Stop> {
    let mut count = 0u64;
    for number in 0..work.gets {
        let client = client_at(alloc, work, number)?;
        let kept = ground.get_checkpoint(user, &client)?;
        if matches!(kept, Kept0::Found { .. }) {
            count = count.saturating_add(1);
        }
    }
    Ok(count)
}

/// How many checkpoints of a user are set and got.
fn both<G: Ground>(alloc: Global, ground: &mut G, user: &str, work: &Work) -> Result<u64, Stop> {
    let user = Name::parse(alloc, user)?;
    let set = sets(alloc, ground, &user, work)?;
    Ok(set.saturating_add(gets(alloc, ground, &user, work)?))
}

/// A ground at which the checkpoints of a user's clients are set and got: of a second user, or of the first.
#[derive(Drop)]
struct Keeping<'g, R: Wait + Sync> {
    alloc: Global,
    ground: SharedGround<'g, R>,
    second: bool,
    clients: u64,
    sets: u64,
    gets: u64,
    bytes: usize,
}

impl<'g, R: Wait + Sync> Job for Keeping<'g, R> {
    /// Counts those that are set and got.
    fn run(self) -> u64 {
        let Keeping {
            alloc,
            mut ground,
            second,
            clients,
            sets,
            gets,
            bytes,
        } = self;
        let work = Work {
            clients,
            sets,
            gets,
            bytes,
        };
        let user = if second { "bob" } else { "ann" };
        let count = both(alloc, &mut ground, user, &work).unwrap_or(0);
        drop(ground);
        count
    }
}

/// What is done by a pass.
fn keeping_at<'g, R: Wait + Sync>(
    rt: &'g R,
    alloc: Global,
    gate: &'g Gate<Shelf>,
    pass: Pass<Shelf>,
    second: bool,
    work: &Work,
) -> Keeping<'g, R>
    requires here { pass.gate ≡ gate.now }
    requires rests { Rests pass.knows }
{
    Keeping {
        alloc,
        ground: SharedGround::new(rt, gate, pass),
        second,
        clients: work.clients,
        sets: work.sets,
        gets: work.gets,
        bytes: work.bytes,
    }
}

/// How many checkpoints are set and got by a pass, or by two.
fn by_passes<R: Threads + Wait + Sync>(
    rt: &R,
    alloc: Global,
    gate: &Gate<Shelf>,
    pass: Pass<Shelf>,
    work: &Work,
    two: bool,
) -> u64
    requires here { pass.gate ≡ gate.now }
    requires rests { Rests pass.knows }
    requires left { 2 ^ 34 ≤ pass.knows.left }
{
    let mut pass = pass;
    if !two {
        return keeping_at(rt, alloc, gate, pass, false, work).run();
    }
    let other = pass.split(gate);
    let second = keeping_at(rt, alloc, gate, other, true, work);
    let (one, two) = by_two(rt, second, keeping_at(rt, alloc, gate, pass, false, work));
    one.saturating_add(two)
}

/// What each pass does: for `keep` it sets the checkpoints of so many clients once, with bodies of so many bytes; else it does so for other
/// clients, with bodies of 100 bytes, and sets them so often again, or gets them.
fn work_of(name: &str, of: u64, count: u64, clients: u64) -> Work {
    match name {
        "keep" => Work {
            clients: count,
            sets: count,
            gets: 0,
            bytes: of as usize,
        },
        "get" => Work {
            clients,
            sets: clients,
            gets: count,
            bytes: 100,
        },
        _ => Work {
            clients,
            sets: clients.saturating_add(count),
            gets: 0,
            bytes: 100,
        },
    }
}

/// How many checkpoints are set and got in all: by two passes where `set` or `get` are of 2, and else by one.
pub fn counted<R: Threads + Wait + Sync>(
    rt: &R,
    alloc: Global,
    name: &str,
    of: u64,
    count: u64,
    clients: u64,
) -> Result<u64, Stop> {
    let work = work_of(name, of, count, clients);
    let (gate, pass) = open(alloc, Shelf::new(Board::new(alloc)?)?)?;
    let two = name != "keep" && of == 2;
    Ok(by_passes(rt, alloc, &gate, pass, &work, two))
}
