//! Grounds that share a gate: a session between whose looks a grant ends, and grounds in two threads.

ghost use Rattle.std.specs.Prelude.{◌≡◌, ◌≤◌, ◌+◌, ◌^◌, [], length, IfOk};
ghost use Rattle.seq_gate.specs.Passes.{share};
ghost use Rattle.write_path.specs.Shared.{Rests, shared_origin};

use crate::programs::{OPEN, open as open_program, setup};
use doc_board::Board;
use doc_board::laws::recorded;
use repl_messages::Revision;
use seq_gate::{Gate, Pass, close, open};
use session_core::{Look, Purpose};
use session_run::{End, Ended, Setup, serve_session};
use sg_history::{DocId, Name, RevId, Revs, read_journal};
use sg_outside::{Bytes, Gave, Got, Input, MemWire, Wire};
use std::alloc::{AllocError, Global};
use std::sync::Wait;
use std::test::Fail;
use std::thread;
use std::thread::Threads;
use write_path::{Command, Ground, Outcome, Resolved, SharedGround, Shelf};

/// Entries 1 to 5: ann has A by a role, and d1 is put into A by the fourth.
const FIVE: &[u8] = b"sgjournal 1\n\
R\tr\tA\n\
U\tann\t-\tr\n\
U\tbob\t-\t-\n\
W\td1\t1-a\t-\t0\t7b7d\t-\t3\t1-a\tA\t-\t-\n\
U\tbob\t-\t-\n";

/// subChanges with since 0, continuous and revocations, as request 1.
const ASK: &[u8] =
    b"\x01\0<Profile\0subChanges\0since\x000\0continuous\0true\0revocations\0true\0\xbd\xc9\x9c\xf3";

/// `[[]]`, the answer to the gateway's request 1: the one row is wanted.
const WANT: &[u8] = b"\x01\x01\0[[]]\x97\x1f\xb9\x14";

/// An empty reply to request 1; changes with the row `4|d1|1-a`; norev of it; and changes with the row `6:4|d1|1-a|2`.
const SENT: [&[u8]; 4] = [
    b"\x01\x01\0\xd2\x02\xef\x8d",
    b"\x01\0\x10Profile\0changes\0[[4,\"d1\",\"1-a\"]]<N\x0a\xfe",
    b"\x02 FProfile\0norev\0id\0d1\0rev\x001-a\0sequence\x004\0error\x00404\0reason\0not available\x002\xf7H\xad",
    b"\x03\0\x10Profile\0changes\0[[\"6:4\",\"d1\",\"1-a\",2]]\xae\xc8O\xb4",
];

/// The shelf of a short journal.
pub fn shelf_of(alloc: Global, journal: &[u8]) -> Result<Shelf, Fail>
    ensures pending { IfOk result (λ shelf. shelf.board.pending ≡ []) }
    ensures rooms { IfOk result (λ shelf. shelf.board.rooms ≡ []) }
    ensures short { IfOk result (λ shelf. length shelf.board.log ≤ 1000) }
{
    recorded();
    let Ok(log) = read_journal(alloc, journal) else {
        return Err(Fail::from("no journal"));
    };
    let Ok(board) = Board::open(alloc, log) else {
        return Err(Fail::from("no board"));
    };
    if board.front() > 1000 {
        drop(board);
        return Err(Fail::from("a long journal"));
    }
    Ok(Shelf::new(board)?)
}

/// A gate to the shelf of a short journal, and its first pass.
fn opened(alloc: Global, journal: &[u8]) -> Result<(Gate<Shelf>, Pass<Shelf>), Fail>
    ensures here { IfOk result (λ r. r.1.gate ≡ r.0) }
    ensures rests { IfOk result (λ r. Rests r.1.knows) }
    ensures whole { IfOk result (λ r. share r.1.knows ≡ 2 ^ 62) }
    ensures left { IfOk result (λ r. r.1.knows.left ≡ 2 ^ 62) }
{
    Ok(open(alloc, shelf_of(alloc, journal)?)?)
}

/// A wire in memory, at which a role is dropped before the second result comes.
#[derive(Drop)]
struct Revoking<'g, R: Wait + Sync> {
    wire: MemWire,
    ground: SharedGround<'g, R>,
    role: Option<Name>,
    results: u64,
}

/// Drops a role, where two draws are left.
fn drop_role<G: Ground>(ground: &mut G, role: Name) {
    if ground.left() < 2 {
        return;
    }
    let _ = role.as_str();
    drop(ground.command(Command::DropRole(role)));
}

impl<'g, R: Wait + Sync> Wire for Revoking<'g, R> {
    ghost use Rattle.std.specs.Prelude.{None};

    ghost faults = { λ w. 0 };

    ghost recorded = { λ w. None };

    fn recv(&mut self) -> Got {
        if self.results == 1 {
            if let Some(role) = self.role.take() {
                drop_role(&mut self.ground, role);
            }
        }
        self.results = self.results.saturating_add(1);
        self.wire.recv()
    }

    fn send(&mut self, frame: &[u8]) -> Gave {
        self.wire.send(frame)
    }
}

fn inputs(alloc: Global) -> Result<Vec<Input>, AllocError> {
    let mut inputs = Vec::new(alloc);
    inputs.push(Input::Frame(Bytes::from_slice(alloc, ASK)?))?;
    inputs.push(Input::Frame(Bytes::from_slice(alloc, WANT)?))?;
    Ok(inputs)
}

fn are_sent(frames: &[Bytes]) -> bool {
    frames.len() == SENT.len()
        && frames
            .iter()
            .zip(SENT)
            .all(|(sent, is)| sent.as_slice() == is)
}

const LOOKS: [Look; 3] = [
    Look {
        front: 5,
        purpose: Purpose::Feed,
    },
    Look {
        front: 6,
        purpose: Purpose::Bodies,
    },
    Look {
        front: 6,
        purpose: Purpose::Feed,
    },
];

/// A device whose role is dropped: its setup, what comes from it, and the role.
#[derive(Drop)]
struct Device {
    setup: Setup,
    wire: MemWire,
    role: Name,
}

fn device_of(alloc: Global) -> Result<Device, Fail> {
    let role = Name::parse(alloc, "r")?;
    let wire = MemWire::new(alloc, inputs(alloc)?);
    match setup(alloc, OPEN) {
        Ok(setup) => Ok(Device { setup, wire, role }),
        Err(fail) => {
            drop(wire);
            Err(fail)
        }
    }
}

/// How the device's session ends between whose looks the role is dropped; and whether its looks and its frames are those.
fn served<R: Wait + Sync>(
    rt: &R,
    alloc: Global,
    gate: &Gate<Shelf>,
    pass: Pass<Shelf>,
    device: Device,
) -> (End, bool, bool)
    requires here { pass.gate ≡ gate.now }
    requires rests { Rests pass.knows }
    requires left { 2 ^ 34 ≤ pass.knows.left }
{
    let mut pass = pass;
    let other = pass.split(gate);
    let Device { setup, wire, role } = device;
    let mut wire = Revoking {
        wire,
        ground: SharedGround::new(rt, gate, other),
        role: Some(role),
        results: 0,
    };
    let (ground, ended) = serve_session(alloc, SharedGround::new(rt, gate, pass), setup, &mut wire);
    drop(ground);
    let looked = ended.looks.as_slice() == LOOKS.as_slice();
    let sent = are_sent(wire.wire.sent.as_slice());
    let end = ended.end;
    drop(ended);
    drop(wire);
    (end, looked, sent)
}

fn revoked<R: Wait + Sync>(rt: &R, alloc: Global) -> Result<(End, bool, bool), Fail> {
    let device = device_of(alloc)?;
    let (gate, pass) = match opened(alloc, FIVE) {
        Ok(opened) => opened,
        Err(fail) => {
            drop(device);
            return Err(fail);
        }
    };
    let served = served(rt, alloc, &gate, pass, device);
    drop(gate);
    Ok(served)
}

/// A row is sent at front 5; the user loses the channel with the role by entry 6, and then the device wants the row: there is no such revision any more
/// at the look of 6, and the next look for the feed, also of 6, tells that the user lost it.
#[test]
fn a_grant_that_ends_between_two_looks(rt: HostRuntime) -> Result<(), Fail> {
    assert!(rt; revoked(&rt, rt.alloc())? == (End::Closed, true, true));
    Ok(())
}

/// A first revision of a document.
fn revision_of(alloc: Global, doc: &str) -> Option<Revision> {
    let doc = DocId::parse(alloc, doc).ok()?;
    let rev = RevId::parse(alloc, "1-a").ok()?;
    let body = Bytes::from_slice(alloc, b"{}").ok()?;
    Some(Revision {
        doc,
        rev,
        ancestors: Revs::new(alloc),
        deleted: false,
        noconflicts: false,
        body,
    })
}

fn is_stored(outcome: &Outcome) -> bool {
    matches!(outcome, Outcome::Stored { .. })
}

/// Proposes a first revision of a document to a ground. Whether it was stored.
fn proposes<G: Ground>(alloc: Global, ground: &mut G, program: &Resolved, doc: &str) -> bool
    requires draws { 2 ≤ G.left ground.old }
    ensures left { G.left ground.old ≤ G.left ground.new + 2 }
    ensures origin { G.origin ground.new ≡ G.origin ground.old }
{
    match revision_of(alloc, doc) {
        Some(revision) => is_stored(&ground.propose(alloc, program, None, false, revision)),
        None => false,
    }
}

/// Drops a user at a ground. Whether that was stored.
fn drops<G: Ground>(alloc: Global, ground: &mut G, user: &str) -> bool
    requires draws { 2 ≤ G.left ground.old }
    ensures origin { G.origin ground.new ≡ G.origin ground.old }
{
    match Name::parse(alloc, user) {
        Ok(user) => {
            let _ = user.as_str();
            is_stored(&ground.command(Command::DropUser(user)))
        }
        Err(_) => false,
    }
}

/// What a thread does with what it owns.
trait Job: Send + Drop {
    type Done: Send + Drop;

    ghost relates: { Self → Self.Done → Type 0 };

    fn run(self) -> Self::Done
    where
        Self: Sized,
        ensures { relates self result };
}

/// Does both jobs, each in a thread of its own.
fn by_two<J: Job>(rt: &impl Threads, one: J, two: J) -> (J::Done, J::Done)
    ensures first { J.relates one result.0 }
    ensures second { J.relates two result.1 }
{
    thread::join(
        rt,
        || -> J::Done
            ensures { J.relates one result }
        { one.run() },
        || -> J::Done
            ensures { J.relates two result }
        { two.run() },
    )
}

/// A ground at which a first revision is to be proposed, of d1 or of d2, and a user to be dropped, ann or bob.
#[derive(Drop)]
struct Work<'g, 'p, R: Wait + Sync> {
    alloc: Global,
    ground: SharedGround<'g, R>,
    program: &'p Resolved,
    second: bool,
    ghost draws: { 4 ≤ ground.knows.left },
}

/// The ground afterwards, and whether both were stored.
#[derive(Drop)]
struct Worked<'g, R: Wait + Sync> {
    ground: SharedGround<'g, R>,
    stored: bool,
}

impl<'g, 'p, R: Wait + Sync> Job for Work<'g, 'p, R> {
    type Done = Worked<'g, R>;

    ghost relates = { λ j d. shared_origin d.ground ≡ shared_origin j.ground };

    fn run(self) -> Worked<'g, R> {
        let Work {
            alloc,
            ground,
            program,
            second,
        } = self;
        let (doc, user) = if second { ("d2", "bob") } else { ("d1", "ann") };
        let mut ground = ground;
        let proposed = proposes(alloc, &mut ground, program, doc);
        let dropped = drops(alloc, &mut ground, user);
        Worked {
            ground,
            stored: proposed && dropped,
        }
    }
}

/// The length of the log that a gate is closed with, once both passes are joined.
fn closed(gate: Gate<Shelf>, one: Pass<Shelf>, two: Pass<Shelf>) -> u64
    requires one { (one.gate ≡ gate) × Rests one.knows }
    requires two { (two.gate ≡ gate) × Rests two.knows }
    requires whole { share one.knows + share two.knows ≡ 2 ^ 62 }
{
    let mut one = one;
    one.join(&gate, two);
    let shelf = close(gate, one);
    let front = shelf.board().front();
    drop(shelf);
    front
}

/// Does both works at grounds of one gate; then joins the passes, and closes the gate. The front then, and whether all was stored.
fn in_threads<R: Threads + Wait + Sync>(
    rt: &R,
    alloc: Global,
    gate: Gate<Shelf>,
    pass: Pass<Shelf>,
    program: &Resolved,
) -> (u64, bool)
    requires here { pass.gate ≡ gate }
    requires rests { Rests pass.knows }
    requires whole { share pass.knows ≡ 2 ^ 62 }
    requires left { 2 ^ 34 ≤ pass.knows.left }
{
    let mut pass = pass;
    let other = pass.split(&gate);
    let one = Work {
        alloc,
        ground: SharedGround::new(rt, &gate, pass),
        program,
        second: false,
    };
    let two = Work {
        alloc,
        ground: SharedGround::new(rt, &gate, other),
        program,
        second: true,
    };
    let (one, two) = by_two(rt, one, two);
    let stored = one.stored && two.stored;
    let (one, two) = (one.ground.into_inner(), two.ground.into_inner());
    (closed(gate, one, two), stored)
}

/// Does both works under a program, from an empty history on.
fn both_under<R: Threads + Wait + Sync>(
    rt: &R,
    alloc: Global,
    program: &Resolved,
) -> Result<(u64, bool), Fail> {
    let (gate, pass) = opened(alloc, b"sgjournal 1\n")?;
    Ok(in_threads(rt, alloc, gate, pass, program))
}

fn both_work<R: Threads + Wait + Sync>(rt: &R, alloc: Global) -> Result<(u64, bool), Fail> {
    let program = open_program(alloc)?;
    let worked = both_under(rt, alloc, &program);
    drop(program);
    worked
}

#[test]
fn two_grounds_in_two_threads(rt: HostRuntime) -> Result<(), Fail> {
    assert!(rt; both_work(&rt, rt.alloc())? == (4, true));
    Ok(())
}
