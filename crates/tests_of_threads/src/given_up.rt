//! A number that a pass of a gate with a shelf behind it holds and gives up, and the front.

ghost use Rattle.std.specs.Prelude.{◌≡◌, ◌≤◌, ◌^◌, ◌∷◌, [], length, IfOk};
ghost use Rattle.write_path.specs.Shared.{Rests};

use crate::played::{OPEN, program_of};
use doc_board::laws::recorded;
use doc_board::{Board, Outcome, Room};
use repl_messages::{Fed, Revision};
use seq_gate::{Gate, Pass, Turn, open};
use sg_history::{DocId, Key, Name, Number, Options, RevId, Revs, Row, read_journal};
use sg_outside::{Bytes, Memory};
use std::alloc::Global;
use std::mem::replace;
use std::process::Abort;
use std::sync::Wait;
use std::test::Fail;
use write_path::{Ground, Resolved, SharedGround, Shelf};

/// Entry 1: ann has the channel A.
const ONE: &[u8] = b"sgjournal 1\nU\tann\tA\t-\n";

/// The shelf of a short journal.
fn shelf_of(alloc: Global, journal: &[u8]) -> Result<Shelf, Fail>
    ensures pending { IfOk result (λ shelf. shelf.board.pending ≡ []) }
    ensures rooms { IfOk result (λ shelf. shelf.board.rooms ≡ []) }
    ensures short { IfOk result (λ shelf. length shelf.board.log ≤ 1000) }
{
    recorded();
    let Ok(log) = read_journal(alloc, journal) else {
        return Err(Fail::from("no journal"));
    };
    let Ok(board) = Board::open(alloc, log) else {
        return Err(Fail::from("no board"));
    };
    if board.front() > 1000 {
        drop(board);
        return Err(Fail::from("a long journal"));
    }
    Ok(Shelf::new(board)?)
}

/// A gate to the shelf of a short journal, and its first pass.
fn opened(alloc: Global, journal: &[u8]) -> Result<(Gate<Shelf>, Pass<Shelf>), Fail>
    ensures here { IfOk result (λ r. r.1.gate ≡ r.0) }
    ensures rests { IfOk result (λ r. Rests r.1.knows) }
    ensures left { IfOk result (λ r. r.1.knows.left ≡ 2 ^ 62) }
{
    Ok(open(alloc, shelf_of(alloc, journal)?)?)
}

/// Takes the board out of a turn, and leaves another one there.
fn taken(turn: &mut Turn<Shelf>, other: Shelf) -> Board
    ensures gate { turn.new.gate ≡ turn.old.gate }
    ensures knows { turn.new.knows ≡ turn.old.knows }
    ensures found { turn.new.found ≡ turn.old.found }
    ensures board { result ≡ turn.old.board.board }
{
    replace(turn.board(), other).into_board()
}

/// Puts the board back.
fn put_back(rt: &impl Abort, turn: &mut Turn<Shelf>, board: Board)
    ensures gate { turn.new.gate ≡ turn.old.gate }
    ensures knows { turn.new.knows ≡ turn.old.knows }
    ensures found { turn.new.found ≡ turn.old.found }
    ensures board { turn.new.board.board ≡ board }
{
    let shelf = Shelf::new(board).expect(rt, "a shelf");
    drop(replace(turn.board(), shelf));
}

/// The shelf without entries, which stands in a turn for a moment.
fn empty_shelf(alloc: Global) -> Result<Shelf, Memory> {
    Shelf::new(Board::new(alloc)?)
}

/// Makes a room in a turn.
fn room_in_turn<R: Wait + Abort>(
    rt: &R,
    alloc: Global,
    gate: &Gate<Shelf>,
    pass: Pass<Shelf>,
) -> Result<(Pass<Shelf>, Room), Fail>
    requires here { pass.gate ≡ gate.now }
    requires rests { Rests pass.knows }
    ensures gate { IfOk result (λ r. r.0.gate ≡ pass.gate) }
    ensures held { IfOk result (λ r. r.0.knows.held ≡ []) }
    ensures rooms { IfOk result (λ r. r.0.knows.rooms ≡ r.1.made_for ∷ []) }
    ensures left { IfOk result (λ r. r.0.knows.left ≡ pass.knows.left) }
{
    doc_board::laws::after();
    let other = empty_shelf(alloc)?;
    let mut turn = pass.enter(rt, gate);
    let mut board = taken(&mut turn, other);
    let Ok(room) = board.room(None, 0) else {
        drop(board);
        drop(turn);
        return Err(Fail::from("no room"));
    };
    put_back(rt, &mut turn, board);
    Ok((turn.leave(gate), room))
}

/// Gives up the number that is held, in a turn, for whose moment there is another shelf.
fn give_up<R: Wait + Abort>(
    rt: &R,
    gate: &Gate<Shelf>,
    pass: Pass<Shelf>,
    other: Shelf,
    room: Room,
    number: Number,
)
    requires here { pass.gate ≡ gate.now }
    requires held { pass.knows.held ≡ number.value ∷ [] }
    requires rooms { pass.knows.rooms ≡ room.made_for ∷ [] }
{
    doc_board::laws::after();
    pending_front::laws::storing();
    let mut turn = pass.enter(rt, gate);
    let mut board = taken(&mut turn, other);
    board.void(room, number);
    put_back(rt, &mut turn, board);
    drop(turn.leave(gate));
}

/// The first revision of d1, in the channel A.
fn d1_in_a(alloc: Global) -> Option<Revision> {
    let doc = DocId::parse(alloc, "d1").ok()?;
    let rev = RevId::parse(alloc, "1-a").ok()?;
    let body = Bytes::from_slice(alloc, b"{\"channels\":[\"A\"]}").ok()?;
    Some(Revision {
        doc,
        rev,
        ancestors: Revs::new(alloc),
        deleted: false,
        noconflicts: false,
        body,
    })
}

/// What ann is shown since 1: the front, how many rows, and whether the one is that of d1 at 3.
#[derive(Drop, PartialEq, Eq)]
struct Seen {
    front: u64,
    rows: usize,
    is_d1: bool,
}

fn is_d1_at_3(row: &Row, rev: &RevId) -> bool {
    row.key.by == 3
        && row.key.seq == 3
        && row.doc.as_str() == "d1"
        && row.rev.equals(rev)
        && row.bits == 0
}

/// What ann is shown since 1 at a ground.
fn shown_to_ann<G: Ground>(alloc: Global, ground: &mut G) -> Option<Seen> {
    let user = Name::parse(alloc, "ann").ok()?;
    let since = Key::parse("1").ok()?;
    let rev = RevId::parse(alloc, "1-a").ok()?;
    let options = Options {
        filter: None,
        active_only: false,
        revocations: false,
    };
    match ground.feed(alloc, &user, &since, &options).ok()? {
        Fed::Rows { front, rows } => Some(Seen {
            front,
            rows: rows.as_slice().len(),
            is_d1: match rows.as_slice() {
                [row] => is_d1_at_3(row, &rev),
                _ => false,
            },
        }),
        Fed::Future { .. } => None,
    }
}

/// Whether a revision of d1 is stored, at 3.
fn is_stored_at_3<G: Ground>(alloc: Global, ground: &mut G, program: &Resolved) -> bool
    requires draws { 2 ≤ G.left ground.old }
{
    match d1_in_a(alloc) {
        Some(revision) => matches!(
            ground.propose(alloc, program, None, false, revision),
            Outcome::Stored { sequence: 3, .. }
        ),
        None => false,
    }
}

/// Whether a revision is stored at 3, and what ann is shown before the number 2 is given up and afterwards.
type Told = (bool, Option<Seen>, Option<Seen>);

/// A pass with a room draws a number; another stores a revision of d1 at the next one; then the first gives its number up, in a turn for whose
/// moment there is another shelf.
fn told_between<R: Wait + Abort + Sync>(
    rt: &R,
    alloc: Global,
    gate: &Gate<Shelf>,
    one: Pass<Shelf>,
    room: Room,
    two: Pass<Shelf>,
    other: Shelf,
    program: &Resolved,
) -> Told
    requires here { (one.gate ≡ gate.now) × (two.gate ≡ gate.now) }
    requires held { one.knows.held ≡ [] }
    requires rooms { one.knows.rooms ≡ room.made_for ∷ [] }
    requires rests { Rests two.knows }
    requires draws { (1 ≤ one.knows.left) × (2 ≤ two.knows.left) }
{
    let mut one = one;
    let mut ground = SharedGround::new(rt, gate, two);
    let number = one.draw(gate);
    let stored = is_stored_at_3(alloc, &mut ground, program);
    let before = shown_to_ann(alloc, &mut ground);
    give_up(rt, gate, one, other, room, number);
    let after = shown_to_ann(alloc, &mut ground);
    drop(ground);
    (stored, before, after)
}

/// The same by a pass that makes the room and its other half.
fn held_and_given_up<R: Wait + Abort + Sync>(
    rt: &R,
    alloc: Global,
    gate: &Gate<Shelf>,
    pass: Pass<Shelf>,
    program: &Resolved,
) -> Result<Told, Fail>
    requires here { pass.gate ≡ gate.now }
    requires rests { Rests pass.knows }
    requires left { 2 ^ 34 ≤ pass.knows.left }
{
    let mut one = pass;
    let two = one.split(gate);
    let other = empty_shelf(alloc)?;
    match room_in_turn(rt, alloc, gate, one) {
        Ok((one, room)) => Ok(told_between(rt, alloc, gate, one, room, two, other, program)),
        Err(fail) => {
            drop(two);
            drop(other);
            Err(fail)
        }
    }
}

/// The same at a gate of its own.
fn told_under<R: Wait + Abort + Sync>(
    rt: &R,
    alloc: Global,
    program: &Resolved,
) -> Result<Told, Fail> {
    let (gate, pass) = opened(alloc, ONE)?;
    let told = held_and_given_up(rt, alloc, &gate, pass, program);
    drop(gate);
    told
}

fn told<R: Wait + Abort + Sync>(rt: &R, alloc: Global) -> Result<Told, Fail> {
    let program = program_of(alloc, OPEN)?;
    let told = told_under(rt, alloc, &program);
    drop(program);
    told
}

/// While the number 2 is held, the write at 3 is not shown; once 2 is given up, it is.
#[test]
fn a_number_that_is_given_up(rt: HostRuntime) -> Result<(), Fail> {
    let none = Seen {
        front: 1,
        rows: 0,
        is_d1: false,
    };
    let one = Seen {
        front: 3,
        rows: 1,
        is_d1: true,
    };
    assert!(rt; told(&rt, rt.alloc())? == (true, Some(none), Some(one)));
    Ok(())
}
