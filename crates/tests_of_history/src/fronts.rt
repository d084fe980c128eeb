//! A number that a pass holds, and the front.

ghost use Rattle.std.specs.Prelude.{◌≡◌, ◌<◌, ◌^◌, ◌∷◌, [], length, IfOk};
ghost use Rattle.seq_gate.specs.Passes.{share};
ghost use Rattle.tests_of_history.specs.inner.Passes.{HoldsNothing};

use crate::feeds::write_feed_of;
use crate::plain::{Plain, board_of};
use crate::turns::{close_both, store_at, store_new};
use seq_gate::laws::turns;
use seq_gate::{Gate, Pass, open};
use sg_history::{
    Channels, DocId, Entry, Grants, Log, Name, Names, RevId, Revs, RoleGrants, TextFault, Write,
};
use sg_outside::Bytes;
use std::alloc::Global;
use std::sync::Wait;
use std::test::Fail;

/// The write of a document by the administrator, judged at the front 1.
fn write_of(alloc: Global, doc: DocId, rev: RevId, winner: RevId, channels: Channels) -> Entry {
    Entry::Write(Write {
        doc,
        rev,
        ancestors: Revs::new(alloc),
        deleted: false,
        body: Bytes::new(alloc),
        by: None,
        at: 1,
        winner,
        channels,
        grants: Grants::new(alloc),
        roles: RoleGrants::new(alloc),
    })
}

/// The write of d1 as 1-a in A.
fn d1_in_a(alloc: Global) -> Result<Entry, TextFault> {
    let rev = RevId::parse(alloc, "1-a")?;
    let winner = rev.copy(alloc)?;
    let doc = DocId::parse(alloc, "d1")?;
    let channels = Channels::parse(alloc, "A")?;
    Ok(write_of(alloc, doc, rev, winner, channels))
}

/// The front, and the rows of ann's feed since 1.
#[derive(Drop)]
struct Seen {
    front: u64,
    rows: Bytes,
}

/// The rows of ann's feed since 1, as a text.
fn rows_of_ann(alloc: Global, log: &Log) -> Result<Bytes, TextFault> {
    let mut text = Bytes::new(alloc);
    match write_feed_of(alloc, log, "ann 1 revocations", &mut text) {
        Ok(()) => Ok(text),
        Err(fault) => {
            drop(text);
            Err(fault)
        }
    }
}

/// What a pass sees, which leaves the board in its turn as it was.
fn seen_by<R: Wait>(
    rt: &R,
    alloc: Global,
    gate: &Gate<Plain>,
    pass: Pass<Plain>,
) -> Result<(Pass<Plain>, Seen), TextFault>
    requires here { pass.gate ≡ gate.now }
    requires nothing { HoldsNothing pass.knows (share pass.knows) }
    ensures gate { IfOk result (λ r. r.0.gate ≡ pass.gate) }
    ensures knows { IfOk result (λ r. HoldsNothing r.0.knows (share pass.knows)) }
{
    turns();
    let mut turn = pass.enter(rt, gate);
    let rows = rows_of_ann(alloc, &turn.board().log);
    let mut pass = turn.leave(gate);
    let front = pass.front(gate);
    match rows {
        Ok(rows) => Ok((pass, Seen { front, rows })),
        Err(fault) => {
            drop(pass);
            Err(fault)
        }
    }
}

/// Draws a number and stores a write of d1 there in one turn, and what the pass sees then.
fn store_d1<R: Wait>(
    rt: &R,
    alloc: Global,
    gate: &Gate<Plain>,
    pass: Pass<Plain>,
) -> Result<(Pass<Plain>, Seen), TextFault>
    requires here { pass.gate ≡ gate.now }
    requires left { 0 < pass.knows.left }
    requires nothing { HoldsNothing pass.knows (share pass.knows) }
    ensures gate { IfOk result (λ r. r.0.gate ≡ pass.gate) }
    ensures knows { IfOk result (λ r. HoldsNothing r.0.knows (share pass.knows)) }
{
    let entry = match d1_in_a(alloc) {
        Ok(entry) => entry,
        Err(fault) => {
            drop(pass);
            return Err(fault);
        }
    };
    let pass = store_new(rt, gate, pass, entry)?;
    seen_by(rt, alloc, gate, pass)
}

/// Gives a held number up in a turn, and what the pass sees then.
fn give_up<R: Wait>(
    rt: &R,
    alloc: Global,
    gate: &Gate<Plain>,
    pass: Pass<Plain>,
    number: u64,
) -> Result<(Pass<Plain>, Seen), TextFault>
    requires here { pass.gate ≡ gate.now }
    requires held { pass.knows.held ≡ number ∷ [] }
    requires rooms { pass.knows.rooms ≡ [] }
    ensures gate { IfOk result (λ r. r.0.gate ≡ pass.gate) }
    ensures knows { IfOk result (λ r. HoldsNothing r.0.knows (share pass.knows)) }
{
    let pass = store_at(rt, gate, pass, number, Entry::Unused)?;
    seen_by(rt, alloc, gate, pass)
}

/// A pass draws a number, and another the next one, at which it stores a write of d1; then the first gives its number up. What is
/// seen before that and after it, and the board that is left.
fn held_and_given_up<R: Wait>(
    rt: &R,
    alloc: Global,
    gate: Gate<Plain>,
    one: Pass<Plain>,
) -> Result<(Seen, Seen, Plain), TextFault>
    requires here { one.gate ≡ gate }
    requires left { one.knows.left ≡ 2 ^ 62 }
    requires nothing { HoldsNothing one.knows (2 ^ 62) }
{
    let mut one = one;
    let two = one.split(&gate);
    let number = one.draw(&gate).spend();
    let (two, before) = match store_d1(rt, alloc, &gate, two) {
        Ok(seen) => seen,
        Err(fault) => {
            drop(one);
            drop(gate);
            return Err(fault);
        }
    };
    match give_up(rt, alloc, &gate, one, number) {
        Ok((one, after)) => Ok((before, after, close_both(gate, one, two))),
        Err(fault) => {
            drop(two);
            drop(gate);
            drop(before);
            Err(fault)
        }
    }
}

/// The put of ann, who has A.
fn ann_in_a(alloc: Global) -> Result<Entry, TextFault> {
    let name = Name::parse(alloc, "ann")?;
    let channels = Channels::parse(alloc, "A")?;
    Ok(Entry::PutUser(name, channels, Names::new(alloc)))
}

/// The board of a log that puts ann, who has A.
fn board_of_ann(alloc: Global) -> Result<Plain, TextFault>
    ensures pending { IfOk result (λ b. b.pending.waiting ≡ []) }
    ensures log { IfOk result (λ b. length b.log.entries.list ≡ 1) }
{
    let entry = ann_in_a(alloc)?;
    let mut log = Log::new(alloc, None);
    if let Err(fault) = log.entries.push(entry) {
        drop(log);
        return Err(TextFault::from(fault));
    }
    Ok(board_of(alloc, log, 2)?)
}

/// The same of a gate that is opened for it.
fn held_number<R: Wait>(rt: &R, alloc: Global) -> Result<(Seen, Seen, Plain), TextFault> {
    let board = board_of_ann(alloc)?;
    let (gate, pass) = open(alloc, board)?;
    held_and_given_up(rt, alloc, gate, pass)
}

#[test]
fn a_held_number_withholds_the_front(rt: HostRuntime) -> Result<(), Fail> {
    let alloc = rt.alloc();
    let (before, after, board) = held_number(&rt, alloc)?;
    let waiting = board.pending.len();
    let are_three = matches!(
        board.log.entries.as_slice(),
        [Entry::PutUser(..), Entry::Unused, Entry::Write(_)]
    );
    drop(board);
    assert!(rt; before.front == 1);
    assert!(rt; before.rows.is_empty());
    assert!(rt; after.front == 3);
    assert!(rt; after.rows.as_slice() == b"3 d1 1-a 0;".as_slice());
    assert!(rt; waiting == 0);
    assert!(rt; are_three);
    Ok(())
}
