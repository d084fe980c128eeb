//! The second try of a proposal whose document was written above the number that it holds.

ghost use Rattle.std.specs.Prelude.{◌≡◌, ◌≢◌, [], IfSome, IsTrue};
ghost use Rattle.sg_names.specs.RevId as names;
ghost use Rattle.pending_front.specs.Storing.{MayStore};
ghost use Rattle.doc_board.specs.Rooms.{is_outstanding};
ghost use Rattle.board_steps.specs.Retry.{FitsReady, IsHeldReady};
ghost use Rattle.tests_of_boards.specs.inner.Again.{IsReadyAfter, Leaves};

use crate::programs::open;
use board_steps::{Ready, Retried, propose_again, store_at_fresh};
use doc_board::{Board, Candidate, Commit, Outcome, Room};
use json_doc::read_doc;
use repl_messages::Revision;
use sg_history::{DocId, Number, RevId, Revs, TextFault};
use sg_outside::Bytes;
use std::alloc::Global;
use std::test::Fail;
use write_path::Resolved;

fn is_rev(rev: &RevId) -> bool
    ensures { result ≡ names.is_rev rev.now }
{
    let _ = rev.digest.as_bytes();
    rev.generation >= 1
}

/// Tries a first revision of a document again, with a number that is held, in a room that is made for it.
fn tried(
    alloc: Global,
    board: &mut Board,
    program: &Resolved,
    doc: DocId,
    rev: RevId,
    number: u64,
) -> Option<Retried>
    requires { MayStore board.old.log board.old.pending number }
    ensures { IfSome result (Leaves board.old board.new number) }
{
    let _ = doc.as_str();
    if !is_rev(&rev) {
        return None;
    }
    let Ok(body) = Bytes::from_slice(alloc, b"{}") else {
        return None;
    };
    let Ok(document) = read_doc(alloc, body.as_slice()) else {
        return None;
    };
    let Ok(room) = board.room(Some(&doc), 2) else {
        return None;
    };
    let number = Number::new(number);
    let revision = Revision {
        doc,
        rev,
        ancestors: Revs::new(alloc),
        deleted: false,
        noconflicts: false,
        body,
    };
    Some(propose_again(
        alloc, board, program, None, false, revision, document, room, number,
    ))
}

/// Stores at 5 what was handed back, after the document's last write, where that is below 5.
fn at_five(
    board: &mut Board,
    room: Room,
    number: Number,
    candidate: Candidate,
    last: u64,
) -> Option<Outcome>
    requires number { MayStore board.old.log board.old.pending number.value }
    requires five { MayStore board.old.log board.old.pending 5 }
    requires apart { number.value ≢ 5 }
    requires out { IsTrue (is_outstanding board.old.rooms room.made_for) }
    requires ready { IsReadyAfter board.old room.made_for last candidate }
{
    let Candidate::Write {
        entry,
        tree,
        base: _base,
    } = candidate
    else {
        board.void(room, number);
        return None;
    };
    if last >= 5 {
        drop(entry);
        drop(tree);
        board.void(room, number);
        return None;
    }
    let ready = Ready {
        entry,
        tree,
        base: last,
    };
    Some(store_at_fresh(board, room, number, Number::new(5), ready))
}

/// What a board answers to a write as if its document had never been written, and then at 5.
#[derive(Drop)]
struct Passed {
    /// The document's last write, for which all is handed back.
    last: u64,
    /// The front then.
    front: u64,
    /// The outcome at 5.
    outcome: Option<Outcome>,
}

/// Commits a write as if its document, which was written, never had been, and stores what is handed back at 5.
fn made_stale(board: &mut Board, room: Room, number: Number, ready: Ready) -> Option<Passed>
    requires number { MayStore board.old.log board.old.pending number.value }
    requires five { MayStore board.old.log board.old.pending 5 }
    requires apart { number.value ≢ 5 }
    requires out { IsTrue (is_outstanding board.old.rooms room.made_for) }
    requires fits { FitsReady room.made_for ready }
    requires ready { IsHeldReady board.old ready }
{
    let Ready { entry, tree, base } = ready;
    if base == 0 {
        board.void(room, number);
        return None;
    }
    let candidate = Candidate::Write {
        entry,
        tree,
        base: 0,
    };
    match board.commit(room, number, candidate) {
        Commit::Stored {
            sequence: _sequence,
            at: _at,
        } => None,
        Commit::Stale {
            room,
            number,
            candidate,
            last,
        } => {
            let front = board.front();
            let outcome = at_five(board, room, number, candidate, last);
            Some(Passed {
                last,
                front,
                outcome,
            })
        }
    }
}

/// Tries a revision with 3, which the document's last write has passed, and stores it at 5.
fn overtaken(
    alloc: Global,
    board: &mut Board,
    program: &Resolved,
    doc: DocId,
    rev: RevId,
) -> Option<Passed>
    requires three { MayStore board.old.log board.old.pending 3 }
    requires five { MayStore board.old.log board.old.pending 5 }
{
    match tried(alloc, board, program, doc, rev, 3) {
        None => None,
        Some(Retried::Answered(_)) => None,
        Some(
            Retried::Overtaken {
                room,
                number,
                ready,
            },
        ) => made_stale(board, room, number, ready),
    }
}

/// The outcome of a revision of a document with 4, and what comes of another one with 3.
fn both(
    alloc: Global,
    board: &mut Board,
    program: &Resolved,
    docs: (DocId, DocId),
    revs: (RevId, RevId),
) -> Option<(Outcome, Option<Passed>)>
    requires log { board.old.log ≡ [] }
    requires pending { board.old.pending ≡ [] }
{
    match tried(alloc, board, program, docs.0, revs.0, 4) {
        None => None,
        Some(Retried::Answered(first)) => {
            Some((first, overtaken(alloc, board, program, docs.1, revs.1)))
        }
        Some(
            Retried::Overtaken {
                room,
                number,
                ready,
            },
        ) => {
            drop(ready);
            board.void(room, number);
            None
        }
    }
}

/// The same document, twice.
fn docs(alloc: Global) -> Result<(DocId, DocId), TextFault> {
    Ok((DocId::parse(alloc, "d1")?, DocId::parse(alloc, "d1")?))
}

/// Two first revisions.
fn revs(alloc: Global) -> Result<(RevId, RevId), TextFault> {
    Ok((RevId::parse(alloc, "1-b")?, RevId::parse(alloc, "1-a")?))
}

/// What comes of both on an empty board, and the front after them.
fn both_on(
    alloc: Global,
    board: &mut Board,
    program: &Resolved,
) -> Result<(Option<(Outcome, Option<Passed>)>, u64), TextFault>
    requires log { board.old.log ≡ [] }
    requires pending { board.old.pending ≡ [] }
{
    let docs = docs(alloc)?;
    let revs = revs(alloc)?;
    let outcomes = both(alloc, board, program, docs, revs);
    Ok((outcomes, board.front()))
}

/// Whether a revision was stored at a sequence, at once.
fn is_stored(outcome: &Outcome, number: u64) -> bool {
    match outcome {
        Outcome::Stored { sequence, at } => *sequence == number && *at == 0,
        _ => false,
    }
}

/// Whether a write was handed back for the document's write at 4, and stored at 5.
fn is_passed(passed: &Passed) -> bool {
    match &passed.outcome {
        Some(outcome) => passed.last == 4 && passed.front == 0 && is_stored(outcome, 5),
        None => false,
    }
}

/// Whether the first revision was stored at 4, and the other one at 5.
fn are_stored(outcomes: &Option<(Outcome, Option<Passed>)>) -> bool {
    match outcomes {
        Some((first, Some(passed))) => is_stored(first, 4) && is_passed(passed),
        _ => false,
    }
}

/// At a new board a revision is stored at 4, and of another one of the same document, with 3, that is known; then it is stored at 5. The
/// front stays, since the first number is held.
pub fn passes_a_number(alloc: Global, board: &mut Board) -> Result<bool, Fail>
    requires log { board.old.log ≡ [] }
    requires pending { board.old.pending ≡ [] }
{
    let program = open(alloc)?;
    let outcomes = both_on(alloc, board, &program);
    drop(program);
    let (outcomes, front) = outcomes?;
    let stored = are_stored(&outcomes);
    drop(outcomes);
    Ok(stored && front == 0)
}
