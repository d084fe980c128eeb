//! A proposal turn by turn, at a gate: the board judges the revision in one, the program outside of turns; a room is made in a second; a
//! number is drawn outside of turns; and the write is stored in a third.

ghost use Rattle.std.specs.Prelude.{◌≡◌, ◌≤◌, ◌<◌, ◌∷◌, [], ℕ, Bool, List, Option, Some};
ghost use Rattle.std.specs.Option.{option_copied};
ghost use Rattle.json_doc.specs.Reading.{IsDocument};
ghost use Rattle.json_doc.specs.View.{node_tree};
ghost use Rattle.repl_messages.specs.declared.revision.Revision.{Revision as RevisionValue};
ghost use Rattle.sync_syntax.specs.declared.tree.Program.{Program};
ghost use Rattle.doc_board.specs.Boards.{board_of};
ghost use Rattle.doc_board.specs.Outcomes.{IsWellFormed, bytes_of};
ghost use Rattle.doc_board.specs.State.{State};
ghost use Rattle.write_path.specs.Shared.{IsLookTurn, Rests};
ghost use Rattle.write_path.specs.inner.Turns.{IsAcceptedFor, IsCommitted, IsOvertakenAt, IsProposedInTurns};
ghost use Rattle.board_steps.specs.Tried.{IsDecidedAt, IsJudgedAt};

use crate::shelf::Shelf;
use crate::storing::room_in_turn;
use crate::turns::{draw, draw_in_turn, enter, leave, leave_as_found};
use board_steps::{Accepted, Judged, Ready, Retried, accepted_of, no_room_outcome};
use doc_board::{Outcome, Room};
use json_doc::Doc;
use repl_messages::Revision;
use seq_gate::{Gate, Pass, Turn};
use sg_history::{Name, Number};
use std::alloc::Global;
use std::sync::Wait;
use sync_resolve::Resolved;

/// A turn in which the board judges a revision that is well formed.
fn extension_in_turn<R: Wait>(
    rt: &R,
    gate: &Gate<Shelf>,
    pass: Pass<Shelf>,
    revision: &Revision,
    strict: bool,
    by: Option<&Name>,
) -> (Pass<Shelf>, Result<Judged, Outcome>)
    requires here { pass.gate ≡ gate.now }
    requires rests { Rests pass.knows }
    requires formed { IsWellFormed revision.now }
    ensures gate { result.0.gate ≡ pass.gate }
    ensures judged { (s : State) × IsLookTurn pass.knows result.0.knows (board_of s)
        × IsJudgedAt s strict (option_copied by.entry) revision.now result.1 }
{
    doc_board::laws::after();
    let mut turn = enter(rt, gate, pass);
    let judged = turn.board().extension(revision, strict, by);
    (leave_as_found(gate, turn), judged)
}

/// A turn in which the board judges a revision that is well formed; then the program does, outside of turns.
fn decide<R: Wait>(
    rt: &R,
    gate: &Gate<Shelf>,
    pass: Pass<Shelf>,
    alloc: Global,
    program: &Resolved,
    by: Option<&Name>,
    strict: bool,
    revision: &Revision,
    doc: Doc,
) -> (Pass<Shelf>, Result<Accepted, Outcome>)
    requires here { pass.gate ≡ gate.now }
    requires rests { Rests pass.knows }
    requires formed { IsWellFormed revision.now }
    requires document { IsDocument revision.now.body (node_tree doc) }
    ensures gate { result.0.gate ≡ pass.gate }
    ensures decided { (s : State) × IsLookTurn pass.knows result.0.knows (board_of s)
        × IsDecidedAt s program.now strict (option_copied by.entry) revision.now result.1 }
{
    rev_tree::laws::extensions();
    let (pass, judged) = extension_in_turn(rt, gate, pass, revision, strict, by);
    match judged {
        Ok(judged) => (pass, accepted_of(alloc, program, by, revision, doc, judged)),
        Err(outcome) => {
            drop(doc);
            (pass, Err(outcome))
        }
    }
}

/// Ends a turn in which the document was found written above the number that is held: the write is stored at a fresh number, drawn in
/// the turn, and the other is given up.
fn swap_in_turn(
    gate: &Gate<Shelf>,
    turn: Turn<Shelf>,
    room: Room,
    number: Number,
    ready: Ready,
) -> (Pass<Shelf>, Outcome)
    requires here { turn.gate ≡ gate.now }
    requires left { 0 < turn.knows.left }
    requires given { (program : Program) × (strict : Bool) × (by : Option (List ℕ))
        × (r : RevisionValue) × IsOvertakenAt turn.knows turn.found turn.board.board program strict
        by r room number ready }
    ensures gate { result.0.gate ≡ turn.gate }
    ensures swapped { (program : Program) (strict : Bool) (by : Option (List ℕ))
        (r : RevisionValue) (judged : State)
        → IsOvertakenAt turn.knows turn.found turn.board.board program strict by r room number ready
        → IsCommitted turn.knows result.0.knows judged program strict by r result.1 }
{
    doc_board::laws::after();
    doc_board::laws::boards();
    doc_board::laws::last_writes();
    doc_board::laws::judged_writes();
    pending_front::laws::storing();
    let mut turn = turn;
    let fresh = draw_in_turn(gate, &mut turn);
    let outcome = turn.board().store_at_fresh(room, number, fresh, ready);
    (leave(gate, turn), outcome)
}

/// A turn in which the write of an accepted revision is stored at the number that is held, in the room; or the revision is judged
/// again where its document was written since, and then stored there, or at a fresh number where the document was written above that,
/// or turned down.
fn commit_in_turn<R: Wait>(
    rt: &R,
    gate: &Gate<Shelf>,
    pass: Pass<Shelf>,
    alloc: Global,
    program: &Resolved,
    by: Option<&Name>,
    strict: bool,
    revision: Revision,
    accepted: Accepted,
    room: Room,
    number: Number,
) -> (Pass<Shelf>, Outcome)
    requires here { pass.gate ≡ gate.now }
    requires left { 0 < pass.knows.left }
    requires held { pass.knows.held ≡ number.value ∷ [] }
    requires rooms { pass.knows.rooms ≡ room.made_for ∷ [] }
    requires formed { IsWellFormed revision }
    requires doc { room.made_for.doc ≡ Some revision.doc }
    requires bytes { bytes_of revision ≤ room.made_for.bytes }
    requires accepted { (judged : State) × IsAcceptedFor pass.knows judged program.now strict
        (option_copied by) revision number.value accepted }
    ensures gate { result.0.gate ≡ pass.gate }
    ensures committed { (judged : State)
        → IsAcceptedFor pass.knows judged program.now strict (option_copied by.entry) revision
        number.value accepted
        → IsCommitted pass.knows result.0.knows judged program.now strict (option_copied by.entry)
        revision result.1 }
{
    sg_history::laws::boards();
    doc_board::laws::after();
    doc_board::laws::boards();
    doc_board::laws::last_writes();
    doc_board::laws::judged_writes();
    doc_board::laws::later_boards();
    pending_front::laws::storing();
    let mut turn = enter(rt, gate, pass);
    match turn.board().store_or_retry(
        alloc, program, by, strict, revision, accepted, room, number,
    ) {
        Retried::Answered(outcome) => (leave(gate, turn), outcome),
        Retried::Overtaken {
            room,
            number,
            ready,
        } => swap_in_turn(gate, turn, room, number, ready),
    }
}

/// How many bytes are stored of a revision's body.
fn stored_bytes(revision: &Revision) -> u64
    ensures { result ≡ bytes_of revision.now }
{
    if revision.body.is_empty() {
        return 2;
    }
    revision.body.len() as u64
}

/// Proposes a revision that is well formed, by a pass that rests.
pub(crate) fn propose_in_turns<R: Wait>(
    rt: &R,
    gate: &Gate<Shelf>,
    pass: Pass<Shelf>,
    alloc: Global,
    program: &Resolved,
    by: Option<&Name>,
    strict: bool,
    revision: Revision,
    doc: Doc,
) -> (Pass<Shelf>, Outcome)
    requires here { pass.gate ≡ gate.now }
    requires rests { Rests pass.knows }
    requires left { 2 ≤ pass.knows.left }
    requires formed { IsWellFormed revision }
    requires document { IsDocument revision.body (node_tree doc) }
    ensures gate { result.0.gate ≡ pass.gate }
    ensures proposed { IsProposedInTurns pass.knows result.0.knows program.now strict
        (option_copied by.entry) revision result.1 }
{
    sg_history::laws::boards();
    crate::laws::reads();
    let (pass, decided) = decide(rt, gate, pass, alloc, program, by, strict, &revision, doc);
    let accepted = match decided {
        Ok(accepted) => accepted,
        Err(outcome) => {
            drop(revision);
            return (pass, outcome);
        }
    };
    let at = accepted.at;
    let bytes = stored_bytes(&revision);
    let (mut pass, _front, room) = room_in_turn(rt, gate, pass, Some(&revision.doc), bytes);
    match room {
        Ok(room) => {
            let number = draw(gate, &mut pass);
            commit_in_turn(
                rt, gate, pass, alloc, program, by, strict, revision, accepted, room, number,
            )
        }
        Err(why) => {
            drop(revision);
            drop(accepted);
            (pass, no_room_outcome(at, why))
        }
    }
}
