//! A revision that was accepted by an earlier board, stored at a number that is held.

ghost use Rattle.std.specs.Prelude.{◌≡◌, ◌≤◌, Some, IsTrue};
ghost use Rattle.std.specs.Option.{option_copied};
ghost use Rattle.pending_front.specs.Storing.{MayStore};
ghost use Rattle.doc_board.specs.Outcomes.{IsWellFormed, bytes_of};
ghost use Rattle.doc_board.specs.Rooms.{is_outstanding};
ghost use Rattle.doc_board.specs.State.{State};
ghost use Rattle.board_steps.specs.Tried.{IsTried, WasAccepted};

use crate::accepted::{Accepted, ready_with};
use crate::fresh::commit_fresh;
use crate::judging::document_in;
use crate::retry::{Ready, Retried, propose_again};
use doc_board::{Board, Candidate, Outcome, Room};
use repl_messages::Revision;
use sg_history::{Name, Number};
use std::alloc::Global;
use sync_resolve::Resolved;

/// Stores the write of an accepted revision at the number that is held, in its room; or, where its document was written since
/// it was judged, tries it again.
pub fn store_or_retry(
    alloc: Global,
    board: &mut Board,
    program: &Resolved,
    by: Option<&Name>,
    strict: bool,
    revision: Revision,
    accepted: Accepted,
    room: Room,
    number: Number,
) -> Retried
    requires formed { IsWellFormed revision }
    requires number { MayStore board.old.log board.old.pending number.value }
    requires out { IsTrue (is_outstanding board.old.rooms room.made_for) }
    requires doc { room.made_for.doc ≡ Some revision.doc }
    requires bytes { bytes_of revision ≤ room.made_for.bytes }
    requires accepted { (judged : State) × WasAccepted judged board.old program.now strict
        (option_copied by) revision number.value accepted }
    ensures { (judged : State)
        → WasAccepted judged board.old program.now strict (option_copied by.entry) revision
        number.value accepted
        → IsTried judged board.old board.new program.now strict (option_copied by.entry) revision
        room number result }
{
    doc_board::laws::winners();
    doc_board::laws::boards();
    doc_board::laws::later_boards();
    let _ = board.log();
    if board.last_write(&revision.doc) == accepted.base {
        let Ready { entry, tree, base } = ready_with(revision, accepted);
        let at = entry.at;
        let candidate = Candidate::Write { entry, tree, base };
        let sequence = commit_fresh(board, room, number, candidate);
        return Retried::Answered(Outcome::Stored { sequence, at });
    }
    drop(accepted);
    match document_in(alloc, revision.body.as_slice()) {
        Ok(Some(doc)) => {
            propose_again(
                alloc, board, program, by, strict, revision, doc, room, number,
            )
        }
        Ok(None) => unreachable!(),
        Err(_) => {
            drop(revision);
            board.void(room, number);
            Retried::Answered(Outcome::Memory507)
        }
    }
}
