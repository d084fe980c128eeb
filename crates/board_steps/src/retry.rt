//! The second try of a proposal whose document was written after it was judged.

ghost use Rattle.std.specs.Prelude.{◌≡◌, ◌≢◌, ◌≤◌, ◌<◌, Some, IsTrue};
ghost use Rattle.std.specs.Option.{option_copied};
ghost use Rattle.sg_history.specs.declared.entries.Entry.TheVariants as kinds;
ghost use Rattle.json_doc.specs.Reading.{IsDocument};
ghost use Rattle.json_doc.specs.View.{node_tree};
ghost use Rattle.pending_front.specs.Storing.{MayStore};
ghost use Rattle.doc_board.specs.declared.outcome.Outcome.TheVariants as outcomes;
ghost use Rattle.doc_board.specs.Outcomes.{IsWellFormed, bytes_of};
ghost use Rattle.doc_board.specs.Rooms.{is_outstanding};
ghost use Rattle.doc_board.specs.State.{book_on};
ghost use Rattle.doc_board.specs.Steps.{history_on, swapped_to, with_entry};
ghost use Rattle.board_steps.specs.Retry.{FitsReady, IsHeldReady, IsHeldStored, IsTriedAgain};
ghost use Rattle.sg_history.specs.Rooms.{without_room};

use crate::fresh::commit_fresh;
use crate::propose::judge;
use doc_board::{Board, Candidate, Commit, Outcome, Room};
use json_doc::Doc;
use repl_messages::Revision;
use rev_tree::Tree;
use sg_history::{Name, Number, Write};
use std::alloc::Global;
use sync_resolve::Resolved;

/// A write that the board judged in this turn, with its document's tree after it and the number of the document's last write.
#[derive(Drop)]
pub struct Ready {
    pub entry: Write,
    pub tree: Tree,
    pub base: u64,
}

/// What comes of a second try.
pub enum Retried {
    /// The revision is answered, and the number that was held is the write's, or stays unused.
    Answered(Outcome),
    /// The document was written above the number that is held: the write is to be stored at a fresh one.
    Overtaken {
        room: Room,
        number: Number,
        ready: Ready,
    },
}

/// Stores a write at the number that is held, in its room, where that is above the document's last write.
fn store_held(board: &mut Board, room: Room, number: Number, ready: Ready) -> Retried
    requires number { MayStore board.old.log board.old.pending number.value }
    requires out { IsTrue (is_outstanding board.old.rooms room.made_for) }
    requires fits { FitsReady room.made_for ready }
    requires ready { IsHeldReady board.old ready }
    ensures { IsHeldStored board.old board.new room number ready result }
{
    if ready.base >= number.value {
        return Retried::Overtaken {
            room,
            number,
            ready,
        };
    }
    let Ready { entry, tree, base } = ready;
    let at = entry.at;
    let sequence = commit_fresh(board, room, number, Candidate::Write { entry, tree, base });
    Retried::Answered(Outcome::Stored { sequence, at })
}

/// Tries a revision again whose document was written after it was judged: takes the snapshot anew in this turn, judges, and
/// stores the write at the number that is held, in its room; or gives the number up where the revision is turned down. Where the
/// document was written above the number, all is handed back, for a fresh one.
pub fn propose_again(
    alloc: Global,
    board: &mut Board,
    program: &Resolved,
    by: Option<&Name>,
    strict: bool,
    revision: Revision,
    doc: Doc,
    room: Room,
    number: Number,
) -> Retried
    requires formed { IsWellFormed revision }
    requires document { IsDocument revision.body (node_tree doc) }
    requires number { MayStore board.old.log board.old.pending number.value }
    requires out { IsTrue (is_outstanding board.old.rooms room.made_for) }
    requires doc { room.made_for.doc ≡ Some revision.doc }
    requires bytes { bytes_of revision ≤ room.made_for.bytes }
    ensures { IsTriedAgain board.old board.new program.now strict (option_copied by.entry)
        revision room number result }
{
    match judge(alloc, board, program, by, strict, revision, doc) {
        Ok(ready) => store_held(board, room, number, ready),
        Err(outcome) => {
            board.void(room, number);
            Retried::Answered(outcome)
        }
    }
}

/// Stores a write that has overtaken its number at a fresh one, in its room, and gives the other up.
pub fn store_at_fresh(
    board: &mut Board,
    room: Room,
    number: Number,
    fresh: Number,
    ready: Ready,
) -> Outcome
    requires spent { MayStore board.old.log board.old.pending number.value }
    requires fresh { MayStore board.old.log board.old.pending fresh.value }
    requires apart { number.value ≢ fresh.value }
    requires out { IsTrue (is_outstanding board.old.rooms room.made_for) }
    requires fits { FitsReady room.made_for ready }
    requires ready { IsHeldReady board.old ready }
    requires above { ready.base < fresh.value }
    ensures answer { result ≡ outcomes.Stored fresh.value ready.entry.at }
    ensures stored { history_on board.new ≡ swapped_to board.old number.value fresh.value
        (kinds.Write ready.entry) }
    ensures book { book_on board.new ≡ with_entry fresh.value (kinds.Write ready.entry)
        (with_entry number.value kinds.Unused (book_on board.old)) }
    ensures rooms { board.new.rooms ≡ without_room room.made_for board.old.rooms }
    ensures checkpoints { board.new.checkpoints ≡ board.old.checkpoints }
{
    let Ready { entry, tree, base } = ready;
    match board.swap_commit(room, number, fresh, Candidate::Write { entry, tree, base }) {
        Commit::Stored { sequence, at } => Outcome::Stored { sequence, at },
        Commit::Stale {
            room,
            number,
            candidate,
            last: _last,
        } => {
            drop(candidate);
            board.void(room, number);
            unreachable!()
        }
    }
}
