//! Candidates whose documents were not written since they were made.

ghost use Rattle.std.specs.Prelude.{◌≡◌, ◌+◌, ◌++◌, ◌∷◌, [], false, length, IsTrue};
ghost use Rattle.pending_front.specs.Storing.{MayStore};
ghost use Rattle.doc_board.specs.Candidates.{Fits, MayBeStored, entry_of, is_stale};
ghost use Rattle.doc_board.specs.Rooms.{is_outstanding};
ghost use Rattle.doc_board.specs.State.{book_on};
ghost use Rattle.doc_board.specs.Steps.{history_on, stored_at, with_entry};
ghost use Rattle.sg_history.specs.Rooms.{without_room};

use doc_board::laws::alone;
use doc_board::{Board, Candidate, Commit, Room};
use sg_history::Number;

/// Stores a candidate that is not stale at a number, in its room: the number.
pub fn commit_fresh(board: &mut Board, room: Room, number: Number, candidate: Candidate) -> u64
    requires number { MayStore board.old.log board.old.pending number.value }
    requires out { IsTrue (is_outstanding board.old.rooms room.made_for) }
    requires fits { Fits room.made_for candidate }
    requires candidate { MayBeStored board.old number.value candidate }
    requires fresh { is_stale board.old candidate ≡ false }
    ensures sequence { result ≡ number.value }
    ensures stored { history_on board.new ≡ stored_at board.old number.value (entry_of candidate) }
    ensures book { book_on board.new
        ≡ with_entry number.value (entry_of candidate) (book_on board.old) }
    ensures rooms { board.new.rooms ≡ without_room room.made_for board.old.rooms }
    ensures checkpoints { board.new.checkpoints ≡ board.old.checkpoints }
{
    match board.commit(room, number, candidate) {
        Commit::Stored { sequence, at: _at } => sequence,
        Commit::Stale {
            room,
            number,
            candidate,
            last: _last,
        } => {
            drop(candidate);
            board.void(room, number);
            unreachable!()
        }
    }
}

/// Stores a candidate that is not stale in its room, which alone is outstanding, at the number next to the log's end: its sequence.
pub(crate) fn put_next(board: &mut Board, room: Room, candidate: Candidate) -> u64
    requires pending { board.old.pending ≡ [] }
    requires rooms { board.old.rooms ≡ room.made_for ∷ [] }
    requires fits { Fits room.made_for candidate }
    requires candidate { MayBeStored board.old (length board.old.log + 1) candidate }
    requires fresh { is_stale board.old candidate ≡ false }
    ensures sequence { result ≡ length board.old.log + 1 }
    ensures log { board.new.log ≡ board.old.log ++ entry_of candidate ∷ [] }
    ensures pending { board.new.pending ≡ [] }
    ensures rooms { board.new.rooms ≡ [] }
    ensures checkpoints { board.new.checkpoints ≡ board.old.checkpoints }
{
    alone();
    let number = Number::new(board.front() + 1);
    commit_fresh(board, room, number, candidate)
}
