//! Commands: users and roles are put and dropped.

ghost use Rattle.std.specs.Prelude.{◌≡◌, []};
ghost use Rattle.sg_history.specs.Journal.{IsEntry};
ghost use Rattle.principals.specs.Script.{entry_of};
ghost use Rattle.doc_board.specs.Boards.{board_of};
ghost use Rattle.doc_board.specs.Outcomes.{IsByLimits};
ghost use Rattle.board_steps.specs.After.{IsBoardCommanded};

use crate::fresh::put_next;
use crate::refused::no_room_outcome;
use doc_board::{Board, Candidate, Outcome};
use principals::Command;

/// Puts or drops a user or a role: the command's entry is stored at the end of the log, unless the board has no room for it.
pub fn command_to(board: &mut Board, command: Command) -> Outcome
    requires pending { board.old.pending ≡ [] }
    requires rooms { board.old.rooms ≡ [] }
    requires entry { IsEntry (entry_of command) }
    ensures board { IsBoardCommanded board.old board.new (entry_of command) result }
    ensures limits { IsByLimits 0 (board_of board.old) result }
{
    let at = board.front();
    match board.room(None, 0) {
        Ok(room) => {
            let entry = Candidate::Plain(command.into_entry());
            let sequence = put_next(board, room, entry);
            Outcome::Stored { sequence, at }
        }
        Err(why) => {
            drop(command);
            no_room_outcome(at, why)
        }
    }
}
