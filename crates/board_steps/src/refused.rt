//! The outcome of what there is no room for.

ghost use Rattle.std.specs.Prelude.{◌≡◌};
ghost use Rattle.board_steps.specs.Shape.{no_room_outcome};

use doc_board::{NoRoom, Outcome};

/// The outcome of a revision or a command that there is no room for, at this front.
pub fn no_room_outcome(at: u64, why: NoRoom) -> Outcome
    ensures { result ≡ no_room_outcome at why }
{
    match why {
        NoRoom::Full503 { places } => Outcome::Full503 { at, places },
        NoRoom::LogFull509 { entries, bytes } => Outcome::LogFull509 { at, entries, bytes },
        NoRoom::Memory => Outcome::Memory507,
    }
}
