//! Recorded sessions, as sessions that are to be served.

ghost use Rattle.std.specs.Prelude.{◌≡◌, [], IfOk, map};
ghost use Rattle.replay.specs.Replay.{device_of};

use doc_board::Board;
use record_file::Recorded;
use repl_messages::Version;
use session_threads::Sessions;
use sg_history::Name;
use sg_outside::{MemWire, Memory, Wire};
use std::alloc::Global;
use write_path::Shelf;

/// Whose sessions they are, in order.
pub fn users_of(alloc: Global, sessions: &[Recorded]) -> Result<Vec<Name>, Memory>
    ensures { IfOk result (λ users. users.items ≡ map (λ r. r.user) sessions.now) }
{
    let mut users = Vec::new(alloc);
    for recorded in sessions {
        users.push(recorded.user.copy(alloc)?)?;
    }
    Ok(users)
}

/// A recorded session, with a wire that gives what was recorded.
fn session_of(alloc: Global, recorded: Recorded) -> Result<(Name, Version, MemWire), Memory>
    ensures { IfOk result (λ s. record {
      user = s.0;
      version = s.1;
      traffic = ⟦<MemWire as Wire>⟧.recorded s.2;
      faults = ⟦<MemWire as Wire>⟧.faults s.2;
    } ≡ device_of recorded) }
{
    let Recorded {
        user,
        version,
        items,
    } = recorded;
    match items.into_wire(alloc) {
        Ok(wire) => Ok((user, version, wire)),
        Err(fault) => {
            drop(user);
            Err(fault)
        }
    }
}

/// The recorded sessions, in order.
pub fn sessions_of(alloc: Global, recorded: Vec<Recorded>) -> Result<Sessions<MemWire>, Memory>
    ensures { IfOk result (λ sessions. map (λ s. record {
      user = s.0;
      version = s.1;
      traffic = ⟦<MemWire as Wire>⟧.recorded s.2;
      faults = ⟦<MemWire as Wire>⟧.faults s.2;
    }) sessions ≡ map device_of recorded.items) }
{
    let mut sessions = Vec::new(alloc);
    for one in recorded {
        sessions.push(session_of(alloc, one)?)?;
    }
    Ok(Sessions::from_vec(sessions))
}

/// The shelf without entries.
pub fn empty_shelf(alloc: Global) -> Result<Shelf, Memory>
    ensures empty { IfOk result (λ shelf. shelf.board.log ≡ []) }
    ensures pending { IfOk result (λ shelf. shelf.board.pending ≡ []) }
    ensures rooms { IfOk result (λ shelf. shelf.board.rooms ≡ []) }
{
    Shelf::new(Board::new(alloc)?)
}
