//! Turns in which a pass changes a board: for a room, for the entry of a command, and for a checkpoint.

ghost use Rattle.std.specs.Prelude.{◌≡◌, ◌≤◌, ◌+◌, ◌∷◌, [], false, length, None};
ghost use Rattle.std.specs.Option.{option_copied};
ghost use Rattle.checkpoint_store.specs.Checkpoints.{checkpoint_text};
ghost use Rattle.sg_history.specs.Journal.{IsEntry};
ghost use Rattle.principals.specs.Script.{entry_of};
ghost use Rattle.seq_gate.specs.Counts.{is_unused};
ghost use Rattle.seq_gate.specs.Passes.{share};
ghost use Rattle.doc_board.specs.Candidates.{IsPlain};
ghost use Rattle.doc_board.specs.Rooms.{room_for};
ghost use Rattle.doc_board.specs.State.{State};
ghost use Rattle.write_path.specs.Checkpoints.{IsSetTurn};
ghost use Rattle.write_path.specs.Commands.{Commands};
ghost use Rattle.write_path.specs.Shared.{Rests};
ghost use Rattle.write_path.specs.inner.Turns.{IsRoomedTurn, IsStoreTurn};

use crate::shelf::Shelf;
use crate::turns::{draw, enter, leave, leave_as_found};
use board_steps::no_room_outcome;
use doc_board::{NoRoom, Outcome, Room, SetAnswer};
use principals::Command;
use seq_gate::{Gate, Pass};
use sg_history::{Client, DocId, Entry, Name, Number};
use sg_outside::Bytes;
use std::sync::Wait;

/// A turn for a room: the length of the log, and the room or why there is none.
pub(crate) fn room_in_turn<R: Wait>(
    rt: &R,
    gate: &Gate<Shelf>,
    pass: Pass<Shelf>,
    doc: Option<&DocId>,
    bytes: u64,
) -> (Pass<Shelf>, u64, Result<Room, NoRoom>)
    requires here { pass.gate ≡ gate.now }
    requires rests { Rests pass.knows }
    requires bytes { bytes ≤ 20971520 }
    ensures gate { result.0.gate ≡ pass.gate }
    ensures room { IsRoomedTurn pass.knows result.0.knows (room_for (option_copied doc.entry) bytes)
        result.1 result.2 }
{
    doc_board::laws::after();
    let mut turn = enter(rt, gate, pass);
    let (at, room) = turn.board().room(doc, bytes);
    match room {
        Ok(room) => (leave(gate, turn), at, Ok(room)),
        Err(why) => (leave_as_found(gate, turn), at, Err(why)),
    }
}

/// A turn in which an entry that neither writes nor replaces the sync function is stored at the number that is held, in the room: its sequence.
pub(crate) fn store_in_turn<R: Wait>(
    rt: &R,
    gate: &Gate<Shelf>,
    pass: Pass<Shelf>,
    room: Room,
    number: Number,
    entry: Entry,
) -> (Pass<Shelf>, u64)
    requires here { pass.gate ≡ gate.now }
    requires held { pass.knows.held ≡ number.value ∷ [] }
    requires rooms { pass.knows.rooms ≡ room.made_for ∷ [] }
    requires fits { room.made_for.doc ≡ None }
    requires entry { IsEntry entry }
    requires plain { IsPlain entry }
    requires used { is_unused entry ≡ false }
    ensures gate { result.0.gate ≡ pass.gate }
    ensures sequence { result.1 ≡ number.value }
    ensures stored { (s : State) × (t : State)
        × IsStoreTurn pass.knows result.0.knows s t number.value entry }
{
    doc_board::laws::after();
    pending_front::laws::storing();
    let mut turn = enter(rt, gate, pass);
    let sequence = turn.board().store_plain(room, number, entry);
    (leave(gate, turn), sequence)
}

/// Puts or drops a user or a role: one turn for a room, a draw, and one turn in which the entry is stored.
pub(crate) fn command_in_turns<R: Wait>(
    rt: &R,
    gate: &Gate<Shelf>,
    pass: Pass<Shelf>,
    command: Command,
) -> (Pass<Shelf>, Outcome)
    requires here { pass.gate ≡ gate.now }
    requires rests { Rests pass.knows }
    requires left { 2 ≤ pass.knows.left }
    requires entry { IsEntry (entry_of command) }
    ensures gate { result.0.gate ≡ pass.gate }
    ensures rests { Rests result.0.knows }
    ensures commands { Commands pass.knows.read result.0.knows.read pass.knows.lowest_front
        result.0.knows.lowest_front pass.knows.own result.0.knows.own None (entry_of command)
        result.1 }
    ensures share { share result.0.knows ≡ share pass.knows }
    ensures least { result.0.knows.left ≤ pass.knows.left }
    ensures most { pass.knows.left ≤ result.0.knows.left + 2 }
    // No number is drawn in a turn.
    ensures in_turns { result.0.knows.in_turns ≡ pass.knows.in_turns }
    ensures turns { length pass.knows.read + 2 ≤ length result.0.knows.read }
{
    sg_history::laws::boards();
    crate::laws::reads();
    let (mut pass, at, room) = room_in_turn(rt, gate, pass, None, 0);
    match room {
        Ok(room) => {
            let number = draw(gate, &mut pass);
            let entry = command.into_entry();
            let (pass, sequence) = store_in_turn(rt, gate, pass, room, number, entry);
            (pass, Outcome::Stored { sequence, at })
        }
        Err(why) => {
            drop(command);
            (pass, no_room_outcome(at, why))
        }
    }
}

/// A turn in which the checkpoint of a user's client is set.
pub(crate) fn set_in_turn<R: Wait>(
    rt: &R,
    gate: &Gate<Shelf>,
    pass: Pass<Shelf>,
    user: &Name,
    client: &Client,
    rev: u64,
    body: Bytes,
) -> (Pass<Shelf>, SetAnswer)
    requires here { pass.gate ≡ gate.now }
    requires rests { Rests pass.knows }
    ensures gate { result.0.gate ≡ pass.gate }
    ensures set { IsSetTurn pass.knows result.0.knows (checkpoint_text user.now client.now) rev body
        result.1 }
{
    doc_board::laws::after();
    let mut turn = enter(rt, gate, pass);
    let answer = turn.board().set_checkpoint(user, client, rev, body);
    (leave(gate, turn), answer)
}
