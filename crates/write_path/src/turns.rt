//! Turns at a gate with a shelf behind it.

ghost use Rattle.std.specs.Prelude.{◌≡◌, ◌<◌};
ghost use Rattle.sg_history.specs.Board.{board_book};
ghost use Rattle.seq_gate.specs.Passes.{Finds, IsAboveBook, IsNew, MayLeave, after_turn, drawn, drawn_in_turn};
ghost use Rattle.write_path.specs.Shared.{IsLookTurn, Rests};
ghost use Rattle.write_path.specs.Shelf.{shelf_state};

use crate::shelf::Shelf;
use seq_gate::{Gate, Pass, Turn};
use sg_history::Number;
use std::sync::Wait;

/// Waits for a pass's turn.
pub(crate) fn enter<R: Wait>(rt: &R, gate: &Gate<Shelf>, pass: Pass<Shelf>) -> Turn<Shelf>
    requires here { pass.gate ≡ gate.now }
    ensures gate { result.gate ≡ pass.gate }
    ensures knows { result.knows ≡ pass.knows }
    ensures finds { Finds pass.knows result.found }
    ensures board { shelf_state result.board ≡ result.found }
{
    pass.enter(rt, gate)
}

/// Draws a number outside of turns.
pub(crate) fn draw(gate: &Gate<Shelf>, pass: &mut Pass<Shelf>) -> Number
    requires here { pass.old.gate ≡ gate.now }
    requires left { 0 < pass.old.knows.left }
    ensures gate { pass.new.gate ≡ pass.old.gate }
    ensures knows { pass.new.knows ≡ drawn pass.old.knows result.value }
    ensures fresh { IsNew pass.old.knows result.value }
{
    pass.draw(gate)
}

/// Draws a number in a turn.
pub(crate) fn draw_in_turn(gate: &Gate<Shelf>, turn: &mut Turn<Shelf>) -> Number
    requires here { turn.old.gate ≡ gate.now }
    requires left { 0 < turn.old.knows.left }
    ensures gate { turn.new.gate ≡ turn.old.gate }
    ensures found { turn.new.found ≡ turn.old.found }
    ensures board { turn.new.board ≡ turn.old.board }
    ensures knows { turn.new.knows ≡ drawn_in_turn turn.old.knows result.value }
    ensures fresh { IsNew turn.old.knows result.value }
    ensures above { IsAboveBook result.value (board_book turn.old.found) }
{
    turn.draw(gate)
}

/// Ends a turn.
pub(crate) fn leave(gate: &Gate<Shelf>, turn: Turn<Shelf>) -> Pass<Shelf>
    requires here { turn.gate ≡ gate.now }
    requires may { MayLeave turn.knows turn.found (shelf_state turn.board) }
    ensures gate { result.gate ≡ turn.gate }
    ensures knows { result.knows ≡ after_turn turn.knows turn.found (shelf_state turn.board) }
{
    turn.leave(gate)
}

/// Ends a turn in which the board was left as it was found, of a pass that holds no number and no room.
pub(crate) fn leave_as_found(gate: &Gate<Shelf>, turn: Turn<Shelf>) -> Pass<Shelf>
    requires here { turn.gate ≡ gate.now }
    requires rests { Rests turn.knows }
    requires finds { Finds turn.knows turn.found }
    requires same { shelf_state turn.board ≡ turn.found }
    ensures gate { result.gate ≡ turn.gate }
    ensures looked { IsLookTurn turn.knows result.knows turn.found }
{
    sg_history::laws::boards();
    seq_gate::laws::turns();
    leave(gate, turn)
}
