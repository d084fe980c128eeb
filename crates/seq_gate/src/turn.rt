//! Turns of passes.

ghost use Rattle.std.specs.Prelude.{◌≡◌, ◌<◌};
ghost use Rattle.std.specs.Borrow.{sem};
ghost use Rattle.sg_history.specs.Board.{board_book};
ghost use Rattle.seq_gate.specs.Lending.{LendsBoard};
ghost use Rattle.seq_gate.specs.Passes.{drawn_in_turn, after_turn, IsNew, IsAboveBook, StoresHeld, MayLeave};

use crate::gate::Gate;
use crate::kept::Kept;
use crate::known::View;
use crate::pass::Pass;
use crate::steps::{DrawInTurn, PassOn, Raise};
use atomic_table::Seat;
use sg_history::Number;
use sg_history::laws::boards;
use std::marker::Model;

/// A pass in its turn, with the board. One that is dropped takes the board with it, and the next ticket is never served.
#[derive(Drop)]
pub struct Turn<B: Drop> {
    pub(crate) seat: Seat<Option<B>, View>,
    pub(crate) left: u64,
    pub(crate) board: B,
}

impl<B: Drop> Model for Turn<B> {
    ghost use Rattle.seq_gate.specs.Resting.{IsServed, found_of};
    ghost use Rattle.seq_gate.specs.Views.{TurnView};

    ghost Value = { TurnView B };

    ghost view = { λ t. record { gate = t.seat.table_id; knows = t.seat.me.0.knows; found = found_of t.seat.me.0.found; board = t.board } };

    ghost invariant = { λ t. IsServed t.seat.me t.left };
}

impl<B: Drop> Turn<B> {
    /// The board.
    pub fn board(&mut self) -> &mut B
        ensures value { result.now ≡ self.old.board }
        ensures* writes_back { sem 𝓛 (LendsBoard B.row self.entry result) }
    {
        &mut self.board
    }
}

impl<B: Kept> Turn<B> {
    /// Draws a number in the turn, by one step. Waits for nobody, and allocates nothing.
    pub fn draw(&mut self, gate: &Gate<B>) -> Number
        requires here { self.old.gate ≡ gate.now }
        requires left { 0 < self.old.knows.left }
        ensures gate { self.new.gate ≡ self.old.gate }
        ensures found { self.new.found ≡ self.old.found }
        ensures board { self.new.board ≡ self.old.board }
        ensures knows { self.new.knows ≡ drawn_in_turn self.old.knows result.value }
        ensures fresh { IsNew self.old.knows result.value }
        ensures above { IsAboveBook result.value (board_book self.old.found) }
        ensures hand { StoresHeld self.old.knows self.old.found (B.seen self.old.board)
            → IsAboveBook result.value (board_book (B.seen self.old.board)) }
    {
        let last = gate
            .table
            .shared
            .fetch_add::<DrawInTurn>(&mut self.seat, 0, 1);
        self.left -= 1;
        Number::new(last + 1)
    }

    /// Gives the board back, raises the front to the length of its log, and passes the turn on. Waits for nobody, and allocates
    /// nothing.
    pub fn leave(self, gate: &Gate<B>) -> Pass<B>
        requires here { self.gate ≡ gate.now }
        requires may { MayLeave self.knows self.found (B.seen self.board) }
        ensures gate { result.gate ≡ self.gate }
        ensures knows { result.knows ≡ after_turn self.knows self.found (B.seen self.board) }
    {
        boards();
        let Turn {
            mut seat,
            left,
            board,
        } = self;
        let front = board.front();
        let _none = gate.table.shared.exchange(&mut seat, 0, Some(board));
        let _raised = gate.table.shared.fetch_max::<Raise>(&mut seat, 3, front);
        let _served = gate.table.shared.fetch_add::<PassOn>(&mut seat, 2, 1);
        gate.wake();
        Pass { seat, left }
    }
}
