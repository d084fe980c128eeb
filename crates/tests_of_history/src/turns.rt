//! Turns in which one entry is stored.

ghost use Rattle.std.specs.Prelude.{◌≡◌, ◌<◌, ◌+◌, ◌^◌, ◌∷◌, [], Some, None, IfOk, OnOk};
ghost use Rattle.sg_history.specs.Board.{board_book};
ghost use Rattle.sg_history.specs.History.{as_sync, as_write};
ghost use Rattle.seq_gate.specs.Counts.{times};
ghost use Rattle.seq_gate.specs.Passes.{share, MayLeave};
ghost use Rattle.tests_of_history.specs.inner.Boards.{board_with, CanStore};
ghost use Rattle.tests_of_history.specs.inner.Passes.{HoldsNothing};

use crate::plain::Plain;
use seq_gate::{Gate, Pass, Turn, close};
use sg_history::Entry;
use sg_history::laws::boards;
use std::alloc::AllocError;
use std::sync::Wait;

/// Stores an entry in a turn, at a number that the pass holds. Out of memory the board is as it was.
fn store_in(turn: &mut Turn<Plain>, number: u64, entry: Entry) -> Result<(), AllocError>
    requires board { board_with turn.old.board.log.entries.list turn.old.board.pending.waiting
        ≡ turn.old.found }
    requires held { 0 < times number turn.old.knows.held }
    requires can { CanStore turn.old.found number entry }
    ensures gate { turn.new.gate ≡ turn.old.gate }
    ensures knows { turn.new.knows ≡ turn.old.knows }
    ensures found { turn.new.found ≡ turn.old.found }
    ensures may { MayLeave turn.new.knows turn.new.found
        (board_with turn.new.board.log.entries.list turn.new.board.pending.waiting) }
    ensures stored { OnOk result (board_book
        (board_with turn.new.board.log.entries.list turn.new.board.pending.waiting) number
        ≡ Some entry) }
{
    boards();
    let board = turn.board();
    if let Err(fault) = board.make_place() {
        drop(entry);
        return Err(fault);
    }
    board.store(number, entry);
    Ok(())
}

/// Stores an entry that is no write in a turn, at the one number that the pass holds.
pub fn store_at<R: Wait>(
    rt: &R,
    gate: &Gate<Plain>,
    pass: Pass<Plain>,
    number: u64,
    entry: Entry,
) -> Result<Pass<Plain>, AllocError>
    requires here { pass.gate ≡ gate.now }
    requires held { pass.knows.held ≡ number ∷ [] }
    requires rooms { pass.knows.rooms ≡ [] }
    requires entry { as_write entry ≡ None }
    requires no_sync { as_sync entry ≡ None }
    ensures gate { IfOk result (λ p. p.gate ≡ pass.gate) }
    ensures left { IfOk result (λ p. p.knows.left ≡ pass.knows.left) }
    ensures knows { IfOk result (λ p. HoldsNothing p.knows (share pass.knows)) }
{
    let mut turn = pass.enter(rt, gate);
    let stored = store_in(&mut turn, number, entry);
    let pass = turn.leave(gate);
    if let Err(fault) = stored {
        drop(pass);
        return Err(fault);
    }
    Ok(pass)
}

/// Draws a number, and then stores an entry that is no write there in a turn.
pub fn draw_and_store<R: Wait>(
    rt: &R,
    gate: &Gate<Plain>,
    pass: Pass<Plain>,
    entry: Entry,
) -> Result<Pass<Plain>, AllocError>
    requires here { pass.gate ≡ gate.now }
    requires left { 0 < pass.knows.left }
    requires nothing { HoldsNothing pass.knows (share pass.knows) }
    requires entry { as_write entry ≡ None }
    requires no_sync { as_sync entry ≡ None }
    ensures gate { IfOk result (λ p. p.gate ≡ pass.gate) }
    ensures left { IfOk result (λ p. p.knows.left + 1 ≡ pass.knows.left) }
    ensures knows { IfOk result (λ p. HoldsNothing p.knows (share pass.knows)) }
{
    let mut pass = pass;
    let number = pass.draw(gate).spend();
    store_at(rt, gate, pass, number, entry)
}

/// Draws a number and stores an entry there, in one turn.
pub fn store_new<R: Wait>(
    rt: &R,
    gate: &Gate<Plain>,
    pass: Pass<Plain>,
    entry: Entry,
) -> Result<Pass<Plain>, AllocError>
    requires here { pass.gate ≡ gate.now }
    requires left { 0 < pass.knows.left }
    requires nothing { HoldsNothing pass.knows (share pass.knows) }
    ensures gate { IfOk result (λ p. p.gate ≡ pass.gate) }
    ensures knows { IfOk result (λ p. HoldsNothing p.knows (share pass.knows)) }
{
    let mut turn = pass.enter(rt, gate);
    let number = turn.draw(gate).spend();
    let stored = store_in(&mut turn, number, entry);
    let pass = turn.leave(gate);
    if let Err(fault) = stored {
        drop(pass);
        return Err(fault);
    }
    Ok(pass)
}

/// The board of a gate with two passes.
pub fn close_both(gate: Gate<Plain>, one: Pass<Plain>, two: Pass<Plain>) -> Plain
    requires one { one.gate ≡ gate }
    requires two { two.gate ≡ gate }
    requires whole { share one.knows + share two.knows ≡ 2 ^ 62 }
    requires first { HoldsNothing one.knows (share one.knows) }
    requires second { HoldsNothing two.knows (share two.knows) }
{
    let mut one = one;
    one.join(&gate, two);
    close(gate, one)
}
