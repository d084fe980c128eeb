//! Tests that begin with a new board. One function holds it, since each one that does has its drop proved.

ghost use Rattle.std.specs.Prelude.{◌≡◌, []};

use crate::checkpoints::fills_checkpoints;
use crate::tries::passes_a_number;
use crate::waiting::{asks_too_much, ends_with_the_lowest, holds_a_number};
use doc_board::Board;
use std::alloc::Global;
use std::test::Fail;

/// What is tried at a new board.
#[derive(Clone, Copy)]
enum Case {
    LowestLast,
    Held,
    TooMuch,
    Passed,
    Checkpoints,
}

fn goes_right_at(alloc: Global, board: &mut Board, case: Case) -> Result<bool, Fail>
    requires log { board.old.log ≡ [] }
    requires pending { board.old.pending ≡ [] }
    requires rooms { board.old.rooms ≡ [] }
{
    match case {
        Case::LowestLast => Ok(ends_with_the_lowest(alloc, board)),
        Case::Held => Ok(holds_a_number(alloc, board)),
        Case::TooMuch => Ok(asks_too_much(board)),
        Case::Passed => passes_a_number(alloc, board),
        Case::Checkpoints => fills_checkpoints(alloc, board),
    }
}

fn goes_right(alloc: Global, case: Case) -> Result<bool, Fail> {
    let mut board = Board::new(alloc)?;
    let right = goes_right_at(alloc, &mut board, case);
    drop(board);
    right
}

/// Entries are stored at 1, 4 and 3, and 2 is given up: the front follows at last.
#[test]
fn the_lowest_number_last(rt: HostRuntime) -> Result<(), Fail> {
    assert!(rt; goes_right(rt.alloc(), Case::LowestLast)?);
    Ok(())
}

/// While the first number is held the front stays; with 19,998 places taken a room is made, and none with one more.
#[test]
fn a_number_that_is_held(rt: HostRuntime) -> Result<(), Fail> {
    assert!(rt; goes_right(rt.alloc(), Case::Held)?);
    Ok(())
}

/// Of rooms for 102 of the largest bodies and one of 8,388,609 bytes the last is refused.
#[test]
fn too_many_bytes_are_asked_for(rt: HostRuntime) -> Result<(), Fail> {
    assert!(rt; goes_right(rt.alloc(), Case::TooMuch)?);
    Ok(())
}

/// A write with a number that its document's last write has passed is handed back, and stored at another number.
#[test]
fn a_number_that_a_write_has_passed(rt: HostRuntime) -> Result<(), Fail> {
    assert!(rt; goes_right(rt.alloc(), Case::Passed)?);
    Ok(())
}

/// The checkpoint of one more client than 100,000 finds no room; one that is there is set still.
#[test]
fn as_many_checkpoints_as_a_board_keeps(rt: HostRuntime) -> Result<(), Fail> {
    assert!(rt; goes_right(rt.alloc(), Case::Checkpoints)?);
    Ok(())
}
