//! Entries that are stored out of order, numbers that are given up, and rooms that are refused.

ghost use Rattle.std.specs.Prelude.{◌≡◌, ◌≤◌, ◌<◌, ◌+◌, [], None};
ghost use Rattle.pending_front.specs.Storing.{MayStore};
ghost use Rattle.doc_board.specs.Rooms as rooms;
ghost use Rattle.tests_of_boards.specs.inner.Frees.{AreAlike, AreFree, Stays, StaysBelow};

use doc_board::{Board, Candidate, Commit, NoRoom};
use sg_history::{Entry, Name, Number, TextFault};
use std::alloc::Global;

/// Gives up a number in a room that is made for it: the front after it, none where there is no room.
fn given_up(board: &mut Board, number: u64) -> Option<u64>
    requires number { MayStore board.old.log board.old.pending number }
    requires alike { AreAlike (rooms.room_for None 0) board.old.rooms }
    ensures rooms { board.new.rooms ≡ board.old.rooms }
    ensures stays { Stays board.old board.new number }
{
    let Ok(room) = board.room(None, 0) else {
        return None;
    };
    board.void(room, Number::new(number));
    Some(board.front())
}

/// Stores that a user is dropped at a number: the front after it.
fn dropped(board: &mut Board, user: Name, number: u64) -> Option<u64>
    requires number { MayStore board.old.log board.old.pending number }
    requires alike { AreAlike (rooms.room_for None 0) board.old.rooms }
    ensures rooms { board.new.rooms ≡ board.old.rooms }
    ensures stays { Stays board.old board.new number }
{
    let _ = user.as_str();
    let Ok(room) = board.room(None, 0) else {
        return None;
    };
    match board.commit(
        room,
        Number::new(number),
        Candidate::Plain(Entry::DropUser(user)),
    ) {
        Commit::Stored {
            sequence: _sequence,
            at: _at,
        } => Some(board.front()),
        Commit::Stale {
            room,
            number,
            candidate,
            last: _last,
        } => {
            drop(candidate);
            board.void(room, number);
            None
        }
    }
}

/// The fronts after entries were stored at 4 and 3, and 2 was given up.
fn fronts(board: &mut Board, first: Name, second: Name) -> (Option<u64>, Option<u64>, Option<u64>)
    requires free { AreFree board.old 2 }
    requires alike { AreAlike (rooms.room_for None 0) board.old.rooms }
{
    let first = dropped(board, first, 4);
    let second = dropped(board, second, 3);
    (first, second, given_up(board, 2))
}

/// The names of three users.
fn names(alloc: Global) -> Result<(Name, Name, Name), TextFault> {
    let ann = Name::parse(alloc, "ann")?;
    let bob = Name::parse(alloc, "bob")?;
    Ok((ann, bob, Name::parse(alloc, "eve")?))
}

/// Whether of four entries the second alone is unused.
fn second_is_unused(entries: &[Entry]) -> bool {
    matches!(
        entries,
        [
            Entry::DropUser(_),
            Entry::Unused,
            Entry::DropUser(_),
            Entry::DropUser(_)
        ]
    )
}

/// At a new board the front is 1 after an entry was stored at 1, stays there after others were at 4 and 3, and is 4 once 2 was given up,
/// which is unused.
pub fn ends_with_the_lowest(alloc: Global, board: &mut Board) -> bool
    requires log { board.old.log ≡ [] }
    requires pending { board.old.pending ≡ [] }
    requires rooms { board.old.rooms ≡ [] }
{
    let Ok((ann, bob, eve)) = names(alloc) else {
        return false;
    };
    let first = dropped(board, ann, 1);
    let others = fronts(board, bob, eve);
    first == Some(1)
        && others == (Some(1), Some(1), Some(4))
        && second_is_unused(board.log().entries.as_slice())
}

/// Asks for a room for a body of so many bytes, and gives it up at a number: what it was refused for.
fn refused(board: &mut Board, bytes: u64, alike: u64, number: u64) -> Option<NoRoom>
    requires small { bytes ≤ 20971520 }
    requires number { MayStore board.old.log board.old.pending number }
    requires alike { AreAlike (rooms.room_for None alike) board.old.rooms }
    ensures rooms { board.new.rooms ≡ board.old.rooms }
    ensures stays { Stays board.old board.new number }
{
    let _ = alike;
    match board.room(None, bytes) {
        Ok(room) => {
            board.void(room, Number::new(number));
            None
        }
        Err(why) => Some(why),
    }
}

/// Makes so many rooms for bodies of so many bytes, asks for one more for another body, and gives them all up, each at a number of its
/// own from this one on: what the last one was refused for.
fn filled(board: &mut Board, count: u64, bytes: u64, last: u64, number: u64) -> Option<NoRoom>
    requires small { bytes ≤ 20971520 }
    requires small_too { last ≤ 20971520 }
    requires from { 1 ≤ number }
    requires numbers { number + count < 1000000 }
    requires free { AreFree board.old number }
    requires alike { AreAlike (rooms.room_for None bytes) board.old.rooms }
    ensures rooms { board.new.rooms ≡ board.old.rooms }
    ensures below { StaysBelow board.old board.new number }
{
    if count == 0 {
        return refused(board, last, bytes, number);
    }
    let Ok(room) = board.room(None, bytes) else {
        return None;
    };
    let why = filled(board, count - 1, bytes, last, number + 1);
    board.void(room, Number::new(number));
    why
}

/// At a new board rooms for 102 bodies of 20,971,520 bytes are made, and none for one of 8,388,609: the sums are told.
pub fn asks_too_much(board: &mut Board) -> bool
    requires log { board.old.log ≡ [] }
    requires pending { board.old.pending ≡ [] }
    requires rooms { board.old.rooms ≡ [] }
{
    let full = NoRoom::LogFull509 {
        entries: 204,
        bytes: 2_147_483_649,
    };
    filled(board, 102, 20_971_520, 8_388_609, 1) == Some(full) && board.front() == 102
}

/// Gives up so many numbers from this one on: the front after the last one.
fn all_given_up(board: &mut Board, number: u64, count: u64) -> Option<u64>
    requires from { 1 ≤ number }
    requires numbers { number + count < 1000000 }
    requires free { AreFree board.old number }
    requires alike { AreAlike (rooms.room_for None 0) board.old.rooms }
    ensures rooms { board.new.rooms ≡ board.old.rooms }
    ensures free { AreFree board.new (number + count) }
    ensures below { StaysBelow board.old board.new number }
{
    let mut front = None;
    for i in 0..count {
        front = given_up(board, number + i);
    }
    front
}

/// Stores an entry at the second number while the first is held, gives up 19,996 numbers behind it, and at last the first: the fronts
/// after an entry was stored, after all numbers but one were given up, and after that one was; why there is no other room then; and the
/// front at last.
fn held(board: &mut Board, user: Name) -> Option<([Option<u64>; 3], Option<NoRoom>, u64)>
    requires free { AreFree board.old 1 }
    requires alike { board.old.rooms ≡ [] }
{
    let Ok(room) = board.room(None, 0) else {
        return None;
    };
    let first = dropped(board, user, 2);
    let second = all_given_up(board, 3, 19_995);
    let third = given_up(board, 19_998);
    let why = refused(board, 0, 0, 19_999);
    board.void(room, Number::new(1));
    Some(([first, second, third], why, board.front()))
}

/// At a new board the front stays at 0 while the first number is held; with 19,998 places taken a room is made, and none with one more; and
/// the front is 19,998 once the first number is given up.
pub fn holds_a_number(alloc: Global, board: &mut Board) -> bool
    requires log { board.old.log ≡ [] }
    requires pending { board.old.pending ≡ [] }
    requires rooms { board.old.rooms ≡ [] }
{
    let Ok(user) = Name::parse(alloc, "ann") else {
        return false;
    };
    let full = NoRoom::Full503 { places: 19_999 };
    held(board, user) == Some(([Some(0); 3], Some(full), 19_998))
}
