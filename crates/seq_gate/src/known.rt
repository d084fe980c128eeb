//! What a pass knows. Only clauses speak of it: no value of these types is made.

use sg_history::{Entry, RoomFor, Waiting};
use std::collections::LinkedList;
use std::marker::Model;

/// A text of a side map, with the number and the bytes under it.
pub struct ShownSide {
    text: LinkedList<u8>,
    number: u64,
    bytes: LinkedList<u8>,
}

impl Model for ShownSide {
    ghost use Rattle.sg_history.specs.Board.{SideEntry};

    ghost Value = { SideEntry };

    ghost view = { λ s. record { text = s.text; value = record { number = s.number; bytes = s.bytes } } };
}

/// A board as plain data.
pub struct Shown {
    limit: Option<u32>,
    log: LinkedList<Entry>,
    pending: LinkedList<Waiting>,
    rooms: LinkedList<RoomFor>,
    bytes: u64,
    side: LinkedList<ShownSide>,
    faults: u64,
}

impl Model for Shown {
    ghost use Rattle.sg_history.specs.Board.{BoardState};

    ghost Value = { BoardState };

    ghost view = { λ s. record { limit = s.limit; log = s.log; pending = s.pending; rooms = s.rooms; bytes = s.bytes; side = s.side; faults = s.faults } };
}

/// What a pass knows.
pub struct Known {
    /// The length of the log with which the gate was opened.
    pub opening: u64,
    /// The draws that are left, those that were made, and those of them that were made in turns.
    pub left: u64,
    pub made: u64,
    pub in_turns: u64,
    /// The numbers that were drawn, and at which the board has no entry yet.
    pub held: LinkedList<u64>,
    /// The log as it was seen last.
    pub seen: LinkedList<Entry>,
    /// A front that no later front is below.
    pub lowest_front: u64,
    /// The rooms that are outstanding for this pass.
    pub rooms: LinkedList<RoomFor>,
    /// The boards that were read, the newest first.
    pub read: LinkedList<Shown>,
    /// The entries that were stored, sequences given up apart, with their numbers.
    pub own: LinkedList<Waiting>,
}

/// What a pass knows, and where it stands in the queue.
pub struct View {
    pub knows: Known,
    pub ticket: Option<u64>,
    /// The board as it was found, in a turn.
    pub found: Option<Shown>,
    /// Whether the board is back, and the turn not passed on.
    pub back: bool,
}
