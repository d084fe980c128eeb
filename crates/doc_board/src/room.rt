//! Rooms: the places that are kept free for entries that are to be stored.

ghost use Rattle.std.specs.Prelude.{◌≡◌, ◌≤◌, ◌<◌, ◌++◌, ◌∷◌, [], length, IfOk, IsTrue};
ghost use Rattle.std.specs.Option.{option_copied};
ghost use Rattle.doc_board.specs.Boards.{bytes_asked};
ghost use Rattle.sg_history.specs.Rooms.{without_room};
ghost use Rattle.doc_board.specs.Rooms as rooms;

use sg_history::{DocId, RoomFor};
use std::alloc::{AllocError, Global};
use std::marker::Model;
use std::snapshot::Snapshot;

/// Room for one entry. It can't be let go: it ends where the board stores the entry.
#[non_exhaustive]
pub struct Room {
    pub made_for: RoomFor,
}

impl Room {
    /// A room for a document, or for none, and for a body of so many bytes.
    pub(crate) fn new(made_for: RoomFor) -> Room
        ensures { result.made_for ≡ made_for }
    {
        Room { made_for }
    }
}

/// Rooms that were made and that ended, the last one first. It has no bytes of them.
#[derive(Drop)]
enum Links {
    Nothing,
    Made(Snapshot<Links>, Snapshot<RoomFor>),
    Ended(Snapshot<Links>, Snapshot<RoomFor>),
}

/// Which rooms are outstanding. It keeps nothing of them: only clauses see them.
#[derive(Drop)]
pub(crate) struct RoomList {
    links: Links,
}

impl Model for RoomList {
    ghost use Rattle.std.specs.Prelude.{List};
    ghost use Rattle.sg_history.specs.declared.room.RoomFor.{RoomFor};
    ghost use Rattle.doc_board.specs.inner.Outstanding.{rooms_in};

    ghost Value = { List RoomFor };

    ghost view = { λ l. rooms_in l.links };
}

impl RoomList {
    fn new() -> RoomList
        ensures { result ≡ [] }
    {
        RoomList {
            links: Links::Nothing,
        }
    }

    fn add(&mut self, made_for: &RoomFor)
        ensures { self.new ≡ self.old ++ made_for.now ∷ [] }
    {
        self.links = Links::Made(Snapshot::of(&self.links), Snapshot::of(made_for));
    }

    fn end(&mut self, made_for: &RoomFor)
        ensures { self.new ≡ without_room made_for.now self.old }
    {
        self.links = Links::Ended(Snapshot::of(&self.links), Snapshot::of(made_for));
    }
}

/// The rooms that are outstanding: how many there are, and for how many bytes they were made. Which they are only clauses see.
#[derive(Drop)]
pub(crate) struct OutstandingRooms {
    list: RoomList,
    count: u64,
    asked: u64,
}

impl Model for OutstandingRooms {
    ghost use Rattle.std.specs.Prelude.{◌≡◌, List, length};
    ghost use Rattle.sg_history.specs.declared.room.RoomFor.{RoomFor};
    ghost use Rattle.doc_board.specs.Boards.{bytes_asked};
    ghost use Rattle.doc_board.specs.Rooms.{AreSmall};

    ghost Value = { List RoomFor };

    ghost view = { λ o. o.list };

    ghost invariant = { λ o. (o.count ≡ length o.list)
        × (o.asked ≡ bytes_asked o.list) × AreSmall o.list };
}

impl OutstandingRooms {
    /// None. Allocates nothing.
    pub(crate) fn new() -> OutstandingRooms
        ensures { result ≡ [] }
    {
        OutstandingRooms {
            list: RoomList::new(),
            count: 0,
            asked: 0,
        }
    }

    /// How many there are.
    pub(crate) fn count(&self) -> u64
        ensures { result ≡ length self.now }
    {
        self.count
    }

    /// For how many bytes they were made.
    pub(crate) fn asked(&self) -> u64
        ensures { result ≡ bytes_asked self.now }
    {
        self.asked
    }

    /// One room more. Allocates nothing.
    pub(crate) fn add(&mut self, made_for: &RoomFor)
        requires few { length self.old < 1000000 }
        requires small { made_for.now.bytes ≤ 20971520 }
        ensures { self.new ≡ self.old ++ made_for.now ∷ [] }
    {
        self.list.add(made_for);
        self.count += 1;
        self.asked += made_for.bytes;
    }

    /// A room ends. Allocates nothing.
    pub(crate) fn end(&mut self, room: Room)
        requires { IsTrue (rooms.is_outstanding self.old room.made_for) }
        ensures { self.new ≡ without_room room.made_for self.old }
    {
        let Room { made_for } = room;
        self.list.end(&made_for);
        self.count -= 1;
        self.asked -= made_for.bytes;
    }
}

/// What a room is to be made for.
pub(crate) fn room_for(
    alloc: Global,
    doc: Option<&DocId>,
    bytes: u64,
) -> Result<RoomFor, AllocError>
    ensures { IfOk result (λ room. room ≡ rooms.room_for (option_copied doc.entry) bytes) }
{
    let doc = match doc {
        None => None,
        Some(doc) => Some(doc.copy(alloc)?),
    };
    Ok(RoomFor { doc, bytes })
}
