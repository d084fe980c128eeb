//! What storing changes of a board: the log, the entries that wait, the documents, and the rooms that are outstanding.

ghost use Rattle.std.specs.Prelude.{◌≡◌, ◌≢◌, ◌≤◌, ◌<◌, ◌+◌, ◌*◌, ◌++◌, ◌∷◌, [], ℕ, List, length, Some, is_some, OnOk, OnErr, IfOk, IfSome, IsTrue};
ghost use Rattle.std.specs.BTreeMap.{get_by_text};
ghost use Rattle.std.specs.Option.{option_copied};
ghost use Rattle.sg_history.specs.declared.entries.Entry.TheVariants as kinds;
ghost use Rattle.sg_history.specs.History.{Extends, entries_of};
ghost use Rattle.sg_history.specs.Journal.{IsEntry};
ghost use Rattle.sg_history.specs.World.{put_waiting, release as released};
ghost use Rattle.sg_history.specs.Rooms.{without_room};
ghost use Rattle.pending_front.specs.Storing.{MayStore};
ghost use Rattle.rev_tree.specs.Documents.{last_in, tree_in};
ghost use Rattle.doc_board.specs.Candidates.{ExtendsTree, IsPlain};
ghost use Rattle.doc_board.specs.Recorded.{HasDocument};
ghost use Rattle.doc_board.specs.Rooms.{is_outstanding, room_for};
ghost use Rattle.doc_board.specs.Steps.{with_entry};
ghost use Rattle.doc_board.specs.Storage.{HasPlacesOf, IsOfBoard, StandsWith, book_in, book_with_unused, top_in, waiting_with_unused, writes_in};

use crate::document::{self, Document, Documents};
use crate::room::{self, OutstandingRooms, Room};
use crate::waiting::{Bases, keep_base, make_places, release};
use pending_front::Pending;
use pending_front::laws::storing;
use rev_tree::Tree;
use rev_tree::laws::trees_of_writes;
use sg_history::{DocId, Entry, Log, RoomFor, Write};
use sg_outside::Memory;
use std::alloc::Global;

/// The log, with the entries that wait for their places in it, what is kept of each document, the rooms that are outstanding, and
/// how many bytes all bodies have.
#[derive(Drop)]
pub(crate) struct Storage {
    pub(crate) log: Log,
    pub(crate) pending: Pending,
    pub(crate) documents: Documents,
    pub(crate) bases: Bases,
    pub(crate) rooms: OutstandingRooms,
    pub(crate) stored: u64,
}

impl Storage {
    /// Makes the places of one room more, for a document or for none.
    fn make_places(&mut self, alloc: Global, doc: Option<&DocId>) -> Result<(), Memory>
        requires few { length self.old.pending.waiting + 2 * length self.old.rooms < 19999 }
        requires board { IsOfBoard self.old }
        ensures log { entries_of self.new.log ≡ entries_of self.old.log }
        ensures waiting { self.new.pending.waiting ≡ self.old.pending.waiting }
        ensures rooms { self.new.rooms ≡ self.old.rooms }
        ensures ok { OnOk result ((bytes : ℕ) → HasPlacesOf self.new
            (room_for (option_copied doc.entry) bytes)) }
        ensures err { OnErr result (IsOfBoard self.new) }
        ensures limit { self.new.log.limit ≡ self.old.log.limit }
    {
        let places = 2 * (self.rooms.count() + 1);
        make_places(&mut self.log, &mut self.pending, &mut self.bases, places)?;
        document::make_place_for(alloc, &mut self.documents, doc)?;
        Ok(())
    }

    /// Makes a room. Out of memory it has perhaps more spare places, and no room more.
    pub(crate) fn make_room(
        &mut self,
        alloc: Global,
        doc: Option<&DocId>,
        bytes: u64,
    ) -> Result<RoomFor, Memory>
        requires few { length self.old.pending.waiting + 2 * length self.old.rooms < 19999 }
        requires small { bytes ≤ 20971520 }
        requires board { IsOfBoard self.old }
        ensures board { IsOfBoard self.new }
        ensures log { entries_of self.new.log ≡ entries_of self.old.log }
        ensures waiting { self.new.pending.waiting ≡ self.old.pending.waiting }
        ensures ok { OnOk result (self.new.rooms ≡ self.old.rooms ++ room_for
            (option_copied doc.entry) bytes ∷ []) }
        ensures err { OnErr result (self.new.rooms ≡ self.old.rooms) }
        ensures room { IfOk result (λ room. room ≡ room_for (option_copied doc.entry) bytes) }
        ensures limit { self.new.log.limit ≡ self.old.log.limit }
    {
        let made_for = room::room_for(alloc, doc, bytes)?;
        self.make_places(alloc, doc)?;
        self.rooms.add(&made_for);
        Ok(made_for)
    }

    /// A room ends, and leaves two places for what is to wait. Allocates nothing.
    pub(crate) fn end(&mut self, room: Room)
        requires out { IsTrue (is_outstanding self.old.rooms room.made_for) }
        requires board { IsOfBoard self.old }
        ensures stands { StandsWith self.new 2 }
        ensures log { entries_of self.new.log ≡ entries_of self.old.log }
        ensures waiting { self.new.pending.waiting ≡ self.old.pending.waiting }
        ensures documents { self.new.documents ≡ self.old.documents }
        ensures rooms { self.new.rooms ≡ without_room room.made_for self.old.rooms }
        ensures limit { self.new.log.limit ≡ self.old.log.limit }
    {
        self.rooms.end(room);
    }

    /// Puts an entry that neither writes nor replaces the sync function among those that wait, in one of the places that are left. Allocates nothing.
    pub(crate) fn put_plain(&mut self, number: u64, entry: Entry)
        requires number { MayStore (entries_of self.old.log) self.old.pending.waiting number }
        requires entry { IsEntry entry }
        requires plain { IsPlain entry }
        requires place { StandsWith self.old 1 }
        ensures stands { (more : ℕ) → StandsWith self.old (more + 1) → StandsWith self.new more }
        ensures log { entries_of self.new.log ≡ entries_of self.old.log }
        ensures waiting { self.new.pending.waiting
            ≡ put_waiting (record { number = number; entry = entry }) self.old.pending.waiting }
        ensures documents { self.new.documents ≡ self.old.documents }
        ensures rooms { self.new.rooms ≡ self.old.rooms }
        ensures book { book_in self.new ≡ with_entry number entry (book_in self.old) }
        ensures writes { (doc : List ℕ) → writes_in self.new doc ≡ writes_in self.old doc }
        ensures others { (other : ℕ) → number ≢ other
            → MayStore (entries_of self.old.log) self.old.pending.waiting other
            → MayStore (entries_of self.new.log) self.new.pending.waiting other }
        ensures limit { self.new.log.limit ≡ self.old.log.limit }
    {
        storing();
        self.pending.put(number, entry);
    }

    /// Puts that a number is given up among the entries that wait, where there is one, and leaves one place. Allocates nothing.
    pub(crate) fn give_up(&mut self, spent: Option<u64>)
        requires spent { IfSome spent
            (λ n. MayStore (entries_of self.old.log) self.old.pending.waiting n) }
        requires places { StandsWith self.old 2 }
        ensures stands { StandsWith self.new 1 }
        ensures log { entries_of self.new.log ≡ entries_of self.old.log }
        ensures waiting { self.new.pending.waiting
            ≡ waiting_with_unused spent self.old.pending.waiting }
        ensures documents { self.new.documents ≡ self.old.documents }
        ensures rooms { self.new.rooms ≡ self.old.rooms }
        ensures book { book_in self.new ≡ book_with_unused spent (book_in self.old) }
        ensures writes { (doc : List ℕ) → writes_in self.new doc ≡ writes_in self.old doc }
        ensures others { (other : ℕ) → IfSome spent (λ n. n ≢ other)
            → MayStore (entries_of self.old.log) self.old.pending.waiting other
            → MayStore (entries_of self.new.log) self.new.pending.waiting other }
        ensures limit { self.new.log.limit ≡ self.old.log.limit }
    {
        match spent {
            None => {}
            Some(number) => self.put_plain(number, Entry::Unused),
        }
    }

    /// Puts a write among the entries that wait, in one of the places that are left, with the document's tree after it, above the
    /// document's last write. Allocates nothing.
    pub(crate) fn put_write(&mut self, number: u64, entry: Write, tree: Tree, base: u64)
        requires number { MayStore (entries_of self.old.log) self.old.pending.waiting number }
        requires document { IsTrue (is_some (get_by_text self.old.documents entry.doc)) }
        requires entry { IsEntry (kinds.Write entry) }
        requires body { HasDocument entry.body }
        requires at { entry.at < number }
        requires base { base ≡ last_in (book_in self.old) (top_in self.old) entry.doc }
        requires above { base < number }
        requires extends { ExtendsTree (tree_in (book_in self.old) (top_in self.old) entry.doc)
            entry tree }
        requires place { StandsWith self.old 1 }
        ensures stands { StandsWith self.new 0 }
        ensures log { entries_of self.new.log ≡ entries_of self.old.log }
        ensures waiting { self.new.pending.waiting ≡ put_waiting
            (record { number = number; entry = kinds.Write entry }) self.old.pending.waiting }
        ensures rooms { self.new.rooms ≡ self.old.rooms }
        ensures book { book_in self.new
            ≡ with_entry number (kinds.Write entry) (book_in self.old) }
        ensures limit { self.new.log.limit ≡ self.old.log.limit }
    {
        storing();
        trees_of_writes();
        self.stored = self.stored.saturating_add(entry.body.len() as u64);
        document::put(
            &mut self.documents,
            &entry.doc,
            Document { last: number, tree },
        );
        keep_base(&mut self.bases, number, base);
        self.pending.put(number, Entry::Write(entry));
    }

    /// Moves the entries that come next to the log's end, as long as one waits. Allocates nothing.
    pub(crate) fn release(&mut self)
        requires { StandsWith self.old 0 }
        ensures board { IsOfBoard self.new }
        ensures released { record {
          log = entries_of self.new.log;
          pending = self.new.pending.waiting;
        }
            ≡ released (entries_of self.old.log) self.old.pending.waiting }
        ensures rooms { self.new.rooms ≡ self.old.rooms }
        ensures book { book_in self.new ≡ book_in self.old }
        ensures extends { Extends (entries_of self.old.log) (entries_of self.new.log) }
        ensures limit { self.new.log.limit ≡ self.old.log.limit }
    {
        release(&mut self.log, &mut self.pending, &mut self.bases);
    }
}
