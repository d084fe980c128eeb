//! The board: the log, each document's tree, the rooms that are outstanding, and the devices' checkpoints.

ghost use Rattle.std.specs.Prelude.{◌≡◌, ◌≢◌, ◌≤◌, ◌<◌, ◌+◌, ◌-◌, ◌*◌, ◌++◌, ◌∷◌, [], ℕ, List, false, true, length, min, reverse, is_some, Some, None, option_map, OnOk, OnErr, IfOk, IfErr, IfSome, IfNone, IsTrue, Err};
ghost use Rattle.std.specs.Option.{option_copied};
ghost use Rattle.sg_history.specs.Book.{waiting_at};
ghost use Rattle.sg_history.specs.History.{entries_of, among};
ghost use Rattle.sg_history.specs.Principals as principals;
ghost use Rattle.checkpoint_store.specs.Answers as kept;
ghost use Rattle.checkpoint_store.specs.Checkpoints.{AreCheckpoints, checkpoint_text};
ghost use Rattle.log_views.specs.Sorted.{AreSorted};
ghost use Rattle.grant_history.specs.Stands.{StandsFor};
ghost use Rattle.pending_front.specs.Storing.{MayStore};
ghost use Rattle.rev_tree.specs.Writes.{AreAccepted};
ghost use Rattle.rev_tree.specs.Documents.{tree_when, deletes};
ghost use Rattle.doc_board.specs.Answers.{IsStep, proposer_exists};
ghost use Rattle.doc_board.specs.Contexts.{IsContext};
ghost use Rattle.sg_history.specs.declared.entries.Entry.TheVariants as kinds;
ghost use Rattle.doc_board.specs.declared.candidate.Commit.TheVariants as kinds_of_commit;
ghost use Rattle.doc_board.specs.Boards.{board_of};
ghost use Rattle.doc_board.specs.Candidates.{MayBeStored, ExtendsTree, Fits, IsPlain, IfStored, IfStale, is_stale, entry_of, made_at, last_of};
ghost use Rattle.sg_history.specs.Journal.{IsEntry};
ghost use Rattle.sg_history.specs.Rooms.{without_room};
ghost use Rattle.doc_board.specs.Lawful.{AreLawful, AreEntries};
ghost use Rattle.doc_board.specs.Limits as limits;
ghost use Rattle.doc_board.specs.Limits.{IsRefusedBy};
ghost use Rattle.doc_board.specs.Recorded.{HasDocument, AreFollowing, IsFirstRefused};
ghost use Rattle.doc_board.specs.Rooms.{is_outstanding, room_for};
ghost use Rattle.doc_board.specs.State.{newest_first, book_on, writes_on, tree_on, last_on, base_on};
ghost use Rattle.doc_board.specs.Steps.{history_on, stored_at, swapped_to, with_entry};
ghost use Rattle.doc_board.specs.Storage.{MayGiveUp, book_with_unused, kept_at};

use crate::base::base_of;
use crate::candidate::{Candidate, Commit, NoRoom};
use crate::document;
use crate::granted::{channels_at_end, context_at_end, exists_at_end};
use crate::open::{OpenFault, bytes_of, documents_of};
use crate::room::{OutstandingRooms, Room};
use crate::snapshot::{Proposer, Snapshot, snapshot_of};
use crate::storage::Storage;
use checkpoint_store::{Checkpoints, Kept0, SetAnswer};
use grant_history::GrantHistory;
use pending_front::Pending;
use repl_messages::Revision;
use rev_tree::Tree;
use rev_tree::laws::histories;
use sg_history::laws::books;
use sg_history::{
    Channels, Client, DocId, Entry, Log, LogReads, Name, Number, RevId, RoomFor, Write,
};
use sg_outside::{Bytes, Memory};
use std::alloc::Global;
use std::collections::{BTreeMap, HashMap};
use std::marker::Model;

/// The most places among entries that wait: those of entries that do, and two for each room that is outstanding.
const MOST_PLACES: u64 = 20_000;

/// The most entries of a log, with those places.
const MOST_ENTRIES: u64 = 4_000_000;

/// The most bytes of all bodies, with those that rooms were made for.
const MOST_BYTES: u64 = 2_147_483_648;

/// The log, with the entries that wait for their places in it, each document's tree of revisions, the rooms that are outstanding,
/// the devices' checkpoints, and the history of the log's grants, which has an index of the log. What is stored in a room
/// allocates nothing then: the room has it beforehand. The grants are brought up to the log by the calls that may take memory.
/// Contracts see up to which place of the log they are, and how many entries were read for them, which stands still at its type's
/// end.
#[derive(Drop)]
pub struct Board {
    alloc: Global,
    storage: Storage,
    grants: GrantHistory,
    reads: u64,
    checkpoints: Checkpoints,
}

impl Model for Board {
    ghost use Rattle.std.specs.Prelude.{◌≡◌, None};
    ghost use Rattle.sg_history.specs.History.{entries_of};
    ghost use Rattle.grant_history.specs.Stands.{StandsFor};
    ghost use Rattle.doc_board.specs.State.{State};
    ghost use Rattle.doc_board.specs.Storage.{IsOfBoard};

    ghost Value = { State };

    ghost view = { λ b. record {
      log = entries_of b.storage.log;
      pending = b.storage.pending.waiting;
      rooms = b.storage.rooms;
      checkpoints = b.checkpoints;
      known = b.grants.applied;
      reads = b.reads;
    } };

    ghost invariant = { λ b. IsOfBoard b.storage
        × StandsFor b.grants b.storage.log.entries.list × (b.storage.log.limit ≡ None) };
}

impl Board {
    /// An empty board.
    pub fn new(alloc: Global) -> Result<Board, Memory>
        ensures log { IfOk result (λ board. board.log ≡ []) }
        ensures pending { IfOk result (λ board. board.pending ≡ []) }
        ensures rooms { IfOk result (λ board. board.rooms ≡ []) }
        ensures checkpoints { IfOk result (λ board. board.checkpoints ≡ []) }
        ensures known { IfOk result (λ board. board.known ≡ 0) }
        ensures reads { IfOk result (λ board. board.reads ≡ 0) }
    {
        Ok(Board {
            alloc,
            storage: Storage {
                log: Log::new(alloc, None),
                pending: Pending::new(alloc),
                documents: BTreeMap::new(alloc),
                bases: HashMap::new(alloc),
                rooms: OutstandingRooms::new(),
                stored: 0,
            },
            grants: GrantHistory::new(alloc),
            reads: 0,
            checkpoints: Checkpoints::new(alloc),
        })
    }

    /// The board of a log that was recorded, without the limit that it says.
    pub fn open(alloc: Global, log: Log) -> Result<Board, OpenFault>
        requires { AreLawful (reverse (entries_of log)) }
        ensures log { IfOk result (λ board. board.log ≡ entries_of log) }
        ensures pending { IfOk result (λ board. board.pending ≡ []) }
        ensures rooms { IfOk result (λ board. board.rooms ≡ []) }
        ensures checkpoints { IfOk result (λ board. board.checkpoints ≡ []) }
        ensures known { IfOk result (λ board. board.known ≡ 0) }
        ensures reads { IfOk result (λ board. board.reads ≡ 0) }
        ensures following { IfOk result (λ board. AreFollowing (reverse (entries_of log))) }
        ensures bad { (sequence : ℕ) → result ≡ Err (OpenFault.Bad sequence) → IsFirstRefused
            (entries_of log) sequence }
        ensures accepts { AreFollowing (reverse (entries_of log))
            → IfErr result (λ fault. fault ≡ OpenFault.Memory) }
    {
        histories();
        books();
        let Log {
            entries,
            limit: _limit,
        } = log;
        let documents = match documents_of(alloc, entries.as_slice()) {
            Ok(documents) => documents,
            Err(fault) => {
                drop(entries);
                return Err(fault);
            }
        };
        let stored = bytes_of(entries.as_slice());
        Ok(Board {
            alloc,
            storage: Storage {
                log: Log {
                    entries,
                    limit: None,
                },
                pending: Pending::new(alloc),
                documents,
                bases: HashMap::new(alloc),
                rooms: OutstandingRooms::new(),
                stored,
            },
            grants: GrantHistory::new(alloc),
            reads: 0,
            checkpoints: Checkpoints::new(alloc),
        })
    }

    /// Where the board takes its memory.
    pub fn allocator(&self) -> Global {
        self.alloc
    }

    /// The log's length, next to which no entry waits. Allocates nothing.
    pub fn front(&self) -> u64
        ensures front { result ≡ length self.now.log }
        ensures next { waiting_at self.now.pending (length self.now.log + 1) ≡ None }
        ensures below { result < 9223372036854775808 }
    {
        self.storage.log.entries.as_slice().len() as u64
    }

    /// The log, which `open` accepts, and which has no limit. Allocates nothing.
    pub fn log(&self) -> &Log
        ensures log { entries_of result.now ≡ self.now.log }
        ensures lawful { AreLawful (newest_first self.now) }
        ensures entries { AreEntries (book_on self.now) }
        ensures accepted { (doc : List ℕ) → AreAccepted (writes_on self.now doc) }
        ensures following { AreFollowing (newest_first self.now) }
        ensures limit { result.now.limit ≡ None }
    {
        histories();
        books();
        &self.storage.log
    }

    /// The tree that the writes of a document make, those that wait among them; none where it was never written. Allocates nothing.
    pub fn tree(&self, doc: &DocId) -> Option<&Tree>
        ensures tree { option_copied result ≡ tree_when (writes_on self.now doc.now) }
        ensures accepted { AreAccepted (writes_on self.now doc.now) }
    {
        document::tree_of(document::document_of(&self.storage.documents, doc))
    }

    /// The sequence of the last write of a document, 0 where there is none.
    pub fn last_write(&self, doc: &DocId) -> u64
        ensures { result ≡ last_on self.now doc.now }
    {
        document::last_of(document::document_of(&self.storage.documents, doc))
    }

    /// Brings the grants up to the end of the log. Out of memory they are up to some place before it.
    pub fn apply_grants(&mut self) -> Result<(), Memory>
        ensures log { self.new.log ≡ self.old.log }
        ensures pending { self.new.pending ≡ self.old.pending }
        ensures rooms { self.new.rooms ≡ self.old.rooms }
        ensures checkpoints { self.new.checkpoints ≡ self.old.checkpoints }
        ensures known { OnOk result (self.new.known ≡ length self.old.log) }
        ensures known_rises { self.old.known ≤ self.new.known }
        ensures known_within { self.new.known ≤ length self.old.log }
        ensures reads { self.new.reads
            ≤ self.old.reads + 2 * (length self.old.log - self.old.known) }
        ensures reads_rise { self.old.reads ≤ self.new.reads }
        ensures counted { min (self.old.reads + (self.new.known - self.old.known))
            18446744073709551615 ≤ self.new.reads }
    {
        let front = self.front();
        let mut log = LogReads::new(&self.storage.log);
        let applied = self.grants.apply(&mut log, front);
        self.reads = self.reads.saturating_add(log.reads());
        applied
    }

    /// The history of the log's grants, which has an index of the log, up to the place to which it was brought. Allocates nothing.
    pub fn grants(&self) -> &GrantHistory
        ensures stands { StandsFor result.now self.now.log }
        ensures known { result.now.applied ≡ self.now.known }
    {
        &self.grants
    }

    /// The channels of a user at the end of the log, by rising bytes; none where the user does not exist.
    pub fn channels(&mut self, user: &Name) -> Result<Option<Channels>, Memory>
        ensures log { self.new.log ≡ self.old.log }
        ensures pending { self.new.pending ≡ self.old.pending }
        ensures rooms { self.new.rooms ≡ self.old.rooms }
        ensures checkpoints { self.new.checkpoints ≡ self.old.checkpoints }
        ensures known { OnOk result (self.new.known ≡ length self.old.log) }
        ensures known_rises { self.old.known ≤ self.new.known }
        ensures known_within { self.new.known ≤ length self.old.log }
        ensures reads { self.new.reads
            ≤ self.old.reads + 2 * (length self.old.log - self.old.known) }
        ensures reads_rise { self.old.reads ≤ self.new.reads }
        ensures counted { min (self.old.reads + (self.new.known - self.old.known))
            18446744073709551615 ≤ self.new.reads }
        ensures exists { IfOk result (λ found. is_some found ≡ principals.exists
            (principals.user_at (newest_first self.old) user.now)) }
        ensures sorted { IfOk result (λ found. IfSome found (λ channels. AreSorted channels)) }
        ensures channels { IfOk result (λ found. IfSome found
            (λ channels. (channel : List ℕ) → among channels channel ≡ principals.has_channel
            (newest_first self.old) user.now channel)) }
    {
        self.apply_grants()?;
        channels_at_end(&self.grants, user)
    }

    /// The checkpoint of a user's client, with its whole body.
    pub fn get_checkpoint(&self, user: &Name, client: &Client) -> Result<Kept0, Memory>
        ensures kept { IfOk result (λ found. found
            ≡ kept.kept_at self.now.checkpoints (checkpoint_text user.now client.now)) }
        ensures checkpoints { AreCheckpoints self.now.checkpoints }
    {
        self.checkpoints.get(user, client)
    }

    /// Gives the user's client this body under the number after `rev`, or answers why not.
    pub fn set_checkpoint(
        &mut self,
        user: &Name,
        client: &Client,
        rev: u64,
        body: Bytes,
    ) -> SetAnswer
        ensures sets { kept.Sets self.old.checkpoints (checkpoint_text user.now client.now) rev body
            result self.new.checkpoints }
        ensures checkpoints { AreCheckpoints self.new.checkpoints }
        ensures log { self.new.log ≡ self.old.log }
        ensures pending { self.new.pending ≡ self.old.pending }
        ensures rooms { self.new.rooms ≡ self.old.rooms }
        ensures known { self.new.known ≡ self.old.known }
        ensures reads { self.new.reads ≡ self.old.reads }
    {
        self.checkpoints.set(user, client, rev, body)
    }

    /// The write on which a revision is based, of those that wait too.
    fn base_of(&self, last: u64, doc: &DocId, ancestors: &[RevId]) -> Result<Option<&Write>, Memory>
        requires known { self.now.known ≡ length self.now.log }
        requires last { last ≡ last_on self.now doc.now }
        ensures base { IfOk result (λ found. option_copied found
            ≡ base_on self.now doc.now ancestors.now) }
        ensures document { IfOk result (λ found. IfSome found
            (λ write. HasDocument write.now.body)) }
    {
        books();
        let index = self.grants.index();
        base_of(&self.storage, index, last, doc, ancestors)
    }

    /// The same where the grants are at the end of the log.
    fn snapshot_in(
        &self,
        revision: &Revision,
        strict: bool,
        by: Option<&Name>,
    ) -> Result<Snapshot, Memory>
        requires known { self.now.known ≡ length self.now.log }
        ensures at { IfOk result (λ s. s.at ≡ length self.now.log) }
        ensures last { IfOk result (λ s. s.last ≡ last_on self.now revision.now.doc) }
        ensures step { IfOk result
            (λ s. IsStep (tree_on self.now revision.now.doc) revision.now strict s.step) }
        ensures old { IfOk result (λ s. s.old ≡ option_map (λ w. w.body)
            (base_on self.now revision.now.doc revision.now.ancestors)) }
        ensures old_document { IfOk result (λ s. IfSome s.old (λ body. HasDocument body)) }
        ensures old_deleted { IfOk result (λ s. s.old_deleted ≡ deletes
            (base_on self.now revision.now.doc revision.now.ancestors)) }
        ensures user { IfOk result (λ s. s.user_exists ≡ proposer_exists (newest_first self.now)
            (option_copied by.entry)) }
        ensures context { IfOk result (λ s. IsContext (newest_first self.now)
            (option_copied by.entry) s.context) }
    {
        let document = document::document_of(&self.storage.documents, &revision.doc);
        let last = document::last_of(document);
        let base = self.base_of(last, &revision.doc, revision.ancestors.as_slice())?;
        let exists = exists_at_end(&self.grants, by);
        let context = context_at_end(self.alloc, &self.grants, by)?;
        let proposer = Proposer { exists, context };
        snapshot_of(
            self.alloc,
            self.front(),
            document,
            base,
            revision,
            strict,
            proposer,
        )
    }

    /// What is needed to judge a revision that is proposed, by a user or by the administrator: of the document all writes, those that
    /// wait among them, and the grants at the end of the log. At most two entries of the log are read for the grants of each one
    /// that came since they were known.
    pub fn snapshot(
        &mut self,
        revision: &Revision,
        strict: bool,
        by: Option<&Name>,
    ) -> Result<Snapshot, Memory>
        ensures log { self.new.log ≡ self.old.log }
        ensures pending { self.new.pending ≡ self.old.pending }
        ensures rooms { self.new.rooms ≡ self.old.rooms }
        ensures checkpoints { self.new.checkpoints ≡ self.old.checkpoints }
        ensures known { OnOk result (self.new.known ≡ length self.old.log) }
        ensures known_rises { self.old.known ≤ self.new.known }
        ensures known_within { self.new.known ≤ length self.old.log }
        ensures reads { self.new.reads
            ≤ self.old.reads + 2 * (length self.old.log - self.old.known) }
        ensures reads_rise { self.old.reads ≤ self.new.reads }
        ensures counted { min (self.old.reads + (self.new.known - self.old.known))
            18446744073709551615 ≤ self.new.reads }
        ensures at { IfOk result (λ s. s.at ≡ length self.old.log) }
        ensures last { IfOk result (λ s. s.last ≡ last_on self.old revision.now.doc) }
        ensures step { IfOk result
            (λ s. IsStep (tree_on self.old revision.now.doc) revision.now strict s.step) }
        ensures old { IfOk result (λ s. s.old ≡ option_map (λ w. w.body)
            (base_on self.old revision.now.doc revision.now.ancestors)) }
        ensures old_document { IfOk result (λ s. IfSome s.old (λ body. HasDocument body)) }
        ensures old_deleted { IfOk result (λ s. s.old_deleted ≡ deletes
            (base_on self.old revision.now.doc revision.now.ancestors)) }
        ensures user { IfOk result (λ s. s.user_exists ≡ proposer_exists (newest_first self.old)
            (option_copied by.entry)) }
        ensures context { IfOk result (λ s. IsContext (newest_first self.old)
            (option_copied by.entry) s.context) }
    {
        self.apply_grants()?;
        self.snapshot_in(revision, strict, by)
    }

    /// Why there is no room for a body of so many bytes, before memory is asked for.
    fn refusal(&self, body_bytes: u64) -> Option<NoRoom>
        ensures { result ≡ limits.refusal (board_of self.now) body_bytes }
    {
        let places = self.storage.pending.len() + 2 * self.storage.rooms.count();
        if places >= MOST_PLACES - 1 {
            return Some(NoRoom::Full503 { places });
        }
        let entries = self.front() + places;
        let asked = self.storage.rooms.asked().saturating_add(body_bytes);
        let bytes = self.storage.stored.saturating_add(asked);
        if entries >= MOST_ENTRIES - 1 || bytes > MOST_BYTES {
            return Some(NoRoom::LogFull509 { entries, bytes });
        }
        None
    }

    fn make_room(&mut self, doc: Option<&DocId>, bytes: u64) -> Result<RoomFor, Memory>
        requires few { length self.old.pending + 2 * length self.old.rooms < 19999 }
        requires small { bytes ≤ 20971520 }
        ensures log { self.new.log ≡ self.old.log }
        ensures pending { self.new.pending ≡ self.old.pending }
        ensures ok { OnOk result (self.new.rooms ≡ self.old.rooms ++ room_for
            (option_copied doc.entry) bytes ∷ []) }
        ensures err { OnErr result (self.new.rooms ≡ self.old.rooms) }
        ensures room { IfOk result (λ room. room ≡ room_for (option_copied doc.entry) bytes) }
        ensures checkpoints { self.new.checkpoints ≡ self.old.checkpoints }
        ensures known { self.new.known ≡ self.old.known }
        ensures reads { self.new.reads ≡ self.old.reads }
    {
        self.storage.make_room(self.alloc, doc, bytes)
    }

    /// Room for one entry: for a write of a document with a body of at most so many bytes, or for another entry. It is
    /// refused where too many places are taken, or else too many entries or bytes, and at last where memory is short.
    pub fn room(&mut self, doc: Option<&DocId>, body_bytes: u64) -> Result<Room, NoRoom>
        requires { body_bytes ≤ 20971520 }
        ensures log { self.new.log ≡ self.old.log }
        ensures pending { self.new.pending ≡ self.old.pending }
        ensures refused { IsRefusedBy (limits.refusal (board_of self.old) body_bytes) result }
        ensures ok { OnOk result (self.new.rooms ≡ self.old.rooms ++ room_for
            (option_copied doc.entry) body_bytes ∷ []) }
        ensures err { OnErr result (self.new.rooms ≡ self.old.rooms) }
        ensures room { IfOk result (λ room. room.made_for ≡ room_for
            (option_copied doc.entry) body_bytes) }
        ensures out { IfOk result (λ room. IsTrue (is_outstanding self.new.rooms room.made_for)) }
        ensures checkpoints { self.new.checkpoints ≡ self.old.checkpoints }
        ensures known { self.new.known ≡ self.old.known }
        ensures reads { self.new.reads ≡ self.old.reads }
    {
        if let Some(why) = self.refusal(body_bytes) {
            return Err(why);
        }
        match self.make_room(doc, body_bytes) {
            Ok(made_for) => Ok(Room::new(made_for)),
            Err(_) => Err(NoRoom::Memory),
        }
    }

    /// Stores an entry that neither writes nor replaces the sync function, in the place of a room that ends, and gives a number up, where there is one, in the other.
    fn store_plain(&mut self, room: Room, spent: Option<u64>, number: u64, entry: Entry)
        requires spent { MayGiveUp self.old spent number }
        requires number { MayStore self.old.log self.old.pending number }
        requires out { IsTrue (is_outstanding self.old.rooms room.made_for) }
        requires entry { IsEntry entry }
        requires plain { IsPlain entry }
        ensures stored { history_on self.new ≡ kept_at self.old spent number entry }
        ensures book { book_on self.new
            ≡ with_entry number entry (book_with_unused spent (book_on self.old)) }
        ensures rooms { self.new.rooms ≡ without_room room.made_for self.old.rooms }
        ensures checkpoints { self.new.checkpoints ≡ self.old.checkpoints }
        ensures known { self.new.known ≡ self.old.known }
        ensures reads { self.new.reads ≡ self.old.reads }
    {
        grant_history::laws::extended(&self.grants);
        self.storage.end(room);
        self.storage.give_up(spent);
        self.storage.put_plain(number, entry);
        self.storage.release();
    }

    /// The same of a write, with the document's tree after it, and the number of the document's write before it.
    fn store_write(
        &mut self,
        room: Room,
        spent: Option<u64>,
        number: u64,
        entry: Write,
        tree: Tree,
        base: u64,
    )
        requires spent { MayGiveUp self.old spent number }
        requires number { MayStore self.old.log self.old.pending number }
        requires out { IsTrue (is_outstanding self.old.rooms room.made_for) }
        requires doc { room.made_for.doc ≡ Some entry.doc }
        requires entry { IsEntry (kinds.Write entry) }
        requires body { HasDocument entry.body }
        requires at { entry.at < number }
        requires base { base ≡ last_on self.old entry.doc }
        requires above { base < number }
        requires extends { ExtendsTree (tree_on self.old entry.doc) entry tree }
        ensures stored { history_on self.new
            ≡ kept_at self.old spent number (kinds.Write entry) }
        ensures book { book_on self.new ≡ with_entry number (kinds.Write entry)
            (book_with_unused spent (book_on self.old)) }
        ensures rooms { self.new.rooms ≡ without_room room.made_for self.old.rooms }
        ensures checkpoints { self.new.checkpoints ≡ self.old.checkpoints }
        ensures known { self.new.known ≡ self.old.known }
        ensures reads { self.new.reads ≡ self.old.reads }
    {
        grant_history::laws::extended(&self.grants);
        self.storage.end(room);
        self.storage.give_up(spent);
        self.storage.put_write(number, entry, tree, base);
        self.storage.release();
    }

    /// Stores a candidate whose document was not written since, gives a number up, where there is one, and answers where the
    /// candidate was made.
    fn store(&mut self, room: Room, spent: Option<u64>, number: u64, candidate: Candidate) -> u64
        requires spent { MayGiveUp self.old spent number }
        requires number { MayStore self.old.log self.old.pending number }
        requires out { IsTrue (is_outstanding self.old.rooms room.made_for) }
        requires fits { Fits room.made_for candidate }
        requires candidate { MayBeStored self.old number candidate }
        requires current { is_stale self.old candidate ≡ false }
        ensures at { result ≡ made_at candidate (length self.old.log) }
        ensures stored { history_on self.new
            ≡ kept_at self.old spent number (entry_of candidate) }
        ensures book { book_on self.new ≡ with_entry number (entry_of candidate)
            (book_with_unused spent (book_on self.old)) }
        ensures rooms { self.new.rooms ≡ without_room room.made_for self.old.rooms }
        ensures checkpoints { self.new.checkpoints ≡ self.old.checkpoints }
        ensures known { self.new.known ≡ self.old.known }
        ensures reads { self.new.reads ≡ self.old.reads }
    {
        match candidate {
            Candidate::Plain(entry) => {
                let at = self.front();
                self.store_plain(room, spent, number, entry);
                at
            }
            Candidate::Write { entry, tree, base } => {
                let at = entry.at;
                self.store_write(room, spent, number, entry, tree, base);
                at
            }
        }
    }

    /// The sequence of the last write of a candidate's document, where it was written since.
    fn written_since(&self, candidate: &Candidate) -> Option<u64>
        ensures last { IfSome result (λ last. last ≡ last_of self.now candidate.now) }
        ensures stale { IfSome result (λ last. is_stale self.now candidate.now ≡ true) }
        ensures fresh { IfNone result (is_stale self.now candidate.now ≡ false) }
    {
        match candidate {
            Candidate::Plain(_) => None,
            Candidate::Write { entry, base, .. } => {
                let last = self.last_write(&entry.doc);
                if last != *base { Some(last) } else { None }
            }
        }
    }

    /// Stores a candidate at a number that is held, in a room, or hands all back where its document was written since. It waits
    /// under its number; then the entries that come next are moved to the log. Allocates nothing.
    pub fn commit(&mut self, room: Room, number: Number, candidate: Candidate) -> Commit
        requires number { MayStore self.old.log self.old.pending number.value }
        requires out { IsTrue (is_outstanding self.old.rooms room.made_for) }
        requires fits { Fits room.made_for candidate }
        requires candidate { MayBeStored self.old number.value candidate }
        ensures stale { IfStale result (λ r n c last. is_stale self.old candidate ≡ true) }
        ensures fresh { IfStored result (λ sequence at. is_stale self.old candidate ≡ false) }
        ensures back { IfStale result (λ r n c last. (r ≡ room) × (n ≡ number) × (c ≡ candidate)
            × (last ≡ last_of self.old candidate)) }
        ensures same { IfStale result (λ r n c last. self.new ≡ self.old) }
        ensures answer { IfStored result (λ sequence at. (sequence ≡ number.value)
            × (at ≡ made_at candidate (length self.old.log))) }
        ensures stored { IfStored result (λ sequence at. history_on self.new
            ≡ stored_at self.old number.value (entry_of candidate)) }
        ensures book { IfStored result (λ sequence at. book_on self.new
            ≡ with_entry number.value (entry_of candidate) (book_on self.old)) }
        ensures rooms { IfStored result
            (λ sequence at. self.new.rooms ≡ without_room room.made_for self.old.rooms) }
        ensures checkpoints { self.new.checkpoints ≡ self.old.checkpoints }
        ensures known { self.new.known ≡ self.old.known }
        ensures reads { self.new.reads ≡ self.old.reads }
    {
        match self.written_since(&candidate) {
            Some(last) => Commit::Stale {
                room,
                number,
                candidate,
                last,
            },
            None => {
                let sequence = number.spend();
                let at = self.store(room, None, sequence, candidate);
                Commit::Stored { sequence, at }
            }
        }
    }

    /// Gives up a number that a write has overtaken, so that it stays unused, and stores a candidate at another, in a room. Its
    /// document was not written since the candidate was made. Allocates nothing.
    pub fn swap_commit(
        &mut self,
        room: Room,
        spent: Number,
        fresh: Number,
        candidate: Candidate,
    ) -> Commit
        requires spent { MayStore self.old.log self.old.pending spent.value }
        requires fresh { MayStore self.old.log self.old.pending fresh.value }
        requires apart { spent.value ≢ fresh.value }
        requires out { IsTrue (is_outstanding self.old.rooms room.made_for) }
        requires fits { Fits room.made_for candidate }
        requires candidate { MayBeStored self.old fresh.value candidate }
        requires current { is_stale self.old candidate ≡ false }
        ensures answer { result ≡ kinds_of_commit.Stored fresh.value
            (made_at candidate (length self.old.log)) }
        ensures stored { history_on self.new
            ≡ swapped_to self.old spent.value fresh.value (entry_of candidate) }
        ensures book { book_on self.new ≡ with_entry fresh.value (entry_of candidate)
            (with_entry spent.value kinds.Unused (book_on self.old)) }
        ensures rooms { self.new.rooms ≡ without_room room.made_for self.old.rooms }
        ensures checkpoints { self.new.checkpoints ≡ self.old.checkpoints }
        ensures known { self.new.known ≡ self.old.known }
        ensures reads { self.new.reads ≡ self.old.reads }
    {
        let spent = spent.spend();
        let sequence = fresh.spend();
        let at = self.store(room, Some(spent), sequence, candidate);
        Commit::Stored { sequence, at }
    }

    /// Gives up a number that is held and the room for its entry: it stays unused. Allocates nothing.
    pub fn void(&mut self, room: Room, number: Number)
        requires number { MayStore self.old.log self.old.pending number.value }
        requires out { IsTrue (is_outstanding self.old.rooms room.made_for) }
        ensures stored { history_on self.new ≡ stored_at self.old number.value kinds.Unused }
        ensures book { book_on self.new
            ≡ with_entry number.value kinds.Unused (book_on self.old) }
        ensures rooms { self.new.rooms ≡ without_room room.made_for self.old.rooms }
        ensures checkpoints { self.new.checkpoints ≡ self.old.checkpoints }
        ensures known { self.new.known ≡ self.old.known }
        ensures reads { self.new.reads ≡ self.old.reads }
    {
        let number = number.spend();
        self.store_plain(room, None, number, Entry::Unused);
    }
}
