//! The shelf: what the gateway keeps of its documents.

ghost use Rattle.std.specs.Prelude.{◌≡◌, ◌≢◌, ◌≤◌, ◌<◌, ◌||◌, ◌++◌, ◌∷◌, [], length, None, Some, IfOk, OnOk, OnErr, IsTrue};
ghost use Rattle.std.specs.Option.{option_copied};
ghost use Rattle.checkpoint_store.specs.Answers.{kept_at};
ghost use Rattle.checkpoint_store.specs.Checkpoints.{checkpoint_text};
ghost use Rattle.sg_history.specs.declared.entries.Entry.TheVariants as kinds;
ghost use Rattle.sg_history.specs.Feed.{feed};
ghost use Rattle.sg_history.specs.History.{past};
ghost use Rattle.sg_history.specs.Journal.{IsEntry};
ghost use Rattle.sg_history.specs.Rooms.{without_room};
ghost use Rattle.pending_front.specs.Storing.{MayStore};
ghost use Rattle.changes_feed.specs.Feeds.{FeedsStandFor};
ghost use Rattle.principals.specs.Script.{entry_of};
ghost use Rattle.doc_board.specs.declared.outcome.Outcome.TheVariants as outcomes;
ghost use Rattle.doc_board.specs.Boards.{board_of};
ghost use Rattle.doc_board.specs.Candidates.{IsPlain};
ghost use Rattle.doc_board.specs.Lawful.{AreEntries};
ghost use Rattle.doc_board.specs.Limits.{IsRefusedBy, refusal};
ghost use Rattle.doc_board.specs.Outcomes.{IsByLimits, IsOutcome, IsWellFormed, bytes_of};
ghost use Rattle.doc_board.specs.Rooms.{is_outstanding, room_for};
ghost use Rattle.doc_board.specs.State.{State, book_on};
ghost use Rattle.doc_board.specs.Steps.{history_on, stored_at, swapped_to, with_entry};
ghost use Rattle.board_steps.specs.Asks.{AskedAt};
ghost use Rattle.board_steps.specs.Bodies.{BodiesAt};
ghost use Rattle.board_steps.specs.Feed.{FeedAt};
ghost use Rattle.board_steps.specs.After.{IsBoardCommanded, IsAsBefore, IsBoardAfter};
ghost use Rattle.board_steps.specs.Retry.{FitsReady, IsHeldReady};
ghost use Rattle.write_path.specs.Checkpoints.{IsBoardSet};
ghost use Rattle.write_path.specs.Shelf.{shelf_state};
ghost use Rattle.board_steps.specs.Tried.{IsJudgedAt, IsTried, WasAccepted};

use board_steps::{
    Accepted, Judged, Ready, Retried, asked_at, bodies_at, command_to, commit_fresh, extension_of,
    propose_to, store_at_fresh, store_or_retry,
};
use changes_feed::Feeds;
use changes_feed::laws::extended;
use doc_board::{Board, Candidate, Kept0, NoRoom, Outcome, Room, SetAnswer};
use principals::Command;
use repl_messages::{Asked, Bodies, Fed, Offer, Revision};
use seq_gate::Kept;
use sg_history::{Client, DocId, Entry, Key, LogReads, Name, Number, Options, Row, Rows};
use sg_outside::{Bytes, Memory};
use std::alloc::Global;
use std::marker::Model;
use sync_resolve::Resolved;

/// The most channels that the feeds keep, and the most users whose periods they keep.
const KEPT_CHANNELS: u64 = 1024;

/// What the gateway keeps of its documents, behind every ground: a board, and what looks for feeds keep of its log. It may stand
/// behind a gate.
#[derive(Drop)]
pub struct Shelf {
    board: Board,
    feeds: Feeds,
}

impl Model for Shelf {
    ghost use Rattle.changes_feed.specs.Feeds.{FeedsStandFor};
    ghost use Rattle.write_path.specs.Shelf.{Shelved};

    ghost Value = { Shelved };

    ghost view = { λ shelf. record { board = shelf.board; feeds = shelf.feeds } };

    ghost invariant = { λ shelf. FeedsStandFor shelf.feeds shelf.board.log };
}

/// The rows of a user's changes feed at the end of a board's log, to which its history of grants is applied.
fn rows_at(
    feeds: &mut Feeds,
    board: &Board,
    user: &Name,
    since: &Key,
    front: u64,
    options: &Options,
) -> Result<Rows, Memory>
    requires stands { FeedsStandFor feeds.old board.now.log }
    requires known { board.now.known ≡ length board.now.log }
    requires front { front ≡ length board.now.log }
    ensures rows { IfOk result (λ rows. rows
        ≡ feed (past board.now.log front) user.now since.now options.now) }
    ensures stands { FeedsStandFor feeds.new board.now.log }
{
    let mut log = LogReads::new(board.log());
    let advanced = feeds.advance_by(board.grants(), &mut log, user, since, front, options)?;
    Ok(advanced.rows)
}

impl Shelf {
    /// The shelf of a board. Out of memory the board is lost.
    pub fn new(board: Board) -> Result<Shelf, Memory>
        ensures { IfOk result (λ shelf. shelf.board ≡ board) }
    {
        match Feeds::new(board.allocator(), KEPT_CHANNELS) {
            Ok(feeds) => Ok(Shelf { board, feeds }),
            Err(error) => {
                drop(board);
                Err(error)
            }
        }
    }

    /// The board.
    pub fn board(&self) -> &Board
        ensures { result.now ≡ self.now.board }
    {
        &self.board
    }

    /// The board, without the rest.
    pub fn into_board(self) -> Board
        ensures { result ≡ self.board }
    {
        let Shelf { board, feeds } = self;
        drop(feeds);
        board
    }
}

// What every ground has it do.
impl Shelf {
    /// What its board answers for a user's feed after a since key, at the end of its log.
    pub(crate) fn feed(
        &mut self,
        user: &Name,
        since: &Key,
        options: &Options,
    ) -> Result<Fed, Memory>
        ensures answer { IfOk result (FeedAt self.old.board.log user.now since.now options.now) }
        ensures same { IsAsBefore self.old.board self.new.board }
    {
        extended(&self.feeds);
        let front = self.board.front();
        if since.by > front {
            return Ok(Fed::Future { front });
        }
        self.board.apply_grants()?;
        let rows = rows_at(&mut self.feeds, &self.board, user, since, front, options)?;
        Ok(Fed::Rows { front, rows })
    }

    /// What its board answers for the rows that a device wants.
    pub(crate) fn bodies(
        &mut self,
        alloc: Global,
        user: &Name,
        options: &Options,
        rows: &[Row],
        most: u64,
    ) -> Result<Bodies, Memory>
        ensures answer { IfOk result
            (BodiesAt (shelf_state self.old) user.now options.now rows.now most) }
        ensures same { IsAsBefore self.old.board self.new.board }
    {
        extended(&self.feeds);
        bodies_at(alloc, &mut self.board, user, options, rows, most)
    }

    /// What its board answers for the revisions that a device offers.
    pub(crate) fn ask(&self, alloc: Global, offers: &[Offer]) -> Result<Asked, Memory>
        ensures { IfOk result (AskedAt (shelf_state self.now) offers.now) }
    {
        asked_at(alloc, &self.board, offers)
    }

    /// The checkpoint of a user's client at its board, with its whole body.
    pub(crate) fn get_checkpoint(&self, user: &Name, client: &Client) -> Result<Kept0, Memory>
        ensures { IfOk result (λ found. found
            ≡ kept_at self.now.board.checkpoints (checkpoint_text user.now client.now)) }
    {
        self.board.get_checkpoint(user, client)
    }

    /// Gives a user's client at its board this body as its checkpoint, or answers why not.
    pub(crate) fn set_checkpoint(
        &mut self,
        user: &Name,
        client: &Client,
        rev: u64,
        body: Bytes,
    ) -> SetAnswer
        ensures { IsBoardSet self.old.board self.new.board (checkpoint_text user.now client.now) rev body
            result }
    {
        extended(&self.feeds);
        self.board.set_checkpoint(user, client, rev, body)
    }
}

// What a ground with one owner has it do.
impl Shelf {
    /// Proposes a revision to its board, at which nothing waits.
    pub(crate) fn propose(
        &mut self,
        alloc: Global,
        program: &Resolved,
        by: Option<&Name>,
        strict: bool,
        revision: Revision,
    ) -> Outcome
        requires pending { self.old.board.pending ≡ [] }
        requires rooms { self.old.board.rooms ≡ [] }
        ensures outcome { IsOutcome program.now (strict || revision.noconflicts)
            (option_copied by.entry) revision (shelf_state self.old) result }
        ensures limits { IsByLimits (bytes_of revision) (shelf_state self.old) result }
        ensures board { IsBoardAfter self.old.board self.new.board program.now
            (option_copied by.entry) revision result }
    {
        extended(&self.feeds);
        propose_to(alloc, &mut self.board, program, by, strict, revision)
    }

    /// Puts or drops a user or a role at its board, at which nothing waits.
    pub(crate) fn command(&mut self, command: Command) -> Outcome
        requires pending { self.old.board.pending ≡ [] }
        requires rooms { self.old.board.rooms ≡ [] }
        requires entry { IsEntry (entry_of command) }
        ensures board { IsBoardCommanded self.old.board self.new.board (entry_of command) result }
        ensures limits { IsByLimits 0 (shelf_state self.old) result }
    {
        extended(&self.feeds);
        command_to(&mut self.board, command)
    }
}

// What a ground that others share has it do in its turns.
impl Shelf {
    /// Has its board judge a revision that is well formed.
    pub(crate) fn extension(
        &mut self,
        revision: &Revision,
        strict: bool,
        by: Option<&Name>,
    ) -> Result<Judged, Outcome>
        requires { IsWellFormed revision.now }
        ensures same { IsAsBefore self.old.board self.new.board }
        ensures judged { IsJudgedAt self.old.board strict (option_copied by.entry) revision.now
            result }
    {
        extended(&self.feeds);
        extension_of(&mut self.board, revision, strict, by)
    }

    /// The length of its board's log, and a room that is made there, or why there is none.
    pub(crate) fn room(&mut self, doc: Option<&DocId>, bytes: u64) -> (u64, Result<Room, NoRoom>)
        requires { bytes ≤ 20971520 }
        ensures front { result.0 ≡ length self.old.board.log }
        ensures log { self.new.board.log ≡ self.old.board.log }
        ensures pending { self.new.board.pending ≡ self.old.board.pending }
        ensures refused { IsRefusedBy (refusal (board_of self.old.board) bytes) result.1 }
        ensures ok { OnOk result.1 (self.new.board.rooms ≡ self.old.board.rooms
            ++ room_for (option_copied doc.entry) bytes ∷ []) }
        ensures err { OnErr result.1 (self.new.board.rooms ≡ self.old.board.rooms) }
        ensures room { IfOk result.1 (λ room. room.made_for
            ≡ room_for (option_copied doc.entry) bytes) }
        ensures checkpoints { self.new.board.checkpoints ≡ self.old.board.checkpoints }
    {
        extended(&self.feeds);
        let at = self.board.front();
        (at, self.board.room(doc, bytes))
    }

    /// Stores an entry that neither writes nor replaces the sync function at a number that is held, in its room: the number.
    pub(crate) fn store_plain(&mut self, room: Room, number: Number, entry: Entry) -> u64
        requires number { MayStore self.old.board.log self.old.board.pending number.value }
        requires out { IsTrue (is_outstanding self.old.board.rooms room.made_for) }
        requires fits { room.made_for.doc ≡ None }
        requires entry { IsEntry entry }
        requires plain { IsPlain entry }
        ensures sequence { result ≡ number.value }
        ensures stored { history_on self.new.board ≡ stored_at self.old.board number.value entry }
        ensures book { book_on self.new.board
            ≡ with_entry number.value entry (book_on self.old.board) }
        ensures rooms { self.new.board.rooms
            ≡ without_room room.made_for self.old.board.rooms }
        ensures checkpoints { self.new.board.checkpoints ≡ self.old.board.checkpoints }
        ensures entries { AreEntries (book_on self.old.board) }
    {
        extended(&self.feeds);
        let _ = self.board.log();
        commit_fresh(&mut self.board, room, number, Candidate::Plain(entry))
    }

    /// Stores the write of an accepted revision, or tries it again.
    pub(crate) fn store_or_retry(
        &mut self,
        alloc: Global,
        program: &Resolved,
        by: Option<&Name>,
        strict: bool,
        revision: Revision,
        accepted: Accepted,
        room: Room,
        number: Number,
    ) -> Retried
        requires formed { IsWellFormed revision }
        requires number { MayStore self.old.board.log self.old.board.pending number.value }
        requires out { IsTrue (is_outstanding self.old.board.rooms room.made_for) }
        requires doc { room.made_for.doc ≡ Some revision.doc }
        requires bytes { bytes_of revision ≤ room.made_for.bytes }
        requires accepted { (judged : State) × WasAccepted judged self.old.board program.now
            strict (option_copied by) revision number.value accepted }
        ensures { (judged : State)
            → WasAccepted judged self.old.board program.now strict (option_copied by.entry)
            revision number.value accepted
            → IsTried judged self.old.board self.new.board program.now strict
            (option_copied by.entry) revision room number result }
    {
        extended(&self.feeds);
        store_or_retry(
            alloc,
            &mut self.board,
            program,
            by,
            strict,
            revision,
            accepted,
            room,
            number,
        )
    }

    /// Stores a write that has overtaken its number at a fresh one, and gives the other up.
    pub(crate) fn store_at_fresh(
        &mut self,
        room: Room,
        number: Number,
        fresh: Number,
        ready: Ready,
    ) -> Outcome
        requires spent { MayStore self.old.board.log self.old.board.pending number.value }
        requires fresh { MayStore self.old.board.log self.old.board.pending fresh.value }
        requires apart { number.value ≢ fresh.value }
        requires out { IsTrue (is_outstanding self.old.board.rooms room.made_for) }
        requires fits { FitsReady room.made_for ready }
        requires ready { IsHeldReady self.old.board ready }
        requires above { ready.base < fresh.value }
        ensures answer { result ≡ outcomes.Stored fresh.value ready.entry.at }
        ensures stored { history_on self.new.board ≡ swapped_to self.old.board number.value
            fresh.value (kinds.Write ready.entry) }
        ensures book { book_on self.new.board ≡ with_entry fresh.value (kinds.Write ready.entry)
            (with_entry number.value kinds.Unused (book_on self.old.board)) }
        ensures rooms { self.new.board.rooms
            ≡ without_room room.made_for self.old.board.rooms }
        ensures checkpoints { self.new.board.checkpoints ≡ self.old.board.checkpoints }
    {
        extended(&self.feeds);
        store_at_fresh(&mut self.board, room, number, fresh, ready)
    }
}

impl Kept for Shelf {
    ghost seen = { shelf_state };

    fn front(&self) -> u64
        ensures { result ≡ length (shelf_state self.now).log }
    {
        self.board.front()
    }
}
