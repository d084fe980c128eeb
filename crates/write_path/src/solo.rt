//! A ground that owns its shelf.

ghost use Rattle.std.specs.Prelude.{◌≡◌, ◌≤◌, ◌^◌, ◌||◌, [], ◌∷◌, Some, length, IfOk};
ghost use Rattle.std.specs.Option.{option_copied};
ghost use Rattle.checkpoint_store.specs.Answers.{kept_at};
ghost use Rattle.checkpoint_store.specs.Checkpoints.{checkpoint_text};
ghost use Rattle.sg_history.specs.Board.{BoardState, IsAfterAll};
ghost use Rattle.sg_history.specs.Journal.{IsEntry};
ghost use Rattle.principals.specs.Script.{entry_of};
ghost use Rattle.doc_board.specs.Boards.{board_of};
ghost use Rattle.doc_board.specs.Outcomes.{IsByLimits, IsOutcome, bytes_of};
ghost use Rattle.board_steps.specs.Asks.{AskedAt};
ghost use Rattle.board_steps.specs.Bodies.{BodiesAt};
ghost use Rattle.write_path.specs.Checkpoints.{HasCheckpoints, IsBoardSet, SetsCheckpoint};
ghost use Rattle.write_path.specs.Commands.{Commands};
ghost use Rattle.board_steps.specs.After.{IsBoardCommanded, IsAsBefore, IsBoardAfter};
ghost use Rattle.board_steps.specs.Feed.{FeedAt};
ghost use Rattle.write_path.specs.Own.{EndsWith, own_after};
ghost use Rattle.write_path.specs.Proposals.{Stores, recorded_after};
ghost use Rattle.write_path.specs.Origins.{Spends, Stays};
ghost use Rattle.write_path.specs.Reads.{HasLength, IsLaterThanAll, Reads, WasRead};
ghost use Rattle.write_path.specs.Shelf.{shelf_state};
ghost use Rattle.write_path.specs.Solo.{solo_origin};

use crate::ground::Ground;
use crate::shelf::Shelf;
use crate::trail::{OwnEntries, Trail};
use doc_board::{Board, Kept0, Outcome, SetAnswer};
use principals::Command;
use repl_messages::{Asked, Bodies, Fed, Offer, Revision};
use sg_history::{Client, Key, Name, Options, Row, entry_at};
use sg_outside::{Bytes, Memory};
use std::alloc::Global;
use std::marker::Model;
use sync_resolve::Resolved;

/// A ground that owns its shelf and waits for nobody. Nothing waits at its board, and no room is outstanding between its calls.
/// Its log ends with the entries that it has stored. It draws from no gate: it has as many draws as a gate has at first, and
/// spends none.
#[derive(Drop)]
pub struct SoloGround {
    shelf: Shelf,
    read: Trail,
    own: OwnEntries,
}

impl Model for SoloGround {
    ghost use Rattle.std.specs.Prelude.{◌≡◌, []};
    ghost use Rattle.sg_history.specs.Board.{IsAfterAll};
    ghost use Rattle.write_path.specs.Own.{EndsWith};
    ghost use Rattle.write_path.specs.Shelf.{shelf_state};
    ghost use Rattle.write_path.specs.Solo.{Solo};

    ghost Value = { Solo };

    ghost view = { λ g. record { board = g.shelf.board; read = g.read; own = g.own } };

    ghost invariant = { λ g. IsAfterAll g.read (shelf_state g.shelf)
        × (g.shelf.board.rooms ≡ [])
        × EndsWith g.shelf.board.log g.own × (g.shelf.board.pending ≡ []) };
}

impl SoloGround {
    /// A ground over a shelf at whose board nothing waits, which counts as read. Allocates nothing.
    pub fn new(shelf: Shelf) -> SoloGround
        requires pending { shelf.board.pending ≡ [] }
        requires rooms { shelf.board.rooms ≡ [] }
        ensures board { result.board ≡ shelf.board }
        ensures read { result.read ≡ shelf_state shelf ∷ [] }
        ensures own { result.own ≡ [] }
    {
        sg_history::laws::boards();
        let mut read = Trail::new();
        read.add(&shelf);
        SoloGround {
            shelf,
            read,
            own: OwnEntries::new(),
        }
    }

    /// The shelf, whose board comes after all that were read, so that its history counts for them, and ends with the entries that
    /// were stored, in their order; nothing waits, and no room is outstanding.
    pub fn into_inner(self) -> Shelf
        ensures board { result.board ≡ self.board }
        ensures pending { result.board.pending ≡ [] }
        ensures rooms { result.board.rooms ≡ [] }
        ensures after { IsAfterAll self.read (shelf_state result) }
        ensures later { IsLaterThanAll self.read result.board.log }
        ensures ends { EndsWith result.board.log self.own }
    {
        let SoloGround {
            shelf,
            read: _read,
            own: _own,
        } = self;
        shelf
    }
}

/// Records the entry that was stored, where one was.
fn record_own(own: &mut OwnEntries, board: &Board, outcome: &Outcome)
    ensures { own.new ≡ own_after own.old board.now.log outcome.now }
{
    if let Outcome::Stored { sequence, .. } = outcome {
        if let Some(entry) = entry_at(board.log().entries.as_slice(), &[], *sequence) {
            own.add(*sequence, entry);
        }
    }
}

impl Ground for SoloGround {
    ghost use Rattle.std.specs.Prelude.{Some, length, ◌^◌};
    ghost use Rattle.write_path.specs.Solo.{solo_origin};

    ghost read = { λ g. g.read };

    ghost lowest_front = { λ g. length g.board.log };

    ghost recorded = { λ g. Some (length g.board.log) };

    ghost checkpoints = { λ g. Some g.board.checkpoints };

    ghost own = { λ g. g.own };

    ghost left = { λ g. 2 ^ 62 };

    ghost origin = { λ g. solo_origin };

    fn left(&self) -> u64
        ensures { result ≡ 2 ^ 62 }
    {
        1 << 62
    }

    fn front(&mut self) -> u64
        ensures read { self.new.read ≡ self.old.read }
        ensures rises { length self.old.board.log ≤ result }
        ensures lowest_front { length self.new.board.log ≡ result }
        ensures recorded { Some (length self.new.board.log)
            ≡ Some (length self.old.board.log) }
        ensures checkpoints { Some self.new.board.checkpoints
            ≡ Some self.old.board.checkpoints }
        ensures own { self.new.own ≡ self.old.own }
        ensures stays { Stays solo_origin solo_origin (2 ^ 62) (2 ^ 62) }
        ensures length { result ≡ length self.old.board.log }
        ensures same { IsAsBefore self.old.board self.new.board }
    {
        self.shelf.board().front()
    }

    fn feed(
        &mut self,
        _alloc: Global,
        user: &Name,
        since: &Key,
        options: &Options,
    ) -> Result<Fed, Memory>
        ensures reads { Reads self.old.read self.new.read (length self.old.board.log)
            (length self.new.board.log) }
        ensures recorded { Some (length self.new.board.log)
            ≡ Some (length self.old.board.log) }
        ensures checkpoints { Some self.new.board.checkpoints
            ≡ Some self.old.board.checkpoints }
        ensures own { self.new.own ≡ self.old.own }
        ensures stays { Stays solo_origin solo_origin (2 ^ 62) (2 ^ 62) }
        ensures answer { IfOk result (λ fed. (b : BoardState)
            × WasRead self.old.read self.new.read b × HasLength (Some (length self.old.board.log)) b
            × FeedAt b.log user.now since.now options.now fed) }
        ensures same { IsAsBefore self.old.board self.new.board }
    {
        sg_history::laws::boards();
        self.read.add(&self.shelf);
        self.shelf.feed(user, since, options)
    }

    fn bodies(
        &mut self,
        alloc: Global,
        user: &Name,
        options: &Options,
        rows: &[Row],
        most: u64,
    ) -> Result<Bodies, Memory>
        ensures reads { Reads self.old.read self.new.read (length self.old.board.log)
            (length self.new.board.log) }
        ensures recorded { Some (length self.new.board.log)
            ≡ Some (length self.old.board.log) }
        ensures checkpoints { Some self.new.board.checkpoints
            ≡ Some self.old.board.checkpoints }
        ensures own { self.new.own ≡ self.old.own }
        ensures stays { Stays solo_origin solo_origin (2 ^ 62) (2 ^ 62) }
        ensures answer { IfOk result (λ bodies. (b : BoardState)
            × WasRead self.old.read self.new.read b × HasLength (Some (length self.old.board.log)) b
            × BodiesAt b user.now options.now rows.now most bodies) }
        ensures same { IsAsBefore self.old.board self.new.board }
    {
        sg_history::laws::boards();
        self.read.add(&self.shelf);
        self.shelf.bodies(alloc, user, options, rows, most)
    }

    fn ask(&mut self, alloc: Global, offers: &[Offer]) -> Result<Asked, Memory>
        ensures reads { Reads self.old.read self.new.read (length self.old.board.log)
            (length self.new.board.log) }
        ensures recorded { Some (length self.new.board.log)
            ≡ Some (length self.old.board.log) }
        ensures checkpoints { Some self.new.board.checkpoints
            ≡ Some self.old.board.checkpoints }
        ensures own { self.new.own ≡ self.old.own }
        ensures stays { Stays solo_origin solo_origin (2 ^ 62) (2 ^ 62) }
        ensures answer { IfOk result (λ asked. (b : BoardState)
            × WasRead self.old.read self.new.read b × HasLength (Some (length self.old.board.log)) b
            × AskedAt b offers.now asked) }
        ensures same { IsAsBefore self.old.board self.new.board }
    {
        sg_history::laws::boards();
        self.read.add(&self.shelf);
        self.shelf.ask(alloc, offers)
    }

    fn propose(
        &mut self,
        alloc: Global,
        program: &Resolved,
        by: Option<&Name>,
        strict: bool,
        revision: Revision,
    ) -> Outcome
        ensures stores { Stores self.old.read self.new.read (length self.old.board.log)
            (length self.new.board.log) self.old.own self.new.own
            (Some (length self.old.board.log)) program.now (strict || revision.noconflicts)
            (option_copied by.entry) revision result }
        ensures recorded { Some (length self.new.board.log)
            ≡ recorded_after (Some (length self.old.board.log)) result }
        ensures checkpoints { Some self.new.board.checkpoints
            ≡ Some self.old.board.checkpoints }
        ensures spends { Spends solo_origin solo_origin (2 ^ 62) (2 ^ 62) }
        ensures outcome { IsOutcome program.now (strict || revision.noconflicts)
            (option_copied by.entry) revision (board_of self.old.board) result }
        ensures own { self.new.own ≡ own_after self.old.own self.new.board.log result }
        ensures limits { IsByLimits (bytes_of revision) (board_of self.old.board) result }
        // The board is as before at every answer other than Stored.
        ensures board { IsBoardAfter self.old.board self.new.board program.now
            (option_copied by.entry) revision result }
    {
        sg_history::laws::boards();
        sg_history::laws::later();
        doc_board::laws::boards();
        doc_board::laws::alone();
        doc_board::laws::last_writes();
        doc_board::laws::judged_writes();
        self.read.add(&self.shelf);
        let outcome = self.shelf.propose(alloc, program, by, strict, revision);
        self.read.add(&self.shelf);
        record_own(&mut self.own, self.shelf.board(), &outcome);
        outcome
    }

    fn command(&mut self, command: Command) -> Outcome
        requires { IsEntry (entry_of command) }
        ensures commands { Commands self.old.read self.new.read (length self.old.board.log)
            (length self.new.board.log) self.old.own self.new.own
            (Some (length self.old.board.log)) (entry_of command) result }
        ensures recorded { Some (length self.new.board.log)
            ≡ recorded_after (Some (length self.old.board.log)) result }
        ensures checkpoints { Some self.new.board.checkpoints
            ≡ Some self.old.board.checkpoints }
        ensures spends { Spends solo_origin solo_origin (2 ^ 62) (2 ^ 62) }
        ensures own { self.new.own ≡ own_after self.old.own self.new.board.log result }
        ensures limits { IsByLimits 0 (board_of self.old.board) result }
        // The board is as before at every answer other than Stored.
        ensures board { IsBoardCommanded self.old.board self.new.board (entry_of command) result }
    {
        sg_history::laws::boards();
        sg_history::laws::later();
        self.read.add(&self.shelf);
        let outcome = self.shelf.command(command);
        self.read.add(&self.shelf);
        record_own(&mut self.own, self.shelf.board(), &outcome);
        outcome
    }

    fn get_checkpoint(&mut self, user: &Name, client: &Client) -> Result<Kept0, Memory>
        ensures reads { Reads self.old.read self.new.read (length self.old.board.log)
            (length self.new.board.log) }
        ensures recorded { Some (length self.new.board.log)
            ≡ Some (length self.old.board.log) }
        ensures checkpoints { Some self.new.board.checkpoints
            ≡ Some self.old.board.checkpoints }
        ensures own { self.new.own ≡ self.old.own }
        ensures stays { Stays solo_origin solo_origin (2 ^ 62) (2 ^ 62) }
        ensures answer { IfOk result (λ kept. (b : BoardState)
            × WasRead self.old.read self.new.read b
            × HasCheckpoints (Some self.old.board.checkpoints) b
            × (kept ≡ kept_at b.side (checkpoint_text user.now client.now))) }
        ensures same { IsAsBefore self.old.board self.new.board }
    {
        sg_history::laws::boards();
        self.read.add(&self.shelf);
        self.shelf.get_checkpoint(user, client)
    }

    fn set_checkpoint(&mut self, user: &Name, client: &Client, rev: u64, body: Bytes) -> SetAnswer
        ensures reads { Reads self.old.read self.new.read (length self.old.board.log)
            (length self.new.board.log) }
        ensures recorded { Some (length self.new.board.log)
            ≡ Some (length self.old.board.log) }
        ensures own { self.new.own ≡ self.old.own }
        ensures stays { Stays solo_origin solo_origin (2 ^ 62) (2 ^ 62) }
        ensures sets { SetsCheckpoint self.old.read self.new.read
            (Some self.old.board.checkpoints) (Some self.new.board.checkpoints)
            (checkpoint_text user.now client.now) rev body result }
        ensures board { IsBoardSet self.old.board self.new.board (checkpoint_text user.now client.now)
            rev body result }
    {
        sg_history::laws::boards();
        doc_board::laws::after();
        self.read.add(&self.shelf);
        let answer = self.shelf.set_checkpoint(user, client, rev, body);
        self.read.add(&self.shelf);
        answer
    }
}
