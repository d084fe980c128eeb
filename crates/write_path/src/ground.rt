//! Where a session reads the history.

ghost use Rattle.std.specs.Prelude.{◌≡◌, ◌≤◌, ◌||◌, ℕ, List, Option, IfOk, IfSome};
ghost use Rattle.std.specs.Option.{option_copied};
ghost use Rattle.sg_history.specs.declared.book.Waiting.{Waiting};
ghost use Rattle.sg_history.specs.Board.{BoardState, SideEntry};
ghost use Rattle.checkpoint_store.specs.Answers.{kept_at};
ghost use Rattle.checkpoint_store.specs.Checkpoints.{checkpoint_text};
ghost use Rattle.sg_history.specs.Journal.{IsEntry};
ghost use Rattle.principals.specs.Script.{entry_of};
ghost use Rattle.write_path.specs.Reads.{Reads, WasRead, HasLength};
ghost use Rattle.board_steps.specs.Feed.{FeedAt};
ghost use Rattle.board_steps.specs.Bodies.{BodiesAt};
ghost use Rattle.board_steps.specs.Asks.{AskedAt};
ghost use Rattle.write_path.specs.Origins.{Origin, Spends, Stays};
ghost use Rattle.write_path.specs.Checkpoints.{HasCheckpoints, SetsCheckpoint};
ghost use Rattle.write_path.specs.Commands.{Commands};
ghost use Rattle.write_path.specs.Proposals.{Stores, recorded_after};

use doc_board::{Kept0, Outcome, SetAnswer};
use principals::Command;
use repl_messages::{Asked, Bodies, Fed, Offer, Revision};
use sg_history::{Client, Key, Name, Options, Row};
use sg_outside::{Bytes, Memory};
use std::alloc::Global;
use sync_resolve::Resolved;

/// Where a session reads the history. Others may change it between two calls: each call that reads
/// adds the boards that it read to those that were, and its answer is that of the log of one of them.
pub trait Ground: Drop {
    /// The boards that it has read, the newest first.
    ghost read: { Self → List BoardState };

    /// No front that it answers from now on is below this.
    ghost lowest_front: { Self → ℕ };

    /// The length of the log, where nobody else changes it.
    ghost recorded: { Self → Option ℕ };

    /// The checkpoints, where nobody else changes them.
    ghost checkpoints: { Self → Option (List SideEntry) };

    /// The entries that it has stored, with their numbers, the newest first.
    ghost own: { Self → List Waiting };

    /// How many draws of sequences are left.
    ghost left: { Self → ℕ };

    /// Where its draws come from, and how many they are in all. No call changes it.
    ghost origin: { Self → Origin };

    /// How many draws of sequences are left.
    fn left(&self) -> u64
        ensures { result ≡ left self.now };

    /// The length of the log, without a read: no front that it answered before is above it.
    fn front(&mut self) -> u64
        ensures read { read self.new ≡ read self.old }
        ensures rises { lowest_front self.old ≤ result }
        ensures lowest_front { lowest_front self.new ≡ result }
        ensures recorded { recorded self.new ≡ recorded self.old }
        ensures checkpoints { checkpoints self.new ≡ checkpoints self.old }
        ensures own { own self.new ≡ own self.old }
        ensures stays { Stays (origin self.old) (origin self.new) (left self.old) (left self.new) }
        ensures length { IfSome (recorded self.old) (λ n. result ≡ n) };

    /// Reads the history for a user's feed after a since key. Out of memory it may have read, or not.
    fn feed(
        &mut self,
        alloc: Global,
        user: &Name,
        since: &Key,
        options: &Options,
    ) -> Result<Fed, Memory>
        ensures reads { Reads (read self.old) (read self.new) (lowest_front self.old)
            (lowest_front self.new) }
        ensures recorded { recorded self.new ≡ recorded self.old }
        ensures checkpoints { checkpoints self.new ≡ checkpoints self.old }
        ensures own { own self.new ≡ own self.old }
        ensures stays { Stays (origin self.old) (origin self.new) (left self.old) (left self.new) }
        ensures answer { IfOk result (λ fed. (b : BoardState)
            × WasRead (read self.old) (read self.new) b × HasLength (recorded self.old) b
            × FeedAt b.log user.now since.now options.now fed) };

    /// Reads the history for the bodies of rows, each with at most `most` ancestors. Out of memory it
    /// may have read, or not.
    fn bodies(
        &mut self,
        alloc: Global,
        user: &Name,
        options: &Options,
        rows: &[Row],
        most: u64,
    ) -> Result<Bodies, Memory>
        ensures reads { Reads (read self.old) (read self.new) (lowest_front self.old)
            (lowest_front self.new) }
        ensures recorded { recorded self.new ≡ recorded self.old }
        ensures checkpoints { checkpoints self.new ≡ checkpoints self.old }
        ensures own { own self.new ≡ own self.old }
        ensures stays { Stays (origin self.old) (origin self.new) (left self.old) (left self.new) }
        ensures answer { IfOk result (λ bodies. (b : BoardState)
            × WasRead (read self.old) (read self.new) b × HasLength (recorded self.old) b
            × BodiesAt b user.now options.now rows.now most bodies) };

    /// Reads the documents' trees for revisions that a device offers. Out of memory it may have read, or not.
    fn ask(&mut self, alloc: Global, offers: &[Offer]) -> Result<Asked, Memory>
        ensures reads { Reads (read self.old) (read self.new) (lowest_front self.old)
            (lowest_front self.new) }
        ensures recorded { recorded self.new ≡ recorded self.old }
        ensures checkpoints { checkpoints self.new ≡ checkpoints self.old }
        ensures own { own self.new ≡ own self.old }
        ensures stays { Stays (origin self.old) (origin self.new) (left self.old) (left self.new) }
        ensures answer { IfOk result (λ asked. (b : BoardState)
            × WasRead (read self.old) (read self.new) b × HasLength (recorded self.old) b
            × AskedAt b offers.now asked) };

    /// Proposes a revision, by a user or, where there is none, by the administrator. Under `strict` it may make no conflict, nor
    /// where the revision says so; and the program may deny it. Out of memory it may have read, or not.
    fn propose(
        &mut self,
        alloc: Global,
        program: &Resolved,
        by: Option<&Name>,
        strict: bool,
        revision: Revision,
    ) -> Outcome
        requires draws { 2 ≤ left self.old }
        ensures stores { Stores (read self.old) (read self.new) (lowest_front self.old)
            (lowest_front self.new)
            (own self.old) (own self.new) (recorded self.old)
            program.now (strict || revision.noconflicts) (option_copied by.entry) revision result }
        ensures recorded { recorded self.new ≡ recorded_after (recorded self.old) result }
        ensures checkpoints { checkpoints self.new ≡ checkpoints self.old }
        ensures spends { Spends (origin self.old) (origin self.new) (left self.old) (left self.new) };

    /// Puts or drops a user or a role: stores the command's entry, which is in its grammar, or answers that there is no room for it,
    /// or that memory is short.
    fn command(&mut self, command: Command) -> Outcome
        requires entry { IsEntry (entry_of command) }
        requires draws { 2 ≤ left self.old }
        ensures commands { Commands (read self.old) (read self.new) (lowest_front self.old)
            (lowest_front self.new)
            (own self.old) (own self.new) (recorded self.old) (entry_of command) result }
        ensures recorded { recorded self.new ≡ recorded_after (recorded self.old) result }
        ensures checkpoints { checkpoints self.new ≡ checkpoints self.old }
        ensures spends { Spends (origin self.old) (origin self.new) (left self.old) (left self.new) };

    /// Reads the checkpoint of a user's client. Out of memory it may have read, or not.
    fn get_checkpoint(&mut self, user: &Name, client: &Client) -> Result<Kept0, Memory>
        ensures reads { Reads (read self.old) (read self.new) (lowest_front self.old)
            (lowest_front self.new) }
        ensures recorded { recorded self.new ≡ recorded self.old }
        ensures checkpoints { checkpoints self.new ≡ checkpoints self.old }
        ensures own { own self.new ≡ own self.old }
        ensures stays { Stays (origin self.old) (origin self.new) (left self.old) (left self.new) }
        ensures answer { IfOk result (λ kept. (b : BoardState)
            × WasRead (read self.old) (read self.new) b × HasCheckpoints (checkpoints self.old) b
            × (kept ≡ kept_at b.side (checkpoint_text user.now client.now))) };

    /// Gives the user's client this body as its checkpoint, under the number after `rev`, or answers why not.
    fn set_checkpoint(&mut self, user: &Name, client: &Client, rev: u64, body: Bytes) -> SetAnswer
        ensures reads { Reads (read self.old) (read self.new) (lowest_front self.old)
            (lowest_front self.new) }
        ensures recorded { recorded self.new ≡ recorded self.old }
        ensures own { own self.new ≡ own self.old }
        ensures stays { Stays (origin self.old) (origin self.new) (left self.old) (left self.new) }
        ensures sets { SetsCheckpoint (read self.old) (read self.new) (checkpoints self.old)
            (checkpoints self.new) (checkpoint_text user.now client.now) rev body result };
}
