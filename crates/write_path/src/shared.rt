//! A ground whose board others change between its turns.

ghost use Rattle.std.specs.Prelude.{◌≡◌, ◌≤◌, ◌+◌, ◌||◌, ◌∷◌, false, length, None, IfOk};
ghost use Rattle.std.specs.Option.{option_copied};
ghost use Rattle.checkpoint_store.specs.Answers.{Sets, kept_at};
ghost use Rattle.checkpoint_store.specs.Checkpoints.{checkpoint_text};
ghost use Rattle.sg_history.specs.Board.{BoardState};
ghost use Rattle.sg_history.specs.Journal.{IsEntry};
ghost use Rattle.principals.specs.Script.{entry_of};
ghost use Rattle.board_steps.specs.Asks.{AskedAt};
ghost use Rattle.board_steps.specs.Bodies.{BodiesAt};
ghost use Rattle.write_path.specs.Checkpoints.{HasCheckpoints, SetsCheckpoint};
ghost use Rattle.write_path.specs.Commands.{Commands};
ghost use Rattle.board_steps.specs.Feed.{FeedAt};
ghost use Rattle.write_path.specs.Origins.{Spends, Stays};
ghost use Rattle.write_path.specs.Proposals.{Stores, recorded_after};
ghost use Rattle.write_path.specs.Reads.{HasLength, Reads, WasRead};
ghost use Rattle.write_path.specs.Shared.{MayDrawInTurn, Rests, needs_no_turn, shared_origin};

use crate::ground::Ground;
use crate::looking::{ask_in_turn, bodies_in_turn, checkpoint_in_turn, feed_in_turn};
use crate::proposing::propose_in_turns;
use crate::shelf::Shelf;
use crate::storing::{command_in_turns, set_in_turn};
use board_steps::share_and_read;
use doc_board::{Kept0, Outcome, SetAnswer};
use principals::Command;
use repl_messages::{Asked, Bodies, Fed, Offer, Revision};
use seq_gate::{Gate, Pass};
use sg_history::{Client, Key, Name, Options, Row};
use sg_outside::{Bytes, Memory};
use std::alloc::Global;
use std::marker::Model;
use std::sync::Wait;
use sync_resolve::Resolved;

/// A ground that takes its turns at a gate, by a pass of its own. Between its calls it holds no number and no room. One that is dropped
/// takes its pass along, and the gate is then never closed.
#[derive(Drop)]
pub struct SharedGround<'g, R: Wait> {
    rt: &'g R,
    gate: &'g Gate<Shelf>,
    // It is away only within a call.
    pass: Option<Pass<Shelf>>,
}

impl<'g, R: Wait> Model for SharedGround<'g, R> {
    ghost use Rattle.write_path.specs.Shared.{Shared, IsPassOf, knows_of};

    ghost Value = { Shared };

    ghost view = { λ g. record { gate = g.gate.now; knows = knows_of g.pass } };

    ghost invariant = { λ g. IsPassOf g.gate.now g.pass };
}

impl<'g, R: Wait> SharedGround<'g, R> {
    /// A ground that takes its turns by a pass which holds no number and no room. It keeps what the pass knows.
    pub fn new(rt: &'g R, gate: &'g Gate<Shelf>, pass: Pass<Shelf>) -> SharedGround<'g, R>
        requires here { pass.gate ≡ gate.now }
        requires rests { Rests pass.knows }
        ensures gate { result.gate ≡ pass.gate }
        ensures knows { result.knows ≡ pass.knows }
    {
        SharedGround {
            rt,
            gate,
            pass: Some(pass),
        }
    }

    /// The pass, with what it knows. It holds no number and no room.
    pub fn into_inner(self) -> Pass<Shelf>
        ensures gate { result.gate ≡ self.entry.gate }
        ensures knows { result.knows ≡ self.entry.knows }
        ensures rests { Rests result.knows }
    {
        let SharedGround {
            rt: _,
            gate: _,
            pass,
        } = self;
        match pass {
            Some(pass) => pass,
            None => unreachable!(),
        }
    }
}

impl<'g, R: Wait> Ground for SharedGround<'g, R> {
    ghost use Rattle.std.specs.Prelude.{None};
    ghost use Rattle.write_path.specs.Shared.{shared_origin};

    ghost read = { λ g. g.knows.read };

    ghost lowest_front = { λ g. g.knows.lowest_front };

    ghost recorded = { λ g. None };

    ghost checkpoints = { λ g. None };

    ghost own = { λ g. g.knows.own };

    ghost left = { λ g. g.knows.left };

    ghost origin = { λ g. shared_origin g };

    fn left(&self) -> u64
        ensures { result ≡ self.now.knows.left }
    {
        match &self.pass {
            Some(pass) => pass.left(),
            None => unreachable!(),
        }
    }

    /// One load of a word, without a turn.
    fn front(&mut self) -> u64
        ensures read { self.new.knows.read ≡ self.old.knows.read }
        ensures rises { self.old.knows.lowest_front ≤ result }
        ensures lowest_front { self.new.knows.lowest_front ≡ result }
        ensures own { self.new.knows.own ≡ self.old.knows.own }
        ensures stays { Stays (shared_origin self.old) (shared_origin self.new)
            self.old.knows.left self.new.knows.left }
        ensures in_turns { self.new.knows.in_turns ≡ self.old.knows.in_turns }
    {
        let mut pass = self.pass.take().unwrap();
        let front = pass.front(self.gate);
        self.pass = Some(pass);
        front
    }

    /// One turn.
    fn feed(
        &mut self,
        _alloc: Global,
        user: &Name,
        since: &Key,
        options: &Options,
    ) -> Result<Fed, Memory>
        ensures reads { Reads self.old.knows.read self.new.knows.read self.old.knows.lowest_front
            self.new.knows.lowest_front }
        ensures own { self.new.knows.own ≡ self.old.knows.own }
        ensures stays { Stays (shared_origin self.old) (shared_origin self.new)
            self.old.knows.left self.new.knows.left }
        ensures answer { IfOk result (λ fed. (b : BoardState)
            × WasRead self.old.knows.read self.new.knows.read b × HasLength None b
            × FeedAt b.log user.now since.now options.now fed) }
        // At want of memory too.
        ensures turn { (b : BoardState) × (self.new.knows.read ≡ b ∷ b ∷ self.old.knows.read) }
        ensures in_turns { self.new.knows.in_turns ≡ self.old.knows.in_turns }
    {
        sg_history::laws::boards();
        let pass = self.pass.take().unwrap();
        let (pass, fed) = feed_in_turn(self.rt, self.gate, pass, user, since, options);
        self.pass = Some(pass);
        fed
    }

    /// One turn.
    fn bodies(
        &mut self,
        alloc: Global,
        user: &Name,
        options: &Options,
        rows: &[Row],
        most: u64,
    ) -> Result<Bodies, Memory>
        ensures reads { Reads self.old.knows.read self.new.knows.read self.old.knows.lowest_front
            self.new.knows.lowest_front }
        ensures own { self.new.knows.own ≡ self.old.knows.own }
        ensures stays { Stays (shared_origin self.old) (shared_origin self.new)
            self.old.knows.left self.new.knows.left }
        ensures answer { IfOk result (λ bodies. (b : BoardState)
            × WasRead self.old.knows.read self.new.knows.read b × HasLength None b
            × BodiesAt b user.now options.now rows.now most bodies) }
        // At want of memory too.
        ensures turn { (b : BoardState) × (self.new.knows.read ≡ b ∷ b ∷ self.old.knows.read) }
        ensures in_turns { self.new.knows.in_turns ≡ self.old.knows.in_turns }
    {
        sg_history::laws::boards();
        let pass = self.pass.take().unwrap();
        let (pass, bodies) = bodies_in_turn(
            self.rt, self.gate, pass, alloc, user, options, rows, most,
        );
        self.pass = Some(pass);
        bodies
    }

    /// One turn.
    fn ask(&mut self, alloc: Global, offers: &[Offer]) -> Result<Asked, Memory>
        ensures reads { Reads self.old.knows.read self.new.knows.read self.old.knows.lowest_front
            self.new.knows.lowest_front }
        ensures own { self.new.knows.own ≡ self.old.knows.own }
        ensures stays { Stays (shared_origin self.old) (shared_origin self.new)
            self.old.knows.left self.new.knows.left }
        ensures answer { IfOk result (λ asked. (b : BoardState)
            × WasRead self.old.knows.read self.new.knows.read b × HasLength None b
            × AskedAt b offers.now asked) }
        // At want of memory too.
        ensures turn { (b : BoardState) × (self.new.knows.read ≡ b ∷ b ∷ self.old.knows.read) }
        ensures in_turns { self.new.knows.in_turns ≡ self.old.knows.in_turns }
    {
        sg_history::laws::boards();
        let pass = self.pass.take().unwrap();
        let (pass, asked) = ask_in_turn(self.rt, self.gate, pass, alloc, offers);
        self.pass = Some(pass);
        asked
    }

    /// At least one turn wherever a board is needed for the outcome.
    fn propose(
        &mut self,
        alloc: Global,
        program: &Resolved,
        by: Option<&Name>,
        strict: bool,
        mut revision: Revision,
    ) -> Outcome
        requires draws { 2 ≤ self.old.knows.left }
        ensures stores { Stores self.old.knows.read self.new.knows.read
            self.old.knows.lowest_front self.new.knows.lowest_front
            self.old.knows.own self.new.knows.own None
            program.now (strict || revision.noconflicts) (option_copied by.entry) revision result }
        ensures recorded { None ≡ recorded_after None result }
        ensures spends { Spends (shared_origin self.old) (shared_origin self.new)
            self.old.knows.left self.new.knows.left }
        // Where a board is needed for the outcome, a turn was taken.
        ensures turns { needs_no_turn result ≡ false
            → length self.old.knows.read + 2 ≤ length self.new.knows.read }
        ensures in_turns { MayDrawInTurn self.old.knows self.new.knows revision.doc }
    {
        let strict = strict || revision.noconflicts;
        match share_and_read(alloc, &mut revision) {
            Ok(doc) => {
                let pass = self.pass.take().unwrap();
                let (pass, outcome) = propose_in_turns(
                    self.rt, self.gate, pass, alloc, program, by, strict, revision, doc,
                );
                self.pass = Some(pass);
                outcome
            }
            Err(refusal) => {
                drop(revision);
                refusal
            }
        }
    }

    /// At least one turn.
    fn command(&mut self, command: Command) -> Outcome
        requires entry { IsEntry (entry_of command) }
        requires draws { 2 ≤ self.old.knows.left }
        ensures commands { Commands self.old.knows.read self.new.knows.read
            self.old.knows.lowest_front self.new.knows.lowest_front
            self.old.knows.own self.new.knows.own None (entry_of command) result }
        ensures recorded { None ≡ recorded_after None result }
        ensures spends { Spends (shared_origin self.old) (shared_origin self.new)
            self.old.knows.left self.new.knows.left }
        ensures turns { length self.old.knows.read + 2 ≤ length self.new.knows.read }
        // No number is drawn in a turn.
        ensures in_turns { self.new.knows.in_turns ≡ self.old.knows.in_turns }
    {
        let pass = self.pass.take().unwrap();
        let (pass, outcome) = command_in_turns(self.rt, self.gate, pass, command);
        self.pass = Some(pass);
        outcome
    }

    /// One turn.
    fn get_checkpoint(&mut self, user: &Name, client: &Client) -> Result<Kept0, Memory>
        ensures reads { Reads self.old.knows.read self.new.knows.read self.old.knows.lowest_front
            self.new.knows.lowest_front }
        ensures own { self.new.knows.own ≡ self.old.knows.own }
        ensures stays { Stays (shared_origin self.old) (shared_origin self.new)
            self.old.knows.left self.new.knows.left }
        ensures answer { IfOk result (λ kept. (b : BoardState)
            × WasRead self.old.knows.read self.new.knows.read b × HasCheckpoints None b
            × (kept ≡ kept_at b.side (checkpoint_text user.now client.now))) }
        // At want of memory too.
        ensures turn { (b : BoardState) × (self.new.knows.read ≡ b ∷ b ∷ self.old.knows.read) }
        ensures in_turns { self.new.knows.in_turns ≡ self.old.knows.in_turns }
    {
        sg_history::laws::boards();
        let pass = self.pass.take().unwrap();
        let (pass, kept) = checkpoint_in_turn(self.rt, self.gate, pass, user, client);
        self.pass = Some(pass);
        kept
    }

    /// One turn.
    fn set_checkpoint(&mut self, user: &Name, client: &Client, rev: u64, body: Bytes) -> SetAnswer
        ensures reads { Reads self.old.knows.read self.new.knows.read self.old.knows.lowest_front
            self.new.knows.lowest_front }
        ensures own { self.new.knows.own ≡ self.old.knows.own }
        ensures stays { Stays (shared_origin self.old) (shared_origin self.new)
            self.old.knows.left self.new.knows.left }
        ensures sets { SetsCheckpoint self.old.knows.read self.new.knows.read None None
            (checkpoint_text user.now client.now) rev body result }
        // At each answer.
        ensures turn { (found : BoardState) × (left : BoardState)
            × (self.new.knows.read ≡ left ∷ found ∷ self.old.knows.read)
            × Sets found.side (checkpoint_text user.now client.now) rev body result left.side }
        ensures in_turns { self.new.knows.in_turns ≡ self.old.knows.in_turns }
    {
        sg_history::laws::boards();
        let pass = self.pass.take().unwrap();
        let (pass, answer) = set_in_turn(self.rt, self.gate, pass, user, client, rev, body);
        self.pass = Some(pass);
        answer
    }
}
