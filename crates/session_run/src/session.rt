//! A session that runs: result by result.

ghost use Rattle.std.specs.Prelude.{◌≡◌, ◌⊎◌, ◌≤◌, ◌<◌, ◌+◌, ◌*◌, ◌++◌, [], true, false, Bool, List, ℕ, Option, None, Some, IfOk, OnOk, IfErr, OnErr};
ghost use Rattle.std.specs.Arc.{arc_value};
ghost use Rattle.blip_mux.specs.Apart.{AreApart};
ghost use Rattle.blip_mux.specs.Sending.{picked};
ghost use Rattle.sg_outside.specs.Wire.{Traffic};
ghost use Rattle.sync_syntax.specs.declared.tree.Program.{Program};
ghost use Rattle.session_core.specs.declared.event.Event.{Event};
ghost use Rattle.session_core.specs.declared.machine.Pending.{Pending};
ghost use Rattle.session_core.specs.Conduct.{feed_front, due_at, due_with, WantsFor, most_answers, is_answer, AreWithin};
ghost use Rattle.session_core.specs.Fronts.{look_of, stored_by, front_by};
ghost use Rattle.session_core.specs.State.{Awaits, new_machine, most_puts, most_requests};
ghost use Rattle.session_core.specs.Steps.{SessionStep};
ghost use Rattle.session_run.specs.declared.ended.End.{End};
ghost use Rattle.session_run.specs.declared.serve.Setup.{Setup};
ghost use Rattle.session_run.specs.Answered.{Moment, moment, HasReadGround, IsEventAnswered};
ghost use Rattle.session_run.specs.inner.Held.{IsAtRest, IsReady, Makes, Halts, Conversed, Conversing, IsEndOf, Holds, GoesOn, Takes, Runs, RunsOn};
ghost use Rattle.session_run.specs.inner.Putting.{MayReply};
ghost use Rattle.session_run.specs.Spent.{most_looks, spent_by, looks_for, IsMet, CanLook, Draws};

use crate::ended::{End, Ended};
use crate::listing::Listing;
use crate::putting::put;
use crate::reading::read;
use blip_mux::Message;
use repl_messages::Version;
use session_core::{Acts, Core, Event, Want};
use session_mux::{FrameWhy, Mux, Took};
use sg_history::Name;
use sg_outside::{Bytes, Gave, Got, Memory, Wire};
use std::alloc::Global;
use write_path::{Ground, Resolved};

/// The session's machine, the wire's two directions, the looks and stored sequences, and how many frames were taken.
#[derive(Drop)]
pub(crate) struct Session {
    pub(crate) core: Core,
    pub(crate) mux: Mux,
    pub(crate) listing: Listing,
    pub(crate) frames: u64,
}

impl Session {
    /// A session to which nothing has come. Allocates nothing.
    pub(crate) fn new(alloc: Global, user: Name, version: Version, strict: bool) -> Session
        ensures holds { (setup : Setup) (now : Moment)
            → result.core ≡ new_machine setup.user setup.version setup.strict
            → Holds setup now now result [] [] [] [] }
        ensures core { result.core ≡ new_machine user version strict }
        ensures frames { result.frames ≡ 0 }
        ensures spent { result.listing.spent ≡ 0 }
    {
        blip_mux::laws::inbox_states();
        blip_mux::laws::replies();
        Session {
            core: Core::new(user, version, strict),
            mux: Mux::new(alloc),
            listing: Listing::new(alloc),
            frames: 0,
        }
    }

    /// Makes room for the frames that it sends, once for all of them.
    pub(crate) fn reserve(&mut self) -> Result<(), Memory>
        ensures { self.new ≡ self.old }
    {
        self.mux.reserve()
    }

    /// The end of the session.
    pub(crate) fn ended(self, end: End) -> Ended
        ensures { result ≡ record {
          end = end;
          looks = self.listing.looks;
          stored =
              self.listing.stored;
        } }
    {
        let Session {
            core,
            mux,
            listing,
            frames: _frames,
        } = self;
        drop(core);
        drop(mux);
        let (looks, stored) = listing.into_lists();
        Ended { end, looks, stored }
    }

    /// Takes an event, and puts what is put for it. Answers what is then wanted.
    fn take_event(&mut self, alloc: Global, event: Event) -> Result<Option<Want>, Memory>
        requires awaited { Awaits self.old.core event }
        requires room { self.old.core.requests ≤ most_requests }
        requires ready { IsReady self.old }
        requires may { MayReply self.old.mux (due_at self.old.core.pending event) }
        ensures ok { IfOk result (λ want. Makes self.old self.new event want) }
        ensures wants { IfOk result
            (λ want. WantsFor self.new.core.feed self.new.core.pending want) }
        ensures ready { OnOk result (IsReady self.new) }
        ensures may { OnOk result (MayReply self.new.mux (due_with self.new.core.pending)) }
        ensures few { OnOk result (self.new.core.requests ≤ self.old.core.requests + most_puts) }
        ensures fewer { OnOk result (is_answer event ≡ true
            → most_answers self.new.core.pending < most_answers self.old.core.pending) }
        ensures halted { OnErr result (Halts self.old self.new event) }
        ensures listing { self.new.listing ≡ self.old.listing }
        ensures frames { self.new.frames ≡ self.old.frames }
        ensures received { self.new.mux.received ≡ self.old.mux.received }
        ensures sent { self.new.mux.sent ≡ self.old.mux.sent }
    {
        session_core::laws::conduct();
        blip_mux::laws::replies();
        let Acts { puts, want } = self.core.step(alloc, event)?;
        match put(&mut self.mux, puts) {
            Ok(()) => Ok(want),
            Err(fault) => {
                drop(want);
                Err(fault)
            }
        }
    }

    /// Has what is wanted of the ground, and lists the look, if it is one. Out of memory it may have read, or not.
    fn answer<G: Ground>(
        &mut self,
        alloc: Global,
        ground: &mut G,
        program: &Resolved,
        want: Want,
    ) -> Result<Event, Memory>
        requires wants { WantsFor self.old.core.feed self.old.core.pending (Some want) }
        requires front { feed_front self.old.core.feed ≤ G.lowest_front ground.old }
        requires left { self.old.listing.spent + looks_for want ≤ most_looks }
        requires looks { CanLook (G.left ground.old) self.old.listing.spent }
        ensures answered { IfOk result (λ event. IsEventAnswered
            (moment (G.read ground.old) (G.lowest_front ground.old)
            (G.recorded ground.old) (G.checkpoints ground.old) (G.own ground.old))
            self.old.core.user
            program.now self.old.core.strict (Some want) event
            (moment (G.read ground.new) (G.lowest_front ground.new)
            (G.recorded ground.new) (G.checkpoints ground.new) (G.own ground.new))) }
        ensures awaited { IfOk result (λ event. Awaits self.old.core event) }
        ensures answer { IfOk result (λ event. is_answer event ≡ true) }
        ensures looks { IfOk result (λ event. self.new.listing.looks
            ≡ self.old.listing.looks ++ look_of event) }
        ensures stored { IfOk result (λ event. self.new.listing.stored
            ≡ self.old.listing.stored ++ stored_by event) }
        ensures spent { IfOk result (λ event. self.new.listing.spent
            ≡ self.old.listing.spent + spent_by event) }
        ensures read { OnErr result (HasReadGround
            (moment (G.read ground.old) (G.lowest_front ground.old)
            (G.recorded ground.old) (G.checkpoints ground.old) (G.own ground.old))
            (moment (G.read ground.new) (G.lowest_front ground.new)
            (G.recorded ground.new) (G.checkpoints ground.new) (G.own ground.new))) }
        ensures same_looks { OnErr result (self.new.listing.looks ≡ self.old.listing.looks) }
        ensures same_stored { OnErr result (self.new.listing.stored ≡ self.old.listing.stored) }
        ensures same_spent { OnErr result (self.new.listing.spent ≡ self.old.listing.spent) }
        ensures draws { Draws (G.origin ground.old) (G.origin ground.new) (G.left ground.old)
            (G.left ground.new) self.old.listing.spent self.new.listing.spent }
        ensures core { self.new.core ≡ self.old.core }
        ensures mux { self.new.mux ≡ self.old.mux }
        ensures frames { self.new.frames ≡ self.old.frames }
    {
        if let Err(fault) = self.listing.reserve() {
            drop(want);
            return Err(fault);
        }
        let event = read(alloc, ground, &self.core, program, want)?;
        self.listing.list(&event);
        Ok(event)
    }

    /// Takes an event, and the answers of all reads that are wanted for it, one after another. Answers whether that is all: else one more
    /// look is wanted than a session takes.
    fn converse<G: Ground>(
        &mut self,
        alloc: Global,
        ground: &mut G,
        program: &Resolved,
        event: Event,
    ) -> Result<bool, Memory>
        requires awaited { Awaits self.old.core event }
        requires first { is_answer event ≡ false }
        requires room { self.old.core.requests + 3 * most_puts ≤ most_requests }
        requires ready { IsReady self.old }
        requires may { MayReply self.old.mux (due_at self.old.core.pending event) }
        requires front { feed_front self.old.core.feed ≤ G.lowest_front ground.old }
        requires seen { AreWithin (G.lowest_front ground.old) (front_by event) }
        requires looks { CanLook (G.left ground.old) self.old.listing.spent }
        ensures ok { (before : Moment)
            → IsEventAnswered before self.old.core.user program.now self.old.core.strict None event
            (moment (G.read ground.old) (G.lowest_front ground.old)
            (G.recorded ground.old) (G.checkpoints ground.old) (G.own ground.old))
            → IfOk result (λ met. (steps : List SessionStep) × (want : Option Want)
            × Conversing program.now self.old self.new event before
            (moment (G.read ground.new) (G.lowest_front ground.new)
            (G.recorded ground.new) (G.checkpoints ground.new) (G.own ground.new)) want steps
            × IsMet met want self.new.listing.spent) }
        ensures halted { (before : Moment)
            → IsEventAnswered before self.old.core.user program.now self.old.core.strict None event
            (moment (G.read ground.old) (G.lowest_front ground.old)
            (G.recorded ground.old) (G.checkpoints ground.old) (G.own ground.old))
            → OnErr result ((steps : List SessionStep) × (halted : Option Event) × (now : Moment)
            × Conversed program.now self.old self.new event before now steps halted
            × HasReadGround now
            (moment (G.read ground.new) (G.lowest_front ground.new)
            (G.recorded ground.new) (G.checkpoints ground.new) (G.own ground.new))) }
        ensures draws { Draws (G.origin ground.old) (G.origin ground.new) (G.left ground.old)
            (G.left ground.new) self.old.listing.spent self.new.listing.spent }
        ensures frames { self.new.frames ≡ self.old.frames }
        ensures received { self.new.mux.received ≡ self.old.mux.received }
        ensures sent { self.new.mux.sent ≡ self.old.mux.sent }
    {
        sg_history::laws::later();
        doc_board::laws::later_boards();
        write_path::laws::reads();
        board_steps::laws::later();
        write_path::laws::was_read();
        let mut want = self.take_event(alloc, event)?;
        while let Some(wanted) = want {
            if self.listing.lacks(&wanted) {
                drop(wanted);
                return Ok(false);
            }
            let answer = self.answer(alloc, ground, program, wanted)?;
            want = self.take_event(alloc, answer)?;
        }
        Ok(true)
    }

    /// Answers an event, and sends what may be sent. Answers how the session ends, where it ends here.
    fn exchange<W: Wire, G: Ground>(
        &mut self,
        alloc: Global,
        ground: &mut G,
        program: &Resolved,
        wire: &mut W,
        event: Event,
    ) -> Option<End>
        requires awaited { Awaits self.old.core event }
        requires first { is_answer event ≡ false }
        requires room { self.old.core.requests + 3 * most_puts ≤ most_requests }
        requires ready { IsReady self.old }
        requires may { MayReply self.old.mux (due_at self.old.core.pending event) }
        requires front { feed_front self.old.core.feed ≤ G.lowest_front ground.old }
        requires seen { AreWithin (G.lowest_front ground.old) (front_by event) }
        requires looks { CanLook (G.left ground.old) self.old.listing.spent }
        ensures goes { (before : Moment)
            → IsEventAnswered before self.old.core.user program.now self.old.core.strict None event
            (moment (G.read ground.old) (G.lowest_front ground.old)
            (G.recorded ground.old) (G.checkpoints ground.old) (G.own ground.old))
            → GoesOn program.now self.old self.new (Some event) before
            (moment (G.read ground.new) (G.lowest_front ground.new)
            (G.recorded ground.new) (G.checkpoints ground.new) (G.own ground.new))
            (W.recorded wire.old) (W.recorded
            wire.new) result }
        ensures draws { Draws (G.origin ground.old) (G.origin ground.new) (G.left ground.old)
            (G.left ground.new) self.old.listing.spent self.new.listing.spent }
        ensures faults { W.faults wire.old ≤ W.faults wire.new }
        ensures fault { result ≡ Some End.WireFault → W.faults wire.old < W.faults wire.new }
        ensures frames { self.new.frames ≡ self.old.frames }
        ensures received { self.new.mux.received ≡ self.old.mux.received }
    {
        blip_mux::laws::replies();
        session_mux::laws::traffic();
        match self.converse(alloc, ground, program, event) {
            Ok(met) => end_of(self.mux.send_all(wire), met),
            Err(_) => Some(End::Memory),
        }
    }

    /// Goes on after a frame that gave no message: sends what may be sent.
    fn go_on<W: Wire>(&mut self, wire: &mut W) -> Option<End>
        requires pending { self.old.core.pending ≡ Pending.Nothing }
        requires ready { IsReady self.old }
        ensures goes { (program : Program) (now : Moment)
            → feed_front self.old.core.feed ≤ now.lowest
            → GoesOn program self.old self.new None now now (W.recorded wire.old)
            (W.recorded wire.new) result }
        ensures listing { self.new.listing ≡ self.old.listing }
        ensures faults { W.faults wire.old ≤ W.faults wire.new }
        ensures fault { result ≡ Some End.WireFault → W.faults wire.old < W.faults wire.new }
        ensures frames { self.new.frames ≡ self.old.frames }
        ensures received { self.new.mux.received ≡ self.old.mux.received }
    {
        blip_mux::laws::replies();
        end_of(self.mux.send_all(wire), true)
    }

    /// Takes a frame: its message, where it gives one, is answered, and what may be sent is sent. Answers how the session
    /// ends, where it ends here.
    fn take_frame<W: Wire, G: Ground>(
        &mut self,
        alloc: Global,
        ground: &mut G,
        program: &Resolved,
        wire: &mut W,
        bytes: Bytes,
    ) -> Option<End>
        requires rest { IsAtRest self.old }
        requires room { self.old.core.requests + 3 * most_puts ≤ most_requests }
        requires count { self.old.frames < 18446744073709551615 }
        requires front { feed_front self.old.core.feed ≤ G.lowest_front ground.old }
        requires looks { CanLook (G.left ground.old) self.old.listing.spent }
        ensures takes { Takes program.now self.old self.new (Got.Frame bytes)
            (moment (G.read ground.old) (G.lowest_front ground.old)
            (G.recorded ground.old) (G.checkpoints ground.old) (G.own ground.old))
            (moment (G.read ground.new) (G.lowest_front ground.new)
            (G.recorded ground.new) (G.checkpoints ground.new) (G.own ground.new))
            (W.recorded wire.old) (W.recorded wire.new)
            result }
        ensures draws { Draws (G.origin ground.old) (G.origin ground.new) (G.left ground.old)
            (G.left ground.new) self.old.listing.spent self.new.listing.spent }
        ensures faults { W.faults wire.old ≤ W.faults wire.new }
        ensures fault { result ≡ Some End.WireFault → W.faults wire.old < W.faults wire.new }
        ensures count { self.new.frames ≤ self.old.frames + 1 }
    {
        blip_mux::laws::replies();
        session_mux::laws::traffic();
        let took = self.mux.take(bytes.as_slice());
        drop(bytes);
        match took {
            Took::Whole(message) => {
                self.frames += 1;
                self.exchange(alloc, ground, program, wire, Event::Whole(message))
            }
            Took::Part => {
                self.frames += 1;
                self.go_on(wire)
            }
            Took::Bad(why) => Some(self.bad_frame(why)),
            Took::Memory => Some(End::Memory),
        }
    }

    /// Takes an idle moment: where a feed waits, the length of the history is loaded, and the feed goes on where that has grown.
    fn take_idle<W: Wire, G: Ground>(
        &mut self,
        alloc: Global,
        ground: &mut G,
        program: &Resolved,
        wire: &mut W,
    ) -> Option<End>
        requires rest { IsAtRest self.old }
        requires room { self.old.core.requests + 3 * most_puts ≤ most_requests }
        requires front { feed_front self.old.core.feed ≤ G.lowest_front ground.old }
        requires looks { CanLook (G.left ground.old) self.old.listing.spent }
        ensures takes { Takes program.now self.old self.new Got.Idle
            (moment (G.read ground.old) (G.lowest_front ground.old)
            (G.recorded ground.old) (G.checkpoints ground.old) (G.own ground.old))
            (moment (G.read ground.new) (G.lowest_front ground.new)
            (G.recorded ground.new) (G.checkpoints ground.new) (G.own ground.new))
            (W.recorded wire.old) (W.recorded wire.new)
            result }
        ensures draws { Draws (G.origin ground.old) (G.origin ground.new) (G.left ground.old)
            (G.left ground.new) self.old.listing.spent self.new.listing.spent }
        ensures faults { W.faults wire.old ≤ W.faults wire.new }
        ensures fault { result ≡ Some End.WireFault → W.faults wire.old < W.faults wire.new }
        ensures count { self.new.frames ≡ self.old.frames }
    {
        session_mux::laws::traffic();
        write_path::laws::reads();
        if !self.core.waits() {
            return None;
        }
        let front = ground.front();
        self.exchange(alloc, ground, program, wire, Event::Idle { front })
    }

    /// Receives one result and takes it. Answers how the session ends, where it ends by it.
    pub(crate) fn step<W: Wire, G: Ground>(
        &mut self,
        alloc: Global,
        ground: &mut G,
        program: &Resolved,
        wire: &mut W,
    ) -> Option<End>
        requires rest { IsAtRest self.old }
        requires room { self.old.core.requests + 3 * most_puts ≤ most_requests }
        requires count { self.old.frames < 18446744073709551615 }
        requires front { feed_front self.old.core.feed ≤ G.lowest_front ground.old }
        requires looks { CanLook (G.left ground.old) self.old.listing.spent }
        ensures runs { (setup : Setup) (start : Moment) (traffic : Option Traffic) (count : ℕ)
            → arc_value setup.program ≡ program.now
            → Runs setup start
            (moment (G.read ground.old) (G.lowest_front ground.old)
            (G.recorded ground.old) (G.checkpoints ground.old) (G.own ground.old))
            traffic self.old (W.recorded
            wire.old) count → count < 1099511627776
            → RunsOn setup start
            (moment (G.read ground.new) (G.lowest_front ground.new)
            (G.recorded ground.new) (G.checkpoints ground.new) (G.own ground.new))
            traffic self.new (W.recorded
            wire.new) count result }
        ensures draws { Draws (G.origin ground.old) (G.origin ground.new) (G.left ground.old)
            (G.left ground.new) self.old.listing.spent self.new.listing.spent }
        ensures rest { result ≡ None → IsAtRest self.new }
        ensures front { result ≡ None → feed_front self.new.core.feed ≤ G.lowest_front ground.new }
        ensures few { result ≡ None
            → self.new.core.requests ≤ self.old.core.requests + 3 * most_puts }
        ensures count { self.new.frames ≤ self.old.frames + 1 }
        ensures faults { W.faults wire.old ≤ W.faults wire.new }
        ensures fault { result ≡ Some End.WireFault → W.faults wire.old < W.faults wire.new }
    {
        blip_mux::laws::inbox_states();
        session_mux::laws::traffic();
        session_core::laws::conduct();
        match wire.recv() {
            Got::Frame(bytes) => self.take_frame(alloc, ground, program, wire, bytes),
            Got::Text => Some(self.bad_frame(FrameWhy::NotBinary)),
            Got::Idle => self.take_idle(alloc, ground, program, wire),
            Got::End => Some(End::Closed),
            Got::Failed => Some(End::WireFault),
            Got::Memory => Some(End::Memory),
        }
    }

    /// The next frame is at fault.
    fn bad_frame(&self, why: FrameWhy) -> End
        requires count { self.now.frames < 18446744073709551615 }
        ensures { result ≡ End.BadFrame (self.now.frames + 1) why }
    {
        End::BadFrame {
            index: self.frames + 1,
            why,
        }
    }
}

/// How the session ends, where a frame was not sent, or not all looks were taken that are wanted.
fn end_of(gave: Gave, met: bool) -> Option<End>
    ensures { IsEndOf gave met result }
{
    match gave {
        Gave::Done if met => None,
        Gave::Done => Some(End::LooksFull),
        Gave::Failed => Some(End::WireFault),
        Gave::Memory => Some(End::Memory),
    }
}
