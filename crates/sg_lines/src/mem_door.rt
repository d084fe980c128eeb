//! A door in memory that never fails.

ghost use Rattle.std.specs.Prelude.{◌≡◌, ◌<◌, ◌≤◌, ◌++◌, ◌∷◌, [], Some, length};
ghost use Rattle.sg_outside.specs.Sink.{Counts};
ghost use Rattle.sg_lines.specs.Door.{new_door, CountsMet, OpensIfRecorded, AcceptsIfRecorded, IsWithin, IsFresh, BacksIfRecorded};
ghost use Rattle.sg_lines.specs.MemDoor.{openings_of, traces_of, places_of, waiting_at};
ghost use Rattle.sg_lines.specs.DoorState.{EndsInTime, ComesNext, HasPlace};
ghost use Rattle.sg_lines.specs.MemLink.{renewed_link};

use crate::door::{Door, Met, Opening};
use crate::door_state::DoorState;
use crate::line_socket::LineTrace;
use crate::link::Link;
use crate::mem_link::MemLink;
use sg_outside::{Gave, MemWire};
use std::alloc::Global;

/// A door in memory, which never fails and records its openings, callers and traces: its lines come one
/// after another, each as one that has recorded nothing yet, and then its end.
#[derive(Drop)]
pub struct MemDoor {
    state: DoorState<MemLink, LineTrace<MemWire>>,
}

impl MemDoor {
    /// A door that was not opened yet, to which these lines come. Allocates nothing.
    pub fn new(alloc: Global, lines: Vec<MemLink>) -> MemDoor
        ensures waiting { waiting_at result ≡ lines.items }
        ensures recorded { ⟦<MemDoor as Door>⟧.recorded result ≡ Some new_door }
    {
        MemDoor {
            state: DoorState::new(alloc, lines),
        }
    }

    /// The words of each opening, in order.
    pub fn openings(&self) -> &[Opening]
        ensures { result.now ≡ openings_of self.now }
    {
        self.state.openings.as_slice()
    }

    /// The traces that came back, in order: those for which there was a place.
    pub fn traces(&self) -> &[LineTrace<MemWire>]
        ensures { result.now ≡ traces_of self.now }
    {
        self.state.traces.as_slice()
    }
}

impl Door for MemDoor {
    type Line = MemLink;

    ghost use Rattle.sg_lines.specs.DoorState.{record_of};

    ghost faults = { λ _. 0 };

    ghost recorded = { λ d. Some (record_of d.state) };

    fn open(&mut self, bind: &str, accepts: u64) -> Gave
        ensures counted { Counts 0 result 0 }
        ensures recorded { OpensIfRecorded (Some (record_of self.old.state)) bind.now accepts
            result (Some (record_of self.new.state)) }
        ensures waiting { waiting_at self.new ≡ waiting_at self.old }
        ensures traces { traces_of self.new ≡ traces_of self.old }
        ensures places { places_of self.new ≡ places_of self.old }
    {
        self.state.open(bind, accepts)
    }

    fn accept(&mut self) -> Met<MemLink>
        ensures counted { CountsMet 0 result 0 }
        ensures recorded { AcceptsIfRecorded (Some (record_of self.old.state)) result
            (Some (record_of self.new.state)) }
        ensures within { IsWithin (Some (record_of self.old.state)) result }
        ensures fresh { IsFresh ⟦<MemLink as Link>⟧.recorded (Some (record_of self.old.state))
            result }
        ensures ended { EndsInTime (record_of self.old.state) (waiting_at self.old) result }
        ensures next { ComesNext renewed_link (waiting_at self.old) result
            (waiting_at self.new) }
        ensures traces { traces_of self.new ≡ traces_of self.old }
        ensures place { HasPlace (record_of self.old.state).callers result (places_of self.new) }
        ensures places { places_of self.old ≤ places_of self.new }
    {
        match self.state.meet() {
            Ok(Some(line)) => Met::Caller(line.renewed()),
            Ok(None) => Met::End,
            Err(_) => Met::Memory,
        }
    }

    fn back(&mut self, trace: LineTrace<MemWire>)
        ensures counted { 0 ≤ 0 }
        ensures recorded { BacksIfRecorded (Some (record_of self.old.state)) trace
            (Some (record_of self.new.state)) }
        ensures waiting { waiting_at self.new ≡ waiting_at self.old }
        ensures held { length (traces_of self.old) < places_of self.old
            → traces_of self.new ≡ traces_of self.old ++ trace ∷ [] }
        ensures places { places_of self.new ≡ places_of self.old }
    {
        self.state.back(trace);
    }
}
