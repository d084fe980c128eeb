//! A door in memory with a script of the calls that fail.

ghost use Rattle.std.specs.Prelude.{◌≡◌, ◌<◌, ◌≤◌, ◌++◌, ◌∷◌, [], Some, length};
ghost use Rattle.sg_outside.specs.Sink.{Counts};
ghost use Rattle.sg_outside.specs.Scripts.{fails_at, one_more, SendsByScript};
ghost use Rattle.sg_lines.specs.Door.{new_door, CountsMet, OpensIfRecorded, AcceptsIfRecorded, IsWithin, IsFresh, BacksIfRecorded};
ghost use Rattle.sg_lines.specs.Scripts.{AcceptsByScript, door_calls_of, scripted_openings_of, scripted_traces_of, scripted_places_of, scripted_waiting_at, renewed_scripted};
ghost use Rattle.sg_lines.specs.DoorState.{EndsInTime, ComesNext, HasPlace};

use crate::door::{Door, Met, Opening};
use crate::door_state::DoorState;
use crate::line_socket::LineTrace;
use crate::link::Link;
use crate::scripted_link::ScriptedLink;
use crate::scripts::next_fails;
use sg_outside::{Gave, ScriptedWire};
use std::alloc::Global;

/// A door in memory, which records its openings, callers and traces: its lines come one after another,
/// each as one that has recorded nothing yet, and then its end. Of its calls, `open` and `accept` alike,
/// the k-th fails where the k-th mark says so, and a call past the marks does not.
#[derive(Drop)]
pub struct ScriptedDoor {
    pub fails: Vec<bool>,
    state: DoorState<ScriptedLink, LineTrace<ScriptedWire>>,
    calls: usize,
    faults: u64,
}

impl ScriptedDoor {
    /// A door with these marks that was not opened yet, to which these lines come. Allocates nothing.
    pub fn new(alloc: Global, fails: Vec<bool>, lines: Vec<ScriptedLink>) -> ScriptedDoor
        ensures fails { result.fails.items ≡ fails.items }
        ensures waiting { scripted_waiting_at result ≡ lines.items }
        ensures calls { door_calls_of result ≡ 0 }
        ensures faults { ⟦<ScriptedDoor as Door>⟧.faults result ≡ 0 }
        ensures recorded { ⟦<ScriptedDoor as Door>⟧.recorded result ≡ Some new_door }
    {
        ScriptedDoor {
            fails,
            state: DoorState::new(alloc, lines),
            calls: 0,
            faults: 0,
        }
    }

    /// The faults so far; the count stands still at its type's end.
    pub fn faults(&self) -> u64
        ensures { result ≡ ⟦<ScriptedDoor as Door>⟧.faults self.now }
    {
        self.faults
    }

    /// The words of each opening, in order.
    pub fn openings(&self) -> &[Opening]
        ensures { result.now ≡ scripted_openings_of self.now }
    {
        self.state.openings.as_slice()
    }

    /// The traces that came back, in order: those for which there was a place.
    pub fn traces(&self) -> &[LineTrace<ScriptedWire>]
        ensures { result.now ≡ scripted_traces_of self.now }
    {
        self.state.traces.as_slice()
    }
}

impl Door for ScriptedDoor {
    type Line = ScriptedLink;

    ghost use Rattle.sg_lines.specs.DoorState.{record_of};

    ghost faults = { λ d. d.faults };

    ghost recorded = { λ d. Some (record_of d.state) };

    fn open(&mut self, bind: &str, accepts: u64) -> Gave
        ensures counted { Counts self.old.faults result self.new.faults }
        ensures recorded { OpensIfRecorded (Some (record_of self.old.state)) bind.now accepts
            result (Some (record_of self.new.state)) }
        ensures script { SendsByScript
            (fails_at self.old.fails.items (door_calls_of self.old)) result }
        ensures kept { self.new.fails ≡ self.old.fails }
        ensures calls { door_calls_of self.new ≡ one_more (door_calls_of self.old) }
        ensures waiting { scripted_waiting_at self.new ≡ scripted_waiting_at self.old }
        ensures traces { scripted_traces_of self.new ≡ scripted_traces_of self.old }
        ensures places { scripted_places_of self.new ≡ scripted_places_of self.old }
    {
        if next_fails(self.fails.as_slice(), &mut self.calls) {
            if self.faults == u64::MAX {
                return Gave::Memory;
            }
            self.faults += 1;
            return Gave::Failed;
        }
        self.state.open(bind, accepts)
    }

    fn accept(&mut self) -> Met<ScriptedLink>
        ensures counted { CountsMet self.old.faults result self.new.faults }
        ensures recorded { AcceptsIfRecorded (Some (record_of self.old.state)) result
            (Some (record_of self.new.state)) }
        ensures within { IsWithin (Some (record_of self.old.state)) result }
        ensures fresh { IsFresh ⟦<ScriptedLink as Link>⟧.recorded
            (Some (record_of self.old.state)) result }
        ensures ended { EndsInTime (record_of self.old.state) (scripted_waiting_at self.old)
            result }
        ensures next { ComesNext renewed_scripted (scripted_waiting_at self.old) result
            (scripted_waiting_at self.new) }
        ensures traces { scripted_traces_of self.new ≡ scripted_traces_of self.old }
        ensures place { HasPlace (record_of self.old.state).callers result
            (scripted_places_of self.new) }
        ensures places { scripted_places_of self.old ≤ scripted_places_of self.new }
        ensures script { AcceptsByScript
            (fails_at self.old.fails.items (door_calls_of self.old)) result }
        ensures kept { self.new.fails ≡ self.old.fails }
        ensures calls { door_calls_of self.new ≡ one_more (door_calls_of self.old) }
    {
        if next_fails(self.fails.as_slice(), &mut self.calls) {
            if self.faults == u64::MAX {
                return Met::Memory;
            }
            self.faults += 1;
            return Met::Failed;
        }
        match self.state.meet() {
            Ok(Some(line)) => Met::Caller(line.renewed()),
            Ok(None) => Met::End,
            Err(_) => Met::Memory,
        }
    }

    fn back(&mut self, trace: LineTrace<ScriptedWire>)
        ensures counted { self.old.faults ≤ self.new.faults }
        ensures recorded { BacksIfRecorded (Some (record_of self.old.state)) trace
            (Some (record_of self.new.state)) }
        ensures waiting { scripted_waiting_at self.new ≡ scripted_waiting_at self.old }
        ensures held { length (scripted_traces_of self.old) < scripted_places_of self.old
            → scripted_traces_of self.new ≡ scripted_traces_of self.old ++ trace ∷ [] }
        ensures places { scripted_places_of self.new ≡ scripted_places_of self.old }
        ensures kept { self.new.fails ≡ self.old.fails }
        ensures calls { door_calls_of self.new ≡ door_calls_of self.old }
    {
        self.state.back(trace);
    }
}
