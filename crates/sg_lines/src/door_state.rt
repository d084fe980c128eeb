//! What a door in memory did so far, and who is still to come.

ghost use Rattle.std.specs.Prelude.{◌≡◌, ◌≢◌, ◌∷◌, ◌++◌, [], ℕ, ◌<◌, ◌≤◌, Some, OnOk, OnErr, length, vec_capacity};
ghost use Rattle.sg_outside.specs.Sink.{Counts};
ghost use Rattle.sg_lines.specs.Door.{limit_of, new_door, opened_after, met_after, IsWithin, back_after};
ghost use Rattle.sg_lines.specs.DoorState.{record_of, met_of, EndsInTime, TakesFirst, HasPlace};

use crate::door::Opening;
use crate::trail::Trail;
use sg_outside::{Bytes, Gave};
use std::alloc::{AllocError, Global};
use std::collections::VecDeque;

/// What a door in memory did so far, and the lines that are still to come. Traces stand in places that
/// were made when their callers came; what came back besides only clauses see.
#[derive(Drop)]
pub(crate) struct DoorState<L: Drop, T: Drop> {
    pub(crate) lines: VecDeque<L>,
    pub(crate) openings: Vec<Opening>,
    pub(crate) traces: Vec<T>,
    callers: usize,
    ended: bool,
    trail: Trail<T>,
    alloc: Global,
}

/// Puts the words of an opening at the end.
fn add_opening(
    alloc: Global,
    bind: &str,
    accepts: u64,
    openings: &mut Vec<Opening>,
) -> Result<(), AllocError>
    ensures ok { OnOk result (openings.new.items
        ≡ openings.old.items ++ record { bind = bind.now; accepts = accepts } ∷ []) }
    ensures err { OnErr result (openings.new.items ≡ openings.old.items) }
{
    let bind = Bytes::from_slice(alloc, bind.as_bytes())?;
    openings.push(Opening { bind, accepts })?;
    Ok(())
}

/// How many callers the last opening accepts.
fn limit(openings: &[Opening]) -> u64
    ensures { result ≡ limit_of openings.now }
{
    match openings.last() {
        Some(opening) => opening.accepts,
        None => 0,
    }
}

/// Makes places for the traces of one caller more than so many.
fn make_room<T: Drop>(callers: usize, traces: &mut Vec<T>) -> Result<(), AllocError>
    requires { callers < 18446744073709551615 }
    ensures ok { OnOk result (callers < vec_capacity traces.new) }
    ensures items { traces.new.items ≡ traces.old.items }
    ensures places { vec_capacity traces.old ≤ vec_capacity traces.new }
{
    let more = callers.saturating_sub(traces.len()) + 1;
    traces.reserve(more)
}

impl<L: Drop, T: Drop> DoorState<L, T> {
    /// Not opened yet, with these lines to come. Allocates nothing.
    pub(crate) fn new(alloc: Global, lines: Vec<L>) -> DoorState<L, T>
        ensures lines { result.lines.items ≡ lines.items }
        ensures recorded { record_of result ≡ new_door }
    {
        DoorState {
            lines: VecDeque::from_vec(lines),
            openings: Vec::new(alloc),
            traces: Vec::new(alloc),
            callers: 0,
            ended: false,
            trail: Trail::new(),
            alloc,
        }
    }

    pub(crate) fn open(&mut self, bind: &str, accepts: u64) -> Gave
        ensures recorded { record_of self.new
            ≡ opened_after (record_of self.old) bind.now accepts result }
        ensures counted { (faults : ℕ) → Counts faults result faults }
        ensures fine { result ≢ Gave.Failed }
        ensures lines { self.new.lines ≡ self.old.lines }
        ensures traces { self.new.traces ≡ self.old.traces }
    {
        match add_opening(self.alloc, bind, accepts, &mut self.openings) {
            Ok(()) => Gave::Done,
            Err(_) => Gave::Memory,
        }
    }

    /// The next line, with a place made for its trace; none where no more lines come, or are accepted.
    pub(crate) fn meet(&mut self) -> Result<Option<L>, AllocError>
        ensures recorded { record_of self.new ≡ met_after (record_of self.old) (met_of result) }
        ensures within { IsWithin (Some (record_of self.old)) (met_of result) }
        ensures ended { EndsInTime (record_of self.old) self.old.lines.items (met_of result) }
        ensures next { TakesFirst self.old.lines.items (met_of result) self.new.lines.items }
        ensures traces { self.new.traces.items ≡ self.old.traces.items }
        ensures place { HasPlace (record_of self.old).callers (met_of result)
            (vec_capacity self.new.traces) }
        ensures places { vec_capacity self.old.traces ≤ vec_capacity self.new.traces }
    {
        let accepted = limit(self.openings.as_slice());
        if accepted <= self.callers as u64 {
            self.ended = true;
            return Ok(None);
        }
        make_room(self.callers, &mut self.traces)?;
        match self.lines.pop_front() {
            Some(line) => {
                self.callers += 1;
                Ok(Some(line))
            }
            None => {
                self.ended = true;
                Ok(None)
            }
        }
    }

    /// Takes back a trace. Allocates nothing.
    pub(crate) fn back(&mut self, trace: T)
        ensures recorded { record_of self.new ≡ back_after (record_of self.old) trace }
        ensures held { length self.old.traces.items < vec_capacity self.old.traces
            → self.new.traces.items ≡ self.old.traces.items ++ trace ∷ [] }
        ensures places { vec_capacity self.new.traces ≡ vec_capacity self.old.traces }
        ensures lines { self.new.lines ≡ self.old.lines }
    {
        self.trail.add(&trace);
        if self.traces.len() < self.traces.capacity() {
            self.traces.push_reserved(trace);
        } else {
            drop(trace);
        }
    }
}
