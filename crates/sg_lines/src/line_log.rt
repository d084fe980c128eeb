//! What a line in memory did so far.

ghost use Rattle.std.specs.Prelude.{◌≡◌, ◌≢◌, ◌++◌, ℕ, take, drop};
ghost use Rattle.sg_outside.specs.Sink.{Counts, Takes};
ghost use Rattle.sg_outside.specs.Wire.{LineRead, no_line};
ghost use Rattle.sg_lines.specs.Link.{read_after, answered, Writes};

use crate::read_trail::ReadTrail;
use crate::trail::Trail;
use sg_outside::{Bytes, Gave};
use std::alloc::Global;
use std::marker::Model;

/// What a line in memory did so far: the bytes that it took; what was read and what writes answered only
/// clauses see.
#[derive(Drop)]
pub struct LineLog {
    taken: Bytes,
    read: ReadTrail,
    gave: Trail<Gave>,
}

impl Model for LineLog {
    ghost use Rattle.sg_outside.specs.Wire.{LinkRecord};

    ghost Value = { LinkRecord };

    ghost view = { λ l. record { read = l.read; taken = l.taken; gave = l.gave } };
}

/// Takes the first bytes, at most so many, and fails; out of memory, or where the count can't rise, none.
fn take_part(bytes: &[u8], most: usize, into: &mut Bytes, faults: &mut u64) -> Gave
    ensures counted { Counts faults.old result faults.new }
    ensures taken { Takes into.old bytes.now result into.new }
    ensures part { result ≡ Gave.Failed → into.new ≡ into.old ++ take most bytes.now }
    ensures fault { result ≢ Gave.Done }
{
    if *faults == u64::MAX {
        return Gave::Memory;
    }
    let part = &bytes[..most.min(bytes.len())];
    match into.extend_from_slice(part) {
        Ok(()) => {
            *faults += 1;
            Gave::Failed
        }
        Err(_) => Gave::Memory,
    }
}

fn take_all(bytes: &[u8], into: &mut Bytes) -> Gave
    ensures counted { (faults : ℕ) → Counts faults result faults }
    ensures taken { Takes into.old bytes.now result into.new }
    ensures fine { result ≢ Gave.Failed }
{
    match into.extend_from_slice(bytes) {
        Ok(()) => Gave::Done,
        Err(_) => Gave::Memory,
    }
}

/// Puts the answer to a write at the end, but none where memory ran out.
fn add_answer(answer: Gave, gave: &mut Trail<Gave>)
    ensures { gave.new ≡ gave.old ++ answered answer }
{
    match answer {
        Gave::Done => gave.add(&answer),
        Gave::Failed => gave.add(&answer),
        Gave::Memory => {}
    }
}

impl LineLog {
    /// Nothing yet. Allocates nothing.
    pub(crate) fn new(alloc: Global) -> LineLog
        ensures { result ≡ no_line }
    {
        LineLog {
            taken: Bytes::new(alloc),
            read: ReadTrail::new(),
            gave: Trail::new(),
        }
    }

    /// The bytes that the line took.
    pub fn taken(&self) -> &[u8]
        ensures { result.now ≡ self.now.taken }
    {
        self.taken.as_slice()
    }

    /// So many of the bytes were read, from this place on.
    pub(crate) fn add_bytes(&mut self, bytes: &Bytes, at: usize, count: usize)
        ensures { self.new
            ≡ read_after self.old (LineRead.Bytes (take count (drop at bytes.now))) }
    {
        self.read.add_bytes(bytes, at, count);
    }

    /// Nothing was there yet.
    pub(crate) fn add_idle(&mut self)
        ensures { self.new ≡ read_after self.old LineRead.Idle }
    {
        self.read.add_idle();
    }

    /// The end was answered.
    pub(crate) fn add_end(&mut self)
        ensures { self.new ≡ read_after self.old LineRead.End }
    {
        self.read.add_end();
    }

    /// A fault was answered.
    pub(crate) fn add_failed(&mut self)
        ensures { self.new ≡ read_after self.old LineRead.Failed }
    {
        self.read.add_failed();
    }

    /// Takes these bytes.
    pub(crate) fn write(&mut self, bytes: &[u8]) -> Gave
        ensures counted { (faults : ℕ) → Counts faults result faults }
        ensures written { Writes self.old bytes.now result self.new }
        ensures fine { result ≢ Gave.Failed }
    {
        let answer = take_all(bytes, &mut self.taken);
        add_answer(answer, &mut self.gave);
        answer
    }

    /// Takes the first bytes, at most so many, and fails.
    pub(crate) fn write_part(&mut self, bytes: &[u8], most: usize, faults: &mut u64) -> Gave
        ensures counted { Counts faults.old result faults.new }
        ensures written { Writes self.old bytes.now result self.new }
        ensures part { result ≡ Gave.Failed
            → self.new.taken ≡ self.old.taken ++ take most bytes.now }
        ensures fault { result ≢ Gave.Done }
    {
        let answer = take_part(bytes, most, &mut self.taken, faults);
        add_answer(answer, &mut self.gave);
        answer
    }
}
