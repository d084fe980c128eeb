//! What comes by a line in memory.

ghost use Rattle.std.specs.Prelude.{◌≡◌, ◌≢◌, ◌≤◌, ◌-◌, ◌∷◌, [], ℕ, ◌+◌, ◌<◌, min, length, take, drop, IsTrue, IsFalse};
ghost use Rattle.sg_lines.specs.Link.{CountsTook, Fits, read_of, read_after};
ghost use Rattle.sg_lines.specs.Inputs.{read_of_rest, rest_of, left_at, read_from, left_of, next_read, after_read};

use crate::line_log::LineLog;
use crate::link::Took;
use sg_outside::Bytes;
use std::marker::Model;

/// Something that comes by a line.
#[derive(Drop)]
pub enum LineInput {
    /// Bytes, of which a reading gives as many as it has room for. No bytes are a moment of idleness.
    Bytes(Bytes),
    /// A moment at which nothing is there yet.
    Idle,
}

/// Inputs that come one after another, as far as they were not read.
#[derive(Drop)]
pub(crate) struct Inputs {
    inputs: Vec<LineInput>,
    next: usize,
    at: usize,
}

impl Model for Inputs {
    ghost use Rattle.std.specs.Prelude.{List};
    ghost use Rattle.sg_lines.specs.declared.inputs.LineInput.{LineInput};
    ghost use Rattle.sg_lines.specs.Inputs.{coming};

    ghost Value = { List LineInput };

    ghost view = { λ i. coming i.inputs.items i.next i.at };
}

/// Copies what stands behind this place, as far as there is room; gives the number of bytes.
fn copy_rest(bytes: &[u8], at: usize, into: &mut [u8]) -> usize
    ensures count { result ≡ min (length into.old) (length bytes.now - at) }
    ensures copied { take result into.new ≡ take result (drop at bytes.now) }
    ensures within { result ≢ 0 → at + result < 18446744073709551616 }
{
    let rest = &bytes[at.min(bytes.len())..];
    let count = rest.len().min(into.len());
    into[..count].copy_from_slice(&rest[..count]);
    count
}

/// Reads what stands behind this place, which moves on.
fn read_bytes(bytes: &Bytes, at: &mut usize, into: &mut [u8], log: &mut LineLog) -> Took
    requires { 1 ≤ length into.old }
    ensures read { read_of result into.new
        ≡ read_of_rest (length into.old) (drop at.old bytes.now) }
    ensures fits { Fits result (length into.old) }
    ensures left { drop at.new bytes.now ≡ drop (length into.old) (drop at.old bytes.now) }
    ensures log { log.new ≡ read_after log.old (read_of result into.new) }
    ensures counted { (faults : ℕ) → CountsTook faults result faults }
    ensures fine { result ≢ Took.Failed }
{
    let count = copy_rest(bytes.as_slice(), *at, into);
    if count == 0 {
        log.add_idle();
        return Took::Idle;
    }
    log.add_bytes(bytes, *at, count);
    *at += count;
    Took::Read(count)
}

/// Reads from an input at this place, which moves on.
fn read_input(input: &LineInput, at: &mut usize, into: &mut [u8], log: &mut LineLog) -> Took
    requires { 1 ≤ length into.old }
    ensures read { read_of result into.new
        ≡ read_from (length into.old) (rest_of at.old input.now) }
    ensures fits { Fits result (length into.old) }
    ensures left { left_at at.new input.now
        ≡ left_of (length into.old) (rest_of at.old input.now) }
    ensures log { log.new ≡ read_after log.old (read_of result into.new) }
    ensures counted { (faults : ℕ) → CountsTook faults result faults }
    ensures fine { result ≢ Took.Failed }
{
    match input {
        LineInput::Bytes(bytes) => read_bytes(bytes, at, into, log),
        LineInput::Idle => {
            log.add_idle();
            Took::Idle
        }
    }
}

/// Whether nothing is left of an input that was read up to this place.
fn is_read(input: &LineInput, at: usize) -> bool
    ensures read { IsTrue result → left_at at input.now ≡ [] }
    ensures unread { IsFalse result → left_at at input.now ≡ rest_of at input.now ∷ [] }
{
    match input {
        LineInput::Bytes(bytes) => bytes.len() <= at,
        LineInput::Idle => true,
    }
}

impl Inputs {
    /// None of these was read. Allocates nothing.
    pub(crate) fn new(inputs: Vec<LineInput>) -> Inputs
        ensures { result ≡ inputs.items }
    {
        Inputs {
            inputs,
            next: 0,
            at: 0,
        }
    }

    /// Reads from the next input; behind the last one is the end.
    pub(crate) fn read(&mut self, into: &mut [u8], log: &mut LineLog) -> Took
        requires { 1 ≤ length into.old }
        ensures read { read_of result into.new ≡ next_read (length into.old) self.old }
        ensures fits { Fits result (length into.old) }
        ensures later { self.new ≡ after_read (length into.old) self.old }
        ensures log { log.new ≡ read_after log.old (read_of result into.new) }
        ensures counted { (faults : ℕ) → CountsTook faults result faults }
        ensures fine { result ≢ Took.Failed }
    {
        match self.inputs.as_slice().get(self.next) {
            Some(input) => {
                let took = read_input(input, &mut self.at, into, log);
                if !is_read(input, self.at) {
                    return took;
                }
                self.next += 1;
                self.at = 0;
                took
            }
            None => {
                log.add_end();
                Took::End
            }
        }
    }
}
