//! A sink in memory with a script of the calls that fail.

ghost use Rattle.std.specs.Prelude.{◌≡◌, ◌≢◌, ◌++◌, [], Some, take};
ghost use Rattle.sg_outside.specs.Sink.{Counts, Takes};
ghost use Rattle.sg_outside.specs.Scripts.{fault_at, one_more};

use crate::bytes::Bytes;
use crate::sink::{Gave, Sink};
use std::alloc::Global;

/// A sink in memory: the k-th call fails where the script's k-th item is some number, after that many of
/// its bytes were taken. A call past the script's end does not fail.
#[derive(Drop)]
pub struct ScriptedSink {
    pub bytes: Bytes,
    pub script: Vec<Option<usize>>,
    calls: usize,
    faults: u64,
}

impl ScriptedSink {
    ghost use Rattle.sg_outside.specs.Scripts.{gives_of};

    /// A sink that took nothing yet. Allocates nothing.
    pub fn new(alloc: Global, script: Vec<Option<usize>>) -> ScriptedSink
        ensures bytes { result.bytes ≡ [] }
        ensures script { result.script.items ≡ script.items }
        ensures calls { gives_of result ≡ 0 }
        ensures faults { ⟦<ScriptedSink as Sink>⟧.faults result ≡ 0 }
    {
        ScriptedSink {
            bytes: Bytes::new(alloc),
            script,
            calls: 0,
            faults: 0,
        }
    }

    /// The faults so far; the count stands still at its type's end.
    pub fn faults(&self) -> u64
        ensures { result ≡ ⟦<ScriptedSink as Sink>⟧.faults self.now }
    {
        self.faults
    }
}

/// The bytes that are taken before the next call fails, if it does.
fn next_fault(script: &[Option<usize>], calls: &mut usize) -> Option<usize>
    ensures fault { result ≡ fault_at script.now calls.old }
    ensures counted { calls.new ≡ one_more calls.old }
{
    let call = *calls;
    *calls = call.saturating_add(1);
    match script.get(call) {
        Some(fault) => *fault,
        None => None,
    }
}

fn take_part(bytes: &[u8], most: usize, into: &mut Bytes, faults: &mut u64) -> Gave
    ensures counted { Counts faults.old result faults.new }
    ensures taken { Takes into.old bytes.now result into.new }
    ensures part { result ≡ Gave.Failed → into.new ≡ into.old ++ take most bytes.now }
    ensures fault { result ≢ Gave.Done }
{
    if *faults == u64::MAX {
        return Gave::Memory;
    }
    let part = &bytes[..most.min(bytes.len())];
    match into.extend_from_slice(part) {
        Ok(()) => {
            *faults += 1;
            Gave::Failed
        }
        Err(_) => Gave::Memory,
    }
}

fn take_all(bytes: &[u8], into: &mut Bytes) -> Gave
    ensures taken { Takes into.old bytes.now result into.new }
    ensures fine { result ≢ Gave.Failed }
{
    match into.extend_from_slice(bytes) {
        Ok(()) => Gave::Done,
        Err(_) => Gave::Memory,
    }
}

impl Sink for ScriptedSink {
    ghost use Rattle.std.specs.Prelude.{List, ℕ, ◌++◌};
    ghost use Rattle.sg_outside.specs.Sink.{TakesIfRecorded};
    ghost use Rattle.sg_outside.specs.Scripts.{GivesByScript, gives_of};

    ghost faults = { λ s. s.faults };

    ghost taken = { λ s. Some s.bytes };

    fn give(&mut self, bytes: &[u8]) -> Gave
        ensures counted { Counts self.old.faults result self.new.faults }
        ensures taken { TakesIfRecorded (Some self.old.bytes) bytes.now result
            (Some self.new.bytes) }
        ensures script { GivesByScript (fault_at self.old.script.items (gives_of self.old))
            self.old.bytes bytes.now result self.new.bytes }
        ensures kept { self.new.script ≡ self.old.script }
        ensures calls { gives_of self.new ≡ one_more (gives_of self.old) }
    {
        match next_fault(self.script.as_slice(), &mut self.calls) {
            Some(most) => take_part(bytes, most, &mut self.bytes, &mut self.faults),
            None => take_all(bytes, &mut self.bytes),
        }
    }
}
