//! A wire in memory with a script of what comes and of the sendings that fail.

ghost use Rattle.std.specs.Prelude.{◌≡◌, ◌≢◌, ◌∷◌, ◌++◌, [], ◌<◌, Some, drop, IfOk, IsTrue, IsFalse};
ghost use Rattle.std.specs.Prelude.{vec_len, vec_capacity};
ghost use Rattle.sg_outside.specs.Sink.{Counts};
ghost use Rattle.sg_outside.specs.Wire.{CountsGot, next_of};
ghost use Rattle.sg_outside.specs.MemWire.{traffic, sent_by};
ghost use Rattle.sg_outside.specs.Scripts.{SendsByScript};

use crate::bytes::Bytes;
use crate::mem_files::next_fails;
use crate::mem_wire::push_copy;
use crate::sink::Gave;
use crate::wire::{Got, Wire};
use std::alloc::{AllocError, Global};

/// A result as it is, a frame copied, or lack of memory.
fn copy_of(alloc: Global, step: &Got) -> Result<Got, AllocError>
    ensures { IfOk result (λ got. (got ≡ step.now) × (got ≢ Got.Memory)) }
{
    match step {
        Got::Frame(frame) => Ok(Got::Frame(frame.copy(alloc)?)),
        Got::Text => Ok(Got::Text),
        Got::Idle => Ok(Got::Idle),
        Got::End => Ok(Got::End),
        Got::Failed => Ok(Got::Failed),
        Got::Memory => Err(AllocError),
    }
}

/// The result at this place of the script, or the end past it.
fn result_at(alloc: Global, script: &[Got], place: usize) -> Result<Got, AllocError>
    ensures value { IfOk result (λ got. got ≡ next_of (drop place script.now)) }
    ensures fine { IfOk result (λ got. got ≢ Got.Memory) }
{
    match script.get(place) {
        Some(step) => copy_of(alloc, step),
        None => Ok(Got::End),
    }
}

/// Counts a result that is a fault; false where the count can't rise any more.
fn count(got: &Got, faults: &mut u64) -> bool
    ensures counted { IsTrue result → CountsGot faults.old got.now faults.new }
    ensures kept { IsFalse result → faults.new ≡ faults.old }
{
    match got {
        Got::Failed => {
            if *faults == u64::MAX {
                return false;
            }
            *faults += 1;
            true
        }
        _ => true,
    }
}

/// Sends a frame, or fails where that is to be; there is room for one answer more.
fn send_or_fail(
    alloc: Global,
    frame: &[u8],
    fails: bool,
    sent: &mut Vec<Bytes>,
    gave: &mut Vec<Gave>,
    faults: &mut u64,
) -> Gave
    requires { vec_len gave.old < vec_capacity gave.old }
    ensures counted { Counts faults.old result faults.new }
    ensures script { SendsByScript fails result }
    ensures sent { (sent.new.items, gave.new.items)
        ≡ sent_by (sent.old.items, gave.old.items) frame.now result }
{
    if fails {
        if *faults == u64::MAX {
            return Gave::Memory;
        }
        *faults += 1;
        gave.push_reserved(Gave::Failed);
        return Gave::Failed;
    }
    match push_copy(alloc, frame, sent) {
        Ok(()) => {
            gave.push_reserved(Gave::Done);
            Gave::Done
        }
        Err(_) => Gave::Memory,
    }
}

/// A wire in memory, which records what was received and sent: the results of its script come one after
/// another, and then its end; the k-th sending fails where the k-th mark says so, and one past the marks
/// does not. Lack of memory in the script is answered at this call and all that follow.
#[derive(Drop)]
pub struct ScriptedWire {
    pub script: Vec<Got>,
    pub send_fails: Vec<bool>,
    /// The frames that were sent.
    pub sent: Vec<Bytes>,
    /// What each sending answered.
    pub gave: Vec<Gave>,
    alloc: Global,
    calls: usize,
    sendings: usize,
    faults: u64,
}

impl ScriptedWire {
    ghost use Rattle.sg_outside.specs.Scripts.{sendings_of};

    /// A wire with this script, of which nothing has come yet. Allocates nothing.
    pub fn new(alloc: Global, script: Vec<Got>, send_fails: Vec<bool>) -> ScriptedWire
        ensures script { result.script.items ≡ script.items }
        ensures send_fails { result.send_fails.items ≡ send_fails.items }
        ensures sendings { sendings_of result ≡ 0 }
        ensures faults { ⟦<ScriptedWire as Wire>⟧.faults result ≡ 0 }
        ensures recorded { ⟦<ScriptedWire as Wire>⟧.recorded result
            ≡ Some (traffic script.items 0 [] []) }
    {
        ScriptedWire {
            script,
            send_fails,
            sent: Vec::new(alloc),
            gave: Vec::new(alloc),
            alloc,
            calls: 0,
            sendings: 0,
            faults: 0,
        }
    }

    /// The faults so far; the count stands still at its type's end.
    pub fn faults(&self) -> u64
        ensures { result ≡ ⟦<ScriptedWire as Wire>⟧.faults self.now }
    {
        self.faults
    }
}

impl Wire for ScriptedWire {
    ghost use Rattle.sg_outside.specs.Scripts.{fails_at, one_more, sendings_of};
    ghost use Rattle.sg_outside.specs.Wire.{ReceivesIfRecorded, SendsIfRecorded};

    ghost faults = { λ w. w.faults };

    ghost recorded = { λ w. Some (traffic w.script.items w.calls w.sent.items w.gave.items) };

    fn recv(&mut self) -> Got
        ensures counted { CountsGot self.old.faults result self.new.faults }
        ensures recorded { ReceivesIfRecorded
            (Some (traffic self.old.script.items self.old.calls self.old.sent.items
            self.old.gave.items))
            result
            (Some (traffic self.new.script.items self.new.calls self.new.sent.items
            self.new.gave.items)) }
        ensures sendings { sendings_of self.new ≡ sendings_of self.old }
        ensures kept { self.new.send_fails ≡ self.old.send_fails }
    {
        if self.calls == usize::MAX {
            return Got::Memory;
        }
        match result_at(self.alloc, self.script.as_slice(), self.calls) {
            Ok(got) => {
                if !count(&got, &mut self.faults) {
                    return Got::Memory;
                }
                self.calls += 1;
                got
            }
            Err(_) => Got::Memory,
        }
    }

    fn send(&mut self, frame: &[u8]) -> Gave
        ensures counted { Counts self.old.faults result self.new.faults }
        ensures recorded { SendsIfRecorded
            (Some (traffic self.old.script.items self.old.calls self.old.sent.items
            self.old.gave.items))
            frame.now result
            (Some (traffic self.new.script.items self.new.calls self.new.sent.items
            self.new.gave.items)) }
        ensures script { SendsByScript
            (fails_at self.old.send_fails.items (sendings_of self.old)) result }
        ensures kept { self.new.send_fails ≡ self.old.send_fails }
        ensures calls { sendings_of self.new ≡ one_more (sendings_of self.old) }
    {
        let fails = next_fails(self.send_fails.as_slice(), &mut self.sendings);
        if self.gave.reserve(1).is_err() {
            return Gave::Memory;
        }
        send_or_fail(
            self.alloc,
            frame,
            fails,
            &mut self.sent,
            &mut self.gave,
            &mut self.faults,
        )
    }
}
