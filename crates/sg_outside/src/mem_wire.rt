//! A wire in memory that never fails.

ghost use Rattle.std.specs.Prelude.{◌≡◌, ◌≢◌, ◌∷◌, ◌++◌, [], Some, map, drop, IfOk, OnOk, OnErr};
ghost use Rattle.sg_outside.specs.Wire.{next_of};
ghost use Rattle.sg_outside.specs.MemWire.{got_of, traffic, all_done};

use crate::bytes::Bytes;
use crate::sink::Gave;
use crate::wire::{Got, Wire};
use std::alloc::{AllocError, Global};

/// Something that comes in.
#[derive(Drop)]
pub enum Input {
    /// A frame.
    Frame(Bytes),
    /// A text message.
    Text,
    /// A moment at which nothing is there yet.
    Idle,
}

/// What receiving an input gives: a copy, or lack of memory.
fn receive(alloc: Global, input: &Input) -> Result<Got, AllocError>
    ensures value { IfOk result (λ got. got ≡ got_of input.now) }
    ensures fine { IfOk result (λ got. got ≢ Got.Memory) }
    ensures failed { IfOk result (λ got. got ≢ Got.Failed) }
{
    match input {
        Input::Frame(frame) => Ok(Got::Frame(frame.copy(alloc)?)),
        Input::Text => Ok(Got::Text),
        Input::Idle => Ok(Got::Idle),
    }
}

/// The input at this place, or the end where there is none.
fn receive_at(alloc: Global, inputs: &[Input], place: usize) -> Result<Got, AllocError>
    ensures value { IfOk result (λ got. got ≡ next_of (drop place (map got_of inputs.now))) }
    ensures fine { IfOk result (λ got. got ≢ Got.Memory) }
    ensures failed { IfOk result (λ got. got ≢ Got.Failed) }
{
    match inputs.get(place) {
        Some(input) => receive(alloc, input),
        None => Ok(Got::End),
    }
}

/// A wire in memory, which never fails and records what was received and sent: its inputs come one after
/// another, and then its end.
#[derive(Drop)]
pub struct MemWire {
    pub inputs: Vec<Input>,
    /// The frames that were sent.
    pub sent: Vec<Bytes>,
    alloc: Global,
    calls: usize,
}

impl MemWire {
    /// A wire with these inputs, of which none has come yet. Allocates nothing.
    pub fn new(alloc: Global, inputs: Vec<Input>) -> MemWire
        ensures inputs { result.inputs.items ≡ inputs.items }
        ensures sent { result.sent.items ≡ [] }
        ensures recorded { ⟦<MemWire as Wire>⟧.recorded result
            ≡ Some (traffic (map got_of inputs.items) 0 [] []) }
    {
        MemWire {
            inputs,
            sent: Vec::new(alloc),
            alloc,
            calls: 0,
        }
    }
}

impl Wire for MemWire {
    ghost faults = { λ _. 0 };

    ghost recorded = { λ w. Some (traffic (map got_of w.inputs.items) w.calls w.sent.items (all_done w.sent.items)) };

    fn recv(&mut self) -> Got {
        if self.calls == usize::MAX {
            return Got::Memory;
        }
        match receive_at(self.alloc, self.inputs.as_slice(), self.calls) {
            Ok(got) => {
                self.calls += 1;
                got
            }
            Err(_) => Got::Memory,
        }
    }

    fn send(&mut self, frame: &[u8]) -> Gave {
        match push_copy(self.alloc, frame, &mut self.sent) {
            Ok(()) => Gave::Done,
            Err(_) => Gave::Memory,
        }
    }
}

/// Puts a copy of the frame at the end.
pub(crate) fn push_copy(
    alloc: Global,
    frame: &[u8],
    frames: &mut Vec<Bytes>,
) -> Result<(), AllocError>
    ensures ok { OnOk result (frames.new.items ≡ frames.old.items ++ frame.now ∷ []) }
    ensures err { OnErr result (frames.new.items ≡ frames.old.items) }
{
    frames.push(Bytes::from_slice(alloc, frame)?)?;
    Ok(())
}
