//! The messages of one class that are not whole, by their numbers.

ghost use Rattle.std.specs.Prelude.{◌≡◌, ◌≢◌, Some, None, Ok, Err, IfOk, IfErr, IfSome, OnOk, OnErr, option_map};
ghost use Rattle.std.specs.FinMap as map;
ghost use Rattle.blip_frame.specs.Frame.{parts_of};
ghost use Rattle.blip_mux.specs.Joining.{begun_by, begun_or, with_frame, message_by, given_by};
ghost use Rattle.blip_mux.specs.InboxStates.{begun_after};
ghost use Rattle.blip_mux.specs.inner.Owed.{owed_by};
ghost use Rattle.blip_mux.specs.inner.Room.{bytes_come};

use crate::inbox::{TakeFault, Taken};
use crate::message::Message;
use crate::part::{Part, only_message, taken_of};
use blip_frame::{Frame, Kind, PayloadFault};
use sg_outside::Memory;
use std::alloc::{AllocError, Global};
use std::collections::BTreeMap;
use std::marker::Model;

/// What has arrived of messages that are not whole. Contracts see the map from their numbers.
#[derive(Drop)]
pub(crate) struct Parts {
    alloc: Global,
    parts: BTreeMap<u64, Part>,
}

impl Model for Parts {
    ghost use Rattle.std.specs.FinMap as map;
    ghost use Rattle.blip_mux.specs.Remembered.{Unfinished, unfinished_code};

    ghost Value = { Unfinished };

    ghost coded = { unfinished_code };

    ghost view = { λ p. map.from_entries p.parts.entries };
}

impl Parts {
    /// No messages. Allocates nothing.
    pub(crate) fn new(alloc: Global) -> Parts
        ensures { result ≡ map.empty }
    {
        Parts {
            alloc,
            parts: BTreeMap::new(alloc),
        }
    }

    /// The kind of a message.
    pub(crate) fn kind_of(&self, number: u64) -> Option<Kind>
        ensures { result ≡ option_map (λ b. b.kind) (map.get self.now number) }
    {
        match self.parts.get(&number) {
            Some(part) => Some(part.kind()),
            None => None,
        }
    }

    /// How many bytes of a message have come.
    pub(crate) fn bytes_come(&self, number: u64) -> Option<usize>
        ensures { result ≡ bytes_come (map.get self.now number) }
    {
        match self.parts.get(&number) {
            Some(part) => Some(part.len()),
            None => None,
        }
    }

    /// Puts a message of which nothing had come.
    fn put(&mut self, number: u64, part: Part) -> Result<(), AllocError>
        ensures ok { OnOk result (self.new ≡ map.insert self.old number part) }
        ensures err { OnErr result (self.new ≡ self.old) }
    {
        self.parts.insert(number, part)?;
        Ok(())
    }

    fn remove(&mut self, number: u64)
        ensures { self.new ≡ map.remove self.old number }
    {
        self.parts.remove(&number);
    }

    /// Takes the first frame of a message, which has more.
    fn begin(&mut self, frame: &Frame<'_>) -> Result<Option<u64>, Memory>
        ensures owed { IfOk result (λ owed. owed
            ≡ owed_by (begun_by (parts_of frame.now)) (parts_of frame.now)) }
        ensures after { OnOk result (self.new ≡ map.insert self.old frame.now.number
            (with_frame (begun_by (parts_of frame.now)) (parts_of frame.now))) }
        ensures err { OnErr result (self.new ≡ self.old) }
    {
        let mut part = Part::new(self.alloc, frame);
        match part.take(frame) {
            Ok(owed) => {
                self.put(frame.number, part)?;
                Ok(owed)
            }
            Err(refused) => {
                drop(part);
                Err(refused)
            }
        }
    }

    /// Takes a frame that is not the last of its message. Answers how many bytes of it have come, where
    /// an acknowledgement of them is owed.
    fn take_more(&mut self, frame: &Frame<'_>) -> Result<Option<u64>, Memory>
        ensures owed { IfOk result (λ owed. owed
            ≡ owed_by (begun_or (map.get self.old frame.now.number) (parts_of frame.now))
            (parts_of frame.now)) }
        ensures after { OnOk result (self.new ≡ map.insert self.old frame.now.number
            (with_frame (begun_or (map.get self.old frame.now.number) (parts_of frame.now))
            (parts_of frame.now))) }
        ensures err { OnErr result (self.new ≡ self.old) }
    {
        match self.parts.get_mut(&frame.number) {
            Some(part) => part.take(frame),
            None => self.begin(frame),
        }
    }

    /// The message whose last frame this is. At a fault all stays as it was.
    fn message_with(&mut self, frame: &Frame<'_>) -> Result<Message, TakeFault>
        ensures ok { IfOk result
            (λ message. message_by (begun_or (map.get self.old frame.now.number)
            (parts_of frame.now)) (parts_of frame.now) ≡ Ok message) }
        ensures fault { IfErr result (λ fault. fault ≢ TakeFault.Memory
            → message_by (begun_or (map.get self.old frame.now.number) (parts_of frame.now))
            (parts_of frame.now) ≡ Err fault) }
        ensures memory { IfErr result (λ fault. fault ≢ TakeFault.Payload PayloadFault.Memory) }
        ensures after { OnOk result (map.remove self.new frame.now.number
            ≡ map.remove self.old frame.now.number) }
        ensures unchanged { OnErr result (self.new ≡ self.old) }
    {
        match self.parts.get_mut(&frame.number) {
            Some(part) => part.message_with(self.alloc, frame),
            None => only_message(self.alloc, frame),
        }
    }

    /// Takes a frame of a message that has begun, or the first of one.
    pub(crate) fn take(&mut self, frame: &Frame<'_>) -> Result<Taken, TakeFault>
        ensures taken { IfOk result
            (λ taken. given_by (begun_or (map.get self.old frame.now.number) (parts_of frame.now))
            (parts_of frame.now) ≡ Ok taken) }
        ensures fault { IfErr result (λ fault. fault ≢ TakeFault.Memory
            → given_by (begun_or (map.get self.old frame.now.number) (parts_of frame.now))
            (parts_of frame.now) ≡ Err fault) }
        ensures memory { IfErr result (λ fault. fault ≢ TakeFault.Payload PayloadFault.Memory) }
        ensures after { OnOk result (self.new ≡ begun_after self.old (parts_of frame.now)) }
        ensures unchanged { OnErr result (self.new ≡ self.old) }
    {
        if frame.more {
            return match self.take_more(frame) {
                Ok(owed) => Ok(taken_of(frame, owed)),
                Err(_) => Err(TakeFault::Memory),
            };
        }
        let message = self.message_with(frame)?;
        self.remove(frame.number);
        Ok(Taken::Whole(message))
    }
}
