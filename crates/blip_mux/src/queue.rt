//! The messages that wait to be sent, in their order.

ghost use Rattle.std.specs.Prelude.{◌≡◌, ◌∷◌, ◌++◌, ◌≤◌, [], false, Some, None, List, ℕ, IfOk, IfSome, OnOk, OnErr, option_map};
ghost use Rattle.std.specs.List.{list_any};
ghost use Rattle.blip_frame.specs.Checksum.{checksum};
ghost use Rattle.blip_mux.specs.Sending.{Waiting, is_reply_to, is_of, next_piece, after_piece, acked_of, acked_in, Sends, SendsAfter};

use crate::class::{Class, class_of};
use crate::outbox::Next;
use crate::stamped::Stamped;
use crate::waiting::WaitingMessage;
use blip_frame::{Crc, Kind};
use sg_outside::{Bytes, Memory};
use std::alloc::{AllocError, Global};
use std::marker::Model;

/// Messages that wait. Contracts see the list of them.
#[derive(Drop)]
pub(crate) struct Queue {
    messages: Stamped,
}

impl Model for Queue {
    ghost use Rattle.std.specs.Prelude.{List};
    ghost use Rattle.std.specs.Map.{values_of};
    ghost use Rattle.blip_mux.specs.Sending.{Waiting};
    ghost use Rattle.blip_mux.specs.inner.Stamped.{Keeps};

    ghost Value = { List Waiting };

    ghost view = { λ q. values_of q.messages.messages.entries };

    ghost invariant = { λ q. Keeps q.messages };
}

impl Queue {
    /// No messages. Allocates nothing.
    pub(crate) fn new(alloc: Global) -> Queue
        ensures { result ≡ [] }
    {
        Queue {
            messages: Stamped::new(alloc),
        }
    }

    /// Puts a message last.
    pub(crate) fn push(&mut self, message: WaitingMessage) -> Result<(), AllocError>
        requires { list_any (is_of message.kind message.number) self.old ≡ false }
        ensures ok { OnOk result (self.new ≡ self.old ++ message ∷ []) }
        ensures err { OnErr result (self.new ≡ self.old) }
    {
        self.messages.push(message)
    }

    /// Whether a reply of this number waits.
    pub(crate) fn has_reply(&self, number: u64) -> bool
        ensures { result ≡ list_any (is_reply_to number) self.now }
    {
        self.messages.stamp_of(Class::Reply, number).is_some()
    }

    /// Writes the next frame of the message that sends next, and then puts it last where it has more.
    pub(crate) fn write_next(&mut self, crc: &mut Crc, out: &mut Bytes) -> Result<Next, Memory>
        ensures frame { IfOk result
            (λ next. Sends (next_piece self.old) next crc.old.value crc.new.value out.old out.new) }
        ensures after { OnOk result (self.new ≡ after_piece self.old) }
        ensures idle { next_piece self.old ≡ None → result ≡ Ok Next.Idle }
        ensures sent { (sent : List ℕ) → crc.old.value ≡ checksum sent
            → IfOk result
            (λ next. SendsAfter sent (next_piece self.old) next crc.new.value out.old out.new) }
        ensures err { OnErr result ((self.new ≡ self.old) × (crc.new ≡ crc.old)
            × (out.new ≡ out.old)) }
    {
        let Some(turn) = self.messages.next_turn() else {
            return Ok(Next::Idle);
        };
        self.messages.send(turn, crc, out)?;
        Ok(Next::Frame)
    }

    /// How many bytes were sent of the message that an acknowledgement is of, where it waits.
    pub(crate) fn sent_of(&self, kind: Kind, number: u64) -> Option<u64>
        ensures { result ≡ option_map (λ w. w.sent) (acked_of kind number self.now) }
    {
        self.messages.sent_of(class_of(kind), number)
    }

    /// Notes that so many bytes of a message have come, of those that were sent.
    pub(crate) fn acked(&mut self, kind: Kind, number: u64, bytes: u64)
        requires { IfSome (acked_of kind number self.old) (λ w. bytes ≤ w.sent) }
        ensures { self.new ≡ acked_in kind number bytes self.old }
    {
        self.messages.acked(class_of(kind), number, bytes);
    }
}
