//! What waits to be sent: acknowledgements, and messages that are cut into frames in turn.

ghost use Rattle.std.specs.Prelude.{◌≡◌, ◌∷◌, ◌++◌, ◌+◌, ◌<◌, ◌≤◌, [], true, false, length, max, List, ℕ, Ok, Some, IfOk, IfErr, OnOk, OnErr, MatchResult, None};
ghost use Rattle.std.specs.List.{list_any, list_all};
ghost use Rattle.blip_frame.specs.Checksum.{checksum};
ghost use Rattle.blip_frame.specs.Frame.{has_checksum};
ghost use Rattle.blip_frame.specs.Payload.{payload_text};
ghost use Rattle.blip_mux.specs.Acknowledgements.{ack_frame, Acknowledgement as Ack};
ghost use Rattle.blip_mux.specs.Joining.{is_reply};
ghost use Rattle.blip_mux.specs.Sending.{new_sending, unsent, picked, after_picked, is_of, is_reply_to, is_paused, last_put, sent_of, is_bad_ack, acked_in, Sends, SendsAfter};

use crate::acknowledgement::Acknowledgement;
use crate::class::{Class, class_of};
use crate::queue::Queue;
use crate::waiting::WaitingMessage;
use blip_frame::{Crc, Kind, Payload, Props, write_front};
use sg_outside::{Bytes, Memory};
use std::alloc::{AllocError, Global};
use std::collections::VecDeque;
use std::marker::Model;

/// Whether there was a frame to send.
#[derive(Clone, Copy, Debug, PartialEq, Eq)]
pub enum Next {
    /// One was written.
    Frame,
    /// Nothing waits that may be sent.
    Idle,
}

/// An acknowledgement that can't be true.
#[derive(Clone, Copy, Debug, PartialEq, Eq)]
pub struct BadAck {
    /// The number and the count of the acknowledgement.
    pub number: u64,
    pub bytes: u64,
    /// How many bytes were sent of the message that waits; 0 where none does.
    pub sent: u64,
}

/// What waits to be sent in one direction. Contracts see how many requests and which replies were put,
/// and the acknowledgements and messages that wait.
///
/// A message takes a stamp as it is put, and one more with each frame that leaves more of it. There are
/// 2^64, anew whenever no message waits; where all are spent, what takes one answers as at want of
/// memory.
#[derive(Drop)]
pub struct Outbox {
    alloc: Global,
    requests: u64,
    replies: u64,
    acknowledgements: VecDeque<Acknowledgement>,
    waiting: Queue,
}

impl Model for Outbox {
    ghost use Rattle.std.specs.Prelude.{◌≡◌, ◌<◌, false, ℕ};
    ghost use Rattle.std.specs.List.{list_any};
    ghost use Rattle.blip_frame.specs.declared.frame.Kind.TheVariants as kinds;
    ghost use Rattle.blip_mux.specs.Sending.{Sending, is_of};

    ghost Value = { Sending };

    ghost view = { λ o. record { requests = o.requests; replies = o.replies; acknowledgements = o.acknowledgements.items; waiting = o.waiting } };

    // No request waits whose number is still to come.
    ghost invariant = { λ o. (n : ℕ) → o.requests < n → list_any (is_of kinds.Msg n) o.waiting ≡ false };
}

impl Outbox {
    /// An outbox in which nothing waits. Allocates nothing.
    pub fn new(alloc: Global) -> Outbox
        ensures { result ≡ new_sending }
    {
        Outbox {
            alloc,
            requests: 0,
            replies: 0,
            acknowledgements: VecDeque::new(alloc),
            waiting: Queue::new(alloc),
        }
    }

    /// How many requests were put.
    pub fn requests(&self) -> u64
        ensures { result ≡ self.now.requests }
    {
        self.requests
    }

    /// Puts a request last, and answers its number, which is one more than that of the request before
    /// it. Out of memory the outbox stays as it was.
    pub fn put_request(&mut self, payload: Payload, no_reply: bool) -> Result<u64, Memory>
        requires { self.old.requests < 18446744073709551615 }
        ensures number { IfOk result (λ number. number ≡ self.old.requests + 1) }
        ensures ok { IfOk result (λ number. self.new ≡ record self.old {
          requests = number;
          waiting = self.old.waiting
              ++ unsent number Kind.Msg false no_reply
              (payload_text payload.props payload.body) ∷ [];
        }) }
        ensures err { OnErr result (self.new ≡ self.old) }
    {
        let number = self.requests + 1;
        push(
            &mut self.waiting,
            self.alloc,
            number,
            Kind::Msg,
            false,
            no_reply,
            payload,
        )?;
        self.requests = number;
        Ok(number)
    }

    /// Puts a reply last. Out of memory the outbox stays as it was.
    pub fn put_reply(
        &mut self,
        number: u64,
        kind: Kind,
        urgent: bool,
        payload: Payload,
    ) -> Result<(), Memory>
        requires kind { is_reply kind ≡ true }
        requires alone { list_any (is_reply_to number) self.old.waiting ≡ false }
        ensures ok { OnOk result (self.new ≡ record self.old {
          replies = max number self.old.replies;
          waiting = self.old.waiting
              ++ unsent number kind urgent false (payload_text payload.props payload.body) ∷ [];
        }) }
        ensures err { OnErr result (self.new ≡ self.old) }
    {
        push(
            &mut self.waiting,
            self.alloc,
            number,
            kind,
            urgent,
            false,
            payload,
        )?;
        self.replies = number.max(self.replies);
        Ok(())
    }

    /// Whether a reply of this number waits.
    pub fn has_reply(&self, number: u64) -> bool
        ensures { result ≡ list_any (is_reply_to number) self.now.waiting }
    {
        self.waiting.has_reply(number)
    }

    /// Puts an acknowledgement behind those that wait: that so many bytes of a message have come. At
    /// lack of memory the outbox stays as it was.
    pub fn put_ack(&mut self, kind: Kind, number: u64, bytes: u64) -> Result<(), Memory>
        requires { has_checksum kind ≡ false }
        ensures ok { OnOk result (self.new ≡ record self.old {
          acknowledgements = self.old.acknowledgements
              ++ record { kind = kind; number = number; bytes = bytes } ∷ [];
        }) }
        ensures err { OnErr result (self.new ≡ self.old) }
    {
        put_back(
            &mut self.acknowledgements,
            Acknowledgement::new(kind, number, bytes),
        )
    }

    /// Puts the next frame at the end of `out`: the first acknowledgement that waits, else the next
    /// 16,384 bytes, or the rest, of the first urgent message that may send, else of the first message
    /// that may send. A message with more to come goes to the back of the list. Out of memory
    /// outbox, checksum and `out` stay as they were.
    pub fn next_frame(&mut self, crc: &mut Crc, out: &mut Bytes) -> Result<Next, Memory>
        ensures frame { IfOk result
            (λ next. Sends (picked self.old) next crc.old.value crc.new.value out.old out.new) }
        ensures after { OnOk result (self.new ≡ after_picked self.old) }

        // Nothing is allocated where no acknowledgement waits and each message is over its limit.
        ensures idle { self.old.acknowledgements ≡ [] → list_all is_paused self.old.waiting ≡ true
            → result ≡ Ok Next.Idle }
        ensures only { result ≡ Ok Next.Idle
            → (self.old.acknowledgements ≡ []) × (list_all is_paused self.old.waiting ≡ true) }

        // In a direction in which these bytes were sent.
        ensures sent { (sent : List ℕ) → crc.old.value ≡ checksum sent
            → IfOk result
            (λ next. SendsAfter sent (picked self.old) next crc.new.value out.old out.new) }
        ensures err { OnErr result
            ((self.new ≡ self.old) × (crc.new ≡ crc.old) × (out.new ≡ out.old)) }
    {
        if self.acknowledgements.is_empty() {
            self.waiting.write_next(crc, out)
        } else {
            write_first(&mut self.acknowledgements, crc, out)
        }
    }

    /// Takes an acknowledgement that has come: so many bytes of a message that was sent. The greatest
    /// count is kept; one for a message that does not wait is passed over. Allocates nothing.
    pub fn acked(&mut self, kind: Kind, number: u64, bytes: u64) -> Result<(), BadAck>
        requires { has_checksum kind ≡ false }
        ensures answer { MatchResult result (λ _. is_bad_ack kind number bytes self.old ≡ false)
            (λ _. is_bad_ack kind number bytes self.old ≡ true) }
        ensures bad { IfErr result
            (λ bad. bad
            ≡ record {
              number = number;
              bytes = bytes;
              sent = sent_of kind number
                  self.old.waiting;
            }) }
        ensures ok { OnOk result
            (self.new ≡ record self.old { waiting = acked_in kind number bytes self.old.waiting }) }
        ensures unchanged { OnErr result (self.new ≡ self.old) }
    {
        let last = match class_of(kind) {
            Class::Request => self.requests,
            Class::Reply => self.replies,
        };
        let sent = self.waiting.sent_of(kind, number);
        let passes = match sent {
            Some(sent) => bytes > sent,
            None => false,
        };
        if number == 0 || number > last || passes {
            return Err(BadAck {
                number,
                bytes,
                sent: sent.unwrap_or(0),
            });
        }
        self.waiting.acked(kind, number, bytes);
        Ok(())
    }
}

/// Puts an acknowledgement behind the others.
fn put_back(
    acknowledgements: &mut VecDeque<Acknowledgement>,
    acknowledgement: Acknowledgement,
) -> Result<(), AllocError>
    ensures ok { OnOk result
        (acknowledgements.new.items ≡ acknowledgements.old.items ++ acknowledgement ∷ []) }
    ensures err { OnErr result (acknowledgements.new.items ≡ acknowledgements.old.items) }
{
    acknowledgements.push_back(acknowledgement)?;
    Ok(())
}

/// Puts the first acknowledgement at the end of `out`. Out of memory all stays as it was.
fn write_first(
    acknowledgements: &mut VecDeque<Acknowledgement>,
    crc: &mut Crc,
    out: &mut Bytes,
) -> Result<Next, Memory>
    requires { 0 < length acknowledgements.old.items }
    ensures frame { (a : Ack) (others : List Ack) → acknowledgements.old.items ≡ a ∷ others
        → IfOk result (λ next. Sends (Some (ack_frame a)) next crc.old.value crc.new.value
        out.old out.new) }
    ensures after { (a : Ack) (others : List Ack) → acknowledgements.old.items ≡ a ∷ others
        → OnOk result (acknowledgements.new.items ≡ others) }
    ensures sent { (a : Ack) (others : List Ack) → acknowledgements.old.items ≡ a ∷ others
        → (sent : List ℕ) → crc.old.value ≡ checksum sent
        → IfOk result (λ next. SendsAfter sent (Some (ack_frame a)) next crc.new.value
        out.old out.new) }
    ensures err { OnErr result ((acknowledgements.new.items ≡ acknowledgements.old.items)
        × (crc.new ≡ crc.old) × (out.new ≡ out.old)) }
{
    acknowledgements[0].write(crc, out)?;
    acknowledgements.pop_front();
    Ok(Next::Frame)
}

/// Puts a message with the bytes of a payload behind the others.
fn push(
    waiting: &mut Queue,
    alloc: Global,
    number: u64,
    kind: Kind,
    urgent: bool,
    no_reply: bool,
    payload: Payload,
) -> Result<(), Memory>
    requires kind { has_checksum kind ≡ true }
    requires alone { list_any (is_of kind number) waiting.old ≡ false }
    ensures ok { OnOk result (waiting.new ≡ waiting.old
        ++ unsent number kind urgent no_reply (payload_text payload.props payload.body) ∷ []) }
    ensures err { OnErr result (waiting.new ≡ waiting.old) }
{
    let message = message_of(alloc, number, kind, urgent, no_reply, payload)?;
    waiting.push(message)
}

/// A message with the bytes of a payload, of which nothing was sent. Its body is the payload's.
fn message_of(
    alloc: Global,
    number: u64,
    kind: Kind,
    urgent: bool,
    no_reply: bool,
    payload: Payload,
) -> Result<WaitingMessage, AllocError>
    requires { has_checksum kind ≡ true }
    ensures { IfOk result (λ message. message
        ≡ unsent number kind urgent no_reply (payload_text payload.props payload.body)) }
{
    let Payload { props, body } = payload;
    let front = front_of(alloc, props)?;
    // More than 2^64 bytes do not fit memory.
    let Some(_) = front.len().checked_add(body.len()) else {
        return Err(AllocError);
    };
    Ok(WaitingMessage::new(number, kind, urgent, no_reply, front, body))
}

/// The bytes of a payload before its body.
fn front_of(alloc: Global, props: Props) -> Result<Bytes, AllocError>
    ensures { IfOk result (λ front. (body : List ℕ) → payload_text props body ≡ front ++ body) }
{
    let mut front = Bytes::new(alloc);
    write_front(&props, &mut front)?;
    Ok(front)
}
