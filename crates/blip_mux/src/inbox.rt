//! Messages that come, of many frames each, however these are interleaved.

ghost use Rattle.std.specs.Prelude.{◌≡◌, ◌≢◌, ◌≤◌, ◌-◌, false, true, option_map, unwrap_or, Ok, Err, IfOk, IfErr, OnOk, OnErr};
ghost use Rattle.std.specs.FinSet as set;
ghost use Rattle.std.specs.FinMap as map;
ghost use Rattle.blip_frame.specs.Frame.{parts_of, has_checksum};
ghost use Rattle.blip_frame.specs.Varint.{number_at};
ghost use Rattle.blip_mux.specs.Joining.{begun_or, given_by, may_begin, may_come, acknowledged, count_in, longest_message, most_held, IsEarly};
ghost use Rattle.blip_mux.specs.InboxStates.{new_inbox, expecting, so_far_at, answer_at, held_after, taken_after};
ghost use Rattle.blip_mux.specs.inner.Room.{bytes_come, held_for, room_for};

use crate::class::{Class, class_of};
use crate::message::Message;
use crate::numbers::Numbers;
use crate::parts::Parts;
use blip_frame::{Frame, Kind, PayloadFault, read_varint};
use sg_outside::Memory;
use std::alloc::{AllocError, Global};
use std::marker::Model;

/// The most bytes of a message.
const LONGEST_MESSAGE: u64 = 25_165_824;

/// The most that messages hold together which are not whole.
const MOST_HELD: u64 = 134_217_728;

/// What such a message holds beside its bytes.
const HELD_BESIDE: u64 = 64;

/// What a frame gave.
#[derive(Drop)]
pub enum Taken {
    /// A part of a message.
    Nothing,
    /// How many bytes of a message that was sent have come.
    Ack { kind: Kind, number: u64, bytes: u64 },
    /// A part of a message, after which an acknowledgement of so many bytes must be sent.
    Owed { kind: Kind, number: u64, bytes: u64 },
    /// A message.
    Whole(Message),
}

/// Why a frame is not taken.
#[derive(Clone, Copy, Debug, PartialEq, Eq)]
pub enum TakeFault {
    /// The frame is of no message that may come now.
    OutOfOrder { number: u64 },
    /// Its message would have more than 25,165,824 bytes.
    TooLong { number: u64 },
    /// The messages that are not whole would hold more than 134,217,728, each its bytes and 64.
    Full { number: u64 },
    /// The payload of the message is none. Never with lack of memory.
    Payload(PayloadFault),
    /// The payload of an acknowledgement is not one varint.
    BadAckPayload,
    /// Memory ran out.
    Memory,
}

/// What has come in one direction. Contracts see which requests have begun, the numbers of the sent
/// requests whose reply is expected, what has arrived of the messages that are not whole, and how
/// much these hold.
#[derive(Drop)]
pub struct Inbox {
    requests: u64,
    expected: Numbers,
    requests_begun: Parts,
    replies_begun: Parts,
    held: u64,
}

impl Model for Inbox {
    ghost use Rattle.std.specs.Prelude.{◌≤◌};
    ghost use Rattle.blip_mux.specs.Joining.{most_held};
    ghost use Rattle.blip_mux.specs.Remembered.{InboxState, inbox_code};

    ghost Value = { InboxState };

    ghost coded = { inbox_code };

    ghost view = { λ i. record { requests = i.requests; expected = i.expected; requests_begun = i.requests_begun; replies_begun = i.replies_begun; held = i.held } };

    ghost invariant = { λ i. i.held ≤ most_held };
}

impl Inbox {
    /// An inbox to which nothing has come. Allocates nothing.
    pub fn new(alloc: Global) -> Inbox
        ensures { result ≡ new_inbox }
    {
        Inbox {
            requests: 0,
            expected: Numbers::new(alloc),
            requests_begun: Parts::new(alloc),
            replies_begun: Parts::new(alloc),
            held: 0,
        }
    }

    /// Notes a request that was sent, whose reply may come. Out of memory the inbox stays as it
    /// was.
    pub fn expect(&mut self, number: u64) -> Result<(), Memory>
        ensures ok { OnOk result (self.new ≡ expecting self.old number) }
        ensures err { OnErr result (self.new ≡ self.old) }
    {
        self.expected.insert(number)
    }

    /// Takes a frame: one of a message that has begun, the first of the next request or of a reply
    /// that is expected, or an acknowledgement. At a fault the inbox stays as it was.
    pub fn take(&mut self, frame: &Frame<'_>) -> Result<Taken, TakeFault>
        // The answer is that of the frame, and a fault is the first one, unless memory runs out.
        ensures taken { IfOk result (λ taken. answer_at self.old (parts_of frame.now) ≡ Ok taken) }
        ensures fault { IfErr result
            (λ fault. fault ≢ TakeFault.Memory
            → answer_at self.old (parts_of frame.now) ≡ Err fault) }
        ensures memory { IfErr result (λ fault. fault ≢ TakeFault.Payload PayloadFault.Memory) }
        ensures after { OnOk result (self.new ≡ taken_after self.old (parts_of frame.now)) }
        ensures unchanged { OnErr result (self.new ≡ self.old) }

        // What allocates nothing.
        ensures acknowledgement { has_checksum frame.now.kind ≡ false
            → result ≡ answer_at self.old (parts_of frame.now) }
        ensures early { (fault : TakeFault) → IsEarly fault
            → answer_at self.old (parts_of frame.now) ≡ Err fault → result ≡ Err fault }
    {
        if !frame.kind.has_checksum() {
            return acknowledgement_of(frame);
        }
        if !self.may_take(frame) {
            return Err(TakeFault::OutOfOrder {
                number: frame.number,
            });
        }
        let held = room_for(self.held, self.bytes_come(frame), frame)?;
        self.take_part(frame, held)
    }

    fn may_take(&self, frame: &Frame<'_>) -> bool
        requires { has_checksum frame.now.kind ≡ true }
        ensures { result
            ≡ may_come self.now.requests (set.contains self.now.expected frame.now.number)
            (so_far_at self.now (parts_of frame.now)) (parts_of frame.now) }
    {
        match self.begun_kind(frame) {
            Some(kind) => kind == frame.kind,
            None => self.may_begin(frame),
        }
    }

    /// The kind of the message that a frame is part of.
    #[tactic(auto, using(crate::proofs::Classes::of_class))]
    fn begun_kind(&self, frame: &Frame<'_>) -> Option<Kind>
        requires { has_checksum frame.now.kind ≡ true }
        ensures { result ≡ option_map (λ b. b.kind) (so_far_at self.now (parts_of frame.now)) }
    {
        match class_of(frame.kind) {
            Class::Request => self.requests_begun.kind_of(frame.number),
            Class::Reply => self.replies_begun.kind_of(frame.number),
        }
    }

    #[tactic(auto, using(crate::proofs::Classes::of_class))]
    fn may_begin(&self, frame: &Frame<'_>) -> bool
        requires { has_checksum frame.now.kind ≡ true }
        ensures { result
            ≡ may_begin self.now.requests (set.contains self.now.expected frame.now.number)
            (parts_of frame.now) }
    {
        match class_of(frame.kind) {
            Class::Request => self.requests < frame.number && frame.number - self.requests == 1,
            Class::Reply => self.expected.contains(frame.number),
        }
    }

    /// How many bytes have come of the message that a frame is part of.
    #[tactic(auto, using(crate::proofs::Classes::of_class))]
    fn bytes_come(&self, frame: &Frame<'_>) -> Option<usize>
        requires { has_checksum frame.now.kind ≡ true }
        ensures { result ≡ bytes_come (so_far_at self.now (parts_of frame.now)) }
    {
        match class_of(frame.kind) {
            Class::Request => self.requests_begun.bytes_come(frame.number),
            Class::Reply => self.replies_begun.bytes_come(frame.number),
        }
    }

    /// Takes a frame that may come and has room; the messages that are not whole then hold `held`.
    fn take_part(&mut self, frame: &Frame<'_>, held: u64) -> Result<Taken, TakeFault>
        requires message { has_checksum frame.now.kind ≡ true }
        requires most { held ≤ most_held }
        requires held { held
            ≡ held_after self.old.held (so_far_at self.old (parts_of frame.now))
            (parts_of frame.now) }
        ensures taken { IfOk result
            (λ taken. given_by (begun_or (so_far_at self.old (parts_of frame.now))
            (parts_of frame.now)) (parts_of frame.now) ≡ Ok taken) }
        ensures fault { IfErr result (λ fault. fault ≢ TakeFault.Memory
            → given_by (begun_or (so_far_at self.old (parts_of frame.now)) (parts_of frame.now))
            (parts_of frame.now) ≡ Err fault) }
        ensures memory { IfErr result (λ fault. fault ≢ TakeFault.Payload PayloadFault.Memory) }
        ensures after { OnOk result (self.new ≡ taken_after self.old (parts_of frame.now)) }
        ensures unchanged { OnErr result (self.new ≡ self.old) }
    {
        if frame.kind == Kind::Msg {
            let taken = self.requests_begun.take(frame);
            if taken.is_ok() {
                self.requests = self.requests.max(frame.number);
                self.held = held;
            }
            return taken;
        }
        let taken = self.replies_begun.take(frame);
        if taken.is_ok() {
            self.held = held;
            if !frame.more {
                self.expected.remove(frame.number);
            }
        }
        taken
    }
}

/// What messages hold that are not whole, without the one of which so many bytes have come.
fn others_hold(held: u64, come: Option<usize>) -> u64
    requires { unwrap_or come 0 ≤ longest_message }
    ensures { result ≡ held - held_for come }
{
    match come {
        Some(bytes) => held.saturating_sub(bytes as u64 + HELD_BESIDE),
        None => held,
    }
}

/// What messages hold that are not whole, once a frame was taken, where they hold so much and so many
/// bytes of its message have come; or why it has no room.
fn room_for(held: u64, come: Option<usize>, frame: &Frame<'_>) -> Result<u64, TakeFault>
    requires { held ≤ most_held }
    ensures room { result ≡ room_for held come (parts_of frame.now) }
    ensures most { IfOk result (λ then. then ≤ most_held) }
{
    let number = frame.number;
    let bytes = (come.unwrap_or(0) as u64).saturating_add(frame.payload.len() as u64);
    if bytes > LONGEST_MESSAGE {
        return Err(TakeFault::TooLong { number });
    }
    let others = others_hold(held, come);
    if !frame.more {
        return Ok(others);
    }
    let held = others + (bytes + HELD_BESIDE);
    if held > MOST_HELD {
        return Err(TakeFault::Full { number });
    }
    Ok(held)
}

/// What an acknowledgement says.
fn acknowledgement_of(frame: &Frame<'_>) -> Result<Taken, TakeFault>
    ensures { result
        ≡ acknowledged (parts_of frame.now) (count_in (number_at frame.now.payload.now)) }
{
    match read_varint(frame.payload) {
        Ok((bytes, [])) => Ok(Taken::Ack {
            kind: frame.kind,
            number: frame.number,
            bytes,
        }),
        Ok(_) | Err(_) => Err(TakeFault::BadAckPayload),
    }
}
