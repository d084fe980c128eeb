//! A message that waits to be sent.

ghost use Rattle.std.specs.Prelude.{◌≡◌, ◌≤◌, ◌<◌, ◌+◌, ◌^◌, ◌++◌, ◌&&◌, not, length, take, drop, true, OnOk, OnErr};
ghost use Rattle.blip_frame.specs.Frame.{has_checksum, largest_written};
ghost use Rattle.blip_mux.specs.Sending.{has_more, without_piece, may_send, unsent, acked};
ghost use Rattle.blip_mux.specs.inner.Stamped.{Writes};
ghost use Rattle.blip_mux.specs.inner.Class.{class_of};

use crate::class::{Class, class_of};
use blip_frame::{Crc, Frame, Kind, write_frame_with};
use sg_outside::{Bytes, Memory};
use std::marker::Model;

/// The most bytes of a payload that one frame carries.
const LARGEST_PIECE: usize = 16_384;

/// Above so many bytes that were sent and not acknowledged a message pauses.
const PAUSE_ABOVE: u64 = 128_000;

/// A message, the bytes before its body, its body, how many of both were sent, and how many the other side
/// has acknowledged.
#[derive(Drop)]
pub(crate) struct WaitingMessage {
    number: u64,
    kind: Kind,
    urgent: bool,
    no_reply: bool,
    front: Bytes,
    body: Bytes,
    sent: usize,
    acknowledged: u64,
}

impl Model for WaitingMessage {
    ghost use Rattle.std.specs.Prelude.{◌≡◌, ◌≤◌, ◌<◌, ◌+◌, ◌^◌, ◌++◌, length, drop, true};
    ghost use Rattle.blip_frame.specs.Frame.{has_checksum};
    ghost use Rattle.blip_mux.specs.Sending.{Waiting};

    ghost Value = { Waiting };

    ghost view = { λ w. record { number = w.number; kind = w.kind; urgent = w.urgent; no_reply = w.no_reply; sent = w.sent; acknowledged = w.acknowledged; rest = drop w.sent (w.front ++ w.body) } };

    ghost invariant = { λ w. (w.sent ≤ length w.front + length w.body) × (length w.front + length w.body < 2 ^ 64) × (has_checksum w.kind ≡ true) × (w.acknowledged ≤ w.sent) };
}

impl WaitingMessage {
    /// A message of which nothing was sent.
    pub(crate) fn new(
        number: u64,
        kind: Kind,
        urgent: bool,
        no_reply: bool,
        front: Bytes,
        body: Bytes,
    ) -> WaitingMessage
        requires checksum { has_checksum kind ≡ true }
        requires below { length front + length body < 2 ^ 64 }
        ensures { result ≡ unsent number kind urgent no_reply (front ++ body) }
    {
        WaitingMessage {
            number,
            kind,
            urgent,
            no_reply,
            front,
            body,
            sent: 0,
            acknowledged: 0,
        }
    }

    pub(crate) fn class(&self) -> Class
        ensures class { result ≡ class_of self.now.kind }
        ensures kind { has_checksum self.now.kind ≡ true }
    {
        class_of(self.kind)
    }

    pub(crate) fn number(&self) -> u64
        ensures { result ≡ self.now.number }
    {
        self.number
    }

    pub(crate) fn is_urgent(&self) -> bool
        ensures { result ≡ self.now.urgent }
    {
        self.urgent
    }

    /// How many bytes were sent.
    pub(crate) fn sent(&self) -> u64
        ensures { result ≡ self.now.sent }
    {
        self.sent as u64
    }

    /// Whether so little of it is not acknowledged that it may send.
    pub(crate) fn may_send(&self) -> bool
        ensures { result ≡ may_send self.now }
    {
        self.sent as u64 - self.acknowledged <= PAUSE_ABOVE
    }

    /// Notes that so many of its bytes have come, of those that were sent. Answers whether it paused
    /// and now may send.
    pub(crate) fn acked(&mut self, bytes: u64) -> bool
        requires { bytes ≤ self.old.sent }
        ensures after { self.new ≡ acked bytes self.old }
        ensures released { result ≡ (not (may_send self.old) && may_send self.new) }
    {
        let paused = !self.may_send();
        self.acknowledged = bytes.max(self.acknowledged);
        paused && self.may_send()
    }

    /// How many bytes are left.
    fn left(&self) -> usize
        ensures { result ≡ length self.now.rest }
    {
        self.front.len() + self.body.len() - self.sent
    }

    /// Whether more bytes are left than one frame carries.
    pub(crate) fn has_more(&self) -> bool
        ensures { result ≡ has_more self.now }
    {
        self.left() > LARGEST_PIECE
    }

    /// The bytes of the next frame: those before the body, and those of the body.
    fn next_bytes(&self) -> (&[u8], &[u8])
        ensures value { result.0.now ++ result.1.now ≡ take largest_written self.now.rest }
        ensures size { length result.0.now + length result.1.now ≤ largest_written }
    {
        let front = bytes_from(self.front.as_slice(), self.sent);
        let first = leading_bytes(front, LARGEST_PIECE);
        let body = bytes_from(
            self.body.as_slice(),
            self.sent.saturating_sub(self.front.len()),
        );
        (first, leading_bytes(body, LARGEST_PIECE - first.len()))
    }

    /// Puts the next frame at the end of `out`. Out of memory checksum and `out` stay as they were.
    pub(crate) fn write_next(&self, crc: &mut Crc, out: &mut Bytes) -> Result<(), Memory>
        ensures wrote { OnOk result (Writes self.now crc.old.value crc.new.value out.old out.new) }
        ensures err { OnErr result ((crc.new ≡ crc.old) × (out.new ≡ out.old)) }
    {
        let (first, rest) = self.next_bytes();
        let frame = Frame {
            number: self.number,
            kind: self.kind,
            urgent: self.urgent,
            no_reply: self.no_reply,
            more: self.has_more(),
            payload: first,
        };
        write_frame_with(crc, &frame, rest, out)
    }

    /// Notes that the next frame has gone.
    #[tactic(auto, using(crate::proofs::Pieces::drop_again, crate::proofs::Pieces::more_left))]
    pub(crate) fn go_on(&mut self)
        requires { has_more self.old ≡ true }
        ensures { self.new ≡ without_piece self.old }
    {
        let left = self.front.len() + self.body.len() - self.sent;
        prove!(left > LARGEST_PIECE);
        self.sent += LARGEST_PIECE;
    }
}

/// The bytes from a place on.
#[tactic(auto, using(crate::proofs::Pieces::none_left))]
fn bytes_from(bytes: &[u8], start: usize) -> &[u8]
    ensures { result.now ≡ drop start bytes.now }
{
    if start < bytes.len() {
        &bytes[start..]
    } else {
        &[]
    }
}

/// So many bytes from the front, or all of them.
#[tactic(auto, using(crate::proofs::Pieces::all_taken))]
fn leading_bytes(bytes: &[u8], count: usize) -> &[u8]
    ensures value { result.now ≡ take count bytes.now }
    ensures size { length result.now ≤ count }
{
    if count < bytes.len() {
        &bytes[..count]
    } else {
        bytes
    }
}
