//! A message of which a part has come.

ghost use Rattle.std.specs.Prelude.{◌≡◌, ◌≢◌, ◌≤◌, ◌<◌, ◌^◌, ◌++◌, length, Ok, Err, IfOk, IfErr, OnOk, OnErr};
ghost use Rattle.blip_frame.specs.Frame.{parts_of};
ghost use Rattle.blip_frame.specs.Payload.{payload_at};
ghost use Rattle.blip_mux.specs.Joining.{begun_by, with_frame, message_by, with_fault, acknowledges, acknowledge_after};
ghost use Rattle.blip_mux.specs.inner.Owed.{owed_by, taken_of};

use crate::class::{Class, class_of};
use crate::inbox::{TakeFault, Taken};
use crate::message::Message;
use blip_frame::{Frame, Kind, Payload, PayloadFault, read_payload, take_payload};
use sg_outside::{Bytes, Memory};
use std::alloc::{AllocError, Global};
use std::marker::Model;

/// After so many bytes of a message the next acknowledgement is owed.
const ACKNOWLEDGE_AFTER: usize = 50_000;

/// The kind and the marks of a message, the bytes of it that have come, and how many of them came
/// since the last acknowledgement.
#[derive(Drop)]
pub(crate) struct Part {
    kind: Kind,
    urgent: bool,
    no_reply: bool,
    bytes: Bytes,
    unacknowledged: usize,
}

impl Model for Part {
    ghost use Rattle.std.specs.Prelude.{◌<◌};
    ghost use Rattle.blip_mux.specs.Begun.{Begun};

    ghost Value = { Begun };

    ghost view = { λ p. record { kind = p.kind; urgent = p.urgent; no_reply = p.no_reply; bytes = p.bytes; unacknowledged = p.unacknowledged } };

    ghost invariant = { λ p. p.unacknowledged < 50000 };
}

impl Part {
    /// A message of which nothing has come, with the kind and the marks of its first frame. Takes no
    /// memory.
    pub(crate) fn new(alloc: Global, first: &Frame<'_>) -> Part
        ensures { result ≡ begun_by (parts_of first.now) }
    {
        Part {
            kind: first.kind,
            urgent: first.urgent,
            no_reply: first.no_reply,
            bytes: Bytes::new(alloc),
            unacknowledged: 0,
        }
    }

    pub(crate) fn kind(&self) -> Kind
        ensures { result ≡ self.now.kind }
    {
        self.kind
    }

    /// How many bytes have come.
    pub(crate) fn len(&self) -> usize
        ensures { result ≡ length self.now.bytes }
    {
        self.bytes.len()
    }

    /// Takes a frame that is not the last. Answers how many bytes have come, where an acknowledgement of
    /// them is owed.
    pub(crate) fn take(&mut self, frame: &Frame<'_>) -> Result<Option<u64>, Memory>
        ensures owed { IfOk result (λ owed. owed ≡ owed_by self.old (parts_of frame.now)) }
        ensures after { OnOk result (self.new ≡ with_frame self.old (parts_of frame.now)) }
        ensures err { OnErr result (self.new ≡ self.old) }
    {
        self.bytes.extend_from_slice(frame.payload)?;
        let unacknowledged = self.unacknowledged + frame.payload.len();
        if unacknowledged < ACKNOWLEDGE_AFTER {
            self.unacknowledged = unacknowledged;
            return Ok(None);
        }
        self.unacknowledged = 0;
        Ok(Some(self.bytes.len() as u64))
    }

    /// The message whose last frame this is, whose body then has the part's buffer. At a fault the part
    /// stays as it was.
    pub(crate) fn message_with(
        &mut self,
        alloc: Global,
        frame: &Frame<'_>,
    ) -> Result<Message, TakeFault>
        ensures ok { IfOk result
            (λ message. message_by self.old (parts_of frame.now) ≡ Ok message) }
        ensures fault { IfErr result
            (λ fault. fault ≢ TakeFault.Memory
            → message_by self.old (parts_of frame.now) ≡ Err fault) }
        ensures memory { IfErr result (λ fault. fault ≢ TakeFault.Payload PayloadFault.Memory) }
        ensures unchanged { OnErr result (self.new ≡ self.old) }
    {
        let payload = payload_with(alloc, &mut self.bytes, frame.payload)?;
        Ok(Message {
            number: frame.number,
            kind: self.kind,
            urgent: self.urgent,
            no_reply: self.no_reply,
            payload,
        })
    }
}

/// The message of one frame.
pub(crate) fn only_message(alloc: Global, frame: &Frame<'_>) -> Result<Message, TakeFault>
    ensures ok { IfOk result
        (λ message. message_by (begun_by (parts_of frame.now)) (parts_of frame.now) ≡ Ok message) }
    ensures fault { IfErr result
        (λ fault. fault ≢ TakeFault.Memory
        → message_by (begun_by (parts_of frame.now)) (parts_of frame.now) ≡ Err fault) }
    ensures memory { IfErr result (λ fault. fault ≢ TakeFault.Payload PayloadFault.Memory) }
{
    let payload = payload_of(alloc, frame.payload)?;
    Ok(Message {
        number: frame.number,
        kind: frame.kind,
        urgent: frame.urgent,
        no_reply: frame.no_reply,
        payload,
    })
}

/// The payload that bytes are with these last ones, in the buffer of these bytes. They stay as they
/// were at a fault.
fn payload_with(alloc: Global, bytes: &mut Bytes, last: &[u8]) -> Result<Payload, TakeFault>
    ensures ok { IfOk result (λ p. payload_at (bytes.old ++ last.now) ≡ Ok (p.props, p.body)) }
    ensures fault { IfErr result
        (λ fault. fault ≢ TakeFault.Memory
        → with_fault (payload_at (bytes.old ++ last.now)) ≡ Err fault) }
    ensures memory { IfErr result (λ fault. fault ≢ TakeFault.Payload PayloadFault.Memory) }
    ensures unchanged { OnErr result (bytes.new ≡ bytes.old) }
{
    let before = bytes.len();
    if bytes.extend_from_slice(last).is_err() {
        return Err(TakeFault::Memory);
    }
    match take_payload(alloc, bytes) {
        Ok(payload) => Ok(payload),
        Err(fault) => {
            bytes.truncate(before);
            Err(fault_of(fault))
        }
    }
}

fn payload_of(alloc: Global, bytes: &[u8]) -> Result<Payload, TakeFault>
    ensures ok { IfOk result (λ p. payload_at bytes.now ≡ Ok (p.props, p.body)) }
    ensures err { IfErr result
        (λ fault. fault ≢ TakeFault.Memory → with_fault (payload_at bytes.now) ≡ Err fault) }
    ensures memory { IfErr result (λ fault. fault ≢ TakeFault.Payload PayloadFault.Memory) }
{
    match read_payload(alloc, bytes) {
        Ok(payload) => Ok(payload),
        Err(fault) => Err(fault_of(fault)),
    }
}

/// A fault of the payload, as one of the frame.
fn fault_of(fault: PayloadFault) -> TakeFault
    ensures value { result ≢ TakeFault.Memory → result ≡ TakeFault.Payload fault }
    ensures other { result ≢ TakeFault.Memory → fault ≢ PayloadFault.Memory }
    ensures memory { result ≢ TakeFault.Payload PayloadFault.Memory }
{
    match fault {
        PayloadFault::Memory => TakeFault::Memory,
        other => TakeFault::Payload(other),
    }
}

/// What a frame gives that is not the last of its message, where an acknowledgement of so many bytes is
/// owed, or none.
pub(crate) fn taken_of(frame: &Frame<'_>, owed: Option<u64>) -> Taken
    ensures { result ≡ taken_of (parts_of frame.now) owed }
{
    match owed {
        Some(bytes) => Taken::Owed {
            kind: acknowledges(frame.kind),
            number: frame.number,
            bytes,
        },
        None => Taken::Nothing,
    }
}

/// The kind of the acknowledgements of a message of this kind.
fn acknowledges(kind: Kind) -> Kind
    ensures { result ≡ acknowledges kind }
{
    match class_of(kind) {
        Class::Request => Kind::AckMsg,
        Class::Reply => Kind::AckRpy,
    }
}
