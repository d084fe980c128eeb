//! Messages over frames, in both directions of one wire.

ghost use Rattle.std.specs.Prelude.{◌≡◌, ◌<◌, ◌≤◌, ◌+◌, [], false, true, length, List, ℕ, IfOk, OnOk, OnErr};
ghost use Rattle.std.specs.List.{list_any};
ghost use Rattle.sg_outside.specs.Sink.{Counts};
ghost use Rattle.blip_frame.specs.Checksum.{checksum};
ghost use Rattle.blip_frame.specs.Frame.{has_checksum};
ghost use Rattle.blip_mux.specs.Joining.{is_reply};
ghost use Rattle.blip_mux.specs.Sending.{new_sending, is_bad_ack, sent_of, acked_in, is_reply_to, picked, after_picked, Sends, SendsAfter};
ghost use Rattle.blip_mux.specs.InboxStates.{new_inbox};
ghost use Rattle.session_mux.specs.Frames.{why_of};
ghost use Rattle.session_mux.specs.Muxed.{with_put, reply_message, request_message, IsTaken, IsTookFault, IsAcked, HaveGone};

use crate::frame_why::FrameWhy;
use blip_frame::{Crc, FrameFault, Kind, Payload, read_frame};
use blip_mux::{Inbox, Message, Next, Outbox, TakeFault, Taken};
use sg_outside::{Bytes, Gave, Memory, Wire};
use std::alloc::Global;

/// What a frame gave.
#[derive(Drop)]
pub enum Took {
    /// A message.
    Whole(Message),
    /// No message: a part of one, or an acknowledgement.
    Part,
    Bad(FrameWhy),
    Memory,
}

/// The most bytes of a frame that is sent: of its number, its flags, its payload and its checksum.
const LONGEST_FRAME: usize = 10 + 1 + 16_384 + 4;

/// Both directions of one wire: what has come and what is to go, each with its checksum so far, and
/// the one buffer in which frames are written.
#[derive(Drop)]
pub struct Mux {
    pub inbox: Inbox,
    pub outbox: Outbox,
    pub received: Crc,
    pub sent: Crc,
    pub frame: Bytes,
}

fn why_of_frame(fault: FrameFault) -> FrameWhy
    ensures { result ≡ why_of fault }
{
    match fault {
        FrameFault::Short => FrameWhy::Short,
        FrameFault::BadVarint => FrameWhy::BadVarint,
        FrameFault::BadType { flags } => FrameWhy::BadType { flags },
        FrameFault::Compressed => FrameWhy::Compressed,
        FrameFault::TooLong { bytes } => FrameWhy::FrameTooLong { bytes },
        FrameFault::BadChecksum { kept, computed } => FrameWhy::BadChecksum { kept, computed },
    }
}

/// The fault of a frame among those before it, unless memory ran out.
fn took_fault(fault: TakeFault) -> Took
    ensures { IsTookFault fault result }
{
    match fault {
        TakeFault::OutOfOrder { number } => Took::Bad(FrameWhy::OutOfOrder { number }),
        TakeFault::TooLong { number } => Took::Bad(FrameWhy::TooLong { number }),
        TakeFault::Full { number } => Took::Bad(FrameWhy::Full { number }),
        TakeFault::Payload(fault) => Took::Bad(FrameWhy::Payload(fault)),
        TakeFault::BadAckPayload => Took::Bad(FrameWhy::BadAckPayload),
        TakeFault::Memory => Took::Memory,
    }
}

impl Mux {
    /// Nothing has come, and nothing is to go. Allocates nothing: the buffer has no room yet.
    pub fn new(alloc: Global) -> Mux
        ensures inbox { result.inbox ≡ new_inbox }
        ensures outbox { result.outbox ≡ new_sending }
        ensures received { result.received.value ≡ 0 }
        ensures sent { result.sent.value ≡ 0 }
    {
        Mux {
            inbox: Inbox::new(alloc),
            outbox: Outbox::new(alloc),
            received: Crc::new(),
            sent: Crc::new(),
            frame: Bytes::new(alloc),
        }
    }

    /// Makes room in the buffer for each frame that may be sent.
    pub fn reserve(&mut self) -> Result<(), Memory>
        ensures { self.new ≡ self.old }
    {
        self.frame.reserve(LONGEST_FRAME)
    }

    /// Takes the bytes of a frame. An acknowledgement that it is, or that is owed for it, is taken.
    pub fn take(&mut self, bytes: &[u8]) -> Took
        ensures taken { IsTaken self.old bytes.now result self.new }
        ensures sent { self.new.sent ≡ self.old.sent }
    {
        blip_mux::laws::acknowledgements();
        let frame = match read_frame(&mut self.received, bytes) {
            Ok(frame) => frame,
            Err(fault) => return Took::Bad(why_of_frame(fault)),
        };
        match self.inbox.take(&frame) {
            Ok(Taken::Whole(message)) => Took::Whole(message),
            Ok(Taken::Nothing) => Took::Part,
            Ok(
                Taken::Owed {
                    kind,
                    number,
                    bytes,
                },
            ) => {
                match self.outbox.put_ack(kind, number, bytes) {
                    Ok(()) => Took::Part,
                    Err(_) => Took::Memory,
                }
            }
            Ok(
                Taken::Ack {
                    kind,
                    number,
                    bytes,
                },
            ) => self.acked(kind, number, bytes),
            Err(fault) => took_fault(fault),
        }
    }

    /// Takes an acknowledgement.
    fn acked(&mut self, kind: Kind, number: u64, bytes: u64) -> Took
        requires { has_checksum kind ≡ false }
        ensures answer { IsAcked kind number bytes self.old.outbox result self.new.outbox }
        ensures inbox { self.new.inbox ≡ self.old.inbox }
        ensures received { self.new.received ≡ self.old.received }
        ensures sent { self.new.sent ≡ self.old.sent }
    {
        match self.outbox.acked(kind, number, bytes) {
            Ok(()) => Took::Part,
            Err(bad) => Took::Bad(FrameWhy::BadAck(bad)),
        }
    }

    /// Puts the reply to the request of this number. Out of memory nothing is put.
    pub fn put_reply(
        &mut self,
        number: u64,
        kind: Kind,
        urgent: bool,
        payload: Payload,
    ) -> Result<(), Memory>
        requires reply { is_reply kind ≡ true }
        requires none { list_any (is_reply_to number) self.old.outbox.waiting ≡ false }
        ensures ok { OnOk result (self.new
            ≡ with_put (reply_message number kind urgent payload) self.old) }
        ensures received { self.new.received ≡ self.old.received }
        ensures sent { self.new.sent ≡ self.old.sent }
    {
        self.outbox.put_reply(number, kind, urgent, payload)
    }

    /// Puts a request, whose reply is expected where it wants one. Out of memory it may be put or not.
    pub fn put_request(&mut self, payload: Payload, no_reply: bool) -> Result<(), Memory>
        requires room { self.old.outbox.requests < 18446744073709551615 }
        ensures ok { OnOk result (self.new
            ≡ with_put (request_message (self.old.outbox.requests + 1) no_reply payload)
            self.old) }
        ensures received { self.new.received ≡ self.old.received }
        ensures sent { self.new.sent ≡ self.old.sent }
    {
        let number = self.outbox.put_request(payload, no_reply)?;
        if no_reply {
            return Ok(());
        }
        self.inbox.expect(number)
    }

    /// Writes the next frame that may be sent, alone in the buffer.
    fn write_next(&mut self) -> Result<Next, Memory>
        ensures frame { IfOk result (λ next. Sends (picked self.old.outbox) next
            self.old.sent.value self.new.sent.value [] self.new.frame) }
        ensures sent { (sent : List ℕ) → self.old.sent.value ≡ checksum sent
            → IfOk result (λ next. SendsAfter sent (picked self.old.outbox) next
            self.new.sent.value [] self.new.frame) }
        ensures after { OnOk result (self.new.outbox ≡ after_picked self.old.outbox) }
        ensures fits { length self.new.frame ≤ LONGEST_FRAME }
        ensures err { OnErr result ((self.new.outbox ≡ self.old.outbox)
            × (self.new.sent ≡ self.old.sent)) }
        ensures inbox { self.new.inbox ≡ self.old.inbox }
        ensures received { self.new.received ≡ self.old.received }
    {
        self.frame.truncate(0);
        self.outbox.next_frame(&mut self.sent, &mut self.frame)
    }

    /// Sends frame after frame, each from the one buffer, until there is none that may be sent, or
    /// one is not sent.
    pub fn send_all<W: Wire>(&mut self, wire: &mut W) -> Gave
        ensures sent { HaveGone self.old.outbox self.old.sent.value (W.recorded wire.old)
            (W.recorded wire.new) result self.new.outbox self.new.sent.value }
        ensures counted { Counts (W.faults wire.old) result (W.faults wire.new) }
        ensures inbox { self.new.inbox ≡ self.old.inbox }
        ensures received { self.new.received ≡ self.old.received }
    {
        loop {
            match self.write_next() {
                Ok(Next::Frame) => {}
                Ok(Next::Idle) => return Gave::Done,
                Err(_) => return Gave::Memory,
            }
            match wire.send(self.frame.as_slice()) {
                Gave::Done => {}
                other => return other,
            }
        }
    }
}
