//! An acknowledgement that waits to be sent.

ghost use Rattle.std.specs.Prelude.{◌≡◌, ◌++◌, ◌≤◌, false, length, List, ℕ, OnOk, OnErr};
ghost use Rattle.blip_frame.specs.Checksum.{checksum};
ghost use Rattle.blip_frame.specs.Frame.{has_checksum, value_after, spelling, payload_sent_after, WritesAfter};
ghost use Rattle.blip_mux.specs.Acknowledgements.{ack_frame};

use blip_frame::{Crc, Frame, Kind, Varint, write_frame};
use sg_outside::{Bytes, Memory};
use std::marker::Model;

/// How many bytes of a message have come: of a request, or of a reply.
#[derive(Drop)]
pub(crate) struct Acknowledgement {
    kind: Kind,
    number: u64,
    bytes: u64,
}

impl Model for Acknowledgement {
    ghost use Rattle.std.specs.Prelude.{◌≡◌, false};
    ghost use Rattle.blip_frame.specs.Frame.{has_checksum};
    ghost use Rattle.blip_mux.specs.Acknowledgements as acks;

    ghost Value = { acks.Acknowledgement };

    ghost view = { λ a. record { kind = a.kind; number = a.number; bytes = a.bytes } };

    ghost invariant = { λ a. has_checksum a.kind ≡ false };
}

impl Acknowledgement {
    pub(crate) fn new(kind: Kind, number: u64, bytes: u64) -> Acknowledgement
        requires { has_checksum kind ≡ false }
        ensures { result ≡ record { kind = kind; number = number; bytes = bytes } }
    {
        Acknowledgement {
            kind,
            number,
            bytes,
        }
    }

    /// Writes its frame. Out of memory checksum and `out` stay as they were.
    pub(crate) fn write(&self, crc: &mut Crc, out: &mut Bytes) -> Result<(), Memory>
        ensures ok { OnOk result (out.new ≡ out.old
            ++ spelling (value_after crc.old.value (ack_frame self.now)) (ack_frame self.now)) }
        ensures value { OnOk result
            (crc.new.value ≡ value_after crc.old.value (ack_frame self.now)) }
        ensures sent { (sent : List ℕ) → crc.old.value ≡ checksum sent
            → OnOk result (WritesAfter sent out.old out.new (ack_frame self.now)
            × (crc.new.value ≡ checksum (payload_sent_after sent (ack_frame self.now)))) }
        ensures err { OnErr result ((out.new ≡ out.old) × (crc.new ≡ crc.old)) }
    {
        let payload = Varint::new(self.bytes);
        let frame = Frame {
            number: self.number,
            kind: self.kind,
            urgent: true,
            no_reply: true,
            more: false,
            payload: payload.as_slice(),
        };
        write_frame(crc, &frame, out)
    }
}
