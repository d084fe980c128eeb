//! Why a frame is at fault.

use blip_frame::PayloadFault;
use blip_mux::BadAck;

/// Why a frame is at fault.
#[derive(Clone, Copy, Debug, PartialEq, Eq)]
pub enum FrameWhy {
    /// It ends too early.
    Short,
    /// A number in it has no value below 2^64 in ten bytes.
    BadVarint,
    /// Its flags name no kind, or are above 127.
    BadType { flags: u64 },
    /// It is compressed.
    Compressed,
    /// Its payload has this many bytes, which are too many.
    FrameTooLong { bytes: u64 },
    /// Its checksum is `kept`, where that of its direction is `computed`.
    BadChecksum { kept: u32, computed: u32 },
    /// A frame of this number may not come now.
    OutOfOrder { number: u64 },
    /// The message of this number would be too long.
    TooLong { number: u64 },
    /// With the message of this number those that are not whole would hold too much.
    Full { number: u64 },
    /// The payload of its message is none.
    Payload(PayloadFault),
    /// The payload of an acknowledgement is not one varint.
    BadAckPayload,
    /// It is an acknowledgement that can't be true of what was sent.
    BadAck(BadAck),
    /// It is a text message.
    NotBinary,
}
