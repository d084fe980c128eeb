//! Frames of 16,384 bytes that are written and read back, and as many bytes copied and summed in a plain loop.

ghost use Rattle.std.specs.Prelude.{◌≡◌, ◌≤◌, [], length, OnOk, IfOk};
ghost use Rattle.blip_frame.specs.Frame.{parts_of, largest_written, IsMarkedAsKind};

use blip_frame::{Crc, Frame, Kind, laws, read_frame, write_frame};
use sg_outside::{Bytes, Memory};
use std::alloc::{AllocError, Global};

/// Bytes of a payload.
const PAYLOAD: usize = 16_384;

/// Writes a frame into an empty buffer, and reads it on the other side of its direction.
fn carry(
    sent: &mut Crc,
    received: &mut Crc,
    frame: &Frame<'_>,
    out: &mut Bytes,
) -> Result<(), Memory>
    requires size { length frame.now.payload.now ≤ largest_written }
    requires marked { IsMarkedAsKind (parts_of frame.now) }
    requires empty { out.old ≡ [] }
    requires alike { received.old.value ≡ sent.old.value }
    ensures alike { OnOk result (received.new.value ≡ sent.new.value) }
{
    let _number = frame.number;
    write_frame(sent, frame, out)?;
    // What was written is read again.
    laws::frames();
    match read_frame(received, out.as_slice()) {
        Ok(_) => Ok(()),
        Err(_) => unreachable!(),
    }
}

/// The bytes of a payload of this size.
fn payload(alloc: Global, size: usize) -> Result<Vec<u8>, AllocError>
    ensures { IfOk result (λ bytes. length bytes.items ≡ size) }
{
    vec![in alloc; 0x5a; size]
}

/// The checksum of a direction in which so many frames with this payload went.
fn framed(alloc: Global, payload: &[u8], count: u32) -> Result<u32, AllocError>
    requires { length payload.now ≤ largest_written }
{
    let mut out = Bytes::new(alloc);
    let mut sent = Crc::new();
    let mut received = Crc::new();
    for number in 0..count {
        out.truncate(0);
        let frame = Frame {
            number: u64::from(number),
            kind: Kind::Msg,
            urgent: false,
            no_reply: true,
            more: true,
            payload,
        };
        carry(&mut sent, &mut received, &frame, &mut out)?;
    }
    Ok(received.value)
}

/// The checksum of the payload's bytes so many times, each time copied into a buffer and summed.
fn plain(alloc: Global, payload: &[u8], count: u32) -> Result<u32, AllocError> {
    let mut out = Bytes::new(alloc);
    let mut sum = Crc::new();
    for _ in 0..count {
        out.truncate(0);
        out.extend_from_slice(payload)?;
        sum.add(out.as_slice());
    }
    Ok(sum.value)
}

/// Does the job of this name so many times: the checksum that it came to.
pub fn job(alloc: Global, name: &str, count: u32) -> Result<u32, AllocError> {
    let payload = payload(alloc, PAYLOAD)?;
    match name {
        "plain" => plain(alloc, payload.as_slice(), count),
        _ => framed(alloc, payload.as_slice(), count),
    }
}
