//! Frames: a number, a kind with marks, a payload, and the checksum of the direction so far.

ghost use Rattle.std.specs.Prelude.{◌≡◌, ◌≤◌, ◌<◌, ◌^◌, ◌+◌, ◌++◌, length, true, false, List, ℕ, Ok, Err, MatchResult, IfOk, OnOk, OnErr, IsOkAnd};
ghost use Rattle.blip_frame.specs.Checksum.{checksum};
ghost use Rattle.blip_frame.specs.Varint.{AddsSome};
ghost use Rattle.blip_frame.specs.Frame.{FrameParts, parts_of, with_rest, has_checksum, flags_of, largest_written, IsMarkedAsKind, IsFrameAfter, IsFrameFrom, WritesAfter, kind_number, payload_sent_after, value_after, kind_at, is_set, content_at, checked_at, frame_at, spelling};

use crate::crc::Crc;
use crate::varint::{VarintFault, read_varint, write_varint};
use sg_outside::{Bytes, Memory};

/// What a frame carries: a request, a reply or an error reply, or an acknowledgement of one of these.
#[derive(Clone, Copy, Debug, PartialEq, Eq)]
pub enum Kind {
    /// A request.
    Msg,
    /// A reply.
    Rpy,
    /// A reply that is an error.
    Err,
    /// How many bytes of a request have come.
    AckMsg,
    /// How many bytes of a reply have come.
    AckRpy,
}

/// One frame. The payload is a piece of a message, or an acknowledgement's count as a varint.
#[derive(Clone, Copy)]
pub struct Frame<'a> {
    /// The number of the message; a reply has that of its request.
    pub number: u64,
    pub kind: Kind,
    pub urgent: bool,
    pub no_reply: bool,
    /// Whether more frames of the message are to come.
    pub more: bool,
    pub payload: &'a [u8],
}

/// Why bytes are no frame.
#[derive(Clone, Copy, Debug, PartialEq, Eq)]
pub enum FrameFault {
    /// The bytes end inside a varint, or before the checksum does.
    Short,
    /// A varint has no value below 2^64 in ten bytes.
    BadVarint,
    /// The flags name no kind, or are above 127.
    BadType { flags: u64 },
    /// The payload is compressed.
    Compressed,
    /// The payload has more than 1,048,576 bytes; this many.
    TooLong { bytes: u64 },
    /// The frame keeps another checksum than that of the direction.
    BadChecksum { kept: u32, computed: u32 },
}

impl From<VarintFault> for FrameFault {
    ghost use Rattle.std.specs.Prelude.{◌≡◌};
    ghost use Rattle.blip_frame.specs.Frame.{fault_of};

    ghost from_gives = { λ fault r. r ≡ fault_of fault };

    fn from(fault: VarintFault) -> FrameFault {
        match fault {
            VarintFault::Short => FrameFault::Short,
            VarintFault::BadVarint => FrameFault::BadVarint,
        }
    }
}

/// The place of the bit of the flags that says that the payload is compressed.
const COMPRESSED: u32 = 3;

const URGENT: u32 = 4;

const NO_REPLY: u32 = 5;

const MORE_COMING: u32 = 6;

/// The most bytes of a payload that is read.
const LARGEST_READ: usize = 1_048_576;

/// Reads a frame in a direction whose checksum so far is `crc`, which is that of the direction with
/// the frame afterwards, and stays as it was at a fault. Allocates nothing.
pub fn read_frame<'a>(crc: &mut Crc, bytes: &'a [u8]) -> Result<Frame<'a>, FrameFault>
    // The frames of the grammar are read, and nothing else.
    ensures found { IfOk result (λ f. IsFrameFrom crc.old.value bytes.now (parts_of f)) }
    ensures only { (f : FrameParts) → IsFrameFrom crc.old.value bytes.now f
        → IsOkAnd result (λ g. parts_of g ≡ f) }

    // The same in a direction in which these bytes were sent.
    ensures sent { (sent : List ℕ) → crc.old.value ≡ checksum sent → IfOk result
        (λ f. IsFrameAfter sent bytes.now (parts_of f)
        × (crc.new.value ≡ checksum (payload_sent_after sent (parts_of f)))) }
    ensures sent_only { (sent : List ℕ) (f : FrameParts) → crc.old.value ≡ checksum sent
        → IsFrameAfter sent bytes.now f
        → IsOkAnd result (λ g. parts_of g ≡ f) }

    // A fault is the first one.
    ensures exact { MatchResult result
        (λ f. frame_at crc.old.value bytes.now ≡ Ok (parts_of f, crc.new.value))
        (λ fault. frame_at crc.old.value bytes.now ≡ Err fault) }
    ensures value { IfOk result (λ f. crc.new.value ≡ value_after crc.old.value (parts_of f)) }
    ensures unchanged { OnErr result (crc.new ≡ crc.old) }
{
    match frame_of(crc.value, bytes) {
        Ok((frame, after)) => {
            *crc = after;
            Ok(frame)
        }
        Err(fault) => Err(fault),
    }
}

#[tactic(auto, unfolding(crate::specs::Frame::frame_at))]
fn frame_of<'a>(value: u32, bytes: &'a [u8]) -> Result<(Frame<'a>, Crc), FrameFault>
    ensures { MatchResult result
        (λ x. frame_at value bytes.now ≡ Ok (parts_of x.0, x.1.value))
        (λ fault. frame_at value bytes.now ≡ Err fault) }
{
    let (number, rest) = read_varint(bytes)?;
    let (flags, rest) = read_varint(rest)?;
    let kind = kind_of(flags)?;
    if is_set(flags, COMPRESSED) {
        return Err(FrameFault::Compressed);
    }
    let (payload, kept) = content_of(kind, rest)?;
    let after = checked(Crc { value }, payload, kept)?;
    let frame = Frame {
        number,
        kind,
        urgent: is_set(flags, URGENT),
        no_reply: is_set(flags, NO_REPLY),
        more: is_set(flags, MORE_COMING),
        payload,
    };
    Ok((frame, after))
}

fn kind_of(flags: u64) -> Result<Kind, FrameFault>
    ensures { result ≡ kind_at flags }
{
    if flags > 127 {
        return Err(FrameFault::BadType { flags });
    }
    match flags % 8 {
        0 => Ok(Kind::Msg),
        1 => Ok(Kind::Rpy),
        2 => Ok(Kind::Err),
        4 => Ok(Kind::AckMsg),
        5 => Ok(Kind::AckRpy),
        _ => Err(FrameFault::BadType { flags }),
    }
}

fn is_set(flags: u64, place: u32) -> bool
    requires { place < 64 }
    ensures { result ≡ is_set flags place }
{
    (flags >> place) & 1 == 1
}

impl Kind {
    /// Whether a frame of this kind ends in a checksum: an acknowledgement does not.
    pub fn has_checksum(self) -> bool
        ensures { result ≡ has_checksum self }
    {
        match self {
            Kind::Msg | Kind::Rpy | Kind::Err => true,
            Kind::AckMsg | Kind::AckRpy => false,
        }
    }

    /// The low three bits of the flags.
    fn number(self) -> u64
        ensures value { result ≡ kind_number self }
        ensures small { result < 8 }
    {
        match self {
            Kind::Msg => 0,
            Kind::Rpy => 1,
            Kind::Err => 2,
            Kind::AckMsg => 4,
            Kind::AckRpy => 5,
        }
    }
}

fn content_of(kind: Kind, rest: &[u8]) -> Result<(&[u8], Option<u32>), FrameFault>
    ensures { MatchResult result
        (λ x. content_at kind rest.now ≡ Ok (x.0.now, x.1))
        (λ fault. content_at kind rest.now ≡ Err fault) }
{
    if !kind.has_checksum() {
        return Ok((rest, None));
    }
    if rest.len() < 4 {
        return Err(FrameFault::Short);
    }
    let (payload, kept) = rest.split_at(rest.len() - 4);
    let kept = u32::from_be_bytes([kept[0], kept[1], kept[2], kept[3]]);
    Ok((payload, Some(kept)))
}

#[tactic(auto, unfolding(crate::specs::Frame::checked_at))]
fn checked(crc: Crc, payload: &[u8], kept: Option<u32>) -> Result<Crc, FrameFault>
    ensures { MatchResult result
        (λ after. checked_at crc.value payload.now kept ≡ Ok after.value)
        (λ fault. checked_at crc.value payload.now kept ≡ Err fault) }
{
    if payload.len() > LARGEST_READ {
        return Err(FrameFault::TooLong {
            bytes: payload.len() as u64,
        });
    }
    let Some(kept) = kept else {
        return Ok(crc);
    };
    let mut after = crc;
    after.add(payload);
    if after.value == kept {
        Ok(after)
    } else {
        Err(FrameFault::BadChecksum {
            kept,
            computed: after.value,
        })
    }
}

/// Puts a frame at the end of `out`, in its one spelling, and takes its payload into the checksum of
/// the direction. Out of memory both stay as they were.
pub fn write_frame(crc: &mut Crc, frame: &Frame<'_>, out: &mut Bytes) -> Result<(), Memory>
    requires size { length frame.now.payload.now ≤ largest_written }
    requires marked { IsMarkedAsKind (parts_of frame.now) }
    ensures ok { OnOk result
        (out.new
        ≡ out.old
        ++ spelling (value_after crc.old.value (parts_of frame.now)) (parts_of frame.now)) }
    ensures value { OnOk result (crc.new.value ≡ value_after crc.old.value (parts_of frame.now)) }

    // In a direction in which these bytes were sent.
    ensures sent { (sent : List ℕ) → crc.old.value ≡ checksum sent
        → OnOk result (WritesAfter sent out.old out.new (parts_of frame.now)
        × (crc.new.value ≡ checksum (payload_sent_after sent (parts_of frame.now)))) }
    ensures err { OnErr result ((out.new ≡ out.old) × (crc.new ≡ crc.old)) }
{
    write_frame_with(crc, frame, &[], out)
}

/// The same for a frame whose payload goes on with `rest`.
pub fn write_frame_with(
    crc: &mut Crc,
    frame: &Frame<'_>,
    rest: &[u8],
    out: &mut Bytes,
) -> Result<(), Memory>
    requires size { length frame.now.payload.now + length rest.now ≤ largest_written }
    requires marked { IsMarkedAsKind (parts_of frame.now) }
    ensures ok { OnOk result
        (out.new
        ≡ out.old
        ++ spelling (value_after crc.old.value (with_rest (parts_of frame.now) rest.now))
        (with_rest (parts_of frame.now) rest.now)) }
    ensures value { OnOk result
        (crc.new.value ≡ value_after crc.old.value (with_rest (parts_of frame.now) rest.now)) }

    // In a direction in which these bytes were sent.
    ensures sent { (sent : List ℕ) → crc.old.value ≡ checksum sent
        → OnOk result (WritesAfter sent out.old out.new (with_rest (parts_of frame.now) rest.now)
        × (crc.new.value ≡ checksum (payload_sent_after sent (with_rest (parts_of frame.now) rest.now)))) }
    ensures err { OnErr result ((out.new ≡ out.old) × (crc.new ≡ crc.old)) }
{
    let after = crc_after(*crc, frame, rest);
    let start = out.len();
    match push_frame(after.value, frame, rest, out) {
        Ok(()) => {
            *crc = after;
            Ok(())
        }
        Err(refused) => {
            out.truncate(start);
            Err(refused)
        }
    }
}

#[tactic(auto, using(crate::proofs::Register::goes_on))]
fn crc_after(mut crc: Crc, frame: &Frame<'_>, rest: &[u8]) -> Crc
    ensures { result.value ≡ value_after crc.value (with_rest (parts_of frame.now) rest.now) }
{
    if frame.kind.has_checksum() {
        crc.add(frame.payload);
        crc.add(rest);
    }
    crc
}

/// The same for the checksum of the direction up to the frame's end; out of memory it may leave
/// some bytes there.
fn push_frame(kept: u32, frame: &Frame<'_>, rest: &[u8], out: &mut Bytes) -> Result<(), Memory>
    ensures ok { OnOk result
        (out.new ≡ out.old ++ spelling kept (with_rest (parts_of frame.now) rest.now)) }
    ensures err { OnErr result (AddsSome out.old out.new) }
    ensures number { frame.now.number < 2 ^ 64 }
{
    write_varint(frame.number, out)?;
    write_varint(flags_of(frame), out)?;
    out.extend_from_slice(frame.payload)?;
    out.extend_from_slice(rest)?;
    if frame.kind.has_checksum() {
        out.extend_from_slice(&kept.to_be_bytes())?;
    }
    Ok(())
}

fn flags_of(frame: &Frame<'_>) -> u64
    ensures { result ≡ flags_of (parts_of frame.now) }
{
    frame.kind.number()
        + if frame.urgent { 1 << URGENT } else { 0 }
        + if frame.no_reply { 1 << NO_REPLY } else { 0 }
        + if frame.more { 1 << MORE_COMING } else { 0 }
}
