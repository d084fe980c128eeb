//! The transcript's lines of a session.

ghost use Rattle.std.specs.Prelude.{◌≡◌, ◌++◌, OnOk, codes, decimal};
ghost use Rattle.std.specs.List.{flat_map};
ghost use Rattle.transcripts.specs.Transcript as transcript;

use session_core::{Look, Purpose};
use session_run::{End, Ended};
use sg_history::{Name, write_decimal, write_hex};
use sg_outside::{Bytes, Memory};

/// Puts the first line of a session at the end: its number, and whose it is.
pub fn write_title(number: u64, user: &Name, out: &mut Bytes) -> Result<(), Memory>
    ensures { OnOk result (out.new ≡ out.old ++ transcript.title_line number user.now) }
{
    out.extend_from_slice(b"session ")?;
    write_decimal(number, out)?;
    out.push(b' ')?;
    out.extend_from_slice(user.as_bytes())?;
    out.push(b'\n')
}

fn purpose_of(purpose: Purpose) -> &'static [u8]
    ensures { result.now ≡ transcript.purpose_text purpose }
{
    match purpose {
        Purpose::Feed => b"feed",
        Purpose::Bodies => b"bodies",
        Purpose::Push => b"push",
        Purpose::Ask => b"ask",
    }
}

fn write_look(look: Look, out: &mut Bytes) -> Result<(), Memory>
    ensures { OnOk result (out.new ≡ out.old ++ transcript.look_line look) }
{
    out.extend_from_slice(b"look ")?;
    write_decimal(look.front, out)?;
    out.push(b' ')?;
    out.extend_from_slice(purpose_of(look.purpose))?;
    out.push(b'\n')
}

fn write_looks(looks: &[Look], out: &mut Bytes) -> Result<(), Memory>
    ensures { OnOk result (out.new ≡ out.old ++ flat_map transcript.look_line looks.now) }
{
    for look in looks {
        write_look(*look, out)?;
    }
    Ok(())
}

fn write_frame(frame: &Bytes, out: &mut Bytes) -> Result<(), Memory>
    ensures { OnOk result (out.new ≡ out.old ++ transcript.send_line frame.now) }
{
    out.extend_from_slice(b"send ")?;
    write_hex(frame.as_slice(), out)?;
    out.push(b'\n')
}

fn write_frames(frames: &[Bytes], out: &mut Bytes) -> Result<(), Memory>
    ensures { OnOk result (out.new ≡ out.old ++ flat_map transcript.send_line frames.now) }
{
    for frame in frames {
        write_frame(frame, out)?;
    }
    Ok(())
}

fn write_bad_frame(index: u64, out: &mut Bytes) -> Result<(), Memory>
    ensures { OnOk result (out.new ≡ out.old ++ codes "badframe " ++ decimal index) }
{
    out.extend_from_slice(b"badframe ")?;
    write_decimal(index, out)
}

fn write_word(end: End, out: &mut Bytes) -> Result<(), Memory>
    ensures { OnOk result (out.new ≡ out.old ++ transcript.end_text end) }
{
    let word: &[u8] = match end {
        End::BadFrame { index, .. } => return write_bad_frame(index, out),
        End::Closed => b"closed",
        End::WireFault => b"wirefault",
        End::LooksFull => b"looksfull",
        End::TurnsFull => b"turnsfull",
        End::Memory => b"memory",
    };
    out.extend_from_slice(word)
}

fn write_end(end: End, out: &mut Bytes) -> Result<(), Memory>
    ensures { OnOk result (out.new
        ≡ out.old ++ codes "end " ++ transcript.end_text end ++ codes "\n") }
{
    out.extend_from_slice(b"end ")?;
    write_word(end, out)?;
    out.push(b'\n')
}

/// Puts the lines of a session behind its first at the end: its looks, the frames that it sent, and how it ended.
pub fn write_ended(ended: &Ended, sent: &[Bytes], out: &mut Bytes) -> Result<(), Memory>
    ensures { OnOk result (out.new ≡ out.old ++ transcript.ended_lines ended.now sent.now) }
{
    write_looks(ended.looks.as_slice(), out)?;
    write_frames(sent, out)?;
    write_end(ended.end, out)
}
