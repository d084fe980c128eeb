//! Journals that are too long for a table: a user who gains a thousand channels by one entry, and a channel that ten thousand
//! writes of one document pass through.

ghost use Rattle.std.specs.Prelude.{◌<◌};

use crate::listed::write_lists_of;
use crate::looks::write_looks;
use crate::texts::write_number;
use sg_history::read_journal;
use sg_outside::Bytes;
use std::alloc::{AllocError, Global};
use std::test::Fail;

/// A document of a number, in a channel of its own: the write with that number of entries and one before it.
fn write_single(number: u64, text: &mut Bytes) -> Result<(), AllocError>
    requires { number < 1000 }
{
    write_number(b"W\td", number + 1000, text)?;
    write_number(b"\t1-a\t-\t0\t7b7d\t-\t", number + 1, text)?;
    write_number(b"\t1-a\tc", number + 1000, text)?;
    text.extend_from_slice(b"\t-\t-\n")
}

fn write_singles(text: &mut Bytes) -> Result<(), AllocError> {
    for number in 0..1000 {
        write_single(number, text)?;
    }
    Ok(())
}

/// The channels of these documents, with a comma between each two.
fn write_channels(text: &mut Bytes) -> Result<(), AllocError> {
    write_number(b"c", 1000, text)?;
    for number in 1001..2000 {
        write_number(b",c", number, text)?;
    }
    Ok(())
}

/// A user of no channel, a thousand documents, and the user with the channel of each.
fn write_gains(text: &mut Bytes) -> Result<(), AllocError> {
    text.extend_from_slice(b"sgjournal 1\nU\tann\t-\t-\n")?;
    write_singles(text)?;
    text.extend_from_slice(b"U\tann\t")?;
    write_channels(text)?;
    text.extend_from_slice(b"\t-\n")
}

/// The row of a document: it came by the last entry.
fn write_gained(number: u64, text: &mut Bytes) -> Result<(), AllocError>
    requires { number < 1000 }
{
    write_number(b"1002:", number + 2, text)?;
    write_number(b" d", number + 1000, text)?;
    text.extend_from_slice(b" 1-a 0;")
}

/// An answer that filled so many channels, with the rows of all documents.
fn write_all_gained(filled: u64, text: &mut Bytes) -> Result<(), AllocError> {
    write_number(b"", filled, text)?;
    text.extend_from_slice(b" filled;")?;
    for number in 0..1000 {
        write_gained(number, text)?;
    }
    Ok(())
}

/// A write of one document, which has that number of writes before it, by turns in one of two channels.
fn write_revision(number: u64, text: &mut Bytes) -> Result<(), AllocError>
    requires { number < 20000 }
{
    write_number(b"W\td1\t", number + 1, text)?;
    if number == 0 {
        text.extend_from_slice(b"-a\t-")?;
    } else {
        write_number(b"-a\t", number, text)?;
        text.extend_from_slice(b"-a")?;
    }
    write_number(b"\t0\t7b7d\t-\t", number + 1, text)?;
    write_number(b"\t", number + 1, text)?;
    text.extend_from_slice(if number % 2 == 0 {
        b"-a\tA\t-\t-\n"
    } else {
        b"-a\tB\t-\t-\n"
    })
}

/// A document, the first write of another, and ten thousand more of that.
fn write_passes(text: &mut Bytes) -> Result<(), AllocError> {
    text.extend_from_slice(b"sgjournal 1\nW\td0\t1-a\t-\t0\t7b7d\t-\t0\t1-a\tA\t-\t-\n")?;
    for number in 0..10001 {
        write_revision(number, text)?;
    }
    Ok(())
}

/// The looks of that user at the last entry, of whose channels 16 are kept: each look fills all of them.
fn is_gained(alloc: Global) -> Result<bool, Fail> {
    let mut journal = Bytes::new(alloc);
    write_gains(&mut journal)?;
    let mut want = Bytes::new(alloc);
    write_all_gained(1000, &mut want)?;
    write_all_gained(1000, &mut want)?;
    let mut text = Bytes::new(alloc);
    let log = read_journal(alloc, journal.as_slice())?;
    let looks = "ann 1001@1002 revocations;ann 1001@1002 revocations";
    let written = write_looks(alloc, &log, "16", looks, &mut text);
    drop(log);
    written?;
    Ok(text.as_slice() == want.as_slice())
}

#[test]
fn a_thousand_channels_by_one_entry(rt: HostRuntime) -> Result<(), Fail> {
    assert!(rt; is_gained(rt.alloc())?);
    Ok(())
}

/// The documents of the two channels at the first write and at the last.
fn is_passed(alloc: Global) -> Result<bool, Fail> {
    let mut journal = Bytes::new(alloc);
    write_passes(&mut journal)?;
    let mut text = Bytes::new(alloc);
    let log = read_journal(alloc, journal.as_slice())?;
    let asks = "16 A@2 B@2 A@10002 B@10002";
    let written = write_lists_of(alloc, &log, asks, &mut text);
    drop(log);
    written?;
    Ok(text.as_slice() == "filled d0:1 d1:2;filled;kept d0:1 d1:10002;kept;".as_bytes())
}

#[test]
fn ten_thousand_writes_through_a_channel(rt: HostRuntime) -> Result<(), Fail> {
    assert!(rt; is_passed(rt.alloc())?);
    Ok(())
}
