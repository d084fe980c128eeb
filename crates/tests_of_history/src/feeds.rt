//! The feeds of users, and their channels at a front.

use crate::grants::write_channels;
use crate::texts::{cut, number_of, write_all};
use feed_rows::{channels_of, rows};
use sg_history::{Channels, Key, Log, Name, Options, Row, Rows, TextFault, write_decimal};
use sg_outside::Bytes;
use std::alloc::{AllocError, Global};

fn filter_of(alloc: Global, filter: &str) -> Result<Option<Channels>, TextFault> {
    if filter.is_empty() {
        return Ok(None);
    }
    Ok(Some(Channels::parse(alloc, filter)?))
}

/// Options, and behind a blank the channels of a filter.
pub fn options_of(alloc: Global, words: &str) -> Result<Options, TextFault> {
    let (words, filter) = cut(words, ' ');
    Ok(Options {
        filter: filter_of(alloc, filter)?,
        active_only: words.contains("active"),
        revocations: words.contains("revocations"),
    })
}

fn write_rev(row: &Row, text: &mut Bytes) -> Result<(), AllocError> {
    write_all(&[b" ", row.doc.as_bytes(), b" "], text)?;
    row.rev.write(text)
}

fn write_bits(row: &Row, text: &mut Bytes) -> Result<(), AllocError> {
    text.push(b' ')?;
    write_decimal(u64::from(row.bits), text)?;
    text.push(b';')
}

fn write_row(row: &Row, text: &mut Bytes) -> Result<(), AllocError> {
    row.key.write(text)?;
    write_rev(row, text)?;
    write_bits(row, text)
}

/// Rows as `KEY DOCUMENT REVISION BITS;`, one after another.
pub fn write_rows(found: &Rows, text: &mut Bytes) -> Result<(), AllocError> {
    for row in found.as_slice() {
        write_row(row, text)?;
    }
    Ok(())
}

/// A user's feed after a key.
pub fn write_feed(
    alloc: Global,
    log: &Log,
    user: &Name,
    since: &Key,
    options: &Options,
    text: &mut Bytes,
) -> Result<(), AllocError> {
    let found = rows(alloc, log, log.entries.len() as u64, user, since, options)?;
    let written = write_rows(&found, text);
    drop(found);
    written
}

/// The same of a user, a key that is one number, and options, with a blank between each two.
pub fn write_feed_of(
    alloc: Global,
    log: &Log,
    asked: &str,
    text: &mut Bytes,
) -> Result<(), TextFault> {
    let (user, asked) = cut(asked, ' ');
    let (since, words) = cut(asked, ' ');
    let user = Name::parse(alloc, user)?;
    let options = options_of(alloc, words)?;
    let since = number_of(since);
    Ok(write_feed(
        alloc,
        log,
        &user,
        &Key {
            by: since,
            seq: since,
        },
        &options,
        text,
    )?)
}

/// The channels of a user at a front, each with a blank before it; `none` where the user does not exist.
fn write_found(
    alloc: Global,
    log: &Log,
    front: u64,
    user: &Name,
    text: &mut Bytes,
) -> Result<(), AllocError> {
    if front > log.entries.len() as u64 {
        return text.extend_from_slice(b"past the log");
    }
    match channels_of(alloc, log, front, user)? {
        Some(channels) => {
            let written = write_channels(&channels, text);
            drop(channels);
            written
        }
        None => text.extend_from_slice(b"none"),
    }
}

/// The same of a front and a user, with a blank between.
pub fn write_all_channels(
    alloc: Global,
    log: &Log,
    asked: &str,
    text: &mut Bytes,
) -> Result<(), TextFault> {
    let (front, user) = cut(asked, ' ');
    let user = Name::parse(alloc, user)?;
    Ok(write_found(alloc, log, number_of(front), &user, text)?)
}
