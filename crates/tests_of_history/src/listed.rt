//! The documents of channels that are asked for in turn.

ghost use Rattle.std.specs.Prelude.{◌<◌, length};
ghost use Rattle.channel_cache.specs.Stands.{CachedOf, IndexesTo, StandsFor};

use crate::grants::applied;
use crate::texts::{cut, number_of};
use channel_cache::{Caches, DocSeq, Found, Listed, Lists};
use log_index::LogIndex;
use sg_history::{ChannelName, Log, LogReads, TextFault, write_decimal};
use sg_outside::Bytes;
use std::alloc::{AllocError, Global};

/// How many channels may be kept: the number that a text is, at least 1.
pub fn most_of(text: &str) -> u64
    ensures { 0 < result }
{
    match number_of(text) {
        0 => 1,
        most => most,
    }
}

/// A document and its sequence, with a blank before.
fn write_document(document: &DocSeq, text: &mut Bytes) -> Result<(), AllocError> {
    text.push(b' ')?;
    text.extend_from_slice(document.doc.as_bytes())?;
    text.push(b':')?;
    write_decimal(document.seq, text)
}

fn write_documents(documents: &[DocSeq], text: &mut Bytes) -> Result<(), AllocError> {
    for document in documents {
        write_document(document, text)?;
    }
    Ok(())
}

/// Whether a channel was filled, and its documents.
fn write_listed(listed: &Listed, text: &mut Bytes) -> Result<(), AllocError> {
    let word = if listed.refilled { "filled" } else { "kept" };
    text.extend_from_slice(word.as_bytes())?;
    write_documents(listed.documents.as_slice(), text)?;
    text.push(b';')
}

/// What is listed of a channel at a place, as `CHANNEL@PLACE`.
fn write_list(
    alloc: Global,
    reads: &mut LogReads<'_>,
    caches: &mut Caches,
    ask: &str,
    text: &mut Bytes,
) -> Result<(), TextFault>
    requires { CachedOf caches.old reads.old.entries }
    ensures { CachedOf caches.new reads.new.entries }
{
    let (channel, to) = cut(ask, '@');
    let to = number_of(to);
    if to > reads.length() {
        return Ok(text.extend_from_slice(b"past the log;")?);
    }
    let channel = ChannelName::parse(alloc, channel)?;
    let listed = caches.list(reads, &channel, to)?;
    let written = write_listed(&listed, text);
    drop(listed);
    Ok(written?)
}

fn write_each_list(
    alloc: Global,
    log: &Log,
    caches: &mut Caches,
    asks: &str,
    text: &mut Bytes,
) -> Result<(), TextFault>
    requires { CachedOf caches.old log.now.entries.list }
{
    let mut reads = LogReads::new(log);
    for ask in asks.split(' ') {
        write_list(alloc, &mut reads, caches, ask, text)?;
    }
    Ok(())
}

/// How many channels may be kept, and what is listed then of channels in turn, with a blank between each two.
pub fn write_lists_of(
    alloc: Global,
    log: &Log,
    asked: &str,
    text: &mut Bytes,
) -> Result<(), TextFault> {
    let (most, asks) = cut(asked, ' ');
    let mut caches = Caches::new(alloc, most_of(most))?;
    let written = write_each_list(alloc, log, &mut caches, asks, text);
    drop(caches);
    written
}

/// Channels with a comma between each two.
fn channels_of(alloc: Global, names: &str) -> Result<Vec<ChannelName>, TextFault> {
    let mut channels = Vec::new(alloc);
    for name in names.split(',') {
        channels.push(ChannelName::parse(alloc, name)?)?;
    }
    Ok(channels)
}

fn write_sequences(sequences: &[u64], text: &mut Bytes) -> Result<(), AllocError> {
    for seq in sequences {
        text.push(b' ')?;
        write_decimal(*seq, text)?;
    }
    Ok(())
}

/// How many channels were filled, and the sequences.
fn write_found(found: &Found, text: &mut Bytes) -> Result<(), AllocError> {
    write_decimal(found.refills, text)?;
    text.push(b':')?;
    write_sequences(found.sequences.as_slice(), text)?;
    text.push(b';')
}

/// What is found in channels at a place, as `CHANNELS@PLACE`.
fn write_ask(
    alloc: Global,
    index: &LogIndex,
    reads: &mut LogReads<'_>,
    lists: &mut Lists,
    ask: &str,
    text: &mut Bytes,
) -> Result<(), TextFault>
    requires stands { StandsFor lists.old reads.old.entries }
    requires index { IndexesTo index.now reads.old.entries (length reads.old.entries) }
    ensures stands { StandsFor lists.new reads.new.entries }
    ensures index { IndexesTo index.now reads.new.entries (length reads.new.entries) }
{
    let (names, to) = cut(ask, '@');
    let to = number_of(to);
    if to > reads.length() {
        return Ok(text.extend_from_slice(b"past the log;")?);
    }
    let channels = channels_of(alloc, names)?;
    let found = lists.ask(index, reads, channels.as_slice(), to)?;
    Ok(write_found(&found, text)?)
}

fn write_each_ask(
    alloc: Global,
    log: &Log,
    index: &LogIndex,
    lists: &mut Lists,
    asks: &str,
    text: &mut Bytes,
) -> Result<(), TextFault>
    requires stands { StandsFor lists.old log.now.entries.list }
    requires index { IndexesTo index.now log.now.entries.list (length log.now.entries.list) }
{
    let mut reads = LogReads::new(log);
    for ask in asks.split(' ') {
        write_ask(alloc, index, &mut reads, lists, ask, text)?;
    }
    Ok(())
}

fn write_asks(
    alloc: Global,
    log: &Log,
    index: &LogIndex,
    asked: &str,
    text: &mut Bytes,
) -> Result<(), TextFault>
    requires { IndexesTo index.now log.now.entries.list (length log.now.entries.list) }
{
    let (most, asks) = cut(asked, ' ');
    let mut lists = Lists::new(alloc, most_of(most))?;
    let written = write_each_ask(alloc, log, index, &mut lists, asks, text);
    drop(lists);
    written
}

/// The same of what is found in several channels at a time.
pub fn write_asks_of(
    alloc: Global,
    log: &Log,
    asked: &str,
    text: &mut Bytes,
) -> Result<(), TextFault> {
    let history = applied(alloc, log)?;
    let written = write_asks(alloc, log, history.index(), asked, text);
    drop(history);
    written
}
