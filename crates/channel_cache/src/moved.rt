//! The documents that the marks of a replaced sync function move.

ghost use Rattle.std.specs.Prelude.{◌≡◌, ◌≤◌, ◌<◌, ◌+◌, ◌-◌, ◌++◌, Some, None, length, map, IfOk, OnOk};
ghost use Rattle.sg_history.specs.History.{past};
ghost use Rattle.log_index.specs.Marks.{write_of};
ghost use Rattle.channel_cache.specs.inner.Moves.{move_by, move_in, move_of, moves_of, optional};
ghost use Rattle.channel_cache.specs.Stands.{IndexesTo};

use crate::channels::channels_of;
use log_index::{Document, LogIndex, is_mark};
use sg_history::{ChannelName, LogReads, Mark};
use sg_outside::Memory;
use std::alloc::Global;

/// A document by the sequence of its last write, with the channels that it was in, and those that it is in.
#[derive(Clone, Copy)]
pub struct Moved<'a> {
    pub last: u64,
    pub before: &'a [ChannelName],
    pub after: &'a [ChannelName],
}

/// The document that stands there, by where it is written, where the mark of this number of the entry at a place
/// moves it: where it has the effects of the document's winner.
fn moved_at<'a>(
    index: &LogIndex,
    log: &mut LogReads<'a>,
    document: Document,
    mark: &'a Mark,
    number: usize,
    at: u64,
) -> Option<Moved<'a>>
    requires low { 0 < document.winning }
    requires high { document.winning < at }
    requires index { IndexesTo index.now log.old.entries at }
    ensures moved { map move_in (optional result) ≡ move_by (past log.old.entries (at - 1))
        (past log.old.entries at) mark.now number (Some document) }
    ensures log { log.new.entries ≡ log.old.entries }
    ensures reads { log.new.reads ≤ log.old.reads + 1 }
{
    if is_mark(index.marked(document.winning, at), at, number) {
        return Some(Moved {
            last: document.last,
            before: channels_of(index, log, document.winning, at - 1),
            after: mark.channels.as_slice(),
        });
    }
    None
}

/// What the mark of this number of the entry at a place, which is no write, moves: the document of its revision, where that
/// wins and has the effects of the mark.
fn moved_by<'a>(
    index: &LogIndex,
    log: &mut LogReads<'a>,
    mark: &'a Mark,
    number: usize,
    at: u64,
) -> Option<Moved<'a>>
    requires low { 0 < at }
    requires index { IndexesTo index.now log.old.entries at }
    requires other { write_of index.now at ≡ None }
    ensures moved { map move_in (optional result)
        ≡ move_of (past log.old.entries (at - 1)) (past log.old.entries at) mark.now number }
    ensures log { log.new.entries ≡ log.old.entries }
    ensures reads { log.new.reads ≤ log.old.reads + 1 }
{
    match index.document_up_to(&mark.doc, at) {
        None => None,
        Some(document) => moved_at(index, log, document, mark, number, at),
    }
}

/// Puts what the mark of this number of the entry at a place moves behind others.
fn add_moved<'a>(
    index: &LogIndex,
    log: &mut LogReads<'a>,
    moved: &mut Vec<Moved<'a>>,
    mark: &'a Mark,
    number: usize,
    at: u64,
) -> Result<(), Memory>
    requires low { 0 < at }
    requires index { IndexesTo index.now log.old.entries at }
    requires other { write_of index.now at ≡ None }
    ensures moved { OnOk result (map move_in moved.new.items ≡ map move_in moved.old.items
        ++ move_of (past log.old.entries (at - 1)) (past log.old.entries at) mark.now number) }
    ensures log { log.new.entries ≡ log.old.entries }
    ensures reads { log.new.reads ≤ log.old.reads + 1 }
{
    match moved_by(index, log, mark, number, at) {
        None => Ok(()),
        Some(one) => {
            moved.push(one)?;
            Ok(())
        }
    }
}

/// What these marks of the entry at a place, which is no write, move.
pub fn moved_by_all<'a>(
    alloc: Global,
    index: &LogIndex,
    log: &mut LogReads<'a>,
    marks: &'a [Mark],
    at: u64,
) -> Result<Vec<Moved<'a>>, Memory>
    requires low { 0 < at }
    requires index { IndexesTo index.now log.old.entries at }
    requires other { write_of index.now at ≡ None }
    ensures moved { IfOk result (λ moved. map move_in moved.items
        ≡ moves_of (past log.old.entries (at - 1)) (past log.old.entries at) marks.now 0) }
    ensures log { log.new.entries ≡ log.old.entries }
    ensures reads { log.new.reads ≤ log.old.reads + length marks.now }
{
    let mut moved = Vec::new(alloc);
    for (i, mark) in marks.iter().enumerate() {
        add_moved(index, log, &mut moved, mark, i, at)?;
    }
    Ok(moved)
}
