//! The rows that are asked for, out of what a pass over the log knows of documents.

ghost use Rattle.std.specs.Prelude.{◌≡◌, ◌≤◌, List, Option, is_some, length, map, max, reverse, OnOk, IfOk};
ghost use Rattle.std.specs.BTreeMap.{values};
ghost use Rattle.sg_history.specs.declared.entries.Entry.{Entry};
ghost use Rattle.sg_history.specs.declared.row.Row.{Row};
ghost use Rattle.sg_history.specs.Feed as feed;
ghost use Rattle.sg_history.specs.View.{Shown};
ghost use Rattle.grant_history.specs.NewStates.{AreNewStates};
ghost use Rattle.feed_rows.specs.Known.{from_on, row_in};
ghost use Rattle.feed_rows.specs.KnownDocuments.{AreKnown, HaveAll};
ghost use Rattle.feed_rows.specs.inner.Ordered.{asked_rows, insert_asked, insert_over, under_key};
ghost use Rattle.feed_rows.specs.PassAt.{IsViewer};
ghost use Rattle.feed_rows.specs.Lasting.{AreToSearch};

use crate::by_channels::Switches;
use crate::document::{Change, Document, change_at};
use crate::pass::pass_over;
use crate::shown::Viewer;
use grant_history::NewStates;
use sg_history::{DocId, Entry, Key, Options, Row, Rows};
use std::alloc::{AllocError, Global};
use std::collections::BTreeMap;

fn bits_of(is_shown: bool, wrote: bool, deleted: bool) -> u8
    ensures { (shown : Option Shown) → is_shown ≡ is_some shown
        → result ≡ feed.bits_of shown wrote deleted }
{
    match (is_shown, wrote, deleted) {
        (true, _, false) => 0,
        (true, _, true) => 1,
        (false, true, false) => 4,
        (false, true, true) => 5,
        (false, false, _) => 2,
    }
}

fn is_gone(bits: u8) -> bool
    ensures { result ≡ feed.is_gone bits }
{
    bits >= 2
}

fn is_deleted(bits: u8) -> bool
    ensures { result ≡ feed.is_deleted bits }
{
    bits == 1 || bits == 5
}

fn is_start(key: &Key) -> bool
    ensures { result ≡ feed.is_start key.now }
{
    key.by == 0 && key.seq == 0
}

/// Whether a row of this key and these bits is asked for.
fn keeps(options: &Options, since: &Key, key: &Key, bits: u8) -> bool
    ensures { (row : Row) → row.key ≡ key.now → row.bits ≡ bits
        → result ≡ feed.keeps options.now since.now row }
{
    since.order(key).is_lt()
        && (!is_start(since) || !is_gone(bits) && !(options.active_only && is_deleted(bits)))
        && (options.revocations || bits != 2)
}

/// The row of a document by its last change.
fn make_row(
    alloc: Global,
    name: &DocId,
    change: Change<'_>,
    key: Key,
    bits: u8,
) -> Result<Row, AllocError>
    ensures { IfOk result (λ row. row ≡ record {
      key = key;
      doc = name.now;
      rev = change.entry.winner.now.rev;
      bits = bits;
    }) }
{
    let doc = name.copy(alloc)?;
    match change.winner.rev.copy(alloc) {
        Ok(rev) => Ok(Row {
            key,
            doc,
            rev,
            bits,
        }),
        Err(error) => {
            drop(doc);
            Err(error)
        }
    }
}

/// Puts a row under its key.
fn put_row(row: Row, rows: &mut BTreeMap<(u64, u64), Row>) -> Result<(), AllocError>
    ensures { OnOk result ((before : List Row) → rows.old.entries ≡ map under_key before
        → rows.new.entries ≡ map under_key (insert_over row before)) }
{
    rows.insert((row.key.by, row.key.seq), row)?;
    Ok(())
}

/// Puts the row of a document by its last change under its key, where there is one and it is asked for; only then
/// it is made.
fn add_row(
    alloc: Global,
    options: &Options,
    since: &Key,
    name: &DocId,
    change: Option<Change<'_>>,
    rows: &mut BTreeMap<(u64, u64), Row>,
) -> Result<(), AllocError>
    ensures { OnOk result ((before : List Row) → rows.old.entries ≡ map under_key before
        → rows.new.entries ≡ map under_key (insert_asked options.now since.now
        (row_in name.now change.entry) before)) }
{
    let Some(change) = change else {
        return Ok(());
    };
    let key = Key {
        by: change.by,
        seq: change.seq,
    };
    let bits = bits_of(change.is_shown, change.wrote, change.winner.deleted);
    if !keeps(options, since, &key, bits) {
        return Ok(());
    }
    let row = make_row(alloc, name, change, key, bits)?;
    put_row(row, rows)
}

/// The rows of these documents that are asked for, of which those from one place up to another are known.
fn map_of(
    alloc: Global,
    viewer: &Viewer<'_>,
    documents: &[Document<'_>],
    from: u64,
    to: u64,
    since: &Key,
    options: &Options,
) -> Result<BTreeMap<(u64, u64), Row>, AllocError>
    requires { AreToSearch viewer.now.periods.now }
    ensures { IfOk result (λ rows. (es : List Entry) → to ≡ length es
        → AreKnown viewer.now from es documents.now
        → rows.entries ≡ map under_key (asked_rows options.now since.now
        (reverse (map (λ d. from_on from (feed.row_of es
        viewer.now.user.now viewer.now.filter.now d.name.now)) documents.now)))) }
{
    let mut switches = Switches::new(alloc);
    let mut rows = BTreeMap::new(alloc);
    for document in documents {
        let change = change_at(alloc, viewer, &mut switches, *document, from, to)?;
        add_row(alloc, options, since, document.name, change, &mut rows)?;
    }
    Ok(rows)
}

fn values_of(alloc: Global, rows: BTreeMap<(u64, u64), Row>) -> Result<Vec<Row>, AllocError>
    ensures { IfOk result (λ list. list.items ≡ values rows) }
{
    rows.into_values().collect(alloc)
}

/// The rows of a user's changes feed after a since key, by what is known of documents: of each its changes from one
/// place on, which is that of the key or before it, up to another one, which is the front. They have to be all the
/// documents of which a row is asked for; others may be among them.
pub fn rows_of_documents(
    alloc: Global,
    viewer: &Viewer<'_>,
    documents: &[Document<'_>],
    from: u64,
    to: u64,
    since: &Key,
    options: &Options,
) -> Result<Rows, AllocError>
    requires to_search { AreToSearch viewer.now.periods.now }
    requires filter { options.now.filter ≡ viewer.now.filter.now }
    requires from { from ≤ max since.now.by 1 }
    ensures { IfOk result (λ rows. (es : List Entry) → to ≡ length es
        → AreKnown viewer.now from es documents.now
        → HaveAll es viewer.now.user.now since.now options.now documents.now
        → rows ≡ feed.feed es viewer.now.user.now since.now options.now) }
{
    let found = map_of(alloc, viewer, documents, from, to, since, options)?;
    let rows = values_of(alloc, found)?;
    Ok(Rows::from_vec(rows))
}

/// The rows of a user's changes feed at the end of some entries, by one pass over them, given the new states
/// from them on.
pub fn rows_of_pass(
    alloc: Global,
    viewer: &Viewer<'_>,
    entries: &[Entry],
    states: &NewStates,
    since: &Key,
    options: &Options,
) -> Result<Rows, AllocError>
    requires states { AreNewStates entries.now states.now (length entries.now) }
    requires viewer { IsViewer viewer.now (reverse entries.now) }
    requires filter { options.now.filter ≡ viewer.now.filter.now }
    ensures { IfOk result (λ rows. rows ≡ feed.feed
        (reverse entries.now) viewer.now.user.now since.now options.now) }
{
    let pass = pass_over(alloc, viewer, entries, states)?;
    let to = entries.len() as u64;
    let documents = pass.documents.as_slice();
    let rows = rows_of_documents(alloc, viewer, documents, 1, to, since, options)?;
    Ok(rows)
}
