//! What several documents give from one place on.

ghost use Rattle.std.specs.Prelude.{◌≡◌, ◌<◌, ◌≤◌, ◌+◌, ◌-◌, ◌++◌, true, is_some, ℕ, List, ◌∷◌, length, None, Some, IfOk, OnOk, OnErr, if◌then◌else◌};
ghost use Rattle.std.specs.BTreeMap.{get_by_text};
ghost use Rattle.std.specs.Option.{option_copied};
ghost use Rattle.std.specs.Str.{bytes_eq};
ghost use Rattle.sg_history.specs.declared.entries.Entry.{Entry};
ghost use Rattle.grant_tracks.specs.Dated.{Dated};
ghost use Rattle.grant_history.specs.inner.Changes.{AreKept, IsMarking, all_times, change_by, changes_by, facts_in_change, facts_in_changes, given_after, given_before, mark_among, others};
ghost use Rattle.grant_history.specs.Facts.{mark_facts, times};
ghost use Rattle.grant_history.specs.Ledger.{GiveSame, IsLedger, Took, facts_in, kept_of};
ghost use Rattle.grant_history.specs.Store.{IsStore, count_at, has_at};

use crate::facts::Fact;
use crate::given::of_mark;
use crate::ledger::{Ledger, Lists, SourceFacts, make_list};
use crate::states::NewState;
use crate::store::Store;
use log_index::Marked;
use sg_history::{DocId, Mark};
use sg_outside::Memory;
use std::alloc::{AllocError, Global};
use std::mem;

/// What a document gives from a place on; once that is kept, what it gave before.
#[derive(Drop)]
pub struct Change<'a> {
    pub doc: &'a DocId,
    pub list: SourceFacts,
}

/// Keeps that a source gives nothing, unless something is kept of it.
fn make_if_absent(alloc: Global, lists: &mut Lists, name: &str) -> Result<(), Memory>
    ensures there { OnOk result (is_some (get_by_text lists.new name.now) ≡ true) }
    ensures kept { (other : List ℕ) → is_some (get_by_text lists.old other) ≡ true
        → is_some (get_by_text lists.new other) ≡ true }
    ensures lists { (other : List ℕ) → facts_in lists.new other ≡ facts_in lists.old other }
{
    if lists.contains_key(name) {
        return Ok(());
    }
    make_list(alloc, lists, name)
}

/// Keeps of each of these documents that it gives nothing, unless something is kept of it.
fn make_lists(alloc: Global, lists: &mut Lists, changes: &[Change<'_>]) -> Result<(), Memory>
    ensures there { OnOk result (AreKept lists.new (facts_in_changes changes.now)) }
    ensures lists { (other : List ℕ) → facts_in lists.new other ≡ facts_in lists.old other }
{
    for change in changes {
        make_if_absent(alloc, lists, change.doc.as_str())?;
    }
    Ok(())
}

/// Documents do not give from a place on what they gave. Allocates nothing.
fn take_back(alloc: Global, store: &mut Store, changes: &[Change<'_>], at: u64)
    requires given { (f : Fact)
        → all_times (facts_in_changes changes.now) f ≤ count_at store.old f }
    requires up_to { IsStore store.old at }
    ensures { Dated count_at has_at IsStore store.old store.new at
        (λ f. count_at store.old f - all_times (facts_in_changes changes.now) f) }
{
    for change in changes {
        let list = &change.list;
        store.take_all(alloc, list.facts.as_slice(), list.places.as_slice(), at);
    }
}

/// A document gives these facts besides from a place on. Out of memory it does not.
fn give(alloc: Global, store: &mut Store, change: &mut Change<'_>, at: u64) -> Result<(), Memory>
    requires { IsStore store.old at }
    ensures ok { OnOk result (Dated count_at has_at IsStore store.old store.new at
        (λ f. count_at store.old f + times change.old.list.facts.items f)) }
    ensures err { OnErr result (Dated count_at has_at IsStore store.old store.new at
        (count_at store.old)) }
    ensures change { facts_in_change change.new ≡ facts_in_change change.old }
{
    change.list.places = store.give_all(alloc, change.list.facts.as_slice(), at)?;
    Ok(())
}

/// Documents give these facts besides from a place on. Out of memory none does.
fn give_each(
    alloc: Global,
    store: &mut Store,
    changes: &mut Vec<Change<'_>>,
    at: u64,
) -> Result<(), Memory>
    requires { IsStore store.old at }
    ensures ok { OnOk result (Dated count_at has_at IsStore store.old store.new at
        (λ f. count_at store.old f + all_times (facts_in_changes changes.old.items) f)) }
    ensures err { OnErr result (Dated count_at has_at IsStore store.old store.new at
        (count_at store.old)) }
    ensures changes { facts_in_changes changes.new.items ≡ facts_in_changes changes.old.items }
{
    for i in 0..changes.len() {
        match give(alloc, store, &mut changes[i], at) {
            Ok(_) => {}
            Err(_) => {
                take_back(alloc, store, &changes.as_slice()[..i], at);
                return Err(AllocError);
            }
        }
    }
    Ok(())
}

/// Keeps what a document gives in place of what it gave, of which something is kept. Allocates nothing.
fn swap(lists: &mut Lists, change: &mut Change<'_>)
    requires { is_some (get_by_text lists.old change.old.doc.now) ≡ true }
    ensures lists { (other : List ℕ) → facts_in lists.new other
        ≡ (if bytes_eq change.old.doc.now other then change.old.list.facts.items
        else facts_in lists.old other) }
    ensures kept { (other : List ℕ)
        → is_some (get_by_text lists.new other) ≡ is_some (get_by_text lists.old other) }
    ensures doc { change.new.doc.now ≡ change.old.doc.now }
    ensures facts { change.new.list.facts.items ≡ facts_in lists.old change.old.doc.now }
{
    if let Some(list) = lists.get_mut(change.doc.as_str()) {
        mem::swap(list, &mut change.list);
    }
}

/// The same of each of these documents.
fn swap_each(lists: &mut Lists, changes: &mut Vec<Change<'_>>)
    requires { AreKept lists.old (facts_in_changes changes.old.items) }
    ensures lists { (other : List ℕ) → facts_in lists.new other
        ≡ given_after (facts_in lists.old) (facts_in_changes changes.old.items) other }
    ensures changes { facts_in_changes changes.new.items
        ≡ given_before (facts_in lists.old) (facts_in_changes changes.old.items) }
{
    for i in 0..changes.len() {
        swap(lists, &mut changes[i]);
    }
}

/// Documents give other facts from a place on: they give all of these before they give nothing of what
/// they gave, so that what moves from one to another is never given by none. Out of memory each gives
/// what it gave.
pub fn exchange_each(
    alloc: Global,
    store: &mut Store,
    lists: &mut Lists,
    changes: &mut Vec<Change<'_>>,
    at: u64,
) -> Result<(), Memory>
    requires up_to { IsStore store.old at }
    requires given { (f : Fact) → all_times (given_before (facts_in lists.old)
        (facts_in_changes changes.old.items)) f
        ≤ count_at store.old f + all_times (facts_in_changes changes.old.items) f }
    ensures store { OnOk result (Dated count_at has_at IsStore store.old store.new at
        (λ f. count_at store.old f + all_times (facts_in_changes changes.old.items) f
        - all_times (given_before (facts_in lists.old) (facts_in_changes changes.old.items)) f)) }
    ensures lists { OnOk result ((other : List ℕ) → facts_in lists.new other
        ≡ given_after (facts_in lists.old) (facts_in_changes changes.old.items) other) }
    ensures err_store { OnErr result (Dated count_at has_at IsStore store.old store.new at
        (count_at store.old)) }
    ensures err_lists { OnErr result ((other : List ℕ)
        → facts_in lists.new other ≡ facts_in lists.old other) }
{
    make_lists(alloc, lists, changes.as_slice())?;
    give_each(alloc, store, changes, at)?;
    swap_each(lists, changes);
    take_back(alloc, store, changes.as_slice(), at);
    Ok(())
}

/// The mark, of these, that has the effects of a state, if one has.
fn mark_of(marks: &[Mark], marked: Option<Marked>) -> Option<&Mark>
    ensures { option_copied result ≡ mark_among marks.now marked }
{
    marks.get(marked?.mark as usize)
}

/// What the document of a mark gives by it.
fn change_of<'a>(alloc: Global, mark: &'a Mark) -> Result<Change<'a>, Memory>
    ensures doc { IfOk result (λ change. change.doc.now ≡ mark.now.doc) }
    ensures facts { IfOk result (λ change. change.list.facts.items ≡ mark_facts mark.now) }
{
    let facts = of_mark(alloc, mark)?;
    let places = Vec::new(alloc);
    let list = SourceFacts { facts, places };
    Ok(Change {
        doc: &mark.doc,
        list,
    })
}

/// Puts what the document of a mark gives by it behind others, unless it gives that already.
fn add_mark<'a>(
    alloc: Global,
    ledger: &Ledger,
    changes: &mut Vec<Change<'a>>,
    mark: &'a Mark,
) -> Result<(), Memory>
    ensures { OnOk result (facts_in_changes changes.new.items ≡ facts_in_changes changes.old.items
        ++ others (kept_of ledger.now) (change_by (Some mark.now))) }
{
    let change = change_of(alloc, mark)?;
    if ledger.gives(change.doc, change.list.facts.as_slice()) {
        drop(change);
        return Ok(());
    }
    changes.push(change)?;
    Ok(())
}

/// Puts what the document of a state gives behind others, where a mark, of these, has its effects, and
/// the document gives something else.
fn add_change<'a>(
    alloc: Global,
    ledger: &Ledger,
    changes: &mut Vec<Change<'a>>,
    marks: &'a [Mark],
    state: &NewState,
) -> Result<(), Memory>
    ensures { OnOk result (facts_in_changes changes.new.items ≡ facts_in_changes changes.old.items
        ++ others (kept_of ledger.now) (change_by (mark_among marks.now state.now.marked))) }
{
    match mark_of(marks, state.marked) {
        None => Ok(()),
        Some(mark) => add_mark(alloc, ledger, changes, mark),
    }
}

/// What the documents of these states give by the marks, of these, that have their effects, but for
/// those that give it already.
fn changes_of<'a>(
    alloc: Global,
    ledger: &Ledger,
    marks: &'a [Mark],
    states: &[NewState],
) -> Result<Vec<Change<'a>>, Memory>
    ensures { IfOk result (λ changes. facts_in_changes changes.items
        ≡ others (kept_of ledger.now) (changes_by marks.now states.now)) }
{
    let mut changes = Vec::with_capacity(alloc, states.len())?;
    for state in states {
        add_change(alloc, ledger, &mut changes, marks, state)?;
    }
    Ok(changes)
}

/// Documents give from a place on what the marks of the replacement there give: those marks that have
/// the effects of these states. A document that gives that already changes nothing. Out of memory each
/// gives what it gave.
pub fn take_marked(
    alloc: Global,
    ledger: &mut Ledger,
    marks: &[Mark],
    states: &[NewState],
    at: u64,
) -> Result<(), Memory>
    requires { (e : Entry) × (es : List Entry)
        × IsMarking ledger.old at marks.now states.now e es }
    ensures ok { OnOk result ((e : Entry) (es : List Entry)
        → IsMarking ledger.old at marks.now states.now e es → Took ledger.new at e es) }
    ensures err { OnErr result ((es : List Entry) → at ≡ length es + 1
        → IsLedger ledger.old es → IsLedger ledger.new es) }
    ensures before { (f : Fact) (k : ℕ) → k < at
        → has_at ledger.new.store f k ≡ has_at ledger.old.store f k }
    ensures same { (e : Entry) (es : List Entry)
        → IsMarking ledger.old at marks.now states.now e es → GiveSame (e ∷ es) es
        → ledger.new.store ≡ ledger.old.store }
{
    sg_history::laws::currents();
    log_index::laws::marks();
    let mut changes = changes_of(alloc, ledger, marks, states)?;
    let taken = ledger.take_documents(alloc, &mut changes, at);
    drop(changes);
    taken
}
