//! What all sources give, and who has what by that.

ghost use Rattle.std.specs.Prelude.{◌≡◌, ◌<◌, ◌≤◌, ◌+◌, ◌-◌, true, false, None, is_some, ℕ, List, [], ◌∷◌, length, OnOk, OnErr, if◌then◌else◌};
ghost use Rattle.std.specs.BTreeMap.{get_by_text};
ghost use Rattle.std.specs.Str.{bytes_eq};
ghost use Rattle.grant_tracks.specs.Dated.{Dated};
ghost use Rattle.grant_history.specs.Facts.{same_facts, times};
ghost use Rattle.grant_history.specs.Store.{count_at, has_at, IsStore};
ghost use Rattle.grant_history.specs.Ledger.{facts_from, facts_in, kept_of, source_in, holder, GiveSame, IsLedger, IsStep, Took};
ghost use Rattle.grant_history.specs.LedgerAt.{IsBefore};
ghost use Rattle.sg_history.specs.History.{as_sync, as_write};
ghost use Rattle.grant_history.specs.inner.Changes.{AreChanges, facts_in_changes};
ghost use Rattle.sg_history.specs.Puts as puts;

use crate::changes::{Change, exchange_each};
use crate::facts::{Fact, are_same};
use crate::given::of_put;
use crate::store::Store;
use grant_tracks::by_name;
use sg_history::{DocId, Entry, Name, Principal};
use sg_outside::Memory;
use std::alloc::Global;
use std::collections::BTreeMap;
use std::mem;

/// What gives something: a document as it is, or the last put of a user or a role.
#[derive(Clone, Copy)]
pub enum Source<'a> {
    Document(&'a DocId),
    User(&'a Name),
    Role(&'a Name),
}

/// What a source gives, and for each of that the place, among what its user or role has or had, at
/// which it is looked for first when it is taken back; no clause says that it stands there.
#[derive(Drop)]
pub struct SourceFacts {
    pub facts: Vec<Fact>,
    pub places: Vec<usize>,
}

/// What sources give, by their names.
pub type Lists = BTreeMap<String, SourceFacts>;

/// What each source gives, and who has what by that.
#[derive(Drop)]
pub struct Ledger {
    pub store: Store,
    documents: Lists,
    users: Lists,
    roles: Lists,
}

/// A source gives these facts in place of others from a place on. Out of memory it gives what it gave.
fn give_instead(
    alloc: Global,
    store: &mut Store,
    list: &mut SourceFacts,
    facts: Vec<Fact>,
    at: u64,
) -> Result<(), Memory>
    requires up_to { IsStore store.old at }
    requires given { (f : Fact) → times list.old.facts.items f
        ≤ count_at store.old f + times facts.items f }
    ensures store { OnOk result (Dated count_at has_at IsStore store.old store.new at
        (λ f. count_at store.old f + times facts.items f - times list.old.facts.items f)) }
    ensures list { OnOk result (list.new.facts.items ≡ facts.items) }
    ensures err_store { OnErr result (Dated count_at has_at IsStore store.old store.new at
        (count_at store.old)) }
    ensures err_list { OnErr result (list.new.facts.items ≡ list.old.facts.items) }
{
    let places = store.give_all(alloc, facts.as_slice(), at)?;
    let before = mem::replace(list, SourceFacts { facts, places });
    store.take_all(alloc, before.facts.as_slice(), before.places.as_slice(), at);
    Ok(())
}

/// A source gives these facts from a place on; where it gave them before, nothing changes. Out of memory
/// it gives what it gave.
fn exchange(
    alloc: Global,
    store: &mut Store,
    list: &mut SourceFacts,
    facts: Vec<Fact>,
    at: u64,
) -> Result<(), Memory>
    requires up_to { IsStore store.old at }
    requires given { (f : Fact) → times list.old.facts.items f
        ≤ count_at store.old f + times facts.items f }
    ensures store { OnOk result (Dated count_at has_at IsStore store.old store.new at
        (λ f. count_at store.old f + times facts.items f - times list.old.facts.items f)) }
    ensures list { OnOk result (list.new.facts.items ≡ facts.items) }
    ensures err_store { OnErr result (Dated count_at has_at IsStore store.old store.new at
        (count_at store.old)) }
    ensures err_list { OnErr result (list.new.facts.items ≡ list.old.facts.items) }
    ensures same { list.old.facts.items ≡ facts.items → store.new ≡ store.old }
{
    if are_same(list.facts.as_slice(), facts.as_slice()) {
        drop(facts);
        return Ok(());
    }
    give_instead(alloc, store, list, facts, at)
}

fn no_facts(alloc: Global) -> SourceFacts
    ensures { result.facts.items ≡ [] }
{
    SourceFacts {
        facts: Vec::new(alloc),
        places: Vec::new(alloc),
    }
}

/// Keeps that a source gives nothing, where nothing is kept of it.
pub(crate) fn make_list(alloc: Global, lists: &mut Lists, name: &str) -> Result<(), Memory>
    requires { get_by_text lists.old name.now ≡ None }
    ensures there { OnOk result (is_some (get_by_text lists.new name.now) ≡ true) }
    ensures kept { (other : List ℕ) → is_some (get_by_text lists.old other) ≡ true
        → is_some (get_by_text lists.new other) ≡ true }
    ensures lists { (other : List ℕ) → facts_in lists.new other ≡ facts_in lists.old other }
{
    by_name::put(alloc, lists, name, no_facts(alloc))
}

/// The same where nothing is kept of the source.
fn begin(
    alloc: Global,
    store: &mut Store,
    lists: &mut Lists,
    name: &str,
    facts: Vec<Fact>,
    at: u64,
) -> Result<(), Memory>
    requires new { get_by_text lists.old name.now ≡ None }
    requires up_to { IsStore store.old at }
    ensures store { OnOk result (Dated count_at has_at IsStore store.old store.new at
        (λ f. count_at store.old f + times facts.items f)) }
    ensures lists { OnOk result ((other : List ℕ) → facts_in lists.new other
        ≡ (if bytes_eq name.now other then facts.items else facts_in lists.old other)) }
    ensures err_store { OnErr result (Dated count_at has_at IsStore store.old store.new at
        (count_at store.old)) }
    ensures err_lists { OnErr result ((other : List ℕ)
        → facts_in lists.new other ≡ facts_in lists.old other) }
{
    make_list(alloc, lists, name)?;
    match lists.get_mut(name) {
        None => Ok(()),
        Some(list) => exchange(alloc, store, list, facts, at),
    }
}

/// The same, by the source's name. One that gave nothing, and gives nothing now, changes nothing.
fn replace(
    alloc: Global,
    store: &mut Store,
    lists: &mut Lists,
    name: &str,
    facts: Vec<Fact>,
    at: u64,
) -> Result<(), Memory>
    requires up_to { IsStore store.old at }
    requires given { (f : Fact) → times (facts_in lists.old name.now) f
        ≤ count_at store.old f + times facts.items f }
    ensures store { OnOk result (Dated count_at has_at IsStore store.old store.new at
        (λ f. count_at store.old f + times facts.items f
        - times (facts_in lists.old name.now) f)) }
    ensures lists { OnOk result ((other : List ℕ) → facts_in lists.new other
        ≡ (if bytes_eq name.now other then facts.items else facts_in lists.old other)) }
    ensures err_store { OnErr result (Dated count_at has_at IsStore store.old store.new at
        (count_at store.old)) }
    ensures err_lists { OnErr result ((other : List ℕ)
        → facts_in lists.new other ≡ facts_in lists.old other) }
    ensures same { facts_in lists.old name.now ≡ facts.items → store.new ≡ store.old }
{
    if let Some(list) = lists.get_mut(name) {
        return exchange(alloc, store, list, facts, at);
    }
    if facts.is_empty() {
        return Ok(());
    }
    begin(alloc, store, lists, name, facts, at)
}

impl Ledger {
    /// Nothing. Allocates nothing.
    pub fn new(alloc: Global) -> Ledger
        ensures kept { IsLedger result [] }
        ensures held { (f : Fact) (k : ℕ) → has_at result.store f k ≡ false }
    {
        Ledger {
            store: Store::new(alloc),
            documents: BTreeMap::new(alloc),
            users: BTreeMap::new(alloc),
            roles: BTreeMap::new(alloc),
        }
    }

    /// A source gives other facts from a place on. Out of memory all is as it was before it.
    pub fn take(
        &mut self,
        alloc: Global,
        source: Source<'_>,
        facts: Vec<Fact>,
        at: u64,
    ) -> Result<(), Memory>
        requires { (e : Entry) × (es : List Entry)
            × IsStep self.old at (source_in source) facts.items e es }
        ensures ok { OnOk result ((e : Entry) (es : List Entry)
            → IsStep self.old at (source_in source.entry) facts.items e es
            → Took self.new at e es) }
        ensures err { OnErr result ((es : List Entry) → at ≡ length es + 1
            → IsLedger self.old es → IsLedger self.new es) }
        ensures before { (f : Fact) (k : ℕ) → k < at
            → has_at self.new.store f k ≡ has_at self.old.store f k }
        ensures same { facts_from self.old (source_in source.entry) ≡ facts.items
            → self.new.store ≡ self.old.store }
    {
        match source {
            Source::Document(doc) => replace(
                alloc,
                &mut self.store,
                &mut self.documents,
                doc.as_str(),
                facts,
                at,
            ),
            Source::User(name) => replace(
                alloc,
                &mut self.store,
                &mut self.users,
                name.as_str(),
                facts,
                at,
            ),
            Source::Role(name) => replace(
                alloc,
                &mut self.store,
                &mut self.roles,
                name.as_str(),
                facts,
                at,
            ),
        }
    }

    /// Whether a document gives these facts.
    pub fn gives(&self, doc: &DocId, facts: &[Fact]) -> bool
        ensures { result ≡ same_facts (kept_of self.now doc.now) facts.now }
    {
        match self.documents.get(doc.as_str()) {
            None => facts.is_empty(),
            Some(list) => are_same(list.facts.as_slice(), facts),
        }
    }

    /// Documents give other facts from a place on. Out of memory all is as it was before it.
    pub fn take_documents(
        &mut self,
        alloc: Global,
        changes: &mut Vec<Change<'_>>,
        at: u64,
    ) -> Result<(), Memory>
        requires { (e : Entry) × (es : List Entry)
            × AreChanges self.old at (facts_in_changes changes.old.items) e es }
        ensures ok { OnOk result ((e : Entry) (es : List Entry)
            → AreChanges self.old at (facts_in_changes changes.old.items) e es
            → Took self.new at e es) }
        ensures err { OnErr result ((es : List Entry) → at ≡ length es + 1
            → IsLedger self.old es → IsLedger self.new es) }
        ensures before { (f : Fact) (k : ℕ) → k < at
            → has_at self.new.store f k ≡ has_at self.old.store f k }
        ensures same { facts_in_changes changes.old.items ≡ []
            → self.new.store ≡ self.old.store }
    {
        if changes.is_empty() {
            return Ok(());
        }
        exchange_each(alloc, &mut self.store, &mut self.documents, changes, at)
    }

    /// Takes the put or drop that an entry is, if it is one. Out of memory all is as it was before
    /// that place.
    pub fn take_put(&mut self, alloc: Global, entry: &Entry, at: u64) -> Result<(), Memory>
        requires before { IsBefore self.old at }
        requires no_write { as_write entry.now ≡ None }
        requires no_sync { as_sync entry.now ≡ None }
        ensures ok { OnOk result ((es : List Entry) → at ≡ length es + 1 → IsLedger self.old es
            → Took self.new at entry.now es) }
        ensures err { OnErr result ((es : List Entry) → at ≡ length es + 1
            → IsLedger self.old es → IsLedger self.new es) }
        ensures before { (f : Fact) (k : ℕ) → k < at
            → has_at self.new.store f k ≡ has_at self.old.store f k }
        ensures same { (es : List Entry) → at ≡ length es + 1 → IsLedger self.old es
            → GiveSame (entry.now ∷ es) es → self.new.store ≡ self.old.store }
    {
        sg_history::laws::currents();
        match entry.as_put() {
            None => Ok(()),
            Some(put) => {
                let facts = of_put(alloc, put)?;
                self.take(alloc, source_of(put.of), facts, at)
            }
        }
    }
}

/// The put of a user or a role as a source.
fn source_of<'a>(of: Principal<'a>) -> Source<'a>
    ensures { source_in result ≡ holder (puts.grantee_in of.entry) }
{
    match of {
        Principal::User(name) => Source::User(name),
        Principal::Role(name) => Source::Role(name),
    }
}
