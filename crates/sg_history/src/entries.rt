//! Entries of a history, and the log that keeps them in order.

ghost use Rattle.std.specs.Prelude.{◌≡◌, ◌++◌, ◌∷◌, ◌+◌, ◌≤◌, ◌<◌, [], length, Some, option_map, OnOk, OnErr};
ghost use Rattle.std.specs.Option.{option_copied};
ghost use Rattle.sg_history.specs.declared.entries.Entry.TheVariants as kinds;
ghost use Rattle.sg_history.specs.declared.entries.Write as writes;
ghost use Rattle.sg_history.specs.History.{as_sync, as_write};
ghost use Rattle.sg_history.specs.EntryList.{EntryList};
ghost use Rattle.sg_history.specs.Principals.{as_put};
ghost use Rattle.sg_history.specs.Puts.{put_in, replacement_in};

use crate::puts::{Given, Principal, Put};
use crate::replacement::Replacement;
use crate::sync_text::SyncText;
use sg_names::{Channels, DocId, Grants, List, Name, Names, RevId, Revs, RoleGrants};
use sg_outside::Bytes;
use std::alloc::{AllocError, Global};
use std::marker::Model;

/// A revision that was written, with what the sync function made of it.
#[derive(Drop)]
pub struct Write {
    pub doc: DocId,
    pub rev: RevId,
    /// The ancestors that it names, from the nearest; the first one is its parent.
    pub ancestors: Revs,
    pub deleted: bool,
    pub body: Bytes,
    /// Who wrote it; none for the administrator.
    pub by: Option<Name>,
    /// The front at which it was judged, below its own sequence.
    pub at: u64,
    /// The winner of the document's revisions after this one.
    pub winner: RevId,
    /// The channels of this revision.
    pub channels: Channels,
    /// The channels that this revision grants.
    pub grants: Grants,
    /// The roles that this revision gives.
    pub roles: RoleGrants,
}

/// What a sync function that replaces another makes of a revision.
#[derive(Drop)]
pub struct Mark {
    pub doc: DocId,
    pub rev: RevId,
    /// The channels of this revision from then on.
    pub channels: Channels,
    /// The channels that it grants from then on.
    pub grants: Grants,
    /// The roles that it gives from then on.
    pub roles: RoleGrants,
}

/// A list of marks.
pub type Marks = List<Mark>;

/// One entry of a history. Its place, counted from 1, is its sequence.
#[derive(Drop)]
pub enum Entry {
    Write(Write),
    /// A user, with channels and roles in place of those before.
    PutUser(Name, Channels, Names),
    /// A role, with channels in place of those before.
    PutRole(Name, Channels),
    DropUser(Name),
    DropRole(Name),
    /// A sync function in place of the one before it, with a mark for each revision that is a leaf.
    Sync(SyncText, Marks),
    /// A sequence that was drawn and given up.
    Unused,
}

impl Entry {
    /// The write that this entry is, if it is one.
    pub fn as_write(&self) -> Option<&Write>
        ensures write { option_copied result ≡ as_write self.now }
        ensures only { (w : writes.Write) → as_write self.now ≡ Some w → self.now ≡ kinds.Write w }
    {
        match self {
            Entry::Write(write) => Some(write),
            _ => None,
        }
    }

    /// The put or drop that this entry is, if it is one.
    pub fn as_put(&self) -> Option<Put<'_>>
        ensures { option_map put_in result ≡ as_put self.now }
    {
        match self {
            Entry::PutUser(name, channels, roles) => Some(Put {
                of: Principal::User(name),
                given: Some(Given {
                    channels,
                    roles: Some(roles),
                }),
            }),
            Entry::PutRole(name, channels) => Some(Put {
                of: Principal::Role(name),
                given: Some(Given {
                    channels,
                    roles: None,
                }),
            }),
            Entry::DropUser(name) => Some(Put {
                of: Principal::User(name),
                given: None,
            }),
            Entry::DropRole(name) => Some(Put {
                of: Principal::Role(name),
                given: None,
            }),
            Entry::Write(_) | Entry::Sync(_, _) | Entry::Unused => None,
        }
    }

    /// The replacement of the sync function that this entry is, if it is one.
    pub fn as_sync(&self) -> Option<Replacement<'_>>
        ensures { option_map replacement_in result ≡ as_sync self.now }
    {
        match self {
            Entry::Sync(text, marks) => Some(Replacement { text, marks }),
            _ => None,
        }
    }
}

/// A list of entries with spare room: contracts see the list, and how many entries fit without memory.
#[derive(Drop)]
pub struct Entries {
    items: Vec<Entry>,
}

impl Model for Entries {
    ghost use Rattle.std.specs.Prelude.{◌-◌, vec_len, vec_capacity};
    ghost use Rattle.sg_history.specs.EntryList.{EntryList};

    ghost Value = { EntryList };

    ghost view = { λ e. record { list = e.items.items; spare = vec_capacity e.items - vec_len e.items } };
}

impl Entries {
    /// No entries. Allocates nothing.
    pub fn new(alloc: Global) -> Entries
        ensures { result.list ≡ [] }
    {
        Entries {
            items: Vec::new(alloc),
        }
    }

    pub fn as_slice(&self) -> &[Entry]
        ensures { result.now ≡ self.now.list }
    {
        self.items.as_slice()
    }

    pub fn len(&self) -> usize
        ensures { result ≡ length self.now.list }
    {
        self.items.len()
    }

    /// Puts an entry at the end.
    pub fn push(&mut self, entry: Entry) -> Result<(), AllocError>
        ensures ok { OnOk result (self.new.list ≡ self.old.list ++ entry ∷ []) }
        ensures err { OnErr result (self.new.list ≡ self.old.list) }
        ensures spare { OnOk result (self.old.spare ≤ self.new.spare + 1) }
        ensures full { OnErr result (self.old.spare ≡ 0) }
    {
        self.items.push(entry)?;
        Ok(())
    }

    /// Makes room for `more` further entries, counted from the ones that are there. Room that is there stays.
    pub fn reserve(&mut self, more: usize) -> Result<(), AllocError>
        ensures ok { OnOk result (more ≤ self.new.spare) }
        ensures kept { self.new.list ≡ self.old.list }
        ensures spare { self.old.spare ≤ self.new.spare }
        ensures err { OnErr result (self.new.spare ≡ self.old.spare) }
    {
        self.items.reserve(more)?;
        Ok(())
    }

    /// Puts an entry into reserved room at the end. Allocates nothing.
    pub fn put(&mut self, entry: Entry)
        requires { 0 < self.old.spare }
        ensures list { self.new.list ≡ self.old.list ++ entry ∷ [] }
        ensures spare { self.new.spare + 1 ≡ self.old.spare }
    {
        self.items.push_reserved(entry);
    }
}

/// A log: the entry at place k, counted from 1, has sequence k.
#[derive(Drop)]
pub struct Log {
    pub entries: Entries,
    /// How many revisions of each branch of a tree are kept, from its leaf on; none where all are. In a journal it is from 20 to
    /// 1,000.
    pub limit: Option<u32>,
}

impl Log {
    /// An empty log. Allocates nothing.
    pub fn new(alloc: Global, limit: Option<u32>) -> Log
        ensures entries { result.entries.list ≡ [] }
        ensures limit { result.limit ≡ limit }
    {
        Log {
            entries: Entries::new(alloc),
            limit,
        }
    }
}
