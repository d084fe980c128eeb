//! The entries that an index has, which only clauses see.

ghost use Rattle.std.specs.Prelude.{◌≡◌, [], ◌∷◌};

use sg_history::Entry;
use std::marker::Model;
use std::snapshot::Snapshot;

/// Snapshots of entries, the newest first. It has no bytes of them.
#[derive(Drop)]
enum Links {
    Nothing,
    Then(Snapshot<Links>, Snapshot<Entry>),
}

/// The entries that were taken, the newest first. It keeps nothing of them: only clauses see them.
#[derive(Drop)]
pub struct Taken {
    links: Links,
}

impl Model for Taken {
    ghost use Rattle.std.specs.Prelude.{List};
    ghost use Rattle.sg_history.specs.declared.entries.Entry.{Entry};
    ghost use Rattle.log_index.specs.inner.Taken.{entries_in};

    ghost Value = { List Entry };

    ghost view = { λ t. entries_in t.links };
}

impl Taken {
    /// None. Allocates nothing.
    pub fn new() -> Taken
        ensures { result ≡ [] }
    {
        Taken {
            links: Links::Nothing,
        }
    }

    /// Puts an entry in front. Allocates nothing.
    pub fn add(&mut self, entry: &Entry)
        ensures { self.new ≡ entry.now ∷ self.old }
    {
        self.links = Links::Then(Snapshot::of(&self.links), Snapshot::of(entry));
    }
}
