//! The boards that were read and the entries that were stored, which only clauses see.

ghost use Rattle.std.specs.Prelude.{◌≡◌, [], ◌∷◌};
ghost use Rattle.write_path.specs.Shelf.{shelf_state};

use crate::shelf::Shelf;
use sg_history::Entry;
use std::marker::Model;
use std::snapshot::Snapshot;

/// Snapshots of shelves, the newest first. It has no bytes of them.
#[derive(Drop)]
enum Links {
    Nothing,
    Then(Snapshot<Links>, Snapshot<Shelf>),
}

/// The boards that were read, the newest first. It keeps nothing of them: only clauses see them.
#[derive(Drop)]
pub struct Trail {
    links: Links,
}

impl Model for Trail {
    ghost use Rattle.std.specs.Prelude.{List};
    ghost use Rattle.sg_history.specs.Board.{BoardState};
    ghost use Rattle.write_path.specs.inner.Trail.{boards_in};

    ghost Value = { List BoardState };

    ghost view = { λ t. boards_in t.links };
}

impl Trail {
    /// None. Allocates nothing.
    pub fn new() -> Trail
        ensures { result ≡ [] }
    {
        Trail {
            links: Links::Nothing,
        }
    }

    /// Puts a shelf's board in front. Allocates nothing.
    pub fn add(&mut self, shelf: &Shelf)
        ensures { self.new ≡ shelf_state shelf.now ∷ self.old }
    {
        self.links = Links::Then(Snapshot::of(&self.links), Snapshot::of(shelf));
    }
}

/// Snapshots of entries with their numbers, the newest first. It has no bytes of them.
#[derive(Drop)]
enum Stored {
    Nothing,
    Then(Snapshot<Stored>, Snapshot<u64>, Snapshot<Entry>),
}

/// The entries that were stored, with their numbers, the newest first. It keeps nothing of them: only clauses see them.
#[derive(Drop)]
pub struct OwnEntries {
    stored: Stored,
}

impl Model for OwnEntries {
    ghost use Rattle.std.specs.Prelude.{List};
    ghost use Rattle.sg_history.specs.declared.book.Waiting.{Waiting};
    ghost use Rattle.write_path.specs.inner.Trail.{entries_in};

    ghost Value = { List Waiting };

    ghost view = { λ o. entries_in o.stored };
}

impl OwnEntries {
    /// None. Allocates nothing.
    pub fn new() -> OwnEntries
        ensures { result ≡ [] }
    {
        OwnEntries {
            stored: Stored::Nothing,
        }
    }

    /// Puts an entry with its number in front. Allocates nothing.
    pub fn add(&mut self, number: u64, entry: &Entry)
        ensures { self.new ≡ record { number = number; entry = entry.now } ∷ self.old }
    {
        self.stored = Stored::Then(
            Snapshot::of(&self.stored),
            Snapshot::of(&number),
            Snapshot::of(entry),
        );
    }
}
