//! A list that only clauses see.

ghost use Rattle.std.specs.Prelude.{◌≡◌, ◌++◌, ◌∷◌, []};

use std::marker::Model;
use std::snapshot::Snapshot;

/// Snapshots of values, the newest first. It has no bytes of them.
#[derive(Drop)]
enum Links<T: Drop> {
    Nothing,
    Then(Snapshot<Links<T>>, Snapshot<T>),
}

/// Values as they were when they were added, in order. It keeps nothing of them: only clauses see them.
#[derive(Drop)]
pub(crate) struct Trail<T: Drop> {
    links: Links<T>,
}

impl<T: Drop> Model for Trail<T> {
    ghost use Rattle.std.specs.Prelude.{List};
    ghost use Rattle.sg_lines.specs.inner.Trail.{values_in};

    ghost Value = { List T };

    ghost view = { λ t. values_in t.links };
}

impl<T: Drop> Trail<T> {
    /// No values. Allocates nothing.
    pub(crate) fn new() -> Trail<T>
        ensures { result ≡ [] }
    {
        Trail {
            links: Links::Nothing,
        }
    }

    /// Puts a value at the end. Allocates nothing.
    pub(crate) fn add(&mut self, value: &T)
        ensures { self.new ≡ self.old ++ value.now ∷ [] }
    {
        self.links = Links::Then(Snapshot::of(&self.links), Snapshot::of(value));
    }
}
