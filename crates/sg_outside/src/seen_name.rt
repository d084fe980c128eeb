//! A name that only clauses see.

ghost use Rattle.std.specs.Prelude.{◌≡◌, ◌++◌, ◌∷◌, []};

use std::marker::Model;
use std::snapshot::Snapshot;

/// Snapshots of the bytes of a name, the last one first. It has no bytes of them.
#[derive(Drop)]
enum Letters {
    Nothing,
    Then(Snapshot<Letters>, Snapshot<u8>),
}

/// A name that only clauses see.
#[derive(Drop)]
pub(crate) struct SeenName {
    letters: Letters,
}

impl Model for SeenName {
    ghost use Rattle.std.specs.Prelude.{List, ℕ};
    ghost use Rattle.sg_outside.specs.inner.SeenName.{letters_in};

    ghost Value = { List ℕ };

    ghost view = { λ n. letters_in n.letters };
}

impl SeenName {
    fn new() -> SeenName
        ensures { result ≡ [] }
    {
        SeenName {
            letters: Letters::Nothing,
        }
    }

    fn add(&mut self, letter: u8)
        ensures { self.new ≡ self.old ++ letter ∷ [] }
    {
        self.letters = Letters::Then(Snapshot::of(&self.letters), Snapshot::of(&letter));
    }

    pub(crate) fn of(name: &str) -> SeenName
        ensures { result ≡ name.now }
    {
        let mut seen = SeenName::new();
        for letter in name.as_bytes() {
            seen.add(*letter);
        }
        seen
    }
}
