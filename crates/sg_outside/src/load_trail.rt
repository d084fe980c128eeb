//! The loads of files, which only clauses see.

ghost use Rattle.std.specs.Prelude.{◌≡◌, ◌++◌, ◌∷◌, []};

use crate::files::Loaded;
use crate::seen_name::SeenName;
use std::marker::Model;
use std::snapshot::Snapshot;

/// Snapshots of loads, the newest first. It has no bytes of them.
#[derive(Drop)]
enum Links {
    Nothing,
    Then(Snapshot<Links>, Snapshot<SeenName>, Snapshot<Loaded>),
}

/// The loads so far, in order. It keeps nothing of them: only clauses see them.
#[derive(Drop)]
pub(crate) struct LoadTrail {
    links: Links,
}

impl Model for LoadTrail {
    ghost use Rattle.std.specs.Prelude.{List};
    ghost use Rattle.sg_outside.specs.Files.{Load};
    ghost use Rattle.sg_outside.specs.inner.Loads.{loads_in};

    ghost Value = { List Load };

    ghost view = { λ t. loads_in t.links };
}

impl LoadTrail {
    /// None. Allocates nothing.
    pub(crate) fn new() -> LoadTrail
        ensures { result ≡ [] }
    {
        LoadTrail {
            links: Links::Nothing,
        }
    }

    /// Puts a load at the end. Allocates nothing.
    pub(crate) fn add(&mut self, name: &str, answer: Loaded)
        ensures { self.new ≡ self.old ++ record { name = name.now; answer = answer } ∷ [] }
    {
        self.links = Links::Then(
            Snapshot::of(&self.links),
            Snapshot::of(&SeenName::of(name)),
            Snapshot::of(&answer),
        );
    }
}
