//! The results of reading, which only clauses see.

ghost use Rattle.std.specs.Prelude.{◌≡◌, ◌++◌, ◌∷◌, [], take, drop};
ghost use Rattle.sg_outside.specs.Wire.{LineRead};

use sg_outside::Bytes;
use std::marker::Model;
use std::snapshot::Snapshot;

/// Snapshots of results, the newest first. Bytes that were read are so many of these, from a place on.
#[derive(Drop)]
enum Results {
    Nothing,
    Bytes(Snapshot<Results>, Snapshot<Bytes>, Snapshot<usize>, Snapshot<usize>),
    Idle(Snapshot<Results>),
    End(Snapshot<Results>),
    Failed(Snapshot<Results>),
}

/// The results of reading so far, in order. It keeps nothing of them: only clauses see them.
#[derive(Drop)]
pub(crate) struct ReadTrail {
    results: Results,
}

impl Model for ReadTrail {
    ghost use Rattle.std.specs.Prelude.{List};
    ghost use Rattle.sg_outside.specs.Wire.{LineRead};
    ghost use Rattle.sg_lines.specs.inner.ReadTrail.{results_in};

    ghost Value = { List LineRead };

    ghost view = { λ t. results_in t.results };
}

impl ReadTrail {
    /// None. Allocates nothing.
    pub(crate) fn new() -> ReadTrail
        ensures { result ≡ [] }
    {
        ReadTrail {
            results: Results::Nothing,
        }
    }

    /// So many of the bytes were read, from this place on.
    pub(crate) fn add_bytes(&mut self, bytes: &Bytes, at: usize, count: usize)
        ensures { self.new ≡ self.old ++ LineRead.Bytes (take count (drop at bytes.now)) ∷ [] }
    {
        self.results = Results::Bytes(
            Snapshot::of(&self.results),
            Snapshot::of(bytes),
            Snapshot::of(&at),
            Snapshot::of(&count),
        );
    }

    /// Nothing was there yet.
    pub(crate) fn add_idle(&mut self)
        ensures { self.new ≡ self.old ++ LineRead.Idle ∷ [] }
    {
        self.results = Results::Idle(Snapshot::of(&self.results));
    }

    /// The end was answered.
    pub(crate) fn add_end(&mut self)
        ensures { self.new ≡ self.old ++ LineRead.End ∷ [] }
    {
        self.results = Results::End(Snapshot::of(&self.results));
    }

    /// A fault was answered.
    pub(crate) fn add_failed(&mut self)
        ensures { self.new ≡ self.old ++ LineRead.Failed ∷ [] }
    {
        self.results = Results::Failed(Snapshot::of(&self.results));
    }
}
