//! A set of numbers.

ghost use Rattle.std.specs.Prelude.{◌≡◌, OnOk, OnErr};
ghost use Rattle.std.specs.FinSet as set;

use std::alloc::{AllocError, Global};
use std::collections::BTreeSet;
use std::marker::Model;

/// Numbers, each once. Contracts see the set of them.
#[derive(Drop)]
pub(crate) struct Numbers {
    numbers: BTreeSet<u64>,
}

impl Model for Numbers {
    ghost use Rattle.std.specs.Ordering.{nat_cmp};
    ghost use Rattle.std.specs.FinSet as set;
    ghost use Rattle.std.specs.Coded.{coded_ℕ};

    ghost Value = { set.FinSet nat_cmp };

    ghost coded = { set.code coded_ℕ };

    ghost view = { λ s. set.from_list s.numbers.keys };
}

impl Numbers {
    /// No numbers. Allocates nothing.
    pub(crate) fn new(alloc: Global) -> Numbers
        ensures { result ≡ set.empty }
    {
        Numbers {
            numbers: BTreeSet::new(alloc),
        }
    }

    pub(crate) fn contains(&self, number: u64) -> bool
        ensures { result ≡ set.contains self.now number }
    {
        self.numbers.contains(&number)
    }

    pub(crate) fn insert(&mut self, number: u64) -> Result<(), AllocError>
        ensures ok { OnOk result (self.new ≡ set.insert self.old number) }
        ensures err { OnErr result (self.new ≡ self.old) }
    {
        match self.numbers.insert(number) {
            Ok(_) => Ok(()),
            Err(_) => Err(AllocError),
        }
    }

    pub(crate) fn remove(&mut self, number: u64)
        ensures { self.new ≡ set.remove self.old number }
    {
        self.numbers.remove(&number);
    }
}
