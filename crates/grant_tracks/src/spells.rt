//! The spells in which something holds.

ghost use Rattle.std.specs.Prelude.{◌≡◌, ◌<◌, ◌||◌, ◌+◌, ℕ, Bool, OnOk, IfOk};
ghost use Rattle.grant_tracks.specs.Spells.{AreApart, Stays, Swept, open_has, spells_have};

use sg_outside::Memory;
use std::alloc::Global;

/// The places from one on, up to before another or without an end.
#[derive(Clone, Copy)]
pub struct Spell {
    pub from: u64,
    pub to: Option<u64>,
}

/// The spells in which something held so far, and where the last one began if it holds still.
#[derive(Drop)]
pub struct Sweep {
    list: Vec<Spell>,
    begun: Option<u64>,
}

impl Sweep {
    /// Begins at place 0, given whether it holds there. Allocates nothing.
    pub fn new(alloc: Global, holds: bool) -> Sweep
        ensures { (test : ℕ → Bool) → holds ≡ test 0 → Swept result test 0 }
    {
        let list = Vec::new(alloc);
        if !holds {
            return Sweep { list, begun: None };
        }
        Sweep {
            list,
            begun: Some(0),
        }
    }

    /// Goes on to a later place, given whether it holds there; between it does not change.
    pub fn turn(&mut self, k: u64, holds: bool) -> Result<(), Memory>
        ensures { OnOk result ((test : ℕ → Bool) (n : ℕ) → Swept self.old test n → n < k
            → Stays test n k → holds ≡ test k → Swept self.new test k) }
    {
        if let Some(from) = self.begun {
            if holds {
                return Ok(());
            }
            self.list.push(Spell { from, to: Some(k) })?;
            self.begun = None;
            return Ok(());
        }
        if !holds {
            return Ok(());
        }
        self.begun = Some(k);
        Ok(())
    }

    /// The spells, of which the last one may have no end.
    pub fn finish(self) -> Result<Vec<Spell>, Memory>
        ensures { IfOk result (λ list. (test : ℕ → Bool) (n : ℕ) → Swept self test n
            → AreApart list.items × ((k : ℕ) → spells_have list.items k
            ≡ (spells_have self.list.items k || open_has self.begun k))) }
    {
        let mut list = self.list;
        match self.begun {
            None => Ok(list),
            Some(from) => {
                list.push(Spell { from, to: None })?;
                Ok(list)
            }
        }
    }
}
