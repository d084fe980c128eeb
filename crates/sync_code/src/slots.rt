//! The slots of the variables of a program, and the numbers of its longer texts.

ghost use Rattle.std.specs.Prelude.{◌≡◌, IfOk};

use crate::Memory;
use json_doc::DocText;
use std::alloc::Global;
use std::collections::BTreeMap;
use sync_meaning::{Literal, Slot};

/// How many bytes a text has at most that is not numbered.
const SHORT: usize = 16;

/// The slots that were given so far: each variable of `let` and `const` has the one of its number,
/// and each of the function's own variables one between these.
#[derive(Drop)]
pub struct Slots {
    own: BTreeMap<String, usize>,
    count: usize,
    literals: usize,
}

impl Slots {
    /// None was given.
    pub fn new(alloc: Global) -> Slots {
        Slots {
            own: BTreeMap::new(alloc),
            count: 0,
            literals: 0,
        }
    }

    /// How many there are.
    pub fn count(&self) -> usize
        ensures { result ≡ self.now.count }
    {
        self.count
    }

    /// How many longer texts have a number.
    pub fn literals(&self) -> usize
        ensures { result ≡ self.now.literals }
    {
        self.literals
    }

    /// The slot of one of the function's own variables.
    fn own_slot(&mut self, alloc: Global, name: &DocText) -> Result<usize, Memory> {
        if let Some(at) = self.own.get(name.as_str()) {
            return Ok(*at);
        }
        let at = self.own.len().saturating_mul(2).saturating_add(1);
        let name = String::from_str(alloc, name.as_str())?;
        self.own.insert(name, at)?;
        Ok(at)
    }

    fn place(&mut self, alloc: Global, name: &DocText, number: u64) -> Result<usize, Memory> {
        if number == 0 {
            self.own_slot(alloc, name)
        } else {
            Ok((number as usize).saturating_mul(2))
        }
    }

    /// The variable of this name and number, with its slot.
    pub fn slot(&mut self, alloc: Global, name: &DocText, number: u64) -> Result<Slot, Memory>
        ensures { IfOk result (λ slot. (slot.name ≡ name.now) × (slot.number ≡ number)) }
    {
        let at = self.place(alloc, name, number)?;
        self.count = self.count.max(at.saturating_add(1));
        let name = name.copy(alloc)?;
        Ok(Slot { name, number, at })
    }

    /// A text of the program, with its number where it is a longer one.
    pub fn literal(&mut self, alloc: Global, text: &DocText) -> Result<Literal, Memory>
        ensures { IfOk result (λ made. made.text ≡ text.now) }
    {
        let at = self.literals;
        if text.len() > SHORT {
            self.literals = at.saturating_add(1);
        }
        let text = text.copy(alloc)?;
        Ok(Literal { text, at })
    }
}
