//! Which variables of `let` and `const` are seen at a place.

ghost use Rattle.std.specs.Prelude.{◌≡◌, ◌++◌, ◌∷◌, [], take, OnOk};
ghost use Rattle.sync_syntax.specs.declared.tree.Declares.TheVariants as declares;
ghost use Rattle.sync_meaning.specs.Variables as spec;

use crate::Memory;
use json_doc::DocText;
use sqlite_items::Items;
use std::alloc::{AllocError, Global};
use sync_syntax::tree::Declares;
use sync_values::last_named;

/// The variables of `let` and `const` that are seen at a place, each with its number, and the
/// number of the next one.
#[derive(Drop)]
pub struct Scope {
    pub seen: Items<(DocText, u64)>,
    pub next: u64,
}

impl Scope {
    /// What is seen at the beginning of a program.
    #[tactic(auto, unfolding(crate::specs::Variables::top))]
    pub fn top(alloc: Global) -> Scope
        ensures { result ≡ spec.top }
    {
        Scope {
            seen: Items::new(alloc),
            next: 1,
        }
    }

    /// The number of the variable that a name stands for.
    #[tactic(auto, unfolding(crate::specs::Variables::number_of))]
    pub fn number_of(&self, name: &DocText) -> u64
        ensures { result ≡ spec.number_of name.now self.now }
    {
        match last_named(name.as_str(), self.seen.as_slice()) {
            Some(number) => *number,
            None => 0,
        }
    }

    /// The number that a declaration gives its variable.
    pub fn new_number(&self, declares: Declares) -> u64
        ensures { result ≡ spec.new_number declares self.now }
    {
        match declares {
            Declares::Var => 0,
            Declares::Let | Declares::Const => self.next,
        }
    }

    /// A variable with a number of its own.
    fn declare_new(&mut self, alloc: Global, name: &DocText) -> Result<(), Memory>
        ensures { OnOk result (self.new ≡ spec.declared declares.Let name.now self.old) }
    {
        let Some(next) = self.next.checked_add(1) else {
            return Err(AllocError);
        };
        self.seen.push((name.copy(alloc)?, self.next))?;
        self.next = next;
        Ok(())
    }

    /// A variable is declared, which is seen from here.
    pub fn declare(
        &mut self,
        alloc: Global,
        declares: Declares,
        name: &DocText,
    ) -> Result<(), Memory>
        ensures { OnOk result (self.new ≡ spec.declared declares name.now self.old) }
    {
        match declares {
            Declares::Var => Ok(()),
            Declares::Let | Declares::Const => self.declare_new(alloc, name),
        }
    }

    /// A block ends: so many variables stay, and no number is given again.
    pub fn leave(&mut self, count: usize)
        ensures seen { self.new.seen ≡ take count self.old.seen }
        ensures next { self.new.next ≡ self.old.next }
    {
        while count < self.seen.len() {
            let Some(last) = self.seen.pop() else {
                unreachable!();
            };
            drop(last);
        }
    }
}
