//! Which variables are seen at a place.

ghost use Rattle.std.specs.Prelude.{◌≡◌, [], ◌∷◌, None, OnErr, OnOk};
ghost use Rattle.std.specs.List.{list_any};
ghost use Rattle.std.specs.Str.{bytes_eq};
ghost use Rattle.sync_resolve.specs.Faults.{earliest};
ghost use Rattle.sync_resolve.specs.inner.Closing as closing;
ghost use Rattle.sync_resolve.specs.Names as spec;

use crate::Memory;
use crate::callee::is_function;
use crate::fault::{ResolveFault, note};
use json_doc::DocText;
use sqlite_items::Items;
use std::alloc::{AllocError, Global};
use sync_syntax::tree::{Declares, Named};
use sync_tokens::Place;

/// A variable of `let` or `const`: the block that declares it, by how many blocks are open there,
/// and whether it is a constant.
#[derive(Clone, Copy)]
pub struct Bound {
    pub block: usize,
    pub constant: bool,
}

/// What is seen at a place: the function's own names, which are its parameters and those of `var`,
/// the variables of `let` and `const`, and how many blocks are open.
#[derive(Drop)]
pub struct Scope {
    pub own: Items<DocText>,
    pub seen: Items<(DocText, Bound)>,
    pub block: usize,
}

/// What stands last under a name.
fn last_named(name: &str, seen: &[(DocText, Bound)]) -> Option<Bound>
    ensures { result ≡ spec.last_under name.now None seen.now }
{
    let mut found = None;
    let mut left = seen;
    while let [variable, rest @ ..] = left {
        if name == variable.0.as_str() {
            found = Some(variable.1);
        }
        left = rest;
    }
    found
}

/// Whether a name is one of these.
fn is_one(name: &str, names: &[DocText]) -> bool
    ensures { result ≡ list_any (bytes_eq name.now) names.now }
{
    let mut left = names;
    while let [one, rest @ ..] = left {
        if name == one.as_str() {
            return true;
        }
        left = rest;
    }
    false
}

impl Scope {
    /// What is seen at the beginning of a function with these names of its own.
    pub(crate) fn top(alloc: Global, own: Items<DocText>) -> Scope
        ensures { result ≡ spec.top_scope own }
    {
        Scope {
            own,
            seen: Items::new(alloc),
            block: 0,
        }
    }

    /// The variable of `let` or `const` that a name stands for.
    #[tactic(auto, unfolding(crate::specs::Names::bound))]
    fn bound(&self, name: &str) -> Option<Bound>
        ensures { result ≡ spec.bound name.now self.now }
    {
        last_named(name, self.seen.as_slice())
    }

    #[tactic(auto, unfolding(crate::specs::Names::is_own))]
    fn is_own(&self, name: &str) -> bool
        ensures { result ≡ spec.is_own name.now self.now }
    {
        is_one(name, self.own.as_slice())
    }

    /// Whether a name stands for a variable.
    #[tactic(auto, unfolding(crate::specs::Names::is_known))]
    fn is_known(&self, name: &str) -> bool
        ensures { result ≡ spec.is_known name.now self.now }
    {
        if is_function(name) {
            return false;
        }
        match self.bound(name) {
            Some(_) => true,
            None => self.is_own(name),
        }
    }

    fn is_constant(&self, name: &str) -> bool
        ensures { result ≡ spec.is_constant (spec.bound name.now self.now) }
    {
        match self.bound(name) {
            Some(found) => found.constant,
            None => false,
        }
    }

    /// A name whose value is wanted.
    #[tactic(auto, unfolding(crate::specs::Names::used))]
    pub(crate) fn used(&self, first: &mut Option<ResolveFault>, place: Place, name: &str)
        ensures { first.new ≡ earliest first.old (spec.used place name.now self.now) }
    {
        if !self.is_known(name) {
            note(first, ResolveFault::UnknownName(place));
        }
    }

    /// A name that is written.
    #[tactic(auto, unfolding(crate::specs::Names::written_faults))]
    pub(crate) fn written(&self, first: &mut Option<ResolveFault>, named: &Named)
        ensures { first.new ≡ earliest first.old (spec.written_faults named.now self.now) }
    {
        let name = named.name.as_str();
        if !self.is_known(name) {
            note(first, ResolveFault::UnknownName(named.place));
        } else if self.is_constant(name) {
            note(first, ResolveFault::ConstWritten(named.place));
        }
    }

    /// Whether the block that is open has a variable of `let` or `const` of this name.
    fn is_of_block(&self, name: &str) -> bool
        ensures { result ≡ spec.is_of_block self.now.block (spec.bound name.now self.now) }
    {
        match self.bound(name) {
            Some(found) => found.block == self.block,
            None => false,
        }
    }

    fn redeclares(&self, declares: Declares, name: &str) -> bool
        ensures { result ≡ spec.redeclares declares name.now self.now }
    {
        match declares {
            Declares::Var => is_function(name),
            Declares::Let | Declares::Const => is_function(name) || self.is_of_block(name),
        }
    }

    /// A name that is declared.
    #[tactic(auto, unfolding(crate::specs::Names::once))]
    pub(crate) fn once(&self, first: &mut Option<ResolveFault>, declares: Declares, named: &Named)
        ensures { first.new ≡ earliest first.old (spec.once declares named.now self.now) }
    {
        if self.redeclares(declares, named.name.as_str()) {
            note(first, ResolveFault::Redeclared(named.place));
        }
    }

    /// A block begins.
    #[tactic(auto, unfolding(crate::specs::Names::inside))]
    pub(crate) fn enter(&mut self) -> Result<(), Memory>
        ensures ok { OnOk result (self.new ≡ spec.inside self.old) }
        ensures err { OnErr result (self.new ≡ self.old) }
    {
        let Some(block) = self.block.checked_add(1) else {
            return Err(AllocError);
        };
        self.block = block;
        Ok(())
    }

    /// A block ends: so many variables stay.
    #[tactic(auto, unfolding(crate::specs::inner::Closing::left))]
    pub(crate) fn leave(&mut self, count: usize)
        ensures { self.new ≡ closing.left count self.old }
    {
        while count < self.seen.len() {
            let Some(last) = self.seen.pop() else {
                unreachable!();
            };
            drop(last);
        }
        self.block = self.block.saturating_sub(1);
    }

    /// One variable more, of the block that is open.
    #[tactic(auto, unfolding(crate::specs::Names::more))]
    fn bind(&mut self, alloc: Global, constant: bool, name: &DocText) -> Result<(), Memory>
        ensures { OnOk result (self.new ≡ spec.more self.old
            ((name.now, record { block = self.old.block; constant = constant }) ∷ [])) }
    {
        let bound = Bound {
            block: self.block,
            constant,
        };
        self.seen.push((name.copy(alloc)?, bound))?;
        Ok(())
    }

    /// A declaration, behind which its variable is seen.
    #[tactic(auto, using(crate::proofs::Closing::more_none))]
    pub(crate) fn declare(
        &mut self,
        alloc: Global,
        declares: Declares,
        name: &DocText,
    ) -> Result<(), Memory>
        ensures { OnOk result (self.new ≡ spec.more self.old
            (spec.declared_variables declares name.now self.old)) }
    {
        match declares {
            Declares::Var => Ok(()),
            Declares::Let => self.bind(alloc, false, name),
            Declares::Const => self.bind(alloc, true, name),
        }
    }
}
