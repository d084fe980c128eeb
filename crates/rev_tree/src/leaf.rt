//! Leaves of trees, and lists of them.

ghost use Rattle.std.specs.Prelude.{◌≡◌, [], IfOk};

use sg_names::RevId;
use sg_outside::Memory;
use std::alloc::Global;
use std::marker::Model;

/// A leaf of a tree: a revision that is no parent, and whether it deletes the document.
#[derive(Drop)]
pub struct Leaf {
    pub rev: RevId,
    pub deleted: bool,
}

impl Leaf {
    pub fn copy(&self, alloc: Global) -> Result<Leaf, Memory>
        ensures { IfOk result (λ l. l ≡ self.now) }
    {
        Ok(Leaf {
            rev: self.rev.copy(alloc)?,
            deleted: self.deleted,
        })
    }
}

/// A list of leaves.
#[derive(Drop)]
pub struct Leaves {
    items: Vec<Leaf>,
}

impl Model for Leaves {
    ghost use Rattle.std.specs.Prelude.{List};
    ghost use Rattle.rev_tree.specs.declared.leaf.Leaf.{Leaf};

    ghost Value = { List Leaf };

    ghost view = { λ l. l.items.items };
}

impl Leaves {
    /// None. Allocates nothing.
    pub fn new(alloc: Global) -> Leaves
        ensures { result ≡ [] }
    {
        Leaves {
            items: Vec::new(alloc),
        }
    }

    /// The list of a vector's leaves. Allocates nothing.
    pub fn from_vec(items: Vec<Leaf>) -> Leaves
        ensures { result ≡ items.items }
    {
        Leaves { items }
    }

    /// The vector of the leaves. Allocates nothing.
    pub fn into_vec(self) -> Vec<Leaf>
        ensures { result.items ≡ self }
    {
        self.items
    }

    pub fn as_slice(&self) -> &[Leaf]
        ensures { result.now ≡ self.now }
    {
        self.items.as_slice()
    }
}
