//! Nodes that rise by revision, in parts of one kind.

ghost use Rattle.std.specs.Prelude.{◌≡◌, ◌++◌, [], false, IfOk, OnOk, IsTrue};
ghost use Rattle.std.specs.Arc.{arc_value};
ghost use Rattle.std.specs.Option.{option_copied};
ghost use Rattle.rev_tree.specs.Rising.{nodes_rise, is_within, last_where, last_alive, falling, insert_node, without};
ghost use Rattle.rev_tree.specs.Tree as trees;

use crate::bound::Bound;
use crate::leaf::Leaf;
use crate::part::Part;
use crate::row::{self, Row};
use crate::tree::Node;
use sg_names::RevId;
use std::alloc::{AllocError, Global};
use std::marker::Model;
use std::sync::Arc;

/// Nodes by rising revision, in parts.
#[derive(Drop)]
pub struct Layer<P: Part> {
    parts: Vec<Arc<P>>,
}

impl<P: Part> Model for Layer<P> {
    ghost use Rattle.std.specs.Prelude.{List, IsTrue};
    ghost use Rattle.rev_tree.specs.declared.tree.Node.{Node};
    ghost use Rattle.rev_tree.specs.Rising.{nodes_rise};
    ghost use Rattle.rev_tree.specs.inner.Parts.{joined, are_sound};

    ghost Value = { List Node };

    ghost view = { λ l. joined P.nodes l.parts.items };

    ghost invariant = { λ l. IsTrue (are_sound P.is_sound l.parts.items)
        × IsTrue (nodes_rise (joined P.nodes l.parts.items)) };
}

impl<P: Part> Layer<P> {
    /// None. Allocates nothing.
    pub fn new(alloc: Global) -> Layer<P>
        ensures { result ≡ [] }
    {
        Layer {
            parts: Vec::new(alloc),
        }
    }

    /// The allocator of the parts.
    pub fn allocator(&self) -> Global {
        *self.parts.allocator()
    }

    /// How many parts there are.
    pub fn len(&self) -> usize {
        self.parts.len()
    }

    /// The last node that is within a bound. Allocates nothing.
    pub fn last_within<'a>(&'a self, bound: &Bound<'_>) -> Option<&'a Node>
        ensures value { option_copied result ≡ last_where (is_within bound.now) self.now }
        ensures rises { IsTrue (nodes_rise self.now) }
    {
        row::last_in(self.parts.as_slice(), bound)
    }

    /// The last node, or the last one that is not deleted. Allocates nothing.
    pub fn last_alive(&self, alive: bool) -> Option<&Node>
        ensures { option_copied result ≡ last_alive alive self.now }
    {
        row::last_alive_in(self.parts.as_slice(), alive)
    }

    /// Puts the nodes as leaves at the end, the last one first.
    pub fn push_leaves(&self, leaves: &mut Vec<Leaf>) -> Result<(), AllocError>
        ensures { OnOk result (leaves.new.items ≡ leaves.old.items ++ falling self.now) }
    {
        row::push_leaves_of(self.parts.as_slice(), leaves)
    }

    /// The same nodes.
    pub fn copy(&self) -> Result<Layer<P>, AllocError>
        ensures { IfOk result (λ made. made ≡ self.now) }
    {
        Ok(Layer {
            parts: row::copies(self.allocator(), self.parts.as_slice())?,
        })
    }

    /// The same nodes, in rows of these parts.
    pub fn in_rows(&self) -> Result<Layer<Row<P>>, AllocError>
        ensures { IfOk result (λ made. made ≡ self.now) }
    {
        Ok(Layer {
            parts: row::rows_of(self.allocator(), self.parts.as_slice())?,
        })
    }

    /// These nodes and a further one.
    pub fn put(&self, node: &Arc<Node>) -> Result<Layer<P>, AllocError>
        requires { trees.knows self.now (arc_value node.now).rev ≡ false }
        ensures { IfOk result (λ made. made ≡ insert_node (arc_value node.now) self.now) }
    {
        Ok(Layer {
            parts: row::put_in(self.allocator(), self.parts.as_slice(), node)?,
        })
    }

    /// These nodes without that of a revision.
    pub fn take_out(&self, rev: &RevId) -> Result<Layer<P>, AllocError>
        ensures { IfOk result (λ made. made ≡ without rev.now self.now) }
    {
        Ok(Layer {
            parts: row::take_from(self.allocator(), self.parts.as_slice(), rev)?,
        })
    }
}
