//! Parts of lists of nodes that rise by revision.

ghost use Rattle.std.specs.Prelude.{◌≡◌, ◌∷◌, [], List, Bool, IsTrue, IfOk, OnOk, ◌++◌, true, false};
ghost use Rattle.std.specs.Arc.{arc_value};
ghost use Rattle.std.specs.Option.{option_copied};
ghost use Rattle.rev_tree.specs.declared.tree.Node as tree_node;
ghost use Rattle.rev_tree.specs.Rising.{nodes_rise, is_within, last_where, last_alive, falling, insert_node, without};
ghost use Rattle.rev_tree.specs.inner.Parts.{AreParts, IsHead};
ghost use Rattle.rev_tree.specs.Tree as trees;

use crate::bound::Bound;
use crate::leaf::{self, Leaf};
use crate::tree::Node;
use sg_names::RevId;
use std::alloc::{AllocError, Global};
use std::sync::Arc;

/// What holds nodes that rise.
pub trait Part: Drop {
    ghost nodes: { Self → List tree_node.Node };

    ghost is_sound: { Self → Bool };

    /// The first node.
    fn first(&self) -> &Node
        requires { IsTrue (is_sound self.now) }
        ensures { IsHead (nodes self.now) result.now };

    /// The last node that is within a bound.
    fn last_within<'a>(&'a self, bound: &Bound<'_>) -> Option<&'a Node>
        requires sound { IsTrue (is_sound self.now) }
        ensures { option_copied result ≡ last_where
            (is_within bound.now) (nodes self.now) };

    /// The last node, or the last one that is not deleted.
    fn last_alive(&self, alive: bool) -> Option<&Node>
        ensures { option_copied result ≡ last_alive alive (nodes self.now) };

    /// Puts the nodes as leaves at the end, the last one first.
    fn push_leaves(&self, leaves: &mut Vec<Leaf>) -> Result<(), AllocError>
        ensures { OnOk result (leaves.new.items ≡ leaves.old.items ++ falling (nodes self.now)) };

    /// The parts that hold the nodes and a further one.
    fn put(alloc: Global, part: &Arc<Self>, node: &Arc<Node>) -> Result<Vec<Arc<Self>>, AllocError>
    where
        Self: Sized,
        requires sound { IsTrue (is_sound (arc_value part.now)) }
        requires unknown { trees.knows (nodes (arc_value part.now)) (arc_value node.now).rev
            ≡ false }
        ensures { IfOk result (λ parts. AreParts nodes is_sound parts.items
            (insert_node (arc_value node.now) (nodes (arc_value part.now)))) };

    /// The parts that hold the nodes without that of a revision.
    fn take_out(alloc: Global, part: &Arc<Self>, rev: &RevId) -> Result<Vec<Arc<Self>>, AllocError>
    where
        Self: Sized,
        requires sound { IsTrue (is_sound (arc_value part.now)) }
        ensures { IfOk result (λ parts. AreParts nodes is_sound parts.items
            (without rev.now (nodes (arc_value part.now)))) };

    /// The parts that hold a node alone.
    fn of_node(alloc: Global, node: &Arc<Node>) -> Result<Vec<Arc<Self>>, AllocError>
    where
        Self: Sized,
        ensures { IfOk result (λ parts. AreParts nodes is_sound parts.items
            (insert_node (arc_value node.now) [])) };
}

/// A vector of two items.
pub fn both<T: Drop>(alloc: Global, one: T, other: T) -> Result<Vec<T>, AllocError>
    ensures { IfOk result (λ v. v.items ≡ one ∷ other ∷ []) }
{
    let mut items = Vec::with_capacity(alloc, 2)?;
    items.push(one)?;
    items.push(other)?;
    Ok(items)
}

/// A vector of one item.
pub fn alone<T: Drop>(alloc: Global, one: T) -> Result<Vec<T>, AllocError>
    ensures { IfOk result (λ v. v.items ≡ one ∷ []) }
{
    let mut items = Vec::with_capacity(alloc, 1)?;
    items.push(one)?;
    Ok(items)
}

impl Part for Node {
    ghost nodes = { λ n. n ∷ [] };

    ghost is_sound = { λ n. true };

    fn first(&self) -> &Node {
        self
    }

    fn last_within<'a>(&'a self, bound: &Bound<'_>) -> Option<&'a Node> {
        if bound.admits(&self.rev) {
            Some(self)
        } else {
            None
        }
    }

    fn last_alive(&self, alive: bool) -> Option<&Node> {
        if alive && self.deleted {
            None
        } else {
            Some(self)
        }
    }

    fn push_leaves(&self, leaves: &mut Vec<Leaf>) -> Result<(), AllocError> {
        let alloc = *leaves.allocator();
        leaves.push(Leaf {
            rev: self.rev.copy(alloc)?,
            deleted: self.deleted,
        })?;
        Ok(())
    }

    fn put(
        alloc: Global,
        part: &Arc<Node>,
        node: &Arc<Node>,
    ) -> Result<Vec<Arc<Node>>, AllocError> {
        let one = Arc::try_clone(part)?;
        let other = Arc::try_clone(node)?;
        if part.rev.order(&node.rev).is_lt() {
            both(alloc, one, other)
        } else {
            both(alloc, other, one)
        }
    }

    fn take_out(
        alloc: Global,
        part: &Arc<Node>,
        rev: &RevId,
    ) -> Result<Vec<Arc<Node>>, AllocError> {
        if rev.equals(&part.rev) {
            Ok(Vec::new(alloc))
        } else {
            alone(alloc, Arc::try_clone(part)?)
        }
    }

    fn of_node(alloc: Global, node: &Arc<Node>) -> Result<Vec<Arc<Node>>, AllocError> {
        alone(alloc, Arc::try_clone(node)?)
    }
}
