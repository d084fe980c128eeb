//! Histories of revisions: a revision's ancestors from the nearest.

ghost use Rattle.std.specs.Prelude.{◌≡◌, ◌∷◌, ◌+◌, ◌≤◌, false, length, min, IfOk, IsTrue};
ghost use Rattle.std.specs.Arc.{arc_value};
ghost use Rattle.std.specs.List.{slice_get};
ghost use Rattle.std.specs.Option.{option_copied};
ghost use Rattle.rev_tree.specs.Tree as trees;
ghost use Rattle.rev_tree.specs.Rising.{insert_node};
ghost use Rattle.rev_tree.specs.Extension as extension;
ghost use Rattle.rev_tree.specs.inner.Search as search_for;

use crate::rising::RisingNodes;
use crate::tree::Node;
use sg_names::RevId;
use std::alloc::{AllocError, Global};
use std::sync::Arc;

/// The most ancestors that a history may list.
const MOST_ANCESTORS: usize = 1000;

/// Whether the generations fall strictly from a revision on.
fn falls(rev: &RevId, ancestors: &[RevId]) -> bool
    ensures { result ≡ extension.falls (rev.now ∷ ancestors.now) }
{
    let mut last = rev;
    for ancestor in ancestors {
        if ancestor.generation >= last.generation {
            return false;
        }
        last = ancestor;
    }
    true
}

/// Whether the generations don't fall strictly, or the ancestors are too many.
pub fn is_bad(rev: &RevId, ancestors: &[RevId]) -> bool
    ensures { result ≡ extension.is_bad_history rev.now ancestors.now }
{
    !falls(rev, ancestors) || ancestors.len() > MOST_ANCESTORS
}

/// The place of the first ancestor that is among some nodes, or their number where none is.
pub fn known_place(nodes: &RisingNodes, ancestors: &[RevId]) -> usize
    ensures { result ≡ search_for.known_place nodes.now ancestors.now }
{
    for (i, ancestor) in ancestors.iter().enumerate() {
        if nodes.knows(ancestor) {
            return i;
        }
    }
    ancestors.len()
}

/// The ancestor at a place, if there is one.
pub fn ancestor_at(ancestors: &[RevId], place: usize) -> Option<&RevId>
    ensures { option_copied result ≡ slice_get ancestors.now place }
{
    ancestors.get(place)
}

fn copy_parent(alloc: Global, parent: Option<&RevId>) -> Result<Option<RevId>, AllocError>
    ensures { IfOk result (λ p. p ≡ option_copied parent.entry) }
{
    match parent {
        None => Ok(None),
        Some(parent) => Ok(Some(parent.copy(alloc)?)),
    }
}

/// The node of a revision on the first of its ancestors.
pub fn node_on(
    alloc: Global,
    rev: &RevId,
    deleted: bool,
    ancestors: &[RevId],
) -> Result<Node, AllocError>
    ensures { IfOk result
        (λ n. n
        ≡ record { rev = rev.now; parent = extension.first_of ancestors.now; deleted = deleted }) }
{
    Ok(Node {
        rev: rev.copy(alloc)?,
        parent: copy_parent(alloc, ancestors.first())?,
        deleted,
    })
}

/// A node to be shared of a revision on the first of its ancestors.
pub fn shared_node(
    alloc: Global,
    rev: &RevId,
    deleted: bool,
    ancestors: &[RevId],
) -> Result<Arc<Node>, AllocError>
    ensures { IfOk result (λ n. arc_value n
        ≡ record { rev = rev.now; parent = extension.first_of ancestors.now; deleted = deleted }) }
{
    Ok(Arc::new(alloc, node_on(alloc, rev, deleted, ancestors)?)?)
}

/// The nodes and that of an ancestor on the first one of the others.
fn with_ancestor(
    nodes: &RisingNodes,
    rev: &RevId,
    ancestors: &[RevId],
) -> Result<RisingNodes, AllocError>
    requires { trees.knows nodes.now rev.now ≡ false }
    ensures { IfOk result (λ made. made ≡ insert_node
        (record { rev = rev.now; parent = extension.first_of ancestors.now; deleted = false })
        nodes.now) }
{
    let node = shared_node(nodes.allocator(), rev, false, ancestors)?;
    let made = nodes.put(&node);
    drop(node);
    made
}

/// The nodes and those of the ancestors before the first known one, which is at a place.
pub fn with_ancestors(
    nodes: &RisingNodes,
    ancestors: &[RevId],
    place: usize,
) -> Result<RisingNodes, AllocError>
    requires history { IsTrue (extension.falls ancestors.now) }
    requires within { place ≤ length ancestors.now }
    requires place { place ≡ search_for.known_place nodes.now ancestors.now }
    ensures { IfOk result (λ made. made ≡ extension.with_nodes
        (extension.added nodes.now ancestors.now) nodes.now) }
{
    let mut made = nodes.copy()?;
    for i in (0..place).rev() {
        made = with_ancestor(&made, &ancestors[i], &ancestors[i + 1..])?;
    }
    Ok(made)
}

/// How many ancestors are kept, where the first known one is at a place: those up to it and it, or all.
pub fn kept(ancestors: &[RevId], place: usize) -> u64
    requires { place ≤ length ancestors.now }
    ensures { result ≡ min (place + 1) (length ancestors.now) }
{
    if place < ancestors.len() {
        place as u64 + 1
    } else {
        ancestors.len() as u64
    }
}
