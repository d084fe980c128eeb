//! Nodes that rise by revision, of which a copy with one more or one less shares all but a few blocks.

ghost use Rattle.std.specs.Prelude.{◌≡◌, ◌++◌, ◌∷◌, [], nat_lt, map, take, filter, false, IfOk, OnOk, IsTrue};
ghost use Rattle.std.specs.Arc.{arc_value};
ghost use Rattle.std.specs.Option.{option_copied};
ghost use Rattle.rev_tree.specs.Rising.{nodes_rise, is_within, last_where, last_alive, falling, insert_node, without, node_of};
ghost use Rattle.rev_tree.specs.Tree as trees;

use crate::bound::Bound;
use crate::layer::Layer;
use crate::leaf::Leaf;
use crate::row::Row;
use crate::tree::Node;
use sg_names::RevId;
use std::alloc::{AllocError, Global};
use std::marker::Model;
use std::sync::Arc;

/// The most nodes that stand without blocks.
const MOST_FEW: usize = 64;

/// A few nodes, or nodes in rows of blocks.
#[derive(Drop)]
pub enum Layers {
    Few(Layer<Node>),
    Many(Layer<Row<Row<Node>>>),
}

/// Nodes by rising revision: at most 64, or in rows of blocks of at most 64.
#[derive(Drop)]
pub struct RisingNodes {
    layers: Layers,
}

impl Model for RisingNodes {
    ghost use Rattle.std.specs.Prelude.{List};
    ghost use Rattle.rev_tree.specs.declared.tree.Node.{Node};
    ghost use Rattle.rev_tree.specs.inner.Layers.{nodes_in};

    ghost Value = { List Node };

    ghost view = { λ r. nodes_in r.layers };
}

/// Some nodes, in rows of blocks where they are more than a few.
fn few_or_many(nodes: Layer<Node>) -> Result<RisingNodes, AllocError>
    ensures { IfOk result (λ made. made ≡ nodes) }
{
    if nodes.len() <= MOST_FEW {
        return Ok(RisingNodes {
            layers: Layers::Few(nodes),
        });
    }
    let rows = rows_of(&nodes);
    drop(nodes);
    Ok(RisingNodes {
        layers: Layers::Many(rows?),
    })
}

/// Some nodes, in rows of blocks.
fn rows_of(nodes: &Layer<Node>) -> Result<Layer<Row<Row<Node>>>, AllocError>
    ensures { IfOk result (λ made. made ≡ nodes.now) }
{
    let blocks = nodes.in_rows()?;
    let rows = blocks.in_rows();
    drop(blocks);
    rows
}

impl RisingNodes {
    /// None. Allocates nothing.
    pub fn new(alloc: Global) -> RisingNodes
        ensures { result ≡ [] }
    {
        RisingNodes {
            layers: Layers::Few(Layer::new(alloc)),
        }
    }

    /// The allocator of the nodes.
    pub fn allocator(&self) -> Global {
        match &self.layers {
            Layers::Few(nodes) => nodes.allocator(),
            Layers::Many(nodes) => nodes.allocator(),
        }
    }

    /// The last node that is within a bound. Allocates nothing.
    pub fn last_within<'a>(&'a self, bound: &Bound<'_>) -> Option<&'a Node>
        ensures value { option_copied result ≡ last_where (is_within bound.now) self.now }
        ensures rises { IsTrue (nodes_rise self.now) }
    {
        match &self.layers {
            Layers::Few(nodes) => nodes.last_within(bound),
            Layers::Many(nodes) => nodes.last_within(bound),
        }
    }

    /// The last node, or the last one that is not deleted. Allocates nothing.
    pub fn last_alive(&self, alive: bool) -> Option<&Node>
        ensures { option_copied result ≡ last_alive alive self.now }
    {
        match &self.layers {
            Layers::Few(nodes) => nodes.last_alive(alive),
            Layers::Many(nodes) => nodes.last_alive(alive),
        }
    }

    /// Puts the nodes as leaves at the end, the last one first.
    pub fn push_leaves(&self, leaves: &mut Vec<Leaf>) -> Result<(), AllocError>
        ensures { OnOk result (leaves.new.items ≡ leaves.old.items ++ falling self.now) }
    {
        match &self.layers {
            Layers::Few(nodes) => nodes.push_leaves(leaves),
            Layers::Many(nodes) => nodes.push_leaves(leaves),
        }
    }

    /// The node of a revision. Allocates nothing.
    pub fn get<'a>(&'a self, rev: &RevId) -> Option<&'a Node>
        ensures { option_copied result ≡ node_of self.now rev.now }
    {
        match self.last_within(&Bound::up_to(rev)) {
            Some(node) if node.rev.equals(rev) => Some(node),
            _ => None,
        }
    }

    /// Whether there is a node of a revision. Allocates nothing.
    pub fn knows(&self, rev: &RevId) -> bool
        ensures { result ≡ trees.knows self.now rev.now }
    {
        self.get(rev).is_some()
    }

    /// The parent of a revision, if it has one. Allocates nothing.
    pub fn parent_of<'a>(&'a self, rev: &RevId) -> Option<&'a RevId>
        ensures { option_copied result ≡ trees.parent_of self.now rev.now }
    {
        match self.get(rev) {
            Some(node) => node.parent.as_ref(),
            None => None,
        }
    }

    /// The revisions of lesser generations, the greatest first, at most so many.
    pub fn revs_below(&self, generation: u32, most: usize) -> Result<Vec<RevId>, AllocError>
        ensures { IfOk result (λ revs. revs.items ≡ map (λ l. l.rev) (take most (falling
            (filter (λ n. nat_lt n.rev.generation generation) self.now)))) }
    {
        let mut revs = Vec::new(self.allocator());
        let mut bound = Bound::below_generation(generation);
        while revs.len() < most {
            match self.last_within(&bound) {
                None => return Ok(revs),
                Some(node) => {
                    push_copy(&mut revs, &node.rev)?;
                    bound = Bound::below(&node.rev);
                }
            }
        }
        Ok(revs)
    }

    /// The ancestors of a revision from its parent on, at most so many.
    pub fn ancestors_of(&self, rev: &RevId, most: u64) -> Result<Vec<RevId>, AllocError>
        ensures { IfOk result (λ found. found.items ≡ trees.ancestors_of self.now rev.now most) }
    {
        let mut found = Vec::new(self.allocator());
        let mut child = rev;
        while (found.len() as u64) < most {
            match self.parent_of(child) {
                None => return Ok(found),
                Some(parent) => {
                    push_copy(&mut found, parent)?;
                    child = parent;
                }
            }
        }
        Ok(found)
    }

    /// The same nodes.
    pub fn copy(&self) -> Result<RisingNodes, AllocError>
        ensures { IfOk result (λ made. made ≡ self.now) }
    {
        match &self.layers {
            Layers::Few(nodes) => Ok(RisingNodes {
                layers: Layers::Few(nodes.copy()?),
            }),
            Layers::Many(nodes) => Ok(RisingNodes {
                layers: Layers::Many(nodes.copy()?),
            }),
        }
    }

    /// These nodes and a further one.
    pub fn put(&self, node: &Arc<Node>) -> Result<RisingNodes, AllocError>
        requires { trees.knows self.now (arc_value node.now).rev ≡ false }
        ensures { IfOk result (λ made. made ≡ insert_node (arc_value node.now) self.now) }
    {
        match &self.layers {
            Layers::Few(nodes) => few_or_many(nodes.put(node)?),
            Layers::Many(nodes) => Ok(RisingNodes {
                layers: Layers::Many(nodes.put(node)?),
            }),
        }
    }

    /// These nodes without that of a revision.
    pub fn take_out(&self, rev: &RevId) -> Result<RisingNodes, AllocError>
        ensures { IfOk result (λ made. made ≡ without rev.now self.now) }
    {
        match &self.layers {
            Layers::Few(nodes) => Ok(RisingNodes {
                layers: Layers::Few(nodes.take_out(rev)?),
            }),
            Layers::Many(nodes) => Ok(RisingNodes {
                layers: Layers::Many(nodes.take_out(rev)?),
            }),
        }
    }
}

/// Puts a copy of a revision at the end.
fn push_copy(revs: &mut Vec<RevId>, rev: &RevId) -> Result<(), AllocError>
    ensures { OnOk result (revs.new.items ≡ revs.old.items ++ rev.now ∷ []) }
{
    let copy = rev.copy(*revs.allocator())?;
    revs.push(copy)?;
    Ok(())
}
