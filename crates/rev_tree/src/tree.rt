//! Trees of revisions.

ghost use Rattle.std.specs.Prelude.{◌≡◌, ◌≢◌, ◌++◌, ◌∷◌, ◌≤◌, ◌↔◌, ◌&&◌, [], true, false, not, take, map, length, option_map, IfOk, IfSome, IsTrue, None, Some};
ghost use Rattle.std.specs.Arc.{arc_value};
ghost use Rattle.std.specs.Option.{option_copied};
ghost use Rattle.rev_tree.specs.Tree as trees;
ghost use Rattle.rev_tree.specs.Order as order;
ghost use Rattle.rev_tree.specs.Extension as extension;
ghost use Rattle.rev_tree.specs.Extension.{is_known, has_bad_history, makes_conflict, extends_tree};
ghost use Rattle.rev_tree.specs.Answer.{IfNewTree, IfConflict};
ghost use Rattle.rev_tree.specs.declared.extend.Extended.TheVariants.{Known, BadHistory400};
ghost use Rattle.rev_tree.specs.inner.Search.{known_place};
ghost use Rattle.rev_tree.specs.Shape as shape;
ghost use Rattle.rev_tree.specs.Rising.{nodes_rise, insert_node, option_or, last_alive};
ghost use Rattle.rev_tree.specs.Writes.{is_accepted};

use crate::extend::Extended;
use crate::history;
use crate::leaf::{Leaf, Leaves};
use crate::rising::RisingNodes;
use sg_names::{RevId, Revs};
use sg_outside::Memory;
use std::alloc::{AllocError, Global};
use std::marker::Model;
use std::sync::Arc;

/// A revision of a tree, with its parent where it has one. One that is known as an ancestor alone is not
/// deleted.
#[derive(Drop)]
pub struct Node {
    pub rev: RevId,
    pub parent: Option<RevId>,
    pub deleted: bool,
}

/// The revisions of a document. Trees that extend one share with it the nodes that they leave as they are.
#[derive(Drop)]
pub struct Tree {
    nodes: RisingNodes,
    tips: RisingNodes,
    winner: Option<Leaf>,
}

impl Model for Tree {
    ghost use Rattle.std.specs.Prelude.{List, ◌≡◌, IsTrue};
    ghost use Rattle.rev_tree.specs.declared.tree.Node.{Node};

    ghost Value = { List Node };

    ghost use Rattle.rev_tree.specs.Tree.{winner_of};
    ghost use Rattle.rev_tree.specs.Shape as tree_shape;

    ghost view = { λ t. t.nodes };

    ghost invariant = { λ t. IsTrue (tree_shape.is_tree t.nodes) × ((t.tips ≡ tree_shape.tips t.nodes)
        × (t.winner ≡ winner_of t.nodes)) };
}

/// The node of the leaf that wins, among those of leaves.
fn best(tips: &RisingNodes) -> Option<&Node>
    ensures { option_copied result ≡ option_or
        (last_alive true tips.now) (last_alive false tips.now) }
{
    match tips.last_alive(true) {
        None => tips.last_alive(false),
        found => found,
    }
}

/// The leaf that wins, among the nodes of leaves.
fn winner_among(tips: &RisingNodes) -> Result<Option<Leaf>, AllocError>
    requires { IsTrue (nodes_rise tips.now) }
    ensures { IfOk result (λ winner. winner
        ≡ order.first_leaf (map (λ n. trees.leaf_at n) tips.now)) }
{
    match best(tips) {
        None => Ok(None),
        Some(node) => Ok(Some(Leaf {
            rev: node.rev.copy(tips.allocator())?,
            deleted: node.deleted,
        })),
    }
}

/// The tree of its nodes and those of its leaves.
fn tree_of(nodes: RisingNodes, tips: RisingNodes) -> Result<Tree, AllocError>
    requires tree { IsTrue (shape.is_tree nodes) }
    requires tips { tips ≡ shape.tips nodes }
    ensures { IfOk result (λ tree. tree ≡ nodes) }
{
    match winner_among(&tips) {
        Ok(winner) => Ok(Tree {
            nodes,
            tips,
            winner,
        }),
        Err(error) => {
            drop(nodes);
            drop(tips);
            Err(error)
        }
    }
}

impl Tree {
    /// The tree without revisions. Allocates nothing.
    pub fn new(alloc: Global) -> Tree
        ensures { result ≡ [] }
    {
        Tree {
            nodes: RisingNodes::new(alloc),
            tips: RisingNodes::new(alloc),
            winner: None,
        }
    }

    /// Whether the tree has this revision. Allocates nothing.
    pub fn knows(&self, rev: &RevId) -> bool
        ensures { result ≡ trees.knows self.now rev.now }
    {
        self.nodes.knows(rev)
    }

    /// The leaf that wins: one that is not deleted before one that is, then the greater generation, then
    /// the greater digest by bytes. None where the tree is empty. Allocates nothing.
    pub fn winner(&self) -> Option<&Leaf>
        ensures value { option_copied result ≡ trees.winner_of self.now }
        ensures none { trees.winner_of self.now ≡ None ↔ self.now ≡ [] }
    {
        self.winner.as_ref()
    }

    /// The leaves, by falling generation, then by falling digest.
    pub fn leaves(&self) -> Result<Leaves, Memory>
        ensures { IfOk result (λ l. l ≡ order.in_order (trees.leaves_of self.now)) }
    {
        let mut leaves = Vec::new(self.tips.allocator());
        self.tips.push_leaves(&mut leaves)?;
        Ok(Leaves::from_vec(leaves))
    }

    /// The revisions of the leaves of lesser generations, by falling generation, then by falling digest,
    /// at most so many.
    pub fn leaves_below(&self, generation: u32, most: usize) -> Result<Revs, Memory>
        ensures { IfOk result (λ revs. revs ≡ map (λ l. l.rev) (take most
            (order.leaves_below generation (order.in_order (trees.leaves_of self.now))))) }
    {
        Ok(Revs::from_vec(self.tips.revs_below(generation, most)?))
    }

    /// The nodes with a further one on the ancestor at a place, which is the first one that the tree
    /// knows, or on all of them.
    fn nodes_with(
        &self,
        node: &Arc<Node>,
        ancestors: &[RevId],
        place: usize,
    ) -> Result<RisingNodes, AllocError>
        requires unknown { trees.knows self.now (arc_value node.now).rev ≡ false }
        requires history { IsTrue (extension.falls ((arc_value node.now).rev ∷ ancestors.now)) }
        requires place { place ≡ known_place self.now ancestors.now }
        ensures { IfOk result (λ nodes. nodes ≡ extension.with_nodes
            (arc_value node.now ∷ extension.added self.now ancestors.now) self.now) }
    {
        if place == 0 {
            return self.nodes.put(node);
        }
        let below = history::with_ancestors(&self.nodes, ancestors, place)?;
        let nodes = below.put(node);
        drop(below);
        nodes
    }

    /// The nodes of the leaves with a further one, without that of the ancestor that it is on.
    fn tips_with(&self, node: &Arc<Node>, known: Option<&RevId>) -> Result<RisingNodes, AllocError>
        requires { trees.knows self.now (arc_value node.now).rev ≡ false }
        ensures { IfOk result (λ tips. tips ≡ insert_node (arc_value node.now)
            (shape.without_this (option_copied known.entry) (shape.tips self.now))) }
    {
        match known {
            None => self.tips.put(node),
            Some(known) => {
                let others = self.tips.take_out(known)?;
                let tips = others.put(node);
                drop(others);
                tips
            }
        }
    }

    /// The tree with a revision that it lacks, on the ancestor at a place, which is the first one that it
    /// knows, or on all of them.
    fn with_write(
        &self,
        rev: &RevId,
        deleted: bool,
        ancestors: &[RevId],
        place: usize,
    ) -> Result<Tree, AllocError>
        requires unknown { trees.knows self.now rev.now ≡ false }
        requires history { IsTrue (extension.falls (rev.now ∷ ancestors.now)) }
        requires place { place ≡ known_place self.now ancestors.now }
        ensures { IfOk result (λ tree. tree ≡ extension.with_write self.now
            (record { rev = rev.now; ancestors = ancestors.now; deleted = deleted })) }
    {
        let node = history::shared_node(self.nodes.allocator(), rev, deleted, ancestors)?;
        let nodes = self.nodes_with(&node, ancestors, place)?;
        let tips = self.tips_with(&node, history::ancestor_at(ancestors, place))?;
        drop(node);
        tree_of(nodes, tips)
    }

    /// Whether a revision may be added where conflicts are not allowed: the tree is empty, or the known
    /// ancestor is the winner, or no ancestor is known and the winner is deleted.
    fn goes_on(&self, known: Option<&RevId>) -> bool
        ensures { result ≡ extension.goes_on (trees.winner_of self.now)
            (option_copied known.entry) }
    {
        match (self.winner(), known) {
            (None, _) => true,
            (Some(winner), Some(known)) => known.equals(&winner.rev),
            (Some(winner), None) => winner.deleted,
        }
    }

    /// Whether a revision makes a conflict where none is allowed; the first known ancestor is at a place.
    fn makes_conflict(&self, ancestors: &[RevId], place: usize, strict: bool) -> bool
        requires { place ≡ known_place self.now ancestors.now }
        ensures { result ≡ (strict && not (extension.goes_on (trees.winner_of self.now)
            (extension.first_known self.now ancestors.now))) }
    {
        strict && !self.goes_on(history::ancestor_at(ancestors, place))
    }

    /// A copy of the winner's revision.
    fn winning_rev(&self) -> Result<Option<RevId>, AllocError>
        ensures { IfOk result (λ rev. rev ≡ option_map (λ w. w.rev) (trees.winner_of self.now)) }
    {
        match self.winner() {
            None => Ok(None),
            Some(winner) => Ok(Some(winner.rev.copy(self.nodes.allocator())?)),
        }
    }

    /// The answer of a conflict with the winner; there is one, since an empty tree takes any revision.
    fn conflict(&self) -> Extended
        requires { ¬ (trees.winner_of self.now ≡ None) }
        ensures known { result ≢ Known }
        ensures bad_history { result ≢ BadHistory400 }
        ensures conflict { IfConflict result (λ leaf. option_map (λ w. w.rev)
            (trees.winner_of self.now) ≡ Some leaf) }
        ensures new_tree { IfNewTree result (λ tree kept. ⊥) }
    {
        match self.winning_rev() {
            Ok(Some(leaf)) => Extended::Conflict409 { leaf },
            Ok(None) => unreachable!(),
            Err(_) => Extended::Memory,
        }
    }

    /// The answer of a revision that extends the tree; the first known ancestor is at a place.
    fn accept(&self, rev: &RevId, deleted: bool, ancestors: &[RevId], place: usize) -> Extended
        requires unknown { trees.knows self.now rev.now ≡ false }
        requires history { IsTrue (extension.falls (rev.now ∷ ancestors.now)) }
        requires place { place ≡ known_place self.now ancestors.now }
        ensures known { result ≢ Known }
        ensures bad_history { result ≢ BadHistory400 }
        ensures conflict { IfConflict result (λ leaf. ⊥) }
        ensures kept { IfNewTree result
            (λ tree kept. kept ≡ extension.kept_ancestors self.now ancestors.now) }
        ensures within { IfNewTree result (λ tree kept. kept ≤ length ancestors.now) }
        ensures tree { IfNewTree result (λ tree kept. tree ≡ extension.with_write self.now
            (record {
              rev = rev.now;
              ancestors = take
                  (extension.kept_ancestors self.now ancestors.now) ancestors.now;
              deleted = deleted;
            })) }
        ensures accepted { IsTrue (is_accepted self.now
            (record {
              rev = rev.now;
              ancestors = take
                  (extension.kept_ancestors self.now ancestors.now) ancestors.now;
              deleted = deleted;
            })) }
    {
        match self.with_write(rev, deleted, ancestors, place) {
            Ok(tree) => Extended::NewTree {
                tree,
                kept: history::kept(ancestors, place),
            },
            Err(_) => Extended::Memory,
        }
    }

    /// The outcome of a further revision with its ancestors from the nearest. It is the first of these:
    /// the tree knows the revision; its history is bad; it makes a conflict, under `strict`; it is on
    /// its first ancestor that the tree knows, with those before that one as revisions without bodies, or
    /// below all its ancestors where none is known. The tree stays as it is.
    pub fn extend(&self, rev: &RevId, deleted: bool, ancestors: &[RevId], strict: bool) -> Extended
        ensures known { result ≡ Known → extension.verdict_of self.now rev.now ancestors.now strict
            ≡ is_known }
        ensures bad_history { result ≡ BadHistory400
            → extension.verdict_of self.now rev.now ancestors.now strict ≡ has_bad_history }
        ensures conflict { IfConflict result
            (λ leaf. (extension.verdict_of self.now rev.now ancestors.now strict ≡ makes_conflict)
            × (option_map (λ w. w.rev) (trees.winner_of self.now) ≡ Some leaf)) }
        ensures new_tree { IfNewTree result
            (λ tree kept. extension.verdict_of self.now rev.now ancestors.now strict
            ≡ extends_tree) }
        ensures kept { IfNewTree result
            (λ tree kept. kept ≡ extension.kept_ancestors self.now ancestors.now) }
        ensures within { IfNewTree result (λ tree kept. kept ≤ length ancestors.now) }
        ensures tree { IfNewTree result (λ tree kept. tree ≡ extension.with_write self.now
            (record { rev = rev.now; ancestors = take kept ancestors.now; deleted = deleted })) }
        ensures accepted { IfNewTree result (λ tree kept. IsTrue (is_accepted self.now
            (record { rev = rev.now; ancestors = take kept ancestors.now; deleted = deleted }))) }
    {
        if self.knows(rev) {
            return Extended::Known;
        }
        if history::is_bad(rev, ancestors) {
            return Extended::BadHistory400;
        }
        let place = history::known_place(&self.nodes, ancestors);
        if self.makes_conflict(ancestors, place, strict) {
            return self.conflict();
        }
        self.accept(rev, deleted, ancestors, place)
    }

    /// The ancestors of a revision from its parent on, at most so many; none where the tree does not
    /// know the revision.
    pub fn ancestors_of(&self, rev: &RevId, most: u64) -> Result<Revs, Memory>
        ensures { IfOk result (λ found. found ≡ trees.ancestors_of self.now rev.now most) }
    {
        Ok(Revs::from_vec(self.nodes.ancestors_of(rev, most)?))
    }
}

/// What may be sent to another thread and seen there.
fn is_shared<T: Send + Sync>(_value: &T) -> bool {
    true
}

/// Whether a tree may be: it is `Send` and `Sync`.
pub(crate) fn tree_is_shared(tree: &Tree) -> bool {
    is_shared(tree)
}
