//! Rows of parts: what is looked for, put and taken out is so in the part where its revision falls.

ghost use Rattle.std.specs.Prelude.{◌≡◌, ◌++◌, ◌+◌, ◌≤◌, ◌<◌, ◌&&◌, ℕ, true, false, take, drop, length, IsTrue, IfOk, OnOk};
ghost use Rattle.std.specs.Arc.{arc_value};
ghost use Rattle.std.specs.Option.{option_copied};
ghost use Rattle.rev_tree.specs.Rising.{nodes_rise, is_within, last_where, last_alive, falling, insert_node, without, starts};
ghost use Rattle.rev_tree.specs.inner.Parts.{joined, are_sound, is_row, AreParts};
ghost use Rattle.rev_tree.specs.Tree as trees;

use crate::bound::Bound;
use crate::leaf::Leaf;
use crate::part::{Part, alone, both};
use crate::tree::Node;
use sg_names::RevId;
use std::alloc::{AllocError, Global};
use std::sync::Arc;

/// The most parts of a row.
const MOST_PARTS: usize = 64;

/// How many parts stand before the first one that begins past a bound.
fn place_of<P: Part>(parts: &[Arc<P>], bound: &Bound<'_>) -> usize
    requires { IsTrue (are_sound P.is_sound parts.now) }
    ensures within { result ≤ length parts.now }
    ensures below { (j : ℕ) → j + 1 ≡ result
        → starts (is_within bound.now) (joined P.nodes (drop j parts.now)) ≡ true }
    ensures above { starts (is_within bound.now) (joined P.nodes (drop result parts.now)) ≡ false }
{
    let mut low = 0;
    let mut high = parts.len();
    while low < high {
        let middle = low + (high - low) / 2;
        let part = &parts[middle];
        if bound.admits(&part.first().rev) {
            low = middle + 1;
        } else {
            high = middle;
        }
    }
    low
}

/// The last node that is within a bound.
pub fn last_in<'a, P: Part>(parts: &'a [Arc<P>], bound: &Bound<'_>) -> Option<&'a Node>
    requires sound { IsTrue (are_sound P.is_sound parts.now) }
    requires rises { IsTrue (nodes_rise (joined P.nodes parts.now)) }
    ensures { option_copied result ≡ last_where (is_within bound.now)
        (joined P.nodes parts.now) }
{
    let place = place_of(parts, bound);
    if place == 0 {
        return None;
    }
    let part = &parts[place - 1];
    part.last_within(bound)
}

/// The last node, or the last one that is not deleted.
pub fn last_alive_in<P: Part>(parts: &[Arc<P>], alive: bool) -> Option<&Node>
    ensures { option_copied result ≡ last_alive alive (joined P.nodes parts.now) }
{
    for i in (0..parts.len()).rev() {
        let part = &parts[i];
        if let Some(node) = part.last_alive(alive) {
            return Some(node);
        }
    }
    None
}

/// Puts the nodes as leaves at the end, the last one first.
pub fn push_leaves_of<P: Part>(parts: &[Arc<P>], leaves: &mut Vec<Leaf>) -> Result<(), AllocError>
    ensures { OnOk result (leaves.new.items
        ≡ leaves.old.items ++ falling (joined P.nodes parts.now)) }
{
    for i in (0..parts.len()).rev() {
        let part = &parts[i];
        part.push_leaves(leaves)?;
    }
    Ok(())
}

/// Puts parts at the end.
fn push_all<P: Part>(from: &[Arc<P>], parts: &mut Vec<Arc<P>>) -> Result<(), AllocError>
    ensures nodes { OnOk result (joined P.nodes parts.new.items
        ≡ joined P.nodes parts.old.items ++ joined P.nodes from.now) }
    ensures sound { OnOk result (are_sound P.is_sound parts.new.items
        ≡ (are_sound P.is_sound parts.old.items && are_sound P.is_sound from.now)) }
    ensures len { OnOk result (length parts.new.items
        ≡ length parts.old.items + length from.now) }
{
    for part in from {
        parts.push(Arc::try_clone(part)?)?;
    }
    Ok(())
}

/// The same parts.
pub fn copies<P: Part>(alloc: Global, parts: &[Arc<P>]) -> Result<Vec<Arc<P>>, AllocError>
    requires { IsTrue (are_sound P.is_sound parts.now) }
    ensures { IfOk result (λ all. AreParts P.nodes P.is_sound all.items
        (joined P.nodes parts.now)) }
{
    let mut all = Vec::with_capacity(alloc, parts.len())?;
    push_all(parts, &mut all)?;
    Ok(all)
}

/// The parts with others in place of one.
fn replaced<P: Part>(
    alloc: Global,
    parts: &[Arc<P>],
    place: usize,
    others: &[Arc<P>],
) -> Result<Vec<Arc<P>>, AllocError>
    requires within { place < length parts.now }
    requires sound { IsTrue (are_sound P.is_sound parts.now) }
    requires others { IsTrue (are_sound P.is_sound others.now) }
    ensures { IfOk result (λ all. AreParts P.nodes P.is_sound all.items
        (joined P.nodes (take place parts.now)
        ++ (joined P.nodes others.now ++ joined P.nodes (drop (place + 1) parts.now)))) }
{
    let mut all = Vec::with_capacity(alloc, parts.len().saturating_add(1))?;
    push_all(&parts[..place], &mut all)?;
    push_all(others, &mut all)?;
    push_all(&parts[place + 1..], &mut all)?;
    Ok(all)
}

/// Parts that hold the nodes and a further one.
pub fn put_in<P: Part>(
    alloc: Global,
    parts: &[Arc<P>],
    node: &Arc<Node>,
) -> Result<Vec<Arc<P>>, AllocError>
    requires sound { IsTrue (are_sound P.is_sound parts.now) }
    requires rises { IsTrue (nodes_rise (joined P.nodes parts.now)) }
    requires unknown { trees.knows (joined P.nodes parts.now) (arc_value node.now).rev ≡ false }
    ensures { IfOk result (λ all. AreParts P.nodes P.is_sound all.items
        (insert_node (arc_value node.now) (joined P.nodes parts.now))) }
{
    if parts.len() == 0 {
        return P::of_node(alloc, node);
    }
    let place = place_of(parts, &Bound::below(&node.rev)).saturating_sub(1);
    let others = P::put(alloc, &parts[place], node)?;
    let all = replaced(alloc, parts, place, others.as_slice());
    drop(others);
    all
}

/// Parts that hold the nodes without that of a revision.
pub fn take_from<P: Part>(
    alloc: Global,
    parts: &[Arc<P>],
    rev: &RevId,
) -> Result<Vec<Arc<P>>, AllocError>
    requires sound { IsTrue (are_sound P.is_sound parts.now) }
    requires rises { IsTrue (nodes_rise (joined P.nodes parts.now)) }
    ensures { IfOk result (λ all. AreParts P.nodes P.is_sound all.items
        (without rev.now (joined P.nodes parts.now))) }
{
    let place = place_of(parts, &Bound::up_to(rev));
    if place == 0 {
        return copies(alloc, parts);
    }
    let others = P::take_out(alloc, &parts[place - 1], rev)?;
    let all = replaced(alloc, parts, place - 1, others.as_slice());
    drop(others);
    all
}

/// Parts, at least one, the nodes of which rise.
#[derive(Drop)]
pub struct Row<P> {
    parts: Vec<Arc<P>>,
}

/// The row of some parts.
fn row_of<P: Part>(alloc: Global, from: &[Arc<P>]) -> Result<Arc<Row<P>>, AllocError>
    requires some { 0 < length from.now }
    requires sound { IsTrue (are_sound P.is_sound from.now) }
    requires rises { IsTrue (nodes_rise (joined P.nodes from.now)) }
    ensures nodes { IfOk result (λ row. joined P.nodes (arc_value row).parts.items
        ≡ joined P.nodes from.now) }
    ensures sound { IfOk result (λ row. IsTrue
        (is_row P.nodes P.is_sound (arc_value row).parts.items)) }
{
    let mut parts = Vec::with_capacity(alloc, from.len())?;
    push_all(from, &mut parts)?;
    Ok(Arc::new(alloc, Row { parts })?)
}

/// The rows of some parts: none where there are none, two where there are too many for one.
pub fn rows_of<P: Part>(alloc: Global, parts: &[Arc<P>]) -> Result<Vec<Arc<Row<P>>>, AllocError>
    requires sound { IsTrue (are_sound P.is_sound parts.now) }
    requires rises { IsTrue (nodes_rise (joined P.nodes parts.now)) }
    ensures { IfOk result (λ rows. AreParts (λ row. joined P.nodes row.parts.items)
        (λ row. is_row P.nodes P.is_sound row.parts.items) rows.items
        (joined P.nodes parts.now)) }
{
    if parts.len() == 0 {
        return Ok(Vec::new(alloc));
    }
    if parts.len() <= MOST_PARTS {
        let rows = alone(alloc, row_of(alloc, parts)?)?;
        return Ok(rows);
    }
    let half = parts.len() / 2;
    let lower = row_of(alloc, &parts[..half])?;
    let upper = row_of(alloc, &parts[half..])?;
    let rows = both(alloc, lower, upper)?;
    Ok(rows)
}

impl<P: Part> Part for Row<P> {
    ghost nodes = { λ row. joined P.nodes row.parts.items };

    ghost is_sound = { λ row. is_row P.nodes P.is_sound row.parts.items };

    fn first(&self) -> &Node {
        let part = &self.parts[0];
        part.first()
    }

    fn last_within<'a>(&'a self, bound: &Bound<'_>) -> Option<&'a Node> {
        last_in(self.parts.as_slice(), bound)
    }

    fn last_alive(&self, alive: bool) -> Option<&Node> {
        last_alive_in(self.parts.as_slice(), alive)
    }

    fn push_leaves(&self, leaves: &mut Vec<Leaf>) -> Result<(), AllocError> {
        push_leaves_of(self.parts.as_slice(), leaves)
    }

    fn put(
        alloc: Global,
        part: &Arc<Row<P>>,
        node: &Arc<Node>,
    ) -> Result<Vec<Arc<Row<P>>>, AllocError> {
        let parts = put_in(alloc, part.parts.as_slice(), node)?;
        let rows = rows_of(alloc, parts.as_slice());
        drop(parts);
        rows
    }

    fn take_out(
        alloc: Global,
        part: &Arc<Row<P>>,
        rev: &RevId,
    ) -> Result<Vec<Arc<Row<P>>>, AllocError> {
        let parts = take_from(alloc, part.parts.as_slice(), rev)?;
        let rows = rows_of(alloc, parts.as_slice());
        drop(parts);
        rows
    }

    fn of_node(alloc: Global, node: &Arc<Node>) -> Result<Vec<Arc<Row<P>>>, AllocError> {
        let parts = P::of_node(alloc, node)?;
        let rows = rows_of(alloc, parts.as_slice());
        drop(parts);
        rows
    }
}
