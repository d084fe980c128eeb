//! What is answered for a revision that a device offers.

ghost use Rattle.std.specs.Prelude.{◌≡◌, IfOk};
ghost use Rattle.std.specs.Option.{option_copied};
ghost use Rattle.doc_board.specs.Offers as offers;

use repl_messages::{Offer, OfferAnswer};
use rev_tree::{Leaf, Tree};
use sg_history::{RevId, Revs};
use sg_outside::Memory;
use std::alloc::{AllocError, Global};

/// The most leaves that are answered for an offer.
const MOST_LEAVES: usize = 20;

/// The revisions from which one may descend.
fn may_descend_from(tree: &Tree, rev: &RevId) -> Result<Revs, Memory>
    ensures { IfOk result (λ revs. revs ≡ offers.may_descend_from tree.now rev.now) }
{
    tree.leaves_below(rev.generation, MOST_LEAVES)
}

fn copy_of(alloc: Global, leaf: Option<&Leaf>) -> Result<Option<Leaf>, AllocError>
    ensures { IfOk result (λ copy. copy ≡ option_copied leaf.entry) }
{
    match leaf {
        None => Ok(None),
        Some(leaf) => Ok(Some(leaf.copy(alloc)?)),
    }
}

/// Whether the winner's revision is the parent that is named.
fn wins(winner: Option<&Leaf>, parent: &Option<RevId>) -> bool
    ensures { result ≡ offers.wins (option_copied winner.entry) parent.now }
{
    match (winner, parent) {
        (Some(winner), Some(parent)) => parent.equals(&winner.rev),
        _ => false,
    }
}

fn answer_by(alloc: Global, tree: &Tree, offer: &Offer) -> Result<OfferAnswer, AllocError>
    ensures { IfOk result (λ answer. answer ≡ offers.offer_answer tree.now offer.now) }
{
    let known = tree.knows(&offer.rev);
    let ancestors = if known {
        Revs::new(alloc)
    } else {
        may_descend_from(tree, &offer.rev)?
    };
    match copy_of(alloc, tree.winner()) {
        Ok(winner) => Ok(OfferAnswer {
            known,
            winner,
            parent: offer.parent.is_some(),
            parent_wins: wins(tree.winner(), &offer.parent),
            ancestors,
        }),
        Err(error) => {
            drop(ancestors);
            Err(error)
        }
    }
}

/// What is answered for an offer by the tree of its document; none where the document was never written.
pub fn answer_offer(
    alloc: Global,
    tree: Option<&Tree>,
    offer: &Offer,
) -> Result<OfferAnswer, Memory>
    ensures { IfOk result (λ answer. answer ≡ offers.offer_answer
        (offers.nodes_or_none (option_copied tree.entry)) offer.now) }
{
    let empty = Tree::new(alloc);
    let tree = match tree {
        None => &empty,
        Some(tree) => tree,
    };
    let answer = answer_by(alloc, tree, offer);
    drop(empty);
    answer
}
