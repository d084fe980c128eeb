//! Revisions that a device offers, and what is answered.

ghost use Rattle.std.specs.Prelude.{◌≡◌, ◌++◌, ◌∷◌, [], OnOk, OnErr};

use rev_tree::Leaf;
use sg_history::{DocId, RevId, Revs};
use std::alloc::{AllocError, Global};
use std::marker::Model;

/// A revision of a document that a device has, with its parent where the device names one.
#[derive(Drop)]
pub struct Offer {
    pub doc: DocId,
    pub rev: RevId,
    pub parent: Option<RevId>,
}

/// A list of offers.
#[derive(Drop)]
pub struct Offers {
    items: Vec<Offer>,
}

impl Model for Offers {
    ghost use Rattle.std.specs.Prelude.{List};
    ghost use Rattle.repl_messages.specs.declared.offers.Offer.{Offer};

    ghost Value = { List Offer };

    ghost view = { λ l. l.items.items };
}

impl Offers {
    /// None. Allocates nothing.
    pub fn new(alloc: Global) -> Offers
        ensures { result ≡ [] }
    {
        Offers {
            items: Vec::new(alloc),
        }
    }

    /// The list of a vector's items. Allocates nothing.
    pub fn from_vec(items: Vec<Offer>) -> Offers
        ensures { result ≡ items.items }
    {
        Offers { items }
    }

    /// The vector of the items. Allocates nothing.
    pub fn into_vec(self) -> Vec<Offer>
        ensures { result.items ≡ self }
    {
        self.items
    }

    pub fn as_slice(&self) -> &[Offer]
        ensures { result.now ≡ self.now }
    {
        self.items.as_slice()
    }

    pub fn push(&mut self, item: Offer) -> Result<(), AllocError>
        ensures ok { OnOk result (self.new ≡ self.old ++ item ∷ []) }
        ensures err { OnErr result (self.new ≡ self.old) }
    {
        self.items.push(item)?;
        Ok(())
    }
}

/// What is answered for an offer.
#[derive(Drop)]
pub struct OfferAnswer {
    /// Whether the document's tree has the revision.
    pub known: bool,
    /// The winner of the document; none where it has no revision.
    pub winner: Option<Leaf>,
    /// Whether the offer names a parent.
    pub parent: bool,
    /// Whether it names the winner as its parent.
    pub parent_wins: bool,
    /// The leaves below the offered revision from which it may descend, by falling generation, then by falling digest; none
    /// where it is known.
    pub ancestors: Revs,
}

/// A list of such answers.
#[derive(Drop)]
pub struct OfferAnswers {
    items: Vec<OfferAnswer>,
}

impl Model for OfferAnswers {
    ghost use Rattle.std.specs.Prelude.{List};
    ghost use Rattle.repl_messages.specs.declared.offers.OfferAnswer.{OfferAnswer};

    ghost Value = { List OfferAnswer };

    ghost view = { λ l. l.items.items };
}

impl OfferAnswers {
    /// None. Allocates nothing.
    pub fn new(alloc: Global) -> OfferAnswers
        ensures { result ≡ [] }
    {
        OfferAnswers {
            items: Vec::new(alloc),
        }
    }

    /// The list of a vector's items. Allocates nothing.
    pub fn from_vec(items: Vec<OfferAnswer>) -> OfferAnswers
        ensures { result ≡ items.items }
    {
        OfferAnswers { items }
    }

    /// The vector of the items. Allocates nothing.
    pub fn into_vec(self) -> Vec<OfferAnswer>
        ensures { result.items ≡ self }
    {
        self.items
    }

    pub fn as_slice(&self) -> &[OfferAnswer]
        ensures { result.now ≡ self.now }
    {
        self.items.as_slice()
    }

    pub fn push(&mut self, item: OfferAnswer) -> Result<(), AllocError>
        ensures ok { OnOk result (self.new ≡ self.old ++ item ∷ []) }
        ensures err { OnErr result (self.new ≡ self.old) }
    {
        self.items.push(item)?;
        Ok(())
    }
}

/// What a look for offers answers: one answer an offer, in the order of the offers. `front` is the length of the history
/// that was looked at.
#[derive(Drop)]
pub struct Asked {
    pub front: u64,
    pub answers: OfferAnswers,
}
