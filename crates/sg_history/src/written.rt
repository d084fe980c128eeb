//! The revisions that were written so far.
//!
//! They are kept in order, so that no choice of names makes a look dear. A number that is made of the digest stands first in
//! each key: two keys differ in it but by chance, so their texts are hardly ever compared.

ghost use Rattle.std.specs.Prelude.{◌≡◌, ◌||◌, [], not, List, ℕ, IfOk, OnOk};
ghost use Rattle.sg_names.specs.declared.rev_id.RevId.{RevId};
ghost use Rattle.sg_history.specs.inner.Written.{digest_number, has, is_rev_of};

use sg_names::{DocId, RevId};
use std::alloc::{AllocError, Global};
use std::collections::BTreeSet;
use std::marker::Model;

/// A number that is made of all bytes of a digest.
fn digest_number(digest: &[u8]) -> u64
    ensures { result ≡ digest_number 0 digest.now }
{
    let mut number: u64 = 0;
    for byte in digest {
        number = number.wrapping_mul(31).wrapping_add(*byte as u64);
    }
    number
}

/// The key of a document's revision.
fn key_of<'a>(doc: &'a DocId, rev: &'a RevId) -> (u64, &'a [u8], u32, &'a [u8])
    ensures number { result.0 ≡ digest_number 0 rev.now.digest }
    ensures doc { result.1.now ≡ doc.now }
    ensures generation { result.2 ≡ rev.now.generation }
    ensures digest { result.3.now ≡ rev.now.digest }
{
    let digest = rev.digest.as_bytes();
    (
        digest_number(digest),
        doc.as_bytes(),
        rev.generation,
        digest,
    )
}

/// Revisions of documents, each once. Their texts are borrowed.
#[derive(Drop)]
pub struct Written<'a> {
    keys: BTreeSet<(u64, &'a [u8], u32, &'a [u8])>,
}

impl<'a> Model for Written<'a> {
    ghost use Rattle.std.specs.Prelude.{List, map};
    ghost use Rattle.sg_history.specs.inner.Written.{DocRev, AreNumbered};

    ghost Value = { List DocRev };

    ghost view = { λ w. map (λ k. record { doc = k.1.now; rev = record { generation = k.2; digest = k.3.now } }) w.keys.keys };

    ghost invariant = { λ w. AreNumbered w.keys.keys };
}

impl<'a> Written<'a> {
    /// None. Allocates nothing.
    pub fn new(alloc: Global) -> Written<'a>
        ensures { result ≡ [] }
    {
        Written {
            keys: BTreeSet::new(alloc),
        }
    }

    /// Whether the revision of the document is there.
    pub fn has(&self, doc: &'a DocId, rev: &'a RevId) -> bool
        ensures { result ≡ has self.now doc.now rev.now }
    {
        self.keys.contains(&key_of(doc, rev))
    }

    /// Puts a revision in, and says whether it was not there before.
    pub fn insert(&mut self, doc: &'a DocId, rev: &'a RevId) -> Result<bool, AllocError>
        ensures added { IfOk result (λ added. added ≡ not (has self.old doc.now rev.now)) }
        ensures ok { OnOk result ((other : List ℕ) (r : RevId) → has self.new other r
            ≡ (is_rev_of (record { doc = doc.now; rev = rev.now }) other r
            || has self.old other r)) }
    {
        Ok(self.keys.insert(key_of(doc, rev))?)
    }
}
