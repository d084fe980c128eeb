//! Revisions and lists of them.

ghost use Rattle.std.specs.Prelude.{◌≡◌, ◌≢◌, ◌++◌, ◌∷◌, ◌<◌, ◌≤◌, ◌^◌, List, ℕ, [], ◌↔◌, IsTrue, IfOk, OnOk, OnErr, IfSome, IfNone, decimal};

use crate::decimal::read_decimal;
use crate::fault::TextFault;
use crate::item_list::{self, Item};
use crate::list::List;
use crate::named_texts::Digest;
use crate::{grammar, pieces};
use itoa::Buffer;
use sg_outside::{Bytes, Memory};
use std::alloc::{AllocError, Global};
use std::cmp::Ordering;
use std::marker::Model;

/// A revision: a generation from 1 upward, and a digest. Its text is `GENERATION-DIGEST`.
#[derive(Drop)]
pub struct RevId {
    pub generation: u32,
    pub digest: Digest,
}

impl RevId {
    ghost use Rattle.sg_names.specs.RevId.{same_rev, rev_cmp, rev_text, is_rev};
    ghost use Rattle.sg_names.specs.declared.rev_id.RevId.{RevId};

    /// Reads one: `Bad` where the text is outside the grammar.
    pub fn parse(alloc: Global, text: &str) -> Result<RevId, TextFault>
        ensures ok { IfOk result (λ r. (text.now ≡ rev_text r) × IsTrue (is_rev r)) }
        ensures bad { result ≡ Err TextFault.Bad → (r : RevId) → IsTrue (is_rev r)
            → text.now ≢ rev_text r }
        ensures outside { ((r : RevId) → IsTrue (is_rev r) → text.now ≢ rev_text r)
            → result ≡ Err TextFault.Bad }
    {
        let Some((front, back)) = pieces::cut(text, '-') else {
            return Err(TextFault::Bad);
        };
        let Some(generation) = read_generation(front) else {
            return Err(TextFault::Bad);
        };
        Ok(RevId {
            generation,
            digest: Digest::parse(alloc, back)?,
        })
    }

    /// Whether both are the same revision.
    pub fn equals(&self, other: &RevId) -> bool
        ensures value { result ≡ same_rev self.now other.now }
        ensures same { IsTrue result ↔ (self.now ≡ other.now) }
    {
        self.generation == other.generation && self.digest.equals(&other.digest)
    }

    /// The order by generation, then by the digest's bytes.
    pub fn order(&self, other: &RevId) -> Ordering
        ensures { result ≡ rev_cmp self.now other.now }
    {
        self.generation
            .cmp(&other.generation)
            .then(self.digest.order(&other.digest))
    }

    pub fn copy(&self, alloc: Global) -> Result<RevId, AllocError>
        ensures { IfOk result (λ r. r ≡ self.now) }
    {
        Ok(RevId {
            generation: self.generation,
            digest: self.digest.copy(alloc)?,
        })
    }

    /// Puts the text at the end. An error leaves the bytes as they were.
    pub fn write(&self, out: &mut Bytes) -> Result<(), Memory>
        ensures ok { OnOk result (out.new ≡ out.old ++ rev_text self.now) }
        ensures err { OnErr result (out.new ≡ out.old) }
    {
        let mut buffer = Buffer::new();
        let generation = buffer.format(self.generation).as_bytes();
        pieces::append(&[generation, b"-", self.digest.as_bytes()], out)
    }
}

impl Item for RevId {
    ghost use Rattle.sg_names.specs.RevId.{rev_text, is_rev};

    ghost text = { λ r. rev_text r };

    ghost admits = { λ r. is_rev r };

    fn is_text(piece: &str) -> bool {
        let Some((front, back)) = pieces::cut(piece, '-') else {
            return false;
        };
        let Some(_generation) = read_generation(front) else {
            return false;
        };
        grammar::is_digest(back.as_bytes())
    }

    fn read(alloc: Global, piece: &str) -> Result<RevId, TextFault> {
        RevId::parse(alloc, piece)
    }

    fn duplicate(&self, alloc: Global) -> Result<RevId, AllocError> {
        self.copy(alloc)
    }

    fn print(&self, out: &mut Bytes) -> Result<(), Memory> {
        self.write(out)
    }
}

/// The generation from 1 to 4,294,967,295 of which the text is the decimal.
fn read_generation(text: &str) -> Option<u32>
    ensures some { IfSome result (λ n. (text.now ≡ decimal n) × (1 ≤ n)) }
    ensures none { IfNone result ((n : ℕ) → 1 ≤ n → n < 2 ^ 32 → text.now ≢ decimal n) }
{
    match read_decimal(text) {
        Some(n) if n >= 1 && n <= u32::MAX as u64 => Some(n as u32),
        _ => None,
    }
}

/// A list of revisions.
pub type Revs = List<RevId>;

impl List<RevId> {
    ghost use Rattle.sg_names.specs.Revs.{revs_text, is_revs};
    ghost use Rattle.sg_names.specs.declared.rev_id.RevId.{RevId};

    /// Reads the text of a list: `Bad` where it is outside the grammar.
    pub fn parse(alloc: Global, text: &str) -> Result<Revs, TextFault>
        ensures ok { IfOk result (λ l. (text.now ≡ revs_text l) × IsTrue (is_revs l)) }
        ensures bad { result ≡ Err TextFault.Bad → (l : List RevId) → IsTrue (is_revs l)
            → text.now ≢ revs_text l }
        ensures outside { ((l : List RevId) → IsTrue (is_revs l) → text.now ≢ revs_text l)
            → result ≡ Err TextFault.Bad }
    {
        Ok(List::from_vec(item_list::read_list(alloc, text)?))
    }

    /// Puts the text at the end. An error leaves the bytes as they were.
    pub fn write(&self, out: &mut Bytes) -> Result<(), Memory>
        ensures ok { OnOk result (out.new ≡ out.old ++ revs_text self.now) }
        ensures err { OnErr result (out.new ≡ out.old) }
    {
        item_list::write_list(self.as_slice(), out)
    }
}
