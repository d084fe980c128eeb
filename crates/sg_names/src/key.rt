//! Keys of a feed's rows.

ghost use Rattle.std.specs.Prelude.{◌≡◌, ◌≢◌, ◌↔◌, ◌++◌, ◌∷◌, IsTrue, IfOk, OnOk, OnErr};
ghost use Rattle.sg_names.specs.Grammar.{lacks};
ghost use Rattle.sg_names.specs.Key as keys;
ghost use Rattle.sg_names.specs.Key.{key_cmp, key_text, ReadsKey, IsLowForm, IsBadKey};
ghost use Rattle.sg_names.specs.declared.key.Key.{Key};

use crate::decimal::{is_decimal, read_decimal, write_decimal};
use crate::pieces;
use itoa::Buffer;
use sg_outside::{Bytes, Memory};
use std::cmp::Ordering;

/// The key of a row: `by` is the sequence of the entry by which the document changed, and `seq` the
/// sequence of its last write there. A plain S is the pair (S, S).
#[derive(Clone, Copy, Debug, PartialEq, Eq)]
pub struct Key {
    pub by: u64,
    pub seq: u64,
}

/// Why a text is not read as a key.
#[derive(Clone, Copy, Debug, PartialEq, Eq)]
pub enum KeyFault {
    /// It is `L::S` or `L:T:S`, of decimals: a form that the gateway does not take.
    LowForm,
    /// It is otherwise outside the grammar.
    BadKey,
}

impl Key {
    /// Reads one, in the form `S` or `T:S`. Allocates nothing.
    pub fn parse(text: &str) -> Result<Key, KeyFault>
        ensures ok { IfOk result (λ k. ReadsKey text.now k) }
        ensures read { (k : Key) → ReadsKey text.now k → result ≡ Ok k }
        ensures low_form { (result ≡ Err KeyFault.LowForm) ↔ IsLowForm text.now }
        ensures bad_key { (result ≡ Err KeyFault.BadKey) ↔ IsBadKey text.now }
    {
        find_key(text)
    }

    /// The order of keys: by the first number, then by the second.
    pub fn order(&self, other: &Key) -> Ordering
        ensures { result ≡ key_cmp self.now other.now }
    {
        self.by.cmp(&other.by).then(self.seq.cmp(&other.seq))
    }

    /// Puts the text at the end. An error leaves the bytes as they were.
    pub fn write(&self, out: &mut Bytes) -> Result<(), Memory>
        ensures ok { OnOk result (out.new ≡ out.old ++ key_text self.now) }
        ensures err { OnErr result (out.new ≡ out.old) }
    {
        if self.by == self.seq {
            return write_decimal(self.seq, out);
        }
        let mut by = Buffer::new();
        let mut seq = Buffer::new();
        pieces::append(
            &[
                by.format(self.by).as_bytes(),
                b":",
                seq.format(self.seq).as_bytes(),
            ],
            out,
        )
    }
}

/// Whether the parts, of which the middle one may be empty, are decimals.
fn are_low_parts(low: &str, by: &str, seq: &str) -> bool
    ensures { result ≡ keys.are_low_parts low.now by.now seq.now }
{
    is_decimal(low.as_bytes())
        && (by.is_empty() || is_decimal(by.as_bytes()))
        && is_decimal(seq.as_bytes())
}

/// What the text is read as.
fn find_key(text: &str) -> Result<Key, KeyFault>
    ensures ok { IfOk result (λ k. ReadsKey text.now k) }
    ensures low_form { result ≡ Err KeyFault.LowForm → IsLowForm text.now }
    ensures bad_key { result ≡ Err KeyFault.BadKey → IsBadKey text.now }
{
    match pieces::cut(text, ':') {
        Some((front, back)) => find_pair(front, back),
        None => find_plain(text),
    }
}

/// What a text without `:` is read as.
fn find_plain(text: &str) -> Result<Key, KeyFault>
    requires { IsTrue (lacks 58 text.now) }
    ensures ok { IfOk result (λ k. ReadsKey text.now k) }
    ensures low_form { result ≢ Err KeyFault.LowForm }
    ensures bad_key { result ≡ Err KeyFault.BadKey → IsBadKey text.now }
{
    match read_decimal(text) {
        Some(seq) => Ok(Key { by: seq, seq }),
        None => Err(KeyFault::BadKey),
    }
}

/// What a text is read as that has its first `:` between these parts.
fn find_pair(front: &str, back: &str) -> Result<Key, KeyFault>
    requires { IsTrue (lacks 58 front.now) }
    ensures ok { IfOk result (λ k. ReadsKey (front.now ++ 58 ∷ back.now) k) }
    ensures low_form { result ≡ Err KeyFault.LowForm → IsLowForm (front.now ++ 58 ∷ back.now) }
    ensures bad_key { result ≡ Err KeyFault.BadKey → IsBadKey (front.now ++ 58 ∷ back.now) }
{
    match pieces::cut(back, ':') {
        Some((by, seq)) if are_low_parts(front, by, seq) => Err(KeyFault::LowForm),
        Some(_) => Err(KeyFault::BadKey),
        None => match (read_decimal(front), read_decimal(back)) {
            (Some(by), Some(seq)) if seq >= 1 && seq <= by => Ok(Key { by, seq }),
            _ => Err(KeyFault::BadKey),
        },
    }
}
