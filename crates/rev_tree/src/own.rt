//! The revision that the gateway makes itself.

ghost use Rattle.std.specs.Prelude.{◌≡◌, ◌++◌, ◌∷◌, ◌+◌, ◌<◌, length, IfOk, IsTrue};
ghost use Rattle.std.specs.Option.{option_copied};
ghost use Rattle.md5.specs.Md5.{md5};
ghost use Rattle.hex.specs.Hex.{encode_lower};
ghost use Rattle.sg_names.specs.Grammar.{is_digest};
ghost use Rattle.sg_names.specs.RevId.{is_rev};
ghost use Rattle.rev_tree.specs.OwnRev as own;

use md5::{Digest as _, Md5};
use sg_names::{Digest, RevId, TextFault};
use sg_outside::{Bytes, Memory};
use std::alloc::{AllocError, Global};

/// `1` for deleted, else `0`.
fn mark_of(deleted: bool) -> u8
    ensures { result ≡ own.deleted_mark deleted }
{
    if deleted { b'1' } else { b'0' }
}

/// The text of a parent, empty where there is none.
fn parent_text(alloc: Global, parent: Option<&RevId>) -> Result<Bytes, AllocError>
    ensures { IfOk result (λ text. text ≡ own.parent_text (option_copied parent.entry)) }
{
    let mut text = Bytes::new(alloc);
    if let Some(parent) = parent {
        parent.write(&mut text)?;
    }
    Ok(text)
}

/// The digest of a parent's text, a zero byte, the deleted mark, a zero byte, and the body.
fn digest_of(parent: &[u8], deleted: bool, body: &[u8]) -> [u8; 16]
    ensures { result ≡ md5 (parent.now ++ 0 ∷ own.deleted_mark deleted ∷ 0 ∷ body.now) }
{
    let mut hasher = Md5::new();
    hasher.update(parent);
    hasher.update([0, mark_of(deleted), 0]);
    hasher.update(body);
    hasher.finalize()
}

/// The digest that is the hexadecimal text of 16 bytes.
fn hex_digest(alloc: Global, bytes: &[u8]) -> Result<Digest, AllocError>
    requires { length bytes.now ≡ 16 }
    ensures value { IfOk result (λ digest. digest ≡ encode_lower bytes.now) }
    ensures grammar { IfOk result (λ digest. IsTrue (is_digest digest)) }
{
    let text = hex::encode(alloc, bytes)?;
    match Digest::parse(alloc, text.as_str()) {
        Ok(digest) => Ok(digest),
        Err(TextFault::Memory) => Err(AllocError),
        Err(TextFault::Bad) => unreachable!(),
    }
}

fn next_generation(parent: Option<&RevId>) -> u32
    requires { own.generation_of (option_copied parent) < 4294967295 }
    ensures { result ≡ own.generation_of (option_copied parent.entry) + 1 }
{
    match parent {
        None => 1,
        Some(parent) => parent.generation + 1,
    }
}

/// The revision that the gateway makes itself of a body under a parent: one generation above the parent,
/// or 1, and as digest the MD5 (RFC 1321) in 32 lower-case hexadecimal digits of the parent's text (empty
/// if there is none), a zero byte, `0` or `1` for deleted, a zero byte, and the body.
#[tactic(auto, unfolding(crate::specs::OwnRev::own_rev_of))]
pub fn own_rev(
    alloc: Global,
    parent: Option<&RevId>,
    deleted: bool,
    body: &[u8],
) -> Result<RevId, Memory>
    requires { own.generation_of (option_copied parent) < 4294967295 }
    ensures value { IfOk result (λ rev. rev ≡ own.own_rev_of
        (option_copied parent.entry) deleted body.now) }
    ensures grammar { IfOk result (λ rev. IsTrue (is_rev rev)) }
{
    let text = parent_text(alloc, parent)?;
    Ok(RevId {
        generation: next_generation(parent),
        digest: hex_digest(alloc, &digest_of(text.as_slice(), deleted, body))?,
    })
}
