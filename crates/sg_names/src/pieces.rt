//! Pieces of a text.

ghost use Rattle.std.specs.Prelude.{◌≡◌, ◌<◌, ◌++◌, ◌∷◌, List, ℕ, length, take, map, ◌==◌, IsTrue, IfOk, IfSome, IfNone, OnOk, OnErr};
ghost use Rattle.std.specs.Ordering.{nat_cmp, ordering_then};
ghost use Rattle.std.specs.Cmp.Lexicographic.{slice_cmp};
ghost use Rattle.std.specs.List.{flat_map, slice_split};
ghost use Rattle.sg_names.specs.Grammar.{lacks};

use sg_outside::{Bytes, Memory};
use std::cmp::Ordering;

/// Puts the pieces at the end, up to one for which there is no memory.
fn append_while(pieces: &[&[u8]], out: &mut Bytes) -> Result<(), Memory>
    ensures ok { OnOk result (out.new ≡ out.old ++ flat_map (λ p. p.now) pieces.now) }
    ensures err { OnErr result (take (length out.old) out.new ≡ out.old) }
{
    for piece in pieces {
        out.extend_from_slice(piece)?;
    }
    Ok(())
}

/// Puts the pieces at the end, one after another: all of them, or at an error none.
pub fn append(pieces: &[&[u8]], out: &mut Bytes) -> Result<(), Memory>
    ensures ok { OnOk result (out.new ≡ out.old ++ flat_map (λ p. p.now) pieces.now) }
    ensures err { OnErr result (out.new ≡ out.old) }
{
    let start = out.len();
    let appended = append_while(pieces, out);
    if appended.is_err() {
        out.truncate(start);
    }
    appended
}

/// What stands before and after the first `at`, which is an ASCII character.
pub fn cut(text: &str, at: char) -> Option<(&str, &str)>
    requires { at < 128 }
    ensures some { IfSome result (λ p. (text.now ≡ p.0.now ++ at ∷ p.1.now)
        × IsTrue (lacks at p.0.now)) }
    ensures none { IfNone result (IsTrue (lacks at text.now)) }
{
    text.split_once(at)
}

/// The order of two texts by what stands before the first `=`, then by what stands behind it; of texts without one, equal.
pub fn order_at_equals(one: &str, other: &str) -> Ordering
    ensures { (front back first rest : List ℕ) → one.now ≡ front ++ 61 ∷ back
        → IsTrue (lacks 61 front)
        → other.now ≡ first ++ 61 ∷ rest → IsTrue (lacks 61 first)
        → result ≡ ordering_then (slice_cmp nat_cmp front first) (slice_cmp nat_cmp back rest) }
{
    match (cut(one, '='), cut(other, '=')) {
        (Some((front, back)), Some((first, rest))) => {
            let fronts = front.as_bytes().cmp(first.as_bytes());
            fronts.then(back.as_bytes().cmp(rest.as_bytes()))
        }
        _ => Ordering::Equal,
    }
}
