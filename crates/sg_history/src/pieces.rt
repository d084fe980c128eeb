//! The fields of a line, which are parted by TABs.

ghost use Rattle.std.specs.Prelude.{◌≡◌, ◌++◌, ◌∷◌, ◌<◌, ◌≤◌, ◌+◌, [], map, take, length, IsTrue, IfSome, IfNone, MatchOption};
ghost use Rattle.sg_names.specs.Grammar.{lacks};
ghost use Rattle.sg_history.specs.Pieces.{pieces};

use memchr::{memchr, memchr_iter};

/// What stands before and after the first such byte.
pub fn cut(text: &[u8], at: u8) -> Option<(&[u8], &[u8])>
    ensures some { IfSome result (λ p. (text.now ≡ p.0.now ++ at ∷ p.1.now)
        × IsTrue (lacks at p.0.now)) }
    ensures none { IfNone result (IsTrue (lacks at text.now)) }
    ensures pieces { MatchOption result (pieces at text.now ≡ text.now ∷ [])
        (λ p. pieces at text.now ≡ p.0.now ∷ pieces at p.1.now) }
{
    let place = memchr(at, text)?;
    Some((&text[..place], &text[place + 1..]))
}

/// Puts the fields of a line at the front of `into`, and says how many they are; none where they are more than fit.
pub fn fields_of<'a>(line: &'a [u8], into: &mut [&'a [u8]]) -> Option<usize>
    ensures within { IfSome result (λ n. n ≤ length into.old) }
    ensures room { length into.new ≡ length into.old }
    ensures all { IfSome result (λ n. map (λ p. p.now) (take n into.new) ≡ pieces 9 line.now) }
    ensures more { IfNone result (length into.old < length (pieces 9 line.now)) }
{
    let mut rest = line;
    for i in 0..into.len() {
        match cut(rest, b'\t') {
            Some((front, back)) => {
                into[i] = front;
                rest = back;
            }
            None => {
                into[i] = rest;
                return Some(i + 1);
            }
        }
    }
    None
}

/// How many fields a line has.
pub fn field_count(line: &[u8]) -> usize
    ensures { result ≡ length (pieces 9 line.now) }
{
    memchr_iter(b'\t', line).count() + 1
}
