//! The first line of a journal.

ghost use Rattle.std.specs.Prelude.{◌≡◌, ◌≢◌, ◌++◌, ◌∷◌, ◌&&◌, [], List, ℕ, Some, codes, decimal, nat_le, IsTrue, IfOk, IfErr, IfSome, IfNone};
ghost use Rattle.std.specs.Str.{bytes_eq};
ghost use Rattle.sg_history.specs.BadLine.{IsBadJournal, IsTitle};
ghost use Rattle.sg_history.specs.Journal.{header_of, is_limit, title_of};
ghost use Rattle.sg_history.specs.Pieces.{pieces};

use crate::fault::Why;
use crate::field::text_of;
use crate::pieces::cut;
use sg_names::read_decimal;
use sg_outside::Bytes;

/// A journal without its first line, and the limit that this says.
#[derive(Clone, Copy)]
pub struct Header<'a> {
    pub limit: Option<u32>,
    pub lines: &'a [u8],
}

/// The first line of a journal without a limit.
const PLAIN: &str = "sgjournal 1";

/// The words of a first line that says a limit.
const WORDS: &str = "sgjournal 2 ";

fn is_plain(line: &[u8]) -> bool
    ensures { result ≡ bytes_eq line.now (codes "sgjournal 1") }
{
    line == PLAIN.as_bytes()
}

fn words() -> &'static [u8]
    ensures { result.now ≡ codes "sgjournal 2 " }
{
    WORDS.as_bytes()
}

/// What stands behind the words of a first line that says a limit.
fn behind_words(line: &[u8]) -> Option<&[u8]>
    ensures some { IfSome result (λ rest. line.now ≡ codes "sgjournal 2 " ++ rest.now) }
    ensures none { IfNone result ((rest : List ℕ) → line.now ≢ codes "sgjournal 2 " ++ rest) }
{
    line.strip_prefix(words())
}

fn is_in_range(n: u64) -> bool
    ensures { result ≡ (nat_le 20 n && nat_le n 1000) }
{
    n >= 20 && n <= 1_000
}

/// The limit that a text says as a decimal.
fn limit_in(text: &str) -> Option<u32>
    ensures some { IfSome result
        (λ n. IsTrue (is_limit (Some n)) × (text.now ≡ decimal n)) }
    ensures none { IfNone result
        ((n : ℕ) → IsTrue (is_limit (Some n)) → text.now ≢ decimal n) }
{
    let n = read_decimal(text)?;
    if !is_in_range(n) {
        return None;
    }
    Some(n as u32)
}

/// The same of bytes.
fn read_limit(bytes: &[u8]) -> Option<u32>
    ensures some { IfSome result
        (λ n. IsTrue (is_limit (Some n)) × (bytes.now ≡ decimal n)) }
    ensures none { IfNone result
        ((n : ℕ) → IsTrue (is_limit (Some n)) → bytes.now ≢ decimal n) }
{
    match text_of(bytes) {
        Ok(text) => limit_in(text),
        Err(_) => None,
    }
}

/// The limit that a first line says, without its line feed; none where it is no first line.
pub fn read_title(line: &[u8]) -> Option<Option<u32>>
    ensures some { IfSome result (λ limit. IsTrue (is_limit limit) × (line.now ≡ title_of limit)) }
    ensures none { IfNone result (¬ (IsTitle line.now)) }
{
    if is_plain(line) {
        return Some(None);
    }
    let rest = behind_words(line)?;
    let limit = read_limit(rest)?;
    Some(Some(limit))
}

/// What is wrong with a first line that has no line feed.
fn fault_of_title(line: &[u8]) -> Why
    requires { pieces 10 line.now ≡ line.now ∷ [] }
    ensures { IsBadJournal line.now (record { place = 1; why = result }) }
{
    match read_title(line) {
        Some(_) => Why::Ending,
        None => Why::Head,
    }
}

/// Reads the first line of a journal, or says what is wrong with it: `Head`, where it is no such line, else `Ending`.
pub fn read_header(bytes: &[u8]) -> Result<Header<'_>, Why>
    ensures limit { IfOk result (λ header. IsTrue (is_limit header.limit)) }
    ensures ok { IfOk result
        (λ header. bytes.now ≡ header_of header.limit ++ header.lines.now) }
    ensures bad { IfErr result
        (λ why. IsBadJournal bytes.now (record { place = 1; why = why })) }
{
    let Some((line, lines)) = cut(bytes, b'\n') else {
        return Err(fault_of_title(bytes));
    };
    match read_title(line) {
        Some(limit) => Ok(Header { limit, lines }),
        None => Err(Why::Head),
    }
}

/// The limit that the first line of a journal says, and the lines behind it.
pub fn take_header(bytes: Bytes) -> Result<(Option<u32>, Bytes), Why>
    ensures limit { IfOk result (λ p. IsTrue (is_limit p.0)) }
    ensures ok { IfOk result (λ p. bytes ≡ header_of p.0 ++ p.1) }
    ensures bad { IfErr result (λ why. IsBadJournal bytes (record { place = 1; why = why })) }
{
    let (limit, left) = match read_header(bytes.as_slice()) {
        Ok(header) => (header.limit, header.lines.len()),
        Err(why) => return Err(why),
    };
    let passed = bytes.len() - left;
    let mut lines = bytes;
    lines.drop_front(passed);
    Ok((limit, lines))
}
