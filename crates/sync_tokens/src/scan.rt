ghost use Rattle.std.specs.Prelude.{◌≡◌, ◌≤◌, ◌<◌, ◌∷◌, length, IfOk, chars};
ghost use Rattle.sync_tokens.specs.Scan as spec;
ghost use Rattle.sync_tokens.specs.Scan.{Lays};
ghost use Rattle.sync_tokens.specs.Spellable.{AreTokens};

use crate::Memory;
use crate::blank::{comment_len, is_space, line_len};
use crate::literal::{digits_len, integer_kind, text_at};
use crate::place::{Place, SyntaxWhy};
use crate::sign::sign_at;
use crate::token::{Kind, Token};
use crate::word::{is_letter, word_kind, word_len};
use std::alloc::Global;

/// What stands at a place of a text: so many characters that are no token, a token of so many
/// characters, or the last token.
#[derive(Debug, Drop)]
pub(crate) enum Piece {
    Blank(usize),
    Token(Kind, usize),
    Last(Kind),
}

fn bad_text() -> Piece
    ensures { result ≡ spec.bad_text }
{
    Piece::Last(Kind::Bad(SyntaxWhy::BadText))
}

fn word(alloc: Global, all: &[char]) -> Result<Piece, Memory>
    ensures { IfOk result (λ piece. piece ≡ spec.word all.now) }
{
    let len = word_len(all);
    Ok(Piece::Token(word_kind(alloc, &all[..len])?, len))
}

fn integer(all: &[char]) -> Piece
    ensures { result ≡ spec.integer all.now }
{
    let len = digits_len(all);
    match integer_kind(&all[..len]) {
        Kind::Bad(why) => Piece::Last(Kind::Bad(why)),
        kind => Piece::Token(kind, len),
    }
}

fn text(alloc: Global, quote: char, more: &[char]) -> Result<Piece, Memory>
    ensures { IfOk result (λ piece. piece ≡ spec.text quote more.now) }
{
    match text_at(alloc, quote, more)? {
        Some((text, len)) => Ok(Piece::Token(Kind::Text(text), len.saturating_add(1))),
        None => Ok(bad_text()),
    }
}

fn sign(all: &[char]) -> Piece
    ensures { result ≡ spec.sign all.now }
{
    match sign_at(all) {
        Some((sign, len)) => Piece::Token(Kind::Sign(sign), len),
        None => bad_text(),
    }
}

/// What a slash begins, by the characters behind it.
#[tactic(auto, unfolding(crate::specs::Scan::slash))]
fn slash(more: &[char]) -> Piece
    ensures { result ≡ spec.slash more.now }
{
    match more {
        ['/', line @ ..] => Piece::Blank(line_len(line).saturating_add(2)),
        ['*', comment @ ..] => match comment_len(comment) {
            Some(len) => Piece::Blank(len.saturating_add(2)),
            None => bad_text(),
        },
        _ => bad_text(),
    }
}

/// What stands at the front of a text.
#[tactic(auto, unfolding(crate::specs::Scan::piece_at))]
fn piece_at(alloc: Global, all: &[char]) -> Result<Piece, Memory>
    ensures { IfOk result (λ piece. piece ≡ spec.piece_at all.now) }
{
    let [first, more @ ..] = all else {
        return Ok(Piece::Last(Kind::End));
    };
    let first = *first;
    if is_space(first) {
        Ok(Piece::Blank(1))
    } else if is_letter(first) {
        word(alloc, all)
    } else if first.is_ascii_digit() {
        Ok(integer(all))
    } else if first == '\'' || first == '"' {
        text(alloc, first, more)
    } else if first == '/' {
        Ok(slash(more))
    } else {
        Ok(sign(all))
    }
}

/// Adds the token of a piece, and gives how many more characters the piece has; none where it is the
/// last.
fn lay(all: &mut Vec<Token>, place: Place, piece: Piece) -> Result<Option<usize>, Memory>
    ensures { Lays place piece all.old.items all.new.items result }
{
    match piece {
        Piece::Blank(len) => Ok(Some(len.saturating_sub(1))),
        Piece::Token(kind, len) => {
            all.push(Token { place, kind })?;
            Ok(Some(len.saturating_sub(1)))
        }
        Piece::Last(kind) => {
            all.push(Token { place, kind })?;
            Ok(None)
        }
    }
}

fn tokens_in(alloc: Global, text: &[char]) -> Result<Vec<Token>, Memory>
    ensures { IfOk result (λ all. all.items ≡ spec.tokens_in text.now) }
{
    let mut all = Vec::new(alloc);
    let mut place = Place::START;
    let mut left: usize = 0;
    for (at, c) in text.iter().enumerate() {
        if left > 0 {
            left -= 1;
        } else {
            let piece = piece_at(alloc, &text[at..])?;
            match lay(&mut all, place, piece)? {
                Some(more) => left = more,
                None => return Ok(all),
            }
        }
        place = place.step(*c);
    }
    all.push(Token {
        place,
        kind: Kind::End,
    })?;
    Ok(all)
}

#[tactic(auto, using(std::proofs::lemmas::Str::chars_from_encodes))]
fn characters(alloc: Global, text: &str) -> Result<Vec<char>, Memory>
    ensures { IfOk result (λ all. all.items ≡ chars text.now) }
{
    text.chars().collect(alloc)
}

/// The tokens of a text, as far as the first characters that are no token. The last is `End` or
/// `Bad`.
#[tactic(auto, unfolding(crate::specs::Scan::tokens_of))]
pub fn tokens(alloc: Global, text: &str) -> Result<Vec<Token>, Memory>
    ensures exact { IfOk result (λ all. all.items ≡ spec.tokens_of text.now) }
    ensures spellable { IfOk result (λ all. AreTokens all.items) }
{
    let chars = characters(alloc, text)?;
    tokens_in(alloc, chars.as_slice())
}
