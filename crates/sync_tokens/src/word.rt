ghost use Rattle.std.specs.Prelude.{◌≡◌, ◌≤◌, length, IfOk, map, string_bytes};
ghost use Rattle.sync_tokens.specs.Words as spec;

use crate::Memory;
use crate::token::{Kind, Word};
use json_doc::DocText;
use std::alloc::Global;

/// The reserved words.
pub const WORDS: [(&str, Word); 30] = [
    ("function", Word::Function),
    ("if", Word::If),
    ("else", Word::Else),
    ("for", Word::For),
    ("var", Word::Var),
    ("let", Word::Let),
    ("const", Word::Const),
    ("of", Word::Of),
    ("return", Word::Return),
    ("throw", Word::Throw),
    ("break", Word::Break),
    ("continue", Word::Continue),
    ("typeof", Word::Typeof),
    ("true", Word::True),
    ("false", Word::False),
    ("null", Word::Null),
    ("undefined", Word::Undefined),
    ("while", Word::Other),
    ("do", Word::Other),
    ("new", Word::Other),
    ("delete", Word::Other),
    ("in", Word::Other),
    ("switch", Word::Other),
    ("case", Word::Other),
    ("try", Word::Other),
    ("catch", Word::Other),
    ("class", Word::Other),
    ("this", Word::Other),
    ("with", Word::Other),
    ("yield", Word::Other),
];

pub(crate) fn is_letter(c: char) -> bool
    ensures { result ≡ spec.is_letter c }
{
    c.is_ascii_alphabetic() || c == '_' || c == '$'
}

/// How many characters there are before the first that is neither letter nor digit.
pub(crate) fn word_len(chars: &[char]) -> usize
    ensures value { result ≡ spec.word_len chars.now }
    ensures within { result ≤ length chars.now }
{
    for (i, c) in chars.iter().enumerate() {
        if !(is_letter(*c) || c.is_ascii_digit()) {
            return i;
        }
    }
    chars.len()
}

/// The text of these characters.
fn text_of(alloc: Global, chars: &[char]) -> Result<String, Memory>
    ensures { IfOk result (λ text. string_bytes text ≡ spec.utf8 chars.now) }
{
    let mut text = String::new(alloc);
    for c in chars {
        text.push(*c)?;
    }
    Ok(text)
}

fn lookup(mut table: &[(&str, Word)], word: &str) -> Option<Word>
    ensures { result ≡ spec.lookup_word (map (λ k. (k.0.now, k.1)) table.entry.now) word.now }
{
    while let [entry, rest @ ..] = table {
        if entry.0 == word {
            return Some(entry.1);
        }
        table = rest;
    }
    None
}

#[tactic(auto, unfolding(crate::specs::Words::reserved))]
fn reserved(word: &str) -> Option<Word>
    ensures { result ≡ spec.reserved word.now }
{
    lookup(&WORDS, word)
}

/// What a word is: reserved, or a name.
#[tactic(auto, unfolding(crate::specs::Words::word_kind))]
pub(crate) fn word_kind(alloc: Global, chars: &[char]) -> Result<Kind, Memory>
    ensures { IfOk result (λ kind. kind ≡ spec.word_kind chars.now) }
{
    let text = text_of(alloc, chars)?;
    match reserved(text.as_str()) {
        Some(word) => Ok(Kind::Word(word)),
        None => Ok(Kind::Name(DocText::from(text))),
    }
}
