//! What a text is printed by, token by token.

ghost use Rattle.std.specs.Prelude.{◌≡◌, ◌++◌, chars, flat_map, OnOk, IfOk, string_bytes};
ghost use Rattle.sync_tokens.specs.declared.token.Kind.TheVariants as kinds;
ghost use Rattle.sync_print.specs.Printing as printing;
ghost use Rattle.sync_print.specs.Spelling as spec;

use crate::Memory;
use crate::spelling::{sign_text, word_text};
use itoa::Buffer;
use json_doc::DocText;
use std::alloc::Global;
use sync_tokens::{Sign, Word};

/// What stands last in a text, as far as the next token's space goes.
#[derive(Clone, Copy)]
pub(crate) enum Last {
    /// Nothing, or a sign that no space follows.
    Opening,
    /// What may be called or indexed.
    Callable,
    Other,
}

/// A text that grows token by token.
#[derive(Drop)]
pub(crate) struct Printer {
    pub text: DocText,
    pub last: Last,
}

/// What a sign leaves last.
fn left_by(sign: Sign) -> Last
    ensures { result ≡ spec.left_by_sign sign }
{
    match sign {
        Sign::ParenOpen | Sign::BracketOpen | Sign::Dot => Last::Opening,
        Sign::ParenClose | Sign::BracketClose => Last::Callable,
        _ => Last::Other,
    }
}

/// Whether no space stands before a sign.
fn joins(last: Last, sign: Sign) -> bool
    ensures { result ≡ spec.joins_sign last sign }
{
    match last {
        Last::Opening => true,
        Last::Callable => follows_all(sign) || follows_callable(sign),
        Last::Other => follows_all(sign),
    }
}

fn follows_all(sign: Sign) -> bool
    ensures { result ≡ spec.follows_all sign }
{
    matches!(
        sign,
        Sign::ParenClose
            | Sign::BracketClose
            | Sign::Comma
            | Sign::Semicolon
            | Sign::Colon
            | Sign::Dot
    )
}

fn follows_callable(sign: Sign) -> bool
    ensures { result ≡ spec.follows_callable sign }
{
    matches!(sign, Sign::ParenOpen | Sign::BracketOpen)
}

/// Whether a space stands before a token that is no sign.
fn is_opening(last: Last) -> bool
    ensures { result ≡ spec.is_opening last }
{
    matches!(last, Last::Opening)
}

/// A character of a text as it stands in quotes.
fn push_escaped(out: &mut String, c: char) -> Result<(), Memory>
    ensures { OnOk result (string_bytes out.new ≡ string_bytes out.old ++ spec.escaped c) }
{
    match c {
        '\\' => out.push_str("\\\\"),
        '"' => out.push_str("\\\""),
        '\n' => out.push_str("\\n"),
        _ => out.push(c),
    }
}

fn push_all_escaped(out: &mut String, chars: &[char]) -> Result<(), Memory>
    ensures { OnOk result (string_bytes out.new
        ≡ string_bytes out.old ++ flat_map spec.escaped chars.now) }
{
    let mut left = chars;
    while let [c, rest @ ..] = left {
        push_escaped(out, *c)?;
        left = rest;
    }
    Ok(())
}

#[tactic(auto, using(std::proofs::lemmas::Str::chars_from_encodes))]
fn characters(alloc: Global, text: &str) -> Result<Vec<char>, Memory>
    ensures { IfOk result (λ all. all.items ≡ chars text.now) }
{
    text.chars().collect(alloc)
}

/// A text in quotes.
#[tactic(auto, unfolding(crate::specs::Spelling::quoted))]
fn quoted(alloc: Global, text: &str) -> Result<String, Memory>
    ensures { IfOk result (λ made. string_bytes made ≡ spec.quoted text.now) }
{
    let chars = characters(alloc, text)?;
    let mut out = String::from_str(alloc, "\"")?;
    push_all_escaped(&mut out, chars.as_slice())?;
    out.push_str("\"")?;
    Ok(out)
}

impl Printer {
    /// Nothing yet.
    pub fn new(alloc: Global) -> Printer
        ensures { result ≡ printing.nothing }
    {
        Printer {
            text: DocText::new(alloc),
            last: Last::Opening,
        }
    }

    #[tactic(auto, unfolding(crate::specs::Spelling::put_text))]
    fn put(&mut self, joins: bool, text: &str, last: Last) -> Result<(), Memory>
        ensures { OnOk result (self.new ≡ spec.put_text joins text.now last self.old) }
    {
        if !joins {
            self.text.push_str(" ")?;
        }
        self.text.push_str(text)?;
        self.last = last;
        Ok(())
    }

    pub fn sign(&mut self, sign: Sign) -> Result<(), Memory>
        ensures { OnOk result (self.new ≡ spec.put (kinds.Sign sign) self.old) }
    {
        self.put(joins(self.last, sign), sign_text(sign), left_by(sign))
    }

    pub fn word(&mut self, word: Word) -> Result<(), Memory>
        ensures { OnOk result (self.new ≡ spec.put (kinds.Word word) self.old) }
    {
        self.put(is_opening(self.last), word_text(word), Last::Other)
    }

    pub fn name(&mut self, name: &DocText) -> Result<(), Memory>
        ensures { OnOk result (self.new ≡ spec.put (kinds.Name name.now) self.old) }
    {
        self.put(is_opening(self.last), name.as_str(), Last::Callable)
    }

    pub fn integer(&mut self, n: u64) -> Result<(), Memory>
        ensures { OnOk result (self.new ≡ spec.put (kinds.Integer n) self.old) }
    {
        let mut buffer = Buffer::new();
        self.put(is_opening(self.last), buffer.format(n), Last::Callable)
    }

    pub fn text(&mut self, alloc: Global, text: &DocText) -> Result<(), Memory>
        ensures { OnOk result (self.new ≡ spec.put (kinds.Text text.now) self.old) }
    {
        let text = quoted(alloc, text.as_str())?;
        self.put(is_opening(self.last), text.as_str(), Last::Callable)
    }
}
