ghost use Rattle.std.specs.Prelude.{◌≡◌, ◌≤◌, ◌<◌, ◌^◌, length, IfOk, IfSome, option_map, string_bytes};
ghost use Rattle.sync_tokens.specs.Literals as spec;

use crate::Memory;
use crate::place::SyntaxWhy;
use crate::token::Kind;
use json_doc::DocText;
use std::alloc::Global;

/// The greatest integer.
const MAX_INTEGER: u64 = 9007199254740991;

/// How many digits there are before the first character that is none.
pub(crate) fn digits_len(chars: &[char]) -> usize
    ensures value { result ≡ spec.digits_len chars.now }
    ensures within { result ≤ length chars.now }
{
    for (i, c) in chars.iter().enumerate() {
        if !c.is_ascii_digit() {
            return i;
        }
    }
    chars.len()
}

fn digit(c: char) -> u64
    ensures value { result ≡ spec.digit c }
    ensures below { result < 10 }
{
    match c.to_digit(10) {
        Some(d) => u64::from(d),
        None => 0,
    }
}

/// The number that digits write, or one above the greatest integer where it is above that.
fn number(digits: &[char]) -> u64
    ensures value { result ≡ spec.number digits.now }
{
    let mut n = 0;
    for c in digits {
        n = (10 * n + digit(*c)).min(MAX_INTEGER + 1);
    }
    n
}

/// What digits are: an integer without leading zeros that isn't too great.
pub(crate) fn integer_kind(digits: &[char]) -> Kind
    ensures { result ≡ spec.integer_kind digits.now }
{
    let n = number(digits);
    if has_leading_zero(digits) || n > MAX_INTEGER {
        Kind::Bad(SyntaxWhy::Range)
    } else {
        Kind::Integer(n)
    }
}

fn has_leading_zero(digits: &[char]) -> bool
    ensures { result ≡ spec.has_leading_zero digits.now }
{
    match digits {
        [first, _, ..] => *first == '0',
        _ => false,
    }
}

/// Where in a text a character stands: among plain ones, behind a backslash, or among the digits of
/// `\uXXXX`, of which so many are still to come, with the number that those before it write.
#[derive(Clone, Copy, Debug)]
pub(crate) enum Inside {
    Plain,
    Escape,
    Digits(u32, u32),
}

/// What a character of a text does: it goes on, stands for a character, closes, or is wrong.
#[derive(Clone, Copy, Debug)]
pub(crate) enum Step {
    Goes(Inside),
    Gives(char),
    Closes,
    Fails,
}

fn plain_step(quote: char, c: char) -> Step
    ensures { result ≡ spec.plain_step quote c }
{
    if c == quote {
        Step::Closes
    } else if c == '\n' {
        Step::Fails
    } else if c == '\\' {
        Step::Goes(Inside::Escape)
    } else {
        Step::Gives(c)
    }
}

fn escape_step(c: char) -> Step
    ensures { result ≡ spec.escape_step c }
{
    if c == '\\' || c == '\'' || c == '"' {
        Step::Gives(c)
    } else if c == 'n' {
        Step::Gives('\n')
    } else if c == 't' {
        Step::Gives('\t')
    } else if c == 'r' {
        Step::Gives('\r')
    } else if c == 'u' {
        Step::Goes(Inside::Digits(4, 0))
    } else {
        Step::Fails
    }
}

/// The character with this code, where there is one.
fn coded(code: u32) -> Step
    ensures { result ≡ spec.coded code }
{
    match char::from_u32(code) {
        Some(c) => Step::Gives(c),
        None => Step::Fails,
    }
}

fn digits_step(left: u32, code: u32, c: char) -> Step
    ensures { result ≡ spec.digits_step left code c }
{
    match c.to_digit(16) {
        None => Step::Fails,
        Some(digit) => {
            let code = code % 4096 * 16 + digit;
            if left <= 1 {
                coded(code)
            } else {
                Step::Goes(Inside::Digits(left - 1, code))
            }
        }
    }
}

#[tactic(auto, unfolding(crate::specs::Literals::text_step))]
fn text_step(quote: char, inside: Inside, c: char) -> Step
    ensures { result ≡ spec.text_step quote inside c }
{
    match inside {
        Inside::Plain => plain_step(quote, c),
        Inside::Escape => escape_step(c),
        Inside::Digits(left, code) => digits_step(left, code, c),
    }
}

/// What a text behind its opening quote stands for, and how many characters it has with the quote
/// that closes it.
pub(crate) fn text_at(
    alloc: Global,
    quote: char,
    chars: &[char],
) -> Result<Option<(DocText, usize)>, Memory>
    ensures { IfOk result (λ found. found ≡ spec.literal_at quote chars.now) }
{
    let mut text = String::new(alloc);
    let mut inside = Inside::Plain;
    for (i, c) in chars.iter().enumerate() {
        match text_step(quote, inside, *c) {
            Step::Goes(next) => inside = next,
            Step::Gives(given) => {
                text.push(given)?;
                inside = Inside::Plain;
            }
            Step::Closes => return Ok(Some((DocText::from(text), i + 1))),
            Step::Fails => return Ok(None),
        }
    }
    Ok(None)
}
