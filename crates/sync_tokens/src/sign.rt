ghost use Rattle.std.specs.Prelude.{◌≡◌, ◌≤◌, length, map, IfSome};
ghost use Rattle.sync_tokens.specs.Signs as spec;

use crate::token::Sign;

/// The signs, a longer one before those that it begins with.
pub const SIGNS: [(&[char], Sign); 30] = [
    (&['=', '=', '='], Sign::Same),
    (&['!', '=', '='], Sign::NotSame),
    (&['=', '='], Sign::Equal),
    (&['!', '='], Sign::NotEqual),
    (&['<', '='], Sign::LessOrEqual),
    (&['>', '='], Sign::GreaterOrEqual),
    (&['+', '='], Sign::PlusAssign),
    (&['-', '='], Sign::MinusAssign),
    (&['+', '+'], Sign::Increment),
    (&['-', '-'], Sign::Decrement),
    (&['|', '|'], Sign::Or),
    (&['&', '&'], Sign::And),
    (&['('], Sign::ParenOpen),
    (&[')'], Sign::ParenClose),
    (&['{'], Sign::BraceOpen),
    (&['}'], Sign::BraceClose),
    (&['['], Sign::BracketOpen),
    (&[']'], Sign::BracketClose),
    (&[','], Sign::Comma),
    (&[';'], Sign::Semicolon),
    (&[':'], Sign::Colon),
    (&['.'], Sign::Dot),
    (&['?'], Sign::Question),
    (&['='], Sign::Assign),
    (&['<'], Sign::Less),
    (&['>'], Sign::Greater),
    (&['+'], Sign::Plus),
    (&['-'], Sign::Minus),
    (&['*'], Sign::Star),
    (&['!'], Sign::Not),
];

fn lookup(mut table: &[(&[char], Sign)], chars: &[char]) -> Option<(Sign, usize)>
    ensures { result ≡ spec.lookup_sign (map (λ k. (k.0.now, k.1)) table.entry.now) chars.now }
{
    while let [entry, rest @ ..] = table {
        if chars.starts_with(entry.0) {
            return Some((entry.1, entry.0.len()));
        }
        table = rest;
    }
    None
}

/// The longest sign at the front, and how many characters it has.
#[tactic(auto, unfolding(crate::specs::Signs::sign_at))]
pub(crate) fn sign_at(chars: &[char]) -> Option<(Sign, usize)>
    ensures { result ≡ spec.sign_at chars.now }
{
    lookup(&SIGNS, chars)
}
