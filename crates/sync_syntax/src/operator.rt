ghost use Rattle.std.specs.Prelude.{◌≡◌};
ghost use Rattle.sync_syntax.specs.Operators as spec;

use crate::tree::{Declares, Operator, Prefix, Writes};
use sync_tokens::{Kind, Sign, Word};

/// The operator between operands that a token is.
#[tactic(auto, unfolding(crate::specs::Operators::operator))]
fn operator(kind: &Kind) -> Option<Operator>
    ensures { result ≡ spec.operator kind.now }
{
    match kind {
        Kind::Sign(sign) => sign_operator(*sign),
        _ => None,
    }
}

fn sign_operator(sign: Sign) -> Option<Operator>
    ensures { result ≡ spec.sign_operator sign }
{
    match sign {
        Sign::Or => Some(Operator::Or),
        Sign::And => Some(Operator::And),
        Sign::Equal => Some(Operator::Equal),
        Sign::NotEqual => Some(Operator::NotEqual),
        Sign::Same => Some(Operator::Same),
        Sign::NotSame => Some(Operator::NotSame),
        Sign::Less => Some(Operator::Less),
        Sign::LessOrEqual => Some(Operator::LessOrEqual),
        Sign::Greater => Some(Operator::Greater),
        Sign::GreaterOrEqual => Some(Operator::GreaterOrEqual),
        Sign::Plus => Some(Operator::Add),
        Sign::Minus => Some(Operator::Subtract),
        Sign::Star => Some(Operator::Multiply),
        _ => None,
    }
}

impl Operator {
    /// How loosely it binds, from 1 for `*` to 6 for `||`.
    #[tactic(auto, unfolding(crate::specs::Operators::level))]
    pub fn level(self) -> u8
        ensures { result ≡ spec.level self }
    {
        match self {
            Operator::Or => 6,
            Operator::And => 5,
            Operator::Equal | Operator::NotEqual | Operator::Same | Operator::NotSame => 4,
            Operator::Less | Operator::LessOrEqual | Operator::Greater | Operator::GreaterOrEqual =>
                3,
            Operator::Add | Operator::Subtract => 2,
            Operator::Multiply => 1,
        }
    }
}

/// The operator of this level that a token is.
#[tactic(auto, unfolding(crate::specs::Operators::operator_at))]
pub(crate) fn operator_at(level: u8, kind: &Kind) -> Option<Operator>
    ensures { result ≡ spec.operator_at level kind.now }
{
    let found = operator(kind)?;
    if found.level() == level {
        Some(found)
    } else {
        None
    }
}

/// The operator before an operand that a token is.
#[tactic(auto, unfolding(crate::specs::Operators::prefix_by))]
pub(crate) fn prefix(kind: &Kind) -> Option<Prefix>
    ensures { result ≡ spec.prefix_by kind.now }
{
    match kind {
        Kind::Sign(Sign::Not) => Some(Prefix::Not),
        Kind::Sign(Sign::Minus) => Some(Prefix::Negate),
        Kind::Word(Word::Typeof) => Some(Prefix::Typeof),
        _ => None,
    }
}

/// How a token declares.
#[tactic(auto, unfolding(crate::specs::Operators::declares_by))]
pub(crate) fn declares_by(kind: &Kind) -> Option<Declares>
    ensures { result ≡ spec.declares_by kind.now }
{
    match kind {
        Kind::Word(Word::Var) => Some(Declares::Var),
        Kind::Word(Word::Let) => Some(Declares::Let),
        Kind::Word(Word::Const) => Some(Declares::Const),
        _ => None,
    }
}

/// What a sign behind a name does to a variable.
#[derive(Clone, Copy)]
pub(crate) enum Writing {
    Sets(Writes),
    Increments,
    Decrements,
}

/// What a token behind a name does to a variable.
#[tactic(auto, unfolding(crate::specs::Operators::writing_by))]
pub(crate) fn writing_by(kind: &Kind) -> Option<Writing>
    ensures { result ≡ spec.writing_by kind.now }
{
    match kind {
        Kind::Sign(Sign::Assign) => Some(Writing::Sets(Writes::Set)),
        Kind::Sign(Sign::PlusAssign) => Some(Writing::Sets(Writes::Add)),
        Kind::Sign(Sign::MinusAssign) => Some(Writing::Sets(Writes::Subtract)),
        Kind::Sign(Sign::Increment) => Some(Writing::Increments),
        Kind::Sign(Sign::Decrement) => Some(Writing::Decrements),
        _ => None,
    }
}

pub(crate) fn is_name(kind: &Kind) -> bool
    ensures { result ≡ spec.is_name_kind kind.now }
{
    matches!(kind, Kind::Name(_))
}
