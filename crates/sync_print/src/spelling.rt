//! How signs, words and operators are spelled.

ghost use Rattle.std.specs.Prelude.{◌≡◌};
ghost use Rattle.sync_print.specs.Spelling as spec;

use sync_syntax::tree::{Declares, Operator, Prefix, Writes};
use sync_tokens::{Sign, Word};

pub(crate) fn sign_text(sign: Sign) -> &'static str
    ensures { result.now ≡ spec.sign_text sign }
{
    match sign {
        Sign::ParenOpen => "(",
        Sign::ParenClose => ")",
        Sign::BraceOpen => "{",
        Sign::BraceClose => "}",
        Sign::BracketOpen => "[",
        Sign::BracketClose => "]",
        Sign::Comma => ",",
        Sign::Semicolon => ";",
        Sign::Colon => ":",
        Sign::Dot => ".",
        Sign::Question => "?",
        Sign::Assign => "=",
        Sign::PlusAssign => "+=",
        Sign::MinusAssign => "-=",
        Sign::Increment => "++",
        Sign::Decrement => "--",
        Sign::Plus => "+",
        Sign::Minus => "-",
        Sign::Star => "*",
        Sign::Not => "!",
        Sign::Or => "||",
        Sign::And => "&&",
        Sign::Equal => "==",
        Sign::NotEqual => "!=",
        Sign::Same => "===",
        Sign::NotSame => "!==",
        Sign::Less => "<",
        Sign::LessOrEqual => "<=",
        Sign::Greater => ">",
        Sign::GreaterOrEqual => ">=",
    }
}

pub(crate) fn word_text(word: Word) -> &'static str
    ensures { result.now ≡ spec.word_text word }
{
    match word {
        Word::Function => "function",
        Word::If => "if",
        Word::Else => "else",
        Word::For => "for",
        Word::Var => "var",
        Word::Let => "let",
        Word::Const => "const",
        Word::Of => "of",
        Word::Return => "return",
        Word::Throw => "throw",
        Word::Break => "break",
        Word::Continue => "continue",
        Word::Typeof => "typeof",
        Word::True => "true",
        Word::False => "false",
        Word::Null => "null",
        Word::Undefined => "undefined",
        Word::Other => "yield",
    }
}

pub(crate) fn operator_sign(op: Operator) -> Sign
    ensures { result ≡ spec.operator_sign op }
{
    match op {
        Operator::Or => Sign::Or,
        Operator::And => Sign::And,
        Operator::Equal => Sign::Equal,
        Operator::NotEqual => Sign::NotEqual,
        Operator::Same => Sign::Same,
        Operator::NotSame => Sign::NotSame,
        Operator::Less => Sign::Less,
        Operator::LessOrEqual => Sign::LessOrEqual,
        Operator::Greater => Sign::Greater,
        Operator::GreaterOrEqual => Sign::GreaterOrEqual,
        Operator::Add => Sign::Plus,
        Operator::Subtract => Sign::Minus,
        Operator::Multiply => Sign::Star,
    }
}

pub(crate) fn writes_sign(how: Writes) -> Sign
    ensures { result ≡ spec.writes_sign how }
{
    match how {
        Writes::Set => Sign::Assign,
        Writes::Add => Sign::PlusAssign,
        Writes::Subtract => Sign::MinusAssign,
    }
}

pub(crate) fn declares_word(how: Declares) -> Word
    ensures { result ≡ spec.declares_word how }
{
    match how {
        Declares::Var => Word::Var,
        Declares::Let => Word::Let,
        Declares::Const => Word::Const,
    }
}
