use crate::place::{Place, SyntaxWhy};
use json_doc::DocText;

/// A token and the place of its first character.
#[derive(Debug, Drop)]
pub struct Token {
    pub place: Place,
    pub kind: Kind,
}

/// What a token is. The last token of a text is `End` or `Bad`, and no other is.
#[derive(Debug, Drop)]
pub enum Kind {
    /// A word that is not reserved.
    Name(DocText),
    Integer(u64),
    /// A text in quotes, as what it stands for.
    Text(DocText),
    Word(Word),
    Sign(Sign),
    /// The end of the text.
    End,
    /// Characters that are no token.
    Bad(SyntaxWhy),
}

/// A reserved word: each that a rule names, and `Other` for one that no rule names.
#[derive(Clone, Copy, Debug, PartialEq, Eq)]
pub enum Word {
    Function,
    If,
    Else,
    For,
    Var,
    Let,
    Const,
    Of,
    Return,
    Throw,
    Break,
    Continue,
    Typeof,
    True,
    False,
    Null,
    Undefined,
    Other,
}

/// A sign: a bracket, a separator or an operator.
#[derive(Clone, Copy, Debug, PartialEq, Eq)]
pub enum Sign {
    ParenOpen,
    ParenClose,
    BraceOpen,
    BraceClose,
    BracketOpen,
    BracketClose,
    Comma,
    Semicolon,
    Colon,
    Dot,
    Question,
    Assign,
    PlusAssign,
    MinusAssign,
    Increment,
    Decrement,
    Plus,
    Minus,
    Star,
    Not,
    Or,
    And,
    Equal,
    NotEqual,
    Same,
    NotSame,
    Less,
    LessOrEqual,
    Greater,
    GreaterOrEqual,
}
