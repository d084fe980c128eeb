//! The tree of a program. A node's place is that of its first character.

use json_doc::DocText;
use sqlite_items::{Boxed, Items};
use sync_tokens::Place;

/// An operator between operands, by how loosely it binds: `||` the loosest, `*` the tightest.
#[derive(Clone, Copy, Debug, PartialEq, Eq)]
pub enum Operator {
    Or,
    And,
    Equal,
    NotEqual,
    Same,
    NotSame,
    Less,
    LessOrEqual,
    Greater,
    GreaterOrEqual,
    Add,
    Subtract,
    Multiply,
}

/// An operator before its operand: `!`, `-` or `typeof`.
#[derive(Clone, Copy, Debug, PartialEq, Eq)]
pub enum Prefix {
    Not,
    Negate,
    Typeof,
}

/// An expression. One that begins with another has that one's place.
#[cycle(tree)]
#[derive(Drop)]
pub enum Expr {
    Undefined(Place),
    Null(Place),
    Bool(Place, bool),
    Integer(Place, u64),
    Text(Place, DocText),
    Name(Place, DocText),
    List(Place, Items<Expr>),
    Object(Place, Items<(DocText, Expr)>),
    Prefix(Place, Prefix, Boxed<Expr>),
    /// What follows an expression, from left to right; at least one.
    Postfix(Boxed<Expr>, Items<Suffix>),
    /// Operators that bind alike with their right operands, from left to right; at least one.
    Chain(Boxed<Expr>, Items<(Operator, Expr)>),
    /// `condition ? yes : no`
    Choice(Boxed<Expr>, Boxed<Expr>, Boxed<Expr>),
}

/// What may follow an expression.
#[cycle(tree)]
#[derive(Drop)]
pub enum Suffix {
    /// `.name`
    Member(DocText),
    /// `[expression]`
    Index(Expr),
    /// `(arguments)`
    Call(Items<Expr>),
}

/// A name where it is declared, and its place.
#[derive(Drop)]
pub struct Named {
    pub place: Place,
    pub name: DocText,
}

/// How variables are declared.
#[derive(Clone, Copy, Debug, PartialEq, Eq)]
pub enum Declares {
    Var,
    Let,
    Const,
}

/// Variables that are declared together, each with the value that it is given.
#[derive(Drop)]
pub struct Declaration {
    pub place: Place,
    pub declares: Declares,
    pub names: Items<(Named, Option<Boxed<Expr>>)>,
}

/// How a variable is written.
#[derive(Clone, Copy, PartialEq, Eq)]
pub enum Writes {
    Set,
    Add,
    Subtract,
}

/// A statement that may stand in the head of a `for`.
#[derive(Drop)]
pub enum Simple {
    /// `name = value`, `name += value` or `name -= value`
    Write(Named, Writes, Boxed<Expr>),
    /// `name++`
    Increment(Named),
    /// `name--`
    Decrement(Named),
    Value(Place, Expr),
}

/// How a `for` begins.
#[derive(Drop)]
pub enum Start {
    Declare(Declaration),
    Simple(Simple),
}

#[derive(Drop)]
pub enum Statement {
    Block(Place, Items<Statement>),
    /// `;`
    Empty(Place),
    Declare(Declaration),
    If(Place, Boxed<Expr>, Boxed<Statement>, Option<Boxed<Statement>>),
    For(Place, Option<Boxed<Start>>, Option<Boxed<Expr>>, Option<Boxed<Simple>>, Boxed<Statement>),
    ForOf(Place, Declares, Named, Boxed<Expr>, Boxed<Statement>),
    Return(Place, Option<Boxed<Expr>>),
    Throw(Place, Expr),
    Break(Place),
    Continue(Place),
    Simple(Simple),
}

/// A function of one or two parameters, with the place of its body.
#[derive(Drop)]
pub struct Program {
    pub name: Option<DocText>,
    pub first: Named,
    pub second: Option<Named>,
    pub place: Place,
    pub body: Items<Statement>,
}
