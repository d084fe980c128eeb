//! The code of a program. It has the tree's form, and nests as deep as the tree.

use json_doc::DocText;
use sqlite_items::{Boxed, Items};
use sync_meaning::{Literal, Slot};
use sync_syntax::tree::{Declares, Operator, Prefix, Writes};
use sync_tokens::Place;

/// An expression.
#[cycle(code)]
#[derive(Drop)]
pub enum Code {
    Undefined(Place),
    Null(Place),
    Bool(Place, bool),
    Integer(Place, u64),
    Text(Place, Literal),
    Name(Place, Slot),
    List(Place, Items<Code>),
    Object(Place, Items<(DocText, Code)>),
    Prefix(Place, Prefix, Boxed<Code>),
    /// What follows an expression, from left to right; at least one.
    Postfix(Boxed<Code>, Items<Tail>),
    /// Operators that bind alike with their right operands, from left to right; at least one.
    Chain(Boxed<Code>, Items<(Operator, Code)>),
    /// `condition ? yes : no`
    Choice(Boxed<Code>, Boxed<Code>, Boxed<Code>),
}

/// What may follow an expression.
#[cycle(code)]
#[derive(Drop)]
pub enum Tail {
    /// `.name`
    Member(DocText),
    /// `[expression]`
    Index(Code),
    /// `(arguments)`
    Call(Items<Code>),
}

/// A variable where it is declared or written, and its place.
#[derive(Drop)]
pub struct Held {
    pub place: Place,
    pub slot: Slot,
}

/// Variables that are declared together, each with the value that it is given.
#[derive(Drop)]
pub struct Opening {
    pub place: Place,
    pub declares: Declares,
    pub names: Items<(Held, Option<Boxed<Code>>)>,
}

/// A statement that may stand in the head of a `for`.
#[derive(Drop)]
pub enum Plain {
    /// `name = value`, `name += value` or `name -= value`
    Write(Held, Writes, Boxed<Code>),
    /// `name++`
    Increment(Held),
    /// `name--`
    Decrement(Held),
    Value(Place, Code),
}

/// How a `for` begins.
#[derive(Drop)]
pub enum Begin {
    Declare(Opening),
    Simple(Plain),
}

/// A statement.
#[derive(Drop)]
pub enum Step {
    Block(Place, Items<Step>),
    /// `;`
    Empty(Place),
    Declare(Opening),
    If(Place, Boxed<Code>, Boxed<Step>, Option<Boxed<Step>>),
    For(Place, Option<Boxed<Begin>>, Option<Boxed<Code>>, Option<Boxed<Plain>>, Boxed<Step>),
    ForOf(Place, Declares, Held, Boxed<Code>, Boxed<Step>),
    Return(Place, Option<Boxed<Code>>),
    Throw(Place, Code),
    Break(Place),
    Continue(Place),
    Simple(Plain),
}
