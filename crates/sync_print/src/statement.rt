//! Statements.

ghost use Rattle.std.specs.Prelude.{◌≡◌, ◌∷◌, ◌++◌, map, OnOk};
ghost use Rattle.sync_tokens.specs.declared.token.Kind.TheVariants as kinds;
ghost use Rattle.sync_tokens.specs.declared.token.Sign.TheVariants as signs;
ghost use Rattle.sync_tokens.specs.declared.token.Word.TheVariants as words;
ghost use Rattle.sync_syntax.specs.declared.tree.Simple.TheVariants as simples;
ghost use Rattle.sync_print.specs.Spelling.{put_all};
ghost use Rattle.sync_print.specs.Trees as spec;
ghost use Rattle.sync_print.specs.Trees.{spelled};

use crate::Memory;
use crate::expression::{begins_with_object, put_comma, put_expr};
use crate::printer::Printer;
use crate::spelling::{declares_word, writes_sign};
use sqlite_items::Boxed;
use std::alloc::Global;
use sync_syntax::tree::{Declaration, Declares, Expr, Named, Simple, Start, Statement, Writes};
use sync_tokens::{Sign, Word};

/// What an expression is given, if it is.
#[tactic(auto, using(crate::proofs::Puts::put_both))]
fn put_given(alloc: Global, out: &mut Printer, value: &Option<Boxed<Expr>>) -> Result<(), Memory>
    ensures { OnOk result (out.new ≡ put_all (spec.given value.now) out.old) }
{
    match value {
        Some(value) => {
            out.sign(Sign::Assign)?;
            put_expr(alloc, out, value.get())
        }
        None => Ok(()),
    }
}

#[tactic(auto, using(crate::proofs::Puts::put_both))]
fn put_declared(
    alloc: Global,
    out: &mut Printer,
    declared: &(Named, Option<Boxed<Expr>>),
) -> Result<(), Memory>
    ensures { OnOk result (out.new ≡ put_all (spec.declared declared.now) out.old) }
{
    out.name(&declared.0.name)?;
    put_given(alloc, out, &declared.1)
}

#[tactic(auto, using(crate::proofs::Puts::put_both))]
fn put_all_declared(
    alloc: Global,
    out: &mut Printer,
    names: &[(Named, Option<Boxed<Expr>>)],
) -> Result<(), Memory>
    ensures { OnOk result (out.new ≡ put_all (spec.all_declared names.now) out.old) }
{
    let mut first = true;
    for declared in names {
        put_comma(out, first)?;
        put_declared(alloc, out, declared)?;
        first = false;
    }
    Ok(())
}

#[tactic(auto, using(crate::proofs::Puts::put_both))]
fn put_declaration(
    alloc: Global,
    out: &mut Printer,
    declaration: &Declaration,
) -> Result<(), Memory>
    ensures { OnOk result (out.new ≡ put_all (spec.declaration declaration.now) out.old) }
{
    out.word(declares_word(declaration.declares))?;
    put_all_declared(alloc, out, declaration.names.as_slice())
}

#[tactic(auto, using(crate::proofs::Puts::put_both))]
fn put_write(
    alloc: Global,
    out: &mut Printer,
    name: &Named,
    how: Writes,
    value: &Expr,
) -> Result<(), Memory>
    ensures { OnOk result (out.new
        ≡ put_all (spec.simple (simples.Write name.now how value.now)) out.old) }
{
    out.name(&name.name)?;
    out.sign(writes_sign(how))?;
    put_expr(alloc, out, value)
}

/// A name and a sign behind it.
#[tactic(auto, using(crate::proofs::Puts::put_both))]
fn put_count(out: &mut Printer, name: &Named, sign: Sign) -> Result<(), Memory>
    ensures { OnOk result (out.new ≡ put_all (kinds.Name name.now.name ∷ spec.sign sign) out.old) }
{
    out.name(&name.name)?;
    out.sign(sign)
}

/// An expression that is a statement, which doesn't begin with a brace.
#[tactic(auto, using(crate::proofs::Puts::put_both))]
fn put_value(alloc: Global, out: &mut Printer, expr: &Expr) -> Result<(), Memory>
    ensures { OnOk result (out.new ≡ put_all (spec.value (spelled expr.now)) out.old) }
{
    if begins_with_object(expr) {
        out.sign(Sign::ParenOpen)?;
        put_expr(alloc, out, expr)?;
        out.sign(Sign::ParenClose)
    } else {
        put_expr(alloc, out, expr)
    }
}

#[tactic(auto, using(crate::proofs::Puts::put_both))]
fn put_simple(alloc: Global, out: &mut Printer, simple: &Simple) -> Result<(), Memory>
    ensures { OnOk result (out.new ≡ put_all (spec.simple simple.now) out.old) }
{
    match simple {
        Simple::Write(name, how, value) => put_write(alloc, out, name, *how, value.get()),
        Simple::Increment(name) => put_count(out, name, Sign::Increment),
        Simple::Decrement(name) => put_count(out, name, Sign::Decrement),
        Simple::Value(_, expr) => put_value(alloc, out, expr),
    }
}

#[tactic(auto, using(crate::proofs::Puts::put_both))]
fn put_last(alloc: Global, out: &mut Printer, simple: &Option<Boxed<Simple>>) -> Result<(), Memory>
    ensures { OnOk result (out.new ≡ put_all (spec.last simple.now) out.old) }
{
    match simple {
        Some(simple) => put_simple(alloc, out, simple.get()),
        None => Ok(()),
    }
}

#[tactic(auto, using(crate::proofs::Puts::put_both))]
fn put_start(alloc: Global, out: &mut Printer, start: &Option<Boxed<Start>>) -> Result<(), Memory>
    ensures { OnOk result (out.new ≡ put_all (spec.start start.now) out.old) }
{
    match start {
        Some(start) => match start.get() {
            Start::Declare(declaration) => put_declaration(alloc, out, declaration),
            Start::Simple(simple) => put_simple(alloc, out, simple),
        },
        None => Ok(()),
    }
}

#[tactic(auto, using(crate::proofs::Puts::put_both))]
fn put_expr_or_none(
    alloc: Global,
    out: &mut Printer,
    expr: &Option<Boxed<Expr>>,
) -> Result<(), Memory>
    ensures { OnOk result (out.new ≡ put_all (spec.expr_or_none expr.now) out.old) }
{
    match expr {
        Some(expr) => put_expr(alloc, out, expr.get()),
        None => Ok(()),
    }
}

/// A condition in parentheses.
#[tactic(auto, using(crate::proofs::Puts::put_both))]
fn put_condition(alloc: Global, out: &mut Printer, expr: &Expr) -> Result<(), Memory>
    ensures { OnOk result (out.new ≡ put_all (spec.parenthesized (spec.expr expr.now)) out.old) }
{
    out.sign(Sign::ParenOpen)?;
    put_expr(alloc, out, expr)?;
    out.sign(Sign::ParenClose)
}

/// What stands in the parentheses of a `for` that counts.
#[tactic(auto, using(crate::proofs::Puts::put_both))]
fn put_head(
    alloc: Global,
    out: &mut Printer,
    start: &Option<Boxed<Start>>,
    condition: &Option<Boxed<Expr>>,
    last: &Option<Boxed<Simple>>,
) -> Result<(), Memory>
    ensures { OnOk result (out.new
        ≡ put_all (spec.parenthesized (spec.head start.now condition.now last.now)) out.old) }
{
    out.sign(Sign::ParenOpen)?;
    put_start(alloc, out, start)?;
    out.sign(Sign::Semicolon)?;
    put_expr_or_none(alloc, out, condition)?;
    out.sign(Sign::Semicolon)?;
    put_last(alloc, out, last)?;
    out.sign(Sign::ParenClose)
}

/// What stands in the parentheses of a `for` over a list.
#[tactic(auto, using(crate::proofs::Puts::put_both))]
fn put_each(
    alloc: Global,
    out: &mut Printer,
    how: Declares,
    name: &Named,
    items: &Expr,
) -> Result<(), Memory>
    ensures { OnOk result (out.new
        ≡ put_all (spec.parenthesized (spec.each how name.now items.now)) out.old) }
{
    out.sign(Sign::ParenOpen)?;
    out.word(declares_word(how))?;
    out.name(&name.name)?;
    out.word(Word::Of)?;
    put_expr(alloc, out, items)?;
    out.sign(Sign::ParenClose)
}

#[tactic(auto, using(crate::proofs::Puts::put_both))]
fn put_jump(out: &mut Printer, word: Word) -> Result<(), Memory>
    ensures { OnOk result (out.new
        ≡ put_all (kinds.Word word ∷ spec.sign signs.Semicolon) out.old) }
{
    out.word(word)?;
    out.sign(Sign::Semicolon)
}

/// A word with what may stand behind it.
#[tactic(auto, using(crate::proofs::Puts::put_both))]
fn put_ending(
    alloc: Global,
    out: &mut Printer,
    word: Word,
    expr: &Option<Boxed<Expr>>,
) -> Result<(), Memory>
    ensures { OnOk result (out.new
        ≡ put_all (kinds.Word word ∷ (spec.expr_or_none expr.now ++ spec.sign signs.Semicolon))
        out.old) }
{
    out.word(word)?;
    put_expr_or_none(alloc, out, expr)?;
    out.sign(Sign::Semicolon)
}

#[tactic(auto, using(crate::proofs::Puts::put_both))]
fn put_throw(alloc: Global, out: &mut Printer, expr: &Expr) -> Result<(), Memory>
    ensures { OnOk result (out.new
        ≡ put_all (kinds.Word words.Throw ∷ (spec.expr expr.now ++ spec.sign signs.Semicolon))
        out.old) }
{
    out.word(Word::Throw)?;
    put_expr(alloc, out, expr)?;
    out.sign(Sign::Semicolon)
}

#[cycle(print)]
#[tactic(auto, using(crate::proofs::Puts::put_both))]
pub(crate) fn put_statement(
    alloc: Global,
    out: &mut Printer,
    statement: &Statement,
) -> Result<(), Memory>
    ensures { OnOk result (out.new ≡ put_all (spec.statement statement.now) out.old) }
{
    match statement {
        Statement::Block(_, statements) => put_block(alloc, out, statements.as_slice()),
        Statement::Empty(_) => out.sign(Sign::Semicolon),
        Statement::Declare(declaration) => {
            put_declaration(alloc, out, declaration)?;
            out.sign(Sign::Semicolon)
        }
        Statement::If(_, condition, first, other) => {
            out.word(Word::If)?;
            put_condition(alloc, out, condition.get())?;
            put_statement(alloc, out, first.get())?;
            match other {
                Some(other) => {
                    out.word(Word::Else)?;
                    put_statement(alloc, out, other.get())
                }
                None => Ok(()),
            }
        }
        Statement::For(_, start, condition, last, body) => {
            out.word(Word::For)?;
            put_head(alloc, out, start, condition, last)?;
            put_statement(alloc, out, body.get())
        }
        Statement::ForOf(_, how, name, items, body) => {
            out.word(Word::For)?;
            put_each(alloc, out, *how, name, items.get())?;
            put_statement(alloc, out, body.get())
        }
        Statement::Return(_, expr) => put_ending(alloc, out, Word::Return, expr),
        Statement::Throw(_, expr) => put_throw(alloc, out, expr),
        Statement::Break(_) => put_jump(out, Word::Break),
        Statement::Continue(_) => put_jump(out, Word::Continue),
        Statement::Simple(simple) => {
            put_simple(alloc, out, simple)?;
            out.sign(Sign::Semicolon)
        }
    }
}

/// Statements in braces.
#[cycle(print)]
#[tactic(auto, using(crate::proofs::Puts::put_both))]
pub(crate) fn put_block(
    alloc: Global,
    out: &mut Printer,
    statements: &[Statement],
) -> Result<(), Memory>
    ensures { OnOk result (out.new
        ≡ put_all (spec.block (map spec.statement statements.now)) out.old) }
{
    out.sign(Sign::BraceOpen)?;
    put_in_turn(alloc, out, statements)?;
    out.sign(Sign::BraceClose)
}

/// Statements one after the other.
#[cycle(print)]
#[tactic(auto, using(crate::proofs::Puts::put_both))]
fn put_in_turn(alloc: Global, out: &mut Printer, statements: &[Statement]) -> Result<(), Memory>
    ensures { OnOk result (out.new
        ≡ put_all (spec.in_turn (map spec.statement statements.now)) out.old) }
{
    for statement in statements {
        put_statement(alloc, out, statement)?;
    }
    Ok(())
}
