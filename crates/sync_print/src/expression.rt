//! Expressions.

ghost use Rattle.std.specs.Prelude.{◌≡◌, ◌≤◌, map, OnOk};
ghost use Rattle.sync_syntax.specs.Operators.{level};
ghost use Rattle.sync_print.specs.Spelling.{prefix_kind, put, put_all};
ghost use Rattle.sync_print.specs.Trees as spec;
ghost use Rattle.sync_print.specs.Trees.{spelled, spelled_suffix};

use crate::Memory;
use crate::printer::Printer;
use crate::spelling::operator_sign;
use json_doc::DocText;
use std::alloc::Global;
use sync_syntax::tree::{Expr, Operator, Prefix, Suffix};
use sync_tokens::{Sign, Word};

/// An expression that can have something behind it.
pub(crate) const PRIMARY: u8 = 0;

/// An operand of a prefix operator.
pub(crate) const UNARY: u8 = 1;

/// Any expression.
pub(crate) const ANY: u8 = 8;

/// How loosely an expression binds: at most so much as its place allows, or it stands in
/// parentheses.
fn level_of(expr: &Expr) -> u8
    ensures { result ≡ (spelled expr.now).level }
{
    match expr {
        Expr::Prefix(_, _, _) | Expr::Postfix(_, _) => UNARY,
        Expr::Chain(_, tails) => operand_level(tails.as_slice()) + 1,
        Expr::Choice(_, _, _) => ANY,
        _ => PRIMARY,
    }
}

/// How loosely the operands of operators may bind.
fn operand_level(tails: &[(Operator, Expr)]) -> u8
    ensures small { result ≤ 7 }
    ensures value { result ≡ spec.operand_level (map (λ t. (t.0, spelled t.1)) tails.now) }
{
    match tails {
        [tail, ..] => operator_level(tail.0),
        [] => ANY - 1,
    }
}

/// How loosely an operator binds, from 1 for `*` to 6 for `||`.
#[tactic(auto, unfolding(sync_syntax::specs::Operators::level))]
fn operator_level(op: Operator) -> u8
    ensures small { result ≤ 7 }
    ensures value { result ≡ level op }
{
    match op {
        Operator::Or => 6,
        Operator::And => 5,
        Operator::Equal | Operator::NotEqual | Operator::Same | Operator::NotSame => 4,
        Operator::Less | Operator::LessOrEqual | Operator::Greater | Operator::GreaterOrEqual => 3,
        Operator::Add | Operator::Subtract => 2,
        Operator::Multiply => 1,
    }
}

/// Whether an object stands leftmost in an expression.
pub(crate) fn begins_with_object(expr: &Expr) -> bool
    ensures { result ≡ (spelled expr.now).object_first }
{
    match expr {
        Expr::Object(_, _) => true,
        Expr::Postfix(first, _) | Expr::Chain(first, _) | Expr::Choice(first, _, _) => {
            begins_with_object(first.get())
        }
        _ => false,
    }
}

fn put_prefix(out: &mut Printer, op: Prefix) -> Result<(), Memory>
    ensures { OnOk result (out.new ≡ put (prefix_kind op) out.old) }
{
    match op {
        Prefix::Not => out.sign(Sign::Not),
        Prefix::Negate => out.sign(Sign::Minus),
        Prefix::Typeof => out.word(Word::Typeof),
    }
}

#[tactic(auto, using(crate::proofs::Puts::put_both))]
fn put_truth(out: &mut Printer, truth: bool) -> Result<(), Memory>
    ensures { OnOk result (out.new ≡ put_all (spec.word (spec.truth truth)) out.old) }
{
    out.word(if truth { Word::True } else { Word::False })
}

/// A comma, but for the first of a list.
pub(crate) fn put_comma(out: &mut Printer, first: bool) -> Result<(), Memory>
    ensures { OnOk result (out.new ≡ put_all (spec.comma first) out.old) }
{
    if first { Ok(()) } else { out.sign(Sign::Comma) }
}

/// An expression, in parentheses where it binds more loosely than this.
#[cycle(print)]
#[tactic(auto, using(crate::proofs::Puts::put_both))]
pub(crate) fn put_within(
    alloc: Global,
    out: &mut Printer,
    level: u8,
    expr: &Expr,
) -> Result<(), Memory>
    ensures { OnOk result (out.new ≡ put_all (spec.within level (spelled expr.now)) out.old) }
{
    if level_of(expr) <= level {
        put_expr(alloc, out, expr)
    } else {
        out.sign(Sign::ParenOpen)?;
        put_expr(alloc, out, expr)?;
        out.sign(Sign::ParenClose)
    }
}

#[cycle(print)]
#[tactic(auto, using(crate::proofs::Puts::put_both))]
pub(crate) fn put_expr(alloc: Global, out: &mut Printer, expr: &Expr) -> Result<(), Memory>
    ensures { OnOk result (out.new ≡ put_all (spec.expr expr.now) out.old) }
{
    match expr {
        Expr::Undefined(_) => out.word(Word::Undefined),
        Expr::Null(_) => out.word(Word::Null),
        Expr::Bool(_, truth) => put_truth(out, *truth),
        Expr::Integer(_, n) => out.integer(*n),
        Expr::Text(_, text) => out.text(alloc, text),
        Expr::Name(_, name) => out.name(name),
        Expr::List(_, exprs) => {
            out.sign(Sign::BracketOpen)?;
            put_exprs(alloc, out, exprs.as_slice())?;
            out.sign(Sign::BracketClose)
        }
        Expr::Object(_, members) => {
            out.sign(Sign::BraceOpen)?;
            put_members(alloc, out, members.as_slice())?;
            out.sign(Sign::BraceClose)
        }
        Expr::Prefix(_, op, operand) => {
            put_prefix(out, *op)?;
            put_within(alloc, out, UNARY, operand.get())
        }
        Expr::Postfix(first, suffixes) => {
            put_within(alloc, out, PRIMARY, first.get())?;
            put_suffixes(alloc, out, suffixes.as_slice())
        }
        Expr::Chain(first, tails) => {
            let level = operand_level(tails.as_slice());
            put_within(alloc, out, level, first.get())?;
            put_tails(alloc, out, level, tails.as_slice())
        }
        Expr::Choice(condition, first, other) => {
            put_within(alloc, out, ANY - 1, condition.get())?;
            out.sign(Sign::Question)?;
            put_expr(alloc, out, first.get())?;
            out.sign(Sign::Colon)?;
            put_expr(alloc, out, other.get())
        }
    }
}

/// Expressions with commas between.
#[cycle(print)]
#[tactic(auto, using(crate::proofs::Puts::put_both))]
fn put_exprs(alloc: Global, out: &mut Printer, exprs: &[Expr]) -> Result<(), Memory>
    ensures { OnOk result (out.new ≡ put_all (spec.listed (map spelled exprs.now)) out.old) }
{
    let mut first = true;
    for expr in exprs {
        put_comma(out, first)?;
        put_expr(alloc, out, expr)?;
        first = false;
    }
    Ok(())
}

/// Members with commas between.
#[cycle(print)]
#[tactic(auto, using(crate::proofs::Puts::put_both))]
fn put_members(alloc: Global, out: &mut Printer, members: &[(DocText, Expr)]) -> Result<(), Memory>
    ensures { OnOk result (out.new
        ≡ put_all (spec.members (map (λ m. (m.0, spelled m.1)) members.now)) out.old) }
{
    let mut first = true;
    for member in members {
        put_comma(out, first)?;
        out.text(alloc, &member.0)?;
        out.sign(Sign::Colon)?;
        put_expr(alloc, out, &member.1)?;
        first = false;
    }
    Ok(())
}

#[cycle(print)]
#[tactic(auto, using(crate::proofs::Puts::put_both))]
fn put_suffixes(alloc: Global, out: &mut Printer, suffixes: &[Suffix]) -> Result<(), Memory>
    ensures { OnOk result (out.new
        ≡ put_all (spec.suffixes (map spelled_suffix suffixes.now)) out.old) }
{
    for suffix in suffixes {
        put_suffix(alloc, out, suffix)?;
    }
    Ok(())
}

#[cycle(print)]
#[tactic(auto, using(crate::proofs::Puts::put_both))]
fn put_suffix(alloc: Global, out: &mut Printer, suffix: &Suffix) -> Result<(), Memory>
    ensures { OnOk result (out.new ≡ put_all (spelled_suffix suffix.now) out.old) }
{
    match suffix {
        Suffix::Member(name) => {
            out.sign(Sign::Dot)?;
            out.name(name)
        }
        Suffix::Index(expr) => {
            out.sign(Sign::BracketOpen)?;
            put_expr(alloc, out, expr)?;
            out.sign(Sign::BracketClose)
        }
        Suffix::Call(exprs) => {
            out.sign(Sign::ParenOpen)?;
            put_exprs(alloc, out, exprs.as_slice())?;
            out.sign(Sign::ParenClose)
        }
    }
}

#[cycle(print)]
#[tactic(auto, using(crate::proofs::Puts::put_both))]
fn put_tails(
    alloc: Global,
    out: &mut Printer,
    level: u8,
    tails: &[(Operator, Expr)],
) -> Result<(), Memory>
    ensures { OnOk result (out.new
        ≡ put_all (spec.tails level (map (λ t. (t.0, spelled t.1)) tails.now)) out.old) }
{
    for tail in tails {
        out.sign(operator_sign(tail.0))?;
        put_within(alloc, out, level, &tail.1)?;
    }
    Ok(())
}
