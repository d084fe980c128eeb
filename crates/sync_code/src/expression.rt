//! The code of expressions.

ghost use Rattle.std.specs.Prelude.{◌≡◌, ◌&&◌, IfOk};
ghost use Rattle.sync_code.specs.Code.{all_fit, fits, fits_or_none, member_sources, members_fit, operand_sources, operands_fit, slot_fits, source, source_or_none, sources, tail_fits, tail_source, tail_sources, tails_fit};
ghost use Rattle.sync_code.specs.Made.{IsCode};

use crate::Memory;
use crate::both::both;
use crate::code::{Code, Tail};
use crate::slots::Slots;
use json_doc::DocText;
use sqlite_items::{Boxed, Items};
use std::alloc::Global;
use sync_meaning::{Scope, Slot};
use sync_syntax::tree::{Expr, Operator, Suffix};

/// The variable that a name stands for.
pub(crate) fn slot_of(
    alloc: Global,
    slots: &mut Slots,
    scope: &Scope,
    name: &DocText,
) -> Result<Slot, Memory>
    ensures { IfOk result (λ made. IsCode made.name name.now (slot_fits made scope.now)) }
{
    slots.slot(alloc, name, scope.number_of(name))
}

/// The code of an expression.
#[cycle(compile)]
pub(crate) fn code_of(
    alloc: Global,
    slots: &mut Slots,
    scope: &Scope,
    expr: &Expr,
) -> Result<Code, Memory>
    ensures { IfOk result (λ made. IsCode (source made) expr.now (fits made scope.now)) }
{
    match expr {
        Expr::Undefined(place) => Ok(Code::Undefined(*place)),
        Expr::Null(place) => Ok(Code::Null(*place)),
        Expr::Bool(place, truth) => Ok(Code::Bool(*place, *truth)),
        Expr::Integer(place, n) => Ok(Code::Integer(*place, *n)),
        Expr::Text(place, found) => Ok(Code::Text(*place, slots.literal(alloc, found)?)),
        Expr::Name(place, name) => Ok(Code::Name(*place, slot_of(alloc, slots, scope, name)?)),
        Expr::List(place, exprs) => Ok(Code::List(
            *place,
            codes_of(alloc, slots, scope, exprs.as_slice())?,
        )),
        Expr::Object(place, members) => Ok(Code::Object(
            *place,
            members_of(alloc, slots, scope, members.as_slice())?,
        )),
        Expr::Prefix(place, op, expr) => {
            let code = boxed(alloc, slots, scope, expr.get())?;
            Ok(Code::Prefix(*place, *op, code))
        }
        Expr::Postfix(first, suffixes) => {
            let first = boxed(alloc, slots, scope, first.get())?;
            let tails = tails_of(alloc, slots, scope, suffixes.as_slice());
            let (first, tails) = both(first, tails)?;
            Ok(Code::Postfix(first, tails))
        }
        Expr::Chain(first, tails) => {
            let first = boxed(alloc, slots, scope, first.get())?;
            let operands = operands_of(alloc, slots, scope, tails.as_slice());
            let (first, operands) = both(first, operands)?;
            Ok(Code::Chain(first, operands))
        }
        Expr::Choice(condition, first, other) => {
            let condition = boxed(alloc, slots, scope, condition.get())?;
            let first = boxed(alloc, slots, scope, first.get());
            let begun = both(condition, first)?;
            let other = boxed(alloc, slots, scope, other.get());
            let ((condition, first), other) = both(begun, other)?;
            Ok(Code::Choice(condition, first, other))
        }
    }
}

#[cycle(compile)]
pub(crate) fn boxed(
    alloc: Global,
    slots: &mut Slots,
    scope: &Scope,
    expr: &Expr,
) -> Result<Boxed<Code>, Memory>
    ensures { IfOk result (λ made. IsCode (source made) expr.now (fits made scope.now)) }
{
    let code = code_of(alloc, slots, scope, expr)?;
    Boxed::new(alloc, code)
}

#[cycle(compile)]
fn codes_of(
    alloc: Global,
    slots: &mut Slots,
    scope: &Scope,
    exprs: &[Expr],
) -> Result<Items<Code>, Memory>
    ensures { IfOk result (λ made. IsCode (sources made) exprs.now (all_fit made scope.now)) }
{
    let mut made = Items::new(alloc);
    for expr in exprs {
        made.push(code_of(alloc, slots, scope, expr)?)?;
    }
    Ok(made)
}

#[cycle(compile)]
fn member_of(
    alloc: Global,
    slots: &mut Slots,
    scope: &Scope,
    name: &DocText,
    expr: &Expr,
) -> Result<(DocText, Code), Memory>
    ensures name { IfOk result (λ made. made.0 ≡ name.now) }
    ensures code { IfOk result (λ made. IsCode (source made.1) expr.now (fits made.1 scope.now)) }
{
    let name = name.copy(alloc)?;
    let code = code_of(alloc, slots, scope, expr)?;
    Ok((name, code))
}

#[cycle(compile)]
fn members_of(
    alloc: Global,
    slots: &mut Slots,
    scope: &Scope,
    members: &[(DocText, Expr)],
) -> Result<Items<(DocText, Code)>, Memory>
    ensures { IfOk result (λ made. IsCode (member_sources made) members.now
        (members_fit made scope.now)) }
{
    let mut made = Items::new(alloc);
    for member in members {
        made.push(member_of(alloc, slots, scope, &member.0, &member.1)?)?;
    }
    Ok(made)
}

#[cycle(compile)]
fn tail_of(alloc: Global, slots: &mut Slots, scope: &Scope, suffix: &Suffix) -> Result<Tail, Memory>
    ensures { IfOk result (λ made. IsCode (tail_source made) suffix.now
        (tail_fits made scope.now)) }
{
    match suffix {
        Suffix::Member(name) => Ok(Tail::Member(name.copy(alloc)?)),
        Suffix::Index(expr) => Ok(Tail::Index(code_of(alloc, slots, scope, expr)?)),
        Suffix::Call(exprs) => Ok(Tail::Call(codes_of(alloc, slots, scope, exprs.as_slice())?)),
    }
}

#[cycle(compile)]
fn tails_of(
    alloc: Global,
    slots: &mut Slots,
    scope: &Scope,
    suffixes: &[Suffix],
) -> Result<Items<Tail>, Memory>
    ensures { IfOk result (λ made. IsCode (tail_sources made) suffixes.now
        (tails_fit made scope.now)) }
{
    let mut made = Items::new(alloc);
    for suffix in suffixes {
        made.push(tail_of(alloc, slots, scope, suffix)?)?;
    }
    Ok(made)
}

#[cycle(compile)]
fn operands_of(
    alloc: Global,
    slots: &mut Slots,
    scope: &Scope,
    tails: &[(Operator, Expr)],
) -> Result<Items<(Operator, Code)>, Memory>
    ensures { IfOk result (λ made. IsCode (operand_sources made) tails.now
        (operands_fit made scope.now)) }
{
    let mut made = Items::new(alloc);
    for tail in tails {
        made.push((tail.0, code_of(alloc, slots, scope, &tail.1)?))?;
    }
    Ok(made)
}

/// The code of an expression that may be absent.
pub(crate) fn code_or_none(
    alloc: Global,
    slots: &mut Slots,
    scope: &Scope,
    expr: &Option<Boxed<Expr>>,
) -> Result<Option<Boxed<Code>>, Memory>
    ensures { IfOk result (λ made. IsCode (source_or_none made) expr.now
        (fits_or_none made scope.now)) }
{
    match expr {
        Some(expr) => Ok(Some(boxed(alloc, slots, scope, expr.get())?)),
        None => Ok(None),
    }
}
