//! The code of statements.

ghost use Rattle.std.specs.Prelude.{◌≡◌, ◌&&◌, IfOk, OnOk};
ghost use Rattle.sync_syntax.specs.declared.tree.Statement as Statement;
ghost use Rattle.sync_meaning.specs.Variables as spec;
ghost use Rattle.sync_meaning.specs.Variables.{behind, behind_all, started};
ghost use Rattle.sync_code.specs.inner.Heads.{IsOfHead, IsWhileHead};
ghost use Rattle.sync_code.specs.Made.{IsCode};
ghost use Rattle.sync_code.specs.Steps.{step_fits, step_source, step_sources, steps_fit};

use crate::Memory;
use crate::code::{Begin, Code, Held, Plain, Step};
use crate::expression::{boxed, code_of, code_or_none};
use crate::simple::{begin_if_any, declared, opening, plain, plain_if_any};
use crate::slots::Slots;
use sqlite_items::{Boxed, Items};
use std::alloc::Global;
use sync_meaning::Scope;
use sync_syntax::tree::{Declares, Expr, Named, Simple, Start, Statement};
use sync_tokens::Place;

/// The head of a `for`.
#[derive(Drop)]
struct WhileHead {
    begin: Option<Boxed<Begin>>,
    condition: Option<Boxed<Code>>,
    last: Option<Boxed<Plain>>,
}

/// The head of a `for .. of`.
#[derive(Drop)]
struct OfHead {
    held: Held,
    code: Boxed<Code>,
}

/// The code of the head of a `for`, behind which its variables are seen.
fn while_head(
    alloc: Global,
    slots: &mut Slots,
    scope: &mut Scope,
    start: &Option<Boxed<Start>>,
    condition: &Option<Boxed<Expr>>,
    last: &Option<Boxed<Simple>>,
) -> Result<WhileHead, Memory>
    ensures code { IfOk result
        (λ head. IsWhileHead start.now condition.now last.now scope.old head) }
    ensures seen { OnOk result (scope.new ≡ started start.now scope.old) }
{
    let begin = begin_if_any(alloc, slots, scope, start)?;
    let condition = code_or_none(alloc, slots, scope, condition)?;
    let last = plain_if_any(alloc, slots, scope, last)?;
    Ok(WhileHead {
        begin,
        condition,
        last,
    })
}

/// The code of the head of a `for .. of`, behind which its variable is seen.
fn of_head(
    alloc: Global,
    slots: &mut Slots,
    scope: &mut Scope,
    declares: Declares,
    name: &Named,
    expr: &Expr,
) -> Result<OfHead, Memory>
    ensures code { IfOk result (λ head. IsOfHead declares name.now expr.now scope.old head) }
    ensures seen { OnOk result (scope.new ≡ spec.declared declares name.now.name scope.old) }
{
    let held = declared(alloc, slots, scope, declares, name)?;
    let code = boxed(alloc, slots, scope, expr)?;
    scope.declare(alloc, declares, &name.name)?;
    Ok(OfHead { held, code })
}

/// The code of a statement, behind which its variables are seen.
#[cycle(compile)]
fn step_of(
    alloc: Global,
    slots: &mut Slots,
    scope: &mut Scope,
    statement: &Statement,
) -> Result<Step, Memory>
    ensures code { IfOk result (λ made. IsCode (step_source made) statement.now
        (step_fits made scope.old)) }
    ensures seen { OnOk result (scope.new ≡ behind statement.now scope.old) }
{
    match statement {
        Statement::Block(place, found) => block(alloc, slots, scope, *place, found),
        Statement::Empty(place) => Ok(Step::Empty(*place)),
        Statement::Declare(found) => Ok(Step::Declare(opening(alloc, slots, scope, found)?)),
        Statement::If(place, condition, first, last) => {
            let condition = boxed(alloc, slots, scope, condition.get())?;
            let step = boxed_step(alloc, slots, scope, first.get())?;
            match last {
                Some(last) => {
                    let last = boxed_step(alloc, slots, scope, last.get())?;
                    Ok(Step::If(*place, condition, step, Some(last)))
                }
                None => Ok(Step::If(*place, condition, step, None)),
            }
        }
        Statement::For(place, start, condition, last, body) => {
            loop_while(
                alloc,
                slots,
                scope,
                *place,
                start,
                condition,
                last,
                body.get(),
            )
        }
        Statement::ForOf(place, declares, name, expr, body) => {
            let count = scope.seen.len();
            let OfHead { held, code } = of_head(alloc, slots, scope, *declares, name, expr.get())?;
            match boxed_step(alloc, slots, scope, body.get()) {
                Ok(body) => {
                    scope.leave(count);
                    Ok(Step::ForOf(*place, *declares, held, code, body))
                }
                Err(error) => {
                    drop(held);
                    Err(error)
                }
            }
        }
        Statement::Return(place, expr) => {
            Ok(Step::Return(*place, code_or_none(alloc, slots, scope, expr)?))
        }
        Statement::Throw(place, expr) => {
            Ok(Step::Throw(*place, code_of(alloc, slots, scope, expr)?))
        }
        Statement::Break(place) => Ok(Step::Break(*place)),
        Statement::Continue(place) => Ok(Step::Continue(*place)),
        Statement::Simple(found) => Ok(Step::Simple(plain(alloc, slots, scope, found)?)),
    }
}

#[cycle(compile)]
fn boxed_step(
    alloc: Global,
    slots: &mut Slots,
    scope: &mut Scope,
    statement: &Statement,
) -> Result<Boxed<Step>, Memory>
    ensures code { IfOk result (λ made. IsCode (step_source made) statement.now
        (step_fits made scope.old)) }
    ensures seen { OnOk result (scope.new ≡ behind statement.now scope.old) }
{
    let step = step_of(alloc, slots, scope, statement)?;
    Boxed::new(alloc, step)
}

/// The code of statements in turn, each of which sees what is declared before it.
#[cycle(compile)]
pub(crate) fn steps_of(
    alloc: Global,
    slots: &mut Slots,
    scope: &mut Scope,
    statements: &[Statement],
) -> Result<Items<Step>, Memory>
    ensures code { IfOk result (λ made. IsCode (step_sources made) statements.now
        (steps_fit made scope.old)) }
    ensures seen { OnOk result (scope.new ≡ behind_all statements.now scope.old) }
{
    let mut made = Items::new(alloc);
    for statement in statements {
        made.push(step_of(alloc, slots, scope, statement)?)?;
    }
    Ok(made)
}

/// The code of a block, at whose end its variables go.
#[cycle(compile)]
fn block(
    alloc: Global,
    slots: &mut Slots,
    scope: &mut Scope,
    place: Place,
    statements: &Items<Statement>,
) -> Result<Step, Memory>
    ensures code { IfOk result (λ made. IsCode (step_source made)
        (Statement.Block place statements.now) (step_fits made scope.old)) }
    ensures seen { OnOk result (scope.new
        ≡ behind (Statement.Block place statements.now) scope.old) }
{
    let count = scope.seen.len();
    let steps = steps_of(alloc, slots, scope, statements.as_slice())?;
    scope.leave(count);
    Ok(Step::Block(place, steps))
}

/// The code of a `for`, at whose end its variables go.
#[cycle(compile)]
fn loop_while(
    alloc: Global,
    slots: &mut Slots,
    scope: &mut Scope,
    place: Place,
    start: &Option<Boxed<Start>>,
    condition: &Option<Boxed<Expr>>,
    last: &Option<Boxed<Simple>>,
    body: &Statement,
) -> Result<Step, Memory>
    ensures code { IfOk result (λ made. IsCode (step_source made)
        (Statement.For place start.now condition.now last.now body.now)
        (step_fits made scope.old)) }
    ensures seen { OnOk result (scope.new
        ≡ behind (Statement.For place start.now condition.now last.now body.now) scope.old) }
{
    let count = scope.seen.len();
    let WhileHead {
        begin,
        condition,
        last,
    } = while_head(alloc, slots, scope, start, condition, last)?;
    let body = boxed_step(alloc, slots, scope, body)?;
    scope.leave(count);
    Ok(Step::For(place, begin, condition, last, body))
}
