//! Names in statements.

ghost use Rattle.std.specs.Prelude.{◌≡◌, [], OnOk};
ghost use Rattle.sync_resolve.specs.inner.Closing.{left};
ghost use Rattle.sync_resolve.specs.Faults.{earliest};
ghost use Rattle.sync_resolve.specs.Names.{more};
ghost use Rattle.sync_resolve.specs.Statements as spec;
ghost use Rattle.sync_resolve.specs.Statements.{walk};

use crate::Memory;
use crate::expression::value;
use crate::fault::ResolveFault;
use crate::scope::Scope;
use crate::simple::{begin_each, begin_for, declare_all, simple, value_or_none};
use std::alloc::Global;
use sync_syntax::tree::Statement;

/// A statement, behind which its variables are seen.
#[cycle(walk)]
#[tactic(auto, using(crate::proofs::Steps::walk_steps))]
fn statement(
    alloc: Global,
    first: &mut Option<ResolveFault>,
    scope: &mut Scope,
    part: &Statement,
) -> Result<(), Memory>
    ensures faults { OnOk result (first.new ≡ earliest first.old (walk part.now scope.old).0) }
    ensures seen { OnOk result (scope.new ≡ more scope.old (walk part.now scope.old).1) }
{
    match part {
        Statement::Block(_, found) => block(alloc, first, scope, found.as_slice()),
        Statement::Declare(found) => {
            declare_all(alloc, first, scope, found.declares, found.names.as_slice())
        }
        Statement::If(_, condition, yes, no) => {
            value(first, scope, condition.get());
            statement(alloc, first, scope, yes.get())?;
            match no {
                Some(no) => statement(alloc, first, scope, no.get()),
                None => Ok(()),
            }
        }
        Statement::For(_, begin, condition, last, body) => {
            let count = begin_for(alloc, first, scope, begin, condition, last)?;
            end_loop(alloc, first, scope, count, body.get())
        }
        Statement::ForOf(_, declares, name, expr, body) => {
            let count = begin_each(alloc, first, scope, *declares, name, expr.get())?;
            end_loop(alloc, first, scope, count, body.get())
        }
        Statement::Return(_, expr) => {
            value_or_none(first, scope, expr);
            Ok(())
        }
        Statement::Throw(_, expr) => {
            value(first, scope, expr);
            Ok(())
        }
        Statement::Simple(found) => {
            simple(first, scope, found);
            Ok(())
        }
        Statement::Empty(_) | Statement::Break(_) | Statement::Continue(_) => Ok(()),
    }
}

/// Statements in turn.
#[cycle(walk)]
#[tactic(auto, using(crate::proofs::Steps::walk_steps))]
pub(crate) fn statements(
    alloc: Global,
    first: &mut Option<ResolveFault>,
    scope: &mut Scope,
    found: &[Statement],
) -> Result<(), Memory>
    ensures faults { OnOk result (first.new ≡ earliest first.old
        (spec.walk_all found.now scope.old).0) }
    ensures seen { OnOk result (scope.new ≡ more scope.old (spec.walk_all found.now scope.old).1) }
{
    for one in found {
        statement(alloc, first, scope, one)?;
    }
    Ok(())
}

/// A block of statements, behind which is seen what was seen before.
#[cycle(walk)]
#[tactic(auto, using(crate::proofs::Steps::walk_steps))]
fn block(
    alloc: Global,
    first: &mut Option<ResolveFault>,
    scope: &mut Scope,
    found: &[Statement],
) -> Result<(), Memory>
    ensures faults { OnOk result (first.new ≡ earliest first.old
        (spec.block_walk (spec.walk_all found.now) scope.old).0) }
    ensures seen { OnOk result (scope.new ≡ more scope.old []) }
{
    let count = scope.seen.len();
    scope.enter()?;
    statements(alloc, first, scope, found)?;
    scope.leave(count);
    Ok(())
}

/// The body of a loop and its end, behind which so many variables are seen.
#[cycle(walk)]
#[tactic(auto, using(crate::proofs::Steps::walk_steps))]
fn end_loop(
    alloc: Global,
    first: &mut Option<ResolveFault>,
    scope: &mut Scope,
    count: usize,
    body: &Statement,
) -> Result<(), Memory>
    ensures faults { OnOk result (first.new ≡ earliest first.old (walk body.now scope.old).0) }
    ensures seen { OnOk result (scope.new
        ≡ left count (more scope.old (walk body.now scope.old).1)) }
{
    statement(alloc, first, scope, body)?;
    scope.leave(count);
    Ok(())
}
