//! Names in the parts of statements that hold no statement.

ghost use Rattle.std.specs.Prelude.{◌≡◌, length, IfOk, OnOk};
ghost use Rattle.sync_resolve.specs.Faults.{earliest};
ghost use Rattle.sync_resolve.specs.Expressions as expressions;
ghost use Rattle.sync_resolve.specs.Names.{inside, more};
ghost use Rattle.sync_resolve.specs.Statements as spec;

use crate::Memory;
use crate::expression::value;
use crate::fault::ResolveFault;
use crate::scope::Scope;
use sqlite_items::Boxed;
use std::alloc::Global;
use sync_syntax::tree::{Declares, Expr, Named, Simple, Start};

/// An expression that may be absent.
pub(crate) fn value_or_none(
    first: &mut Option<ResolveFault>,
    scope: &Scope,
    expr: &Option<Boxed<Expr>>,
)
    ensures { first.new ≡ earliest first.old (expressions.value_or_none expr.now scope.now) }
{
    if let Some(expr) = expr {
        value(first, scope, expr.get());
    }
}

/// One variable, which is seen behind the value that it is given.
#[tactic(auto, using(crate::proofs::Earliest::earliest_append))]
fn declare_one(
    alloc: Global,
    first: &mut Option<ResolveFault>,
    scope: &mut Scope,
    declares: Declares,
    found: &(Named, Option<Boxed<Expr>>),
) -> Result<(), Memory>
    ensures faults { first.new ≡ earliest first.old
        (spec.declared_walk declares found.now.0 found.now.1 scope.old).0 }
    ensures seen { OnOk result (scope.new
        ≡ more scope.old (spec.declared_walk declares found.now.0 found.now.1 scope.old).1) }
{
    scope.once(first, declares, &found.0);
    value_or_none(first, scope, &found.1);
    scope.declare(alloc, declares, &found.0.name)
}

/// A declaration from left to right.
#[tactic(auto, using(crate::proofs::Steps::walk_steps))]
pub(crate) fn declare_all(
    alloc: Global,
    first: &mut Option<ResolveFault>,
    scope: &mut Scope,
    declares: Declares,
    found: &[(Named, Option<Boxed<Expr>>)],
) -> Result<(), Memory>
    ensures faults { OnOk result (first.new ≡ earliest first.old
        (spec.declaration_walk declares found.now scope.old).0) }
    ensures seen { OnOk result (scope.new
        ≡ more scope.old (spec.declaration_walk declares found.now scope.old).1) }
{
    for one in found {
        declare_one(alloc, first, scope, declares, one)?;
    }
    Ok(())
}

/// A simple statement.
#[tactic(auto, using(crate::proofs::Earliest::earliest_append))]
pub(crate) fn simple(first: &mut Option<ResolveFault>, scope: &Scope, simple: &Simple)
    ensures { first.new ≡ earliest first.old (spec.simple_faults simple.now scope.now) }
{
    match simple {
        Simple::Write(name, _, expr) => {
            scope.written(first, name);
            value(first, scope, expr.get());
        }
        Simple::Increment(name) | Simple::Decrement(name) => scope.written(first, name),
        Simple::Value(_, expr) => value(first, scope, expr),
    }
}

/// A simple statement that may be absent.
fn simple_or_none(first: &mut Option<ResolveFault>, scope: &Scope, found: &Option<Boxed<Simple>>)
    ensures { first.new ≡ earliest first.old (spec.simple_or_none found.now scope.now) }
{
    if let Some(found) = found {
        simple(first, scope, found.get());
    }
}

/// The condition of a `for` and what it does behind each round.
#[tactic(auto, using(crate::proofs::Earliest::earliest_append))]
fn condition(
    first: &mut Option<ResolveFault>,
    scope: &Scope,
    condition: &Option<Boxed<Expr>>,
    last: &Option<Boxed<Simple>>,
)
    ensures { first.new ≡ earliest first.old (spec.condition condition.now last.now scope.now) }
{
    value_or_none(first, scope, condition);
    simple_or_none(first, scope, last);
}

/// The beginning of a `for`.
#[tactic(auto, using(crate::proofs::Closing::more_none))]
fn start(
    alloc: Global,
    first: &mut Option<ResolveFault>,
    scope: &mut Scope,
    start: &Option<Boxed<Start>>,
) -> Result<(), Memory>
    ensures faults { OnOk result (first.new
        ≡ earliest first.old (spec.for_start start.now scope.old).0) }
    ensures seen { OnOk result (scope.new ≡ more scope.old (spec.for_start start.now scope.old).1) }
{
    match start {
        Some(start) => match start.get() {
            Start::Declare(found) => {
                declare_all(alloc, first, scope, found.declares, found.names.as_slice())
            }
            Start::Simple(found) => {
                simple(first, scope, found);
                Ok(())
            }
        },
        None => Ok(()),
    }
}

/// The head of a `for`.
#[tactic(auto, using(crate::proofs::Steps::walk_steps))]
fn head(
    alloc: Global,
    first: &mut Option<ResolveFault>,
    scope: &mut Scope,
    begin: &Option<Boxed<Start>>,
    test: &Option<Boxed<Expr>>,
    last: &Option<Boxed<Simple>>,
) -> Result<(), Memory>
    ensures faults { OnOk result (first.new ≡ earliest first.old
        (spec.for_head begin.now test.now last.now scope.old).0) }
    ensures seen { OnOk result (scope.new ≡ more scope.old
        (spec.for_head begin.now test.now last.now scope.old).1) }
{
    start(alloc, first, scope, begin)?;
    condition(first, scope, test, last);
    Ok(())
}

/// A `for` begins, which is a block of its own. Gives how many variables are seen before it.
pub(crate) fn begin_for(
    alloc: Global,
    first: &mut Option<ResolveFault>,
    scope: &mut Scope,
    begin: &Option<Boxed<Start>>,
    test: &Option<Boxed<Expr>>,
    last: &Option<Boxed<Simple>>,
) -> Result<usize, Memory>
    ensures count { IfOk result (λ count. count ≡ length scope.old.seen) }
    ensures faults { OnOk result (first.new ≡ earliest first.old
        (spec.for_head begin.now test.now last.now (inside scope.old)).0) }
    ensures seen { OnOk result (scope.new ≡ more (inside scope.old)
        (spec.for_head begin.now test.now last.now (inside scope.old)).1) }
{
    let count = scope.seen.len();
    scope.enter()?;
    head(alloc, first, scope, begin, test, last)?;
    Ok(count)
}

/// The head of a `for .. of`, whose list does not see its variable.
#[tactic(auto, using(crate::proofs::Earliest::earliest_append))]
fn item(
    alloc: Global,
    first: &mut Option<ResolveFault>,
    scope: &mut Scope,
    declares: Declares,
    name: &Named,
    expr: &Expr,
) -> Result<(), Memory>
    ensures faults { first.new ≡ earliest first.old
        (spec.item declares name.now expr.now scope.old).0 }
    ensures seen { OnOk result (scope.new ≡ more scope.old
        (spec.item declares name.now expr.now scope.old).1) }
{
    scope.once(first, declares, name);
    value(first, scope, expr);
    scope.declare(alloc, declares, &name.name)
}

/// A `for .. of` begins, which is a block of its own. Gives how many variables are seen before it.
pub(crate) fn begin_each(
    alloc: Global,
    first: &mut Option<ResolveFault>,
    scope: &mut Scope,
    declares: Declares,
    name: &Named,
    expr: &Expr,
) -> Result<usize, Memory>
    ensures count { IfOk result (λ count. count ≡ length scope.old.seen) }
    ensures faults { OnOk result (first.new ≡ earliest first.old
        (spec.item declares name.now expr.now (inside scope.old)).0) }
    ensures seen { OnOk result (scope.new ≡ more (inside scope.old)
        (spec.item declares name.now expr.now (inside scope.old)).1) }
{
    let count = scope.seen.len();
    scope.enter()?;
    item(alloc, first, scope, declares, name, expr)?;
    Ok(count)
}
