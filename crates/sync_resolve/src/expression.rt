//! Names in expressions.

ghost use Rattle.std.specs.Prelude.{◌≡◌, map, length};
ghost use Rattle.sync_resolve.specs.Faults.{earliest};
ghost use Rattle.sync_resolve.specs.Expressions as spec;
ghost use Rattle.sync_resolve.specs.Expressions.{said, said_behind};

use crate::callee::{Takes, function_takes, method_takes};
use crate::fault::{ResolveFault, note};
use crate::scope::Scope;
use json_doc::DocText;
use sqlite_items::Items;
use sync_syntax::tree::{Expr, Operator, Suffix};
use sync_tokens::Place;

/// The place of an expression, which is that of its first character.
fn place_of(expr: &Expr) -> Place
    ensures { result ≡ (said expr.now).place }
{
    match expr {
        Expr::Undefined(place)
        | Expr::Null(place)
        | Expr::Bool(place, _)
        | Expr::Integer(place, _)
        | Expr::Text(place, _)
        | Expr::Name(place, _)
        | Expr::List(place, _)
        | Expr::Object(place, _)
        | Expr::Prefix(place, _, _) => *place,
        Expr::Postfix(first, _) | Expr::Chain(first, _) | Expr::Choice(first, _, _) => {
            place_of(first.get())
        }
    }
}

fn is_array_name(expr: &Expr) -> bool
    ensures { result ≡ (said expr.now).is_array }
{
    match expr {
        Expr::Name(_, name) => name.as_str() == "Array",
        _ => false,
    }
}

fn is_array_member(suffix: &Suffix) -> bool
    ensures { result ≡ (said_behind suffix.now).is_array_member }
{
    match suffix {
        Suffix::Member(name) => name.as_str() == "isArray",
        _ => false,
    }
}

fn is_call(suffix: &Suffix) -> bool
    ensures { result ≡ (said_behind suffix.now).is_call }
{
    matches!(suffix, Suffix::Call(_))
}

/// Whether a call comes next; behind the last suffix as it is said.
fn is_called(behind: bool, suffixes: &[Suffix]) -> bool
    ensures { result ≡ spec.is_said_called behind (map said_behind suffixes.now) }
{
    match suffixes {
        [next, ..] => is_call(next),
        [] => behind,
    }
}

/// Whether this is `Array.isArray` before a call.
fn calls_is_array(behind: bool, first: &Expr, suffixes: &[Suffix]) -> bool
    ensures { result ≡ spec.says_is_array behind (said first.now) (map said_behind suffixes.now) }
{
    match suffixes {
        [next, rest @ ..] => {
            is_array_name(first) && is_array_member(next) && is_called(behind, rest)
        }
        [] => false,
    }
}

/// How many arguments a call takes behind a suffix.
fn suffix_takes(suffix: &Suffix) -> Option<Takes>
    ensures { result ≡ (said_behind suffix.now).takes }
{
    match suffix {
        Suffix::Member(name) => method_takes(name.as_str()),
        _ => None,
    }
}

/// How many arguments a call takes behind a suffix; behind `Array.isArray` one.
fn takes_next(is_array: bool, suffix: &Suffix) -> Option<Takes>
    ensures { result ≡ spec.takes_next is_array (said_behind suffix.now) }
{
    if is_array {
        Some(Takes::One)
    } else {
        suffix_takes(suffix)
    }
}

/// How many arguments a call takes behind suffixes.
fn takes_behind(is_array: bool, first: Option<Takes>, suffixes: &[Suffix]) -> Option<Takes>
    ensures { result ≡ spec.takes_behind is_array first (map said_behind suffixes.now) }
{
    let mut array = is_array;
    let mut found = first;
    let mut left = suffixes;
    while let [next, rest @ ..] = left {
        found = takes_next(array, next);
        array = false;
        left = rest;
    }
    found
}

/// How many arguments a call of an expression takes, if it can be called.
fn takes(expr: &Expr) -> Option<Takes>
    ensures { result ≡ (said expr.now).takes }
{
    match expr {
        Expr::Name(_, name) => function_takes(name.as_str()),
        Expr::Postfix(first, suffixes) => {
            if calls_is_array(true, first.get(), suffixes.as_slice()) {
                takes_behind(true, None, suffixes.as_slice())
            } else {
                takes_behind(false, takes(first.get()), suffixes.as_slice())
            }
        }
        _ => None,
    }
}

/// A call with so many arguments.
fn call(first: &mut Option<ResolveFault>, place: Place, takes: Option<Takes>, count: usize)
    ensures { first.new ≡ earliest first.old (spec.call_faults place takes count) }
{
    match takes {
        Some(takes) => {
            if !takes.fits(count) {
                note(first, ResolveFault::WrongCount(place));
            }
        }
        None => note(first, ResolveFault::UnknownName(place)),
    }
}

/// An expression whose value is wanted.
#[tactic(auto, unfolding(crate::specs::Expressions::value_faults))]
pub(crate) fn value(first: &mut Option<ResolveFault>, scope: &Scope, expr: &Expr)
    ensures { first.new ≡ earliest first.old (spec.value_faults expr.now scope.now) }
{
    names(first, scope, expr, false);
}

/// An expression, or where it is called what a call calls.
#[cycle(names)]
#[tactic(auto, using(crate::proofs::Steps::expr_steps))]
fn names(first: &mut Option<ResolveFault>, scope: &Scope, expr: &Expr, called: bool)
    ensures { first.new ≡ earliest first.old ((said expr.now).faults called scope.now) }
{
    match expr {
        Expr::Undefined(_)
        | Expr::Null(_)
        | Expr::Bool(_, _)
        | Expr::Integer(_, _)
        | Expr::Text(_, _) => {}
        Expr::Name(place, name) => {
            if !called {
                scope.used(first, *place, name.as_str());
            }
        }
        Expr::List(_, exprs) => values(first, scope, exprs.as_slice()),
        Expr::Object(_, exprs) => members(first, scope, exprs.as_slice()),
        Expr::Prefix(_, _, expr) => names(first, scope, expr.get(), false),
        Expr::Postfix(expr, found) => {
            let place = place_of(expr.get());
            if calls_is_array(called, expr.get(), found.as_slice()) {
                suffixes(first, scope, place, true, None, found.as_slice());
            } else {
                names(
                    first,
                    scope,
                    expr.get(),
                    is_called(called, found.as_slice()),
                );
                suffixes(
                    first,
                    scope,
                    place,
                    false,
                    takes(expr.get()),
                    found.as_slice(),
                );
            }
        }
        Expr::Chain(expr, tails) => {
            names(first, scope, expr.get(), false);
            operands(first, scope, tails);
        }
        Expr::Choice(condition, yes, no) => {
            names(first, scope, condition.get(), false);
            names(first, scope, yes.get(), false);
            names(first, scope, no.get(), false);
        }
    }
}

/// Suffixes from left to right.
#[cycle(names)]
#[tactic(auto, using(crate::proofs::Steps::expr_steps))]
fn suffixes(
    first: &mut Option<ResolveFault>,
    scope: &Scope,
    place: Place,
    is_array: bool,
    callee: Option<Takes>,
    found: &[Suffix],
)
    ensures { first.new ≡ earliest first.old
        (spec.suffixes_faults place is_array callee (map said_behind found.now) scope.now) }
{
    let mut array = is_array;
    let mut takes = callee;
    for next in found {
        suffix(first, scope, place, takes, next);
        takes = takes_next(array, next);
        array = false;
    }
}

#[cycle(names)]
#[tactic(auto, using(crate::proofs::Steps::expr_steps))]
fn suffix(
    first: &mut Option<ResolveFault>,
    scope: &Scope,
    place: Place,
    takes: Option<Takes>,
    suffix: &Suffix,
)
    ensures { first.new
        ≡ earliest first.old ((said_behind suffix.now).faults place takes scope.now) }
{
    match suffix {
        Suffix::Member(_) => {}
        Suffix::Index(expr) => names(first, scope, expr, false),
        Suffix::Call(exprs) => {
            call(first, place, takes, exprs.len());
            values(first, scope, exprs.as_slice());
        }
    }
}

/// Expressions whose values are wanted.
#[cycle(names)]
#[tactic(auto, using(crate::proofs::Steps::expr_steps))]
fn values(first: &mut Option<ResolveFault>, scope: &Scope, exprs: &[Expr])
    ensures { first.new ≡ earliest first.old (spec.values_faults (map said exprs.now) scope.now) }
{
    for expr in exprs {
        names(first, scope, expr, false);
    }
}

/// The values of members.
#[cycle(names)]
#[tactic(auto, using(crate::proofs::Steps::expr_steps))]
fn members(first: &mut Option<ResolveFault>, scope: &Scope, exprs: &[(DocText, Expr)])
    ensures { first.new ≡ earliest first.old
        (spec.members_faults (map (λ m. (m.0, said m.1)) exprs.now) scope.now) }
{
    for expr in exprs {
        names(first, scope, &expr.1, false);
    }
}

/// The operands behind the first.
#[cycle(names)]
#[tactic(auto, using(crate::proofs::Steps::expr_steps))]
fn operands(first: &mut Option<ResolveFault>, scope: &Scope, tails: &Items<(Operator, Expr)>)
    ensures { first.new ≡ earliest first.old
        (spec.operands (map (λ o. (o.0, said o.1)) tails.now) scope.now) }
{
    for tail in tails.as_slice() {
        names(first, scope, &tail.1, false);
    }
}
