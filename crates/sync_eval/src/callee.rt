//! What is called, and what the suffixes of an expression say before they are evaluated.

ghost use Rattle.std.specs.Prelude.{◌≡◌, IsTrue};
ghost use Rattle.sync_meaning.specs.declared.scope.Scope.{Scope};
ghost use Rattle.sync_meaning.specs.Expressions as spec;
ghost use Rattle.sync_code.specs.Code.{source, tail_source, tail_sources};
ghost use Rattle.sync_code.specs.Code.{tails_fit};
ghost use Rattle.sync_eval.specs.inner.Rests as rests;

use sync_code::{Code, Tail};
use sync_meaning::{Builtin, Method, Target, Value};
/// The function of this name by which a rule denies.
fn rule_named(name: &str) -> Option<Builtin>
    ensures { result ≡ spec.lookup rests.rules name.now }
{
    if name == "requireUser" {
        Some(Builtin::RequireUser)
    } else if name == "requireRole" {
        Some(Builtin::RequireRole)
    } else if name == "requireAccess" {
        Some(Builtin::RequireAccess)
    } else if name == "requireAdmin" {
        Some(Builtin::RequireAdmin)
    } else {
        None
    }
}

/// The function of this name that is built in.
fn builtin_named(name: &str) -> Option<Builtin>
    ensures { result ≡ spec.lookup spec.builtins name.now }
{
    if name == "channel" {
        Some(Builtin::Channel)
    } else if name == "access" {
        Some(Builtin::Access)
    } else if name == "role" {
        Some(Builtin::Role)
    } else {
        rule_named(name)
    }
}

/// What a name calls.
#[tactic(auto, unfolding(sync_meaning::specs::Expressions::called_by))]
pub(crate) fn called_by(name: &str) -> Target
    ensures { result ≡ spec.called_by name.now }
{
    match builtin_named(name) {
        Some(builtin) => Target::Builtin(builtin),
        None => Target::Nothing,
    }
}

/// The method of this name.
fn method_named(name: &str) -> Option<Method>
    ensures { result ≡ spec.lookup spec.methods name.now }
{
    if name == "indexOf" {
        Some(Method::IndexOf)
    } else if name == "concat" {
        Some(Method::Concat)
    } else if name == "startsWith" {
        Some(Method::StartsWith)
    } else {
        None
    }
}

/// What a name behind a value calls.
#[tactic(auto, unfolding(sync_meaning::specs::Expressions::method_of))]
pub(crate) fn method_of(value: Value, name: &str) -> Target
    ensures { result ≡ spec.method_of value name.now }
{
    match method_named(name) {
        Some(method) => Target::Method(value, method),
        None => Target::Nothing,
    }
}

#[tactic(auto, using(crate::proofs::Layers::out_tail_source))]
fn is_call(suffix: &Tail) -> bool
    ensures { result ≡ spec.is_call (tail_source suffix.now) }
{
    matches!(suffix, Tail::Call(_))
}

/// Whether a call comes next; behind the last suffix as it is said.
pub(crate) fn is_called(behind: bool, suffixes: &[Tail]) -> bool
    ensures { result ≡ spec.is_called behind (tail_sources suffixes.now) }
{
    match suffixes {
        [next, ..] => is_call(next),
        [] => behind,
    }
}

#[tactic(auto, using(crate::proofs::Layers::out_source))]
fn is_array_name(expr: &Code) -> bool
    ensures { result ≡ spec.is_array_name (source expr.now) }
{
    match expr {
        Code::Name(_, slot) => slot.name.as_str() == "Array",
        _ => false,
    }
}

#[tactic(auto, using(crate::proofs::Layers::out_tail_source))]
fn is_array_member(suffix: &Tail) -> bool
    ensures { result ≡ spec.is_array_member (tail_source suffix.now) }
{
    match suffix {
        Tail::Member(name) => name.as_str() == "isArray",
        _ => false,
    }
}

/// Whether this is `Array.isArray` before a call.
pub(crate) fn calls_is_array(behind: bool, first: &Code, suffixes: &[Tail]) -> bool
    ensures { result ≡ spec.calls_is_array behind (source first.now) (tail_sources suffixes.now) }
{
    match suffixes {
        [next, rest @ ..] => {
            is_array_name(first) && is_array_member(next) && is_called(behind, rest)
        }
        [] => false,
    }
}

/// Whether a suffix ends a node: `.name` before a call doesn't.
#[tactic(auto, using(crate::proofs::Layers::out_tail_source))]
fn ends_node(called: bool, suffix: &Tail) -> bool
    ensures { result ≡ spec.ends_node called (tail_source suffix.now) }
{
    match suffix {
        Tail::Member(_) => !called,
        _ => true,
    }
}

/// How many nodes end with these suffixes.
pub(crate) fn node_count(behind: bool, suffixes: &[Tail]) -> u64
    ensures { result ≡ spec.node_count behind (tail_sources suffixes.now) }
{
    let mut count = 0;
    let mut left = suffixes;
    while let [suffix, rest @ ..] = left {
        if ends_node(is_called(behind, rest), suffix) {
            count += 1;
        }
        left = rest;
    }
    count
}

/// The suffixes but the first.
pub(crate) fn without_first(suffixes: &[Tail]) -> &[Tail]
    ensures source { tail_sources result.now ≡ spec.without_first (tail_sources suffixes.now) }
    ensures fits { (scope : Scope) → IsTrue (tails_fit suffixes.now scope)
        → IsTrue (tails_fit result.now scope) }
{
    match suffixes {
        [_, rest @ ..] => rest,
        [] => suffixes,
    }
}
