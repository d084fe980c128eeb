//! What operators make of values.

ghost use Rattle.std.specs.Prelude.{◌≡◌, ◌≤ℤ◌, ◌+ℤ◌, ◌-ℤ◌, ◌*ℤ◌, pos, negsuc, IfOk};
ghost use Rattle.std.specs.Fmt.{signed_decimal};
ghost use Rattle.sync_values.specs.Found.{Gives};
ghost use Rattle.sync_values.specs.inner.Orders.{wanted};
ghost use Rattle.sync_values.specs.Values as spec;

use crate::Memory;
use crate::fault::{FaultKind, Stop};
use crate::value::Value;
use itoa::Buffer;
use json_doc::DocText;
use std::alloc::Global;
use std::cmp::Ordering;
use sync_syntax::tree::{Operator, Prefix};
use sync_tokens::Place;

/// The greatest integer up to which each is a float of its own, ECMAScript's `MAX_SAFE_INTEGER`.
const MAX_SAFE_INTEGER: i128 = 9007199254740991;

/// How many bytes a text that is joined may have.
const MAX_TEXT: usize = 4096;

/// Whether a value counts as true.
#[tactic(auto, unfolding(crate::specs::Values::truth))]
pub fn truth(place: Place, value: &Value) -> Result<bool, Stop>
    ensures { result ≡ spec.truth place value.now }
{
    match value {
        Value::Undefined | Value::Null => Ok(false),
        Value::Bool(truth) => Ok(*truth),
        Value::Integer(n) => Ok(*n != 0),
        Value::Opaque => Err(Stop::fault(FaultKind::TypeFault, place)),
        Value::Text(text) => Ok(0 < text.len()),
        Value::List(_) | Value::Object(_) => Ok(true),
    }
}

/// An integer, unless it is too great.
#[tactic(auto, unfolding(crate::specs::Values::bounded))]
pub fn bounded(place: Place, n: i128) -> Result<Value, Stop>
    ensures { result ≡ spec.bounded place n }
{
    if -MAX_SAFE_INTEGER <= n && n <= MAX_SAFE_INTEGER {
        Ok(Value::Integer(n as i64))
    } else {
        Err(Stop::fault(FaultKind::Range, place))
    }
}

/// A text of two.
#[tactic(auto, unfolding(crate::specs::Values::joined_texts))]
fn joined(alloc: Global, place: Place, first: &str, second: &str) -> Result<Value, Stop>
    ensures { Gives (spec.joined_texts place first.now second.now) result }
{
    if second.len() > MAX_TEXT || first.len() > MAX_TEXT - second.len() {
        return Err(Stop::fault(FaultKind::Size, place));
    }
    let mut text = DocText::from_str(alloc, first)?;
    text.push_str(second)?;
    Ok(Value::text(alloc, text.as_str())?)
}

/// The decimal of an integer.
fn decimal_of(alloc: Global, n: i64) -> Result<DocText, Memory>
    ensures { IfOk result (λ text. text ≡ signed_decimal n) }
{
    let mut buffer = Buffer::new();
    DocText::from_str(alloc, buffer.format(n))
}

/// `+`
#[tactic(auto, unfolding(crate::specs::Values::added_values))]
pub fn added(alloc: Global, place: Place, x: &Value, y: &Value) -> Result<Value, Stop>
    ensures { Gives (spec.added_values place x.now y.now) result }
{
    match (x, y) {
        (Value::Integer(a), Value::Integer(b)) => bounded(place, *a as i128 + *b as i128),
        (Value::Text(a), Value::Text(b)) => joined(alloc, place, a.as_str(), b.as_str()),
        (Value::Text(a), Value::Integer(b)) => {
            let b = decimal_of(alloc, *b)?;
            let made = joined(alloc, place, a.as_str(), b.as_str());
            drop(b);
            made
        }
        (Value::Integer(a), Value::Text(b)) => {
            let a = decimal_of(alloc, *a)?;
            let made = joined(alloc, place, a.as_str(), b.as_str());
            drop(a);
            made
        }
        _ => Err(Stop::fault(FaultKind::TypeFault, place)),
    }
}

/// The integer that a value is.
#[tactic(auto, unfolding(crate::specs::Values::integer_in))]
pub fn integer_in(place: Place, value: &Value) -> Result<i64, Stop>
    ensures { result ≡ spec.integer_in place value.now }
{
    match value {
        Value::Integer(n) => Ok(*n),
        _ => Err(Stop::fault(FaultKind::TypeFault, place)),
    }
}

/// `-` between operands
#[tactic(auto, unfolding(crate::specs::Values::calculated))]
pub fn subtracted(place: Place, x: &Value, y: &Value) -> Result<Value, Stop>
    ensures { result ≡ spec.calculated place (λ a b. a -ℤ b) x.now y.now }
{
    let a = integer_in(place, x)?;
    let b = integer_in(place, y)?;
    bounded(place, a as i128 - b as i128)
}

/// `*`
#[tactic(auto, unfolding(crate::specs::Values::calculated))]
fn multiplied(place: Place, x: &Value, y: &Value) -> Result<Value, Stop>
    ensures { result ≡ spec.calculated place (λ a b. a *ℤ b) x.now y.now }
{
    let a = integer_in(place, x)?;
    let b = integer_in(place, y)?;
    bounded(place, a as i128 * b as i128)
}

/// `-` before an operand
#[tactic(auto, unfolding(crate::specs::Values::negated))]
fn negated(place: Place, x: &Value) -> Result<Value, Stop>
    ensures { result ≡ spec.negated place x.now }
{
    let n = integer_in(place, x)?;
    bounded(place, -(n as i128))
}

/// Which of two values is the less.
#[tactic(auto, unfolding(crate::specs::Values::compared))]
fn compared(place: Place, x: &Value, y: &Value) -> Result<Ordering, Stop>
    ensures { result ≡ spec.compared place x.now y.now }
{
    match (x, y) {
        (Value::Integer(a), Value::Integer(b)) => Ok(a.cmp(b)),
        (Value::Text(a), Value::Text(b)) => {
            Ok(a.as_str().as_bytes().cmp(b.as_str().as_bytes()))
        },
        _ => Err(Stop::fault(FaultKind::TypeFault, place)),
    }
}

#[tactic(auto, unfolding(crate::specs::Values::is_nothing))]
fn is_nothing(x: &Value) -> bool
    ensures { result ≡ spec.is_nothing x.now }
{
    matches!(x, Value::Undefined | Value::Null)
}

/// Whether both are of the same kind and value, as far as the kind has values that compare.
#[tactic(auto, unfolding(crate::specs::Values::same))]
pub(crate) fn same(x: &Value, y: &Value) -> bool
    ensures { result ≡ spec.same x.now y.now }
{
    match (x, y) {
        (Value::Undefined, Value::Undefined) | (Value::Null, Value::Null) => true,
        (Value::Bool(a), Value::Bool(b)) => { if *a { *b } else { !*b } }
        (Value::Integer(a), Value::Integer(b)) => *a == *b,
        (Value::Text(a), Value::Text(b)) => a.as_str() == b.as_str(),
        _ => false,
    }
}

#[tactic(auto, unfolding(crate::specs::Values::is_alike))]
fn is_alike(x: &Value, y: &Value) -> bool
    ensures { result ≡ spec.is_alike x.now y.now }
{
    matches!(
        (x, y),
        (Value::Bool(_), Value::Bool(_))
            | (Value::Integer(_), Value::Integer(_))
            | (Value::Text(_), Value::Text(_))
    )
}

/// `==`
#[tactic(auto, unfolding(crate::specs::Values::loosely_equal))]
fn loosely_equal(place: Place, x: &Value, y: &Value) -> Result<bool, Stop>
    ensures { result ≡ spec.loosely_equal place x.now y.now }
{
    if is_nothing(x) || is_nothing(y) {
        Ok(is_nothing(x) && is_nothing(y))
    } else if is_alike(x, y) {
        Ok(same(x, y))
    } else {
        Err(Stop::fault(FaultKind::TypeFault, place))
    }
}

#[tactic(auto, unfolding(crate::specs::Values::cannot_equal))]
fn cannot_equal(x: &Value, y: &Value) -> bool
    ensures { result ≡ spec.cannot_equal x.now y.now }
{
    matches!(
        (x, y),
        (Value::List(_), Value::List(_))
            | (Value::Object(_), Value::Object(_))
            | (Value::Opaque, Value::Opaque | Value::Integer(_))
            | (Value::Integer(_), Value::Opaque)
    )
}

/// `===`
#[tactic(auto, unfolding(crate::specs::Values::strictly_equal))]
fn strictly_equal(place: Place, x: &Value, y: &Value) -> Result<bool, Stop>
    ensures { result ≡ spec.strictly_equal place x.now y.now }
{
    if cannot_equal(x, y) {
        Err(Stop::fault(FaultKind::TypeFault, place))
    } else {
        Ok(same(x, y))
    }
}

/// Whether an order is the one that `<`, `<=`, `>` or else `>=` wants.
fn is_wanted(op: Operator, order: Ordering) -> bool
    ensures { result ≡ wanted op order }
{
    match op {
        Operator::Less => order.is_lt(),
        Operator::LessOrEqual => !order.is_gt(),
        Operator::Greater => order.is_gt(),
        _ => !order.is_lt(),
    }
}

/// `<`, `<=`, `>` and `>=`
fn ordered(place: Place, op: Operator, x: &Value, y: &Value) -> Result<Value, Stop>
    ensures { result ≡ spec.ordered place (wanted op) x.now y.now }
{
    let order = compared(place, x, y)?;
    Ok(Value::Bool(is_wanted(op, order)))
}

/// A truth as a value.
fn truth_value(found: Result<bool, Stop>) -> Result<Value, Stop>
    ensures { result ≡ spec.truth_value found }
{
    Ok(Value::Bool(found?))
}

/// The other truth as a value.
fn not_that(found: Result<bool, Stop>) -> Result<Value, Stop>
    ensures { result ≡ spec.not_that found }
{
    Ok(Value::Bool(!found?))
}

/// What an operator makes of both operands. `||` and `&&` come here with the second one alone.
fn of_both(alloc: Global, place: Place, op: Operator, x: &Value, y: &Value) -> Result<Value, Stop>
    ensures { Gives (spec.combined place op x.now y.now) result }
{
    match op {
        Operator::Add => added(alloc, place, x, y),
        Operator::Subtract => subtracted(place, x, y),
        Operator::Multiply => multiplied(place, x, y),
        Operator::Less | Operator::LessOrEqual | Operator::Greater | Operator::GreaterOrEqual =>
            ordered(place, op, x, y),
        Operator::Equal => truth_value(loosely_equal(place, x, y)),
        Operator::NotEqual => not_that(loosely_equal(place, x, y)),
        Operator::Same => truth_value(strictly_equal(place, x, y)),
        Operator::NotSame => not_that(strictly_equal(place, x, y)),
        Operator::Or | Operator::And => Ok(y.share()?),
    }
}

/// The same of operands that nothing else needs.
pub fn combined(
    alloc: Global,
    place: Place,
    op: Operator,
    x: Value,
    y: Value,
) -> Result<Value, Stop>
    ensures { Gives (spec.combined place op x y) result }
{
    let made = of_both(alloc, place, op, &x, &y);
    drop(x);
    drop(y);
    made
}

/// What `typeof` gives.
#[tactic(auto, unfolding(crate::specs::Values::kind_name))]
fn kind_name(x: &Value) -> &'static str
    ensures { result.now ≡ spec.kind_name x.now }
{
    match x {
        Value::Undefined => "undefined",
        Value::Bool(_) => "boolean",
        Value::Integer(_) | Value::Opaque => "number",
        Value::Text(_) => "string",
        Value::Null | Value::List(_) | Value::Object(_) => "object",
    }
}

/// What an operator before its operand makes of it.
pub fn prefixed(alloc: Global, place: Place, op: Prefix, x: &Value) -> Result<Value, Stop>
    ensures { Gives (spec.prefixed place op x.now) result }
{
    match op {
        Prefix::Not => not_that(truth(place, x)),
        Prefix::Negate => negated(place, x),
        Prefix::Typeof => Ok(Value::text(alloc, kind_name(x))?),
    }
}
