//! Members and methods of values.

ghost use Rattle.std.specs.Prelude.{◌≡◌, ◌++◌, IfOk, pos, option_map};
ghost use Rattle.sync_values.specs.declared.value.Value as Value;
ghost use Rattle.sync_values.specs.Found.{Gives};
ghost use Rattle.sync_values.specs.Values as spec;

use crate::Memory;
use crate::callee::Method;
use crate::fault::{FaultKind, Stop};
use crate::operators::same;
use crate::value::{Value, share_all};
use sqlite_items::Items;
use std::alloc::{AllocError, Global};
use sync_tokens::Place;

/// How many items a list that is made may have.
const MAX_ITEMS: usize = 1024;

/// A count as a value.
fn counted(count: usize) -> Result<Value, Memory>
    ensures { IfOk result (λ value. value ≡ Value.Integer (pos count)) }
{
    match i64::try_from(count) {
        Ok(n) => Ok(Value::Integer(n)),
        Err(_) => Err(AllocError),
    }
}

/// The value, or undefined where there is none.
fn or_undefined(found: Option<&Value>) -> Result<Value, Memory>
    ensures { IfOk result (λ value. value
        ≡ spec.or_undefined (option_map (λ x. x.now) found.entry)) }
{
    match found {
        Some(value) => value.share(),
        None => Ok(Value::Undefined),
    }
}

/// A count under the name `length`, and undefined under any other.
fn length_or(name: &str, count: usize) -> Result<Value, Memory>
    ensures { IfOk result (λ value. value ≡ spec.length_or name.now count) }
{
    if name == "length" {
        counted(count)
    } else {
        Ok(Value::Undefined)
    }
}

/// `.name`
#[tactic(auto, unfolding(crate::specs::Values::member))]
pub fn member(place: Place, name: &str, value: &Value) -> Result<Value, Stop>
    ensures { Gives (spec.member place name.now value.now) result }
{
    match value {
        Value::Undefined | Value::Null => Err(Stop::fault(FaultKind::NullMember, place)),
        Value::Object(members) => Ok(or_undefined(members.get().last(name))?),
        Value::List(values) => Ok(length_or(name, values.get().len())?),
        Value::Text(text) => Ok(length_or(name, text.units())?),
        _ => Ok(Value::Undefined),
    }
}

/// The item at a place, or undefined where there is none.
fn item_at(values: &[Value], at: i64) -> Result<Value, Memory>
    ensures { IfOk result (λ value. value ≡ spec.item_at values.now at) }
{
    match usize::try_from(at) {
        Ok(at) => or_undefined(values.get(at)),
        Err(_) => Ok(Value::Undefined),
    }
}

/// `[e]`
#[tactic(auto, unfolding(crate::specs::Values::indexed))]
pub fn indexed(place: Place, value: &Value, index: &Value) -> Result<Value, Stop>
    ensures { Gives (spec.indexed place value.now index.now) result }
{
    match (value, index) {
        (Value::Undefined | Value::Null, _) => Err(Stop::fault(FaultKind::NullMember, place)),
        (Value::Object(members), Value::Text(name)) => {
            Ok(or_undefined(members.get().last(name.as_str()))?)
        }
        (Value::List(values), Value::Integer(at)) => Ok(item_at(values.get().as_slice(), *at)?),
        _ => Err(Stop::fault(FaultKind::TypeFault, place)),
    }
}

#[tactic(auto, unfolding(crate::specs::Values::can_be_sought))]
fn can_be_sought(value: &Value) -> bool
    ensures { result ≡ spec.can_be_sought value.now }
{
    !matches!(value, Value::Opaque | Value::List(_) | Value::Object(_))
}

/// The place of the first item that is the same, else -1.
fn index_from(value: &Value, values: &[Value]) -> Result<Value, Memory>
    ensures { IfOk result (λ found. found
        ≡ Value.Integer (spec.index_from 0 value.now values.now)) }
{
    let mut at = 0;
    let mut left = values;
    while let [other, rest @ ..] = left {
        if same(value, other) {
            return counted(at);
        }
        at += 1;
        left = rest;
    }
    Ok(Value::Integer(-1))
}

/// `list.indexOf(value)`
#[tactic(auto, unfolding(crate::specs::Values::index_of))]
fn index_of(place: Place, list: &Value, value: &Value) -> Result<Value, Stop>
    ensures { Gives (spec.index_of place list.now value.now) result }
{
    match list {
        Value::List(values) => {
            if can_be_sought(value) {
                Ok(index_from(value, values.get().as_slice())?)
            } else {
                Err(Stop::fault(FaultKind::TypeFault, place))
            }
        }
        _ => Err(Stop::fault(FaultKind::TypeFault, place)),
    }
}

/// A list of these, unless there are too many.
#[tactic(auto, unfolding(crate::specs::Values::listed_values))]
pub fn listed(alloc: Global, place: Place, values: Items<Value>) -> Result<Value, Stop>
    ensures { Gives (spec.listed_values place values) result }
{
    if values.len() > MAX_ITEMS {
        Err(Stop::fault(FaultKind::Size, place))
    } else {
        Ok(Value::list(alloc, values)?)
    }
}

/// The values of two lists.
fn joined(alloc: Global, first: &[Value], second: &[Value]) -> Result<Items<Value>, Memory>
    ensures { IfOk result (λ all. all ≡ first.now ++ second.now) }
{
    let mut all = share_all(alloc, first)?;
    let more = match share_all(alloc, second) {
        Ok(more) => more,
        Err(error) => {
            drop(all);
            return Err(error);
        }
    };
    match all.append(more) {
        Ok(()) => Ok(all),
        Err(error) => {
            drop(all);
            Err(error)
        }
    }
}

/// `list.concat(list)`
#[tactic(auto, unfolding(crate::specs::Values::concat))]
fn concat(alloc: Global, place: Place, first: &Value, second: &Value) -> Result<Value, Stop>
    ensures { Gives (spec.concat place first.now second.now) result }
{
    match (first, second) {
        (Value::List(a), Value::List(b)) => {
            let all = joined(alloc, a.get().as_slice(), b.get().as_slice())?;
            listed(alloc, place, all)
        }
        _ => Err(Stop::fault(FaultKind::TypeFault, place)),
    }
}

/// `text.startsWith(text)`
#[tactic(auto, unfolding(crate::specs::Values::text_begins_with))]
fn begins_with(place: Place, text: &Value, front: &Value) -> Result<Value, Stop>
    ensures { result ≡ spec.text_begins_with place text.now front.now }
{
    match (text, front) {
        (Value::Text(a), Value::Text(b)) => Ok(Value::Bool(
            a.as_str().as_bytes().starts_with(b.as_str().as_bytes()),
        )),
        _ => Err(Stop::fault(FaultKind::TypeFault, place)),
    }
}

/// `Array.isArray(value)`
#[tactic(auto, unfolding(crate::specs::Values::is_list))]
pub fn is_list(value: &Value) -> bool
    ensures { result ≡ spec.is_list value.now }
{
    matches!(value, Value::List(_))
}

/// What a method gives.
pub fn by_method(
    alloc: Global,
    place: Place,
    method: Method,
    value: &Value,
    arguments: &[Value],
) -> Result<Value, Stop>
    ensures { Gives (spec.by_method place method value.now arguments.now) result }
{
    match (method, arguments) {
        (Method::IndexOf, [other]) => index_of(place, value, other),
        (Method::Concat, [other]) => concat(alloc, place, value, other),
        (Method::StartsWith, [other]) => begins_with(place, value, other),
        _ => Err(Stop::fault(FaultKind::TypeFault, place)),
    }
}
