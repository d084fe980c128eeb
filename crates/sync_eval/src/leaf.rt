//! What needs no expression inside: literals, names, calls and members.

ghost use Rattle.std.specs.Prelude.{◌≡◌, Ok};
ghost use Rattle.sync_values.specs.declared.value.Value as Value;
ghost use Rattle.sync_meaning.specs.Acts.{Does};
ghost use Rattle.sync_meaning.specs.Expressions as spec;
ghost use Rattle.sync_code.specs.Code.{slot_fits};
ghost use Rattle.sync_eval.specs.inner.Nested.{DoesWhere};

use crate::callee::method_of;
use crate::variables::read;
use std::alloc::Global;
use sync_meaning::{
    FaultKind, Literal, Slot, State, Stop, Target, Value, built_in, by_method, member,
};
use sync_tokens::Place;
/// The value that was found, if it is one.
pub(crate) fn as_value(place: Place, target: Target) -> Result<Value, Stop>
    ensures { result ≡ spec.as_value place target }
{
    match target {
        Target::Value(value) => Ok(value),
        _ => Err(Stop::fault(FaultKind::TypeFault, place)),
    }
}

/// What a literal evaluates to.
#[tactic(auto, unfolding(sync_meaning::specs::Expressions::literal))]
pub(crate) fn literal(
    state: &mut State,
    place: Place,
    found: Result<Value, Stop>,
) -> Result<Value, Stop>
    ensures { Does (spec.literal place found state.old) result state.new }
{
    match state.visit(place) {
        Ok(()) => found,
        Err(stop) => {
            drop(found);
            Err(stop)
        }
    }
}

/// What a text of the program evaluates to.
#[tactic(auto, unfolding(sync_meaning::specs::Expressions::literal))]
pub(crate) fn text(
    alloc: Global,
    state: &mut State,
    place: Place,
    text: &Literal,
) -> Result<Value, Stop>
    ensures { Does (spec.literal place (Ok (Value.Text text.now.text)) state.old) result state.new }
{
    state.visit(place)?;
    Ok(Value::Text(state.variables.literal(alloc, text)?))
}

/// What a name evaluates to.
#[tactic(auto, unfolding(sync_meaning::specs::Expressions::name))]
pub(crate) fn name(state: &mut State, place: Place, slot: &Slot) -> Result<Value, Stop>
    ensures { DoesWhere (slot_fits slot.now) (λ scope. spec.name scope place slot.now.name)
        state.old result state.new }
{
    state.visit(place)?;
    read(state, slot)
}

/// What is called is called with these arguments.
pub(crate) fn call_by(
    alloc: Global,
    state: &mut State,
    place: Place,
    target: Target,
    values: &[Value],
) -> Result<Value, Stop>
    ensures { Does (spec.call_by place target values.now state.old) result state.new }
{
    match target {
        Target::Method(value, method) => {
            let found = by_method(alloc, place, method, &value, values);
            drop(value);
            found
        }
        Target::Builtin(builtin) => built_in(alloc, place, builtin, values, state),
        Target::Value(_) | Target::Nothing => Err(Stop::fault(FaultKind::TypeFault, place)),
    }
}

/// A member, or before a call a method.
#[tactic(auto, unfolding(sync_meaning::specs::Expressions::member_or_method))]
pub(crate) fn member_or_method(
    state: &mut State,
    called: bool,
    place: Place,
    target: Target,
    name: &str,
) -> Result<Target, Stop>
    ensures { Does (spec.member_or_method called place target name.now state.old) result state.new }
{
    let value = as_value(place, target)?;
    if called {
        Ok(method_of(value, name))
    } else {
        let found = member(place, name, &value);
        drop(value);
        Ok(Target::Value(found?))
    }
}
