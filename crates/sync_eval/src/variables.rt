//! Variables where a program names them.

ghost use Rattle.sync_meaning.specs.Expressions as expressions;
ghost use Rattle.sync_meaning.specs.Statements as statements;
ghost use Rattle.sync_code.specs.Code.{slot_fits};
ghost use Rattle.sync_eval.specs.inner.Nested.{DoesWhere};

use std::alloc::Global;
use sync_meaning::{Slot, State, Stop, Value};

/// What the variable that a name stands for holds.
pub(crate) fn read(state: &mut State, slot: &Slot) -> Result<Value, Stop>
    ensures { DoesWhere (slot_fits slot.now) (λ scope. expressions.read scope slot.now.name)
        state.old result state.new }
{
    Ok(state.read(slot)?)
}

/// The variable that a name stands for takes a value.
pub(crate) fn assign(
    alloc: Global,
    state: &mut State,
    slot: &Slot,
    value: Value,
) -> Result<(), Stop>
    ensures { DoesWhere (slot_fits slot.now)
        (λ scope. statements.assign scope slot.now.name value) state.old result state.new }
{
    state.store(alloc, slot, value)
}
