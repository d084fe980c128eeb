//! The code of a program.

ghost use Rattle.std.specs.Prelude.{◌≡◌, IfOk};
ghost use Rattle.sync_meaning.specs.Variables.{top};
ghost use Rattle.sync_code.specs.Made.{IsCode, IsCodeOf, IsOwn, IsSecond};
ghost use Rattle.sync_code.specs.Steps.{step_sources, steps_fit};

use crate::Memory;
use crate::code::Step;
use crate::slots::Slots;
use crate::statement::steps_of;
use sqlite_items::Items;
use std::alloc::Global;
use sync_meaning::{Scope, Slot};
use sync_syntax::tree::{Named, Program, Statement};
use sync_tokens::Place;

/// The code of a program: its parameters, its body, how many slots its variables have, and how many
/// of its texts are numbered.
#[derive(Drop)]
pub struct ProgramCode {
    pub first: Slot,
    pub second: Option<Slot>,
    pub place: Place,
    pub body: Items<Step>,
    pub slots: usize,
    pub literals: usize,
}

/// One of the function's own variables.
fn own(alloc: Global, slots: &mut Slots, name: &Named) -> Result<Slot, Memory>
    ensures { IfOk result (λ made. IsOwn made name.now.name) }
{
    slots.slot(alloc, &name.name, 0)
}

/// The second parameter, which may be absent.
fn second_of(
    alloc: Global,
    slots: &mut Slots,
    second: &Option<Named>,
) -> Result<Option<Slot>, Memory>
    ensures { IfOk result (λ made. IsSecond made second.now) }
{
    match second {
        Some(second) => Ok(Some(own(alloc, slots, second)?)),
        None => Ok(None),
    }
}

/// The code of a body.
fn body_of(
    alloc: Global,
    slots: &mut Slots,
    statements: &[Statement],
) -> Result<Items<Step>, Memory>
    ensures { IfOk result (λ made. IsCode (step_sources made) statements.now
        (steps_fit made top)) }
{
    let mut scope = Scope::top(alloc);
    let steps = steps_of(alloc, slots, &mut scope, statements);
    drop(scope);
    steps
}

/// The code of a program, which nests as deep as it.
pub fn code_of_program(alloc: Global, program: &Program) -> Result<ProgramCode, Memory>
    ensures { IfOk result (λ code. IsCodeOf code program.now) }
{
    let mut slots = Slots::new(alloc);
    let first = own(alloc, &mut slots, &program.first)?;
    let second = second_of(alloc, &mut slots, &program.second)?;
    let body = body_of(alloc, &mut slots, program.body.as_slice())?;
    Ok(ProgramCode {
        first,
        second,
        place: program.place,
        body,
        slots: slots.count(),
        literals: slots.literals(),
    })
}
