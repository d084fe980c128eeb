//! What a program says of a document.

ghost use Rattle.std.specs.Prelude.{◌≡◌, [], option_map, Ok, Err, IfErr, IfOk, OnOk};
ghost use Rattle.json_doc.specs.View.{node_tree};
ghost use Rattle.sync_values.specs.Found.{Gives};
ghost use Rattle.sync_values.specs.Values as values;
ghost use Rattle.sync_meaning.specs.Acts.{Does};
ghost use Rattle.sync_meaning.specs.Meaning as spec;
ghost use Rattle.sync_meaning.specs.Variables.{variables_with};

use crate::statement::{Statements, run};
use json_doc::Doc;
use std::alloc::Global;
use sync_code::Memory;
use sync_meaning::{
    Completion, Context, Effects, Gathered, Slot, State, Stop, Value, Variables, value_of,
};
use sync_resolve::Resolved;

/// How many visits a run has.
const VISITS: u32 = 100000;

/// The document before, or null.
fn value_before(alloc: Global, old: Option<&Doc>) -> Result<Value, Memory>
    ensures { IfOk result (λ value. value
        ≡ spec.value_before (option_map (λ doc. node_tree doc.now) old.entry)) }
{
    match old {
        Some(doc) => value_of(alloc, doc.as_node()),
        None => Ok(Value::Null),
    }
}

/// The first parameter takes the document.
#[tactic(auto, using(crate::proofs::Parameters::first_written))]
fn write_document(
    alloc: Global,
    program: &Resolved,
    doc: &Doc,
    variables: &mut Variables,
) -> Result<(), Memory>
    ensures { OnOk result (variables.new ≡ variables_with program.now.first.name 0
        (values.value_of (node_tree doc.now)) variables.old) }
{
    let value = value_of(alloc, doc.as_node())?;
    variables.write(alloc, &program.as_code().first, value)
}

/// A parameter takes the document before.
fn write_old(
    alloc: Global,
    slot: &Slot,
    old: Option<&Doc>,
    variables: &mut Variables,
) -> Result<(), Memory>
    ensures { OnOk result (variables.new ≡ variables_with slot.now.name slot.now.number
        (spec.value_before (option_map (λ doc. node_tree doc.now) old.entry)) variables.old) }
{
    let value = value_before(alloc, old)?;
    variables.write(alloc, slot, value)
}

/// The second parameter, where there is one, takes the document before.
#[tactic(auto, using(crate::proofs::Parameters::second_written))]
fn write_before(
    alloc: Global,
    program: &Resolved,
    old: Option<&Doc>,
    variables: &mut Variables,
) -> Result<(), Memory>
    ensures { OnOk result (variables.new ≡ spec.with_second program.now.second
        (spec.value_before (option_map (λ doc. node_tree doc.now) old.entry)) variables.old) }
{
    match &program.as_code().second {
        Some(second) => write_old(alloc, second, old, variables),
        None => Ok(()),
    }
}

/// The parameters.
#[tactic(auto, unfolding(sync_meaning::specs::Meaning::parameters))]
fn parameters(
    alloc: Global,
    program: &Resolved,
    doc: &Doc,
    old: Option<&Doc>,
) -> Result<Variables, Memory>
    ensures { IfOk result (λ variables. variables ≡ spec.parameters program.now (node_tree doc.now)
        (option_map (λ doc. node_tree doc.now) old.entry)) }
{
    let code = program.as_code();
    let mut variables = Variables::new(alloc, code.slots, code.literals)?;
    if let Err(error) = write_document(alloc, program, doc, &mut variables) {
        drop(variables);
        return Err(error);
    }
    if let Err(error) = write_before(alloc, program, old, &mut variables) {
        drop(variables);
        return Err(error);
    }
    Ok(variables)
}

/// The state before the first visit.
fn begin(
    alloc: Global,
    visits: u32,
    program: &Resolved,
    doc: &Doc,
    old: Option<&Doc>,
    context: &Context,
) -> Result<State, Memory>
    ensures { IfOk result (λ state. state ≡ spec.begin visits program.now (node_tree doc.now)
        (option_map (λ doc. node_tree doc.now) old.entry) context.now) }
{
    let context = context.copy(alloc)?;
    match parameters(alloc, program, doc, old) {
        Ok(variables) => Ok(State {
            context,
            visits,
            variables,
            effects: Gathered::none(alloc),
        }),
        Err(error) => {
            drop(context);
            Err(error)
        }
    }
}

/// Runs the body.
fn body(
    alloc: Global,
    depth: u64,
    program: &Resolved,
    state: &mut State,
) -> Result<Completion, Stop>
    ensures { Does (spec.body depth program.now state.old) result state.new }
{
    let code = program.as_code();
    Statements {
        alloc,
        depth,
        inner: run,
    }
    .block(state, code.place, code.body.as_slice())
}

/// How a run ends: its variables are let go, what was written last first, and its effects stay.
fn finish(state: State, done: Result<Completion, Stop>) -> Result<Effects, Stop>
    ensures ok { IfOk done (λ _. result ≡ Ok state.effects) }
    ensures stop { IfErr done (λ stop. result ≡ Err stop) }
{
    let State {
        context,
        variables,
        effects,
        ..
    } = state;
    drop(context);
    variables.release();
    match done {
        Ok(_) => Ok(effects.into_effects()),
        Err(stop) => {
            drop(effects);
            Err(stop)
        }
    }
}

/// What a program says of a document, with so many visits. What it made is dropped no deeper than
/// an expression or a document nests.
#[tactic(auto, unfolding(sync_meaning::specs::Meaning::meaning_within), using(crate::proofs::Ends::finished))]
pub fn evaluate_within(
    alloc: Global,
    visits: u32,
    program: &Resolved,
    doc: &Doc,
    old: Option<&Doc>,
    context: &Context,
) -> Result<Effects, Stop>
    // It is what the definition says, but for `Memory`.
    ensures { Gives (spec.meaning_within visits program.now (node_tree doc.now)
        (option_map (λ doc. node_tree doc.now) old.entry) context.now) result }
{
    let mut state = begin(alloc, visits, program, doc, old, context)?;
    let done = body(alloc, u64::from(visits) * 2 + 2, program, &mut state);
    finish(state, done)
}

/// What a program says of a document, the one before it and who writes: the effects, or the rule
/// that denies. `Memory` may come in the place of any answer.
pub(crate) fn evaluate(
    alloc: Global,
    program: &Resolved,
    doc: &Doc,
    old: Option<&Doc>,
    context: &Context,
) -> Result<Effects, Stop>
    ensures { Gives (spec.meaning program.now (node_tree doc.now)
        (option_map (λ doc. node_tree doc.now) old.entry) context.now) result }
{
    evaluate_within(alloc, VISITS, program, doc, old, context)
}
