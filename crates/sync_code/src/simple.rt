//! The code of the parts of statements that hold no statement.

ghost use Rattle.std.specs.Prelude.{◌≡◌, ◌&&◌, Some, IfOk, OnOk};
ghost use Rattle.sync_syntax.specs.declared.tree.Simple as Simple;
ghost use Rattle.sync_meaning.specs.Variables.{all_declared, started};
ghost use Rattle.sync_code.specs.Code.{fits_or_none, slot_fits, source_or_none};
ghost use Rattle.sync_code.specs.Made.{IsCode};
ghost use Rattle.sync_code.specs.Steps.{begin_fits, begin_or_none, begin_or_none_fits, begin_source, held_source, name_sources, names_fit, new_fits, opening_fits, opening_source, plain_fits, plain_or_none, plain_or_none_fits, plain_source};

use crate::Memory;
use crate::code::{Begin, Code, Held, Opening, Plain};
use crate::expression::{boxed, code_of, code_or_none, slot_of};
use crate::slots::Slots;
use sqlite_items::{Boxed, Items};
use std::alloc::Global;
use sync_meaning::Scope;
use sync_syntax::tree::{Declaration, Declares, Expr, Named, Simple, Start, Writes};

/// A variable that is written.
fn written(alloc: Global, slots: &mut Slots, scope: &Scope, name: &Named) -> Result<Held, Memory>
    ensures { IfOk result (λ made. IsCode (held_source made) name.now
        (slot_fits made.slot scope.now)) }
{
    Ok(Held {
        place: name.place,
        slot: slot_of(alloc, slots, scope, &name.name)?,
    })
}

/// A variable that is declared.
pub(crate) fn declared(
    alloc: Global,
    slots: &mut Slots,
    scope: &Scope,
    declares: Declares,
    name: &Named,
) -> Result<Held, Memory>
    ensures { IfOk result (λ made. IsCode (held_source made) name.now
        (new_fits declares made scope.now)) }
{
    Ok(Held {
        place: name.place,
        slot: slots.slot(alloc, &name.name, scope.new_number(declares))?,
    })
}

/// One variable that is declared, with its value.
fn declared_one(
    alloc: Global,
    slots: &mut Slots,
    scope: &Scope,
    declares: Declares,
    name: &(Named, Option<Boxed<Expr>>),
) -> Result<(Held, Option<Boxed<Code>>), Memory>
    ensures held { IfOk result (λ made. IsCode (held_source made.0) name.now.0
        (new_fits declares made.0 scope.now)) }
    ensures value { IfOk result (λ made. IsCode (source_or_none made.1) name.now.1
        (fits_or_none made.1 scope.now)) }
{
    let held = declared(alloc, slots, scope, declares, &name.0)?;
    match code_or_none(alloc, slots, scope, &name.1) {
        Ok(code) => Ok((held, code)),
        Err(fault) => {
            drop(held);
            Err(fault)
        }
    }
}

/// The variables of a declaration, each of which is seen behind its own value.
fn declared_all(
    alloc: Global,
    slots: &mut Slots,
    scope: &mut Scope,
    declares: Declares,
    found: &[(Named, Option<Boxed<Expr>>)],
) -> Result<Items<(Held, Option<Boxed<Code>>)>, Memory>
    ensures code { IfOk result (λ made. IsCode (name_sources made) found.now
        (names_fit declares made scope.old)) }
    ensures seen { OnOk result (scope.new ≡ all_declared declares found.now scope.old) }
{
    let mut made = Items::new(alloc);
    for name in found {
        made.push(declared_one(alloc, slots, scope, declares, name)?)?;
        scope.declare(alloc, declares, &name.0.name)?;
    }
    Ok(made)
}

/// The code of a declaration, behind which its variables are seen.
pub(crate) fn opening(
    alloc: Global,
    slots: &mut Slots,
    scope: &mut Scope,
    found: &Declaration,
) -> Result<Opening, Memory>
    ensures code { IfOk result (λ made. IsCode (opening_source made) found.now
        (opening_fits made scope.old)) }
    ensures seen { OnOk result (scope.new
        ≡ all_declared found.now.declares found.now.names scope.old) }
{
    let names = declared_all(alloc, slots, scope, found.declares, found.names.as_slice())?;
    Ok(Opening {
        place: found.place,
        declares: found.declares,
        names,
    })
}

fn write(
    alloc: Global,
    slots: &mut Slots,
    scope: &Scope,
    name: &Named,
    how: Writes,
    expr: &Expr,
) -> Result<Plain, Memory>
    ensures { IfOk result (λ made. IsCode (plain_source made) (Simple.Write name.now how expr.now)
        (plain_fits made scope.now)) }
{
    let held = written(alloc, slots, scope, name)?;
    match boxed(alloc, slots, scope, expr) {
        Ok(code) => Ok(Plain::Write(held, how, code)),
        Err(fault) => {
            drop(held);
            Err(fault)
        }
    }
}

/// The code of a simple statement.
pub(crate) fn plain(
    alloc: Global,
    slots: &mut Slots,
    scope: &Scope,
    simple: &Simple,
) -> Result<Plain, Memory>
    ensures { IfOk result (λ made. IsCode (plain_source made) simple.now
        (plain_fits made scope.now)) }
{
    match simple {
        Simple::Write(name, how, expr) => write(alloc, slots, scope, name, *how, expr.get()),
        Simple::Increment(name) => Ok(Plain::Increment(written(alloc, slots, scope, name)?)),
        Simple::Decrement(name) => Ok(Plain::Decrement(written(alloc, slots, scope, name)?)),
        Simple::Value(place, expr) => {
            Ok(Plain::Value(*place, code_of(alloc, slots, scope, expr)?))
        }
    }
}

fn boxed_plain(
    alloc: Global,
    slots: &mut Slots,
    scope: &Scope,
    simple: &Simple,
) -> Result<Boxed<Plain>, Memory>
    ensures { IfOk result (λ made. IsCode (plain_source made) simple.now
        (plain_fits made scope.now)) }
{
    let plain = plain(alloc, slots, scope, simple)?;
    Boxed::new(alloc, plain)
}

/// The code of a simple statement that may be absent.
pub(crate) fn plain_if_any(
    alloc: Global,
    slots: &mut Slots,
    scope: &Scope,
    simple: &Option<Boxed<Simple>>,
) -> Result<Option<Boxed<Plain>>, Memory>
    ensures { IfOk result (λ made. IsCode (plain_or_none made) simple.now
        (plain_or_none_fits made scope.now)) }
{
    match simple {
        Some(simple) => Ok(Some(boxed_plain(alloc, slots, scope, simple.get())?)),
        None => Ok(None),
    }
}

fn begin(
    alloc: Global,
    slots: &mut Slots,
    scope: &mut Scope,
    start: &Start,
) -> Result<Begin, Memory>
    ensures code { IfOk result (λ made. IsCode (begin_source made) start.now
        (begin_fits made scope.old)) }
    ensures seen { OnOk result (scope.new ≡ started (Some start.now) scope.old) }
{
    match start {
        Start::Declare(found) => Ok(Begin::Declare(opening(alloc, slots, scope, found)?)),
        Start::Simple(found) => Ok(Begin::Simple(plain(alloc, slots, scope, found)?)),
    }
}

fn boxed_begin(
    alloc: Global,
    slots: &mut Slots,
    scope: &mut Scope,
    start: &Start,
) -> Result<Boxed<Begin>, Memory>
    ensures code { IfOk result (λ made. IsCode (begin_source made) start.now
        (begin_fits made scope.old)) }
    ensures seen { OnOk result (scope.new ≡ started (Some start.now) scope.old) }
{
    let begin = begin(alloc, slots, scope, start)?;
    Boxed::new(alloc, begin)
}

/// The code of the beginning of a `for`, which may be absent, and behind which its variables are
/// seen.
pub(crate) fn begin_if_any(
    alloc: Global,
    slots: &mut Slots,
    scope: &mut Scope,
    start: &Option<Boxed<Start>>,
) -> Result<Option<Boxed<Begin>>, Memory>
    ensures code { IfOk result (λ made. IsCode (begin_or_none made) start.now
        (begin_or_none_fits made scope.old)) }
    ensures seen { OnOk result (scope.new ≡ started start.now scope.old) }
{
    match start {
        Some(start) => Ok(Some(boxed_begin(alloc, slots, scope, start.get())?)),
        None => Ok(None),
    }
}
