//! The names that belong to a whole function: its parameters and those that `var` declares.

ghost use Rattle.std.specs.Prelude.{◌≡◌, [], ◌∷◌, ◌++◌, map, IfOk, OnOk};
ghost use Rattle.sync_resolve.specs.Resolving as resolving;
ghost use Rattle.sync_resolve.specs.Statements as spec;

use crate::Memory;
use json_doc::DocText;
use sqlite_items::{Boxed, Items};
use std::alloc::Global;
use sync_syntax::tree::{Declares, Expr, Named, Program, Start, Statement};

/// One name more.
fn add(alloc: Global, names: &mut Items<DocText>, name: &DocText) -> Result<(), Memory>
    ensures { OnOk result (names.new ≡ names.old ++ name.now ∷ []) }
{
    names.push(name.copy(alloc)?)
}

/// The names of a declaration.
fn add_declared(
    alloc: Global,
    names: &mut Items<DocText>,
    declares: Declares,
    found: &[(Named, Option<Boxed<Expr>>)],
) -> Result<(), Memory>
    ensures { OnOk result (names.new ≡ names.old ++ spec.names_by declares found.now) }
{
    if declares == Declares::Var {
        add_all(alloc, names, found)?;
    }
    Ok(())
}

fn add_all(
    alloc: Global,
    names: &mut Items<DocText>,
    found: &[(Named, Option<Boxed<Expr>>)],
) -> Result<(), Memory>
    ensures { OnOk result (names.new ≡ names.old ++ map (λ n. n.0.name) found.now) }
{
    for one in found {
        add(alloc, names, &one.0.name)?;
    }
    Ok(())
}

/// The names of the beginning of a `for`.
fn add_start(
    alloc: Global,
    names: &mut Items<DocText>,
    start: &Option<Boxed<Start>>,
) -> Result<(), Memory>
    ensures { OnOk result (names.new ≡ names.old ++ spec.names_at_start start.now) }
{
    match start {
        Some(start) => match start.get() {
            Start::Declare(found) => {
                add_declared(alloc, names, found.declares, found.names.as_slice())
            }
            Start::Simple(_) => Ok(()),
        },
        None => Ok(()),
    }
}

/// The name of a `for .. of`.
fn add_each(
    alloc: Global,
    names: &mut Items<DocText>,
    declares: Declares,
    name: &DocText,
) -> Result<(), Memory>
    ensures { OnOk result (names.new ≡ names.old ++ spec.name_of_each declares name.now) }
{
    match declares {
        Declares::Var => add(alloc, names, name),
        Declares::Let | Declares::Const => Ok(()),
    }
}

/// The names of a statement.
#[cycle(own)]
fn add_names(alloc: Global, names: &mut Items<DocText>, statement: &Statement) -> Result<(), Memory>
    ensures { OnOk result (names.new ≡ names.old ++ spec.var_names statement.now) }
{
    match statement {
        Statement::Block(_, statements) => add_all_names(alloc, names, statements.as_slice()),
        Statement::Declare(found) => {
            add_declared(alloc, names, found.declares, found.names.as_slice())
        }
        Statement::If(_, _, first, other) => {
            add_names(alloc, names, first.get())?;
            match other {
                Some(other) => add_names(alloc, names, other.get()),
                None => Ok(()),
            }
        }
        Statement::For(_, start, _, _, body) => {
            add_start(alloc, names, start)?;
            add_names(alloc, names, body.get())
        }
        Statement::ForOf(_, declares, name, _, body) => {
            add_each(alloc, names, *declares, &name.name)?;
            add_names(alloc, names, body.get())
        }
        _ => Ok(()),
    }
}

/// The names of statements.
#[cycle(own)]
fn add_all_names(
    alloc: Global,
    names: &mut Items<DocText>,
    statements: &[Statement],
) -> Result<(), Memory>
    ensures { OnOk result (names.new ≡ names.old ++ spec.all_var_names statements.now) }
{
    for statement in statements {
        add_names(alloc, names, statement)?;
    }
    Ok(())
}

/// The names of a program, behind those that stand there.
#[tactic(auto, unfolding(crate::specs::Resolving::own_names))]
fn add_own(alloc: Global, names: &mut Items<DocText>, program: &Program) -> Result<(), Memory>
    ensures { OnOk result (names.new ≡ names.old ++ resolving.own_names program.now) }
{
    add(alloc, names, &program.first.name)?;
    if let Some(second) = &program.second {
        add(alloc, names, &second.name)?;
    }
    add_all_names(alloc, names, program.body.as_slice())
}

/// The names of a program.
pub(crate) fn own_names(alloc: Global, program: &Program) -> Result<Items<DocText>, Memory>
    ensures { IfOk result (λ names. names ≡ resolving.own_names program.now) }
{
    let mut names = Items::new(alloc);
    match add_own(alloc, &mut names, program) {
        Ok(()) => Ok(names),
        Err(error) => {
            drop(names);
            Err(error)
        }
    }
}
