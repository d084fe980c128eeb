//! Programs whose names stand for something.

ghost use Rattle.std.specs.Prelude.{◌≡◌, ◌≢◌, ◌++◌, [], is_some, None, IfErr, IfOk, OnOk};
ghost use Rattle.sync_code.specs.Made.{IsCodeOf};
ghost use Rattle.sync_resolve.specs.declared.fault.ResolveFault.TheVariants.{Memory};
ghost use Rattle.sync_resolve.specs.Faults.{IsFirstFault, earliest};
ghost use Rattle.sync_resolve.specs.Names.{inside};
ghost use Rattle.sync_resolve.specs.Resolving as spec;
ghost use Rattle.sync_resolve.specs.Resolving.{IsResolved, faults};
ghost use Rattle.sync_resolve.specs.Statements.{walk_all};

use crate::Memory;
use crate::fault::ResolveFault;
use crate::own::own_names;
use crate::scope::Scope;
use crate::statement::statements;
use std::alloc::Global;
use std::marker::Model;
use sync_code::{ProgramCode, code_of_program};
use sync_syntax::Program;
use sync_syntax::tree::{self, Declares};

/// A program whose names all stand for variables, functions and methods, which contracts see as that
/// program. Its code is kept beside it, in which each name stands for a slot.
#[derive(Drop)]
pub struct Resolved {
    program: Program,
    code: ProgramCode,
}

impl Model for Resolved {
    ghost use Rattle.std.specs.Coded.{codes};
    ghost use Rattle.sync_syntax.specs.contracts.tree.Expr as expr;
    ghost use Rattle.sync_syntax.specs.contracts.tree.Statement as statement;
    ghost use Rattle.sync_syntax.specs.declared.tree.Program.{Program};
    ghost use Rattle.sync_code.specs.Made.{IsCodeOf};
    ghost use Rattle.sync_resolve.specs.Resolving.{IsResolved};

    ghost Value = { Program };

    ghost coded = { Prim.hlevel (codes, expr.the_row.coded, statement.the_row.coded) };

    ghost view = { λ r. r.program };

    ghost invariant = { λ r. IsResolved r.program × IsCodeOf r.code r.program };
}

impl Resolved {
    /// The program, whose names are without a fault.
    pub fn as_program(&self) -> &Program
        ensures value { result.now ≡ self.now }
        ensures resolved { IsResolved result.now }
    {
        &self.program
    }

    /// Whether it has a second parameter, which takes the document before.
    #[tactic(auto, using(crate::proofs::Second::both_or_none))]
    pub fn takes_old(&self) -> bool
        ensures { result ≡ is_some self.now.second }
    {
        self.code.second.is_some()
    }

    /// The program's code.
    pub fn as_code(&self) -> &ProgramCode
        ensures { IsCodeOf result.now self.now }
    {
        &self.code
    }
}

/// The parameters.
#[tactic(auto, unfolding(crate::specs::Resolving::parameter_faults), using(crate::proofs::Earliest::earliest_append))]
fn parameters(first: &mut Option<ResolveFault>, scope: &Scope, program: &tree::Program)
    ensures { first.new ≡ earliest first.old (spec.parameter_faults program.now scope.now) }
{
    scope.once(first, Declares::Var, &program.first);
    if let Some(second) = &program.second {
        scope.once(first, Declares::Var, second);
    }
}

/// The faults of a program's parameters and of its body.
#[tactic(auto, using(crate::proofs::Earliest::earliest_append))]
fn walk(
    alloc: Global,
    first: &mut Option<ResolveFault>,
    scope: &mut Scope,
    program: &tree::Program,
) -> Result<(), Memory>
    ensures { OnOk result (first.new ≡ earliest first.old
        (spec.parameter_faults program.now scope.old
        ++ (walk_all program.now.body (inside scope.old)).0)) }
{
    parameters(first, scope, program);
    scope.enter()?;
    statements(alloc, first, scope, program.body.as_slice())
}

/// The first fault of a program's names.
#[tactic(auto, unfolding(crate::specs::Resolving::faults))]
fn first_fault(alloc: Global, program: &tree::Program) -> Result<Option<ResolveFault>, Memory>
    ensures { IfOk result (λ first. first ≡ earliest None (faults program.now)) }
{
    let mut first = None;
    let mut scope = Scope::top(alloc, own_names(alloc, program)?);
    let done = walk(alloc, &mut first, &mut scope, program);
    drop(scope);
    match done {
        Ok(()) => Ok(first),
        Err(error) => Err(error),
    }
}

/// Whether a program's names have no fault, or else the first.
fn check(alloc: Global, program: &tree::Program) -> Result<(), ResolveFault>
    ensures ok { IfOk result (λ _. IsResolved program.now) }
    ensures fault { IfErr result (λ e. e ≢ Memory → IsFirstFault e (faults program.now)) }
{
    let first = first_fault(alloc, program)?;
    match first {
        Some(fault) => Err(fault),
        None => Ok(()),
    }
}

/// The code of a program, where its names have no fault.
fn code_of(alloc: Global, program: &tree::Program) -> Result<ProgramCode, ResolveFault>
    ensures ok { IfOk result (λ code. IsResolved program.now × IsCodeOf code program.now) }
    ensures fault { IfErr result (λ e. e ≢ Memory → IsFirstFault e (faults program.now)) }
{
    check(alloc, program)?;
    Ok(code_of_program(alloc, program)?)
}

/// Resolves the names of a program. The fault is the first in the order of the text, and where two
/// have one place a wrong count is the last. `Memory` may come in the place of any answer.
pub fn resolve(alloc: Global, program: Program) -> Result<Resolved, ResolveFault>
    // It is the program, where its names have no fault.
    ensures ok { IfOk result (λ resolved. (resolved ≡ program) × IsResolved program) }
    // Else it is the first fault, but for `Memory`.
    ensures fault { IfErr result (λ e. e ≢ Memory → IsFirstFault e (faults program)) }
{
    match code_of(alloc, program.as_tree()) {
        Ok(code) => Ok(Resolved { program, code }),
        Err(fault) => {
            drop(program);
            Err(fault)
        }
    }
}
