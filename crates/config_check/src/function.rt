//! Where the text of a sync function is refused, and why.

ghost use Rattle.std.specs.Prelude.{IfOk, Ok};
ghost use Rattle.sync_syntax.specs.Statements.{parsed};
ghost use Rattle.config_check.specs.inner.Finding.{IsFoundOf, IsNamedBy};

use std::alloc::{AllocError, Global};
use sync_resolve::{Memory, ResolveFault, resolve};
use sync_syntax::{ParseFault, Place, Program, SyntaxWhy, parse};

/// Why the text of a sync function is refused.
#[derive(Clone, Copy, Debug, PartialEq, Eq)]
pub enum FunctionWhy {
    /// The text is no program.
    Syntax(SyntaxWhy),
    /// A name that stands for nothing, or a call of what can't be called.
    UnknownName,
    /// A call with another count of arguments than is taken.
    WrongCount,
    /// A second declaration of a name, or one of a function's name.
    Redeclared,
    /// A constant that is written.
    ConstWritten,
}

/// Where the text of a sync function is refused, and why.
#[derive(Clone, Copy, Debug, PartialEq, Eq)]
pub struct FunctionFault {
    pub place: Place,
    pub why: FunctionWhy,
}

/// The fault of a name, but for memory that ran out.
fn named(fault: ResolveFault) -> Result<FunctionFault, Memory>
    ensures { IfOk result (λ named. IsNamedBy fault named.place named.why) }
{
    let (place, why) = match fault {
        ResolveFault::UnknownName(place) => (place, FunctionWhy::UnknownName),
        ResolveFault::WrongCount(place) => (place, FunctionWhy::WrongCount),
        ResolveFault::Redeclared(place) => (place, FunctionWhy::Redeclared),
        ResolveFault::ConstWritten(place) => (place, FunctionWhy::ConstWritten),
        ResolveFault::Memory => return Err(AllocError),
    };
    Ok(FunctionFault { place, why })
}

/// The first fault of a program's names.
fn name_fault(alloc: Global, program: Program) -> Result<Option<FunctionFault>, Memory>
    ensures { IfOk result (λ found. IsFoundOf (Ok program) found) }
{
    match resolve(alloc, program) {
        Ok(resolved) => {
            drop(resolved);
            Ok(None)
        }
        Err(fault) => Ok(Some(named(fault)?)),
    }
}

/// The first fault of a text.
pub(crate) fn function_fault(alloc: Global, text: &str) -> Result<Option<FunctionFault>, Memory>
    ensures { IfOk result (λ found. IsFoundOf (parsed text.now) found) }
{
    match parse(alloc, text) {
        Ok(program) => name_fault(alloc, program),
        Err(ParseFault::Bad(fault)) => Ok(Some(FunctionFault {
            place: fault.place,
            why: FunctionWhy::Syntax(fault.why),
        })),
        Err(ParseFault::Memory) => Err(AllocError),
    }
}
