//! What is wrong with a program's names.

ghost use Rattle.std.specs.Prelude.{◌≡◌};
ghost use Rattle.sync_resolve.specs.Faults as spec;

use std::alloc::AllocError;
use sync_tokens::Place;

/// Why a program's names stand for nothing, with the place of the name, or of the call. `Memory` is
/// lack of memory, which may come at any program.
#[derive(Clone, Copy, Debug, PartialEq, Eq)]
pub enum ResolveFault {
    /// A name that is declared nowhere in sight, or is that of a function that is built in and is
    /// used as a value or written; or a call of what can't be called.
    UnknownName(Place),
    /// A call with another count of arguments than the function or method takes.
    WrongCount(Place),
    /// A second `let` or `const` of a name in one block, or a declaration of a name that is that of
    /// a function that is built in.
    Redeclared(Place),
    /// A constant that is written.
    ConstWritten(Place),
    Memory,
}

impl From<AllocError> for ResolveFault {
    ghost use Rattle.std.specs.Prelude.{◌≡◌};
    ghost use Rattle.sync_resolve.specs.declared.fault.ResolveFault.{ResolveFault};
    ghost use Rattle.sync_resolve.specs.declared.fault.ResolveFault.TheVariants.{Memory};

    ghost from_gives = { λ _ fault. fault ≡ Memory };

    fn from(_error: AllocError) -> ResolveFault {
        ResolveFault::Memory
    }
}

fn place_of(fault: ResolveFault) -> Place
    ensures { result ≡ spec.fault_place fault }
{
    match fault {
        ResolveFault::UnknownName(place)
        | ResolveFault::WrongCount(place)
        | ResolveFault::Redeclared(place)
        | ResolveFault::ConstWritten(place) => place,
        ResolveFault::Memory => Place::START,
    }
}

fn is_count(fault: ResolveFault) -> bool
    ensures { result ≡ spec.is_wrong_count fault }
{
    matches!(fault, ResolveFault::WrongCount(_))
}

/// Whether one fault comes before another: by its place, and at one place a count comes last.
fn comes_before(fault: ResolveFault, other: ResolveFault) -> bool
    ensures { result ≡ spec.fault_comes_before fault other }
{
    let place = place_of(fault);
    let other_place = place_of(other);
    if place.line != other_place.line {
        place.line < other_place.line
    } else if place.column != other_place.column {
        place.column < other_place.column
    } else {
        !is_count(fault) && is_count(other)
    }
}

/// Keeps the earlier of the first fault so far and another.
#[tactic(auto, unfolding(crate::specs::Faults::earlier))]
pub(crate) fn note(first: &mut Option<ResolveFault>, fault: ResolveFault)
    ensures { first.new ≡ spec.earlier first.old fault }
{
    match *first {
        Some(found) => {
            if comes_before(fault, found) {
                *first = Some(fault);
            }
        }
        None => *first = Some(fault),
    }
}
