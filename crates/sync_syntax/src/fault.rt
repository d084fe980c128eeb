use std::alloc::AllocError;
use sync_tokens::{Place, SyntaxWhy};

/// Where a text stops being a program of the sync language, and why.
#[derive(Clone, Copy, Debug, PartialEq, Eq)]
pub struct SyntaxFault {
    pub place: Place,
    pub why: SyntaxWhy,
}

/// Why a text gives no program. `Memory` says that memory ran out, which may come at any text.
#[derive(Clone, Copy, Debug, PartialEq, Eq)]
pub enum ParseFault {
    Bad(SyntaxFault),
    Memory,
}

impl From<AllocError> for ParseFault {
    ghost use Rattle.std.specs.Prelude.{◌≡◌};
    ghost use Rattle.sync_syntax.specs.declared.fault.ParseFault.{ParseFault};
    ghost use Rattle.sync_syntax.specs.declared.fault.ParseFault.TheVariants.{Memory};

    ghost from_gives = { λ _ fault. fault ≡ Memory };

    fn from(_error: AllocError) -> ParseFault {
        ParseFault::Memory
    }
}
