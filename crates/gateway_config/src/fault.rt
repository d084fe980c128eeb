//! Why a configuration is refused.

use sg_history::{ConfigWhy, Path};
use std::alloc::{AllocError, AllocFailed};

/// Why a configuration is refused.
#[derive(Debug, Drop)]
pub enum ConfigFault {
    /// The first bad member, and why it is bad.
    Bad { path: Path, why: ConfigWhy },
    /// Memory ran out, which may come at any bytes.
    Memory,
}

impl From<AllocError> for ConfigFault {
    ghost use Rattle.std.specs.Prelude.{◌≡◌};
    ghost use Rattle.gateway_config.specs.declared.fault.ConfigFault.{ConfigFault};
    ghost use Rattle.gateway_config.specs.declared.fault.ConfigFault.TheVariants.{Memory};

    ghost from_gives = { λ _ fault. fault ≡ Memory };

    fn from(_: AllocError) -> ConfigFault {
        ConfigFault::Memory
    }
}

impl<T: Drop> From<AllocFailed<T>> for ConfigFault {
    ghost use Rattle.std.specs.Prelude.{◌≡◌};
    ghost use Rattle.gateway_config.specs.declared.fault.ConfigFault.{ConfigFault};
    ghost use Rattle.gateway_config.specs.declared.fault.ConfigFault.TheVariants.{Memory};

    ghost from_gives = { λ _ fault. fault ≡ Memory };

    fn from(_: AllocFailed<T>) -> ConfigFault {
        ConfigFault::Memory
    }
}
