// Why nothing was written.
ghost use Rattle.std.specs.Prelude.{◌≡◌};
ghost use Rattle.wcv_encode.specs.declared.fault.Unwritten.TheVariants.{Memory};

use std::alloc::{AllocError, AllocFailed};

/// Why nothing was written, or only a part.
#[derive(Clone, Copy, Debug, PartialEq, Eq, Drop)]
pub(crate) enum Unwritten {
    Memory,
    /// It has no bytes.
    NoBytes,
}

impl From<AllocError> for Unwritten {
    ghost use Rattle.std.specs.Prelude.{◌≡◌};
    ghost use Rattle.wcv_encode.specs.declared.fault.Unwritten.TheVariants.{Memory};

    ghost from_gives = { λ _ e. e ≡ Memory };

    fn from(_: AllocError) -> Unwritten {
        Unwritten::Memory
    }
}

impl<T: Drop> From<AllocFailed<T>> for Unwritten {
    ghost use Rattle.std.specs.Prelude.{◌≡◌};
    ghost use Rattle.wcv_encode.specs.declared.fault.Unwritten.TheVariants.{Memory};

    ghost from_gives = { λ _ e. e ≡ Memory };

    fn from(_: AllocFailed<T>) -> Unwritten {
        Unwritten::Memory
    }
}
