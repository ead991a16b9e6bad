ghost use Rattle.std.specs.Prelude.{◌≡◌};

use pf_ints::{LaneType, Path};
use std::alloc::{AllocError, AllocFailed};

/// Why a term has no type.
#[derive(Drop)]
pub enum TermFault {
    /// At the node of this path an operand's type, or the stated type, is `got` where `want` is asked for.
    Types {
        path: Path,
        want: LaneType,
        got: LaneType,
    },
    /// The node of this path has an amount that its operator doesn't take.
    Amount {
        path: Path,
        amount: i128,
    },
    /// Want of memory.
    Memory,
}

impl From<AllocError> for TermFault {
    ghost use Rattle.pf_values.specs.declared.fault.TermFault.TheVariants.{Memory};

    ghost from_gives = { λ _ e. e ≡ Memory };

    fn from(_error: AllocError) -> TermFault {
        TermFault::Memory
    }
}

impl<T: Drop> From<AllocFailed<T>> for TermFault {
    ghost use Rattle.pf_values.specs.declared.fault.TermFault.TheVariants.{Memory};

    ghost from_gives = { λ _ e. e ≡ Memory };

    fn from(_error: AllocFailed<T>) -> TermFault {
        TermFault::Memory
    }
}
