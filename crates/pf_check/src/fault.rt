ghost use Rattle.std.specs.Prelude.{◌≡◌};

use pf_axioms::StepFault;
use pf_forms::Form;
use pf_ints::Path;
use std::alloc::{AllocError, AllocFailed};

/// Why a rule is refused.
#[derive(Drop)]
pub enum RuleFault {
    /// The node at the path of a side has no type at some width and shift, or, at the right side's
    /// root, the two sides' types differ.
    Types {
        left: bool,
        path: Path,
    },
    /// At this width and shift the variable's range isn't a part of its type's, or is empty. Where
    /// no variable is told, the shift's own range is no part of 0 to 63, or is empty.
    Range {
        var: Option<u8>,
        w: u8,
        k: u8,
    },
    /// A rule that lifts has a right side that isn't lighter. These are the weights.
    Heavier {
        left: u64,
        right: u64,
    },
    /// A rule that lifts has the variable more often in its right side.
    Repeats {
        var: u8,
    },
    /// The node at the path of a side has an amount outside its operator's range at some width and
    /// shift.
    Immediate {
        left: bool,
        path: Path,
        amount: i128,
    },
    /// Step n, counted from 1, cites a rule that was refused.
    Cites {
        n: u32,
    },
    /// After step n a form has this many nodes, which are too many.
    TooLarge {
        n: u32,
        w: u8,
        k: u8,
        count: u64,
    },
    /// Step n doesn't rewrite.
    Step {
        n: u32,
        w: u8,
        k: u8,
        fault: StepFault,
    },
    /// After all steps the two forms differ.
    Apart {
        w: u8,
        k: u8,
        left: Form,
        right: Form,
    },
    /// Want of memory.
    Memory,
}

impl From<AllocError> for RuleFault {
    ghost use Rattle.pf_check.specs.declared.fault.RuleFault.TheVariants.{Memory};

    ghost from_gives = { λ _ e. e ≡ Memory };

    fn from(_error: AllocError) -> RuleFault {
        RuleFault::Memory
    }
}

impl<T: Drop> From<AllocFailed<T>> for RuleFault {
    ghost use Rattle.pf_check.specs.declared.fault.RuleFault.TheVariants.{Memory};

    ghost from_gives = { λ _ e. e ≡ Memory };

    fn from(_error: AllocFailed<T>) -> RuleFault {
        RuleFault::Memory
    }
}
