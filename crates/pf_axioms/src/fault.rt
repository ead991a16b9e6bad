use pf_ints::Interval;
use pf_templates::BuildFault;

/// Why a form isn't rewritten.
#[derive(Debug, Drop)]
pub enum StepFault {
    /// The form isn't the left form of the axiom, or its types or exponents are not such as the
    /// axiom asks for.
    NoMatch,
    /// An interval that the axiom asks for doesn't exist, or the new form would hold a number
    /// further than 2^120 from 0 or an exponent above 119.
    TooWide,
    /// The intervals that the axiom asks for don't meet its condition; `got` is that of its x.
    NotGranted { got: Interval },
    /// Want of memory.
    Memory,
}

impl From<BuildFault> for StepFault {
    ghost use Rattle.std.specs.Prelude.{◌≡◌};
    ghost use Rattle.pf_axioms.specs.Meaning.Faults.{fault_of};

    ghost from_gives = { λ fault e. e ≡ fault_of fault };

    fn from(fault: BuildFault) -> StepFault {
        match fault {
            BuildFault::TooWide => StepFault::TooWide,
            BuildFault::Memory => StepFault::Memory,
        }
    }
}
