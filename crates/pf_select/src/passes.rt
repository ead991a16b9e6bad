ghost use Rattle.std.specs.Prelude.{◌≡◌, ◌↔◌, IsTrue, MatchResult};
ghost use Rattle.pf_ints.specs.declared.target.Target.TheVariants.{Neon as OnNeon};
ghost use Rattle.pf_values.specs.Meaning.Kernels.{Source};
ghost use Rattle.pf_select.specs.Meaning.Targets.{IsBuilt, IsSelectedOn};

use crate::operands::operands_of;
use crate::selected::text_of;
use pf_ints::Target;
use pf_kernel::Kernel;
use std::alloc::{AllocError, Global};

/// Why there is no text.
#[derive(Clone, Copy, Debug, PartialEq, Eq)]
pub enum SelectFault {
    /// None is selected for this kernel on this target.
    NotBuilt,
    /// Memory was wanting.
    Memory,
}

impl From<AllocError> for SelectFault {
    ghost use Rattle.pf_select.specs.declared.passes.SelectFault.TheVariants.{Memory};

    ghost from_gives = { λ _ fault. fault ≡ Memory };

    fn from(_want: AllocError) -> SelectFault {
        SelectFault::Memory
    }
}

/// The text for neon, by the block of the lesser of two taps.
fn select_neon(alloc: Global, kernel: &Kernel) -> Result<Vec<u8>, SelectFault>
    ensures { MatchResult result (λ text. IsBuilt OnNeon kernel.now.source × IsSelectedOn OnNeon kernel.now.source text.items)
        (λ fault. fault ≡ SelectFault.NotBuilt → IsBuilt OnNeon kernel.now.source → ⊥) }
{
    let Some(operands) = operands_of(kernel) else {
        return Err(SelectFault::NotBuilt);
    };
    Ok(text_of(alloc, kernel, operands)?)
}

/// Selects a text of the target's instructions for the kernel. `NotBuilt` exactly where none is
/// selected for such a kernel there, or memory was wanting.
pub fn select(alloc: Global, kernel: &Kernel, target: Target) -> Result<Vec<u8>, SelectFault>
    ensures { MatchResult result (λ text. IsBuilt target kernel.now.source × IsSelectedOn target kernel.now.source text.items)
        (λ fault. fault ≡ SelectFault.NotBuilt → IsBuilt target kernel.now.source → ⊥) }
{
    match target {
        Target::Neon => select_neon(alloc, kernel),
        Target::Avx2 | Target::Hvx => Err(SelectFault::NotBuilt),
    }
}

/// Whether a text is selected for the target, of some kernel.
pub fn is_built(target: Target) -> bool
    ensures { IsTrue result ↔ ((s : Source) × IsBuilt target s) }
{
    match target {
        Target::Neon => true,
        Target::Avx2 | Target::Hvx => false,
    }
}
