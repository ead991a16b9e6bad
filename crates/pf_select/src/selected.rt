ghost use Rattle.std.specs.Prelude.{◌≡◌, ◌+◌, ◌*◌, ◌/◌, ◌≤◌, [], ◌∷◌, codes, length, IfOk};
ghost use Rattle.pf_rows.specs.Meaning.Scratch.{scratch_bytes};
ghost use Rattle.pf_select.specs.Meaning.MinOfTaps.{IsMinOfTaps};
ghost use Rattle.pf_select.specs.Meaning.Selected.{IsSelected, output_of, head_of};

use crate::min_program::min_program;
use crate::operands::Operands;
use pf_ints::{Duplicate, Memory, Name, Sequence};
use pf_isa::{Head, write_text};
use pf_kernel::Kernel;
use pf_neon::Neon;
use pf_rows::scratch_size;
use pf_terms::{Definition, Definitions};
use std::alloc::Global;

/// Bytes of scratch for so many taps, and no slots.
fn scratch_of(taps: usize) -> u32
    requires { taps ≤ 64 }
    ensures { result ≡ scratch_bytes 16 taps 0 }
{
    scratch_size(16, taps, 0).unwrap()
}

fn output_name() -> Name
    ensures { result ≡ codes "out" }
{
    Name::new(b"out").unwrap()
}

fn lifted_of(alloc: Global, kernel: &Kernel) -> Result<Definitions, Memory>
    ensures { IfOk result (λ lifted. lifted ≡ output_of kernel.now.source ∷ []) }
{
    let mut lifted = Sequence::new(alloc);
    lifted.push(Definition {
        name: output_name(),
        ty: kernel.out_ty(),
        term: kernel.out().copy(alloc)?,
    })?;
    Ok(lifted)
}

fn head_of(alloc: Global, kernel: &Kernel) -> Result<Head, Memory>
    ensures { IfOk result (λ head. head ≡ head_of kernel.now.source) }
{
    let taps = kernel.names().taps.copy(alloc)?;
    let scratch = scratch_of(taps.len());
    Ok(Head {
        images: kernel.images().copy(alloc)?,
        taps,
        out_ty: kernel.out_ty(),
        scratch,
        lifted: lifted_of(alloc, kernel)?,
        cost: 1,
    })
}

/// The text that is selected for a kernel that is the lesser of these two taps.
pub fn text_of(alloc: Global, kernel: &Kernel, operands: Operands) -> Result<Vec<u8>, Memory>
    requires { IsMinOfTaps kernel.now.source operands.first operands.second }
    ensures { IfOk result (λ text. IsSelected kernel.now.source text.items) }
{
    let _names = kernel.names();
    let head = head_of(alloc, kernel)?;
    let program = min_program(alloc, head, operands.first, operands.second)?;
    let text = write_text::<Neon>(alloc, &program)?;
    Ok(text)
}
