ghost use Rattle.std.specs.Prelude.{◌≡◌, ◌≤◌, ◌≤ℤ◌, pos, MatchOption};
ghost use Rattle.pf_values.specs.declared.reach.Axis.TheVariants.{Columns, Rows};
ghost use Rattle.pf_values.specs.Meaning.Reach.{extent};

use crate::kernel::Kernel;
use pf_terms::{Axis, Tap, extent};

/// The width and the height in pixels of the kernel's output on images of this width and height, or
/// None where it has no pixel.
pub fn out_size(kernel: &Kernel, width: u32, height: u32) -> Option<(u32, u32)>
    ensures { let across = extent Columns kernel.now.source.taps width in
        let down = extent Rows kernel.now.source.taps height in
        MatchOption result ((pos 1 ≤ℤ across) → (pos 1 ≤ℤ down) → ⊥)
        (λ s. (pos s.0 ≡ across) × (pos s.1 ≡ down) × (1 ≤ s.0) × (1 ≤ s.1)) }
{
    let taps = kernel.names().taps.as_slice();
    let across = output_side(taps, Axis::Columns, width)?;
    let down = output_side(taps, Axis::Rows, height)?;
    Some((across, down))
}

fn output_side(taps: &[Tap], axis: Axis, size: u32) -> Option<u32>
    ensures { MatchOption result ((pos 1 ≤ℤ extent axis taps.now size) → ⊥) (λ n. (pos n ≡ extent axis taps.now size) × (1 ≤ n)) }
{
    let n = extent(axis, taps, size);
    if 1 <= n { Some(n as u32) } else { None }
}
