ghost use Rattle.std.specs.Prelude.{◌≡◌, ◌+◌, ◌≤◌, ℕ, codes, map, sum, All, IfOk};
ghost use Rattle.pf_values.specs.Meaning.Terms.{weight_of};
ghost use Rattle.pf_bounds.specs.declared.ranges.Ranges.{Ranges as RangesOf};
ghost use Rattle.pf_rules.specs.declared.rule.Kind.TheVariants.{Lift};
ghost use Rattle.pf_kernel.specs.Meaning.Kernels.{IsKernelOf};
ghost use Rattle.pf_leaves.specs.Meaning.Leaves.{AreRanges};
ghost use Rattle.pf_lift.specs.Meaning.Kernels.{AreLiftsOf, written};
ghost use Rattle.pf_lift.specs.Steps.Written.{IsRanged};

use crate::lifting::lift_term;
use crate::steps::Steps;
use pf_bounds::Ranges;
use pf_check::CheckedFile;
use pf_ints::{Duplicate, Memory, Name};
use pf_kernel::Kernel;
use pf_leaves::ranges;
use pf_values::{Definition, Definitions};
use std::alloc::Global;
use std::sync::ledger::Ledger;

/// The kernel's definitions with their terms lifted, and last its output, named `out`. The counter
/// rises by the number of all steps, which is at most what the kernel's terms weigh. After want of
/// memory it has risen by at most that.
pub fn lift<L: Ledger>(
    alloc: Global,
    rules: &CheckedFile,
    kernel: &Kernel,
    steps: &mut Steps<L>,
) -> Result<Definitions, Memory>
    requires { rules.now.kind ≡ Lift }
    ensures lifts { IfOk result (λ es. (r : RangesOf) × AreRanges kernel.now.source.images kernel.now.source.taps kernel.now.source.defs r × (n : ℕ) × (steps.new ≡ steps.old + n) × AreLiftsOf rules.now.rules r n (written kernel.now.source) es) }
    ensures few { steps.new ≤ steps.old + sum (map (λ d. weight_of d.term) (written kernel.now.source)) }
{
    let taps = &kernel.names().taps;
    let found = ranges(alloc, kernel.images(), taps, kernel.defs())?;
    let all = written(alloc, kernel)?;
    lift_all(alloc, rules, all.as_slice(), &found, steps)
}

fn written(alloc: Global, kernel: &Kernel) -> Result<Definitions, Memory>
    ensures { IfOk result (λ all. all ≡ written kernel.now.source) }
{
    let mut all = kernel.defs().copy(alloc)?;
    let term = kernel.out().copy(alloc)?;
    all.push(Definition {
        name: output_name(),
        ty: kernel.out_ty(),
        term,
    })?;
    Ok(all)
}

fn output_name() -> Name
    ensures { result ≡ codes "out" }
{
    Name::new(b"out").unwrap()
}

fn lift_all<L: Ledger>(
    alloc: Global,
    rules: &CheckedFile,
    written: &[Definition],
    ranges: &Ranges,
    steps: &mut Steps<L>,
) -> Result<Definitions, Memory>
    requires kind { rules.now.kind ≡ Lift }
    requires ranged { All (λ d. IsRanged ranges.now d) written.now }
    ensures lifts { IfOk result (λ es. (n : ℕ) × (steps.new ≡ steps.old + n) × AreLiftsOf rules.now.rules ranges.now n written.now es) }
    ensures few { steps.new ≤ steps.old + sum (map (λ d. weight_of d.term) written.now) }
{
    let mut lifted = Definitions::new(alloc);
    for def in written {
        let term = lift_term(alloc, rules, &def.term, ranges, steps)?;
        lifted.push(Definition {
            name: def.name,
            ty: def.ty,
            term,
        })?;
    }
    Ok(lifted)
}
