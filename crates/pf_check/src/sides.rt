ghost use Rattle.std.specs.Prelude.{◌≡◌, ◌+◌, ◌<◌, map};
ghost use Rattle.pf_rules.specs.Meaning.Sorts.{place, sorting};
ghost use Rattle.pf_check.specs.Meaning.Orders.{first_some};
ghost use Rattle.pf_check.specs.Meaning.Faults.{Says};
ghost use Rattle.pf_check.specs.Meaning.Checks.{types_fault};
ghost use Rattle.pf_check.specs.Steps.Answers.{SortsSide};

use crate::fault::RuleFault;
use pf_forms::same_type;
use pf_ints::{LaneType, Path};
use pf_rules::{Kind, Pair, Pattern, RuleParts, SortFault, VarList, sort_of, type_of};
use std::alloc::Global;

/// That at each width and shift both sides have one type. Whether amounts are in their ranges is
/// judged too, or isn't.
pub(crate) fn have_types(
    alloc: Global,
    amounts: bool,
    kind: Kind,
    parts: &RuleParts,
    pairs: &[Pair],
) -> Result<(), RuleFault>
    ensures { Says result (first_some (map (types_fault amounts kind parts.now) pairs.now)) }
{
    match pairs {
        [] => Ok(()),
        [pair, rest @ ..] => {
            has_type(alloc, amounts, kind, parts, *pair)?;
            have_types(alloc, amounts, kind, parts, rest)
        }
    }
}

fn has_type(
    alloc: Global,
    amounts: bool,
    kind: Kind,
    parts: &RuleParts,
    pair: Pair,
) -> Result<(), RuleFault>
    ensures { Says result (types_fault amounts kind parts.now pair) }
{
    let left = side_type(alloc, amounts, kind, true, &parts.lhs, &parts.vars, pair)?;
    let right = side_type(alloc, amounts, kind, false, &parts.rhs, &parts.vars, pair)?;
    if same_type(left, right) {
        Ok(())
    } else {
        Err(RuleFault::Types {
            left: false,
            path: Path::new(alloc),
        })
    }
}

fn side_type(
    alloc: Global,
    amounts: bool,
    kind: Kind,
    left: bool,
    side: &Pattern,
    vars: &VarList,
    pair: Pair,
) -> Result<LaneType, RuleFault>
    ensures { SortsSide left result (sorting amounts kind (place pair.w pair.k vars.now) side.now) }
{
    let found = if amounts {
        sort_of(alloc, side, vars, kind, pair.w, pair.k)
    } else {
        type_of(alloc, side, vars, kind, pair.w, pair.k)
    };
    match found {
        Ok(ty) => Ok(ty),
        Err(SortFault::Types { path }) => Err(RuleFault::Types { left, path }),
        Err(SortFault::Amount { path, amount }) => Err(RuleFault::Immediate { left, path, amount }),
        Err(SortFault::Memory) => Err(RuleFault::Memory),
    }
}
