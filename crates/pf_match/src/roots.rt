ghost use Rattle.std.specs.Prelude.{◌≡◌, IfOk};
ghost use Rattle.pf_match.specs.Meaning.Candidates.{pattern_root, type_at, types_at};

use crate::key::TypeList;
use pf_ints::{LaneType, Memory, Sequence};
use pf_rules::{Kind, Pair, Pattern, RuleParts, SortFault, sort_of};
use pf_values::Op;
use std::alloc::{AllocError, Global};

/// The operator at the root of a pattern.
pub(crate) fn pattern_root(pattern: &Pattern) -> Option<Op>
    ensures { result ≡ pattern_root pattern.now }
{
    match pattern {
        Pattern::Node { op, .. } => Some(*op),
        _ => None,
    }
}

/// The types of the left side at these widths and shifts, in order.
pub(crate) fn types_at(alloc: Global, parts: &RuleParts, pairs: &[Pair]) -> Result<TypeList, Memory>
    ensures { IfOk result (λ ts. ts ≡ types_at parts.now pairs.now) }
{
    let mut types = Sequence::new(alloc);
    for pair in pairs {
        let found = type_at(alloc, parts, *pair)?;
        if let Some(ty) = found {
            types.push(ty)?;
        }
    }
    Ok(types)
}

/// The type of the left side at a width and a shift, if it has one there.
fn type_at(alloc: Global, parts: &RuleParts, pair: Pair) -> Result<Option<LaneType>, Memory>
    ensures { IfOk result (λ t. t ≡ type_at parts.now pair) }
{
    match sort_of(alloc, &parts.lhs, &parts.vars, Kind::Lift, pair.w, pair.k) {
        Ok(ty) => Ok(Some(ty)),
        Err(SortFault::Memory) => Err(AllocError),
        Err(SortFault::Types { .. }) | Err(SortFault::Amount { .. }) => Ok(None),
    }
}
