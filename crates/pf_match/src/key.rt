ghost use Rattle.std.specs.Prelude.{◌≡◌, None, IfOk};
ghost use Rattle.pf_rules.specs.Meaning.Rules.{first_bad};

use crate::roots::{pattern_root, types_at};
use pf_ints::{LaneType, Memory, Sequence};
use pf_rules::{PairsFault, Rule, pairs};
use pf_values::Op;
use std::alloc::{AllocError, Global};

/// Types of lanes.
pub type TypeList = Sequence<LaneType>;

/// What an index keeps of a rule: the operator at the root of its left side, and the types that
/// the left side has at the rule's widths and shifts.
#[derive(Drop)]
pub struct RuleKey {
    pub op: Option<Op>,
    pub types: TypeList,
}

impl RuleKey {
    ghost use Rattle.pf_match.specs.Meaning.Candidates.{key_of};

    pub(crate) fn of(alloc: Global, rule: &Rule) -> Result<RuleKey, Memory>
        requires { first_bad rule.now.widths rule.now.shift ≡ None }
        ensures { IfOk result (λ k. k ≡ key_of rule.now) }
    {
        let all = match pairs(alloc, rule) {
            Ok(all) => all,
            Err(PairsFault::Shift { .. }) => unreachable!(),
            Err(PairsFault::Memory) => return Err(AllocError),
        };
        let parts = rule.parts();
        let types = types_at(alloc, parts, all.as_slice())?;
        Ok(RuleKey {
            op: pattern_root(&parts.lhs),
            types,
        })
    }
}
