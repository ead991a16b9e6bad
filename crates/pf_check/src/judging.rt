ghost use Rattle.std.specs.Prelude.{◌≡◌, length, None, OnOk, true, IfOk, IfErr, MatchResult};
ghost use Rattle.pf_rules.specs.Meaning.Rules.{suits};
ghost use Rattle.pf_check.specs.Meaning.Faults.{IsFaultOver, Says, Tells};
ghost use Rattle.pf_check.specs.Meaning.Accepts.{Accepted, first_fault};
ghost use Rattle.pf_check.specs.Steps.Pairs.{from_types, from_ranges, from_weights, from_amounts, from_cites, AllChecked, AllTyped, Lasts};

use crate::certifying::{are_certified, are_citable, have_ranges};
use crate::checked::{Checked, EarlierList};
use crate::fault::RuleFault;
use crate::lifting::lifts_lighter;
use crate::sides::have_types;
use pf_rules::{Kind, Pair, PairsFault, Rule, RuleParts, pairs};
use std::alloc::Global;

/// The rule as a checked one, or the rule and why it is refused: the first fault in this order. The
/// range of the shift; types, at all widths and shifts; the variables' ranges; weights, and
/// variables that stand more often; amounts; a step that cites a refused rule; the replay of the
/// steps at each width and shift, in order. Widths ascend, and at each the shifts.
pub fn check_rule(
    alloc: Global,
    rule: Rule,
    kind: Kind,
    earlier: &EarlierList,
) -> Result<Checked, (Rule, RuleFault)>
    requires { suits kind rule ≡ true }
    ensures rule { IfOk result (λ c. c.rule ≡ rule) }
    ensures kind { IfOk result (λ c. c.kind ≡ kind) }
    ensures accepted { OnOk result (Accepted rule kind earlier.now) }
    ensures only { Accepted rule kind earlier.now → IfErr result (λ e. e.1 ≡ RuleFault.Memory) }
    ensures back { IfErr result (λ e. e.0 ≡ rule) }
    ensures fault { MatchResult result (λ _. first_fault rule kind earlier.now ≡ None) (λ e. Tells e.1 (first_fault rule kind earlier.now)) }
    ensures over { IfErr result (λ e. IsFaultOver (length rule.vars) e.1) }
{
    are_checked(earlier.as_slice());
    match judge(alloc, &rule, kind, earlier) {
        Ok(()) => Ok(Checked::new(rule, kind)),
        Err(fault) => Err((rule, fault)),
    }
}

/// The earlier rules are checked ones.
fn are_checked(earlier: &[Option<Checked>])
    ensures { AllChecked earlier.now }
{
    match earlier {
        [] => {}
        [entry, rest @ ..] => {
            if let Some(checked) = entry {
                let _rule = checked.rule();
            }
            are_checked(rest);
        }
    }
}

fn judge(alloc: Global, rule: &Rule, kind: Kind, earlier: &EarlierList) -> Result<(), RuleFault>
    ensures { Says result (first_fault rule.now kind earlier.now) }
{
    match pairs(alloc, rule) {
        Ok(all) => judge_types(alloc, rule.parts(), kind, earlier, all.as_slice()),
        Err(PairsFault::Shift { w }) => Err(RuleFault::Range { var: None, w, k: 0 }),
        Err(PairsFault::Memory) => Err(RuleFault::Memory),
    }
}

/// The first fault at these widths and shifts.
fn judge_types(
    alloc: Global,
    parts: &RuleParts,
    kind: Kind,
    earlier: &EarlierList,
    pairs: &[Pair],
) -> Result<(), RuleFault>
    requires { Lasts parts.now }
    ensures { Says result (from_types parts.now kind earlier.now pairs.now) }
{
    have_types(alloc, false, kind, parts, pairs)?;
    judge_ranges(alloc, parts, kind, earlier, pairs)
}

fn judge_ranges(
    alloc: Global,
    parts: &RuleParts,
    kind: Kind,
    earlier: &EarlierList,
    pairs: &[Pair],
) -> Result<(), RuleFault>
    requires { Lasts parts.now }
    ensures { Says result (from_ranges parts.now kind earlier.now pairs.now) }
{
    have_ranges(alloc, parts, pairs)?;
    judge_weights(alloc, parts, kind, earlier, pairs)
}

fn judge_weights(
    alloc: Global,
    parts: &RuleParts,
    kind: Kind,
    earlier: &EarlierList,
    pairs: &[Pair],
) -> Result<(), RuleFault>
    requires { Lasts parts.now }
    ensures { Says result (from_weights parts.now kind earlier.now pairs.now) }
{
    lifts_lighter(kind, parts)?;
    judge_amounts(alloc, parts, kind, earlier, pairs)
}

fn judge_amounts(
    alloc: Global,
    parts: &RuleParts,
    kind: Kind,
    earlier: &EarlierList,
    pairs: &[Pair],
) -> Result<(), RuleFault>
    requires { Lasts parts.now }
    ensures { Says result (from_amounts parts.now kind earlier.now pairs.now) }
{
    have_types(alloc, true, kind, parts, pairs)?;
    judge_steps(alloc, parts, kind, earlier, pairs)
}

fn judge_steps(
    alloc: Global,
    parts: &RuleParts,
    kind: Kind,
    earlier: &EarlierList,
    pairs: &[Pair],
) -> Result<(), RuleFault>
    requires lasts { Lasts parts.now }
    requires typed { AllTyped kind parts.now pairs.now }
    ensures { Says result (from_cites parts.now earlier.now pairs.now) }
{
    are_citable(earlier, 1, parts.steps.as_slice())?;
    are_certified(alloc, kind, parts, earlier, pairs)
}
