//! Files of rules, for a target or for any.

ghost use Rattle.std.specs.Prelude.{◌≡◌, ◌+◌};
ghost use Rattle.pf_outside.specs.Meaning.StoreCalls.{seen};
ghost use Rattle.pf_rulefile.specs.Meaning.RuleFiles.{byte_limit};
ghost use Rattle.pf_top.specs.Meaning.RuleFiles.{is_for, rules_for};
ghost use Rattle.pf_top.specs.Steps.RunSteps.{IsJudged, refusal, JudgedAs, JudgesAs};

use crate::fault::{FileFault, Stop};
use pf_images::Files;
use pf_ints::Target;
use pf_outside::read_front;
use pf_rulefile::{RuleTextFault, read_rules};
use pf_rules::{Kind, RuleFile};
use std::alloc::Global;

/// How many bytes of a file of rules are judged at most: one more than its limit.
#[tactic(auto, unfolding(pf_rulefile::specs::Meaning::RuleFiles::byte_limit))]
fn most_judged() -> u64
    ensures { result ≡ byte_limit + 1 }
{
    2_097_153
}

/// Whether rules of this kind are for the target, or for any.
fn is_for(target: Option<Target>, kind: Kind) -> bool
    ensures { result ≡ is_for target kind }
{
    match (target, kind) {
        (None, _) | (Some(_), Kind::Lift) => true,
        (Some(Target::Neon), Kind::Lower(Target::Neon)) => true,
        (Some(Target::Avx2), Kind::Lower(Target::Avx2)) => true,
        (Some(Target::Hvx), Kind::Lower(Target::Hvx)) => true,
        (Some(_), Kind::Lower(_)) => false,
    }
}

/// The rules that the text is of, the file of this number.
fn rules_of(
    alloc: Global,
    number: usize,
    target: Option<Target>,
    text: &[u8],
) -> Result<RuleFile, Stop>
    ensures { JudgesAs (rules_for target) number result text.now }
{
    match read_rules(alloc, text) {
        Ok(rules) => judge_kind(number, target, rules),
        Err(fault) => Err(refusal(number, fault)),
    }
}

/// Why the file of this number is refused, or that memory was wanting.
fn refusal(number: usize, fault: RuleTextFault) -> Stop
    ensures { result ≡ refusal number fault }
{
    match fault {
        RuleTextFault::At { .. } => Stop::Refused(number, FileFault::Rules(fault)),
        RuleTextFault::Memory => Stop::Memory,
    }
}

fn judge_kind(number: usize, target: Option<Target>, rules: RuleFile) -> Result<RuleFile, Stop>
    ensures { IsJudged number target rules result }
{
    let kind = rules.parts().kind;
    if is_for(target, kind) {
        Ok(rules)
    } else {
        Err(Stop::Refused(number, FileFault::RuleKind(kind)))
    }
}

/// The rules of a file. Where a target is given they are of kind lift, or of the target's own.
pub fn read_rule_file<F: Files>(
    alloc: Global,
    files: &mut F,
    number: usize,
    name: &str,
    target: Option<Target>,
) -> Result<RuleFile, Stop>
    ensures { JudgedAs (rules_for target) number name.now
        (seen F.held F.faults F.calls files.old) result (seen F.held F.faults F.calls files.new) }
{
    let text = read_front(alloc, files, number, name, most_judged())?;
    rules_of(alloc, number, target, text.as_slice())
}
