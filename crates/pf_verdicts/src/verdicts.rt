ghost use Rattle.std.specs.Prelude.{◌≡◌, ◌↔◌, ◌++◌, None, All, IfOk, true};
ghost use Rattle.pf_verdicts.specs.Steps.{IsTold, AreTold};
ghost use Rattle.pf_verdicts.specs.Meaning.Verdicts.{verdict_line, verdict_lines, AreVerdicts};

use crate::fault_text::write_fault;
use pf_check::{OutcomeList, RuleFault, judge_file};
use pf_ints::{ByteList, Sequence};
use pf_outside::Lines;
use pf_rules::{Rule, RuleFile, RuleParts};
use std::alloc::{AllocError, Global};

/// What is said of the rules of a file.
#[derive(Drop)]
pub struct Verdicts {
    /// A line for each rule, in order, with its end: `ok NAME` of one that is accepted, `bad NAME:
    /// FAULT` of another.
    pub lines: Lines,
    /// Whether all are accepted.
    pub accepted: bool,
}

/// Checks the rules of a file in order, each with the accepted ones before it, and says of each
/// whether its certificate holds, and if not, its first fault.
pub fn judge_rules(alloc: Global, file: &RuleFile) -> Result<Verdicts, AllocError>
    ensures { IfOk result (AreVerdicts file.now) }
{
    let outcomes = judge_file(alloc, file)?;
    let rules = file.parts().rules.as_slice();
    let lines = push_lines(alloc, rules, outcomes.as_slice(), Sequence::new(alloc))?;
    let accepted = are_accepted(outcomes.as_slice());
    Ok(Verdicts { lines, accepted })
}

/// The lines, and after them those on these rules.
fn push_lines(
    alloc: Global,
    rules: &[Rule],
    outcomes: &[Option<RuleFault>],
    lines: Lines,
) -> Result<Lines, AllocError>
    requires { AreTold rules.now outcomes.now }
    ensures { IfOk result (λ all. all ≡ lines ++ verdict_lines rules.now outcomes.now) }
{
    let mut lines = lines;
    match rules {
        [] => Ok(lines),
        [rule, rules @ ..] => match outcomes {
            [] => Ok(lines),
            [outcome, outcomes @ ..] => {
                lines.push(verdict_line(alloc, rule.parts(), outcome)?)?;
                push_lines(alloc, rules, outcomes, lines)
            }
        },
    }
}

fn verdict_line(
    alloc: Global,
    rule: &RuleParts,
    outcome: &Option<RuleFault>,
) -> Result<ByteList, AllocError>
    requires { IsTold rule.now outcome.now }
    ensures { IfOk result (λ line. line ≡ verdict_line rule.now outcome.now) }
{
    let mut line = Vec::new(alloc);
    match outcome {
        None => {
            line.extend_from_slice(b"ok ")?;
            line.extend_from_slice(rule.name.as_slice())?;
        }
        Some(fault) => {
            line.extend_from_slice(b"bad ")?;
            line.extend_from_slice(rule.name.as_slice())?;
            line.extend_from_slice(b": ")?;
            write_fault(alloc, &mut line, rule.vars.as_slice(), fault)?;
        }
    }
    line.extend_from_slice(b"\n")?;
    Ok(Sequence::from_vec(line))
}

fn are_accepted(outcomes: &[Option<RuleFault>]) -> bool
    ensures { (result ≡ true) ↔ All (λ o. o ≡ None) outcomes.now }
{
    outcomes.iter().all(|outcome| outcome.is_none())
}
