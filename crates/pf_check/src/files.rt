ghost use Rattle.std.specs.Prelude.{◌≡◌, ◌++◌, None, Some, ℕ, map, length, slice_get, IfOk, IfErr, MatchResult, OnOk, [], true};
ghost use Rattle.std.specs.Option.{option_copied};
ghost use Rattle.pf_rules.specs.Meaning.Rules.{suits};
ghost use Rattle.pf_check.specs.Meaning.Faults.{Says};
ghost use Rattle.pf_check.specs.Meaning.Accepts.{first_fault};
ghost use Rattle.pf_check.specs.Steps.Pairs.{Continues};
ghost use Rattle.pf_check.specs.Meaning.Files.{AllAccepted, AllSuit, AreOutcomes, IsOutcome, known, rule_of, entry, first_refused, TellsRefused, AreOfKind};

use crate::checked::{Checked, EarlierList};
use crate::fault::RuleFault;
use crate::judging::check_rule;
use pf_ints::{Duplicate, Name, Sequence};
use pf_rules::{Kind, Rule, RuleFile};
use std::alloc::{AllocError, Global};
use std::marker::Model;

/// What is said of the rules of a file, in order: None of an accepted one, or why it is refused.
pub type OutcomeList = Sequence<Option<RuleFault>>;

/// Checked rules, in order.
#[derive(Drop)]
pub struct CheckedList {
    rules: EarlierList,
}

impl Model for CheckedList {
    ghost use Rattle.std.specs.Prelude.{◌≡◌, List, Some, map};
    ghost use Rattle.pf_check.specs.declared.checked.CheckedParts.{CheckedParts};
    ghost use Rattle.pf_rules.specs.contracts.pattern.Pattern as pattern;
    ghost use Rattle.std.specs.Coded.{codes};

    ghost Value = { List CheckedParts };

    ghost coded = { Prim.hlevel (codes, pattern.the_row.coded) };

    ghost use Rattle.pf_check.specs.Meaning.Files.{known};

    ghost view = { λ l. known l.rules };

    ghost invariant = { λ l. map Some (known l.rules) ≡ l.rules };
}

impl CheckedList {
    pub(crate) fn new(rules: EarlierList) -> CheckedList
        requires { map Some (known rules) ≡ rules }
        ensures { result ≡ known rules }
    {
        CheckedList { rules }
    }

    /// How many rules there are.
    pub fn len(&self) -> usize
        ensures { result ≡ length self.now }
    {
        self.rules.len()
    }

    /// Rule n, counted from 0, or None where there is no such place.
    pub fn get(&self, n: usize) -> Option<&Checked>
        ensures { option_copied result ≡ slice_get self.now n }
    {
        match self.rules.get(n) {
            Some(Some(checked)) => Some(checked),
            _ => None,
        }
    }
}

/// A file of rules, each of which was checked for the file's kind.
#[derive(Drop)]
pub struct CheckedFile {
    kind: Kind,
    rules: CheckedList,
    ghost alike: { AreOfKind kind rules },
}

impl CheckedFile {
    /// What its rules are for.
    pub fn kind(&self) -> Kind
        ensures { result ≡ self.now.kind }
    {
        self.kind
    }

    /// Its rules, in order.
    pub fn rules(&self) -> &CheckedList
        ensures value { result.now ≡ self.now.rules }
        ensures alike { AreOfKind self.now.kind result.now }
    {
        &self.rules
    }
}

/// The file with its rules checked, each with the rules before it, or the first refused rule's name
/// and why it is refused.
pub fn check_file(alloc: Global, file: RuleFile) -> Result<CheckedFile, (Name, RuleFault)>
    ensures kind { IfOk result (λ f. f.kind ≡ file.kind) }
    ensures rules { IfOk result (λ f. f.rules ≡ map (rule_of file.kind) file.rules) }
    ensures accepted { OnOk result (AllAccepted file.kind [] file.rules) }
    ensures only { AllAccepted file.kind [] file.rules → IfErr result (λ e. e.1 ≡ RuleFault.Memory) }
    ensures fault { IfErr result (λ e. TellsRefused e.0 e.1 (first_refused file.kind [] file.rules)) }
{
    let parts = file.parts();
    let kind = parts.kind;
    match check_rules(alloc, kind, parts.rules.as_slice(), EarlierList::new(alloc)) {
        Ok(rules) => Ok(CheckedFile {
            kind,
            rules: CheckedList::new(rules),
        }),
        Err(refused) => Err(refused),
    }
}

/// The earlier rules, and after them these, which are checked.
fn check_rules(
    alloc: Global,
    kind: Kind,
    rules: &[Rule],
    earlier: EarlierList,
) -> Result<EarlierList, (Name, RuleFault)>
    requires { AllSuit kind rules.now }
    ensures ok { IfOk result (λ all. all ≡ earlier ++ map (entry kind) rules.now) }
    ensures accepted { OnOk result (AllAccepted kind earlier rules.now) }
    ensures only { AllAccepted kind earlier rules.now → IfErr result (λ e. e.1 ≡ RuleFault.Memory) }
    ensures fault { IfErr result (λ e. TellsRefused e.0 e.1 (first_refused kind earlier rules.now)) }
{
    let mut earlier = earlier;
    match rules {
        [] => Ok(earlier),
        [rule, rest @ ..] => match check_next(alloc, kind, rule, &earlier) {
            Ok(checked) => match earlier.push(Some(checked)) {
                Ok(()) => check_rules(alloc, kind, rest, earlier),
                Err(_) => Err((rule.parts().name, RuleFault::Memory)),
            },
            Err(fault) => Err((rule.parts().name, fault)),
        },
    }
}

fn check_next(
    alloc: Global,
    kind: Kind,
    rule: &Rule,
    earlier: &EarlierList,
) -> Result<Checked, RuleFault>
    requires { suits kind rule.now ≡ true }
    ensures ok { IfOk result (λ c. c ≡ rule_of kind rule.now) }
    ensures outcome { MatchResult result (λ c. IsOutcome kind earlier.now rule.now None) (λ e. (e ≡ RuleFault.Memory → ⊥) → IsOutcome kind earlier.now rule.now (Some e)) }
    ensures fault { Says result (first_fault rule.now kind earlier.now) }
{
    match rule.copy(alloc) {
        Ok(copied) => match check_rule(alloc, copied, kind, earlier) {
            Ok(checked) => {
                let _rule = checked.rule();
                Ok(checked)
            }
            Err((_, fault)) => Err(fault),
        },
        Err(_) => Err(RuleFault::Memory),
    }
}

/// What is said of each rule of a file, in order: None of one that is accepted with the checked rules
/// before it, and of another why it is refused.
pub fn judge_file(alloc: Global, file: &RuleFile) -> Result<OutcomeList, AllocError>
    ensures { IfOk result (λ os. AreOutcomes file.now.kind [] file.now.rules os) }
{
    let parts = file.parts();
    let rules = parts.rules.as_slice();
    judge_rules(
        alloc,
        parts.kind,
        rules,
        EarlierList::new(alloc),
        Sequence::new(alloc),
    )
}

/// What was said of the earlier rules, and after it what is said of these.
fn judge_rules(
    alloc: Global,
    kind: Kind,
    rules: &[Rule],
    earlier: EarlierList,
    outcomes: OutcomeList,
) -> Result<OutcomeList, AllocError>
    requires { AllSuit kind rules.now }
    ensures { IfOk result (Continues kind earlier rules.now outcomes) }
{
    let mut earlier = earlier;
    let mut outcomes = outcomes;
    match rules {
        [] => Ok(outcomes),
        [rule, rest @ ..] => match check_next(alloc, kind, rule, &earlier) {
            Ok(checked) => {
                earlier.push(Some(checked))?;
                outcomes.push(None)?;
                judge_rules(alloc, kind, rest, earlier, outcomes)
            }
            Err(RuleFault::Memory) => Err(AllocError),
            Err(fault) => {
                earlier.push(None)?;
                outcomes.push(Some(fault))?;
                judge_rules(alloc, kind, rest, earlier, outcomes)
            }
        },
    }
}
