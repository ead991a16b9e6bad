ghost use Rattle.std.specs.Prelude.{◌≡◌, true, map};
ghost use Rattle.pf_values.specs.Meaning.Terms.{all_true};
ghost use Rattle.pf_rules.specs.Meaning.Files.{is_file, are_rules, is_step, is_cited};

use crate::checks::suits;
use crate::rule::{By, Kind, Rule, RuleList, Step};
use pf_ints::Duplicate;
use std::alloc::{AllocError, Global};
use std::marker::Model;

/// What a file of rules is made of.
#[derive(Drop)]
pub struct FileParts {
    /// 1, or 2, in which steps may cite earlier rules.
    pub format: u8,
    pub kind: Kind,
    pub rules: RuleList,
}

/// A file of rules. Each rule suits the kind, and cites only rules before it.
#[derive(Drop)]
pub struct RuleFile {
    parts: FileParts,
}

impl Model for RuleFile {
    ghost use Rattle.std.specs.Prelude.{◌≡◌, true};
    ghost use Rattle.pf_rules.specs.Meaning.Files.{is_file};
    ghost use Rattle.pf_rules.specs.declared.rule_file.FileParts.{FileParts};
    ghost use Rattle.pf_rules.specs.contracts.pattern.Pattern as pattern;
    ghost use Rattle.std.specs.Coded.{codes};

    ghost Value = { FileParts };

    ghost coded = { Prim.hlevel (codes, pattern.the_row.coded) };

    ghost view = { λ f. f.parts };

    ghost invariant = { λ f. is_file f.parts ≡ true };
}

impl RuleFile {
    /// The file of these parts.
    pub fn new(parts: FileParts) -> RuleFile
        requires { is_file parts ≡ true }
        ensures { result ≡ parts }
    {
        RuleFile { parts }
    }

    /// Its parts.
    pub fn parts(&self) -> &FileParts
        ensures value { result.now ≡ self.now }
        ensures kept { is_file self.now ≡ true }
    {
        &self.parts
    }
}

impl Duplicate for RuleFile {
    fn copy(&self, alloc: Global) -> Result<RuleFile, AllocError> {
        Ok(RuleFile {
            parts: FileParts {
                format: self.parts.format,
                kind: self.parts.kind,
                rules: self.parts.rules.copy(alloc)?,
            },
        })
    }
}

/// Whether the parts are such as a file of rules keeps.
pub fn is_file(parts: &FileParts) -> bool
    ensures { result ≡ is_file parts.now }
{
    (parts.format == 1 || parts.format == 2)
        && are_rules(parts.format == 2, parts.kind, parts.rules.as_slice())
}

fn are_rules(allowed: bool, kind: Kind, rules: &[Rule]) -> bool
    ensures { result ≡ are_rules allowed kind 0 rules.now }
{
    for (n, rule) in rules.iter().enumerate() {
        let parts = rule.parts();
        if !suits(kind, parts) || !are_steps(allowed, n, parts.steps.as_slice()) {
            return false;
        }
    }
    true
}

fn are_steps(allowed: bool, n: usize, steps: &[Step]) -> bool
    ensures { result ≡ all_true (map (is_step allowed n) steps.now) }
{
    for step in steps {
        if !is_cited(allowed, n, step.by) {
            return false;
        }
    }
    true
}

fn is_cited(allowed: bool, n: usize, by: By) -> bool
    ensures { result ≡ is_cited allowed n by }
{
    match by {
        By::Rule(m) => allowed && usize::from(m) < n,
        By::Axiom(_) => true,
    }
}
