ghost use Rattle.std.specs.Prelude.{◌≡◌, true, IfOk};
ghost use Rattle.pf_rules.specs.Meaning.Rules.{is_rule};

use crate::number::Number;
use crate::pattern::{PatType, Pattern};
use pf_forms::Axiom;
use pf_ints::{Duplicate, Name, NumberList, Path, Sequence, Target};
use std::alloc::{AllocError, Global};
use std::marker::Model;

/// A declared variable: its name, its type, and the range that its values lie in, which is the
/// type's where none is stated.
#[derive(Drop)]
pub struct VarDecl {
    pub name: Name,
    pub ty: PatType,
    pub range: Option<(Number, Number)>,
}

/// Declared variables, by their numbers.
pub type VarList = Sequence<VarDecl>;

/// What justifies a step.
#[derive(Clone, Copy, PartialEq, Eq)]
pub enum By {
    Axiom(Axiom),
    /// An earlier rule of the file, by its number from 0.
    Rule(u16),
}

/// A step of a certificate: where a side is rewritten, and by what.
#[derive(Drop)]
pub struct Step {
    /// On the left side, or else on the right one.
    pub left: bool,
    pub path: Path,
    pub by: By,
}

/// Steps, in their order.
pub type StepList = Sequence<Step>;

/// What the rules of a file are for.
#[derive(Clone, Copy, PartialEq, Eq)]
pub enum Kind {
    /// From terms to lighter terms.
    Lift,
    /// From terms to the lane operations of a target.
    Lower(Target),
}

/// What a rule is made of.
#[derive(Drop)]
pub struct RuleParts {
    pub name: Name,
    /// The widths at which it is a rule.
    pub widths: NumberList,
    /// The least and the greatest shift at which it is one, if it has a shift.
    pub shift: Option<(Number, Number)>,
    pub vars: VarList,
    pub lhs: Pattern,
    pub rhs: Pattern,
    /// Its certificate.
    pub steps: StepList,
}

/// A rule: that its two sides have one value. It keeps the limits and the forms that are said of
/// its parts.
#[derive(Drop)]
pub struct Rule {
    parts: RuleParts,
}

/// Rules.
pub type RuleList = Sequence<Rule>;

impl Model for Rule {
    ghost use Rattle.std.specs.Prelude.{◌≡◌, true};
    ghost use Rattle.pf_rules.specs.Meaning.Rules.{is_rule};
    ghost use Rattle.pf_rules.specs.declared.rule.RuleParts.{RuleParts};
    ghost use Rattle.pf_rules.specs.contracts.pattern.Pattern as pattern;
    ghost use Rattle.std.specs.Coded.{codes};

    ghost Value = { RuleParts };

    ghost coded = { Prim.hlevel (codes, pattern.the_row.coded) };

    ghost view = { λ r. r.parts };

    ghost invariant = { λ r. is_rule r.parts ≡ true };
}

impl Rule {
    /// The rule of these parts.
    pub fn new(parts: RuleParts) -> Rule
        requires { is_rule parts ≡ true }
        ensures { result ≡ parts }
    {
        Rule { parts }
    }

    /// Its parts.
    pub fn parts(&self) -> &RuleParts
        ensures value { result.now ≡ self.now }
        ensures kept { is_rule self.now ≡ true }
    {
        &self.parts
    }
}

impl Duplicate for VarDecl {
    fn copy(&self, alloc: Global) -> Result<VarDecl, AllocError> {
        Ok(VarDecl {
            name: self.name,
            ty: self.ty,
            range: copied_range(alloc, &self.range)?,
        })
    }
}

impl Duplicate for Step {
    fn copy(&self, alloc: Global) -> Result<Step, AllocError> {
        Ok(Step {
            left: self.left,
            path: self.path.copy(alloc)?,
            by: self.by,
        })
    }
}

impl Duplicate for RuleParts {
    fn copy(&self, alloc: Global) -> Result<RuleParts, AllocError> {
        Ok(RuleParts {
            name: self.name,
            widths: self.widths.copy(alloc)?,
            shift: copied_range(alloc, &self.shift)?,
            vars: self.vars.copy(alloc)?,
            lhs: self.lhs.copy(alloc)?,
            rhs: self.rhs.copy(alloc)?,
            steps: self.steps.copy(alloc)?,
        })
    }
}

impl Duplicate for Rule {
    fn copy(&self, alloc: Global) -> Result<Rule, AllocError> {
        Ok(Rule {
            parts: self.parts.copy(alloc)?,
        })
    }
}

fn copied_range(
    alloc: Global,
    range: &Option<(Number, Number)>,
) -> Result<Option<(Number, Number)>, AllocError>
    ensures { IfOk result (λ r. r ≡ range.now) }
{
    match range {
        Some((from, to)) => Ok(Some((from.copy(alloc)?, to.copy(alloc)?))),
        None => Ok(None),
    }
}
