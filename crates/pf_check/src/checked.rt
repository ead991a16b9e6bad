ghost use Rattle.std.specs.Prelude.{◌≡◌};
ghost use Rattle.pf_check.specs.Meaning.Checks.{IsChecked};

use pf_ints::Sequence;
use pf_rules::{Kind, Rule};
use std::marker::Model;

/// A rule and what it is for.
#[derive(Drop)]
pub struct CheckedParts {
    pub rule: Rule,
    pub kind: Kind,
}

/// A rule that was checked for its kind: at each width and shift, and for all values inside the
/// variables' ranges, both its sides have one value.
#[derive(Drop)]
pub struct Checked {
    parts: CheckedParts,
}

/// The rules of a file before one, by their numbers from 0; None for one that was refused.
pub type EarlierList = Sequence<Option<Checked>>;

impl Model for Checked {
    ghost use Rattle.pf_check.specs.declared.checked.CheckedParts.{CheckedParts};
    ghost use Rattle.pf_rules.specs.contracts.pattern.Pattern as pattern;
    ghost use Rattle.std.specs.Coded.{codes};

    ghost Value = { CheckedParts };

    ghost coded = { Prim.hlevel (codes, pattern.the_row.coded) };

    ghost use Rattle.pf_check.specs.Meaning.Checks.{IsChecked};

    ghost view = { λ c. c.parts };

    ghost invariant = { λ c. IsChecked c.parts };
}

impl Checked {
    pub(crate) fn new(rule: Rule, kind: Kind) -> Checked
        requires { IsChecked (record { rule = rule; kind = kind }) }
        ensures rule { result.rule ≡ rule }
        ensures kind { result.kind ≡ kind }
    {
        Checked {
            parts: CheckedParts { rule, kind },
        }
    }

    /// The rule.
    pub fn rule(&self) -> &Rule
        ensures value { result.now ≡ self.now.rule }
        ensures kept { IsChecked self.now }
    {
        &self.parts.rule
    }

    /// What it is for.
    pub fn kind(&self) -> Kind
        ensures value { result ≡ self.now.kind }
        ensures kept { IsChecked self.now }
    {
        self.parts.kind
    }
}
