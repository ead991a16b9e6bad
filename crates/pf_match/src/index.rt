ghost use Rattle.std.specs.Prelude.{◌≡◌, ◌++◌, ◌∷◌, [], ℕ, pos, None, OnOk, OnErr, List, map, length, ◌≤◌, Contains};
ghost use Rattle.pf_ints.specs.declared.lane.LaneType.{LaneType as Ty};
ghost use Rattle.pf_rules.specs.declared.rule.RuleParts.{RuleParts};
ghost use Rattle.pf_rules.specs.Meaning.Rules.{first_bad};
ghost use Rattle.pf_match.specs.Steps.Lists.{lists_at};

use crate::key::RuleKey;
use crate::lists::TypeLists;
use pf_ints::{Memory, NumberList, Sequence};
use pf_rules::Rule;
use pf_values::{Op, Term};
use std::alloc::{AllocError, Global};
use std::marker::Model;

/// The lists of the operators, by the operators' places.
type OpLists = Sequence<TypeLists>;

/// Rules by the operator at the root of the left side and by the left side's types, so that those
/// which may match a term are found without a walk over all.
#[derive(Drop)]
pub struct Index {
    keys: Sequence<RuleKey>,
    lists: OpLists,
    none: NumberList,
}

impl Model for Index {
    ghost use Rattle.std.specs.Prelude.{List};
    ghost use Rattle.std.specs.Coded.{codes};
    ghost use Rattle.pf_match.specs.declared.key.RuleKey.{RuleKey};
    ghost use Rattle.pf_match.specs.Steps.Lists.{IsIndex};

    ghost Value = { List RuleKey };

    ghost coded = { Prim.hlevel (codes) };

    ghost view = { λ i. i.keys };

    ghost invariant = { λ i. IsIndex i.keys i.lists i.none };
}

impl Index {
    ghost use Rattle.pf_match.specs.Meaning.Candidates.{key_of, AreCandidates, HasEachMatch};

    /// An index of no rule. It takes no memory.
    pub fn new(alloc: Global) -> Index
        ensures { result ≡ [] }
    {
        Index {
            keys: Sequence::new(alloc),
            lists: Sequence::new(alloc),
            none: NumberList::new(alloc),
        }
    }

    /// Gives the rule the next number, counted from 0. After want of memory the index is as before.
    pub fn add(&mut self, alloc: Global, rule: &Rule) -> Result<(), Memory>
        requires { first_bad rule.now.widths rule.now.shift ≡ None }
        ensures ok { OnOk result (self.new ≡ self.old ++ key_of rule.now ∷ []) }
        ensures err { OnErr result (self.new ≡ self.old) }
    {
        let key = RuleKey::of(alloc, rule)?;
        match key.op {
            None => self.put(key),
            Some(op) => self.put_at(alloc, op, key),
        }
    }

    /// The numbers of the rules that may match the term: ascending, each once, exactly those whose
    /// left side has the term's operator at its root, and has the term's type at one of the rule's
    /// widths and shifts. None for a leaf. It takes no memory.
    pub fn candidates(&self, term: &Term) -> &NumberList
        ensures exact { (rules : List RuleParts) → self.now ≡ map key_of rules → AreCandidates rules term.now result.now }
        ensures matches { (rules : List RuleParts) → self.now ≡ map key_of rules → HasEachMatch rules term.now result.now }
    {
        self.found(term)
    }
}

impl Index {
    ghost use Rattle.pf_match.specs.Steps.Lists.{found};
    ghost use Rattle.std.specs.Prelude.{Some};

    fn found(&self, term: &Term) -> &NumberList
        ensures { result.now ≡ found self.now term.now }
    {
        match term {
            Term::Leaf { .. } => &self.none,
            Term::Node { op, ty, .. } => match self.lists.get(*op as usize) {
                Some(lists) => lists.of(*ty),
                None => &self.none,
            },
        }
    }

    /// The rule has the next number and stands in no list.
    fn put(&mut self, key: RuleKey) -> Result<(), Memory>
        requires { key.op ≡ None }
        ensures ok { OnOk result (self.new ≡ self.old ++ key ∷ []) }
        ensures err { OnErr result (self.new ≡ self.old) }
    {
        self.keys.push(key)
    }

    /// The rule has the next number and stands in the operator's lists of its types. These are
    /// made anew, so that they are either all longer or all as before.
    fn put_at(&mut self, alloc: Global, op: Op, key: RuleKey) -> Result<(), Memory>
        requires { key.op ≡ Some op }
        ensures ok { OnOk result (self.new ≡ self.old ++ key ∷ []) }
        ensures err { OnErr result (self.new ≡ self.old) }
    {
        let place = op as usize;
        let number = self.keys.len() as u64;
        grow(alloc, &mut self.lists, place + 1)?;
        let lists = self.lists.at(place).with(alloc, &key.types, number)?;
        self.keys.push(key)?;
        self.lists.set(place, lists);
        Ok(())
    }
}

/// Makes empty lists for the first `count` operators that have none yet.
fn grow(alloc: Global, lists: &mut OpLists, count: usize) -> Result<(), AllocError>
    ensures same { (place : ℕ) (ty : Ty) → lists_at lists.new place ty ≡ lists_at lists.old place ty }
    ensures ok { OnOk result (count ≤ length lists.new) }
{
    for _ in lists.len()..count {
        lists.push(TypeLists::new(alloc))?;
    }
    Ok(())
}
