//! Which rules of an index may match a term, and that one does.

ghost use Rattle.std.specs.Prelude.{◌≡◌, ◌∷◌, [], IfOk};
ghost use Rattle.pf_values.specs.declared.op.Op.TheVariants.{Cast};
ghost use Rattle.pf_values.specs.declared.term.Term.TheVariants.{Node as NodeOf};

use pf_bounds::{Bounded, Ranges};
use pf_ints::{Interval, IntervalList, LaneType, Name, NumberList, Path};
use pf_match::{Index, match_kept};
use pf_rules::{
    Amount, PairsFault, PatType, Pattern, Rule, RuleParts, StepList, VarDecl, VarList, is_rule,
    pairs,
};
use pf_values::{Leaf, Op, Term, Terms};
use sqlite_items::Items;
use std::alloc::{AllocError, Global};
use std::test::Fail;

const U1: PatType = PatType {
    signed: false,
    times: 1,
};

const U2: PatType = PatType {
    signed: false,
    times: 2,
};

fn tap() -> Term {
    Term::Leaf {
        leaf: Leaf::Tap(0),
        ty: LaneType::U8,
    }
}

fn cast_term(alloc: Global, ty: LaneType, term: Term) -> Result<Term, AllocError>
    ensures { IfOk result (λ t. t ≡ NodeOf Cast ty 0 (term ∷ [])) }
{
    let mut args = Terms::new(alloc);
    args.push(term)?;
    Ok(Term::Node {
        op: Op::Cast,
        ty,
        k: 0,
        args,
    })
}

fn one(
    alloc: Global,
    op: Op,
    to: Option<PatType>,
    k: Amount,
    x: Pattern,
) -> Result<Pattern, AllocError> {
    let mut args = Items::new(alloc);
    args.push(x)?;
    Ok(Pattern::Node { op, to, k, args })
}

fn cast(alloc: Global, to: PatType, x: Pattern) -> Result<Pattern, AllocError> {
    one(alloc, Op::Cast, Some(to), Amount::Int(0), x)
}

/// The left side as that of a rule at these widths over x and, where it stands there, y.
fn rule(alloc: Global, widths: &[i128], types: &[PatType], lhs: Pattern) -> Result<Rule, Fail> {
    let mut vars = VarList::new(alloc);
    for ty in types {
        vars.push(VarDecl {
            name: Name::new(b"x").ok_or("no name")?,
            ty: *ty,
            range: None,
        })?;
    }
    let parts = RuleParts {
        name: Name::new(b"rule").ok_or("no name")?,
        widths: NumberList::from_slice(alloc, widths)?,
        shift: None,
        vars,
        lhs,
        rhs: Pattern::Var(0),
        steps: StepList::new(alloc),
    };
    if !is_rule(&parts) {
        return Err(Fail::from("no rule"));
    }
    Ok(Rule::new(parts))
}

/// u1(x) of an x of type u1
fn plain(alloc: Global) -> Result<Rule, Fail> {
    let lhs = cast(alloc, U1, Pattern::Var(0))?;
    rule(alloc, &[8, 16, 32], &[U1], lhs)
}

/// u2(u1(x)) of an x of type u2
fn same(alloc: Global) -> Result<Rule, Fail> {
    let lhs = cast(alloc, U2, cast(alloc, U1, Pattern::Var(0))?)?;
    rule(alloc, &[8, 16], &[U2], lhs)
}

/// u2(x) + u2(y)
fn wide_sum(alloc: Global) -> Result<Pattern, AllocError> {
    let mut args = Items::new(alloc);
    args.push(cast(alloc, U2, Pattern::Var(0))?)?;
    args.push(cast(alloc, U2, Pattern::Var(1))?)?;
    Ok(Pattern::Node {
        op: Op::Add,
        to: None,
        k: Amount::Int(0),
        args,
    })
}

/// u1((u2(x) + u2(y)) >> 1) of x and y of type u1
fn halve_u(alloc: Global) -> Result<Rule, Fail> {
    let half = one(
        alloc,
        Op::ShiftRight,
        None,
        Amount::Int(1),
        wide_sum(alloc)?,
    )?;
    let lhs = cast(alloc, U1, half)?;
    rule(alloc, &[8, 16], &[U1, U1], lhs)
}

fn add(alloc: Global, index: &mut Index, rule: &Rule) -> Result<(), Fail> {
    match pairs(alloc, rule) {
        Ok(_all) => Ok(index.add(alloc, rule)?),
        Err(PairsFault::Shift { w: _w }) => Err(Fail::from("no shifts")),
        Err(PairsFault::Memory) => Err(Fail::from("no memory")),
    }
}

fn filled(alloc: Global) -> Result<Index, Fail> {
    let mut index = Index::new(alloc);
    add(alloc, &mut index, &plain(alloc)?)?;
    add(alloc, &mut index, &same(alloc)?)?;
    add(alloc, &mut index, &halve_u(alloc)?)?;
    Ok(index)
}

fn has(index: &Index, term: &Term, wanted: &[i128]) -> bool {
    index.candidates(term).as_slice() == wanted
}

#[test]
fn candidates_by_operator_and_type(rt: HostRuntime) -> Result<(), Fail> {
    let alloc = rt.alloc();
    let index = filled(alloc)?;
    let byte = cast_term(alloc, LaneType::U8, tap())?;
    assert!(rt; has(&index, &byte, &[0, 2]));
    let half = cast_term(alloc, LaneType::U16, byte)?;
    assert!(rt; has(&index, &half, &[0, 1, 2]));
    assert!(rt; has(&index, &tap(), &[]));
    Ok(())
}

fn bounded_byte(alloc: Global) -> Result<Bounded, Fail> {
    let ranges = Ranges {
        taps: IntervalList::from_slice(alloc, &[Interval::of(LaneType::U8)])?,
        defs: IntervalList::new(alloc),
    };
    let tap = Term::Leaf {
        leaf: Leaf::Tap(0),
        ty: LaneType::U8,
    };
    let term = cast_term(alloc, LaneType::U8, tap)?;
    Ok(Bounded::new(alloc, term, &ranges)?)
}

/// The width at which the rule matches the whole, if it does.
fn width(alloc: Global, rule: &Rule, whole: &Bounded) -> Result<Option<u8>, Fail> {
    match pairs(alloc, rule) {
        Ok(_all) => match match_kept(alloc, rule, whole, &Path::new(alloc))? {
            Some(binding) => Ok(Some(binding.w)),
            None => Ok(None),
        },
        Err(PairsFault::Shift { w: _w }) => Err(Fail::from("no shifts")),
        Err(PairsFault::Memory) => Err(Fail::from("no memory")),
    }
}

#[test]
fn plain_matches_at_width_8(rt: HostRuntime) -> Result<(), Fail> {
    let alloc = rt.alloc();
    let whole = bounded_byte(alloc)?;
    assert_eq!(rt; width(alloc, &plain(alloc)?, &whole)?, Some(8));
    Ok(())
}
