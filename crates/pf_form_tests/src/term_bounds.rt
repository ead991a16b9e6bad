//! Bounds of terms, worked out by hand.

ghost use Rattle.std.specs.Prelude.{◌≡◌, ◌∷◌, [], true, IfOk, Ok};
ghost use Rattle.pf_ints.specs.Meaning.Ranges.{lies_in, lane_range};
ghost use Rattle.pf_values.specs.Meaning.Operators.{row_of};
ghost use Rattle.pf_values.specs.Meaning.Terms.{is_formed_node, node_type};
ghost use Rattle.pf_form_tests.specs.TestedTerms.{HasRanges, IsTested};

use pf_bounds::{Bounded, Ranges, bounds};
use pf_ints::{Interval, IntervalList, LaneType, Path};
use pf_values::{Leaf, Op, Term, Terms};
use std::alloc::{AllocError, Global};
use std::process::Abort;
use std::test::Fail;

const BYTE: LaneType = LaneType::U8;

const HALF: LaneType = LaneType::U16;

const SIGNED: LaneType = LaneType::I16;

/// An interval in a type.
fn within(lo: i128, hi: i128, ty: LaneType) -> Result<Interval, Fail>
    ensures { IfOk result (λ r. lies_in r (lane_range ty) ≡ true) }
{
    let range = Interval::new(lo, hi).ok_or("no interval")?;
    if !range.lies_in(Interval::of(ty)) {
        return Err(Fail::from("not in the type"));
    }
    Ok(range)
}

/// Tap 0 is 10 to 20, tap 1 any u8, tap 2 -300 to 200.
fn ranges(alloc: Global) -> Result<Ranges, Fail>
    ensures { IfOk result HasRanges }
{
    let x = within(10, 20, BYTE)?;
    let y = within(0, 255, BYTE)?;
    let z = within(-300, 200, SIGNED)?;
    Ok(Ranges {
        taps: IntervalList::from_slice(alloc, &[x, y, z])?,
        defs: IntervalList::new(alloc),
    })
}

#[tactic(auto, using(crate::proofs::TestedLaws::leaf_tested))]
fn x() -> Term
    ensures { IsTested BYTE result }
{
    Term::Leaf {
        leaf: Leaf::Tap(0),
        ty: BYTE,
    }
}

#[tactic(auto, using(crate::proofs::TestedLaws::leaf_tested))]
fn y() -> Term
    ensures { IsTested BYTE result }
{
    Term::Leaf {
        leaf: Leaf::Tap(1),
        ty: BYTE,
    }
}

#[tactic(auto, using(crate::proofs::TestedLaws::leaf_tested))]
fn z() -> Term
    ensures { IsTested SIGNED result }
{
    Term::Leaf {
        leaf: Leaf::Tap(2),
        ty: SIGNED,
    }
}

#[tactic(auto, using(crate::proofs::TestedLaws::leaf_tested))]
fn nine() -> Term
    ensures { IsTested BYTE result }
{
    Term::Leaf {
        leaf: Leaf::Const(9),
        ty: BYTE,
    }
}

#[tactic(auto, using(crate::proofs::TestedLaws::one_tested))]
fn one(
    alloc: Global,
    op: Op,
    ty: LaneType,
    k: u8,
    x: Term,
    _of: LaneType,
) -> Result<Term, AllocError>
    requires x { IsTested _of x }
    requires formed { is_formed_node (row_of op) k 1 ≡ true }
    requires typed { node_type (row_of op) ty k (_of ∷ []) ≡ Ok ty }
    ensures { IfOk result (IsTested ty) }
{
    let mut args = Terms::new(alloc);
    args.push(x)?;
    Ok(Term::Node { op, ty, k, args })
}

#[tactic(auto, using(crate::proofs::TestedLaws::two_tested))]
fn two(alloc: Global, op: Op, ty: LaneType, k: u8, x: Term, y: Term) -> Result<Term, AllocError>
    requires x { IsTested BYTE x }
    requires y { IsTested BYTE y }
    requires formed { is_formed_node (row_of op) k 2 ≡ true }
    requires typed { node_type (row_of op) ty k (BYTE ∷ BYTE ∷ []) ≡ Ok ty }
    ensures { IfOk result (IsTested ty) }
{
    let mut args = Terms::new(alloc);
    args.push(x)?;
    args.push(y)?;
    Ok(Term::Node { op, ty, k, args })
}

/// A choice of x or y by `a` and x.
#[tactic(auto, using(crate::proofs::TestedLaws::four_tested))]
fn choice(alloc: Global, op: Op, a: Term) -> Result<Term, AllocError>
    requires a { IsTested BYTE a }
    requires formed { is_formed_node (row_of op) 0 4 ≡ true }
    requires typed { node_type (row_of op) BYTE 0 (BYTE ∷ BYTE ∷ BYTE ∷ BYTE ∷ []) ≡ Ok BYTE }
    ensures { IfOk result (IsTested BYTE) }
{
    let mut args = Terms::new(alloc);
    args.push(x())?;
    args.push(a)?;
    args.push(x())?;
    args.push(y())?;
    Ok(Term::Node {
        op,
        ty: BYTE,
        k: 0,
        args,
    })
}

/// Tries that a term of the type has this interval.
fn try_bounds<R: Abort>(rt: &R, ranges: &Ranges, term: &Term, _ty: LaneType, lo: i128, hi: i128)
    requires term { IsTested _ty term.now }
    requires ranges { HasRanges ranges.now }
{
    let found = bounds(term, ranges);
    assert_eq!(rt; found.lo(), lo);
    assert_eq!(rt; found.hi(), hi);
}

/// Tries an operator over an operand of the type `of`.
fn try_one<R: Abort + AllocGlobal>(
    rt: &R,
    ranges: &Ranges,
    op: Op,
    ty: LaneType,
    k: u8,
    x: Term,
    of: LaneType,
    lo: i128,
    hi: i128,
) -> Result<(), Fail>
    requires ranges { HasRanges ranges.now }
    requires x { IsTested of x }
    requires formed { is_formed_node (row_of op) k 1 ≡ true }
    requires typed { node_type (row_of op) ty k (of ∷ []) ≡ Ok ty }
{
    let term = one(rt.alloc(), op, ty, k, x, of)?;
    try_bounds(rt, ranges, &term, ty, lo, hi);
    Ok(())
}

/// Tries an operator over two bytes.
fn try_two<R: Abort + AllocGlobal>(
    rt: &R,
    ranges: &Ranges,
    op: Op,
    ty: LaneType,
    k: u8,
    x: Term,
    y: Term,
    lo: i128,
    hi: i128,
) -> Result<(), Fail>
    requires ranges { HasRanges ranges.now }
    requires x { IsTested BYTE x }
    requires y { IsTested BYTE y }
    requires formed { is_formed_node (row_of op) k 2 ≡ true }
    requires typed { node_type (row_of op) ty k (BYTE ∷ BYTE ∷ []) ≡ Ok ty }
{
    let term = two(rt.alloc(), op, ty, k, x, y)?;
    try_bounds(rt, ranges, &term, ty, lo, hi);
    Ok(())
}

fn try_choice<R: Abort + AllocGlobal>(
    rt: &R,
    ranges: &Ranges,
    op: Op,
    a: Term,
    lo: i128,
    hi: i128,
) -> Result<(), Fail>
    requires ranges { HasRanges ranges.now }
    requires a { IsTested BYTE a }
    requires formed { is_formed_node (row_of op) 0 4 ≡ true }
    requires typed { node_type (row_of op) BYTE 0 (BYTE ∷ BYTE ∷ BYTE ∷ BYTE ∷ []) ≡ Ok BYTE }
{
    let term = choice(rt.alloc(), op, a)?;
    try_bounds(rt, ranges, &term, BYTE, lo, hi);
    Ok(())
}

#[test]
fn bounds_of_one_operand(rt: HostRuntime) -> Result<(), Fail> {
    let r = ranges(rt.alloc())?;
    try_one(&rt, &r, Op::Cast, BYTE, 0, z(), SIGNED, 0, 255)?;
    try_one(&rt, &r, Op::Cast, SIGNED, 0, x(), BYTE, 10, 20)?;
    try_one(&rt, &r, Op::SaturatingCast, BYTE, 0, z(), SIGNED, 0, 200)?;
    try_one(&rt, &r, Op::ShiftLeft, BYTE, 3, x(), BYTE, 80, 160)?;
    try_one(&rt, &r, Op::ShiftLeft, BYTE, 4, x(), BYTE, 0, 255)?;
    try_one(&rt, &r, Op::ShiftRight, SIGNED, 3, z(), SIGNED, -38, 25)?;
    try_one(&rt, &r, Op::RoundingShr, BYTE, 2, x(), BYTE, 3, 5)?;
    try_one(&rt, &r, Op::Abs, HALF, 0, z(), SIGNED, 0, 300)
}

#[test]
fn bounds_of_sums_and_differences(rt: HostRuntime) -> Result<(), Fail> {
    let r = ranges(rt.alloc())?;
    try_two(&rt, &r, Op::Add, BYTE, 0, x(), x(), 20, 40)?;
    try_two(&rt, &r, Op::Add, BYTE, 0, x(), y(), 0, 255)?;
    try_two(&rt, &r, Op::Sub, BYTE, 0, x(), nine(), 1, 11)?;
    try_two(&rt, &r, Op::WideningAdd, HALF, 0, x(), y(), 10, 275)?;
    try_two(&rt, &r, Op::WideningSub, SIGNED, 0, x(), y(), -245, 20)?;
    try_two(&rt, &r, Op::SaturatingAdd, BYTE, 0, x(), y(), 10, 255)?;
    try_two(&rt, &r, Op::SaturatingSub, BYTE, 0, x(), y(), 0, 20)?;
    try_two(&rt, &r, Op::Absd, BYTE, 0, x(), y(), 0, 245)
}

#[test]
fn bounds_of_other_pairs(rt: HostRuntime) -> Result<(), Fail> {
    let r = ranges(rt.alloc())?;
    try_two(&rt, &r, Op::HalvingAdd, BYTE, 0, x(), y(), 5, 137)?;
    try_two(&rt, &r, Op::RoundingHalvingAdd, BYTE, 0, x(), y(), 5, 138)?;
    try_two(&rt, &r, Op::HalvingSub, BYTE, 0, x(), y(), 0, 255)?;
    try_two(&rt, &r, Op::WideningMul, HALF, 0, x(), y(), 0, 5100)?;
    try_two(&rt, &r, Op::MulShr, BYTE, 3, x(), x(), 12, 50)?;
    try_two(&rt, &r, Op::RoundingMulShr, BYTE, 3, x(), x(), 13, 50)?;
    try_two(&rt, &r, Op::Min, BYTE, 0, x(), y(), 0, 20)?;
    try_two(&rt, &r, Op::Max, BYTE, 0, x(), y(), 10, 255)
}

#[test]
fn bounds_of_choices(rt: HostRuntime) -> Result<(), Fail> {
    let r = ranges(rt.alloc())?;
    try_choice(&rt, &r, Op::SelectGreater, nine(), 10, 20)?;
    try_choice(&rt, &r, Op::SelectGreater, y(), 0, 255)?;
    try_choice(&rt, &r, Op::SelectEqual, nine(), 0, 255)
}

/// Tries that the part at a path has this interval, or that there is none where `lo` is above `hi`.
fn try_part<R: Abort + AllocGlobal>(
    rt: &R,
    kept: &Bounded,
    path: &[u8],
    lo: i128,
    hi: i128,
) -> Result<(), Fail> {
    let path = Path::from_slice(rt.alloc(), path)?;
    let (least, greatest) = match kept.bounds_at(&path) {
        Some(found) => (found.lo(), found.hi()),
        None => (1, 0),
    };
    assert_eq!(rt; least, lo);
    assert_eq!(rt; greatest, hi);
    Ok(())
}

fn kept_sum(alloc: Global) -> Result<Bounded, Fail> {
    let r = ranges(alloc)?;
    let sum = two(alloc, Op::WideningAdd, HALF, 0, x(), y())?;
    Ok(Bounded::new(alloc, sum, &r)?)
}

#[test]
fn bounds_of_parts(rt: HostRuntime) -> Result<(), Fail> {
    let kept = kept_sum(rt.alloc())?;
    try_part(&rt, &kept, &[], 10, 275)?;
    try_part(&rt, &kept, &[0], 10, 20)?;
    try_part(&rt, &kept, &[1], 0, 255)?;
    try_part(&rt, &kept, &[2], 1, 0)?;
    try_part(&rt, &kept, &[0, 0], 1, 0)
}
