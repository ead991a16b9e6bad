//! The rows of the lane operations, counted, and their formulas.

use crate::forms::names;
use pf_forms::{Form, print_form};
use pf_ints::{LaneType, Target};
use pf_laneops::{LaneName, lane_form, lane_type, op_form};
use pf_values::Op;
use std::test::Fail;

const TYPES: [LaneType; 6] = [
    LaneType::U8,
    LaneType::I8,
    LaneType::U16,
    LaneType::I16,
    LaneType::U32,
    LaneType::I32,
];

/// Each operation, with how many operands it has.
const OPERATIONS: [(LaneName, u8); 39] = [
    (LaneName::Add, 2),
    (LaneName::Sub, 2),
    (LaneName::Mul, 2),
    (LaneName::Mla, 3),
    (LaneName::HalvingAdd, 2),
    (LaneName::RoundingHalvingAdd, 2),
    (LaneName::HalvingSub, 2),
    (LaneName::SaturatingAdd, 2),
    (LaneName::SaturatingSub, 2),
    (LaneName::Min, 2),
    (LaneName::Max, 2),
    (LaneName::Absd, 2),
    (LaneName::Abs, 1),
    (LaneName::Not, 1),
    (LaneName::Shl, 1),
    (LaneName::Shr, 1),
    (LaneName::RoundingShr, 1),
    (LaneName::MulHigh, 2),
    (LaneName::MulQ, 2),
    (LaneName::MulQr, 2),
    (LaneName::MulHrs, 2),
    (LaneName::SelGt, 4),
    (LaneName::SelEq, 4),
    (LaneName::Bits, 1),
    (LaneName::Widen, 1),
    (LaneName::WidenShl, 1),
    (LaneName::WideningAdd, 2),
    (LaneName::WideningSub, 2),
    (LaneName::WideningMul, 2),
    (LaneName::MulUs, 2),
    (LaneName::ExtendingAdd, 2),
    (LaneName::WideningMla, 3),
    (LaneName::WideningAbsd, 2),
    (LaneName::Narrow, 1),
    (LaneName::SatNarrow, 1),
    (LaneName::NarrowShr, 1),
    (LaneName::NarrowRshr, 1),
    (LaneName::SatNarrowShr, 1),
    (LaneName::SatNarrowRshr, 1),
];

/// How many rows there are by operand types and stated type, what they cost together, and how
/// many there are by amounts too.
#[derive(Drop)]
struct Counts {
    rows: u64,
    costs: u64,
    amounts: u64,
}

impl Counts {
    /// One row more, which costs `cost` and has `amounts` amounts.
    fn add(&mut self, cost: u32, amounts: u64) {
        self.rows = self.rows.saturating_add(1);
        self.costs = self.costs.saturating_add(u64::from(cost));
        self.amounts = self.amounts.saturating_add(amounts);
    }
}

fn count(target: Target) -> Counts {
    let mut counts = Counts {
        rows: 0,
        costs: 0,
        amounts: 0,
    };
    for (op, operands) in OPERATIONS {
        count_types(target, op, operands, &mut counts);
    }
    counts
}

/// Counts the rows of an operation with operands of any types.
fn count_types(target: Target, op: LaneName, operands: u8, counts: &mut Counts) {
    for a in TYPES {
        if operands == 1 {
            count_stated(target, op, &[a], counts);
        } else {
            count_second(target, op, operands, a, counts);
        }
    }
}

fn count_second(target: Target, op: LaneName, operands: u8, a: LaneType, counts: &mut Counts) {
    for b in TYPES {
        if operands == 2 {
            count_stated(target, op, &[a, b], counts);
        } else {
            count_others(target, op, operands, a, b, counts);
        }
    }
}

fn count_others(
    target: Target,
    op: LaneName,
    operands: u8,
    a: LaneType,
    b: LaneType,
    counts: &mut Counts,
) {
    for x in TYPES {
        if operands == 3 {
            count_stated(target, op, &[a, b, x], counts);
        } else {
            for y in TYPES {
                count_stated(target, op, &[a, b, x, y], counts);
            }
        }
    }
}

/// Counts the rows with these operands, without a stated type and with each.
fn count_stated(target: Target, op: LaneName, types: &[LaneType], counts: &mut Counts) {
    count_amounts(target, op, None, types, counts);
    for to in TYPES {
        count_amounts(target, op, Some(to), types, counts);
    }
}

fn count_amounts(
    target: Target,
    op: LaneName,
    to: Option<LaneType>,
    types: &[LaneType],
    counts: &mut Counts,
) {
    let mut found = None;
    let mut amounts = 0u64;
    for k in 0..=33u8 {
        if let Some((_, cost)) = lane_type(target, op, to, types, k) {
            found = Some(cost);
            amounts = amounts.saturating_add(1);
        }
    }
    if let Some(cost) = found {
        counts.add(cost, amounts);
    }
}

#[test]
fn has_so_many_rows(rt: HostRuntime) {
    for (target, rows, costs, amounts) in [
        (Target::Neon, 197, 593, 723),
        (Target::Avx2, 100, 312, 280),
        (Target::Hvx, 117, 294, 303),
    ] {
        let counts = count(target);
        assert_eq!(rt;
            (counts.rows, counts.costs, counts.amounts),
            (rows, costs, amounts)
        );
    }
}

/// Operations with a stated type, operand types and an amount, and the type and cost that they
/// have on a target.
const ROWS: &[(
    Target,
    LaneName,
    Option<LaneType>,
    &[LaneType],
    u8,
    Option<(LaneType, u32)>,
)] = &[
    (
        Target::Neon,
        LaneName::MulUs,
        None,
        &[LaneType::U8, LaneType::I8],
        0,
        None,
    ),
    (
        Target::Hvx,
        LaneName::MulUs,
        None,
        &[LaneType::U8, LaneType::I8],
        0,
        Some((LaneType::I16, 2)),
    ),
    (
        Target::Hvx,
        LaneName::MulUs,
        None,
        &[LaneType::I8, LaneType::U8],
        0,
        None,
    ),
    (
        Target::Neon,
        LaneName::Shl,
        None,
        &[LaneType::U8],
        0,
        Some((LaneType::U8, 1)),
    ),
    (
        Target::Neon,
        LaneName::Shl,
        None,
        &[LaneType::U8],
        7,
        Some((LaneType::U8, 1)),
    ),
    (Target::Neon, LaneName::Shl, None, &[LaneType::U8], 8, None),
    (Target::Neon, LaneName::Shr, None, &[LaneType::U8], 0, None),
    (
        Target::Neon,
        LaneName::Shr,
        None,
        &[LaneType::I32],
        31,
        Some((LaneType::I32, 4)),
    ),
    (Target::Avx2, LaneName::Shl, None, &[LaneType::U8], 1, None),
    (
        Target::Avx2,
        LaneName::SelGt,
        None,
        &[LaneType::U16, LaneType::U16, LaneType::I16, LaneType::I16],
        0,
        Some((LaneType::I16, 6)),
    ),
    (
        Target::Avx2,
        LaneName::SelGt,
        None,
        &[LaneType::I16, LaneType::I16, LaneType::U16, LaneType::U16],
        0,
        Some((LaneType::U16, 4)),
    ),
    (
        Target::Avx2,
        LaneName::SelGt,
        None,
        &[LaneType::I16, LaneType::I16, LaneType::U8, LaneType::U8],
        0,
        None,
    ),
    (
        Target::Avx2,
        LaneName::SelGt,
        None,
        &[LaneType::I16, LaneType::I16, LaneType::U16, LaneType::I16],
        0,
        None,
    ),
    (
        Target::Hvx,
        LaneName::SatNarrowRshr,
        Some(LaneType::U8),
        &[LaneType::I16],
        7,
        Some((LaneType::U8, 1)),
    ),
    (
        Target::Hvx,
        LaneName::SatNarrowRshr,
        Some(LaneType::U8),
        &[LaneType::I16],
        8,
        None,
    ),
    (
        Target::Hvx,
        LaneName::SatNarrowRshr,
        Some(LaneType::I8),
        &[LaneType::I16],
        7,
        None,
    ),
    (
        Target::Neon,
        LaneName::SatNarrowRshr,
        Some(LaneType::U8),
        &[LaneType::I16],
        8,
        Some((LaneType::U8, 2)),
    ),
    (
        Target::Neon,
        LaneName::SatNarrowRshr,
        Some(LaneType::U8),
        &[LaneType::I16],
        9,
        None,
    ),
    (
        Target::Neon,
        LaneName::SatNarrow,
        Some(LaneType::I8),
        &[LaneType::U16],
        0,
        None,
    ),
    (
        Target::Neon,
        LaneName::SatNarrow,
        Some(LaneType::U16),
        &[LaneType::I32],
        0,
        Some((LaneType::U16, 4)),
    ),
    (
        Target::Neon,
        LaneName::SatNarrow,
        None,
        &[LaneType::U16],
        0,
        None,
    ),
    (
        Target::Neon,
        LaneName::Narrow,
        None,
        &[LaneType::I32],
        0,
        Some((LaneType::I16, 4)),
    ),
    (
        Target::Avx2,
        LaneName::Narrow,
        None,
        &[LaneType::U16],
        0,
        Some((LaneType::U8, 5)),
    ),
    (
        Target::Neon,
        LaneName::Narrow,
        Some(LaneType::I16),
        &[LaneType::I32],
        0,
        None,
    ),
    (
        Target::Neon,
        LaneName::Bits,
        Some(LaneType::I16),
        &[LaneType::U16],
        0,
        Some((LaneType::I16, 0)),
    ),
    (
        Target::Neon,
        LaneName::Bits,
        Some(LaneType::I16),
        &[LaneType::U8],
        0,
        None,
    ),
    (
        Target::Neon,
        LaneName::Bits,
        Some(LaneType::I16),
        &[LaneType::U16],
        1,
        None,
    ),
    (Target::Neon, LaneName::Add, None, &[LaneType::U8], 0, None),
    (
        Target::Neon,
        LaneName::Add,
        None,
        &[LaneType::U8, LaneType::U8, LaneType::U8],
        0,
        None,
    ),
    (
        Target::Neon,
        LaneName::Add,
        None,
        &[LaneType::U8, LaneType::I8],
        0,
        None,
    ),
    (
        Target::Neon,
        LaneName::Add,
        Some(LaneType::U8),
        &[LaneType::U8, LaneType::U8],
        0,
        None,
    ),
    (
        Target::Neon,
        LaneName::WideningSub,
        None,
        &[LaneType::U8, LaneType::U8],
        0,
        Some((LaneType::I16, 2)),
    ),
    (
        Target::Neon,
        LaneName::WideningAbsd,
        None,
        &[LaneType::I16, LaneType::I16],
        0,
        Some((LaneType::U32, 4)),
    ),
    (
        Target::Neon,
        LaneName::WideningAdd,
        None,
        &[LaneType::U32, LaneType::U32],
        0,
        None,
    ),
    (
        Target::Neon,
        LaneName::ExtendingAdd,
        None,
        &[LaneType::U16, LaneType::U8],
        0,
        Some((LaneType::U16, 2)),
    ),
    (
        Target::Neon,
        LaneName::ExtendingAdd,
        None,
        &[LaneType::U16, LaneType::I8],
        0,
        None,
    ),
    (
        Target::Neon,
        LaneName::ExtendingAdd,
        None,
        &[LaneType::U8, LaneType::U16],
        0,
        None,
    ),
    (
        Target::Neon,
        LaneName::WideningMla,
        None,
        &[LaneType::I32, LaneType::I16, LaneType::I16],
        0,
        Some((LaneType::I32, 8)),
    ),
    (
        Target::Neon,
        LaneName::Absd,
        None,
        &[LaneType::I32, LaneType::I32],
        0,
        Some((LaneType::U32, 4)),
    ),
];

#[test]
fn rows_have_types_and_costs(rt: HostRuntime) {
    for (target, op, to, types, k, wanted) in ROWS {
        assert!(rt; lane_type(*target, *op, *to, types, *k) == *wanted);
    }
}

/// Operations with their result's type and amount, and their formulas over x, y, z and x.
const FORMULAS: &[(LaneName, LaneType, u8, &str)] = &[
    (LaneName::Mla, LaneType::I16, 0, "wrap_i16(add(x,mul(y,z)))"),
    (LaneName::Not, LaneType::U8, 0, "wrap_u8(sub(-1,x))"),
    (LaneName::MulHigh, LaneType::U16, 0, "div(mul(x,y),2^16)"),
    (
        LaneName::MulQ,
        LaneType::I16,
        0,
        "sat_i16(div(mul(x,y),2^15))",
    ),
    (
        LaneName::MulQr,
        LaneType::I32,
        0,
        "sat_i32(div(add(mul(x,y),1073741824),2^31))",
    ),
    (
        LaneName::MulHrs,
        LaneType::I16,
        0,
        "wrap_i16(div(add(div(mul(x,y),2^14),1),2^1))",
    ),
    (LaneName::RoundingShr, LaneType::U8, 3, "div(add(x,4),2^3)"),
    (LaneName::Shl, LaneType::U8, 0, "wrap_u8(mul(x,2^0))"),
    (LaneName::SelGt, LaneType::U8, 0, "sel(x,y,z,x)"),
    (LaneName::SelEq, LaneType::U8, 0, "sel(x,y,x,sel(y,x,x,z))"),
    (LaneName::Widen, LaneType::U16, 0, "x"),
    (LaneName::WidenShl, LaneType::U16, 7, "mul(x,2^7)"),
    (LaneName::Bits, LaneType::I8, 0, "wrap_i8(x)"),
    (
        LaneName::SatNarrowRshr,
        LaneType::U8,
        8,
        "sat_u8(div(add(x,128),2^8))",
    ),
    (LaneName::NarrowShr, LaneType::I8, 1, "wrap_i8(div(x,2^1))"),
    (LaneName::WideningAbsd, LaneType::U16, 0, "abs(sub(x,y))"),
    (
        LaneName::HalvingSub,
        LaneType::I8,
        0,
        "wrap_i8(div(sub(x,y),2^1))",
    ),
];

#[test]
fn formulas_are_filled_in(rt: HostRuntime) -> Result<(), Fail> {
    let args = [Form::Var(0), Form::Var(1), Form::Var(2), Form::Var(0)];
    let names = names(rt.alloc())?;
    for (op, ty, k, wanted) in FORMULAS {
        let form = lane_form(rt.alloc(), *op, *ty, &args, *k)?;
        assert!(rt;
            print_form(rt.alloc(), &form, &names)?.as_slice() == wanted.as_bytes(),
            "{wanted}"
        );
    }
    let shifted = op_form(
        rt.alloc(),
        Op::RoundingMulShr,
        LaneType::I16,
        &args[..2],
        15,
    )?;
    let wanted = "sat_i16(div(add(mul(x,y),16384),2^15))";
    assert!(rt; print_form(rt.alloc(), &shifted, &names)?.as_slice() == wanted.as_bytes());
    Ok(())
}
