//! The formulas in code: of the operators, and of the lane operations.
ghost use Rattle.std.specs.Prelude.{◌≡◌, ◌≤◌};
ghost use Rattle.pf_forms.specs.Meaning.Shapes.{shape};
ghost use Rattle.pf_templates.specs.Meaning.Templates.{at};
ghost use Rattle.pf_templates.specs.Meaning.Letters.{letters};
ghost use Rattle.pf_templates.specs.Meaning.Building.{has_room, Makes};
ghost use Rattle.pf_laneops.specs.Meaning.Formulas.{formula, lane_formula};
ghost use Rattle.pf_laneops.specs.Steps.FormulaGroups.{op_group, lane_group, Changes, Choices, Means, Products, Widths};

use crate::lane_name::LaneName;
use pf_forms::Form;
use pf_templates::Exponent::{A, Fixed};
use pf_templates::Template::{
    self, Abs, Add, FloorDiv, Max, Min, Mul, Num, Pow, Sat, Sel, Sub, Wrap,
};
use pf_templates::Which::T;
use pf_templates::{BuildFault, Given, Letter, Numeral, build};
use pf_values::Op;
use std::alloc::Global;

const X: Template = Template::Letter(Letter::X);

const Y: Template = Template::Letter(Letter::Y);

const Z: Template = Template::Letter(Letter::Z);

const V: Template = Template::Letter(Letter::V);

const ONE: Template = Num(Numeral::Fixed(1));

const MINUS_ONE: Template = Num(Numeral::Fixed(-1));

const HALF: Template = Num(Numeral::HalfOfTwoToA);

/// The formula of an operator.
pub fn op_formula(alloc: Global, op: Op, given: &Given) -> Result<Form, BuildFault>
    requires a { (letters given.now).a ≤ 120 }
    requires b { (letters given.now).b ≤ 120 }
    ensures { Makes shape result (has_room (letters given.now) (formula op)) (at (letters given.now) (formula op)) }
{
    match op {
        Op::Cast
        | Op::Add
        | Op::Sub
        | Op::Mul
        | Op::ShiftLeft
        | Op::ShiftRight
        | Op::Abs
        | Op::SaturatingCast
        | Op::RoundingShr => of_changes(alloc, op, given),
        Op::Min
        | Op::Max
        | Op::SelectGreater
        | Op::SelectEqual
        | Op::WideningAdd
        | Op::WideningSub
        | Op::WideningMul
        | Op::ExtendingAdd => of_choices(alloc, op, given),
        Op::HalvingAdd
        | Op::RoundingHalvingAdd
        | Op::HalvingSub
        | Op::SaturatingAdd
        | Op::SaturatingSub
        | Op::Absd
        | Op::MulShr
        | Op::RoundingMulShr => of_means(alloc, op, given),
    }
}

/// The formula of a lane operation.
pub fn lane_formula(alloc: Global, op: LaneName, given: &Given) -> Result<Form, BuildFault>
    requires a { (letters given.now).a ≤ 120 }
    requires b { (letters given.now).b ≤ 120 }
    ensures { Makes shape result (has_room (letters given.now) (lane_formula op)) (at (letters given.now) (lane_formula op)) }
{
    match op {
        LaneName::Add => op_formula(alloc, Op::Add, given),
        LaneName::Sub => op_formula(alloc, Op::Sub, given),
        LaneName::Mul => op_formula(alloc, Op::Mul, given),
        LaneName::HalvingAdd => op_formula(alloc, Op::HalvingAdd, given),
        LaneName::RoundingHalvingAdd => op_formula(alloc, Op::RoundingHalvingAdd, given),
        LaneName::HalvingSub => op_formula(alloc, Op::HalvingSub, given),
        LaneName::SaturatingAdd => op_formula(alloc, Op::SaturatingAdd, given),
        LaneName::SaturatingSub => op_formula(alloc, Op::SaturatingSub, given),
        LaneName::Min => op_formula(alloc, Op::Min, given),
        LaneName::Max => op_formula(alloc, Op::Max, given),
        LaneName::Absd => op_formula(alloc, Op::Absd, given),
        LaneName::Abs => op_formula(alloc, Op::Abs, given),
        LaneName::Shl => op_formula(alloc, Op::ShiftLeft, given),
        LaneName::Shr => op_formula(alloc, Op::ShiftRight, given),
        LaneName::RoundingShr => op_formula(alloc, Op::RoundingShr, given),
        LaneName::SelGt => op_formula(alloc, Op::SelectGreater, given),
        LaneName::SelEq => op_formula(alloc, Op::SelectEqual, given),
        LaneName::WideningAdd => op_formula(alloc, Op::WideningAdd, given),
        LaneName::WideningSub => op_formula(alloc, Op::WideningSub, given),
        LaneName::WideningMul => op_formula(alloc, Op::WideningMul, given),
        LaneName::ExtendingAdd => op_formula(alloc, Op::ExtendingAdd, given),
        LaneName::Mla
        | LaneName::Not
        | LaneName::MulHigh
        | LaneName::MulQ
        | LaneName::MulQr
        | LaneName::MulHrs
        | LaneName::MulUs
        | LaneName::WideningMla
        | LaneName::WideningAbsd => of_products(alloc, op, given),
        LaneName::Bits
        | LaneName::Widen
        | LaneName::WidenShl
        | LaneName::Narrow
        | LaneName::SatNarrow
        | LaneName::NarrowShr
        | LaneName::NarrowRshr
        | LaneName::SatNarrowShr
        | LaneName::SatNarrowRshr => of_widths(alloc, op, given),
    }
}

/// The formula of an operator of one operand, or of a wrapped sum, difference or product.
fn of_changes(alloc: Global, op: Op, given: &Given) -> Result<Form, BuildFault>
    requires a { (letters given.now).a ≤ 120 }
    requires b { (letters given.now).b ≤ 120 }
    requires group { op_group op ≡ Changes }
    ensures { Makes shape result (has_room (letters given.now) (formula op)) (at (letters given.now) (formula op)) }
{
    const CAST: Template = Wrap(T, &X);
    const ADD: Template = Wrap(T, &Add(&X, &Y));
    const SUB: Template = Wrap(T, &Sub(&X, &Y));
    const MUL: Template = Wrap(T, &Mul(&X, &Y));
    const SHIFT_LEFT: Template = Wrap(T, &Mul(&X, &Pow(A)));
    const SHIFT_RIGHT: Template = FloorDiv(&X, A);
    const ABS: Template = Abs(&X);
    const SATURATING_CAST: Template = Sat(T, &X);
    const ROUNDING_SHR: Template = FloorDiv(&Add(&X, &HALF), A);
    let formula = match op {
        Op::Cast => &CAST,
        Op::Add => &ADD,
        Op::Sub => &SUB,
        Op::Mul => &MUL,
        Op::ShiftLeft => &SHIFT_LEFT,
        Op::ShiftRight => &SHIFT_RIGHT,
        Op::Abs => &ABS,
        Op::SaturatingCast => &SATURATING_CAST,
        Op::RoundingShr => &ROUNDING_SHR,
        _ => unreachable!(),
    };
    build(alloc, formula, given)
}

/// The formula of an operator that chooses or that widens.
fn of_choices(alloc: Global, op: Op, given: &Given) -> Result<Form, BuildFault>
    requires a { (letters given.now).a ≤ 120 }
    requires b { (letters given.now).b ≤ 120 }
    requires group { op_group op ≡ Choices }
    ensures { Makes shape result (has_room (letters given.now) (formula op)) (at (letters given.now) (formula op)) }
{
    const MIN: Template = Min(&X, &Y);
    const MAX: Template = Max(&X, &Y);
    const SELECT_GREATER: Template = Sel(&X, &Y, &Z, &V);
    const SELECT_EQUAL: Template = Sel(&X, &Y, &V, &Sel(&Y, &X, &V, &Z));
    const WIDENING_ADD: Template = Add(&X, &Y);
    const WIDENING_SUB: Template = Sub(&X, &Y);
    const WIDENING_MUL: Template = Mul(&X, &Y);
    const EXTENDING_ADD: Template = Wrap(T, &Add(&X, &Y));
    let formula = match op {
        Op::Min => &MIN,
        Op::Max => &MAX,
        Op::SelectGreater => &SELECT_GREATER,
        Op::SelectEqual => &SELECT_EQUAL,
        Op::WideningAdd => &WIDENING_ADD,
        Op::WideningSub => &WIDENING_SUB,
        Op::WideningMul => &WIDENING_MUL,
        Op::ExtendingAdd => &EXTENDING_ADD,
        _ => unreachable!(),
    };
    build(alloc, formula, given)
}

/// The formula of an operator that halves, clamps or multiplies and shifts.
fn of_means(alloc: Global, op: Op, given: &Given) -> Result<Form, BuildFault>
    requires a { (letters given.now).a ≤ 120 }
    requires b { (letters given.now).b ≤ 120 }
    requires group { op_group op ≡ Means }
    ensures { Makes shape result (has_room (letters given.now) (formula op)) (at (letters given.now) (formula op)) }
{
    const HALVING_ADD: Template = FloorDiv(&Add(&X, &Y), Fixed(1));
    const ROUNDING_HALVING_ADD: Template = FloorDiv(&Add(&Add(&X, &Y), &ONE), Fixed(1));
    const HALVING_SUB: Template = Wrap(T, &FloorDiv(&Sub(&X, &Y), Fixed(1)));
    const SATURATING_ADD: Template = Sat(T, &Add(&X, &Y));
    const SATURATING_SUB: Template = Sat(T, &Sub(&X, &Y));
    const ABSD: Template = Abs(&Sub(&X, &Y));
    const MUL_SHR: Template = Sat(T, &FloorDiv(&Mul(&X, &Y), A));
    const ROUNDING_MUL_SHR: Template = Sat(T, &FloorDiv(&Add(&Mul(&X, &Y), &HALF), A));
    let formula = match op {
        Op::HalvingAdd => &HALVING_ADD,
        Op::RoundingHalvingAdd => &ROUNDING_HALVING_ADD,
        Op::HalvingSub => &HALVING_SUB,
        Op::SaturatingAdd => &SATURATING_ADD,
        Op::SaturatingSub => &SATURATING_SUB,
        Op::Absd => &ABSD,
        Op::MulShr => &MUL_SHR,
        Op::RoundingMulShr => &ROUNDING_MUL_SHR,
        _ => unreachable!(),
    };
    build(alloc, formula, given)
}

/// The formula of a lane operation of its own over two operands and more, or of `Not`.
fn of_products(alloc: Global, op: LaneName, given: &Given) -> Result<Form, BuildFault>
    requires a { (letters given.now).a ≤ 120 }
    requires b { (letters given.now).b ≤ 120 }
    requires group { lane_group op ≡ Products }
    ensures { Makes shape result (has_room (letters given.now) (lane_formula op)) (at (letters given.now) (lane_formula op)) }
{
    const MLA: Template = Wrap(T, &Add(&X, &Mul(&Y, &Z)));
    const NOT: Template = Wrap(T, &Sub(&MINUS_ONE, &X));
    const MUL_HIGH: Template = FloorDiv(&Mul(&X, &Y), A);
    const MUL_Q: Template = Sat(T, &FloorDiv(&Mul(&X, &Y), A));
    const MUL_QR: Template = Sat(T, &FloorDiv(&Add(&Mul(&X, &Y), &HALF), A));
    const MUL_HRS: Template = Wrap(
        T,
        &FloorDiv(&Add(&FloorDiv(&Mul(&X, &Y), Fixed(14)), &ONE), Fixed(1)),
    );
    const MUL_US: Template = Mul(&X, &Y);
    const WIDENING_MLA: Template = Wrap(T, &Add(&X, &Mul(&Y, &Z)));
    const WIDENING_ABSD: Template = Abs(&Sub(&X, &Y));
    let formula = match op {
        LaneName::Mla => &MLA,
        LaneName::Not => &NOT,
        LaneName::MulHigh => &MUL_HIGH,
        LaneName::MulQ => &MUL_Q,
        LaneName::MulQr => &MUL_QR,
        LaneName::MulHrs => &MUL_HRS,
        LaneName::MulUs => &MUL_US,
        LaneName::WideningMla => &WIDENING_MLA,
        LaneName::WideningAbsd => &WIDENING_ABSD,
        _ => unreachable!(),
    };
    build(alloc, formula, given)
}

/// The formula of a lane operation that changes the type of one operand.
fn of_widths(alloc: Global, op: LaneName, given: &Given) -> Result<Form, BuildFault>
    requires a { (letters given.now).a ≤ 120 }
    requires b { (letters given.now).b ≤ 120 }
    requires group { lane_group op ≡ Widths }
    ensures { Makes shape result (has_room (letters given.now) (lane_formula op)) (at (letters given.now) (lane_formula op)) }
{
    const BITS: Template = Wrap(T, &X);
    const WIDEN: Template = X;
    const WIDEN_SHL: Template = Mul(&X, &Pow(A));
    const NARROW: Template = Wrap(T, &X);
    const SAT_NARROW: Template = Sat(T, &X);
    const NARROW_SHR: Template = Wrap(T, &FloorDiv(&X, A));
    const NARROW_RSHR: Template = Wrap(T, &FloorDiv(&Add(&X, &HALF), A));
    const SAT_NARROW_SHR: Template = Sat(T, &FloorDiv(&X, A));
    const SAT_NARROW_RSHR: Template = Sat(T, &FloorDiv(&Add(&X, &HALF), A));
    let formula = match op {
        LaneName::Bits => &BITS,
        LaneName::Widen => &WIDEN,
        LaneName::WidenShl => &WIDEN_SHL,
        LaneName::Narrow => &NARROW,
        LaneName::SatNarrow => &SAT_NARROW,
        LaneName::NarrowShr => &NARROW_SHR,
        LaneName::NarrowRshr => &NARROW_RSHR,
        LaneName::SatNarrowShr => &SAT_NARROW_SHR,
        LaneName::SatNarrowRshr => &SAT_NARROW_RSHR,
        _ => unreachable!(),
    };
    build(alloc, formula, given)
}
