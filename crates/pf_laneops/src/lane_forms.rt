ghost use Rattle.std.specs.Prelude.{◌≡◌, ◌<◌, ℕ, ℤ, length, map, IfOk};
ghost use Rattle.pf_values.specs.Meaning.Operators.{row_of};
ghost use Rattle.pf_values.specs.Meaning.Terms.{operand_count};
ghost use Rattle.pf_forms.specs.Meaning.Values.{FVal, IsFormOver};
ghost use Rattle.pf_forms.specs.Meaning.Shapes.{shape};
ghost use Rattle.pf_templates.specs.Meaning.Letters.{letters};
ghost use Rattle.pf_templates.specs.Meaning.Templates.{at};
ghost use Rattle.pf_laneops.specs.Meaning.Formulas.{formula, lane_formula, amount_by, over, operand, AreFormsOver};

use crate::formulas;
use crate::lane_name::LaneName;
use pf_forms::Form;
use pf_ints::{LaneType, Memory};
use pf_templates::{BuildFault, Given};
use pf_values::Op;
use std::alloc::{AllocError, Global};

/// The formula of a lane operation over the forms of its operands, in their order. `ty` is the
/// result's type and `k` the amount.
pub fn lane_form(
    alloc: Global,
    op: LaneName,
    ty: LaneType,
    args: &[Form],
    k: u8,
) -> Result<Form, Memory>
    requires operands { 0 < length args.now }
    requires amount { k < 120 }
    ensures form { IfOk result (λ f. shape f ≡ at (over ty (amount_by op ty k) (map shape args.now)) (lane_formula op)) }
    ensures forms { (count : ℕ) → AreFormsOver count (map shape args.now) → IfOk result (λ f. IsFormOver count (shape f)) }
{
    let given = given_over(ty, amount_by(op, ty, k), args);
    match formulas::lane_formula(alloc, op, &given) {
        Ok(form) => Ok(form),
        Err(BuildFault::Memory) => Err(AllocError),
        Err(BuildFault::TooWide) => unreachable!(),
    }
}

/// The form of an operator over the forms of its operands, in their order. `ty` is the result's
/// type and `k` the amount.
pub fn op_form(alloc: Global, op: Op, ty: LaneType, args: &[Form], k: u8) -> Result<Form, Memory>
    requires operands { length args.now ≡ operand_count (row_of op).operands }
    requires amount { k < 120 }
    ensures form { IfOk result (λ f. shape f ≡ at (over ty k (map shape args.now)) (formula op)) }
    ensures forms { (count : ℕ) → AreFormsOver count (map shape args.now) → IfOk result (λ f. IsFormOver count (shape f)) }
    ensures value { IfOk result (λ f. (v : ℕ → ℤ) → FVal v (shape f) ≡ (row_of op).value ty k (map (FVal v) (map shape args.now))) }
{
    let given = given_over(ty, k, args);
    match formulas::op_formula(alloc, op, &given) {
        Ok(form) => Ok(form),
        Err(BuildFault::Memory) => Err(AllocError),
        Err(BuildFault::TooWide) => unreachable!(),
    }
}

/// The exponent that stands for the amount in the formula.
fn amount_by(op: LaneName, ty: LaneType, k: u8) -> u8
    requires { k < 120 }
    ensures value { result ≡ amount_by op ty k }
    ensures within { result < 120 }
{
    match op {
        LaneName::MulHigh => ty.width(),
        LaneName::MulQ | LaneName::MulQr => ty.width() - 1,
        _ => k,
    }
}

/// The operands for x, y, z and v.
fn given_over(ty: LaneType, a: u8, args: &[Form]) -> Given
    requires { 0 < length args.now }
    ensures { letters result ≡ over ty a (map shape args.now) }
{
    Given {
        x: operand(args, 0),
        y: operand(args, 1),
        z: operand(args, 2),
        v: operand(args, 3),
        t: ty,
        u: ty,
        a,
        b: a,
    }
}

/// Operand n, or the first one where there are fewer.
fn operand(args: &[Form], n: usize) -> &Form
    requires { 0 < length args.now }
    ensures { shape result.now ≡ operand (map shape args.now) n }
{
    match args.get(n) {
        Some(form) => form,
        None => &args[0],
    }
}
