//! The laws of the table in code, and the form that each makes.
ghost use Rattle.std.specs.Prelude.{◌≡◌, length};
ghost use Rattle.pf_forms.specs.Meaning.Shapes.{shape};
ghost use Rattle.pf_forms.specs.Meaning.Values.{IsFormOver};
ghost use Rattle.pf_axioms.specs.Meaning.Rows.{axiom_row};
ghost use Rattle.pf_axioms.specs.Meaning.AxiomSteps.{GivesForm, answer};
ghost use Rattle.pf_axioms.specs.Steps.Grants.{law_of};
ghost use Rattle.pf_axioms.specs.Steps.Groups.{group_of, Sums, Products, Types, Powers, Quotients, Orders, Choices};

use crate::fault::StepFault;
use crate::grants::{grant, suits};
use crate::needs::Needs::{
    self, AbovePower, BelowPower, Covered, Free, FromLeast, InT, Negative, Ordered, OverY,
    Positive, ToGreatest, UnderY, Wider,
};
use pf_forms::{Axiom, Form};
use pf_ints::IntervalList;
use pf_templates::Exponent::{A, B, Fixed, Rest, Sum};
use pf_templates::Template::{
    self, Abs, Add, FloorDiv, Max, Min, Mul, Num, Pow, Sat, Sel, Sub, Wrap,
};
use pf_templates::Which::{T, U};
use pf_templates::{Letter, Numeral, build, fits, look};
use std::alloc::Global;

/// A law: the left form, the right form, and what is asked for.
pub struct Law<'a>(pub Template<'a>, pub Template<'a>, pub Needs);

const X: Template = Template::Letter(Letter::X);

const Y: Template = Template::Letter(Letter::Y);

const Z: Template = Template::Letter(Letter::Z);

const ZERO: Template = Num(Numeral::Fixed(0));

const ONE: Template = Num(Numeral::Fixed(1));

const MINUS_ONE: Template = Num(Numeral::Fixed(-1));

const TWO_TO_A: Template = Num(Numeral::TwoToA);

const BELOW_TWO_TO_A: Template = Num(Numeral::BelowTwoToA);

const LEAST: Template = Num(Numeral::LeastT);

const GREATEST: Template = Num(Numeral::GreatestT);

/// The form rewritten by the law.
fn by(alloc: Global, law: &Law, form: &Form, ranges: &IntervalList) -> Result<Form, StepFault>
    requires { IsFormOver (length ranges.now) (shape form.now) }
    ensures { GivesForm result (answer (law_of law.now) ranges.now (shape form.now)) }
{
    let Law(left, right, needs) = law;
    let given = look(left, form);
    if !fits(left, &given, form) || !suits(*needs, &given) {
        return Err(StepFault::NoMatch);
    }
    grant(*needs, &given, ranges)?;
    Ok(build(alloc, right, &given)?)
}

/// The form rewritten by a law of sums and differences.
pub fn by_sums(
    alloc: Global,
    axiom: Axiom,
    form: &Form,
    ranges: &IntervalList,
) -> Result<Form, StepFault>
    requires form { IsFormOver (length ranges.now) (shape form.now) }
    requires group { group_of «axiom» ≡ Sums }
    ensures { GivesForm result (answer (axiom_row «axiom») ranges.now (shape form.now)) }
{
    const ADD_COMM: Law = Law(Add(&X, &Y), Add(&Y, &X), Free);
    const ADD_ASSOC: Law = Law(Add(&Add(&X, &Y), &Z), Add(&X, &Add(&Y, &Z)), Free);
    const ADD_BACK: Law = Law(Add(&X, &Add(&Y, &Z)), Add(&Add(&X, &Y), &Z), Free);
    const ADD_ZERO: Law = Law(Add(&X, &ZERO), X, Free);
    const SUB_ADD: Law = Law(Sub(&X, &Y), Add(&X, &Mul(&MINUS_ONE, &Y)), Free);
    const CANCEL: Law = Law(Add(&X, &Mul(&MINUS_ONE, &X)), ZERO, Free);
    let law = match axiom {
        Axiom::AddComm => &ADD_COMM,
        Axiom::AddAssoc => &ADD_ASSOC,
        Axiom::AddBack => &ADD_BACK,
        Axiom::AddZero => &ADD_ZERO,
        Axiom::SubAdd => &SUB_ADD,
        Axiom::Cancel => &CANCEL,
        _ => unreachable!(),
    };
    by(alloc, law, form, ranges)
}

/// The form rewritten by a law of products.
pub fn by_products(
    alloc: Global,
    axiom: Axiom,
    form: &Form,
    ranges: &IntervalList,
) -> Result<Form, StepFault>
    requires form { IsFormOver (length ranges.now) (shape form.now) }
    requires group { group_of «axiom» ≡ Products }
    ensures { GivesForm result (answer (axiom_row «axiom») ranges.now (shape form.now)) }
{
    const MUL_COMM: Law = Law(Mul(&X, &Y), Mul(&Y, &X), Free);
    const MUL_ASSOC: Law = Law(Mul(&Mul(&X, &Y), &Z), Mul(&X, &Mul(&Y, &Z)), Free);
    const MUL_BACK: Law = Law(Mul(&X, &Mul(&Y, &Z)), Mul(&Mul(&X, &Y), &Z), Free);
    const MUL_ONE: Law = Law(Mul(&ONE, &X), X, Free);
    const DISTRIBUTE: Law = Law(Mul(&X, &Add(&Y, &Z)), Add(&Mul(&X, &Y), &Mul(&X, &Z)), Free);
    const MUL_ZERO: Law = Law(Mul(&ZERO, &X), ZERO, Free);
    const FACTOR: Law = Law(Add(&Mul(&X, &Y), &Mul(&X, &Z)), Mul(&X, &Add(&Y, &Z)), Free);
    let law = match axiom {
        Axiom::MulComm => &MUL_COMM,
        Axiom::MulAssoc => &MUL_ASSOC,
        Axiom::MulBack => &MUL_BACK,
        Axiom::MulOne => &MUL_ONE,
        Axiom::Distribute => &DISTRIBUTE,
        Axiom::MulZero => &MUL_ZERO,
        Axiom::Factor => &FACTOR,
        _ => unreachable!(),
    };
    by(alloc, law, form, ranges)
}

/// The form rewritten by a law of wrapped and clamped numbers.
pub fn by_types(
    alloc: Global,
    axiom: Axiom,
    form: &Form,
    ranges: &IntervalList,
) -> Result<Form, StepFault>
    requires form { IsFormOver (length ranges.now) (shape form.now) }
    requires group { group_of «axiom» ≡ Types }
    ensures { GivesForm result (answer (axiom_row «axiom») ranges.now (shape form.now)) }
{
    const DROP_WRAP: Law = Law(Wrap(T, &X), X, InT);
    const WRAP_WRAP: Law = Law(Wrap(T, &Wrap(U, &X)), Wrap(T, &X), Wider);
    const WRAP_ADD: Law = Law(
        Wrap(T, &Add(&Wrap(U, &X), &Y)),
        Wrap(T, &Add(&X, &Y)),
        Wider,
    );
    const WRAP_MUL: Law = Law(
        Wrap(T, &Mul(&Wrap(U, &X), &Y)),
        Wrap(T, &Mul(&X, &Y)),
        Wider,
    );
    const DROP_SAT: Law = Law(Sat(T, &X), X, InT);
    const SAT_CLAMP: Law = Law(Sat(T, &X), Min(&Max(&X, &LEAST), &GREATEST), Free);
    const SAT_SAT: Law = Law(Sat(T, &Sat(U, &X)), Sat(T, &X), Covered);
    const SAT_HIGH: Law = Law(Sat(T, &X), Min(&X, &GREATEST), FromLeast);
    const SAT_LOW: Law = Law(Sat(T, &X), Max(&X, &LEAST), ToGreatest);
    let law = match axiom {
        Axiom::DropWrap => &DROP_WRAP,
        Axiom::WrapWrap => &WRAP_WRAP,
        Axiom::WrapAdd => &WRAP_ADD,
        Axiom::WrapMul => &WRAP_MUL,
        Axiom::DropSat => &DROP_SAT,
        Axiom::SatClamp => &SAT_CLAMP,
        Axiom::SatSat => &SAT_SAT,
        Axiom::SatHigh => &SAT_HIGH,
        Axiom::SatLow => &SAT_LOW,
        _ => unreachable!(),
    };
    by(alloc, law, form, ranges)
}

/// The form rewritten by a law of powers of two and quotients of quotients.
pub fn by_powers(
    alloc: Global,
    axiom: Axiom,
    form: &Form,
    ranges: &IntervalList,
) -> Result<Form, StepFault>
    requires form { IsFormOver (length ranges.now) (shape form.now) }
    requires group { group_of «axiom» ≡ Powers }
    ensures { GivesForm result (answer (axiom_row «axiom») ranges.now (shape form.now)) }
{
    const POW_NUM: Law = Law(Pow(A), TWO_TO_A, Free);
    const NUM_POW: Law = Law(TWO_TO_A, Pow(A), Free);
    const POW_ADD: Law = Law(Mul(&Pow(A), &Pow(B)), Pow(Sum), Free);
    const DIV_ONE: Law = Law(FloorDiv(&X, Fixed(0)), X, Free);
    const DIV_DIV: Law = Law(FloorDiv(&FloorDiv(&X, A), B), FloorDiv(&X, Sum), Free);
    const DIV_SCALE: Law = Law(FloorDiv(&Mul(&Pow(A), &X), B), FloorDiv(&X, Rest), Ordered);
    let law = match axiom {
        Axiom::PowNum => &POW_NUM,
        Axiom::NumPow => &NUM_POW,
        Axiom::PowAdd => &POW_ADD,
        Axiom::DivOne => &DIV_ONE,
        Axiom::DivDiv => &DIV_DIV,
        Axiom::DivScale => &DIV_SCALE,
        _ => unreachable!(),
    };
    by(alloc, law, form, ranges)
}

/// The form rewritten by a law of quotients beside sums, and quotients that are 0 or -1.
pub fn by_quotients(
    alloc: Global,
    axiom: Axiom,
    form: &Form,
    ranges: &IntervalList,
) -> Result<Form, StepFault>
    requires form { IsFormOver (length ranges.now) (shape form.now) }
    requires group { group_of «axiom» ≡ Quotients }
    ensures { GivesForm result (answer (axiom_row «axiom») ranges.now (shape form.now)) }
{
    const DIV_OUT: Law = Law(
        FloorDiv(&Add(&X, &Mul(&Pow(A), &Y)), A),
        Add(&FloorDiv(&X, A), &Y),
        Free,
    );
    const DIV_IN: Law = Law(
        Add(&FloorDiv(&X, A), &Y),
        FloorDiv(&Add(&X, &Mul(&Pow(A), &Y)), A),
        Free,
    );
    const DIV_INNER: Law = Law(
        FloorDiv(&Add(&FloorDiv(&X, A), &Y), B),
        FloorDiv(&Add(&X, &Mul(&Pow(A), &Y)), Sum),
        Free,
    );
    const NEG_DIV: Law = Law(
        Mul(&MINUS_ONE, &FloorDiv(&X, A)),
        FloorDiv(&Add(&Mul(&MINUS_ONE, &X), &BELOW_TWO_TO_A), A),
        Free,
    );
    const DIV_ZERO: Law = Law(FloorDiv(&X, A), ZERO, BelowPower);
    const DIV_NEG: Law = Law(FloorDiv(&X, A), MINUS_ONE, AbovePower);
    let law = match axiom {
        Axiom::DivOut => &DIV_OUT,
        Axiom::DivIn => &DIV_IN,
        Axiom::DivInner => &DIV_INNER,
        Axiom::NegDiv => &NEG_DIV,
        Axiom::DivZero => &DIV_ZERO,
        Axiom::DivNeg => &DIV_NEG,
        _ => unreachable!(),
    };
    by(alloc, law, form, ranges)
}

/// The form rewritten by a law of lesser and greater numbers.
pub fn by_orders(
    alloc: Global,
    axiom: Axiom,
    form: &Form,
    ranges: &IntervalList,
) -> Result<Form, StepFault>
    requires form { IsFormOver (length ranges.now) (shape form.now) }
    requires group { group_of «axiom» ≡ Orders }
    ensures { GivesForm result (answer (axiom_row «axiom») ranges.now (shape form.now)) }
{
    const MIN_COMM: Law = Law(Min(&X, &Y), Min(&Y, &X), Free);
    const MAX_COMM: Law = Law(Max(&X, &Y), Max(&Y, &X), Free);
    const MIN_LEFT: Law = Law(Min(&X, &Y), X, UnderY);
    const MAX_LEFT: Law = Law(Max(&X, &Y), X, OverY);
    const MIN_ADD: Law = Law(Add(&Min(&X, &Y), &Z), Min(&Add(&X, &Z), &Add(&Y, &Z)), Free);
    const MAX_ADD: Law = Law(Add(&Max(&X, &Y), &Z), Max(&Add(&X, &Z), &Add(&Y, &Z)), Free);
    const MIN_DIV: Law = Law(
        FloorDiv(&Min(&X, &Y), A),
        Min(&FloorDiv(&X, A), &FloorDiv(&Y, A)),
        Free,
    );
    const MAX_DIV: Law = Law(
        FloorDiv(&Max(&X, &Y), A),
        Max(&FloorDiv(&X, A), &FloorDiv(&Y, A)),
        Free,
    );
    let law = match axiom {
        Axiom::MinComm => &MIN_COMM,
        Axiom::MaxComm => &MAX_COMM,
        Axiom::MinLeft => &MIN_LEFT,
        Axiom::MaxLeft => &MAX_LEFT,
        Axiom::MinAdd => &MIN_ADD,
        Axiom::MaxAdd => &MAX_ADD,
        Axiom::MinDiv => &MIN_DIV,
        Axiom::MaxDiv => &MAX_DIV,
        _ => unreachable!(),
    };
    by(alloc, law, form, ranges)
}

/// The form rewritten by a law of choices and distances.
pub fn by_choices(
    alloc: Global,
    axiom: Axiom,
    form: &Form,
    ranges: &IntervalList,
) -> Result<Form, StepFault>
    requires form { IsFormOver (length ranges.now) (shape form.now) }
    requires group { group_of «axiom» ≡ Choices }
    ensures { GivesForm result (answer (axiom_row «axiom») ranges.now (shape form.now)) }
{
    const SEL_MAX: Law = Law(Sel(&X, &Y, &X, &Y), Max(&X, &Y), Free);
    const SEL_MIN: Law = Law(Sel(&X, &Y, &Y, &X), Min(&X, &Y), Free);
    const SEL_SAME: Law = Law(Sel(&X, &Y, &Z, &Z), Z, Free);
    const MAX_MIN_ABS: Law = Law(Sub(&Max(&X, &Y), &Min(&X, &Y)), Abs(&Sub(&X, &Y)), Free);
    const ABS_POS: Law = Law(Abs(&X), X, Positive);
    const ABS_NEG: Law = Law(Abs(&X), Mul(&MINUS_ONE, &X), Negative);
    let law = match axiom {
        Axiom::SelMax => &SEL_MAX,
        Axiom::SelMin => &SEL_MIN,
        Axiom::SelSame => &SEL_SAME,
        Axiom::MaxMinAbs => &MAX_MIN_ABS,
        Axiom::AbsPos => &ABS_POS,
        Axiom::AbsNeg => &ABS_NEG,
        _ => unreachable!(),
    };
    by(alloc, law, form, ranges)
}
