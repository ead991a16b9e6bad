ghost use Rattle.std.specs.Prelude.{◌≡◌, ℕ, ℤ, pos, ◌^◌, ◌<◌, length, IfSome};
ghost use Rattle.pf_ints.specs.Meaning.Ranges.{Includes};
ghost use Rattle.pf_forms.specs.Meaning.Shapes.{shape};
ghost use Rattle.pf_forms.specs.Meaning.Values.{FVal, AreIn, G, IsFormOver};

use crate::form::Form;
use pf_ints::{Interval, IntervalList};

/// The interval of a form whose variables lie in their ranges. It holds the form's value. None
/// where a bound of one of the form's parts is further than 2^120 from 0.
#[tactic(auto, using(crate::proofs::BoundLaws::if_some_holds))]
pub fn form_bounds(form: &Form, ranges: &IntervalList) -> Option<Interval>
    requires { IsFormOver (length ranges.now) (shape form.now) }
    ensures value { result ≡ G ranges.now (shape form.now) }
    ensures holds { IfSome result (λ r. (v : ℕ → ℤ) → AreIn ranges.now v → Includes r (FVal v (shape form.now))) }
{
    bounds(form, ranges.as_slice())
}

/// 2 to the power of `e`, which is at most 119.
pub fn power(e: u8) -> i128
    requires { e < 120 }
    ensures { result ≡ pos (2 ^ e) }
{
    1 << e
}

fn bounds(form: &Form, ranges: &[Interval]) -> Option<Interval>
    requires { IsFormOver (length ranges.now) (shape form.now) }
    ensures { result ≡ G ranges.now (shape form.now) }
{
    match form {
        Form::Var(n) => Some(ranges[usize::from(*n)]),
        Form::Num(n) => Interval::new(*n, *n),
        Form::Pow(e) => {
            let bound = power(*e);
            Interval::new(bound, bound)
        }
        Form::Add(x, y) => bounds(x, ranges)?.add(bounds(y, ranges)?),
        Form::Sub(x, y) => bounds(x, ranges)?.sub(bounds(y, ranges)?),
        Form::Mul(x, y) => bounds(x, ranges)?.mul(bounds(y, ranges)?),
        Form::FloorDiv(x, e) => Some(bounds(x, ranges)?.floor_div(power(*e))),
        Form::Min(x, y) => Some(bounds(x, ranges)?.min(bounds(y, ranges)?)),
        Form::Max(x, y) => Some(bounds(x, ranges)?.max(bounds(y, ranges)?)),
        Form::Abs(x) => Some(bounds(x, ranges)?.abs()),
        Form::Sel(a, b, x, y) => {
            let a = bounds(a, ranges)?;
            let b = bounds(b, ranges)?;
            let x = bounds(x, ranges)?;
            let y = bounds(y, ranges)?;
            Some(a.choose(b, x, y))
        }
        Form::Wrap(t, x) => Some(bounds(x, ranges)?.wrap(*t)),
        Form::Sat(t, x) => Some(bounds(x, ranges)?.sat(*t)),
    }
}
