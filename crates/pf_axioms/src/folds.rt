ghost use Rattle.std.specs.Prelude.{◌≡◌, ℕ, ℤ, List};
ghost use Rattle.pf_ints.specs.Meaning.Ranges.{Range};
ghost use Rattle.pf_forms.specs.Meaning.Shapes.{shape, Num};
ghost use Rattle.pf_forms.specs.Meaning.Values.{IsFormOver};
ghost use Rattle.pf_axioms.specs.Meaning.Rows.{Folding};
ghost use Rattle.pf_templates.specs.Meaning.Building.{is_within_forms};
ghost use Rattle.pf_axioms.specs.Steps.Numbers.{IsNumberOf, AreNumbersOf};
ghost use Rattle.pf_axioms.specs.Meaning.AxiomSteps.{GivesForm, limited, answer};

use crate::fault::StepFault;
use pf_forms::{Form, power};
use pf_ints::{FURTHEST, sat, wrap};

/// An operation on numbers alone becomes its value.
pub fn fold(form: &Form) -> Result<Form, StepFault>
    requires { (count : ℕ) × IsFormOver count (shape form.now) }
    ensures { (ranges : List Range) → GivesForm result (answer Folding ranges (shape form.now)) }
{
    match form {
        Form::Var(_) | Form::Num(_) | Form::Pow(_) => Err(StepFault::NoMatch),
        Form::Add(x, y) => {
            let (m, n) = numbers(x, y)?;
            number(m + n)
        }
        Form::Sub(x, y) => {
            let (m, n) = numbers(x, y)?;
            number(m - n)
        }
        Form::Mul(x, y) => {
            let (m, n) = numbers(x, y)?;
            number(m.checked_mul(n).ok_or(StepFault::TooWide)?)
        }
        Form::FloorDiv(x, e) => number(as_number(x)?.div_euclid(power(*e))),
        Form::Min(x, y) => {
            let (m, n) = numbers(x, y)?;
            number(m.min(n))
        }
        Form::Max(x, y) => {
            let (m, n) = numbers(x, y)?;
            number(m.max(n))
        }
        Form::Abs(x) => number(as_number(x)?.abs()),
        Form::Sel(a, b, x, y) => {
            let (c, d) = numbers(a, b)?;
            let (m, n) = numbers(x, y)?;
            number(if c > d { m } else { n })
        }
        Form::Wrap(t, x) => number(wrap(*t, as_number(x)?)),
        Form::Sat(t, x) => number(sat(*t, as_number(x)?)),
    }
}

/// The form of a number, where that one is within the limits.
fn number(n: i128) -> Result<Form, StepFault>
    ensures { GivesForm result (limited (is_within_forms n) (Num n)) }
{
    if -FURTHEST <= n && n <= FURTHEST {
        Ok(Form::Num(n))
    } else {
        Err(StepFault::TooWide)
    }
}

fn as_number(form: &Form) -> Result<i128, StepFault>
    requires { (count : ℕ) × IsFormOver count (shape form.now) }
    ensures { IsNumberOf (shape form.now) result }
{
    match form {
        Form::Num(n) => Ok(*n),
        _ => Err(StepFault::NoMatch),
    }
}

fn numbers(x: &Form, y: &Form) -> Result<(i128, i128), StepFault>
    requires left { (count : ℕ) × IsFormOver count (shape x.now) }
    requires right { (count : ℕ) × IsFormOver count (shape y.now) }
    ensures { AreNumbersOf (shape x.now) (shape y.now) result }
{
    Ok((as_number(x)?, as_number(y)?))
}
