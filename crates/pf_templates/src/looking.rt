ghost use Rattle.std.specs.Prelude.{◌≡◌, ℕ};
ghost use Rattle.pf_forms.specs.Meaning.Values.{IsFormOver};
ghost use Rattle.pf_templates.specs.Meaning.Building.{AreForms};
ghost use Rattle.pf_forms.specs.Meaning.Shapes.{shape};
ghost use Rattle.pf_templates.specs.Meaning.Templates.{tree, looked};
ghost use Rattle.pf_templates.specs.Meaning.Letters.{letters, start, with_form, with_number, with_exponent, with_type};

use crate::exponents::exponent_of;
use crate::given::Given;
use crate::template::{Exponent, Letter, Numeral, Template, Which};
use pf_forms::Form;
use pf_ints::LaneType;

/// What the letters stand for where the form is the template: what stands in their places in the
/// form. A letter that the template hasn't, or whose place the form hasn't, stands for the whole
/// form, for u8 or for 0. A number is taken for the power of two that it is.
pub fn look<'f>(template: &Template, form: &'f Form) -> Given<'f>
    ensures value { letters result ≡ looked (tree template.now) (shape form.now) (start (shape form.now)) }
    ensures forms { (count : ℕ) → IsFormOver count (shape form.now) → AreForms count (letters result) }
{
    descend(template, form, Given::start(form))
}

/// The letters with what stands in their places. Letters that don't stand in the template, or
/// that are not met, stay.
fn descend<'f>(template: &Template, form: &'f Form, given: Given<'f>) -> Given<'f>
    ensures { letters result ≡ looked (tree template.now) (shape form.now) (letters given.entry) }
{
    match (template, form) {
        (Template::Letter(letter), _) => with_form(given, *letter, form),
        (Template::Num(numeral), Form::Num(n)) => with_number(given, *numeral, *n),
        (Template::Pow(exponent), Form::Pow(e)) => with_exponent(given, *exponent, *e),
        (Template::Add(p, q), Form::Add(x, y)) => descend(q, y, descend(p, x, given)),
        (Template::Sub(p, q), Form::Sub(x, y)) => descend(q, y, descend(p, x, given)),
        (Template::Mul(p, q), Form::Mul(x, y)) => descend(q, y, descend(p, x, given)),
        (Template::FloorDiv(p, exponent), Form::FloorDiv(x, e)) => {
            with_exponent(descend(p, x, given), *exponent, *e)
        }
        (Template::Min(p, q), Form::Min(x, y)) => descend(q, y, descend(p, x, given)),
        (Template::Max(p, q), Form::Max(x, y)) => descend(q, y, descend(p, x, given)),
        (Template::Abs(p), Form::Abs(x)) => descend(p, x, given),
        (Template::Sel(p, q, r, s), Form::Sel(a, b, x, y)) => {
            descend(s, y, descend(r, x, descend(q, b, descend(p, a, given))))
        }
        (Template::Wrap(which, p), Form::Wrap(t, x)) => with_type(descend(p, x, given), *which, *t),
        (Template::Sat(which, p), Form::Sat(t, x)) => with_type(descend(p, x, given), *which, *t),
        _ => given,
    }
}

fn with_form<'f>(given: Given<'f>, letter: Letter, form: &'f Form) -> Given<'f>
    ensures { letters result ≡ with_form (letters given.entry) letter (shape form.now) }
{
    match letter {
        Letter::X => Given { x: form, ..given },
        Letter::Y => Given { y: form, ..given },
        Letter::Z => Given { z: form, ..given },
        Letter::V => Given { v: form, ..given },
    }
}

fn with_number<'f>(given: Given<'f>, numeral: Numeral, n: i128) -> Given<'f>
    ensures { letters result ≡ with_number (letters given.entry) numeral n }
{
    match numeral {
        Numeral::TwoToA => Given {
            a: exponent_of(n),
            ..given
        },
        _ => given,
    }
}

fn with_exponent<'f>(given: Given<'f>, exponent: Exponent, e: u8) -> Given<'f>
    ensures { letters result ≡ with_exponent (letters given.entry) exponent e }
{
    match exponent {
        Exponent::A => Given { a: e, ..given },
        Exponent::B => Given { b: e, ..given },
        _ => given,
    }
}

fn with_type<'f>(given: Given<'f>, which: Which, ty: LaneType) -> Given<'f>
    ensures { letters result ≡ with_type (letters given.entry) which ty }
{
    match which {
        Which::T => Given { t: ty, ..given },
        Which::U => Given { u: ty, ..given },
    }
}
