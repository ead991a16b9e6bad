ghost use Rattle.std.specs.Prelude.{◌≡◌, ◌≤◌};
ghost use Rattle.pf_forms.specs.Meaning.Shapes.{shape};
ghost use Rattle.pf_forms.specs.Meaning.Equality.{same};
ghost use Rattle.pf_templates.specs.Meaning.Templates.{tree, at};
ghost use Rattle.pf_templates.specs.Meaning.Letters.{letters};

use crate::given::Given;
use crate::template::Template;
use pf_forms::{Form, equal, same_type};

/// Whether the form is the template with these letters filled in. The exponents of the letters
/// are at most 120.
pub fn fits(template: &Template, given: &Given, form: &Form) -> bool
    requires a { (letters given.now).a ≤ 120 }
    requires b { (letters given.now).b ≤ 120 }
    ensures { result ≡ same (at (letters given.now) (tree template.now)) (shape form.now) }
{
    match (template, form) {
        (Template::Letter(letter), _) => equal(given.form(*letter), form),
        (Template::Num(numeral), Form::Num(n)) => given.numeral(*numeral) == *n,
        (Template::Pow(exponent), Form::Pow(e)) => given.exponent(*exponent) == *e,
        (Template::Add(p, q), Form::Add(x, y)) => fits(p, given, x) && fits(q, given, y),
        (Template::Sub(p, q), Form::Sub(x, y)) => fits(p, given, x) && fits(q, given, y),
        (Template::Mul(p, q), Form::Mul(x, y)) => fits(p, given, x) && fits(q, given, y),
        (Template::FloorDiv(p, exponent), Form::FloorDiv(x, e)) => {
            given.exponent(*exponent) == *e && fits(p, given, x)
        }
        (Template::Min(p, q), Form::Min(x, y)) => fits(p, given, x) && fits(q, given, y),
        (Template::Max(p, q), Form::Max(x, y)) => fits(p, given, x) && fits(q, given, y),
        (Template::Abs(p), Form::Abs(x)) => fits(p, given, x),
        (Template::Sel(p, q, r, s), Form::Sel(a, b, x, y)) => {
            fits(p, given, a) && fits(q, given, b) && fits(r, given, x) && fits(s, given, y)
        }
        (Template::Wrap(which, p), Form::Wrap(t, x)) => {
            same_type(given.lane(*which), *t) && fits(p, given, x)
        }
        (Template::Sat(which, p), Form::Sat(t, x)) => {
            same_type(given.lane(*which), *t) && fits(p, given, x)
        }
        _ => false,
    }
}
