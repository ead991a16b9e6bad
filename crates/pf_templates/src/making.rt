ghost use Rattle.std.specs.Prelude.{◌≡◌, ◌≤◌};
ghost use Rattle.pf_forms.specs.Meaning.Shapes.{shape, Num};
ghost use Rattle.pf_templates.specs.Meaning.Templates.{tree, at};
ghost use Rattle.pf_templates.specs.Meaning.Building.{has_room, is_within_forms, Makes};
ghost use Rattle.pf_templates.specs.Steps.Exponents.{IsExponent};
ghost use Rattle.pf_templates.specs.Meaning.Letters.{letters};

use crate::fault::BuildFault;
use crate::given::Given;
use crate::template::Template;
use pf_forms::Form;
use pf_ints::FURTHEST;
use std::alloc::Global;

/// The template with these letters filled in, a form of its own. `TooWide` where a number of the
/// template's own would be further than 2^120 from 0, or an exponent of its own above 119.
#[cycle(building)]
pub fn build(alloc: Global, template: &Template, given: &Given) -> Result<Form, BuildFault>
    requires a { (letters given.now).a ≤ 120 }
    requires b { (letters given.now).b ≤ 120 }
    ensures { Makes shape result (has_room (letters given.now) (tree template.now)) (at (letters given.now) (tree template.now)) }
{
    match template {
        Template::Letter(letter) => Ok(given.form(*letter).copy(alloc)?),
        Template::Num(numeral) => number(given.numeral(*numeral)),
        Template::Pow(exponent) => Ok(Form::Pow(within(given.exponent(*exponent))?)),
        Template::Add(p, q) => Ok(Form::Add(boxed(alloc, p, given)?, boxed(alloc, q, given)?)),
        Template::Sub(p, q) => Ok(Form::Sub(boxed(alloc, p, given)?, boxed(alloc, q, given)?)),
        Template::Mul(p, q) => Ok(Form::Mul(boxed(alloc, p, given)?, boxed(alloc, q, given)?)),
        Template::FloorDiv(p, exponent) => {
            let part = boxed(alloc, p, given)?;
            Ok(Form::FloorDiv(part, within(given.exponent(*exponent))?))
        }
        Template::Min(p, q) => Ok(Form::Min(boxed(alloc, p, given)?, boxed(alloc, q, given)?)),
        Template::Max(p, q) => Ok(Form::Max(boxed(alloc, p, given)?, boxed(alloc, q, given)?)),
        Template::Abs(p) => Ok(Form::Abs(boxed(alloc, p, given)?)),
        Template::Sel(p, q, r, s) => Ok(Form::Sel(
            boxed(alloc, p, given)?,
            boxed(alloc, q, given)?,
            boxed(alloc, r, given)?,
            boxed(alloc, s, given)?,
        )),
        Template::Wrap(which, p) => Ok(Form::Wrap(given.lane(*which), boxed(alloc, p, given)?)),
        Template::Sat(which, p) => Ok(Form::Sat(given.lane(*which), boxed(alloc, p, given)?)),
    }
}

#[cycle(building)]
fn boxed(alloc: Global, template: &Template, given: &Given) -> Result<Box<Form>, BuildFault>
    requires a { (letters given.now).a ≤ 120 }
    requires b { (letters given.now).b ≤ 120 }
    ensures { Makes (λ b. shape b.value) result (has_room (letters given.now) (tree template.now)) (at (letters given.now) (tree template.now)) }
{
    Ok(Box::new(alloc, build(alloc, template, given)?)?)
}

/// The form of a number that is within the limits.
fn number(n: i128) -> Result<Form, BuildFault>
    ensures { Makes shape result (is_within_forms n) (Num n) }
{
    if -FURTHEST <= n && n <= FURTHEST {
        Ok(Form::Num(n))
    } else {
        Err(BuildFault::TooWide)
    }
}

/// The exponent, where it is within the limits.
fn within(e: u8) -> Result<u8, BuildFault>
    ensures { IsExponent result e }
{
    if e < 120 {
        Ok(e)
    } else {
        Err(BuildFault::TooWide)
    }
}
