ghost use Rattle.std.specs.Prelude.{◌≡◌, map, slice_index_or, IfOk};
ghost use Rattle.pf_forms.specs.Meaning.Shapes.{shape};
ghost use Rattle.pf_forms.specs.Meaning.Equality.{same};
ghost use Rattle.pf_check.specs.Meaning.Citing.{filled, standing};
ghost use Rattle.pf_check.specs.Meaning.Orders.{this_or};
ghost use Rattle.pf_check.specs.Steps.Answers.{lent};

use pf_forms::{Form, equal, same_type};
use std::alloc::{AllocError, Global};

/// What stands in the form where variable n first stands in the pattern, or None where it doesn't.
pub(crate) fn standing<'a>(n: u8, pattern: &Form, form: &'a Form) -> Option<&'a Form>
    ensures { lent result ≡ standing n (shape pattern.now) (shape form.now) }
{
    match (pattern, form) {
        (Form::Var(m), _) => { if *m == n { Some(form) } else { None } }
        (Form::Add(x, y), Form::Add(u, v)) => this_or(standing(n, x, u), standing(n, y, v)),
        (Form::Sub(x, y), Form::Sub(u, v)) => this_or(standing(n, x, u), standing(n, y, v)),
        (Form::Mul(x, y), Form::Mul(u, v)) => this_or(standing(n, x, u), standing(n, y, v)),
        (Form::FloorDiv(x, _), Form::FloorDiv(u, _)) => standing(n, x, u),
        (Form::Min(x, y), Form::Min(u, v)) => this_or(standing(n, x, u), standing(n, y, v)),
        (Form::Max(x, y), Form::Max(u, v)) => this_or(standing(n, x, u), standing(n, y, v)),
        (Form::Abs(x), Form::Abs(u)) => standing(n, x, u),
        (Form::Sel(a, b, x, y), Form::Sel(c, d, u, v)) => {
            let compared = this_or(standing(n, a, c), standing(n, b, d));
            let chosen = this_or(standing(n, x, u), standing(n, y, v));
            this_or(compared, chosen)
        }
        (Form::Wrap(_, x), Form::Wrap(_, u)) => standing(n, x, u),
        (Form::Sat(_, x), Form::Sat(_, u)) => standing(n, x, u),
        _ => None,
    }
}

fn this_or<'a>(found: Option<&'a Form>, other: Option<&'a Form>) -> Option<&'a Form>
    ensures { lent result ≡ this_or (lent found.entry) (lent other.entry) }
{
    match found {
        Some(form) => Some(form),
        None => other,
    }
}

/// Form n, or the variable itself where there is none.
fn form_for<'a>(forms: &'a [Form], n: u8, variable: &'a Form) -> &'a Form
    ensures { shape result.now ≡ slice_index_or (map shape forms.now) n (shape variable.now) }
{
    match forms.get(usize::from(n)) {
        Some(form) => form,
        None => variable,
    }
}

/// Whether the form is the pattern with form n in place of variable n.
pub(crate) fn fits(forms: &[Form], pattern: &Form, form: &Form) -> bool
    ensures { result ≡ same (filled (map shape forms.now) (shape pattern.now)) (shape form.now) }
{
    match (pattern, form) {
        (Form::Var(n), _) => equal(form_for(forms, *n, pattern), form),
        (Form::Num(m), Form::Num(n)) => m == n,
        (Form::Pow(d), Form::Pow(e)) => d == e,
        (Form::Add(x, y), Form::Add(u, v)) => fits(forms, x, u) && fits(forms, y, v),
        (Form::Sub(x, y), Form::Sub(u, v)) => fits(forms, x, u) && fits(forms, y, v),
        (Form::Mul(x, y), Form::Mul(u, v)) => fits(forms, x, u) && fits(forms, y, v),
        (Form::FloorDiv(x, d), Form::FloorDiv(u, e)) => d == e && fits(forms, x, u),
        (Form::Min(x, y), Form::Min(u, v)) => fits(forms, x, u) && fits(forms, y, v),
        (Form::Max(x, y), Form::Max(u, v)) => fits(forms, x, u) && fits(forms, y, v),
        (Form::Abs(x), Form::Abs(u)) => fits(forms, x, u),
        (Form::Sel(a, b, x, y), Form::Sel(c, d, u, v)) => {
            fits(forms, a, c) && fits(forms, b, d) && fits(forms, x, u) && fits(forms, y, v)
        }
        (Form::Wrap(s, x), Form::Wrap(t, u)) => same_type(*s, *t) && fits(forms, x, u),
        (Form::Sat(s, x), Form::Sat(t, u)) => same_type(*s, *t) && fits(forms, x, u),
        _ => false,
    }
}

/// The pattern with form n in place of variable n.
#[cycle(filling)]
pub(crate) fn filled(alloc: Global, pattern: &Form, forms: &[Form]) -> Result<Form, AllocError>
    ensures { IfOk result (λ f. shape f ≡ filled (map shape forms.now) (shape pattern.now)) }
{
    match pattern {
        Form::Var(n) => form_for(forms, *n, pattern).copy(alloc),
        Form::Num(n) => Ok(Form::Num(*n)),
        Form::Pow(e) => Ok(Form::Pow(*e)),
        Form::Add(x, y) => Ok(Form::Add(boxed(alloc, x, forms)?, boxed(alloc, y, forms)?)),
        Form::Sub(x, y) => Ok(Form::Sub(boxed(alloc, x, forms)?, boxed(alloc, y, forms)?)),
        Form::Mul(x, y) => Ok(Form::Mul(boxed(alloc, x, forms)?, boxed(alloc, y, forms)?)),
        Form::FloorDiv(x, e) => Ok(Form::FloorDiv(boxed(alloc, x, forms)?, *e)),
        Form::Min(x, y) => Ok(Form::Min(boxed(alloc, x, forms)?, boxed(alloc, y, forms)?)),
        Form::Max(x, y) => Ok(Form::Max(boxed(alloc, x, forms)?, boxed(alloc, y, forms)?)),
        Form::Abs(x) => Ok(Form::Abs(boxed(alloc, x, forms)?)),
        Form::Sel(a, b, x, y) => Ok(Form::Sel(
            boxed(alloc, a, forms)?,
            boxed(alloc, b, forms)?,
            boxed(alloc, x, forms)?,
            boxed(alloc, y, forms)?,
        )),
        Form::Wrap(t, x) => Ok(Form::Wrap(*t, boxed(alloc, x, forms)?)),
        Form::Sat(t, x) => Ok(Form::Sat(*t, boxed(alloc, x, forms)?)),
    }
}

#[cycle(filling)]
fn boxed(alloc: Global, pattern: &Form, forms: &[Form]) -> Result<Box<Form>, AllocError>
    ensures { IfOk result (λ b. shape b.value ≡ filled (map shape forms.now) (shape pattern.now)) }
{
    Ok(Box::new(alloc, filled(alloc, pattern, forms)?)?)
}
