ghost use Rattle.std.specs.Prelude.{◌≡◌, ℕ, ℤ, IsSome, IfSome, option_map};
ghost use Rattle.pf_forms.specs.Meaning.Shapes.{shape};
ghost use Rattle.pf_forms.specs.Meaning.Values.{FVal, IsFormOver};
ghost use Rattle.pf_forms.specs.Meaning.Parts.{child, part_at, put_at};

use crate::form::Form;
use pf_ints::Path;

/// The part at a path, or None where the path leaves the form.
#[tactic(auto, using(crate::proofs::PartLaws::part_form))]
pub fn at<'a>(form: &'a Form, path: &Path) -> Option<&'a Form>
    ensures value { option_map (λ x. shape x.now) result ≡ part_at (shape form.now) path.now }
    ensures form { (count : ℕ) → IsFormOver count (shape form.now) → IfSome result (λ x. IsFormOver count (shape x.now)) }
{
    descend(form, path.as_slice())
}

fn descend<'a>(form: &'a Form, path: &[u8]) -> Option<&'a Form>
    ensures { option_map (λ x. shape x.now) result ≡ part_at (shape form.now) path.now }
{
    match path {
        [] => Some(form),
        [i, rest @ ..] => descend(child_of(form, *i)?, rest),
    }
}

/// The child of a number, counted from 0, or None where there is none. The divisor of a quotient
/// is no child.
pub fn child_of(form: &Form, i: u8) -> Option<&Form>
    ensures { option_map (λ x. shape x.now) result ≡ child (shape form.now) i }
{
    match (form, i) {
        (Form::Add(x, _) | Form::Sub(x, _) | Form::Mul(x, _), 0) => Some(x),
        (Form::Add(_, y) | Form::Sub(_, y) | Form::Mul(_, y), 1) => Some(y),
        (Form::Min(x, _) | Form::Max(x, _), 0) => Some(x),
        (Form::Min(_, y) | Form::Max(_, y), 1) => Some(y),
        (Form::FloorDiv(x, _) | Form::Abs(x) | Form::Wrap(_, x) | Form::Sat(_, x), 0) => Some(x),
        (Form::Sel(a, _, _, _), 0) => Some(a),
        (Form::Sel(_, b, _, _), 1) => Some(b),
        (Form::Sel(_, _, x, _), 2) => Some(x),
        (Form::Sel(_, _, _, y), 3) => Some(y),
        _ => None,
    }
}

/// The form with `part` in place of what stands at the path. It has the value of the form where
/// `part` has that of the replaced part.
#[tactic(auto, using(crate::proofs::PartLaws::put_form, crate::proofs::PartLaws::put_value))]
pub fn put(form: Form, path: &Path, part: Form) -> Form
    requires { IsSome (part_at (shape form) path.now) }
    ensures value { shape result ≡ put_at (shape form) path.now (shape part) }
    ensures form { (count : ℕ) → IsFormOver count (shape form) → IsFormOver count (shape part) → IsFormOver count (shape result) }
    ensures same_value { (v : ℕ → ℤ) → IfSome (part_at (shape form) path.now) (λ p. FVal v (shape part) ≡ FVal v p)
        → FVal v (shape result) ≡ FVal v (shape form) }
{
    let mut form = form;
    replace(&mut form, path.as_slice(), part);
    form
}

fn replace(form: &mut Form, path: &[u8], part: Form)
    requires { IsSome (part_at (shape form.old) path.now) }
    ensures { shape form.new ≡ put_at (shape form.old) path.now (shape part) }
{
    match path {
        [] => *form = part,
        [i, rest @ ..] => match (form, *i) {
            (Form::Add(x, _), 0) => replace(x, rest, part),
            (Form::Add(_, y), 1) => replace(y, rest, part),
            (Form::Sub(x, _), 0) => replace(x, rest, part),
            (Form::Sub(_, y), 1) => replace(y, rest, part),
            (Form::Mul(x, _), 0) => replace(x, rest, part),
            (Form::Mul(_, y), 1) => replace(y, rest, part),
            (Form::FloorDiv(x, _), 0) => replace(x, rest, part),
            (Form::Min(x, _), 0) => replace(x, rest, part),
            (Form::Min(_, y), 1) => replace(y, rest, part),
            (Form::Max(x, _), 0) => replace(x, rest, part),
            (Form::Max(_, y), 1) => replace(y, rest, part),
            (Form::Abs(x), 0) => replace(x, rest, part),
            (Form::Sel(a, _, _, _), 0) => replace(a, rest, part),
            (Form::Sel(_, b, _, _), 1) => replace(b, rest, part),
            (Form::Sel(_, _, x, _), 2) => replace(x, rest, part),
            (Form::Sel(_, _, _, y), 3) => replace(y, rest, part),
            (Form::Wrap(_, x), 0) => replace(x, rest, part),
            (Form::Sat(_, x), 0) => replace(x, rest, part),
            _ => unreachable!(),
        },
    }
}
