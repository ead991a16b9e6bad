ghost use Rattle.std.specs.Prelude.{◌≡◌, ◌-◌, ◌^◌, min};
ghost use Rattle.pf_forms.specs.Meaning.Shapes.{shape};
ghost use Rattle.pf_forms.specs.Meaning.Parts.{form_node_count};

use crate::form::Form;

/// The number of nodes, or 2^64 - 1 where there are more. The divisor of a quotient is a node.
pub fn size(form: &Form) -> u64
    ensures { result ≡ min (form_node_count (shape form.now)) (2 ^ 64 - 1) }
{
    match form {
        Form::Var(_) | Form::Num(_) | Form::Pow(_) => 1,
        Form::Abs(x) | Form::Wrap(_, x) | Form::Sat(_, x) => size(x).saturating_add(1),
        Form::FloorDiv(x, _) => size(x).saturating_add(2),
        Form::Add(x, y) | Form::Sub(x, y) | Form::Mul(x, y) | Form::Min(x, y) | Form::Max(x, y) => {
            size(x).saturating_add(size(y)).saturating_add(1)
        }
        Form::Sel(a, b, x, y) => {
            let compared = size(a).saturating_add(size(b));
            let chosen = size(x).saturating_add(size(y));
            compared.saturating_add(chosen).saturating_add(1)
        }
    }
}
