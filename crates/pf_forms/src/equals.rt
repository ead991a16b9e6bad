ghost use Rattle.std.specs.Prelude.{◌≡◌, ◌↔◌, IsTrue};
ghost use Rattle.pf_forms.specs.Meaning.Shapes.{shape};
ghost use Rattle.pf_forms.specs.Meaning.Equality.{same, same_type};

use crate::form::Form;
use pf_ints::LaneType;

/// Whether two forms are equal.
#[tactic(auto, using(crate::proofs::EqualityLaws::is_same))]
pub fn equal(a: &Form, b: &Form) -> bool
    ensures exactly { IsTrue result ↔ (shape a.now ≡ shape b.now) }
    ensures value { result ≡ same (shape a.now) (shape b.now) }
{
    compare(a, b)
}

fn compare(a: &Form, b: &Form) -> bool
    ensures { result ≡ same (shape a.now) (shape b.now) }
{
    match (a, b) {
        (Form::Var(m), Form::Var(n)) => m == n,
        (Form::Num(m), Form::Num(n)) => m == n,
        (Form::Pow(d), Form::Pow(e)) => d == e,
        (Form::Add(u, v), Form::Add(x, y)) => compare(u, x) && compare(v, y),
        (Form::Sub(u, v), Form::Sub(x, y)) => compare(u, x) && compare(v, y),
        (Form::Mul(u, v), Form::Mul(x, y)) => compare(u, x) && compare(v, y),
        (Form::FloorDiv(u, d), Form::FloorDiv(x, e)) => d == e && compare(u, x),
        (Form::Min(u, v), Form::Min(x, y)) => compare(u, x) && compare(v, y),
        (Form::Max(u, v), Form::Max(x, y)) => compare(u, x) && compare(v, y),
        (Form::Abs(u), Form::Abs(x)) => compare(u, x),
        (Form::Sel(a, b, u, v), Form::Sel(c, d, x, y)) => {
            compare(a, c) && compare(b, d) && compare(u, x) && compare(v, y)
        }
        (Form::Wrap(s, u), Form::Wrap(t, x)) => same_type(*s, *t) && compare(u, x),
        (Form::Sat(s, u), Form::Sat(t, x)) => same_type(*s, *t) && compare(u, x),
        _ => false,
    }
}

/// Whether two types are the same.
pub fn same_type(s: LaneType, t: LaneType) -> bool
    ensures { result ≡ same_type s t }
{
    s.signed() == t.signed() && s.width() == t.width()
}
