ghost use Rattle.std.specs.Prelude.{◌≡◌, ◌↔◌, IsTrue};

use pf_values::Term;

/// Whether two terms are one.
pub(crate) fn equal(a: &Term, b: &Term) -> bool
    ensures { IsTrue result ↔ (a.now ≡ b.now) }
{
    match (a, b) {
        (Term::Leaf { leaf, ty }, Term::Leaf { leaf: other, ty: u }) => *leaf == *other
            && *ty == *u,
        (
            Term::Node { op, ty, k, args },
            Term::Node {
                op: other,
                ty: u,
                k: l,
                args: terms,
            },
        ) => {
            if *op != *other || *ty != *u || *k != *l || args.len() != terms.len() {
                return false;
            }
            for (n, arg) in args.as_slice().iter().enumerate() {
                if !equal(arg, &terms.as_slice()[n]) {
                    return false;
                }
            }
            true
        }
        _ => false,
    }
}
