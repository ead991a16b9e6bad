ghost use Rattle.std.specs.Prelude.{◌≡◌, ◌-◌, ◌^◌, min};
ghost use Rattle.pf_values.specs.Meaning.Terms.{weight_of};

use crate::term::Term;

/// The sum of the weights of the term's nodes, or 2^64 - 1 where it is larger.
pub fn weight(term: &Term) -> u64
    ensures { result ≡ min (weight_of term.now) (2 ^ 64 - 1) }
{
    match term {
        Term::Leaf { .. } => 1,
        Term::Node { op, args, .. } => {
            let mut sum = op.weight();
            for arg in args.as_slice() {
                sum = sum.saturating_add(weight(arg));
            }
            sum
        }
    }
}
