ghost use Rattle.std.specs.Prelude.{◌≡◌, ◌-◌, ◌^◌, min};
ghost use Rattle.pf_values.specs.Meaning.Terms.{node_count, depth_of};

use crate::term::Term;

/// How many nodes the term has, leaves included, or 2^64 - 1 where there are more.
pub fn nodes(term: &Term) -> u64
    ensures { result ≡ min (node_count term.now) (2 ^ 64 - 1) }
{
    match term {
        Term::Leaf { .. } => 1,
        Term::Node { args, .. } => {
            let mut sum: u64 = 1;
            for arg in args.as_slice() {
                sum = sum.saturating_add(nodes(arg));
            }
            sum
        }
    }
}

/// 1 for a leaf, and one more than the deepest operand's for a node, or 2^64 - 1 where it is more.
pub fn depth(term: &Term) -> u64
    ensures { result ≡ min (depth_of term.now) (2 ^ 64 - 1) }
{
    match term {
        Term::Leaf { .. } => 1,
        Term::Node { args, .. } => {
            let mut most: u64 = 0;
            for arg in args.as_slice() {
                most = most.max(depth(arg));
            }
            most.saturating_add(1)
        }
    }
}
