ghost use Rattle.std.specs.Prelude.{◌≡◌, ◌-◌, ◌^◌, min};
ghost use Rattle.pf_rules.specs.Meaning.Counts.{pattern_nodes, pattern_weight, occurrences, is_lane_free, is_op_free, is_bare};

use crate::pattern::Pattern;

/// How many nodes the pattern has, leaves included, or 2^64 - 1 where there are more.
pub fn nodes(pattern: &Pattern) -> u64
    ensures { result ≡ min (pattern_nodes pattern.now) (2 ^ 64 - 1) }
{
    match pattern {
        Pattern::Var(_) | Pattern::Const { .. } => 1,
        Pattern::Node { args, .. } | Pattern::Lane { args, .. } => {
            let mut sum: u64 = 1;
            for arg in args.as_slice() {
                sum = sum.saturating_add(nodes(arg));
            }
            sum
        }
    }
}

/// The sum of the weights of the pattern's nodes, or 2^64 - 1 where it is larger. A variable, a
/// number and a lane operation weigh 1.
pub fn weight(pattern: &Pattern) -> u64
    ensures { result ≡ min (pattern_weight pattern.now) (2 ^ 64 - 1) }
{
    match pattern {
        Pattern::Var(_) | Pattern::Const { .. } => 1,
        Pattern::Node { op, args, .. } => {
            let mut sum = op.weight();
            for arg in args.as_slice() {
                sum = sum.saturating_add(weight(arg));
            }
            sum
        }
        Pattern::Lane { args, .. } => {
            let mut sum: u64 = 1;
            for arg in args.as_slice() {
                sum = sum.saturating_add(weight(arg));
            }
            sum
        }
    }
}

/// How often the variable stands in the pattern, or 2^64 - 1 where it is more often.
pub fn occurrences(variable: u8, pattern: &Pattern) -> u64
    ensures { result ≡ min (occurrences variable pattern.now) (2 ^ 64 - 1) }
{
    match pattern {
        Pattern::Var(n) => u64::from(*n == variable),
        Pattern::Const { .. } => 0,
        Pattern::Node { args, .. } | Pattern::Lane { args, .. } => {
            let mut sum: u64 = 0;
            for arg in args.as_slice() {
                sum = sum.saturating_add(occurrences(variable, arg));
            }
            sum
        }
    }
}

/// Whether no lane operation stands in the pattern.
pub fn is_lane_free(pattern: &Pattern) -> bool
    ensures { result ≡ is_lane_free pattern.now }
{
    match pattern {
        Pattern::Var(_) | Pattern::Const { .. } => true,
        Pattern::Lane { .. } => false,
        Pattern::Node { args, .. } => {
            for arg in args.as_slice() {
                if !is_lane_free(arg) {
                    return false;
                }
            }
            true
        }
    }
}

/// Whether no operator stands in the pattern.
pub fn is_op_free(pattern: &Pattern) -> bool
    ensures { result ≡ is_op_free pattern.now }
{
    match pattern {
        Pattern::Var(_) | Pattern::Const { .. } => true,
        Pattern::Node { .. } => false,
        Pattern::Lane { args, .. } => {
            for arg in args.as_slice() {
                if !is_op_free(arg) {
                    return false;
                }
            }
            true
        }
    }
}

/// Whether the pattern is a variable or a number.
pub fn is_bare(pattern: &Pattern) -> bool
    ensures { result ≡ is_bare pattern.now }
{
    match pattern {
        Pattern::Var(_) | Pattern::Const { .. } => true,
        Pattern::Node { .. } | Pattern::Lane { .. } => false,
    }
}
