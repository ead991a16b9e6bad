ghost use Rattle.std.specs.Prelude.{◌≡◌, MatchOption, true, All};
ghost use Rattle.pf_isa.specs.Steps.CodeReading.{has_name, IsFirstMissing};

use pf_ints::Name;
use std::collections::BTreeSet;

/// A jump of a text.
#[derive(Clone, Copy)]
pub struct Jump {
    /// The number of its line, counted from 1.
    pub line: u64,
    pub label: Name,
}

/// The names of labels.
pub type LabelNames<'a> = BTreeSet<&'a [u8]>;

/// The line of the first jump to a label that isn't among these.
pub fn first_missing(jumps: &[Jump], names: &LabelNames<'_>) -> Option<u64>
    ensures { MatchOption result (All (λ j. has_name names.now j.label ≡ true) jumps.now) (λ line. IsFirstMissing (has_name names.now) jumps.now line) }
{
    for jump in jumps {
        if !names.contains(jump.label.as_slice()) {
            return Some(jump.line);
        }
    }
    None
}
