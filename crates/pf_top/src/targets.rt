//! The words of targets.

ghost use Rattle.std.specs.Prelude.{◌≡◌, MatchOption};
ghost use Rattle.pf_ints.specs.Meaning.Targets.{target_word};

use pf_ints::Target;

/// The target of this word.
pub fn target_of(word: &str) -> Option<Target>
    ensures { MatchOption result ((t : Target) → word.now ≡ target_word t → ⊥) (λ t. word.now ≡ target_word t) }
{
    match word {
        "neon" => Some(Target::Neon),
        "avx2" => Some(Target::Avx2),
        "hvx" => Some(Target::Hvx),
        _ => None,
    }
}
