ghost use Rattle.std.specs.Prelude.{◌≡◌, ◌↔◌, IsTrue};
ghost use Rattle.pf_text.specs.Meaning.Lines.{tight, IsLine};
ghost use Rattle.pf_isa.specs.Meaning.Texts.{target_line};

use pf_ints::Target;
use pf_text::{ShortLine, tighten};

/// Whether the line is the first one of a text for the target.
pub fn is_for(target: Target, line: &[u8]) -> bool
    ensures { IsTrue result ↔ IsLine line.now (target_line target) }
{
    match tighten(line) {
        Some(tight) => tight.is_same(&target_line(target)),
        None => false,
    }
}

// The line of a target.
#[tactic(auto, unfolding(pf_text::specs::Meaning::Lines::tight))]
fn target_line(target: Target) -> ShortLine
    ensures { result ≡ tight (target_line target) }
{
    let line = ShortLine::new();
    match target {
        Target::Neon => line.word(b".target neon"),
        Target::Avx2 => line.word(b".target avx2"),
        Target::Hvx => line.word(b".target hvx"),
    }
}
