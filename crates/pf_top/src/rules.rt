//! The files of rules that are built.

ghost use Rattle.std.specs.Prelude.{◌≡◌, ◌+◌, IfOk};
ghost use Rattle.pf_outside.specs.Meaning.StoreCalls.{seen};
ghost use Rattle.pf_top.specs.Meaning.Files.{rule_file, rule_limit};
ghost use Rattle.pf_top.specs.Meaning.Selections.{lift_text, lower_text, min_rule};
ghost use Rattle.pf_top.specs.Steps.RunSteps.{JudgedAs, JudgesAs};

use crate::fault::{FileFault, Stop};
use pf_images::Files;
use pf_ints::{ByteList, Memory, Target};
use pf_outside::{Piece, line_of, read_front};
use std::alloc::Global;

/// The rule file without rules.
#[tactic(auto, unfolding(crate::specs::Meaning::Selections::lift_text))]
pub fn lift_text() -> &'static [u8]
    ensures { result.now ≡ lift_text }
{
    b"rules 1 lift\n"
}

/// The lines of the one rule that lowers `min` to the lane operation of its name.
#[tactic(auto, unfolding(crate::specs::Meaning::Selections::min_rule))]
fn min_rule() -> &'static [u8]
    ensures { result.now ≡ min_rule }
{
    b"\nrule least\nwidths 8 16 32\nvar x u1\nvar y u1\nleft min(x, y)\nright @min(x, y)\nend"
}

/// The rule file of a target with this rule.
pub fn lower_text(alloc: Global, target: Target) -> Result<ByteList, Memory>
    ensures { IfOk result (λ text. text ≡ lower_text target) }
{
    let pieces = [
        Piece::Word(b"rules 1 "),
        Piece::Word(target.word()),
        Piece::Word(min_rule()),
    ];
    line_of(alloc, &pieces)
}

/// How many bytes of a rule file are judged at most: one more than its limit.
#[tactic(auto, unfolding(crate::specs::Meaning::Files::rule_limit))]
fn most_judged() -> u64
    ensures { result ≡ rule_limit + 1 }
{
    1_048_577
}

/// Whether the bytes of the file of this number are this text.
fn compare(number: usize, bytes: &[u8], text: &[u8]) -> Result<(), Stop>
    ensures { JudgesAs (rule_file text.now) number result bytes.now }
{
    if bytes != text {
        return Err(Stop::Refused(number, FileFault::NotBuilt));
    }
    Ok(())
}

/// Judges a file of rules.
pub fn read_rules<F: Files>(
    alloc: Global,
    files: &mut F,
    number: usize,
    name: &str,
    text: &[u8],
) -> Result<(), Stop>
    ensures { JudgedAs (rule_file text.now) number name.now
        (seen F.held F.faults F.calls files.old) result (seen F.held F.faults F.calls files.new) }
{
    let bytes = read_front(alloc, files, number, name, most_judged())?;
    compare(number, bytes.as_slice(), text)
}
