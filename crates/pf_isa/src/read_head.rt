ghost use Rattle.std.specs.Prelude.{◌≡◌, ◌+◌, ◌<◌, ◌≤◌, ◌^◌, ℕ, List, ◌++◌, length, take, IfOk, IfErr};
ghost use Rattle.pf_text.specs.Meaning.Answers.{Answers};
ghost use Rattle.pf_isa.specs.declared.fault.TextKind.{TextKind};
ghost use Rattle.pf_machine.specs.declared.program.Head.{Head};
ghost use Rattle.pf_machine.specs.Meaning.Heads.{IsHead};
ghost use Rattle.pf_isa.specs.Steps.HeadSteps.{IsReached, IsWholeFrom, IsStopped, IsHeadWay, IsHeadStop};
ghost use Rattle.pf_isa.specs.Meaning.Texts.{IsHeadText};
ghost use Rattle.pf_isa.specs.Meaning.TextFaults.{texts, IsHeadFaultAt, IsHeadRefusal, IsHeadOr, IsTextFaultOr};

use crate::fault::{TextFault, TextKind};
use crate::so_far::HeadSoFar;
use crate::target_line::is_for;
use pf_ints::Target;
use pf_machine::Head;
use std::alloc::Global;

/// The head that the first lines say, and how many lines it takes.
pub fn read_head(alloc: Global, target: Target, lines: &[&[u8]]) -> Result<(Head, usize), TextFault>
    ensures within { IfOk result (λ r. r.1 ≤ length lines.now) }
    ensures says { IfOk result (λ r. IsHeadText target (take r.1 (texts lines.now)) r.0) }
    ensures kept { IfOk result (λ r. IsHead r.0) }
    ensures only { (h : Head) (front back : List (List ℕ)) → texts lines.now ≡ front ++ back → IsHeadText target front h → IsHead h → IsHeadOr h (length front) result }
    ensures fault { IfErr result (IsHeadRefusal target (texts lines.now)) }
    ensures told { (at : ℕ) (kind : TextKind) → IsHeadFaultAt target (texts lines.now) at kind → IsTextFaultOr at kind result }
{
    way_of(alloc, target, lines)
}

fn way_of(alloc: Global, target: Target, lines: &[&[u8]]) -> Result<(Head, usize), TextFault>
    ensures { Answers TextFault.Memory (IsHeadWay target (texts lines.now)) (IsHeadStop target (texts lines.now)) result }
{
    let [first, rest @ ..] = lines else {
        return Err(no_target());
    };
    if !is_for(target, first) {
        return Err(no_target());
    }
    read_rest(alloc, HeadSoFar::new(alloc), rest, 1)
}

fn no_target() -> TextFault
    ensures { result ≡ TextFault.At 1 TextKind.Target }
{
    TextFault::At {
        line: 1,
        kind: TextKind::Target,
    }
}

// The head that is so far, with the lines that are left of it, behind n lines.
fn read_rest(
    alloc: Global,
    so_far: HeadSoFar,
    lines: &[&[u8]],
    n: usize,
) -> Result<(Head, usize), TextFault>
    requires reached { IsReached so_far }
    requires fits { n + length lines.now + 1 < 2 ^ 64 }
    ensures { Answers TextFault.Memory (IsWholeFrom so_far (texts lines.now) n) (IsStopped so_far (texts lines.now) n) result }
{
    if so_far.is_whole() {
        return Ok((so_far.into_head(), n));
    }
    match lines {
        [line, rest @ ..] => match so_far.next(alloc, line)? {
            Some(next) => read_rest(alloc, next, rest, n + 1),
            None => Err(directive(n)),
        },
        [] => Err(directive(n)),
    }
}

// The fault of the line behind n lines.
fn directive(n: usize) -> TextFault
    requires { n + 1 < 2 ^ 64 }
    ensures { result ≡ TextFault.At (n + 1) TextKind.Directive }
{
    TextFault::At {
        line: n as u64 + 1,
        kind: TextKind::Directive,
    }
}
