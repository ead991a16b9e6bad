ghost use Rattle.std.specs.Prelude.{◌≡◌, ℕ, List, ◌++◌, IfOk, IfErr, MatchOption};
ghost use Rattle.std.specs.Str.Lines.{lines};
ghost use Rattle.pf_ints.specs.declared.target.Target.{Target};
ghost use Rattle.pf_isa.specs.declared.fault.TextKind.{TextKind};
ghost use Rattle.pf_machine.specs.Meaning.Programs.{ProgramOf};
ghost use Rattle.pf_isa.specs.Meaning.Texts.{IsText, head_lines, code_lines, printed};
ghost use Rattle.pf_isa.specs.Meaning.TextFaults.{IsTextFault, IsTextFaultOr, IsTextRefusal, IsProgramOr, IsFor};

use crate::fault::TextFault;
use crate::lines::{first_line, lines_of};
use crate::read_code::read_code;
use crate::read_head::read_head;
use crate::target_line::is_for;
use crate::write::write_text;
use pf_ints::Target;
use pf_machine::{Isa, Program};
use std::alloc::Global;

/// The program that a text means. `line` of a fault counts from 1.
///
/// A text has a head and then lines of code. Each line is the one that `write_text` writes, up to
/// blanks: one or more spaces or TABs where a space is printed, any number behind a comma and at
/// both ends. A lifted term may be any text of the term. Behind the head blank lines and comments
/// are free. Lines end in LF or CR LF, and the last one may lack its end. So what `write_text` wrote
/// of a program is read as that program.
///
/// The first fault is told: `Target` in line 1; `Directive` in the first line with which the lines
/// so far begin no head, which is the line after the last where the text ends within the head; then
/// line by line `Instruction`, or `Label` where an earlier line has the label; then `Label` at the
/// first jump to a missing label; then `NoEnd` at the last line.
pub fn read_text<I: Isa>(alloc: Global, text: &[u8]) -> Result<Program<I>, TextFault>
    // What is read is what the text means.
    ensures found { IfOk result (λ p. IsText I.table I.is_op text.now p) }
    // What a text means is read, unless memory runs out.
    ensures only { (p : ProgramOf I I.Op) → IsText I.table I.is_op text.now p → IsProgramOr p result }
    // What is told is the text's first fault, or want of memory.
    ensures fault { IfErr result (IsTextRefusal I I.table I.is_op text.now) }
    // The first fault of a text is told, unless memory runs out.
    ensures told { (line : ℕ) (kind : TextKind) → IsTextFault I I.table I.is_op text.now line kind → IsTextFaultOr line kind result }
{
    let lines = lines_of(alloc, text)?;
    let (head, start) = read_head(alloc, I::TARGET, lines.as_slice())?;
    let (code, labels) = read_code::<I>(alloc, lines.as_slice(), start)?;
    Ok(Program::new(head, code, labels))
}

/// The program as whoever reads its text gets it: the program itself, of memory of its own. So what
/// `write_text` writes of a program is read as that program, and the one fault is want of memory.
pub fn reread<I: Isa>(alloc: Global, program: &Program<I>) -> Result<Program<I>, TextFault>
    ensures { IsProgramOr program.now result }
{
    let text = write_text(alloc, program)?;
    read_text(alloc, &text)
}

/// The target that line 1 of a text names, or None where it names none. It takes no memory.
pub fn target_of(text: &[u8]) -> Option<Target>
    ensures { MatchOption result ((t : Target) → IsFor t (lines text.now) → ⊥) (λ t. IsFor t (lines text.now)) }
{
    let line = first_line(text)?;
    if is_for(Target::Neon, line) {
        Some(Target::Neon)
    } else if is_for(Target::Avx2, line) {
        Some(Target::Avx2)
    } else if is_for(Target::Hvx, line) {
        Some(Target::Hvx)
    } else {
        None
    }
}
