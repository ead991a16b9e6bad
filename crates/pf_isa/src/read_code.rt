ghost use Rattle.std.specs.Prelude.{◌≡◌, ◌+◌, ◌≤◌, ◌<◌, ◌^◌, ◌∷◌, ◌++◌, List, ℕ, [], length, drop, None, Some, IfOk, IfErr, IsTrue, ◌↔◌};
ghost use Rattle.std.specs.List.{last_or};
ghost use Rattle.pf_text.specs.Meaning.Words.{is_name};
ghost use Rattle.pf_machine.specs.declared.code.Label.{Label};
ghost use Rattle.pf_machine.specs.declared.code.Line.{Line};
ghost use Rattle.pf_isa.specs.declared.fault.TextFault.TheVariants.{At};
ghost use Rattle.pf_isa.specs.declared.fault.TextKind.{TextKind};
ghost use Rattle.pf_machine.specs.Meaning.Programs.{IsLast};
ghost use Rattle.pf_isa.specs.Meaning.Texts.{CodeMeaning, Does, IsCodeText};
ghost use Rattle.pf_isa.specs.Meaning.TextFaults.{texts, IsOperation, IsCodeFaultAt, IsCodeRefusal, IsCodeOr, IsTextFaultOr};
ghost use Rattle.pf_isa.specs.Steps.CodeReading.{AddsLabel, AddsInstruction, TakesLine, IsCodeReading, IsLineRefusal};

use crate::code_line::{CodeLine, code_line};
use crate::fault::{TextFault, TextKind};
use crate::jumps::{Jump, LabelNames, first_missing};
use pf_ints::{Name, Sequence};
use pf_machine::{Code, Control, Isa, Label, LabelList, Line, jump_label};
use std::alloc::Global;
use std::collections::BTreeSet;

/// What the lines so far say.
#[derive(Drop)]
pub struct CodeReading<'a, I: Isa> {
    code: Code<I>,
    labels: LabelList,
    names: LabelNames<'a>,
    jumps: Vec<Jump>,
}

/// The instructions and the labels of the lines behind the first `start`.
pub fn read_code<I: Isa>(
    alloc: Global,
    lines: &[&[u8]],
    start: usize,
) -> Result<(Code<I>, LabelList), TextFault>
    requires { start ≤ length lines.now }
    ensures says { IfOk result (λ r. IsCodeText I.table I.is_op (drop start (texts lines.now)) r.0 r.1) }
    ensures only { (code : List (Line I I.Op)) (labels : List Label) → IsCodeText I.table I.is_op (drop start (texts lines.now)) code labels → IsCodeOr code labels result }
    ensures fault { IfErr result (IsCodeRefusal I I.table I.is_op start (drop start (texts lines.now))) }
    ensures told { (at : ℕ) (kind : TextKind) → IsCodeFaultAt I I.table I.is_op start (drop start (texts lines.now)) at kind → IsTextFaultOr at kind result }
{
    read_whole_code(alloc, lines, start)
}

fn read_whole_code<I: Isa>(
    alloc: Global,
    lines: &[&[u8]],
    start: usize,
) -> Result<(Code<I>, LabelList), TextFault>
    requires { start ≤ length lines.now }
    ensures says { IfOk result (λ r. IsCodeText I.table I.is_op (drop start (texts lines.now)) r.0 r.1) }
    ensures fault { IfErr result (IsCodeRefusal I I.table I.is_op start (drop start (texts lines.now))) }
{
    let reading = read_lines(alloc, lines, start)?;
    if let Some(line) = first_missing(reading.jumps.as_slice(), &reading.names) {
        return Err(fault(line, TextKind::Label));
    }
    if !ends(reading.code.as_slice()) {
        return Err(fault(lines.len() as u64, TextKind::NoEnd));
    }
    Ok((reading.code, reading.labels))
}

/// What the lines behind the first `start` say, up to the end.
fn read_lines<'a, I: Isa>(
    alloc: Global,
    lines: &[&'a [u8]],
    start: usize,
) -> Result<CodeReading<'a, I>, TextFault>
    requires { start ≤ length lines.now }
    ensures read { IfOk result (λ r. (said : List (CodeMeaning I I.Op)) × IsCodeReading I.table I.is_op start (drop start (texts lines.now)) said r) }
    ensures fault { IfErr result (IsLineRefusal I I.table I.is_op start (drop start (texts lines.now))) }
{
    let mut reading = CodeReading {
        code: Sequence::new(alloc),
        labels: Sequence::new(alloc),
        names: BTreeSet::new(alloc),
        jumps: Vec::new(alloc),
    };
    for (n, line) in lines[start..].iter().enumerate() {
        take_line(&mut reading, line, (start + n + 1) as u64)?;
    }
    Ok(reading)
}

/// Reads one line more, of this number.
fn take_line<'a, I: Isa>(
    reading: &mut CodeReading<'a, I>,
    line: &'a [u8],
    number: u64,
) -> Result<(), TextFault>
    ensures { TakesLine I.table I.is_op line.now number reading.old reading.new result }
{
    match code_line(line) {
        None => Err(fault(number, TextKind::Instruction)),
        Some(CodeLine::Blank) => Ok(()),
        Some(CodeLine::Label(name)) => add_label(reading, name, number),
        Some(CodeLine::Instruction(instruction)) => add_instruction(reading, instruction, number),
    }
}

/// Adds a label, which no line so far has.
fn add_label<'a, I: Isa>(
    reading: &mut CodeReading<'a, I>,
    name: &'a [u8],
    number: u64,
) -> Result<(), TextFault>
    requires { IsTrue (is_name name.now) }
    ensures { AddsLabel name.now number reading.old reading.new result }
{
    let label = Name::new(name).unwrap();
    if !reading.names.insert(name)? {
        return Err(fault(number, TextKind::Label));
    }
    reading.labels.push(Label {
        name: label,
        before: reading.code.len() as u64,
    })?;
    Ok(())
}

/// Adds an instruction.
fn add_instruction<I: Isa>(
    reading: &mut CodeReading<'_, I>,
    line: Line<I>,
    number: u64,
) -> Result<(), TextFault>
    ensures { AddsInstruction line number reading.old reading.new result }
{
    if let Some(label) = jump_label(&line) {
        reading.jumps.push(Jump {
            line: number,
            label,
        })?;
    }
    reading.code.push(line)?;
    Ok(())
}

fn fault(line: u64, kind: TextKind) -> TextFault
    ensures { result ≡ At line kind }
{
    TextFault::At { line, kind }
}

/// Whether the end of the code isn't reached from its last instruction.
fn ends<I: Isa>(code: &[Line<I>]) -> bool
    ensures { IsTrue result ↔ IsLast (last_or None code.now) }
{
    match code.last() {
        None => false,
        Some(line) => is_end(line),
    }
}

fn is_end<I: Isa>(line: &Line<I>) -> bool
    ensures { IsTrue result ↔ IsLast (Some line.now) }
{
    match line {
        Line::Vector(_) => false,
        Line::Control(c) => match c.control() {
            Control::Jump { .. } | Control::Return => true,
            _ => false,
        },
    }
}
