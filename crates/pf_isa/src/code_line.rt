ghost use Rattle.std.specs.Prelude.{◌≡◌, List, ℕ, ◌++◌, IsTrue, MatchOption, length, take, true, false, not};
ghost use Rattle.pf_text.specs.Meaning.Words.{is_name};
ghost use Rattle.pf_text.specs.Meaning.Lines.{tight};
ghost use Rattle.pf_isa.specs.Meaning.Texts.{CodeMeaning, Does, uncommented_code, label_text, MeansLine};
ghost use Rattle.pf_isa.specs.Meaning.TextFaults.{IsOperation, SaysKnown};
ghost use Rattle.pf_machine.specs.declared.code.Line.{Line};
ghost use Rattle.pf_isa.specs.Steps.CodeReading.{said_by, BeginsPlain, EndsPlain};

use pf_machine::{Isa, Line};
use pf_text::{is_blank, is_name};

/// What a line behind the head says.
#[derive(Drop)]
pub enum CodeLine<'a, I: Isa> {
    /// Nothing: it is blank, but for a comment.
    Blank,
    /// That a label of this name stands here.
    Label(&'a [u8]),
    Instruction(Line<I>),
}

/// What the line says, or None where it is no line of code.
pub fn code_line<I: Isa>(line: &[u8]) -> Option<CodeLine<'_, I>>
    ensures { MatchOption result ((said : CodeMeaning I I.Op) → SaysKnown I.table I.is_op line.now said → ⊥) (λ l. SaysKnown I.table I.is_op line.now (said_by l)) }
{
    if line.contains(&b'\r') {
        return None;
    }
    let bare = trimmed(uncommented_code(line));
    if bare.len() < 1 {
        return Some(CodeLine::Blank);
    }
    if let Some(name) = label_of(bare) {
        return Some(CodeLine::Label(name));
    }
    match instruction_of(bare) {
        Some(instruction) => Some(CodeLine::Instruction(instruction)),
        None => None,
    }
}

/// The instruction that the line is, up to blanks, or None where it is none.
fn instruction_of<I: Isa>(line: &[u8]) -> Option<Line<I>>
    ensures { MatchOption result ((l : Line I I.Op) → IsOperation I.table I.is_op (Does l) → MeansLine I.table line.now l → ⊥) (λ l. IsOperation I.table I.is_op (Does l) × MeansLine I.table line.now l) }
{
    if let Some(op) = I::parse(line) {
        I::known(&op);
        return Some(Line::Vector(op));
    }
    match I::parse_ctl(line) {
        Some(control) => Some(Line::Control(control)),
        None => None,
    }
}

/// The line without its comment.
fn uncommented_code(line: &[u8]) -> &[u8]
    ensures { result.now ≡ uncommented_code line.now }
{
    for i in 0..line.len() {
        if line[i..].starts_with(b"//") {
            return &line[..i];
        }
    }
    line
}

/// The line without the blanks at its ends.
fn trimmed(line: &[u8]) -> &[u8]
    ensures same { tight result.now ≡ tight line.now }
    ensures front { BeginsPlain result.now }
    ensures back { EndsPlain result.now }
{
    without_blanks_behind(without_blanks_before(line))
}

fn without_blanks_before(line: &[u8]) -> &[u8]
    ensures same { tight result.now ≡ tight line.now }
    ensures front { BeginsPlain result.now }
{
    for (i, byte) in line.iter().enumerate() {
        if !is_blank(*byte) {
            return &line[i..];
        }
    }
    &line[line.len()..]
}

fn without_blanks_behind(line: &[u8]) -> &[u8]
    requires { BeginsPlain line.now }
    ensures same { tight result.now ≡ tight line.now }
    ensures front { BeginsPlain result.now }
    ensures back { EndsPlain result.now }
{
    let mut end = line.len();
    while 0 < end {
        if !is_blank(line[end - 1]) {
            return &line[..end];
        }
        end -= 1;
    }
    &line[..0]
}

/// The name of the label that the line is, or None where it is none.
fn label_of(line: &[u8]) -> Option<&[u8]>
    ensures { MatchOption result ((name : List ℕ) → IsTrue (is_name name) → line.now ≡ label_text name → ⊥) (λ name. IsTrue (is_name name.now) × (line.now ≡ label_text name.now)) }
{
    let name = line.strip_suffix(b":")?;
    if !is_name(name) {
        return None;
    }
    Some(name)
}
