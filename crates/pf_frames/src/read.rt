ghost use Rattle.std.specs.Prelude.{◌≡◌, ◌<◌, ◌≤◌, ◌++◌, ◌↔◌, IsTrue, IfSome, MatchOption, length};
ghost use Rattle.std.specs.Option.{option_map};
ghost use Rattle.pf_machine.specs.Meaning.Tables.{ReadsOp, ReadsControl};
ghost use Rattle.pf_frames.specs.Meaning.LineTables.{around, jump_text, text_of, spelled, control_text_of};
ghost use Rattle.pf_frames.specs.Meaning.Laws.{IsTableLine};
ghost use Rattle.pf_frames.specs.Steps.Reading.{Reads, read_at, control_in, Guesses, GuessesLabel, GuessesJump, GuessesControl, IsTightLine};

use crate::frame::{filled, matched};
use crate::line::{Spelling, TableLine};
use crate::lines::Lines;
use pf_ints::Name;
use pf_machine::{Control, Ctl, checked};
use pf_text::{ShortLine, behind, tighten};

/// The instruction that a tight line is by the frame at a place.
fn read_at<L: Lines>(place: usize, line: &[u8]) -> Option<TableLine<L::Op>>
    requires { place < L.lines.places }
    ensures { result ≡ read_at L.lines place line.now }
{
    let parts = L::parts(place);
    if !parts.here {
        return None;
    }
    let rest = behind(parts.word, line)?;
    let numbers = matched(parts.pattern, rest)?;
    L::made(place, numbers.as_slice())
}

/// The instruction that a tight line is by some frame.
fn read<L: Lines>(line: &[u8]) -> Option<TableLine<L::Op>>
    ensures { Reads L.lines line.now result }
{
    for place in 0..L::places() {
        if let Some(found) = read_at::<L>(place, line) {
            return Some(found);
        }
    }
    None
}

/// The only instruction that a tight line may be, but for jumps.
fn guess<L: Lines>(line: &[u8]) -> Option<TableLine<L::Op>>
    ensures { Guesses L.lines L.jumps (IsTableLine L.table L.is_op) line.now result }
{
    read::<L>(line)
}

/// A frame of the table with its operands.
fn spelled<L: Lines>(spelling: &Spelling) -> ShortLine
    requires inside { spelling.now.place < L.lines.places }
    requires few { length spelling.now.numbers ≤ 4 }
    ensures { result ≡ spelled L.lines spelling.now }
{
    let parts = L::parts(spelling.place);
    let line = ShortLine::new().word(parts.word);
    filled(line, parts.pattern, spelling.numbers.as_slice())
}

/// The line of an instruction that is no jump.
pub fn printed_line<L: Lines>(line: &TableLine<L::Op>) -> ShortLine
    ensures { result ≡ text_of L.lines line.now }
{
    spelled::<L>(&L::printed(line))
}

/// Whether the tight line is a spelling of the instruction.
fn is_spelling<L: Lines>(line: &TableLine<L::Op>, tight: &ShortLine) -> bool
    ensures { IsTrue result ↔ IsTightLine L.lines line.now tight.now }
{
    if printed_line::<L>(line).tightened().is_same(tight) {
        return true;
    }
    match L::also(line) {
        Some(other) => spelled::<L>(&other).tightened().is_same(tight),
        None => false,
    }
}

/// The vector instruction over the machine's vectors that the line spells, up to blanks.
pub fn parsed_op<L: Lines>(line: &[u8]) -> Option<L::Op>
    ensures reads { ReadsOp L.table L.is_op line.now result }
    ensures kept { IfSome result (λ op. L.is_op op) }
{
    let tight = tighten(line)?;
    let found = guess::<L>(tight.as_slice())?;
    if !is_spelling::<L>(&found, &tight) {
        return None;
    }
    match found {
        TableLine::Vector(op) => { if L::is_op(&op) { Some(op) } else { None } }
        TableLine::Control(_) => None,
    }
}

/// The label of a jump that a tight line may be.
fn label_in<L: Lines>(below: bool, line: &[u8]) -> Option<Name>
    ensures { GuessesLabel (around L.jumps below) line.now result }
{
    let (front, back) = L::around(below);
    let rest = behind(front, line)?;
    let label = rest.strip_suffix(back)?;
    Name::new(label)
}

fn control_in<O>(found: &Option<TableLine<O>>) -> Option<Control>
    ensures { result ≡ control_in found.now }
{
    match found {
        Some(TableLine::Control(control)) => Some(*control),
        _ => None,
    }
}

fn onward(label: Option<Name>) -> Option<Control>
    ensures { result ≡ option_map Control.Jump label }
{
    match label {
        Some(label) => Some(Control::Jump { label }),
        None => None,
    }
}

/// The only jump that a tight line may be.
fn guess_jump<L: Lines>(line: &[u8]) -> Option<Control>
    ensures { GuessesJump L.jumps line.now result }
{
    let first = label_in::<L>(true, line);
    let last = label_in::<L>(false, line);
    match first {
        Some(label) => Some(Control::Below { label }),
        None => onward(last),
    }
}

/// The only control instruction that a tight line may be.
fn guess_control<L: Lines>(line: &[u8]) -> Option<Control>
    ensures { GuessesControl L.lines L.jumps line.now result }
{
    let found = guess::<L>(line);
    match control_in(&found) {
        Some(control) => Some(control),
        None => guess_jump::<L>(line),
    }
}

fn jump_line<L: Lines>(below: bool, label: Name) -> ShortLine
    ensures { result ≡ jump_text (around L.jumps below) label }
{
    let (front, back) = L::around(below);
    let line = ShortLine::new().word(front).word(label.as_slice());
    line.word(back)
}

/// The line of a control instruction.
pub fn printed_control<L: Lines>(control: Control) -> ShortLine
    ensures { result ≡ control_text_of L.lines L.jumps control }
{
    match control {
        Control::Below { label } => jump_line::<L>(true, label),
        Control::Jump { label } => jump_line::<L>(false, label),
        _ => printed_line::<L>(&TableLine::Control(control)),
    }
}

/// The control instruction that the line is, up to blanks.
pub fn parsed_control<L: Lines>(line: &[u8]) -> Option<Ctl>
    ensures { ReadsControl L.table line.now result }
{
    let tight = tighten(line)?;
    let control = guess_control::<L>(tight.as_slice())?;
    let ctl = checked(control)?;
    let printed = printed_control::<L>(ctl.control()).tightened();
    if printed.is_same(&tight) {
        Some(ctl)
    } else {
        None
    }
}
