ghost use Rattle.std.specs.Prelude.{◌≡◌, ◌<◌, ◌≤◌, ◌↔◌, IsTrue, IfSome, length};
ghost use Rattle.pf_machine.specs.Meaning.Tables.{Table, IsOver};
ghost use Rattle.pf_frames.specs.Meaning.LineTables.{LineTable, Jumps, around};
ghost use Rattle.pf_frames.specs.declared.line.TableLine.{TableLine};
ghost use Rattle.pf_frames.specs.Meaning.Laws.{IsLineTable, IsTableLine, IsPrintedBy};

use crate::line::{Spelling, TableLine};

/// A frame of a table.
#[derive(Clone, Copy)]
pub struct Parts {
    /// Whether it is one of the table's.
    pub here: bool,
    /// What stands at its front, without a mark, a blank or a comma.
    pub word: &'static [u8],
    /// What follows.
    pub pattern: &'static [u8],
}

/// The lines of a set of instructions, as one table.
pub trait Lines {
    /// The vector instructions, by their operands.
    type Op: Drop;

    /// The meaning of the set.
    ghost table: { Table Self.Op };

    /// Holds of the values of `Op` that are instructions.
    ghost is_op: { Self.Op → Type 0 };

    ghost lines: { LineTable (TableLine Self.Op) };

    ghost jumps: { Jumps };

    /// How many places the table has.
    fn places() -> usize
        ensures { result ≡ lines.places };

    /// The frame at a place.
    fn parts(place: usize) -> Parts
        requires { place < lines.places }
        ensures here { result.here ≡ lines.is place }
        ensures word { result.word.now ≡ lines.word place }
        ensures pattern { result.pattern.now ≡ lines.pattern place };

    /// The instruction that the frame at a place with these operands is.
    fn made(place: usize, numbers: &[u32]) -> Option<TableLine<Self::Op>>
        requires { place < lines.places }
        ensures { result ≡ lines.made place numbers.now };

    /// How the instruction is printed.
    fn printed(line: &TableLine<Self::Op>) -> Spelling
        ensures value { result ≡ lines.printed line.now }
        ensures inside { result.place < lines.places }
        ensures few { length result.numbers ≤ 4 };

    /// How else it is read.
    fn also(line: &TableLine<Self::Op>) -> Option<Spelling>
        ensures value { result ≡ lines.also line.now }
        ensures inside { IfSome result (λ s. s.place < lines.places) }
        ensures few { IfSome result (λ s. length s.numbers ≤ 4) };

    /// Whether the value is an instruction over the machine's vectors.
    fn is_op(op: &Self::Op) -> bool
        ensures { IsTrue result ↔ (is_op op.now × IsOver table op.now) };

    /// What stands before and behind the label of a jump where the flag is set, or of one in any case.
    fn around(below: bool) -> (&'static [u8], &'static [u8])
        ensures front { result.0.now ≡ (around jumps below).front }
        ensures back { result.1.now ≡ (around jumps below).back };

    ghost laws: { IsLineTable lines (IsTableLine table is_op) };

    ghost texts: { IsPrintedBy lines jumps table };
}
