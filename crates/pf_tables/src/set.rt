ghost use Rattle.std.specs.Prelude.{◌≡◌, ℕ, ◌<◌};
ghost use Rattle.pf_ints.specs.declared.target.Target.{Target};
ghost use Rattle.pf_frames.specs.Meaning.LineTables.{around};
ghost use Rattle.pf_tables.specs.Meaning.Sets.{InstructionSet};
ghost use Rattle.pf_tables.specs.Meaning.Laws.{IsSet};

use crate::row::{Row, Style};
use pf_ints::Target;

/// The table of rows of a set of instructions.
pub trait Rows {
    const TARGET: Target;

    /// Bytes of a vector.
    const BYTES: u32;

    /// How many vectors an allocator may hand out: those of the lowest names.
    const NAMES: u32;

    /// How many vectors the machine has.
    const REGISTERS: u32;

    ghost TARGET: { Target };

    ghost BYTES: { ℕ };

    ghost NAMES: { ℕ };

    ghost REGISTERS: { ℕ };

    ghost set: { InstructionSet };

    ghost target_is: { set.target ≡ TARGET };

    ghost vector_is: { set.vector ≡ BYTES };

    ghost names_are: { set.names ≡ NAMES };

    ghost vectors_are: { set.vectors ≡ REGISTERS };

    /// Bytes of a vector.
    fn vector() -> usize
        ensures { result ≡ set.vector };

    /// How many vectors the machine has.
    fn vectors() -> u32
        ensures { result ≡ set.vectors };

    fn style() -> Style
        ensures { result ≡ set.style };

    /// How many places the table has.
    fn places() -> usize
        ensures { result ≡ set.places };

    /// The line of the row at a place: the word at its front, and what follows.
    fn line(place: usize) -> (&'static [u8], &'static [u8])
        requires { place < set.places }
        ensures word { result.0.now ≡ set.word place }
        ensures pattern { result.1.now ≡ set.pattern place };

    /// What stands with the line at a place.
    fn row(place: usize) -> Row
        requires { place < set.places }
        ensures { result ≡ set.row place };

    /// What stands before and behind the label of a jump where the flag is set, or of one in any case.
    fn around(below: bool) -> (&'static [u8], &'static [u8])
        ensures front { result.0.now ≡ (around set.jumps below).front }
        ensures back { result.1.now ≡ (around set.jumps below).back };

    ghost laws: { IsSet set };
}
