ghost use Rattle.std.specs.Prelude.{refl};
ghost use Rattle.pf_ints.specs.declared.target.Target.TheVariants.{Neon as NeonTarget};
ghost use Rattle.pf_neon.specs.Meaning.Neon.{neon_set};
ghost use Rattle.pf_neon.specs.Steps.SetLaws.{is_neon_set};

use crate::rows::{PLACES, STYLE, entry};
use pf_ints::Target;
use pf_tables::{Row, Rows, SetOf, Style};

/// The rows of A64 Advanced SIMD.
pub struct NeonRows;

/// The instructions of A64 Advanced SIMD, as a set for the machine.
pub type Neon = SetOf<NeonRows>;

/// A vector instruction of A64 Advanced SIMD.
pub type Op = pf_tables::Op<NeonRows>;

impl Rows for NeonRows {
    const TARGET: Target = Target::Neon;

    const BYTES: u32 = 16;

    const NAMES: u32 = 28;

    const REGISTERS: u32 = 32;

    ghost TARGET = { NeonTarget };

    ghost BYTES = { 16 };

    ghost NAMES = { 28 };

    ghost REGISTERS = { 32 };

    ghost target_is = { refl };

    ghost vector_is = { refl };

    ghost names_are = { refl };

    ghost vectors_are = { refl };

    ghost set = { neon_set };

    fn vector() -> usize {
        16
    }

    fn vectors() -> u32 {
        32
    }

    fn style() -> Style {
        STYLE
    }

    fn places() -> usize {
        PLACES
    }

    fn line(place: usize) -> (&'static [u8], &'static [u8]) {
        let (word, pattern, _) = entry(place);
        (word, pattern)
    }

    fn row(place: usize) -> Row {
        entry(place).2
    }

    fn around(below: bool) -> (&'static [u8], &'static [u8]) {
        if below { (b"b.lo ", b"") } else { (b"b ", b"") }
    }

    ghost laws = { is_neon_set };
}
