ghost use Rattle.std.specs.Prelude.{refl};
ghost use Rattle.pf_ints.specs.declared.target.Target.TheVariants.{Avx2 as Avx2Target};
ghost use Rattle.pf_avx2.specs.Meaning.Avx2.{avx2_set};
ghost use Rattle.pf_avx2.specs.Steps.SetLaws.{is_avx2_set};

use crate::rows::{PLACES, STYLE, entry};
use pf_ints::Target;
use pf_tables::{Row, Rows, SetOf, Style};

/// The rows of AVX2.
pub struct Avx2Rows;

/// The instructions of AVX2, as a set for the machine.
pub type Avx2 = SetOf<Avx2Rows>;

/// A vector instruction of AVX2.
pub type Op = pf_tables::Op<Avx2Rows>;

impl Rows for Avx2Rows {
    const TARGET: Target = Target::Avx2;

    const BYTES: u32 = 32;

    const NAMES: u32 = 12;

    const REGISTERS: u32 = 16;

    ghost TARGET = { Avx2Target };

    ghost BYTES = { 32 };

    ghost NAMES = { 12 };

    ghost REGISTERS = { 16 };

    ghost target_is = { refl };

    ghost vector_is = { refl };

    ghost names_are = { refl };

    ghost vectors_are = { refl };

    ghost set = { avx2_set };

    fn vector() -> usize {
        32
    }

    fn vectors() -> u32 {
        16
    }

    fn style() -> Style {
        STYLE
    }

    fn places() -> usize {
        PLACES
    }

    fn line(place: usize) -> (&'static [u8], &'static [u8]) {
        let (word, pattern, _) = entry(place);
        (word, pattern)
    }

    fn row(place: usize) -> Row {
        entry(place).2
    }

    fn around(below: bool) -> (&'static [u8], &'static [u8]) {
        if below { (b"jb ", b"") } else { (b"jmp ", b"") }
    }

    ghost laws = { is_avx2_set };
}
