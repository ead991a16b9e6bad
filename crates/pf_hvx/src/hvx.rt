ghost use Rattle.std.specs.Prelude.{refl};
ghost use Rattle.pf_ints.specs.declared.target.Target.TheVariants.{Hvx as HvxTarget};
ghost use Rattle.pf_hvx.specs.Meaning.Hvx.{hvx_set};
ghost use Rattle.pf_hvx.specs.Steps.SetLaws.{is_hvx_set};

use crate::rows::{PLACES, STYLE, entry};
use pf_ints::Target;
use pf_tables::{Row, Rows, SetOf, Style};

/// The rows of HVX.
pub struct HvxRows;

/// The instructions of HVX, as a set for the machine.
pub type Hvx = SetOf<HvxRows>;

/// A vector instruction of HVX.
pub type Op = pf_tables::Op<HvxRows>;

impl Rows for HvxRows {
    const TARGET: Target = Target::Hvx;

    const BYTES: u32 = 128;

    const NAMES: u32 = 26;

    const REGISTERS: u32 = 32;

    ghost TARGET = { HvxTarget };

    ghost BYTES = { 128 };

    ghost NAMES = { 26 };

    ghost REGISTERS = { 32 };

    ghost target_is = { refl };

    ghost vector_is = { refl };

    ghost names_are = { refl };

    ghost vectors_are = { refl };

    ghost set = { hvx_set };

    fn vector() -> usize {
        128
    }

    fn vectors() -> u32 {
        32
    }

    fn style() -> Style {
        STYLE
    }

    fn places() -> usize {
        PLACES
    }

    fn line(place: usize) -> (&'static [u8], &'static [u8]) {
        let (word, pattern, _) = entry(place);
        (word, pattern)
    }

    fn row(place: usize) -> Row {
        entry(place).2
    }

    fn around(below: bool) -> (&'static [u8], &'static [u8]) {
        if below {
            (b"{ if (p0) jump ", b" }")
        } else {
            (b"{ jump ", b" }")
        }
    }

    ghost laws = { is_hvx_set };
}
