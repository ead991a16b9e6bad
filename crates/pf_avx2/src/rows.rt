ghost use Rattle.std.specs.Prelude.{◌≡◌, ◌<◌};
ghost use Rattle.pf_avx2.specs.Meaning.Rows.{place, word_at, pattern_at, row_at};

use pf_lanes::Place;
use pf_tables::{Entry, Extent, NONE, Row, Shape, Style, entry_at, in_turn, one, same, three};

/// The names of the rows that make lanes: those behind the rows that each table has.
#[derive(Clone, Copy)]
pub enum Mnemonic {
    Vpaddb,
    Vpaddw,
    Vpaddd,
    Vpsubb,
    Vpsubw,
    Vpsubd,
    Vpaddsb,
    Vpaddsw,
    Vpsubsb,
    Vpsubsw,
    Vpaddusb,
    Vpaddusw,
    Vpsubusb,
    Vpsubusw,
    Vpavgb,
    Vpavgw,
    Vpmullw,
    Vpmulld,
    Vpmulhw,
    Vpmulhuw,
    Vpmulhrsw,
    Vpminsb,
    Vpminub,
    Vpminsw,
    Vpminuw,
    Vpminsd,
    Vpminud,
    Vpmaxsb,
    Vpmaxub,
    Vpmaxsw,
    Vpmaxuw,
    Vpmaxsd,
    Vpmaxud,
    Vpabsb,
    Vpabsw,
    Vpabsd,
    Vpsllw,
    Vpslld,
    Vpsrlw,
    Vpsrld,
    Vpsraw,
    Vpsrad,
    Vpcmpeqb,
    Vpcmpeqw,
    Vpcmpeqd,
    Vpcmpgtb,
    Vpcmpgtw,
    Vpcmpgtd,
    Vpblendvb,
    Vpackuswb,
    Vpacksswb,
    Vpackusdw,
    Vpackssdw,
    Vpmovzxbw,
    Vpmovzxwd,
    Vpmovsxbw,
    Vpmovsxwd,
    Vpunpcklbw,
    Vpunpckhbw,
    Vpunpcklwd,
    Vpunpckhwd,
    Vextracti128Low,
    Vextracti128High,
    Vperm2i128Low,
    Vperm2i128High,
    Vpermq,
    Vpshufd,
    Vpbroadcastd,
    Vmovd,
}

macro_rules! pattern {
    (THREE) => { b" ymm\0, ymm\0, ymm\0" };
    (TWO) => { b" ymm\0, ymm\0" };
    (FOUR) => { b" ymm\0, ymm\0, ymm\0, ymm\0" };
    (WIDER) => { b" ymm\0, xmm\0" };
    (LOW_HALF) => { b" xmm\0, ymm\0, 0" };
    (HIGH_HALF) => { b" xmm\0, ymm\0, 1" };
    (LOW_HALVES) => { b" ymm\0, ymm\0, ymm\0, 0x20" };
    (HIGH_HALVES) => { b" ymm\0, ymm\0, ymm\0, 0x31" };
    (PERMUTED) => { b" ymm\0, ymm\0, 0xD8" };
    (SET) => { b" xmm\0, r11d" };
}

macro_rules! row {
    ($word:literal, $pattern:ident, $shape:ident, $recipe:expr, $amount:literal, $cost:literal) => {
        ($word, pattern!($pattern), Row { shape: Shape::$shape, recipe: $recipe, amount: $amount, cost: $cost, ..NONE })
    };
}

// A shift by a number up to `most`.
macro_rules! shift {
    ($word:literal, $recipe:expr, $most:literal) => {
        ($word, b" ymm\0, ymm\0, \0", Row { shape: Shape::Shift, recipe: $recipe, most: $most, cost: 1, ..NONE })
    };
}

// One that makes 16 bytes, and zeros.
macro_rules! half {
    ($word:literal, $pattern:ident, $recipe:expr) => {
        ($word, pattern!($pattern), Row { shape: Shape::Unary, recipe: $recipe, extent: Extent::Lower, ..NONE })
    };
}

macro_rules! plain {
    ($word:literal, $pattern:literal, $shape:ident) => {
        ($word, $pattern, Row { shape: Shape::$shape, ..NONE })
    };
}

/// The rows that each table has, and then one for each name: the word and the rest of its line, and
/// for a name its shape, its recipe, its amount and its cost.
pub const ROWS: &[(&[u8], &[u8], Row)] = &[
    plain! { b"mov", b" \x01, qword ptr [\x01+\0]", LoadPointer },
    plain! { b"mov", b" qword ptr [\x01+\0], \x01", StorePointer },
    plain! { b"mov", b" \x02, \0", SetNumber },
    plain! { b"lea", b" \x01, [\x01+\0]", Add },
    plain! { b"lea", b" \x01, [\x01-\0]", Sub },
    plain! { b"lea", b" \x01, [\x01+\x01]", AddRegister },
    plain! { b"movzx", b" \x02, byte ptr [\x01]", LoadByte },
    plain! { b"movzx", b" \x02, word ptr [\x01]", LoadHalf },
    plain! { b"mov", b" byte ptr [\x01], \x04", StoreByte },
    plain! { b"mov", b" word ptr [\x01], \x03", StoreHalf },
    plain! { b"cmp", b" \x01, \x01", CompareNumbers },
    plain! { b"ret", b"", Return },
    plain! { b"", b"", Absent },
    plain! { b"", b"", Absent },
    plain! { b"vmovdqu", b" ymm\0, ymmword ptr [\x01+\0]", Load },
    plain! { b"vmovdqu", b" ymmword ptr [\x01+\0], ymm\0", Store },
    plain! { b"vmovdqa", b" ymm\0, ymm\0", Copy },
    plain! { b"", b"", Absent },
    plain! { b"", b"", Absent },
    row! { b"vpaddb", THREE, Binary, same!(Add, U8), 0, 1 },
    row! { b"vpaddw", THREE, Binary, same!(Add, U16), 0, 1 },
    row! { b"vpaddd", THREE, Binary, same!(Add, U32), 0, 1 },
    row! { b"vpsubb", THREE, Binary, same!(Sub, U8), 0, 1 },
    row! { b"vpsubw", THREE, Binary, same!(Sub, U16), 0, 1 },
    row! { b"vpsubd", THREE, Binary, same!(Sub, U32), 0, 1 },
    row! { b"vpaddsb", THREE, Binary, same!(SaturatingAdd, I8), 0, 1 },
    row! { b"vpaddsw", THREE, Binary, same!(SaturatingAdd, I16), 0, 1 },
    row! { b"vpsubsb", THREE, Binary, same!(SaturatingSub, I8), 0, 1 },
    row! { b"vpsubsw", THREE, Binary, same!(SaturatingSub, I16), 0, 1 },
    row! { b"vpaddusb", THREE, Binary, same!(SaturatingAdd, U8), 0, 1 },
    row! { b"vpaddusw", THREE, Binary, same!(SaturatingAdd, U16), 0, 1 },
    row! { b"vpsubusb", THREE, Binary, same!(SaturatingSub, U8), 0, 1 },
    row! { b"vpsubusw", THREE, Binary, same!(SaturatingSub, U16), 0, 1 },
    row! { b"vpavgb", THREE, Binary, same!(RoundingHalvingAdd, U8), 0, 1 },
    row! { b"vpavgw", THREE, Binary, same!(RoundingHalvingAdd, U16), 0, 1 },
    row! { b"vpmullw", THREE, Binary, same!(Mul, U16), 0, 2 },
    row! { b"vpmulld", THREE, Binary, same!(Mul, U32), 0, 2 },
    row! { b"vpmulhw", THREE, Binary, same!(MulShift, I16), 16, 2 },
    row! { b"vpmulhuw", THREE, Binary, same!(MulShift, U16), 16, 2 },
    row! { b"vpmulhrsw", THREE, Binary, same!(MulRound, I16), 0, 2 },
    row! { b"vpminsb", THREE, Binary, same!(Min, I8), 0, 1 },
    row! { b"vpminub", THREE, Binary, same!(Min, U8), 0, 1 },
    row! { b"vpminsw", THREE, Binary, same!(Min, I16), 0, 1 },
    row! { b"vpminuw", THREE, Binary, same!(Min, U16), 0, 1 },
    row! { b"vpminsd", THREE, Binary, same!(Min, I32), 0, 1 },
    row! { b"vpminud", THREE, Binary, same!(Min, U32), 0, 1 },
    row! { b"vpmaxsb", THREE, Binary, same!(Max, I8), 0, 1 },
    row! { b"vpmaxub", THREE, Binary, same!(Max, U8), 0, 1 },
    row! { b"vpmaxsw", THREE, Binary, same!(Max, I16), 0, 1 },
    row! { b"vpmaxuw", THREE, Binary, same!(Max, U16), 0, 1 },
    row! { b"vpmaxsd", THREE, Binary, same!(Max, I32), 0, 1 },
    row! { b"vpmaxud", THREE, Binary, same!(Max, U32), 0, 1 },
    row! { b"vpabsb", TWO, Unary, one!(I8, Place::Same, Abs, U8), 0, 1 },
    row! { b"vpabsw", TWO, Unary, one!(I16, Place::Same, Abs, U16), 0, 1 },
    row! { b"vpabsd", TWO, Unary, one!(I32, Place::Same, Abs, U32), 0, 1 },
    shift! { b"vpsllw", one!(U16, Place::Same, ShiftLeft, U16), 15 },
    shift! { b"vpslld", one!(U32, Place::Same, ShiftLeft, U32), 31 },
    shift! { b"vpsrlw", one!(U16, Place::Same, ShiftRight, U16), 15 },
    shift! { b"vpsrld", one!(U32, Place::Same, ShiftRight, U32), 31 },
    shift! { b"vpsraw", one!(I16, Place::Same, ShiftRight, I16), 15 },
    shift! { b"vpsrad", one!(I32, Place::Same, ShiftRight, I32), 31 },
    row! { b"vpcmpeqb", THREE, Binary, same!(IsEqual, U8), 0, 1 },
    row! { b"vpcmpeqw", THREE, Binary, same!(IsEqual, U16), 0, 1 },
    row! { b"vpcmpeqd", THREE, Binary, same!(IsEqual, U32), 0, 1 },
    row! { b"vpcmpgtb", THREE, Binary, same!(IsGreater, I8), 0, 1 },
    row! { b"vpcmpgtw", THREE, Binary, same!(IsGreater, I16), 0, 1 },
    row! { b"vpcmpgtd", THREE, Binary, same!(IsGreater, I32), 0, 1 },
    row! { b"vpblendvb", FOUR, Blend, three!(I8, U8, U8, WhereNegative, U8), 0, 1 },
    row! { b"vpackuswb", THREE, Binary, in_turn!(8, I16, Place::Same, Place::Same, SaturatingCast, U8), 0, 1 },
    row! { b"vpacksswb", THREE, Binary, in_turn!(8, I16, Place::Same, Place::Same, SaturatingCast, I8), 0, 1 },
    row! { b"vpackusdw", THREE, Binary, in_turn!(4, I32, Place::Same, Place::Same, SaturatingCast, U16), 0, 1 },
    row! { b"vpackssdw", THREE, Binary, in_turn!(4, I32, Place::Same, Place::Same, SaturatingCast, I16), 0, 1 },
    row! { b"vpmovzxbw", WIDER, Unary, one!(U8, Place::Same, Cast, U16), 0, 1 },
    row! { b"vpmovzxwd", WIDER, Unary, one!(U16, Place::Same, Cast, U32), 0, 1 },
    row! { b"vpmovsxbw", WIDER, Unary, one!(I8, Place::Same, Cast, I16), 0, 1 },
    row! { b"vpmovsxwd", WIDER, Unary, one!(I16, Place::Same, Cast, I32), 0, 1 },
    row! { b"vpunpcklbw", THREE, Binary, in_turn!(1, U8, Place::Lower(8), Place::Lower(8), Cast, U8), 0, 0 },
    row! { b"vpunpckhbw", THREE, Binary, in_turn!(1, U8, Place::Upper(8), Place::Upper(8), Cast, U8), 0, 0 },
    row! { b"vpunpcklwd", THREE, Binary, in_turn!(1, U16, Place::Lower(4), Place::Lower(4), Cast, U16), 0, 0 },
    row! { b"vpunpckhwd", THREE, Binary, in_turn!(1, U16, Place::Upper(4), Place::Upper(4), Cast, U16), 0, 0 },
    half! { b"vextracti128", LOW_HALF, one!(U8, Place::Same, Cast, U8) },
    half! { b"vextracti128", HIGH_HALF, one!(U8, Place::From(16), Cast, U8) },
    row! { b"vperm2i128", LOW_HALVES, Binary, in_turn!(16, U8, Place::Same, Place::Same, Cast, U8), 0, 0 },
    row! { b"vperm2i128", HIGH_HALVES, Binary, in_turn!(16, U8, Place::From(16), Place::From(16), Cast, U8), 0, 0 },
    row! { b"vpermq", PERMUTED, Unary, in_turn!(8, U8, Place::Same, Place::From(16), Cast, U8), 0, 0 },
    row! { b"vpshufd", PERMUTED, Unary, in_turn!(1, U32, Place::Lower(2), Place::Upper(2), Cast, U32), 0, 0 },
    row! { b"vpbroadcastd", WIDER, Unary, one!(U32, Place::First, Cast, U32), 0, 0 },
    row! { b"vmovd", SET, FromConstant, one!(U32, Place::Same, Cast, U32), 0, 0 },
];

/// How many rows there are.
pub const PLACES: usize = ROWS.len();

/// The place of the first name.
pub const NAMED: usize = 19;

/// How AVX2 writes registers and numbers: the constant register has the number behind the roles'.
pub const STYLE: Style = Style {
    unit: 32,
    constant: Some(8),
    stores_last: true,
    adds_pages: false,
    packets: false,
};

/// The row at this place: the word and the rest of its line, and what stands with them.
#[tactic(auto, unfolding(crate::specs::Meaning::Rows::word_at, crate::specs::Meaning::Rows::pattern_at, crate::specs::Meaning::Rows::row_at))]
pub fn entry(k: usize) -> Entry
    requires { k < PLACES }
    ensures word { result.0.now ≡ word_at k }
    ensures pattern { result.1.now ≡ pattern_at k }
    ensures row { result.2 ≡ row_at k }
{
    entry_at(ROWS, k)
}

impl Mnemonic {
    /// The place of the name's row.
    pub fn place(self) -> usize
        ensures value { result ≡ place self }
        ensures inside { result < PLACES }
    {
        NAMED + self as usize
    }
}
