ghost use Rattle.std.specs.Prelude.{◌≡◌, ◌<◌};
ghost use Rattle.pf_neon.specs.Meaning.Rows.{word_at, pattern_at, row_at};

use pf_ints::LaneType;
use pf_lanes::{Operands, Place, Recipe};
use pf_tables::{
    Entry, Extent, NONE, Row, Shape, Style, entry_at, one, same, three, two, view, work,
};

macro_rules! pattern {
    (B2) => { b" v\0.16b, v\0.16b" };
    (H2) => { b" v\0.8h, v\0.8h" };
    (S2) => { b" v\0.4s, v\0.4s" };
    (B2K) => { b" v\0.16b, v\0.16b, #\0" };
    (H2K) => { b" v\0.8h, v\0.8h, #\0" };
    (S2K) => { b" v\0.4s, v\0.4s, #\0" };
    (B3) => { b" v\0.16b, v\0.16b, v\0.16b" };
    (H3) => { b" v\0.8h, v\0.8h, v\0.8h" };
    (S3) => { b" v\0.4s, v\0.4s, v\0.4s" };
    (H_LOW) => { b" v\0.8h, v\0.8b, v\0.8b" };
    (S_LOW) => { b" v\0.4s, v\0.4h, v\0.4h" };
    (H_HIGH) => { b" v\0.8h, v\0.16b, v\0.16b" };
    (S_HIGH) => { b" v\0.4s, v\0.8h, v\0.8h" };
    (H_WIDE_LOW) => { b" v\0.8h, v\0.8h, v\0.8b" };
    (S_WIDE_LOW) => { b" v\0.4s, v\0.4s, v\0.4h" };
    (H_WIDE_HIGH) => { b" v\0.8h, v\0.8h, v\0.16b" };
    (S_WIDE_HIGH) => { b" v\0.4s, v\0.4s, v\0.8h" };
    (H_LOW_K) => { b" v\0.8h, v\0.8b, #\0" };
    (S_LOW_K) => { b" v\0.4s, v\0.4h, #\0" };
    (H_HIGH_K) => { b" v\0.8h, v\0.16b, #\0" };
    (S_HIGH_K) => { b" v\0.4s, v\0.8h, #\0" };
    (B_LOWER) => { b" v\0.8b, v\0.8h" };
    (H_LOWER) => { b" v\0.4h, v\0.4s" };
    (B_UPPER) => { b" v\0.16b, v\0.8h" };
    (H_UPPER) => { b" v\0.8h, v\0.4s" };
    (B_LOWER_K) => { b" v\0.8b, v\0.8h, #\0" };
    (H_LOWER_K) => { b" v\0.4h, v\0.4s, #\0" };
    (B_UPPER_K) => { b" v\0.16b, v\0.8h, #\0" };
    (H_UPPER_K) => { b" v\0.8h, v\0.4s, #\0" };
    (SPLAT) => { b" v\0.4s, w11" };
}

// The second vector's lanes are of half the width.
macro_rules! extended {
    ($to:ident, $from:ident, $place:expr) => {
        Recipe { operands: Operands::Two(view!($to, Place::Same), view!($from, $place)), work: work!(ExtendingAdd), to: LaneType::$to }
    };
}

// The product of the second and the third vector's lanes, added to the first one's.
macro_rules! added {
    ($to:ident, $from:ident, $place:expr) => {
        Recipe { operands: Operands::Three(view!($to, Place::Same), view!($from, $place), view!($from, $place)), work: work!(MulAdd), to: LaneType::$to }
    };
}

macro_rules! row {
    ($word:literal, $pattern:ident, $shape:ident, $recipe:expr, $amount:literal, $cost:literal) => {
        ($word, pattern!($pattern), Row { shape: Shape::$shape, recipe: $recipe, amount: $amount, cost: $cost, ..NONE })
    };
}

// Shifts by the numbers from `least` to `most`.
macro_rules! shift {
    ($word:literal, $pattern:ident, $shape:ident, $recipe:expr, $least:literal, $most:literal) => {
        ($word, pattern!($pattern), Row { shape: Shape::$shape, recipe: $recipe, least: $least, most: $most, cost: 1, ..NONE })
    };
}

// The lanes are the lower half of the result.
macro_rules! lower {
    ($word:literal, $pattern:ident, $shape:ident, $recipe:expr, $least:literal, $most:literal) => {
        ($word, pattern!($pattern), Row { shape: Shape::$shape, recipe: $recipe, extent: Extent::Lower, least: $least, most: $most, cost: 1, ..NONE })
    };
}

macro_rules! plain {
    ($word:literal, $pattern:literal, $shape:ident) => {
        ($word, $pattern, Row { shape: Shape::$shape, ..NONE })
    };
}

/// The rows of every table, and then those of lanes that are as wide as what they are made of.
pub const PLAIN: &[Entry] = &[
    plain! { b"ldr", b" x\0, [x\0, #\0]", LoadPointer },
    plain! { b"str", b" x\0, [x\0, #\0]", StorePointer },
    plain! { b"mov", b" x\0, #\0", SetNumber },
    plain! { b"add", b" x\0, x\0, #\0", Add },
    plain! { b"sub", b" x\0, x\0, #\0", Sub },
    plain! { b"add", b" x\0, x\0, x\0", AddRegister },
    plain! { b"ldrb", b" w\0, [x\0]", LoadByte },
    plain! { b"ldrh", b" w\0, [x\0]", LoadHalf },
    plain! { b"strb", b" w\0, [x\0]", StoreByte },
    plain! { b"strh", b" w\0, [x\0]", StoreHalf },
    plain! { b"cmp", b" x\0, x\0", CompareNumbers },
    plain! { b"ret", b"", Return },
    plain! { b"add", b" x\0, x\0, #\0, lsl #12", AddPages },
    plain! { b"", b"", Absent },
    plain! { b"ldr", b" q\0, [x\0, #\0]", Load },
    plain! { b"str", b" q\0, [x\0, #\0]", Store },
    plain! { b"mov", b" v\0.16b, v\0.16b", Copy },
    plain! { b"mov", b" w11, #\0", Constant },
    plain! { b"movk", b" w11, #\0, lsl #16", ConstantHigh },
    row! { b"add", B3, Binary, same!(Add, U8), 0, 1 },
    row! { b"add", H3, Binary, same!(Add, U16), 0, 1 },
    row! { b"add", S3, Binary, same!(Add, U32), 0, 1 },
    row! { b"sub", B3, Binary, same!(Sub, U8), 0, 1 },
    row! { b"sub", H3, Binary, same!(Sub, U16), 0, 1 },
    row! { b"sub", S3, Binary, same!(Sub, U32), 0, 1 },
    row! { b"mul", B3, Binary, same!(Mul, U8), 0, 2 },
    row! { b"mul", H3, Binary, same!(Mul, U16), 0, 2 },
    row! { b"mul", S3, Binary, same!(Mul, U32), 0, 2 },
    row! { b"mla", B3, Accumulate, added!(U8, U8, Place::Same), 0, 2 },
    row! { b"mla", H3, Accumulate, added!(U16, U16, Place::Same), 0, 2 },
    row! { b"mla", S3, Accumulate, added!(U32, U32, Place::Same), 0, 2 },
    row! { b"uhadd", B3, Binary, same!(HalvingAdd, U8), 0, 1 },
    row! { b"uhadd", H3, Binary, same!(HalvingAdd, U16), 0, 1 },
    row! { b"uhadd", S3, Binary, same!(HalvingAdd, U32), 0, 1 },
    row! { b"shadd", B3, Binary, same!(HalvingAdd, I8), 0, 1 },
    row! { b"shadd", H3, Binary, same!(HalvingAdd, I16), 0, 1 },
    row! { b"shadd", S3, Binary, same!(HalvingAdd, I32), 0, 1 },
    row! { b"uhsub", B3, Binary, same!(HalvingSub, U8), 0, 1 },
    row! { b"uhsub", H3, Binary, same!(HalvingSub, U16), 0, 1 },
    row! { b"uhsub", S3, Binary, same!(HalvingSub, U32), 0, 1 },
    row! { b"shsub", B3, Binary, same!(HalvingSub, I8), 0, 1 },
    row! { b"shsub", H3, Binary, same!(HalvingSub, I16), 0, 1 },
    row! { b"shsub", S3, Binary, same!(HalvingSub, I32), 0, 1 },
    row! { b"urhadd", B3, Binary, same!(RoundingHalvingAdd, U8), 0, 1 },
    row! { b"urhadd", H3, Binary, same!(RoundingHalvingAdd, U16), 0, 1 },
    row! { b"urhadd", S3, Binary, same!(RoundingHalvingAdd, U32), 0, 1 },
    row! { b"srhadd", B3, Binary, same!(RoundingHalvingAdd, I8), 0, 1 },
    row! { b"srhadd", H3, Binary, same!(RoundingHalvingAdd, I16), 0, 1 },
    row! { b"srhadd", S3, Binary, same!(RoundingHalvingAdd, I32), 0, 1 },
    row! { b"uqadd", B3, Binary, same!(SaturatingAdd, U8), 0, 1 },
    row! { b"uqadd", H3, Binary, same!(SaturatingAdd, U16), 0, 1 },
    row! { b"uqadd", S3, Binary, same!(SaturatingAdd, U32), 0, 1 },
    row! { b"sqadd", B3, Binary, same!(SaturatingAdd, I8), 0, 1 },
    row! { b"sqadd", H3, Binary, same!(SaturatingAdd, I16), 0, 1 },
    row! { b"sqadd", S3, Binary, same!(SaturatingAdd, I32), 0, 1 },
    row! { b"uqsub", B3, Binary, same!(SaturatingSub, U8), 0, 1 },
    row! { b"uqsub", H3, Binary, same!(SaturatingSub, U16), 0, 1 },
    row! { b"uqsub", S3, Binary, same!(SaturatingSub, U32), 0, 1 },
    row! { b"sqsub", B3, Binary, same!(SaturatingSub, I8), 0, 1 },
    row! { b"sqsub", H3, Binary, same!(SaturatingSub, I16), 0, 1 },
    row! { b"sqsub", S3, Binary, same!(SaturatingSub, I32), 0, 1 },
    row! { b"uabd", B3, Binary, two!(U8, Place::Same, Absd, U8), 0, 1 },
    row! { b"uabd", H3, Binary, two!(U16, Place::Same, Absd, U16), 0, 1 },
    row! { b"uabd", S3, Binary, two!(U32, Place::Same, Absd, U32), 0, 1 },
    row! { b"sabd", B3, Binary, two!(I8, Place::Same, Absd, U8), 0, 1 },
    row! { b"sabd", H3, Binary, two!(I16, Place::Same, Absd, U16), 0, 1 },
    row! { b"sabd", S3, Binary, two!(I32, Place::Same, Absd, U32), 0, 1 },
    row! { b"umin", B3, Binary, same!(Min, U8), 0, 1 },
    row! { b"umin", H3, Binary, same!(Min, U16), 0, 1 },
    row! { b"umin", S3, Binary, same!(Min, U32), 0, 1 },
    row! { b"smin", B3, Binary, same!(Min, I8), 0, 1 },
    row! { b"smin", H3, Binary, same!(Min, I16), 0, 1 },
    row! { b"smin", S3, Binary, same!(Min, I32), 0, 1 },
    row! { b"umax", B3, Binary, same!(Max, U8), 0, 1 },
    row! { b"umax", H3, Binary, same!(Max, U16), 0, 1 },
    row! { b"umax", S3, Binary, same!(Max, U32), 0, 1 },
    row! { b"smax", B3, Binary, same!(Max, I8), 0, 1 },
    row! { b"smax", H3, Binary, same!(Max, I16), 0, 1 },
    row! { b"smax", S3, Binary, same!(Max, I32), 0, 1 },
    row! { b"sqdmulh", H3, Binary, same!(MulShr, I16), 15, 2 },
    row! { b"sqdmulh", S3, Binary, same!(MulShr, I32), 31, 2 },
    row! { b"sqrdmulh", H3, Binary, same!(RoundingMulShr, I16), 15, 2 },
    row! { b"sqrdmulh", S3, Binary, same!(RoundingMulShr, I32), 31, 2 },
    shift! { b"shl", B2K, Shift, one!(U8, Place::Same, ShiftLeft, U8), 0, 7 },
    shift! { b"shl", H2K, Shift, one!(U16, Place::Same, ShiftLeft, U16), 0, 15 },
    shift! { b"shl", S2K, Shift, one!(U32, Place::Same, ShiftLeft, U32), 0, 31 },
    shift! { b"ushr", B2K, Shift, one!(U8, Place::Same, ShiftRight, U8), 1, 7 },
    shift! { b"ushr", H2K, Shift, one!(U16, Place::Same, ShiftRight, U16), 1, 15 },
    shift! { b"ushr", S2K, Shift, one!(U32, Place::Same, ShiftRight, U32), 1, 31 },
    shift! { b"sshr", B2K, Shift, one!(I8, Place::Same, ShiftRight, I8), 1, 7 },
    shift! { b"sshr", H2K, Shift, one!(I16, Place::Same, ShiftRight, I16), 1, 15 },
    shift! { b"sshr", S2K, Shift, one!(I32, Place::Same, ShiftRight, I32), 1, 31 },
    shift! { b"urshr", B2K, Shift, one!(U8, Place::Same, RoundingShr, U8), 1, 7 },
    shift! { b"urshr", H2K, Shift, one!(U16, Place::Same, RoundingShr, U16), 1, 15 },
    shift! { b"urshr", S2K, Shift, one!(U32, Place::Same, RoundingShr, U32), 1, 31 },
    shift! { b"srshr", B2K, Shift, one!(I8, Place::Same, RoundingShr, I8), 1, 7 },
    shift! { b"srshr", H2K, Shift, one!(I16, Place::Same, RoundingShr, I16), 1, 15 },
    shift! { b"srshr", S2K, Shift, one!(I32, Place::Same, RoundingShr, I32), 1, 31 },
    row! { b"abs", B2, Unary, one!(I8, Place::Same, Abs, U8), 0, 1 },
    row! { b"abs", H2, Unary, one!(I16, Place::Same, Abs, U16), 0, 1 },
    row! { b"abs", S2, Unary, one!(I32, Place::Same, Abs, U32), 0, 1 },
    row! { b"neg", B2, Unary, one!(U8, Place::Same, Negate, U8), 0, 1 },
    row! { b"neg", H2, Unary, one!(U16, Place::Same, Negate, U16), 0, 1 },
    row! { b"neg", S2, Unary, one!(U32, Place::Same, Negate, U32), 0, 1 },
    row! { b"mvn", B2, Unary, one!(U8, Place::Same, Not, U8), 0, 1 },
    row! { b"cmeq", B3, Binary, same!(IsEqual, U8), 0, 1 },
    row! { b"cmeq", H3, Binary, same!(IsEqual, U16), 0, 1 },
    row! { b"cmeq", S3, Binary, same!(IsEqual, U32), 0, 1 },
    row! { b"cmgt", B3, Binary, same!(IsGreater, I8), 0, 1 },
    row! { b"cmgt", H3, Binary, same!(IsGreater, I16), 0, 1 },
    row! { b"cmgt", S3, Binary, same!(IsGreater, I32), 0, 1 },
    row! { b"cmhi", B3, Binary, same!(IsGreater, U8), 0, 1 },
    row! { b"cmhi", H3, Binary, same!(IsGreater, U16), 0, 1 },
    row! { b"cmhi", S3, Binary, same!(IsGreater, U32), 0, 1 },
    row! { b"bsl", B3, Accumulate, three!(U8, U8, U8, BitSelect, U8), 0, 1 },
];

/// The rows of lanes that are wider or narrower, and that of the constant register's.
pub const RESIZED: &[Entry] = &[
    row! { b"uaddl", H_LOW, Binary, two!(U8, Place::Same, WideningAdd, U16), 0, 1 },
    row! { b"uaddl", S_LOW, Binary, two!(U16, Place::Same, WideningAdd, U32), 0, 1 },
    row! { b"uaddl2", H_HIGH, Binary, two!(U8, Place::From(8), WideningAdd, U16), 0, 1 },
    row! { b"uaddl2", S_HIGH, Binary, two!(U16, Place::From(4), WideningAdd, U32), 0, 1 },
    row! { b"saddl", H_LOW, Binary, two!(I8, Place::Same, WideningAdd, I16), 0, 1 },
    row! { b"saddl", S_LOW, Binary, two!(I16, Place::Same, WideningAdd, I32), 0, 1 },
    row! { b"saddl2", H_HIGH, Binary, two!(I8, Place::From(8), WideningAdd, I16), 0, 1 },
    row! { b"saddl2", S_HIGH, Binary, two!(I16, Place::From(4), WideningAdd, I32), 0, 1 },
    row! { b"usubl", H_LOW, Binary, two!(U8, Place::Same, WideningSub, I16), 0, 1 },
    row! { b"usubl", S_LOW, Binary, two!(U16, Place::Same, WideningSub, I32), 0, 1 },
    row! { b"usubl2", H_HIGH, Binary, two!(U8, Place::From(8), WideningSub, I16), 0, 1 },
    row! { b"usubl2", S_HIGH, Binary, two!(U16, Place::From(4), WideningSub, I32), 0, 1 },
    row! { b"ssubl", H_LOW, Binary, two!(I8, Place::Same, WideningSub, I16), 0, 1 },
    row! { b"ssubl", S_LOW, Binary, two!(I16, Place::Same, WideningSub, I32), 0, 1 },
    row! { b"ssubl2", H_HIGH, Binary, two!(I8, Place::From(8), WideningSub, I16), 0, 1 },
    row! { b"ssubl2", S_HIGH, Binary, two!(I16, Place::From(4), WideningSub, I32), 0, 1 },
    row! { b"umull", H_LOW, Binary, two!(U8, Place::Same, WideningMul, U16), 0, 2 },
    row! { b"umull", S_LOW, Binary, two!(U16, Place::Same, WideningMul, U32), 0, 2 },
    row! { b"umull2", H_HIGH, Binary, two!(U8, Place::From(8), WideningMul, U16), 0, 2 },
    row! { b"umull2", S_HIGH, Binary, two!(U16, Place::From(4), WideningMul, U32), 0, 2 },
    row! { b"smull", H_LOW, Binary, two!(I8, Place::Same, WideningMul, I16), 0, 2 },
    row! { b"smull", S_LOW, Binary, two!(I16, Place::Same, WideningMul, I32), 0, 2 },
    row! { b"smull2", H_HIGH, Binary, two!(I8, Place::From(8), WideningMul, I16), 0, 2 },
    row! { b"smull2", S_HIGH, Binary, two!(I16, Place::From(4), WideningMul, I32), 0, 2 },
    row! { b"uabdl", H_LOW, Binary, two!(U8, Place::Same, Absd, U16), 0, 1 },
    row! { b"uabdl", S_LOW, Binary, two!(U16, Place::Same, Absd, U32), 0, 1 },
    row! { b"uabdl2", H_HIGH, Binary, two!(U8, Place::From(8), Absd, U16), 0, 1 },
    row! { b"uabdl2", S_HIGH, Binary, two!(U16, Place::From(4), Absd, U32), 0, 1 },
    row! { b"sabdl", H_LOW, Binary, two!(I8, Place::Same, Absd, U16), 0, 1 },
    row! { b"sabdl", S_LOW, Binary, two!(I16, Place::Same, Absd, U32), 0, 1 },
    row! { b"sabdl2", H_HIGH, Binary, two!(I8, Place::From(8), Absd, U16), 0, 1 },
    row! { b"sabdl2", S_HIGH, Binary, two!(I16, Place::From(4), Absd, U32), 0, 1 },
    row! { b"umlal", H_LOW, Accumulate, added!(U16, U8, Place::Same), 0, 2 },
    row! { b"umlal", S_LOW, Accumulate, added!(U32, U16, Place::Same), 0, 2 },
    row! { b"umlal2", H_HIGH, Accumulate, added!(U16, U8, Place::From(8)), 0, 2 },
    row! { b"umlal2", S_HIGH, Accumulate, added!(U32, U16, Place::From(4)), 0, 2 },
    row! { b"smlal", H_LOW, Accumulate, added!(I16, I8, Place::Same), 0, 2 },
    row! { b"smlal", S_LOW, Accumulate, added!(I32, I16, Place::Same), 0, 2 },
    row! { b"smlal2", H_HIGH, Accumulate, added!(I16, I8, Place::From(8)), 0, 2 },
    row! { b"smlal2", S_HIGH, Accumulate, added!(I32, I16, Place::From(4)), 0, 2 },
    row! { b"uaddw", H_WIDE_LOW, Binary, extended!(U16, U8, Place::Same), 0, 1 },
    row! { b"uaddw", S_WIDE_LOW, Binary, extended!(U32, U16, Place::Same), 0, 1 },
    row! { b"uaddw2", H_WIDE_HIGH, Binary, extended!(U16, U8, Place::From(8)), 0, 1 },
    row! { b"uaddw2", S_WIDE_HIGH, Binary, extended!(U32, U16, Place::From(4)), 0, 1 },
    row! { b"saddw", H_WIDE_LOW, Binary, extended!(I16, I8, Place::Same), 0, 1 },
    row! { b"saddw", S_WIDE_LOW, Binary, extended!(I32, I16, Place::Same), 0, 1 },
    row! { b"saddw2", H_WIDE_HIGH, Binary, extended!(I16, I8, Place::From(8)), 0, 1 },
    row! { b"saddw2", S_WIDE_HIGH, Binary, extended!(I32, I16, Place::From(4)), 0, 1 },
    shift! { b"ushll", H_LOW_K, Shift, one!(U8, Place::Same, ShiftLeft, U16), 0, 7 },
    shift! { b"ushll", S_LOW_K, Shift, one!(U16, Place::Same, ShiftLeft, U32), 0, 15 },
    shift! { b"ushll2", H_HIGH_K, Shift, one!(U8, Place::From(8), ShiftLeft, U16), 0, 7 },
    shift! { b"ushll2", S_HIGH_K, Shift, one!(U16, Place::From(4), ShiftLeft, U32), 0, 15 },
    shift! { b"sshll", H_LOW_K, Shift, one!(I8, Place::Same, ShiftLeft, I16), 0, 7 },
    shift! { b"sshll", S_LOW_K, Shift, one!(I16, Place::Same, ShiftLeft, I32), 0, 15 },
    shift! { b"sshll2", H_HIGH_K, Shift, one!(I8, Place::From(8), ShiftLeft, I16), 0, 7 },
    shift! { b"sshll2", S_HIGH_K, Shift, one!(I16, Place::From(4), ShiftLeft, I32), 0, 15 },
    lower! { b"xtn", B_LOWER, Unary, one!(U16, Place::Same, Cast, U8), 0, 0 },
    lower! { b"xtn", H_LOWER, Unary, one!(U32, Place::Same, Cast, U16), 0, 0 },
    row! { b"xtn2", B_UPPER, Upper, one!(U16, Place::Same, Cast, U8), 0, 1 },
    row! { b"xtn2", H_UPPER, Upper, one!(U32, Place::Same, Cast, U16), 0, 1 },
    lower! { b"uqxtn", B_LOWER, Unary, one!(U16, Place::Same, SaturatingCast, U8), 0, 0 },
    lower! { b"uqxtn", H_LOWER, Unary, one!(U32, Place::Same, SaturatingCast, U16), 0, 0 },
    row! { b"uqxtn2", B_UPPER, Upper, one!(U16, Place::Same, SaturatingCast, U8), 0, 1 },
    row! { b"uqxtn2", H_UPPER, Upper, one!(U32, Place::Same, SaturatingCast, U16), 0, 1 },
    lower! { b"sqxtn", B_LOWER, Unary, one!(I16, Place::Same, SaturatingCast, I8), 0, 0 },
    lower! { b"sqxtn", H_LOWER, Unary, one!(I32, Place::Same, SaturatingCast, I16), 0, 0 },
    row! { b"sqxtn2", B_UPPER, Upper, one!(I16, Place::Same, SaturatingCast, I8), 0, 1 },
    row! { b"sqxtn2", H_UPPER, Upper, one!(I32, Place::Same, SaturatingCast, I16), 0, 1 },
    lower! { b"sqxtun", B_LOWER, Unary, one!(I16, Place::Same, SaturatingCast, U8), 0, 0 },
    lower! { b"sqxtun", H_LOWER, Unary, one!(I32, Place::Same, SaturatingCast, U16), 0, 0 },
    row! { b"sqxtun2", B_UPPER, Upper, one!(I16, Place::Same, SaturatingCast, U8), 0, 1 },
    row! { b"sqxtun2", H_UPPER, Upper, one!(I32, Place::Same, SaturatingCast, U16), 0, 1 },
    lower! { b"shrn", B_LOWER_K, Shift, one!(U16, Place::Same, ShiftRight, U8), 1, 8 },
    lower! { b"shrn", H_LOWER_K, Shift, one!(U32, Place::Same, ShiftRight, U16), 1, 16 },
    shift! { b"shrn2", B_UPPER_K, UpperShift, one!(U16, Place::Same, ShiftRight, U8), 1, 8 },
    shift! { b"shrn2", H_UPPER_K, UpperShift, one!(U32, Place::Same, ShiftRight, U16), 1, 16 },
    lower! { b"rshrn", B_LOWER_K, Shift, one!(U16, Place::Same, RoundingShr, U8), 1, 8 },
    lower! { b"rshrn", H_LOWER_K, Shift, one!(U32, Place::Same, RoundingShr, U16), 1, 16 },
    shift! { b"rshrn2", B_UPPER_K, UpperShift, one!(U16, Place::Same, RoundingShr, U8), 1, 8 },
    shift! { b"rshrn2", H_UPPER_K, UpperShift, one!(U32, Place::Same, RoundingShr, U16), 1, 16 },
    lower! { b"uqshrn", B_LOWER_K, Shift, one!(U16, Place::Same, SaturateShift, U8), 1, 8 },
    lower! { b"uqshrn", H_LOWER_K, Shift, one!(U32, Place::Same, SaturateShift, U16), 1, 16 },
    shift! { b"uqshrn2", B_UPPER_K, UpperShift, one!(U16, Place::Same, SaturateShift, U8), 1, 8 },
    shift! { b"uqshrn2", H_UPPER_K, UpperShift, one!(U32, Place::Same, SaturateShift, U16), 1, 16 },
    lower! { b"sqshrun", B_LOWER_K, Shift, one!(I16, Place::Same, SaturateShift, U8), 1, 8 },
    lower! { b"sqshrun", H_LOWER_K, Shift, one!(I32, Place::Same, SaturateShift, U16), 1, 16 },
    shift! { b"sqshrun2", B_UPPER_K, UpperShift, one!(I16, Place::Same, SaturateShift, U8), 1, 8 },
    shift! { b"sqshrun2", H_UPPER_K, UpperShift, one!(I32, Place::Same, SaturateShift, U16), 1, 16 },
    lower! { b"uqrshrn", B_LOWER_K, Shift, one!(U16, Place::Same, SaturateRound, U8), 1, 8 },
    lower! { b"uqrshrn", H_LOWER_K, Shift, one!(U32, Place::Same, SaturateRound, U16), 1, 16 },
    shift! { b"uqrshrn2", B_UPPER_K, UpperShift, one!(U16, Place::Same, SaturateRound, U8), 1, 8 },
    shift! { b"uqrshrn2", H_UPPER_K, UpperShift, one!(U32, Place::Same, SaturateRound, U16), 1, 16 },
    lower! { b"sqrshrun", B_LOWER_K, Shift, one!(I16, Place::Same, SaturateRound, U8), 1, 8 },
    lower! { b"sqrshrun", H_LOWER_K, Shift, one!(I32, Place::Same, SaturateRound, U16), 1, 16 },
    shift! { b"sqrshrun2", B_UPPER_K, UpperShift, one!(I16, Place::Same, SaturateRound, U8), 1, 8 },
    shift! { b"sqrshrun2", H_UPPER_K, UpperShift, one!(I32, Place::Same, SaturateRound, U16), 1, 16 },
    row! { b"dup", SPLAT, FromConstant, one!(U32, Place::First, Cast, U32), 0, 0 },
];

/// How many rows there are.
pub const PLACES: usize = PLAIN.len() + RESIZED.len();

/// The place of the first name.
pub const NAMED: usize = 19;

/// Offsets are in bytes, and the constant register has lines of its own.
pub const STYLE: Style = Style {
    unit: 16,
    constant: None,
    stores_last: false,
    adds_pages: true,
    packets: false,
};

/// The row at this place: the word and the rest of its line, and what stands with them.
pub fn entry(k: usize) -> Entry
    requires { k < PLACES }
    ensures word { result.0.now ≡ word_at k }
    ensures pattern { result.1.now ≡ pattern_at k }
    ensures row { result.2 ≡ row_at k }
{
    if k < PLAIN.len() {
        entry_at(PLAIN, k)
    } else {
        entry_at(RESIZED, k - PLAIN.len())
    }
}
