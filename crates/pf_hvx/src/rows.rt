ghost use Rattle.std.specs.Prelude.{◌≡◌, ◌<◌};
ghost use Rattle.pf_hvx.specs.Meaning.Rows.{place, word_at, pattern_at, row_at};

use pf_lanes::Place;
use pf_tables::{
    COPIED, Entry, NONE, Row, Shape, Style, entry_at, in_turn, mixed, one, same, three, two,
};

/// The names of the rows that make lanes: those behind the rows that each table has.
#[derive(Clone, Copy)]
pub enum Mnemonic {
    VaddB,
    VaddH,
    VaddW,
    VsubB,
    VsubH,
    VsubW,
    VaddSatUb,
    VaddSatUh,
    VaddSatH,
    VaddSatW,
    VsubSatUb,
    VsubSatUh,
    VsubSatH,
    VsubSatW,
    VavgUb,
    VavgUh,
    VavgH,
    VavgRndUb,
    VavgRndUh,
    VavgRndH,
    VminUb,
    VminUh,
    VminH,
    VminW,
    VmaxUb,
    VmaxUh,
    VmaxH,
    VmaxW,
    VabsdiffUb,
    VabsdiffUh,
    VabsdiffH,
    VabsdiffW,
    VabsH,
    VabsW,
    VmpyiH,
    VmpyRndSatH,
    VaslH,
    VaslW,
    VasrH,
    VasrW,
    VlsrUh,
    VlsrUw,
    Vnot,
    VcmpGtUb,
    VcmpGtUh,
    VcmpGtUw,
    VcmpGtB,
    VcmpGtH,
    VcmpGtW,
    VcmpEqB,
    VcmpEqH,
    VcmpEqW,
    Vmux,
    VaddPairUb,
    VaddPairUh,
    VaddPairH,
    VsubPairUb,
    VsubPairUh,
    VsubPairH,
    VmpyPairUb,
    VmpyPairUbB,
    VmpyPairB,
    VmpyPairH,
    VmpyPairUh,
    VzxtUb,
    VzxtUh,
    VsxtB,
    VsxtH,
    VsatH,
    VsatW,
    VshuffeB,
    VshuffeH,
    VasrRndSat,
    VpackeH,
    VpackeW,
    VpackSatUb,
    VpackSatB,
    VpackSatUh,
    VpackSatH,
    Vshuff,
    Vdeal,
    Vsplat,
}

macro_rules! row {
    ($frame:literal, $shape:ident, $recipe:expr, $amount:literal, $cost:literal) => {
        (b"", $frame, Row { shape: Shape::$shape, recipe: $recipe, amount: $amount, cost: $cost, ..NONE })
    };
}

// One that takes the right vector first.
macro_rules! swapped {
    ($frame:literal, $shape:ident, $recipe:expr, $cost:literal) => {
        (b"", $frame, Row { shape: Shape::$shape, recipe: $recipe, swapped: true, cost: $cost, ..NONE })
    };
}

// The lower vector of a pair is made of the lanes at even places, the upper one of those at odd ones.
macro_rules! pair {
    ($frame:literal, $left:ident, $right:ident, $op:ident, $to:ident, $cost:literal) => {
        (b"", $frame, Row {
            shape: Shape::Pair,
            recipe: mixed!($left, $right, Place::Even, $op, $to),
            high: mixed!($left, $right, Place::Odd, $op, $to),
            cost: $cost,
            ..NONE
        })
    };
}

macro_rules! pair_unary {
    ($frame:literal, $from:ident, $to:ident) => {
        (b"", $frame, Row {
            shape: Shape::PairUnary,
            recipe: one!($from, Place::Even, Cast, $to),
            high: one!($from, Place::Odd, Cast, $to),
            cost: 1,
            ..NONE
        })
    };
}

macro_rules! plain {
    ($frame:literal, $shape:ident) => {
        (b"", $frame, Row { shape: Shape::$shape, ..NONE })
    };
}

/// The rows that each table has, and then one for each name: its line, and for a name its shape, its
/// recipes, its amount and its cost.
pub const ROWS: &[(&[u8], &[u8], Row)] = &[
    plain! { b"{ r\0 = memw(r\0+#\0) }", LoadPointer },
    plain! { b"{ memw(r\0+#\0) = r\0 }", StorePointer },
    plain! { b"{ r\0 = ##\0 }", SetNumber },
    plain! { b"{ r\0 = add(r\0,##\0) }", Add },
    plain! { b"{ r\0 = add(r\0,##-\0) }", Sub },
    plain! { b"{ r\0 = add(r\0,r\0) }", AddRegister },
    plain! { b"{ r\0 = memub(r\0+#0) }", LoadByte },
    plain! { b"{ r\0 = memuh(r\0+#0) }", LoadHalf },
    plain! { b"{ memb(r\0+#0) = r\0 }", StoreByte },
    plain! { b"{ memh(r\0+#0) = r\0 }", StoreHalf },
    plain! { b"{ p0 = cmp.gtu(r\0,r\0) }", CompareNumbers },
    plain! { b"{ jumpr r31 }", Return },
    plain! { b"", Absent },
    plain! { b"{ r\0 = ##-\0 }", NegativeConstant },
    plain! { b"{ v\0 = vmemu(r\0+#\0) }", Load },
    plain! { b"{ vmemu(r\0+#\0) = v\0 }", Store },
    plain! { b"{ v\0 = v\0 }", Copy },
    plain! { b"", Absent },
    plain! { b"", Absent },
    row! { b"{ v\0.b = vadd(v\0.b,v\0.b) }", Binary, same!(Add, I8), 0, 1 },
    row! { b"{ v\0.h = vadd(v\0.h,v\0.h) }", Binary, same!(Add, I16), 0, 1 },
    row! { b"{ v\0.w = vadd(v\0.w,v\0.w) }", Binary, same!(Add, I32), 0, 1 },
    row! { b"{ v\0.b = vsub(v\0.b,v\0.b) }", Binary, same!(Sub, I8), 0, 1 },
    row! { b"{ v\0.h = vsub(v\0.h,v\0.h) }", Binary, same!(Sub, I16), 0, 1 },
    row! { b"{ v\0.w = vsub(v\0.w,v\0.w) }", Binary, same!(Sub, I32), 0, 1 },
    row! { b"{ v\0.ub = vadd(v\0.ub,v\0.ub):sat }", Binary, same!(SaturatingAdd, U8), 0, 1 },
    row! { b"{ v\0.uh = vadd(v\0.uh,v\0.uh):sat }", Binary, same!(SaturatingAdd, U16), 0, 1 },
    row! { b"{ v\0.h = vadd(v\0.h,v\0.h):sat }", Binary, same!(SaturatingAdd, I16), 0, 1 },
    row! { b"{ v\0.w = vadd(v\0.w,v\0.w):sat }", Binary, same!(SaturatingAdd, I32), 0, 1 },
    row! { b"{ v\0.ub = vsub(v\0.ub,v\0.ub):sat }", Binary, same!(SaturatingSub, U8), 0, 1 },
    row! { b"{ v\0.uh = vsub(v\0.uh,v\0.uh):sat }", Binary, same!(SaturatingSub, U16), 0, 1 },
    row! { b"{ v\0.h = vsub(v\0.h,v\0.h):sat }", Binary, same!(SaturatingSub, I16), 0, 1 },
    row! { b"{ v\0.w = vsub(v\0.w,v\0.w):sat }", Binary, same!(SaturatingSub, I32), 0, 1 },
    row! { b"{ v\0.ub = vavg(v\0.ub,v\0.ub) }", Binary, same!(HalvingAdd, U8), 0, 1 },
    row! { b"{ v\0.uh = vavg(v\0.uh,v\0.uh) }", Binary, same!(HalvingAdd, U16), 0, 1 },
    row! { b"{ v\0.h = vavg(v\0.h,v\0.h) }", Binary, same!(HalvingAdd, I16), 0, 1 },
    row! { b"{ v\0.ub = vavg(v\0.ub,v\0.ub):rnd }", Binary, same!(RoundingHalvingAdd, U8), 0, 1 },
    row! { b"{ v\0.uh = vavg(v\0.uh,v\0.uh):rnd }", Binary, same!(RoundingHalvingAdd, U16), 0, 1 },
    row! { b"{ v\0.h = vavg(v\0.h,v\0.h):rnd }", Binary, same!(RoundingHalvingAdd, I16), 0, 1 },
    row! { b"{ v\0.ub = vmin(v\0.ub,v\0.ub) }", Binary, same!(Min, U8), 0, 1 },
    row! { b"{ v\0.uh = vmin(v\0.uh,v\0.uh) }", Binary, same!(Min, U16), 0, 1 },
    row! { b"{ v\0.h = vmin(v\0.h,v\0.h) }", Binary, same!(Min, I16), 0, 1 },
    row! { b"{ v\0.w = vmin(v\0.w,v\0.w) }", Binary, same!(Min, I32), 0, 1 },
    row! { b"{ v\0.ub = vmax(v\0.ub,v\0.ub) }", Binary, same!(Max, U8), 0, 1 },
    row! { b"{ v\0.uh = vmax(v\0.uh,v\0.uh) }", Binary, same!(Max, U16), 0, 1 },
    row! { b"{ v\0.h = vmax(v\0.h,v\0.h) }", Binary, same!(Max, I16), 0, 1 },
    row! { b"{ v\0.w = vmax(v\0.w,v\0.w) }", Binary, same!(Max, I32), 0, 1 },
    row! { b"{ v\0.ub = vabsdiff(v\0.ub,v\0.ub) }", Binary, two!(U8, Place::Same, Absd, U8), 0, 1 },
    row! { b"{ v\0.uh = vabsdiff(v\0.uh,v\0.uh) }", Binary, two!(U16, Place::Same, Absd, U16), 0, 1 },
    row! { b"{ v\0.uh = vabsdiff(v\0.h,v\0.h) }", Binary, two!(I16, Place::Same, Absd, U16), 0, 1 },
    row! { b"{ v\0.uw = vabsdiff(v\0.w,v\0.w) }", Binary, two!(I32, Place::Same, Absd, U32), 0, 1 },
    row! { b"{ v\0.h = vabs(v\0.h) }", Unary, one!(I16, Place::Same, Abs, U16), 0, 1 },
    row! { b"{ v\0.w = vabs(v\0.w) }", Unary, one!(I32, Place::Same, Abs, U32), 0, 1 },
    row! { b"{ v\0.h = vmpyi(v\0.h,v\0.h) }", Binary, same!(Mul, I16), 0, 2 },
    row! { b"{ v\0.h = vmpy(v\0.h,v\0.h):<<1:rnd:sat }", Binary, same!(RoundingMulShr, I16), 15, 2 },
    row! { b"{ v\0.h = vasl(v\0.h,r7) }", ByConstant, one!(I16, Place::Same, ShiftLeft, I16), 0, 1 },
    row! { b"{ v\0.w = vasl(v\0.w,r7) }", ByConstant, one!(I32, Place::Same, ShiftLeft, I32), 0, 1 },
    row! { b"{ v\0.h = vasr(v\0.h,r7) }", ByConstant, one!(I16, Place::Same, ShiftRight, I16), 0, 1 },
    row! { b"{ v\0.w = vasr(v\0.w,r7) }", ByConstant, one!(I32, Place::Same, ShiftRight, I32), 0, 1 },
    row! { b"{ v\0.uh = vlsr(v\0.uh,r7) }", ByConstant, one!(U16, Place::Same, ShiftRight, U16), 0, 1 },
    row! { b"{ v\0.uw = vlsr(v\0.uw,r7) }", ByConstant, one!(U32, Place::Same, ShiftRight, U32), 0, 1 },
    row! { b"{ v\0 = vnot(v\0) }", Unary, one!(U8, Place::Same, Not, U8), 0, 1 },
    row! { b"{ q0 = vcmp.gt(v\0.ub,v\0.ub) }", Compare, same!(IsGreater, U8), 0, 1 },
    row! { b"{ q0 = vcmp.gt(v\0.uh,v\0.uh) }", Compare, same!(IsGreater, U16), 0, 1 },
    row! { b"{ q0 = vcmp.gt(v\0.uw,v\0.uw) }", Compare, same!(IsGreater, U32), 0, 1 },
    row! { b"{ q0 = vcmp.gt(v\0.b,v\0.b) }", Compare, same!(IsGreater, I8), 0, 1 },
    row! { b"{ q0 = vcmp.gt(v\0.h,v\0.h) }", Compare, same!(IsGreater, I16), 0, 1 },
    row! { b"{ q0 = vcmp.gt(v\0.w,v\0.w) }", Compare, same!(IsGreater, I32), 0, 1 },
    row! { b"{ q0 = vcmp.eq(v\0.b,v\0.b) }", Compare, same!(IsEqual, I8), 0, 1 },
    row! { b"{ q0 = vcmp.eq(v\0.h,v\0.h) }", Compare, same!(IsEqual, I16), 0, 1 },
    row! { b"{ q0 = vcmp.eq(v\0.w,v\0.w) }", Compare, same!(IsEqual, I32), 0, 1 },
    row! { b"{ v\0 = vmux(q0,v\0,v\0) }", Choose, three!(U8, U8, U8, WherePositive, U8), 0, 1 },
    pair! { b"{ v\0:\0.h = vadd(v\0.ub,v\0.ub) }", U8, U8, WideningAdd, I16, 1 },
    pair! { b"{ v\0:\0.w = vadd(v\0.uh,v\0.uh) }", U16, U16, WideningAdd, I32, 1 },
    pair! { b"{ v\0:\0.w = vadd(v\0.h,v\0.h) }", I16, I16, WideningAdd, I32, 1 },
    pair! { b"{ v\0:\0.h = vsub(v\0.ub,v\0.ub) }", U8, U8, WideningSub, I16, 1 },
    pair! { b"{ v\0:\0.w = vsub(v\0.uh,v\0.uh) }", U16, U16, WideningSub, I32, 1 },
    pair! { b"{ v\0:\0.w = vsub(v\0.h,v\0.h) }", I16, I16, WideningSub, I32, 1 },
    pair! { b"{ v\0:\0.uh = vmpy(v\0.ub,v\0.ub) }", U8, U8, WideningMul, U16, 2 },
    pair! { b"{ v\0:\0.h = vmpy(v\0.ub,v\0.b) }", U8, I8, WideningMul, I16, 2 },
    pair! { b"{ v\0:\0.h = vmpy(v\0.b,v\0.b) }", I8, I8, WideningMul, I16, 2 },
    pair! { b"{ v\0:\0.w = vmpy(v\0.h,v\0.h) }", I16, I16, WideningMul, I32, 2 },
    pair! { b"{ v\0:\0.uw = vmpy(v\0.uh,v\0.uh) }", U16, U16, WideningMul, U32, 2 },
    pair_unary! { b"{ v\0:\0.uh = vzxt(v\0.ub) }", U8, U16 },
    pair_unary! { b"{ v\0:\0.uw = vzxt(v\0.uh) }", U16, U32 },
    pair_unary! { b"{ v\0:\0.h = vsxt(v\0.b) }", I8, I16 },
    pair_unary! { b"{ v\0:\0.w = vsxt(v\0.h) }", I16, I32 },
    swapped! { b"{ v\0.ub = vsat(v\0.h,v\0.h) }", Binary, in_turn!(1, I16, Place::Same, Place::Same, SaturatingCast, U8), 1 },
    swapped! { b"{ v\0.h = vsat(v\0.w,v\0.w) }", Binary, in_turn!(1, I32, Place::Same, Place::Same, SaturatingCast, I16), 1 },
    swapped! { b"{ v\0.b = vshuffe(v\0.b,v\0.b) }", Binary, in_turn!(1, I8, Place::Even, Place::Even, Cast, I8), 1 },
    swapped! { b"{ v\0.h = vshuffe(v\0.h,v\0.h) }", Binary, in_turn!(1, I16, Place::Even, Place::Even, Cast, I16), 1 },
    row! { b"{ v\0.ub = vasr(v\0.h,v\0.h,r7):rnd:sat }", JoinedByConstant, in_turn!(1, I16, Place::Same, Place::Same, SaturateRound, U8), 0, 1 },
    swapped! { b"{ v\0.b = vpacke(v\0.h,v\0.h) }", Binary, in_turn!(64, I16, Place::Same, Place::Same, Cast, I8), 1 },
    swapped! { b"{ v\0.h = vpacke(v\0.w,v\0.w) }", Binary, in_turn!(32, I32, Place::Same, Place::Same, Cast, I16), 1 },
    swapped! { b"{ v\0.ub = vpack(v\0.h,v\0.h):sat }", Binary, in_turn!(64, I16, Place::Same, Place::Same, SaturatingCast, U8), 1 },
    swapped! { b"{ v\0.b = vpack(v\0.h,v\0.h):sat }", Binary, in_turn!(64, I16, Place::Same, Place::Same, SaturatingCast, I8), 1 },
    swapped! { b"{ v\0.uh = vpack(v\0.w,v\0.w):sat }", Binary, in_turn!(32, I32, Place::Same, Place::Same, SaturatingCast, U16), 1 },
    swapped! { b"{ v\0.h = vpack(v\0.w,v\0.w):sat }", Binary, in_turn!(32, I32, Place::Same, Place::Same, SaturatingCast, I16), 1 },
    plain! { b"{ v\0:\0 = vshuff(v\0,v\0,r7) }", Move },
    swapped! { b"{ v\0:\0 = vdeal(v\0,v\0,r7) }", Move, COPIED, 0 },
    row! { b"{ v\0 = vsplat(r7) }", FromConstant, one!(U32, Place::First, Cast, U32), 0, 0 },
];

/// How many rows there are.
pub const PLACES: usize = ROWS.len();

/// The place of the first name.
pub const NAMED: usize = 19;

/// How HVX writes registers and numbers: an offset counts vectors, and the constant register is r7.
pub const STYLE: Style = Style {
    unit: 1,
    constant: Some(7),
    stores_last: true,
    adds_pages: false,
    packets: true,
};

/// The row at this place: its line, whose word is empty, and what stands with it.
#[tactic(auto, unfolding(crate::specs::Meaning::Rows::word_at, crate::specs::Meaning::Rows::pattern_at, crate::specs::Meaning::Rows::row_at))]
pub fn entry(k: usize) -> Entry
    requires { k < PLACES }
    ensures word { result.0.now ≡ word_at k }
    ensures pattern { result.1.now ≡ pattern_at k }
    ensures row { result.2 ≡ row_at k }
{
    entry_at(ROWS, k)
}

impl Mnemonic {
    /// The place of the name's row.
    pub fn place(self) -> usize
        ensures value { result ≡ place self }
        ensures inside { result < PLACES }
    {
        NAMED + self as usize
    }
}
