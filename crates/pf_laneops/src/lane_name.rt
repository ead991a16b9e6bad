/// An operation on the lanes of vectors. x and y are operands of a type of w bits, k is the amount.
#[derive(Clone, Copy, Debug, PartialEq, Eq, Hash)]
pub enum LaneName {
    /// x + y, wrapped.
    Add,
    /// x - y, wrapped.
    Sub,
    /// x * y, wrapped.
    Mul,
    /// The first operand plus the product of the others, wrapped.
    Mla,
    /// Half of x + y, rounded down.
    HalvingAdd,
    /// Half of x + y + 1, rounded down.
    RoundingHalvingAdd,
    /// Half of x - y, rounded down and wrapped.
    HalvingSub,
    /// x + y, clamped.
    SaturatingAdd,
    /// x - y, clamped.
    SaturatingSub,
    Min,
    Max,
    /// The distance of x and y.
    Absd,
    /// The distance from 0.
    Abs,
    /// Each bit turned: -1 - x, wrapped.
    Not,
    /// x * 2^k, wrapped.
    Shl,
    /// x / 2^k, rounded down.
    Shr,
    /// (x + 2^(k-1)) / 2^k, rounded down.
    RoundingShr,
    /// x * y / 2^w, rounded down.
    MulHigh,
    /// x * y / 2^(w-1), rounded down and clamped.
    MulQ,
    /// (x * y + 2^(w-2)) / 2^(w-1), rounded down and clamped.
    MulQr,
    /// (x * y / 2^14 + 1) / 2, each rounded down, and wrapped.
    MulHrs,
    /// The third operand where the first is greater than the second, else the fourth.
    SelGt,
    /// The third operand where the first equals the second, else the fourth.
    SelEq,
    /// The same bits as another type of the same width.
    Bits,
    /// x itself, in the type of twice the width.
    Widen,
    /// x * 2^k in the type of twice the width.
    WidenShl,
    /// x + y in the type of twice the width.
    WideningAdd,
    /// x - y in the type with a sign of twice the width.
    WideningSub,
    /// x * y in the type of twice the width.
    WideningMul,
    /// The product of a u8 and an i8, in i16.
    MulUs,
    /// A wide x plus a narrow y, wrapped.
    ExtendingAdd,
    /// A wide operand plus the product of two narrow ones, wrapped.
    WideningMla,
    /// The distance of x and y in the type without a sign of twice the width.
    WideningAbsd,
    /// x wrapped to half the width.
    Narrow,
    /// x clamped to a type of half the width.
    SatNarrow,
    /// x / 2^k, rounded down and wrapped to half the width.
    NarrowShr,
    /// (x + 2^(k-1)) / 2^k, rounded down and wrapped to half the width.
    NarrowRshr,
    /// x / 2^k, rounded down and clamped to a type of half the width.
    SatNarrowShr,
    /// (x + 2^(k-1)) / 2^k, rounded down and clamped to a type of half the width.
    SatNarrowRshr,
}
