ghost use Rattle.std.specs.Prelude.{◌≡◌};
ghost use Rattle.pf_laneops.specs.Meaning.LaneRows.{lane_row, cost_on};

use crate::lane_name::LaneName;
use Cost::{BySign, Each, Nowhere};
use LaneAmounts::{Below, Inside, UpTo, UpToButHvx, Without};
use LaneGives::{
    First, Half, HalfWidth, SameWidth, SignedTwice, Third, Twice, Unsigned, UnsignedTwice,
};
use LaneOperands::{Four, One, Three, Two, UnsignedAndSigned, WideAndNarrow, WideAndTwo};
use LaneSet::{
    ButI8AndU32, Narrow, NarrowButI8, NarrowUnsigned, OnlyI16, OnlyI16ToUnsigned, OnlyU8, Signed,
    Six, Wide, WideKeeping, WideSigned, WideToUnsigned, Words,
};
use pf_ints::Target;

/// Which types the operands of a lane operation have. T is the type that its row is named by.
#[derive(Clone, Copy)]
pub enum LaneOperands {
    /// T.
    One,
    /// T, T.
    Two,
    /// T, T, T.
    Three,
    /// Two of T that are compared, and two of one type of T's width to choose from.
    Four,
    /// T without a sign, and the type with a sign of T's width.
    UnsignedAndSigned,
    /// The type of T's sign and twice its width, and T.
    WideAndNarrow,
    /// The type of T's sign and twice its width, and T, T.
    WideAndTwo,
}

/// Which type the result of a lane operation has.
#[derive(Clone, Copy)]
pub enum LaneGives {
    /// T.
    First,
    /// The type without a sign of T's width.
    Unsigned,
    /// The third operand's.
    Third,
    /// The stated one, of T's width.
    SameWidth,
    /// The type of T's sign and twice its width.
    Twice,
    /// The type with a sign of twice T's width.
    SignedTwice,
    /// The type without a sign of twice T's width.
    UnsignedTwice,
    /// The type of T's sign and half its width.
    Half,
    /// The stated one, of half T's width.
    HalfWidth,
}

/// Which amounts a lane operation takes, where w is the width of T, or of the result where that
/// is half as wide.
#[derive(Clone, Copy)]
pub enum LaneAmounts {
    /// It has none.
    Without,
    /// 0 to w - 1.
    Below,
    /// 1 to w - 1.
    Inside,
    /// 1 to w.
    UpTo,
    /// 1 to w, but 1 to w - 1 on hvx.
    UpToButHvx,
}

/// A set of types T.
#[derive(Clone, Copy)]
pub enum LaneSet {
    /// All six.
    Six,
    /// Those of 16 and 32 bits.
    Wide,
    /// Those of 16 bits.
    Words,
    /// Those of 8 and 16 bits.
    Narrow,
    /// u8 and u16.
    NarrowUnsigned,
    /// u8, u16 and i16.
    NarrowButI8,
    /// u8, u16, i16 and i32.
    ButI8AndU32,
    /// i8, i16 and i32.
    Signed,
    /// i16 and i32.
    WideSigned,
    OnlyI16,
    OnlyU8,
    /// Those of 16 and 32 bits, but none without a sign where the result has one.
    WideKeeping,
    /// Those of 16 and 32 bits where the result has no sign.
    WideToUnsigned,
    /// i16 where the result has no sign.
    OnlyI16ToUnsigned,
}

/// What a lane operation costs on a target, in bytes of a lane.
#[derive(Clone, Copy)]
pub enum Cost {
    /// The target hasn't the operation.
    Nowhere,
    /// It has it for the types of a set, at this factor.
    Each(LaneSet, u8),
    /// It has it for all types: the factor with a sign, and the one without.
    BySign(u8, u8),
}

/// A row of the table of lane operations.
#[derive(Clone, Copy)]
pub struct LaneRow {
    pub operands: LaneOperands,
    pub gives: LaneGives,
    pub amounts: LaneAmounts,
    pub neon: Cost,
    pub avx2: Cost,
    pub hvx: Cost,
}

impl LaneRow {
    /// What the operation costs on the target.
    pub fn cost_on(&self, target: Target) -> Cost
        ensures { result ≡ cost_on self.now target }
    {
        match target {
            Target::Neon => self.neon,
            Target::Avx2 => self.avx2,
            Target::Hvx => self.hvx,
        }
    }
}

/// A row with its operands, its result and its amounts, and its cells of neon, avx2 and hvx.
macro_rules! row {
    ($operands:expr, $gives:expr, $amounts:expr, $neon:expr, $avx2:expr, $hvx:expr) => {
        LaneRow {
            operands: $operands,
            gives: $gives,
            amounts: $amounts,
            neon: $neon,
            avx2: $avx2,
            hvx: $hvx,
        }
    };
}

impl LaneName {
    /// The operation's row of the table.
    pub fn row(self) -> LaneRow
        ensures { result ≡ lane_row self }
    {
        match self {
            LaneName::Add => row! { Two, First, Without, Each(Six, 1), Each(Six, 1), Each(Six, 1) },
            LaneName::Sub => row! { Two, First, Without, Each(Six, 1), Each(Six, 1), Each(Six, 1) },
            LaneName::Mul =>
                row! { Two, First, Without, Each(Six, 2), Each(Wide, 2), Each(Words, 2) },
            LaneName::Mla => row! { Three, First, Without, Each(Six, 2), Nowhere, Nowhere },
            LaneName::HalvingAdd =>
                row! { Two, First, Without, Each(Six, 1), Nowhere, Each(NarrowButI8, 1) },
            LaneName::RoundingHalvingAdd =>
                row! { Two, First, Without, Each(Six, 1), Each(NarrowUnsigned, 1), Each(NarrowButI8, 1) },
            LaneName::HalvingSub => row! { Two, First, Without, Each(Six, 1), Nowhere, Nowhere },
            LaneName::SaturatingAdd =>
                row! { Two, First, Without, Each(Six, 1), Each(Narrow, 1), Each(ButI8AndU32, 1) },
            LaneName::SaturatingSub =>
                row! { Two, First, Without, Each(Six, 1), Each(Narrow, 1), Each(ButI8AndU32, 1) },
            LaneName::Min =>
                row! { Two, First, Without, Each(Six, 1), Each(Six, 1), Each(ButI8AndU32, 1) },
            LaneName::Max =>
                row! { Two, First, Without, Each(Six, 1), Each(Six, 1), Each(ButI8AndU32, 1) },
            LaneName::Absd =>
                row! { Two, Unsigned, Without, Each(Six, 1), Nowhere, Each(ButI8AndU32, 1) },
            LaneName::Abs =>
                row! { One, Unsigned, Without, Each(Signed, 1), Each(Signed, 1), Each(WideSigned, 1) },
            LaneName::Not => row! { One, First, Without, Each(Six, 1), Nowhere, Each(Six, 1) },
            LaneName::Shl => row! { One, First, Below, Each(Six, 1), Each(Wide, 1), Each(Wide, 1) },
            LaneName::Shr =>
                row! { One, First, Inside, Each(Six, 1), Each(Wide, 1), Each(Wide, 1) },
            LaneName::RoundingShr => row! { One, First, Inside, Each(Six, 1), Nowhere, Nowhere },
            LaneName::MulHigh => row! { Two, First, Without, Nowhere, Each(Words, 2), Nowhere },
            LaneName::MulQ => row! { Two, First, Without, Each(WideSigned, 2), Nowhere, Nowhere },
            LaneName::MulQr =>
                row! { Two, First, Without, Each(WideSigned, 2), Nowhere, Each(OnlyI16, 2) },
            LaneName::MulHrs => row! { Two, First, Without, Nowhere, Each(OnlyI16, 2), Nowhere },
            LaneName::SelGt =>
                row! { Four, Third, Without, Each(Six, 2), BySign(2, 3), Each(Six, 2) },
            LaneName::SelEq =>
                row! { Four, Third, Without, Each(Six, 2), Each(Six, 2), Each(Six, 2) },
            LaneName::Bits =>
                row! { One, SameWidth, Without, Each(Six, 0), Each(Six, 0), Each(Six, 0) },
            LaneName::Widen =>
                row! { One, Twice, Without, Each(Narrow, 2), Each(Narrow, 2), Each(Narrow, 1) },
            LaneName::WidenShl => row! { One, Twice, Below, Each(Narrow, 2), Nowhere, Nowhere },
            LaneName::WideningAdd =>
                row! { Two, Twice, Without, Each(Narrow, 2), Nowhere, Each(NarrowButI8, 1) },
            LaneName::WideningSub =>
                row! { Two, SignedTwice, Without, Each(Narrow, 2), Nowhere, Each(NarrowButI8, 1) },
            LaneName::WideningMul =>
                row! { Two, Twice, Without, Each(Narrow, 4), Nowhere, Each(Narrow, 2) },
            LaneName::MulUs =>
                row! { UnsignedAndSigned, SignedTwice, Without, Nowhere, Nowhere, Each(OnlyU8, 2) },
            LaneName::ExtendingAdd =>
                row! { WideAndNarrow, Twice, Without, Each(Narrow, 2), Nowhere, Nowhere },
            LaneName::WideningMla =>
                row! { WideAndTwo, Twice, Without, Each(Narrow, 4), Nowhere, Nowhere },
            LaneName::WideningAbsd =>
                row! { Two, UnsignedTwice, Without, Each(Narrow, 2), Nowhere, Nowhere },
            LaneName::Narrow =>
                row! { One, Half, Without, Each(Wide, 2), Each(Wide, 5), Each(Wide, 1) },
            LaneName::SatNarrow =>
                row! { One, HalfWidth, Without, Each(WideKeeping, 2), Each(WideSigned, 1), Each(WideSigned, 1) },
            LaneName::NarrowShr => row! { One, Half, UpTo, Each(Wide, 2), Nowhere, Nowhere },
            LaneName::NarrowRshr => row! { One, Half, UpTo, Each(Wide, 2), Nowhere, Nowhere },
            LaneName::SatNarrowShr =>
                row! { One, HalfWidth, UpTo, Each(WideToUnsigned, 2), Nowhere, Nowhere },
            LaneName::SatNarrowRshr =>
                row! { One, HalfWidth, UpToButHvx, Each(WideToUnsigned, 2), Nowhere, Each(OnlyI16ToUnsigned, 1) },
        }
    }
}
