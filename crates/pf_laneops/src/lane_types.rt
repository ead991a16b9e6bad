ghost use Rattle.std.specs.Prelude.{◌≡◌};
ghost use Rattle.pf_values.specs.Meaning.Terms.{typed_as, same_bits, same_type, doubled, halved};
ghost use Rattle.pf_laneops.specs.Meaning.LaneRows.{row_type, row_key, lane_result, by_bits, is_in_set, factor, is_lane_amount, counted, allowed, when};

use crate::lane_name::LaneName;
use crate::lane_row::{Cost, LaneAmounts, LaneGives, LaneOperands, LaneRow, LaneSet};
use pf_ints::{Bits, LaneType, Target};

/// The result's type and the cost of a lane operation on a target, by the stated type, the
/// operands' types and the amount. None where the table has no such row: a row without a stated
/// type has none, a row without an amount has the amount 0 alone.
pub fn lane_type(
    target: Target,
    op: LaneName,
    to: Option<LaneType>,
    args: &[LaneType],
    k: u8,
) -> Option<(LaneType, u32)>
    ensures { result ≡ row_type target op to args.now k }
{
    let row = op.row();
    let key = row_key(row.operands, args)?;
    let ty = lane_result(row.gives, to, key, args)?;
    allowed(&row, target, k, key, ty)
}

fn allowed(
    row: &LaneRow,
    target: Target,
    k: u8,
    key: LaneType,
    ty: LaneType,
) -> Option<(LaneType, u32)>
    ensures { result ≡ allowed row.now target k key ty }
{
    let factor = factor(row.cost_on(target), key, ty)?;
    let counted = counted(row.gives, key, ty);
    if is_lane_amount(row.amounts, target, counted.width(), k) {
        Some((ty, u32::from(factor) * u32::from(counted.bytes())))
    } else {
        None
    }
}

fn row_key(operands: LaneOperands, types: &[LaneType]) -> Option<LaneType>
    ensures { result ≡ row_key operands types.now }
{
    match (operands, types) {
        (LaneOperands::One, [x]) => Some(*x),
        (LaneOperands::Two, [x, y]) => when(is_same(*x, *y), *x),
        (LaneOperands::Three, [x, y, z]) => when(is_same(*x, *y) && is_same(*x, *z), *x),
        (LaneOperands::Four, [a, b, x, y]) => {
            when(
                is_same(*a, *b) && is_same(*x, *y) && is_same_bits(a.bits, x.bits),
                *a,
            )
        }
        (LaneOperands::UnsignedAndSigned, [x, y]) => {
            when(!x.signed && y.signed && is_same_bits(x.bits, y.bits), *x)
        }
        (LaneOperands::WideAndNarrow, [a, x]) => when(is_twice(*a, *x), *x),
        (LaneOperands::WideAndTwo, [a, x, y]) => when(is_twice(*a, *x) && is_same(*x, *y), *x),
        _ => None,
    }
}

fn lane_result(
    gives: LaneGives,
    to: Option<LaneType>,
    key: LaneType,
    types: &[LaneType],
) -> Option<LaneType>
    ensures { result ≡ lane_result gives to key types.now }
{
    match (gives, to, types) {
        (LaneGives::First, None, _) => Some(key),
        (LaneGives::Unsigned, None, _) => Some(of_bits(false, key.bits)),
        (LaneGives::Third, None, [_, _, x, ..]) => Some(*x),
        (LaneGives::SameWidth, Some(u), _) => when(is_same_bits(u.bits, key.bits), u),
        (LaneGives::Twice, None, _) => Some(of_bits(key.signed, doubled(key.bits))),
        (LaneGives::SignedTwice, None, _) => Some(of_bits(true, doubled(key.bits))),
        (LaneGives::UnsignedTwice, None, _) => Some(of_bits(false, doubled(key.bits))),
        (LaneGives::Half, None, _) => Some(of_bits(key.signed, halved(key.bits))),
        (LaneGives::HalfWidth, Some(u), _) => when(is_same_bits(u.bits, halved(key.bits)), u),
        _ => None,
    }
}

/// How many times the bytes of a lane a row costs, where it has the type.
fn factor(cost: Cost, key: LaneType, ty: LaneType) -> Option<u8>
    ensures { result ≡ factor cost key ty }
{
    match cost {
        Cost::Nowhere => None,
        Cost::Each(set, n) => {
            if is_in_set(set, key, ty) {
                Some(n)
            } else {
                None
            }
        }
        Cost::BySign(signed, unsigned) => Some(if key.signed { signed } else { unsigned }),
    }
}

fn is_in_set(set: LaneSet, key: LaneType, ty: LaneType) -> bool
    ensures { result ≡ is_in_set set key ty }
{
    let (signed, bits) = (key.signed, key.bits);
    match set {
        LaneSet::Six => true,
        LaneSet::Wide => by_bits(bits, false, true, true),
        LaneSet::Words => by_bits(bits, false, true, false),
        LaneSet::Narrow => by_bits(bits, true, true, false),
        LaneSet::NarrowUnsigned => by_bits(bits, !signed, !signed, false),
        LaneSet::NarrowButI8 => by_bits(bits, !signed, true, false),
        LaneSet::ButI8AndU32 => by_bits(bits, !signed, true, signed),
        LaneSet::Signed => signed,
        LaneSet::WideSigned => by_bits(bits, false, signed, signed),
        LaneSet::OnlyI16 => by_bits(bits, false, signed, false),
        LaneSet::OnlyU8 => by_bits(bits, !signed, false, false),
        LaneSet::WideKeeping => by_bits(bits, false, true, true) && (signed || !ty.signed),
        LaneSet::WideToUnsigned => by_bits(bits, false, true, true) && !ty.signed,
        LaneSet::OnlyI16ToUnsigned => by_bits(bits, false, signed, false) && !ty.signed,
    }
}

fn by_bits(bits: Bits, eight: bool, sixteen: bool, thirty_two: bool) -> bool
    ensures { result ≡ by_bits bits eight sixteen thirty_two }
{
    match bits {
        Bits::Eight => eight,
        Bits::Sixteen => sixteen,
        Bits::ThirtyTwo => thirty_two,
    }
}

/// Whether a row has the amount, where w is the width of the counted type.
fn is_lane_amount(amounts: LaneAmounts, target: Target, w: u8, k: u8) -> bool
    ensures { result ≡ is_lane_amount amounts target w k }
{
    match (amounts, target) {
        (LaneAmounts::Without, _) => k == 0,
        (LaneAmounts::Below, _) => k < w,
        (LaneAmounts::Inside, _) | (LaneAmounts::UpToButHvx, Target::Hvx) => 1 <= k && k < w,
        (LaneAmounts::UpTo, _) | (LaneAmounts::UpToButHvx, _) => 1 <= k && k <= w,
    }
}

fn counted(gives: LaneGives, key: LaneType, ty: LaneType) -> LaneType
    ensures { result ≡ counted gives key ty }
{
    match gives {
        LaneGives::Half | LaneGives::HalfWidth => ty,
        _ => key,
    }
}

fn when(test: bool, ty: LaneType) -> Option<LaneType>
    ensures { result ≡ when test ty }
{
    if test { Some(ty) } else { None }
}

/// Whether the first type has the sign of the second and twice its width.
fn is_twice(wide: LaneType, narrow: LaneType) -> bool
    ensures { result ≡ same_type wide (typed_as narrow.signed (doubled narrow.bits)) }
{
    is_same(wide, of_bits(narrow.signed, doubled(narrow.bits)))
}

fn is_same(a: LaneType, b: LaneType) -> bool
    ensures { result ≡ same_type a b }
{
    a == b
}

fn is_same_bits(a: Bits, b: Bits) -> bool
    ensures { result ≡ same_bits a b }
{
    a == b
}

fn of_bits(signed: bool, bits: Bits) -> LaneType
    ensures { result ≡ typed_as signed bits }
{
    LaneType { signed, bits }
}

fn doubled(bits: Bits) -> Bits
    ensures { result ≡ doubled bits }
{
    match bits {
        Bits::Eight => Bits::Sixteen,
        _ => Bits::ThirtyTwo,
    }
}

fn halved(bits: Bits) -> Bits
    ensures { result ≡ halved bits }
{
    match bits {
        Bits::ThirtyTwo => Bits::Sixteen,
        _ => Bits::Eight,
    }
}
