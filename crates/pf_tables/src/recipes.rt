use crate::row::{Extent, Row, Shape};
use pf_lanes::Recipe;

/// What becomes of lanes, by its name: a work of its own, or an operator of terms.
#[macro_export]
macro_rules! work {
    (Negate) => { pf_lanes::Work::Negate };
    (Not) => { pf_lanes::Work::Not };
    (IsEqual) => { pf_lanes::Work::IsEqual };
    (IsGreater) => { pf_lanes::Work::IsGreater };
    (WhereNegative) => { pf_lanes::Work::WhereNegative };
    (WherePositive) => { pf_lanes::Work::WherePositive };
    (BitSelect) => { pf_lanes::Work::BitSelect };
    (MulAdd) => { pf_lanes::Work::MulAdd };
    (MulShift) => { pf_lanes::Work::MulShift };
    (MulRound) => { pf_lanes::Work::MulRound };
    (SaturateShift) => { pf_lanes::Work::SaturateShift };
    (SaturateRound) => { pf_lanes::Work::SaturateRound };
    ($op:ident) => { pf_lanes::Work::Operator(pf_values::Op::$op) };
}

/// Lanes of a type, at their places.
#[macro_export]
macro_rules! view {
    ($ty:ident, $place:expr) => {
        pf_lanes::View { ty: pf_ints::LaneType::$ty, place: $place }
    };
}

/// One lane for each lane of the result.
#[macro_export]
macro_rules! one {
    ($from:ident, $place:expr, $work:ident, $to:ident) => {
        pf_lanes::Recipe { operands: pf_lanes::Operands::One($crate::view!($from, $place)), work: $crate::work!($work), to: pf_ints::LaneType::$to }
    };
}

/// One lane of each of two vectors, of one type.
#[macro_export]
macro_rules! two {
    ($from:ident, $place:expr, $work:ident, $to:ident) => {
        $crate::mixed!($from, $from, $place, $work, $to)
    };
}

/// One lane of each of two vectors, of a type each.
#[macro_export]
macro_rules! mixed {
    ($left:ident, $right:ident, $place:expr, $work:ident, $to:ident) => {
        pf_lanes::Recipe {
            operands: pf_lanes::Operands::Two($crate::view!($left, $place), $crate::view!($right, $place)),
            work: $crate::work!($work),
            to: pf_ints::LaneType::$to,
        }
    };
}

/// The same lanes of two vectors, of the result's type.
#[macro_export]
macro_rules! same {
    ($work:ident, $ty:ident) => {
        $crate::two!($ty, pf_lanes::Place::Same, $work, $ty)
    };
}

/// The same lanes of three vectors, of a type each.
#[macro_export]
macro_rules! three {
    ($first:ident, $second:ident, $third:ident, $work:ident, $to:ident) => {
        pf_lanes::Recipe {
            operands: pf_lanes::Operands::Three(
                $crate::view!($first, pf_lanes::Place::Same),
                $crate::view!($second, pf_lanes::Place::Same),
                $crate::view!($third, pf_lanes::Place::Same),
            ),
            work: $crate::work!($work),
            to: pf_ints::LaneType::$to,
        }
    };
}

/// So many lanes of the first and of the second vector in turn.
#[macro_export]
macro_rules! in_turn {
    ($run:literal, $from:ident, $first:expr, $second:expr, $work:ident, $to:ident) => {
        pf_lanes::Recipe {
            operands: pf_lanes::Operands::InTurn($run, $crate::view!($from, $first), $crate::view!($from, $second)),
            work: $crate::work!($work),
            to: pf_ints::LaneType::$to,
        }
    };
}

/// Stands where no lanes are made.
pub const COPIED: Recipe = one!(U8, pf_lanes::Place::Same, Cast, U8);

/// A row that isn't there.
pub const NONE: Row = Row {
    shape: Shape::Absent,
    recipe: COPIED,
    high: COPIED,
    extent: Extent::Whole,
    swapped: false,
    amount: 0,
    least: 0,
    most: 0,
    cost: 0,
};
