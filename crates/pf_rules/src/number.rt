ghost use Rattle.std.specs.Prelude.{◌≡◌};

use pf_ints::{Duplicate, Sequence};
use std::alloc::{AllocError, Global};

/// What a part of a linear amount is a multiple of.
#[derive(Clone, Copy, PartialEq, Eq)]
pub enum LinOf {
    /// 1.
    One,
    /// The width.
    W,
    /// The shift.
    K,
}

/// A part of a linear amount: `times` of 1, of the width or of the shift, taken away where
/// `minus`.
#[derive(Clone, Copy, PartialEq, Eq)]
pub struct LinPart {
    pub minus: bool,
    pub times: i64,
    pub of: LinOf,
}

/// The parts of a linear amount, from the left.
pub type LinParts = Sequence<LinPart>;

/// A number that depends on the width w and the shift k linearly: an operator's amount, or an
/// exponent.
#[derive(Drop)]
pub enum Amount {
    Int(i64),
    W,
    K,
    /// The sum of the parts.
    Linear(LinParts),
}

/// An item of a sum.
#[derive(Drop)]
pub enum NumberItem {
    Int(i64),
    /// `times` times 2 to the power of the exponent.
    Power { times: i64, exponent: Amount },
    W,
    K,
}

/// An item, taken away where `minus`.
#[derive(Drop)]
pub struct NumberPart {
    pub minus: bool,
    pub item: NumberItem,
}

/// The parts of a number, from the left.
pub type NumberParts = Sequence<NumberPart>;

/// A number that depends on the width and the shift: the sum of its parts.
#[derive(Drop)]
pub struct Number {
    pub parts: NumberParts,
}

impl Duplicate for LinPart {
    fn copy(&self, _alloc: Global) -> Result<LinPart, AllocError> {
        Ok(*self)
    }
}

impl Duplicate for Amount {
    fn copy(&self, alloc: Global) -> Result<Amount, AllocError> {
        match self {
            Amount::Int(n) => Ok(Amount::Int(*n)),
            Amount::W => Ok(Amount::W),
            Amount::K => Ok(Amount::K),
            Amount::Linear(parts) => Ok(Amount::Linear(parts.copy(alloc)?)),
        }
    }
}

impl Duplicate for NumberItem {
    fn copy(&self, alloc: Global) -> Result<NumberItem, AllocError> {
        match self {
            NumberItem::Int(n) => Ok(NumberItem::Int(*n)),
            NumberItem::Power { times, exponent } => Ok(NumberItem::Power {
                times: *times,
                exponent: exponent.copy(alloc)?,
            }),
            NumberItem::W => Ok(NumberItem::W),
            NumberItem::K => Ok(NumberItem::K),
        }
    }
}

impl Duplicate for NumberPart {
    fn copy(&self, alloc: Global) -> Result<NumberPart, AllocError> {
        Ok(NumberPart {
            minus: self.minus,
            item: self.item.copy(alloc)?,
        })
    }
}

impl Duplicate for Number {
    fn copy(&self, alloc: Global) -> Result<Number, AllocError> {
        Ok(Number {
            parts: self.parts.copy(alloc)?,
        })
    }
}
