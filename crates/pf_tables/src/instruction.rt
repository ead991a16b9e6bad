ghost use Rattle.std.specs.Prelude.{◌≡◌, ◌<◌, ◌↔◌, IsTrue};
ghost use Rattle.pf_machine.specs.Meaning.Tables.{IsOver};
ghost use Rattle.pf_tables.specs.Meaning.Instructions.{IsListed, place_of, shape_of, has_numbers, is_amount, is_pair};
ghost use Rattle.pf_tables.specs.Meaning.Tables.{table_of};

use crate::operands::{Ends, Sources};
use crate::row::{Shape, place};
use crate::set::Rows;
use pf_lanes::{Double, Transfer, Triple};

/// Vector instructions, by the shape of their operands. Vectors are named by numbers, and a number
/// in front of the operands is the place of the instruction's row in the table.
#[derive(Clone, Copy)]
pub enum Instruction {
    Load(Transfer),
    Store(Transfer),
    Copy(Double),
    /// Sets the constant register.
    Constant(u32),
    /// Sets the upper 16 bits of the constant register.
    ConstantHigh(u32),
    /// A vector made of the constant register.
    FromConstant(usize, u32),
    /// What the row makes of a vector.
    Unary(usize, Double),
    /// What the row makes of two vectors.
    Binary(usize, Triple),
    /// What the row makes of the vector that it changes, and two more.
    Accumulate(usize, Triple),
    /// A vector's lanes, shifted by a number of bits.
    Shift(usize, Double, u8),
    /// A vector's lanes, shifted by the constant register.
    ByConstant(usize, Double),
    /// The lanes of the right vector and then of the left one, shifted by the constant register.
    JoinedByConstant(usize, Triple),
    /// What the row makes of a vector, as the upper half of the vector that it changes.
    Upper(usize, Double),
    UpperShift(usize, Double, u8),
    /// The right one's bytes where those of a fourth vector have their top bits, else the left one's.
    Blend(usize, Triple, u32),
    /// The left one's bytes where the predicate is true, else the right one's.
    Choose(usize, Triple),
    /// Sets the predicate by two vectors.
    Compare(usize, Sources),
    /// A pair made of two vectors, or of one.
    Pair(usize, Ends, Sources),
    PairUnary(usize, Ends, u32),
    /// A pair of the elements of two vectors, moved by the constant register.
    Move(usize, Ends, Sources),
}

fn is_amount<R: Rows>(place: usize, by: u8) -> bool
    requires { place < R.set.places }
    ensures { result ≡ is_amount R.set place by }
{
    let row = R::row(place);
    row.least <= by && by <= row.most
}

fn is_pair<R: Rows>(to: Ends) -> bool
    ensures { result ≡ is_pair R.set to }
{
    R::style().packets && to.low == 30 && to.high == 31
}

impl Instruction {
    /// The place of its row in the table.
    pub fn place<R: Rows>(self) -> usize
        ensures { result ≡ place_of R.set self }
    {
        match self {
            Instruction::Load(_) => place::LOAD,
            Instruction::Store(_) => place::STORE,
            Instruction::Copy(_) => place::COPY,
            Instruction::Constant(_) => match R::style().constant {
                Some(_) => place::SET_NUMBER,
                None => place::CONSTANT,
            },
            Instruction::ConstantHigh(_) => place::CONSTANT_HIGH,
            Instruction::FromConstant(place, _)
            | Instruction::Unary(place, _)
            | Instruction::Binary(place, _)
            | Instruction::Accumulate(place, _)
            | Instruction::Shift(place, _, _)
            | Instruction::ByConstant(place, _)
            | Instruction::JoinedByConstant(place, _)
            | Instruction::Upper(place, _)
            | Instruction::UpperShift(place, _, _)
            | Instruction::Blend(place, _, _)
            | Instruction::Choose(place, _)
            | Instruction::Compare(place, _)
            | Instruction::Pair(place, _, _)
            | Instruction::PairUnary(place, _, _)
            | Instruction::Move(place, _, _) => place,
        }
    }

    /// The shape of its operands.
    pub fn shape<R: Rows>(self) -> Shape
        ensures { result ≡ shape_of R.set self }
    {
        match self {
            Instruction::Load(_) => Shape::Load,
            Instruction::Store(_) => Shape::Store,
            Instruction::Copy(_) => Shape::Copy,
            Instruction::Constant(_) => match R::style().constant {
                Some(_) => Shape::SetNumber,
                None => Shape::Constant,
            },
            Instruction::ConstantHigh(_) => Shape::ConstantHigh,
            Instruction::FromConstant(_, _) => Shape::FromConstant,
            Instruction::Unary(_, _) => Shape::Unary,
            Instruction::Binary(_, _) => Shape::Binary,
            Instruction::Accumulate(_, _) => Shape::Accumulate,
            Instruction::Shift(_, _, _) => Shape::Shift,
            Instruction::ByConstant(_, _) => Shape::ByConstant,
            Instruction::JoinedByConstant(_, _) => Shape::JoinedByConstant,
            Instruction::Upper(_, _) => Shape::Upper,
            Instruction::UpperShift(_, _, _) => Shape::UpperShift,
            Instruction::Blend(_, _, _) => Shape::Blend,
            Instruction::Choose(_, _) => Shape::Choose,
            Instruction::Compare(_, _) => Shape::Compare,
            Instruction::Pair(_, _, _) => Shape::Pair,
            Instruction::PairUnary(_, _, _) => Shape::PairUnary,
            Instruction::Move(_, _, _) => Shape::Move,
        }
    }

    fn has_numbers<R: Rows>(self) -> bool
        requires { place_of R.set self < R.set.places }
        ensures { result ≡ has_numbers R.set self }
    {
        match self {
            Instruction::Load(r) | Instruction::Store(r) => r.base < 8 && r.j < 8,
            Instruction::Constant(n) => match R::style().constant {
                Some(_) => true,
                None => n < 65536,
            },
            Instruction::ConstantHigh(n) => n < 65536,
            Instruction::Shift(place, _, by) | Instruction::UpperShift(place, _, by) => {
                is_amount::<R>(place, by)
            }
            Instruction::Pair(_, to, _)
            | Instruction::PairUnary(_, to, _)
            | Instruction::Move(_, to, _) => is_pair::<R>(to),
            _ => true,
        }
    }

    /// Whether it is an instruction of the table: there is a row at its place, of its shape, and
    /// its numbers are such as the table has.
    pub fn is_listed<R: Rows>(self) -> bool
        ensures { IsTrue result ↔ IsListed R.set self }
    {
        let place = self.place::<R>();
        place < R::places() && R::row(place).shape == self.shape::<R>() && self.has_numbers::<R>()
    }

    /// Whether it names the machine's vectors alone.
    pub fn is_over<R: Rows>(self) -> bool
        ensures { IsTrue result ↔ IsOver (table_of R.set) self }
    {
        let end = R::vectors();
        match self {
            Instruction::Load(r) | Instruction::Store(r) => r.vector < end,
            Instruction::Constant(_) | Instruction::ConstantHigh(_) => true,
            Instruction::FromConstant(_, to) => to < end,
            Instruction::Copy(r)
            | Instruction::Unary(_, r)
            | Instruction::Shift(_, r, _)
            | Instruction::ByConstant(_, r)
            | Instruction::Upper(_, r)
            | Instruction::UpperShift(_, r, _) => r.to < end && r.from < end,
            Instruction::Binary(_, r)
            | Instruction::Accumulate(_, r)
            | Instruction::JoinedByConstant(_, r)
            | Instruction::Choose(_, r) => r.to < end && r.left < end && r.right < end,
            Instruction::Blend(_, r, mask) => {
                r.to < end && r.left < end && r.right < end && mask < end
            }
            Instruction::Compare(_, r) => r.left < end && r.right < end,
            Instruction::Pair(_, to, r) | Instruction::Move(_, to, r) => {
                to.low < end && to.high < end && r.left < end && r.right < end
            }
            Instruction::PairUnary(_, to, from) => to.low < end && to.high < end && from < end,
        }
    }
}
