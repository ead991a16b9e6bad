ghost use Rattle.std.specs.Prelude.{◌≡◌, ◌∷◌, [], ◌<◌};
ghost use Rattle.pf_tables.specs.Meaning.Sets.{is_fixed};
ghost use Rattle.pf_tables.specs.Meaning.Instructions.{IsListed, uses, defs, access, cost, renamed, ends_renamed};

use crate::instruction::Instruction;
use crate::operands::Ends;
use crate::set::Rows;
use pf_lanes::{Transfer, renamed_vector};
use pf_machine::{Access, Reg, RegList};

fn two(left: u32, right: u32) -> RegList
    ensures { result ≡ Reg.V left ∷ Reg.V right ∷ [] }
{
    RegList::new().with(Reg::V(left)).with(Reg::V(right))
}

/// The registers that the instruction reads.
pub fn uses_of(instruction: Instruction) -> RegList
    ensures { result ≡ uses instruction }
{
    let none = RegList::new();
    match instruction {
        Instruction::Load(_) | Instruction::Constant(_) => none,
        Instruction::Store(r) => none.with(Reg::V(r.vector)),
        Instruction::ConstantHigh(_) | Instruction::FromConstant(_, _) => none.with(Reg::K),
        Instruction::Copy(r) | Instruction::Unary(_, r) | Instruction::Shift(_, r, _) => {
            none.with(Reg::V(r.from))
        }
        Instruction::Binary(_, r) => two(r.left, r.right),
        Instruction::Accumulate(_, r) => two(r.to, r.left).with(Reg::V(r.right)),
        Instruction::ByConstant(_, r) => none.with(Reg::V(r.from)).with(Reg::K),
        Instruction::JoinedByConstant(_, r) => two(r.left, r.right).with(Reg::K),
        Instruction::Upper(_, r) | Instruction::UpperShift(_, r, _) => two(r.to, r.from),
        Instruction::Blend(_, r, mask) => two(r.left, r.right).with(Reg::V(mask)),
        Instruction::Choose(_, r) => two(r.left, r.right).with(Reg::Q),
        Instruction::Compare(_, r) | Instruction::Pair(_, _, r) => two(r.left, r.right),
        Instruction::PairUnary(_, _, from) => none.with(Reg::V(from)),
        Instruction::Move(_, _, r) => two(r.left, r.right).with(Reg::K),
    }
}

/// The registers that the instruction changes.
pub fn defs_of(instruction: Instruction) -> RegList
    ensures { result ≡ defs instruction }
{
    let none = RegList::new();
    match instruction {
        Instruction::Store(_) => none,
        Instruction::Load(r) => none.with(Reg::V(r.vector)),
        Instruction::Constant(_) | Instruction::ConstantHigh(_) => none.with(Reg::K),
        Instruction::FromConstant(_, to) => none.with(Reg::V(to)),
        Instruction::Copy(r)
        | Instruction::Unary(_, r)
        | Instruction::Shift(_, r, _)
        | Instruction::ByConstant(_, r)
        | Instruction::Upper(_, r)
        | Instruction::UpperShift(_, r, _) => none.with(Reg::V(r.to)),
        Instruction::Binary(_, r)
        | Instruction::Accumulate(_, r)
        | Instruction::JoinedByConstant(_, r)
        | Instruction::Blend(_, r, _)
        | Instruction::Choose(_, r) => none.with(Reg::V(r.to)),
        Instruction::Compare(_, _) => none.with(Reg::Q),
        Instruction::Pair(_, to, _)
        | Instruction::PairUnary(_, to, _)
        | Instruction::Move(_, to, _) => two(to.low, to.high),
    }
}

/// The load or store that the instruction is.
pub fn access_of<R: Rows>(instruction: Instruction) -> Option<Access>
    requires { IsListed R.set instruction }
    ensures { result ≡ access R.set instruction }
{
    let (load, r) = match instruction {
        Instruction::Load(r) => (true, r),
        Instruction::Store(r) => (false, r),
        _ => return None,
    };
    let Transfer { vector, base, j } = r;
    let offset = u32::from(j) * R::vector() as u32;
    Some(Access {
        load,
        vector,
        base,
        offset,
    })
}

/// What the instruction costs.
pub fn cost_of<R: Rows>(instruction: Instruction) -> u32
    requires { IsListed R.set instruction }
    ensures { result ≡ cost R.set instruction }
{
    u32::from(R::row(instruction.place::<R>()).cost)
}

/// Whether the name stands for one vector of the machine for good.
pub fn is_fixed<R: Rows>(name: u32) -> bool
    ensures { result ≡ is_fixed R.set name }
{
    R::style().packets && (name == 30 || name == 31)
}

fn ends_renamed<R: Rows>(to: Ends, old: u32, new: u32) -> Ends
    ensures { result ≡ ends_renamed R.set old new to }
{
    if is_fixed::<R>(old) {
        to
    } else {
        to.renamed(old, new)
    }
}

impl Instruction {
    /// With the vector `new` in place of `old`. A pair of fixed names stays.
    pub fn renamed<R: Rows>(self, old: u32, new: u32) -> Instruction
        ensures { result ≡ renamed R.set self old new }
    {
        match self {
            Self::Load(r) => Self::Load(r.renamed(old, new)),
            Self::Store(r) => Self::Store(r.renamed(old, new)),
            Self::Copy(r) => Self::Copy(r.renamed(old, new)),
            Self::Constant(n) => Self::Constant(n),
            Self::ConstantHigh(n) => Self::ConstantHigh(n),
            Self::FromConstant(place, n) => Self::FromConstant(place, renamed_vector(n, old, new)),
            Self::Unary(place, r) => Self::Unary(place, r.renamed(old, new)),
            Self::Binary(place, r) => Self::Binary(place, r.renamed(old, new)),
            Self::Accumulate(place, r) => Self::Accumulate(place, r.renamed(old, new)),
            Self::Shift(place, r, by) => Self::Shift(place, r.renamed(old, new), by),
            Self::ByConstant(place, r) => Self::ByConstant(place, r.renamed(old, new)),
            Self::JoinedByConstant(place, r) => Self::JoinedByConstant(place, r.renamed(old, new)),
            Self::Upper(place, r) => Self::Upper(place, r.renamed(old, new)),
            Self::UpperShift(place, r, by) => Self::UpperShift(place, r.renamed(old, new), by),
            Self::Blend(place, r, n) => {
                Self::Blend(place, r.renamed(old, new), renamed_vector(n, old, new))
            }
            Self::Choose(place, r) => Self::Choose(place, r.renamed(old, new)),
            Self::Compare(place, r) => Self::Compare(place, r.renamed(old, new)),
            Self::Pair(place, to, r) => {
                Self::Pair(place, ends_renamed::<R>(to, old, new), r.renamed(old, new))
            }
            Self::PairUnary(place, to, n) => {
                Self::PairUnary(
                    place,
                    ends_renamed::<R>(to, old, new),
                    renamed_vector(n, old, new),
                )
            }
            Self::Move(place, to, r) => {
                Self::Move(place, ends_renamed::<R>(to, old, new), r.renamed(old, new))
            }
        }
    }
}
