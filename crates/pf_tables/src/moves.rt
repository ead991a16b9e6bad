ghost use Rattle.std.specs.Prelude.{◌≡◌, ◌∷◌, [], length};
ghost use Rattle.pf_tables.specs.Meaning.Effects.{pair_of, moved, elements, lower, upper, turns, half_count};
ghost use Rattle.pf_tables.specs.Steps.Kinds.{FitsPair};

use crate::made::{size, write_lanes};
use crate::row::Row;
use crate::set::Rows;
use pf_ints::LaneType;
use pf_lanes::{Operands, Place, Recipe, View, Work, bytes_of};
use pf_values::Op;

// The elements that the constant register stands for, or None where it stands for none.
fn elements(k: u32) -> Option<LaneType>
    ensures { result ≡ elements k }
{
    match k {
        0xffff_ffff => Some(LaneType::U8),
        0xffff_fffe => Some(LaneType::U16),
        0xffff_fffc => Some(LaneType::U32),
        _ => None,
    }
}

fn turns(run: u8, place: Place, ty: LaneType) -> Recipe
    ensures { result ≡ turns run place ty }
{
    let view = View { ty, place };
    Recipe {
        operands: Operands::InTurn(run, view, view),
        work: Work::Operator(Op::Cast),
        to: ty,
    }
}

fn half_count<R: Rows>(ty: LaneType) -> u8
    ensures { result ≡ half_count R.set.vector ty }
{
    (size::<R>() / 2 / bytes_of(ty)) as u8
}

// How the lower vector of two is made of elements of both.
fn lower<R: Rows>(separated: bool, ty: LaneType) -> Recipe
    ensures { result ≡ lower R.set.vector separated ty }
{
    if separated {
        turns(half_count::<R>(ty), Place::Even, ty)
    } else {
        turns(1, Place::Same, ty)
    }
}

// How the upper vector of two is made of elements of both.
fn upper<R: Rows>(separated: bool, ty: LaneType) -> Recipe
    ensures { result ≡ upper R.set.vector separated ty }
{
    if separated {
        turns(half_count::<R>(ty), Place::Odd, ty)
    } else {
        turns(1, Place::From(half_count::<R>(ty)), ty)
    }
}

/// The two vectors that a row makes of two.
pub fn write_pair<R: Rows>(row: Row, a: &[u8], b: &[u8], low: &mut [u8], high: &mut [u8])
    requires fits { FitsPair R.set.vector row }
    requires first { length a.now ≡ R.set.vector }
    requires second { length b.now ≡ R.set.vector }
    requires room { length low.old ≡ R.set.vector }
    requires more { length high.old ≡ R.set.vector }
    ensures { (low.new ∷ high.new ∷ []) ≡ pair_of R.set.vector row a.now b.now }
{
    write_lanes(row.recipe, row.amount, a, b, b, low);
    write_lanes(row.high, row.amount, a, b, b, high);
}

/// Two vectors with their elements moved.
pub fn write_moved<R: Rows>(
    separated: bool,
    k: u32,
    a: &[u8],
    b: &[u8],
    low: &mut [u8],
    high: &mut [u8],
)
    requires first { length a.now ≡ R.set.vector }
    requires second { length b.now ≡ R.set.vector }
    requires room { length low.old ≡ R.set.vector }
    requires more { length high.old ≡ R.set.vector }
    ensures { (low.new ∷ high.new ∷ []) ≡ moved R.set.vector separated (elements k) a.now b.now }
{
    match elements(k) {
        Some(ty) => {
            write_lanes(lower::<R>(separated, ty), 0, a, b, b, low);
            write_lanes(upper::<R>(separated, ty), 0, a, b, b, high);
        }
        None => {
            low.copy_from_slice(a);
            high.copy_from_slice(b);
        }
    }
}
