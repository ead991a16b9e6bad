ghost use Rattle.std.specs.Prelude.{◌≡◌, ◌≤◌, ◌<◌, ◌%◌, ◌/◌, ◌++◌, true, length, map, nat_lt, replicate, if◌then◌else◌};
ghost use Rattle.pf_lanes.specs.Meaning.Lanes.{bytes_of};
ghost use Rattle.pf_lanes.specs.Meaning.Recipes.{have_room};
ghost use Rattle.pf_tables.specs.Meaning.Effects.{lanes_of, upper_of, spread, made_by, made_by_two, amount_in};
ghost use Rattle.pf_tables.specs.Steps.Kinds.{FitsPlain, FitsHalf};

use crate::row::{Extent, Row};
use crate::set::Rows;
use pf_ints::Sequence;
use pf_lanes::{Recipe, bytes_of, compute};

/// Bytes of a vector.
pub fn size<R: Rows>() -> usize
    ensures value { result ≡ R.set.vector }
    ensures some { 16 ≤ result }
    ensures few { result ≤ 128 }
    ensures whole { result % 8 ≡ 0 }
{
    R::vector()
}

/// The lanes that a recipe makes, over all of `out`.
pub fn write_lanes(recipe: Recipe, amount: u8, a: &[u8], b: &[u8], c: &[u8], out: &mut [u8])
    requires small { amount < 64 }
    requires whole { length out.old % 4 ≡ 0 }
    requires room { have_room recipe.operands (length a.now) (length b.now) (length c.now) (length out.old / bytes_of recipe.to) ≡ true }
    ensures { out.new ≡ lanes_of (length out.old) recipe amount a.now b.now c.now }
{
    let count = out.len() / bytes_of(recipe.to);
    compute(recipe, amount, a, b, c, count, out);
}

// The same over the lower half, and zeros above.
fn write_lower(recipe: Recipe, amount: u8, a: &[u8], b: &[u8], c: &[u8], out: &mut [u8])
    requires small { amount < 64 }
    requires whole { length out.old % 8 ≡ 0 }
    requires room { have_room recipe.operands (length a.now) (length b.now) (length c.now) (length out.old / 2 / bytes_of recipe.to) ≡ true }
    ensures { out.new ≡ lanes_of (length out.old / 2) recipe amount a.now b.now c.now ++ replicate (length out.old / 2) 0 }
{
    let half = out.len() / 2;
    let (low, high) = out.split_at_mut(half);
    write_lanes(recipe, amount, a, b, c, low);
    high.fill(0);
}

/// What a row makes of three vectors by an amount.
pub fn by_amount<R: Rows>(row: Row, amount: u8, a: &[u8], b: &[u8], c: &[u8], out: &mut [u8])
    requires fits { FitsPlain R.set.vector row }
    requires small { amount < 64 }
    requires first { length a.now ≡ R.set.vector }
    requires second { length b.now ≡ R.set.vector }
    requires third { length c.now ≡ R.set.vector }
    requires room { length out.old ≡ R.set.vector }
    ensures { out.new ≡ made_by R.set.vector row amount a.now b.now c.now }
{
    match row.extent {
        Extent::Whole => write_lanes(row.recipe, amount, a, b, c, out),
        Extent::Lower => write_lower(row.recipe, amount, a, b, c, out),
    }
}

/// The same by the row's own amount.
pub fn by_row<R: Rows>(row: Row, a: &[u8], b: &[u8], c: &[u8], out: &mut [u8])
    requires fits { FitsPlain R.set.vector row }
    requires first { length a.now ≡ R.set.vector }
    requires second { length b.now ≡ R.set.vector }
    requires third { length c.now ≡ R.set.vector }
    requires room { length out.old ≡ R.set.vector }
    ensures { out.new ≡ made_by R.set.vector row row.amount a.now b.now c.now }
{
    by_amount::<R>(row, row.amount, a, b, c, out);
}

/// The same of two vectors, in the order of the row.
pub fn by_two<R: Rows>(row: Row, a: &[u8], b: &[u8], out: &mut [u8])
    requires fits { FitsPlain R.set.vector row }
    requires first { length a.now ≡ R.set.vector }
    requires second { length b.now ≡ R.set.vector }
    requires room { length out.old ≡ R.set.vector }
    ensures { out.new ≡ made_by_two R.set.vector row a.now b.now }
{
    if row.swapped {
        by_row::<R>(row, b, a, a, out);
    } else {
        by_row::<R>(row, a, b, b, out);
    }
}

/// The upper half of a vector that keeps its lower half.
pub fn write_upper<R: Rows>(row: Row, amount: u8, kept: &[u8], a: &[u8], out: &mut [u8])
    requires fits { FitsHalf R.set.vector row }
    requires small { amount < 64 }
    requires first { length kept.now ≡ R.set.vector }
    requires second { length a.now ≡ R.set.vector }
    requires room { length out.old ≡ R.set.vector }
    ensures { out.new ≡ upper_of R.set.vector row.recipe amount kept.now a.now }
{
    let half = out.len() / 2;
    let (low, high) = out.split_at_mut(half);
    low.copy_from_slice(&kept[..half]);
    write_lanes(row.recipe, amount, a, a, a, high);
}

// The constant register as a vector.
fn write_constant<R: Rows>(n: u32, out: &mut [u8])
    requires { length out.old ≡ R.set.vector }
    ensures { out.new ≡ spread R.set.vector n }
{
    let (low, high) = out.split_at_mut(4);
    low[0] = (n % 256) as u8;
    low[1] = (n / 256 % 256) as u8;
    low[2] = (n / 256 / 256 % 256) as u8;
    low[3] = (n / 256 / 256 / 256 % 256) as u8;
    high.fill(0);
}

/// What a row makes of the constant register as a vector.
pub fn of_constant<R: Rows>(row: Row, n: u32, out: &mut [u8])
    requires fits { FitsPlain R.set.vector row }
    requires room { length out.old ≡ R.set.vector }
    ensures { out.new ≡ made_by R.set.vector row row.amount (spread R.set.vector n) (spread R.set.vector n) (spread R.set.vector n) }
{
    let mut buffer = [0; 128];
    let constant = &mut buffer[..size::<R>()];
    write_constant::<R>(n, constant);
    by_row::<R>(row, constant, constant, constant, out);
}

// A 1 or a 0 for each truth value.
fn write_truths(truths: &Sequence<bool>, out: &mut [u8])
    requires { length truths.now ≡ length out.old }
    ensures { out.new ≡ map (λ b. if b then 1 else 0) truths.now }
{
    for n in 0..out.len() {
        out[n] = u8::from(truths.as_slice()[n]);
    }
}

/// Whether each byte isn't 0.
pub fn set_truths(truths: &mut Sequence<bool>, bytes: &[u8])
    requires { length truths.old ≡ length bytes.now }
    ensures { truths.new ≡ map (λ b. nat_lt 0 b) bytes.now }
{
    for n in 0..bytes.len() {
        truths.set(n, bytes[n] > 0);
    }
}

/// The amount of a shift that the constant register has.
pub fn amount_in(row: Row, n: u32) -> u8
    ensures value { result ≡ amount_in row n }
    ensures small { result < 64 }
{
    (n % u32::from(row.recipe.to.width())) as u8
}

/// What a row makes of the predicate and two vectors.
pub fn choose<R: Rows>(row: Row, truths: &Sequence<bool>, a: &[u8], b: &[u8], out: &mut [u8])
    requires fits { FitsPlain R.set.vector row }
    requires whole { length truths.now ≡ R.set.vector }
    requires first { length a.now ≡ R.set.vector }
    requires second { length b.now ≡ R.set.vector }
    requires room { length out.old ≡ R.set.vector }
    ensures { out.new ≡ made_by R.set.vector row row.amount (map (λ b. if b then 1 else 0) truths.now) a.now b.now }
{
    let mut buffer = [0; 128];
    let bytes = &mut buffer[..size::<R>()];
    write_truths(truths, bytes);
    by_row::<R>(row, bytes, a, b, out);
}
