ghost use Rattle.std.specs.Prelude.{◌≡◌, ◌<◌, ◌∷◌, [], true, All, length, slice_index_or};
ghost use Rattle.pf_machine.specs.Meaning.Bytes.{AreBytes};
ghost use Rattle.pf_machine.specs.Meaning.RegisterFiles.{reads, IsRegisterOf};
ghost use Rattle.pf_machine.specs.Meaning.Tables.{CanRun, after};
ghost use Rattle.pf_tables.specs.Meaning.Instructions.{IsListed, place_of, uses, defs};
ghost use Rattle.pf_tables.specs.Meaning.Tables.{table_of};
ghost use Rattle.pf_tables.specs.Meaning.Effects.{outcome};
ghost use Rattle.pf_tables.specs.Steps.Kinds.{is_plain, is_special, is_half, is_double, makes_vector, makes_pair, FitsPlain, FitsHalf, FitsPair};

use crate::instruction::Instruction;
use crate::made::{
    amount_in, by_amount, by_row, by_two, choose, of_constant, set_truths, size, write_upper,
};
use crate::moves::{write_moved, write_pair};
use crate::operands::{Ends, Sources};
use crate::row::Row;
use crate::set::Rows;
use pf_machine::{Reg, RegFile};

// The bytes of a vector.
fn content<R: Rows>(regs: &RegFile, n: u32) -> &[u8]
    requires within { n < length regs.now.vectors }
    requires sized { All (λ v. AreBytes R.set.vector v) regs.now.vectors }
    ensures value { result.now ≡ slice_index_or regs.now.vectors n [] }
    ensures size { length result.now ≡ R.set.vector }
{
    regs.vectors.at(n as usize).as_slice()
}

// The row of an instruction that makes a vector.
fn plain_row<R: Rows>(instruction: Instruction) -> Row
    requires listed { IsListed R.set instruction }
    requires plain { is_plain instruction ≡ true }
    ensures value { result ≡ R.set.row (place_of R.set instruction) }
    ensures fits { FitsPlain R.set.vector result }
{
    R::row(instruction.place::<R>())
}

// The row of one that makes the upper half of a vector.
fn half_row<R: Rows>(instruction: Instruction) -> Row
    requires listed { IsListed R.set instruction }
    requires half { is_half instruction ≡ true }
    ensures value { result ≡ R.set.row (place_of R.set instruction) }
    ensures fits { FitsHalf R.set.vector result }
{
    R::row(instruction.place::<R>())
}

// The row of one that makes two vectors.
fn pair_row<R: Rows>(instruction: Instruction) -> Row
    requires listed { IsListed R.set instruction }
    requires two { is_double instruction ≡ true }
    ensures value { result ≡ R.set.row (place_of R.set instruction) }
    ensures fits { FitsPair R.set.vector result }
{
    R::row(instruction.place::<R>())
}

// The vector that an instruction makes by a shift, or of other registers than vectors.
fn write_shifted<R: Rows>(instruction: Instruction, regs: &RegFile, out: &mut [u8])
    requires listed { IsListed R.set instruction }
    requires there { All (λ r. IsRegisterOf (length regs.now.vectors) r) (uses instruction) }
    requires sized { All (λ v. AreBytes R.set.vector v) regs.now.vectors }
    requires predicate { length regs.now.q ≡ R.set.vector }
    requires plain { is_special instruction ≡ true }
    requires room { length out.old ≡ R.set.vector }
    ensures { (out.new ∷ []) ≡ outcome R.set instruction (reads regs.now (uses instruction)) }
{
    let row = plain_row::<R>(instruction);
    match instruction {
        Instruction::FromConstant(_, _) => of_constant::<R>(row, regs.k, out),
        Instruction::Shift(_, r, by) => {
            let a = content::<R>(regs, r.from);
            by_amount::<R>(row, by, a, a, a, out);
        }
        Instruction::ByConstant(_, r) => {
            let a = content::<R>(regs, r.from);
            by_amount::<R>(row, amount_in(row, regs.k), a, a, a, out);
        }
        Instruction::JoinedByConstant(_, r) => {
            let (left, right) = (content::<R>(regs, r.left), content::<R>(regs, r.right));
            by_amount::<R>(row, amount_in(row, regs.k), right, left, left, out);
        }
        Instruction::Choose(_, r) => {
            let (left, right) = (content::<R>(regs, r.left), content::<R>(regs, r.right));
            choose::<R>(row, &regs.q, left, right, out);
        }
        _ => unreachable!(),
    }
}

// The vector that an instruction makes of vectors alone, by its row's amount.
fn write_plain<R: Rows>(instruction: Instruction, regs: &RegFile, out: &mut [u8])
    requires listed { IsListed R.set instruction }
    requires there { All (λ r. IsRegisterOf (length regs.now.vectors) r) (uses instruction) }
    requires sized { All (λ v. AreBytes R.set.vector v) regs.now.vectors }
    requires predicate { length regs.now.q ≡ R.set.vector }
    requires plain { is_plain instruction ≡ true }
    requires one { makes_vector instruction ≡ true }
    requires room { length out.old ≡ R.set.vector }
    ensures { (out.new ∷ []) ≡ outcome R.set instruction (reads regs.now (uses instruction)) }
{
    let row = plain_row::<R>(instruction);
    match instruction {
        Instruction::Unary(_, r) => {
            let a = content::<R>(regs, r.from);
            by_row::<R>(row, a, a, a, out);
        }
        Instruction::Binary(_, r) => {
            let (left, right) = (content::<R>(regs, r.left), content::<R>(regs, r.right));
            by_two::<R>(row, left, right, out);
        }
        Instruction::Accumulate(_, r) => {
            let (left, right) = (content::<R>(regs, r.left), content::<R>(regs, r.right));
            by_row::<R>(row, content::<R>(regs, r.to), left, right, out);
        }
        Instruction::Blend(_, r, mask) => {
            let (left, right) = (content::<R>(regs, r.left), content::<R>(regs, r.right));
            by_row::<R>(row, content::<R>(regs, mask), right, left, out);
        }
        _ => write_shifted::<R>(instruction, regs, out),
    }
}

// The vector that an instruction makes.
fn write_vector<R: Rows>(instruction: Instruction, regs: &RegFile, out: &mut [u8])
    requires listed { IsListed R.set instruction }
    requires there { All (λ r. IsRegisterOf (length regs.now.vectors) r) (uses instruction) }
    requires sized { All (λ v. AreBytes R.set.vector v) regs.now.vectors }
    requires predicate { length regs.now.q ≡ R.set.vector }
    requires one { makes_vector instruction ≡ true }
    requires room { length out.old ≡ R.set.vector }
    ensures { (out.new ∷ []) ≡ outcome R.set instruction (reads regs.now (uses instruction)) }
{
    match instruction {
        Instruction::Copy(r) => out.copy_from_slice(content::<R>(regs, r.from)),
        Instruction::Upper(_, r) => {
            let row = half_row::<R>(instruction);
            let (kept, a) = (content::<R>(regs, r.to), content::<R>(regs, r.from));
            write_upper::<R>(row, row.amount, kept, a, out);
        }
        Instruction::UpperShift(_, r, by) => {
            let row = half_row::<R>(instruction);
            let (kept, a) = (content::<R>(regs, r.to), content::<R>(regs, r.from));
            write_upper::<R>(row, by, kept, a, out);
        }
        _ => write_plain::<R>(instruction, regs, out),
    }
}

fn destination(instruction: Instruction) -> u32
    requires { makes_vector instruction ≡ true }
    ensures { (Reg.V result ∷ []) ≡ defs instruction }
{
    match instruction {
        Instruction::FromConstant(_, to) => to,
        Instruction::Copy(r)
        | Instruction::Unary(_, r)
        | Instruction::Shift(_, r, _)
        | Instruction::ByConstant(_, r)
        | Instruction::Upper(_, r)
        | Instruction::UpperShift(_, r, _) => r.to,
        Instruction::Binary(_, r)
        | Instruction::Accumulate(_, r)
        | Instruction::JoinedByConstant(_, r)
        | Instruction::Blend(_, r, _)
        | Instruction::Choose(_, r) => r.to,
        _ => unreachable!(),
    }
}

fn put_vector<R: Rows>(instruction: Instruction, regs: &mut RegFile)
    requires listed { IsListed R.set instruction }
    requires runs { CanRun (table_of R.set) instruction regs.old }
    requires one { makes_vector instruction ≡ true }
    ensures { regs.new ≡ after (table_of R.set) instruction regs.old }
{
    let mut buffer = [0; 128];
    let out = &mut buffer[..size::<R>()];
    write_vector::<R>(instruction, regs, out);
    regs.vectors
        .overwrite_item(destination(instruction) as usize, out);
}

fn compare<R: Rows>(place: usize, r: Sources, regs: &mut RegFile)
    requires listed { IsListed R.set (Instruction.Compare place r) }
    requires runs { CanRun (table_of R.set) (Instruction.Compare place r) regs.old }
    ensures { regs.new ≡ after (table_of R.set) (Instruction.Compare place r) regs.old }
{
    let row = plain_row::<R>(Instruction::Compare(place, r));
    let mut buffer = [0; 128];
    let out = &mut buffer[..size::<R>()];
    let (left, right) = (content::<R>(regs, r.left), content::<R>(regs, r.right));
    by_two::<R>(row, left, right, out);
    set_truths(&mut regs.q, out);
}

// The two vectors that an instruction makes.
fn write_vectors<R: Rows>(i: Instruction, regs: &RegFile, low: &mut [u8], high: &mut [u8])
    requires listed { IsListed R.set i }
    requires there { All (λ r. IsRegisterOf (length regs.now.vectors) r) (uses i) }
    requires sized { All (λ v. AreBytes R.set.vector v) regs.now.vectors }
    requires two { makes_pair i ≡ true }
    requires room { length low.old ≡ R.set.vector }
    requires more { length high.old ≡ R.set.vector }
    ensures value { (low.new ∷ high.new ∷ []) ≡ outcome R.set i (reads regs.now (uses i)) }
    ensures first { length low.new ≡ R.set.vector }
    ensures second { length high.new ≡ R.set.vector }
{
    match i {
        Instruction::Pair(_, _, r) => {
            let (left, right) = (content::<R>(regs, r.left), content::<R>(regs, r.right));
            write_pair::<R>(pair_row::<R>(i), left, right, low, high);
        }
        Instruction::PairUnary(_, _, from) => {
            let a = content::<R>(regs, from);
            write_pair::<R>(pair_row::<R>(i), a, a, low, high);
        }
        Instruction::Move(place, _, r) => {
            let (left, right) = (content::<R>(regs, r.left), content::<R>(regs, r.right));
            write_moved::<R>(R::row(place).swapped, regs.k, right, left, low, high);
        }
        _ => unreachable!(),
    }
}

fn ends(instruction: Instruction) -> Ends
    requires { makes_pair instruction ≡ true }
    ensures { (Reg.V result.low ∷ Reg.V result.high ∷ []) ≡ defs instruction }
{
    match instruction {
        Instruction::Pair(_, to, _)
        | Instruction::PairUnary(_, to, _)
        | Instruction::Move(_, to, _) => to,
        _ => unreachable!(),
    }
}

fn put_pair<R: Rows>(instruction: Instruction, regs: &mut RegFile)
    requires listed { IsListed R.set instruction }
    requires runs { CanRun (table_of R.set) instruction regs.old }
    requires two { makes_pair instruction ≡ true }
    ensures { regs.new ≡ after (table_of R.set) instruction regs.old }
{
    let (mut first, mut second) = ([0; 128], [0; 128]);
    let low = &mut first[..size::<R>()];
    let high = &mut second[..size::<R>()];
    write_vectors::<R>(instruction, regs, low, high);
    let to = ends(instruction);
    regs.vectors.overwrite_item(to.low as usize, low);
    regs.vectors.overwrite_item(to.high as usize, high);
}

/// Changes the registers as the instruction does.
pub fn effect_of<R: Rows>(instruction: Instruction, regs: &mut RegFile)
    requires listed { IsListed R.set instruction }
    requires runs { CanRun (table_of R.set) instruction regs.old }
    ensures { regs.new ≡ after (table_of R.set) instruction regs.old }
{
    match instruction {
        Instruction::Load(_) | Instruction::Store(_) => unreachable!(),
        Instruction::Constant(n) => regs.k = n,
        Instruction::ConstantHigh(n) => regs.k = n * 65536 + regs.k % 65536,
        Instruction::Compare(place, r) => compare::<R>(place, r, regs),
        Instruction::Pair(_, _, _) | Instruction::PairUnary(_, _, _) | Instruction::Move(_, _, _) =>
            put_pair::<R>(instruction, regs),
        _ => put_vector::<R>(instruction, regs),
    }
}
