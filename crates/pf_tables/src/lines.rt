ghost use Rattle.std.specs.Prelude.{◌≡◌, ◌<◌, ◌≤◌, ◌+◌, ◌%◌, true, false, IfSome, length, slice_index};
ghost use Rattle.pf_tables.specs.Meaning.Instructions.{IsListed};
ghost use Rattle.pf_tables.specs.Meaning.Tables.{table_of};
ghost use Rattle.pf_tables.specs.Meaning.Lines.{lines, row_place, transfer_numbers, constant_numbers, numbers, also_constant, double, triple, sources, ends, transfer, stored, set_number, made_by_shape};
ghost use Rattle.pf_tables.specs.Steps.ControlShapes.{is_control};
ghost use Rattle.pf_tables.specs.Steps.LineLaws.{lines_are, texts_are};

use crate::controls::{
    control_numbers, control_place, general, is_control, made_control, number, role, units,
};
use crate::instruction::Instruction;
use crate::operands::{Ends, Sources};
use crate::row::{Shape, place};
use crate::set::Rows;
use pf_frames::{Lines, Numbers, Parts, Spelling, TableLine};
use pf_lanes::{Double, Transfer, Triple};
use pf_machine::Control;
use std::marker::PhantomData;

/// The lines of a set of instructions.
pub struct LinesOf<R> {
    set: PhantomData<R>,
}

type Line = TableLine<Instruction>;

// What one vector counts in an offset.
fn unit<R: Rows>() -> u32
    ensures value { result ≡ R.set.style.unit }
    ensures some { 1 ≤ result }
    ensures few { result ≤ 128 }
{
    R::style().unit
}

// The place, where the table has it, else the first.
fn row_place<R: Rows>(place: usize) -> usize
    ensures value { result ≡ row_place R.set place }
    ensures inside { result < R.set.places }
{
    if place < R::places() { place } else { 0 }
}

fn transfer_numbers<R: Rows>(last: bool, r: Transfer) -> Numbers
    ensures { result ≡ transfer_numbers R.set last r }
{
    let (base, offset) = (general::<R>(r.base), unit::<R>() * u32::from(r.j));
    if last {
        Numbers::new().with(base).with(offset).with(r.vector)
    } else {
        Numbers::new().with(r.vector).with(base).with(offset)
    }
}

fn constant_numbers<R: Rows>(n: u32) -> Numbers
    ensures { result ≡ constant_numbers R.set.style.constant n }
{
    match R::style().constant {
        Some(k) => Numbers::new().with(k).with(n),
        None => Numbers::new().with(n),
    }
}

fn numbers<R: Rows>(instruction: Instruction) -> Numbers
    ensures value { result ≡ numbers R.set instruction }
    ensures few { length result ≤ 4 }
{
    let none = Numbers::new();
    match instruction {
        Instruction::Load(r) => transfer_numbers::<R>(false, r),
        Instruction::Store(r) => transfer_numbers::<R>(R::style().stores_last, r),
        Instruction::Constant(n) => constant_numbers::<R>(n),
        Instruction::ConstantHigh(n) | Instruction::FromConstant(_, n) => none.with(n),
        Instruction::Copy(r)
        | Instruction::Unary(_, r)
        | Instruction::ByConstant(_, r)
        | Instruction::Upper(_, r) => none.with(r.to).with(r.from),
        Instruction::Shift(_, r, by) | Instruction::UpperShift(_, r, by) => {
            none.with(r.to).with(r.from).with(u32::from(by))
        }
        Instruction::Binary(_, r)
        | Instruction::Accumulate(_, r)
        | Instruction::JoinedByConstant(_, r)
        | Instruction::Choose(_, r) => none.with(r.to).with(r.left).with(r.right),
        Instruction::Blend(_, r, mask) => none.with(r.to).with(r.left).with(r.right).with(mask),
        Instruction::Compare(_, r) => none.with(r.left).with(r.right),
        Instruction::Pair(_, to, r) | Instruction::Move(_, to, r) => {
            none.with(to.high).with(to.low).with(r.left).with(r.right)
        }
        Instruction::PairUnary(_, to, from) => none.with(to.high).with(to.low).with(from),
    }
}

fn also_constant<R: Rows>(n: u32) -> Option<Spelling>
    ensures value { result ≡ also_constant R.set n }
    ensures inside { IfSome result (λ s. s.place < R.set.places) }
    ensures few { IfSome result (λ s. length s.numbers ≤ 4) }
{
    if R::style().packets && n > 4_294_967_291 {
        Some(Spelling {
            place: row_place::<R>(place::NEGATIVE_CONSTANT),
            numbers: Numbers::new().with(7).with(u32::MAX - n + 1),
        })
    } else {
        None
    }
}

fn low(numbers: &[u32], k: usize) -> u8
    ensures { result ≡ slice_index numbers.now k % 256 }
{
    (number(numbers, k) % 256) as u8
}

fn double(ns: &[u32]) -> Double
    ensures { result ≡ double ns.now }
{
    Double {
        to: number(ns, 0),
        from: number(ns, 1),
    }
}

fn triple(ns: &[u32]) -> Triple
    ensures { result ≡ triple ns.now }
{
    Triple {
        to: number(ns, 0),
        left: number(ns, 1),
        right: number(ns, 2),
    }
}

fn sources(ns: &[u32], k: usize) -> Sources
    requires { k ≤ 2 }
    ensures { result ≡ sources ns.now k }
{
    Sources {
        left: number(ns, k),
        right: number(ns, k + 1),
    }
}

fn ends(ns: &[u32]) -> Ends
    ensures { result ≡ ends ns.now }
{
    Ends {
        low: number(ns, 1),
        high: number(ns, 0),
    }
}

// The operand in memory begins at the number of this place.
fn transfer<R: Rows>(ns: &[u32], vector: usize, memory: usize) -> Transfer
    requires { memory ≤ 1 }
    ensures { result ≡ transfer R.set (slice_index ns.now vector) (slice_index ns.now memory) (slice_index ns.now (memory + 1)) }
{
    Transfer {
        vector: number(ns, vector),
        base: role::<R>(ns, memory),
        j: units(ns, memory + 1, unit::<R>()),
    }
}

fn stored<R: Rows>(ns: &[u32]) -> Transfer
    ensures { result ≡ stored R.set ns.now }
{
    if R::style().stores_last {
        transfer::<R>(ns, 2, 0)
    } else {
        transfer::<R>(ns, 0, 1)
    }
}

fn set_number<R: Rows>(ns: &[u32]) -> Line
    ensures { result ≡ set_number R.set ns.now }
{
    match R::style().constant {
        Some(k) if number(ns, 0) == k => Line::Vector(Instruction::Constant(number(ns, 1))),
        _ => {
            let n = (number(ns, 1) % 65536) as u16;
            let to = role::<R>(ns, 0);
            Line::Control(Control::Imm { to, n })
        }
    }
}

fn made_vector<R: Rows>(shape: Shape, place: usize, ns: &[u32]) -> Option<Line>
    requires { is_control shape ≡ false }
    ensures { result ≡ made_by_shape R.set shape place ns.now }
{
    Some(Line::Vector(match shape {
        Shape::Absent => return None,
        Shape::SetNumber => return Some(set_number::<R>(ns)),
        Shape::Load => Instruction::Load(transfer::<R>(ns, 0, 1)),
        Shape::Store => Instruction::Store(stored::<R>(ns)),
        Shape::Copy => Instruction::Copy(double(ns)),
        Shape::Constant => Instruction::Constant(number(ns, 0)),
        Shape::NegativeConstant => Instruction::Constant(0u32.wrapping_sub(number(ns, 1))),
        Shape::ConstantHigh => Instruction::ConstantHigh(number(ns, 0)),
        Shape::FromConstant => Instruction::FromConstant(place, number(ns, 0)),
        Shape::Unary => Instruction::Unary(place, double(ns)),
        Shape::Binary => Instruction::Binary(place, triple(ns)),
        Shape::Accumulate => Instruction::Accumulate(place, triple(ns)),
        Shape::Shift => Instruction::Shift(place, double(ns), low(ns, 2)),
        Shape::ByConstant => Instruction::ByConstant(place, double(ns)),
        Shape::JoinedByConstant => Instruction::JoinedByConstant(place, triple(ns)),
        Shape::Upper => Instruction::Upper(place, double(ns)),
        Shape::UpperShift => Instruction::UpperShift(place, double(ns), low(ns, 2)),
        Shape::Blend => Instruction::Blend(place, triple(ns), number(ns, 3)),
        Shape::Choose => Instruction::Choose(place, triple(ns)),
        Shape::Compare => Instruction::Compare(place, sources(ns, 0)),
        Shape::Pair => Instruction::Pair(place, ends(ns), sources(ns, 2)),
        Shape::PairUnary => Instruction::PairUnary(place, ends(ns), number(ns, 2)),
        Shape::Move => Instruction::Move(place, ends(ns), sources(ns, 2)),
        _ => unreachable!(),
    }))
}

impl<R: Rows> Lines for LinesOf<R> {
    type Op = Instruction;

    ghost table = { table_of R.set };

    ghost is_op = { IsListed R.set };

    ghost lines = { lines R.set };

    ghost jumps = { R.set.jumps };

    fn places() -> usize {
        R::places()
    }

    fn parts(place: usize) -> Parts {
        let (word, pattern) = R::line(place);
        Parts {
            here: R::row(place).shape != Shape::Absent,
            word,
            pattern,
        }
    }

    fn made(place: usize, numbers: &[u32]) -> Option<Line> {
        let shape = R::row(place).shape;
        if is_control(shape) {
            made_control::<R>(shape, place, numbers)
        } else {
            made_vector::<R>(shape, place, numbers)
        }
    }

    fn printed(line: &Line) -> Spelling {
        match line {
            Line::Vector(instruction) => Spelling {
                place: row_place::<R>(instruction.place::<R>()),
                numbers: numbers::<R>(*instruction),
            },
            Line::Control(control) => Spelling {
                place: control_place::<R>(*control),
                numbers: control_numbers::<R>(*control),
            },
        }
    }

    fn also(line: &Line) -> Option<Spelling> {
        match line {
            Line::Vector(Instruction::Constant(n)) => also_constant::<R>(*n),
            _ => None,
        }
    }

    fn is_op(op: &Instruction) -> bool {
        op.is_listed::<R>() && op.is_over::<R>()
    }

    fn around(below: bool) -> (&'static [u8], &'static [u8]) {
        R::around(below)
    }

    ghost laws = { lines_are R.set R.laws };

    ghost texts = { texts_are R.set R.laws };
}
