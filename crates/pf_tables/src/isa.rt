ghost use Rattle.pf_tables.specs.Steps.TableLaws.{set_is_table};
ghost use Rattle.pf_tables.specs.Meaning.Instructions.{IsListed};
ghost use Rattle.pf_tables.specs.Meaning.Tables.{table_of};

use crate::effects::effect_of;
use crate::lines::LinesOf;
use crate::op::Op;
use crate::registers::{access_of, cost_of, defs_of, is_fixed, uses_of};
use crate::set::Rows;
use pf_frames::{TableLine, parsed_control, parsed_op, printed_control, printed_line};
use pf_ints::Target;
use pf_machine::{Access, Ctl, Isa, RegFile, RegList};
use pf_text::ShortLine;
use std::marker::PhantomData;

/// The instructions of a table of rows, as a set for the machine.
pub struct SetOf<R> {
    set: PhantomData<R>,
}

impl<R: Rows> Isa for SetOf<R> {
    type Op = Op<R>;

    const TARGET: Target = R::TARGET;

    const VECTOR: u32 = R::BYTES;

    const REGS: u32 = R::NAMES;

    const VECTORS: u32 = R::REGISTERS;

    ghost TARGET = { R.TARGET };

    ghost VECTOR = { R.BYTES };

    ghost REGS = { R.NAMES };

    ghost VECTORS = { R.REGISTERS };

    ghost table = { table_of R.set };

    ghost is_op = { IsListed R.set };

    ghost target_is = { R.target_is };

    ghost vector_is = { R.vector_is };

    ghost names_are = { R.names_are };

    ghost vectors_are = { R.vectors_are };

    ghost laws = { set_is_table R.set R.laws };

    fn known(op: &Op<R>) {
        let _instruction = op.instruction();
    }

    fn uses(op: &Op<R>) -> RegList {
        uses_of(op.instruction())
    }

    fn defs(op: &Op<R>) -> RegList {
        defs_of(op.instruction())
    }

    fn cost(op: &Op<R>) -> u32 {
        cost_of::<R>(op.instruction())
    }

    fn access(op: &Op<R>) -> Option<Access> {
        access_of::<R>(op.instruction())
    }

    fn effect(op: &Op<R>, regs: &mut RegFile) {
        effect_of::<R>(op.instruction(), regs);
    }

    fn rename(op: Op<R>, from: u32, to: u32) -> Op<R> {
        op.renamed(from, to)
    }

    fn fixed(name: u32) -> bool {
        is_fixed::<R>(name)
    }

    fn load(to: u32, j: u8) -> Op<R> {
        Op::load(to, j)
    }

    fn store(from: u32, j: u8) -> Op<R> {
        Op::store(from, j)
    }

    fn print(op: &Op<R>) -> ShortLine {
        printed_line::<LinesOf<R>>(&TableLine::Vector(op.instruction()))
    }

    fn parse(line: &[u8]) -> Option<Op<R>> {
        match parsed_op::<LinesOf<R>>(line) {
            Some(instruction) => Some(Op::of(instruction)),
            None => None,
        }
    }

    fn print_ctl(c: &Ctl) -> ShortLine {
        printed_control::<LinesOf<R>>(c.control())
    }

    fn parse_ctl(line: &[u8]) -> Option<Ctl> {
        parsed_control::<LinesOf<R>>(line)
    }
}
