ghost use Rattle.std.specs.Prelude.{◌≡◌, ◌≤◌};
ghost use Rattle.pf_tables.specs.Meaning.Instructions.{IsListed, renamed};

use crate::instruction::Instruction;
use crate::set::Rows;
use pf_lanes::Transfer;
use pf_machine::role;
use std::marker::{Model, PhantomData};

/// A vector instruction of a table: the row that it names is one of its shape, and its numbers are
/// such as the table has.
#[derive(Drop)]
pub struct Op<R: Rows> {
    instruction: Instruction,
    set: PhantomData<R>,
}

impl<R: Rows> Model for Op<R> {
    ghost use Rattle.pf_tables.specs.declared.instruction.Instruction.{Instruction};

    ghost Value = { Instruction };

    ghost use Rattle.pf_tables.specs.Meaning.Instructions.{IsListed};

    ghost view = { λ o. o.instruction };

    ghost invariant = { λ o. IsListed R.set o.instruction };
}

impl<R: Rows> Op<R> {
    /// The instruction. Its row has to be one of its shape, and its numbers such as the table has.
    pub fn of(instruction: Instruction) -> Op<R>
        requires { IsListed R.set instruction }
        ensures { result ≡ instruction }
    {
        Op {
            instruction,
            set: PhantomData,
        }
    }

    /// Loads the vector `to` at `j` vectors behind the pointer register.
    pub fn load(to: u32, j: u8) -> Op<R>
        requires { j ≤ 7 }
        ensures { result ≡ Instruction.Load (record { vector = to; base = 5; j = j }) }
    {
        let base = role::POINTER;
        Op::of(Instruction::Load(Transfer {
            vector: to,
            base,
            j,
        }))
    }

    /// Stores the vector `from` at `j` vectors behind the pointer register.
    pub fn store(from: u32, j: u8) -> Op<R>
        requires { j ≤ 7 }
        ensures { result ≡ Instruction.Store (record { vector = from; base = 5; j = j }) }
    {
        let base = role::POINTER;
        Op::of(Instruction::Store(Transfer {
            vector: from,
            base,
            j,
        }))
    }

    /// The instruction with its operands.
    pub fn instruction(&self) -> Instruction
        ensures value { result ≡ self.now }
        ensures kept { IsListed R.set self.now }
    {
        self.instruction
    }

    /// With the vector `new` in place of `old`.
    pub fn renamed(self, old: u32, new: u32) -> Op<R>
        ensures { result ≡ renamed R.set self old new }
    {
        Op::of(self.instruction.renamed::<R>(old, new))
    }
}
