ghost use Rattle.std.specs.Prelude.{◌≡◌, ℕ, ◌≤◌};
ghost use Rattle.pf_ints.specs.declared.target.Target.{Target};
ghost use Rattle.pf_machine.specs.Meaning.Effects.{ReadsUses, ChangesDefs, RenamingCommutes};
ghost use Rattle.pf_machine.specs.Meaning.Tables.{Table, CanRun, IsTable, ReadsOp, ReadsControl, after};

use crate::access::Access;
use crate::control::Ctl;
use crate::registers::{RegFile, RegList};
use pf_ints::Target;
use pf_text::ShortLine;

/// A set of vector instructions, with its control instructions.
///
/// `table` is its whole meaning; the laws say what holds of every set.
pub trait Isa {
    /// The vector instructions.
    type Op: Drop;

    const TARGET: Target;

    /// Bytes of a vector.
    const VECTOR: u32;

    /// How many vectors an allocator may hand out: those of the lowest names.
    const REGS: u32;

    /// How many vectors the machine has.
    const VECTORS: u32;

    ghost TARGET: { Target };

    ghost VECTOR: { ℕ };

    ghost REGS: { ℕ };

    ghost VECTORS: { ℕ };

    ghost table: { Table Self.Op };

    /// Holds of the values of `Op`.
    ghost is_op: { Self.Op → Type 0 };

    /// Does nothing. It tells a proof that the operation is one of the table.
    fn known(op: &Self::Op)
        ensures { is_op op.now };

    /// The registers that the operation reads, at most four. It takes no memory.
    fn uses(op: &Self::Op) -> RegList
        ensures { result ≡ table.uses op.now };

    /// The registers that the operation changes, at most four. It takes no memory.
    fn defs(op: &Self::Op) -> RegList
        ensures { result ≡ table.defs op.now };

    /// What the operation costs.
    fn cost(op: &Self::Op) -> u32
        ensures { result ≡ table.cost op.now };

    /// The load or store that the operation is, or None for the others.
    fn access(op: &Self::Op) -> Option<Access>
        ensures { result ≡ table.access op.now };

    /// Changes the registers as the operation does.
    fn effect(op: &Self::Op, regs: &mut RegFile)
        requires { CanRun table op.now regs.old }
        ensures { regs.new ≡ after table op.now regs.old };

    /// The operation with the vector `to` in place of `from`.
    fn rename(op: Self::Op, from: u32, to: u32) -> Self::Op
        ensures { result ≡ table.renamed op from to };

    /// Whether the name stands for one register of the machine for good.
    fn fixed(name: u32) -> bool
        ensures { result ≡ table.fixed name };

    /// Loads the vector `to` through the pointer register, at `j` vectors behind it.
    fn load(to: u32, j: u8) -> Self::Op
        requires { j ≤ 7 }
        ensures { result ≡ table.load to j };

    /// Stores the vector `from` through the pointer register, at `j` vectors behind it.
    fn store(from: u32, j: u8) -> Self::Op
        requires { j ≤ 7 }
        ensures { result ≡ table.store from j };

    /// The line of the operation, without its end. It takes no memory.
    fn print(op: &Self::Op) -> ShortLine
        ensures { result ≡ table.text op.now };

    /// The operation over the machine's vectors that the line spells, up to blanks, or None where
    /// it spells none. It takes no memory.
    fn parse(line: &[u8]) -> Option<Self::Op>
        ensures { ReadsOp table is_op line.now result };

    /// The line of the control instruction, without its end. It takes no memory.
    fn print_ctl(c: &Ctl) -> ShortLine
        ensures { result ≡ table.control_text c.now };

    /// The control instruction that the line is, up to blanks, or None where it is none. It takes
    /// no memory.
    fn parse_ctl(line: &[u8]) -> Option<Ctl>
        ensures { ReadsControl table line.now result };

    ghost target_is: { table.target ≡ TARGET };

    ghost vector_is: { table.vector ≡ VECTOR };

    ghost names_are: { table.names ≡ REGS };

    ghost vectors_are: { table.vectors ≡ VECTORS };

    ghost laws: { IsTable table is_op };
}

/// Does nothing. It tells a proof what follows for the effect of each operation of a set: it reads
/// its uses alone, it changes its defs alone, and with another name for a vector it does the same.
pub fn laws_of<I: Isa>()
    ensures reads { ReadsUses I.table I.is_op }
    ensures changes { ChangesDefs I.table }
    ensures renames { RenamingCommutes I.table }
{}
