ghost use Rattle.std.specs.Prelude.{◌≡◌, IfOk, length};
ghost use Rattle.pf_machine.specs.Meaning.Moved.{Moved, Work};
ghost use Rattle.pf_neon.specs.Meaning.Neon.{table};
ghost use Rattle.pf_select.specs.Meaning.MinOfTaps.{HasTaps, LeavesMin, min_block, least};

use pf_ints::{Memory, Sequence};
use pf_isa::{Block, Head, Item, Program};
use pf_lanes::Triple;
use pf_neon::{Mnemonic, Neon, Op};
use pf_rows::row_program;
use pf_tables::Instruction;
use std::alloc::Global;

// `umin v0.16b, v0.16b, v1.16b`
fn least() -> Op
    ensures { result ≡ least }
{
    let vectors = Triple {
        to: 0,
        left: 0,
        right: 1,
    };
    Op::of(Instruction::Binary(Mnemonic::Umin16b.place(), vectors))
}

/// The block that stores the lesser of taps number `first` and `second`, whose pixels are of u8.
fn min_block(alloc: Global, first: u8, second: u8) -> Result<Block<Op>, Memory>
    ensures { IfOk result (λ block. block ≡ min_block first second) }
{
    let mut block = Sequence::new(alloc);
    block.push(Item::TapLoad {
        to: 0,
        tap: first,
        part: 0,
    })?;
    block.push(Item::TapLoad {
        to: 1,
        tap: second,
        part: 0,
    })?;
    block.push(Item::Vector(least()))?;
    block.push(Item::OutStore { from: 0, part: 0 })?;
    Ok(block)
}

/// The program that stores the lesser of the head's taps number `first` and `second`, in rows of
/// every width, for pixels of u8. It fails for want of memory alone.
pub fn min_program(
    alloc: Global,
    head: Head,
    first: u8,
    second: u8,
) -> Result<Program<Neon>, Memory>
    requires { HasTaps head first second }
    ensures head { IfOk result (λ p. p.head ≡ head) }
    ensures moved { IfOk result (λ p. Moved table (length p.head.taps) p.code p.labels) }
    ensures work { IfOk result (λ p. Work table p.code ≡ 1) }
    ensures right { IfOk result (λ p. LeavesMin p first second) }
{
    let block = min_block(alloc, first, second)?;
    let program = row_program(alloc, block, head)?;
    Ok(program)
}
