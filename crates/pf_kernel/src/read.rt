ghost use Rattle.std.specs.Prelude.{◌≡◌, ◌+◌, ◌<◌, ◌≤◌, ◌^◌, length, IfOk, pos, Some};
ghost use Rattle.std.specs.Str.Lines.{lines};
ghost use Rattle.pf_text.specs.Meaning.Answers.{Answers, Decides};
ghost use Rattle.pf_values.specs.declared.limit.LimitKind.TheVariants.{Bytes};
ghost use Rattle.pf_kernel.specs.declared.fault.KernelFault.TheVariants.{Limit, Memory};
ghost use Rattle.pf_kernel.specs.Meaning.Lines.{IsStep};
ghost use Rattle.pf_kernel.specs.Steps.Readings.{begun_of, IsReading};
ghost use Rattle.pf_kernel.specs.Steps.Reads.{IsKernelFaultAt, IsWholeText, FinishesKernel};
ghost use Rattle.pf_kernel.specs.Meaning.Texts.{IsKernel, IsKernelFault, at_line, byte_limit};

use crate::fault::KernelFault;
use crate::kernel::Kernel;
use crate::line::read_line;
use crate::reading::Reading;
use pf_terms::{LimitKind, ReadFault};
use pf_text::next_line;
use std::alloc::Global;

const MOST_BYTES: usize = 65_536;

/// The kernel of a text of lines: `kernel NAME`, `image NAME TYPE` or `image NAME TYPE LO HI` one to
/// eight times, `def NAME TYPE = EXPRESSION` none to 64 times, and last `out TYPE = EXPRESSION`.
/// Lines end in LF or CR LF, a `#` begins a comment, and blank lines are free. A text has at most
/// 65,536 bytes, and a kernel at most 64 taps, with offsets from -64 to 64, and 512 nodes in terms
/// that are at most 128 deep.
///
/// The first fault is told, in the order of `KernelFault`.
#[tactic(auto, unfolding(crate::specs::Meaning::Texts::byte_limit))]
pub fn read_kernel(alloc: Global, text: &[u8]) -> Result<Kernel, KernelFault>
    // The kernel of the text is read, or its first fault is told, unless memory runs out.
    ensures { Decides Memory (IsKernel text.now) (IsKernelFault text.now) result }
{
    if MOST_BYTES < text.len() {
        return Err(too_long(text.len()));
    }
    match read_lines(alloc, text) {
        Ok((reading, count)) => finish(reading, count),
        Err(fault) => Err(fault),
    }
}

fn too_long(count: usize) -> KernelFault
    requires { count < 2 ^ 63 }
    ensures { result ≡ Limit Bytes (pos count) }
{
    KernelFault::Limit {
        what: LimitKind::Bytes,
        count: count as i64,
    }
}

// What all lines say, and how many they are.
fn read_lines(alloc: Global, text: &[u8]) -> Result<(Reading, u32), KernelFault>
    requires { length text.now ≤ byte_limit }
    ensures answers { Answers Memory (λ p. IsWholeText text.now p.0 p.1) (IsKernelFault text.now) result }
    ensures few { IfOk result (λ p. p.1 ≤ length text.now) }
{
    let mut reading = Reading::new(alloc);
    let mut count: u32 = 0;
    let mut rest = text;
    'lines: while 0 < rest.len() {
        let (line, next) = next_line(rest);
        reading = match read_next(alloc, reading, line, count + 1) {
            Ok(more) => more,
            Err(fault) => return Err(fault),
        };
        count += 1;
        rest = next;
    }
    Ok((reading, count))
}

// What was read with line number n.
fn read_next(alloc: Global, reading: Reading, line: &[u8], n: u32) -> Result<Reading, KernelFault>
    requires good { IsReading reading }
    requires short { length line.now < 2 ^ 32 }
    ensures answers { Answers Memory (λ r. IsStep (begun_of reading) line.now (begun_of r)) (IsKernelFaultAt (begun_of reading) line.now n) result }
    ensures kept { IfOk result IsReading }
{
    match read_line(alloc, reading, line) {
        Ok(more) => Ok(more),
        Err(fault) => Err(at_line(n, fault)),
    }
}

fn at_line(line: u32, fault: ReadFault) -> KernelFault
    ensures { result ≡ at_line line fault }
{
    match fault {
        ReadFault::Syntax { column } => KernelFault::Syntax { line, column },
        ReadFault::Name { name } => KernelFault::Name { line, name },
        ReadFault::Types { want, got } => KernelFault::Types { line, want, got },
        ReadFault::Amount { amount } => KernelFault::Limit {
            what: LimitKind::Amount,
            count: amount.unsigned_abs().min(0x7fff_ffff_ffff_ffff) as i64,
        },
        ReadFault::Limit { what, count } => KernelFault::Limit { what, count },
        ReadFault::Memory => KernelFault::Memory,
    }
}

fn finish(reading: Reading, count: u32) -> Result<Kernel, KernelFault>
    requires good { IsReading reading }
    requires few { count < 2 ^ 31 }
    ensures { FinishesKernel (begun_of reading) count result }
{
    let Reading {
        name,
        images,
        names,
        defs,
        out,
    } = reading;
    match (name, out) {
        (Some(name), Some((out_ty, out))) => Ok(Kernel::new(
            name, images, names, defs, out_ty, out,
        )),
        _ => Err(KernelFault::Syntax {
            line: count + 1,
            column: 1,
        }),
    }
}
