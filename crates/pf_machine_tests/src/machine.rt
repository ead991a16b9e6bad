//! Rows of programs on the machine, over memory that is given region by region.

ghost use Rattle.std.specs.Prelude.{◌≡◌, ◌≤◌, ◌<◌, ◌^◌, All, IsTrue, length};
ghost use Rattle.pf_machine.specs.Meaning.Machines.{HasTable, IsMemory};

use pf_ints::{Memory, Sequence};
use pf_isa::{Isa, Machine, Program, Region, RegionList, Trap, read_text};
use pf_neon::Neon;
use std::alloc::{AllocError, Global};
use std::process::Abort;
use std::test::Fail;

/// A region of these bytes that may be read.
pub fn region(alloc: Global, start: u64, bytes: &[u8], writes: bool) -> Result<Region, Memory> {
    Ok(Region {
        start,
        bytes: Sequence::from_slice(alloc, bytes)?,
        reads: true,
        writes,
    })
}

fn are_behind(end: u64, regions: &[Region]) -> bool
    ensures { IsTrue result → All (λ r. end ≤ r.start) regions.now }
{
    regions.iter().all(|r| end <= r.start)
}

/// Whether the regions stand one behind another, as a machine's memory.
#[tactic(auto, using(crate::proofs::Memories::no_memory))]
pub fn is_memory(regions: &[Region]) -> bool
    ensures { IsTrue result → IsMemory regions.now }
{
    let [first, rest @ ..] = regions else {
        return true;
    };
    match first.start.checked_add(first.bytes.len() as u64) {
        None => false,
        Some(end) => end < 0x8000_0000 && are_behind(end, rest) && is_memory(rest),
    }
}

/// Whether the machine's first region is a table of so many bytes.
#[tactic(auto, using(crate::proofs::Memories::first_table))]
fn has_table<I: Isa>(machine: &Machine<I>, table: u64, size: usize) -> bool
    ensures { IsTrue result → HasTable machine.now.state.regions table size }
{
    match machine.region(0) {
        Some(first) => first.start == table && first.bytes.len() == size,
        None => false,
    }
}

/// The machine of a program over these regions, of which the first is the table.
pub fn machine_of<I: Isa, R: Abort + AllocGlobal>(
    rt: &R,
    program: Program<I>,
    regions: RegionList,
) -> Result<Machine<I>, Memory> {
    assert!(rt; is_memory(regions.as_slice()));
    Machine::new(rt.alloc(), program, regions)
}

/// Begins a row with these entries in the table.
pub fn start_row<I: Isa, R: Abort>(rt: &R, machine: &mut Machine<I>, table: u64, entries: &[u64]) {
    assert!(rt; entries.len() < 100);
    assert!(rt; has_table(machine, table, 8 * entries.len()));
    machine.start_row(table, entries);
}

const HEAD: &[u8] = b".target neon
.image a u8 0 255
.tap a 0 0
.out u8
.scratch 192
.lifted out u8 = a[0,0]
.cost 0
";

/// The text of a head and this code, in which `;` stands for a line feed.
fn text_of(alloc: Global, code: &str) -> Result<Vec<u8>, AllocError> {
    let mut text = Vec::from_slice(alloc, HEAD)?;
    for byte in code.as_bytes() {
        text.push(if *byte == b';' { b'\n' } else { *byte })?;
    }
    Ok(text)
}

/// The program of this code.
fn program(alloc: Global, code: &str) -> Result<Program<Neon>, Fail> {
    let text = text_of(alloc, code)?;
    Ok(read_text::<Neon>(alloc, text.as_slice())?)
}

const PIXELS: [u8; 16] = [0, 1, 2, 3, 255, 254, 7, 8, 9, 10, 128, 127, 64, 32, 16, 8];

/// So many of the pixels below and of steps, how a row of the code over such an image ends and what
/// the output then holds, and the code, with `;` for each line feed. A row returns; or it takes all
/// its steps; or the instruction of this number loads or stores so many bytes at an address where it
/// may not.
///
/// The image lies at 81920, and the output right behind it. The table, at 65536, has their
/// addresses, that of the scratch, 73728, and the number of pixels.
const TRIALS: &str = "\
16 5 | returned 00010203fffe0708090a807f40201008 | ldr x5, [x0, #0];ldr q0, [x5, #0];ldr x5, [x0, #8];\
    str q0, [x5, #0];ret
16 5 | returned 00010203fffe0708090a807f40201008 | ldr x7, [x0, #0];ldr q0, [x7, #0];ldr x4, [x0, #8];\
    str q0, [x4, #0];ret
16 4 | spent 4 00010203fffe0708090a807f40201008 | ldr x5, [x0, #0];ldr q0, [x5, #0];ldr x5, [x0, #8];\
    str q0, [x5, #0];ret
15 5 | outside 2 81920 16 000000000000000000000000000000 | ldr x5, [x0, #0];ldr q0, [x5, #0];ldr x5, [x0, #8];\
    str q0, [x5, #0];ret
16 12336 | spent 12336 00000000000000000000000000000000 | top:;b top
16 2 | returned 00000000000000000000000000000000 | b end;b end;end:
16 1 | spent 1 00000000000000000000000000000000 | b end;end:
16 9 | outside 1 65568 8 00000000000000000000000000000000 | ldr x5, [x0, #32];ret
16 9 | outside 1 65536 8 00000000000000000000000000000000 | str x5, [x0, #0];ret
16 9 | outside 2 81920 1 00000000000000000000000000000000 | ldr x5, [x0, #0];strb w6, [x5];ret
16 9 | outside 2 81920 2 00000000000000000000000000000000 | ldr x5, [x0, #0];strh w6, [x5];ret
16 9 | outside 2 81928 8 00000000000000000000000000000000 | ldr x5, [x0, #0];str x6, [x5, #8];ret
16 9 | outside 2 81920 16 00000000000000000000000000000000 | ldr x5, [x0, #0];str q0, [x5, #0];ret
16 9 | outside 3 81935 2 00000000000000000000000000000000 | ldr x5, [x0, #0];add x5, x5, #15;ldrh w6, [x5];ret
16 9 | outside 3 81929 8 00000000000000000000000000000000 | ldr x5, [x0, #0];add x5, x5, #9;ldr x6, [x5, #0];ret
16 9 | outside 3 81945 8 00000000000000000000000000000000 | ldr x4, [x0, #8];add x4, x4, #9;str x4, [x4, #0];ret
16 9 | outside 3 7 8 00000000000000000000000000000000 | mov x7, #0;sub x7, x7, #1;ldr x5, [x7, #8];ret
16 9 | outside 3 15 16 00000000000000000000000000000000 | mov x7, #0;sub x7, x7, #1;ldr q0, [x7, #16];ret
16 7 | returned ffffffffffffffff0200000000000000 | ldr x4, [x0, #8];mov x3, #0;sub x3, x3, #1;str x3, [x4, #0];\
    add x3, x3, #3;str x3, [x4, #8];ret
16 6 | returned 0000000000000000fcffffffffffffff | ldr x4, [x0, #8];mov x3, #0;sub x3, x3, #2;add x3, x3, x3;\
    str x3, [x4, #8];ret
16 11 | returned 01000000000000000000000000000000 | ldr x4, [x0, #8];mov x3, #0;sub x3, x3, #1;mov x6, #1;\
    cmp x3, x6;b.lo low;strb w6, [x4];low:;add x4, x4, #1;cmp x6, x3;b.lo end;strb w6, [x4];end:;ret
16 11 | returned 10021000200400000000000000000000 | ldr x4, [x0, #8];mov x6, #65535;add x6, x6, #529;\
    strh w6, [x4];ldrh w3, [x4];add x4, x4, #2;strb w6, [x4];add x3, x3, x3;add x4, x4, #2;strh w3, [x4];ret
16 10 | returned 00010203807f07080908000000000000 | ldr x5, [x0, #0];ldr q0, [x5, #0];ldr x2, [x0, #16];str q0, [x2, #0];\
    add x2, x2, #6;ldr q1, [x2, #0];umin v2.16b, v0.16b, v1.16b;ldr x4, [x0, #8];str q2, [x4, #0];ret
16 10 | returned 00010203807f07081008000000000000 | ldr x5, [x0, #0];ldr q0, [x5, #0];ldr x2, [x0, #16];str q0, [x2, #0];\
    add x2, x2, #6;ldr q1, [x2, #0];umin v2.8h, v0.8h, v1.8h;ldr x4, [x0, #8];str q2, [x4, #0];ret
16 10 | returned 00010203fffe07081008000000000000 | ldr x5, [x0, #0];ldr q0, [x5, #0];ldr x2, [x0, #16];str q0, [x2, #0];\
    add x2, x2, #6;ldr q1, [x2, #0];umin v2.4s, v0.4s, v1.4s;ldr x4, [x0, #8];str q2, [x4, #0];ret
16 7 | returned 00010203fffe0708090a807f40201008 | ldr x5, [x0, #0];ldr q0, [x5, #0];mov v9.16b, v0.16b;mov v3.16b, v9.16b;\
    ldr x4, [x0, #8];str q3, [x4, #0];ret
";

const BLANK: [u8; 192] = [0; 192];

/// Adds a region of the first of these bytes.
fn push_region(
    alloc: Global,
    regions: &mut RegionList,
    start: u64,
    bytes: &[u8],
    writes: bool,
) -> Result<(), Memory> {
    regions.push(region(alloc, start, bytes, writes)?)?;
    Ok(())
}

/// The memory of a row over an image of so many pixels.
fn memory(alloc: Global, pixels: usize) -> Result<RegionList, Memory>
    requires { pixels ≤ 16 }
{
    let mut regions = Sequence::new(alloc);
    push_region(alloc, &mut regions, 65_536, &BLANK[..32], false)?;
    push_region(alloc, &mut regions, 73_728, &BLANK, true)?;
    push_region(alloc, &mut regions, 81_920, &PIXELS[..pixels], false)?;
    let output = 81_920 + pixels as u64;
    push_region(alloc, &mut regions, output, &BLANK[..pixels], true)?;
    Ok(regions)
}

/// The machine of the code over an image of so many pixels.
fn machine_over<R: Abort + AllocGlobal>(
    rt: &R,
    code: &str,
    pixels: usize,
) -> Result<Machine<Neon>, Fail> {
    assert!(rt; pixels <= 16);
    let program = program(rt.alloc(), code)?;
    let memory = memory(rt.alloc(), pixels)?;
    Ok(machine_of(rt, program, memory)?)
}

fn ended(alloc: Global, end: Result<(), Trap>) -> Result<String, AllocError> {
    match end {
        Ok(()) => String::from_str(alloc, "returned"),
        Err(Trap::Spent { steps }) => format!(in alloc; "spent {steps}"),
        Err(
            Trap::Outside {
                at,
                address,
                length,
            },
        ) => format!(in alloc; "outside {at} {address} {length}"),
    }
}

/// Adds what the output holds.
fn push_output(alloc: Global, text: &mut String, machine: &Machine<Neon>) -> Result<(), Fail> {
    let output = machine.region(3).ok_or("no output")?;
    let held = hex::encode(alloc, output.bytes.as_slice())?;
    text.push_str(" ")?;
    text.push_str(held.as_str())?;
    Ok(())
}

/// How a row ends, and what the output then holds.
fn told<R: Abort + AllocGlobal>(
    rt: &R,
    machine: &mut Machine<Neon>,
    count: u64,
    steps: u64,
) -> Result<String, Fail> {
    let output = 81_920_u64.saturating_add(count);
    start_row(rt, machine, 65_536, &[81_920, output, 73_728, count]);
    let mut text = ended(rt.alloc(), machine.run_row(steps))?;
    push_output(rt.alloc(), &mut text, machine)?;
    Ok(text)
}

/// The same of a row of the code.
fn row_told<R: Abort + AllocGlobal>(
    rt: &R,
    code: &str,
    pixels: usize,
    steps: u64,
) -> Result<String, Fail> {
    let mut machine = machine_over(rt, code, pixels)?;
    told(rt, &mut machine, pixels as u64, steps)
}

/// How many pixels and steps a row has.
fn counts(front: &str) -> Result<(usize, u64), Fail> {
    let (pixels, steps) = front.split_once(' ').ok_or("no steps")?;
    Ok((pixels.parse::<usize>()?, steps.parse::<u64>()?))
}

/// Tries that this is told.
fn same<R: Abort>(rt: &R, told: &str, wanted: &str) {
    assert_eq!(rt; told, wanted);
}

/// What stands before and behind the first bar of a row.
fn cells(row: &str) -> Result<(&str, &str), Fail> {
    Ok(row.split_once(" | ").ok_or("no bar")?)
}

fn try_row<R: Abort + AllocGlobal>(rt: &R, row: &str) -> Result<(), Fail> {
    let (front, back) = cells(row)?;
    let (wanted, code) = cells(back)?;
    let (pixels, steps) = counts(front)?;
    let told = row_told(rt, code, pixels, steps)?;
    same(rt, told.as_str(), wanted);
    Ok(())
}

#[test]
fn rows_end_and_leave_their_output(rt: HostRuntime) -> Result<(), Fail> {
    for row in TRIALS.lines() {
        try_row(&rt, row)?;
    }
    Ok(())
}
