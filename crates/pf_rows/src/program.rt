ghost use Rattle.std.specs.Prelude.{◌≡◌, ◌+◌, ◌*◌, ◌/◌, ◌^◌, ◌<◌, ◌≤◌, ◌++◌, [], ◌∷◌, length, map, take, drop, All, IfOk, OnOk, codes, slice_index_or, ℕ};
ghost use Rattle.pf_ints.specs.Meaning.Images.{IsPixelType};
ghost use Rattle.pf_machine.specs.Meaning.Heads.{IsHead};
ghost use Rattle.pf_machine.specs.Meaning.Moved.{Moved, Work};
ghost use Rattle.pf_machine.specs.Meaning.Runs.{pixel_bytes};
ghost use Rattle.pf_rows.specs.Meaning.BlockRows.{IsRowBlock, IsBlockItem, LeavesLanes, RunsBlock, block_cost, tap_widths};
ghost use Rattle.pf_values.specs.Meaning.Kernels.{no_decl};
ghost use Rattle.pf_rows.specs.Steps.RowCode.{back_lines, begin_lines, block_lines, copy_labels, label, last_lines, narrow_lines, next_lines, row_code, row_labels, tail_lines, SlotEndsBelow, IsOne, IsPixel, row_text};

use crate::copies::{back, mark, narrow};
use crate::items::items;
use crate::lines::{
    add, back_name, below, block_name, compare, control, last_name, narrow_name, pointer, set,
    tail_name,
};
use pf_ints::{LaneType, Memory, Sequence};
use pf_machine::{Block, Code, Control, Head, Isa, LabelList, Program, role};
use std::alloc::Global;

/// The bytes of a pixel of each tap.
fn widths_of(alloc: Global, head: &Head) -> Result<Sequence<u8>, Memory>
    requires { IsHead head.now }
    ensures { IfOk result (λ widths. widths ≡ tap_widths head.now) }
{
    let mut widths = Sequence::new(alloc);
    let images = head.images.as_slice();
    for tap in head.taps.as_slice() {
        widths.push(images[usize::from(tap.image)].ty.bytes())?;
    }
    Ok(widths)
}

/// Appends the beginning of a row, up to its block.
fn begin<I: Isa>(code: &mut Code<I>, taps: usize) -> Result<(), Memory>
    requires vector { I.table.vector ≤ 128 }
    requires taps { taps ≤ 64 }
    ensures { OnOk result (code.new ≡ code.old ++ begin_lines I.table.vector taps) }
{
    add(code, role::KEPT, role::TABLE, 0)?;
    pointer(code, role::COUNT, role::KEPT, taps as u8 + 2)?;
    pointer(code, role::SCRATCH, role::KEPT, taps as u8 + 1)?;
    set(code, role::END, I::VECTOR as u16)?;
    compare(code, role::COUNT, role::END)?;
    below(code, narrow_name())?;
    set(code, role::PIXEL, 0)
}

/// Appends what chooses the next block, or the way of a narrow row.
fn next<I: Isa>(code: &mut Code<I>) -> Result<(), Memory>
    requires { I.table.vector ≤ 128 }
    ensures { OnOk result (code.new ≡ code.old ++ next_lines I.table.vector) }
{
    set(code, role::END, I::VECTOR as u16)?;
    compare(code, role::COUNT, role::END)?;
    below(code, back_name())?;
    go_on(code)
}

/// Appends what goes on to the next block, where a whole one is left.
fn go_on<I: Isa>(code: &mut Code<I>) -> Result<(), Memory>
    requires { I.table.vector ≤ 128 }
    ensures { OnOk result (code.new ≡ code.old ++ drop 3 (next_lines I.table.vector)) }
{
    add(code, role::PIXEL, role::PIXEL, I::VECTOR)?;
    add(code, role::END, role::PIXEL, I::VECTOR)?;
    compare(code, role::COUNT, role::END)?;
    below(code, tail_name())?;
    control(
        code,
        Control::Jump {
            label: block_name(),
        },
    )
}

/// Appends what ends a row, or goes on where pixels are left.
fn tail<I: Isa>(code: &mut Code<I>) -> Result<(), Memory>
    ensures { OnOk result (code.new ≡ code.old ++ tail_lines) }
{
    compare(code, role::PIXEL, role::COUNT)?;
    below(code, last_name())?;
    control(code, Control::Return)
}

/// Appends the way to the last block of a row.
fn last<I: Isa>(code: &mut Code<I>) -> Result<(), Memory>
    requires some { 1 ≤ I.table.vector }
    requires most { I.table.vector ≤ 128 }
    ensures { OnOk result (code.new ≡ code.old ++ last_lines I.table.vector) }
{
    control(
        code,
        Control::AddImm {
            to: role::PIXEL,
            from: role::COUNT,
            down: true,
            by: I::VECTOR,
        },
    )?;
    control(
        code,
        Control::Jump {
            label: block_name(),
        },
    )
}

/// Appends the code of a row and its labels, before which there are none.
fn fill<I: Isa>(
    code: &mut Code<I>,
    labels: &mut LabelList,
    widths: &[u8],
    width: u8,
    block: Block<I::Op>,
) -> Result<(), Memory>
    requires no_code { code.old ≡ [] }
    requires no_labels { labels.old ≡ [] }
    requires some { 1 ≤ I.table.vector }
    requires most { I.table.vector ≤ 128 }
    requires taps { length widths.now ≤ 64 }
    requires pixels { All IsPixel widths.now }
    requires pixel { IsPixel width }
    requires steps { All (λ i. IsBlockItem widths.now width i) block }
    requires near { All (λ i. SlotEndsBelow I.table.vector (length widths.now) (2 ^ 30) i) block }
    ensures code { OnOk result (code.new ≡ row_code I.table widths.now width block) }
    ensures labels { OnOk result (labels.new ≡ row_labels I I.table widths.now width block) }
    ensures known { OnOk result (All (λ i. IsOne I.is_op i) block) }
{
    begin(code, widths.len())?;
    mark(labels, code, block_name())?;
    items(code, widths, width, block)?;
    next(code)?;
    mark(labels, code, tail_name())?;
    tail(code)?;
    mark(labels, code, last_name())?;
    last(code)?;
    mark(labels, code, narrow_name())?;
    narrow(code, labels, widths)?;
    back(code, labels, widths.len(), width)?;
    Ok(())
}

/// The code of a row and its labels.
fn lines<I: Isa>(
    alloc: Global,
    widths: &[u8],
    width: u8,
    block: Block<I::Op>,
) -> Result<(Code<I>, LabelList), Memory>
    requires some { 1 ≤ I.table.vector }
    requires most { I.table.vector ≤ 128 }
    requires taps { length widths.now ≤ 64 }
    requires pixels { All IsPixel widths.now }
    requires pixel { IsPixel width }
    requires steps { All (λ i. IsBlockItem widths.now width i) block }
    requires near { All (λ i. SlotEndsBelow I.table.vector (length widths.now) (2 ^ 30) i) block }
    ensures code { IfOk result (λ p. p.0 ≡ row_code I.table widths.now width block) }
    ensures labels { IfOk result (λ p. p.1 ≡ row_labels I I.table widths.now width block) }
    ensures known { IfOk result (λ _. All (λ i. IsOne I.is_op i) block) }
{
    let mut code = Sequence::new(alloc);
    let mut labels = Sequence::new(alloc);
    fill(&mut code, &mut labels, widths, width, block)?;
    Ok((code, labels))
}

/// The program that runs the block over each row of the output, as its code and its labels.
fn row_text<I: Isa>(alloc: Global, block: Block<I::Op>, head: Head) -> Result<Program<I>, Memory>
    requires { (slots : ℕ) × IsRowBlock I.table head slots block }
    ensures value { IfOk result (λ p. p ≡ row_text I I.table head block) }
    ensures known { IfOk result (λ _. All (λ i. IsOne I.is_op i) block) }
{
    let widths = widths_of(alloc, &head)?;
    let width = head.out_ty.bytes();
    let (code, labels) = lines(alloc, widths.as_slice(), width, block)?;
    Ok(Program::new(head, code, labels))
}

/// The program that runs the block over each row of the output, of any width.
///
/// The block runs in place at every whole block of pixels, and at the row's last ones where some
/// are left. A row of fewer pixels than a vector has bytes is copied into the scratch, and its
/// pixels back from there. The head's scratch has room for a number of slots, which the block may
/// use. It fails for want of memory alone.
pub fn row_program<I: Isa>(
    alloc: Global,
    block: Block<I::Op>,
    head: Head,
) -> Result<Program<I>, Memory>
    requires { (slots : ℕ) × IsRowBlock I.table head slots block }
    ensures head { IfOk result (λ p. p.head ≡ head) }
    ensures moved { IfOk result (λ p. Moved I.table (length p.head.taps) p.code p.labels) }
    ensures work { IfOk result (λ p. Work I.table p.code ≡ block_cost I.table block) }
    ensures rows { IfOk result (λ p. (slots : ℕ) → IsRowBlock I.table head slots block → RunsBlock I.table slots block p) }
    ensures lanes { IfOk result (λ p. (slots : ℕ) → IsRowBlock I.table head slots block → LeavesLanes I.table slots block p) }
{
    let program = row_text(alloc, block, head)?;
    Ok(program)
}
