//! Row programs of blocks that are made by hand, run on images of widths around that of a vector,
//! against pixels that are computed here.

ghost use Rattle.std.specs.Prelude.{◌≡◌, [], ◌∷◌, ◌++◌, IfOk, OnOk, IsTrue, slice_index, ℕ};
ghost use Rattle.pf_machine.specs.declared.block.Item.TheVariants.{SlotLoad, Vector};
ghost use Rattle.pf_machine.specs.Meaning.Heads.{IsHead};
ghost use Rattle.pf_neon.specs.Meaning.Neon.{table};
ghost use Rattle.pf_rows.specs.Meaning.BlockRows.{tap_widths, IsRowBlock};
ghost use Rattle.pf_machine_tests.specs.Steps.RowBlocks.{copy_block, kept_taps, least_block, lesser};

use pf_images::read_pgm;
use pf_ints::{Duplicate, Image, ImageSet, LaneType, Memory, Sequence};
use pf_isa::{Block, Head, Item, Program, read_text};
use pf_lanes::Triple;
use pf_neon::{Mnemonic, Neon, Op};
use pf_rows::row_program;
use pf_run::run_program;
use pf_tables::Instruction;
use std::alloc::{AllocError, Global};
use std::process::Abort;
use std::test::Fail;

/// The pixel of an image in this column and row. Some have one byte alone.
fn pixel(is_wide: bool, x: u32, y: u32) -> u16 {
    let sum = x
        .wrapping_mul(9973)
        .wrapping_add(y.wrapping_mul(4099))
        .wrapping_add(57);
    if is_wide && x % 4 != 0 {
        (sum % 0x1_0000) as u16
    } else {
        (sum % 0x100) as u16
    }
}

/// The front of a file of an image.
fn header(alloc: Global, is_wide: bool, width: u32, height: u32) -> Result<Vec<u8>, Fail> {
    let maxval: u32 = if is_wide { 65_535 } else { 255 };
    let text = format!(in alloc; "P5\n{width} {height}\n{maxval}\n")?;
    Ok(Vec::from_slice(alloc, text.as_bytes())?)
}

fn push_pixel(file: &mut Vec<u8>, is_wide: bool, x: u32, y: u32) -> Result<(), AllocError> {
    let [high, low] = pixel(is_wide, x, y).to_be_bytes();
    if is_wide {
        file.extend_from_slice(&[high, low])
    } else {
        file.extend_from_slice(&[low])
    }
}

fn push_row(file: &mut Vec<u8>, is_wide: bool, width: u32, y: u32) -> Result<(), AllocError> {
    for x in 0..width {
        push_pixel(file, is_wide, x, y)?;
    }
    Ok(())
}

fn push_rows(file: &mut Vec<u8>, is_wide: bool, width: u32, height: u32) -> Result<(), AllocError> {
    for y in 0..height {
        push_row(file, is_wide, width, y)?;
    }
    Ok(())
}

/// Adds an image of this size.
fn push_image(
    alloc: Global,
    images: &mut ImageSet,
    is_wide: bool,
    width: u32,
    height: u32,
) -> Result<(), Fail> {
    let mut file = header(alloc, is_wide, width, height)?;
    push_rows(&mut file, is_wide, width, height)?;
    let ty: LaneType = if is_wide { LaneType::U16 } else { LaneType::U8 };
    images.push(read_pgm(alloc, file.as_slice(), ty)?)?;
    Ok(())
}

fn copy_of(alloc: Global, head: &Head) -> Result<Head, Memory>
    ensures { IfOk result (λ copy. copy ≡ head.now) }
{
    Ok(Head {
        images: head.images.copy(alloc)?,
        taps: head.taps.copy(alloc)?,
        out_ty: head.out_ty,
        scratch: head.scratch,
        lifted: head.lifted.copy(alloc)?,
        cost: head.cost,
    })
}

/// What the program leaves on the images.
fn run<R: Abort + AllocGlobal>(
    rt: &R,
    program: Program<Neon>,
    images: &ImageSet,
) -> Result<Image, Fail> {
    assert!(rt; program.code().len() < 0x8000_0000);
    Ok(run_program(rt.alloc(), program, images)?)
}

/// Whether the pixels of the head's tap of this number have so many bytes.
#[tactic(auto, using(crate::proofs::RowBlocks::tap_width_is))]
fn has_width(head: &Head, n: usize, bytes: u8) -> bool
    ensures { IsTrue result → slice_index (tap_widths head.now) n ≡ bytes }
{
    let Some(tap) = head.taps.get(n) else {
        return false;
    };
    match head.images.get(usize::from(tap.image)) {
        Some(image) => image.ty.bytes() == bytes,
        None => false,
    }
}

fn copy_block(alloc: Global) -> Result<Block<Op>, Memory>
    ensures { IfOk result (λ block. block ≡ copy_block) }
{
    let mut block = Sequence::new(alloc);
    let (tap, part) = (0, 0);
    block.push(Item::TapLoad { to: 3, tap, part })?;
    block.push(Item::OutStore { from: 3, part })?;
    let part = 1;
    block.push(Item::TapLoad { to: 2, tap, part })?;
    block.push(Item::OutStore { from: 2, part })?;
    Ok(block)
}

/// A head of one tap of u16.
const COPY: &[u8] = b".target neon
.image b u16 0 65535
.tap b 1 0
.out u16
.scratch 192
.lifted out u16 = b[1,0]
.cost 0
ret
";

/// The head of a text.
fn head_of(alloc: Global, text: &[u8]) -> Result<Head, Fail>
    ensures { IfOk result IsHead }
{
    let program = read_text::<Neon>(alloc, text)?;
    Ok(copy_of(alloc, program.head())?)
}

/// Whether the head is one for the block that copies its tap.
#[tactic(auto, using(crate::proofs::RowBlocks::copy_is_row_block))]
fn may_copy(head: &Head) -> bool
    requires { IsHead head.now }
    ensures { IsTrue result → (slots : ℕ) × IsRowBlock table head.now slots copy_block }
{
    head.taps.len() == 1 && head.scratch == 192 && head.out_ty.bytes() == 2 && has_width(head, 0, 2)
}

/// The row program of the head that copies its tap.
fn copy_program<R: Abort + AllocGlobal>(rt: &R) -> Result<Program<Neon>, Fail> {
    let head = head_of(rt.alloc(), COPY)?;
    assert!(rt; may_copy(&head));
    Ok(row_program(rt.alloc(), copy_block(rt.alloc())?, head)?)
}

/// Tries the pixels of an output.
fn try_copied<R: Abort>(rt: &R, output: &Image, width: u32) {
    assert!(rt; width != 0 && output.width() == width);
    for (i, held) in output.pixels().iter().enumerate() {
        let (x, y) = (i as u32 % width, i as u32 / width);
        assert!(rt;
            *held == pixel(true, x.wrapping_add(1), y),
            "{i} of {width}"
        );
    }
}

fn try_copies<R: Abort + AllocGlobal>(rt: &R, width: u32) -> Result<(), Fail> {
    let mut images = Sequence::new(rt.alloc());
    push_image(rt.alloc(), &mut images, true, width.saturating_add(1), 2)?;
    let output = run(rt, copy_program(rt)?, &images)?;
    try_copied(rt, &output, width);
    Ok(())
}

const WIDTHS: [u32; 8] = [1, 2, 15, 16, 17, 31, 32, 33];

#[test]
fn pixels_of_two_bytes_are_copied(rt: HostRuntime) -> Result<(), Fail> {
    for width in WIDTHS {
        try_copies(&rt, width)?;
    }
    Ok(())
}

fn lesser(to: u32, left: u32, right: u32) -> Op
    ensures { result ≡ lesser to left right }
{
    let vectors = Triple { to, left, right };
    Op::of(Instruction::Binary(Mnemonic::Umin16b.place(), vectors))
}

fn push_lesser(block: &mut Block<Op>, to: u32, left: u32, right: u32) -> Result<(), Memory>
    ensures { OnOk result (block.new ≡ block.old ++ Vector (lesser to left right) ∷ []) }
{
    block.push(Item::Vector(lesser(to, left, right)))?;
    Ok(())
}

fn kept_taps(alloc: Global) -> Result<Block<Op>, Memory>
    ensures { IfOk result (λ block. block ≡ kept_taps) }
{
    let mut block = Sequence::new(alloc);
    let (to, from, part) = (0, 0, 0);
    block.push(Item::TapLoad { to, tap: 0, part })?;
    block.push(Item::SlotStore { from, slot: 1 })?;
    block.push(Item::TapLoad { to, tap: 15, part })?;
    block.push(Item::SlotStore { from, slot: 0 })?;
    Ok(block)
}

/// Adds the lesser of the taps that were kept.
fn push_kept(block: &mut Block<Op>) -> Result<(), Memory>
    ensures { OnOk result (block.new ≡ block.old ++ SlotLoad 2 1 ∷ SlotLoad 3 0 ∷ Vector (lesser 2 2 3) ∷ []) }
{
    block.push(Item::SlotLoad { to: 2, slot: 1 })?;
    block.push(Item::SlotLoad { to: 3, slot: 0 })?;
    push_lesser(block, 2, 2, 3)
}

fn least_block(alloc: Global) -> Result<Block<Op>, Memory>
    ensures { IfOk result (λ block. block ≡ least_block) }
{
    let mut block = kept_taps(alloc)?;
    push_kept(&mut block)?;
    let (tap, part) = (16, 0);
    block.push(Item::TapLoad { to: 1, tap, part })?;
    push_lesser(&mut block, 2, 2, 1)?;
    block.push(Item::OutStore { from: 2, part })?;
    Ok(block)
}

/// Adds the lines of the taps of four columns in this row.
fn push_taps(alloc: Global, text: &mut Vec<u8>, dy: u8) -> Result<(), Fail> {
    for dx in 0..4u8 {
        let tap = format!(in alloc; ".tap a {dx} {dy}\n")?;
        text.extend_from_slice(tap.as_bytes())?;
    }
    Ok(())
}

/// The text of a head of 17 taps: those of four columns and four rows of an image of u8, and the
/// pixel of one of u16.
fn many_taps(alloc: Global) -> Result<Vec<u8>, Fail> {
    let front = b".target neon\n.image a u8 0 255\n.image b u16 0 65535\n";
    let mut text = Vec::from_slice(alloc, front)?;
    for dy in 0..4u8 {
        push_taps(alloc, &mut text, dy)?;
    }
    text.extend_from_slice(
        b".tap b 0 0\n.out u8\n.scratch 864\n.lifted out u8 = a[0,0]\n.cost 2\nret\n",
    )?;
    Ok(text)
}

/// Whether the head is one for the block of the least.
#[tactic(auto, using(crate::proofs::RowBlocks::least_is_row_block))]
fn may_be_least(head: &Head) -> bool
    requires { IsHead head.now }
    ensures { IsTrue result → (slots : ℕ) × IsRowBlock table head.now slots least_block }
{
    head.taps.len() == 17
        && head.scratch == 864
        && head.out_ty.bytes() == 1
        && has_width(head, 0, 1)
        && has_width(head, 15, 1)
        && has_width(head, 16, 2)
}

/// The row program of this head that makes the least of its first tap, its sixteenth and the bytes
/// of its last one.
fn least_program<R: Abort + AllocGlobal>(rt: &R) -> Result<Program<Neon>, Fail> {
    let text = many_taps(rt.alloc())?;
    let head = head_of(rt.alloc(), text.as_slice())?;
    assert!(rt; may_be_least(&head));
    Ok(row_program(rt.alloc(), least_block(rt.alloc())?, head)?)
}

/// What the block makes of these images in column x of a row of so many pixels: of the last tap it
/// takes the bytes of its first eight pixels, one for each of its own.
fn least(width: u32, x: u32, y: u32) -> u16 {
    // The block begins at each sixteenth column, and the last one where the row's last 16 pixels do.
    let last = width.saturating_sub(16);
    let start = if x < last { x / 16 * 16 } else { last };
    let place = x.wrapping_sub(start);
    let [high, low] = pixel(true, start.wrapping_add(place / 2), y).to_be_bytes();
    let byte = u16::from(if place % 2 == 0 { low } else { high });
    let far = pixel(false, x.wrapping_add(3), y.wrapping_add(3));
    pixel(false, x, y).min(far).min(byte)
}

/// Tries the pixels of an output.
fn try_least<R: Abort>(rt: &R, output: &Image, width: u32) {
    assert!(rt; width != 0 && output.width() == width);
    for (i, held) in output.pixels().iter().enumerate() {
        let (x, y) = (i as u32 % width, i as u32 / width);
        assert!(rt; *held == least(width, x, y), "{i} of {width}");
    }
}

fn try_joined<R: Abort + AllocGlobal>(rt: &R, width: u32) -> Result<(), Fail> {
    let mut images = Sequence::new(rt.alloc());
    push_image(rt.alloc(), &mut images, false, width.saturating_add(3), 5)?;
    push_image(rt.alloc(), &mut images, true, width.saturating_add(3), 5)?;
    let output = run(rt, least_program(rt)?, &images)?;
    try_least(rt, &output, width);
    Ok(())
}

#[test]
fn many_taps_and_slots_are_joined(rt: HostRuntime) -> Result<(), Fail> {
    for width in WIDTHS {
        try_joined(&rt, width)?;
    }
    Ok(())
}
