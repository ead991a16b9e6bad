use crate::trial::Trial;
use crate::vector::{Held, Place, Vector};
use crate::written::written;
use pf_images::read_pgm;
use pf_ints::{Image, ImageSet, LaneType, Sequence};
use pf_isa::read_text;
use pf_machine::Isa;
use pf_run::run_program;
use std::alloc::Global;
use std::test::Fail;

/// Pixels of the image and of the output: room for the registers of a vector.
const WIDTH: usize = 1024;

/// The image of these bytes, with zeros behind them.
fn image_of(alloc: Global, bytes: &[u8]) -> Result<Image, Fail> {
    let mut file = Vec::from_slice(alloc, b"P5 1024 1 255 ")?;
    file.extend_from_slice(bytes)?;
    for _ in bytes.len()..WIDTH {
        file.push(0)?;
    }
    Ok(read_pgm(alloc, file.as_slice(), LaneType::U8)?)
}

/// A set of this image alone.
fn only(alloc: Global, image: Image) -> Result<ImageSet, Fail> {
    let mut images = Sequence::new(alloc);
    images.push(image)?;
    Ok(images)
}

/// Whether the pixels from a place on are these bytes.
fn holds(pixels: &[u16], at: usize, bytes: &[u8]) -> bool {
    let (_, rest) = pixels.split_at(at.min(pixels.len()));
    let mut same = rest.len() >= bytes.len();
    for (pixel, byte) in rest.iter().zip(bytes) {
        same = same && *pixel == u16::from(*byte);
    }
    same
}

/// What is stored, without the eight bytes before and behind it.
fn stored(bytes: &[u8]) -> &[u8] {
    match bytes {
        [_, _, _, _, _, _, _, _, stored @ .., _, _, _, _, _, _, _, _] => stored,
        _ => bytes,
    }
}

/// Whether the output holds what the registers, or the memory, have to hold.
fn leaves<I: Isa>(output: &Image, after: &[Held]) -> bool {
    let mut at: usize = 0;
    let mut same = true;
    for held in after {
        let bytes = held.bytes.as_slice();
        let there = match held.place {
            Place::Memory(_) => holds(output.pixels(), 8, stored(bytes)),
            _ => holds(output.pixels(), at, bytes),
        };
        same = same && there;
        at = at.saturating_add(I::VECTOR as usize);
    }
    same
}

/// The output of a text on its image, or None where the text is too long to be run.
fn output_of<I: Isa>(alloc: Global, trial: &Trial) -> Result<Option<Image>, Fail> {
    let program = read_text::<I>(alloc, trial.text.as_slice())?;
    if program.code().len() >= 1 << 20 {
        return Ok(None);
    }
    let image = image_of(alloc, trial.image.as_slice())?;
    let images = only(alloc, image)?;
    let output = run_program(alloc, program, &images)?;
    Ok(Some(output))
}

/// Whether the line is read as an instruction that is printed so, and costs so much.
fn reads<I: Isa>(line: &str, printed: &str, cost: u32) -> Result<bool, Fail> {
    let Some(operation) = I::parse(line.as_bytes()) else {
        return Ok(false);
    };
    let text = I::print(&operation);
    Ok(text.as_slice() == printed.as_bytes() && I::cost(&operation) == cost)
}

/// Whether the instruction and its other spelling are read, printed and cost as the vector says.
fn is_read<I: Isa>(vector: &Vector) -> Result<bool, Fail> {
    let printed = vector.instruction.as_str();
    let also = vector.also.as_str();
    let first = reads::<I>(printed, printed, vector.cost)?;
    let second = also.is_empty() || reads::<I>(also, printed, vector.cost)?;
    Ok(first && second)
}

/// Whether the instruction is read, printed and costs as the vector says, and its text leaves what
/// the vector says.
pub fn agrees<I: Isa>(alloc: Global, vector: &Vector) -> Result<bool, Fail> {
    if !is_read::<I>(vector)? {
        return Ok(false);
    }
    let trial = written::<I>(alloc, vector)?;
    let Some(output) = output_of::<I>(alloc, &trial)? else {
        return Ok(false);
    };
    Ok(leaves::<I>(&output, vector.after.as_slice()))
}
