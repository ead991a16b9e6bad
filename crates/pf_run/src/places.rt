//! Where a run's regions lie, and what they hold at its start.

ghost use Rattle.std.specs.Prelude.{◌≡◌, ◌+◌, ◌*◌, ◌<◌, ◌≤◌, ◌^◌, ◌++◌, length, map, replicate, All, IfOk, OnOk};
ghost use Rattle.pf_ints.specs.Meaning.Images.{IsPicture, IsPixelType};
ghost use Rattle.pf_machine.specs.Meaning.Bytes.{packed};
ghost use Rattle.pf_machine.specs.Meaning.Heads.{IsHead};
ghost use Rattle.pf_machine.specs.Meaning.Runs.{pixel_bytes, pixels_in_memory, region, image_regions, memory, table_size, output_size};
ghost use Rattle.pf_run.specs.Meaning.Placement.{start_behind, image_size, starts_from, start_after, run_places, places_of, blank_scratch, blank_output, blank_memory};

use pf_ints::{Bits, ByteList, Image, LaneType, Memory, Sequence};
use pf_isa::{Head, Region, RegionList};
use std::alloc::Global;

/// The address of the first region, which is the table.
pub const TABLE: u64 = 65_536;

/// Where the regions behind the table start.
#[derive(Drop)]
pub struct Starts {
    pub scratch: u64,
    pub images: Vec<u64>,
    pub output: u64,
}

/// Where a region starts behind one with this end: at the least multiple of 4096 that is at least
/// 4096 past it.
fn start_behind(end: u64) -> u64
    requires { end < 2 ^ 40 }
    ensures { result ≡ start_behind end }
{
    (end + 8191) / 4096 * 4096
}

fn image_size(image: &Image) -> u64
    ensures value { result ≡ image_size image.now }
    ensures small { result ≤ 4 * 16777216 }
{
    u64::from(image.ty().bytes()) * (u64::from(image.width()) * u64::from(image.height()))
}

/// Appends where the images start, the first at this address, and tells where a further region
/// starts behind them.
fn push_starts(start: u64, images: &[Image], starts: &mut Vec<u64>) -> Result<u64, Memory>
    requires { start + 67117055 * length images.now < 2 ^ 40 }
    ensures starts { OnOk result (starts.new.items ≡ starts.old.items ++ starts_from start (map image_size images.now)) }
    ensures behind { IfOk result (λ next. next ≡ start_after start (map image_size images.now)) }
{
    match images {
        [] => Ok(start),
        [image, rest @ ..] => {
            starts.push(start)?;
            let next = start_behind(start + image_size(image));
            push_starts(next, rest, starts)
        }
    }
}

/// The bytes of a table.
fn table_size(head: &Head) -> u64
    requires { IsHead head.now }
    ensures { result ≡ table_size head.now }
{
    8 * (head.taps.len() as u64 + 3)
}

/// Where the regions of a run start, each behind the one before.
pub fn run_starts(alloc: Global, head: &Head, images: &[Image]) -> Result<Starts, Memory>
    requires head { IsHead head.now }
    requires few { length images.now ≤ 8 }
    ensures { IfOk result (λ starts. places_of starts ≡ run_places head.now images.now) }
{
    let scratch = start_behind(TABLE + table_size(head));
    let first = start_behind(scratch + u64::from(head.scratch));
    let mut starts = Vec::with_capacity(alloc, images.len())?;
    let output = push_starts(first, images, &mut starts)?;
    Ok(Starts {
        scratch,
        images: starts,
        output,
    })
}

/// The bytes of pixels of one byte.
fn narrow_bytes(alloc: Global, pixels: &[u16]) -> Result<ByteList, Memory>
    requires { All (λ n. n < 256) pixels.now }
    ensures { IfOk result (λ bytes. bytes ≡ packed 1 pixels.now) }
{
    let mut bytes = Vec::with_capacity(alloc, pixels.len())?;
    'pixels: for pixel in pixels {
        bytes.push(*pixel as u8)?;
    }
    Ok(Sequence::from_vec(bytes))
}

/// The bytes of pixels of two bytes, the least significant first.
fn wide_bytes(alloc: Global, pixels: &[u16]) -> Result<ByteList, Memory>
    ensures { IfOk result (λ bytes. bytes ≡ packed 2 pixels.now) }
{
    let mut bytes = Vec::with_capacity(alloc, 2 * pixels.len())?;
    'pixels: for pixel in pixels {
        bytes.push((*pixel % 256) as u8)?;
        bytes.push((*pixel / 256) as u8)?;
    }
    Ok(Sequence::from_vec(bytes))
}

/// The bytes of an image in memory.
fn image_bytes(alloc: Global, image: &Image) -> Result<ByteList, Memory>
    ensures { IfOk result (λ bytes. bytes ≡ pixels_in_memory image.now.ty image.now.pixels) }
{
    match image.ty().bits {
        Bits::Eight => narrow_bytes(alloc, image.pixels()),
        _ => wide_bytes(alloc, image.pixels()),
    }
}

/// Appends the regions of the images, which may be read.
fn push_images(
    alloc: Global,
    starts: &[u64],
    images: &[Image],
    regions: &mut Vec<Region>,
) -> Result<(), Memory>
    ensures { OnOk result (regions.new.items ≡ regions.old.items ++ image_regions starts.now images.now) }
{
    match (starts, images) {
        ([start, starts @ ..], [image, images @ ..]) => {
            regions.push(Region {
                start: *start,
                bytes: image_bytes(alloc, image)?,
                reads: true,
                writes: false,
            })?;
            push_images(alloc, starts, images, regions)
        }
        ([], _) => Ok(()),
        ([_, ..], []) => Ok(()),
    }
}

/// A region of so many zeros.
fn blank(alloc: Global, start: u64, size: usize, writes: bool) -> Result<Region, Memory>
    ensures { IfOk result (λ r. r ≡ region start (replicate size 0) writes) }
{
    let bytes = Sequence::from_vec(Vec::from_elem(alloc, 0, size)?);
    Ok(Region {
        start,
        bytes,
        reads: true,
        writes,
    })
}

/// The memory in which a run begins: table, scratch and output are zeros.
pub fn run_regions(
    alloc: Global,
    head: &Head,
    images: &[Image],
    starts: &Starts,
    output: usize,
) -> Result<RegionList, Memory>
    requires head { IsHead head.now }
    requires output { output ≡ output_size head.now images.now }
    ensures { IfOk result (λ regions. regions ≡ blank_memory head.now images.now (places_of starts.now)) }
{
    let mut regions = Vec::with_capacity(alloc, images.len() + 3)?;
    regions.push(blank(alloc, TABLE, table_size(head) as usize, false)?)?;
    regions.push(blank(alloc, starts.scratch, head.scratch as usize, true)?)?;
    push_images(alloc, starts.images.as_slice(), images, &mut regions)?;
    regions.push(blank(alloc, starts.output, output, true)?)?;
    Ok(Sequence::from_vec(regions))
}
