//! The image that a run leaves in its output.

ghost use Rattle.std.specs.Prelude.{◌≡◌, ◌*◌, ◌<◌, ◌≤◌, ◌^◌, length, All, IfOk};
ghost use Rattle.pf_ints.specs.Meaning.Images.{IsPicture, IsPixelType};
ghost use Rattle.pf_ints.specs.Meaning.Lanes.{lane_width};
ghost use Rattle.pf_machine.specs.Meaning.Bytes.{packed};
ghost use Rattle.pf_machine.specs.Meaning.Runs.{pixel_bytes, pixels_in_memory};

use pf_ints::{Bits, Image, LaneType, Memory, PixelList, Sequence};
use std::alloc::Global;

/// The pixels of one byte each.
fn narrow_pixels(alloc: Global, bytes: &[u8]) -> Result<PixelList, Memory>
    ensures bytes { IfOk result (λ pixels. packed 1 pixels ≡ bytes.now) }
    ensures small { IfOk result (λ pixels. All (λ n. n < 256) pixels) }
{
    let mut pixels = Vec::with_capacity(alloc, bytes.len())?;
    'bytes: for byte in bytes {
        pixels.push(u16::from(*byte))?;
    }
    Ok(Sequence::from_vec(pixels))
}

/// The pixels of two bytes each, the least significant first.
fn wide_pixels(alloc: Global, bytes: &[u8], count: usize) -> Result<PixelList, Memory>
    requires { length bytes.now ≡ 2 * count }
    ensures bytes { IfOk result (λ pixels. packed 2 pixels ≡ bytes.now) }
    ensures small { IfOk result (λ pixels. All (λ n. n < 65536) pixels) }
{
    let mut pixels = Vec::with_capacity(alloc, count)?;
    'pairs: for n in 0..count {
        let low = u16::from(bytes[2 * n]);
        let high = u16::from(bytes[2 * n + 1]);
        pixels.push(low + 256 * high)?;
    }
    Ok(Sequence::from_vec(pixels))
}

fn pixels_of(alloc: Global, bytes: &[u8], count: usize, ty: LaneType) -> Result<PixelList, Memory>
    requires ty { IsPixelType ty }
    requires count { length bytes.now ≡ pixel_bytes ty * count }
    ensures bytes { IfOk result (λ pixels. pixels_in_memory ty pixels ≡ bytes.now) }
    ensures small { IfOk result (λ pixels. All (λ n. n < 2 ^ lane_width ty) pixels) }
{
    match ty.bits {
        Bits::Eight => narrow_pixels(alloc, bytes),
        _ => wide_pixels(alloc, bytes, count),
    }
}

/// The image of this size whose pixels lie so in memory.
pub fn image_in_memory(
    alloc: Global,
    bytes: &[u8],
    width: u32,
    height: u32,
    ty: LaneType,
) -> Result<Image, Memory>
    requires ty { IsPixelType ty }
    requires wide { 1 ≤ width }
    requires high { 1 ≤ height }
    requires most_wide { width ≤ 8192 }
    requires most_high { height ≤ 8192 }
    requires most { width * height ≤ 16777216 }
    requires count { length bytes.now ≡ pixel_bytes ty * (width * height) }
    ensures ty { IfOk result (λ o. o.ty ≡ ty) }
    ensures width { IfOk result (λ o. o.width ≡ width) }
    ensures height { IfOk result (λ o. o.height ≡ height) }
    ensures pixels { IfOk result (λ o. pixels_in_memory ty o.pixels ≡ bytes.now) }
    ensures picture { IfOk result IsPicture }
{
    let count = width as usize * height as usize;
    let pixels = pixels_of(alloc, bytes, count, ty)?;
    Ok(Image::new(width, height, ty, pixels))
}
