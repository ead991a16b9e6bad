//! The PGM file of an image.

ghost use Rattle.std.specs.Prelude.{◌≡◌, ◌++◌, ◌<◌, ◌^◌, All, IfOk, OnOk, codes, decimal};
ghost use Rattle.std.specs.List.{flat_map};
ghost use Rattle.std.specs.Int.{w16, to_be_bytes};
ghost use Rattle.pf_ints.specs.Meaning.Lanes.{lane_width};
ghost use Rattle.pf_ints.specs.Meaning.Images.{IsPicture, IsPixelType};
ghost use Rattle.pf_images.specs.Meaning.Pgm.{IsPgm, samples, greatest_sample, header_text, pgm_text};

use pf_ints::{Bits, Image, LaneType, Memory};
use pf_text::push_number;
use std::alloc::Global;

/// More bytes than the greatest header takes.
const HEADER_ROOM: usize = 32;

fn push_header(text: &mut Vec<u8>, image: &Image) -> Result<(), Memory>
    requires { IsPicture image.now }
    ensures { OnOk result (text.new.items ≡ text.old.items ++ header_text image.now) }
{
    text.extend_from_slice(b"P5\n")?;
    push_number(text, u64::from(image.width()))?;
    text.extend_from_slice(b" ")?;
    push_number(text, u64::from(image.height()))?;
    text.extend_from_slice(b"\n")?;
    push_number(text, u64::from(image.ty().greatest_pixel()))?;
    text.extend_from_slice(b"\n")
}

fn push_narrow(text: &mut Vec<u8>, pixels: &[u16]) -> Result<(), Memory>
    requires { All (λ p. p < 256) pixels.now }
    ensures { OnOk result (text.new.items ≡ text.old.items ++ pixels.now) }
{
    'pixels: for pixel in pixels {
        text.push(*pixel as u8)?;
    }
    Ok(())
}

fn push_wide(text: &mut Vec<u8>, pixels: &[u16]) -> Result<(), Memory>
    ensures { OnOk result (text.new.items ≡ text.old.items ++ flat_map (to_be_bytes w16) pixels.now) }
{
    'pixels: for pixel in pixels {
        text.extend_from_slice(&pixel.to_be_bytes())?;
    }
    Ok(())
}

fn push_samples(text: &mut Vec<u8>, ty: LaneType, pixels: &[u16]) -> Result<(), Memory>
    requires ty { IsPixelType ty }
    requires each { All (λ p. p < 2 ^ lane_width ty) pixels.now }
    ensures { OnOk result (text.new.items ≡ text.old.items ++ samples (greatest_sample ty) pixels.now) }
{
    match ty.bits {
        Bits::Eight => push_narrow(text, pixels),
        _ => push_wide(text, pixels),
    }
}

/// The one PGM file that is written of the image: `P5`, LF, the width, a space, the height, LF,
/// the greatest number of the type, LF, and the pixels in rows from top to bottom. A pixel of u16
/// takes two bytes, the most significant first. Reading the file gives the image.
#[tactic(auto, using(crate::proofs::Texts::written_is_pgm, crate::proofs::Texts::pixels_below))]
pub fn write_pgm(alloc: Global, image: &Image) -> Result<Vec<u8>, Memory>
    ensures text { IfOk result (λ v. v.items ≡ pgm_text image.now) }
    ensures read { IfOk result (λ v. IsPgm v.items image.now.ty image.now) }
{
    let pixels = image.pixels();
    let mut text = Vec::with_capacity(alloc, HEADER_ROOM + 2 * pixels.len())?;
    push_header(&mut text, image)?;
    push_samples(&mut text, image.ty(), pixels)?;
    Ok(text)
}
