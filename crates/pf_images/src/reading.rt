//! Images of PGM files.

ghost use Rattle.std.specs.Prelude.{◌≡◌, ◌-◌, ◌≤◌, ◌*◌, length, IfOk};
ghost use Rattle.pf_ints.specs.Meaning.Images.{IsPixelType};
ghost use Rattle.pf_text.specs.Meaning.Answers.{Decides};
ghost use Rattle.pf_images.specs.Meaning.Pgm.{IsPgm, sample_bytes};
ghost use Rattle.pf_images.specs.Meaning.Faults.{IsFault};
ghost use Rattle.pf_images.specs.Steps.Reading.{GivesRead, GivesImage, counted, parts_of, pairs, pixels_of, image_of};

use crate::fault::{Fault, ImageFault, PgmKind};
use crate::header::{Header, header_of};
use pf_ints::{Image, LaneType, Memory, PixelList, Sequence};
use std::alloc::Global;

/// How many bytes the samples take.
fn sample_bytes(header: Header) -> usize
    requires { header.width * header.height ≤ 16777216 }
    ensures { result ≡ sample_bytes header }
{
    let pixels = header.width as usize * header.height as usize;
    if header.maxval < 256 {
        pixels
    } else {
        2 * pixels
    }
}

#[tactic(auto, unfolding(crate::specs::Steps::Reading::counted))]
fn counted(header: Header, bytes: &[u8]) -> Result<(Header, &[u8]), Fault>
    requires { header.width * header.height ≤ 16777216 }
    ensures { GivesRead (λ x. (x.0, x.1.now)) result (counted header bytes.now) }
{
    let wanted = sample_bytes(header);
    if bytes.len() < wanted {
        return Err(Fault {
            left: 0,
            kind: PgmKind::Short,
        });
    }
    if wanted < bytes.len() {
        return Err(Fault {
            left: bytes.len() - wanted,
            kind: PgmKind::Extra,
        });
    }
    Ok((header, bytes))
}

/// The numbers of the header, and the samples.
#[tactic(auto, unfolding(crate::specs::Steps::Reading::parts_of))]
fn parts_of(bytes: &[u8], ty: LaneType) -> Result<(Header, &[u8]), Fault>
    requires { IsPixelType ty }
    ensures { GivesRead (λ x. (x.0, x.1.now)) result (parts_of ty bytes.now) }
{
    let (header, samples) = header_of(bytes, ty)?;
    counted(header, samples)
}

/// Pixels of one byte each.
fn narrow_pixels(alloc: Global, bytes: &[u8]) -> Result<Vec<u16>, Memory>
    ensures { IfOk result (λ v. v.items ≡ bytes.now) }
{
    let mut pixels = Vec::with_capacity(alloc, bytes.len())?;
    'bytes: for byte in bytes {
        pixels.push(u16::from(*byte))?;
    }
    Ok(pixels)
}

/// Pixels of two bytes each, the most significant first.
#[tactic(auto, using(crate::proofs::Pairs::pair_pushed, crate::proofs::Pairs::pairs_done))]
fn wide_pixels(alloc: Global, bytes: &[u8]) -> Result<Vec<u16>, Memory>
    ensures { IfOk result (λ v. v.items ≡ pairs bytes.now) }
{
    let count = bytes.len() / 2;
    let mut pixels = Vec::with_capacity(alloc, count)?;
    'pairs: for n in 0..count {
        let pixel = u16::from_be_bytes([bytes[2 * n], bytes[2 * n + 1]]);
        pixels.push(pixel)?;
    }
    Ok(pixels)
}

fn pixels_of(alloc: Global, maxval: u32, bytes: &[u8]) -> Result<PixelList, Memory>
    ensures { IfOk result (λ v. v ≡ pixels_of maxval bytes.now) }
{
    let pixels = if maxval < 256 {
        narrow_pixels(alloc, bytes)?
    } else {
        wide_pixels(alloc, bytes)?
    };
    Ok(Sequence::from_vec(pixels))
}

/// The fault with its place counted from the front.
fn placed(fault: Fault, bytes: &[u8]) -> ImageFault
    requires { fault.left ≤ length bytes.now }
    ensures { result ≡ ImageFault.At (length bytes.now - fault.left) fault.kind }
{
    ImageFault::At {
        at: (bytes.len() - fault.left) as u64,
        kind: fault.kind,
    }
}

/// The image, or the first fault.
#[tactic(auto, unfolding(crate::specs::Steps::Reading::image_of))]
fn image_of(alloc: Global, bytes: &[u8], ty: LaneType) -> Result<Image, ImageFault>
    requires { IsPixelType ty }
    ensures { GivesImage bytes.now result (image_of ty bytes.now) }
{
    match parts_of(bytes, ty) {
        Ok((header, samples)) => {
            let pixels = pixels_of(alloc, header.maxval, samples)?;
            Ok(Image::new(header.width, header.height, ty, pixels))
        }
        Err(fault) => Err(placed(fault, bytes)),
    }
}

/// The image of a PGM file with pixels of this type.
///
/// A file is `P5`, white space, the width, white space, the height, white space, maxval, one byte of
/// white space, and the samples in rows from top to bottom. Up to maxval's first digit a `#` and all
/// up to and with the next LF or CR count as white space. Samples have one byte where maxval is at
/// most 255, else two, the most significant first. Width and height are at most 8,192 and have a
/// product of at most 16,777,216; maxval is at most 255 for u8 and at most 65,535 for u16. Bytes
/// behind the samples are refused.
///
/// A fault is the first one in the order in which reading meets them, with the number of bytes that
/// stand before it.
pub fn read_pgm(alloc: Global, bytes: &[u8], ty: LaneType) -> Result<Image, ImageFault>
    requires { IsPixelType ty }
    // The image of the bytes is read, or their first fault is told, unless memory runs out.
    ensures { Decides ImageFault.Memory (IsPgm bytes.now ty) (IsFault ty bytes.now) result }
{
    image_of(alloc, bytes, ty)
}
