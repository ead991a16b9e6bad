//! What is wrong with a set of images.

ghost use Rattle.std.specs.Prelude.{◌≡◌, ◌+◌, ◌≤◌, ◌<◌, ◌^◌, ◌↔◌, length, zip, All, IsTrue, MatchOption, IfSome};
ghost use Rattle.pf_ints.specs.Meaning.Images.{IsPicture};
ghost use Rattle.pf_values.specs.Meaning.Kernels.{KeepsRange, KeepsSet, width_of, height_of};
ghost use Rattle.pf_run.specs.Meaning.Sets.{HasOutput, IsFirstBadImage, IsImageFault, IsInRange, IsSetFault, Suits};

use crate::fault::SetFault;
use pf_ints::{Image, ImageSet};
use pf_terms::{Axis, ImageDecl, Tap, extent};

/// The fault of the first pixel, row by row, that is out of the declared range, where the image
/// has this number, the declared type and the size of all.
fn judge_pixels(number: u32, decl: &ImageDecl, image: &Image) -> Option<SetFault>
    requires { image.now.ty ≡ decl.now.ty }
    ensures { MatchOption result (All (IsInRange decl.now) image.now.pixels) (IsImageFault image.now.width image.now.height number decl.now image.now) }
{
    let width = image.width() as usize;
    for (place, pixel) in image.pixels().iter().enumerate() {
        let value = u32::from(*pixel);
        if value < decl.lo || decl.hi < value {
            return Some(SetFault::Pixel {
                image: number,
                x: (place % width) as u32,
                y: (place / width) as u32,
                value: i128::from(value),
            });
        }
    }
    None
}

/// What is wrong with the image of this number, where all are to have this size.
fn judge_image(
    width: u32,
    height: u32,
    number: u32,
    decl: &ImageDecl,
    image: &Image,
) -> Option<SetFault>
    ensures judged { MatchOption result (Suits width height decl.now image.now) (IsImageFault width height number decl.now image.now) }
    ensures kept { IsPicture image.now }
{
    let (own_width, own_height) = (image.width(), image.height());
    if image.ty() != decl.ty {
        return Some(SetFault::Kind { image: number });
    }
    if own_width != width || own_height != height {
        return Some(SetFault::Size {
            image: number,
            width: own_width,
            height: own_height,
        });
    }
    judge_pixels(number, decl, image)
}

/// What is wrong with the first of the images that doesn't suit, counted from this number on.
fn judge_each(
    width: u32,
    height: u32,
    number: u32,
    images: &[ImageDecl],
    set: &[Image],
) -> Option<SetFault>
    requires few { number + length images.now < 2 ^ 32 }
    requires same { length set.now ≡ length images.now }
    ensures { MatchOption result (All (λ q. Suits width height q.0 q.1) (zip images.now set.now) × All IsPicture set.now) (IsFirstBadImage width height number images.now set.now) }
{
    match (images, set) {
        ([decl, decls @ ..], [image, rest @ ..]) => {
            match judge_image(width, height, number, decl, image) {
                Some(fault) => Some(fault),
                None => judge_each(width, height, number + 1, decls, rest),
            }
        }
        _ => None,
    }
}

/// The size of the first image, or 0 by 0 where there is none.
pub fn size_of(set: &[Image]) -> (u32, u32)
    ensures width { result.0 ≡ width_of set.now }
    ensures height { result.1 ≡ height_of set.now }
{
    match set {
        [] => (0, 0),
        [first, ..] => (first.width(), first.height()),
    }
}

/// Whether the output has a pixel.
fn has_output(taps: &[Tap], set: &[Image]) -> bool
    ensures { IsTrue result ↔ HasOutput taps.now set.now }
{
    let (width, height) = size_of(set);
    extent(Axis::Columns, taps, width) >= 1 && extent(Axis::Rows, taps, height) >= 1
}

/// What is wrong with a set of images for a kernel of these images and taps, or None where nothing
/// is: another number of images; then, image by image, another type than the declared one, another
/// size than the first image's, or the first pixel, row by row, out of the declared range; then that
/// the output has no pixel.
pub fn judge_set(images: &[ImageDecl], taps: &[Tap], set: &ImageSet) -> Option<SetFault>
    requires { length images.now ≤ 8 }
    ensures judged { MatchOption result (KeepsSet images.now taps.now set.now) (IsSetFault images.now taps.now set.now) }
    ensures refused { IfSome result (λ _. KeepsSet images.now taps.now set.now → ⊥) }
{
    let set = set.as_slice();
    if set.len() != images.len() {
        return Some(SetFault::Count {
            want: images.len() as u32,
            got: u32::try_from(set.len()).unwrap_or(u32::MAX),
        });
    }
    let (width, height) = size_of(set);
    if let Some(fault) = judge_each(width, height, 0, images, set) {
        return Some(fault);
    }
    if has_output(taps, set) {
        None
    } else {
        Some(SetFault::NoOutput)
    }
}
