ghost use Rattle.std.specs.Prelude.{◌≡◌, ◌<◌, ◌*◌, ◌+◌, ◌≤◌, length, slice_index, ℕ, All, false, IfOk};
ghost use Rattle.pf_ints.specs.Meaning.Images.{Picture, IsPicture};

use crate::lane::LaneType;
use crate::sequence::{Duplicate, PixelList, Sequence};
use std::alloc::{AllocError, Global};
use std::marker::Model;

/// The greatest width and the greatest height of an image.
pub const MOST_SIDE: u32 = 8192;

/// The greatest number of pixels of an image.
pub const MOST_PIXELS: u32 = 16_777_216;

/// An image of u8 or u16 pixels, in rows from top to bottom, of 1 by 1 to the limits above.
#[derive(Drop)]
pub struct Image {
    width: u32,
    height: u32,
    ty: LaneType,
    pixels: PixelList,
}

/// Images, in the order of their declarations.
pub type ImageSet = Sequence<Image>;

impl Model for Image {
    ghost use Rattle.pf_ints.specs.Meaning.Images.{Picture, IsPicture};

    ghost Value = { Picture };

    ghost view = { λ i. record { width = i.width; height = i.height; ty = i.ty; pixels = i.pixels } };

    ghost invariant = { λ i. IsPicture (record { width = i.width; height = i.height; ty = i.ty; pixels = i.pixels }) };
}

impl Image {
    /// The image of these pixels, row by row.
    pub fn new(width: u32, height: u32, ty: LaneType, pixels: PixelList) -> Image
        requires { IsPicture (record { width = width; height = height; ty = ty; pixels = pixels }) }
        ensures { result ≡ record { width = width; height = height; ty = ty; pixels = pixels } }
    {
        Image {
            width,
            height,
            ty,
            pixels,
        }
    }

    /// Pixels of a row.
    pub fn width(&self) -> u32
        ensures value { result ≡ self.now.width }
        ensures kept { IsPicture self.now }
    {
        self.width
    }

    /// Rows.
    pub fn height(&self) -> u32
        ensures value { result ≡ self.now.height }
        ensures kept { IsPicture self.now }
    {
        self.height
    }

    /// The type of the pixels.
    pub fn ty(&self) -> LaneType
        ensures { result ≡ self.now.ty }
    {
        self.ty
    }

    /// The pixels, row by row.
    pub fn pixels(&self) -> &[u16]
        ensures value { result.now ≡ self.now.pixels }
        ensures kept { IsPicture self.now }
    {
        self.pixels.as_slice()
    }
}

impl Duplicate for Image {
    fn copy(&self, alloc: Global) -> Result<Image, AllocError> {
        let pixels = self.pixels.copy(alloc)?;
        Ok(Image {
            width: self.width,
            height: self.height,
            ty: self.ty,
            pixels,
        })
    }
}
