//! Sets of images that are judged, and kernels that are evaluated on images.

ghost use Rattle.std.specs.Prelude.{◌≤◌, length};
ghost use Rattle.pf_ints.specs.Meaning.Images.{IsPixelType};

use pf_images::read_pgm;
use pf_ints::{Image, ImageSet, LaneType, Name, Sequence};
use pf_kernel::{Kernel, read_kernel};
use pf_run::{SetFault, eval_images, judge_set};
use pf_terms::{ImageDecl, Tap};
use std::alloc::Global;
use std::process::Abort;
use std::test::Fail;

fn pixel_type(is_wide: bool) -> LaneType
    ensures { IsPixelType result }
{
    if is_wide { LaneType::U16 } else { LaneType::U8 }
}

/// A u8 image of this name with this range.
fn decl(name: &[u8], hi: u32) -> Result<ImageDecl, Fail> {
    let name = Name::new(name).ok_or("a name")?;
    Ok(ImageDecl {
        name,
        ty: LaneType::U8,
        lo: 0,
        hi,
    })
}

/// Adds the image of a file.
fn push_file(alloc: Global, set: &mut ImageSet, bytes: &[u8], is_wide: bool) -> Result<(), Fail> {
    let image = read_pgm(alloc, bytes, pixel_type(is_wide))?;
    set.push(image)?;
    Ok(())
}

/// The images of these files, read for u16 where so told.
fn set_of(alloc: Global, files: &[(&[u8], bool)]) -> Result<ImageSet, Fail> {
    let mut set = Sequence::new(alloc);
    for (bytes, is_wide) in files {
        push_file(alloc, &mut set, bytes, *is_wide)?;
    }
    Ok(set)
}

/// Sets of images for two images of u8 of which the first has pixels up to 100, and what is wrong
/// with them.
const SETS: &[(&[(&[u8], bool)], Option<SetFault>)] = &[
    (
        &[(b"P5 2 1 255 \x01\x02", false)],
        Some(SetFault::Count { want: 2, got: 1 }),
    ),
    (
        &[(b"P5 1 1 255 \x01", false), (b"P5 2 1 255 \x01\x02", true)],
        Some(SetFault::Kind { image: 1 }),
    ),
    (
        &[
            (b"P5 2 1 255 \x01\x02", false),
            (b"P5 1 2 255 \x01\x02", false),
        ],
        Some(SetFault::Size {
            image: 1,
            width: 1,
            height: 2,
        }),
    ),
    (
        &[
            (b"P5 2 2 255 \x01\x64\x65\x66", false),
            (b"P5 2 2 255 \x01\x02\x03\x04", false),
        ],
        Some(SetFault::Pixel {
            image: 0,
            x: 0,
            y: 1,
            value: 101,
        }),
    ),
    (
        &[
            (b"P5 2 1 255 \x01\x02", false),
            (b"P5 2 1 255 \xff\x02", false),
        ],
        Some(SetFault::NoOutput),
    ),
    (
        &[
            (b"P5 3 1 255 \x01\x02\x64", false),
            (b"P5 3 1 255 \xff\x02\x03", false),
        ],
        None,
    ),
];

/// What is wrong with the images of these files.
fn fault_of(
    alloc: Global,
    images: &[ImageDecl],
    taps: &[Tap],
    files: &[(&[u8], bool)],
) -> Result<Option<SetFault>, Fail>
    requires { length images.now ≤ 8 }
{
    let set = set_of(alloc, files)?;
    Ok(judge_set(images, taps, &set))
}

fn tap(image: u8, dx: i16) -> Tap {
    Tap { image, dx, dy: 0 }
}

fn try_sets<R: Abort + AllocGlobal>(
    rt: &R,
    rows: &[(&[(&[u8], bool)], Option<SetFault>)],
) -> Result<(), Fail> {
    let images = [decl(b"a", 100)?, decl(b"b", 255)?];
    let taps = [tap(0, -1), tap(1, 1)];
    for &(files, wanted) in rows {
        let fault = fault_of(rt.alloc(), &images, &taps, files)?;
        assert!(rt; fault == wanted);
    }
    Ok(())
}

#[test]
fn sets_are_judged(rt: HostRuntime) -> Result<(), Fail> {
    try_sets(&rt, SETS)
}

const SUM: &[u8] = b"kernel sum\nimage a u8\nout u8 = a[0,0] + 10u8\n";

const BLUR: &[u8] =
    b"kernel blur\nimage a u8\nout u8 = u8((u16(a[-1,0]) + 2u16*u16(a[0,0]) + u16(a[1,0]) + 2u16) >> 2)\n";

const SOBEL: &[u8] = b"kernel sobel\nimage a u8
def l u16 = u16(a[-1,-1]) + 2u16*u16(a[-1,0]) + u16(a[-1,1])
def r u16 = u16(a[1,-1]) + 2u16*u16(a[1,0]) + u16(a[1,1])
def t u16 = u16(a[-1,-1]) + 2u16*u16(a[0,-1]) + u16(a[1,-1])
def b u16 = u16(a[-1,1]) + 2u16*u16(a[0,1]) + u16(a[1,1])
out u8 = saturating_cast(u8, absd(l, r) + absd(t, b))
";

/// Kernels, an image for each, and the width and the pixels of the output.
const KERNELS: &[(&[u8], &[u8], u32, &[u16])] = &[
    (
        b"kernel k\nimage a u8\nout u8 = a[1,0]",
        b"P5 3 1 255 \x01\x02\x03",
        2,
        &[2, 3],
    ),
    (SUM, b"P5 2 1 255 \xfa\x07", 2, &[4, 17]),
    (BLUR, b"P5 3 1 255 \x0a\x14\x28", 1, &[23]),
    (
        SOBEL,
        b"P5 4 3 255 \x00\x04\x08\x0c\x00\x04\x08\x0c\x00\x04\x08\x0c",
        2,
        &[32, 32],
    ),
];

/// The output of a kernel on the image of a file.
fn output_on(alloc: Global, kernel: &Kernel, file: &[u8]) -> Result<Image, Fail> {
    let set = set_of(alloc, &[(file, false)])?;
    Ok(eval_images(alloc, kernel, &set)?)
}

fn output_of(alloc: Global, text: &[u8], file: &[u8]) -> Result<Image, Fail> {
    let kernel = read_kernel(alloc, text)?;
    output_on(alloc, &kernel, file)
}

/// Tries the width and the pixels of an image.
fn try_image<R: Abort>(rt: &R, image: &Image, width: u32, pixels: &[u16]) {
    assert!(rt; image.width() == width);
    assert!(rt; image.pixels() == pixels);
}

fn try_kernels<R: Abort + AllocGlobal>(
    rt: &R,
    rows: &[(&[u8], &[u8], u32, &[u16])],
) -> Result<(), Fail> {
    for &(text, file, width, pixels) in rows {
        let image = output_of(rt.alloc(), text, file)?;
        try_image(rt, &image, width, pixels);
    }
    Ok(())
}

#[test]
fn kernels_are_evaluated(rt: HostRuntime) -> Result<(), Fail> {
    try_kernels(&rt, KERNELS)
}
