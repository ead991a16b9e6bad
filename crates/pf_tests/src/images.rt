//! PGM files that are read and written.

ghost use Rattle.pf_ints.specs.Meaning.Images.{IsPixelType};

use crate::tables::same_bytes;
use pf_images::{ImageFault, read_pgm, write_pgm};
use pf_ints::{Image, LaneType};
use std::process::Abort;
use std::test::Fail;

pub fn pixel_type(is_wide: bool) -> LaneType
    ensures { IsPixelType result }
{
    if is_wide { LaneType::U16 } else { LaneType::U8 }
}

/// Files, whether they are read for u16, and the places and words of their faults.
const FAULTS: &[(&[u8], bool, u64, &[u8])] = &[
    (b"", false, 0, b"magic"),
    (b"P", false, 0, b"magic"),
    (b"P2\n1 1\n255\n7", false, 0, b"magic"),
    (b"P5", false, 2, b"number"),
    (b"P51 1 255 \x07", false, 2, b"number"),
    (b"P5 # open", false, 9, b"number"),
    (b"P5 -1 1 255 \x07", false, 3, b"number"),
    (b"P5 8193x", false, 7, b"number"),
    (b"P5 1 1 255", false, 10, b"number"),
    (b"P5\n1 1\n2#\n55\n\x07", false, 8, b"number"),
    (b"P5\n1 1\n255#c\n\x07", false, 10, b"number"),
    (b"P5 0 1 255 ", false, 3, b"size"),
    (b"P5 1 0 255 ", false, 5, b"size"),
    (b"P5 8193 1 255 ", false, 3, b"size"),
    (b"P5 1 8193 255 ", false, 5, b"size"),
    (b"P5 8192 2049 255 ", false, 8, b"size"),
    (
        b"P5 100000000000000000000000000001 1 255 ",
        false,
        3,
        b"size",
    ),
    (b"P5 1 1 0 \x07", false, 7, b"maxval"),
    (b"P5 1 1 256 \x07\x08", false, 7, b"maxval"),
    (b"P5 1 1 65536 \x07\x08", true, 7, b"maxval"),
    (
        b"P5\n# c\n2 1\n65535\n\x01\x02\x03\x04",
        false,
        11,
        b"maxval",
    ),
    (b"P5\n# c\n2 1\n65535\n\x01\x02\x03", true, 20, b"short"),
    (b"P5 2 1 255 \x07", false, 12, b"short"),
    (b"P5 2 1 255 \x07\x08\x09", false, 13, b"extra"),
    (b"P5 1 1 65535 \x01", true, 14, b"short"),
    (b"P5 1 1 65535 \x01\x02\x03", true, 15, b"extra"),
];

#[test]
fn faults_stand_in_their_places(rt: HostRuntime) {
    for &(bytes, is_wide, place, word) in FAULTS {
        match read_pgm(rt.alloc(), bytes, pixel_type(is_wide)).err() {
            Some(ImageFault::At { at, kind }) => {
                assert_eq!(rt; at, place);
                assert!(rt; kind.word() == word);
            }
            _ => assert!(rt; false, "no fault where one at {place} is"),
        }
    }
}

/// Files, whether they are read for u16, their widths, their pixels, and what is written of them.
const IMAGES: &[(&[u8], bool, u32, &[u16], &[u8])] = &[
    (
        b"P5\n# c\n2 1\n65535\n\x01\x02\x03\x04",
        true,
        2,
        &[258, 772],
        b"P5\n2 1\n65535\n\x01\x02\x03\x04",
    ),
    (
        b"P5#a\n# b\r2#c\n1#d\n#e\n255 \x07\x08",
        false,
        2,
        &[7, 8],
        b"P5\n2 1\n255\n\x07\x08",
    ),
    (b"P5 0001\t01\r0255 #", false, 1, &[35], b"P5\n1 1\n255\n#"),
    (b"P5 1 1 1 \xff", false, 1, &[255], b"P5\n1 1\n255\n\xff"),
    (
        b"P5 1 1 255 \x09",
        true,
        1,
        &[9],
        b"P5\n1 1\n65535\n\x00\x09",
    ),
    (
        b"P5 1 1 256 \x01\x09",
        true,
        1,
        &[265],
        b"P5\n1 1\n65535\n\x01\x09",
    ),
    (
        b"P5 1 2 65535 \n\n\xff\xfe",
        true,
        1,
        &[2570, 65534],
        b"P5\n1 2\n65535\n\n\n\xff\xfe",
    ),
    // As GIMP, ImageMagick (with the image's comment of two lines) and netpbm write them.
    (
        b"P5\n# Created by GIMP version 2.10.34 PNM plug-in\n2 1\n255\n\x0a\x23",
        false,
        2,
        &[10, 35],
        b"P5\n2 1\n255\n\x0a\x23",
    ),
    (
        b"P5\n#a scan\n#of 2019\n2 1\n65535\n\x00\x01\xff\x00",
        true,
        2,
        &[1, 65280],
        b"P5\n2 1\n65535\n\x00\x01\xff\x00",
    ),
    (
        b"P5\n1 2\n255\n\x20\x30",
        false,
        1,
        &[32, 48],
        b"P5\n1 2\n255\n\x20\x30",
    ),
];

fn try_image<R: Abort + AllocGlobal>(
    rt: &R,
    image: &Image,
    width: u32,
    pixels: &[u16],
    text: &[u8],
) -> Result<(), Fail> {
    assert_eq!(rt; image.width(), width);
    assert_eq!(rt; image.pixels(), pixels);
    let written = write_pgm(rt.alloc(), image)?;
    same_bytes(rt, written.as_slice(), text);
    Ok(())
}

#[test]
fn images_are_read_and_written(rt: HostRuntime) -> Result<(), Fail> {
    for &(bytes, is_wide, width, pixels, text) in IMAGES {
        let image = read_pgm(rt.alloc(), bytes, pixel_type(is_wide))?;
        try_image(&rt, &image, width, pixels, text)?;
    }
    Ok(())
}
