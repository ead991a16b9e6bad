//! Texts of the lesser of two pixels, at the widths around that of a vector, against pixels that are
//! computed here.

use crate::calls::{NO_TROUBLE, answer, store_of};
use crate::scripted::{ScriptedFiles, ScriptedSink, hold};
use crate::select::{LIFT, LOWER};
use std::alloc::Global;
use std::process::Abort;
use std::test::Fail;

/// A pixel of the image of this seed: of u8 it is 3 to 200, and of u16 some have one byte alone.
fn pixel(is_wide: bool, seed: u32, x: u32, y: u32) -> u16 {
    let sum = x
        .wrapping_mul(seed)
        .wrapping_add(y.wrapping_mul(4099))
        .wrapping_add(seed);
    if !is_wide {
        (sum % 198) as u16 + 3
    } else if x % 4 == 0 {
        (sum % 0x100) as u16
    } else {
        (sum % 0x1_0000) as u16
    }
}

/// A tap: the seed of its image, and how far to the right of the output pixel's column, and below
/// its row, the tap's pixel stands in the image.
type Place = (u32, u32, u32);

/// The PGM file of the lesser pixels at two taps.
fn lesser(
    alloc: Global,
    is_wide: bool,
    taps: [Place; 2],
    size: (u32, u32),
) -> Result<Vec<u8>, Fail> {
    let (width, height) = size;
    let maxval: u32 = if is_wide { 65_535 } else { 255 };
    let header = format!(in alloc; "P5\n{width} {height}\n{maxval}\n")?;
    let mut file = Vec::from_slice(alloc, header.as_bytes())?;
    let [(left, left_x, left_y), (right, right_x, right_y)] = taps;
    for y in 0..height {
        for x in 0..width {
            let one = pixel(
                is_wide,
                left,
                x.wrapping_add(left_x),
                y.wrapping_add(left_y),
            );
            let other = pixel(
                is_wide,
                right,
                x.wrapping_add(right_x),
                y.wrapping_add(right_y),
            );
            let [high, low] = one.min(other).to_be_bytes();
            if is_wide {
                file.push(high)?;
            }
            file.push(low)?;
        }
    }
    Ok(file)
}

/// The PGM file of the image of this seed.
fn image(alloc: Global, is_wide: bool, seed: u32, size: (u32, u32)) -> Result<Vec<u8>, Fail> {
    lesser(alloc, is_wide, [(seed, 0, 0), (seed, 0, 0)], size)
}

/// The seeds of the images a, b and c.
const A: u32 = 9973;

const B: u32 = 23_689;

const C: u32 = 4_177;

/// Runs the text `m.s` on images whose output has two rows of each width.
fn try_widths<R: Abort + AllocGlobal>(
    rt: &R,
    store: &mut ScriptedFiles,
    words: &str,
    is_wide: bool,
    taps: [Place; 2],
) -> Result<(), Fail> {
    let alloc = rt.alloc();
    for width in [1, 2, 15, 16, 17, 31, 32, 33] {
        let [(_, left_x, left_y), (_, right_x, right_y)] = taps;
        let wide = left_x.max(right_x).wrapping_add(width);
        let high = left_y.max(right_y).wrapping_add(2);
        for (name, seed) in [("a.pgm", A), ("b.pgm", B), ("c.pgm", C)] {
            let file = image(alloc, is_wide, seed, (wide, high))?;
            hold(alloc, &mut store.held, name, file.as_slice())?;
        }
        let more = image(alloc, !is_wide, C, (wide, high))?;
        hold(alloc, &mut store.held, "d.pgm", more.as_slice())?;
        let mut out = ScriptedSink::new(alloc, NO_TROUBLE);
        assert_eq!(rt; answer(alloc, words, store, &mut out)?, 0);
        let wanted = lesser(alloc, is_wide, taps, (width, 2))?;
        let written = store.held.get("o.pgm").ok_or("no output")?;
        assert!(rt;
            written.as_slice() == wanted.as_slice(),
            "{words} at {width}"
        );
    }
    Ok(())
}

/// Kernels of the lesser of two pixels, the words of a run of what is selected for them, and their
/// taps.
const KERNELS: &[(&[u8], &str, [Place; 2])] = &[
    (
        b"kernel m\nimage a u8\nimage b u8\nout u8 = min(a[-1,0], b[0,0])\n",
        "run m.s a.pgm b.pgm o.pgm",
        [(A, 0, 0), (B, 1, 0)],
    ),
    (
        b"kernel m\nimage a u8\nimage b u8\nout u8 = min(a[1,0], b[0,0])\n",
        "run m.s a.pgm b.pgm o.pgm",
        [(A, 1, 0), (B, 0, 0)],
    ),
    (
        b"kernel m\nimage a u8\nimage b u8\nout u8 = min(a[0,-1], b[0,0])\n",
        "run m.s a.pgm b.pgm o.pgm",
        [(A, 0, 0), (B, 0, 1)],
    ),
    (
        b"kernel m\nimage a u8\nimage b u8\nout u8 = min(b[-64,10], a[7,-1])\n",
        "run m.s a.pgm b.pgm o.pgm",
        [(B, 0, 11), (A, 71, 0)],
    ),
    (
        b"kernel m\nimage a u8\nimage b u8\nimage d u16\nout u8 = min(b[64,0], a[0,0])\n",
        "run m.s a.pgm b.pgm d.pgm o.pgm",
        [(B, 64, 0), (A, 0, 0)],
    ),
    (
        b"# the lesser\r\nkernel m\r\n\r\nimage a u8 3 200\r\n out u8=min( a[-0,01] ,a[0,0] ) # twice",
        "run m.s a.pgm o.pgm",
        [(A, 0, 1), (A, 0, 0)],
    ),
    (
        b"kernel m\nimage a u8\nimage b u8 3 200\nimage c u8\nout u8 = min(c[0,0], a[0,0])\n",
        "run m.s a.pgm b.pgm c.pgm o.pgm",
        [(C, 0, 0), (A, 0, 0)],
    ),
    (
        b"kernel m\nimage a u8\nout u8 = (min(a[2,2], a[2,2]))\n",
        "run m.s a.pgm o.pgm",
        [(A, 2, 2), (A, 2, 2)],
    ),
];

#[test]
fn kernels_of_u8_run_at_every_width(rt: HostRuntime) -> Result<(), Fail> {
    let alloc = rt.alloc();
    for &(kernel, words, taps) in KERNELS {
        let files = [("m.kern", kernel), ("e.rules", LIFT), ("min.rules", LOWER)];
        let mut store = store_of(alloc, &files, NO_TROUBLE)?;
        let mut out = ScriptedSink::new(alloc, NO_TROUBLE);
        let select = "select neon m.kern e.rules min.rules m.s";
        assert_eq!(rt; answer(alloc, select, &mut store, &mut out)?, 0);
        try_widths(&rt, &mut store, words, false, taps)?;
    }
    Ok(())
}

/// Texts of u16: the columns and the rows of their first tap, and both taps' places.
const SHIFTS: &[(i32, i32, Place, Place)] = &[
    (-1, 0, (A, 0, 0), (B, 1, 0)),
    (1, 0, (A, 1, 0), (B, 0, 0)),
    (0, -1, (A, 0, 0), (B, 0, 1)),
    (64, 0, (A, 64, 0), (B, 0, 0)),
];

/// The code of such a text.
const CODE: &str = "\
add x4, x0, #0
ldr x1, [x4, #32]
ldr x2, [x4, #24]
mov x7, #16
cmp x1, x7
b.lo narrow
mov x3, #0
block:
ldr x5, [x0, #0]
add x5, x5, x3
add x5, x5, x3
ldr q0, [x5, #0]
ldr x5, [x0, #8]
add x5, x5, x3
add x5, x5, x3
ldr q1, [x5, #0]
umin v0.8h, v0.8h, v1.8h
ldr x5, [x0, #16]
add x5, x5, x3
add x5, x5, x3
str q0, [x5, #0]
ldr x5, [x0, #0]
add x5, x5, x3
add x5, x5, x3
ldr q0, [x5, #16]
ldr x5, [x0, #8]
add x5, x5, x3
add x5, x5, x3
ldr q1, [x5, #16]
umin v0.8h, v0.8h, v1.8h
ldr x5, [x0, #16]
add x5, x5, x3
add x5, x5, x3
str q0, [x5, #16]
mov x7, #16
cmp x1, x7
b.lo back
add x3, x3, #16
add x7, x3, #16
cmp x1, x7
b.lo tail
b block
tail:
cmp x3, x1
b.lo last
ret
last:
sub x3, x1, #16
b block
narrow:
mov x3, #0
c00:
ldr x5, [x4, #0]
add x5, x5, x3
add x5, x5, x3
ldrh w6, [x5]
add x7, x2, #128
add x7, x7, x3
add x7, x7, x3
strh w6, [x7]
add x3, x3, #1
cmp x3, x1
b.lo c00
add x7, x2, #128
str x7, [x2, #0]
mov x3, #0
c01:
ldr x5, [x4, #8]
add x5, x5, x3
add x5, x5, x3
ldrh w6, [x5]
add x7, x2, #160
add x7, x7, x3
add x7, x7, x3
strh w6, [x7]
add x3, x3, #1
cmp x3, x1
b.lo c01
add x7, x2, #160
str x7, [x2, #8]
add x7, x2, #192
str x7, [x2, #16]
add x0, x2, #0
mov x3, #0
b block
back:
mov x3, #0
loop:
add x5, x2, #192
add x5, x5, x3
add x5, x5, x3
ldrh w6, [x5]
ldr x7, [x4, #16]
add x7, x7, x3
add x7, x7, x3
strh w6, [x7]
add x3, x3, #1
cmp x3, x1
b.lo loop
ret
";

#[test]
fn texts_of_u16_run_at_every_width(rt: HostRuntime) -> Result<(), Fail> {
    let alloc = rt.alloc();
    for &(dx, dy, left, right) in SHIFTS {
        let images = ".target neon\n.image a u16 0 65535\n.image b u16 0 65535\n";
        let shifted = format!(in alloc;
            "{images}.tap a {dx} {dy}\n.tap b 0 0\n.out u16\n.scratch 224\n"
        )?;
        let text = format!(in alloc;
            "{shifted}.lifted out u16 = min(a[{dx},{dy}], b[0,0])\n.cost 2\n{CODE}"
        )?;
        let mut store = store_of(alloc, &[("m.s", text.as_bytes())], NO_TROUBLE)?;
        try_widths(
            &rt,
            &mut store,
            "run m.s a.pgm b.pgm o.pgm",
            true,
            [left, right],
        )?;
    }
    Ok(())
}
