//! `run`: what is written, and what is refused.

use crate::calls::{NO_TROUBLE, answer, store_of, try_told, try_well};
use crate::scripted::ScriptedSink;
use std::test::Fail;

/// A text that copies an image of 16 columns.
const COPY: &[u8] = b".target neon
.image a u8 0 255
.tap a 0 0
.out u8
.scratch 192
.lifted out u8 = a[0,0]
.cost 0
ldr x5, [x0, #0]
ldr q0, [x5, #0]
ldr x5, [x0, #8]
str q0, [x5, #0]
ret
";

/// Texts of one line of code, and images for them.
const FILES: &[(&str, &[u8])] = &[
    ("copy.s", COPY),
    (
        "base.s",
        b".target neon\n.image a u8 0 255\n.tap a 0 0\n.out u8\n.scratch 192\n.lifted out u8 = a[0,0]\n.cost 0\n\
        ldr x7, [x0, #0]\nldr q0, [x7, #0]\nldr x4, [x0, #8]\nstr q0, [x4, #0]\nret\n",
    ),
    ("none.s", b""),
    ("avx2.s", b".target avx2\n"),
    (
        "copy_avx2.s",
        b".target avx2\n.image a u8 0 255\n.tap a 0 0\n.out u8\n.scratch 256\n.lifted out u8 = a[0,0]\n.cost 0\n\
        mov rax, qword ptr [rdi+0]\nvmovdqu ymm0, ymmword ptr [rax+0]\n\
        mov r10, qword ptr [rdi+8]\nvmovdqu ymmword ptr [r10+0], ymm0\nret\n",
    ),
    (
        "copy_hvx.s",
        b".target hvx\n.image a u8 0 255\n.tap a 0 0\n.out u8\n.scratch 640\n.lifted out u8 = a[0,0]\n.cost 0\n\
        { r5 = memw(r0+#0) }\n{ v0 = vmemu(r5+#0) }\n\
        { r8 = memw(r0+#8) }\n{ vmemu(r8+#0) = v0 }\n{ jumpr r31 }\n",
    ),
    (
        "bogus.s",
        b".target neon\n.image a u8 0 255\n.tap a 0 0\n.out u8\n.scratch 192\n.lifted out u8 = a[0,0]\n.cost 0\nret\nbogus\n",
    ),
    (
        "round.s",
        b".target neon\n.image a u8 0 255\n.tap a 0 0\n.out u8\n.scratch 192\n.lifted out u8 = a[0,0]\n.cost 0\ntop:\nb top\n",
    ),
    (
        "wide.s",
        b".target neon\n.image a u16 0 65535\n.tap a 0 0\n.out u16\n.scratch 192\n.lifted out u16 = a[0,0]\n.cost 0\nret\n",
    ),
    (
        "small.s",
        b".target neon\n.image a u8 0 100\n.tap a 0 0\n.out u8\n.scratch 192\n.lifted out u8 = a[0,0]\n.cost 0\nret\n",
    ),
    (
        "sides.s",
        b".target neon\n.image a u8 0 255\n.tap a -1 0\n.tap a 1 0\n.out u8\n.scratch 192\n.lifted out u8 = min(a[-1,0], a[1,0])\n.cost 0\nret\n",
    ),
    (
        "two.s",
        b".target neon\n.image a u8 0 255\n.image b u8 0 255\n.tap a 0 0\n.tap b 0 0\n\
        .out u8\n.scratch 224\n.lifted out u8 = min(a[0,0], b[0,0])\n.cost 0\nret\n",
    ),
    ("sixteen.pgm", b"P5\n16 1\n255\nabcdefghijklmnop"),
    (
        "row32.pgm",
        b"P5\n32 1\n255\nabcdefghijklmnopABCDEFGHIJKLMNOP",
    ),
    (
        "row128.pgm",
        b"P5\n128 1\n255\nabcdefghijklmnopABCDEFGHIJKLMNOPqrstuvwxyz012345QRSTUVWXYZ6789+-\
        abcdefghijklmnopABCDEFGHIJKLMNOPqrstuvwxyz012345QRSTUVWXYZ6789+-",
    ),
    ("fifteen.pgm", b"P5\n15 1\n255\nabcdefghijklmno"),
    ("five.pgm", b"P5\n5 1\n255\n\x01\x02\x03e\x05"),
    ("two.pgm", b"P5\n2 1\n255\n\x01\x02"),
    ("one.pgm", b"P5\n1 1\n255\n\x01"),
    ("pair.pgm", b"P5\n# c\n2 1\n65535\n\x01\x02\x03\x04"),
    ("short.pgm", b"P5\n# c\n2 1\n65535\n\x01\x02\x03"),
];

#[test]
fn outputs_are_written(rt: HostRuntime) -> Result<(), Fail> {
    let copied = b"P5\n16 1\n255\nabcdefghijklmnop";
    try_well(&rt, FILES, "run copy.s sixteen.pgm o.pgm", copied)?;
    try_well(&rt, FILES, "run base.s sixteen.pgm o.pgm", copied)?;
    let copied = b"P5\n32 1\n255\nabcdefghijklmnopABCDEFGHIJKLMNOP";
    try_well(&rt, FILES, "run copy_avx2.s row32.pgm o.pgm", copied)?;
    let copied = b"P5\n128 1\n255\nabcdefghijklmnopABCDEFGHIJKLMNOPqrstuvwxyz012345QRSTUVWXYZ6789+-\
        abcdefghijklmnopABCDEFGHIJKLMNOPqrstuvwxyz012345QRSTUVWXYZ6789+-";
    try_well(&rt, FILES, "run copy_hvx.s row128.pgm o.pgm", copied)?;
    // Where the code stores nothing the output is zeros.
    let zeros = b"P5\n2 1\n65535\n\0\0\0\0";
    try_well(&rt, FILES, "run wide.s pair.pgm o.pgm", zeros)?;
    try_well(
        &rt,
        FILES,
        "run two.s two.pgm two.pgm o.pgm",
        b"P5\n2 1\n255\n\0\0",
    )
}

const USAGE: &str = "usage: pitchfork select|check|run|eval|explain|demo|migrate\n";

const TOLD: &[(&str, u8, &str, u64)] = &[
    ("run copy.s o.pgm", 2, USAGE, 0),
    ("run copy.s none.pgm o.pgm", 3, "no file: none.pgm\n", 2),
    (
        "run avx2.s sixteen.pgm o.pgm",
        10,
        "avx2.s:2: directive\n",
        1,
    ),
    (
        "run two.s sixteen.pgm o.pgm",
        9,
        "want 2 images, got 1\n",
        1,
    ),
    (
        "run wide.s short.pgm o.pgm",
        9,
        "short.pgm: byte 20: short\n",
        2,
    ),
    (
        "run copy.s pair.pgm o.pgm",
        9,
        "pair.pgm: byte 11: maxval\n",
        2,
    ),
    (
        "run two.s two.pgm one.pgm o.pgm",
        9,
        "one.pgm: size 1 1\n",
        3,
    ),
    (
        "run small.s five.pgm o.pgm",
        9,
        "five.pgm: pixel 3 0 is 101\n",
        2,
    ),
    ("run sides.s two.pgm o.pgm", 9, "no output pixel\n", 2),
    ("run none.s sixteen.pgm o.pgm", 10, "none.s:1: target\n", 1),
    (
        "run bogus.s sixteen.pgm o.pgm",
        10,
        "bogus.s:9: instruction\n",
        1,
    ),
    (
        "run copy.s fifteen.pgm o.pgm",
        11,
        "outside: instruction 2, address 81920, length 16\n",
        2,
    ),
    (
        "run round.s sixteen.pgm o.pgm",
        12,
        "spent: 12336 steps\n",
        2,
    ),
];

#[test]
fn refusals_are_told(rt: HostRuntime) -> Result<(), Fail> {
    try_told(&rt, FILES, TOLD)
}

#[test]
fn long_files_are_refused(rt: HostRuntime) -> Result<(), Fail> {
    let alloc = rt.alloc();
    let long = vec![in alloc; 0; 33_619_969]?;
    let files = [("copy.s", COPY), ("a.pgm", long.as_slice())];
    let mut store = store_of(alloc, &files, NO_TROUBLE)?;
    let mut out = ScriptedSink::new(alloc, NO_TROUBLE);
    let words = "run copy.s a.pgm o.pgm";
    assert_eq!(rt; answer(alloc, words, &mut store, &mut out)?, 9);
    let line = b"a.pgm: byte 33619968: limit\n".as_slice();
    assert_eq!(rt; out.written.as_slice(), line);
    Ok(())
}
