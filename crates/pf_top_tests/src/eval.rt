//! `eval`: what is written, and what is refused.

use crate::calls::{NO_TROUBLE, answer, store_of, try_told, try_well};
use crate::scripted::ScriptedSink;
use std::test::Fail;

const FILES: &[(&str, &[u8])] = &[
    (
        "ten.kern",
        b"kernel t\nimage a u8\nout u8 = a[0,0] + 10u8\n",
    ),
    (
        "small.kern",
        b"kernel m\nimage a u8 0 100\nimage b u8\nout u8 = min(a[0,0], b[0,0])\n",
    ),
    (
        "sides.kern",
        b"kernel s\nimage a u8\nout u8 = min(a[-1,0], a[1,0])\n",
    ),
    (
        "mixed.kern",
        b"kernel k\nimage a u8\nimage b u16\nout u16 = a[0,0] + b[0,0]\n",
    ),
    ("none.kern", b""),
    ("name.kern", b"kernel k\nimage a u8\nout u8 = b[0,0]\n"),
    ("far.kern", b"kernel k\nimage a u8\nout u8 = a[65,0]\n"),
    ("one.pgm", b"P5\n1 1\n255\n\xfa"),
    ("two.pgm", b"P5\n2 1\n255\n\x07\x09"),
    ("five.pgm", b"P5\n5 1\n255\n\x00\x01\x02\x65\x04"),
];

#[test]
fn outputs_are_written(rt: HostRuntime) -> Result<(), Fail> {
    try_well(
        &rt,
        FILES,
        "eval ten.kern one.pgm o.pgm",
        b"P5\n1 1\n255\n\x04",
    )?;
    try_well(
        &rt,
        FILES,
        "eval small.kern two.pgm two.pgm o.pgm",
        b"P5\n2 1\n255\n\x07\x09",
    )
}

const TOLD: &[(&str, u8, &str, u64)] = &[
    (
        "eval mixed.kern one.pgm one.pgm o.pgm",
        5,
        "mixed.kern:4: types: want u8, got u16\n",
        1,
    ),
    (
        "eval none.kern one.pgm o.pgm",
        5,
        "none.kern:1: syntax at column 1\n",
        1,
    ),
    (
        "eval name.kern one.pgm o.pgm",
        5,
        "name.kern:3: name b\n",
        1,
    ),
    (
        "eval far.kern one.pgm o.pgm",
        5,
        "far.kern: limit offset is 65\n",
        1,
    ),
    (
        "eval small.kern one.pgm o.pgm",
        9,
        "want 2 images, got 1\n",
        1,
    ),
    (
        "eval small.kern five.pgm five.pgm o.pgm",
        9,
        "five.pgm: pixel 3 0 is 101\n",
        3,
    ),
    ("eval sides.kern two.pgm o.pgm", 9, "no output pixel\n", 2),
];

#[test]
fn refusals_are_told(rt: HostRuntime) -> Result<(), Fail> {
    try_told(&rt, FILES, TOLD)
}

#[test]
fn long_kernels_are_refused(rt: HostRuntime) -> Result<(), Fail> {
    let alloc = rt.alloc();
    let long = vec![in alloc; b'#'; 65_538]?;
    let mut store = store_of(alloc, &[("k.kern", long.as_slice())], NO_TROUBLE)?;
    let mut out = ScriptedSink::new(alloc, NO_TROUBLE);
    let words = "eval k.kern a.pgm o.pgm";
    assert_eq!(rt; answer(alloc, words, &mut store, &mut out)?, 5);
    let line = b"k.kern: limit bytes is 65537\n".as_slice();
    assert_eq!(rt; out.written.as_slice(), line);
    Ok(())
}
