//! `select`: what is written, and what is refused.

use crate::calls::{NO_TROUBLE, answer, store_of, try_told, try_well};
use crate::scripted::ScriptedSink;
use std::test::Fail;

pub const LIFT: &[u8] = b"rules 1 lift\n";

pub const LOWER: &[u8] = b"rules 1 neon
rule least
widths 8 16 32
var x u1
var y u1
left min(x, y)
right @min(x, y)
end
";

const FILES: &[(&str, &[u8])] = &[
    ("e.rules", LIFT),
    ("min.rules", LOWER),
    (
        "m.kern",
        b"kernel m\nimage a u8\nimage b u8\nout u8 = min(a[0,0], b[0,0])\n",
    ),
    ("cut.kern", b"kernel m\n"),
    (
        "max.kern",
        b"kernel m\nimage a u8\nout u8 = max(a[0,0], a[1,0])\n",
    ),
    (
        "blank.kern",
        b"kernel m\nimage a u8\nout u8 = min(a[0,0] a[0,0])\n",
    ),
    (
        "name.kern",
        b"kernel m\nimage a u8\nout u8 = min(a[0,0], b[0,0])\n",
    ),
    (
        "types.kern",
        b"kernel m\nimage a u8\nimage b u16\nout u8 = min(a[0,0], b[0,0])\n",
    ),
    (
        "far.kern",
        b"kernel m\nimage a u8\nout u8 = min(a[0,0], a[0,-65])\n",
    ),
    ("one.kern", b"kernel m\nimage a u8\nout u8 = a[0,0]\n"),
    (
        "wide.kern",
        b"kernel m\nimage a u16\nimage b u16\nout u16 = min(a[0,0], b[0,0])\n",
    ),
    (
        "three.kern",
        b"kernel m\nimage a u8\nout u8 = min(a[0,0], min(a[1,0], a[2,0]))\n",
    ),
    (
        "number.kern",
        b"kernel m\nimage a u8\nout u8 = min(a[0,0], 3u8)\n",
    ),
    (
        "def.kern",
        b"kernel m\nimage a u8\ndef d u8 = a[0,0]\nout u8 = min(a[0,0], a[1,0])\n",
    ),
];

const USAGE: &str = "usage: pitchfork select|check|run|eval|explain|demo|migrate\n";

const TOLD: &[(&str, u8, &str, u64)] = &[
    ("select neon", 2, USAGE, 0),
    ("select sse m.kern e.rules min.rules m.s", 2, USAGE, 0),
    (
        "select hvx m.kern e.rules min.rules m.s",
        8,
        "not built: hvx\n",
        0,
    ),
    (
        "select neon x.kern e.rules min.rules m.s",
        3,
        "no file: x.kern\n",
        1,
    ),
    (
        "select neon cut.kern e.rules min.rules m.s",
        5,
        "cut.kern:2: syntax at column 1\n",
        1,
    ),
    (
        "select neon blank.kern e.rules min.rules m.s",
        5,
        "blank.kern:3: syntax at column 21\n",
        1,
    ),
    (
        "select neon name.kern e.rules min.rules m.s",
        5,
        "name.kern:3: name b\n",
        1,
    ),
    (
        "select neon types.kern e.rules min.rules m.s",
        5,
        "types.kern:4: types: want u8, got u16\n",
        1,
    ),
    (
        "select neon far.kern e.rules min.rules m.s",
        5,
        "far.kern: limit offset is -65\n",
        1,
    ),
    (
        "select neon max.kern e.rules min.rules m.s",
        8,
        "not built: max.kern\n",
        1,
    ),
    (
        "select neon one.kern e.rules min.rules m.s",
        8,
        "not built: one.kern\n",
        1,
    ),
    (
        "select neon wide.kern e.rules min.rules m.s",
        8,
        "not built: wide.kern\n",
        1,
    ),
    (
        "select neon three.kern e.rules min.rules m.s",
        8,
        "not built: three.kern\n",
        1,
    ),
    (
        "select neon number.kern e.rules min.rules m.s",
        8,
        "not built: number.kern\n",
        1,
    ),
    (
        "select neon def.kern e.rules min.rules m.s",
        8,
        "not built: def.kern\n",
        1,
    ),
    (
        "select neon m.kern min.rules min.rules m.s",
        8,
        "not built: min.rules\n",
        2,
    ),
    (
        "select neon m.kern e.rules e.rules m.s",
        8,
        "not built: e.rules\n",
        3,
    ),
];

#[test]
fn refusals_are_told(rt: HostRuntime) -> Result<(), Fail> {
    try_told(&rt, FILES, TOLD)
}

/// What is selected for the kernel of `m.kern`.
const SELECTED: &[u8] = b"\
.target neon
.image a u8 0 255
.image b u8 0 255
.tap a 0 0
.tap b 0 0
.out u8
.scratch 224
.lifted out u8 = min(a[0,0], b[0,0])
.cost 1
add x4, x0, #0
ldr x1, [x4, #32]
ldr x2, [x4, #24]
mov x7, #16
cmp x1, x7
b.lo narrow
mov x3, #0
block:
ldr x5, [x0, #0]
add x5, x5, x3
ldr q0, [x5, #0]
ldr x5, [x0, #8]
add x5, x5, x3
ldr q1, [x5, #0]
umin v0.16b, v0.16b, v1.16b
ldr x5, [x0, #16]
add x5, x5, x3
str q0, [x5, #0]
mov x7, #16
cmp x1, x7
b.lo back
add x3, x3, #16
add x7, x3, #16
cmp x1, x7
b.lo tail
b block
tail:
cmp x3, x1
b.lo last
ret
last:
sub x3, x1, #16
b block
narrow:
mov x3, #0
c00:
ldr x5, [x4, #0]
add x5, x5, x3
ldrb w6, [x5]
add x7, x2, #128
add x7, x7, x3
strb w6, [x7]
add x3, x3, #1
cmp x3, x1
b.lo c00
add x7, x2, #128
str x7, [x2, #0]
mov x3, #0
c01:
ldr x5, [x4, #8]
add x5, x5, x3
ldrb w6, [x5]
add x7, x2, #160
add x7, x7, x3
strb w6, [x7]
add x3, x3, #1
cmp x3, x1
b.lo c01
add x7, x2, #160
str x7, [x2, #8]
add x7, x2, #192
str x7, [x2, #16]
add x0, x2, #0
mov x3, #0
b block
back:
mov x3, #0
loop:
add x5, x2, #192
add x5, x5, x3
ldrb w6, [x5]
ldr x7, [x4, #16]
add x7, x7, x3
strb w6, [x7]
add x3, x3, #1
cmp x3, x1
b.lo loop
ret
";

#[test]
fn texts_are_selected(rt: HostRuntime) -> Result<(), Fail> {
    try_well(
        &rt,
        FILES,
        "select neon m.kern e.rules min.rules m.s",
        SELECTED,
    )
}
