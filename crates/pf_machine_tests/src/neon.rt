//! Instructions of neon, one at a time: their lines, and what they name.

use pf_isa::{Isa, Reg};
use pf_neon::Neon;
use std::process::Abort;
use std::test::Fail;

/// Lines of vector instructions as they are printed, and with other blanks.
const VECTOR_LINES: &[(&[u8], &[u8])] = &[
    (b"ldr q31, [x5, #112]", b"\t ldr \t q31,[x5,#112] "),
    (b"ldr q0, [x5, #16]", b"ldr q0,[x5,\t\t#16]"),
    (b"str q7, [x5, #0]", b"str q7, [x5, #0]\t"),
    (b"ldr q0, [x7, #0]", b"ldr q0,[x7,#0]"),
    (b"str q9, [x0, #32]", b" str q9,  [x0, #32]"),
    (b"mov v3.16b, v10.16b", b" mov\tv3.16b,v10.16b"),
    (
        b"umin v0.16b, v1.16b, v2.16b",
        b"umin v0.16b,  v1.16b, v2.16b",
    ),
    (
        b"umin v28.8h, v29.8h, v30.8h",
        b"umin  v28.8h,\tv29.8h,  v30.8h\t",
    ),
    (b"umin v9.4s, v9.4s, v9.4s", b"\tumin v9.4s,v9.4s,v9.4s"),
];

/// Lines that are no vector instruction.
const NO_VECTOR_LINES: &[&[u8]] = &[
    b"",
    b"ldr q0 , [x5, #16]",
    b"ldr q0, [ x5, #16]",
    b"ldr q0, [x5, #16 ]",
    b"ldrq0, [x5, #16]",
    b"ldr q00, [x5, #16]",
    b"ldr q0, [x5, #+16]",
    b"LDR q0, [x5, #16]",
    b"ldr q32, [x5, #16]",
    b"ldr q0, [x5, #17]",
    b"ldr q0, [x5, #128]",
    b"ldr q0, [x8, #16]",
    b"ldr q0, [x5]",
    b"mov v0.8h, v1.8h",
    b"umin v0.16b, v1.8h, v2.16b",
    b"umin v0.16b, v1.16b",
    b"umin v0.16b, v1.16b, v2.16b, v3.16b",
    b"umin v0.16b, v1.16b, v2.16bbbbbbbbbbbbbbbbbbbbbbbbbbbbbbbbbbbbbbbbbbbbbbbbbbbbbbbbbbbbbbbbb",
    b"shl v0.16b, v1.16b, #8",
    b"ushr v0.16b, v1.16b, #0",
    b"shrn v0.8b, v1.8h, #9",
    b"umull2 v0.8h, v1.8b, v2.8b",
    b"sqdmulh v0.16b, v1.16b, v2.16b",
    b"mov w11, #65536",
    b"ldr x5, [x0, #8]",
];

/// Tries that a line of a vector instruction is printed so.
fn try_vector_line<R: Abort + AllocGlobal>(rt: &R, line: &[u8], wanted: &[u8]) -> Result<(), Fail> {
    let op = Neon::parse(line).ok_or("no instruction")?;
    assert_eq!(rt; Neon::print(&op).as_slice(), wanted);
    Ok(())
}

fn try_vector_lines<R: Abort + AllocGlobal>(
    rt: &R,
    lines: &[(&[u8], &[u8])],
    others: &[&[u8]],
) -> Result<(), Fail> {
    for &(printed, other) in lines {
        try_vector_line(rt, printed, printed)?;
        try_vector_line(rt, other, printed)?;
    }
    for &line in others {
        assert!(rt; Neon::parse(line).is_none(), "{line:?}");
    }
    Ok(())
}

#[test]
fn vector_lines_are_read(rt: HostRuntime) -> Result<(), Fail> {
    try_vector_lines(&rt, VECTOR_LINES, NO_VECTOR_LINES)
}

/// Lines of control instructions as they are printed. What they do is tried by programs.
const CONTROL_LINES: &[&[u8]] = &[
    b"ldr x5, [x0, #8]",
    b"str x5, [x2, #2040]",
    b"mov x3, #0",
    b"mov x3, #65535",
    b"add x5, x5, #16",
    b"sub x7, x1, #4095",
    b"add x0, x0, #4095",
    b"add x0, x0, #1, lsl #12",
    b"add x0, x0, #4095, lsl #12",
    b"add x5, x5, x3",
    b"ldrb w6, [x5]",
    b"ldrh w6, [x5]",
    b"strb w6, [x7]",
    b"strh w6, [x7]",
    b"cmp x7, x1",
    b"b.lo more_2",
    b"b more_2",
    b"ret",
];

/// Lines that are no control instruction.
const NO_CONTROL_LINES: &[&[u8]] = &[
    b"add x5, x5, #4096",
    b"add x5, x5, #0, lsl #12",
    b"add x5, x5, #4096, lsl #12",
    b"sub x7, x1, #0",
    b"sub x7, x1, #1, lsl #12",
    b"sub x7, x1, x2",
    b"add x8, x0, #1",
    b"mov x3, #65536",
    b"ldr x5, [x0, #4]",
    b"ldr x5, [x0, #2048]",
    b"ldrb x6, [x5]",
    b"ret x",
    b"b out",
    b"b.lo 1",
    b"b more:",
    b"ldr q0, [x5, #16]",
];

fn try_control_lines<R: Abort + AllocGlobal>(
    rt: &R,
    lines: &[&[u8]],
    others: &[&[u8]],
) -> Result<(), Fail> {
    for &line in lines {
        let ctl = Neon::parse_ctl(line).ok_or("no instruction")?;
        assert_eq!(rt; Neon::print_ctl(&ctl).as_slice(), line);
    }
    for &line in others {
        assert!(rt; Neon::parse_ctl(line).is_none(), "{line:?}");
    }
    Ok(())
}

#[test]
fn control_lines_are_read(rt: HostRuntime) -> Result<(), Fail> {
    try_control_lines(&rt, CONTROL_LINES, NO_CONTROL_LINES)
}

#[test]
fn operations_tell_what_they_name(rt: HostRuntime) -> Result<(), Fail> {
    let op = Neon::parse(b"umin v4.16b, v5.16b, v6.16b").ok_or("no instruction")?;
    assert_eq!(rt; Neon::cost(&op), 1);
    assert!(rt; Neon::uses(&op).get(1) == Some(Reg::V(6)));
    assert!(rt; Neon::defs(&op).get(0) == Some(Reg::V(4)));
    let other = Neon::print(&Neon::rename(op, 5, 9));
    assert!(rt; other.as_slice() == "umin v4.16b, v9.16b, v6.16b".as_bytes());
    let access = Neon::access(&Neon::load(4, 3)).ok_or("no load")?;
    assert_eq!(rt; (access.vector, access.base, access.offset), (4, 5, 48));
    Ok(())
}
