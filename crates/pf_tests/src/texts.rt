//! Texts of programs that are read, refused and written.

use crate::tables::{cells, joined, lines_of, same, same_bytes};
use pf_ints::Target;
use pf_isa::{Program, TextFault, read_text, reread, target_of, write_text};
use pf_neon::Neon;
use std::alloc::{AllocError, Global};
use std::process::Abort;
use std::test::Fail;

const HEAD: &[u8] = b".target neon
.image a u8 0 255
.tap a 0 0
.out u8
.scratch 192
.lifted out u8 = a[0,0]
.cost 0
";

/// The program of a text, read a second time from its own text.
fn read_twice(alloc: Global, text: &[u8]) -> Result<Program<Neon>, TextFault> {
    let program = read_text::<Neon>(alloc, text)?;
    reread(alloc, &program)
}

/// What is written of a text.
fn written(alloc: Global, text: &[u8]) -> Result<Vec<u8>, Fail> {
    let program = read_twice(alloc, text)?;
    Ok(write_text(alloc, &program)?)
}

/// Tries that this is written of a text.
fn try_written<R: Abort + AllocGlobal>(rt: &R, text: &[u8], wanted: &[u8]) -> Result<(), Fail> {
    let written = written(rt.alloc(), text)?;
    same_bytes(rt, written.as_slice(), wanted);
    Ok(())
}

#[test]
fn texts_are_read_up_to_blanks(rt: HostRuntime) -> Result<(), Fail> {
    let tight = b"top:\nldr x5, [x0, #0]\nb.lo top\nb end\nend:\n";
    let wanted = joined(rt.alloc(), HEAD, tight)?;
    try_written(&rt, wanted.as_slice(), wanted.as_slice())?;
    let spaced =
        b"\t.target \t neon \r\n.image a u8 0  255\n .tap a 0 0\r\n.out u8\n.scratch\t192\n.lifted  out u8 =a [ 0 , 0 ]\t\n.cost 0\r\n\n// b none\r\n\
          \x20\ttop:\t// b none\n\tldr  x5,[x0,\t#0] // \r\nb.lo\ttop//\n\nb end\n\nend: //";
    try_written(&rt, spaced, wanted.as_slice())
}

#[test]
fn heads_are_read_at_their_limits(rt: HostRuntime) -> Result<(), Fail> {
    let text = b".target neon
.image a u8 0 255
.image b u16 0 65535
.image c u8 7 7
.image d u8 0 0
.image e u8 255 255
.image f u8 0 1
.image g u8 0 1
.image h u16 65535 65535
.tap h 64 -64
.tap a -64 64
.out u16
.scratch 1073741824
.lifted x i16 = i16(a[-64,64])
.lifted out u16 = h[64,-64]
.cost 18446744073709551615
ret
";
    try_written(&rt, text, text)
}

/// The line and the kind of a text's first fault.
fn told(alloc: Global, text: &[u8]) -> Result<String, Fail> {
    match read_text::<Neon>(alloc, text).err() {
        Some(TextFault::At { line, kind }) => Ok(format!(in alloc; "{line} {kind}")?),
        _ => Err("no fault".into()),
    }
}

fn try_fault<R: Abort + AllocGlobal>(rt: &R, text: &[u8], wanted: &str) -> Result<(), Fail> {
    let told = told(rt.alloc(), text)?;
    same(rt, told.as_str(), wanted);
    Ok(())
}

/// The line and the kind of the first fault of lines behind a head.
const FAULTS: &str = "\
10 noend | top:;// ret;;
10 noend | ret;top:;b.lo top;
9 label | b more;b none;more:;
10 label | top:;b none; top: //;bogus;
10 instruction | b none;ret;out:;
8 instruction | ret // \r x;ret
9 instruction | ret;top :;
9 instruction | ret;/ ret
10 instruction | ret;mov v0.16b, v1.16b;bogus
";

/// The number of the first line that no head has there and its kind, and the lines of a head behind
/// that of the target up to this one: images, taps, types of outputs, scratches, lifted terms, costs,
/// and what stands between.
const HEADS: &str = "\
2 directive | .image a u8 7 6
2 directive | .image a u8 0 256
2 directive | .image a u8 007 255
2 directive | .image a u8 0
2 directive | .image a i8 0 100
2 directive | .image min u8 0 255
3 directive | .image a u8 0 255;.image a u8 0 255
4 directive | .image a u8 0 255;.tap a 0 0;.image b u8 0 255
10 directive | .image a u8 0 1;.image b u8 0 1;.image c u8 0 1;.image d u8 0 1;.image e u8 0 1;.image f u8 0 1;\
    .image g u8 0 1;.image h u8 0 1;.image i u8 0 1
2 directive | .tap a 0 0
3 directive | .image a u8 0 255;.tap b 0 0
3 directive | .image a u8 0 255;.tap a 65 0
3 directive | .image a u8 0 255;.tap a 0 -65
3 directive | .image a u8 0 255;.tap a -0 0
5 directive | .image a u8 0 255;.tap a 0 0;.tap a 1 0;.tap a 0 0
2 directive | .out u8
3 directive | .image a u8 0 255;.out u32
4 directive | .image a u8 0 255;.out u8;.out u8
4 directive | .image a u8 0 255;.out u8;.scratch 1073741825
4 directive | .image a u8 0 255;.out u8;.scratch -1
6 directive | .image a u8 0 255;.tap a 0 0;.out u8;.scratch 0;.lifted out u8 = a[1,0]
6 directive | .image a u8 0 255;.tap a 0 0;.out u8;.scratch 0;.lifted out u16 = a[0,0]
6 directive | .image a u8 0 255;.tap a 0 0;.out u8;.scratch 0;.lifted a u8 = a[0,0]
6 directive | .image a u8 0 255;.tap a 0 0;.out u8;.scratch 0;.lifted max u8 = a[0,0]
6 directive | .image a u8 0 255;.tap a 0 0;.out u8;.scratch 0;.lifted x u8 = out
6 directive | .image a u8 0 255;.out u8;.scratch 0;.lifted x u8 = 1u8;.cost 0
6 directive | .image a u8 0 255;.out u8;.scratch 0;.lifted out u8 = 1u8;.cost 18446744073709551616
6 directive | .image a u8 0 255;.out u8;.scratch 0;.lifted out u8 = 1u8;.cost 00
6 directive | .image a u8 0 255;.out u8;.scratch 0;.lifted out u8 = 1u8;ret
3 directive | .image a u8 0 255;;.out u8
2 directive | .image a u8 0 255 // a;.out u8
2 directive | // a;.image a u8 0 255
";

/// Tries the lines of a row behind a front.
fn try_row<R: Abort + AllocGlobal>(rt: &R, front: &[u8], row: &str) -> Result<(), Fail> {
    let (wanted, lines) = cells(row)?;
    let lines = lines_of(rt.alloc(), lines)?;
    let text = joined(rt.alloc(), front, lines.as_slice())?;
    try_fault(rt, text.as_slice(), wanted)
}

fn try_rows<R: Abort + AllocGlobal>(rt: &R, front: &[u8], rows: &str) -> Result<(), Fail> {
    for row in rows.lines() {
        try_row(rt, front, row)?;
    }
    Ok(())
}

#[test]
fn first_faults_are_told(rt: HostRuntime) -> Result<(), Fail> {
    try_fault(&rt, HEAD, "7 noend")?;
    try_rows(&rt, HEAD, FAULTS)?;
    // A CR is a part of a line's end before LF alone.
    let text = joined(rt.alloc(), HEAD, b"ret\r")?;
    try_fault(&rt, text.as_slice(), "8 instruction")?;
    try_rows(&rt, b".target neon\n", HEADS)
}

/// Tries a head of which the lines behind so many are cut off.
fn try_cut<R: Abort + AllocGlobal>(rt: &R, head: &[u8], lines: u64) -> Result<(), Fail> {
    let line = format!(in rt.alloc(); "{lines} directive")?;
    try_fault(rt, head, line.as_str())
}

#[test]
fn heads_that_are_cut_are_refused(rt: HostRuntime) -> Result<(), Fail> {
    let mut line = 1;
    for (i, byte) in HEAD.iter().enumerate() {
        if *byte == b'\n' && line < 7 {
            line += 1;
            try_cut(&rt, &HEAD[..i], line)?;
        }
    }
    Ok(())
}

/// A front, and behind it 72 lines of these parts, with a digit between each two.
fn lines_behind(alloc: Global, front: &[u8], parts: [&[u8]; 3]) -> Result<Vec<u8>, AllocError> {
    let mut text = Vec::from_slice(alloc, front)?;
    for tens in b'0'..=b'7' {
        for units in b'0'..=b'8' {
            text.extend_from_slice(parts[0])?;
            text.push(tens)?;
            text.extend_from_slice(parts[1])?;
            text.push(units)?;
            text.extend_from_slice(parts[2])?;
        }
    }
    Ok(text)
}

#[test]
fn heads_have_64_taps_and_terms(rt: HostRuntime) -> Result<(), Fail> {
    let front = b".target neon\n.image a u8 0 255\n";
    let taps = lines_behind(rt.alloc(), front, [b".tap a ", b" ", b"\n"])?;
    try_fault(&rt, taps.as_slice(), "67 directive")?;
    let front = b".target neon\n.image a u8 0 255\n.out u8\n.scratch 0\n";
    let terms = lines_behind(rt.alloc(), front, [b".lifted x", b"", b" u8 = 1u8\n"])?;
    try_fault(&rt, terms.as_slice(), "69 directive")
}

/// A text whose lifted line adds up the pixel this often.
fn sum_of(alloc: Global, operands: u64) -> Result<Vec<u8>, AllocError> {
    let mut text = Vec::from_slice(alloc, b".target neon\n.image a u8 0 255\n")?;
    text.extend_from_slice(b".tap a 0 0\n.out u8\n.scratch 192\n.lifted out u8 = 0u8")?;
    for _ in 0..operands {
        text.extend_from_slice(b"+a[0,0]")?;
    }
    text.extend_from_slice(b"\n.cost 0\nret\n")?;
    Ok(text)
}

#[test]
fn heads_have_1536_nodes(rt: HostRuntime) -> Result<(), Fail> {
    for operands in [768, 1_600, 50_000] {
        let text = sum_of(rt.alloc(), operands)?;
        try_fault(&rt, text.as_slice(), "6 directive")?;
    }
    Ok(())
}

#[test]
fn targets_are_told(rt: HostRuntime) -> Result<(), Fail> {
    assert!(rt; target_of(HEAD) == Some(Target::Neon));
    assert!(rt; target_of(b" .target \thvx") == Some(Target::Hvx));
    for text in ["", "\n", ".target none\n", ".targetneon"] {
        assert!(rt; target_of(text.as_bytes()).is_none());
    }
    for text in ["", ".target avx2\n", "\n.target neon\n"] {
        try_fault(&rt, text.as_bytes(), "1 target")?;
    }
    Ok(())
}
