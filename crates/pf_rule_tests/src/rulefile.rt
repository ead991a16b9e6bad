//! Texts that are no rule files: the line of the first fault and its kind, each worked out by hand;
//! and texts that are some.

use RuleTextKind::{Header, Limit, Name, Syntax, Unbound};
use pf_rulefile::{RuleTextFault, RuleTextKind, read_rules, write_rules};
use std::alloc::Global;
use std::process::Abort;
use std::test::Fail;

/// What follows the front of a text, and where the first fault is; in line 0 where there is none.
type Case = (&'static str, u32, RuleTextKind);

/// The line and the kind of a text's first fault, or line 0.
fn fault_of(alloc: Global, text: &[u8]) -> Result<(u32, RuleTextKind), Fail> {
    match read_rules(alloc, text) {
        Ok(_) => Ok((0, Header)),
        Err(RuleTextFault::At { line, kind }) => Ok((line, kind)),
        Err(RuleTextFault::Memory) => Err(Fail::from("no memory")),
    }
}

fn is_told(alloc: Global, front: &str, case: &Case) -> Result<bool, Fail> {
    let mut text = Vec::new(alloc);
    text.extend_from_slice(front.as_bytes())?;
    text.extend_from_slice(case.0.as_bytes())?;
    let (line, kind) = fault_of(alloc, text.as_slice())?;
    Ok(line == case.1 && kind == case.2)
}

/// The first text of which something else is told.
fn wrong(alloc: Global, front: &str, cases: &[Case]) -> Result<&'static str, Fail> {
    for case in cases {
        if !is_told(alloc, front, case)? {
            return Ok(case.0);
        }
    }
    Ok("none")
}

const LEFT: [Case; 81] = [
    ("x + y", 7, Syntax),
    ("x", 6, Syntax),
    ("(x)", 6, Syntax),
    ("{1}u1", 6, Syntax),
    ("({1}u1)", 6, Syntax),
    ("z", 6, Syntax),
    ("u1(x)", 6, Unbound),
    ("{1}u1 + {2}u1", 6, Unbound),
    ("x + z", 6, Name),
    ("u1(z)", 6, Name),
    ("x + w", 6, Syntax),
    ("x + k", 6, Syntax),
    ("x +", 6, Syntax),
    ("+ x", 6, Syntax),
    ("x y", 6, Syntax),
    ("x + y)", 6, Syntax),
    ("(x + y", 6, Syntax),
    ("", 6, Syntax),
    ("x + y >> 1", 7, Syntax),
    ("x + y >> w-1", 6, Syntax),
    ("x + y >> (w-1)", 7, Syntax),
    ("x + y >> (2*w - 3)", 7, Syntax),
    ("x + y >> (-w+9)", 7, Syntax),
    ("x + y >> (2^w)", 6, Syntax),
    ("x + y >> k", 6, Syntax),
    ("x + y >> (k)", 6, Syntax),
    ("x + y >> -1", 6, Syntax),
    ("x + y >> x", 6, Syntax),
    ("x + y > > 1", 6, Syntax),
    ("{1} u1 + x * y", 6, Syntax),
    ("{1}u1 + x * y", 7, Syntax),
    ("{-1}i1 + x * y", 7, Syntax),
    ("{1}u8 + x * y", 6, Syntax),
    ("{1}u3 + x * y", 6, Syntax),
    ("{02^w}u1 + x * y", 6, Syntax),
    ("{2^w-1}u1 + x * y", 7, Syntax),
    ("{ 2 ^ w - 1 }u1 + x * y", 7, Syntax),
    ("{w*2}u1 + x * y", 6, Syntax),
    ("{3*2^(2*w-8)}u1 + x * y", 7, Syntax),
    ("{3*4^w}u1 + x * y", 6, Syntax),
    ("{3*2^(2*k)}u1 + x * y", 6, Syntax),
    ("{12345678901}u1 + x * y", 6, Syntax),
    ("{0000000001}u1 + x * y", 7, Syntax),
    ("{}u1 + x * y", 6, Syntax),
    ("{1+}u1 + x * y", 6, Syntax),
    ("{1}u1 - {+1}u1 + x * y", 6, Syntax),
    ("@add(x, y)", 6, Syntax),
    ("min(x)", 6, Syntax),
    ("min(x, y)", 7, Syntax),
    ("min (x, y)", 7, Syntax),
    ("min(x, y, x)", 6, Syntax),
    ("min(x, y", 6, Syntax),
    ("abs(x, y)", 6, Syntax),
    ("abs(x) + y", 7, Syntax),
    ("rounding_shr(x, 1) + y", 7, Syntax),
    ("rounding_shr(x, y)", 6, Syntax),
    ("rounding_shr(x) + y", 6, Syntax),
    ("mul_shr(x, y)", 6, Syntax),
    ("mul_shr(x, y, w)", 7, Syntax),
    ("saturating_cast(u1, x) + y", 7, Syntax),
    ("saturating_cast(x, u1) + y", 6, Syntax),
    ("saturating_cast(u1) + y", 6, Syntax),
    ("select(x > y, x, y)", 7, Syntax),
    ("select(x < y, x, y)", 7, Syntax),
    ("select(x == y, x, y)", 7, Syntax),
    ("select(x = y, x, y)", 6, Syntax),
    ("select(x, y, x)", 6, Syntax),
    ("select(x > y, x)", 6, Syntax),
    ("x[0,0] + y", 6, Syntax),
    ("x + 1u8 + y", 6, Syntax),
    ("u8(x) + y", 6, Syntax),
    ("u1 x + y", 6, Syntax),
    ("-x + y", 6, Syntax),
    ("x > y", 6, Syntax),
    ("min + x + y", 6, Syntax),
    ("kernel + x + y", 6, Syntax),
    ("q(x) + y", 6, Syntax),
    ("x + Y", 6, Syntax),
    ("x + y # a comment", 7, Syntax),
    ("\tx  +\ty\r", 6, Syntax),
    ("\tx  +\ty\r\n", 7, Syntax),
];

#[test]
fn tells_left(rt: HostRuntime) -> Result<(), Fail> {
    let front = "rules 1 lift\nrule a\nwidths 8 16\nvar x u1\nvar y u1\nleft ";
    assert_eq!(rt; wrong(rt.alloc(), front, &LEFT)?, "none");
    Ok(())
}

const RIGHT: [Case; 29] = [
    ("@add(x, y)", 8, Syntax),
    ("x + y", 7, Syntax),
    ("min(x, y)", 7, Syntax),
    ("@add(x)", 7, Syntax),
    ("@add(x, y, x)", 7, Syntax),
    ("@bogus(x, y)", 7, Name),
    ("@bogus(u1, x, 3)", 7, Name),
    ("@bogus(x, (w))", 7, Name),
    ("@bogus(x, (y))", 7, Name),
    ("@bogus(3)", 7, Syntax),
    ("@bogus()", 7, Syntax),
    ("@bogus(x", 7, Syntax),
    ("@bogus", 7, Syntax),
    ("@bogus(x, k)", 7, Syntax),
    ("@select(x)", 7, Name),
    ("@u1(x)", 7, Name),
    ("@5(x)", 7, Syntax),
    ("@shl(x, 1)", 8, Syntax),
    ("@shl(x)", 7, Syntax),
    ("@bits(i1, x)", 8, Syntax),
    ("@bits(x)", 7, Syntax),
    ("(@add(x, y))", 8, Syntax),
    ("@ add ( x , y )", 8, Syntax),
    ("x", 8, Syntax),
    ("z", 7, Name),
    ("{1}u1", 8, Syntax),
    ("@add(z, y)", 7, Name),
    ("u1(x)", 7, Syntax),
    ("", 7, Syntax),
];

#[test]
fn tells_right(rt: HostRuntime) -> Result<(), Fail> {
    let front = "rules 1 neon\nrule a\nwidths 8\nvar x u1\nvar y u1\nleft x + y\nright ";
    assert_eq!(rt; wrong(rt.alloc(), front, &RIGHT)?, "none");
    Ok(())
}

const WHOLE: [Case; 16] = [
    ("", 1, Header),
    ("\nrules 1 lift\n", 1, Header),
    ("# a comment\n", 1, Header),
    ("rules 3 lift\n", 1, Header),
    ("rules 01 lift\n", 1, Header),
    ("rules 1 sse\n", 1, Header),
    ("rules 1\n", 1, Header),
    ("rules 1 lift x\n", 1, Header),
    ("rule 1 lift\n", 1, Header),
    ("rules 1 lift\n", 0, Header),
    ("rules 2 hvx", 0, Header),
    ("rules 1 avx2 # all\r\n\n# none\n", 0, Header),
    ("rules 1 neon\nend\n", 2, Syntax),
    ("rules 1 neon\nrules 1 neon\n", 2, Syntax),
    ("rules 1 neon\nwidths 8\n", 2, Syntax),
    ("rules 1 neon\n\nbogus\n", 3, Syntax),
];

#[test]
fn tells_whole(rt: HostRuntime) -> Result<(), Fail> {
    let front = "";
    assert_eq!(rt; wrong(rt.alloc(), front, &WHOLE)?, "none");
    Ok(())
}

const RULE: [Case; 14] = [
    ("a", 3, Syntax),
    ("", 2, Syntax),
    ("u1", 2, Syntax),
    ("min", 2, Syntax),
    ("1a", 2, Syntax),
    ("a b", 2, Syntax),
    ("Rule", 2, Syntax),
    ("w", 3, Syntax),
    ("left", 3, Syntax),
    ("abcdefghijklmnopqrstuvwxyzabcdef", 3, Syntax),
    ("abcdefghijklmnopqrstuvwxyzabcdefg", 2, Syntax),
    ("a\nrule b", 3, Syntax),
    ("a\nvar x u1", 3, Syntax),
    ("a\nend", 3, Syntax),
];

#[test]
fn tells_rule(rt: HostRuntime) -> Result<(), Fail> {
    let front = "rules 1 lift\nrule ";
    assert_eq!(rt; wrong(rt.alloc(), front, &RULE)?, "none");
    Ok(())
}

const WIDTHS: [Case; 11] = [
    ("8", 4, Syntax),
    ("8 16 32", 4, Syntax),
    ("", 3, Syntax),
    ("16 8", 3, Syntax),
    ("8 8", 3, Syntax),
    ("08", 3, Syntax),
    ("8,16", 3, Syntax),
    ("64", 3, Syntax),
    ("8\nwidths 8", 4, Syntax),
    ("8\nright x", 4, Syntax),
    ("8\nstep l / fold", 4, Syntax),
];

#[test]
fn tells_widths(rt: HostRuntime) -> Result<(), Fail> {
    let front = "rules 1 lift\nrule a\nwidths ";
    assert_eq!(rt; wrong(rt.alloc(), front, &WIDTHS)?, "none");
    Ok(())
}

const VAR: [Case; 18] = [
    ("x u1", 5, Syntax),
    ("x", 4, Syntax),
    ("w u1", 4, Syntax),
    ("k u1", 4, Syntax),
    ("x u8", 4, Syntax),
    ("min u1", 4, Syntax),
    ("u1 u1", 4, Syntax),
    ("x u1 1", 4, Syntax),
    ("x u1 from 0", 4, Syntax),
    ("x u1 to 1", 4, Syntax),
    ("x u1 from 0 to 2^w-1", 5, Syntax),
    ("x u1 from 0 to k", 4, Syntax),
    ("x u1 from 0 to 1 2", 4, Syntax),
    ("x u1\nvar x u2", 5, Name),
    ("x u1\nwidths 8", 5, Syntax),
    ("x u1\nshift k from 0 to 1", 5, Syntax),
    (
        "a u1\nvar b u1\nvar c u1\nvar d u1\nvar e u1\nvar f u1\nvar g u1\nvar h u1",
        12,
        Syntax,
    ),
    (
        "a u1\nvar b u1\nvar c u1\nvar d u1\nvar e u1\nvar f u1\nvar g u1\nvar h u1\nvar i u1",
        12,
        Limit,
    ),
];

#[test]
fn tells_var(rt: HostRuntime) -> Result<(), Fail> {
    let front = "rules 1 lift\nrule a\nwidths 8\nvar ";
    assert_eq!(rt; wrong(rt.alloc(), front, &VAR)?, "none");
    Ok(())
}

const SHIFT: [Case; 9] = [
    ("k from 0 to w-1", 5, Syntax),
    ("k from 1 to k", 4, Syntax),
    ("k from 2^k to 3", 4, Syntax),
    ("w from 1 to 2", 4, Syntax),
    ("k from 1", 4, Syntax),
    ("k from 1 to 2 3", 4, Syntax),
    ("k from 0 to 1\nshift k from 0 to 1", 5, Syntax),
    ("k from 0 to 1\nvar x u1 from 0 to k\nleft u1(x)", 6, Syntax),
    ("k from 0 to 1\nvar x u1\nleft x >> k", 7, Syntax),
];

#[test]
fn tells_shift(rt: HostRuntime) -> Result<(), Fail> {
    let front = "rules 1 lift\nrule a\nwidths 8\nshift ";
    assert_eq!(rt; wrong(rt.alloc(), front, &SHIFT)?, "none");
    Ok(())
}

const STEP: [Case; 22] = [
    ("step l / fold", 8, Syntax),
    ("step r /0/255 fold", 8, Syntax),
    ("step l /0 / 1 fold", 8, Syntax),
    ("step l / bogus", 7, Name),
    ("step l / min", 7, Name),
    ("step l / u1", 7, Name),
    ("step m / fold", 7, Syntax),
    ("step l fold", 7, Syntax),
    ("step l /256 fold", 7, Syntax),
    ("step l /0/ fold", 7, Syntax),
    ("step l /", 7, Syntax),
    ("step l / use a", 7, Syntax),
    ("step l / use", 7, Name),
    ("step l / fold fold", 7, Syntax),
    ("step l / 1", 7, Syntax),
    ("end x", 7, Syntax),
    ("end", 0, Header),
    ("right x", 7, Syntax),
    ("left u1(x)", 7, Syntax),
    ("end\nend", 8, Syntax),
    ("end\nrule a", 8, Name),
    ("end\nrule b", 9, Syntax),
];

#[test]
fn tells_step(rt: HostRuntime) -> Result<(), Fail> {
    let front = "rules 1 lift\nrule a\nwidths 8\nvar x u1\nleft u1(x)\nright x\n";
    assert_eq!(rt; wrong(rt.alloc(), front, &STEP)?, "none");
    Ok(())
}

const CITE: [Case; 6] = [
    ("step l / use a", 14, Syntax),
    ("step l / use b", 13, Name),
    ("step l / use c", 13, Name),
    ("step l / use min", 13, Syntax),
    ("step l / use", 13, Name),
    ("step l / fold\nstep r / use a\nend", 0, Header),
];

#[test]
fn tells_cite(rt: HostRuntime) -> Result<(), Fail> {
    let front =
        "rules 2 lift\nrule a\nwidths 8\nvar x u1\nleft u1(x)\nright x\nend\nrule b\nwidths 8\nvar x u1\nleft u1(x)\nright x\n";
    assert_eq!(rt; wrong(rt.alloc(), front, &CITE)?, "none");
    Ok(())
}

/// A left side that repeats a part between its ends, so many times.
fn repeated(
    alloc: Global,
    first: &str,
    part: &str,
    count: usize,
    last: &str,
) -> Result<(u32, RuleTextKind), Fail> {
    let mut text = Vec::new(alloc);
    text.extend_from_slice(b"rules 1 lift\nrule a\nwidths 8\nvar x u1\nleft ")?;
    text.extend_from_slice(first.as_bytes())?;
    for _ in 0..count {
        text.extend_from_slice(part.as_bytes())?;
    }
    text.extend_from_slice(last.as_bytes())?;
    fault_of(alloc, text.as_slice())
}

/// So many brackets around an operator, and those that close them.
fn nested(alloc: Global, count: usize) -> Result<(u32, RuleTextKind), Fail> {
    let mut text = Vec::new(alloc);
    text.extend_from_slice(b"rules 1 lift\nrule a\nwidths 8\nvar x u1\nleft ")?;
    for _ in 0..count {
        text.push(b'(')?;
    }
    text.extend_from_slice(b"x + x")?;
    for _ in 0..count {
        text.push(b')')?;
    }
    fault_of(alloc, text.as_slice())
}

#[test]
fn keeps_limits(rt: HostRuntime) -> Result<(), Fail> {
    let alloc = rt.alloc();
    // 64 nodes, 32 variables, 31 sums and a cast; and 65.
    assert!(rt; repeated(alloc, "u1(x", " + x", 31, ")")? == (6, Syntax));
    assert!(rt; repeated(alloc, "x", " + x", 32, "")? == (5, Limit));
    assert!(rt; repeated(alloc, "x", " + x", 2000, " + z")? == (5, Name));
    assert!(rt; repeated(alloc, "x", " >> 1", 2000, " >>")? == (5, Syntax));
    assert!(rt; repeated(alloc, "{1", " + 1", 2000, "}u1 * x")? == (6, Syntax));
    assert!(rt; nested(alloc, 400)? == (6, Syntax));
    assert!(rt; nested(alloc, 1025)? == (5, Syntax));
    Ok(())
}

/// Brackets as deep as they may be.
#[test]
fn reads_deep_brackets(rt: HostRuntime) -> Result<(), Fail> {
    assert!(rt; nested(rt.alloc(), 1024)? == (6, Syntax));
    Ok(())
}

/// A line of half a million operators is refused by its count.
#[test]
fn refuses_long_chains(rt: HostRuntime) -> Result<(), Fail> {
    let told = repeated(rt.alloc(), "x", " + x", 500_000, "")?;
    assert!(rt; told == (5, Limit));
    Ok(())
}

const HALVE: &str =
    "rules 1 lift\nrule halve_u\nwidths 8 16\nvar x u1\nvar y u1\nleft u1((u2(x) + u2(y)) >> 1)\nright halving_add(x, y)\nstep l /0/0/0/0 drop_wrap\nstep l /0/0/0/1 drop_wrap\nstep l /0/0 drop_wrap\nstep l / drop_wrap\nend\n";

/// Each front of the text but the header's, and the whole without its last LF, is refused.
#[test]
fn reads_no_front(rt: HostRuntime) -> Result<(), Fail> {
    let alloc = rt.alloc();
    let text = HALVE.as_bytes();
    let mut read: usize = 0;
    for end in 0..text.len() {
        let (line, _) = fault_of(alloc, &text[..end])?;
        if line == 0 {
            read = read.saturating_add(1);
        }
    }
    assert_eq!(rt; read, 3);
    assert!(rt; fault_of(alloc, text)?.0 == 0);
    Ok(())
}

/// What is written of what is read.
fn written(alloc: Global, text: &str) -> Result<Vec<u8>, Fail> {
    match read_rules(alloc, text.as_bytes()) {
        Ok(file) => Ok(write_rules(alloc, &file)?),
        Err(_) => Err(Fail::from("no rules")),
    }
}

const LOOSE: &str =
    "rules 2 neon # all\r\n\nrule a\nwidths  8 16\nshift k from 01 to w - 1\nvar x u1 from -0 to 1*2 ^ (w-1*k)+3\nvar y i2\nleft select(x < y, x, {2^w - 1}u1)+x*x>>k\nright @shl( (x),(2*k) )\nstep l /0 / 1 fold\nend\nrule b\nwidths 32\nvar z u1\nleft rounding_shr(saturating_cast(i1, z), 3)\nright @sat_narrow(u1, z)\nstep r / use a\nend";

const TIGHT: &str =
    "rules 2 neon\nrule a\nwidths 8 16\nshift k from 1 to w-1\nvar x u1 from -0 to 2^(w-k)+3\nvar y i2\nleft ((select(y > x, x, {2^w-1}u1) + (x * x)) >> k)\nright @shl(x, (2*k))\nstep l /0/1 fold\nend\nrule b\nwidths 32\nvar z u1\nleft rounding_shr(saturating_cast(i1, z), 3)\nright @sat_narrow(u1, z)\nstep r / use a\nend\n";

/// A text is written without what is loose, and read back.
#[test]
fn writes_rules(rt: HostRuntime) -> Result<(), Fail> {
    let alloc = rt.alloc();
    assert!(rt; written(alloc, LOOSE)?.as_slice() == TIGHT.as_bytes());
    assert!(rt; written(alloc, TIGHT)?.as_slice() == TIGHT.as_bytes());
    Ok(())
}
