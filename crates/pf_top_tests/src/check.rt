//! Calls of `check` and `migrate`.

use crate::calls::{Call, Held, NO_TROUBLE, answer, store_of, try_call, try_well};
use crate::scripted::ScriptedSink;
use std::process::Abort;
use std::test::Fail;

const FILES: Held<'_> = &[
    (
        "same.rules",
        b"rules 1 lift\nrule same\nwidths 8 16\nvar x u2 from 0 to 2^w-1\nleft u2(u1(x))\nright x\nstep l /0 drop_wrap\nstep l / drop_wrap\nend\n",
    ),
    (
        "wide.rules",
        b"rules 1 lift\nrule same\nwidths 8 16\nvar x u2\nleft u2(u1(x))\nright x\nstep l /0 drop_wrap\nstep l / drop_wrap\nend\n",
    ),
    (
        "one.rules",
        b"rules 1 lift\nrule same\nwidths 8 16\nvar x u2 from 0 to 2^(2*w-8)-1\nleft u2(u1(x))\nright x\nstep l /0 drop_wrap\nstep l / drop_wrap\nend\n",
    ),
    (
        "q15.rules",
        b"rules 1 lift\nrule q15\nwidths 16\nvar x i1\nvar y i1\nleft i1((i2(x) * i2(y)) >> 15)\nright mul_shr(x, y, 15)\nstep l /0/0/0/0 drop_wrap\nstep l /0/0/0/1 drop_wrap\nstep l /0/0 drop_wrap\nstep l / drop_wrap\nstep r / drop_sat\nend\n",
    ),
    (
        "near.rules",
        b"rules 1 lift\nrule q15\nwidths 16\nvar x i1 from -32767 to 32767\nvar y i1\nleft i1((i2(x) * i2(y)) >> 15)\nright mul_shr(x, y, 15)\nstep l /0/0/0/0 drop_wrap\nstep l /0/0/0/1 drop_wrap\nstep l /0/0 drop_wrap\nstep l / drop_wrap\nstep r / drop_sat\nend\n",
    ),
    // The third rule cites the second, which is refused.
    (
        "cites.rules",
        b"rules 2 lift\nrule same\nwidths 8\nvar x u2 from 0 to 255\nleft u2(u1(x))\nright x\nstep l /0 drop_wrap\nstep l / drop_wrap\nend\nrule wrong\nwidths 8\nvar x u1\nvar y u1\nleft u1(u2(x) - u2(y))\nright y\nend\nrule last\nwidths 8\nvar x u1\nvar y u1\nleft u1(u2(x) - u2(y))\nright y\nstep l / use wrong\nend\n",
    ),
    (
        "heavy.rules",
        b"rules 1 lift\nrule back\nwidths 8\nvar x u1\nvar y u1\nleft min(x, y)\nright max(x, y)\nend\n",
    ),
    (
        "min.rules",
        b"rules 1 neon\nrule least\nwidths 8 16 32\nvar x u1\nvar y u1\nleft min(x, y)\nright @min(x, y)\nend\n",
    ),
    ("none.rules", b"rules 1 lift\n"),
    ("head.rules", b"rule same\n"),
    ("cut.rules", b"rules 1 lift\nrule same\nwidths 8\n"),
];

/// The words, the status, what is put, and how often the store is called.
const ROWS: &[(&str, u8, &str, u64)] = &[
    ("check neon same.rules", 0, "ok same\n", 1),
    (
        "check avx2 wide.rules",
        6,
        "bad same: step 1 at width 8 shift 0: not granted, got 0 to 65535\n",
        1,
    ),
    (
        "check hvx one.rules",
        6,
        "bad same: step 1 at width 16 shift 0: not granted, got 0 to 16777215\n",
        1,
    ),
    (
        "check neon q15.rules",
        6,
        "bad q15: step 4 at width 16 shift 0: not granted, got -32767 to 32768\n",
        1,
    ),
    ("check neon near.rules", 0, "ok q15\n", 1),
    (
        "check neon cites.rules",
        6,
        "ok same\nbad wrong: apart at width 8 shift 0: wrap_u8(wrap_u16(sub(wrap_u16(x),wrap_u16(y)))), y\nbad last: step 1 cites a refused rule\n",
        1,
    ),
    (
        "check neon heavy.rules",
        6,
        "bad back: left weighs 5, right weighs 5\n",
        1,
    ),
    ("check neon min.rules", 0, "ok least\n", 1),
    ("check avx2 min.rules", 6, "min.rules: kind neon\n", 1),
    ("check hvx none.rules", 0, "", 1),
    ("check neon head.rules", 6, "head.rules:1: header\n", 1),
    ("check neon cut.rules", 6, "cut.rules:4: syntax\n", 1),
    ("check neon gone.rules", 3, "no file: gone.rules\n", 1),
    (
        "check neon",
        2,
        "usage: pitchfork select|check|run|eval|explain|demo|migrate\n",
        0,
    ),
    (
        "check sse same.rules",
        2,
        "usage: pitchfork select|check|run|eval|explain|demo|migrate\n",
        0,
    ),
];

fn try_check<R: Abort + AllocGlobal>(rt: &R, row: (&str, u8, &str, u64)) -> Result<(), Fail> {
    let (words, status, put, calls) = row;
    let mut store = store_of(rt.alloc(), FILES, NO_TROUBLE)?;
    let mut out = ScriptedSink::new(rt.alloc(), NO_TROUBLE);
    let answered = answer(rt.alloc(), words, &mut store, &mut out)?;
    assert!(rt; out.written.as_slice() == put.as_bytes(), "{}", words);
    assert_eq!(rt; answered, status, "{}", words);
    assert_eq!(rt; store.calls, calls, "{}", words);
    assert_eq!(rt; store.held.len(), FILES.len());
    Ok(())
}

#[test]
fn rules_are_checked(rt: HostRuntime) -> Result<(), Fail> {
    for row in ROWS {
        try_check(&rt, *row)?;
    }
    Ok(())
}

/// The words, the status, what is put, what the last word's file holds then, and how often the store
/// is called.
const MIGRATIONS: &[(&str, u8, &str, Option<&[u8]>, u64)] = &[
    (
        "migrate wide.rules new.rules",
        0,
        "",
        Some(
            b"rules 2 lift\nrule same\nwidths 8 16\nvar x u2\nleft u2(u1(x))\nright x\nstep l /0 drop_wrap\nstep l / drop_wrap\nend\n",
        ),
        2,
    ),
    (
        "migrate min.rules new.rules",
        0,
        "",
        Some(
            b"rules 2 neon\nrule least\nwidths 8 16 32\nvar x u1\nvar y u1\nleft min(x, y)\nright @min(x, y)\nend\n",
        ),
        2,
    ),
    (
        "migrate head.rules new.rules",
        6,
        "head.rules:1: header\n",
        None,
        1,
    ),
    (
        "migrate gone.rules new.rules",
        3,
        "no file: gone.rules\n",
        None,
        1,
    ),
];

#[test]
fn rules_are_migrated(rt: HostRuntime) -> Result<(), Fail> {
    try_well(
        &rt,
        FILES,
        "migrate none.rules new.rules",
        b"rules 2 lift\n",
    )?;
    for row in MIGRATIONS {
        let (words, status, put, out, calls) = *row;
        let call = Call {
            files: FILES,
            words,
            script: NO_TROUBLE,
            status,
            put,
            out,
            calls,
        };
        try_call(&rt, &call)?;
    }
    Ok(())
}
