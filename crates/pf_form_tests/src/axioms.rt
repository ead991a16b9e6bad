//! The steps of certificates, by each of the axioms: where it is granted, where it doesn't match,
//! and where an interval is missing or doesn't meet what is asked for.

use crate::forms::{names, ranges, read};
use Wanted::{Got, Makes, NoMatch, TooWide};
use pf_axioms::{StepFault, apply};
use pf_forms::{Axiom, print_form};
use std::alloc::Global;
use std::process::Abort;
use std::test::Fail;

/// What an axiom is to make of a form.
enum Wanted {
    /// The form with this text.
    Makes(&'static str),
    NoMatch,
    TooWide,
    /// It isn't granted, by this interval.
    Got(i128, i128),
}

/// Whether the axiom makes of the form what is wanted.
fn is_made(alloc: Global, axiom: &str, form: &str, wanted: &Wanted) -> Result<bool, Fail> {
    let (form, _) = read(alloc, form.as_bytes())?;
    let axiom = Axiom::from_name(axiom.as_bytes()).ok_or("no axiom")?;
    match apply(alloc, axiom, &form, &ranges(alloc)?) {
        Ok(new) => {
            let text = print_form(alloc, &new, &names(alloc)?)?;
            Ok(is_text(text.as_slice(), wanted))
        }
        Err(fault) => Ok(is_fault(&fault, wanted)),
    }
}

fn is_text(text: &[u8], wanted: &Wanted) -> bool {
    match wanted {
        Makes(form) => text == form.as_bytes(),
        _ => false,
    }
}

fn is_fault(fault: &StepFault, wanted: &Wanted) -> bool {
    match (fault, wanted) {
        (StepFault::NoMatch, NoMatch) => true,
        (StepFault::TooWide, TooWide) => true,
        (StepFault::NotGranted { got }, Got(lo, hi)) => got.lo() == *lo && got.hi() == *hi,
        _ => false,
    }
}

fn try_steps<R: Abort + AllocGlobal>(rt: &R, rows: &[(&str, &str, Wanted)]) -> Result<(), Fail> {
    for (axiom, form, wanted) in rows {
        assert!(rt;
            is_made(rt.alloc(), axiom, form, wanted)?,
            "{axiom} at {form}"
        );
    }
    Ok(())
}

const SUMS: &[(&str, &str, Wanted)] = &[
    ("add_comm", "+xy", Makes("add(y,x)")),
    ("add_comm", "*xy", NoMatch),
    ("add_assoc", "++xyz", Makes("add(x,add(y,z))")),
    ("add_assoc", "+x+yz", NoMatch),
    ("add_back", "+x+yz", Makes("add(add(x,y),z)")),
    ("add_back", "++xyz", NoMatch),
    ("add_zero", "+x0", Makes("x")),
    ("add_zero", "+x1", NoMatch),
    ("add_zero", "+0x", NoMatch),
    ("sub_add", "-xy", Makes("add(x,mul(-1,y))")),
    ("sub_add", "+xy", NoMatch),
    ("cancel", "+x*nx", Makes("0")),
    ("cancel", "+y*nx", NoMatch),
    ("cancel", "+x*1x", NoMatch),
    ("mul_comm", "*xy", Makes("mul(y,x)")),
    ("mul_comm", "+xy", NoMatch),
    ("mul_assoc", "**xyz", Makes("mul(x,mul(y,z))")),
    ("mul_assoc", "*x*yz", NoMatch),
    ("mul_back", "*x*yz", Makes("mul(mul(x,y),z)")),
    ("mul_back", "**xyz", NoMatch),
    ("mul_one", "*1x", Makes("x")),
    ("mul_one", "*x1", NoMatch),
    ("distribute", "*x+yz", Makes("add(mul(x,y),mul(x,z))")),
    ("distribute", "*+xyz", NoMatch),
    ("mul_zero", "*0x", Makes("0")),
    ("mul_zero", "*x0", NoMatch),
    ("factor", "+*xy*xz", Makes("mul(x,add(y,z))")),
    ("factor", "+*xy*yz", NoMatch),
];

#[test]
fn rewrites_sums(rt: HostRuntime) -> Result<(), Fail> {
    try_steps(&rt, SUMS)
}

const FOLDS: &[(&str, &str, Wanted)] = &[
    (
        "fold",
        "+L1",
        Makes("1329227995784915872903807060280344576"),
    ),
    ("fold", "+M1", TooWide),
    ("fold", "-N1", TooWide),
    (
        "fold",
        "*2H",
        Makes("1329227995784915872903807060280344576"),
    ),
    ("fold", "*3H", TooWide),
    ("fold", "*MM", TooWide),
    (
        "fold",
        "*nN",
        Makes("1329227995784915872903807060280344576"),
    ),
    ("fold", "/n", Makes("-1")),
    ("fold", "!N", Makes("-2")),
    ("fold", "<n1", Makes("-1")),
    ("fold", ">n1", Makes("1")),
    ("fold", "aN", Makes("1329227995784915872903807060280344576")),
    ("fold", "8n", Makes("255")),
    ("fold", "sN", Makes("-32768")),
    ("fold", "?1n0M", Makes("0")),
    (
        "fold",
        "?nn0M",
        Makes("1329227995784915872903807060280344576"),
    ),
    ("fold", "+x1", NoMatch),
    ("fold", "+p1", NoMatch),
    ("fold", "1", NoMatch),
];

#[test]
fn rewrites_folds(rt: HostRuntime) -> Result<(), Fail> {
    try_steps(&rt, FOLDS)
}

const TYPES: &[(&str, &str, Wanted)] = &[
    ("drop_wrap", "8x", Makes("x")),
    ("drop_wrap", "8y", Got(0, 300)),
    ("drop_wrap", "8+xM", TooWide),
    ("drop_wrap", "ux", NoMatch),
    ("wrap_wrap", "86y", Makes("wrap_u8(y)")),
    ("wrap_wrap", "8iy", Makes("wrap_u8(y)")),
    ("wrap_wrap", "68y", NoMatch),
    ("wrap_add", "8+8xy", Makes("wrap_u8(add(x,y))")),
    ("wrap_add", "6+8xy", NoMatch),
    ("wrap_add", "8+x8y", NoMatch),
    ("wrap_mul", "8*6xy", Makes("wrap_u8(mul(x,y))")),
    ("wrap_mul", "6*8xy", NoMatch),
    ("drop_sat", "ux", Makes("x")),
    ("drop_sat", "uz", Got(-5, -1)),
    ("drop_sat", "u+xM", TooWide),
    ("drop_sat", "8x", NoMatch),
    ("sat_clamp", "sx", Makes("min(max(x,-32768),32767)")),
    ("sat_clamp", "8x", NoMatch),
    ("sat_sat", "usx", Makes("sat_u8(x)")),
    ("sat_sat", "uux", Makes("sat_u8(x)")),
    ("sat_sat", "ujx", NoMatch),
    ("sat_sat", "sux", NoMatch),
    ("sat_high", "uy", Makes("min(y,255)")),
    ("sat_high", "uz", Got(-5, -1)),
    ("sat_high", "u+xM", TooWide),
    ("sat_high", "8y", NoMatch),
    ("sat_low", "uz", Makes("max(z,0)")),
    ("sat_low", "ux", Makes("max(x,0)")),
    ("sat_low", "uy", Got(0, 300)),
    ("sat_low", "u+xM", TooWide),
    ("sat_low", "8x", NoMatch),
];

#[test]
fn rewrites_types(rt: HostRuntime) -> Result<(), Fail> {
    try_steps(&rt, TYPES)
}

const POWERS: &[(&str, &str, Wanted)] = &[
    ("pow_num", "p", Makes("16")),
    (
        "pow_num",
        "Q",
        Makes("664613997892457936451903530140172288"),
    ),
    ("pow_num", "3", NoMatch),
    ("num_pow", "H", Makes("2^119")),
    ("num_pow", "M", TooWide),
    ("num_pow", "1", Makes("2^0")),
    ("num_pow", "2", Makes("2^1")),
    ("num_pow", "3", NoMatch),
    ("num_pow", "0", NoMatch),
    ("num_pow", "n", NoMatch),
    ("num_pow", "N", NoMatch),
    ("pow_add", "*pp", Makes("2^8")),
    ("pow_add", "*qk", Makes("2^119")),
    ("pow_add", "*kk", TooWide),
    ("pow_add", "*QQ", TooWide),
    ("pow_add", "*p2", NoMatch),
];

#[test]
fn rewrites_powers(rt: HostRuntime) -> Result<(), Fail> {
    try_steps(&rt, POWERS)
}

const QUOTIENTS: &[(&str, &str, Wanted)] = &[
    ("div_one", "_x", Makes("x")),
    ("div_one", "/x", NoMatch),
    ("div_div", "//x", Makes("div(x,2^2)")),
    ("div_div", ";|x", Makes("div(x,2^119)")),
    ("div_div", "||x", TooWide),
    ("div_div", "/x", NoMatch),
    ("div_scale", ":*px", Makes("div(x,2^4)")),
    ("div_scale", "/*rx", Makes("div(x,2^0)")),
    ("div_scale", "/*px", NoMatch),
    ("div_scale", ":*xp", NoMatch),
    ("div_out", "/+x*ry", Makes("add(div(x,2^1),y)")),
    ("div_out", "/+x*py", NoMatch),
    ("div_in", "+/xy", Makes("div(add(x,mul(2^1,y)),2^1)")),
    ("div_in", "+x/y", NoMatch),
    ("div_inner", "/+/xy", Makes("div(add(x,mul(2^1,y)),2^2)")),
    ("div_inner", ";+|xy", Makes("div(add(x,mul(2^60,y)),2^119)")),
    ("div_inner", "|+|xy", TooWide),
    ("div_inner", "/+x/y", NoMatch),
    ("neg_div", "*n/x", Makes("div(add(mul(-1,x),1),2^1)")),
    (
        "neg_div",
        "*n!x",
        Makes("div(add(mul(-1,x),664613997892457936451903530140172287),2^119)"),
    ),
    ("neg_div", "*1/x", NoMatch),
    ("div_zero", ":x", Makes("0")),
    ("div_zero", ":y", Got(0, 300)),
    ("div_zero", ":z", Got(-5, -1)),
    ("div_zero", ":+xM", TooWide),
    ("div_zero", "x", NoMatch),
    ("div_neg", ":z", Makes("-1")),
    ("div_neg", "/z", Got(-5, -1)),
    ("div_neg", ":x", Got(0, 255)),
    ("div_neg", ":+xM", TooWide),
    ("div_neg", "z", NoMatch),
];

#[test]
fn rewrites_quotients(rt: HostRuntime) -> Result<(), Fail> {
    try_steps(&rt, QUOTIENTS)
}

const ORDERS: &[(&str, &str, Wanted)] = &[
    ("min_comm", "<xy", Makes("min(y,x)")),
    ("min_comm", ">xy", NoMatch),
    ("max_comm", ">xy", Makes("max(y,x)")),
    ("max_comm", "<xy", NoMatch),
    ("min_left", "<xM", Makes("x")),
    ("min_left", "<zx", Makes("z")),
    ("min_left", "<0x", Makes("0")),
    ("min_left", "<yx", Got(0, 300)),
    ("min_left", "<x+xM", TooWide),
    ("min_left", "<+xMx", TooWide),
    ("min_left", ">xM", NoMatch),
    ("max_left", ">xz", Makes("x")),
    ("max_left", ">x0", Makes("x")),
    ("max_left", ">xy", Got(0, 255)),
    ("max_left", ">x+xM", TooWide),
    ("max_left", ">+xMx", TooWide),
    ("max_left", "<xz", NoMatch),
    ("min_add", "+<xyz", Makes("min(add(x,z),add(y,z))")),
    ("min_add", "+x<yz", NoMatch),
    ("max_add", "+>xyz", Makes("max(add(x,z),add(y,z))")),
    ("max_add", "+<xyz", NoMatch),
    ("min_div", "/<xy", Makes("min(div(x,2^1),div(y,2^1))")),
    ("min_div", "/>xy", NoMatch),
    ("max_div", "/>xy", Makes("max(div(x,2^1),div(y,2^1))")),
    ("max_div", "/<xy", NoMatch),
];

#[test]
fn rewrites_orders(rt: HostRuntime) -> Result<(), Fail> {
    try_steps(&rt, ORDERS)
}

const CHOICES: &[(&str, &str, Wanted)] = &[
    ("sel_max", "?xyxy", Makes("max(x,y)")),
    ("sel_max", "?xyyx", NoMatch),
    ("sel_min", "?xyyx", Makes("min(x,y)")),
    ("sel_min", "?xyxy", NoMatch),
    ("sel_same", "?xyzz", Makes("z")),
    ("sel_same", "?xyzx", NoMatch),
    ("max_min_abs", "->xy<xy", Makes("abs(sub(x,y))")),
    ("max_min_abs", "->xy<yx", NoMatch),
    ("max_min_abs", "-<xy>xy", NoMatch),
    ("abs_pos", "ax", Makes("x")),
    ("abs_pos", "az", Got(-5, -1)),
    ("abs_pos", "a+xM", TooWide),
    ("abs_pos", "x", NoMatch),
    ("abs_neg", "az", Makes("mul(-1,z)")),
    ("abs_neg", "ax", Got(0, 255)),
    ("abs_neg", "a+xM", TooWide),
    ("abs_neg", "-xy", NoMatch),
];

#[test]
fn rewrites_choices(rt: HostRuntime) -> Result<(), Fail> {
    try_steps(&rt, CHOICES)
}
