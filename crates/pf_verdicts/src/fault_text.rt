//! Why a rule is refused, as a text.

ghost use Rattle.std.specs.Prelude.{◌≡◌, ◌++◌, length, IfOk, OnOk, codes, decimal};
ghost use Rattle.pf_check.specs.Meaning.Faults.{IsFaultOver};
ghost use Rattle.pf_forms.specs.Meaning.FormTexts.{form_text};
ghost use Rattle.pf_forms.specs.Meaning.Shapes.{shape};
ghost use Rattle.pf_forms.specs.Meaning.Values.{IsFormOver};
ghost use Rattle.pf_verdicts.specs.Meaning.FaultTexts.{place_text, weights_text, at_text, var_name, ranged_name, var_names, interval_text, step_fault_text, at_step, fault_text};

use pf_axioms::StepFault;
use pf_check::RuleFault;
use pf_forms::{Form, print_form};
use pf_ints::{Interval, NameList, Sequence};
use pf_rulefile::write_path;
use pf_rules::VarDecl;
use pf_text::{push_number, push_whole};
use std::alloc::{AllocError, Global};

/// Writes why a rule with these variables is refused.
pub fn write_fault(
    alloc: Global,
    text: &mut Vec<u8>,
    vars: &[VarDecl],
    fault: &RuleFault,
) -> Result<(), AllocError>
    requires { IsFaultOver (length vars.now) fault.now }
    ensures { OnOk result (text.new.items ≡ text.old.items ++ fault_text vars.now fault.now) }
{
    match fault {
        RuleFault::Types { left, path } => {
            text.extend_from_slice(b"types ")?;
            write_place(text, *left, path.as_slice())
        }
        RuleFault::Range { var, w, k } => write_range(text, vars, *var, *w, *k),
        RuleFault::Heavier { left, right } => write_weights(text, *left, *right),
        RuleFault::Repeats { var } => {
            text.extend_from_slice(b"repeats ")?;
            text.extend_from_slice(var_name(vars, *var))
        }
        RuleFault::Immediate { left, path, amount } => {
            text.extend_from_slice(b"immediate ")?;
            write_place(text, *left, path.as_slice())?;
            text.extend_from_slice(b" is ")?;
            push_whole(text, *amount)
        }
        RuleFault::Cites { n } => {
            text.extend_from_slice(b"step ")?;
            push_number(text, u64::from(*n))?;
            text.extend_from_slice(b" cites a refused rule")
        }
        RuleFault::Step { n, w, k, fault } => {
            write_step(text, *n, *w, *k)?;
            write_step_fault(text, fault)
        }
        RuleFault::TooLarge { n, w, k, count } => {
            write_step(text, *n, *w, *k)?;
            text.extend_from_slice(b"too large, ")?;
            push_number(text, *count)
        }
        RuleFault::Apart { w, k, left, right } => {
            let names = var_names(alloc, vars)?;
            text.extend_from_slice(b"apart")?;
            write_at(text, *w, *k)?;
            text.extend_from_slice(b": ")?;
            write_form(alloc, text, left, &names)?;
            text.extend_from_slice(b", ")?;
            write_form(alloc, text, right, &names)
        }
        RuleFault::Memory => text.extend_from_slice(b"out of memory"),
    }
}

fn write_place(text: &mut Vec<u8>, left: bool, path: &[u8]) -> Result<(), AllocError>
    ensures { OnOk result (text.new.items ≡ text.old.items ++ place_text left path.now) }
{
    text.extend_from_slice(if left { b"left " } else { b"right " })?;
    write_path(text, path)
}

fn write_weights(text: &mut Vec<u8>, left: u64, right: u64) -> Result<(), AllocError>
    ensures { OnOk result (text.new.items ≡ text.old.items ++ weights_text left right) }
{
    write_counted(text, b"left weighs ", left)?;
    write_counted(text, b", right weighs ", right)
}

// Some words and a number.
fn write_counted(text: &mut Vec<u8>, words: &[u8], count: u64) -> Result<(), AllocError>
    ensures { OnOk result (text.new.items ≡ text.old.items ++ (words.now ++ decimal count)) }
{
    text.extend_from_slice(words)?;
    push_number(text, count)
}

fn write_at(text: &mut Vec<u8>, w: u8, k: u8) -> Result<(), AllocError>
    ensures { OnOk result (text.new.items ≡ text.old.items ++ at_text w k) }
{
    text.extend_from_slice(b" at width ")?;
    push_number(text, u64::from(w))?;
    text.extend_from_slice(b" shift ")?;
    push_number(text, u64::from(k))
}

fn var_name(vars: &[VarDecl], n: u8) -> &[u8]
    ensures { result.now ≡ var_name vars.now n }
{
    match vars.get(n as usize) {
        Some(var) => var.name.as_slice(),
        None => b"",
    }
}

fn write_range(
    text: &mut Vec<u8>,
    vars: &[VarDecl],
    var: Option<u8>,
    w: u8,
    k: u8,
) -> Result<(), AllocError>
    ensures { OnOk result (text.new.items ≡ text.old.items ++ (codes "range " ++ (ranged_name vars.now var ++ at_text w k))) }
{
    text.extend_from_slice(b"range ")?;
    match var {
        Some(n) => text.extend_from_slice(var_name(vars, n))?,
        None => text.extend_from_slice(b"k")?,
    }
    write_at(text, w, k)
}

fn write_step(text: &mut Vec<u8>, n: u32, w: u8, k: u8) -> Result<(), AllocError>
    ensures { OnOk result (text.new.items ≡ text.old.items ++ at_step n w k) }
{
    text.extend_from_slice(b"step ")?;
    push_number(text, u64::from(n))?;
    write_at(text, w, k)?;
    text.extend_from_slice(b": ")
}

fn write_step_fault(text: &mut Vec<u8>, fault: &StepFault) -> Result<(), AllocError>
    ensures { OnOk result (text.new.items ≡ text.old.items ++ step_fault_text fault.now) }
{
    match fault {
        StepFault::NoMatch => text.extend_from_slice(b"no match"),
        StepFault::TooWide => text.extend_from_slice(b"too wide"),
        StepFault::NotGranted { got } => {
            text.extend_from_slice(b"not granted, got ")?;
            write_interval(text, *got)
        }
        StepFault::Memory => text.extend_from_slice(b"out of memory"),
    }
}

fn write_interval(text: &mut Vec<u8>, interval: Interval) -> Result<(), AllocError>
    ensures { OnOk result (text.new.items ≡ text.old.items ++ interval_text interval) }
{
    push_whole(text, interval.lo())?;
    text.extend_from_slice(b" to ")?;
    push_whole(text, interval.hi())
}

fn var_names(alloc: Global, vars: &[VarDecl]) -> Result<NameList, AllocError>
    ensures { IfOk result (λ names. names ≡ var_names vars.now) }
{
    let mut names = Sequence::new(alloc);
    for var in vars {
        names.push(var.name)?;
    }
    Ok(names)
}

fn write_form(
    alloc: Global,
    text: &mut Vec<u8>,
    form: &Form,
    names: &NameList,
) -> Result<(), AllocError>
    requires { IsFormOver (length names.now) (shape form.now) }
    ensures { OnOk result (text.new.items ≡ text.old.items ++ form_text names.now (shape form.now)) }
{
    let printed = print_form(alloc, form, names)?;
    text.extend_from_slice(printed.as_slice())
}
