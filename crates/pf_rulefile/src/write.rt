ghost use Rattle.std.specs.Prelude.{◌≡◌, ◌++◌, IfOk, OnOk, slice_get};
ghost use Rattle.std.specs.List.{flat_map};
ghost use Rattle.pf_rulefile.specs.Meaning.RuleTexts.{kind_word, width_text, range_or_none, ended, shift_text, var_text, child_text, path_text, by_text, step_side_text, step_text, rule_name, head_text, sides_text, rule_text, rules_text, in_format, pattern_text};

use crate::write_number::{write_ptype, write_range};
use crate::write_side::write_pattern;
use pf_rules::{By, FileParts, Kind, Number, Pattern, Rule, RuleFile, RuleParts, Step, VarDecl};
use pf_text::{push_number, push_whole};
use std::alloc::{AllocError, Global};

/// The text of a file: one space between words, each line ended by LF, each operation between
/// operands in round brackets.
pub fn write_rules(alloc: Global, file: &RuleFile) -> Result<Vec<u8>, AllocError>
    ensures { IfOk result (λ text. text.items ≡ rules_text file.now) }
{
    let mut text = Vec::new(alloc);
    let parts = file.parts();
    write_file(&mut text, parts.format, parts)?;
    Ok(text)
}

/// The text of the file's rules in format 2, in which a step may cite an earlier rule.
pub fn write_migrated(alloc: Global, file: &RuleFile) -> Result<Vec<u8>, AllocError>
    ensures { IfOk result (λ text. text.items ≡ rules_text (in_format 2 file.now)) }
{
    let mut text = Vec::new(alloc);
    write_file(&mut text, 2, file.parts())?;
    Ok(text)
}

fn write_file(text: &mut Vec<u8>, format: u8, file: &FileParts) -> Result<(), AllocError>
    ensures { OnOk result (text.new.items ≡ text.old.items ++ rules_text (in_format format file.now)) }
{
    text.extend_from_slice(b"rules ")?;
    push_number(text, u64::from(format))?;
    text.extend_from_slice(b" ")?;
    text.extend_from_slice(kind_word(file.kind))?;
    text.extend_from_slice(b"\n")?;
    write_all(text, file.rules.as_slice())
}

/// What the rules of a file are for, in one word: `lift`, or the target's.
pub fn kind_word(kind: Kind) -> &'static [u8]
    ensures { result.now ≡ kind_word kind }
{
    match kind {
        Kind::Lift => b"lift",
        Kind::Lower(target) => target.word(),
    }
}

fn write_all(text: &mut Vec<u8>, rules: &[Rule]) -> Result<(), AllocError>
    ensures { OnOk result (text.new.items ≡ text.old.items ++ flat_map (rule_text rules.now) rules.now) }
{
    for rule in rules {
        write_rule(text, rules, rule.parts())?;
    }
    Ok(())
}

fn write_rule(text: &mut Vec<u8>, rules: &[Rule], rule: &RuleParts) -> Result<(), AllocError>
    ensures { OnOk result (text.new.items ≡ text.old.items ++ rule_text rules.now rule.now) }
{
    write_head(text, rule)?;
    write_vars(text, rule.vars.as_slice())?;
    write_sides(text, rule)?;
    write_steps(text, rules, rule.steps.as_slice())?;
    text.extend_from_slice(b"end\n")
}

fn write_head(text: &mut Vec<u8>, rule: &RuleParts) -> Result<(), AllocError>
    ensures { OnOk result (text.new.items ≡ text.old.items ++ head_text rule.now) }
{
    text.extend_from_slice(b"rule ")?;
    text.extend_from_slice(rule.name.as_slice())?;
    text.extend_from_slice(b"\n")?;
    text.extend_from_slice(b"widths")?;
    write_widths(text, rule.widths.as_slice())?;
    text.extend_from_slice(b"\n")?;
    write_shift(text, &rule.shift)
}

fn write_sides(text: &mut Vec<u8>, rule: &RuleParts) -> Result<(), AllocError>
    ensures { OnOk result (text.new.items ≡ text.old.items ++ sides_text rule.now) }
{
    text.extend_from_slice(b"left ")?;
    write_side(text, &rule.lhs, rule.vars.as_slice())?;
    text.extend_from_slice(b"right ")?;
    write_side(text, &rule.rhs, rule.vars.as_slice())
}

fn write_widths(text: &mut Vec<u8>, widths: &[i128]) -> Result<(), AllocError>
    ensures { OnOk result (text.new.items ≡ text.old.items ++ flat_map width_text widths.now) }
{
    for width in widths {
        text.extend_from_slice(b" ")?;
        push_whole(text, *width)?;
    }
    Ok(())
}

fn write_shift(text: &mut Vec<u8>, shift: &Option<(Number, Number)>) -> Result<(), AllocError>
    ensures { OnOk result (text.new.items ≡ text.old.items ++ shift_text shift.now) }
{
    match shift {
        Some((lo, hi)) => {
            text.extend_from_slice(b"shift k")?;
            write_range(text, lo, hi)?;
            text.extend_from_slice(b"\n")
        }
        None => Ok(()),
    }
}

fn write_vars(text: &mut Vec<u8>, vars: &[VarDecl]) -> Result<(), AllocError>
    ensures { OnOk result (text.new.items ≡ text.old.items ++ flat_map var_text vars.now) }
{
    for var in vars {
        write_var(text, var)?;
    }
    Ok(())
}

fn write_var(text: &mut Vec<u8>, var: &VarDecl) -> Result<(), AllocError>
    ensures { OnOk result (text.new.items ≡ text.old.items ++ var_text var.now) }
{
    text.extend_from_slice(b"var ")?;
    text.extend_from_slice(var.name.as_slice())?;
    text.extend_from_slice(b" ")?;
    write_ptype(text, var.ty)?;
    write_var_range(text, &var.range)?;
    text.extend_from_slice(b"\n")
}

fn write_var_range(text: &mut Vec<u8>, range: &Option<(Number, Number)>) -> Result<(), AllocError>
    ensures { OnOk result (text.new.items ≡ text.old.items ++ range_or_none range.now) }
{
    match range {
        Some((lo, hi)) => write_range(text, lo, hi),
        None => Ok(()),
    }
}

fn write_side(text: &mut Vec<u8>, side: &Pattern, vars: &[VarDecl]) -> Result<(), AllocError>
    ensures { OnOk result (text.new.items ≡ text.old.items ++ ended (pattern_text vars.now side.now)) }
{
    write_pattern(text, side, vars)?;
    text.extend_from_slice(b"\n")
}

fn write_steps(text: &mut Vec<u8>, rules: &[Rule], steps: &[Step]) -> Result<(), AllocError>
    ensures { OnOk result (text.new.items ≡ text.old.items ++ flat_map (step_text rules.now) steps.now) }
{
    for step in steps {
        write_step(text, rules, step)?;
    }
    Ok(())
}

fn write_step(text: &mut Vec<u8>, rules: &[Rule], step: &Step) -> Result<(), AllocError>
    ensures { OnOk result (text.new.items ≡ text.old.items ++ step_text rules.now step.now) }
{
    write_step_side(text, step.left)?;
    write_path(text, step.path.as_slice())?;
    text.extend_from_slice(b" ")?;
    write_by(text, rules, step.by)?;
    text.extend_from_slice(b"\n")
}

fn write_step_side(text: &mut Vec<u8>, left: bool) -> Result<(), AllocError>
    ensures { OnOk result (text.new.items ≡ text.old.items ++ step_side_text left) }
{
    text.extend_from_slice(if left { b"step l " } else { b"step r " })
}

/// Writes the path of a node: `/` for the root, else as `/0/1`.
pub fn write_path(text: &mut Vec<u8>, path: &[u8]) -> Result<(), AllocError>
    ensures { OnOk result (text.new.items ≡ text.old.items ++ path_text path.now) }
{
    match path {
        [] => text.extend_from_slice(b"/"),
        _ => write_children(text, path),
    }
}

fn write_children(text: &mut Vec<u8>, path: &[u8]) -> Result<(), AllocError>
    ensures { OnOk result (text.new.items ≡ text.old.items ++ flat_map child_text path.now) }
{
    for n in path {
        text.extend_from_slice(b"/")?;
        push_number(text, u64::from(*n))?;
    }
    Ok(())
}

fn rule_name(rules: &[Rule], n: u16) -> &[u8]
    ensures { result.now ≡ rule_name (slice_get rules.now n) }
{
    match rules.get(n as usize) {
        Some(rule) => rule.parts().name.as_slice(),
        None => b"",
    }
}

fn write_by(text: &mut Vec<u8>, rules: &[Rule], by: By) -> Result<(), AllocError>
    ensures { OnOk result (text.new.items ≡ text.old.items ++ by_text rules.now by) }
{
    match by {
        By::Axiom(axiom) => text.extend_from_slice(axiom.name().as_bytes()),
        By::Rule(n) => {
            text.extend_from_slice(b"use ")?;
            text.extend_from_slice(rule_name(rules, n))
        }
    }
}
