ghost use Rattle.std.specs.Prelude.{◌≡◌, ◌++◌, OnOk, slice_get};
ghost use Rattle.pf_values.specs.Meaning.Spellings.{op_word, spelling_of};
ghost use Rattle.pf_rulefile.specs.Meaning.RuleTexts.{spaced, opening, between, before, closing, lane_opening, comma, lane_closing, name_by, const_text, pattern_text};

use crate::word::{lane_shape, lane_word};
use crate::write_number::{write_amount, write_number, write_ptype, write_stated};
use pf_laneops::LaneName;
use pf_rules::{Amount, Number, PatType, Pattern, VarDecl};
use pf_values::{Op, Spelling};
use std::alloc::AllocError;

fn write_spaced(text: &mut Vec<u8>, word: &[u8]) -> Result<(), AllocError>
    ensures { OnOk result (text.new.items ≡ text.old.items ++ spaced word.now) }
{
    text.extend_from_slice(b" ")?;
    text.extend_from_slice(word)?;
    text.extend_from_slice(b" ")
}

fn write_opening(text: &mut Vec<u8>, op: Op, to: Option<PatType>) -> Result<(), AllocError>
    ensures { OnOk result (text.new.items ≡ text.old.items ++ opening (spelling_of op) (op_word op) to) }
{
    match op.spelling() {
        Spelling::TypeCall => {
            write_stated(text, to)?;
            text.extend_from_slice(b"(")
        }
        Spelling::Infix | Spelling::ShiftBy => text.extend_from_slice(b"("),
        Spelling::Call | Spelling::CallWithAmount => {
            text.extend_from_slice(op.word())?;
            text.extend_from_slice(b"(")
        }
        Spelling::CallWithType => {
            text.extend_from_slice(op.word())?;
            text.extend_from_slice(b"(")?;
            write_stated(text, to)?;
            text.extend_from_slice(b", ")
        }
        Spelling::Select => text.extend_from_slice(b"select("),
    }
}

// What stands before operand n.
fn write_before(text: &mut Vec<u8>, op: Op, n: usize) -> Result<(), AllocError>
    ensures { OnOk result (text.new.items ≡ text.old.items ++ before (spelling_of op) (op_word op) n) }
{
    if n == 0 {
        return Ok(());
    }
    match op.spelling() {
        Spelling::Infix | Spelling::ShiftBy => write_spaced(text, op.word()),
        Spelling::Select if n == 1 => write_spaced(text, op.word()),
        _ => text.extend_from_slice(b", "),
    }
}

fn write_closing(text: &mut Vec<u8>, op: Op, k: &Amount) -> Result<(), AllocError>
    ensures { OnOk result (text.new.items ≡ text.old.items ++ closing (spelling_of op) (op_word op) k.now) }
{
    match op.spelling() {
        Spelling::ShiftBy => {
            write_spaced(text, op.word())?;
            write_amount(text, k)?;
            text.extend_from_slice(b")")
        }
        Spelling::CallWithAmount => {
            text.extend_from_slice(b", ")?;
            write_amount(text, k)?;
            text.extend_from_slice(b")")
        }
        _ => text.extend_from_slice(b")"),
    }
}

fn write_lane_opening(
    text: &mut Vec<u8>,
    op: LaneName,
    to: Option<PatType>,
) -> Result<(), AllocError>
    ensures { OnOk result (text.new.items ≡ text.old.items ++ lane_opening op to) }
{
    text.extend_from_slice(b"@")?;
    text.extend_from_slice(lane_word(op))?;
    text.extend_from_slice(b"(")?;
    match to {
        Some(ty) => {
            write_ptype(text, ty)?;
            text.extend_from_slice(b", ")
        }
        None => Ok(()),
    }
}

fn write_comma(text: &mut Vec<u8>, n: usize) -> Result<(), AllocError>
    ensures { OnOk result (text.new.items ≡ text.old.items ++ comma n) }
{
    if n == 0 {
        Ok(())
    } else {
        text.extend_from_slice(b", ")
    }
}

fn write_lane_closing(text: &mut Vec<u8>, op: LaneName, k: &Amount) -> Result<(), AllocError>
    ensures { OnOk result (text.new.items ≡ text.old.items ++ lane_closing op k.now) }
{
    if lane_shape(op).amount {
        text.extend_from_slice(b", ")?;
        write_amount(text, k)?;
    }
    text.extend_from_slice(b")")
}

fn var_name(vars: &[VarDecl], n: u8) -> &[u8]
    ensures { result.now ≡ name_by (slice_get vars.now n) }
{
    match vars.get(n as usize) {
        Some(var) => var.name.as_slice(),
        None => b"",
    }
}

fn write_const(text: &mut Vec<u8>, n: &Number, ty: PatType) -> Result<(), AllocError>
    ensures { OnOk result (text.new.items ≡ text.old.items ++ const_text n.now ty) }
{
    text.extend_from_slice(b"{")?;
    write_number(text, n)?;
    text.extend_from_slice(b"}")?;
    write_ptype(text, ty)
}

/// Puts a pattern behind the text.
pub fn write_pattern(
    text: &mut Vec<u8>,
    pattern: &Pattern,
    vars: &[VarDecl],
) -> Result<(), AllocError>
    ensures { OnOk result (text.new.items ≡ text.old.items ++ pattern_text vars.now pattern.now) }
{
    match pattern {
        Pattern::Var(n) => text.extend_from_slice(var_name(vars, *n)),
        Pattern::Const { n, ty } => write_const(text, n, *ty),
        Pattern::Node { op, to, k, args } => {
            write_opening(text, *op, *to)?;
            for (n, arg) in args.as_slice().iter().enumerate() {
                write_before(text, *op, n)?;
                write_pattern(text, arg, vars)?;
            }
            write_closing(text, *op, k)
        }
        Pattern::Lane { op, to, k, args } => {
            write_lane_opening(text, *op, *to)?;
            for (m, operand) in args.as_slice().iter().enumerate() {
                write_comma(text, m)?;
                write_pattern(text, operand, vars)?;
            }
            write_lane_closing(text, *op, k)
        }
    }
}
