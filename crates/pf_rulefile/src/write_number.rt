ghost use Rattle.std.specs.Prelude.{◌≡◌, ◌++◌, OnOk, decimal, true};
ghost use Rattle.std.specs.Fmt.{signed_decimal};
ghost use Rattle.pf_rulefile.specs.Meaning.RuleTexts.{sign_text, times_text, lin_text, lin_parts_text, amount_text, item_text, number_text, letter, ptype_text, stated_text, range_text, range_or_none};

use pf_rules::{Amount, LinOf, LinPart, Number, NumberItem, PatType};
use pf_text::{push_number, push_whole};
use std::alloc::AllocError;

fn write_int(text: &mut Vec<u8>, n: i64) -> Result<(), AllocError>
    ensures { OnOk result (text.new.items ≡ text.old.items ++ signed_decimal n) }
{
    push_whole(text, i128::from(n))
}

fn write_sign(text: &mut Vec<u8>, first: bool, minus: bool) -> Result<(), AllocError>
    ensures { OnOk result (text.new.items ≡ text.old.items ++ sign_text first minus) }
{
    if minus {
        text.extend_from_slice(b"-")
    } else if first {
        Ok(())
    } else {
        text.extend_from_slice(b"+")
    }
}

fn write_times(text: &mut Vec<u8>, n: i64) -> Result<(), AllocError>
    ensures { OnOk result (text.new.items ≡ text.old.items ++ times_text n) }
{
    if n == 1 {
        return Ok(());
    }
    write_int(text, n)?;
    text.extend_from_slice(b"*")
}

fn write_lin(text: &mut Vec<u8>, part: &LinPart) -> Result<(), AllocError>
    ensures { OnOk result (text.new.items ≡ text.old.items ++ lin_text part.now.of part.now.times) }
{
    match part.of {
        LinOf::One => write_int(text, part.times),
        LinOf::W => {
            write_times(text, part.times)?;
            text.extend_from_slice(b"w")
        }
        LinOf::K => {
            write_times(text, part.times)?;
            text.extend_from_slice(b"k")
        }
    }
}

fn write_lin_parts(text: &mut Vec<u8>, parts: &[LinPart]) -> Result<(), AllocError>
    ensures { OnOk result (text.new.items ≡ text.old.items ++ lin_parts_text true parts.now) }
{
    let mut first = true;
    for part in parts {
        write_sign(text, first, part.minus)?;
        write_lin(text, part)?;
        first = false;
    }
    Ok(())
}

/// Puts an amount behind the text.
pub fn write_amount(text: &mut Vec<u8>, amount: &Amount) -> Result<(), AllocError>
    ensures { OnOk result (text.new.items ≡ text.old.items ++ amount_text amount.now) }
{
    match amount {
        Amount::Int(n) => write_int(text, *n),
        Amount::W => text.extend_from_slice(b"w"),
        Amount::K => text.extend_from_slice(b"k"),
        Amount::Linear(parts) => {
            text.extend_from_slice(b"(")?;
            write_lin_parts(text, parts.as_slice())?;
            text.extend_from_slice(b")")
        }
    }
}

fn write_item(text: &mut Vec<u8>, item: &NumberItem) -> Result<(), AllocError>
    ensures { OnOk result (text.new.items ≡ text.old.items ++ item_text item.now) }
{
    match item {
        NumberItem::Int(n) => write_int(text, *n),
        NumberItem::Power { times, exponent } => {
            write_times(text, *times)?;
            text.extend_from_slice(b"2^")?;
            write_amount(text, exponent)
        }
        NumberItem::W => text.extend_from_slice(b"w"),
        NumberItem::K => text.extend_from_slice(b"k"),
    }
}

/// Puts a number behind the text.
pub fn write_number(text: &mut Vec<u8>, number: &Number) -> Result<(), AllocError>
    ensures { OnOk result (text.new.items ≡ text.old.items ++ number_text number.now) }
{
    let mut first = true;
    for part in number.parts.as_slice() {
        write_sign(text, first, part.minus)?;
        write_item(text, &part.item)?;
        first = false;
    }
    Ok(())
}

/// Puts a type behind the text.
pub fn write_ptype(text: &mut Vec<u8>, ty: PatType) -> Result<(), AllocError>
    ensures { OnOk result (text.new.items ≡ text.old.items ++ ptype_text ty) }
{
    text.extend_from_slice(if ty.signed { b"i" } else { b"u" })?;
    push_number(text, u64::from(ty.times))
}

/// Puts a type behind the text, where there is one.
pub fn write_stated(text: &mut Vec<u8>, to: Option<PatType>) -> Result<(), AllocError>
    ensures { OnOk result (text.new.items ≡ text.old.items ++ stated_text to) }
{
    match to {
        Some(ty) => write_ptype(text, ty),
        None => Ok(()),
    }
}

/// Puts a range behind the text.
pub fn write_range(text: &mut Vec<u8>, lo: &Number, hi: &Number) -> Result<(), AllocError>
    ensures { OnOk result (text.new.items ≡ text.old.items ++ range_text (lo.now, hi.now)) }
{
    text.extend_from_slice(b" from ")?;
    write_number(text, lo)?;
    text.extend_from_slice(b" to ")?;
    write_number(text, hi)
}
