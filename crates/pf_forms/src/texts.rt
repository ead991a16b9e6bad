ghost use Rattle.std.specs.Prelude.{◌≡◌, ◌++◌, ◌<◌, length, IfOk, OnOk, decimal};
ghost use Rattle.pf_forms.specs.Meaning.Shapes.{shape};
ghost use Rattle.pf_forms.specs.Meaning.Values.{IsFormOver};
ghost use Rattle.pf_forms.specs.Meaning.FormTexts.{form_text, next_text, form_opening, typed_opening, type_word, power_text};

use crate::form::Form;
use pf_ints::{LaneType, Name, NameList};
use pf_text::{push_number, push_whole};
use std::alloc::{AllocError, Global};

/// The text of a form whose variables have their names in `names`.
pub fn print_form(alloc: Global, form: &Form, names: &NameList) -> Result<Vec<u8>, AllocError>
    requires { IsFormOver (length names.now) (shape form.now) }
    ensures { IfOk result (λ text. text.items ≡ form_text names.now (shape form.now)) }
{
    let mut text = Vec::new(alloc);
    write_form(&mut text, form, names.as_slice())?;
    Ok(text)
}

fn write_type(text: &mut Vec<u8>, t: LaneType) -> Result<(), AllocError>
    ensures { OnOk result (text.new.items ≡ text.old.items ++ type_word t) }
{
    text.extend_from_slice(if t.signed() { b"i" } else { b"u" })?;
    push_number(text, u64::from(t.width()))
}

fn write_power(text: &mut Vec<u8>, e: u8) -> Result<(), AllocError>
    ensures { OnOk result (text.new.items ≡ text.old.items ++ power_text e) }
{
    text.extend_from_slice(b"2^")?;
    push_number(text, u64::from(e))
}

/// Writes what stands before the parts of a form.
fn open(text: &mut Vec<u8>, form: &Form) -> Result<(), AllocError>
    ensures { OnOk result (text.new.items ≡ text.old.items ++ form_opening (shape form.now)) }
{
    match form {
        Form::Add(_, _) => text.extend_from_slice(b"add("),
        Form::Sub(_, _) => text.extend_from_slice(b"sub("),
        Form::Mul(_, _) => text.extend_from_slice(b"mul("),
        Form::FloorDiv(_, _) => text.extend_from_slice(b"div("),
        Form::Min(_, _) => text.extend_from_slice(b"min("),
        Form::Max(_, _) => text.extend_from_slice(b"max("),
        Form::Abs(_) => text.extend_from_slice(b"abs("),
        Form::Sel(_, _, _, _) => text.extend_from_slice(b"sel("),
        Form::Wrap(t, _) => open_typed(text, b"wrap_", *t),
        Form::Sat(t, _) => open_typed(text, b"sat_", *t),
        _ => Ok(()),
    }
}

fn open_typed(text: &mut Vec<u8>, word: &[u8], t: LaneType) -> Result<(), AllocError>
    ensures { OnOk result (text.new.items ≡ text.old.items ++ typed_opening word.now t) }
{
    text.extend_from_slice(word)?;
    write_type(text, t)?;
    text.extend_from_slice(b"(")
}

#[cycle(writing)]
fn write_form(text: &mut Vec<u8>, form: &Form, names: &[Name]) -> Result<(), AllocError>
    requires { IsFormOver (length names.now) (shape form.now) }
    ensures { OnOk result (text.new.items ≡ text.old.items ++ form_text names.now (shape form.now)) }
{
    match form {
        Form::Var(n) => text.extend_from_slice(names[usize::from(*n)].as_slice()),
        Form::Num(n) => push_whole(text, *n),
        Form::Pow(e) => write_power(text, *e),
        Form::Add(x, y) | Form::Sub(x, y) | Form::Mul(x, y) | Form::Min(x, y) | Form::Max(x, y) => {
            open(text, form)?;
            write_form(text, x, names)?;
            write_next(text, y, names)?;
            text.extend_from_slice(b")")
        }
        Form::FloorDiv(x, e) => {
            open(text, form)?;
            write_form(text, x, names)?;
            text.extend_from_slice(b",")?;
            write_power(text, *e)?;
            text.extend_from_slice(b")")
        }
        Form::Abs(x) | Form::Wrap(_, x) | Form::Sat(_, x) => {
            open(text, form)?;
            write_form(text, x, names)?;
            text.extend_from_slice(b")")
        }
        Form::Sel(a, b, x, y) => {
            open(text, form)?;
            write_form(text, a, names)?;
            write_next(text, b, names)?;
            write_next(text, x, names)?;
            write_next(text, y, names)?;
            text.extend_from_slice(b")")
        }
    }
}

/// Writes a form that is not the first part.
#[cycle(writing)]
fn write_next(text: &mut Vec<u8>, form: &Form, names: &[Name]) -> Result<(), AllocError>
    requires { IsFormOver (length names.now) (shape form.now) }
    ensures { OnOk result (text.new.items ≡ text.old.items ++ next_text (form_text names.now (shape form.now))) }
{
    text.extend_from_slice(b",")?;
    write_form(text, form, names)
}
