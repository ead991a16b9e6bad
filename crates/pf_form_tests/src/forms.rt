//! Forms: texts, sizes, copies, parts, intervals, and the names of the axioms.

ghost use Rattle.std.specs.Prelude.{◌≡◌, ◌<◌, IfOk, length};
ghost use Rattle.pf_forms.specs.Meaning.Shapes.{shape};
ghost use Rattle.pf_forms.specs.Meaning.Values.{IsFormOver};

use pf_forms::{Axiom, Form, at, equal, form_bounds, print_form, put, size};
use pf_ints::{FURTHEST, Interval, IntervalList, LaneType, Name, NameList, Path};
use std::alloc::Global;
use std::test::Fail;

/// Reads a form in which each operator stands before its parts.
pub fn read(alloc: Global, text: &[u8]) -> Result<(Box<Form>, &[u8]), Fail>
    ensures form { IfOk result (λ p. IsFormOver 3 (shape p.0.value)) }
    ensures shorter { IfOk result (λ p. length p.1.now < length text.now) }
{
    let [first, rest @ ..] = text else {
        return Err(Fail::from("no form"));
    };
    match *first {
        b'8' | b'6' | b'i' | b's' | b'u' | b'j' | b'a' | b'_' | b'/' | b':' | b';' | b'|' | b'!' =>
            {
                let (x, rest) = read(alloc, rest)?;
                Ok((Box::new(alloc, unary(*first, x))?, rest))
            }
        b'+' | b'-' | b'*' | b'<' | b'>' => {
            let (x, rest) = read(alloc, rest)?;
            let (y, rest) = read(alloc, rest)?;
            Ok((Box::new(alloc, binary(*first, x, y))?, rest))
        }
        b'?' => {
            let (a, rest) = read(alloc, rest)?;
            let (b, rest) = read(alloc, rest)?;
            let (x, rest) = read(alloc, rest)?;
            let (y, rest) = read(alloc, rest)?;
            Ok((Box::new(alloc, Form::Sel(a, b, x, y))?, rest))
        }
        _ => Ok((Box::new(alloc, leaf(*first))?, rest)),
    }
}

fn leaf(word: u8) -> Form
    ensures { IsFormOver 3 (shape result) }
{
    match word {
        b'x' => Form::Var(0),
        b'y' => Form::Var(1),
        b'z' => Form::Var(2),
        b'0' => Form::Num(0),
        b'1' => Form::Num(1),
        b'2' => Form::Num(2),
        b'3' => Form::Num(3),
        b'n' => Form::Num(-1),
        b'r' => Form::Pow(1),
        b'p' => Form::Pow(4),
        b'q' => Form::Pow(59),
        b'k' => Form::Pow(60),
        b'Q' => Form::Pow(119),
        b'H' => Form::Num(1 << 119),
        b'L' => Form::Num(FURTHEST - 1),
        b'M' => Form::Num(FURTHEST),
        _ => Form::Num(-FURTHEST),
    }
}

fn unary(word: u8, x: Box<Form>) -> Form
    requires { IsFormOver 3 (shape x.value) }
    ensures { IsFormOver 3 (shape result) }
{
    match word {
        b'8' => Form::Wrap(LaneType::U8, x),
        b'6' => Form::Wrap(LaneType::U16, x),
        b'i' => Form::Wrap(LaneType::I8, x),
        b's' => Form::Sat(LaneType::I16, x),
        b'u' => Form::Sat(LaneType::U8, x),
        b'j' => Form::Sat(LaneType::I8, x),
        b'a' => Form::Abs(x),
        b'_' => Form::FloorDiv(x, 0),
        b'/' => Form::FloorDiv(x, 1),
        b':' => Form::FloorDiv(x, 8),
        b';' => Form::FloorDiv(x, 59),
        b'|' => Form::FloorDiv(x, 60),
        _ => Form::FloorDiv(x, 119),
    }
}

fn binary(word: u8, x: Box<Form>, y: Box<Form>) -> Form
    requires left { IsFormOver 3 (shape x.value) }
    requires right { IsFormOver 3 (shape y.value) }
    ensures { IsFormOver 3 (shape result) }
{
    match word {
        b'+' => Form::Add(x, y),
        b'-' => Form::Sub(x, y),
        b'*' => Form::Mul(x, y),
        b'<' => Form::Min(x, y),
        _ => Form::Max(x, y),
    }
}

/// The names of the variables: x, y and z.
pub fn names(alloc: Global) -> Result<NameList, Fail>
    ensures { IfOk result (λ names. length names ≡ 3) }
{
    let mut names = NameList::new(alloc);
    names.push(Name::new(b"x").ok_or("no name")?)?;
    names.push(Name::new(b"y").ok_or("no name")?)?;
    names.push(Name::new(b"z").ok_or("no name")?)?;
    Ok(names)
}

/// x is 0 to 255, y is 0 to 300, and z is -5 to -1.
pub fn ranges(alloc: Global) -> Result<IntervalList, Fail>
    ensures { IfOk result (λ ranges. length ranges ≡ 3) }
{
    let mut ranges = IntervalList::new(alloc);
    ranges.push(Interval::new(0, 255).ok_or("no interval")?)?;
    ranges.push(Interval::new(0, 300).ok_or("no interval")?)?;
    ranges.push(Interval::new(-5, -1).ok_or("no interval")?)?;
    Ok(ranges)
}

/// A form with each kind of node.
fn sample(alloc: Global) -> Result<Box<Form>, Fail>
    ensures { IfOk result (λ b. IsFormOver 3 (shape b.value)) }
{
    let (form, _) = read(alloc, b"?8x1a/*xns>x<-xp+xx")?;
    Ok(form)
}

fn has_text(alloc: Global, form: &Form, text: &[u8]) -> Result<bool, Fail>
    requires { IsFormOver 3 (shape form.now) }
{
    Ok(print_form(alloc, form, &names(alloc)?)?.as_slice() == text)
}

#[test]
fn prints_measures_and_copies(rt: HostRuntime) -> Result<(), Fail> {
    let form = sample(rt.alloc())?;
    let text =
        b"sel(wrap_u8(x),1,abs(div(mul(x,-1),2^1)),sat_i16(max(x,min(sub(x,2^4),add(x,x)))))";
    assert!(rt; has_text(rt.alloc(), &form, text)?);
    assert_eq!(rt; size(&form), 20);
    let copied = form.copy(rt.alloc())?;
    assert!(rt; equal(&form, &copied));
    assert!(rt; !equal(&copied, &Form::Num(1)));
    Ok(())
}

#[test]
fn finds_and_puts_parts(rt: HostRuntime) -> Result<(), Fail> {
    let form = sample(rt.alloc())?;
    let divisor = Path::from_slice(rt.alloc(), &[2, 0, 1])?;
    assert!(rt; at(&form, &divisor).is_none());
    let path = Path::from_slice(rt.alloc(), &[3, 0, 1, 0])?;
    let part = at(&form, &path).ok_or("no part")?;
    assert_eq!(rt; size(part), 3);
    let new = put(form.copy(rt.alloc())?, &path, Form::Pow(4));
    let text = b"sel(wrap_u8(x),1,abs(div(mul(x,-1),2^1)),sat_i16(max(x,min(2^4,add(x,x)))))";
    assert!(rt; has_text(rt.alloc(), &new, text)?);
    Ok(())
}

#[test]
fn gives_intervals(rt: HostRuntime) -> Result<(), Fail> {
    let form = sample(rt.alloc())?;
    let got = form_bounds(&form, &ranges(rt.alloc())?).ok_or("no interval")?;
    assert_eq!(rt; (got.lo(), got.hi()), (0, 255));
    let (wide, _) = read(rt.alloc(), b"+Mx")?;
    assert!(rt; form_bounds(&wide, &ranges(rt.alloc())?).is_none());
    Ok(())
}

#[test]
fn knows_the_names(rt: HostRuntime) {
    assert!(rt; Axiom::from_name(b"wrap_ad").is_none());
    assert!(rt; Axiom::from_name(b"wrap_added").is_none());
    assert!(rt; matches!(Axiom::from_name(b"wrap_add"), Some(Axiom::WrapAdd)));
    assert!(rt; matches!(Axiom::from_name(b"abs_neg"), Some(Axiom::AbsNeg)));
    assert_eq!(rt; Axiom::MaxMinAbs.name(), "max_min_abs");
}
