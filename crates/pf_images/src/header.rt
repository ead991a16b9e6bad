//! The header of a PGM file.

ghost use Rattle.std.specs.Prelude.{◌≡◌, ◌≤◌, ◌+◌, ◌*◌, ◌<◌, ◌^◌, length, false, min, IfOk};
ghost use Rattle.pf_ints.specs.Meaning.Images.{IsPixelType};
ghost use Rattle.pf_images.specs.Meaning.Pgm.{is_white, ends_comment, number_from, greatest_sample, begins_blank};
ghost use Rattle.pf_images.specs.Steps.Reading.{GivesRead, at_these, at_number, blank_count, digit_count, begun, digits_at, field_at, side_of, header_height, maxval_of, magic_of, header_of};

use crate::fault::{Fault, PgmKind};
use pf_ints::{LaneType, MOST_PIXELS, MOST_SIDE};
use pf_text::is_digit;

/// The numbers of a header.
#[derive(Clone, Copy, Debug)]
pub struct Header {
    pub width: u32,
    pub height: u32,
    pub maxval: u32,
}

/// Numbers from here on are told alike: each is above every limit.
const CAP: u32 = 65_536;

fn is_white(byte: u8) -> bool
    ensures { result ≡ is_white byte }
{
    byte == b' ' || byte == b'\t' || byte == b'\n' || byte == b'\r'
}

fn ends_comment(byte: u8) -> bool
    ensures { result ≡ ends_comment byte }
{
    byte == b'\n' || byte == b'\r'
}

/// Whether the byte begins white space, where comments may stand or may not.
fn begins_blank(comments: bool, byte: u8) -> bool
    ensures { result ≡ begins_blank comments byte }
{
    is_white(byte) || (comments && byte == b'#')
}

fn blank_count(bytes: &[u8]) -> usize
    ensures value { result ≡ blank_count false bytes.now }
    ensures within { result ≤ length bytes.now }
{
    let mut is_inside = false;
    'bytes: for (place, byte) in bytes.iter().enumerate() {
        if is_inside {
            is_inside = !ends_comment(*byte);
        } else if begins_blank(true, *byte) {
            is_inside = *byte == b'#';
        } else {
            return place;
        }
    }
    bytes.len()
}

fn digit_count(bytes: &[u8]) -> usize
    ensures value { result ≡ digit_count bytes.now }
    ensures within { result ≤ length bytes.now }
{
    'bytes: for (place, byte) in bytes.iter().enumerate() {
        if !is_digit(*byte) {
            return place;
        }
    }
    bytes.len()
}

fn number_fault(bytes: &[u8]) -> Fault
    ensures { result ≡ at_these bytes.now PgmKind.Number }
{
    Fault {
        left: bytes.len(),
        kind: PgmKind::Number,
    }
}

fn field_fault(digits: &[u8], rest: &[u8], kind: PgmKind) -> Fault
    requires { length digits.now + length rest.now < 2 ^ 64 }
    ensures { result ≡ at_number (digits.now, rest.now) kind }
{
    Fault {
        left: digits.len() + rest.len(),
        kind,
    }
}

#[tactic(auto, unfolding(crate::specs::Steps::Reading::begun))]
fn begun(comments: bool, bytes: &[u8]) -> Result<&[u8], Fault>
    ensures value { GivesRead (λ x. x.now) result (begun comments bytes.now) }
    ensures same { IfOk result (λ x. (x.now ≡ bytes.now) × (1 ≤ length x.now)) }
{
    match bytes {
        [first, ..] if begins_blank(comments, *first) => Ok(bytes),
        _ => Err(number_fault(bytes)),
    }
}

#[tactic(auto, unfolding(crate::specs::Steps::Reading::digits_at))]
fn digits_at(comments: bool, bytes: &[u8]) -> Result<(&[u8], &[u8]), Fault>
    ensures value { GivesRead (λ x. (x.0.now, x.1.now)) result (digits_at comments bytes.now) }
    ensures within { IfOk result (λ x. length x.0.now + length x.1.now ≤ length bytes.now) }
    ensures ended { IfOk result (λ x. 1 ≤ length x.1.now) }
{
    let count = digit_count(bytes);
    if count == 0 {
        return Err(number_fault(bytes));
    }
    let (digits, rest) = bytes.split_at(count);
    let rest = begun(comments, rest)?;
    Ok((digits, rest))
}

#[tactic(auto, unfolding(crate::specs::Steps::Reading::field_at))]
fn field_at(comments: bool, bytes: &[u8]) -> Result<(&[u8], &[u8]), Fault>
    ensures value { GivesRead (λ x. (x.0.now, x.1.now)) result (field_at comments bytes.now) }
    ensures within { IfOk result (λ x. length x.0.now + length x.1.now ≤ length bytes.now) }
    ensures ended { IfOk result (λ x. 1 ≤ length x.1.now) }
{
    let blank = blank_count(bytes);
    digits_at(comments, &bytes[blank..])
}

/// The number of the digits, or the cap where it is greater.
#[tactic(auto, using(crate::proofs::Counts::capped_more))]
fn capped_number(digits: &[u8]) -> u32
    ensures { result ≡ min (number_from 0 digits.now) 65536 }
{
    let mut number = 0;
    'digits: for digit in digits {
        number = (number * 10 + u32::from(digit.saturating_sub(b'0'))).min(CAP);
    }
    number
}

#[tactic(auto, unfolding(crate::specs::Steps::Reading::side_of))]
fn side_of(digits: &[u8], rest: &[u8]) -> Result<u32, Fault>
    requires { length digits.now + length rest.now < 2 ^ 64 }
    ensures value { GivesRead (λ n. n) result (side_of (digits.now, rest.now)) }
    ensures within { IfOk result (λ n. (1 ≤ n) × (n ≤ 8192)) }
{
    let side = capped_number(digits);
    if 1 <= side && side <= MOST_SIDE {
        Ok(side)
    } else {
        Err(field_fault(digits, rest, PgmKind::Size))
    }
}

#[tactic(auto, unfolding(crate::specs::Steps::Reading::header_height))]
fn header_height(width: u32, digits: &[u8], rest: &[u8]) -> Result<u32, Fault>
    requires wide { width ≤ 8192 }
    requires within { length digits.now + length rest.now < 2 ^ 64 }
    ensures value { GivesRead (λ n. n) result (header_height width (digits.now, rest.now)) }
    ensures most { IfOk result (λ n. (1 ≤ n) × (n ≤ 8192) × (width * n ≤ 16777216)) }
{
    let height = side_of(digits, rest)?;
    if width * height <= MOST_PIXELS {
        Ok(height)
    } else {
        Err(field_fault(digits, rest, PgmKind::Size))
    }
}

#[tactic(auto, unfolding(crate::specs::Steps::Reading::maxval_of))]
fn maxval_of(ty: LaneType, digits: &[u8], rest: &[u8]) -> Result<u32, Fault>
    requires ty { IsPixelType ty }
    requires within { length digits.now + length rest.now < 2 ^ 64 }
    ensures { GivesRead (λ n. n) result (maxval_of ty (digits.now, rest.now)) }
{
    let maxval = capped_number(digits);
    if 1 <= maxval && maxval <= u32::from(ty.greatest_pixel()) {
        Ok(maxval)
    } else {
        Err(field_fault(digits, rest, PgmKind::Maxval))
    }
}

#[tactic(auto, unfolding(crate::specs::Steps::Reading::magic_of))]
fn magic_of(bytes: &[u8]) -> Result<&[u8], Fault>
    ensures { GivesRead (λ x. x.now) result (magic_of bytes.now) }
{
    match bytes {
        [b'P', b'5', rest @ ..] => Ok(rest),
        _ => Err(Fault {
            left: bytes.len(),
            kind: PgmKind::Magic,
        }),
    }
}

/// The numbers of the header, and the bytes behind it.
#[tactic(auto, unfolding(crate::specs::Steps::Reading::header_of))]
pub fn header_of(bytes: &[u8], ty: LaneType) -> Result<(Header, &[u8]), Fault>
    requires { IsPixelType ty }
    ensures value { GivesRead (λ x. (x.0, x.1.now)) result (header_of ty bytes.now) }
    ensures within { IfOk result (λ x. x.0.width * x.0.height ≤ 16777216) }
{
    let start = begun(true, magic_of(bytes)?)?;
    let (digits, rest) = field_at(true, start)?;
    let width = side_of(digits, rest)?;
    let (digits, rest) = field_at(true, rest)?;
    let height = header_height(width, digits, rest)?;
    let (digits, rest) = field_at(false, rest)?;
    let maxval = maxval_of(ty, digits, rest)?;
    let header = Header {
        width,
        height,
        maxval,
    };
    Ok((header, &rest[1..]))
}
