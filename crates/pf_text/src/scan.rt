ghost use Rattle.std.specs.Prelude.{◌≡◌, ◌≤◌, length, MatchOption, None, Some, All, true, ◌<◌, ◌^◌};
ghost use Rattle.pf_text.specs.Meaning.Words.{is_digit};
ghost use Rattle.pf_text.specs.Steps.Scan.{behind, leading_digits, behind_digits, from_digit, number_on, number_at, next_number};

use crate::word::is_digit;

/// What follows the word, or None where the text doesn't begin with it.
pub fn behind<'a>(word: &[u8], text: &'a [u8]) -> Option<&'a [u8]>
    ensures { MatchOption result (behind word.now text.now ≡ None) (λ rest. behind word.now text.now ≡ Some rest.now) }
{
    text.strip_prefix(word)
}

/// The digits that the text begins with, and what follows them.
fn parted(text: &[u8]) -> (&[u8], &[u8])
    ensures digits { result.0.now ≡ leading_digits text.now }
    ensures rest { result.1.now ≡ behind_digits text.now }
{
    for (i, byte) in text.iter().enumerate() {
        if !is_digit(*byte) {
            return (&text[..i], &text[i..]);
        }
    }
    (text, &text[text.len()..])
}

/// The text from its first digit on.
fn from_digit(text: &[u8]) -> &[u8]
    ensures { result.now ≡ from_digit text.now }
{
    for (i, byte) in text.iter().enumerate() {
        if is_digit(*byte) {
            return &text[i..];
        }
    }
    &text[text.len()..]
}

/// The number that at most 20 digits write.
pub fn value_of_digits(digits: &[u8]) -> u128
    requires few { length digits.now ≤ 20 }
    requires digits { All (λ c. is_digit c ≡ true) digits.now }
    ensures value { result ≡ number_on 0 digits.now }
    ensures small { result < 10 ^ length digits.now }
{
    let mut n: u128 = 0;
    for digit in digits {
        n = 10 * n + u128::from(*digit - b'0');
    }
    n
}

/// A decimal number without a leading zero at the front of the text, and what follows it, or None
/// where there is none of at most 19 digits.
#[tactic(auto, using(crate::proofs::Fronts::few_digits))]
pub fn number_at(text: &[u8]) -> Option<(u64, &[u8])>
    ensures { MatchOption result (number_at text.now ≡ None) (λ p. number_at text.now ≡ Some (p.0, p.1.now)) }
{
    let (digits, rest) = parted(text);
    let many = digits.len();
    if many < 1 || 19 < many || (digits[0] == b'0' && 1 < many) {
        return None;
    }
    Some((value_of_digits(digits) as u64, rest))
}

/// The number at the first digit of the text, and what follows it, or None where there is none.
pub fn next_number(text: &[u8]) -> Option<(u64, &[u8])>
    ensures { MatchOption result (next_number text.now ≡ None) (λ p. next_number text.now ≡ Some (p.0, p.1.now)) }
{
    number_at(from_digit(text))
}
