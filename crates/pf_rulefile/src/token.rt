ghost use Rattle.std.specs.Prelude.{◌≡◌, ◌∷◌, ◌<◌, ◌≤◌, [], length, take, drop, MatchOption, IfSome, None, Some, pos, true};
ghost use Rattle.std.specs.List.{list_all};
ghost use Rattle.pf_text.specs.Meaning.Words.{is_digit};
ghost use Rattle.pf_rulefile.specs.Meaning.Tokens.{sticks, tokens, is_int, int_of};
ghost use Rattle.pf_rulefile.specs.Steps.Fronts.{stuck, behind_stuck, from_solid, IsSolid, after};

use pf_text::{is_blank, is_digit, is_name_byte, value_of_digits};

/// Whether two bytes side by side belong to one token.
fn sticks(first: u8, second: u8) -> bool
    ensures { result ≡ sticks first second }
{
    is_name_byte(second) && (is_name_byte(first) || first == b'}')
        || first == second && (first == b'<' || first == b'=' || first == b'>')
}

/// The text from its first byte on that is no blank.
fn from_solid(text: &[u8]) -> &[u8]
    ensures value { result.now ≡ from_solid text.now }
    ensures within { length result.now ≤ length text.now }
{
    for (i, byte) in text.iter().enumerate() {
        if !is_blank(*byte) {
            return &text[i..];
        }
    }
    &text[text.len()..]
}

/// How many bytes at the front of the text belong to the token that the byte before it is in.
fn stuck_count(first: u8, text: &[u8]) -> usize
    ensures within { result ≤ length text.now }
    ensures stuck { stuck first text.now ≡ take result text.now }
    ensures behind { behind_stuck first text.now ≡ drop result text.now }
{
    let mut last = first;
    for (i, byte) in text.iter().enumerate() {
        if !sticks(last, *byte) {
            return i;
        }
        last = *byte;
    }
    text.len()
}

/// The first token of the text, and what follows it.
pub fn next_token(text: &[u8]) -> Option<(&[u8], &[u8])>
    ensures value { MatchOption result (tokens text.now ≡ []) (λ p. tokens text.now ≡ p.0.now ∷ tokens p.1.now) }
    ensures less { IfSome result (λ p. length p.1.now < length text.now) }
{
    let solid = from_solid(text);
    match solid {
        [first, rest @ ..] => {
            let end = stuck_count(*first, rest) + 1;
            Some((&solid[..end], &solid[end..]))
        }
        [] => None,
    }
}

/// What follows this token, or None where the text doesn't begin with it.
pub fn after<'a>(word: &[u8], text: &'a [u8]) -> Option<&'a [u8]>
    ensures { MatchOption result (after word.now (tokens text.now) ≡ None) (λ rest. after word.now (tokens text.now) ≡ Some (tokens rest.now)) }
{
    match next_token(text) {
        Some((token, rest)) if token == word => Some(rest),
        _ => None,
    }
}

/// The number that one to ten digits stand for.
#[tactic(auto, using(crate::proofs::TokenLaws::digits_same))]
pub fn int_of(word: &[u8]) -> Option<i64>
    ensures { result ≡ int_of word.now }
{
    if is_int(word) {
        Some(value_of_digits(word) as i64)
    } else {
        None
    }
}

fn is_int(word: &[u8]) -> bool
    ensures { result ≡ is_int word.now }
{
    1 <= word.len() && word.len() <= 10 && are_digits(word)
}

fn are_digits(word: &[u8]) -> bool
    ensures { result ≡ list_all is_digit word.now }
{
    word.iter().all(|byte| is_digit(*byte))
}
