ghost use Rattle.std.specs.Prelude.{◌≡◌, ℕ, ◌<◌, ◌≤◌, ◌^◌, length, MatchOption, IfSome, None, Some, false, true, slice_index_or, []};
ghost use Rattle.std.specs.Str.{bytes_eq};
ghost use Rattle.pf_frames.specs.Meaning.Frames.{limit, operand, register_words};
ghost use Rattle.pf_frames.specs.Steps.Reading.{behind_word, leading_word, read_operand, word_place};

use pf_text::{is_name_byte, number_at};

/// How many words a mark for registers stands for.
const WORDS: u32 = 9;

fn quad_word(n: u32) -> &'static [u8]
    requires { n < 9 }
    ensures { result.now ≡ slice_index_or (register_words 1) n [] }
{
    match n {
        0 => b"rdi",
        1 => b"rsi",
        2 => b"rdx",
        3 => b"rcx",
        4 => b"r8",
        5 => b"rax",
        6 => b"r9",
        7 => b"r10",
        _ => b"r11",
    }
}

fn double_word(n: u32) -> &'static [u8]
    requires { n < 9 }
    ensures { result.now ≡ slice_index_or (register_words 2) n [] }
{
    match n {
        0 => b"edi",
        1 => b"esi",
        2 => b"edx",
        3 => b"ecx",
        4 => b"r8d",
        5 => b"eax",
        6 => b"r9d",
        7 => b"r10d",
        _ => b"r11d",
    }
}

fn half_word(n: u32) -> &'static [u8]
    requires { n < 9 }
    ensures { result.now ≡ slice_index_or (register_words 3) n [] }
{
    match n {
        0 => b"di",
        1 => b"si",
        2 => b"dx",
        3 => b"cx",
        4 => b"r8w",
        5 => b"ax",
        6 => b"r9w",
        7 => b"r10w",
        _ => b"r11w",
    }
}

fn byte_word(n: u32) -> &'static [u8]
    requires { n < 9 }
    ensures { result.now ≡ slice_index_or (register_words 4) n [] }
{
    match n {
        0 => b"dil",
        1 => b"sil",
        2 => b"dl",
        3 => b"cl",
        4 => b"r8b",
        5 => b"al",
        6 => b"r9b",
        7 => b"r10b",
        _ => b"r11b",
    }
}

/// How the register of this number is written at a mark.
#[tactic(auto, using(crate::proofs::OperandLaws::short_word))]
pub fn register_word(mark: u8, n: u32) -> &'static [u8]
    requires mark { (1 ≤ mark) × (mark ≤ 4) }
    requires number { n < 9 }
    ensures value { result.now ≡ slice_index_or (register_words mark) n [] }
    ensures size { length result.now ≤ 10 }
{
    match mark {
        1 => quad_word(n),
        2 => double_word(n),
        3 => half_word(n),
        _ => byte_word(n),
    }
}

/// The letters, digits and `_` that the text begins with, and what follows them.
fn parted(text: &[u8]) -> (&[u8], &[u8])
    ensures word { result.0.now ≡ leading_word text.now }
    ensures rest { result.1.now ≡ behind_word text.now }
{
    for (i, byte) in text.iter().enumerate() {
        if !is_name_byte(*byte) {
            return (&text[..i], &text[i..]);
        }
    }
    (text, &text[text.len()..])
}

/// The number of the register that is written so at a mark.
fn place_of(mark: u8, word: &[u8]) -> Option<u32>
    requires { (1 ≤ mark) × (mark ≤ 4) }
    ensures { result ≡ word_place (register_words mark) word.now }
{
    for n in 0..WORDS {
        if register_word(mark, n) == word {
            return Some(n);
        }
    }
    None
}

fn number(text: &[u8]) -> Option<(u32, &[u8])>
    ensures { MatchOption result (read_operand 0 text.now ≡ None) (λ p. read_operand 0 text.now ≡ Some (p.0, p.1.now)) }
{
    let (n, rest) = number_at(text)?;
    if n < 1 << 32 {
        Some((n as u32, rest))
    } else {
        None
    }
}

fn register(mark: u8, text: &[u8]) -> Option<(u32, &[u8])>
    requires { (1 ≤ mark) × (mark ≤ 4) }
    ensures { MatchOption result (read_operand mark text.now ≡ None) (λ p. read_operand mark text.now ≡ Some (p.0, p.1.now)) }
{
    let (word, rest) = parted(text);
    let n = place_of(mark, word)?;
    Some((n, rest))
}

/// The operand that the text begins with at a mark, and what follows it.
pub fn operand_at(mark: u8, text: &[u8]) -> Option<(u32, &[u8])>
    requires { mark ≤ 4 }
    ensures { MatchOption result (read_operand mark text.now ≡ None) (λ p. read_operand mark text.now ≡ Some (p.0, p.1.now)) }
{
    if mark == 0 {
        number(text)
    } else {
        register(mark, text)
    }
}
