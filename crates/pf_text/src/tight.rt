ghost use Rattle.std.specs.Prelude.{◌≡◌, ◌+◌, ◌<◌, ◌≤◌, ◌++◌, [], ◌∷◌, length, IfOk, OnOk, MatchOption, IsTrue, ◌↔◌};
ghost use Rattle.std.specs.Fmt.{decimal};
ghost use Rattle.pf_text.specs.Meaning.Lines.{tight, is_blank};
ghost use Rattle.pf_text.specs.Steps.Scan.{byte_behind_gap, behind_blank, behind_byte};

use itoa::Buffer;
use std::alloc::{AllocError, Global};
use std::marker::Model;

/// A line of at most 80 bytes. It is made and kept without memory.
#[derive(Drop)]
pub struct ShortLine {
    bytes: [u8; 80],
    count: usize,
}

impl Model for ShortLine {
    ghost use Rattle.std.specs.Prelude.{List, ℕ, take, ◌≤◌, ◌≡◌, length};

    ghost Value = { List ℕ };

    ghost view = { λ l. take l.count l.bytes };

    ghost invariant = { λ l. (l.count ≤ 80) × (length l.bytes ≡ 80) };
}

impl ShortLine {
    /// The empty line.
    pub fn new() -> ShortLine
        ensures { result ≡ [] }
    {
        ShortLine {
            bytes: [0; 80],
            count: 0,
        }
    }

    /// The bytes of the line.
    pub fn as_slice(&self) -> &[u8]
        ensures value { result.now ≡ self.now }
        ensures few { length self.now ≤ 80 }
    {
        &self.bytes[..self.count]
    }

    /// The line with a word at its end.
    pub fn word(mut self, word: &[u8]) -> ShortLine
        requires { length self + length word.now ≤ 80 }
        ensures value { result ≡ self ++ word.now }
        ensures size { length result ≡ length self + length word.now }
    {
        let start = self.count;
        let end = start + word.len();
        self.bytes[start..end].copy_from_slice(word);
        self.count = end;
        self
    }

    /// The line with a decimal number at its end.
    pub fn number(self, n: u32) -> ShortLine
        requires { length self ≤ 70 }
        ensures value { result ≡ self ++ decimal n }
        ensures size { length result ≤ length self + 10 }
    {
        let mut buffer = Buffer::new();
        self.word(buffer.format(n).as_bytes())
    }

    /// The line without the blanks that don't count.
    pub fn tightened(&self) -> ShortLine
        ensures { result ≡ tight self.now }
    {
        match tighten(self.as_slice()) {
            Some(line) => line,
            None => unreachable!(),
        }
    }

    /// Whether both lines have the same bytes.
    pub fn is_same(&self, other: &ShortLine) -> bool
        ensures { IsTrue result ↔ (self.now ≡ other.now) }
    {
        self.as_slice() == other.as_slice()
    }

    /// The line with one byte more, or None where it has 80.
    fn with(mut self, byte: u8) -> Option<ShortLine>
        ensures { MatchOption result (80 ≤ length self) (λ l. l ≡ self ++ byte ∷ []) }
    {
        if 80 <= self.count {
            return None;
        }
        self.bytes[self.count] = byte;
        self.count += 1;
        Some(self)
    }
}

/// What stands before a byte of a line, as far as blanks are concerned.
#[derive(Clone, Copy)]
enum Gap {
    /// The front of the line or a comma: blanks don't count.
    Free,
    /// Another byte.
    Closed,
    /// Blanks that count as one.
    Open,
}

/// Whether the byte is a space or a TAB.
pub fn is_blank(byte: u8) -> bool
    ensures { result ≡ is_blank byte }
{
    byte == b' ' || byte == b'\t'
}

/// The gap with a blank behind it.
fn behind_blank(gap: Gap) -> Gap
    ensures { result ≡ behind_blank gap }
{
    match gap {
        Gap::Free => Gap::Free,
        Gap::Closed | Gap::Open => Gap::Open,
    }
}

/// The gap behind a byte that is no blank.
fn behind_byte(byte: u8) -> Gap
    ensures { result ≡ behind_byte byte }
{
    if byte == b',' { Gap::Free } else { Gap::Closed }
}

fn placed(line: ShortLine, gap: Gap, byte: u8) -> Option<ShortLine>
    ensures { MatchOption result (80 < length line + length (byte_behind_gap gap byte)) (λ l. l ≡ line ++ byte_behind_gap gap byte) }
{
    match gap {
        Gap::Free | Gap::Closed => line.with(byte),
        Gap::Open => line.with(b' ')?.with(byte),
    }
}

/// The line without the blanks that don't count: those at its ends and behind a comma, and all but
/// one of others. None where what is left has more than 80 bytes. It takes no memory.
#[tactic(auto, unfolding(crate::specs::Meaning::Lines::tight))]
pub fn tighten(line: &[u8]) -> Option<ShortLine>
    ensures { MatchOption result (80 < length (tight line.now)) (λ l. l ≡ tight line.now) }
{
    let mut gap = Gap::Free;
    let mut tight = ShortLine::new();
    for byte in line {
        if is_blank(*byte) {
            gap = behind_blank(gap);
        } else {
            tight = placed(tight, gap, *byte)?;
            gap = behind_byte(*byte);
        }
    }
    Some(tight)
}

/// The line without the blanks that don't count, of any length.
#[tactic(auto, unfolding(crate::specs::Meaning::Lines::tight))]
pub fn tight_line(alloc: Global, line: &[u8]) -> Result<Vec<u8>, AllocError>
    ensures { IfOk result (λ l. l.items ≡ tight line.now) }
{
    let mut gap = Gap::Free;
    let mut tight = Vec::new(alloc);
    for byte in line {
        if is_blank(*byte) {
            gap = behind_blank(gap);
        } else {
            push_placed(&mut tight, gap, *byte)?;
            gap = behind_byte(*byte);
        }
    }
    Ok(tight)
}

fn push_placed(line: &mut Vec<u8>, gap: Gap, byte: u8) -> Result<(), AllocError>
    ensures { OnOk result (line.new.items ≡ line.old.items ++ byte_behind_gap gap byte) }
{
    match gap {
        Gap::Free | Gap::Closed => Ok(line.push(byte)?),
        Gap::Open => line.extend_from_slice(&[b' ', byte]),
    }
}
