ghost use Rattle.std.specs.Prelude.{◌≡◌, ℕ, ◌+◌, ◌*◌, ◌<◌, ◌≤◌, ◌++◌, [], ◌∷◌, length, MatchOption, None, Some, false, IsTrue, ◌↔◌};
ghost use Rattle.pf_frames.specs.Meaning.Frames.{filled, is_mark, marks, operand};
ghost use Rattle.pf_frames.specs.Meaning.FrameTests.{bare};
ghost use Rattle.pf_frames.specs.Steps.Reading.{matched};

use crate::line::Numbers;
use crate::register::{operand_at, register_word};
use pf_text::{ShortLine, is_blank};

fn is_mark(byte: u8) -> bool
    ensures { result ≡ is_mark byte }
{
    byte < 5
}

/// The operands at the marks, where the line is the frame with such, up to blanks behind commas.
pub fn matched(frame: &[u8], line: &[u8]) -> Option<Numbers>
    requires { length (marks frame.now) ≤ 8 }
    ensures { MatchOption result (matched (bare false frame.now) line.now [] ≡ None) (λ ns. matched (bare false frame.now) line.now [] ≡ Some ns) }
{
    let mut free = false;
    let mut rest = line;
    let mut numbers = Numbers::new();
    for byte in frame {
        if is_mark(*byte) {
            let (n, behind) = operand_at(*byte, rest)?;
            numbers = numbers.with(n);
            rest = behind;
            free = false;
        } else if !(is_blank(*byte) && free) {
            rest = rest.strip_prefix(&[*byte])?;
            free = *byte == b',';
        }
    }
    if rest.len() < 1 { Some(numbers) } else { None }
}

/// The line with an operand at its end, as it is written at a mark.
#[tactic(auto, using(crate::proofs::OperandLaws::no_word))]
fn with_operand(line: ShortLine, mark: u8, n: u32) -> ShortLine
    requires mark { mark ≤ 4 }
    requires room { length line ≤ 70 }
    ensures value { result ≡ line ++ operand mark n }
    ensures size { length result ≤ length line + 10 }
{
    if mark == 0 {
        return line.number(n);
    }
    if n < 9 {
        return line.word(register_word(mark, n));
    }
    line
}

/// The line with the frame behind it, the operands in place of its marks.
pub fn filled(line: ShortLine, frame: &[u8], numbers: &[u32]) -> ShortLine
    requires room { length line + length frame.now + 10 * length numbers.now ≤ 80 }
    ensures { result ≡ line ++ filled frame.now numbers.now }
{
    let mut line = line;
    let mut rest = numbers;
    for byte in frame {
        if is_mark(*byte) {
            if let [n, more @ ..] = rest {
                line = with_operand(line, *byte, *n);
                rest = more;
            }
        } else {
            line = line.word(&[*byte]);
        }
    }
    line
}
