ghost use Rattle.std.specs.Prelude.{◌≡◌, ◌≤◌, ◌<◌, List, ℕ, [], ◌∷◌, length, IfOk, IfSome, MatchOption};
ghost use Rattle.std.specs.Str.Lines.{lines};
ghost use Rattle.pf_isa.specs.Meaning.TextFaults.{texts};

use pf_text::next_line;
use std::alloc::{AllocError, Global};

/// The lines of a text, each without its LF or CR LF.
pub fn lines_of(alloc: Global, text: &[u8]) -> Result<Vec<&[u8]>, AllocError>
    ensures { IfOk result (λ found. texts found.items ≡ lines text.now) }
{
    let mut found = Vec::new(alloc);
    let mut rest = text;
    while 0 < rest.len() {
        let (line, behind) = next_line(rest);
        found.push(line)?;
        rest = behind;
    }
    Ok(found)
}

/// The first line of a text, or None where it has none.
pub fn first_line(text: &[u8]) -> Option<&[u8]>
    ensures { MatchOption result (lines text.now ≡ []) (λ line. (more : List (List ℕ)) × (lines text.now ≡ line.now ∷ more)) }
{
    if text.len() < 1 {
        return None;
    }
    let (line, _behind) = next_line(text);
    Some(line)
}
