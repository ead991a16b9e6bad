ghost use Rattle.std.specs.Prelude.{◌≡◌, ◌<◌, [], ◌∷◌, length, IfOk, IfSome, MatchOption};
ghost use Rattle.std.specs.List.{slice_split, position};
ghost use Rattle.pf_isa.specs.Steps.HeadWords.{is_space};
ghost use Rattle.pf_isa.specs.Meaning.TextFaults.{texts};

use std::alloc::{AllocError, Global};

/// What stands between the spaces of a line.
pub fn words_of(alloc: Global, line: &[u8]) -> Result<Vec<&[u8]>, AllocError>
    ensures { IfOk result (λ words. texts words.items ≡ slice_split is_space line.now) }
{
    let mut words = Vec::new(alloc);
    let mut rest = line;
    'words: loop {
        let (word, behind) = first_word(rest);
        words.push(word)?;
        let Some(behind) = behind else {
            return Ok(words);
        };
        rest = behind;
    }
}

// The word in front, and what follows the space behind it.
fn first_word(line: &[u8]) -> (&[u8], Option<&[u8]>)
    ensures split { MatchOption result.1 (slice_split is_space line.now ≡ result.0.now ∷ []) (λ rest. slice_split is_space line.now ≡ result.0.now ∷ slice_split is_space rest.now) }
    ensures less { IfSome result.1 (λ rest. length rest.now < length line.now) }
{
    match space_in(line) {
        Some(end) => (&line[..end], Some(&line[end + 1..])),
        None => (line, None),
    }
}

fn space_in(line: &[u8]) -> Option<usize>
    ensures value { result ≡ position is_space line.now }
    ensures within { IfSome result (λ end. end < length line.now) }
{
    line.iter().position(|byte| *byte == b' ')
}
