ghost use Rattle.std.specs.Prelude.{◌≡◌};
ghost use Rattle.pf_isa.specs.declared.fault.TextFault.TheVariants.{Memory};
ghost use Rattle.pf_isa.specs.Meaning.TextFaults.{text_kind_word};

use std::alloc::{AllocError, AllocFailed};
use thiserror::Error;

/// What is wrong with a line of a text.
#[derive(Clone, Copy, Debug, PartialEq, Eq, Error)]
pub enum TextKind {
    /// Line 1 isn't the line of the target.
    #[error("target")]
    Target,
    /// With this line the lines so far begin no head, or the text ends within the head.
    #[error("directive")]
    Directive,
    /// The line says no instruction and no label, and it isn't blank but for a comment.
    #[error("instruction")]
    Instruction,
    /// An earlier line has this label, or the label of this jump is missing.
    #[error("label")]
    Label,
    /// There is no instruction, or the last one is neither a jump nor a return.
    #[error("noend")]
    NoEnd,
}

impl TextKind {
    /// The kind in one word of small letters.
    pub fn word(self) -> &'static [u8]
        ensures { result.now ≡ text_kind_word self }
    {
        match self {
            TextKind::Target => b"target",
            TextKind::Directive => b"directive",
            TextKind::Instruction => b"instruction",
            TextKind::Label => b"label",
            TextKind::NoEnd => b"noend",
        }
    }
}

/// Why no program was read.
#[derive(Clone, Copy, Debug, PartialEq, Eq)]
pub enum TextFault {
    /// What is wrong, and in which line, counted from 1.
    At { line: u64, kind: TextKind },
    /// Memory ran out.
    Memory,
}

impl From<AllocError> for TextFault {
    ghost from_gives = { λ _ e. e ≡ Memory };

    fn from(_error: AllocError) -> TextFault {
        TextFault::Memory
    }
}

impl<T: Drop> From<AllocFailed<T>> for TextFault {
    ghost from_gives = { λ _ e. e ≡ Memory };

    fn from(_error: AllocFailed<T>) -> TextFault {
        TextFault::Memory
    }
}
