//! Why bytes are no PGM file.

ghost use Rattle.std.specs.Prelude.{◌≡◌, ◌-◌, ◌≤◌, length, codes};
ghost use Rattle.pf_images.specs.declared.fault.ImageFault.TheVariants.{Memory};
ghost use Rattle.pf_images.specs.Meaning.Words.{kind_word};

use std::alloc::{AllocError, AllocFailed};
use thiserror::Error;

/// What is wrong at a place of a PGM file, in the order in which reading meets it.
#[derive(Clone, Copy, Debug, PartialEq, Eq, Error)]
pub enum PgmKind {
    /// The file doesn't begin with `P5`.
    #[error("magic")]
    Magic,
    /// A byte can't stand here in a header, or the header is cut off.
    #[error("number")]
    Number,
    /// The width, the height or their product is 0 or above its limit.
    #[error("size")]
    Size,
    /// Maxval is 0 or above what the type of the image holds.
    #[error("maxval")]
    Maxval,
    /// Samples are missing.
    #[error("short")]
    Short,
    /// Bytes stand behind the samples.
    #[error("extra")]
    Extra,
}

impl PgmKind {
    /// The kind in one word of small letters.
    pub fn word(self) -> &'static [u8]
        ensures { result.now ≡ kind_word self }
    {
        match self {
            PgmKind::Magic => b"magic",
            PgmKind::Number => b"number",
            PgmKind::Size => b"size",
            PgmKind::Maxval => b"maxval",
            PgmKind::Short => b"short",
            PgmKind::Extra => b"extra",
        }
    }
}

/// Why no image was read.
#[derive(Clone, Copy, Debug, PartialEq, Eq)]
pub enum ImageFault {
    /// What is wrong, and how many bytes stand before it.
    At { at: u64, kind: PgmKind },
    /// Memory ran out.
    Memory,
}

impl From<AllocError> for ImageFault {
    ghost from_gives = { λ _ e. e ≡ Memory };

    fn from(_e: AllocError) -> ImageFault {
        ImageFault::Memory
    }
}

impl<T: Drop> From<AllocFailed<T>> for ImageFault {
    ghost from_gives = { λ _ e. e ≡ Memory };

    fn from(_e: AllocFailed<T>) -> ImageFault {
        ImageFault::Memory
    }
}

/// What is wrong, and how many bytes stand from there to the end of the file.
#[derive(Clone, Copy, Debug)]
pub struct Fault {
    pub left: usize,
    pub kind: PgmKind,
}
