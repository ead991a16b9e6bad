ghost use Rattle.std.specs.Prelude.{◌≡◌};

use std::alloc::AllocError;

/// Why a call ended without its work: E is why a file is refused, F why a call stops whose files so
/// far are good. The files of a call are counted from 0.
#[derive(Clone, Copy)]
pub enum Stop<E, F> {
    /// There is no such file.
    Missing(usize),
    /// The file could not be read.
    Unreadable(usize),
    /// The file was read, and is refused.
    Refused(usize, E),
    /// The files so far are good, and it can't go on.
    Failed(F),
    /// What it made could not be written.
    Unwritten,
    /// Memory was wanting.
    Memory,
}

impl<E, F> From<AllocError> for Stop<E, F> {
    ghost use Rattle.pf_outside.specs.declared.stop.Stop.TheVariants.{Memory};

    ghost from_gives = { λ _ stop. stop ≡ Memory };

    fn from(_want: AllocError) -> Stop<E, F> {
        Stop::Memory
    }
}
