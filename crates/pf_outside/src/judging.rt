//! The calls of a store, one file at a time.

ghost use Rattle.std.specs.Prelude.{◌≡◌};
ghost use Rattle.pf_outside.specs.Meaning.StoreCalls.{seen};
ghost use Rattle.pf_outside.specs.Steps.FileSteps.{Judged, Written};

use crate::stop::Stop;
use pf_images::{Files, FilesFault};
use std::alloc::Global;

/// The first `most` bytes of the file of this number, or all where there are fewer.
pub fn read_front<E, F, S: Files>(
    alloc: Global,
    files: &mut S,
    number: usize,
    name: &str,
    most: u64,
) -> Result<Vec<u8>, Stop<E, F>>
    ensures { Judged (λ bytes front. bytes.items ≡ front) (λ _ _. ⊥) number name.now most
        (seen S.held S.faults S.calls files.old) result (seen S.held S.faults S.calls files.new) }
{
    match files.read(alloc, name, most) {
        Ok(bytes) => Ok(bytes),
        Err(FilesFault::Missing) => Err(Stop::Missing(number)),
        Err(FilesFault::Failed) => Err(Stop::Unreadable(number)),
        Err(FilesFault::Memory) => Err(Stop::Memory),
    }
}

/// Writes a file.
pub fn write_file<E, F, S: Files>(
    alloc: Global,
    files: &mut S,
    name: &str,
    bytes: &[u8],
) -> Result<(), Stop<E, F>>
    ensures { Written name.now bytes.now
        (seen S.held S.faults S.calls files.old) result (seen S.held S.faults S.calls files.new) }
{
    match files.write(alloc, name, bytes) {
        Ok(()) => Ok(()),
        Err(FilesFault::Memory) => Err(Stop::Memory),
        Err(FilesFault::Failed) => Err(Stop::Unwritten),
        Err(FilesFault::Missing) => unreachable!(),
    }
}
