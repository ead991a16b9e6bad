ghost use Rattle.std.specs.Prelude.{◌≡◌, ◌≢◌, ℕ, ◌≤◌, List, Option, IfOk, IsErrOf, Err};
ghost use Rattle.pf_images.specs.Meaning.Counts.{raised};
ghost use Rattle.pf_images.specs.Meaning.Outside.{Contents, SameContents, Changes, IsFrontOfFile, Lacks, HasCause, Writes};

use std::alloc::{AllocError, AllocFailed, Global};
use thiserror::Error;

/// Why a call of `Files` or of `Sink` did not do its work.
#[derive(Clone, Copy, Debug, PartialEq, Eq, Error)]
pub enum FilesFault {
    #[error("no such file")]
    Missing,
    #[error("the file failed")]
    Failed,
    #[error("out of memory")]
    Memory,
}

impl From<AllocError> for FilesFault {
    ghost use Rattle.pf_images.specs.declared.files.FilesFault.TheVariants.{Memory};

    ghost from_gives = { λ _ fault. fault ≡ Memory };

    fn from(_want: AllocError) -> FilesFault {
        FilesFault::Memory
    }
}

impl<T: Drop> From<AllocFailed<T>> for FilesFault {
    ghost use Rattle.pf_images.specs.declared.files.FilesFault.TheVariants.{Memory};

    ghost from_gives = { λ _ fault. fault ≡ Memory };

    fn from(_want: AllocFailed<T>) -> FilesFault {
        FilesFault::Memory
    }
}

/// A store of files. It may tell what its names hold, and it counts its calls and the faults of
/// the outside. A count stands still at 2^64 - 1, and one that stood there counts as risen.
pub trait Files {
    /// What each name holds, where the store tells it.
    ghost held: { Self → Option Contents };

    /// How often the outside failed. It never falls.
    ghost faults: { Self → ℕ };

    /// How often the store was called.
    ghost calls: { Self → ℕ };

    /// The first `most` bytes of the file, or all where there are fewer. `Missing` where there is no
    /// such file; `Failed` only where a fault was counted.
    fn read(&mut self, alloc: Global, name: &str, most: u64) -> Result<Vec<u8>, FilesFault>
        ensures front { IfOk result (λ bytes. IsFrontOfFile (held self.old) name.now most bytes.items) }
        ensures missing { IsErrOf result FilesFault.Missing
            → Lacks (held self.old) name.now (faults self.old) (faults self.new) }
        ensures kept { Changes SameContents (held self.old) (held self.new) }
        ensures cause { HasCause (faults self.old) (faults self.new) result }
        ensures onwards { faults self.old ≤ faults self.new }
        ensures counted { calls self.new ≡ raised (calls self.old) };

    /// Makes the name hold the bytes. No other name changes. After `Failed`, which comes only where a
    /// fault was counted, the name is as before or holds a prefix of the bytes. After `Memory`
    /// nothing changed. `Missing` never comes.
    fn write(&mut self, alloc: Global, name: &str, bytes: &[u8]) -> Result<(), FilesFault>
        ensures written { Writes name.now bytes.now (held self.old) (held self.new) result }
        ensures there { result ≢ Err FilesFault.Missing }
        ensures cause { HasCause (faults self.old) (faults self.new) result }
        ensures onwards { faults self.old ≤ faults self.new }
        ensures counted { calls self.new ≡ raised (calls self.old) };
}
