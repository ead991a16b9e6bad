ghost use Rattle.std.specs.Prelude.{◌≡◌, ◌≢◌, ℕ, ◌≤◌, List, Option, Err};
ghost use Rattle.pf_images.specs.Meaning.Counts.{raised};
ghost use Rattle.pf_images.specs.Meaning.Outside.{HasCause, Adds};

use crate::files::FilesFault;
use std::alloc::Global;

/// An output that bytes are appended to. It may tell what was written, and it counts its calls and
/// the faults of the outside, as a store of files does.
pub trait Sink {
    /// All bytes so far, where the output tells them.
    ghost written: { Self → Option (List ℕ) };

    /// How often the outside failed. It never falls.
    ghost faults: { Self → ℕ };

    /// How often the output was called.
    ghost calls: { Self → ℕ };

    /// Appends the bytes. After `Failed`, which comes only where a fault was counted, a prefix was
    /// appended. After `Memory` nothing was. `Missing` never comes.
    fn put(&mut self, alloc: Global, bytes: &[u8]) -> Result<(), FilesFault>
        ensures written { Adds bytes.now (written self.old) (written self.new) result }
        ensures there { result ≢ Err FilesFault.Missing }
        ensures cause { HasCause (faults self.old) (faults self.new) result }
        ensures onwards { faults self.old ≤ faults self.new }
        ensures counted { calls self.new ≡ raised (calls self.old) };
}
