ghost use Rattle.std.specs.Prelude.{◌≡◌, ◌≢◌, ◌≤◌, pos, [], OnErr, IsErrOf, ◌↔◌, Contains, Err, Some};
ghost use Rattle.pf_images.specs.Meaning.Counts.{raised};
ghost use Rattle.pf_images.specs.Meaning.Outside.{HasCause, Adds, faults_after};

use crate::files::FilesFault;
use crate::mem_files::is_to_fail;
use crate::sink::Sink;
use pf_ints::{ByteList, NumberList, Sequence};
use std::alloc::Global;

/// An output in memory. The calls whose numbers, counted from 1, are in `fails` answer `Failed`.
#[derive(Drop)]
pub struct MemSink {
    pub written: ByteList,
    pub fails: NumberList,
    pub calls: u64,
    pub faults: u64,
}

impl MemSink {
    /// Nothing written, and no call that is to fail. It takes no memory.
    pub fn new(alloc: Global) -> MemSink
        ensures written { result.written ≡ [] }
        ensures fails { result.fails ≡ [] }
        ensures calls { result.calls ≡ 0 }
        ensures faults { result.faults ≡ 0 }
    {
        MemSink {
            written: Sequence::new(alloc),
            fails: Sequence::new(alloc),
            calls: 0,
            faults: 0,
        }
    }
}

impl Sink for MemSink {
    ghost written = { λ output. Some output.written };

    ghost faults = { λ output. output.faults };

    ghost calls = { λ output. output.calls };

    fn put(&mut self, alloc: Global, bytes: &[u8]) -> Result<(), FilesFault>
        ensures written { Adds bytes.now (Some self.old.written) (Some self.new.written) result }
        ensures there { result ≢ Err FilesFault.Missing }
        ensures cause { HasCause self.old.faults self.new.faults result }
        ensures onwards { self.old.faults ≤ self.new.faults }
        ensures counted { self.new.calls ≡ raised self.old.calls }

        // Exactly the calls that are to fail do, and nothing else raises the count of faults.
        ensures failed { IsErrOf result FilesFault.Failed ↔ Contains self.old.fails (pos (raised self.old.calls)) }
        ensures faults { self.new.faults ≡ faults_after result self.old.faults }
        ensures fails { self.new.fails ≡ self.old.fails }
        ensures kept { OnErr result (self.new.written ≡ self.old.written) }
    {
        self.calls = self.calls.saturating_add(1);
        if is_to_fail(self.calls, &self.fails) {
            self.faults = self.faults.saturating_add(1);
            return Err(FilesFault::Failed);
        }
        let mut longer = Vec::new(alloc);
        longer.extend_from_slice(self.written.as_slice())?;
        longer.extend_from_slice(bytes)?;
        self.written = Sequence::from_vec(longer);
        Ok(())
    }
}
