ghost use Rattle.std.specs.Prelude.{◌≡◌, ◌≢◌, ◌≤◌, Err, None};
ghost use Rattle.pf_images.specs.Meaning.Counts.{raised};
ghost use Rattle.pf_images.specs.Meaning.Outside.{HasCause, Adds, counted_after};

use crate::files::FilesFault;
use crate::real_files::counted;
use crate::sink::Sink;
use crate::streams::write_whole;
use std::alloc::Global;
use std::io;

/// The standard output of the machine. It tells nothing of what was written.
#[derive(Drop)]
pub struct RealSink<H> {
    host: H,
    calls: u64,
    faults: u64,
}

impl<H> RealSink<H> {
    /// The output that the host prints to, with no call so far.
    pub fn new(host: H) -> RealSink<H>
        ensures calls { result.calls ≡ 0 }
        ensures faults { result.faults ≡ 0 }
    {
        RealSink {
            host,
            calls: 0,
            faults: 0,
        }
    }
}

impl<H: Print> Sink for RealSink<H> {
    ghost written = { λ _. None };

    ghost faults = { λ output. output.faults };

    ghost calls = { λ output. output.calls };

    fn put(&mut self, _alloc: Global, bytes: &[u8]) -> Result<(), FilesFault>
        ensures written { Adds bytes.now None None result }
        ensures there { result ≢ Err FilesFault.Missing }
        ensures cause { HasCause self.old.faults self.new.faults result }
        ensures onwards { self.old.faults ≤ self.new.faults }
        ensures counted { self.new.calls ≡ raised self.old.calls }

        // A fault is counted exactly where the machine failed.
        ensures faults { self.new.faults ≡ counted_after result self.old.faults }
    {
        self.calls = self.calls.saturating_add(1);
        let done = write_whole(&mut io::writer(&self.host), bytes);
        self.faults = counted(&done, self.faults);
        done
    }
}
