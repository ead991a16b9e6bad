ghost use Rattle.std.specs.Prelude.{◌≡◌, ◌≢◌, ◌≤◌, Err, None, IfOk, IsErrOf};
ghost use Rattle.pf_images.specs.Meaning.Counts.{raised};
ghost use Rattle.pf_images.specs.Meaning.Outside.{SameContents, Changes, IsFrontOfFile, Lacks, HasCause, Writes, counted_after};

use crate::files::{Files, FilesFault};
use crate::streams::{read_up_to, write_whole};
use std::alloc::Global;
use std::io::ErrorKind;
use std::rt::Files as HostFiles;
use std::{fs, io};

/// The files of the machine. It tells nothing of what they hold.
#[derive(Drop)]
pub struct RealFiles<H> {
    host: H,
    calls: u64,
    faults: u64,
}

impl<H> RealFiles<H> {
    /// The files that the host reaches, with no call so far.
    pub fn new(host: H) -> RealFiles<H>
        ensures calls { result.calls ≡ 0 }
        ensures faults { result.faults ≡ 0 }
    {
        RealFiles {
            host,
            calls: 0,
            faults: 0,
        }
    }
}

/// The fault that stands for an error of the machine.
fn fault_of(error: io::Error) -> FilesFault {
    match error.kind() {
        ErrorKind::NotFound => FilesFault::Missing,
        ErrorKind::OutOfMemory => FilesFault::Memory,
        _ => FilesFault::Failed,
    }
}

/// Reads up to `most` bytes of the file.
fn read_file<H: HostFiles>(
    host: &H,
    alloc: Global,
    name: &str,
    most: u64,
) -> Result<Vec<u8>, FilesFault> {
    let file = fs::open(host, name).map_err(fault_of)?;
    read_up_to(alloc, file, most)
}

fn write_file<H: HostFiles>(host: &H, name: &str, bytes: &[u8]) -> Result<(), FilesFault>
    ensures there { result ≢ Err FilesFault.Missing }
{
    match fs::create(host, name) {
        Ok(mut file) => write_whole(&mut file, bytes),
        Err(error) if error.kind() == ErrorKind::OutOfMemory => Err(FilesFault::Memory),
        Err(_) => Err(FilesFault::Failed),
    }
}

/// Counts a fault where the call had one.
pub(crate) fn counted<T>(done: &Result<T, FilesFault>, faults: u64) -> u64
    ensures value { result ≡ counted_after done.now faults }
{
    match done {
        Err(FilesFault::Failed | FilesFault::Missing) => faults.saturating_add(1),
        _ => faults,
    }
}

impl<H: HostFiles> Files for RealFiles<H> {
    ghost held = { λ _. None };

    ghost faults = { λ store. store.faults };

    ghost calls = { λ store. store.calls };

    fn read(&mut self, alloc: Global, name: &str, most: u64) -> Result<Vec<u8>, FilesFault>
        ensures front { IfOk result (λ bytes. IsFrontOfFile None name.now most bytes.items) }
        ensures missing { IsErrOf result FilesFault.Missing → Lacks None name.now self.old.faults self.new.faults }
        ensures kept { Changes SameContents None None }
        ensures cause { HasCause self.old.faults self.new.faults result }
        ensures onwards { self.old.faults ≤ self.new.faults }
        ensures counted { self.new.calls ≡ raised self.old.calls }

        // A fault is counted exactly where the machine failed or had no such file.
        ensures faults { self.new.faults ≡ counted_after result self.old.faults }
    {
        self.calls = self.calls.saturating_add(1);
        let done = read_file(&self.host, alloc, name, most);
        self.faults = counted(&done, self.faults);
        done
    }

    fn write(&mut self, _alloc: Global, name: &str, bytes: &[u8]) -> Result<(), FilesFault>
        ensures written { Writes name.now bytes.now None None result }
        ensures there { result ≢ Err FilesFault.Missing }
        ensures cause { HasCause self.old.faults self.new.faults result }
        ensures onwards { self.old.faults ≤ self.new.faults }
        ensures counted { self.new.calls ≡ raised self.old.calls }

        // A fault is counted exactly where the machine failed.
        ensures faults { self.new.faults ≡ counted_after result self.old.faults }
    {
        self.calls = self.calls.saturating_add(1);
        let done = write_file(&self.host, name, bytes);
        self.faults = counted(&done, self.faults);
        done
    }
}
