ghost use Rattle.std.specs.Prelude.{◌≡◌, ◌≢◌, ◌≤◌, pos, [], take, IfOk, OnErr, IsErrOf, IsTrue, ◌↔◌, Contains, Err, Some};
ghost use Rattle.std.specs.BTreeMap.{get_by_text, IsEmpty, IsUnchanged};
ghost use Rattle.pf_images.specs.Meaning.Counts.{raised};
ghost use Rattle.pf_images.specs.Meaning.Outside.{SameContents, Changes, IsFrontOfFile, Lacks, HasCause, Writes, faults_after};

use crate::files::{Files, FilesFault};
use pf_ints::{ByteList, NumberList, Sequence};
use std::alloc::{AllocError, Global};
use std::collections::BTreeMap;

/// Files by their names, in the order of the names.
pub type FileMap = BTreeMap<String, ByteList>;

/// Files in memory. The calls whose numbers, counted from 1, are in `fails` answer `Failed`.
#[derive(Drop)]
pub struct MemFiles {
    pub held: FileMap,
    pub fails: NumberList,
    pub calls: u64,
    pub faults: u64,
}

impl MemFiles {
    /// No files, and no call that is to fail. It takes no memory.
    pub fn new(alloc: Global) -> MemFiles
        ensures held { IsEmpty result.held }
        ensures fails { result.fails ≡ [] }
        ensures calls { result.calls ≡ 0 }
        ensures faults { result.faults ≡ 0 }
    {
        MemFiles {
            held: BTreeMap::new(alloc),
            fails: Sequence::new(alloc),
            calls: 0,
            faults: 0,
        }
    }
}

/// Whether the call of this number is to fail.
pub(crate) fn is_to_fail(number: u64, fails: &NumberList) -> bool
    ensures { IsTrue result ↔ Contains fails.now (pos number) }
{
    fails.as_slice().contains(&i128::from(number))
}

fn front(alloc: Global, bytes: &[u8], most: u64) -> Result<Vec<u8>, AllocError>
    ensures { IfOk result (λ front. front.items ≡ take most bytes.now) }
{
    let count = (bytes.len() as u64).min(most) as usize;
    Vec::from_slice(alloc, &bytes[..count])
}

impl Files for MemFiles {
    ghost held = { λ store. Some (λ name. get_by_text store.held name) };

    ghost faults = { λ store. store.faults };

    ghost calls = { λ store. store.calls };

    fn read(&mut self, alloc: Global, name: &str, most: u64) -> Result<Vec<u8>, FilesFault>
        ensures front { IfOk result (λ bytes. IsFrontOfFile (Some (λ name. get_by_text self.old.held name)) name.now most bytes.items) }
        ensures missing { IsErrOf result FilesFault.Missing
            → Lacks (Some (λ name. get_by_text self.old.held name)) name.now self.old.faults self.new.faults }
        ensures kept { Changes SameContents (Some (λ name. get_by_text self.old.held name))
            (Some (λ name. get_by_text self.new.held name)) }
        ensures cause { HasCause self.old.faults self.new.faults result }
        ensures onwards { self.old.faults ≤ self.new.faults }
        ensures counted { self.new.calls ≡ raised self.old.calls }

        // Exactly the calls that are to fail do, and nothing else raises the count of faults.
        ensures failed { IsErrOf result FilesFault.Failed ↔ Contains self.old.fails (pos (raised self.old.calls)) }
        ensures faults { self.new.faults ≡ faults_after result self.old.faults }
        ensures fails { self.new.fails ≡ self.old.fails }
        ensures same { self.new.held ≡ self.old.held }
    {
        self.calls = self.calls.saturating_add(1);
        if is_to_fail(self.calls, &self.fails) {
            self.faults = self.faults.saturating_add(1);
            return Err(FilesFault::Failed);
        }
        let Some(bytes) = self.held.get(name) else {
            return Err(FilesFault::Missing);
        };
        Ok(front(alloc, bytes.as_slice(), most)?)
    }

    fn write(&mut self, alloc: Global, name: &str, bytes: &[u8]) -> Result<(), FilesFault>
        ensures written { Writes name.now bytes.now (Some (λ name. get_by_text self.old.held name))
            (Some (λ name. get_by_text self.new.held name)) result }
        ensures there { result ≢ Err FilesFault.Missing }
        ensures cause { HasCause self.old.faults self.new.faults result }
        ensures onwards { self.old.faults ≤ self.new.faults }
        ensures counted { self.new.calls ≡ raised self.old.calls }

        // Exactly the calls that are to fail do, and nothing else raises the count of faults.
        ensures failed { IsErrOf result FilesFault.Failed ↔ Contains self.old.fails (pos (raised self.old.calls)) }
        ensures faults { self.new.faults ≡ faults_after result self.old.faults }
        ensures fails { self.new.fails ≡ self.old.fails }
        ensures kept { OnErr result (IsUnchanged self.old.held self.new.held) }
    {
        self.calls = self.calls.saturating_add(1);
        if is_to_fail(self.calls, &self.fails) {
            self.faults = self.faults.saturating_add(1);
            return Err(FilesFault::Failed);
        }
        let name = String::from_str(alloc, name)?;
        let bytes = Sequence::from_slice(alloc, bytes)?;
        self.held.insert(name, bytes)?;
        Ok(())
    }
}
