//! A store of files and an output in memory that answer as they are told to. To a proof they tell
//! nothing of what they hold, so that a call owes no more over them than over real ones.

ghost use Rattle.std.specs.Prelude.{◌≡◌, ◌≢◌, Err, None};
ghost use Rattle.pf_images.specs.Meaning.Outside.{counted_after};

use pf_images::{FileMap, Files, FilesFault, Sink};
use pf_ints::Sequence;
use std::alloc::{AllocError, Global};
use std::collections::BTreeMap;

/// What a call answers in place of its work.
#[derive(Clone, Copy)]
pub enum Answer {
    Missing,
    Failed,
    /// It fails, but has taken so many bytes.
    FailedAfter(usize),
    Memory,
}

/// Which calls have an answer of their own: the store's call of a number, counted from 1, and the
/// first two of the output.
#[derive(Clone, Copy)]
pub struct Script {
    pub file: Option<(u64, Answer)>,
    pub puts: [Option<Answer>; 2],
}

/// Counts a fault where the call had one.
fn counted<T>(done: &Result<T, FilesFault>, faults: u64) -> u64
    ensures { result ≡ counted_after done.now faults }
{
    match done {
        Err(FilesFault::Failed | FilesFault::Missing) => faults.saturating_add(1),
        _ => faults,
    }
}

/// At most so many of the bytes.
fn front(bytes: &[u8], most: usize) -> &[u8] {
    &bytes[..bytes.len().min(most)]
}

/// A store of files.
#[derive(Drop)]
pub struct ScriptedFiles {
    pub held: FileMap,
    pub calls: u64,
    script: Script,
    faults: u64,
}

impl ScriptedFiles {
    pub fn new(alloc: Global, script: Script) -> ScriptedFiles {
        ScriptedFiles {
            held: BTreeMap::new(alloc),
            calls: 0,
            script,
            faults: 0,
        }
    }

    /// What this call is to answer.
    fn answer(&self) -> Option<Answer> {
        match self.script.file {
            Some((call, answer)) if call == self.calls => Some(answer),
            _ => None,
        }
    }
}

/// Makes the name hold the bytes.
pub fn hold(alloc: Global, held: &mut FileMap, name: &str, bytes: &[u8]) -> Result<(), AllocError> {
    let name = String::from_str(alloc, name)?;
    held.insert(name, Sequence::from_slice(alloc, bytes)?)?;
    Ok(())
}

fn read_front(
    alloc: Global,
    held: &FileMap,
    name: &str,
    most: usize,
) -> Result<Vec<u8>, FilesFault> {
    match held.get(name) {
        Some(bytes) => Ok(Vec::from_slice(alloc, front(bytes.as_slice(), most))?),
        None => Err(FilesFault::Missing),
    }
}

/// What a call that has an answer of its own comes to.
fn refused(answer: Answer) -> FilesFault {
    match answer {
        Answer::Missing => FilesFault::Missing,
        Answer::Failed | Answer::FailedAfter(_) => FilesFault::Failed,
        Answer::Memory => FilesFault::Memory,
    }
}

/// The bytes that a call takes that has an answer of its own.
fn taken(answer: Option<Answer>, bytes: &[u8]) -> Option<&[u8]> {
    match answer {
        None => Some(bytes),
        Some(Answer::FailedAfter(most)) => Some(front(bytes, most)),
        Some(_) => None,
    }
}

/// How a write or a put ends that has such an answer.
fn ended(answer: Option<Answer>) -> Result<(), FilesFault>
    ensures there { result ≢ Err FilesFault.Missing }
{
    match answer {
        None => Ok(()),
        Some(Answer::Memory) => Err(FilesFault::Memory),
        Some(_) => Err(FilesFault::Failed),
    }
}

impl Files for ScriptedFiles {
    ghost held = { λ _. None };

    ghost faults = { λ store. store.faults };

    ghost calls = { λ store. store.calls };

    fn read(&mut self, alloc: Global, name: &str, most: u64) -> Result<Vec<u8>, FilesFault> {
        self.calls = self.calls.saturating_add(1);
        let done = match self.answer() {
            Some(answer) => Err(refused(answer)),
            None => read_front(alloc, &self.held, name, most as usize),
        };
        self.faults = counted(&done, self.faults);
        done
    }

    fn write(&mut self, alloc: Global, name: &str, bytes: &[u8]) -> Result<(), FilesFault> {
        self.calls = self.calls.saturating_add(1);
        let answer = self.answer();
        if let Some(bytes) = taken(answer, bytes) {
            hold(alloc, &mut self.held, name, bytes)?;
        }
        let done = ended(answer);
        self.faults = counted(&done, self.faults);
        done
    }
}

/// An output.
#[derive(Drop)]
pub struct ScriptedSink {
    pub written: Vec<u8>,
    calls: u64,
    script: Script,
    faults: u64,
}

impl ScriptedSink {
    pub fn new(alloc: Global, script: Script) -> ScriptedSink {
        ScriptedSink {
            written: Vec::new(alloc),
            calls: 0,
            script,
            faults: 0,
        }
    }

    /// What this put is to answer.
    fn answer(&self) -> Option<Answer> {
        match self.calls {
            1 => self.script.puts[0],
            2 => self.script.puts[1],
            _ => None,
        }
    }
}

impl Sink for ScriptedSink {
    ghost written = { λ _. None };

    ghost faults = { λ output. output.faults };

    ghost calls = { λ output. output.calls };

    fn put(&mut self, _alloc: Global, bytes: &[u8]) -> Result<(), FilesFault> {
        self.calls = self.calls.saturating_add(1);
        let answer = self.answer();
        if let Some(bytes) = taken(answer, bytes) {
            self.written.extend_from_slice(bytes)?;
        }
        let done = ended(answer);
        self.faults = counted(&done, self.faults);
        done
    }
}
