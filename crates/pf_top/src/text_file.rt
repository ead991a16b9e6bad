//! The file of a text.

ghost use Rattle.std.specs.Prelude.{◌≡◌, ◌<◌, IfOk};
ghost use Rattle.pf_outside.specs.Meaning.StoreCalls.{seen};
ghost use Rattle.pf_run.specs.Meaning.AnyPrograms.{IsShort};
ghost use Rattle.pf_top.specs.Meaning.Files.{text_limit, text_file};
ghost use Rattle.pf_top.specs.Steps.RunSteps.{JudgedAs, JudgesAs};

use crate::fault::{FileFault, Stop};
use pf_images::Files;
use pf_isa::TextFault;
use pf_outside::read_front;
use pf_run::{AnyProgram, read_any};
use std::alloc::Global;

/// The most bytes of a text.
#[tactic(auto, unfolding(crate::specs::Meaning::Files::text_limit))]
fn text_limit() -> u64
    ensures value { result ≡ text_limit }
    ensures low { result < 4294967296 }
{
    2_147_483_647
}

/// The program that the text is of, the file of this number.
fn program_of(alloc: Global, number: usize, text: &[u8]) -> Result<AnyProgram, Stop>
    ensures found { JudgesAs text_file number result text.now }
    ensures size { IfOk result IsShort }
{
    if text.len() as u64 > text_limit() {
        return Err(Stop::Refused(number, FileFault::LongText));
    }
    match read_any(alloc, text) {
        Ok(program) => Ok(program),
        Err(TextFault::Memory) => Err(Stop::Memory),
        Err(TextFault::At { line, kind }) => {
            let fault = FileFault::Text(TextFault::At { line, kind });
            Err(Stop::Refused(number, fault))
        }
    }
}

/// The program of a text's file.
pub fn read_program<F: Files>(
    alloc: Global,
    files: &mut F,
    number: usize,
    name: &str,
) -> Result<AnyProgram, Stop>
    ensures judged { JudgedAs text_file number name.now
        (seen F.held F.faults F.calls files.old) result (seen F.held F.faults F.calls files.new) }
    ensures size { IfOk result IsShort }
{
    let text = read_front(alloc, files, number, name, text_limit() + 1)?;
    program_of(alloc, number, text.as_slice())
}
