//! The file of a kernel.

ghost use Rattle.std.specs.Prelude.{◌≡◌, ◌<◌};
ghost use Rattle.pf_kernel.specs.Meaning.Texts.{byte_limit};
ghost use Rattle.pf_outside.specs.Meaning.StoreCalls.{seen};
ghost use Rattle.pf_top.specs.Meaning.Files.{kernel_file};
ghost use Rattle.pf_top.specs.Steps.RunSteps.{JudgedAs, JudgesAs};

use crate::fault::{FileFault, Stop};
use pf_images::Files;
use pf_kernel::{Kernel, KernelFault, read_kernel};
use pf_outside::read_front;
use std::alloc::Global;

/// The most bytes of a kernel's text.
#[tactic(auto, unfolding(pf_kernel::specs::Meaning::Texts::byte_limit))]
fn byte_limit() -> u64
    ensures value { result ≡ byte_limit }
    ensures low { result < 4294967296 }
{
    65_536
}

/// The kernel that the text is of, the file of this number.
fn kernel_of(alloc: Global, number: usize, text: &[u8]) -> Result<Kernel, Stop>
    ensures { JudgesAs kernel_file number result text.now }
{
    match read_kernel(alloc, text) {
        Ok(kernel) => Ok(kernel),
        Err(fault) => match fault {
            KernelFault::Memory => Err(Stop::Memory),
            _ => Err(Stop::Refused(number, FileFault::Kernel(fault))),
        },
    }
}

/// The kernel of a text's file.
pub fn read_kernel_file<F: Files>(
    alloc: Global,
    files: &mut F,
    number: usize,
    name: &str,
) -> Result<Kernel, Stop>
    ensures { JudgedAs kernel_file number name.now
        (seen F.held F.faults F.calls files.old) result (seen F.held F.faults F.calls files.new) }
{
    let text = read_front(alloc, files, number, name, byte_limit() + 1)?;
    kernel_of(alloc, number, text.as_slice())
}
