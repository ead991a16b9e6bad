//! All the bytes of a reader or into a writer, whatever pieces they come in.

ghost use Rattle.std.specs.Prelude.{◌≡◌, ◌≢◌, ◌≤◌, [], length, take, Err, IfOk, IfSome, OnErr};
ghost use Rattle.std.specs.Io.KnownBytes.{Appends};
ghost use Rattle.pf_images.specs.Meaning.Outside.{Streams};

use crate::files::FilesFault;
use std::alloc::Global;
use std::io::{Error, ErrorKind, Read, Write};

/// Reads until the reader ends or `most` bytes are read, however many reads that takes. A read that
/// was interrupted is made again; any other error is `Failed`, or `Memory` where memory was wanting.
pub fn read_up_to<R: Read + Drop>(alloc: Global, from: R, most: u64) -> Result<Vec<u8>, FilesFault>
    ensures front { IfOk result (λ bytes. IfSome (R.remaining from) (λ left. bytes.items ≡ take most left)) }
    ensures there { result ≢ Err FilesFault.Missing }
{
    let mut bytes = Vec::new(alloc);
    match from.take(most).read_to_end(&mut bytes) {
        Ok(_) => Ok(bytes),
        Err(error) if error.kind() == ErrorKind::OutOfMemory => Err(FilesFault::Memory),
        Err(_) => Err(FilesFault::Failed),
    }
}

/// Whether a call of the machine was cut short before it did anything.
fn is_interrupted(error: &Error) -> bool {
    error.kind() == ErrorKind::Interrupted
}

/// Writes some of the bytes and answers how many: none where the call was interrupted. A write that
/// takes no byte is a failure.
fn write_piece<W: Write>(to: &mut W, bytes: &[u8]) -> Result<usize, FilesFault>
    ensures bound { IfOk result (λ count. count ≤ length bytes.now) }
    ensures taken { IfOk result (λ count. Appends (W.contents to.old) (W.contents to.new) (take count bytes.now)) }
    ensures kept { OnErr result (Appends (W.contents to.old) (W.contents to.new) []) }
    ensures there { result ≢ Err FilesFault.Missing }
{
    match to.write(bytes) {
        Ok(0) => Err(FilesFault::Failed),
        Ok(count) => Ok(count),
        Err(error) if is_interrupted(&error) => Ok(0),
        Err(_) => Err(FilesFault::Failed),
    }
}

/// Writes all the bytes, however many writes that takes. A write that was interrupted is made again;
/// any other error is `Failed`, and so is a write that takes no byte. Then a prefix was written.
pub fn write_whole<W: Write>(to: &mut W, bytes: &[u8]) -> Result<(), FilesFault>
    ensures written { Streams bytes.now (W.contents to.old) (W.contents to.new) result }
    ensures there { result ≢ Err FilesFault.Missing }
{
    let mut rest = bytes;
    'tries: for _ in 0..u64::MAX {
        if rest.is_empty() {
            return Ok(());
        }
        let count = write_piece(to, rest)?;
        rest = &rest[count..];
    }
    Err(FilesFault::Failed)
}
