//! The files and the output of the machine.

use pf_images::{Files, FilesFault, RealFiles, RealSink, Sink, read_up_to, write_whole};
use std::test::Fail;

#[test]
fn files_hold_what_was_written(rt: HostRuntime) -> Result<(), Fail> {
    let alloc = rt.alloc();
    let mut files = RealFiles::new(&rt);
    let mut long = Vec::new(alloc);
    for n in 0..10_000u32 {
        long.push((n % 251) as u8)?;
    }
    files.write(alloc, "a", long.as_slice())?;
    assert!(rt; files.read(alloc, "a", 20_000)? == long);
    let front = long.as_slice().get(..9_999).ok_or("a long text")?;
    assert!(rt; files.read(alloc, "a", 9_999)?.as_slice() == front);
    assert_eq!(rt; files.read(alloc, "a", 0)?.len(), 0);
    // A shorter text leaves nothing of the one before.
    files.write(alloc, "a", b"twelve bytes")?;
    assert_eq!(rt;
        files.read(alloc, "a", 99)?.as_slice(),
        b"twelve bytes".as_slice()
    );
    assert!(rt; files.read(alloc, "b", 99).err() == Some(FilesFault::Missing));
    assert!(rt; files.write(alloc, "b/c", b"").err() == Some(FilesFault::Failed));
    Ok(())
}

#[test]
fn outputs_take_lines(rt: HostRuntime) -> Result<(), Fail> {
    let mut out = RealSink::new(&rt);
    out.put(rt.alloc(), b"a line\n")?;
    Ok(())
}

#[test]
fn readers_and_writers_in_memory(rt: HostRuntime) -> Result<(), Fail> {
    let alloc = rt.alloc();
    for (most, front) in [(0, ""), (2, "ab"), (9, "abcde")] {
        let read = read_up_to(alloc, b"abcde".as_slice(), most)?;
        assert!(rt; read.as_slice() == front.as_bytes());
    }
    let mut held = Vec::from_slice(alloc, b"x")?;
    write_whole(&mut held, b"yz")?;
    assert!(rt; held.as_slice() == b"xyz".as_slice());
    Ok(())
}
