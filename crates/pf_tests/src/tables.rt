//! Tables of tests as texts, a row a line.

use std::alloc::{AllocError, Global};
use std::process::Abort;
use std::test::Fail;

/// What stands before and behind the first bar of a row.
pub fn cells(row: &str) -> Result<(&str, &str), Fail> {
    Ok(row.split_once(" | ").ok_or("no bar")?)
}

/// The bytes of a text in which `;` stands for a line feed.
pub fn lines_of(alloc: Global, text: &str) -> Result<Vec<u8>, AllocError> {
    let mut bytes = Vec::new(alloc);
    for byte in text.as_bytes() {
        bytes.push(if *byte == b';' { b'\n' } else { *byte })?;
    }
    Ok(bytes)
}

/// A front, and then these lines.
pub fn joined(alloc: Global, front: &[u8], lines: &[u8]) -> Result<Vec<u8>, AllocError> {
    let mut text = Vec::from_slice(alloc, front)?;
    text.extend_from_slice(lines)?;
    Ok(text)
}

/// Tries that this is told.
pub fn same<R: Abort>(rt: &R, told: &str, wanted: &str) {
    assert_eq!(rt; told, wanted);
}

/// Tries that these bytes are held.
pub fn same_bytes<R: Abort>(rt: &R, held: &[u8], wanted: &[u8]) {
    assert_eq!(rt; held, wanted);
}
