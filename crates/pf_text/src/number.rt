ghost use Rattle.std.specs.Prelude.{◌≡◌, ◌++◌, OnOk, decimal};
ghost use Rattle.std.specs.Fmt.{signed_decimal};

use itoa::Buffer;
use std::alloc::AllocError;

/// Appends the number in decimal digits, without a leading zero. The only error is want of memory,
/// after which the text may have got a part of the digits.
pub fn push_number(text: &mut Vec<u8>, n: u64) -> Result<(), AllocError>
    ensures { OnOk result (text.new.items ≡ text.old.items ++ decimal n) }
{
    let mut buffer = Buffer::new();
    text.extend_from_slice(buffer.format(n).as_bytes())
}

/// Appends the number in decimal digits, without a leading zero, behind `-` where it is negative.
/// The only error is want of memory, after which the text may have got a part of them.
pub fn push_whole(text: &mut Vec<u8>, n: i128) -> Result<(), AllocError>
    ensures { OnOk result (text.new.items ≡ text.old.items ++ signed_decimal n) }
{
    let mut buffer = Buffer::new();
    text.extend_from_slice(buffer.format(n).as_bytes())
}
