//! How far taps reach along the rows and the columns of images.

ghost use Rattle.std.specs.Prelude.{◌≡◌, ◌≤ℤ◌, pos};
ghost use Rattle.pf_values.specs.Meaning.Reach.{offset_along, least_offset, greatest_offset, extent};

use crate::names::Tap;

/// The two directions of an image.
#[derive(Clone, Copy)]
pub enum Axis {
    Columns,
    Rows,
}

/// A tap's offset in this direction.
fn offset_along(axis: Axis, tap: &Tap) -> i16
    ensures { result ≡ offset_along axis tap.now }
{
    match axis {
        Axis::Columns => tap.dx,
        Axis::Rows => tap.dy,
    }
}

/// The least of 0 and all offsets in this direction.
// A loop: clang 22 drops the 0 of a recursive minimum.
#[tactic(auto, using(crate::proofs::Reaching::least_start, crate::proofs::Reaching::least_step))]
pub fn least_offset(axis: Axis, taps: &[Tap]) -> i16
    ensures { result ≡ least_offset axis taps.now }
{
    let mut least = 0;
    for tap in taps {
        least = offset_along(axis, tap).min(least);
    }
    least
}

/// The greatest of 0 and all offsets in this direction.
#[tactic(auto, using(crate::proofs::Reaching::most_start, crate::proofs::Reaching::most_step))]
fn greatest_offset(axis: Axis, taps: &[Tap]) -> i16
    ensures { result ≡ greatest_offset axis taps.now }
{
    let mut most = 0;
    for tap in taps {
        most = offset_along(axis, tap).max(most);
    }
    most
}

/// How many output pixels fit into so many pixels of an image in this direction; none where it
/// isn't positive.
pub fn extent(axis: Axis, taps: &[Tap], size: u32) -> i64
    ensures value { result ≡ extent axis taps.now size }
    ensures most { result ≤ℤ pos size }
{
    let reach = i64::from(greatest_offset(axis, taps)) - i64::from(least_offset(axis, taps));
    i64::from(size) - reach
}
