//! Lane types and their numbers, names, targets, lists and images.
#![tactic(auto)]

mod image;
mod interval;
mod lane;
mod name;
mod sequence;
mod target;

pub use image::{Image, ImageSet, MOST_PIXELS, MOST_SIDE};
pub use interval::{FURTHEST, Interval, IntervalList};
pub use lane::{Bits, LaneType, sat, wrap};
pub use name::Name;
pub use sequence::{
    ByteList, Duplicate, NameList, NameNumbers, NumberList, Path, PixelList, Sequence,
};
/// Want of memory.
pub use std::alloc::AllocError as Memory;
pub use target::Target;
