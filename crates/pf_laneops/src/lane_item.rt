use crate::arg_list::ArgList;
use crate::lane_name::LaneName;
use pf_ints::LaneType;

/// An item of lane code: a number in each lane.
#[derive(Drop, PartialEq, Eq)]
#[derive_where(Hash)]
pub enum LaneItem {
    /// The tap of this number, a number at each pixel.
    Tap {
        tap: u8,
        #[derive_where(skip(Hash))]
        ty: LaneType,
    },
    /// The number n at each pixel.
    Splat {
        n: i64,
        #[derive_where(skip(Hash))]
        ty: LaneType,
    },
    /// What the operation makes of earlier items. `ty` is the type of the result, and `k` the
    /// amount, or 0 where the operation has none.
    Work {
        op: LaneName,
        #[derive_where(skip(Hash))]
        ty: LaneType,
        k: u8,
        args: ArgList,
    },
}
