use pf_ints::{ByteList, Sequence};

/// A part of memory.
#[derive(Drop)]
pub struct Region {
    /// The address of its first byte.
    pub start: u64,
    pub bytes: ByteList,
    /// Whether loads, and stores, are allowed in it.
    pub reads: bool,
    pub writes: bool,
}

/// The memory of a run.
pub type RegionList = Sequence<Region>;
