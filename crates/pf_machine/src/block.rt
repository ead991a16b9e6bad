use pf_ints::Sequence;

/// A step of a block, over vectors by any names.
#[derive(Drop)]
pub enum Item<O> {
    /// An operation that is no load or store.
    Vector(O),
    /// Loads part number `part` of a tap's pixels.
    TapLoad { to: u32, tap: u8, part: u8 },
    /// Stores part number `part` of the output's pixels.
    OutStore { from: u32, part: u8 },
    /// Loads what was kept in a slot of the scratch.
    SlotLoad { to: u32, slot: u32 },
    /// Keeps a vector in a slot of the scratch.
    SlotStore { from: u32, slot: u32 },
}

/// The steps of a block, in order.
pub type ItemList<O> = Sequence<Item<O>>;

/// Straight-line code that computes as many pixels as a vector has bytes.
pub type Block<O> = ItemList<O>;
