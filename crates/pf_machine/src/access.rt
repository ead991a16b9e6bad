/// A load or a store of one vector, at the address in a general register plus an offset.
#[derive(Clone, Copy)]
pub struct Access {
    /// A load, or else a store.
    pub load: bool,
    pub vector: u32,
    /// The general register, by the number of its role.
    pub base: u8,
    /// Bytes behind the register's address.
    pub offset: u32,
}
