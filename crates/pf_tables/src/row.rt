use pf_lanes::Recipe;

/// How the operands of an instruction stand in its line, and what it takes and changes: of the
/// vector instructions, and of the control instructions but the jumps.
#[derive(Clone, Copy, PartialEq, Eq)]
pub enum Shape {
    /// There is no such line.
    Absent,
    Load,
    Store,
    Copy,
    Constant,
    ConstantHigh,
    FromConstant,
    Unary,
    Binary,
    Accumulate,
    Shift,
    ByConstant,
    JoinedByConstant,
    Upper,
    UpperShift,
    Blend,
    Choose,
    Compare,
    Pair,
    PairUnary,
    Move,
    NegativeConstant,
    LoadPointer,
    StorePointer,
    SetNumber,
    Add,
    Sub,
    AddPages,
    AddRegister,
    LoadByte,
    LoadHalf,
    StoreByte,
    StoreHalf,
    CompareNumbers,
    Return,
}

/// Where the lanes that an instruction makes go.
#[derive(Clone, Copy)]
pub enum Extent {
    /// They are the whole vector.
    Whole,
    /// They are the lower half, and zeros the upper one.
    Lower,
}

/// What an instruction is, besides its line. A control instruction makes no lanes and costs nothing.
#[derive(Clone, Copy)]
pub struct Row {
    pub shape: Shape,
    /// How the lanes of the result are made, where they are made: of the one vector, or of the
    /// lower one of a pair.
    pub recipe: Recipe,
    /// How those of the upper vector of a pair are made.
    pub high: Recipe,
    pub extent: Extent,
    /// Whether the recipe takes the right one of two vectors first. Where elements are moved: whether
    /// they are separated, and not put in turn.
    pub swapped: bool,
    /// The amount of a work that has a fixed one.
    pub amount: u8,
    /// The least and the greatest amount of a shift by a number of the line.
    pub least: u8,
    pub most: u8,
    pub cost: u8,
}

/// How a set of instructions writes registers and numbers.
#[derive(Clone, Copy)]
pub struct Style {
    /// What one vector counts in the offset of a load or a store: its bytes, or 1.
    pub unit: u32,
    /// The number that the constant register has in the line that sets a general register too.
    /// None where it has lines of its own, which set 16 bits each.
    pub constant: Option<u32>,
    /// Whether a store names last what it stores.
    pub stores_last: bool,
    /// Whether a line adds so many times 4096.
    pub adds_pages: bool,
    /// Whether it is written as Hexagon's packets are: the constant register is r7, so role 7 is r8;
    /// pairs are v31:30, whose names are fixed; and a comparison names the greater number first.
    pub packets: bool,
}

/// The places of rows that each table has, or lacks, at the same place.
pub mod place {
    pub const LOAD_POINTER: usize = 0;

    pub const STORE_POINTER: usize = 1;

    pub const SET_NUMBER: usize = 2;

    pub const ADD: usize = 3;

    pub const SUB: usize = 4;

    pub const ADD_REGISTER: usize = 5;

    pub const LOAD_BYTE: usize = 6;

    pub const LOAD_HALF: usize = 7;

    pub const STORE_BYTE: usize = 8;

    pub const STORE_HALF: usize = 9;

    pub const COMPARE: usize = 10;

    pub const RETURN: usize = 11;

    pub const ADD_PAGES: usize = 12;

    pub const NEGATIVE_CONSTANT: usize = 13;

    pub const LOAD: usize = 14;

    pub const STORE: usize = 15;

    pub const COPY: usize = 16;

    pub const CONSTANT: usize = 17;

    pub const CONSTANT_HIGH: usize = 18;
}
