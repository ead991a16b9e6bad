/// Which types an operator's operands have.
#[derive(Clone, Copy)]
pub enum Operands {
    /// One, of any type.
    One,
    /// One, of a type with a sign.
    OneSigned,
    /// Two of one type.
    Alike,
    /// Two of one type of 8 or 16 bits.
    Narrow,
    /// One of 16 or 32 bits, and one of its sign and half its width.
    WideFirst,
    /// Two of one type that are compared, and two of one type to choose from, all of one width.
    Choice,
}

/// Which type an operator's result has.
#[derive(Clone, Copy)]
pub enum Gives {
    /// The one that is written with it, any.
    Stated,
    /// The first operand's.
    First,
    /// The one without a sign of the first operand's width.
    Unsigned,
    /// The one of the first operand's sign and twice its width.
    Twice,
    /// The one with a sign of twice the first operand's width.
    SignedTwice,
    /// The third operand's.
    Third,
}

/// Which amounts an operator takes, for a first operand of w bits.
#[derive(Clone, Copy)]
pub enum Amounts {
    /// It has none.
    Without,
    /// 0 to w - 1.
    Shift,
    /// 1 to w - 1.
    RoundingShift,
    /// 0 to 2w - 1.
    Product,
    /// 1 to 2w - 1.
    RoundingProduct,
}

/// How an operator is written around its operands.
#[derive(Clone, Copy)]
pub enum Spelling {
    /// As a call of the stated type: `u8(x)`.
    TypeCall,
    /// `(x + y)`.
    Infix,
    /// `(x >> k)`.
    ShiftBy,
    /// `min(x, y)`.
    Call,
    /// `saturating_cast(u8, x)`.
    CallWithType,
    /// `rounding_shr(x, k)`.
    CallWithAmount,
    /// `select(a > b, x, y)`.
    Select,
}
