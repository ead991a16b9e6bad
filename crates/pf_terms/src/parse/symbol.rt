/// A part of an expression that is to come.
#[derive(Clone, Copy)]
pub enum ParserSymbol {
    /// An expression without operators outside of brackets.
    Atom,
    /// Further factors, or none.
    Factors,
    /// Further summands, or none.
    Summands,
    /// Further shifts, or none.
    Shifts,
    /// Offsets in square brackets, or none.
    Offsets,
    /// The first offset, a number that may have a minus.
    Column,
    /// The second offset.
    Row,
    /// The first offset's number, behind its minus.
    NegatedColumn,
    /// The second offset's number, behind its minus.
    NegatedRow,
    /// A number.
    Digits,
    /// A number with its type, behind a minus.
    Negated,
    /// A type.
    TypeName,
    /// One of `>`, `<` and `==`.
    Comparison,
    Open,
    Close,
    CloseSquare,
    Comma,
    /// No token: what was begun last is whole here.
    End,
}

/// What stands in the round brackets behind an operator's word.
#[derive(Clone, Copy)]
pub enum CallShape {
    One,
    Two,
    OneAndAmount,
    TwoAndAmount,
    TypeAndOne,
    /// The operator is not written so.
    NoCall,
}
