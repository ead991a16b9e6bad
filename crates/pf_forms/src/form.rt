use pf_ints::LaneType;

/// A formula over whole numbers.
#[derive(Debug, Drop)]
pub enum Form {
    /// A variable, by its number.
    Var(u8),
    /// A number, at most 2^120 from 0.
    Num(i128),
    /// 2 to the power of the exponent, which is at most 119.
    Pow(u8),
    Add(Box<Form>, Box<Form>),
    Sub(Box<Form>, Box<Form>),
    Mul(Box<Form>, Box<Form>),
    /// The first part divided by 2 to the power of the exponent, rounded down.
    FloorDiv(Box<Form>, u8),
    Min(Box<Form>, Box<Form>),
    Max(Box<Form>, Box<Form>),
    /// The distance from 0.
    Abs(Box<Form>),
    /// The third part where the first is greater than the second, else the fourth.
    Sel(Box<Form>, Box<Form>, Box<Form>, Box<Form>),
    /// The one member of the type that is congruent modulo 2 to the power of its width.
    Wrap(LaneType, Box<Form>),
    /// The nearest member of the type.
    Sat(LaneType, Box<Form>),
}
