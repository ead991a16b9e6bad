/// A letter of a template that stands for a form.
#[derive(Clone, Copy)]
pub enum Letter {
    X,
    Y,
    Z,
    V,
}

/// A letter of a template that stands for a lane type.
#[derive(Clone, Copy)]
pub enum Which {
    T,
    U,
}

/// An exponent in a template: a number, or what is said by the letters a and b.
#[derive(Clone, Copy)]
pub enum Exponent {
    Fixed(u8),
    A,
    B,
    /// a + b.
    Sum,
    /// b - a, or 0 where a is the greater.
    Rest,
}

/// A number in a template: one that is written, or what is said by the letters a and t.
#[derive(Clone, Copy)]
pub enum Numeral {
    Fixed(i8),
    /// 2^a.
    TwoToA,
    /// 2^a - 1.
    BelowTwoToA,
    /// 2^(a-1).
    HalfOfTwoToA,
    /// The least member of t.
    LeastT,
    /// The greatest member of t.
    GreatestT,
}

/// A form with letters in it, as a tree of borrowed parts.
#[derive(Clone, Copy)]
pub enum Template<'a> {
    Letter(Letter),
    Num(Numeral),
    Pow(Exponent),
    Add(&'a Template<'a>, &'a Template<'a>),
    Sub(&'a Template<'a>, &'a Template<'a>),
    Mul(&'a Template<'a>, &'a Template<'a>),
    FloorDiv(&'a Template<'a>, Exponent),
    Min(&'a Template<'a>, &'a Template<'a>),
    Max(&'a Template<'a>, &'a Template<'a>),
    Abs(&'a Template<'a>),
    Sel(&'a Template<'a>, &'a Template<'a>, &'a Template<'a>, &'a Template<'a>),
    Wrap(Which, &'a Template<'a>),
    Sat(Which, &'a Template<'a>),
}
