ghost use Rattle.std.specs.Prelude.{◌≡◌};
ghost use Rattle.pf_axioms.specs.Meaning.Needs.{asks, reads_y};

/// What a law asks for besides its left form.
#[derive(Clone, Copy)]
pub enum Needs {
    Free,
    /// u is at least as wide as t.
    Wider,
    /// All of t lies in u.
    Covered,
    /// a is at most b.
    Ordered,
    /// x lies in t.
    InT,
    /// x is at least the least of t.
    FromLeast,
    /// x is at most the greatest of t.
    ToGreatest,
    /// x lies in 0 to 2^a - 1.
    BelowPower,
    /// x lies in -2^a to -1.
    AbovePower,
    /// x is at least 0.
    Positive,
    /// x is at most 0.
    Negative,
    /// x is at most the least of y.
    UnderY,
    /// x is at least the greatest of y.
    OverY,
}

impl Needs {
    /// Whether an interval is asked for.
    pub fn asks(self) -> bool
        ensures { result ≡ asks self }
    {
        match self {
            Needs::Free | Needs::Wider | Needs::Covered | Needs::Ordered => false,
            _ => true,
        }
    }

    /// Whether the interval of y is asked for.
    pub fn reads_y(self) -> bool
        ensures { result ≡ reads_y self }
    {
        match self {
            Needs::UnderY | Needs::OverY => true,
            _ => false,
        }
    }
}
