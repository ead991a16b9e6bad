ghost use Rattle.std.specs.Prelude.{◌≡◌};
ghost use Rattle.pf_tables.specs.Meaning.Registers.{renamed_sources, renamed_ends};

use pf_lanes::renamed_vector;

/// The names of two vectors that something is made of.
#[derive(Clone, Copy)]
pub struct Sources {
    pub left: u32,
    pub right: u32,
}

/// The names of the two vectors of a pair that is made.
#[derive(Clone, Copy)]
pub struct Ends {
    pub low: u32,
    pub high: u32,
}

impl Sources {
    /// With the name `new` in place of `old`.
    pub fn renamed(self, old: u32, new: u32) -> Sources
        ensures { result ≡ renamed_sources old new self }
    {
        Sources {
            left: renamed_vector(self.left, old, new),
            right: renamed_vector(self.right, old, new),
        }
    }
}

impl Ends {
    /// With the name `new` in place of `old`.
    pub fn renamed(self, old: u32, new: u32) -> Ends
        ensures { result ≡ renamed_ends old new self }
    {
        Ends {
            low: renamed_vector(self.low, old, new),
            high: renamed_vector(self.high, old, new),
        }
    }
}
