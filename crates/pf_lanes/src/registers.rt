ghost use Rattle.std.specs.Prelude.{◌≡◌};
ghost use Rattle.pf_machine.specs.Meaning.RegisterFiles.{renamed_vector};
ghost use Rattle.pf_lanes.specs.Meaning.Registers.{renamed_double, renamed_triple, renamed_transfer};

/// The name of a vector that is made, and that of the one it is made of.
#[derive(Clone, Copy)]
pub struct Double {
    pub to: u32,
    pub from: u32,
}

/// The name of a vector that is made, and those of the two it is made of.
#[derive(Clone, Copy)]
pub struct Triple {
    pub to: u32,
    pub left: u32,
    pub right: u32,
}

/// The name of a vector that is loaded or stored, and where: at `j` vectors behind the address in
/// the general register of the role `base`.
#[derive(Clone, Copy)]
pub struct Transfer {
    pub vector: u32,
    pub base: u8,
    pub j: u8,
}

/// The name `new` where the vector has the name `old`, else the vector's own.
pub fn renamed_vector(vector: u32, old: u32, new: u32) -> u32
    ensures { result ≡ renamed_vector old new vector }
{
    if vector == old { new } else { vector }
}

impl Double {
    /// With the name `new` in place of `old`.
    pub fn renamed(self, old: u32, new: u32) -> Double
        ensures { result ≡ renamed_double old new self }
    {
        Double {
            to: renamed_vector(self.to, old, new),
            from: renamed_vector(self.from, old, new),
        }
    }
}

impl Triple {
    /// With the name `new` in place of `old`.
    pub fn renamed(self, old: u32, new: u32) -> Triple
        ensures { result ≡ renamed_triple old new self }
    {
        Triple {
            to: renamed_vector(self.to, old, new),
            left: renamed_vector(self.left, old, new),
            right: renamed_vector(self.right, old, new),
        }
    }
}

impl Transfer {
    /// With the name `new` in place of `old`.
    pub fn renamed(self, old: u32, new: u32) -> Transfer
        ensures { result ≡ renamed_transfer old new self }
    {
        Transfer {
            vector: renamed_vector(self.vector, old, new),
            base: self.base,
            j: self.j,
        }
    }
}
