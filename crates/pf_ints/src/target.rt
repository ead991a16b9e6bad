ghost use Rattle.std.specs.Prelude.{◌≡◌};
ghost use Rattle.pf_ints.specs.Meaning.Targets.{target_word};

/// A set of vector instructions that code is selected for.
#[derive(Clone, Copy, PartialEq, Eq)]
pub enum Target {
    /// A64 Advanced SIMD, vectors of 16 bytes.
    Neon,
    /// AVX2, vectors of 32 bytes.
    Avx2,
    /// Hexagon HVX, vectors of 128 bytes.
    Hvx,
}

impl Target {
    /// The target's word in texts and on command lines.
    pub fn word(self) -> &'static [u8]
        ensures { result.now ≡ target_word self }
    {
        match self {
            Target::Neon => b"neon",
            Target::Avx2 => b"avx2",
            Target::Hvx => b"hvx",
        }
    }
}
