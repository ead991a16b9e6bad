ghost use Rattle.std.specs.Prelude.{◌≡◌};
ghost use Rattle.pf_values.specs.Meaning.Limits.{limit_word};

/// What a limit counts.
#[derive(Clone, Copy, Debug, PartialEq, Eq)]
pub enum LimitKind {
    Bytes,
    Amount,
    Images,
    Taps,
    Definitions,
    Offset,
    Depth,
    Nodes,
}

impl LimitKind {
    /// Its word on a line that tells a limit.
    pub fn word(self) -> &'static [u8]
        ensures { result.now ≡ limit_word self }
    {
        match self {
            LimitKind::Bytes => b"bytes",
            LimitKind::Amount => b"amount",
            LimitKind::Images => b"images",
            LimitKind::Taps => b"taps",
            LimitKind::Definitions => b"definitions",
            LimitKind::Offset => b"offset",
            LimitKind::Depth => b"depth",
            LimitKind::Nodes => b"nodes",
        }
    }
}
