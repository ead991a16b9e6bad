ghost use Rattle.std.specs.Prelude.{◌≡◌};
ghost use Rattle.pf_rulefile.specs.declared.fault.LineStop.TheVariants.{Memory};
ghost use Rattle.pf_rulefile.specs.Meaning.FaultWords.{fault_word};
ghost use Rattle.pf_rulefile.specs.Steps.LineReads.{line_stop};

use crate::stop::Stop;
use std::alloc::{AllocError, AllocFailed};

/// What a line of a rule file breaks. On one line the first of these is told.
#[derive(Clone, Copy, Debug, PartialEq, Eq)]
pub enum RuleTextKind {
    /// Line 1 isn't a header.
    Header,
    /// The line isn't what may stand there.
    Syntax,
    /// A name, an axiom or a lane operation that is unknown, or a name that is taken.
    Name,
    /// A declared variable doesn't stand in the left side.
    Unbound,
    /// A limit is passed.
    Limit,
}

impl RuleTextKind {
    /// The kind in one word of small letters.
    pub fn word(self) -> &'static [u8]
        ensures { result.now ≡ fault_word self }
    {
        match self {
            RuleTextKind::Header => b"header",
            RuleTextKind::Syntax => b"syntax",
            RuleTextKind::Name => b"name",
            RuleTextKind::Unbound => b"unbound",
            RuleTextKind::Limit => b"limit",
        }
    }
}

/// Why a text is no rule file.
#[derive(Debug, Drop)]
pub enum RuleTextFault {
    /// The first line with a fault, counted from 1, and what it breaks. A text that ends inside a
    /// rule is told behind its last line.
    At { line: u32, kind: RuleTextKind },
    Memory,
}

/// Why a line isn't read.
#[derive(Drop)]
pub enum LineStop {
    Told(RuleTextKind),
    Memory,
}

impl From<Stop> for LineStop {
    ghost from_gives = { λ s e. e ≡ line_stop s };

    fn from(stop: Stop) -> LineStop {
        match stop {
            Stop::Syntax => LineStop::Told(RuleTextKind::Syntax),
            Stop::Memory => LineStop::Memory,
        }
    }
}

impl From<AllocError> for LineStop {
    ghost from_gives = { λ _ e. e ≡ Memory };

    fn from(_error: AllocError) -> LineStop {
        LineStop::Memory
    }
}

impl<T: Drop> From<AllocFailed<T>> for LineStop {
    ghost from_gives = { λ _ e. e ≡ Memory };

    fn from(_error: AllocFailed<T>) -> LineStop {
        LineStop::Memory
    }
}
