ghost use Rattle.std.specs.Prelude.{◌≡◌};
ghost use Rattle.pf_kernel.specs.declared.fault.KernelFault.TheVariants.{Memory};

use pf_ints::{LaneType, Name};
use pf_terms::LimitKind;
use std::alloc::{AllocError, AllocFailed};

/// Why a text is no kernel. Lines count from 1, columns in bytes from 1. The limit of bytes is
/// judged first, and then line by line, on one line in the order of these causes, but that types and
/// amounts (`LimitKind::Amount`) are judged together, node by node in post-order.
#[derive(Debug, Drop)]
pub enum KernelFault {
    /// The line, up to and with the token at this column, begins no line that may stand there; or
    /// it ends there too early. A text that ends too early is told behind its last line.
    Syntax {
        line: u32,
        column: u64,
    },
    /// A name that is unknown or that an image or a definition has already.
    Name {
        line: u32,
        name: Name,
    },
    /// A term of type `got` where `want` is asked for.
    Types {
        line: u32,
        want: LaneType,
        got: LaneType,
    },
    /// A limit that is passed, and the counted number: of images, taps, definitions and nodes that
    /// of all lines up to and with this one, of a depth that of the line's term. Of an amount or an
    /// offset it is the number itself.
    Limit {
        what: LimitKind,
        count: i64,
    },
    /// Want of memory.
    Memory,
}

impl From<AllocError> for KernelFault {
    ghost from_gives = { λ _ e. e ≡ Memory };

    fn from(_error: AllocError) -> KernelFault {
        KernelFault::Memory
    }
}

impl<T: Drop> From<AllocFailed<T>> for KernelFault {
    ghost from_gives = { λ _ e. e ≡ Memory };

    fn from(_error: AllocFailed<T>) -> KernelFault {
        KernelFault::Memory
    }
}
