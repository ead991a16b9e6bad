ghost use Rattle.std.specs.Prelude.{◌≡◌, ◌<◌, [], ◌∷◌, ◌++◌, length, slice_get, slice_set, slice_index_or};

use pf_ints::{ByteList, Sequence};
use std::marker::Model;

/// A register of a vector instruction.
#[derive(Clone, Copy, PartialEq, Eq)]
pub enum Reg {
    /// The vector of this name.
    V(u32),
    /// The register that a constant is put in before it is spread over a vector.
    K,
    /// The predicate, a truth value for each byte of a vector.
    Q,
}

/// Up to four registers, in order.
#[derive(Drop)]
pub struct RegList {
    registers: [Reg; 4],
    count: usize,
}

impl Model for RegList {
    ghost use Rattle.std.specs.Prelude.{List, take, ◌≤◌, length, ◌≡◌};
    ghost use Rattle.pf_machine.specs.declared.registers.Reg.{Reg};

    ghost Value = { List Reg };

    ghost view = { λ r. take r.count r.registers };

    ghost invariant = { λ r. (r.count ≤ 4) × (length r.registers ≡ 4) };
}

impl RegList {
    /// No register.
    pub fn new() -> RegList
        ensures { result ≡ [] }
    {
        RegList {
            registers: [Reg::K; 4],
            count: 0,
        }
    }

    /// The list with one register more at its end.
    pub fn with(mut self, register: Reg) -> RegList
        requires { length self < 4 }
        ensures { result ≡ self ++ register ∷ [] }
    {
        self.registers[self.count] = register;
        self.count += 1;
        self
    }

    /// How many registers the list has, at most four.
    pub fn len(&self) -> usize
        ensures { result ≡ length self.now }
    {
        self.count
    }

    /// Register n, counted from 0, or None where there is no such place.
    pub fn get(&self, n: usize) -> Option<Reg>
        ensures { result ≡ slice_get self.now n }
    {
        if n < self.count {
            Some(self.registers[n])
        } else {
            None
        }
    }
}

/// Vectors, each as its bytes, the lowest first.
pub type VectorList = Sequence<ByteList>;

/// What the registers of vector instructions hold.
#[derive(Drop)]
pub struct RegFile {
    pub vectors: VectorList,
    /// The constant register.
    pub k: u32,
    /// The predicate.
    pub q: Sequence<bool>,
}
