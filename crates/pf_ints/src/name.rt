ghost use Rattle.std.specs.Prelude.{◌≡◌, ◌≤◌, length, IfSome, IsSome, ◌↔◌};

use std::marker::Model;

/// A name of 1 to 32 bytes.
#[derive(Clone, Copy, Debug, PartialEq, Eq)]
pub struct Name {
    bytes: [u8; 32],
    count: u8,
}

impl Model for Name {
    ghost use Rattle.std.specs.Prelude.{List, ℕ, take, length};

    ghost Value = { List ℕ };

    ghost use Rattle.pf_ints.specs.Steps.Names.{padded, IsPadded, padded_back};

    ghost view = { λ n. take n.count n.bytes };

    ghost invariant = { λ n. IsPadded n.count n.bytes };

    ghost inverse = { λ bytes. record { bytes = padded bytes; count = length bytes } };

    ghost inverse_ok = { λ a h. padded_back a h };
}

impl Name {
    /// The name of these bytes, or None where they aren't 1 to 32.
    pub fn new(bytes: &[u8]) -> Option<Name>
        ensures value { IfSome result (λ n. n ≡ bytes.now) }
        ensures some { IsSome result ↔ ((1 ≤ length bytes.now) × (length bytes.now ≤ 32)) }
    {
        if bytes.len() < 1 || 32 < bytes.len() {
            return None;
        }
        let mut all = [0; 32];
        all[..bytes.len()].copy_from_slice(bytes);
        Some(Name {
            bytes: all,
            count: bytes.len() as u8,
        })
    }

    /// The bytes of the name.
    pub fn as_slice(&self) -> &[u8]
        ensures value { result.now ≡ self.now }
        ensures some { 1 ≤ length self.now }
        ensures few { length self.now ≤ 32 }
    {
        &self.bytes[..self.count as usize]
    }
}
