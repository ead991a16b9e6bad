ghost use Rattle.std.specs.Prelude.{◌≡◌, ℕ, ℤ, ◌+◌, ◌*◌, ◌≤◌, ◌<◌, ◌++◌, take, drop, length, pos, neg_ℤ, ◌≤ℤ◌, ◌<ℤ◌};
ghost use Rattle.pf_ints.specs.Meaning.Lanes.{modulus};
ghost use Rattle.pf_ints.specs.Meaning.Whole.{floor_mod};
ghost use Rattle.pf_machine.specs.Meaning.Bytes.{number, bytes};
ghost use Rattle.pf_values.specs.Meaning.Small.{IsSmall};
ghost use Rattle.pf_lanes.specs.Meaning.Lanes.{bytes_of, lane, residue, made};

use pf_ints::{Bits, LaneType, wrap};

/// Lanes that are made one by one.
pub trait LaneWise {
    /// The number of the lane at a place.
    ghost at: { Self → ℕ → ℤ };

    /// How many lanes there are.
    ghost many: { Self → ℕ };

    /// The number of lane `i`, counted from 0.
    fn lane_at(&self, i: usize) -> i128
        requires { i < many self.now }
        ensures { result ≡ at self.now i };
}

/// The bytes of a lane: 1, 2 or 4.
pub fn bytes_of(ty: LaneType) -> usize
    ensures { result ≡ bytes_of ty }
{
    match ty.bits {
        Bits::Eight => 1,
        Bits::Sixteen => 2,
        Bits::ThirtyTwo => 4,
    }
}

fn bits_at(v: &[u8], ty: LaneType, i: usize) -> u32
    requires { bytes_of ty * i + bytes_of ty ≤ length v.now }
    ensures { result ≡ number (take (bytes_of ty) (drop (bytes_of ty * i) v.now)) }
{
    match ty.bits {
        Bits::Eight => u32::from(v[i]),
        Bits::Sixteen => u32::from(v[2 * i]) + 256 * u32::from(v[2 * i + 1]),
        Bits::ThirtyTwo => {
            let high = u32::from(v[4 * i + 2]) + 256 * u32::from(v[4 * i + 3]);
            u32::from(v[4 * i]) + 256 * (u32::from(v[4 * i + 1]) + 256 * high)
        }
    }
}

/// The number of lane `i` of a vector, counted from 0, by the lanes' type.
#[tactic(auto, unfolding(crate::specs::Meaning::Lanes::lane))]
pub fn lane(v: &[u8], ty: LaneType, i: usize) -> i128
    requires { bytes_of ty * i + bytes_of ty ≤ length v.now }
    ensures value { result ≡ lane ty v.now i }
    ensures small { IsSmall result }
{
    wrap(ty, i128::from(bits_at(v, ty, i)))
}

// Most numbers are less than a modulus away from their bits, and a quotient takes long.
fn residue(ty: LaneType, n: i128) -> u32
    ensures { result ≡ residue ty n }
{
    let size = ty.size();
    if 0 <= n && n < size {
        n as u32
    } else if n < 0 && 0 <= n + size {
        (n + size) as u32
    } else {
        n.rem_euclid(size) as u32
    }
}

fn put(out: &mut [u8], ty: LaneType, i: usize, n: u32)
    requires { bytes_of ty * i + bytes_of ty ≤ length out.old }
    ensures { out.new
        ≡ take (bytes_of ty * i) out.old ++ (bytes (bytes_of ty) n ++ drop (bytes_of ty * i + bytes_of ty) out.old) }
{
    match ty.bits {
        Bits::Eight => out[i] = (n % 256) as u8,
        Bits::Sixteen => {
            out[2 * i] = (n % 256) as u8;
            out[2 * i + 1] = (n / 256 % 256) as u8;
        }
        Bits::ThirtyTwo => {
            out[4 * i] = (n % 256) as u8;
            out[4 * i + 1] = (n / 256 % 256) as u8;
            out[4 * i + 2] = (n / 256 / 256 % 256) as u8;
            out[4 * i + 3] = (n / 256 / 256 / 256 % 256) as u8;
        }
    }
}

/// Writes `count` lanes over all of `out`, each the lowest bits of the source's number there.
pub fn fill<S: LaneWise>(source: &S, ty: LaneType, count: usize, out: &mut [u8])
    requires room { length out.old ≡ bytes_of ty * count }
    requires lanes { count ≤ S.many source.now }
    ensures { out.new ≡ made ty count (S.at source.now) }
{
    for i in 0..count {
        put(out, ty, i, residue(ty, source.lane_at(i)));
    }
}
