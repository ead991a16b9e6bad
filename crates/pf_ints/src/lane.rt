ghost use Rattle.std.specs.Prelude.{◌≡◌, ◌≢◌, ℤ, pos, ◌*◌, ◌/◌, ◌-◌, ◌^◌, ◌≤◌, ◌+ℤ◌, ◌*ℤ◌, IsTrue, ◌↔◌, IfSome, MatchOption};
ghost use Rattle.pf_ints.specs.Meaning.Images.{IsPixelType, is_pixel};
ghost use Rattle.pf_ints.specs.Meaning.Lanes.{lane_width, modulus, least, greatest, is_in, IsIn, wrapped, clamped, IsNearestIn};

/// How many bits a lane has.
#[derive(Clone, Copy, Debug, PartialEq, Eq)]
pub enum Bits {
    Eight,
    Sixteen,
    ThirtyTwo,
}

/// The type of a lane: whole numbers with or without a sign, of 8, 16 or 32 bits.
#[derive(Clone, Copy, Debug, PartialEq, Eq)]
pub struct LaneType {
    pub signed: bool,
    pub bits: Bits,
}

impl LaneType {
    pub const U8: LaneType = LaneType {
        signed: false,
        bits: Bits::Eight,
    };

    pub const I8: LaneType = LaneType {
        signed: true,
        bits: Bits::Eight,
    };

    pub const U16: LaneType = LaneType {
        signed: false,
        bits: Bits::Sixteen,
    };

    pub const I16: LaneType = LaneType {
        signed: true,
        bits: Bits::Sixteen,
    };

    pub const U32: LaneType = LaneType {
        signed: false,
        bits: Bits::ThirtyTwo,
    };

    pub const I32: LaneType = LaneType {
        signed: true,
        bits: Bits::ThirtyTwo,
    };

    /// The type of this width in bits, or None where the width is none of 8, 16 and 32.
    pub fn new(signed: bool, width: u8) -> Option<LaneType>
        ensures { MatchOption result ((width ≢ 8) × (width ≢ 16) × (width ≢ 32))
            (λ t. (t.signed ≡ signed) × (lane_width t ≡ width)) }
    {
        let bits = match width {
            8 => Bits::Eight,
            16 => Bits::Sixteen,
            32 => Bits::ThirtyTwo,
            _ => return None,
        };
        Some(LaneType { signed, bits })
    }

    /// Whether the type has negative members.
    pub fn signed(self) -> bool
        ensures { result ≡ self.signed }
    {
        self.signed
    }

    /// The bits of a lane: 8, 16 or 32.
    pub fn width(self) -> u8
        ensures { result ≡ lane_width self }
    {
        match self.bits {
            Bits::Eight => 8,
            Bits::Sixteen => 16,
            Bits::ThirtyTwo => 32,
        }
    }

    /// The bytes of a lane: 1, 2 or 4.
    pub fn bytes(self) -> u8
        ensures value { result ≡ lane_width self / 8 }
        ensures few { result ≤ 4 }
    {
        self.width() / 8
    }

    /// The type of twice the width and the same sign, or None at 32 bits.
    pub fn twice(self) -> Option<LaneType>
        ensures { MatchOption result (lane_width self ≡ 32)
            (λ t. (t.signed ≡ self.signed) × (lane_width t ≡ 2 * lane_width self)) }
    {
        let bits = match self.bits {
            Bits::Eight => Bits::Sixteen,
            Bits::Sixteen => Bits::ThirtyTwo,
            Bits::ThirtyTwo => return None,
        };
        Some(LaneType {
            signed: self.signed,
            bits,
        })
    }

    /// The type of half the width and the same sign, or None at 8 bits.
    pub fn half(self) -> Option<LaneType>
        ensures { MatchOption result (lane_width self ≡ 8)
            (λ t. (t.signed ≡ self.signed) × (2 * lane_width t ≡ lane_width self)) }
    {
        let bits = match self.bits {
            Bits::Eight => return None,
            Bits::Sixteen => Bits::Eight,
            Bits::ThirtyTwo => Bits::Sixteen,
        };
        Some(LaneType {
            signed: self.signed,
            bits,
        })
    }

    /// How many members the type has.
    pub fn size(self) -> i128
        ensures { result ≡ pos (modulus self) }
    {
        match self.bits {
            Bits::Eight => 0x100,
            Bits::Sixteen => 0x1_0000,
            Bits::ThirtyTwo => 0x1_0000_0000,
        }
    }

    /// The least member.
    pub fn least(self) -> i128
        ensures { result ≡ least self }
    {
        if self.signed {
            match self.bits {
                Bits::Eight => -0x80,
                Bits::Sixteen => -0x8000,
                Bits::ThirtyTwo => -0x8000_0000,
            }
        } else {
            0
        }
    }

    /// The greatest member.
    pub fn greatest(self) -> i128
        ensures { result ≡ greatest self }
    {
        if self.signed {
            match self.bits {
                Bits::Eight => 0x7f,
                Bits::Sixteen => 0x7fff,
                Bits::ThirtyTwo => 0x7fff_ffff,
            }
        } else {
            match self.bits {
                Bits::Eight => 0xff,
                Bits::Sixteen => 0xffff,
                Bits::ThirtyTwo => 0xffff_ffff,
            }
        }
    }

    /// Whether the number is a member.
    pub fn contains(self, n: i128) -> bool
        ensures { result ≡ is_in self n }
    {
        self.least() <= n && n <= self.greatest()
    }

    /// Whether an image may have pixels of the type, which are u8 or u16.
    pub fn is_pixel(self) -> bool
        ensures value { result ≡ is_pixel self }
        ensures pixel { IsTrue result ↔ IsPixelType self }
    {
        match (self.signed, self.bits) {
            (false, Bits::Eight) | (false, Bits::Sixteen) => true,
            _ => false,
        }
    }

    /// The greatest pixel of the type.
    pub fn greatest_pixel(self) -> u16
        requires { IsPixelType self }
        ensures value { pos result ≡ greatest self }
        ensures full { result ≡ 2 ^ lane_width self - 1 }
    {
        match self.bits {
            Bits::Eight => 0xff,
            _ => 0xffff,
        }
    }
}

/// The one member of `t` that is congruent to `n` modulo 2 to the power of the width.
pub fn wrap(t: LaneType, n: i128) -> i128
    ensures value { result ≡ wrapped t n }
    ensures member { IsIn t result }
    ensures congruent { (k : ℤ) × (n ≡ result +ℤ k *ℤ pos (modulus t)) }
{
    wrapped_number(t, n)
}

// Most numbers that are wrapped are members already, and a quotient takes long.
#[tactic(auto, using(crate::proofs::LaneLaws::wrapped_same))]
fn wrapped_number(t: LaneType, n: i128) -> i128
    ensures { result ≡ wrapped t n }
{
    if t.least() <= n && n <= t.greatest() {
        n
    } else {
        congruent_member(t, n)
    }
}

fn congruent_member(t: LaneType, n: i128) -> i128
    ensures { result ≡ wrapped t n }
{
    let size = t.size();
    let rest = n.rem_euclid(size);
    if rest > t.greatest() {
        rest - size
    } else {
        rest
    }
}

/// The member of `t` that is nearest to `n`.
pub fn sat(t: LaneType, n: i128) -> i128
    ensures value { result ≡ clamped t n }
    ensures nearest { IsNearestIn t n result }
{
    clamped_number(t, n)
}

fn clamped_number(t: LaneType, n: i128) -> i128
    ensures { result ≡ clamped t n }
{
    n.clamp(t.least(), t.greatest())
}
