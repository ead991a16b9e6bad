ghost use Rattle.std.specs.Prelude.{◌≡◌, pos, ◌^◌, ◌≤◌};
ghost use Rattle.pf_templates.specs.Meaning.Exponents.{exponent_of, exponent_up_to};

/// 2 to the power of `e`, which is at most 120.
pub fn two_to(e: u8) -> i128
    requires { e ≤ 120 }
    ensures { result ≡ pos (2 ^ e) }
{
    1 << e
}

/// The exponent of a power of two up to 2^120, and 0 of another number.
#[tactic(auto, unfolding(crate::specs::Meaning::Exponents::exponent_of))]
pub fn exponent_of(n: i128) -> u8
    ensures { result ≡ exponent_of n }
{
    exponent_up_to(120, n)
}

fn exponent_up_to(e: u8, n: i128) -> u8
    requires { e ≤ 120 }
    ensures { result ≡ exponent_up_to e n }
{
    if e == 0 {
        0
    } else if two_to(e) == n {
        e
    } else {
        exponent_up_to(e - 1, n)
    }
}
