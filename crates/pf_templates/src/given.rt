ghost use Rattle.std.specs.Prelude.{◌≡◌, ◌≤◌};
ghost use Rattle.pf_forms.specs.Meaning.Shapes.{shape};
ghost use Rattle.pf_templates.specs.Meaning.Letters.{letters, start, form_at, type_at, exponent_at, numeral_at};

use crate::exponents::two_to;
use crate::template::{Exponent, Letter, Numeral, Which};
use pf_forms::Form;
use pf_ints::LaneType;

/// What the letters of a template stand for. Exponents that come from forms are at most 119, and
/// those of powers of two at most 120.
#[derive(Clone, Copy)]
pub struct Given<'f> {
    pub x: &'f Form,
    pub y: &'f Form,
    pub z: &'f Form,
    pub v: &'f Form,
    pub t: LaneType,
    pub u: LaneType,
    pub a: u8,
    pub b: u8,
}

impl<'f> Given<'f> {
    /// Each letter stands for the form.
    pub fn start(form: &'f Form) -> Given<'f>
        ensures { letters result ≡ start (shape form.now) }
    {
        Given {
            x: form,
            y: form,
            z: form,
            v: form,
            t: LaneType::U8,
            u: LaneType::U8,
            a: 0,
            b: 0,
        }
    }

    /// What a letter stands for.
    pub fn form(&self, letter: Letter) -> &'f Form
        ensures { shape result.now ≡ form_at (letters self.now) letter }
    {
        match letter {
            Letter::X => self.x,
            Letter::Y => self.y,
            Letter::Z => self.z,
            Letter::V => self.v,
        }
    }

    /// What a letter of a type stands for.
    pub fn lane(&self, which: Which) -> LaneType
        ensures { result ≡ type_at (letters self.now) which }
    {
        match which {
            Which::T => self.t,
            Which::U => self.u,
        }
    }

    /// The exponent at these letters. It may be above 119.
    pub fn exponent(&self, exponent: Exponent) -> u8
        requires a { (letters self.now).a ≤ 120 }
        requires b { (letters self.now).b ≤ 120 }
        ensures { result ≡ exponent_at (letters self.now) exponent }
    {
        match exponent {
            Exponent::Fixed(e) => e,
            Exponent::A => self.a,
            Exponent::B => self.b,
            Exponent::Sum => self.a + self.b,
            Exponent::Rest => self.b.saturating_sub(self.a),
        }
    }

    /// The number at these letters.
    pub fn numeral(&self, numeral: Numeral) -> i128
        requires { (letters self.now).a ≤ 120 }
        ensures { result ≡ numeral_at (letters self.now) numeral }
    {
        match numeral {
            Numeral::Fixed(n) => i128::from(n),
            Numeral::TwoToA => two_to(self.a),
            Numeral::BelowTwoToA => two_to(self.a) - 1,
            Numeral::HalfOfTwoToA => two_to(self.a.saturating_sub(1)),
            Numeral::LeastT => self.t.least(),
            Numeral::GreatestT => self.t.greatest(),
        }
    }
}
