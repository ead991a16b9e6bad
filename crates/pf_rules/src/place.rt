ghost use Rattle.std.specs.Prelude.{◌≡◌};
ghost use Rattle.pf_rules.specs.Meaning.Sorts.{bits_of, lane_at, type_of_var, type_of_const, stated_at};
ghost use Rattle.pf_rules.specs.Steps.Sorted.{here};

use crate::evaluating::number_at;
use crate::number::Number;
use crate::pattern::PatType;
use crate::rule::VarList;
use pf_ints::{Bits, LaneType};

/// Where a pattern is looked at.
#[derive(Clone, Copy)]
pub(crate) struct Place<'a> {
    pub(crate) vars: &'a VarList,
    pub(crate) w: u8,
    pub(crate) k: u8,
}

impl<'a> Place<'a> {
    pub(crate) fn type_of_var(&self, n: u8) -> Option<LaneType>
        ensures { result ≡ type_of_var (here self.now) n }
    {
        lane_at(self.vars.get(usize::from(n))?.ty, self.w)
    }

    pub(crate) fn type_of_const(&self, n: &Number, ty: PatType) -> Option<LaneType>
        ensures { result ≡ type_of_const (here self.now) n.now ty }
    {
        let ty = lane_at(ty, self.w)?;
        if ty.contains(number_at(n, self.w, self.k)?) {
            Some(ty)
        } else {
            None
        }
    }

    /// What is stated. None where a type is stated that is none here.
    pub(crate) fn stated(&self, to: Option<PatType>) -> Option<Option<LaneType>>
        ensures { result ≡ stated_at self.now.w to }
    {
        match to {
            None => Some(None),
            Some(ty) => Some(Some(lane_at(ty, self.w)?)),
        }
    }
}

/// The type at the width `w`. None where its lanes would have another number of bits than 8, 16
/// or 32.
pub fn lane_at(ty: PatType, w: u8) -> Option<LaneType>
    ensures { result ≡ lane_at w ty }
{
    Some(LaneType {
        signed: ty.signed,
        bits: bits_of(u16::from(ty.times) * u16::from(w))?,
    })
}

fn bits_of(bits: u16) -> Option<Bits>
    ensures { result ≡ bits_of bits }
{
    match bits {
        8 => Some(Bits::Eight),
        16 => Some(Bits::Sixteen),
        32 => Some(Bits::ThirtyTwo),
        _ => None,
    }
}
