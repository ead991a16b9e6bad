ghost use Rattle.std.specs.Prelude.{◌≡◌, ◌≤◌, ◌-◌, ◌+◌, ◌++◌, None, true, map, unsigned_abs, option_map, MatchResult, IfSome, OnOk};
ghost use Rattle.std.specs.List.{range_with_len};
ghost use Rattle.pf_rules.specs.Meaning.Rules.{pairs, pair, first_bad, shifts_at, shifts_from, range_at, is_width};
ghost use Rattle.pf_rules.specs.Meaning.Shifts.{TellsShift};
ghost use Rattle.pf_rules.specs.Steps.Bounds.{shifts_between, IsShiftRange};

use crate::evaluating::number_at;
use crate::number::Number;
use crate::place::lane_at;
use crate::rule::{Rule, VarDecl};
use pf_ints::{Interval, Sequence};
use std::alloc::{AllocError, Global};

/// A width and a shift at which a rule is one.
#[derive(Clone, Copy, PartialEq, Eq)]
pub struct Pair {
    pub w: u8,
    pub k: u8,
}

/// Widths and shifts.
pub type PairList = Sequence<Pair>;

/// Why a rule has no list of widths and shifts.
pub enum PairsFault {
    /// At this width, the first such one, the bounds of the shift have no value, or lie outside 0
    /// to 63, or leave no shift.
    Shift { w: u8 },
    /// Want of memory.
    Memory,
}

impl From<AllocError> for PairsFault {
    ghost use Rattle.pf_rules.specs.declared.shifts.PairsFault.TheVariants.{Memory};

    ghost from_gives = { λ _ e. e ≡ Memory };

    fn from(_error: AllocError) -> PairsFault {
        PairsFault::Memory
    }
}

/// The widths of a rule, each with its shifts, in order. Where the rule states no shift, that is 0.
pub fn pairs(alloc: Global, rule: &Rule) -> Result<PairList, PairsFault>
    ensures { MatchResult result (λ ps. (ps ≡ pairs rule.now) × (first_bad rule.now.widths rule.now.shift ≡ None)) (λ e. TellsShift e (first_bad rule.now.widths rule.now.shift)) }
{
    let parts = rule.parts();
    let mut all = Sequence::new(alloc);
    for width in parts.widths.as_slice() {
        let w = width_of(*width);
        match bounds_at(w, &parts.shift) {
            Some((lo, hi)) => push_pairs(&mut all, w, lo, hi)?,
            None => return Err(PairsFault::Shift { w }),
        }
    }
    Ok(all)
}

fn width_of(width: i128) -> u8
    requires { is_width width ≡ true }
    ensures { result ≡ unsigned_abs width }
{
    match width {
        8 => 8,
        16 => 16,
        _ => 32,
    }
}

/// The least and the greatest shift at a width.
fn bounds_at(w: u8, shift: &Option<(Number, Number)>) -> Option<(u8, u8)>
    ensures value { option_map shifts_between result ≡ shifts_at w shift.now }
    ensures within { IfSome result IsShiftRange }
{
    match shift {
        None => Some((0, 0)),
        Some((from, to)) => shift_bounds(number_at(from, w, 0)?, number_at(to, w, 0)?),
    }
}

fn shift_bounds(lo: i128, hi: i128) -> Option<(u8, u8)>
    ensures value { option_map shifts_between result ≡ shifts_from lo hi }
    ensures within { IfSome result IsShiftRange }
{
    if 0 <= lo && lo <= hi && hi <= 63 {
        Some((lo as u8, hi as u8))
    } else {
        None
    }
}

fn push_pairs(all: &mut PairList, w: u8, lo: u8, hi: u8) -> Result<(), AllocError>
    requires { IsShiftRange (lo, hi) }
    ensures { OnOk result (all.new ≡ all.old ++ map (pair w) (shifts_between (lo, hi))) }
{
    let mut k = lo;
    while k <= hi {
        all.push(Pair { w, k })?;
        k += 1;
    }
    Ok(())
}

/// The range of a variable at the width `w` and the shift `k`: the stated one, or all of its type.
/// None where the type is none at this width, or the stated range has no value, is empty, or is no
/// part of the type.
pub fn range_of(decl: &VarDecl, w: u8, k: u8) -> Option<Interval>
    ensures { result ≡ range_at w k decl.now }
{
    let ty = lane_at(decl.ty, w)?;
    match &decl.range {
        None => Some(Interval::of(ty)),
        Some((from, to)) => {
            let lo = number_at(from, w, k)?;
            let hi = number_at(to, w, k)?;
            if ty.least() <= lo && lo <= hi && hi <= ty.greatest() {
                Interval::new(lo, hi)
            } else {
                None
            }
        }
    }
}
