ghost use Rattle.std.specs.Prelude.{◌≡◌, ◌≤◌, ◌∷◌, [], true, false, not, IfOk, IsSome, IsTrue, ◌↔◌, Err};
ghost use Rattle.pf_values.specs.Meaning.Operators.{row_of};
ghost use Rattle.pf_values.specs.Meaning.Terms.{operand_count};
ghost use Rattle.pf_laneops.specs.Meaning.LaneRows.{lane_row};
ghost use Rattle.pf_rules.specs.Meaning.Sorts.{sorting, SortsAs, place, op_gives, op_type, lane_op_type, has_op_amount, has_lane_amount, typed, fits, if_fits, fault_below, states, is_stated, type_or, some_amount};
ghost use Rattle.pf_rules.specs.Steps.Sorted.{here, own_sorting};

use crate::evaluating::amount_at;
use crate::fault::SortFault;
use crate::number::Amount;
use crate::pattern::{PatType, Pattern};
use crate::place::Place;
use crate::rule::{Kind, VarList};
use pf_ints::{LaneType, Path};
use pf_laneops::{LaneAmounts, LaneName, lane_type};
use pf_values::{Gives, Op, Operands, is_amount, result_type, type_fault};
use std::alloc::{AllocError, Global};

/// The type of a pattern at the width `w` and the shift `k`, or the fault of the first node in
/// post-order that has one. At one node types are judged before the amount. A lane operation has
/// no type in a file that lifts.
pub fn sort_of(
    alloc: Global,
    pattern: &Pattern,
    vars: &VarList,
    kind: Kind,
    w: u8,
    k: u8,
) -> Result<LaneType, SortFault>
    ensures { SortsAs result (sorting true kind (place w k vars.now) pattern.now) }
{
    let judge = Judge {
        amounts: true,
        kind,
        place: Place { vars, w, k },
    };
    judge.sort(alloc, pattern)
}

/// The type of a pattern as by `sort_of`, but whether the amounts are in their ranges isn't judged.
pub fn type_of(
    alloc: Global,
    pattern: &Pattern,
    vars: &VarList,
    kind: Kind,
    w: u8,
    k: u8,
) -> Result<LaneType, SortFault>
    ensures { SortsAs result (sorting false kind (place w k vars.now) pattern.now) }
{
    let judge = Judge {
        amounts: false,
        kind,
        place: Place { vars, w, k },
    };
    judge.sort(alloc, pattern)
}

/// How and where patterns are judged.
#[derive(Clone, Copy)]
struct Judge<'a> {
    amounts: bool,
    kind: Kind,
    place: Place<'a>,
}

impl<'a> Judge<'a> {
    fn sort(&self, alloc: Global, pattern: &Pattern) -> Result<LaneType, SortFault>
        ensures { SortsAs result (sorting self.now.amounts self.now.kind (here self.now.place) pattern.now) }
    {
        match pattern {
            Pattern::Var(_) | Pattern::Const { .. } => self.own(alloc, pattern, &[]),
            Pattern::Node { args, .. } | Pattern::Lane { args, .. } => {
                let mut types = Vec::new(alloc);
                for arg in args.as_slice() {
                    let n = types.len().min(255) as u8;
                    match self.sort(alloc, arg) {
                        Ok(found) => types.push(found)?,
                        Err(fault) => return Err(lowered(alloc, n, fault)),
                    }
                }
                self.own(alloc, pattern, types.as_slice())
            }
        }
    }

    /// The node by itself, where its operands have these types.
    fn own(
        &self,
        alloc: Global,
        pattern: &Pattern,
        types: &[LaneType],
    ) -> Result<LaneType, SortFault>
        ensures { SortsAs result (own_sorting self.now.amounts self.now.kind (here self.now.place) types.now pattern.now) }
    {
        match pattern {
            Pattern::Var(n) => typed(alloc, self.place.type_of_var(*n)),
            Pattern::Const { n, ty } => typed(alloc, self.place.type_of_const(n, *ty)),
            Pattern::Node { op, to, k, .. } => {
                let Some(to) = self.place.stated(*to) else {
                    return typed(alloc, None);
                };
                let Some(ty) = op_type(*op, to, types) else {
                    return typed(alloc, None);
                };
                let Some(k) = amount_at(k, self.place.w, self.place.k) else {
                    return typed(alloc, None);
                };
                self.judged(alloc, ty, k, has_op_amount(*op, types, k))
            }
            Pattern::Lane { op, to, k, .. } => {
                let Some(to) = self.place.stated(*to) else {
                    return typed(alloc, None);
                };
                let Some(ty) = lane_op_type(self.kind, *op, to, types) else {
                    return typed(alloc, None);
                };
                let Some(k) = amount_at(k, self.place.w, self.place.k) else {
                    return typed(alloc, None);
                };
                self.judged(alloc, ty, k, has_lane_amount(self.kind, *op, to, types, k))
            }
        }
    }

    fn judged(
        &self,
        alloc: Global,
        ty: LaneType,
        k: i128,
        fits: bool,
    ) -> Result<LaneType, SortFault>
        ensures { result ≡ if_fits self.now.amounts fits ty k }
    {
        if !self.amounts || fits {
            Ok(ty)
        } else {
            Err(SortFault::Amount {
                path: Path::new(alloc),
                amount: k,
            })
        }
    }
}

fn typed(alloc: Global, ty: Option<LaneType>) -> Result<LaneType, SortFault>
    ensures { result ≡ typed ty }
{
    match ty {
        Some(ty) => Ok(ty),
        None => Err(SortFault::Types {
            path: Path::new(alloc),
        }),
    }
}

/// The fault of child n as its parent tells it.
fn lowered(alloc: Global, n: u8, fault: SortFault) -> SortFault
    ensures { SortsAs (Err result) (Err (fault_below n fault)) }
{
    match fault {
        SortFault::Types { path } => match longer(alloc, n, &path) {
            Ok(path) => SortFault::Types { path },
            Err(_) => SortFault::Memory,
        },
        SortFault::Amount { path, amount } => match longer(alloc, n, &path) {
            Ok(path) => SortFault::Amount { path, amount },
            Err(_) => SortFault::Memory,
        },
        SortFault::Memory => SortFault::Memory,
    }
}

fn longer(alloc: Global, n: u8, path: &Path) -> Result<Path, AllocError>
    ensures { IfOk result (λ p. p ≡ n ∷ path.now) }
{
    let mut steps = Vec::from_slice(alloc, &[n])?;
    steps.extend_from_slice(path.as_slice())?;
    Ok(Path::from_vec(steps))
}

fn op_type(op: Op, to: Option<LaneType>, types: &[LaneType]) -> Option<LaneType>
    ensures { result ≡ op_type op to types.now }
{
    if types.len() != operand_count(op.operands()) || !is_stated(states(op.gives()), &to) {
        return None;
    }
    let ty = op_gives(op, to, types);
    match type_fault(op, ty, types) {
        Some(_) => None,
        None => Some(ty),
    }
}

/// The type of what an operator makes, by the stated type and its operands' types.
pub(crate) fn op_gives(op: Op, to: Option<LaneType>, types: &[LaneType]) -> LaneType
    ensures { result ≡ op_gives op to types.now }
{
    result_type(op.gives(), type_or(to), types)
}

pub(crate) fn type_or(ty: Option<LaneType>) -> LaneType
    ensures { result ≡ type_or ty }
{
    match ty {
        Some(ty) => ty,
        None => LaneType::U8,
    }
}

pub(crate) fn operand_count(operands: Operands) -> usize
    ensures { result ≡ operand_count operands }
{
    match operands {
        Operands::One | Operands::OneSigned => 1,
        Operands::Alike | Operands::Narrow | Operands::WideFirst => 2,
        Operands::Choice => 4,
    }
}

/// Whether an operator is written with the type of its result.
pub(crate) fn states(gives: Gives) -> bool
    ensures { result ≡ states gives }
{
    match gives {
        Gives::Stated => true,
        _ => false,
    }
}

pub(crate) fn is_stated<T>(states: bool, to: &Option<T>) -> bool
    ensures { result ≡ is_stated states to.now }
{
    match to {
        Some(_) => states,
        None => !states,
    }
}

fn has_op_amount(op: Op, types: &[LaneType], k: i128) -> bool
    ensures { result ≡ fits (has_op_amount op types.now) k }
{
    let w = match types {
        [first, ..] => first.width(),
        [] => 0,
    };
    0 <= k && k < 64 && is_amount(op.amounts(), w, k as u8)
}

fn lane_op_type(
    kind: Kind,
    op: LaneName,
    to: Option<LaneType>,
    types: &[LaneType],
) -> Option<LaneType>
    ensures { result ≡ lane_op_type kind op to types.now }
{
    match kind {
        Kind::Lift => None,
        Kind::Lower(target) => {
            let (ty, _) = lane_type(target, op, to, types, some_amount(op.row().amounts))?;
            Some(ty)
        }
    }
}

/// An amount that every row with these amounts has.
fn some_amount(amounts: LaneAmounts) -> u8
    ensures { result ≡ some_amount amounts }
{
    match amounts {
        LaneAmounts::Without => 0,
        _ => 1,
    }
}

fn has_lane_amount(
    kind: Kind,
    op: LaneName,
    to: Option<LaneType>,
    types: &[LaneType],
    k: i128,
) -> bool
    ensures { result ≡ fits (has_lane_amount kind op to types.now) k }
{
    match kind {
        Kind::Lift => false,
        Kind::Lower(target) => {
            0 <= k && k < 64 && lane_type(target, op, to, types, k as u8).is_some()
        }
    }
}
