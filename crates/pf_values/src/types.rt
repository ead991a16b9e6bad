ghost use Rattle.std.specs.Prelude.{◌≡◌, ◌∷◌, ◌≤◌, length, true, [], Result, Err, IfOk};
ghost use Rattle.std.specs.Option.{option_or};
ghost use Rattle.pf_values.specs.declared.row.Operands.TheVariants.{Narrow, WideFirst, Choice};
ghost use Rattle.pf_values.specs.Meaning.Operators.{row_of};
ghost use Rattle.pf_values.specs.Meaning.Terms.{is_well_formed, typing, fault_below, TypesAs, operand_count, node_type, type_fault, wanted, first_difference, result_type, is_amount, same_type, typed_as, doubled, halved, at_most_sixteen, at_least_sixteen};

use crate::fault::TermFault;
use crate::op::Op;
use crate::row::{Amounts, Gives, Operands};
use crate::term::Term;
use pf_ints::{Bits, LaneType, Path};
use std::alloc::{AllocError, Global};

/// The type of a term, or the fault of the first node in post-order that has one. At one node the
/// operands' types are judged first, from left to right, then the stated type, then the amount.
pub fn type_of(alloc: Global, term: &Term) -> Result<LaneType, TermFault>
    requires formed { is_well_formed term.now ≡ true }
    ensures { TypesAs result (typing term.now) }
{
    match term {
        Term::Leaf { ty, .. } => Ok(*ty),
        Term::Node { op, ty, k, args } => {
            let mut types = Vec::new(alloc);
            for arg in args.as_slice() {
                let n = types.len() as u8;
                match type_of(alloc, arg) {
                    Ok(found) => types.push(found)?,
                    Err(fault) => return Err(lowered(alloc, n, fault)),
                }
            }
            node_type(alloc, *op, *ty, *k, types.as_slice())
        }
    }
}

// The fault of child n as its parent tells it.
fn lowered(alloc: Global, n: u8, fault: TermFault) -> TermFault
    ensures { TypesAs (Err result) (Err (fault_below n fault)) }
{
    match fault {
        TermFault::Types { path, want, got } => match longer(alloc, n, &path) {
            Ok(path) => TermFault::Types { path, want, got },
            Err(_) => TermFault::Memory,
        },
        TermFault::Amount { path, amount } => match longer(alloc, n, &path) {
            Ok(path) => TermFault::Amount { path, amount },
            Err(_) => TermFault::Memory,
        },
        TermFault::Memory => TermFault::Memory,
    }
}

fn longer(alloc: Global, n: u8, path: &Path) -> Result<Path, AllocError>
    ensures { IfOk result (λ p. p ≡ n ∷ path.now) }
{
    let mut steps = Vec::from_slice(alloc, &[n])?;
    steps.extend_from_slice(path.as_slice())?;
    Ok(Path::from_vec(steps))
}

fn node_type(
    alloc: Global,
    op: Op,
    ty: LaneType,
    k: u8,
    types: &[LaneType],
) -> Result<LaneType, TermFault>
    requires { length types.now ≡ operand_count (row_of op).operands }
    ensures { TypesAs result (node_type (row_of op) ty k types.now) }
{
    if let Some((want, got)) = type_fault(op, ty, types) {
        return Err(TermFault::Types {
            path: Path::new(alloc),
            want,
            got,
        });
    }
    if is_amount(op.amounts(), types[0].width(), k) {
        Ok(ty)
    } else {
        Err(TermFault::Amount {
            path: Path::new(alloc),
            amount: k as i128,
        })
    }
}

pub fn type_fault(op: Op, ty: LaneType, types: &[LaneType]) -> Option<(LaneType, LaneType)>
    requires { length types.now ≡ operand_count (row_of op).operands }
    ensures { result ≡ type_fault (row_of op) ty types.now }
{
    operand_fault(op.operands(), types).or(difference(result_type(op.gives(), ty, types), ty))
}

// The wanted and the got type of the first operand whose type isn't the wanted one.
fn operand_fault(operands: Operands, types: &[LaneType]) -> Option<(LaneType, LaneType)>
    requires { length types.now ≡ operand_count operands }
    ensures { result ≡ first_difference (wanted operands types.now) types.now }
{
    match (operands, types) {
        (Operands::OneSigned, [x]) => difference(of_bits(true, x.bits), *x),
        (Operands::Alike, [x, y]) => difference(*x, *y),
        (Operands::Narrow, [x, y]) => narrow_fault(*x, *y),
        (Operands::WideFirst, [x, y]) => wide_first_fault(*x, *y),
        (Operands::Choice, [a, b, x, y]) => choice_fault(*a, *b, *x, *y),
        _ => None,
    }
}

fn narrow_fault(x: LaneType, y: LaneType) -> Option<(LaneType, LaneType)>
    ensures { result ≡ first_difference (wanted Narrow (x ∷ y ∷ [])) (x ∷ y ∷ []) }
{
    difference(of_bits(x.signed, at_most_sixteen(x.bits)), x).or(difference(x, y))
}

fn wide_first_fault(x: LaneType, y: LaneType) -> Option<(LaneType, LaneType)>
    ensures { result ≡ first_difference (wanted WideFirst (x ∷ y ∷ [])) (x ∷ y ∷ []) }
{
    difference(of_bits(x.signed, at_least_sixteen(x.bits)), x).or(difference(
        of_bits(x.signed, halved(x.bits)),
        y,
    ))
}

#[tactic(auto, using(crate::proofs::Typing::choice_difference))]
fn choice_fault(a: LaneType, b: LaneType, x: LaneType, y: LaneType) -> Option<(LaneType, LaneType)>
    ensures { result ≡ first_difference (wanted Choice (a ∷ b ∷ x ∷ y ∷ [])) (a ∷ b ∷ x ∷ y ∷ []) }
{
    difference(a, b).or(difference(of_bits(x.signed, a.bits), x).or(difference(x, y)))
}

fn difference(want: LaneType, got: LaneType) -> Option<(LaneType, LaneType)>
    ensures { result ≡ first_difference (want ∷ []) (got ∷ []) }
{
    if is_same(want, got) {
        None
    } else {
        Some((want, got))
    }
}

fn is_same(a: LaneType, b: LaneType) -> bool
    ensures { result ≡ same_type a b }
{
    a == b
}

pub fn result_type(gives: Gives, ty: LaneType, types: &[LaneType]) -> LaneType
    ensures { result ≡ result_type gives ty types.now }
{
    match (gives, types) {
        (Gives::First, [x, ..]) => *x,
        (Gives::Unsigned, [x, ..]) => of_bits(false, x.bits),
        (Gives::Twice, [x, ..]) => of_bits(x.signed, doubled(x.bits)),
        (Gives::SignedTwice, [x, ..]) => of_bits(true, doubled(x.bits)),
        (Gives::Third, [_, _, x, ..]) => *x,
        _ => ty,
    }
}

pub fn is_amount(amounts: Amounts, w: u8, k: u8) -> bool
    requires { w ≤ 32 }
    ensures { result ≡ is_amount amounts w k }
{
    match amounts {
        Amounts::Without => k == 0,
        Amounts::Shift => k <= w.saturating_sub(1),
        Amounts::RoundingShift => 1 <= k && k <= w.saturating_sub(1),
        Amounts::Product => k <= (2 * w).saturating_sub(1),
        Amounts::RoundingProduct => 1 <= k && k <= (2 * w).saturating_sub(1),
    }
}

fn of_bits(signed: bool, bits: Bits) -> LaneType
    ensures { result ≡ typed_as signed bits }
{
    LaneType { signed, bits }
}

fn doubled(bits: Bits) -> Bits
    ensures { result ≡ doubled bits }
{
    match bits {
        Bits::Eight => Bits::Sixteen,
        _ => Bits::ThirtyTwo,
    }
}

fn halved(bits: Bits) -> Bits
    ensures { result ≡ halved bits }
{
    match bits {
        Bits::ThirtyTwo => Bits::Sixteen,
        _ => Bits::Eight,
    }
}

fn at_most_sixteen(bits: Bits) -> Bits
    ensures { result ≡ at_most_sixteen bits }
{
    match bits {
        Bits::Eight => Bits::Eight,
        _ => Bits::Sixteen,
    }
}

fn at_least_sixteen(bits: Bits) -> Bits
    ensures { result ≡ at_least_sixteen bits }
{
    match bits {
        Bits::ThirtyTwo => Bits::ThirtyTwo,
        _ => Bits::Sixteen,
    }
}
