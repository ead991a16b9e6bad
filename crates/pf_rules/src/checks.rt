ghost use Rattle.std.specs.Prelude.{◌≡◌, ◌≤◌, length, map, pos};
ghost use Rattle.pf_values.specs.Meaning.Operators.{row_of};
ghost use Rattle.pf_values.specs.Meaning.Terms.{all_true, has_amount};
ghost use Rattle.pf_laneops.specs.Meaning.LaneRows.{lane_row};
ghost use Rattle.pf_rules.specs.Meaning.Counts.{is_formed, is_formed_op, is_formed_lane, is_zero, lane_operand_count, lane_states, has_lane_amounts, all_stand};
ghost use Rattle.pf_rules.specs.Meaning.Rules.{is_rule, is_widths, rises, is_width, is_within_limits, has_sides, suits, is_free, is_free_shift, is_free_unit, is_free_part, is_free_amount, is_free_item, is_free_number_part};

use crate::counts::{is_bare, is_lane_free, is_op_free, nodes, occurrences};
use crate::number::{Amount, LinOf, LinPart, Number, NumberItem};
use crate::pattern::{PatType, Pattern};
use crate::rule::{Kind, RuleParts};
use crate::sorts::{is_stated, operand_count, states};
use pf_laneops::{LaneAmounts, LaneGives, LaneName, LaneOperands};
use pf_values::{Amounts, Op};

/// Whether the parts are such as a rule keeps.
pub fn is_rule(parts: &RuleParts) -> bool
    ensures { result ≡ is_rule parts.now }
{
    is_widths(parts.widths.as_slice())
        && is_free_shift(&parts.shift)
        && is_within_limits(parts)
        && has_sides(parts)
}

/// Whether a rule of these parts is of the kind: a lift rule has no lane operation, and a rule for
/// a target has none on its left side and no operator on its right side.
pub fn suits(kind: Kind, parts: &RuleParts) -> bool
    ensures { result ≡ suits kind parts.now }
{
    match kind {
        Kind::Lift => is_lane_free(&parts.lhs) && is_lane_free(&parts.rhs),
        Kind::Lower(_) => is_lane_free(&parts.lhs) && is_op_free(&parts.rhs),
    }
}

fn is_widths(widths: &[i128]) -> bool
    ensures { result ≡ is_widths widths.now }
{
    match widths {
        [] => false,
        [_, ..] => rises(widths),
    }
}

/// Whether each is a width, above the one before it.
fn rises(widths: &[i128]) -> bool
    ensures { result ≡ rises (pos 0) widths.now }
{
    let mut before = 0;
    for width in widths {
        if !is_width(*width) || *width <= before {
            return false;
        }
        before = *width;
    }
    true
}

fn is_width(n: i128) -> bool
    ensures { result ≡ is_width n }
{
    n == 8 || n == 16 || n == 32
}

fn is_within_limits(parts: &RuleParts) -> bool
    ensures { result ≡ is_within_limits parts.now }
{
    parts.vars.len() <= 8
        && nodes(&parts.lhs) <= 64
        && nodes(&parts.rhs) <= 64
        && parts.steps.len() <= 512
}

fn has_sides(parts: &RuleParts) -> bool
    requires { length parts.now.vars ≤ 8 }
    ensures { result ≡ has_sides parts.now }
{
    let count = parts.vars.len() as u8;
    is_formed(count, &parts.lhs)
        && is_formed(count, &parts.rhs)
        && !is_bare(&parts.lhs)
        && all_stand(count, &parts.lhs)
}

/// Whether each of the first `count` variables stands in the pattern.
fn all_stand(count: u8, pattern: &Pattern) -> bool
    ensures { result ≡ all_stand count pattern.now }
{
    let mut n = count;
    while n > 0 {
        n -= 1;
        if occurrences(n, pattern) == 0 {
            return false;
        }
    }
    true
}

/// Whether each node of the pattern has as many operands as its row, a type exactly where its row
/// has one, and the amount 0 where its row has none, and the variables are numbered below `vars`.
pub fn is_formed(vars: u8, pattern: &Pattern) -> bool
    ensures { result ≡ is_formed vars pattern.now }
{
    match pattern {
        Pattern::Var(n) => *n < vars,
        Pattern::Const { .. } => true,
        Pattern::Node { op, to, k, args } => {
            if !is_formed_op(*op, to, k, args.len()) {
                return false;
            }
            for arg in args.as_slice() {
                if !is_formed(vars, arg) {
                    return false;
                }
            }
            true
        }
        Pattern::Lane { op, to, k, args } => {
            if !is_formed_lane(*op, to, k, args.len()) {
                return false;
            }
            for arg in args.as_slice() {
                if !is_formed(vars, arg) {
                    return false;
                }
            }
            true
        }
    }
}

fn is_formed_op(op: Op, to: &Option<PatType>, k: &Amount, count: usize) -> bool
    ensures { result ≡ is_formed_op (row_of op) to.now k.now count }
{
    count == operand_count(op.operands())
        && is_stated(states(op.gives()), to)
        && (has_amount(op.amounts()) || is_zero(k))
}

fn is_formed_lane(op: LaneName, to: &Option<PatType>, k: &Amount, count: usize) -> bool
    ensures { result ≡ is_formed_lane (lane_row op) to.now k.now count }
{
    let row = op.row();
    count == lane_operand_count(row.operands)
        && is_stated(lane_states(row.gives), to)
        && (has_lane_amounts(row.amounts) || is_zero(k))
}

fn has_amount(amounts: Amounts) -> bool
    ensures { result ≡ has_amount amounts }
{
    match amounts {
        Amounts::Without => false,
        _ => true,
    }
}

fn is_zero(k: &Amount) -> bool
    ensures { result ≡ is_zero k.now }
{
    match k {
        Amount::Int(n) => *n == 0,
        _ => false,
    }
}

/// How many operands a lane operation has.
pub fn lane_operand_count(operands: LaneOperands) -> usize
    ensures { result ≡ lane_operand_count operands }
{
    match operands {
        LaneOperands::One => 1,
        LaneOperands::Two | LaneOperands::UnsignedAndSigned | LaneOperands::WideAndNarrow => 2,
        LaneOperands::Three | LaneOperands::WideAndTwo => 3,
        LaneOperands::Four => 4,
    }
}

/// Whether a lane operation is written with a type.
pub fn lane_states(gives: LaneGives) -> bool
    ensures { result ≡ lane_states gives }
{
    match gives {
        LaneGives::SameWidth | LaneGives::HalfWidth => true,
        _ => false,
    }
}

/// Whether a lane operation has an amount.
pub fn has_lane_amounts(amounts: LaneAmounts) -> bool
    ensures { result ≡ has_lane_amounts amounts }
{
    match amounts {
        LaneAmounts::Without => false,
        _ => true,
    }
}

fn is_free_shift(shift: &Option<(Number, Number)>) -> bool
    ensures { result ≡ is_free_shift shift.now }
{
    match shift {
        None => true,
        Some((from, to)) => is_free(from) && is_free(to),
    }
}

/// Whether the shift k stands nowhere in the number.
pub fn is_free(number: &Number) -> bool
    ensures { result ≡ is_free number.now }
{
    for part in number.parts.as_slice() {
        if !is_free_item(&part.item) {
            return false;
        }
    }
    true
}

fn is_free_item(item: &NumberItem) -> bool
    ensures { result ≡ is_free_item item.now }
{
    match item {
        NumberItem::K => false,
        NumberItem::Power { exponent, .. } => is_free_amount(exponent),
        _ => true,
    }
}

/// Whether the shift k stands nowhere in the amount.
pub fn is_free_amount(amount: &Amount) -> bool
    ensures { result ≡ is_free_amount amount.now }
{
    match amount {
        Amount::K => false,
        Amount::Linear(parts) => are_free(parts.as_slice()),
        _ => true,
    }
}

fn are_free(parts: &[LinPart]) -> bool
    ensures { result ≡ all_true (map is_free_part parts.now) }
{
    for part in parts {
        if !is_free_unit(part.of) {
            return false;
        }
    }
    true
}

fn is_free_unit(of: LinOf) -> bool
    ensures { result ≡ is_free_unit of }
{
    match of {
        LinOf::K => false,
        _ => true,
    }
}
