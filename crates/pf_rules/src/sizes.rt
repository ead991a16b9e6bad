ghost use Rattle.std.specs.Prelude.{◌≡◌, ◌-◌, ◌^◌, ℕ, min, true};
ghost use Rattle.pf_forms.specs.Meaning.Parts.{form_node_count};
ghost use Rattle.pf_rules.specs.Meaning.Counts.{is_formed};
ghost use Rattle.pf_rules.specs.Meaning.Sides.{form_at};
ghost use Rattle.pf_rules.specs.Meaning.Sorts.{At};
ghost use Rattle.pf_rules.specs.Steps.Sizes.{form_nodes, own_nodes, is_twice, op_nodes, lane_nodes, counted};

use crate::pattern::Pattern;
use pf_laneops::LaneName;
use pf_values::Op;

/// How many nodes the pattern's form has, at every width and shift, or 2^64 - 1 where it has more.
/// The form isn't made.
#[tactic(auto, using(crate::proofs::SizeLaws::nodes_of_form))]
pub fn form_size(pattern: &Pattern) -> u64
    requires { (n : ℕ) × (is_formed n pattern.now ≡ true) }
    ensures { (at : At) → result ≡ min (form_node_count (form_at at pattern.now)) (2 ^ 64 - 1) }
{
    form_nodes(pattern)
}

fn form_nodes(pattern: &Pattern) -> u64
    ensures { result ≡ min (form_nodes pattern.now) (2 ^ 64 - 1) }
{
    match pattern {
        Pattern::Var(_) | Pattern::Const { .. } => 1,
        Pattern::Node { args, .. } | Pattern::Lane { args, .. } => {
            let mut sum = own_nodes(pattern);
            for (n, arg) in args.as_slice().iter().enumerate() {
                sum = sum.saturating_add(counted(is_twice(pattern, n), form_nodes(arg)));
            }
            sum
        }
    }
}

/// The nodes of a formula but for its operands'.
fn own_nodes(pattern: &Pattern) -> u64
    ensures { result ≡ own_nodes pattern.now }
{
    match pattern {
        Pattern::Var(_) | Pattern::Const { .. } => 1,
        Pattern::Node { op, .. } => op_nodes(*op),
        Pattern::Lane { op, .. } => lane_nodes(*op),
    }
}

/// Whether operand n stands twice in the formula.
fn is_twice(pattern: &Pattern, n: usize) -> bool
    ensures { result ≡ is_twice pattern.now n }
{
    match pattern {
        Pattern::Node {
            op: Op::SelectEqual,
            ..
        }
        | Pattern::Lane {
            op: LaneName::SelEq,
            ..
        } => n != 2,
        _ => false,
    }
}

fn counted(twice: bool, nodes: u64) -> u64
    ensures { result ≡ min (counted twice nodes) (2 ^ 64 - 1) }
{
    if twice {
        nodes.saturating_add(nodes)
    } else {
        nodes
    }
}

fn op_nodes(op: Op) -> u64
    ensures { result ≡ op_nodes op }
{
    match op {
        Op::Cast
        | Op::Min
        | Op::Max
        | Op::SelectGreater
        | Op::Abs
        | Op::WideningAdd
        | Op::WideningSub
        | Op::WideningMul
        | Op::SaturatingCast => 1,
        Op::Add
        | Op::Sub
        | Op::Mul
        | Op::ShiftRight
        | Op::SelectEqual
        | Op::ExtendingAdd
        | Op::SaturatingAdd
        | Op::SaturatingSub
        | Op::Absd => 2,
        Op::ShiftLeft | Op::HalvingAdd => 3,
        Op::HalvingSub | Op::RoundingShr | Op::MulShr => 4,
        Op::RoundingHalvingAdd => 5,
        Op::RoundingMulShr => 6,
    }
}

fn lane_nodes(op: LaneName) -> u64
    ensures { result ≡ lane_nodes op }
{
    match op {
        LaneName::Widen => 0,
        LaneName::Min
        | LaneName::Max
        | LaneName::Abs
        | LaneName::SelGt
        | LaneName::Bits
        | LaneName::WideningAdd
        | LaneName::WideningSub
        | LaneName::WideningMul
        | LaneName::MulUs
        | LaneName::Narrow
        | LaneName::SatNarrow => 1,
        LaneName::Add
        | LaneName::Sub
        | LaneName::Mul
        | LaneName::SaturatingAdd
        | LaneName::SaturatingSub
        | LaneName::Absd
        | LaneName::Shr
        | LaneName::SelEq
        | LaneName::WidenShl
        | LaneName::ExtendingAdd
        | LaneName::WideningAbsd => 2,
        LaneName::Mla
        | LaneName::HalvingAdd
        | LaneName::Not
        | LaneName::Shl
        | LaneName::MulHigh
        | LaneName::WideningMla
        | LaneName::NarrowShr
        | LaneName::SatNarrowShr => 3,
        LaneName::HalvingSub | LaneName::RoundingShr | LaneName::MulQ => 4,
        LaneName::RoundingHalvingAdd | LaneName::NarrowRshr | LaneName::SatNarrowRshr => 5,
        LaneName::MulQr => 6,
        LaneName::MulHrs => 8,
    }
}
