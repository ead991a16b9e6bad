ghost use Rattle.std.specs.Prelude.{◌≡◌, ◌≤◌, length, IfOk};
ghost use Rattle.pf_rulefile.specs.Meaning.Says.{place_in};
ghost use Rattle.pf_rulefile.specs.Steps.Parts.{only, none_used, both_used, name_part, typed_part, joined_part, node_part, lane_part, one, both_patterns, node_items, lane_items};

use pf_laneops::LaneName;
use pf_rules::{Amount, Number, PatType, Pattern, Patterns, VarDecl, is_free, is_free_amount};
use pf_values::Op;
use sqlite_items::Items;
use std::alloc::{AllocError, Global};

const MOST_NODES: u64 = 64;

/// What is kept of a part of a side, or of several operands, whose text may be too long to be kept
/// as patterns.
#[derive(Drop)]
pub struct Part {
    /// How many nodes it has, or 2^64 - 1 where there are more.
    pub nodes: u64,
    /// Which of the declared variables stand in it.
    pub used: [bool; 8],
    /// Whether it has a name that isn't declared, or a lane operation that there isn't.
    pub unknown: bool,
    /// Whether it is a variable or a number.
    pub bare: bool,
    /// Whether k stands in it.
    pub has_k: bool,
    /// Its patterns, where they are known and have few enough nodes.
    pub patterns: Option<Patterns>,
}

/// The number of the variable of this name.
pub fn place_in(vars: &[VarDecl], word: &[u8]) -> Option<u8>
    requires { length vars.now ≤ 8 }
    ensures { result ≡ place_in 0 vars.now word.now }
{
    for (n, var) in vars.iter().enumerate() {
        if var.name.as_slice() == word {
            return Some(n as u8);
        }
    }
    None
}

fn only(n: u8) -> [bool; 8]
    ensures { result ≡ only n }
{
    [
        n == 0,
        n == 1,
        n == 2,
        n == 3,
        n == 4,
        n == 5,
        n == 6,
        n == 7,
    ]
}

fn none_used() -> [bool; 8]
    ensures { result ≡ none_used }
{
    [false, false, false, false, false, false, false, false]
}

fn both_used(a: [bool; 8], b: [bool; 8]) -> [bool; 8]
    ensures { result ≡ both_used a b }
{
    [
        a[0] || b[0],
        a[1] || b[1],
        a[2] || b[2],
        a[3] || b[3],
        a[4] || b[4],
        a[5] || b[5],
        a[6] || b[6],
        a[7] || b[7],
    ]
}

fn one(alloc: Global, pattern: Pattern) -> Result<Option<Patterns>, AllocError>
    ensures { IfOk result (λ r. r ≡ one pattern) }
{
    let mut items = Items::new(alloc);
    items.push(pattern)?;
    Ok(Some(items))
}

/// A name in a pattern.
pub fn name_part(alloc: Global, vars: &[VarDecl], word: &[u8]) -> Result<Part, AllocError>
    requires { length vars.now ≤ 8 }
    ensures { IfOk result (λ p. p ≡ name_part vars.now word.now) }
{
    let (nodes, bare, has_k) = (1, true, false);
    match place_in(vars, word) {
        Some(n) => Ok(Part {
            nodes,
            used: only(n),
            unknown: false,
            bare,
            has_k,
            patterns: one(alloc, Pattern::Var(n))?,
        }),
        None => Ok(Part {
            nodes,
            used: none_used(),
            unknown: true,
            bare,
            has_k,
            patterns: None,
        }),
    }
}

/// A typed number.
pub fn typed_part(alloc: Global, n: Number, ty: PatType) -> Result<Part, AllocError>
    ensures { IfOk result (λ p. p ≡ typed_part n ty) }
{
    let has_k = !is_free(&n);
    Ok(Part {
        nodes: 1,
        used: none_used(),
        unknown: false,
        bare: true,
        has_k,
        patterns: one(alloc, Pattern::Const { n, ty })?,
    })
}

/// The patterns of both, where there are both and they have so few nodes together.
fn both_patterns(
    nodes: u64,
    a: Option<Patterns>,
    b: Option<Patterns>,
) -> Result<Option<Patterns>, AllocError>
    ensures { IfOk result (λ r. r ≡ both_patterns nodes a b) }
{
    match (a, b) {
        (Some(a), Some(b)) if nodes <= MOST_NODES => {
            let mut items = a;
            items.append(b)?;
            Ok(Some(items))
        }
        _ => Ok(None),
    }
}

/// The operands of one, and then those of the other.
pub fn joined_part(a: Part, b: Part) -> Result<Part, AllocError>
    ensures { IfOk result (λ p. p ≡ joined_part a b) }
{
    let nodes = a.nodes.saturating_add(b.nodes);
    Ok(Part {
        nodes,
        used: both_used(a.used, b.used),
        unknown: a.unknown || b.unknown,
        bare: false,
        has_k: a.has_k || b.has_k,
        patterns: both_patterns(nodes, a.patterns, b.patterns)?,
    })
}

fn node_items(
    alloc: Global,
    nodes: u64,
    op: Op,
    to: Option<PatType>,
    k: Amount,
    args: Option<Patterns>,
) -> Result<Option<Patterns>, AllocError>
    ensures { IfOk result (λ r. r ≡ node_items nodes op to k args) }
{
    match args {
        Some(args) if nodes <= MOST_NODES => one(alloc, Pattern::Node { op, to, k, args }),
        _ => Ok(None),
    }
}

/// An operator over its operands.
pub fn node_part(
    alloc: Global,
    op: Op,
    to: Option<PatType>,
    k: Amount,
    args: Part,
) -> Result<Part, AllocError>
    ensures { IfOk result (λ p. p ≡ node_part op to k args) }
{
    let nodes = args.nodes.saturating_add(1);
    let has_k = args.has_k || !is_free_amount(&k);
    Ok(Part {
        nodes,
        used: args.used,
        unknown: args.unknown,
        bare: false,
        has_k,
        patterns: node_items(alloc, nodes, op, to, k, args.patterns)?,
    })
}

fn lane_items(
    alloc: Global,
    nodes: u64,
    op: Option<LaneName>,
    to: Option<PatType>,
    k: Amount,
    args: Option<Patterns>,
) -> Result<Option<Patterns>, AllocError>
    ensures { IfOk result (λ r. r ≡ lane_items nodes op to k args) }
{
    match (op, args) {
        (Some(op), Some(args)) if nodes <= MOST_NODES => {
            one(alloc, Pattern::Lane { op, to, k, args })
        }
        _ => Ok(None),
    }
}

/// A lane operation over its operands, or one that there isn't.
pub fn lane_part(
    alloc: Global,
    op: Option<LaneName>,
    to: Option<PatType>,
    k: Amount,
    args: Part,
) -> Result<Part, AllocError>
    ensures { IfOk result (λ p. p ≡ lane_part op to k args) }
{
    let nodes = args.nodes.saturating_add(1);
    let has_k = args.has_k || !is_free_amount(&k);
    Ok(Part {
        nodes,
        used: args.used,
        unknown: args.unknown || op.is_none(),
        bare: false,
        has_k,
        patterns: lane_items(alloc, nodes, op, to, k, args.patterns)?,
    })
}
