ghost use Rattle.std.specs.Prelude.{◌≡◌, ◌≢◌, ◌<◌, ◌≤◌, ◌+◌, ◌^◌, length, true, None, IfOk, IfErr, OnOk, OnErr};
ghost use Rattle.pf_terms.specs.declared.meaning.ReadFault.{ReadFault};
ghost use Rattle.pf_values.specs.declared.names.Names.{Names};
ghost use Rattle.pf_values.specs.declared.term.Term.{Term};
ghost use Rattle.pf_terms.specs.Steps.Building.{is_formed_tree, with_these, past_limit, IsFaultOrMemory};
ghost use Rattle.pf_terms.specs.Meaning.KernelNames.{IsNames};
ghost use Rattle.pf_terms.specs.Meaning.Meanings.{IsTermText, IsTermOr, IsReadFault, IsReadFaultOr, IsKnown, IsTyped, Means, first_far, names_after, term_of};
ghost use Rattle.pf_values.specs.Meaning.Terms.{IsWellTyped, depth_of};
ghost use Rattle.pf_terms.specs.Meaning.TermTexts.{term_text};
ghost use Rattle.pf_values.specs.Meaning.NamedTerms.{is_named};

use crate::lookup::{first_far, first_unknown};
use crate::parse::read::read_draft;
use crate::parse::syntax_tree::{SyntaxTree, TreeFault};
use crate::resolve::{NodeFault, resolved};
use crate::wide_taps::{WideTap, WideTaps, add_uses, taps_of, wide_taps_of};
use pf_ints::{LaneType, Name};
use pf_values::{LimitKind, Names, Term};
use std::alloc::{AllocError, AllocFailed, Global};

/// The most taps that a kernel has.
const MOST_TAPS: usize = 64;

/// Why a text is no term, judged in the order of these causes, but that types and amounts are judged
/// together, node by node in post-order.
#[derive(Debug, Drop)]
pub enum ReadFault {
    /// No expression begins as the text does up to and with the token at this column, counted in
    /// bytes from 1; or the text ends there too early.
    Syntax { column: u64 },
    /// The first name that is unknown.
    Name { name: Name },
    /// At the first node in post-order that has a fault an operand's type is `got` where `want` is
    /// asked for.
    Types { want: LaneType, got: LaneType },
    /// That node has an amount that its operator doesn't take.
    Amount { amount: i128 },
    /// Of `LimitKind::Taps` the number of taps with all new ones of the text, above 64, and of
    /// `LimitKind::Offset` the first offset outside -64 to 64.
    Limit { what: LimitKind, count: i64 },
    /// Want of memory.
    Memory,
}

impl From<AllocError> for ReadFault {
    ghost use Rattle.pf_terms.specs.declared.meaning.ReadFault.TheVariants.{Memory};

    ghost from_gives = { λ _ e. e ≡ Memory };

    fn from(_error: AllocError) -> ReadFault {
        ReadFault::Memory
    }
}

impl<T: Drop> From<AllocFailed<T>> for ReadFault {
    ghost use Rattle.pf_terms.specs.declared.meaning.ReadFault.TheVariants.{Memory};

    ghost from_gives = { λ _ e. e ≡ Memory };

    fn from(_error: AllocFailed<T>) -> ReadFault {
        ReadFault::Memory
    }
}

impl From<NodeFault> for ReadFault {
    ghost use Rattle.pf_terms.specs.Steps.Building.{told_as};

    ghost from_gives = { λ fault e. e ≡ told_as fault };

    fn from(fault: NodeFault) -> ReadFault {
        match fault {
            NodeFault::Types { want, got } => ReadFault::Types { want, got },
            NodeFault::Amount { amount } => ReadFault::Amount {
                amount: amount as i128,
            },
            NodeFault::Memory => ReadFault::Memory,
        }
    }
}

/// The term that a text means. Each new tap of the text is added at the end of `names.taps`, in the
/// order of their first use by the term; `select(a < b, x, y)` is read as `select(b > a, x, y)`.
/// After a refusal the names are as before.
pub fn read_term(alloc: Global, text: &[u8], names: &mut Names) -> Result<Term, ReadFault>
    requires { IsNames names.old }
    // What is read is what the text means.
    ensures read { IfOk result (λ t. IsTermText names.old text.now t names.new) }
    // What a text means is read, unless memory runs out.
    ensures only { (t : Term) (after : Names) → IsTermText names.old text.now t after → IsTermOr t after result names.new }
    // What was printed of a term is read as the term, and no name is new.
    ensures back { (t : Term) → IsWellTyped t → is_named names.old t ≡ true → depth_of t ≤ 1024 → text.now ≡ term_text names.old t → IsTermOr t names.old result names.new }
    // What is told is the text's first fault, or want of memory.
    ensures fault { IfErr result (IsReadFault names.old text.now) }
    // The first fault of a text is told, unless memory runs out.
    ensures told { (fault : ReadFault) → fault ≢ ReadFault.Memory → IsReadFault names.old text.now fault → IsReadFaultOr fault result }
    ensures kept { OnErr result (names.new ≡ names.old) }
    ensures typed { IfOk result IsWellTyped }
    ensures named { IfOk result (λ t. is_named names.new t ≡ true) }
    ensures names { OnOk result (IsNames names.new) }
{
    match read_draft(alloc, text) {
        Ok(tree) => meaning_of(alloc, &tree, names),
        Err(TreeFault::Syntax { at }) => Err(ReadFault::Syntax {
            column: column_of(text, at),
        }),
        Err(TreeFault::Memory) => Err(ReadFault::Memory),
    }
}

// The column of the byte at a place that is counted from 0.
fn column_of(text: &[u8], place: usize) -> u64
    requires { place ≤ length text.now }
    ensures { result ≡ place + 1 }
{
    text[..place].len() as u64 + 1
}

// The term of an expression, whose new taps are added to the names.
fn meaning_of(alloc: Global, tree: &SyntaxTree, names: &mut Names) -> Result<Term, ReadFault>
    requires names { IsNames names.old }
    requires formed { is_formed_tree tree.now ≡ true }
    ensures read { IfOk result (λ t. Means names.old tree.now t names.new) }
    ensures fault { IfErr result (IsFaultOrMemory names.old tree.now) }
    ensures kept { OnErr result (names.new ≡ names.old) }
{
    if let Some(name) = first_unknown(tree, names) {
        return Err(ReadFault::Name { name });
    }
    let wide_taps = all_wide_taps(alloc, tree, names)?;
    let wide_taps = wide_taps.as_slice();
    let term = known_term(alloc, tree, names, wide_taps)?;
    names.taps = taps_of(alloc, wide_taps)?;
    Ok(term)
}

// The term of an expression whose names are known, where the taps with its new ones are these.
fn known_term(
    alloc: Global,
    tree: &SyntaxTree,
    names: &Names,
    wide_taps: &[WideTap],
) -> Result<Term, ReadFault>
    requires names { IsNames names.now }
    requires formed { is_formed_tree tree.now ≡ true }
    requires known { IsKnown names.now tree.now }
    requires taps { wide_taps.now ≡ (names_after names.now tree.now).taps }
    ensures made { IfOk result (λ t. t ≡ term_of (with_these names.now wide_taps.now) tree.now) }
    ensures typed { OnOk result (IsTyped names.now tree.now) }
    ensures few { OnOk result (length wide_taps.now ≤ 64) }
    ensures near { OnOk result (first_far tree.now ≡ None) }
    ensures fault { IfErr result (IsFaultOrMemory names.now tree.now) }
{
    let count = wide_taps.len();
    let term = resolved(alloc, tree, names, &wide_taps[..count.min(MOST_TAPS)])?;
    match past_limit(tree, count) {
        Some(fault) => Err(fault),
        None => Ok(term),
    }
}

fn past_limit(tree: &SyntaxTree, taps: usize) -> Option<ReadFault>
    requires { taps < 2 ^ 63 }
    ensures { result ≡ past_limit taps (first_far tree.now) }
{
    if MOST_TAPS < taps {
        return Some(ReadFault::Limit {
            what: LimitKind::Taps,
            count: taps as i64,
        });
    }
    let offset = first_far(tree)?;
    Some(ReadFault::Limit {
        what: LimitKind::Offset,
        count: offset,
    })
}

// The taps of the names with all new ones of the syntax tree, whatever their number and offsets.
fn all_wide_taps(alloc: Global, tree: &SyntaxTree, names: &Names) -> Result<WideTaps, AllocError>
    requires few { length names.now.images ≤ 8 }
    requires formed { is_formed_tree tree.now ≡ true }
    ensures { IfOk result (λ wide_taps. wide_taps ≡ (names_after names.now tree.now).taps) }
{
    let mut wide_taps = wide_taps_of(alloc, names.taps.as_slice())?;
    add_uses(&mut wide_taps, tree, &names.images)?;
    Ok(wide_taps)
}
