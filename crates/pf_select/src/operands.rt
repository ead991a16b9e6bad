ghost use Rattle.std.specs.Prelude.{◌≡◌, ◌↔◌, ◌<◌, ℕ, All, MatchOption, length, true};
ghost use Rattle.pf_select.specs.Meaning.MinOfTaps.{byte_type, tap_term, min_term, AreTapsOf, IsMinOfTaps};

use pf_ints::LaneType;
use pf_kernel::Kernel;
use pf_terms::{ImageDecl, Leaf, Op, Tap, Term};

/// The numbers of two taps.
#[derive(Clone, Copy, Debug)]
pub struct Operands {
    pub first: u8,
    pub second: u8,
}

fn is_byte(ty: LaneType) -> bool
    ensures { (result ≡ true) ↔ (ty ≡ byte_type) }
{
    ty == LaneType::U8
}

/// Whether the taps are pixels of this type.
pub fn are_taps_of(ty: LaneType, images: &[ImageDecl], taps: &[Tap]) -> bool
    requires { All (λ t. t.image < length images.now) taps.now }
    ensures { (result ≡ true) ↔ AreTapsOf ty images.now taps.now }
{
    taps.iter()
        .all(|tap| images[usize::from(tap.image)].ty == ty)
}

/// The tap that a term is, where it is one of u8.
fn tap_of(term: &Term) -> Option<u8>
    ensures { MatchOption result ((n : ℕ) → term.now ≡ tap_term byte_type n → ⊥) (λ n. term.now ≡ tap_term byte_type n) }
{
    match term {
        Term::Leaf {
            leaf: Leaf::Tap(tap),
            ty,
        } if is_byte(*ty) => Some(*tap),
        _ => None,
    }
}

/// The taps that a term is the lesser of.
fn taps_of(term: &Term) -> Option<Operands>
    ensures { MatchOption result ((m n : ℕ) → term.now ≡ min_term byte_type m n → ⊥)
        (λ o. term.now ≡ min_term byte_type o.first o.second) }
{
    let Term::Node {
        op: Op::Min,
        ty,
        k: 0,
        args,
    } = term
    else {
        return None;
    };
    let [first, second] = args.as_slice() else {
        return None;
    };
    if !is_byte(*ty) {
        return None;
    }
    let first = tap_of(first)?;
    let second = tap_of(second)?;
    Some(Operands { first, second })
}

/// The taps that a kernel's output is the lesser of, where it has no definition and its taps and
/// its output are of u8.
#[tactic(auto, using(crate::proofs::HeadLaws::taps_known))]
pub fn operands_of(kernel: &Kernel) -> Option<Operands>
    ensures { MatchOption result ((m n : ℕ) → IsMinOfTaps kernel.now.source m n → ⊥)
        (λ o. IsMinOfTaps kernel.now.source o.first o.second) }
{
    let taps = kernel.names().taps.as_slice();
    if !kernel.defs().is_empty()
        || !is_byte(kernel.out_ty())
        || !are_taps_of(LaneType::U8, kernel.images().as_slice(), taps)
    {
        return None;
    }
    taps_of(kernel.out())
}
