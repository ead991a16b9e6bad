ghost use Rattle.std.specs.Prelude.{◌≡◌, IfOk, count_by};
ghost use Rattle.pf_terms.specs.declared.token.Token.{Token};
ghost use Rattle.pf_isa.specs.Steps.NodeTokens.{makes_node, HasNodes};

use pf_terms::{Token, TokenKind, tokens};
use std::alloc::{AllocError, Global};

/// How many tokens of the text make a node of a term each; so many nodes at least has the term that
/// the text means. Signs between operands and words of types aren't counted.
pub fn fewest_nodes(alloc: Global, text: &[u8]) -> Result<usize, AllocError>
    ensures { IfOk result (HasNodes text.now) }
{
    let tokens = tokens(alloc, text)?;
    Ok(node_tokens(tokens.as_slice()))
}

fn node_tokens(tokens: &[Token]) -> usize
    ensures { result ≡ count_by (λ (t : Token). makes_node t.kind) tokens.now }
{
    tokens.iter().filter(|token| makes_node(token.kind)).count()
}

fn makes_node(kind: TokenKind) -> bool
    ensures { result ≡ makes_node kind }
{
    match kind {
        TokenKind::Typed(..)
        | TokenKind::Name(_)
        | TokenKind::Word(_)
        | TokenKind::Choose
        | TokenKind::ShiftLeft
        | TokenKind::ShiftRight => true,
        _ => false,
    }
}
