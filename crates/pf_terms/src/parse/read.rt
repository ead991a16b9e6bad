ghost use Rattle.std.specs.Prelude.{◌≡◌, ℕ, true, All, IfOk, IfErr};
ghost use Rattle.pf_terms.specs.declared.parse.syntax_tree.SyntaxTree.{SyntaxTree};
ghost use Rattle.pf_terms.specs.Steps.Parsing.{is_unsigned};
ghost use Rattle.pf_terms.specs.Meaning.Tokens.{token_place};
ghost use Rattle.pf_terms.specs.Meaning.SyntaxTrees.{IsTreeText, IsTreeOr, IsSyntaxFault, IsSyntaxOr, IsRefusal};
ghost use Rattle.pf_terms.specs.Steps.Reading.{fault_place, IsTreeOf, IsRefusalOf};

use crate::lexer::tokens;
use crate::parse::reader::Reader;
use crate::parse::syntax_tree::{SyntaxTree, TreeFault};
use crate::token::Token;
use std::alloc::Global;

/// The expression that a text spells, as it is written.
///
/// A fault stands at the first byte of the first token with which no expression begins, or one past
/// the last token where the text ends too early. A number outside its type or of more than 10
/// digits is told at its first byte, its own `-` included, and round brackets that are nested more
/// than 1,024 deep at the bracket that passes this depth.
pub fn read_draft(alloc: Global, text: &[u8]) -> Result<SyntaxTree, TreeFault>
    // What is read is spelled so.
    ensures found { IfOk result (λ d. IsTreeText text.now d) }
    // What is spelled so is read, unless memory runs out.
    ensures only { (d : SyntaxTree) → IsTreeText text.now d → IsTreeOr d result }
    // A fault stands where it is told.
    ensures fault { IfErr result (IsRefusal text.now) }
    // Where a fault stands, it is told, unless memory runs out.
    ensures told { (at : ℕ) → IsSyntaxFault text.now at → IsSyntaxOr at result }
{
    let tokens = tokens(alloc, text)?;
    read_tokens(alloc, tokens.as_slice())
}

// The expression that the tokens spell, or their first fault.
fn read_tokens(alloc: Global, tokens: &[Token]) -> Result<SyntaxTree, TreeFault>
    requires { All (λ t. is_unsigned t.kind ≡ true) tokens.now }
    ensures found { IfOk result (IsTreeOf tokens.now) }
    ensures fault { IfErr result (IsRefusalOf tokens.now) }
{
    let mut reader = Reader::new(alloc)?;
    for (n, token) in tokens.iter().enumerate() {
        if !reader.take(alloc, &token.kind)? {
            let at = fault_place(tokens, n, reader.is_own(&token.kind));
            return Err(TreeFault::Syntax { at });
        }
    }
    match reader.finish()? {
        Some(tree) => Ok(tree),
        None => Err(TreeFault::Syntax {
            at: token_place(tokens, tokens.len()),
        }),
    }
}

fn fault_place(tokens: &[Token], n: usize, own: bool) -> usize
    ensures { result ≡ fault_place tokens.now n own }
{
    if own {
        token_place(tokens, n.saturating_sub(1))
    } else {
        token_place(tokens, n)
    }
}

fn token_place(tokens: &[Token], n: usize) -> usize
    ensures { result ≡ token_place tokens.now n }
{
    match tokens.get(n) {
        Some(token) => token.start,
        None => match tokens.last() {
            Some(token) => token.end,
            None => 0,
        },
    }
}
