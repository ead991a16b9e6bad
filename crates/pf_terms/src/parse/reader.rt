ghost use Rattle.std.specs.Prelude.{◌≡◌, ◌∷◌, [], None, Some, true, false, IfOk, OnOk, MatchOption};
ghost use Rattle.pf_terms.specs.Steps.Parsing.{is_unsigned, expression_symbols, may_be_none, passes, passed, Advances, finished, Finishes};
ghost use Rattle.pf_terms.specs.Meaning.SyntaxTrees.{bracket_limit, nested};
ghost use Rattle.pf_terms.specs.Steps.Reading.{minus_of, is_own, Takes, tree_of_build};

use crate::parse::build::Build;
use crate::parse::stack::Stack;
use crate::parse::symbol::ParserSymbol;
use crate::parse::syntax_tree::SyntaxTree;
use crate::parse::table::{may_be_none, parser_after, passes};
use crate::token::TokenKind;
use std::alloc::{AllocError, Global};

const BRACKET_LIMIT: usize = 1024;

/// An expression while its tokens are read from the left.
#[derive(Drop)]
pub struct Reader {
    /// What is to come, the next first.
    pub symbols: Stack<ParserSymbol>,
    pub build: Build,
    /// How many round brackets are open.
    pub depth: usize,
    /// What took the last token, where that is a minus.
    pub minus: Option<ParserSymbol>,
}

impl Reader {
    /// A whole expression is to come.
    pub fn new(alloc: Global) -> Result<Reader, AllocError>
        ensures symbols { IfOk result (λ r. r.symbols ≡ expression_symbols) }
        ensures frames { IfOk result (λ r. r.build.frames ≡ []) }
        ensures ready { IfOk result (λ r. r.build.ready ≡ None) }
        ensures depth { IfOk result (λ r. r.depth ≡ 0) }
        ensures minus { IfOk result (λ r. r.minus ≡ None) }
    {
        let mut symbols = Stack::new(alloc);
        symbols.push_all(&[
            ParserSymbol::Atom,
            ParserSymbol::Factors,
            ParserSymbol::Summands,
            ParserSymbol::Shifts,
        ])?;
        Ok(Reader {
            symbols,
            build: Build::new(alloc),
            depth: 0,
            minus: None,
        })
    }

    /// Takes the next token: whether it fits.
    pub fn take(&mut self, alloc: Global, kind: &TokenKind) -> Result<bool, AllocError>
        requires { is_unsigned kind.now ≡ true }
        ensures { IfOk result (λ fits. Takes fits self.old kind.now self.new) }
    {
        match nested(self.depth, kind) {
            None => Ok(false),
            Some(depth) => match advance(alloc, &mut self.symbols, &mut self.build, kind)? {
                None => Ok(false),
                Some(taker) => {
                    self.depth = depth;
                    self.minus = minus_of(taker, kind);
                    Ok(true)
                }
            },
        }
    }

    /// Whether a minus that was taken last is this number's own.
    pub fn is_own(&self, kind: &TokenKind) -> bool
        ensures { result ≡ is_own self.now.minus kind.now }
    {
        match (self.minus, *kind) {
            (Some(ParserSymbol::Atom), TokenKind::Typed(_, _)) => true,
            (Some(ParserSymbol::Atom), TokenKind::Long(Some(_))) => true,
            (Some(ParserSymbol::Column), TokenKind::Long(None)) => true,
            (Some(ParserSymbol::Row), TokenKind::Long(None)) => true,
            _ => false,
        }
    }

    /// The expression, or None where more has to come.
    pub fn finish(self) -> Result<Option<SyntaxTree>, AllocError>
        ensures { IfOk result (λ found. found ≡ tree_of_build (finished self.symbols self.build)) }
    {
        let mut symbols = self.symbols;
        let mut build = self.build;
        if finish(&mut symbols, &mut build)? {
            Ok(build.ready.take())
        } else {
            Ok(None)
        }
    }
}

// How many round brackets are open behind the token, or None where it is nested too deep.
#[tactic(auto, unfolding(crate::specs::Meaning::SyntaxTrees::bracket_limit))]
fn nested(depth: usize, kind: &TokenKind) -> Option<usize>
    ensures { result ≡ nested depth kind.now }
{
    match *kind {
        TokenKind::Open => if depth < BRACKET_LIMIT {
            Some(depth + 1)
        } else {
            None
        },
        TokenKind::Close => Some(depth.saturating_sub(1)),
        _ => Some(depth),
    }
}

fn minus_of(taker: ParserSymbol, kind: &TokenKind) -> Option<ParserSymbol>
    ensures { result ≡ minus_of taker kind.now }
{
    match *kind {
        TokenKind::Minus => Some(taker),
        _ => None,
    }
}

// The symbol that takes the token, or None where it doesn't fit.
fn advance(
    alloc: Global,
    symbols: &mut Stack<ParserSymbol>,
    build: &mut Build,
    kind: &TokenKind,
) -> Result<Option<ParserSymbol>, AllocError>
    requires unsigned { is_unsigned kind.now ≡ true }
    ensures { IfOk result (λ taker. Advances taker symbols.old build.old kind.now symbols.new build.new) }
{
    while let Some(symbol) = symbols.pop() {
        if !passes(symbol, kind) {
            return take(alloc, symbols, build, symbol, kind);
        }
        pass(build, symbol)?;
    }
    Ok(None)
}

// Takes the token at the symbol that was first.
fn take(
    alloc: Global,
    symbols: &mut Stack<ParserSymbol>,
    build: &mut Build,
    symbol: ParserSymbol,
    kind: &TokenKind,
) -> Result<Option<ParserSymbol>, AllocError>
    requires unsigned { is_unsigned kind.now ≡ true }
    requires here { passes symbol kind.now ≡ false }
    ensures { IfOk result (λ taker. Advances taker (symbol ∷ symbols.old) build.old kind.now symbols.new build.new) }
{
    match parser_after(symbol, kind) {
        None => Ok(None),
        Some(new) => {
            symbols.push_all(new)?;
            build.take(alloc, symbol, *kind)?;
            Ok(Some(symbol))
        }
    }
}

// Whether nothing more has to come.
fn finish(symbols: &mut Stack<ParserSymbol>, build: &mut Build) -> Result<bool, AllocError>
    ensures { IfOk result (λ done. Finishes done (finished symbols.old build.old) build.new) }
{
    while let Some(symbol) = symbols.pop() {
        if !may_be_none(symbol) {
            return Ok(false);
        }
        pass(build, symbol)?;
    }
    Ok(true)
}

fn pass(build: &mut Build, symbol: ParserSymbol) -> Result<(), AllocError>
    ensures { OnOk result (build.new ≡ passed symbol build.old) }
{
    match symbol {
        ParserSymbol::End => build.end(),
        _ => Ok(()),
    }
}
