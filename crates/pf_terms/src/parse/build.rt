ghost use Rattle.std.specs.Prelude.{◌≡◌, true, None, [], IfOk, OnOk};
ghost use Rattle.pf_terms.specs.Steps.Parsing.{is_unsigned, node_of, made, operands_joined, parser_begun, parser_ended, adopted, put, told, retold, parser_taken, atom_taken};
ghost use Rattle.pf_terms.specs.declared.parse.build.Build.{Build};

use crate::parse::stack::Stack;
use crate::parse::symbol::ParserSymbol;
use crate::parse::syntax_tree::{SyntaxTree, SyntaxTrees};
use crate::token::TokenKind;
use pf_ints::{LaneType, Name};
use pf_values::Op;
use sqlite_items::Items;
use std::alloc::{AllocError, Global};

/// What was begun, before its operands.
#[derive(Clone, Copy)]
pub enum Opened {
    Name(Name),
    Tap(Name, i64, i64),
    Node {
        op: Op,
        less: bool,
        ty: Option<LaneType>,
        k: i64,
    },
}

/// What was begun, with the operands that it has so far.
#[derive(Drop)]
pub struct Frame {
    pub opened: Opened,
    pub args: SyntaxTrees,
}

/// An expression while it is read.
#[derive(Drop)]
pub struct Build {
    /// What was begun and isn't whole yet, the last first.
    pub frames: Stack<Frame>,
    /// What is whole and no operand yet.
    pub ready: Option<SyntaxTree>,
}

impl Build {
    pub fn new(alloc: Global) -> Build
        ensures frames { result.frames ≡ [] }
        ensures ready { result.ready ≡ None }
    {
        Build {
            frames: Stack::new(alloc),
            ready: None,
        }
    }

    /// Something begins, and what is ready is its first operand.
    fn begin(&mut self, alloc: Global, opened: Opened) -> Result<(), AllocError>
        ensures { OnOk result (self.new ≡ parser_begun opened self.old) }
    {
        let args = operands_joined(Items::new(alloc), self.ready.take())?;
        self.frames.push(Frame { opened, args })
    }

    /// What is ready becomes an operand of what was begun last.
    fn adopt(&mut self) -> Result<(), AllocError>
        ensures { OnOk result (self.new ≡ adopted self.old) }
    {
        match self.frames.pop() {
            None => Ok(()),
            Some(Frame { opened, args }) => {
                let args = operands_joined(args, self.ready.take())?;
                self.frames.push(Frame { opened, args })
            }
        }
    }

    /// What was begun last is whole.
    pub fn end(&mut self) -> Result<(), AllocError>
        ensures { OnOk result (self.new ≡ parser_ended self.old) }
    {
        match self.frames.pop() {
            None => Ok(()),
            Some(Frame { opened, args }) => {
                let args = operands_joined(args, self.ready.take())?;
                self.ready = Some(made(opened, args));
                Ok(())
            }
        }
    }

    fn put(&mut self, tree: SyntaxTree)
        ensures { self.new ≡ put tree self.old }
    {
        self.ready = Some(tree);
    }

    // What the token tells of what was begun last.
    fn tell(&mut self, symbol: ParserSymbol, kind: TokenKind) -> Result<(), AllocError>
        requires { is_unsigned kind ≡ true }
        ensures { OnOk result (self.new ≡ retold symbol kind self.old) }
    {
        match self.frames.pop() {
            None => Ok(()),
            Some(Frame { opened, args }) => {
                let opened = told(symbol, kind, opened);
                self.frames.push(Frame { opened, args })
            }
        }
    }

    /// The symbol has taken the token.
    pub fn take(
        &mut self,
        alloc: Global,
        symbol: ParserSymbol,
        kind: TokenKind,
    ) -> Result<(), AllocError>
        requires { is_unsigned kind ≡ true }
        ensures { OnOk result (self.new ≡ parser_taken symbol kind self.old) }
    {
        match (symbol, kind) {
            (ParserSymbol::Atom, _) => self.take_atom(alloc, kind),
            (ParserSymbol::Negated, TokenKind::Typed(n, ty)) => {
                self.put(SyntaxTree::Number(-n, ty));
                Ok(())
            }
            (ParserSymbol::Factors, _) => self.begin(alloc, node_of(Op::Mul)),
            (ParserSymbol::Summands, TokenKind::Plus) => self.begin(alloc, node_of(Op::Add)),
            (ParserSymbol::Summands, _) => self.begin(alloc, node_of(Op::Sub)),
            (ParserSymbol::Shifts, TokenKind::ShiftLeft) => self.begin(
                alloc,
                node_of(Op::ShiftLeft),
            ),
            (ParserSymbol::Shifts, _) => self.begin(alloc, node_of(Op::ShiftRight)),
            (ParserSymbol::Comma, _) => self.adopt(),
            (ParserSymbol::Comparison, _) => {
                self.adopt()?;
                self.tell(symbol, kind)
            }
            (ParserSymbol::Open, _) => Ok(()),
            (ParserSymbol::Close, _) => Ok(()),
            (ParserSymbol::CloseSquare, _) => Ok(()),
            _ => self.tell(symbol, kind),
        }
    }

    fn take_atom(&mut self, alloc: Global, kind: TokenKind) -> Result<(), AllocError>
        ensures { OnOk result (self.new ≡ atom_taken kind self.old) }
    {
        match kind {
            TokenKind::Typed(n, ty) => {
                self.put(SyntaxTree::Number(n, ty));
                Ok(())
            }
            TokenKind::Name(name) => self.begin(alloc, Opened::Name(name)),
            TokenKind::TypeWord(ty) => self.begin(
                alloc,
                Opened::Node {
                    op: Op::Cast,
                    less: false,
                    ty: Some(ty),
                    k: 0,
                },
            ),
            TokenKind::Word(op) => self.begin(alloc, node_of(op)),
            TokenKind::Choose => self.begin(alloc, node_of(Op::SelectGreater)),
            _ => Ok(()),
        }
    }
}

fn node_of(op: Op) -> Opened
    ensures { result ≡ node_of op }
{
    Opened::Node {
        op,
        less: false,
        ty: None,
        k: 0,
    }
}

fn made(opened: Opened, args: SyntaxTrees) -> SyntaxTree
    ensures { result ≡ made opened args }
{
    match opened {
        Opened::Name(name) => SyntaxTree::Name(name),
        Opened::Tap(name, dx, dy) => SyntaxTree::Tap(name, dx, dy),
        Opened::Node { op, less, ty, k } => SyntaxTree::Node {
            op,
            less,
            ty,
            k,
            args,
        },
    }
}

fn operands_joined(
    mut args: SyntaxTrees,
    ready: Option<SyntaxTree>,
) -> Result<SyntaxTrees, AllocError>
    ensures { IfOk result (λ all. all ≡ operands_joined args ready) }
{
    match ready {
        None => Ok(args),
        Some(tree) => {
            args.push(tree)?;
            Ok(args)
        }
    }
}

fn told(symbol: ParserSymbol, kind: TokenKind, opened: Opened) -> Opened
    requires { is_unsigned kind ≡ true }
    ensures { result ≡ told symbol kind opened }
{
    match (symbol, kind, opened) {
        (ParserSymbol::Offsets, _, Opened::Name(name)) => Opened::Tap(name, 0, 0),
        (ParserSymbol::Column, TokenKind::Number(n), Opened::Tap(name, _, dy)) => Opened::Tap(
            name, n, dy,
        ),
        (ParserSymbol::NegatedColumn, TokenKind::Number(n), Opened::Tap(name, _, dy)) =>
            Opened::Tap(name, -n, dy),
        (ParserSymbol::Row, TokenKind::Number(n), Opened::Tap(name, dx, _)) => Opened::Tap(
            name, dx, n,
        ),
        (ParserSymbol::NegatedRow, TokenKind::Number(n), Opened::Tap(name, dx, _)) => Opened::Tap(
            name, dx, -n,
        ),
        (ParserSymbol::Digits, TokenKind::Number(n), Opened::Node { op, less, ty, .. }) =>
            Opened::Node { op, less, ty, k: n },
        (ParserSymbol::TypeName, TokenKind::TypeWord(ty), Opened::Node { op, less, k, .. }) =>
            Opened::Node {
                op,
                less,
                ty: Some(ty),
                k,
            },
        (ParserSymbol::Comparison, TokenKind::Greater, Opened::Node { ty, k, .. }) => Opened::Node {
            op: Op::SelectGreater,
            less: false,
            ty,
            k,
        },
        (ParserSymbol::Comparison, TokenKind::Less, Opened::Node { ty, k, .. }) => Opened::Node {
            op: Op::SelectGreater,
            less: true,
            ty,
            k,
        },
        (ParserSymbol::Comparison, TokenKind::Same, Opened::Node { ty, k, .. }) => Opened::Node {
            op: Op::SelectEqual,
            less: false,
            ty,
            k,
        },
        _ => opened,
    }
}
