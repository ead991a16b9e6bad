ghost use Rattle.std.specs.Prelude.{◌≡◌};
ghost use Rattle.pf_machine.specs.Meaning.Programs.{IsProgram};

use crate::code::{Code, LabelList};
use crate::isa::Isa;
use pf_ints::LaneType;
use pf_values::{Definitions, ImageList, TapList};
use std::marker::Model;

/// What a text says before its code.
#[derive(Drop)]
pub struct Head {
    pub images: ImageList,
    pub taps: TapList,
    /// The type of the output's pixels.
    pub out_ty: LaneType,
    /// Bytes of scratch memory.
    pub scratch: u32,
    /// The lifted terms, of which the last is the output's and is named `out`.
    pub lifted: Definitions,
    /// The cost of the lifted terms.
    pub cost: u64,
}

/// A program for the machine of a set of instructions.
#[derive(Drop)]
pub struct Program<I: Isa> {
    head: Head,
    code: Code<I>,
    labels: LabelList,
}

impl<I: Isa> Model for Program<I> {
    ghost use Rattle.pf_machine.specs.Meaning.Programs.{ProgramOf, IsProgram};
    ghost use Rattle.pf_values.specs.contracts.term.Term as term;
    ghost use Rattle.std.specs.Coded.{codes};

    ghost Value = { ProgramOf I I.Op };

    ghost coded = { Prim.hlevel (codes, term.the_row.coded) };

    ghost view = { λ p. record { head = p.head; code = p.code; labels = p.labels } };

    ghost invariant = { λ p. IsProgram I.table (record { head = p.head; code = p.code; labels = p.labels }) };
}

impl<I: Isa> Program<I> {
    /// The program of a head, instructions and labels, as they stand in its text. They have to be
    /// a program: each jump goes to one of the labels, which have different names and stand in the
    /// order of their places, and the last instruction is a jump or the return.
    pub fn new(head: Head, code: Code<I>, labels: LabelList) -> Program<I>
        requires { IsProgram I.table (record { head = head; code = code; labels = labels }) }
        ensures { result ≡ record { head = head; code = code; labels = labels } }
    {
        Program { head, code, labels }
    }

    /// What the text says before the code.
    pub fn head(&self) -> &Head
        ensures value { result.now ≡ self.now.head }
        ensures kept { IsProgram I.table self.now }
    {
        &self.head
    }

    /// The instructions, in order.
    pub fn code(&self) -> &Code<I>
        ensures { result.now ≡ self.now.code }
    {
        &self.code
    }

    /// The labels, in the order of the text.
    pub fn labels(&self) -> &LabelList
        ensures { result.now ≡ self.now.labels }
    {
        &self.labels
    }
}
