ghost use Rattle.std.specs.Prelude.{◌≡◌};
ghost use Rattle.pf_machine.specs.Steps.Places.{jump_label};

use crate::control::{Control, Ctl};
use crate::isa::Isa;
use pf_ints::{Name, Sequence};

/// An instruction of a program.
#[derive(Drop)]
pub enum Line<I: Isa> {
    Vector(I::Op),
    Control(Ctl),
}

/// The instructions of a program, in order.
pub type Code<I> = Sequence<Line<I>>;

/// A place in code that a jump may name.
#[derive(Clone, Copy)]
pub struct Label {
    pub name: Name,
    /// How many instructions stand before it.
    pub before: u64,
}

/// The labels of a program, in the order of the text.
pub type LabelList = Sequence<Label>;

/// The label that the instruction may jump to, or None where it is no jump.
pub fn jump_label<I: Isa>(line: &Line<I>) -> Option<Name>
    ensures { result ≡ jump_label line.now }
{
    match line {
        Line::Vector(_) => None,
        Line::Control(c) => match c.control() {
            Control::Below { label } | Control::Jump { label } => Some(label),
            _ => None,
        },
    }
}
