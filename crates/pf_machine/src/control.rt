ghost use Rattle.std.specs.Prelude.{◌≡◌, MatchOption, IsTrue, ◌↔◌, ◌<◌};
ghost use Rattle.pf_machine.specs.Meaning.Control.{IsControl, is_offset};

use pf_ints::Name;
use pf_text::is_name;
use std::marker::Model;

/// The general registers, by the numbers of their roles.
pub mod role {
    /// The table of pointers of the row.
    pub const TABLE: u8 = 0;
    /// How many pixels the row has.
    pub const COUNT: u8 = 1;
    /// The scratch memory.
    pub const SCRATCH: u8 = 2;
    /// The pixel at which the block begins.
    pub const PIXEL: u8 = 3;
    /// The row's own table, kept where another stands in its place.
    pub const KEPT: u8 = 4;
    /// The pointer of a load or a store.
    pub const POINTER: u8 = 5;
    /// A pixel that is copied.
    pub const VALUE: u8 = 6;
    /// The end of what is gone through.
    pub const END: u8 = 7;
}

/// Control instructions, over general registers by the numbers of their roles.
#[derive(Clone, Copy)]
pub enum Control {
    /// Loads a pointer, or the count, from entry number `entry` of a table of 8-byte entries.
    LoadPtr {
        to: u8,
        base: u8,
        entry: u8,
    },
    /// Stores a pointer in an entry of a table.
    StorePtr {
        base: u8,
        entry: u8,
        from: u8,
    },
    /// Sets a number.
    Imm {
        to: u8,
        n: u16,
    },
    /// Adds the number `by`, or takes it away where `down` holds.
    AddImm {
        to: u8,
        from: u8,
        down: bool,
        by: u32,
    },
    /// Adds two registers.
    AddReg {
        to: u8,
        left: u8,
        right: u8,
    },
    /// Loads one byte at an address, or two.
    LoadByte {
        to: u8,
        at: u8,
    },
    LoadHalf {
        to: u8,
        at: u8,
    },
    /// Stores the lowest byte at an address, or the two lowest.
    StoreByte {
        at: u8,
        from: u8,
    },
    StoreHalf {
        at: u8,
        from: u8,
    },
    /// Sets the flag where the left number is less than the right one, without signs.
    Compare {
        left: u8,
        right: u8,
    },
    /// Goes on at the label where the flag is set.
    Below {
        label: Name,
    },
    /// Goes on at the label.
    Jump {
        label: Name,
    },
    /// Ends the row.
    Return,
}

/// A control instruction whose registers, numbers and label are such as an instruction may have:
/// roles are 0 to 7; `AddImm` adds 0 to 4095 or a multiple of 4096 up to 16,773,120, or takes away
/// 1 to 4095; a label is a name as kernels have.
#[derive(Clone, Copy)]
pub struct Ctl {
    control: Control,
}

impl Model for Ctl {
    ghost use Rattle.pf_machine.specs.declared.control.Control.{Control};

    ghost Value = { Control };

    ghost use Rattle.pf_machine.specs.Meaning.Control.{IsControl};

    ghost view = { λ c. c.control };

    ghost invariant = { λ c. IsControl c.control };

    ghost inverse = { λ c. record { control = c } };
}

impl Ctl {
    /// The instruction that does this. Its registers, its numbers and its label have to be such as
    /// an instruction may have.
    pub fn new(control: Control) -> Ctl
        requires { IsControl control }
        ensures { result ≡ control }
    {
        Ctl { control }
    }

    /// What the instruction does.
    pub fn control(&self) -> Control
        ensures value { result ≡ self.now }
        ensures kept { IsControl self.now }
    {
        self.control
    }
}

fn is_role(register: u8) -> bool
    ensures { IsTrue result ↔ (register < 8) }
{
    register < 8
}

fn is_offset(down: bool, by: u32) -> bool
    ensures { result ≡ is_offset down by }
{
    if down {
        1 <= by && by <= 4095
    } else {
        by <= 4095 || (by % 4096 == 0 && by <= 16773120)
    }
}

fn is_control(control: Control) -> bool
    ensures { IsTrue result ↔ IsControl control }
{
    match control {
        Control::LoadPtr { to, base, .. } => is_role(to) && is_role(base),
        Control::StorePtr { base, from, .. } => is_role(base) && is_role(from),
        Control::Imm { to, .. } => is_role(to),
        Control::AddImm { to, from, down, by } => {
            is_role(to) && is_role(from) && is_offset(down, by)
        }
        Control::AddReg { to, left, right } => is_role(to) && is_role(left) && is_role(right),
        Control::LoadByte { to, at } => is_role(to) && is_role(at),
        Control::LoadHalf { to, at } => is_role(to) && is_role(at),
        Control::StoreByte { at, from } => is_role(at) && is_role(from),
        Control::StoreHalf { at, from } => is_role(at) && is_role(from),
        Control::Compare { left, right } => is_role(left) && is_role(right),
        Control::Below { label } => is_name(label.as_slice()),
        Control::Jump { label } => is_name(label.as_slice()),
        Control::Return => true,
    }
}

/// The control instruction, or None where its registers, its numbers or its label aren't such as
/// an instruction may have.
pub fn checked(control: Control) -> Option<Ctl>
    ensures { MatchOption result (IsControl control → ⊥) (λ c. c ≡ control) }
{
    let tested = control;
    if !is_control(tested) {
        return None;
    }
    Some(Ctl::new(control))
}
