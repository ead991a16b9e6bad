ghost use Rattle.std.specs.Prelude.{◌≡◌, ◌<◌, ◌≤◌, ◌/◌, ◌%◌, not, true, length, slice_index};
ghost use Rattle.pf_tables.specs.Meaning.Sets.{general};
ghost use Rattle.pf_tables.specs.Meaning.Lines.{is_pages, control_place, control_numbers, two_registers, store_pointer_numbers, role, role_at, store_pointer, made_by_shape};
ghost use Rattle.pf_tables.specs.Steps.ControlShapes.{is_control};

use crate::instruction::Instruction;
use crate::row::{Shape, place};
use crate::set::Rows;
use pf_frames::{Numbers, TableLine};
use pf_machine::Control;

type Line = TableLine<Instruction>;

/// The number of the general register of a role.
pub fn general<R: Rows>(role: u8) -> u32
    ensures { result ≡ general R.set role }
{
    if R::style().packets && role == 7 {
        8
    } else {
        u32::from(role)
    }
}

fn is_pages<R: Rows>(down: bool, by: u32) -> bool
    ensures { result ≡ is_pages R.set down by }
{
    !down && R::style().adds_pages && by > 4095
}

/// The place of a control instruction's row.
pub fn control_place<R: Rows>(control: Control) -> usize
    ensures value { result ≡ control_place R.set control }
    ensures inside { result < R.set.places }
{
    match control {
        Control::LoadPtr { .. } => place::LOAD_POINTER,
        Control::StorePtr { .. } => place::STORE_POINTER,
        Control::Imm { .. } => place::SET_NUMBER,
        Control::AddImm { down, by, .. } => {
            if down {
                place::SUB
            } else if is_pages::<R>(down, by) {
                place::ADD_PAGES
            } else {
                place::ADD
            }
        }
        Control::AddReg { .. } => place::ADD_REGISTER,
        Control::LoadByte { .. } => place::LOAD_BYTE,
        Control::LoadHalf { .. } => place::LOAD_HALF,
        Control::StoreByte { .. } => place::STORE_BYTE,
        Control::StoreHalf { .. } => place::STORE_HALF,
        Control::Compare { .. } => place::COMPARE,
        Control::Below { .. } | Control::Jump { .. } | Control::Return => place::RETURN,
    }
}

fn two_registers<R: Rows>(kept: bool, first: u8, last: u8) -> Numbers
    ensures { result ≡ two_registers R.set kept first last }
{
    let (a, b) = (general::<R>(first), general::<R>(last));
    if kept {
        Numbers::new().with(a).with(b)
    } else {
        Numbers::new().with(b).with(a)
    }
}

fn store_pointer_numbers<R: Rows>(last: bool, base: u8, entry: u8, from: u8) -> Numbers
    ensures { result ≡ store_pointer_numbers R.set last base entry from }
{
    let (base, offset, from) = (general::<R>(base), 8 * u32::from(entry), general::<R>(from));
    if last {
        Numbers::new().with(base).with(offset).with(from)
    } else {
        Numbers::new().with(from).with(base).with(offset)
    }
}

/// The operands of a control instruction, in the order of its line.
pub fn control_numbers<R: Rows>(control: Control) -> Numbers
    ensures value { result ≡ control_numbers R.set control }
    ensures few { length result ≤ 4 }
{
    let style = R::style();
    match control {
        Control::LoadPtr { to, base, entry } => {
            two_registers::<R>(true, to, base).with(8 * u32::from(entry))
        }
        Control::StorePtr { base, entry, from } => {
            store_pointer_numbers::<R>(style.stores_last, base, entry, from)
        }
        Control::Imm { to, n } => Numbers::new().with(general::<R>(to)).with(u32::from(n)),
        Control::AddImm { to, from, down, by } => {
            let by = if is_pages::<R>(down, by) {
                by / 4096
            } else {
                by
            };
            two_registers::<R>(true, to, from).with(by)
        }
        Control::AddReg { to, left, right } => {
            two_registers::<R>(true, to, left).with(general::<R>(right))
        }
        Control::LoadByte { to, at } | Control::LoadHalf { to, at } => {
            two_registers::<R>(true, to, at)
        }
        Control::StoreByte { at, from } | Control::StoreHalf { at, from } => {
            two_registers::<R>(style.stores_last, at, from)
        }
        Control::Compare { left, right } => two_registers::<R>(!style.packets, left, right),
        Control::Below { .. } | Control::Jump { .. } | Control::Return => Numbers::new(),
    }
}

/// An operand, 0 behind the last one.
pub fn number(numbers: &[u32], k: usize) -> u32
    ensures { result ≡ slice_index numbers.now k }
{
    match numbers.get(k) {
        Some(n) => *n,
        None => 0,
    }
}

/// The role of the general register that is an operand.
pub fn role<R: Rows>(numbers: &[u32], k: usize) -> u8
    ensures { result ≡ role R.set (slice_index numbers.now k) }
{
    let n = number(numbers, k);
    if R::style().packets && n == 8 {
        7
    } else {
        (n % 256) as u8
    }
}

// The roles of the first two operands, in this order or the other.
fn two_roles<R: Rows>(kept: bool, ns: &[u32]) -> (u8, u8)
    ensures first { result.0 ≡ role_at R.set kept ns.now 0 1 }
    ensures last { result.1 ≡ role_at R.set kept ns.now 1 0 }
{
    let (a, b) = (role::<R>(ns, 0), role::<R>(ns, 1));
    if kept { (a, b) } else { (b, a) }
}

/// An operand as so many units of that many bytes.
pub fn units(numbers: &[u32], k: usize, bytes: u32) -> u8
    requires { 1 ≤ bytes }
    ensures { result ≡ slice_index numbers.now k / bytes % 256 }
{
    (number(numbers, k) / bytes % 256) as u8
}

fn load_pointer<R: Rows>(ns: &[u32]) -> Control
    ensures { result ≡ Control.LoadPtr (role R.set (slice_index ns.now 0)) (role R.set (slice_index ns.now 1)) (slice_index ns.now 2 / 8 % 256) }
{
    Control::LoadPtr {
        to: role::<R>(ns, 0),
        base: role::<R>(ns, 1),
        entry: units(ns, 2, 8),
    }
}

fn store_pointer<R: Rows>(ns: &[u32]) -> Control
    ensures { result ≡ store_pointer R.set ns.now }
{
    if R::style().stores_last {
        Control::StorePtr {
            base: role::<R>(ns, 0),
            entry: units(ns, 1, 8),
            from: role::<R>(ns, 2),
        }
    } else {
        Control::StorePtr {
            base: role::<R>(ns, 1),
            entry: units(ns, 2, 8),
            from: role::<R>(ns, 0),
        }
    }
}

fn add<R: Rows>(ns: &[u32], down: bool, by: u32) -> Control
    ensures { result ≡ Control.AddImm (role R.set (slice_index ns.now 0)) (role R.set (slice_index ns.now 1)) down by }
{
    Control::AddImm {
        to: role::<R>(ns, 0),
        from: role::<R>(ns, 1),
        down,
        by,
    }
}

fn add_register<R: Rows>(ns: &[u32]) -> Control
    ensures { result ≡ Control.AddReg (role R.set (slice_index ns.now 0)) (role R.set (slice_index ns.now 1)) (role R.set (slice_index ns.now 2)) }
{
    Control::AddReg {
        to: role::<R>(ns, 0),
        left: role::<R>(ns, 1),
        right: role::<R>(ns, 2),
    }
}

/// Whether the shape is one of control instructions alone.
pub fn is_control(shape: Shape) -> bool
    ensures { result ≡ is_control shape }
{
    match shape {
        Shape::LoadPointer
        | Shape::StorePointer
        | Shape::Add
        | Shape::Sub
        | Shape::AddPages
        | Shape::AddRegister
        | Shape::LoadByte
        | Shape::LoadHalf
        | Shape::StoreByte
        | Shape::StoreHalf
        | Shape::CompareNumbers
        | Shape::Return => true,
        _ => false,
    }
}

/// The control instruction of a shape with these operands.
pub fn made_control<R: Rows>(shape: Shape, _place: usize, ns: &[u32]) -> Option<Line>
    requires { is_control shape ≡ true }
    ensures { result ≡ made_by_shape R.set shape _place ns.now }
{
    let style = R::style();
    let (a, b) = (role::<R>(ns, 0), role::<R>(ns, 1));
    let (first, last) = two_roles::<R>(style.stores_last, ns);
    let (left, right) = two_roles::<R>(!style.packets, ns);
    Some(Line::Control(match shape {
        Shape::LoadPointer => load_pointer::<R>(ns),
        Shape::StorePointer => store_pointer::<R>(ns),
        Shape::Add => add::<R>(ns, false, number(ns, 2)),
        Shape::Sub => add::<R>(ns, true, number(ns, 2)),
        Shape::AddPages => add::<R>(ns, false, number(ns, 2) % 65536 * 4096),
        Shape::AddRegister => add_register::<R>(ns),
        Shape::LoadByte => Control::LoadByte { to: a, at: b },
        Shape::LoadHalf => Control::LoadHalf { to: a, at: b },
        Shape::StoreByte => Control::StoreByte {
            at: first,
            from: last,
        },
        Shape::StoreHalf => Control::StoreHalf {
            at: first,
            from: last,
        },
        Shape::CompareNumbers => Control::Compare { left, right },
        Shape::Return => Control::Return,
        _ => unreachable!(),
    }))
}
