ghost use Rattle.std.specs.Prelude.{◌≡◌, ◌+◌, ◌-◌, ◌<◌, ◌≤◌, ◌*◌, ◌^◌, [], length, slice_index, slice_index_or, slice_set, All, true, false, Err};
ghost use Rattle.pf_machine.specs.Meaning.Control.{IsControl};
ghost use Rattle.pf_machine.specs.Meaning.Tables.{IsOver};
ghost use Rattle.pf_machine.specs.Meaning.MachineSteps.{pointer_bytes, register_wrapped, sum_of, general_of, with_general, Continues, load_step, store_step, control_step, access_step, by_access, line_step};
ghost use Rattle.pf_machine.specs.Meaning.Machines.{state_of, IsState, IsLineOver, AnswersStep};

use crate::access::Access;
use crate::code::Line;
use crate::control::Control;
use crate::isa::Isa;
use crate::memory::Region;
use crate::memory_access::{number_of, readable_bytes, store, store_lowest};
use crate::registers::RegFile;
use pf_ints::Target;

/// Why a row didn't come to its return.
#[derive(Clone, Copy, PartialEq, Eq)]
pub enum Trap {
    /// The instruction of this number, counted from 1, loads or stores so many bytes at the
    /// address, which don't all lie in one region that allows it.
    Outside { at: u64, address: u64, length: u32 },
    /// So many steps were taken without a return.
    Spent { steps: u64 },
}

/// The state of a machine.
#[derive(Drop)]
pub struct Core {
    /// How many instructions stand before the next one.
    pub at: u64,
    pub general: [u64; 8],
    pub flag: bool,
    pub file: RegFile,
    pub regions: Vec<Region>,
}

fn pointer_bytes(target: Target) -> u8
    ensures { result ≡ pointer_bytes target }
{
    match target {
        Target::Neon | Target::Avx2 => 8,
        Target::Hvx => 4,
    }
}

/// The number as a general register keeps it.
fn register_wrapped(target: Target, n: u128) -> u64
    ensures { result ≡ register_wrapped target n }
{
    match target {
        Target::Neon | Target::Avx2 => (n % 0x1_0000_0000_0000_0000) as u64,
        Target::Hvx => (n % 0x1_0000_0000) as u64,
    }
}

fn sum_of(target: Target, n: u64, down: bool, by: u32) -> u64
    requires { by < 2 ^ 32 }
    ensures { result ≡ sum_of target n down by }
{
    let all: u128 = match target {
        Target::Neon | Target::Avx2 => 0x1_0000_0000_0000_0000,
        Target::Hvx => 0x1_0000_0000,
    };
    if down {
        register_wrapped(target, u128::from(n) + (all - u128::from(by)))
    } else {
        register_wrapped(target, u128::from(n) + u128::from(by))
    }
}

/// What the general register of this role holds.
fn general_of(core: &Core, role: u8) -> u64
    requires role { role < 8 }
    requires registers { length core.now.general ≡ 8 }
    ensures { result ≡ general_of (state_of core.now) role }
{
    core.general[usize::from(role)]
}

/// The address of an entry of the table that the general register of this role points to.
fn entry_address(target: Target, core: &Core, base: u8, entry: u8) -> u64
    requires base { base < 8 }
    requires registers { length core.now.general ≡ 8 }
    ensures { result ≡ register_wrapped target (general_of (state_of core.now) base + 8 * entry) }
{
    let table = general_of(core, base);
    register_wrapped(target, u128::from(table) + 8 * u128::from(entry))
}

fn outside(core: &Core, address: u64, length: u32) -> Trap
    requires { core.now.at + 1 < 2 ^ 64 }
    ensures { result ≡ Trap.Outside (core.now.at + 1) address length }
{
    Trap::Outside {
        at: core.at + 1,
        address,
        length,
    }
}

/// Goes on with the number in the general register of this role.
fn set_general(to: u8, n: u64, core: &mut Core) -> Result<bool, Trap>
    requires to { to < 8 }
    requires registers { length core.old.general ≡ 8 }
    requires room { core.old.at + 1 < 2 ^ 64 }
    ensures { AnswersStep (Continues (with_general (state_of core.old) to n)) result (state_of core.old) (state_of core.new) }
{
    core.general[usize::from(to)] = n;
    core.at += 1;
    Ok(true)
}

fn load_number(to: u8, address: u64, count: u8, core: &mut Core) -> Result<bool, Trap>
    requires to { to < 8 }
    requires count { count ≤ 8 }
    requires registers { length core.old.general ≡ 8 }
    requires room { core.old.at + 1 < 2 ^ 64 }
    ensures { AnswersStep (load_step to address count (state_of core.old)) result (state_of core.old) (state_of core.new) }
{
    match readable_bytes(&core.regions, address, usize::from(count)) {
        None => Err(outside(core, address, u32::from(count))),
        Some(held) => {
            let n = number_of(held);
            set_general(to, n, core)
        }
    }
}

fn store_number(from: u8, address: u64, count: u8, core: &mut Core) -> Result<bool, Trap>
    requires from { from < 8 }
    requires count { count ≤ 8 }
    requires registers { length core.old.general ≡ 8 }
    requires room { core.old.at + 1 < 2 ^ 64 }
    ensures { AnswersStep (store_step from address count (state_of core.old)) result (state_of core.old) (state_of core.new) }
{
    let n = core.general[usize::from(from)];
    if !store_lowest(&mut core.regions, address, n, count) {
        return Err(outside(core, address, u32::from(count)));
    }
    core.at += 1;
    Ok(true)
}

/// A step of a control instruction that goes on at `place` where it jumps.
fn run_control(target: Target, place: u64, control: Control, core: &mut Core) -> Result<bool, Trap>
    requires control { IsControl control }
    requires registers { length core.old.general ≡ 8 }
    requires room { core.old.at + 1 < 2 ^ 64 }
    ensures value { AnswersStep (control_step target [] place control (state_of core.old)) result (state_of core.old) (state_of core.new) }
    ensures file { core.new.file ≡ core.old.file }
{
    match control {
        Control::LoadPtr { to, base, entry } => {
            let address = entry_address(target, core, base, entry);
            load_number(to, address, pointer_bytes(target), core)
        }
        Control::StorePtr { base, entry, from } => {
            let address = entry_address(target, core, base, entry);
            store_number(from, address, pointer_bytes(target), core)
        }
        Control::Imm { to, n } => set_general(to, u64::from(n), core),
        Control::AddImm { to, from, down, by } => {
            let sum = sum_of(target, general_of(core, from), down, by);
            set_general(to, sum, core)
        }
        Control::AddReg { to, left, right } => {
            let sum = u128::from(general_of(core, left)) + u128::from(general_of(core, right));
            set_general(to, register_wrapped(target, sum), core)
        }
        Control::LoadByte { to, at } => load_number(to, general_of(core, at), 1, core),
        Control::LoadHalf { to, at } => load_number(to, general_of(core, at), 2, core),
        Control::StoreByte { at, from } => store_number(from, general_of(core, at), 1, core),
        Control::StoreHalf { at, from } => store_number(from, general_of(core, at), 2, core),
        Control::Compare { left, right } => {
            core.flag = core.general[usize::from(left)] < core.general[usize::from(right)];
            core.at += 1;
            Ok(true)
        }
        Control::Below { .. } => {
            core.at = if core.flag { place } else { core.at + 1 };
            Ok(true)
        }
        Control::Jump { .. } => {
            core.at = place;
            Ok(true)
        }
        Control::Return => Ok(false),
    }
}

fn access_address(target: Target, access: Access, core: &Core) -> u64
    requires base { access.base < 8 }
    requires registers { length core.now.general ≡ 8 }
    ensures { result ≡ register_wrapped target (general_of (state_of core.now) access.base + access.offset) }
{
    let base = general_of(core, access.base);
    register_wrapped(target, u128::from(base) + u128::from(access.offset))
}

/// The bytes of a vector.
#[tactic(auto, using(std::proofs::lemmas::Option::get_or_from_slice_get))]
fn held_in(file: &RegFile, vector: u32) -> &[u8]
    requires { vector < length file.now.vectors }
    ensures { result.now ≡ slice_index_or file.now.vectors vector [] }
{
    file.vectors.at(vector as usize).as_slice()
}

/// Writes the bytes over the vector, which has as many.
fn overwrite_vector(file: &mut RegFile, vector: u32, held: &[u8])
    requires within { vector < length file.old.vectors }
    requires alike { length held.now ≡ length (slice_index_or file.old.vectors vector []) }
    ensures written { file.new ≡ record file.old { vectors = slice_set file.old.vectors vector held.now } }
    ensures bytes { All (λ b. b < 256) held.now }
{
    file.vectors.overwrite_item(vector as usize, held);
}

fn run_load<I: Isa>(access: Access, core: &mut Core) -> Result<bool, Trap>
    requires load { access.load ≡ true }
    requires base { access.base < 8 }
    requires vector { access.vector < length core.old.file.vectors }
    requires sized { length (slice_index_or core.old.file.vectors access.vector []) ≡ I.VECTOR }
    requires state { IsState I.table (state_of core.old) }
    requires room { core.old.at + 1 < 2 ^ 64 }
    ensures value { AnswersStep (access_step I.TARGET I.VECTOR access (state_of core.old)) result (state_of core.old) (state_of core.new) }
    ensures state { IsState I.table (state_of core.new) }
{
    let address = access_address(I::TARGET, access, core);
    match readable_bytes(&core.regions, address, I::VECTOR as usize) {
        None => Err(outside(core, address, I::VECTOR)),
        Some(held) => {
            overwrite_vector(&mut core.file, access.vector, held);
            core.at += 1;
            Ok(true)
        }
    }
}

fn run_store<I: Isa>(access: Access, core: &mut Core) -> Result<bool, Trap>
    requires load { access.load ≡ false }
    requires base { access.base < 8 }
    requires vector { access.vector < length core.old.file.vectors }
    requires sized { length (slice_index_or core.old.file.vectors access.vector []) ≡ I.VECTOR }
    requires state { IsState I.table (state_of core.old) }
    requires room { core.old.at + 1 < 2 ^ 64 }
    ensures value { AnswersStep (access_step I.TARGET I.VECTOR access (state_of core.old)) result (state_of core.old) (state_of core.new) }
    ensures state { IsState I.table (state_of core.new) }
{
    let address = access_address(I::TARGET, access, core);
    let held = held_in(&core.file, access.vector);
    if !store(&mut core.regions, address, held) {
        return Err(outside(core, address, I::VECTOR));
    }
    core.at += 1;
    Ok(true)
}

fn run_vector<I: Isa>(op: &I::Op, core: &mut Core) -> Result<bool, Trap>
    requires over { IsOver I.table op.now }
    requires state { IsState I.table (state_of core.old) }
    requires room { core.old.at + 1 < 2 ^ 64 }
    ensures value { AnswersStep (by_access I.table op.now (state_of core.old) (I.table.access op.now)) result (state_of core.old) (state_of core.new) }
    ensures state { IsState I.table (state_of core.new) }
{
    I::known(op);
    match I::access(op) {
        None => {
            I::effect(op, &mut core.file);
            core.at += 1;
            Ok(true)
        }
        Some(access) => {
            if access.load {
                run_load::<I>(access, core)
            } else {
                run_store::<I>(access, core)
            }
        }
    }
}

/// A step of a line that goes on at `place` where it jumps.
pub fn run_line<I: Isa>(line: &Line<I>, place: u64, core: &mut Core) -> Result<bool, Trap>
    requires over { IsLineOver I.table line.now }
    requires state { IsState I.table (state_of core.old) }
    requires room { core.old.at + 1 < 2 ^ 64 }
    ensures value { AnswersStep (line_step I.table [] place line.now (state_of core.old)) result (state_of core.old) (state_of core.new) }
    ensures state { IsState I.table (state_of core.new) }
{
    match line {
        Line::Vector(op) => run_vector::<I>(op, core),
        Line::Control(c) => run_control(I::TARGET, place, c.control(), core),
    }
}
