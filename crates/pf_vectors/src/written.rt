use crate::trial::Trial;
use crate::vector::{Held, Place, Vector};
use pf_ints::Target;
use pf_machine::{Control, Isa};
use std::alloc::Global;
use std::test::Fail;

/// The general register through which an instruction loads or stores.
#[derive(Clone, Copy)]
struct Base {
    register: u8,
    content: u32,
}

/// A number of up to four bytes, the lowest first.
fn number(bytes: &[u8]) -> u32 {
    let mut number: u32 = 0;
    for byte in bytes.iter().rev() {
        number = number.wrapping_mul(256).wrapping_add(u32::from(*byte));
    }
    number
}

/// The lines that put a number into the constant register.
fn constant_lines(alloc: Global, target: Target, number: u32) -> Result<String, Fail> {
    let (low, high) = (number % 65536, number / 65536);
    let lines = match target {
        Target::Neon => format!(in alloc; "mov w11, #{low}\nmovk w11, #{high}, lsl #16")?,
        Target::Avx2 => format!(in alloc; "mov r11d, {number}")?,
        Target::Hvx => format!(in alloc; "{{ r7 = ##{number} }}")?,
    };
    Ok(lines)
}

/// The line that spreads the constant register over vector 0.
fn spread_line(target: Target) -> &'static str {
    match target {
        Target::Neon => "dup v0.4s, w11",
        Target::Avx2 => "vmovd xmm0, r11d",
        Target::Hvx => "{ v0 = vsplat(r7) }",
    }
}

/// Puts into the constant register what it holds.
fn set_constant<I: Isa>(alloc: Global, trial: &mut Trial, bytes: &[u8]) -> Result<(), Fail> {
    let lines = constant_lines(alloc, I::TARGET, number(bytes))?;
    trial.line(lines.as_bytes())
}

/// Makes the predicate hold where a byte is 1, and not where it is 0.
fn set_predicate<I: Isa>(trial: &mut Trial, bytes: &[u8]) -> Result<(), Fail> {
    trial.load::<I>(1, bytes)?;
    trial.load::<I>(2, &[0; 128])?;
    trial.line(b"{ q0 = vcmp.gt(v1.ub,v2.ub) }")
}

/// Puts into a register what it holds, if it is no general one.
fn set<I: Isa>(alloc: Global, trial: &mut Trial, held: &Held) -> Result<(), Fail> {
    let bytes = held.bytes.as_slice();
    match held.place {
        Place::Vector(name) => trial.load::<I>(name, bytes),
        Place::Constant => set_constant::<I>(alloc, trial, bytes),
        Place::Predicate => set_predicate::<I>(trial, bytes),
        Place::General(_) | Place::Memory(_) => Ok(()),
    }
}

/// Makes vector 0 hold 1 where the predicate holds, and 0 where not.
fn spread_predicate<I: Isa>(trial: &mut Trial) -> Result<(), Fail> {
    trial.load::<I>(1, &[1; 128])?;
    trial.load::<I>(2, &[0; 128])?;
    trial.line(b"{ v0 = vmux(q0,v1,v2) }")
}

/// Stores at a place of the output what a register holds, if it is no general one.
fn show<I: Isa>(trial: &mut Trial, place: Place, at: u32) -> Result<(), Fail> {
    match place {
        Place::Vector(name) => trial.store::<I>(name, at),
        Place::Constant => {
            trial.line(spread_line(I::TARGET).as_bytes())?;
            trial.store::<I>(0, at)
        }
        Place::Predicate => {
            spread_predicate::<I>(trial)?;
            trial.store::<I>(0, at)
        }
        Place::General(_) | Place::Memory(_) => Ok(()),
    }
}

/// The base of the instruction, if it loads or stores.
fn base_of(vector: &Vector) -> Option<Base> {
    for held in &vector.before {
        if let Place::General(register) = held.place {
            let content = number(held.bytes.as_slice());
            return Some(Base { register, content });
        }
    }
    None
}

/// The address of the memory among these places.
fn address_of(places: &[Held]) -> Option<u32> {
    for held in places {
        if let Place::Memory(address) = held.place {
            return Some(address);
        }
    }
    None
}

/// Begins the text and the image. The image begins with the memory that the vector finds. The table
/// is kept in a register that isn't the instruction's base.
fn begun<I: Isa>(alloc: Global, vector: &Vector) -> Result<Trial, Fail> {
    let table = match base_of(vector) {
        Some(Base { register: 4, .. }) => 2,
        _ => 4,
    };
    let mut trial = Trial::new(alloc, I::TARGET, table)?;
    trial.keep_table::<I>()?;
    for held in &vector.before {
        if let Place::Memory(_) = held.place {
            trial.image.extend_from_slice(held.bytes.as_slice())?;
        }
    }
    Ok(trial)
}

/// Points the base so that the vector's memory lies at the front of the image, or of the output for
/// a store.
fn aim<I: Isa>(trial: &mut Trial, vector: &Vector) -> Result<(), Fail> {
    let Some(base) = base_of(vector) else {
        return Ok(());
    };
    let address = address_of(vector.before.as_slice()).ok_or("memory")?;
    let stores = address_of(vector.after.as_slice()).is_some();
    trial.point::<I>(base.register, u8::from(stores))?;
    let down = base.content < address;
    trial.add::<I>(base.register, down, base.content.abs_diff(address))
}

/// The text of a vector: it sets the registers, does the instruction, and shows what it has changed,
/// a vector's width for each register.
pub fn written<I: Isa>(alloc: Global, vector: &Vector) -> Result<Trial, Fail> {
    let mut trial = begun::<I>(alloc, vector)?;
    for held in &vector.before {
        set::<I>(alloc, &mut trial, held)?;
    }
    aim::<I>(&mut trial, vector)?;
    trial.line(vector.instruction.as_bytes())?;
    let mut at: u32 = 0;
    for held in &vector.after {
        show::<I>(&mut trial, held.place, at)?;
        at = at.saturating_add(I::VECTOR);
    }
    trial.control::<I>(Control::Return)?;
    Ok(trial)
}
