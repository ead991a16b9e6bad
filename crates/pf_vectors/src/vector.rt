//! Vectors, and how a file has them: a block of lines each.
//!
//! | Line | What it says |
//! |---|---|
//! | `op TEXT` | the instruction as it is printed |
//! | `also TEXT` | another spelling that is read as the same instruction |
//! | `cost N` | what it costs |
//! | `in PLACE HEX` | what a register or memory holds before |
//! | `out PLACE HEX` | what it holds after |
//! | `end` | the vector ends |
//!
//! `HEX` has two digits for each byte, the lowest first. A `PLACE` is a register by its name, `q0`
//! with a byte for each byte of a vector, or `@` with an address.

use std::alloc::Global;
use std::test::Fail;

/// A register, or memory.
#[derive(Clone, Copy)]
pub enum Place {
    /// The vector of this number.
    Vector(u32),
    /// The register that a constant is put in.
    Constant,
    /// The predicate of HVX.
    Predicate,
    /// The general register of this role.
    General(u8),
    /// Memory from this address on: what is loaded or stored, and eight bytes on each side of it.
    Memory(u32),
}

/// What a place holds.
#[derive(Drop)]
pub struct Held {
    pub place: Place,
    pub bytes: Vec<u8>,
}

/// An instruction with its cost, and what it finds and leaves.
#[derive(Drop)]
pub struct Vector {
    /// The instruction as it is printed.
    pub instruction: String,
    /// Another spelling, or nothing.
    pub also: String,
    pub cost: u32,
    pub before: Vec<Held>,
    pub after: Vec<Held>,
}

/// The role of a general register other than `r8`.
fn role_of(word: &str) -> Option<u8> {
    match word {
        "x0" | "rdi" | "r0" => Some(0),
        "x1" | "rsi" | "r1" => Some(1),
        "x2" | "rdx" | "r2" => Some(2),
        "x3" | "rcx" | "r3" => Some(3),
        "x4" | "r4" => Some(4),
        "x5" | "rax" | "r5" => Some(5),
        "x6" | "r9" | "r6" => Some(6),
        "x7" | "r10" => Some(7),
        _ => None,
    }
}

/// The place of this name, other than `r8`.
fn place_of(word: &str) -> Result<Place, Fail> {
    if let Some(address) = word.strip_prefix("@") {
        return Ok(Place::Memory(address.parse::<u32>()?));
    }
    if let Some(number) = word.strip_prefix("ymm") {
        return Ok(Place::Vector(number.parse::<u32>()?));
    }
    if let Some(number) = word.strip_prefix("v") {
        return Ok(Place::Vector(number.parse::<u32>()?));
    }
    match word {
        "w11" | "r11d" | "r7" => Ok(Place::Constant),
        "q0" => Ok(Place::Predicate),
        _ => Ok(Place::General(role_of(word).ok_or("a register")?)),
    }
}

/// What a line tells of a place. `r8` is role 4 on x86-64, where a register has 8 bytes, and role 7
/// on Hexagon, where it has 4.
fn held_of(alloc: Global, text: &str) -> Result<Held, Fail> {
    let (word, digits) = text.split_once(' ').ok_or("contents")?;
    let bytes = hex::decode(alloc, digits)?;
    let place = if word == "r8" {
        Place::General(if bytes.len() == 8 { 4 } else { 7 })
    } else {
        place_of(word)?
    };
    Ok(Held { place, bytes })
}

impl Vector {
    /// One that says nothing yet.
    pub fn new(alloc: Global) -> Vector {
        Vector {
            instruction: String::new(alloc),
            also: String::new(alloc),
            cost: 0,
            before: Vec::new(alloc),
            after: Vec::new(alloc),
        }
    }

    /// Takes in a line of the vector. The file's first line, which names the target, says nothing
    /// of a vector.
    pub fn take(&mut self, alloc: Global, line: &str) -> Result<(), Fail> {
        let (word, rest) = line.split_once(' ').ok_or("a line")?;
        match word {
            "op" => self.instruction.push_str(rest)?,
            "also" => self.also.push_str(rest)?,
            "cost" => self.cost = rest.parse::<u32>()?,
            "in" => self.before.push(held_of(alloc, rest)?)?,
            "out" => self.after.push(held_of(alloc, rest)?)?,
            "target" => {}
            _ => return Err(Fail::from("a line")),
        }
        Ok(())
    }
}
