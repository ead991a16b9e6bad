//! Goes through vectors of instructions: what the registers hold before and after one of them. The
//! files of `data` say where they come from and what confirmed them.
//!
//! Each vector becomes a text that loads the registers from an image, does the instruction, and
//! stores what it has changed in the output. So it is read, printed and run as any text is.
#![tactic(auto)]

mod agreement;
mod trial;
mod vector;
mod written;

use agreement::agrees;
use pf_avx2::Avx2;
use pf_hvx::Hvx;
use pf_machine::Isa;
use pf_neon::Neon;
use std::fs;
use std::test::Fail;
use vector::Vector;

/// How many vectors of a file agree with the instruction set, and how many don't.
#[derive(Clone, Copy)]
struct Tally {
    agree: u32,
    differ: u32,
}

/// Counts a vector, and names its instruction where it differs.
fn count<I: Isa>(rt: &HostRuntime, vector: &Vector, tally: &mut Tally) -> Result<(), Fail> {
    if agrees::<I>(rt.alloc(), vector)? {
        tally.agree = tally.agree.saturating_add(1);
    } else {
        tally.differ = tally.differ.saturating_add(1);
        println!(rt; "{}", vector.instruction.as_str())?;
    }
    Ok(())
}

/// Tries each vector of a file, and tells how many agree.
fn try_file<I: Isa>(rt: &HostRuntime, path: &str) -> Result<(), Fail> {
    let file = fs::read_to_string(rt, path)?;
    let mut vector = Vector::new(rt.alloc());
    let mut tally = Tally {
        agree: 0,
        differ: 0,
    };
    for line in file.lines() {
        if line == "end" {
            count::<I>(rt, &vector, &mut tally)?;
            vector = Vector::new(rt.alloc());
        } else {
            vector.take(rt.alloc(), line)?;
        }
    }
    println!(rt; "{path}: {} agree, {} differ", tally.agree, tally.differ)?;
    Ok(())
}

fn main(rt: HostRuntime) -> Result<(), Fail> {
    try_file::<Neon>(&rt, "neon.txt")?;
    try_file::<Avx2>(&rt, "avx2.txt")?;
    try_file::<Hvx>(&rt, "hvx.txt")
}
