//! Programs that run all control instructions, each many times, and what they leave in memory.
//!
//! They and their final memory were made by an implementation that shares nothing with this one,
//! and the memory was confirmed outside: for neon on qemu-aarch64 7.2, for AVX2 on an Intel Xeon
//! processor, for HVX on qemu-hexagon 7.2. Steps and addresses follow from the definitions alone.
//!
//! A text of such programs has lines of a word and what it says:
//!
//!     image W H                 the image's size; pixel i, row by row, is (37 i + 11) modulo 256
//!     line TEXT                 a line of the program's text
//!     region NAME START SIZE    the table, the scratch, the image and the output, where `run` places them
//!     row N ..                  the entries of a row's table ..
//!     steps N                   .. and the row's steps, the return among them
//!     memory ADDRESS HEX        bytes of scratch and output behind the last row; all others are 0, as before
//!     end

use crate::avx2_programs::AVX2;
use crate::hvx_programs::HVX;
use crate::machine::{machine_of, region, start_row};
use crate::neon_programs::NEON;
use pf_avx2::Avx2;
use pf_hvx::Hvx;
use pf_images::read_pgm;
use pf_ints::{Image, LaneType, Memory, Sequence};
use pf_isa::{Isa, Machine, RegionList, Trap, read_text};
use pf_neon::Neon;
use pf_run::run_images;
use std::alloc::{AllocError, Global};
use std::process::Abort;
use std::test::Fail;

/// A row's table, and how many steps the row takes.
#[derive(Drop)]
struct Row {
    entries: Vec<u64>,
    steps: u64,
}

/// The start of a region, and how many bytes it has.
#[derive(Clone, Copy)]
struct Span {
    start: u64,
    size: usize,
}

/// Bytes from an address on.
#[derive(Drop)]
struct Piece {
    address: u64,
    bytes: Vec<u8>,
}

/// A program, and what its rows do.
#[derive(Drop)]
struct Trial {
    text: Vec<u8>,
    size: (u32, u32),
    spans: Vec<Span>,
    rows: Vec<Row>,
    memory: Vec<Piece>,
}

impl Trial {
    fn new(alloc: Global) -> Trial {
        Trial {
            text: Vec::new(alloc),
            size: (0, 0),
            spans: Vec::new(alloc),
            rows: Vec::new(alloc),
            memory: Vec::new(alloc),
        }
    }
}

fn numbers(alloc: Global, words: &str) -> Result<Vec<u64>, Fail> {
    let mut numbers = Vec::new(alloc);
    for word in words.split(' ') {
        numbers.push(word.parse::<u64>()?)?;
    }
    Ok(numbers)
}

impl Trial {
    /// Takes a line that begins with this word.
    fn take(&mut self, alloc: Global, word: &str, rest: &str) -> Result<(), Fail> {
        match word.as_bytes() {
            b"line" => self.take_line(rest),
            b"image" => self.take_size(rest),
            b"region" => self.take_region(rest),
            b"row" => self.take_row(alloc, rest),
            b"steps" => self.take_steps(rest),
            b"memory" => self.take_memory(alloc, rest),
            _ => Err("no line".into()),
        }
    }

    fn take_line(&mut self, rest: &str) -> Result<(), Fail> {
        self.text.extend_from_slice(rest.as_bytes())?;
        self.text.push(b'\n')?;
        Ok(())
    }

    fn take_row(&mut self, alloc: Global, rest: &str) -> Result<(), Fail> {
        let entries = numbers(alloc, rest)?;
        self.rows.push(Row { entries, steps: 0 })?;
        Ok(())
    }

    fn take_size(&mut self, rest: &str) -> Result<(), Fail> {
        let (width, height) = rest.split_once(' ').ok_or("no size")?;
        self.size = (width.parse::<u32>()?, height.parse::<u32>()?);
        Ok(())
    }

    fn take_region(&mut self, rest: &str) -> Result<(), Fail> {
        let (_name, rest) = rest.split_once(' ').ok_or("no region")?;
        let (start, size) = rest.split_once(' ').ok_or("no region")?;
        let (start, size) = (start.parse::<u64>()?, size.parse::<usize>()?);
        self.spans.push(Span { start, size })?;
        Ok(())
    }

    fn take_steps(&mut self, rest: &str) -> Result<(), Fail> {
        let row = self.rows.last_mut().ok_or("no row")?;
        row.steps = rest.parse::<u64>()?;
        Ok(())
    }

    fn take_memory(&mut self, alloc: Global, rest: &str) -> Result<(), Fail> {
        let (address, text) = rest.split_once(' ').ok_or("no memory")?;
        let address = address.parse::<u64>()?;
        let bytes = hex::decode(alloc, text)?;
        self.memory.push(Piece { address, bytes })?;
        Ok(())
    }

    /// The pixels of the image, row by row.
    fn pixels(&self, alloc: Global) -> Result<Vec<u8>, AllocError> {
        let mut pixels = Vec::new(alloc);
        let count = u64::from(self.size.0) * u64::from(self.size.1);
        for i in 0..count {
            let pixel = i.wrapping_mul(37).wrapping_add(11) % 256;
            pixels.push(pixel as u8)?;
        }
        Ok(pixels)
    }

    /// What a region holds behind the last row, where it was zeros before.
    fn left_in(&self, alloc: Global, span: Span) -> Result<Vec<u8>, AllocError> {
        let mut bytes = vec![in alloc; 0; span.size]?;
        for piece in self.memory.as_slice() {
            put(
                bytes.as_mut_slice(),
                span.start,
                piece.address,
                piece.bytes.as_slice(),
            );
        }
        Ok(bytes)
    }
}

/// Puts these bytes of an address where they lie in a region, if they do.
fn put(held: &mut [u8], start: u64, address: u64, bytes: &[u8]) {
    for (i, byte) in bytes.iter().enumerate() {
        let place = address.wrapping_add(i as u64).wrapping_sub(start);
        if let Some(at) = held.get_mut(place as usize) {
            *at = *byte;
        }
    }
}

/// What region n holds before the first row.
fn held_before(alloc: Global, trial: &Trial, n: usize, size: usize) -> Result<Vec<u8>, AllocError> {
    if n == 2 {
        trial.pixels(alloc)
    } else {
        vec![in alloc; 0; size]
    }
}

/// Adds region n as it is before the first row.
fn push_region(
    alloc: Global,
    regions: &mut RegionList,
    trial: &Trial,
    n: usize,
    span: Span,
) -> Result<(), Memory> {
    let bytes = held_before(alloc, trial, n, span.size)?;
    regions.push(region(alloc, span.start, bytes.as_slice(), n == 1 || n == 3)?)?;
    Ok(())
}

/// The memory before the first row.
fn regions_of(alloc: Global, trial: &Trial) -> Result<RegionList, Memory> {
    let mut regions = Sequence::new(alloc);
    for (n, span) in trial.spans.as_slice().iter().enumerate() {
        push_region(alloc, &mut regions, trial, n, *span)?;
    }
    Ok(regions)
}

/// Tries that the scratch or the output, which is region n, holds what it should.
fn try_region<I: Isa, R: Abort + AllocGlobal>(
    rt: &R,
    machine: &Machine<I>,
    trial: &Trial,
    n: u32,
) -> Result<(), Fail> {
    let span = *trial.spans.get(n as usize).ok_or("no region")?;
    let wanted = trial.left_in(rt.alloc(), span)?;
    let held = machine.region(n).ok_or("no region")?;
    assert!(rt; held.bytes.as_slice() == wanted.as_slice(), "region {n}");
    Ok(())
}

/// Runs a row on the machine.
fn try_row<I: Isa, R: Abort + AllocGlobal>(
    rt: &R,
    machine: &mut Machine<I>,
    table: u64,
    row: &Row,
) {
    start_row(rt, machine, table, row.entries.as_slice());
    let before = row.steps.saturating_sub(1);
    assert!(rt; machine.run_row(before) == Err(Trap::Spent { steps: before }));
    assert!(rt; machine.run_row(1) == Ok(()));
}

/// The machine before the first row.
fn machine_before<I: Isa, R: Abort + AllocGlobal>(
    rt: &R,
    trial: &Trial,
) -> Result<Machine<I>, Fail> {
    let program = read_text::<I>(rt.alloc(), trial.text.as_slice())?;
    let regions = regions_of(rt.alloc(), trial)?;
    Ok(machine_of(rt, program, regions)?)
}

/// Runs the rows on the machine.
fn try_machine<I: Isa, R: Abort + AllocGlobal>(
    rt: &R,
    machine: &mut Machine<I>,
    trial: &Trial,
) -> Result<(), Fail> {
    let table = trial.spans.first().ok_or("no table")?.start;
    for row in trial.rows.as_slice() {
        try_row(rt, machine, table, row);
    }
    try_region(rt, machine, trial, 1)?;
    try_region(rt, machine, trial, 3)
}

fn try_rows<I: Isa, R: Abort + AllocGlobal>(rt: &R, trial: &Trial) -> Result<(), Fail> {
    let mut machine = machine_before::<I, R>(rt, trial)?;
    try_machine(rt, &mut machine, trial)
}

/// The file of the image.
fn file_of(alloc: Global, trial: &Trial) -> Result<Vec<u8>, Fail> {
    let (width, height) = trial.size;
    let header = format!(in alloc; "P5\n{width} {height}\n255\n")?;
    let pixels = trial.pixels(alloc)?;
    let mut file = Vec::from_slice(alloc, header.as_bytes())?;
    file.extend_from_slice(pixels.as_slice())?;
    Ok(file)
}

/// What the text leaves on the image.
fn output_of<R: Abort + AllocGlobal>(rt: &R, trial: &Trial) -> Result<Image, Fail> {
    let file = file_of(rt.alloc(), trial)?;
    let mut images = Sequence::new(rt.alloc());
    images.push(read_pgm(rt.alloc(), file.as_slice(), LaneType::U8)?)?;
    assert!(rt; trial.text.len() < 0x8000_0000);
    Ok(run_images(rt.alloc(), trial.text.as_slice(), &images)?)
}

/// Whether these are the pixels.
fn are_pixels(pixels: &[u16], bytes: &[u8]) -> bool {
    pixels.len() == bytes.len()
        && pixels
            .iter()
            .zip(bytes)
            .all(|(pixel, byte)| *pixel == u16::from(*byte))
}

/// Runs the text on the image, which places the regions and fills the table by itself.
fn try_run<R: Abort + AllocGlobal>(rt: &R, trial: &Trial) -> Result<(), Fail> {
    let output = output_of(rt, trial)?;
    let span = *trial.spans.get(3).ok_or("no output")?;
    let wanted = trial.left_in(rt.alloc(), span)?;
    assert!(rt; are_pixels(output.pixels(), wanted.as_slice()));
    Ok(())
}

/// Tries a program.
fn try_program<I: Isa, R: Abort + AllocGlobal>(rt: &R, trial: &Trial) -> Result<(), Fail> {
    try_rows::<I, R>(rt, trial)?;
    try_run(rt, trial)
}

/// Takes a line of a program's text.
fn take_line(alloc: Global, trial: &mut Trial, line: &str) -> Result<(), Fail> {
    let (word, rest) = line.split_once(' ').ok_or("no word")?;
    trial.take(alloc, word, rest)
}

fn try_programs<I: Isa, R: Abort + AllocGlobal>(rt: &R, text: &str) -> Result<u32, Fail> {
    let mut trial = Trial::new(rt.alloc());
    let mut count: u32 = 0;
    for line in text.lines() {
        if line == "end" {
            try_program::<I, R>(rt, &trial)?;
            trial = Trial::new(rt.alloc());
            count = count.saturating_add(1);
        } else {
            take_line(rt.alloc(), &mut trial, line)?;
        }
    }
    Ok(count)
}

#[test]
fn programs_leave_their_memory(rt: HostRuntime) -> Result<(), Fail> {
    assert_eq!(rt; try_programs::<Neon, HostRuntime>(&rt, NEON)?, 3);
    assert_eq!(rt; try_programs::<Avx2, HostRuntime>(&rt, AVX2)?, 3);
    assert_eq!(rt; try_programs::<Hvx, HostRuntime>(&rt, HVX)?, 3);
    Ok(())
}
