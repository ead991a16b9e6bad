ghost use Rattle.std.specs.Prelude.{◌≡◌, List, ◌∷◌, ◌++◌, OnOk, ◌+◌, ◌*◌, ◌<◌, ◌≤◌, ◌^◌, [], length, map, replicate, false, IfOk, IfSome, position, slice_get, slice_index_or, All};
ghost use Rattle.std.specs.Option.{option_copied, unwrap_or};
ghost use Rattle.pf_machine.specs.Meaning.Bytes.{packed};
ghost use Rattle.pf_machine.specs.Meaning.Tables.{IsFile};
ghost use Rattle.pf_machine.specs.Meaning.Memory.{nowhere};
ghost use Rattle.pf_machine.specs.Steps.Places.{found, Finds};
ghost use Rattle.pf_machine.specs.Meaning.MachineSteps.{step, run, started};
ghost use Rattle.pf_machine.specs.declared.code.Label.{Label};
ghost use Rattle.pf_machine.specs.Meaning.Machines.{AnswersStep, Ends, IsMemory, HasTable, is_table, with_entries, destination_of};

use crate::code::{Label, Line, jump_label};
use crate::isa::Isa;
use crate::memory::{Region, RegionList};
use crate::memory_access::bytes_of;
use crate::program::Program;
use crate::registers::RegFile;
use crate::steps::{Core, Trap, run_line};
use pf_ints::{ByteList, Memory, Name, Sequence};
use std::alloc::Global;
use std::collections::BTreeMap;
use std::marker::Model;

/// A program and the state of the machine that runs it.
#[derive(Drop)]
pub struct Machine<I: Isa> {
    program: Program<I>,
    /// For each instruction, how many stand before the label that it may jump to.
    places: Vec<u64>,
    core: Core,
    /// A vector of zeros.
    zeros: Vec<u8>,
}

impl<I: Isa> Model for Machine<I> {
    ghost use Rattle.std.specs.Prelude.{◌≡◌, List, replicate};
    ghost use Rattle.pf_machine.specs.Meaning.Machines.{Running, IsMachine, state_of};
    ghost use Rattle.pf_values.specs.contracts.term.Term as term;
    ghost use Rattle.std.specs.Coded.{codes};

    ghost Value = { Running I I.Op };

    ghost coded = { Prim.hlevel (codes, term.the_row.coded) };

    ghost view = { λ m. record { text = m.program; state = state_of m.core } };

    ghost invariant = { λ m. IsMachine I.table m.program m.places.items (state_of m.core) × (m.zeros.items ≡ replicate I.VECTOR 0) };
}

impl<I: Isa> Machine<I> {
    /// The machine of the program over this memory, before the first instruction, with all
    /// registers and the flag clear. The regions have to be apart, so that no address lies in two
    /// of them, and each has to end below 2^31. The only error is want of memory.
    pub fn new(
        alloc: Global,
        program: Program<I>,
        regions: RegionList,
    ) -> Result<Machine<I>, Memory>
        requires { IsMemory regions }
        ensures { IfOk result (λ m. m ≡ record { text = program; state = started I.table 0 regions }) }
    {
        let _head = program.head();
        let (places, file, zeros) = prepared(
            alloc,
            program.code().as_slice(),
            program.labels().as_slice(),
        )?;
        let core = Core {
            at: 0,
            general: [0; 8],
            flag: false,
            file,
            regions: regions.into_vec(),
        };
        Ok(Machine {
            program,
            places,
            core,
            zeros,
        })
    }

    /// Begins a row: writes the entries, 8 bytes each, over the region at `table`, puts its address
    /// in the table register, clears all other registers and the flag, and goes to the first
    /// instruction. A region has to begin at `table` and have exactly the size of the entries. All
    /// other regions stay as they are. It takes no memory.
    pub fn start_row(&mut self, table: u64, entries: &[u64])
        requires { HasTable self.old.state.regions table (8 * length entries.now) }
        ensures text { self.new.text ≡ self.old.text }
        ensures state { self.new.state ≡ started I.table table (with_entries self.old.state.regions table entries.now) }
    {
        write_table(&mut self.core.regions, table, entries);
        self.core.at = 0;
        self.core.general = [table, 0, 0, 0, 0, 0, 0, 0];
        self.core.flag = false;
        clear_registers(&mut self.core.file, &self.zeros);
    }

    /// Takes one step from whatever state the machine is in, and tells whether it went on; false is
    /// a return, at which the state stays. The only error is `Trap::Outside`, after which the state
    /// is as before. It takes no memory.
    pub fn step(&mut self) -> Result<bool, Trap>
        ensures value { AnswersStep (step I.table self.old.text.code self.old.text.labels self.old.state) result self.old.state self.new.state }
        ensures text { self.new.text ≡ self.old.text }
    {
        let n = self.core.at as usize;
        match self.program.code().get(n) {
            None => Ok(false),
            Some(line) => run_line::<I>(line, self.places[n], &mut self.core),
        }
    }

    /// Steps from the state that the machine is in, as `start_row` leaves it for a new row, to the
    /// return, in at most `budget` steps, the return included. Where they don't come to the return,
    /// it is `Trap::Outside` or `Trap::Spent`. In each case the state is the one that the last
    /// whole step left. It takes no memory.
    pub fn run_row(&mut self, budget: u64) -> Result<(), Trap>
        ensures value { Ends (run I.table self.old.text.code self.old.text.labels budget self.old.state) budget result self.new.state }
        ensures text { self.new.text ≡ self.old.text }
    {
        for _ in 0..budget {
            match self.step() {
                Ok(true) => {}
                Ok(false) => return Ok(()),
                Err(trap) => return Err(trap),
            }
        }
        Err(Trap::Spent { steps: budget })
    }

    /// Region n of the memory, counted from 0, or None where there are no more than n.
    pub fn region(&self, n: u32) -> Option<&Region>
        ensures { option_copied result ≡ slice_get self.now.state.regions n }
    {
        self.core.regions.get(n as usize)
    }

    /// Ends the machine, and gives back its program and its memory.
    pub fn into_parts(self) -> (Program<I>, RegionList)
        ensures { (result.0 ≡ self.text) × (result.1 ≡ self.state.regions) }
    {
        let Machine { program, core, .. } = self;
        (program, Sequence::from_vec(core.regions))
    }
}

/// The number of instructions before each label, by its name.
type Places<'a> = BTreeMap<&'a [u8], u64>;

/// Adds where the label stands, unless a label of its name is there.
fn add_place<'a>(places: &mut Places<'a>, label: &'a Label) -> Result<(), Memory>
    ensures { OnOk result ((labels : List Label) → Finds places.old labels → Finds places.new (labels ++ label.now ∷ [])) }
{
    let name = label.name.as_slice();
    if places.contains_key(name) {
        return Ok(());
    }
    places.insert(name, label.before)?;
    Ok(())
}

/// Where the labels stand. Of labels with one name the first counts.
fn places_of<'a>(alloc: Global, labels: &'a [Label]) -> Result<Places<'a>, Memory>
    ensures { IfOk result (λ places. Finds places labels.now) }
{
    let mut places = BTreeMap::new(alloc);
    for label in labels {
        add_place(&mut places, label)?;
    }
    Ok(places)
}

fn place_of(places: &Places<'_>, name: Name, end: u64) -> u64
    ensures { result ≡ unwrap_or (found places.now name) end }
{
    places.get(name.as_slice()).copied().unwrap_or(end)
}

fn destination<I: Isa>(places: &Places<'_>, end: u64, line: &Line<I>) -> u64
    ensures { (labels : List Label) → Finds places.now labels → result ≡ destination_of labels end line.now }
{
    match jump_label(line) {
        None => end,
        Some(label) => place_of(places, label, end),
    }
}

fn destinations<I: Isa>(
    alloc: Global,
    code: &[Line<I>],
    labels: &[Label],
) -> Result<Vec<u64>, Memory>
    ensures { IfOk result (λ places. places.items ≡ map (destination_of labels.now (length code.now)) code.now) }
{
    let places = places_of(alloc, labels)?;
    destinations_at(alloc, code, &places)
}

fn destinations_at<I: Isa>(
    alloc: Global,
    code: &[Line<I>],
    places: &Places<'_>,
) -> Result<Vec<u64>, Memory>
    ensures { (labels : List Label) → Finds places.now labels → IfOk result (λ ends. ends.items ≡ map (destination_of labels (length code.now)) code.now) }
{
    let mut ends = Vec::new(alloc);
    for line in code {
        ends.push(destination(places, code.len() as u64, line))?;
    }
    Ok(ends)
}

/// What a machine of the code needs beside it and its memory: where each line may jump to, the file
/// with all registers clear, and a vector of zeros.
fn prepared<I: Isa>(
    alloc: Global,
    code: &[Line<I>],
    labels: &[Label],
) -> Result<(Vec<u64>, RegFile, Vec<u8>), Memory>
    ensures places { IfOk result (λ p. p.0.items ≡ map (destination_of labels.now (length code.now)) code.now) }
    ensures file { IfOk result (λ p. p.1 ≡ record { vectors = replicate I.VECTORS (replicate I.VECTOR 0); k = 0; q = replicate I.VECTOR false }) }
    ensures zeros { IfOk result (λ p. p.2.items ≡ replicate I.VECTOR 0) }
{
    let zeros = Vec::from_elem(alloc, 0, I::VECTOR as usize)?;
    let places = destinations(alloc, code, labels)?;
    let file = clear_file(alloc, I::VECTORS, I::VECTOR)?;
    Ok((places, file, zeros))
}

fn zero_vectors(alloc: Global, count: u32, size: u32) -> Result<Sequence<ByteList>, Memory>
    ensures { IfOk result (λ vectors. vectors ≡ replicate count (replicate size 0)) }
{
    let mut vectors = Sequence::new(alloc);
    for _ in 0..count {
        let zeros = Vec::from_elem(alloc, 0, size as usize)?;
        vectors.push(Sequence::from_vec(zeros))?;
    }
    Ok(vectors)
}

fn clear_file(alloc: Global, count: u32, size: u32) -> Result<RegFile, Memory>
    ensures { IfOk result (λ f. f ≡ record { vectors = replicate count (replicate size 0); k = 0; q = replicate size false }) }
{
    let vectors = zero_vectors(alloc, count, size)?;
    let q = Sequence::from_vec(Vec::from_elem(alloc, false, size as usize)?);
    Ok(RegFile { vectors, k: 0, q })
}

/// Clears all registers of the file, whose vectors have as many bytes as there are zeros.
fn clear_registers(file: &mut RegFile, zeros: &[u8])
    requires { All (λ v. length v ≡ length zeros.now) file.old.vectors }
    ensures { file.new ≡ record { vectors = replicate (length file.old.vectors) zeros.now; k = 0; q = replicate (length file.old.q) false } }
{
    clear_vectors(&mut file.vectors, zeros);
    file.k = 0;
    clear_predicate(&mut file.q);
}

fn clear_vectors(vectors: &mut Sequence<ByteList>, zeros: &[u8])
    requires { All (λ v. length v ≡ length zeros.now) vectors.old }
    ensures { vectors.new ≡ replicate (length vectors.old) zeros.now }
{
    for n in 0..vectors.len() {
        vectors.overwrite_item(n, zeros);
    }
}

fn clear_predicate(predicate: &mut Sequence<bool>)
    ensures { predicate.new ≡ replicate (length predicate.old) false }
{
    for n in 0..predicate.len() {
        predicate.set(n, false);
    }
}

fn write_entries(table: &mut ByteList, entries: &[u64])
    requires { length table.old ≡ 8 * length entries.now }
    ensures { table.new ≡ packed 8 entries.now }
{
    for (n, entry) in entries.iter().enumerate() {
        table.overwrite(8 * n, &bytes_of(*entry));
    }
}

fn find_table(regions: &[Region], table: u64, size: usize) -> Option<usize>
    ensures value { result ≡ position (is_table table size) regions.now }
    ensures within { IfSome result (λ k. k < length regions.now) }
    ensures sized { IfSome result (λ k. length (slice_index_or regions.now k nowhere).bytes ≡ size) }
{
    regions
        .iter()
        .position(|r| r.start == table && r.bytes.len() == size)
}

/// Writes the entries over the row's table, and where there is none leaves the memory as it is.
fn write_table(regions: &mut [Region], table: u64, entries: &[u64])
    requires { 8 * length entries.now < 2 ^ 64 }
    ensures { regions.new ≡ with_entries regions.old table entries.now }
{
    match find_table(regions, table, 8 * entries.len()) {
        None => {}
        Some(k) => {
            let region = &mut regions[k];
            write_entries(&mut region.bytes, entries);
        }
    }
}
