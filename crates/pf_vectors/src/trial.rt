use pf_ints::Target;
use pf_machine::{Control, Isa, checked, role};
use std::alloc::Global;
use std::test::Fail;

/// A text that is being written, and the bytes of the image that it reads.
#[derive(Drop)]
pub struct Trial {
    pub text: Vec<u8>,
    pub image: Vec<u8>,
    /// The general register that has the table's address.
    table: u8,
}

fn word_of(target: Target) -> &'static str {
    match target {
        Target::Neon => "neon",
        Target::Avx2 => "avx2",
        Target::Hvx => "hvx",
    }
}

/// The head of a text that reads the image `a` and writes an output.
fn head(alloc: Global, target: Target) -> Result<Vec<u8>, Fail> {
    let word = word_of(target);
    let text = format!(in alloc;
        ".target {word}\n.image a u8 0 255\n.tap a 0 0\n.out u8\n.scratch 0\n.lifted out u8 = a[0,0]\n.cost 0\n"
    )?;
    Ok(Vec::from_slice(alloc, text.as_bytes())?)
}

impl Trial {
    /// The head of a text alone, and an empty image. The table's address will be in the register
    /// `table`.
    pub fn new(alloc: Global, target: Target, table: u8) -> Result<Trial, Fail> {
        let text = head(alloc, target)?;
        Ok(Trial {
            text,
            image: Vec::new(alloc),
            table,
        })
    }

    /// Writes a line.
    pub fn line(&mut self, line: &[u8]) -> Result<(), Fail> {
        self.text.extend_from_slice(line)?;
        self.text.push(b'\n')?;
        Ok(())
    }

    /// Writes a control instruction.
    pub fn control<I: Isa>(&mut self, control: Control) -> Result<(), Fail> {
        let instruction = checked(control).ok_or("a control instruction")?;
        let line = I::print_ctl(&instruction);
        self.line(line.as_slice())
    }

    /// Copies the table's address from the register in which a row has it.
    pub fn keep_table<I: Isa>(&mut self) -> Result<(), Fail> {
        let copy = Control::AddReg {
            to: self.table,
            left: role::TABLE,
            right: self.table,
        };
        self.control::<I>(copy)
    }

    /// Adds a number to a general register, or takes it away where `down` holds.
    pub fn add<I: Isa>(&mut self, to: u8, down: bool, by: u32) -> Result<(), Fail> {
        let sum = Control::AddImm {
            to,
            from: to,
            down,
            by,
        };
        self.control::<I>(sum)
    }

    /// Puts the address of entry `entry` of the table into a general register: 0 is the image, 1
    /// the output.
    pub fn point<I: Isa>(&mut self, to: u8, entry: u8) -> Result<(), Fail> {
        let base = self.table;
        self.control::<I>(Control::LoadPtr { to, base, entry })
    }

    /// Loads a vector with these bytes, which stand behind those that the image has.
    pub fn load<I: Isa>(&mut self, to: u32, bytes: &[u8]) -> Result<(), Fail> {
        let at = u32::try_from(self.image.len())?;
        self.image.extend_from_slice(bytes)?;
        self.point::<I>(role::POINTER, 0)?;
        self.add::<I>(role::POINTER, false, at)?;
        let line = I::print(&I::load(to, 0));
        self.line(line.as_slice())
    }

    /// Stores a vector at this place of the output.
    pub fn store<I: Isa>(&mut self, from: u32, at: u32) -> Result<(), Fail> {
        self.point::<I>(role::POINTER, 1)?;
        self.add::<I>(role::POINTER, false, at)?;
        let line = I::print(&I::store(from, 0));
        self.line(line.as_slice())
    }
}
