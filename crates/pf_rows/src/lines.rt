ghost use Rattle.std.specs.Prelude.{◌≡◌, ◌+◌, ◌*◌, ◌/◌, ◌%◌, ◌^◌, ◌<◌, ◌≤◌, ◌++◌, [], ◌∷◌, length, IsTrue, OnOk, codes, false, true, List, ℕ};
ghost use Rattle.pf_text.specs.Meaning.Words.{is_name};
ghost use Rattle.pf_machine.specs.Meaning.Control.{IsControl, is_offset};
ghost use Rattle.pf_machine.specs.declared.control.Control.TheVariants.{Below};
ghost use Rattle.pf_rows.specs.Steps.RowCode.{copy_label, last_lines, last_pages, next_lines, page_lines, pixel_lines, scratch_lines, tail_lines};

use pf_ints::{Memory, Name};
use pf_machine::{Code, Control, Ctl, Isa, Line, role};

/// Appends a control instruction.
pub fn control<I: Isa>(code: &mut Code<I>, control: Control) -> Result<(), Memory>
    requires { IsControl control }
    ensures { OnOk result (code.new ≡ code.old ++ Line.Control control ∷ []) }
{
    code.push(Line::Control(Ctl::new(control)))
}

/// Appends a sum with a number.
pub fn add<I: Isa>(code: &mut Code<I>, to: u8, from: u8, by: u32) -> Result<(), Memory>
    requires { IsControl (Control.AddImm to from false by) }
    ensures { OnOk result
        (code.new ≡ code.old ++ Line.Control (Control.AddImm to from false by) ∷ []) }
{
    control(
        code,
        Control::AddImm {
            to,
            from,
            down: false,
            by,
        },
    )
}

/// Appends the load of an entry of a table.
pub fn pointer<I: Isa>(code: &mut Code<I>, to: u8, base: u8, entry: u8) -> Result<(), Memory>
    requires { IsControl (Control.LoadPtr to base entry) }
    ensures { OnOk result
        (code.new ≡ code.old ++ Line.Control (Control.LoadPtr to base entry) ∷ []) }
{
    control(code, Control::LoadPtr { to, base, entry })
}

/// Appends a jump that is taken where the flag is set.
pub fn below<I: Isa>(code: &mut Code<I>, label: Name) -> Result<(), Memory>
    requires { IsTrue (is_name label) }
    ensures { OnOk result (code.new ≡ code.old ++ Line.Control (Below label) ∷ []) }
{
    control(code, Control::Below { label })
}

/// Appends the comparison of two counters.
pub fn compare<I: Isa>(code: &mut Code<I>, left: u8, right: u8) -> Result<(), Memory>
    requires { IsControl (Control.Compare left right) }
    ensures { OnOk result
        (code.new ≡ code.old ++ Line.Control (Control.Compare left right) ∷ []) }
{
    control(code, Control::Compare { left, right })
}

/// Appends a number for a register.
pub fn set<I: Isa>(code: &mut Code<I>, to: u8, n: u16) -> Result<(), Memory>
    requires { to < 8 }
    ensures { OnOk result (code.new ≡ code.old ++ Line.Control (Control.Imm to n) ∷ []) }
{
    control(code, Control::Imm { to, n })
}

/// Appends that the register goes on by x.
fn pixel<I: Isa>(code: &mut Code<I>, register: u8) -> Result<(), Memory>
    requires { register < 8 }
    ensures { OnOk result (code.new ≡ code.old ++ pixel_lines register 1) }
{
    control(
        code,
        Control::AddReg {
            to: register,
            left: register,
            right: role::PIXEL,
        },
    )
}

/// Appends that the register goes on by x pixels of one byte or two.
pub fn pixels<I: Isa>(code: &mut Code<I>, register: u8, width: u8) -> Result<(), Memory>
    requires register { register < 8 }
    requires some { 1 ≤ width }
    requires few { width ≤ 2 }
    ensures { OnOk result (code.new ≡ code.old ++ pixel_lines register width) }
{
    pixel(code, register)?;
    if width == 2 {
        pixel(code, register)?;
    }
    Ok(())
}

/// Appends that the register goes on by so many times 4096, fewer than 4096 times.
fn last_pages<I: Isa>(code: &mut Code<I>, register: u8, pages: u32) -> Result<(), Memory>
    requires register { register < 8 }
    requires few { pages < 4096 }
    ensures { OnOk result (code.new ≡ code.old ++ last_pages register pages) }
{
    if pages == 0 {
        return Ok(());
    }
    add(code, register, register, 4096 * pages)
}

/// Appends that the register goes on by so many times 4096.
fn pages<I: Isa>(code: &mut Code<I>, register: u8, pages: u32) -> Result<(), Memory>
    requires { register < 8 }
    ensures { OnOk result (code.new ≡ code.old ++ page_lines register pages) }
{
    for _step in 0..pages / 4095 {
        add(code, register, register, 16_773_120)?;
    }
    last_pages(code, register, pages % 4095)
}

/// Appends that the register becomes the address of a byte of the scratch.
pub fn scratch<I: Isa>(code: &mut Code<I>, register: u8, offset: u32) -> Result<(), Memory>
    requires { register < 8 }
    ensures { OnOk result (code.new ≡ code.old ++ scratch_lines register offset) }
{
    add(code, register, role::SCRATCH, offset % 4096)?;
    pages(code, register, offset / 4096)
}

/// Before the block.
#[tactic(auto, using(crate::proofs::LabelLaws::block_named))]
pub fn block_name() -> Name
    ensures value { result ≡ codes "block" }
    ensures named { IsTrue (is_name result) }
{
    Name::new(b"block").unwrap()
}

/// Where less than a block is left.
#[tactic(auto, using(crate::proofs::LabelLaws::tail_named))]
pub fn tail_name() -> Name
    ensures value { result ≡ codes "tail" }
    ensures named { IsTrue (is_name result) }
{
    Name::new(b"tail").unwrap()
}

/// Where the last block of a row is begun.
#[tactic(auto, using(crate::proofs::LabelLaws::last_named))]
pub fn last_name() -> Name
    ensures value { result ≡ codes "last" }
    ensures named { IsTrue (is_name result) }
{
    Name::new(b"last").unwrap()
}

/// Where a narrow row is copied into the scratch.
#[tactic(auto, using(crate::proofs::LabelLaws::narrow_named))]
pub fn narrow_name() -> Name
    ensures value { result ≡ codes "narrow" }
    ensures named { IsTrue (is_name result) }
{
    Name::new(b"narrow").unwrap()
}

/// Where a narrow row is copied back.
#[tactic(auto, using(crate::proofs::LabelLaws::back_named))]
pub fn back_name() -> Name
    ensures value { result ≡ codes "back" }
    ensures named { IsTrue (is_name result) }
{
    Name::new(b"back").unwrap()
}

/// Where a pixel is copied back.
#[tactic(auto, using(crate::proofs::LabelLaws::loop_named))]
pub fn loop_name() -> Name
    ensures value { result ≡ codes "loop" }
    ensures named { IsTrue (is_name result) }
{
    Name::new(b"loop").unwrap()
}

/// Where a pixel of tap number `k` is copied.
#[tactic(auto, using(crate::proofs::LabelLaws::copy_named))]
pub fn copy_name(k: u8) -> Name
    requires { k < 64 }
    ensures value { result ≡ copy_label k }
    ensures named { IsTrue (is_name result) }
{
    Name::new(&[b'c', b'0' + k / 10, b'0' + k % 10]).unwrap()
}
