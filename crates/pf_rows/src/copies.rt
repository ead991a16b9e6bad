ghost use Rattle.std.specs.Prelude.{◌≡◌, ◌+◌, ◌*◌, ◌/◌, ◌%◌, ◌^◌, ◌<◌, ◌≤◌, ◌++◌, [], ◌∷◌, length, take, IsTrue, OnOk, All, codes, false, List, ℕ};
ghost use Rattle.pf_text.specs.Meaning.Words.{is_name};
ghost use Rattle.pf_rows.specs.Meaning.Scratch.{buffer_at};
ghost use Rattle.pf_rows.specs.Steps.RowCode.{copy_label, copy_labels, label, copy_turn, copy_end, load_value, pixel_lines, narrow_lines, back_lines, scratch_lines, store_value, tap_copy, tap_copies, IsPixel};
ghost use Rattle.pf_machine.specs.declared.code.Line.{Line};
ghost use Rattle.pf_machine.specs.Meaning.Roles.{scratch_role, end_role, pointer_role, kept_role};

use crate::lines::{
    add, back_name, below, block_name, compare, control, copy_name, loop_name, pixels, pointer,
    scratch, set,
};
use crate::scratch::buffer_offset;
use pf_ints::{Memory, Name};
use pf_machine::{Code, Control, Isa, Label, LabelList, role};

/// Appends the load of a pixel's bytes.
fn load_pixel<I: Isa>(code: &mut Code<I>, width: u8) -> Result<(), Memory>
    requires { IsPixel width }
    ensures { OnOk result (code.new ≡ code.old ++ load_value width ∷ []) }
{
    let (to, at) = (role::VALUE, role::POINTER);
    if width == 1 {
        control(code, Control::LoadByte { to, at })
    } else {
        control(code, Control::LoadHalf { to, at })
    }
}

/// Appends the store of a pixel's bytes.
fn store_pixel<I: Isa>(code: &mut Code<I>, width: u8) -> Result<(), Memory>
    requires { IsPixel width }
    ensures { OnOk result (code.new ≡ code.old ++ store_value width ∷ []) }
{
    let (at, from) = (role::END, role::VALUE);
    if width == 1 {
        control(code, Control::StoreByte { at, from })
    } else {
        control(code, Control::StoreHalf { at, from })
    }
}

/// Appends that the pointer goes on by x pixels, and the load of the pixel there.
fn fetch<I: Isa>(code: &mut Code<I>, width: u8) -> Result<(), Memory>
    requires { IsPixel width }
    ensures { OnOk result
        (code.new ≡ code.old ++ (pixel_lines pointer_role width ++ load_value width ∷ [])) }
{
    pixels(code, role::POINTER, width)?;
    load_pixel(code, width)
}

/// Appends the store of a copied pixel, and the way back to the label while pixels are left.
fn copy_end<I: Isa>(code: &mut Code<I>, width: u8, label: Name) -> Result<(), Memory>
    requires pixel { IsPixel width }
    requires named { IsTrue (is_name label) }
    ensures { OnOk result (code.new ≡ code.old ++ copy_end width label) }
{
    pixels(code, role::END, width)?;
    store_pixel(code, width)?;
    add(code, role::PIXEL, role::PIXEL, 1)?;
    compare(code, role::PIXEL, role::COUNT)?;
    below(code, label)
}

/// Appends that the register's address becomes one of the scratch's table.
fn keep<I: Isa>(code: &mut Code<I>, entry: u8) -> Result<(), Memory>
    ensures { OnOk result
        (code.new ≡ code.old ++ Line.Control (Control.StorePtr scratch_role entry end_role) ∷ []) }
{
    control(
        code,
        Control::StorePtr {
            base: role::SCRATCH,
            entry,
            from: role::END,
        },
    )
}

/// Appends a label for the instruction that comes next.
pub fn mark<I: Isa>(labels: &mut LabelList, code: &Code<I>, name: Name) -> Result<(), Memory>
    ensures { OnOk result (labels.new ≡ labels.old ++ label name (length code.now) ∷ []) }
{
    labels.push(Label {
        name,
        before: code.len() as u64,
    })
}

/// Appends the loop that copies tap number `k`, of so many, into its buffer.
fn tap_turn<I: Isa>(code: &mut Code<I>, taps: usize, k: u8, width: u8) -> Result<(), Memory>
    requires vector { I.table.vector ≤ 128 }
    requires taps { taps ≤ 64 }
    requires known { k < taps }
    requires pixel { IsPixel width }
    ensures { OnOk result (code.new ≡ code.old ++ copy_turn (Line.Control (Control.LoadPtr pointer_role kept_role k) ∷ [])
        (scratch_lines end_role (buffer_at I.table.vector taps k)) width (copy_label k)) }
{
    pointer(code, role::POINTER, role::KEPT, k)?;
    fetch(code, width)?;
    scratch(
        code,
        role::END,
        buffer_offset(I::VECTOR, taps, usize::from(k)),
    )?;
    copy_end(code, width, copy_name(k))
}

/// Appends the copy of tap number `k`, of so many, and the label in it.
fn tap<I: Isa>(
    code: &mut Code<I>,
    labels: &mut LabelList,
    taps: usize,
    k: u8,
    width: u8,
) -> Result<(), Memory>
    requires vector { I.table.vector ≤ 128 }
    requires taps { taps ≤ 64 }
    requires known { k < taps }
    requires pixel { IsPixel width }
    ensures lines { OnOk result (code.new ≡ code.old ++ tap_copy I.table.vector taps k width) }
    ensures labels { OnOk result
        (labels.new ≡ labels.old ++ label (copy_label k) (length code.old + 1) ∷ []) }
{
    let buffer = buffer_offset(I::VECTOR, taps, usize::from(k));
    set(code, role::PIXEL, 0)?;
    mark(labels, code, copy_name(k))?;
    tap_turn(code, taps, k, width)?;
    scratch(code, role::END, buffer)?;
    keep(code, k)
}

/// Appends the loop that copies a narrow row back to its place.
fn back_turn<I: Isa>(code: &mut Code<I>, taps: usize, width: u8) -> Result<(), Memory>
    requires vector { I.table.vector ≤ 128 }
    requires taps { taps ≤ 64 }
    requires pixel { IsPixel width }
    ensures { OnOk result (code.new ≡ code.old ++ copy_turn (scratch_lines pointer_role (buffer_at I.table.vector taps taps))
        (Line.Control (Control.LoadPtr end_role kept_role taps) ∷ []) width (codes "loop")) }
{
    scratch(code, role::POINTER, buffer_offset(I::VECTOR, taps, taps))?;
    fetch(code, width)?;
    pointer(code, role::END, role::KEPT, taps as u8)?;
    copy_end(code, width, loop_name())
}

/// Appends the copy of a narrow row back to its place, and the row's end, with their labels.
pub fn back<I: Isa>(
    code: &mut Code<I>,
    labels: &mut LabelList,
    taps: usize,
    width: u8,
) -> Result<(), Memory>
    requires vector { I.table.vector ≤ 128 }
    requires taps { taps ≤ 64 }
    requires pixel { IsPixel width }
    ensures lines { OnOk result (code.new ≡ code.old ++ back_lines I.table.vector taps width) }
    ensures labels { OnOk result (labels.new
        ≡ labels.old ++ label (codes "back") (length code.old) ∷ label (codes "loop") (length code.old + 1) ∷ []) }
{
    mark(labels, code, back_name())?;
    set(code, role::PIXEL, 0)?;
    mark(labels, code, loop_name())?;
    back_turn(code, taps, width)?;
    control(code, Control::Return)
}

/// Appends the copy of each tap, and labels in them.
fn taps<I: Isa>(code: &mut Code<I>, labels: &mut LabelList, widths: &[u8]) -> Result<(), Memory>
    requires vector { I.table.vector ≤ 128 }
    requires taps { length widths.now ≤ 64 }
    requires pixels { All IsPixel widths.now }
    ensures lines { OnOk result
        (code.new ≡ code.old ++ tap_copies I.table.vector (length widths.now) 0 widths.now) }
    ensures labels { OnOk result (labels.new
        ≡ labels.old ++ copy_labels I I.Op I.table.vector (length widths.now) 0 (length code.old) widths.now) }
{
    let mut k: u8 = 0;
    for width in widths {
        tap(code, labels, widths.len(), k, *width)?;
        k += 1;
    }
    Ok(())
}

/// Appends the copy of a narrow row into the scratch, and the way to the block.
pub fn narrow<I: Isa>(
    code: &mut Code<I>,
    labels: &mut LabelList,
    widths: &[u8],
) -> Result<(), Memory>
    requires vector { I.table.vector ≤ 128 }
    requires taps { length widths.now ≤ 64 }
    requires pixels { All IsPixel widths.now }
    ensures lines { OnOk result (code.new ≡ code.old ++ narrow_lines I.table.vector widths.now) }
    ensures labels { OnOk result (labels.new
        ≡ labels.old ++ copy_labels I I.Op I.table.vector (length widths.now) 0 (length code.old) widths.now) }
{
    taps(code, labels, widths)?;
    let count = widths.len();
    scratch(code, role::END, buffer_offset(I::VECTOR, count, count))?;
    keep(code, count as u8)?;
    add(code, role::TABLE, role::SCRATCH, 0)?;
    set(code, role::PIXEL, 0)?;
    control(
        code,
        Control::Jump {
            label: block_name(),
        },
    )
}
