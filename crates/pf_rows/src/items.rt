ghost use Rattle.std.specs.Prelude.{◌≡◌, ◌+◌, ◌*◌, ◌/◌, ◌^◌, ◌<◌, ◌≤◌, ◌++◌, [], ◌∷◌, length, OnOk, All};
ghost use Rattle.pf_rows.specs.Meaning.BlockRows.{IsBlockItem};
ghost use Rattle.pf_rows.specs.Steps.RowCode.{pixel_lines, item_lines, block_lines, IsOne, SlotEndsBelow, IsPixel};
ghost use Rattle.pf_machine.specs.declared.control.Control.{Control};
ghost use Rattle.pf_machine.specs.declared.code.Line.{Line};
ghost use Rattle.pf_machine.specs.Meaning.Roles.{pointer_role, table_role};

use crate::lines::{pixels, pointer, scratch};
use crate::scratch::slot_offset;
use pf_ints::Memory;
use pf_machine::{Block, Code, Isa, Item, Line, role};

/// Appends that the pointer goes to pixel x of an entry of the table, whose pixels have so many
/// bytes.
fn at_entry<I: Isa>(code: &mut Code<I>, entry: u8, width: u8) -> Result<(), Memory>
    requires { IsPixel width }
    ensures { OnOk result (code.new
        ≡ code.old ++ Line.Control (Control.LoadPtr pointer_role table_role entry) ∷ pixel_lines pointer_role width) }
{
    pointer(code, role::POINTER, role::TABLE, entry)?;
    pixels(code, role::POINTER, width)
}

/// Appends the instructions of a step of a block, over taps and an output whose pixels have so
/// many bytes.
fn item<I: Isa>(
    code: &mut Code<I>,
    widths: &[u8],
    width: u8,
    item: Item<I::Op>,
) -> Result<(), Memory>
    requires vector { I.table.vector ≤ 128 }
    requires taps { length widths.now ≤ 64 }
    requires pixels { All IsPixel widths.now }
    requires pixel { IsPixel width }
    requires step { IsBlockItem widths.now width item }
    requires near { SlotEndsBelow I.table.vector (length widths.now) (2 ^ 30) item }
    ensures lines { OnOk result (code.new ≡ code.old ++ item_lines I.table widths.now width item) }
    ensures known { OnOk result (IsOne I.is_op item) }
{
    match item {
        Item::Vector(op) => {
            I::known(&op);
            code.push(Line::Vector(op))
        }
        Item::TapLoad { to, tap, part } => {
            at_entry(code, tap, widths[usize::from(tap)])?;
            code.push(Line::Vector(I::load(to, part)))
        }
        Item::OutStore { from, part } => {
            at_entry(code, widths.len() as u8, width)?;
            code.push(Line::Vector(I::store(from, part)))
        }
        Item::SlotLoad { to, slot } => {
            scratch(
                code,
                role::POINTER,
                slot_offset(I::VECTOR, widths.len(), slot),
            )?;
            code.push(Line::Vector(I::load(to, 0)))
        }
        Item::SlotStore { from, slot } => {
            scratch(
                code,
                role::POINTER,
                slot_offset(I::VECTOR, widths.len(), slot),
            )?;
            code.push(Line::Vector(I::store(from, 0)))
        }
    }
}

/// Appends the instructions of a block.
pub fn items<I: Isa>(
    code: &mut Code<I>,
    widths: &[u8],
    width: u8,
    block: Block<I::Op>,
) -> Result<(), Memory>
    requires vector { I.table.vector ≤ 128 }
    requires taps { length widths.now ≤ 64 }
    requires pixels { All IsPixel widths.now }
    requires pixel { IsPixel width }
    requires steps { All (λ i. IsBlockItem widths.now width i) block }
    requires near { All (λ i. SlotEndsBelow I.table.vector (length widths.now) (2 ^ 30) i) block }
    ensures lines { OnOk result (code.new ≡ code.old ++ block_lines I.table widths.now width block) }
    ensures known { OnOk result (All (λ i. IsOne I.is_op i) block) }
{
    for step in block.into_vec() {
        item(code, widths, width, step)?;
    }
    Ok(())
}
