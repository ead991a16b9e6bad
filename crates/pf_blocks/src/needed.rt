ghost use Rattle.std.specs.Prelude.{◌≡◌, ℕ, ◌<◌, ◌≤◌, ◌+◌, length, All, true, false, IfOk, Some, Contains, slice_get, slice_index_or};
ghost use Rattle.pf_laneops.specs.Meaning.LaneCodes.{IsCode, is_own};
ghost use Rattle.pf_blocks.specs.Steps.Marks.{arguments, AreClosed};

use pf_ints::Memory;
use pf_laneops::LaneItem;
use std::alloc::Global;

/// Which items the output needs: the output, and the arguments of each that is needed.
pub fn needed(alloc: Global, items: &[LaneItem], output: usize) -> Result<Vec<bool>, Memory>
    requires code { IsCode items.now }
    requires output { output < length items.now }
    ensures count { IfOk result (λ marks. length marks.items ≡ length items.now) }
    ensures output { IfOk result (λ marks. slice_index_or marks.items output false ≡ true) }
    ensures closed { IfOk result (λ marks. AreClosed items.now 0 marks.items) }
{
    let mut marks = vec![in alloc; false; items.len()]?;
    marks[output] = true;
    let mut n = items.len();
    while n > 0 {
        n -= 1;
        visit(marks.as_mut_slice(), items, n);
    }
    Ok(marks)
}

// Marks the arguments of item n where it is marked.
fn visit(marks: &mut [bool], items: &[LaneItem], n: usize)
    requires code { IsCode items.now }
    requires inside { n < length items.now }
    requires count { length marks.old ≡ length items.now }
    requires closed { AreClosed items.now (n + 1) marks.old }
    ensures closed { AreClosed items.now n marks.new }
    ensures kept { (a : ℕ) → slice_index_or marks.old a false ≡ true → slice_index_or marks.new a false ≡ true }
{
    if !marks[n] {
        return;
    }
    mark(marks, &items[n], n);
}

fn mark(marks: &mut [bool], item: &LaneItem, n: usize)
    requires own { is_own n item.now ≡ true }
    requires inside { n < length marks.old }
    ensures marked { (a : ℕ) → Contains (arguments item.now) a → slice_index_or marks.new a false ≡ true }
    ensures kept { (a : ℕ) → slice_index_or marks.old a false ≡ true → slice_index_or marks.new a false ≡ true }
    ensures later { (a : ℕ) → n ≤ a → slice_index_or marks.new a false ≡ slice_index_or marks.old a false }
{
    match item {
        LaneItem::Work { args, .. } => mark_all(marks, args.numbers(), n),
        _ => {}
    }
}

// Marks items that stand before item n.
fn mark_all(marks: &mut [bool], args: &[u32], _n: usize)
    requires before { All (λ a. a < _n) args.now }
    requires inside { _n < length marks.old }
    ensures marked { (a : ℕ) → Contains args.now a → slice_index_or marks.new a false ≡ true }
    ensures kept { (a : ℕ) → slice_index_or marks.old a false ≡ true → slice_index_or marks.new a false ≡ true }
    ensures later { (a : ℕ) → _n ≤ a → slice_index_or marks.new a false ≡ slice_index_or marks.old a false }
{
    for a in args {
        marks[*a as usize] = true;
    }
}
