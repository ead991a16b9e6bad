//! Faults as short texts, so that tables of texts can hold them.

use pf_ints::{Bits, LaneType, Name};
use pf_kernel::KernelFault;
use pf_terms::{LimitKind, ReadFault};
use std::alloc::Global;
use std::str;
use std::test::Fail;

/// The word of a type, as u8.
pub fn type_word(ty: LaneType) -> &'static str {
    match (ty.signed, ty.bits) {
        (false, Bits::Eight) => "u8",
        (true, Bits::Eight) => "i8",
        (false, Bits::Sixteen) => "u16",
        (true, Bits::Sixteen) => "i16",
        (false, Bits::ThirtyTwo) => "u32",
        (true, Bits::ThirtyTwo) => "i32",
    }
}

fn name(alloc: Global, name: &Name) -> Result<String, Fail> {
    let name = str::from_utf8(name.as_slice())?;
    Ok(format!(in alloc; "name {name}")?)
}

fn types(alloc: Global, want: LaneType, got: LaneType) -> Result<String, Fail> {
    let (want, got) = (type_word(want), type_word(got));
    Ok(format!(in alloc; "types {want} {got}")?)
}

fn limit(alloc: Global, what: LimitKind, count: i64) -> Result<String, Fail> {
    let what = str::from_utf8(what.word())?;
    Ok(format!(in alloc; "limit {what} {count}")?)
}

/// What is told of a text that is no term: `syntax COLUMN`, `name WORD`, `types WANT GOT`, `amount K`
/// or `limit WHAT COUNT`.
pub fn read_fault(alloc: Global, fault: &ReadFault) -> Result<String, Fail> {
    match fault {
        ReadFault::Syntax { column } => Ok(format!(in alloc; "syntax {column}")?),
        ReadFault::Name { name: word } => name(alloc, word),
        ReadFault::Types { want, got } => types(alloc, *want, *got),
        ReadFault::Amount { amount } => Ok(format!(in alloc; "amount {amount}")?),
        ReadFault::Limit { what, count } => limit(alloc, *what, *count),
        ReadFault::Memory => Err("memory".into()),
    }
}

/// What is told of a text that is no kernel: the same behind the line, but a limit without it.
pub fn kernel_fault(alloc: Global, fault: &KernelFault) -> Result<String, Fail> {
    let (line, told) = match fault {
        KernelFault::Syntax { line, column } => { (*line, format!(in alloc; "syntax {column}")?) }
        KernelFault::Name { line, name: word } => (*line, name(alloc, word)?),
        KernelFault::Types { line, want, got } => (*line, types(alloc, *want, *got)?),
        KernelFault::Limit { what, count } => return limit(alloc, *what, *count),
        KernelFault::Memory => return Err("memory".into()),
    };
    Ok(format!(in alloc; "{line} {told}")?)
}
