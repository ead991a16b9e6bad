ghost use Rattle.std.specs.Prelude.{◌≡◌, ◌++◌, [], pos, IfOk};
ghost use Rattle.pf_ints.specs.declared.lane.LaneType.{LaneType as Ty};
ghost use Rattle.pf_match.specs.Steps.Keys.{has_type, one_if};

use crate::key::TypeList;
use pf_ints::{Bits, Duplicate, LaneType, Memory, NumberList};
use std::alloc::Global;

/// Of each type of lanes the numbers of the rules whose left side has it.
#[derive(Drop)]
pub(crate) struct TypeLists {
    u8s: NumberList,
    i8s: NumberList,
    u16s: NumberList,
    i16s: NumberList,
    u32s: NumberList,
    i32s: NumberList,
}

impl TypeLists {
    ghost use Rattle.pf_match.specs.Steps.Lists.{list_of};

    pub(crate) fn new(alloc: Global) -> TypeLists
        ensures { (ty : Ty) → list_of result ty ≡ [] }
    {
        TypeLists {
            u8s: NumberList::new(alloc),
            i8s: NumberList::new(alloc),
            u16s: NumberList::new(alloc),
            i16s: NumberList::new(alloc),
            u32s: NumberList::new(alloc),
            i32s: NumberList::new(alloc),
        }
    }

    pub(crate) fn of(&self, ty: LaneType) -> &NumberList
        ensures { result.now ≡ list_of self.now ty }
    {
        match (ty.signed, ty.bits) {
            (false, Bits::Eight) => &self.u8s,
            (true, Bits::Eight) => &self.i8s,
            (false, Bits::Sixteen) => &self.u16s,
            (true, Bits::Sixteen) => &self.i16s,
            (false, Bits::ThirtyTwo) => &self.u32s,
            (true, Bits::ThirtyTwo) => &self.i32s,
        }
    }

    /// The lists with the number behind those of these types.
    pub(crate) fn with(
        &self,
        alloc: Global,
        types: &TypeList,
        number: u64,
    ) -> Result<TypeLists, Memory>
        ensures { IfOk result (λ l. (ty : Ty) → list_of l ty ≡ list_of self.now ty ++ one_if (has_type ty types.now) (pos number)) }
    {
        Ok(TypeLists {
            u8s: self.longer(alloc, LaneType::U8, types, number)?,
            i8s: self.longer(alloc, LaneType::I8, types, number)?,
            u16s: self.longer(alloc, LaneType::U16, types, number)?,
            i16s: self.longer(alloc, LaneType::I16, types, number)?,
            u32s: self.longer(alloc, LaneType::U32, types, number)?,
            i32s: self.longer(alloc, LaneType::I32, types, number)?,
        })
    }

    fn longer(
        &self,
        alloc: Global,
        ty: LaneType,
        types: &TypeList,
        number: u64,
    ) -> Result<NumberList, Memory>
        ensures { IfOk result (λ l. l ≡ list_of self.now ty ++ one_if (has_type ty types.now) (pos number)) }
    {
        let mut list = self.of(ty).copy(alloc)?;
        if has_type(ty, types.as_slice()) {
            list.push(i128::from(number))?;
        }
        Ok(list)
    }
}

fn has_type(ty: LaneType, types: &[LaneType]) -> bool
    ensures { result ≡ has_type ty types.now }
{
    match types {
        [] => false,
        [first, rest @ ..] => ty == *first || has_type(ty, rest),
    }
}
