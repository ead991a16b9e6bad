//! Lane code holds each item once, and lists of arguments their numbers.

ghost use Rattle.std.specs.Prelude.{IfOk, OnOk, OnErr};
ghost use Rattle.pf_form_tests.specs.TestedCode.{HasAtMostTap};

use pf_ints::LaneType;
use pf_laneops::{ArgList, LaneCode, LaneItem};
use std::alloc::AllocError;
use std::test::Fail;

/// Adds tap 0, of bytes.
fn add_tap(code: &mut LaneCode) -> Result<u32, AllocError>
    requires { HasAtMostTap code.old.items }
    ensures ok { OnOk result (HasAtMostTap code.new.items) }
    ensures err { OnErr result (HasAtMostTap code.new.items) }
{
    let n = code.add(LaneItem::Tap {
        tap: 0,
        ty: LaneType::U8,
    })?;
    Ok(n)
}

#[test]
fn an_item_stands_once(rt: HostRuntime) -> Result<(), Fail> {
    let mut code = LaneCode::new(rt.alloc());
    let first = add_tap(&mut code)?;
    let again = add_tap(&mut code)?;
    assert_eq!(rt; (first, again, code.items().len()), (0, 0, 1));
    Ok(())
}

#[test]
fn arguments_keep_their_order(rt: HostRuntime) {
    let args = ArgList::of(rt.alloc(), &[7, 0, 7, 3]);
    assert!(rt; args.numbers() == [7, 0, 7, 3].as_slice());
}
