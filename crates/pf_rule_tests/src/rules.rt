//! Rules as data: their types, their forms, the widths and shifts at which they are rules, and
//! what they keep.

ghost use Rattle.std.specs.Prelude.{◌≡◌, IfOk, length};

use pf_forms::{Axiom, print_form, size};
use pf_ints::{Duplicate, LaneType, Name, NameList, NumberList, Path, Target};
use pf_laneops::LaneName;
use pf_rules::{
    Amount, By, FileParts, Kind, LinOf, LinPart, LinParts, Number, NumberItem, NumberPart,
    NumberParts, PairsFault, PatType, Pattern, Rule, RuleFile, RuleList, RuleParts, SortFault,
    Step, StepList, VarDecl, VarList, amount_at, form_of, form_size, is_file, is_formed, is_rule,
    nodes, number_at, occurrences, pairs, range_of, sort_of, suits, type_of, weight,
};
use pf_values::Op;
use sqlite_items::Items;
use std::alloc::Global;
use std::process::Abort;
use std::test::Fail;

const U1: PatType = PatType {
    signed: false,
    times: 1,
};

const U2: PatType = PatType {
    signed: false,
    times: 2,
};

const U4: PatType = PatType {
    signed: false,
    times: 4,
};

const I1: PatType = PatType {
    signed: true,
    times: 1,
};

const I2: PatType = PatType {
    signed: true,
    times: 2,
};

fn none() -> Amount {
    Amount::Int(0)
}

fn plus(item: NumberItem) -> NumberPart {
    NumberPart { minus: false, item }
}

fn minus(item: NumberItem) -> NumberPart {
    NumberPart { minus: true, item }
}

fn power(times: i64, exponent: Amount) -> NumberItem {
    NumberItem::Power { times, exponent }
}

fn number(alloc: Global, part: NumberPart) -> Result<Number, Fail> {
    let mut parts = NumberParts::new(alloc);
    parts.push(part)?;
    Ok(Number { parts })
}

fn sum(alloc: Global, first: NumberPart, second: NumberPart) -> Result<Number, Fail> {
    let mut parts = NumberParts::new(alloc);
    parts.push(first)?;
    parts.push(second)?;
    Ok(Number { parts })
}

fn int(alloc: Global, n: i64) -> Result<Number, Fail> {
    number(alloc, plus(NumberItem::Int(n)))
}

/// times*unit + n
fn linear(alloc: Global, times: i64, of: LinOf, n: i64) -> Result<Amount, Fail> {
    let mut parts = LinParts::new(alloc);
    parts.push(LinPart {
        minus: false,
        times,
        of,
    })?;
    parts.push(LinPart {
        minus: n < 0,
        times: n.saturating_abs(),
        of: LinOf::One,
    })?;
    Ok(Amount::Linear(parts))
}

/// 2^w - 1
fn ones(alloc: Global) -> Result<Number, Fail> {
    sum(alloc, plus(power(1, Amount::W)), minus(NumberItem::Int(1)))
}

fn one(alloc: Global, op: Op, to: Option<PatType>, k: Amount, x: Pattern) -> Result<Pattern, Fail> {
    let mut args = Items::new(alloc);
    args.push(x)?;
    Ok(Pattern::Node { op, to, k, args })
}

fn two(alloc: Global, op: Op, k: Amount, x: Pattern, y: Pattern) -> Result<Pattern, Fail> {
    let mut args = Items::new(alloc);
    args.push(x)?;
    args.push(y)?;
    Ok(Pattern::Node {
        op,
        to: None,
        k,
        args,
    })
}

fn lane(alloc: Global, op: LaneName, x: Pattern, y: Pattern) -> Result<Pattern, Fail> {
    let mut args = Items::new(alloc);
    args.push(x)?;
    args.push(y)?;
    Ok(Pattern::Lane {
        op,
        to: None,
        k: none(),
        args,
    })
}

fn name(bytes: &[u8]) -> Result<Name, Fail> {
    Ok(Name::new(bytes).ok_or("no name")?)
}

fn decl(bytes: &[u8], ty: PatType) -> Result<VarDecl, Fail> {
    Ok(VarDecl {
        name: name(bytes)?,
        ty,
        range: None,
    })
}

/// x, y and z of these types.
fn vars(alloc: Global, x: PatType, y: PatType, z: PatType) -> Result<VarList, Fail>
    ensures { IfOk result (λ vars. length vars ≡ 3) }
{
    let mut vars = VarList::new(alloc);
    vars.push(decl(b"x", x)?)?;
    vars.push(decl(b"y", y)?)?;
    vars.push(decl(b"z", z)?)?;
    Ok(vars)
}

/// x and y of one type.
fn x_and_y(alloc: Global, ty: PatType) -> Result<VarList, Fail> {
    let mut vars = VarList::new(alloc);
    vars.push(decl(b"x", ty)?)?;
    vars.push(decl(b"y", ty)?)?;
    Ok(vars)
}

/// i1((i2(x) * i2(y)) >> 15)
fn q15_left(alloc: Global) -> Result<Pattern, Fail> {
    let x = one(alloc, Op::Cast, Some(I2), none(), Pattern::Var(0))?;
    let y = one(alloc, Op::Cast, Some(I2), none(), Pattern::Var(1))?;
    let product = two(alloc, Op::Mul, none(), x, y)?;
    let shifted = one(alloc, Op::ShiftRight, None, Amount::Int(15), product)?;
    one(alloc, Op::Cast, Some(I1), none(), shifted)
}

fn q15_right(alloc: Global) -> Result<Pattern, Fail> {
    two(
        alloc,
        Op::MulShr,
        Amount::Int(15),
        Pattern::Var(0),
        Pattern::Var(1),
    )
}

/// {2^w-1}u1 - x as a lane operation
fn rest(alloc: Global, x: Pattern) -> Result<Pattern, Fail> {
    let all = Pattern::Const {
        n: ones(alloc)?,
        ty: U1,
    };
    lane(alloc, LaneName::Sub, all, x)
}

fn by_average(alloc: Global) -> Result<Pattern, Fail> {
    let x = rest(alloc, Pattern::Var(0))?;
    let y = rest(alloc, Pattern::Var(1))?;
    rest(alloc, lane(alloc, LaneName::RoundingHalvingAdd, x, y)?)
}

/// A rule of a left and a right side over x and y of one type.
fn rule(
    alloc: Global,
    widths: &[i128],
    ty: PatType,
    lhs: Pattern,
    rhs: Pattern,
) -> Result<RuleParts, Fail> {
    Ok(RuleParts {
        name: name(b"rule")?,
        widths: NumberList::from_slice(alloc, widths)?,
        shift: None,
        vars: x_and_y(alloc, ty)?,
        lhs,
        rhs,
        steps: StepList::new(alloc),
    })
}

fn q15(alloc: Global) -> Result<RuleParts, Fail> {
    rule(alloc, &[16], I1, q15_left(alloc)?, q15_right(alloc)?)
}

/// The sum of x and y, which is the same sum: a rule but for what a test changes.
fn plain(alloc: Global) -> Result<RuleParts, Fail> {
    let lhs = two(alloc, Op::Add, none(), Pattern::Var(0), Pattern::Var(1))?;
    let rhs = two(alloc, Op::Add, none(), Pattern::Var(1), Pattern::Var(0))?;
    rule(alloc, &[8, 16], U1, lhs, rhs)
}

/// The names x, y and z.
fn names(alloc: Global) -> Result<NameList, Fail>
    ensures { IfOk result (λ names. length names ≡ 3) }
{
    let mut names = NameList::new(alloc);
    names.push(Name::new(b"x").ok_or("no name")?)?;
    names.push(Name::new(b"y").ok_or("no name")?)?;
    names.push(Name::new(b"z").ok_or("no name")?)?;
    Ok(names)
}

/// Whether the pattern over x, y and z has a type and a form with this text.
fn has_form(
    alloc: Global,
    pattern: &Pattern,
    kind: Kind,
    ty: PatType,
    w: u8,
    text: &[u8],
) -> Result<bool, Fail> {
    let vars = vars(alloc, ty, ty, ty)?;
    match sort_of(alloc, pattern, &vars, kind, w, 0) {
        Ok(_) => {
            let form = form_of(alloc, pattern, &vars, w, 0)?;
            Ok(print_form(alloc, &form, &names(alloc)?)?.as_slice() == text)
        }
        Err(_) => Ok(false),
    }
}

/// Whether the fault is one of types at the path.
fn is_types(answer: &Result<LaneType, SortFault>, wanted: &[u8]) -> bool {
    match answer {
        Err(SortFault::Types { path }) => path.as_slice() == wanted,
        _ => false,
    }
}

fn is_amount(answer: &Result<LaneType, SortFault>, wanted: &[u8], n: i128) -> bool {
    match answer {
        Err(SortFault::Amount { path, amount }) => path.as_slice() == wanted && *amount == n,
        _ => false,
    }
}

fn is_sort(answer: &Result<LaneType, SortFault>, wanted: LaneType) -> bool {
    match answer {
        Ok(ty) => *ty == wanted,
        Err(_) => false,
    }
}

#[test]
fn types_and_forms_of_a_product(rt: HostRuntime) -> Result<(), Fail> {
    let parts = q15(rt.alloc())?;
    assert!(rt; is_rule(&parts));
    assert!(rt; suits(Kind::Lift, &parts));
    assert!(rt; !suits(Kind::Lower(Target::Neon), &parts));
    assert_eq!(rt; weight(&parts.lhs), 17);
    assert_eq!(rt; weight(&parts.rhs), 4);
    assert_eq!(rt; nodes(&parts.lhs), 7);
    let left = sort_of(rt.alloc(), &parts.lhs, &parts.vars, Kind::Lift, 16, 0);
    assert!(rt; is_sort(&left, LaneType::I16));
    let text = b"wrap_i16(div(wrap_i32(mul(wrap_i32(x),wrap_i32(y))),2^15))";
    assert!(rt; has_form(rt.alloc(), &parts.lhs, Kind::Lift, I1, 16, text)?);
    let text = b"sat_i16(div(mul(x,y),2^15))";
    assert!(rt; has_form(rt.alloc(), &parts.rhs, Kind::Lift, I1, 16, text)?);
    // An amount of 15 is past the bits of a product of bytes, and 4w bits aren't asked for.
    let right = sort_of(rt.alloc(), &parts.rhs, &parts.vars, Kind::Lift, 8, 0);
    assert!(rt; is_sort(&right, LaneType::I8));
    Ok(())
}

#[test]
fn types_and_forms_of_lane_operations(rt: HostRuntime) -> Result<(), Fail> {
    let side = by_average(rt.alloc())?;
    let text = b"wrap_u8(sub(255,div(add(add(wrap_u8(sub(255,x)),wrap_u8(sub(255,y))),1),2^1)))";
    let avx2 = Kind::Lower(Target::Avx2);
    assert!(rt; has_form(rt.alloc(), &side, avx2, U1, 8, text)?);
    let vars = x_and_y(rt.alloc(), U1)?;
    // AVX2 has no such mean of 32 bits, and a file that lifts has no lane operation.
    assert!(rt; is_types(&sort_of(rt.alloc(), &side, &vars, avx2, 32, 0), &[1]));
    assert!(rt;
        is_types(
            &sort_of(rt.alloc(), &side, &vars, Kind::Lift, 8, 0),
            &[1, 0]
        )
    );
    assert_eq!(rt; occurrences(0, &side), 1);
    assert_eq!(rt; occurrences(2, &side), 0);
    assert!(rt; form_size_is(&side, 16));
    Ok(())
}

fn form_size_is(side: &Pattern, wanted: u64) -> bool {
    is_formed(3, side) && form_size(side) == wanted
}

#[test]
fn tells_the_first_fault(rt: HostRuntime) -> Result<(), Fail> {
    let shifted = one(
        rt.alloc(),
        Op::ShiftRight,
        None,
        Amount::Int(9),
        Pattern::Var(0),
    )?;
    let sum = two(rt.alloc(), Op::Add, none(), shifted, Pattern::Var(1))?;
    let vars = vars(rt.alloc(), U1, U2, U1)?;
    // The amount is told first, being a child's; the types are told where amounts aren't judged.
    let both = sort_of(rt.alloc(), &sum, &vars, Kind::Lift, 8, 0);
    assert!(rt; is_amount(&both, &[0], 9));
    assert!(rt; is_types(&type_of(rt.alloc(), &sum, &vars, Kind::Lift, 8, 0), &[]));
    // At 16 bits the amount is one, and u2 has 32 bits.
    assert!(rt; is_types(&sort_of(rt.alloc(), &sum, &vars, Kind::Lift, 16, 0), &[]));
    // At 32 bits u2 is no type.
    assert!(rt; is_types(&sort_of(rt.alloc(), &sum, &vars, Kind::Lift, 32, 0), &[1]));
    Ok(())
}

#[test]
fn judges_stated_types_and_numbers(rt: HostRuntime) -> Result<(), Fail> {
    let vars = x_and_y(rt.alloc(), U1)?;
    let wide = one(rt.alloc(), Op::Cast, Some(U4), none(), Pattern::Var(0))?;
    assert!(rt;
        is_sort(
            &sort_of(rt.alloc(), &wide, &vars, Kind::Lift, 8, 0),
            LaneType::U32
        )
    );
    assert!(rt; is_types(&sort_of(rt.alloc(), &wide, &vars, Kind::Lift, 16, 0), &[]));
    let untyped = one(rt.alloc(), Op::Cast, None, none(), Pattern::Var(0))?;
    assert!(rt; is_types(&sort_of(rt.alloc(), &untyped, &vars, Kind::Lift, 8, 0), &[]));
    let alone = one(rt.alloc(), Op::Add, None, none(), Pattern::Var(0))?;
    assert!(rt; is_types(&sort_of(rt.alloc(), &alone, &vars, Kind::Lift, 8, 0), &[]));
    let greatest = Pattern::Const {
        n: ones(rt.alloc())?,
        ty: U1,
    };
    assert!(rt;
        is_sort(
            &sort_of(rt.alloc(), &greatest, &vars, Kind::Lift, 32, 0),
            LaneType::U32
        )
    );
    let above = Pattern::Const {
        n: number(rt.alloc(), plus(power(1, Amount::W)))?,
        ty: U1,
    };
    assert!(rt; is_types(&sort_of(rt.alloc(), &above, &vars, Kind::Lift, 8, 0), &[]));
    Ok(())
}

#[test]
fn evaluates_numbers_within_limits(rt: HostRuntime) -> Result<(), Fail> {
    let alloc = rt.alloc();
    let zero = number(alloc, plus(power(0, Amount::Int(200))))?;
    assert_eq!(rt; number_at(&zero, 8, 0), Some(0));
    let most = number(alloc, minus(power(1, Amount::Int(120))))?;
    assert_eq!(rt; number_at(&most, 8, 0), Some(-(1 << 120)));
    let past = number(alloc, plus(power(1, Amount::Int(121))))?;
    assert!(rt; number_at(&past, 8, 0).is_none());
    let past = number(alloc, plus(power(2, Amount::Int(120))))?;
    assert!(rt; number_at(&past, 8, 0).is_none());
    // The sum on the way counts, from the left.
    let first = plus(power(1, Amount::Int(120)));
    let over = sum(alloc, first, plus(NumberItem::Int(1)))?;
    assert!(rt; number_at(&over, 8, 0).is_none());
    let under = sum(
        alloc,
        minus(NumberItem::Int(1)),
        plus(power(1, Amount::Int(120))),
    )?;
    assert_eq!(rt; number_at(&under, 8, 0), Some((1 << 120) - 1));
    // No exponent is negative.
    let half = number(alloc, plus(power(1, linear(alloc, 1, LinOf::K, -1)?)))?;
    assert_eq!(rt; number_at(&half, 8, 3), Some(4));
    assert!(rt; number_at(&half, 8, 0).is_none());
    let wide = linear(alloc, 2, LinOf::W, -8)?;
    assert_eq!(rt; amount_at(&wide, 16, 0), Some(24));
    Ok(())
}

/// The rule that adds, with a shift from one number to another.
fn shifted(alloc: Global, from: Number, to: Number, widths: &[i128]) -> Result<RuleParts, Fail> {
    let mut parts = plain(alloc)?;
    parts.widths = NumberList::from_slice(alloc, widths)?;
    parts.shift = Some((from, to));
    Ok(parts)
}

/// How many widths and shifts the rule has, or the width at which it has none.
fn pairs_of(alloc: Global, parts: RuleParts) -> Result<Result<(usize, u8), u8>, Fail> {
    if !is_rule(&parts) {
        return Err(Fail::from("no rule"));
    }
    match pairs(alloc, &Rule::new(parts)) {
        Ok(all) => Ok(Ok((all.len(), all.get(0).ok_or("no pair")?.k))),
        Err(PairsFault::Shift { w }) => Ok(Err(w)),
        Err(PairsFault::Memory) => Err(Fail::from("no memory")),
    }
}

#[test]
fn goes_through_widths_and_shifts(rt: HostRuntime) -> Result<(), Fail> {
    let alloc = rt.alloc();
    assert!(rt; matches!(pairs_of(alloc, plain(alloc)?)?, Ok((2, 0))));
    let below = sum(alloc, plus(NumberItem::W), minus(NumberItem::Int(1)))?;
    let parts = shifted(alloc, int(alloc, 1)?, below, &[8, 16])?;
    assert!(rt; matches!(pairs_of(alloc, parts)?, Ok((22, 1))));
    let parts = shifted(alloc, int(alloc, 2)?, int(alloc, 1)?, &[8, 16])?;
    assert!(rt; matches!(pairs_of(alloc, parts)?, Err(8)));
    let parts = shifted(alloc, int(alloc, 0)?, int(alloc, 63)?, &[32])?;
    assert!(rt; matches!(pairs_of(alloc, parts)?, Ok((64, 0))));
    let parts = shifted(alloc, int(alloc, 0)?, int(alloc, 64)?, &[32])?;
    assert!(rt; matches!(pairs_of(alloc, parts)?, Err(32)));
    let parts = shifted(alloc, int(alloc, -1)?, int(alloc, 3)?, &[8, 32])?;
    assert!(rt; matches!(pairs_of(alloc, parts)?, Err(8)));
    let twice = sum(alloc, plus(NumberItem::W), plus(NumberItem::W))?;
    let parts = shifted(alloc, int(alloc, 0)?, twice, &[8, 16, 32])?;
    assert!(rt; matches!(pairs_of(alloc, parts)?, Err(32)));
    Ok(())
}

/// n selects, nested in their last operand.
fn selects(alloc: Global, n: u8) -> Result<Pattern, Fail> {
    let mut side = Pattern::Var(0);
    for _ in 0..n {
        let mut args = Items::new(alloc);
        args.push(Pattern::Var(0))?;
        args.push(Pattern::Var(1))?;
        args.push(Pattern::Var(0))?;
        args.push(side)?;
        side = Pattern::Node {
            op: Op::SelectEqual,
            to: None,
            k: none(),
            args,
        };
    }
    Ok(side)
}

#[test]
fn counts_the_nodes_of_forms(rt: HostRuntime) -> Result<(), Fail> {
    let alloc = rt.alloc();
    assert!(rt; form_size_is(&selects(alloc, 1)?, 9));
    assert!(rt; form_size_is(&selects(alloc, 10)?, 8185));
    assert!(rt; form_size_is(&selects(alloc, 11)?, 16377));
    let most = selects(alloc, 15)?;
    assert_eq!(rt; nodes(&most), 61);
    assert!(rt; form_size_is(&most, 262137));
    assert!(rt; form_size_is(&most.copy(alloc)?, 262137));
    let few = selects(alloc, 3)?;
    let vars = x_and_y(alloc, U1)?;
    if sort_of(alloc, &few, &vars, Kind::Lift, 8, 0).is_ok() {
        assert_eq!(rt; size(&form_of(alloc, &few, &vars, 8, 0)?), 57);
    }
    Ok(())
}

#[test]
fn refuses_what_is_no_rule(rt: HostRuntime) -> Result<(), Fail> {
    let alloc = rt.alloc();
    assert!(rt; is_rule(&plain(alloc)?));
    let mut bare = plain(alloc)?;
    bare.lhs = Pattern::Var(0);
    assert!(rt; !is_rule(&bare));
    let mut unbound = plain(alloc)?;
    unbound.lhs = two(alloc, Op::Add, none(), Pattern::Var(0), Pattern::Var(0))?;
    assert!(rt; !is_rule(&unbound));
    let mut undeclared = plain(alloc)?;
    undeclared.rhs = Pattern::Var(2);
    assert!(rt; !is_rule(&undeclared));
    let mut large = plain(alloc)?;
    large.rhs = selects(alloc, 16)?;
    assert!(rt; !is_rule(&large));
    let mut amount = plain(alloc)?;
    amount.rhs = two(
        alloc,
        Op::Add,
        Amount::Int(1),
        Pattern::Var(0),
        Pattern::Var(1),
    )?;
    assert!(rt; !is_rule(&amount));
    let mut untyped = plain(alloc)?;
    untyped.rhs = one(alloc, Op::Cast, None, none(), Pattern::Var(0))?;
    assert!(rt; !is_rule(&untyped));
    let bound = number(alloc, plus(NumberItem::K))?;
    assert!(rt; !is_rule(&shifted(alloc, int(alloc, 1)?, bound, &[8])?));
    Ok(())
}

#[test]
fn refuses_wrong_widths(rt: HostRuntime) -> Result<(), Fail> {
    let alloc = rt.alloc();
    for widths in [&[][..], &[16, 8], &[8, 8], &[4], &[8, 16, 32, 64]] {
        let mut parts = plain(alloc)?;
        parts.widths = NumberList::from_slice(alloc, widths)?;
        assert!(rt; !is_rule(&parts));
    }
    Ok(())
}

#[test]
fn tells_ranges_of_variables(rt: HostRuntime) -> Result<(), Fail> {
    let alloc = rt.alloc();
    let mut var = decl(b"x", U2)?;
    let whole = range_of(&var, 8, 0).ok_or("no range")?;
    assert!(rt; whole.lo() == 0 && whole.hi() == 65535);
    assert!(rt; range_of(&var, 32, 0).is_none());
    var.range = Some((int(alloc, 0)?, ones(alloc)?));
    let stated = range_of(&var, 16, 0).ok_or("no range")?;
    assert!(rt; stated.lo() == 0 && stated.hi() == 65535);
    var.range = Some((int(alloc, 1)?, int(alloc, 0)?));
    assert!(rt; range_of(&var, 8, 0).is_none());
    var.range = Some((int(alloc, -1)?, int(alloc, 0)?));
    assert!(rt; range_of(&var, 8, 0).is_none());
    var.range = Some((int(alloc, 0)?, int(alloc, 65536)?));
    assert!(rt; range_of(&var, 8, 0).is_none());
    assert!(rt; range_of(&var, 16, 0).is_some());
    Ok(())
}

/// A file of the rule that adds, with one step.
fn file(alloc: Global, format: u8, kind: Kind, by: By) -> Result<FileParts, Fail> {
    let mut parts = plain(alloc)?;
    parts.steps.push(Step {
        left: true,
        path: Path::new(alloc),
        by,
    })?;
    let mut rules = RuleList::new(alloc);
    if is_rule(&parts) {
        rules.push(Rule::new(parts))?;
    }
    Ok(FileParts {
        format,
        kind,
        rules,
    })
}

#[test]
fn keeps_what_files_keep(rt: HostRuntime) -> Result<(), Fail> {
    let alloc = rt.alloc();
    let by = By::Axiom(Axiom::AddComm);
    let parts = file(alloc, 1, Kind::Lift, by)?;
    if is_file(&parts) {
        assert_eq!(rt; RuleFile::new(parts).parts().rules.len(), 1);
    } else {
        return Err(Fail::from("no file"));
    }
    assert!(rt; is_file(&file(alloc, 2, Kind::Lift, by)?));
    assert!(rt; !is_file(&file(alloc, 3, Kind::Lift, by)?));
    assert!(rt; !is_file(&file(alloc, 1, Kind::Lower(Target::Hvx), by)?));
    assert!(rt; !is_file(&file(alloc, 1, Kind::Lift, By::Rule(0))?));
    assert!(rt; !is_file(&file(alloc, 2, Kind::Lift, By::Rule(0))?));
    Ok(())
}
