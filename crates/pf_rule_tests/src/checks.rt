//! Rules that are checked: accepted ones, and one refused for each cause.

use pf_axioms::StepFault;
use pf_check::{Checked, CheckedFile, EarlierList, RuleFault, check_file, check_rule};
use pf_forms::{Axiom, Form};
use pf_ints::{Name, NumberList, Path, Target};
use pf_laneops::LaneName;
use pf_rules::{
    Amount, By, FileParts, Kind, LinOf, LinPart, LinParts, Number, NumberItem, NumberPart,
    NumberParts, PatType, Pattern, Rule, RuleFile, RuleList, RuleParts, Step, StepList, VarDecl,
    VarList, is_file, is_rule, suits,
};
use pf_values::Op;
use sqlite_items::Items;
use std::alloc::Global;
use std::rt::HostRuntime;
use std::test::Fail;

const U1: PatType = PatType {
    signed: false,
    times: 1,
};

const U2: PatType = PatType {
    signed: false,
    times: 2,
};

const I1: PatType = PatType {
    signed: true,
    times: 1,
};

const I2: PatType = PatType {
    signed: true,
    times: 2,
};

type Range = Option<(Number, Number)>;

fn none() -> Amount {
    Amount::Int(0)
}

/// first + n
fn sum(alloc: Global, first: NumberItem, n: i64) -> Result<Number, Fail> {
    let mut parts = NumberParts::new(alloc);
    parts.push(NumberPart {
        minus: false,
        item: first,
    })?;
    parts.push(NumberPart {
        minus: n < 0,
        item: NumberItem::Int(n.saturating_abs()),
    })?;
    Ok(Number { parts })
}

fn int(alloc: Global, n: i64) -> Result<Number, Fail> {
    sum(alloc, NumberItem::Int(n), 0)
}

fn power(alloc: Global, exponent: Amount, n: i64) -> Result<Number, Fail> {
    sum(alloc, NumberItem::Power { times: 1, exponent }, n)
}

/// times*of + n
fn linear(alloc: Global, times: i64, of: LinOf, n: i64) -> Result<Amount, Fail> {
    let mut parts = LinParts::new(alloc);
    parts.push(LinPart {
        minus: false,
        times,
        of,
    })?;
    parts.push(LinPart {
        minus: n < 0,
        times: n.saturating_abs(),
        of: LinOf::One,
    })?;
    Ok(Amount::Linear(parts))
}

fn one(alloc: Global, op: Op, to: Option<PatType>, k: Amount, x: Pattern) -> Result<Pattern, Fail> {
    let mut args = Items::new(alloc);
    args.push(x)?;
    Ok(Pattern::Node { op, to, k, args })
}

fn two(alloc: Global, op: Op, k: Amount, x: Pattern, y: Pattern) -> Result<Pattern, Fail> {
    let mut args = Items::new(alloc);
    args.push(x)?;
    args.push(y)?;
    Ok(Pattern::Node {
        op,
        to: None,
        k,
        args,
    })
}

fn lane(alloc: Global, op: LaneName, x: Pattern, y: Pattern) -> Result<Pattern, Fail> {
    let mut args = Items::new(alloc);
    args.push(x)?;
    args.push(y)?;
    Ok(Pattern::Lane {
        op,
        to: None,
        k: none(),
        args,
    })
}

fn cast(alloc: Global, to: PatType, x: Pattern) -> Result<Pattern, Fail> {
    one(alloc, Op::Cast, Some(to), none(), x)
}

fn decl(name: &[u8], ty: PatType, range: Range) -> Result<VarDecl, Fail> {
    Ok(VarDecl {
        name: Name::new(name).ok_or("no name")?,
        ty,
        range,
    })
}

/// Steps by axioms, each at a path of a side.
fn steps(alloc: Global, rows: &[(bool, &[u8], &str)]) -> Result<StepList, Fail> {
    let mut steps = StepList::new(alloc);
    for (left, path, axiom) in rows {
        steps.push(Step {
            left: *left,
            path: Path::from_slice(alloc, path)?,
            by: By::Axiom(Axiom::from_name(axiom.as_bytes()).ok_or("no axiom")?),
        })?;
    }
    Ok(steps)
}

/// A rule over x, and y where there is one.
fn rule(
    alloc: Global,
    widths: &[i128],
    (x, y): (VarDecl, Option<VarDecl>),
    lhs: Pattern,
    rhs: Pattern,
    steps: StepList,
) -> Result<RuleParts, Fail> {
    let mut vars = VarList::new(alloc);
    vars.push(x)?;
    if let Some(y) = y {
        vars.push(y)?;
    }
    Ok(RuleParts {
        name: Name::new(b"rule").ok_or("no name")?,
        widths: NumberList::from_slice(alloc, widths)?,
        shift: None,
        vars,
        lhs,
        rhs,
        steps,
    })
}

/// u2(u1(x)) is x
fn same(alloc: Global, range: Range) -> Result<RuleParts, Fail> {
    let lhs = cast(alloc, U2, cast(alloc, U1, Pattern::Var(0))?)?;
    let steps = steps(
        alloc,
        &[(true, &[0], "drop_wrap"), (true, &[], "drop_wrap")],
    )?;
    let x = decl(b"x", U2, range)?;
    rule(alloc, &[8, 16], (x, None), lhs, Pattern::Var(0), steps)
}

/// x and y of one type, x in a range.
fn x_and_y(ty: PatType, range: Range) -> Result<(VarDecl, Option<VarDecl>), Fail> {
    Ok((decl(b"x", ty, range)?, Some(decl(b"y", ty, None)?)))
}

/// An operator over x and y, both cast.
fn of_casts(alloc: Global, op: Op, to: PatType) -> Result<Pattern, Fail> {
    let x = cast(alloc, to, Pattern::Var(0))?;
    let y = cast(alloc, to, Pattern::Var(1))?;
    two(alloc, op, none(), x, y)
}

fn of_vars(alloc: Global, op: Op, k: Amount) -> Result<Pattern, Fail> {
    two(alloc, op, k, Pattern::Var(0), Pattern::Var(1))
}

fn q15(alloc: Global, range: Range) -> Result<RuleParts, Fail> {
    let product = of_casts(alloc, Op::Mul, I2)?;
    let shifted = one(alloc, Op::ShiftRight, None, Amount::Int(15), product)?;
    let steps = steps(
        alloc,
        &[
            (true, &[0, 0, 0, 0], "drop_wrap"),
            (true, &[0, 0, 0, 1], "drop_wrap"),
            (true, &[0, 0], "drop_wrap"),
            (true, &[], "drop_wrap"),
            (false, &[], "drop_sat"),
        ],
    )?;
    rule(
        alloc,
        &[16],
        x_and_y(I1, range)?,
        cast(alloc, I1, shifted)?,
        of_vars(alloc, Op::MulShr, Amount::Int(15))?,
        steps,
    )
}

fn halve_u(alloc: Global) -> Result<RuleParts, Fail> {
    let added = of_casts(alloc, Op::Add, U2)?;
    let shifted = one(alloc, Op::ShiftRight, None, Amount::Int(1), added)?;
    let steps = steps(
        alloc,
        &[
            (true, &[0, 0, 0, 0], "drop_wrap"),
            (true, &[0, 0, 0, 1], "drop_wrap"),
            (true, &[0, 0], "drop_wrap"),
            (true, &[], "drop_wrap"),
        ],
    )?;
    rule(
        alloc,
        &[8, 16],
        x_and_y(U1, None)?,
        cast(alloc, U1, shifted)?,
        of_vars(alloc, Op::HalvingAdd, none())?,
        steps,
    )
}

/// {2^w-1}u1 - x as a lane operation
fn rest(alloc: Global, x: Pattern) -> Result<Pattern, Fail> {
    let all = Pattern::Const {
        n: power(alloc, Amount::W, -1)?,
        ty: U1,
    };
    lane(alloc, LaneName::Sub, all, x)
}

const BY_AVERAGE: [(bool, &[u8], &str); 38] = [
    (false, &[0, 1, 0, 0, 0], "drop_wrap"),
    (false, &[0, 1, 0, 0, 1], "drop_wrap"),
    (false, &[], "drop_wrap"),
    (false, &[], "sub_add"),
    (false, &[1], "neg_div"),
    (false, &[], "add_comm"),
    (false, &[], "div_in"),
    (false, &[0, 1, 0], "pow_num"),
    (false, &[0, 1], "fold"),
    (false, &[0], "add_assoc"),
    (false, &[0, 1], "fold"),
    (false, &[0, 0], "distribute"),
    (false, &[0, 0, 1], "fold"),
    (false, &[0], "add_assoc"),
    (false, &[0, 1], "fold"),
    (false, &[0, 0, 1, 0], "sub_add"),
    (false, &[0, 0, 1, 1], "sub_add"),
    (false, &[0, 0], "distribute"),
    (false, &[0, 0, 0], "distribute"),
    (false, &[0, 0, 0, 0], "fold"),
    (false, &[0, 0, 0, 1], "mul_back"),
    (false, &[0, 0, 0, 1, 0], "fold"),
    (false, &[0, 0, 0, 1], "mul_one"),
    (false, &[0, 0, 1], "distribute"),
    (false, &[0, 0, 1, 0], "fold"),
    (false, &[0, 0, 1, 1], "mul_back"),
    (false, &[0, 0, 1, 1, 0], "fold"),
    (false, &[0, 0, 1, 1], "mul_one"),
    (false, &[0, 0], "add_assoc"),
    (false, &[0, 0, 1], "add_back"),
    (false, &[0, 0, 1, 0], "add_comm"),
    (false, &[0, 0, 1], "add_assoc"),
    (false, &[0, 0], "add_back"),
    (false, &[0, 0, 0], "fold"),
    (false, &[0, 0], "add_comm"),
    (false, &[0], "add_assoc"),
    (false, &[0, 1], "fold"),
    (false, &[0], "add_zero"),
];

fn halve_by_avg(alloc: Global, rows: &[(bool, &[u8], &str)]) -> Result<RuleParts, Fail> {
    let x = rest(alloc, Pattern::Var(0))?;
    let y = rest(alloc, Pattern::Var(1))?;
    let average = lane(alloc, LaneName::RoundingHalvingAdd, x, y)?;
    rule(
        alloc,
        &[8, 16],
        x_and_y(U1, None)?,
        of_vars(alloc, Op::HalvingAdd, none())?,
        rest(alloc, average)?,
        steps(alloc, rows)?,
    )
}

/// u1((u2(x) + {2^(k-1)}u2) >> k), with shifts from 1 to w + n
fn shr_round(alloc: Global, n: i64) -> Result<RuleParts, Fail> {
    let half = Pattern::Const {
        n: power(alloc, linear(alloc, 1, LinOf::K, -1)?, 0)?,
        ty: U2,
    };
    let x = cast(alloc, U2, Pattern::Var(0))?;
    let added = two(alloc, Op::Add, none(), x, half)?;
    let shifted = one(alloc, Op::ShiftRight, None, Amount::K, added)?;
    let steps = steps(
        alloc,
        &[
            (true, &[0, 0, 0, 0], "drop_wrap"),
            (true, &[0, 0], "drop_wrap"),
            (true, &[], "drop_wrap"),
        ],
    )?;
    let lhs = cast(alloc, U1, shifted)?;
    let rhs = one(alloc, Op::RoundingShr, None, Amount::K, Pattern::Var(0))?;
    let x = decl(b"x", U1, None)?;
    let mut parts = rule(alloc, &[8, 16], (x, None), lhs, rhs, steps)?;
    parts.shift = Some((int(alloc, 1)?, sum(alloc, NumberItem::W, n)?));
    Ok(parts)
}

/// u2(u1(x)) + y is x + y, by rule 0
fn same_add(alloc: Global, range: Range) -> Result<RuleParts, Fail> {
    let x = cast(alloc, U2, cast(alloc, U1, Pattern::Var(0))?)?;
    let mut steps = StepList::new(alloc);
    steps.push(Step {
        left: true,
        path: Path::from_slice(alloc, &[0, 0])?,
        by: By::Rule(0),
    })?;
    rule(
        alloc,
        &[8, 16],
        x_and_y(U2, range)?,
        two(alloc, Op::Add, none(), x, Pattern::Var(1))?,
        of_vars(alloc, Op::Add, none())?,
        steps,
    )
}

/// 0 to 2^w - 1
fn narrow(alloc: Global) -> Result<Range, Fail> {
    Ok(Some((int(alloc, 0)?, power(alloc, Amount::W, -1)?)))
}

fn checked(
    alloc: Global,
    parts: RuleParts,
    kind: Kind,
    earlier: &EarlierList,
) -> Result<Result<Checked, (Rule, RuleFault)>, Fail> {
    if !is_rule(&parts) || !suits(kind, &parts) {
        return Err("no rule".into());
    }
    Ok(check_rule(alloc, Rule::new(parts), kind, earlier))
}

fn is_lift(alloc: Global, parts: RuleParts) -> Result<bool, Fail> {
    let earlier = EarlierList::new(alloc);
    Ok(checked(alloc, parts, Kind::Lift, &earlier)?.is_ok())
}

fn refused(answer: Result<Checked, (Rule, RuleFault)>) -> Option<RuleFault> {
    match answer {
        Ok(_) => None,
        Err((_, fault)) => Some(fault),
    }
}

fn refused_in(answer: Result<CheckedFile, (Name, RuleFault)>) -> Option<RuleFault> {
    match answer {
        Ok(_) => None,
        Err((_, fault)) => Some(fault),
    }
}

/// The fault of a rule that lifts.
fn fault(alloc: Global, parts: RuleParts) -> Result<RuleFault, Fail> {
    let earlier = EarlierList::new(alloc);
    Ok(refused(checked(alloc, parts, Kind::Lift, &earlier)?).ok_or("accepted")?)
}

fn is_got(fault: &RuleFault, step: u32, width: u8, lo: i128, hi: i128) -> bool {
    match fault {
        RuleFault::Step {
            n,
            w,
            fault: StepFault::NotGranted { got },
            ..
        } => *n == step && *w == width && got.lo() == lo && got.hi() == hi,
        _ => false,
    }
}

#[test]
fn a_wrap_is_dropped_inside_its_range(rt: HostRuntime) -> Result<(), Fail> {
    let alloc = rt.alloc();
    assert!(rt; is_lift(alloc, same(alloc, narrow(alloc)?)?)?);
    let all = fault(alloc, same(alloc, None)?)?;
    assert!(rt; is_got(&all, 1, 8, 0, 65535));
    let wide = power(alloc, linear(alloc, 2, LinOf::W, -8)?, -1)?;
    let later = fault(alloc, same(alloc, Some((int(alloc, 0)?, wide)))?)?;
    assert!(rt; is_got(&later, 1, 16, 0, 16777215));
    Ok(())
}

#[test]
fn a_product_needs_a_range(rt: HostRuntime) -> Result<(), Fail> {
    let alloc = rt.alloc();
    assert!(rt; is_got(&fault(alloc, q15(alloc, None)?)?, 4, 16, -32767, 32768));
    let range = Some((int(alloc, -32767)?, int(alloc, 32767)?));
    assert!(rt; is_lift(alloc, q15(alloc, range)?)?);
    assert!(rt; is_lift(alloc, halve_u(alloc)?)?);
    Ok(())
}

fn by_average(alloc: Global, rows: &[(bool, &[u8], &str)]) -> Result<Option<RuleFault>, Fail> {
    let kind = Kind::Lower(Target::Avx2);
    let earlier = EarlierList::new(alloc);
    Ok(refused(checked(alloc, halve_by_avg(alloc, rows)?, kind, &earlier)?))
}

#[test]
fn an_average_by_a_rounded_one(rt: HostRuntime) -> Result<(), Fail> {
    let alloc = rt.alloc();
    assert!(rt; by_average(alloc, &BY_AVERAGE)?.is_none());
    let missing = by_average(alloc, &BY_AVERAGE[1..])?;
    assert!(rt;
        match missing {
            Some(
                RuleFault::Step {
                    n,
                    w,
                    k,
                    fault: StepFault::NoMatch
                }
            ) => n == 15 && w == 8 && k == 0,
            _ => false,
        }
    );
    let apart = by_average(alloc, &BY_AVERAGE[..37])?;
    assert!(rt;
        match apart {
            Some(RuleFault::Apart { w, k, .. }) => w == 8 && k == 0,
            _ => false,
        }
    );
    Ok(())
}

#[test]
fn types_and_apart(rt: HostRuntime) -> Result<(), Fail> {
    let alloc = rt.alloc();
    let wide = rule(
        alloc,
        &[32],
        x_and_y(U1, None)?,
        of_casts(alloc, Op::Add, U2)?,
        of_vars(alloc, Op::WideningAdd, none())?,
        StepList::new(alloc),
    )?;
    assert!(rt;
        match fault(alloc, wide)? {
            RuleFault::Types { left, path } => left && path.as_slice() == [0].as_slice(),
            _ => false,
        }
    );
    let off = rule(
        alloc,
        &[8],
        x_and_y(U1, None)?,
        cast(alloc, U1, of_vars(alloc, Op::Min, none())?)?,
        Pattern::Var(0),
        steps(alloc, &[(true, &[], "drop_wrap")])?,
    )?;
    assert!(rt;
        match fault(alloc, off)? {
            RuleFault::Apart {
                w,
                k,
                left: Form::Min(_, _),
                right: Form::Var(0)
            } => w == 8 && k == 0,
            _ => false,
        }
    );
    Ok(())
}

#[test]
fn shifts(rt: HostRuntime) -> Result<(), Fail> {
    let alloc = rt.alloc();
    assert!(rt; is_lift(alloc, shr_round(alloc, -1)?)?);
    assert!(rt;
        match fault(alloc, shr_round(alloc, 0)?)? {
            RuleFault::Immediate { left, path, amount } => !left
                && path.as_slice().is_empty()
                && amount == 8,
            _ => false,
        }
    );
    assert!(rt;
        match fault(alloc, shr_round(alloc, -8)?)? {
            RuleFault::Range { var: None, w, k } => w == 8 && k == 0,
            _ => false,
        }
    );
    Ok(())
}

#[test]
fn weights_and_repetitions(rt: HostRuntime) -> Result<(), Fail> {
    let alloc = rt.alloc();
    let turned = rule(
        alloc,
        &[8],
        x_and_y(U1, None)?,
        of_vars(alloc, Op::Add, none())?,
        two(alloc, Op::Add, none(), Pattern::Var(1), Pattern::Var(0))?,
        StepList::new(alloc),
    )?;
    assert!(rt;
        match fault(alloc, turned)? {
            RuleFault::Heavier { left, right } => left == 5 && right == 5,
            _ => false,
        }
    );
    let doubled = rule(
        alloc,
        &[8],
        x_and_y(U1, None)?,
        of_vars(alloc, Op::Add, none())?,
        two(
            alloc,
            Op::HalvingAdd,
            none(),
            Pattern::Var(1),
            Pattern::Var(1),
        )?,
        StepList::new(alloc),
    )?;
    assert!(rt;
        match fault(alloc, doubled)? {
            RuleFault::Repeats { var } => var == 1,
            _ => false,
        }
    );
    Ok(())
}

#[test]
fn steps_by_an_earlier_rule(rt: HostRuntime) -> Result<(), Fail> {
    let alloc = rt.alloc();
    let mut earlier = EarlierList::new(alloc);
    match checked(alloc, same(alloc, narrow(alloc)?)?, Kind::Lift, &earlier)? {
        Ok(rule) => earlier.push(Some(rule))?,
        Err(_) => return Err("refused".into()),
    }
    let fine = same_add(alloc, narrow(alloc)?)?;
    assert!(rt; checked(alloc, fine, Kind::Lift, &earlier)?.is_ok());
    let wide = refused(checked(alloc, same_add(alloc, None)?, Kind::Lift, &earlier)?);
    assert!(rt; is_got(&wide.ok_or("accepted")?, 1, 8, 0, 65535));
    let mut none = EarlierList::new(alloc);
    none.push(None)?;
    let fine = same_add(alloc, narrow(alloc)?)?;
    assert!(rt;
        match refused(checked(alloc, fine, Kind::Lift, &none)?) {
            Some(RuleFault::Cites { n }) => n == 1,
            _ => false,
        }
    );
    Ok(())
}

/// A file of `same` and `same_add`, these with ranges for x.
fn two_rules(alloc: Global, first: Range, second: Range) -> Result<RuleFile, Fail> {
    let mut rules = RuleList::new(alloc);
    for parts in [same(alloc, first)?, same_add(alloc, second)?] {
        if !is_rule(&parts) {
            return Err("no rule".into());
        }
        rules.push(Rule::new(parts))?;
    }
    let parts = FileParts {
        format: 2,
        kind: Kind::Lift,
        rules,
    };
    if is_file(&parts) {
        Ok(RuleFile::new(parts))
    } else {
        Err("no file".into())
    }
}

#[test]
fn files_of_rules(rt: HostRuntime) -> Result<(), Fail> {
    let alloc = rt.alloc();
    let file = two_rules(alloc, narrow(alloc)?, narrow(alloc)?)?;
    match check_file(alloc, file) {
        Ok(file) => {
            assert!(rt; file.rules().len() == 2);
            assert!(rt; file.rules().get(1).is_some());
            assert!(rt; file.rules().get(2).is_none());
        }
        Err(_) => return Err("refused".into()),
    }
    let file = two_rules(alloc, None, narrow(alloc)?)?;
    let wide = refused_in(check_file(alloc, file));
    assert!(rt; is_got(&wide.ok_or("accepted")?, 1, 8, 0, 65535));
    Ok(())
}
