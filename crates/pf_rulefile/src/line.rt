ghost use Rattle.std.specs.Prelude.{◌≡◌, ◌≤◌, length, IfOk};
ghost use Rattle.pf_rules.specs.Meaning.Rules.{is_free_shift};
ghost use Rattle.pf_rulefile.specs.Meaning.Tokens.{tokens};
ghost use Rattle.pf_rulefile.specs.Steps.NumberReads.{Gives};
ghost use Rattle.pf_rulefile.specs.Steps.FieldReads.{GivesOnly};
ghost use Rattle.pf_rulefile.specs.Steps.LineReads.{GivesLine, depth_limit, whole_side, all_used, kept, widths_line, shift_line, var_line, left_part, left_line, right_part, right_line, step_place, step_line};
ghost use Rattle.pf_rulefile.specs.Meaning.Says.{may_shift, may_var, added_var, added_step};
ghost use Rattle.pf_rulefile.specs.declared.fault.LineStop.TheVariants.{Told};

use crate::fault::{LineStop, RuleTextKind};
use crate::field::{by, no_more, path, shift, step_side, var, widths};
use crate::part::{Part, place_in};
use crate::side::side;
use crate::stop::Stop;
use crate::word::{Language, language_of};
use pf_ints::{Name, NumberList, Path};
use pf_rules::{Kind, Number, Pattern, Patterns, Rule, Step, StepList, VarDecl, VarList, is_free};
use std::alloc::Global;

const MOST_BRACKETS: u32 = 1024;

const MOST_VARS: usize = 8;

const MOST_STEPS: usize = 512;

/// What the lines of a rule say so far.
#[derive(Drop)]
pub struct Open {
    pub name: Name,
    pub widths: Option<NumberList>,
    pub shift: Option<(Number, Number)>,
    pub vars: VarList,
    pub lhs: Option<Pattern>,
    pub rhs: Option<Pattern>,
    pub steps: StepList,
}

pub fn told(kind: RuleTextKind) -> LineStop
    ensures { result ≡ Told kind }
{
    LineStop::Told(kind)
}

/// Less deep than this round brackets of sides are nested.
#[tactic(auto, unfolding(crate::specs::Steps::LineReads::depth_limit))]
fn depth_limit() -> u32
    ensures { result ≡ depth_limit }
{
    MOST_BRACKETS + 1
}

fn whole_side(
    alloc: Global,
    vars: &[VarDecl],
    language: Language,
    most: usize,
    text: &[u8],
) -> Result<Part, Stop>
    requires { length vars.now ≤ 8 }
    ensures { GivesOnly result (whole_side language most vars.now (tokens text.now)) }
{
    let (part, rest) = side(alloc, vars, most, language, depth_limit(), text)?;
    if no_more(rest) {
        Ok(part)
    } else {
        Err(Stop::Syntax)
    }
}

/// Whether the first so many variables are used.
fn all_used(count: usize, used: [bool; 8]) -> bool
    requires { count ≤ 8 }
    ensures { result ≡ all_used count used }
{
    let mut left = count;
    'vars: while 0 < left {
        left -= 1;
        if !used[left] {
            return false;
        }
    }
    true
}

/// The pattern of a side, where it has few enough nodes.
fn kept(patterns: Option<Patterns>) -> Option<Pattern>
    ensures { result ≡ kept patterns }
{
    let mut items = patterns?;
    if items.len() == 1 { items.pop() } else { None }
}

fn is_free_range(range: &Option<(Number, Number)>) -> bool
    ensures { result ≡ is_free_shift range.now }
{
    match range {
        Some((lo, hi)) => is_free(lo) && is_free(hi),
        None => true,
    }
}

/// A `widths` line.
pub fn widths_line(alloc: Global, rule: Open, text: &[u8]) -> Result<Open, LineStop>
    requires { length rule.vars ≤ 8 }
    ensures value { GivesLine result (widths_line rule (tokens text.now)) }
    ensures few { IfOk result (λ o. length o.vars ≤ 8) }
{
    if rule.widths.is_some() {
        return Err(told(RuleTextKind::Syntax));
    }
    let found = widths(alloc, text)?;
    let mut rule = rule;
    rule.widths = Some(found);
    Ok(rule)
}

fn may_shift(rule: &Open) -> bool
    ensures { result ≡ may_shift rule.now }
{
    rule.widths.is_some() && rule.shift.is_none() && rule.vars.len() == 0 && rule.lhs.is_none()
}

/// A `shift` line.
pub fn shift_line(alloc: Global, most: usize, rule: Open, text: &[u8]) -> Result<Open, LineStop>
    requires { length rule.vars ≤ 8 }
    ensures value { GivesLine result (shift_line most rule (tokens text.now)) }
    ensures few { IfOk result (λ o. length o.vars ≤ 8) }
{
    if !may_shift(&rule) {
        return Err(told(RuleTextKind::Syntax));
    }
    let found = shift(alloc, most, text)?;
    let mut rule = rule;
    rule.shift = Some(found);
    Ok(rule)
}

fn may_var(rule: &Open) -> bool
    ensures { result ≡ may_var rule.now }
{
    rule.widths.is_some() && rule.lhs.is_none()
}

fn add_var(rule: Open, var: VarDecl) -> Result<Open, LineStop>
    requires { length rule.vars ≤ 8 }
    ensures value { GivesLine result (added_var rule var) }
    ensures few { IfOk result (λ o. length o.vars ≤ 8) }
{
    if rule.shift.is_none() && !is_free_range(&var.range) {
        return Err(told(RuleTextKind::Syntax));
    }
    if place_in(rule.vars.as_slice(), var.name.as_slice()).is_some() {
        return Err(told(RuleTextKind::Name));
    }
    if MOST_VARS <= rule.vars.len() {
        return Err(told(RuleTextKind::Limit));
    }
    let mut rule = rule;
    rule.vars.push(var)?;
    Ok(rule)
}

/// A `var` line.
pub fn var_line(alloc: Global, most: usize, rule: Open, text: &[u8]) -> Result<Open, LineStop>
    requires { length rule.vars ≤ 8 }
    ensures value { GivesLine result (var_line most rule (tokens text.now)) }
    ensures few { IfOk result (λ o. length o.vars ≤ 8) }
{
    if !may_var(&rule) {
        return Err(told(RuleTextKind::Syntax));
    }
    let found = var(alloc, most, text)?;
    add_var(rule, found)
}

fn add_left(rule: Open, part: Part) -> Result<Open, LineStop>
    requires { length rule.vars ≤ 8 }
    ensures value { GivesLine result (left_part rule part) }
    ensures few { IfOk result (λ o. length o.vars ≤ 8) }
{
    if part.bare || part.has_k != rule.shift.is_some() {
        return Err(told(RuleTextKind::Syntax));
    }
    if part.unknown {
        return Err(told(RuleTextKind::Name));
    }
    if !all_used(rule.vars.len(), part.used) {
        return Err(told(RuleTextKind::Unbound));
    }
    match kept(part.patterns) {
        Some(pattern) => {
            let mut rule = rule;
            rule.lhs = Some(pattern);
            Ok(rule)
        }
        None => Err(told(RuleTextKind::Limit)),
    }
}

/// A `left` line.
pub fn left_line(alloc: Global, most: usize, rule: Open, text: &[u8]) -> Result<Open, LineStop>
    requires { length rule.vars ≤ 8 }
    ensures value { GivesLine result (left_line most rule (tokens text.now)) }
    ensures few { IfOk result (λ o. length o.vars ≤ 8) }
{
    if !may_var(&rule) {
        return Err(told(RuleTextKind::Syntax));
    }
    let part = whole_side(alloc, rule.vars.as_slice(), Language::Operators, most, text)?;
    add_left(rule, part)
}

fn add_right(rule: Open, part: Part) -> Result<Open, LineStop>
    requires { length rule.vars ≤ 8 }
    ensures value { GivesLine result (right_part rule part) }
    ensures few { IfOk result (λ o. length o.vars ≤ 8) }
{
    if part.has_k && rule.shift.is_none() {
        return Err(told(RuleTextKind::Syntax));
    }
    if part.unknown {
        return Err(told(RuleTextKind::Name));
    }
    match kept(part.patterns) {
        Some(pattern) => {
            let mut rule = rule;
            rule.rhs = Some(pattern);
            Ok(rule)
        }
        None => Err(told(RuleTextKind::Limit)),
    }
}

/// A `right` line.
pub fn right_line(
    alloc: Global,
    kind: Kind,
    most: usize,
    rule: Open,
    text: &[u8],
) -> Result<Open, LineStop>
    requires { length rule.vars ≤ 8 }
    ensures value { GivesLine result (right_line kind most rule (tokens text.now)) }
    ensures few { IfOk result (λ o. length o.vars ≤ 8) }
{
    if rule.lhs.is_none() || rule.rhs.is_some() {
        return Err(told(RuleTextKind::Syntax));
    }
    let part = whole_side(alloc, rule.vars.as_slice(), language_of(kind), most, text)?;
    add_right(rule, part)
}

/// A step's place, and what is left of its line.
fn step_place(alloc: Global, most: usize, text: &[u8]) -> Result<((bool, Path), &[u8]), Stop>
    ensures { Gives result (step_place most (tokens text.now)) }
{
    let (left, rest) = match step_side(text) {
        Some(found) => found,
        None => return Err(Stop::Syntax),
    };
    let (path, rest) = path(alloc, most, rest)?;
    Ok(((left, path), rest))
}

fn add_step(rule: Open, step: Step) -> Result<Open, LineStop>
    requires { length rule.vars ≤ 8 }
    ensures value { GivesLine result (added_step rule step) }
    ensures few { IfOk result (λ o. length o.vars ≤ 8) }
{
    if MOST_STEPS <= rule.steps.len() {
        return Err(told(RuleTextKind::Limit));
    }
    let mut rule = rule;
    rule.steps.push(step)?;
    Ok(rule)
}

/// A `step` line.
pub fn step_line(
    alloc: Global,
    format: u8,
    most: usize,
    rules: &[Rule],
    rule: Open,
    text: &[u8],
) -> Result<Open, LineStop>
    requires rules { length rules.now ≤ 1024 }
    requires vars { length rule.vars ≤ 8 }
    ensures value { GivesLine result (step_line format rules.now most rule (tokens text.now)) }
    ensures few { IfOk result (λ o. length o.vars ≤ 8) }
{
    if rule.rhs.is_none() {
        return Err(told(RuleTextKind::Syntax));
    }
    let ((left, path), rest) = step_place(alloc, most, text)?;
    match by(format, rules, rest) {
        None => Err(told(RuleTextKind::Syntax)),
        Some(None) => Err(told(RuleTextKind::Name)),
        Some(Some(by)) => add_step(rule, Step { left, path, by }),
    }
}
