ghost use Rattle.std.specs.Prelude.{◌≡◌, ◌≤◌, ◌==◌, length, IfOk, IfSome, MatchOption, None, Some};
ghost use Rattle.std.specs.List.{position};
ghost use Rattle.pf_rulefile.specs.Meaning.Tokens.{tokens};
ghost use Rattle.pf_rulefile.specs.Steps.LineReads.{GivesLine};
ghost use Rattle.pf_rulefile.specs.Meaning.Says.{nothing, begun, rule_of, added_rule};
ghost use Rattle.pf_rulefile.specs.Meaning.RuleFiles.{uncommented};
ghost use Rattle.pf_rulefile.specs.Steps.FileReads.{IsReading, rule_line, end_line, inside, words_read, line_read};

use crate::fault::{LineStop, RuleTextKind};
use crate::field::{lone_name, no_more, rule_place};
use crate::line::{
    Open, left_line, right_line, shift_line, step_line, told, var_line, widths_line,
};
use crate::token::next_token;
use pf_ints::{Name, Sequence};
use pf_rules::{Kind, Rule, RuleList, RuleParts, is_rule};
use std::alloc::Global;

const MOST_RULES: usize = 1024;

/// What the lines of a file say so far: its whole rules, and the one that isn't whole yet.
#[derive(Drop)]
pub struct Reading {
    pub rules: RuleList,
    pub current: Option<Open>,
}

impl Reading {
    /// Nothing. It takes no memory.
    pub fn new(alloc: Global) -> Reading
        ensures value { result ≡ nothing }
        ensures kept { IsReading result }
    {
        Reading {
            rules: Sequence::new(alloc),
            current: None,
        }
    }
}

fn begun(alloc: Global, name: Name) -> Open
    ensures { result ≡ begun name }
{
    Open {
        name,
        widths: None,
        shift: None,
        vars: Sequence::new(alloc),
        lhs: None,
        rhs: None,
        steps: Sequence::new(alloc),
    }
}

fn rule_line(alloc: Global, reading: Reading, text: &[u8]) -> Result<Reading, LineStop>
    requires { IsReading reading }
    ensures value { GivesLine result (rule_line reading (tokens text.now)) }
    ensures kept { IfOk result IsReading }
{
    let Reading { rules, current } = reading;
    if current.is_some() {
        return Err(told(RuleTextKind::Syntax));
    }
    let name = match lone_name(text) {
        Some(name) => name,
        None => return Err(told(RuleTextKind::Syntax)),
    };
    if rule_place(rules.as_slice(), name.as_slice()).is_some() {
        return Err(told(RuleTextKind::Name));
    }
    if MOST_RULES <= rules.len() {
        return Err(told(RuleTextKind::Limit));
    }
    let current = Some(begun(alloc, name));
    Ok(Reading { rules, current })
}

fn rule_of(rule: Open) -> Option<RuleParts>
    ensures { result ≡ rule_of rule }
{
    let Open {
        name,
        widths,
        shift,
        vars,
        lhs,
        rhs,
        steps,
    } = rule;
    let widths = widths?;
    let lhs = lhs?;
    let rhs = rhs?;
    Some(RuleParts {
        name,
        widths,
        shift,
        vars,
        lhs,
        rhs,
        steps,
    })
}

fn added_rule(rules: RuleList, parts: RuleParts) -> Result<Reading, LineStop>
    ensures value { GivesLine result (added_rule rules parts) }
    ensures kept { IfOk result IsReading }
{
    if MOST_RULES <= rules.len() {
        return Err(told(RuleTextKind::Limit));
    }
    if !is_rule(&parts) {
        return Err(told(RuleTextKind::Syntax));
    }
    let mut rules = rules;
    rules.push(Rule::new(parts))?;
    let current = None;
    Ok(Reading { rules, current })
}

fn end_line(reading: Reading, text: &[u8]) -> Result<Reading, LineStop>
    ensures value { GivesLine result (end_line reading (tokens text.now)) }
    ensures kept { IfOk result IsReading }
{
    if !no_more(text) {
        return Err(told(RuleTextKind::Syntax));
    }
    let Reading { rules, current } = reading;
    let rule = match current {
        Some(rule) => rule,
        None => return Err(told(RuleTextKind::Syntax)),
    };
    match rule_of(rule) {
        Some(parts) => added_rule(rules, parts),
        None => Err(told(RuleTextKind::Syntax)),
    }
}

/// What a line says of the rule that is being read.
fn inside(
    alloc: Global,
    format: u8,
    kind: Kind,
    most: usize,
    rules: &[Rule],
    rule: Open,
    word: &[u8],
    text: &[u8],
) -> Result<Open, LineStop>
    requires few { length rules.now ≤ 1024 }
    requires vars { length rule.vars ≤ 8 }
    ensures value { GivesLine result (inside format kind most rules.now rule word.now (tokens text.now)) }
    ensures kept { IfOk result (λ o. length o.vars ≤ 8) }
{
    if word == b"widths".as_slice() {
        return widths_line(alloc, rule, text);
    }
    if word == b"shift".as_slice() {
        return shift_line(alloc, most, rule, text);
    }
    if word == b"var".as_slice() {
        return var_line(alloc, most, rule, text);
    }
    if word == b"left".as_slice() {
        return left_line(alloc, most, rule, text);
    }
    if word == b"right".as_slice() {
        return right_line(alloc, kind, most, rule, text);
    }
    if word == b"step".as_slice() {
        return step_line(alloc, format, most, rules, rule, text);
    }
    Err(told(RuleTextKind::Syntax))
}

fn comment_place(line: &[u8]) -> Option<usize>
    ensures value { result ≡ position (λ c. c == 35) line.now }
    ensures within { IfSome result (λ n. n ≤ length line.now) }
{
    line.iter().position(|byte| *byte == b'#')
}

/// The line up to its comment.
#[tactic(auto, using(crate::proofs::Comments::up_to, crate::proofs::Comments::all_of_it))]
pub fn uncommented(line: &[u8]) -> &[u8]
    ensures { result.now ≡ uncommented line.now }
{
    match comment_place(line) {
        Some(n) => &line[..n],
        None => line,
    }
}

fn read_words(
    alloc: Global,
    format: u8,
    kind: Kind,
    most: usize,
    reading: Reading,
    text: &[u8],
) -> Result<Reading, LineStop>
    requires { IsReading reading }
    ensures value { GivesLine result (words_read format kind most reading (tokens text.now)) }
    ensures kept { IfOk result IsReading }
{
    let (word, rest) = match next_token(text) {
        Some(found) => found,
        None => return Ok(reading),
    };
    if word == b"rule".as_slice() {
        return rule_line(alloc, reading, rest);
    }
    if word == b"end".as_slice() {
        return end_line(reading, rest);
    }
    let Reading { rules, current } = reading;
    match current {
        Some(rule) => {
            let rule = inside(
                alloc,
                format,
                kind,
                most,
                rules.as_slice(),
                rule,
                word,
                rest,
            )?;
            let current = Some(rule);
            Ok(Reading { rules, current })
        }
        None => Err(told(RuleTextKind::Syntax)),
    }
}

/// What was read with one more line.
#[tactic(auto, unfolding(crate::specs::Steps::FileReads::line_read))]
pub fn read_line(
    alloc: Global,
    format: u8,
    kind: Kind,
    reading: Reading,
    line: &[u8],
) -> Result<Reading, LineStop>
    requires { IsReading reading }
    ensures value { GivesLine result (line_read format kind reading line.now) }
    ensures kept { IfOk result IsReading }
{
    let text = uncommented(line);
    read_words(alloc, format, kind, text.len(), reading, text)
}
