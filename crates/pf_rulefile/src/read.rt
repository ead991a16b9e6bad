ghost use Rattle.std.specs.Prelude.{◌≡◌, ◌+◌, ◌≤◌, ◌<◌, length, take, IfOk};
ghost use Rattle.std.specs.Str.Lines.{lines};
ghost use Rattle.pf_text.specs.Meaning.Answers.{Decides};
ghost use Rattle.pf_rulefile.specs.declared.fault.RuleTextFault.TheVariants.{At, Memory};
ghost use Rattle.pf_rulefile.specs.Meaning.RuleFiles.{IsRules, IsFaultOf, byte_limit};
ghost use Rattle.pf_rulefile.specs.Meaning.Says.{nothing};
ghost use Rattle.pf_rulefile.specs.Steps.FileReads.{IsReading, TellsLine, TellsLines, TellsFile, next_read, lines_from, finished, text_read, rules_read};

use crate::fault::{LineStop, RuleTextFault, RuleTextKind};
use crate::field::header_of;
use crate::reading::{Reading, read_line, uncommented};
use pf_rules::{FileParts, Kind, RuleFile, is_file};
use pf_text::next_line;
use std::alloc::Global;

const MOST_BYTES: usize = 2_097_152;

/// The rules of a text of lines. The first is `rules 1 KIND` or `rules 2 KIND`, where the kind is
/// `lift`, `neon`, `avx2` or `hvx`; then each rule has the lines `rule NAME`, `widths 8 16 32`,
/// `shift k from NUMBER to NUMBER` or none, `var NAME TYPE` or `var NAME TYPE from NUMBER to NUMBER`
/// up to 8 times, `left PATTERN`, `right PATTERN`, steps, and `end`. Lines end in LF or CR LF, a `#`
/// begins a comment, and blank lines are free behind the first line. A text has at most 2,097,152
/// bytes and 1,024 rules, a side 64 nodes, a rule 512 steps.
///
/// The first line with a fault is told, and on it the first in the order of `RuleTextKind`.
#[tactic(auto, using(crate::proofs::FileLaws::decided))]
pub fn read_rules(alloc: Global, text: &[u8]) -> Result<RuleFile, RuleTextFault>
    // The file of the text is read, or its first fault is told, unless memory runs out.
    ensures { Decides Memory (IsRules text.now) (IsFaultOf text.now) result }
{
    read_whole(alloc, text)
}

#[tactic(auto, unfolding(crate::specs::Steps::FileReads::rules_read))]
fn read_whole(alloc: Global, text: &[u8]) -> Result<RuleFile, RuleTextFault>
    ensures { TellsFile result (rules_read text.now) }
{
    let most = byte_limit();
    if most < text.len() {
        read_text(alloc, true, front(text, most + 1))
    } else {
        read_text(alloc, false, text)
    }
}

#[tactic(auto, unfolding(crate::specs::Meaning::RuleFiles::byte_limit))]
fn byte_limit() -> usize
    ensures value { result ≡ byte_limit }
    ensures few { result ≤ 2097152 }
{
    MOST_BYTES
}

/// The first bytes of the text, so many.
fn front(text: &[u8], count: usize) -> &[u8]
    requires { count ≤ length text.now }
    ensures value { result.now ≡ take count text.now }
    ensures few { length result.now ≤ count }
{
    &text[..count]
}

fn fault_at(line: u32, kind: RuleTextKind) -> RuleTextFault
    ensures { result ≡ At line kind }
{
    RuleTextFault::At { line, kind }
}

/// The rules of a text; of one that goes on behind it where `is_long`.
fn read_text(alloc: Global, is_long: bool, text: &[u8]) -> Result<RuleFile, RuleTextFault>
    requires { length text.now ≤ 2097153 }
    ensures { TellsFile result (text_read is_long (lines text.now)) }
{
    if text.is_empty() {
        return Err(fault_at(1, RuleTextKind::Header));
    }
    let (line, rest) = next_line(text);
    let (format, kind) = match header_of(uncommented(line)) {
        Some(header) => header,
        None => return Err(fault_at(1, RuleTextKind::Header)),
    };
    let (reading, n) = match read_lines(alloc, format, kind, rest) {
        Ok(read) => read,
        Err(fault) => return Err(fault),
    };
    finish(is_long, format, kind, reading, n)
}

/// What was read with line n.
fn read_next(
    alloc: Global,
    format: u8,
    kind: Kind,
    reading: Reading,
    line: &[u8],
    n: u32,
) -> Result<Reading, RuleTextFault>
    requires { IsReading reading }
    ensures value { TellsLine result (next_read format kind n reading line.now) }
    ensures kept { IfOk result IsReading }
{
    match read_line(alloc, format, kind, reading, line) {
        Ok(more) => Ok(more),
        Err(LineStop::Told(kind)) => Err(fault_at(n, kind)),
        Err(LineStop::Memory) => Err(RuleTextFault::Memory),
    }
}

/// What the lines behind the first say, and the number of the line behind them.
fn read_lines(
    alloc: Global,
    format: u8,
    kind: Kind,
    text: &[u8],
) -> Result<(Reading, u32), RuleTextFault>
    requires { length text.now < 2097153 }
    ensures value { TellsLines result (lines_from format kind 2 nothing (lines text.now)) }
    ensures some { IfOk result (λ p. 2 ≤ p.1) }
{
    let mut reading = Reading::new(alloc);
    let mut n: u32 = 2;
    let mut rest = text;
    'lines: while 0 < rest.len() {
        let (line, next) = next_line(rest);
        reading = match read_next(alloc, format, kind, reading, line, n) {
            Ok(more) => more,
            Err(fault) => return Err(fault),
        };
        n += 1;
        rest = next;
    }
    Ok((reading, n))
}

fn finish(
    is_long: bool,
    format: u8,
    kind: Kind,
    reading: Reading,
    n: u32,
) -> Result<RuleFile, RuleTextFault>
    requires { 2 ≤ n }
    ensures { TellsFile result (finished is_long format kind reading n) }
{
    if is_long {
        return Err(fault_at(n - 1, RuleTextKind::Limit));
    }
    let Reading { rules, current } = reading;
    if current.is_some() {
        return Err(fault_at(n, RuleTextKind::Syntax));
    }
    let parts = FileParts {
        format,
        kind,
        rules,
    };
    if is_file(&parts) {
        Ok(RuleFile::new(parts))
    } else {
        Err(fault_at(n, RuleTextKind::Syntax))
    }
}
