//! The command `check`.

ghost use Rattle.std.specs.Prelude.{◌≡◌};
ghost use Rattle.pf_outside.specs.Meaning.StoreCalls.{seen};
ghost use Rattle.pf_outside.specs.Meaning.Tasks.{EndsWith};
ghost use Rattle.pf_top.specs.Meaning.Checking.{checking};
ghost use Rattle.pf_rules.specs.declared.rule_file.FileParts.{FileParts};
ghost use Rattle.pf_verdicts.specs.Meaning.Verdicts.{AreVerdicts};
ghost use Rattle.pf_top.specs.Steps.CommandSteps.{the_check};
ghost use Rattle.pf_top.specs.Steps.RunSteps.{TellsVerdicts};

use crate::command::CheckWords;
use crate::fault::{Failure, Stop};
use crate::rule_file::read_rule_file;
use pf_images::Files;
use pf_outside::Lines;
use pf_rules::RuleFile;
use pf_verdicts::{Verdicts, judge_rules};
use std::alloc::Global;

/// Reads the file and checks its rules.
pub fn check<F: Files>(alloc: Global, words: &CheckWords<'_>, files: &mut F) -> Result<Lines, Stop>
    ensures { EndsWith (checking (the_check words.now)) (seen F.held F.faults F.calls files.old) result
        (seen F.held F.faults F.calls files.new) }
{
    let rules = read_rule_file(alloc, files, 0, words.file, Some(words.target))?;
    verdict_of(alloc, &rules)
}

/// The lines on the rules.
fn verdict_of(alloc: Global, rules: &RuleFile) -> Result<Lines, Stop>
    ensures { TellsVerdicts rules.now result }
{
    let verdicts = judge_rules(alloc, rules)?;
    told(verdicts)
}

fn told(verdicts: Verdicts) -> Result<Lines, Stop>
    ensures { (f : FileParts) → AreVerdicts f verdicts → TellsVerdicts f result }
{
    if verdicts.accepted {
        Ok(verdicts.lines)
    } else {
        Err(Stop::Failed(Failure::RulesRefused(verdicts.lines)))
    }
}
