//! The command `migrate`.

ghost use Rattle.std.specs.Prelude.{◌≡◌};
ghost use Rattle.pf_outside.specs.Meaning.StoreCalls.{seen};
ghost use Rattle.pf_outside.specs.Meaning.Tasks.{EndsWith};
ghost use Rattle.pf_top.specs.Meaning.Migrating.{migrating};
ghost use Rattle.pf_top.specs.Steps.CommandSteps.{the_migration};

use crate::command::MigrateWords;
use crate::fault::Stop;
use crate::rule_file::read_rule_file;
use pf_images::Files;
use pf_ints::Sequence;
use pf_outside::{Lines, write_file};
use pf_rulefile::write_migrated;
use std::alloc::Global;

/// Reads the file and writes its rules in format 2.
pub fn migrate<F: Files>(
    alloc: Global,
    words: &MigrateWords<'_>,
    files: &mut F,
) -> Result<Lines, Stop>
    ensures { EndsWith (migrating (the_migration words.now)) (seen F.held F.faults F.calls files.old) result
        (seen F.held F.faults F.calls files.new) }
{
    let rules = read_rule_file(alloc, files, 0, words.file, None)?;
    let text = write_migrated(alloc, &rules)?;
    write_file(alloc, files, words.out, text.as_slice())?;
    Ok(Sequence::new(alloc))
}
