ghost use Rattle.std.specs.Prelude.{◌+◌, ◌<◌, length};
ghost use Rattle.pf_check.specs.Meaning.Faults.{Says};
ghost use Rattle.pf_check.specs.Meaning.Checks.{lifting_fault, heavier_fault, repeats_from};

use crate::fault::RuleFault;
use pf_rules::{Kind, RuleParts, VarDecl, occurrences, weight};

/// That a rule which lifts has a lighter right side, with no variable more often.
pub(crate) fn lifts_lighter(kind: Kind, parts: &RuleParts) -> Result<(), RuleFault>
    requires { length parts.now.vars < 256 }
    ensures { Says result (lifting_fault kind parts.now) }
{
    match kind {
        Kind::Lift => {
            is_lighter(parts)?;
            repeats_none(parts, 0, parts.vars.as_slice())
        }
        Kind::Lower(_) => Ok(()),
    }
}

fn is_lighter(parts: &RuleParts) -> Result<(), RuleFault>
    ensures { Says result (heavier_fault parts.now) }
{
    let left = weight(&parts.lhs);
    let right = weight(&parts.rhs);
    if right < left {
        Ok(())
    } else {
        Err(RuleFault::Heavier { left, right })
    }
}

/// That none of the variables from n on stands more often in the right side.
fn repeats_none(parts: &RuleParts, n: u8, vars: &[VarDecl]) -> Result<(), RuleFault>
    requires { n + length vars.now < 256 }
    ensures { Says result (repeats_from parts.now n vars.now) }
{
    match vars {
        [] => Ok(()),
        [_, rest @ ..] => {
            if occurrences(n, &parts.rhs) > occurrences(n, &parts.lhs) {
                return Err(RuleFault::Repeats { var: n });
            }
            repeats_none(parts, n + 1, rest)
        }
    }
}
