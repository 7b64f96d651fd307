//! The policy of a run.
ghost use Rattle.lnfs_commands.specs.Rules.{RulesIn};

use lnfs_format::Codecs;
use lnfs_policy::{Policy, PolicyError, read_policy};
use lnfs_stage::{Ending, Outside, Stop};
use std::alloc::Global;

/// The policy that the file of a name spells.
///
/// # Errors
///
/// `Ends` where there is no such file, or its text spells no policy.
pub fn rules_of<O: Outside>(
    alloc: Global,
    codecs: &Codecs,
    name: &str,
    outside: &mut O,
) -> Result<Policy, Stop>
    ensures { RulesIn result (O.seen outside.old) (O.seen outside.new) name.now }
{
    let text = outside.read_file(alloc, name)?;
    match read_policy(alloc, &text, codecs) {
        Ok(policy) => Ok(policy),
        Err(PolicyError::Refused { line, cause }) => {
            Err(Stop::Ends(Ending::PolicyRefused { line, cause }))
        }
        Err(PolicyError::Memory) => Err(Stop::Memory),
    }
}
