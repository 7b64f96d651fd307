//! Reading a script.

ghost use Rattle.std.specs.Prelude.{◌≡◌, Ok, IfOk, IfErr};
ghost use Rattle.lnfs_script.specs.Script.{script_of, IsRefusal};

use crate::action::Action;
use crate::error::ScriptError;
use crate::forms::{action_at, link_at};
use crate::identity::Identity;
use crate::lines::Lines;
use lnfs_policy::Policy;
use lnfs_types::Items;
use std::alloc::Global;

/// What a client does over one link.
#[derive(Debug, Drop)]
pub struct Script {
    /// The class of the link, at most 7.
    pub class: u32,
    /// Who asks.
    pub identity: Identity,
    /// The actions of the lines, in their order. The mount before them and the leave behind them stand in no line.
    pub actions: Items<Action>,
}

/// The script that a text spells under a policy. Its first line is `link CLASS guest UID` or `link CLASS full PARENT`. Each
/// further line is `list PATH`, `read PATH OFFSET COUNT`, `write PATH OFFSET HEX`, `make PATH`, `mkdir PATH LEVEL`,
/// `remove PATH` or `raise PATH LEVEL`, and each line ends with a newline.
///
/// # Errors
///
/// `Refused` with the first line that is of none of these forms, that goes past a bound, or that names a parent or a level
/// which the policy lacks. A text without any line is refused at line 1. `Memory` where there is no memory.
pub fn read_script(alloc: Global, policy: &Policy, text: &[u8]) -> Result<Script, ScriptError>
    ensures accepted { IfOk result (λ script. script_of policy.now text.now ≡ Ok script) }
    ensures refused { IfErr result (IsRefusal (script_of policy.now text.now)) }
{
    let mut lines = Lines::new(text);
    let mut number: u64 = 1;
    let Some(link) = link_at(policy, lines.next().flatten()) else {
        return Err(ScriptError::Refused { line: number });
    };
    let mut actions = Vec::new(alloc);
    while let Some(line) = lines.next() {
        number += 1;
        match action_at(alloc, policy, line) {
            Ok(action) => actions.push(action)?,
            Err(stop) => return Err(stop.at(number)),
        }
    }
    Ok(Script {
        class: link.class,
        identity: link.identity,
        actions: Items::new(actions),
    })
}
