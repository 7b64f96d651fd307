//! A script of a name, talked through under the policy of a name.
ghost use Rattle.std.specs.Prelude.{◌≡◌};
ghost use Rattle.lnfs_stage.specs.Due.{told};
ghost use Rattle.lnfs_stage.specs.Does.{HandedOn};
ghost use Rattle.lnfs_stage.specs.Ending.{status_of};
ghost use Rattle.lnfs_service.specs.Handed.{dealings};
ghost use Rattle.lnfs_talk.specs.Talks.{MayTalk};
ghost use Rattle.lnfs_dialling.specs.Visits.{Dials, IsIdleTill, ScriptIn, Visits};

use lnfs_calipso::Level;
use lnfs_commands::{Visit, rules_of};
use lnfs_format::Codecs;
use lnfs_gss3::{KeyedDigest, Mechanism};
use lnfs_outside::Net;
use lnfs_policy::Policy;
use lnfs_script::laws::scripts;
use lnfs_script::{Script, ScriptError, read_script};
use lnfs_stage::{Ending, Outside, Stop, close, tell};
use lnfs_talk::converse;
use std::alloc::Global;
use std::sync::Wait;

/// The script that the file of a name spells under a policy.
///
/// # Errors
///
/// `Ends` where there is no such file, or its text spells no script.
fn script_of<O: Outside>(
    alloc: Global,
    policy: &Policy,
    name: &str,
    outside: &mut O,
) -> Result<Script, Stop>
    ensures { ScriptIn policy.now result (O.seen outside.old) (O.seen outside.new) name.now }
{
    let text = outside.read_file(alloc, name)?;
    match read_script(alloc, policy, &text) {
        Ok(script) => Ok(script),
        Err(ScriptError::Refused { line }) => Err(Stop::Ends(Ending::ScriptRefused { line })),
        Err(ScriptError::Memory) => Err(Stop::Memory),
    }
}

/// Dials the link of a script's class, talks the script through, and hands the link back, however
/// that ends.
fn dial<M: Mechanism, O: Outside, N: Net, R: Wait>(
    rt: &R,
    alloc: Global,
    codecs: &Codecs,
    mechanism: &M,
    policy: &Policy,
    level: Level,
    script: &Script,
    outside: &mut O,
    net: &mut N,
) -> Result<(), Stop>
    requires { MayTalk policy.now level.0 script.now }
    ensures dials { Dials M.signing policy.now level.0 script.now result
        (O.seen outside.old) (O.seen outside.new) (N.faults net.old) (N.faults net.new)
        (dealings (N.dealt net.old) (N.dealt net.new) (N.backs net.old) (N.backs net.new)) }
    ensures idle { IsIdleTill (status_of result) net.old net.new }
{
    let Ok(mut link) = net.dial(script.class) else {
        return Err(Stop::NetFault);
    };
    let talked = converse(
        rt, alloc, policy, codecs, mechanism, level, script, &mut link, outside,
    );
    net.hang_up(link);
    talked
}

/// Talks a script through at a level, all but the ending's line. The policy is read and the level
/// judged before the script is read, and the script is read whole before the net is asked for
/// anything.
fn visit<O: Outside, N: Net, R: Wait>(
    rt: &R,
    alloc: Global,
    visit: &Visit<'_>,
    codecs: &Codecs,
    outside: &mut O,
    net: &mut N,
) -> Result<(), Stop>
    ensures visits { Visits visit.now.policy.now visit.now.level visit.now.script.now result
        (O.seen outside.old) (O.seen outside.new) (N.faults net.old) (N.faults net.new)
        (dealings (N.dealt net.old) (N.dealt net.new) (N.backs net.old) (N.backs net.new))
        (λ due. due) }
    ensures idle { IsIdleTill (status_of result) net.old net.new }
{
    scripts();
    let policy = rules_of(alloc, codecs, visit.policy, outside)?;
    let level = Level(visit.level);
    if !policy.lattice().holds(level) {
        return Err(Stop::Ends(Ending::Usage));
    }
    let script = script_of(alloc, &policy, visit.script, outside)?;
    dial(
        rt,
        alloc,
        codecs,
        &KeyedDigest,
        &policy,
        level,
        &script,
        outside,
        net,
    )
}

/// Talks the script of a name through under the policy of a name, tells the ending, and hands all
/// on. It may wait.
pub fn run_visit<O: Outside, N: Net, R: Wait>(
    rt: &R,
    alloc: Global,
    asked: &Visit<'_>,
    codecs: &Codecs,
    outside: &mut O,
    net: &mut N,
) -> Result<(), Stop>
    ensures visits { Visits asked.now.policy.now asked.now.level asked.now.script.now result
        (O.seen outside.old) (O.seen outside.new) (N.faults net.old) (N.faults net.new)
        (dealings (N.dealt net.old) (N.dealt net.new) (N.backs net.old) (N.backs net.new)) told }
    ensures handed { HandedOn result (O.seen outside.old) (O.seen outside.new) }
    ensures idle { IsIdleTill (status_of result) net.old net.new }
{
    let judged = visit(rt, alloc, asked, codecs, outside, net);
    let told = tell(alloc, judged, outside);
    close(told, outside)
}
