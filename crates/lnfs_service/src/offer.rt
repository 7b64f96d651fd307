//! A run that serves links under the policy of a name.
ghost use Rattle.std.specs.Prelude.{[]};
ghost use Rattle.lnfs_stage.specs.Due.{told};
ghost use Rattle.lnfs_stage.specs.Does.{HandedOn};
ghost use Rattle.lnfs_stage.specs.Ending.{status_of};
ghost use Rattle.lnfs_further.specs.Further.{further};
ghost use Rattle.lnfs_service.specs.Handed.{dealings};
ghost use Rattle.lnfs_service.specs.Serves.{IsIdleBefore, Offers, Serves};

use crate::service::{NewVault, serve};
use lnfs_commands::{Service, Team, new_server, rules_of};
use lnfs_format::Codecs;
use lnfs_gss3::{KeyedDigest, Mechanism};
use lnfs_outside::{Clock, Net};
use lnfs_policy::Policy;
use lnfs_stage::{Outside, Stop, close, tell};
use std::alloc::Global;
use std::sync::Wait;
use std::thread::Threads;

/// Serves the links of a team in a new server whose callers sign by a mechanism.
fn serve_new<
    M: Mechanism + Send + Sync + Drop,
    O: Outside,
    N: Net,
    C: Clock + Sync,
    R: Threads + Wait + Sync,
>(
    rt: &R,
    alloc: Global,
    codecs: &Codecs,
    mechanism: M,
    policy: Policy,
    team: &Team,
    outside: &mut O,
    net: &mut N,
    clock: &C,
) -> Result<(), Stop>
where
    N::L: Send,
    ensures serves { Serves further (C.may clock.now) M.signing policy [] team.now.links.items
        result (O.seen outside.old) (O.seen outside.new) (N.faults net.old) (N.faults net.new)
        (dealings (N.dealt net.old) (N.dealt net.new) (N.backs net.old) (N.backs net.new)) }
    ensures idle { IsIdleBefore (status_of result) net.old net.new }
{
    let vault = new_server(alloc, policy, codecs, mechanism)?;
    let new = NewVault { vault };
    serve(rt, alloc, codecs, new, team, outside, net, clock)
}

/// Serves the links of a team under the policy of a name, all but the ending's line. The net is asked for
/// nothing before the policy is taken.
fn offer<O: Outside, N: Net, C: Clock + Sync, R: Threads + Wait + Sync>(
    rt: &R,
    alloc: Global,
    service: &Service<'_>,
    codecs: &Codecs,
    outside: &mut O,
    net: &mut N,
    clock: &C,
) -> Result<(), Stop>
where
    N::L: Send,
    ensures offers { Offers (C.may clock.now) service.now.policy.now
        service.now.team.links.items result (O.seen outside.old) (O.seen outside.new) (N.faults net.old) (N.faults net.new)
        (dealings (N.dealt net.old) (N.dealt net.new) (N.backs net.old) (N.backs net.new))
        (λ due. due) }
    ensures idle { IsIdleBefore (status_of result) net.old net.new }
{
    let policy = rules_of(alloc, codecs, service.policy, outside)?;
    let team = &service.team;
    let mechanism = KeyedDigest;
    serve_new(
        rt, alloc, codecs, mechanism, policy, team, outside, net, clock,
    )
}

/// Serves the links of a team under the policy of a name, tells the ending, and hands all on. It may wait.
pub fn run_served<O: Outside, N: Net, C: Clock + Sync, R: Threads + Wait + Sync>(
    rt: &R,
    alloc: Global,
    service: &Service<'_>,
    codecs: &Codecs,
    outside: &mut O,
    net: &mut N,
    clock: &C,
) -> Result<(), Stop>
where
    N::L: Send,
    ensures offers { Offers (C.may clock.now) service.now.policy.now
        service.now.team.links.items result (O.seen outside.old) (O.seen outside.new) (N.faults net.old) (N.faults net.new)
        (dealings (N.dealt net.old) (N.dealt net.new) (N.backs net.old) (N.backs net.new)) told }
    ensures handed { HandedOn result (O.seen outside.old) (O.seen outside.new) }
    ensures idle { IsIdleBefore (status_of result) net.old net.new }
{
    let judged = offer(rt, alloc, service, codecs, outside, net, clock);
    let told = tell(alloc, judged, outside);
    close(told, outside)
}
