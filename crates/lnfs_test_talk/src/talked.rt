//! A script that is talked through over a link, and what is shown.
ghost use Rattle.std.specs.Prelude.{◌≡◌, IfOk, Ok};
ghost use Rattle.lnfs_script.specs.Script.{script_of};

use lnfs_calipso::Level;
use lnfs_format::Codecs;
use lnfs_gss3::Mechanism;
use lnfs_outside::{CalmFiles, Link, MemSink};
use lnfs_policy::Policy;
use lnfs_script::laws::scripts;
use lnfs_script::{Script, read_script};
use lnfs_stage::{Status, World};
use lnfs_talk::converse;
use lnfs_test_support::flaw::Flaw;
use std::alloc::Global;
use std::sync::Wait;

/// The number of the status, and what standard output took.
#[derive(Debug, Drop)]
pub struct Talked {
    pub status: u8,
    pub out: Vec<u8>,
}

/// The script that a text spells.
fn spelled_by(alloc: Global, policy: &Policy, text: &str) -> Result<Script, Flaw>
    ensures { IfOk result (λ script. script_of policy.now text.now ≡ Ok script) }
{
    match read_script(alloc, policy, text.as_bytes()) {
        Ok(script) => Ok(script),
        Err(_) => Err(Flaw::new(alloc, "a script", text)),
    }
}

/// Talks a script through.
pub fn talk<M: Mechanism, L: Link>(
    rt: &impl Wait,
    alloc: Global,
    policy: &Policy,
    codecs: &Codecs,
    mechanism: &M,
    level: u32,
    script: &str,
    link: &mut L,
) -> Result<Talked, Flaw> {
    scripts();
    let level = Level(level);
    if !policy.lattice().holds(level) {
        return Err(Flaw::new(alloc, "a level", script));
    }
    let script = spelled_by(alloc, policy, script)?;
    let mut outside = World {
        files: CalmFiles::new(Vec::new(alloc)),
        out: MemSink::new(alloc, &[])?,
        audit: MemSink::new(alloc, &[])?,
    };
    let ended = converse(
        rt,
        alloc,
        policy,
        codecs,
        mechanism,
        level,
        &script,
        link,
        &mut outside,
    );
    Ok(Talked {
        status: Status::of(ended).number(),
        out: Vec::from_slice(alloc, outside.out.bytes())?,
    })
}
