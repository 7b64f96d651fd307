//! The checkpoint of a new server behind a recording.
ghost use Rattle.std.specs.Prelude.{◌≡◌, ◌∷◌, [], OnOk};
ghost use Rattle.lnfs_traffic.specs.Parts.{recorded};
ghost use Rattle.lnfs_stage.specs.Writes.{to_out};
ghost use Rattle.lnfs_stage.specs.Due.{given, told, written};
ghost use Rattle.lnfs_stage.specs.Does.{Does, HandedOn};
ghost use Rattle.lnfs_stage.specs.Contents.{first};
ghost use Rattle.lnfs_checkpoint.specs.Takes.{AreBytes};
ghost use Rattle.lnfs_checkpointing.specs.Checkpoints.{saved, saving_due, IsKept, IsSaved, IsTakenAgain, Saves};
ghost use Rattle.lnfs_checkpointing.specs.Servings.{IsNew};

use crate::serving::{Shown, serve_all};
use lnfs_checkpoint::Resumed;
use lnfs_commands::{Saving, rules_of};
use lnfs_format::Codecs;
use lnfs_gss3::KeyedDigest;
use lnfs_policy::Policy;
use lnfs_stage::{Outside, Stop, close, tell};
use std::alloc::Global;

/// Writes a checkpoint. What a slice of it has are bytes.
fn put_checkpoint<O: Outside>(bytes: &[u8], outside: &mut O) -> Result<(), Stop>
    ensures does { Does result (O.seen outside.old) (O.seen outside.new)
        (written (to_out bytes.now ∷ [])) }
    ensures bytes { AreBytes bytes.now }
{
    outside.put_text(bytes)
}

/// Serves the events of a recording in a new server, and writes its checkpoint behind all of them.
fn save<O: Outside>(
    alloc: Global,
    codecs: &Codecs,
    server: &mut Resumed<KeyedDigest>,
    traffic: &[u8],
    outside: &mut O,
) -> Result<(), Stop>
    requires { IsNew server.old }
    ensures does { Does result (O.seen outside.old) (O.seen outside.new)
        (saved server.old.policy traffic.now) }
    ensures again { OnOk result (IsTakenAgain server.old.policy (recorded traffic.now)) }
{
    serve_all(alloc, codecs, server, traffic, Shown::LineAlone, outside)?;
    let bytes = server.write(alloc)?;
    put_checkpoint(&bytes, outside)
}

/// The same of the recording of a name, under a policy that was read.
fn under<O: Outside>(
    alloc: Global,
    codecs: &Codecs,
    policy: Policy,
    traffic: &str,
    outside: &mut O,
) -> Result<(), Stop>
    ensures { Saves result (O.seen outside.old) (O.seen outside.new) (traffic.now ∷ [])
        (IsKept policy) (λ files. given (first files) traffic.now (saved policy)) }
{
    let traffic = outside.read_file(alloc, traffic)?;
    let mut server = Resumed::new(alloc, policy, codecs, KeyedDigest)?;
    save(alloc, codecs, &mut server, &traffic, outside)
}

/// The same under the policy of a name, all but the ending's line.
fn judge<O: Outside>(
    alloc: Global,
    codecs: &Codecs,
    asked: &Saving<'_>,
    outside: &mut O,
) -> Result<(), Stop>
    ensures { Saves result (O.seen outside.old) (O.seen outside.new)
        (asked.now.policy.now ∷ asked.now.traffic.now ∷ []) IsSaved
        (saving_due asked.now.policy.now asked.now.traffic.now) }
{
    let policy = rules_of(alloc, codecs, asked.policy, outside)?;
    under(alloc, codecs, policy, asked.traffic, outside)
}

/// Serves a recording in a new server and writes its lines, and behind all events the checkpoint of the server, which is taken
/// again. Then it tells the ending, and hands all on.
pub fn run_saving<O: Outside>(
    alloc: Global,
    asked: &Saving<'_>,
    codecs: &Codecs,
    outside: &mut O,
) -> Result<(), Stop>
    ensures saves { Saves result (O.seen outside.old) (O.seen outside.new)
        (asked.now.policy.now ∷ asked.now.traffic.now ∷ []) IsSaved
        (λ files. told (saving_due asked.now.policy.now asked.now.traffic.now files)) }
    ensures handed { HandedOn result (O.seen outside.old) (O.seen outside.new) }
{
    let judged = judge(alloc, codecs, asked, outside);
    let told = tell(alloc, judged, outside);
    close(told, outside)
}
