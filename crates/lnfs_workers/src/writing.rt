//! Replies that go over a link.
ghost use Rattle.std.specs.Prelude.{◌≡◌, ◌≤◌, OnOk, IfErr, IfSome, length};
ghost use Rattle.std.specs.Io.KnownBytes.{Appends};
ghost use Rattle.lnfs_types.specs.declared.limits.TheConstants.{RECORD_LIMIT};
ghost use Rattle.lnfs_outside.specs.Bytes.{AppendsPart};
ghost use Rattle.lnfs_workers.specs.Transcripts.{framed};
ghost use Rattle.lnfs_workers.specs.Turns.{IsOfWriting};

use lnfs_incoming::Ending;
use lnfs_outside::{Link, put_all};
use lnfs_rpc::ReplyRecord;

/// Writes the frame of a reply, where there is one. Takes no memory.
pub fn put_reply<L: Link>(link: &mut L, reply: Option<ReplyRecord>) -> Result<(), Ending>
    requires { IfSome reply (λ r. length r ≤ RECORD_LIMIT) }
    ensures front { AppendsPart (L.taken link.old) (L.taken link.new) (framed reply) }
    ensures whole { OnOk result (Appends (L.taken link.old) (L.taken link.new) (framed reply)) }
    ensures ending { IfErr result (IsOfWriting (L.write_faults link.old)
        (L.write_faults link.new)) }
    ensures later { L.write_faults link.old ≤ L.write_faults link.new }
    ensures left { L.left link.new ≡ L.left link.old }
    ensures read_faults { L.read_faults link.new ≡ L.read_faults link.old }
{
    let Some(reply) = reply else {
        return Ok(());
    };
    match put_all(link, &reply.into_frame()) {
        Ok(()) => Ok(()),
        Err(_) => Err(Ending::WriteFault),
    }
}
