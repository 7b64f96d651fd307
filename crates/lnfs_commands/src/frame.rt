//! The frame of a reply.
ghost use Rattle.std.specs.Prelude.{◌≡◌, ◌≤◌, IfSome, length};
ghost use Rattle.lnfs_commands.specs.Events.{framed};

use lnfs_rpc::ReplyRecord;
use lnfs_types::RECORD_LIMIT;
use std::alloc::Global;

/// A reply as the one fragment that it is sent in (RFC 5531 section 11); nothing where there is none. Takes
/// no memory.
pub fn frame(alloc: Global, reply: Option<ReplyRecord>) -> Vec<u8>
    requires { IfSome reply (λ bytes. length bytes ≤ RECORD_LIMIT) }
    ensures { result.items ≡ framed reply }
{
    match reply {
        Some(reply) => reply.into_frame(),
        None => Vec::new(alloc),
    }
}
