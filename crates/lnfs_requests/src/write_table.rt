//! Each operation with its number, for writing.
ghost use Rattle.std.specs.Prelude.{◌≡◌, ◌++◌, OnOk};
ghost use Rattle.lnfs_requests.specs.Texts.{op_text};
ghost use Rattle.lnfs_requests.specs.Fits.{OpFits};

use crate::write_files::{Opening, put_close, put_commit, put_open, put_read, put_write};
use crate::write_names::{
    put_access, put_create, put_getattr, put_link, put_lookup, put_nverify, put_putfh, put_readdir,
    put_remove, put_rename, put_setattr, put_verify,
};
use crate::write_sessions::{
    put_create_session, put_destroy_clientid, put_destroy_session, put_exchange_id,
    put_reclaim_complete, put_sequence,
};
use lnfs_arguments::Op;
use lnfs_arguments::numbers::{
    OP_GETFH, OP_LOOKUPP, OP_PUTROOTFH, OP_READLINK, OP_RESTOREFH, OP_SAVEFH,
};
use lnfs_xdr::XdrWriter;
use std::alloc::AllocError;

/// The number of an operation and its arguments.
#[tactic(auto, unfolding(crate::specs::Texts::op_text))]
pub fn put_op(out: &mut XdrWriter, op: &Op<'_>) -> Result<(), AllocError>
    requires { OpFits op.now }
    ensures { OnOk result (out.new ≡ out.old ++ op_text op.now) }
{
    match op {
        Op::Access { bits } => put_access(out, *bits),
        Op::Close { seqid, id } => put_close(out, *seqid, id),
        Op::Commit { offset, count } => put_commit(out, *offset, *count),
        Op::Create { what, name, attrs } => put_create(out, what, name, attrs),
        Op::GetAttr { asked } => put_getattr(out, asked),
        Op::GetFh => out.u32(OP_GETFH),
        Op::Link { name } => put_link(out, name),
        Op::Lookup { name } => put_lookup(out, name),
        Op::LookupP => out.u32(OP_LOOKUPP),
        Op::NVerify { attrs } => put_nverify(out, attrs),
        Op::Open {
            seqid,
            access,
            deny,
            client,
            owner,
            making,
            claim,
        } => {
            let words = Opening {
                seqid: *seqid,
                access: *access,
                deny: *deny,
                client: *client,
            };
            put_open(out, words, owner, making, claim)
        }
        Op::PutFh { handle } => put_putfh(out, handle),
        Op::PutRootFh => out.u32(OP_PUTROOTFH),
        Op::Read { id, offset, count } => put_read(out, id, *offset, *count),
        Op::ReadDir {
            cookie,
            verifier,
            dircount,
            maxcount,
            asked,
        } => { put_readdir(out, *cookie, verifier, *dircount, *maxcount, asked) }
        Op::ReadLink => out.u32(OP_READLINK),
        Op::Remove { name } => put_remove(out, name),
        Op::Rename { old, new } => put_rename(out, old, new),
        Op::RestoreFh => out.u32(OP_RESTOREFH),
        Op::SaveFh => out.u32(OP_SAVEFH),
        Op::SetAttr { id, attrs } => put_setattr(out, id, attrs),
        Op::Verify { attrs } => put_verify(out, attrs),
        Op::Write {
            id,
            offset,
            stable,
            content,
        } => put_write(out, id, *offset, *stable, content),
        Op::ExchangeId {
            verifier,
            owner,
            flags,
            implementation,
        } => { put_exchange_id(out, verifier, owner, *flags, implementation) }
        Op::CreateSession(args) => put_create_session(out, args),
        Op::DestroySession { session } => put_destroy_session(out, session),
        Op::Sequence(args) => put_sequence(out, args),
        Op::DestroyClientId { client } => put_destroy_clientid(out, *client),
        Op::ReclaimComplete { one_fs } => put_reclaim_complete(out, *one_fs),
        Op::Outside { .. } => Ok(()),
        Op::Extra { .. } => Ok(()),
    }
}
