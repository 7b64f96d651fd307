//! The results of the operations of a COMPOUND (RFC 8881 section 16.2.2).
ghost use Rattle.std.specs.Prelude.{◌≡◌, ◌++◌, OnOk};
ghost use Rattle.lnfs_results.specs.Fits.{ResultSized};
ghost use Rattle.lnfs_results.specs.Numbered.{status_of};
ghost use Rattle.lnfs_results.specs.Texts.{result_text};
ghost use Rattle.lnfs_session.specs.Answers.{told_of};
ghost use Rattle.lnfs_xdr.specs.Canon.{word, long, opaque};
ghost use Rattle.lnfs_operations.specs.Results.{flags_of, server_name, told_result, failed};
ghost use Rattle.lnfs_engine.specs.Results.{created_result, sequence_result};

use lnfs_arguments::numbers::{OP_EXCHANGE_ID, OP_SEQUENCE, SP4_NONE};
use lnfs_arguments::statuses::NFS4_OK;
use lnfs_arguments::{Channel, CreateSession, Op, Sequence, client_id, session_id};
use lnfs_attrs::Bitmap;
use lnfs_operations::numbers::{EXCHGID4_FLAG_CONFIRMED_R, EXCHGID4_FLAG_USE_NON_PNFS};
use lnfs_results::OpResult;
use lnfs_session::ClientInfo;
use lnfs_xdr::XdrWriter;
use std::alloc::AllocError;

/// The name under which the server goes, as owner and as scope (RFC 8881 section 18.35.2).
const SERVER_NAME: &[u8; 12] = b"labelled-nfs";

/// The minor identifier of the server's owner.
const NO_MINOR: u64 = 0;

/// The length of the list of implementation identifiers (RFC 8881 section 18.35.2).
const NO_IMPLEMENTATION: u32 = 0;

/// The status flags of a SEQUENCE: none is set.
const NO_FLAGS: u32 = 0;

fn flags_of(confirmed: bool) -> u32
    ensures { result ≡ flags_of confirmed }
{
    if confirmed {
        EXCHGID4_FLAG_USE_NON_PNFS + EXCHGID4_FLAG_CONFIRMED_R
    } else {
        EXCHGID4_FLAG_USE_NON_PNFS
    }
}

/// Appends the server's owner and scope, and no implementation (RFC 8881 section 18.35.2).
fn append_server(out: &mut XdrWriter) -> Result<(), AllocError>
    ensures { OnOk result (out.new ≡ out.old
        ++ (long 0 ++ opaque server_name ++ opaque server_name ++ word 0)) }
{
    out.u64(NO_MINOR)?;
    out.opaque(SERVER_NAME)?;
    out.opaque(SERVER_NAME)?;
    out.u32(NO_IMPLEMENTATION)
}

/// Appends what an EXCHANGE_ID tells (RFC 8881 section 18.35.2).
#[tactic(auto, unfolding(lnfs_results::specs::Texts::result_text, lnfs_results::specs::Texts::fields_text))]
pub fn append_told(out: &mut XdrWriter, level: u32, told: &ClientInfo) -> Result<(), AllocError>
    ensures { OnOk result (out.new ≡ out.old ++ result_text
        (told_result level (told_of told.now))) }
{
    out.u32(OP_EXCHANGE_ID)?;
    out.u32(NFS4_OK)?;
    out.u64(client_id(level, told.client.number))?;
    out.u32(told.sequence)?;
    out.u32(flags_of(told.confirmed))?;
    out.u32(SP4_NONE)?;
    append_server(out)
}

/// What a CREATE_SESSION tells of the session that it made: what the fore channel grants, and the back
/// channel as it was asked, without RDMA (RFC 8881 section 18.36.2).
pub fn created_result(level: u32, args: &CreateSession, session: u32, granted: &Channel) -> OpResult
    ensures created { result ≡ created_result level args.now session granted.now }
    ensures sized { ResultSized result }
    ensures success { status_of result ≡ 0 }
{
    OpResult::CreateSession {
        session: session_id(level, session),
        sequence: args.sequence,
        flags: 0,
        fore: *granted,
        back: Channel {
            ird: None,
            ..args.back
        },
    }
}

/// Appends what a SEQUENCE tells: the highest slot, and that one as the target (RFC 8881 section 18.46.2).
#[tactic(auto, unfolding(lnfs_results::specs::Texts::result_text, lnfs_results::specs::Texts::fields_text))]
pub fn append_sequence(out: &mut XdrWriter, args: &Sequence, highest: u32) -> Result<(), AllocError>
    ensures { OnOk result (out.new ≡ out.old ++ result_text (sequence_result args.now highest)) }
{
    out.u32(OP_SEQUENCE)?;
    out.u32(NFS4_OK)?;
    out.fixed(&args.session)?;
    out.u32(args.sequence)?;
    out.u32(args.slot)?;
    out.u32(highest)?;
    out.u32(highest)?;
    out.u32(NO_FLAGS)
}

/// The result of an operation that failed. SETATTR's says which attributes were set: none.
pub fn failed(op: &Op<'_>, status: u32) -> OpResult
    ensures failed { result ≡ failed op.now status }
    ensures sized { ResultSized result }
    ensures status { status_of result ≡ status }
{
    if let Op::SetAttr { .. } = op {
        return OpResult::SetAttr {
            status,
            set: Bitmap { words: [0; 8] },
        };
    }
    OpResult::Failed {
        number: op.result_number(),
        status,
    }
}
