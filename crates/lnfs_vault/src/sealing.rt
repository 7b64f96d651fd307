//! How a reply is sealed: plainly, or signed under a parent of the policy. No state is needed.
ghost use Rattle.std.specs.Prelude.{◌≡◌, ◌++◌, ◌≤◌, [], length, IfOk};
ghost use Rattle.lnfs_rpc.specs.Calls.{seen_auth};
ghost use Rattle.lnfs_rpc.specs.Formats.{head_room};
ghost use Rattle.lnfs_rpc.specs.Numbers.{body_limit};
ghost use Rattle.lnfs_rpc.specs.Replies.{accepted, reply_text};
ghost use Rattle.lnfs_step.specs.Wrapping.{results_in};
ghost use Rattle.lnfs_vault.specs.Requests.{seen_wrapping, seen_cause};
ghost use Rattle.lnfs_vault.specs.Seals.{seal_of, seen_sealing, verifier_by, results_begun, answer_by, bare_by, refusal_by};
ghost use Rattle.lnfs_vault.specs.Sealed.{sealed_of};

use crate::request::{Cause, Sealing, Wrapping};
use crate::unsealed::{Answer, Unsealed};
use lnfs_gss3::numbers::SIGNATURE;
use lnfs_gss3::{Mechanism, append_signed, begin_databody, reply_mic};
use lnfs_rpc::{Auth, Head, NFS_VERSION, PROG_MISMATCH, ReplyRecord, begin_reply, write_reply};
use lnfs_step::numbers::SUCCESS;
use lnfs_xdr::{AUTH_NONE, RPCSEC_GSS, XdrWriter};
use std::alloc::{AllocError, Global};

/// The bytes beside a databody that is signed: two lengths, the pad bytes and the signature.
const SIGNED: usize = 8 + 3 + SIGNATURE;

/// How the reply to a call is sealed: the header is signed here.
#[inline(always)]
pub fn sealing_of<'p, M: Mechanism>(
    alloc: Global,
    mechanism: &M,
    wrapping: &Wrapping<'p, '_>,
) -> Result<Sealing<'p>, AllocError>
    ensures { IfOk result (λ sealing. seen_sealing sealing
        ≡ seal_of M.signing (seen_wrapping wrapping.now)) }
{
    match wrapping {
        Wrapping::Plain => Ok(Sealing::Plain),
        Wrapping::Signed {
            parent,
            header,
            seq,
        } => Ok(Sealing::Signed {
            parent,
            mic: reply_mic(alloc, mechanism, parent, header)?,
            seq: *seq,
        }),
    }
}

/// The verifier that has a signature, or the empty one.
fn verifier<'a>(sealing: &'a Sealing<'_>) -> Auth<'a>
    ensures is { seen_auth result ≡ verifier_by (seen_sealing sealing.now) }
    ensures short { length result.body.now ≤ body_limit }
{
    match sealing {
        Sealing::Signed { mic, .. } => Auth {
            flavor: RPCSEC_GSS,
            body: mic,
        },
        Sealing::Plain => Auth {
            flavor: AUTH_NONE,
            body: &[],
        },
    }
}

/// The reply to a call that was accepted, without its results, which are appended behind it. It stands behind the room of
/// its frame's head. The buffer's room is reserved at once: `results` is how many bytes of them are to come.
fn begin_accepted(
    alloc: Global,
    sealing: &Sealing<'_>,
    xid: u32,
    stat: u32,
    results: usize,
) -> Result<XdrWriter, AllocError>
    ensures { IfOk result (λ out.
        out ≡ head_room
        ++ reply_text xid (accepted (verifier_by (seen_sealing sealing.now)) stat) []) }
{
    let head = Head::Accepted {
        verf: verifier(sealing),
        stat,
    };
    begin_reply(alloc, xid, &head, results)
}

/// The reply to a call that was run and has no results.
fn bare(alloc: Global, sealing: &Sealing<'_>, xid: u32) -> Result<ReplyRecord, AllocError>
    ensures { IfOk result (λ reply. reply ≡ bare_by (seen_sealing sealing.now) xid) }
{
    let out = begin_accepted(alloc, sealing, xid, SUCCESS, 0)?;
    Ok(ReplyRecord::new(out.into_bytes()))
}

/// A buffer for results of at most so many bytes: the reply's own, where they are sent as they are, or that of a databody.
pub fn begin_results(
    alloc: Global,
    sealing: &Sealing<'_>,
    xid: u32,
    room: usize,
) -> Result<XdrWriter, AllocError>
    ensures { IfOk result (λ out. out ≡ results_begun (seen_sealing sealing.now) xid) }
{
    match sealing {
        Sealing::Plain => begin_accepted(alloc, sealing, xid, SUCCESS, room),
        Sealing::Signed { seq, .. } => begin_databody(alloc, *seq, room),
    }
}

/// The reply with the results in their buffer.
#[inline(always)]
fn end_results<M: Mechanism>(
    alloc: Global,
    mechanism: &M,
    answer: Answer<'_>,
) -> Result<ReplyRecord, AllocError>
    ensures { IfOk result (λ reply. reply
        ≡ answer_by M.signing (seen_sealing answer.entry.sealing) answer.entry.xid
        answer.entry.built.items) }
{
    let Answer {
        xid,
        sealing,
        built,
    } = answer;
    match &sealing {
        Sealing::Plain => Ok(ReplyRecord::new(built)),
        Sealing::Signed { parent, .. } => {
            let room = built.len().saturating_add(SIGNED);
            let mut out = begin_accepted(alloc, &sealing, xid, SUCCESS, room)?;
            append_signed(&mut out, mechanism, parent, &built)?;
            Ok(ReplyRecord::new(out.into_bytes()))
        }
    }
}

/// What is behind the head of a refusal: after `PROG_MISMATCH` the lowest and the highest version.
fn results_of(alloc: Global, cause: Cause) -> Result<Vec<u8>, AllocError>
    ensures { IfOk result (λ bytes. bytes.items ≡ results_in (seen_cause cause)) }
{
    let mut out = XdrWriter::new(alloc);
    if let Cause::Called {
        stat: PROG_MISMATCH,
    } = cause
    {
        out.u32(NFS_VERSION)?;
        out.u32(NFS_VERSION)?;
    }
    Ok(out.into_bytes())
}

/// The reply to a call that is refused as a whole.
fn refusal(
    alloc: Global,
    sealing: &Sealing<'_>,
    xid: u32,
    cause: Cause,
) -> Result<ReplyRecord, AllocError>
    ensures { IfOk result (λ reply. reply ≡ refusal_by (seen_sealing sealing.now) xid
        (seen_cause cause)) }
{
    let results = results_of(alloc, cause)?;
    let head = match cause {
        Cause::Caller { stat } => Head::AuthError { stat },
        Cause::Called { stat } => Head::Accepted {
            verf: verifier(sealing),
            stat,
        },
        Cause::Version => Head::VersionMismatch,
    };
    write_reply(alloc, xid, &head, &results)
}

/// Seals what a step says: the reply, where one is due.
#[inline(always)]
pub fn seal<M: Mechanism>(
    alloc: Global,
    mechanism: &M,
    unsealed: Unsealed<'_>,
) -> Result<Option<ReplyRecord>, AllocError>
    ensures { IfOk result (λ reply. reply ≡ sealed_of M.signing unsealed.entry) }
{
    let reply = match unsealed {
        Unsealed::Silent => return Ok(None),
        Unsealed::Refused {
            xid,
            sealing,
            cause,
        } => refusal(alloc, &sealing, xid, cause)?,
        Unsealed::Bare { xid, sealing } => bare(alloc, &sealing, xid)?,
        Unsealed::Answered(answer) => end_results(alloc, mechanism, answer)?,
    };
    Ok(Some(reply))
}
