//! What a record asks, with all that its reply needs of it. No state is needed, and the record is not needed for the reply
//! any more.
ghost use Rattle.std.specs.Prelude.{◌≡◌, IfOk};
ghost use Rattle.lnfs_vault.specs.Requests.{seen_asked, seen_task, IsAsked, IsTask, HasForm, IsFormed};
ghost use Rattle.lnfs_vault.specs.Seals.{seal_of, seen_sealing};
ghost use Rattle.lnfs_vault.specs.Prepared.{wrapping_of, BeginsFor, Begins, IsPrepared};

use crate::request::{Call, Request, Sealing, Task, request_of};
use crate::sealing::{begin_results, sealing_of};
use lnfs_arguments::ExtraGrammar;
use lnfs_engine::room_of;
use lnfs_format::Codecs;
use lnfs_gss3::Mechanism;
use lnfs_operations::numbers::MOST_SIZE;
use lnfs_policy::Policy;
use lnfs_xdr::XdrWriter;
use std::alloc::{AllocError, Global};

/// What a record asks, how its reply is sealed, and the buffer for its results.
#[derive(Drop)]
pub struct Prepared<'p, 'a> {
    pub asked: Request<'p, 'a>,
    pub sealing: Sealing<'p>,
    pub out: XdrWriter,
}

/// How the reply to a request is sealed.
fn sealing_for<'p, M: Mechanism>(
    alloc: Global,
    mechanism: &M,
    asked: &Request<'p, '_>,
) -> Result<Sealing<'p>, AllocError>
    ensures { IfOk result (λ sealing. seen_sealing sealing
        ≡ seal_of M.signing (wrapping_of (seen_asked asked.now))) }
{
    match asked {
        Request::Silent | Request::Nothing { .. } => Ok(Sealing::Plain),
        Request::Refused { wrapping, .. } => sealing_of(alloc, mechanism, wrapping),
        Request::Asked(call, _) => sealing_of(alloc, mechanism, &call.wrapping),
    }
}

/// The bytes that are granted beside a label: a handle with its length, and seven words.
const GRANTED: usize = 20 + 28;

/// A buffer for the results of a task, which only a COMPOUND and a new context have.
fn begin_task<E: ExtraGrammar>(
    alloc: Global,
    reader: &E,
    sealing: &Sealing<'_>,
    call: &Call<'_, '_>,
    task: &Task<'_>,
) -> Result<XdrWriter, AllocError>
    requires read { IsTask (seen_task task.now) }
    requires form { HasForm call.now task.now }
    ensures { IfOk result (BeginsFor (seen_task task.now) (seen_sealing sealing.now) call.now.xid) }
{
    let room = match task {
        Task::Garbled | Task::EndContext(_) => return Ok(XdrWriter::new(alloc)),
        // no session grants a longer response, whatever the operations could answer
        Task::Run(run) => room_of(&run.compound, reader).min(MOST_SIZE as usize),
        Task::MakeContext(asked) => asked.label.as_slice().len().saturating_add(GRANTED),
    };
    begin_results(alloc, sealing, call.xid, room)
}

/// A buffer for the results of a request, where it may have any.
fn begin<E: ExtraGrammar>(
    alloc: Global,
    reader: &E,
    sealing: &Sealing<'_>,
    asked: &Request<'_, '_>,
) -> Result<XdrWriter, AllocError>
    requires read { IsAsked (seen_asked asked.now) }
    requires form { IsFormed asked.now }
    ensures { IfOk result (Begins (seen_asked asked.now) (seen_sealing sealing.now)) }
{
    match asked {
        Request::Asked(call, task) => begin_task(alloc, reader, sealing, call, task),
        _ => Ok(XdrWriter::new(alloc)),
    }
}

/// What a record of a class asks under a policy. The codecs read the labels that are asserted, the mechanism checks what is
/// signed and signs the header, and the reader reads further operations.
#[inline(always)]
pub fn prepare<'p, 'a, E: ExtraGrammar, M: Mechanism>(
    alloc: Global,
    policy: &'p Policy,
    codecs: &Codecs,
    mechanism: &M,
    reader: &E,
    class: u32,
    message: &'a [u8],
) -> Result<Prepared<'p, 'a>, AllocError>
    ensures { IfOk result (IsPrepared E.grammar M.signing policy.now class message.now) }
{
    let asked = request_of(alloc, policy, codecs, mechanism, reader, class, message)?;
    let sealing = sealing_for(alloc, mechanism, &asked)?;
    let out = begin(alloc, reader, &sealing, &asked)?;
    Ok(Prepared {
        asked,
        sealing,
        out,
    })
}
