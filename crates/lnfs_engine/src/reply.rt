//! What an operation answers, and how its result is appended.
ghost use Rattle.std.specs.Prelude.{◌≡◌, ◌++◌, ℕ, Ok, Err, IfOk, OnOk};
ghost use Rattle.lnfs_results.specs.declared.types.OpResult.TheVariants as results;
ghost use Rattle.lnfs_results.specs.Texts.{result_text};
ghost use Rattle.lnfs_operations.specs.Results.{told_result};
ghost use Rattle.lnfs_operations.specs.Served.{Keeper, Kept};
ghost use Rattle.lnfs_session.specs.Answers.{told_of};
ghost use Rattle.lnfs_engine.specs.Replies.{IsRefusal, IsPlain, own_of, Says, SaysWritten};
ghost use Rattle.lnfs_engine.specs.Results.{sequence_result};
ghost use Rattle.lnfs_engine.specs.Nodes.{told_as, SaysBare};

use crate::results::{append_sequence, append_told, failed};
use lnfs_arguments::statuses::NFS4_OK;
use lnfs_arguments::{Op, Sequence};
use lnfs_monitor::Rule;
use lnfs_operations::{Gate, Refusal};
use lnfs_results::{OpResult, append_result};
use lnfs_session::{ClientInfo, SessionError};
use lnfs_xdr::XdrWriter;
use std::alloc::AllocError;

/// The result of an operation, or what refused it.
pub type Answer = Result<OpResult, Refusal>;

/// What came of an operation.
#[derive(Clone, Copy)]
pub enum Came {
    /// Its result was appended, and the next operation may run.
    Done,
    /// It was refused, and its result is the last.
    Refused(Refusal),
    /// The COMPOUND came before: the result that was kept stands in the place of a new one.
    Again,
}

/// What refused a call on the clients, if not want of memory.
pub fn refused_by(error: SessionError) -> Result<Refusal, AllocError>
    ensures { IfOk result (λ why. IsRefusal error why) }
{
    match error {
        SessionError::Status { code, foreign } => Ok(Refusal {
            gate: if foreign {
                Gate::Monitor(Rule::M9)
            } else {
                Gate::Session
            },
            status: code,
        }),
        SessionError::Memory => Err(AllocError),
    }
}

/// Appends the result of an operation that is refused.
pub fn refuse(out: &mut XdrWriter, op: &Op<'_>, why: Refusal) -> Result<Came, AllocError>
    ensures { IfOk result (λ came. SaysWritten out.old out.new op.now (Err why) came) }
{
    append_result(out, &failed(op, why.status))?;
    Ok(Came::Refused(why))
}

/// Appends the result of an operation.
pub fn say(out: &mut XdrWriter, op: &Op<'_>, answer: Answer) -> Result<Came, AllocError>
    requires { IsPlain answer }
    ensures { IfOk result (λ came. (begin : ℕ) (keeper : Keeper) →
        Says begin out.old out.new (own_of op.now keeper answer) came) }
{
    match answer {
        Ok(result) => {
            append_result(out, &result)?;
            Ok(Came::Done)
        }
        Err(why) => {
            append_result(out, &failed(op, why.status))?;
            Ok(Came::Refused(why))
        }
    }
}

/// Appends what an EXCHANGE_ID of a level tells, or the result where it is refused.
pub fn say_told(
    out: &mut XdrWriter,
    op: &Op<'_>,
    level: u32,
    answer: Result<ClientInfo, Refusal>,
) -> Result<Came, AllocError>
    ensures { IfOk result (λ came. (begin : ℕ) (keeper : Keeper) →
        Says begin out.old out.new (own_of op.now keeper
        (told_as (λ told. told_result level (told_of told)) answer)) came) }
{
    match answer {
        Ok(told) => {
            append_told(out, level, &told)?;
            Ok(Came::Done)
        }
        Err(why) => refuse(out, op, why),
    }
}

/// Appends what a SEQUENCE that runs tells.
pub fn say_sequence(
    out: &mut XdrWriter,
    op: &Op<'_>,
    args: &Sequence,
    highest: u32,
) -> Result<Came, AllocError>
    ensures { IfOk result (λ came. (begin : ℕ) (keeper : Keeper) →
        Says begin out.old out.new (own_of op.now keeper (Ok (sequence_result args.now highest)))
        came) }
{
    append_sequence(out, args, highest)?;
    Ok(Came::Done)
}

/// Appends a result of success that has nothing behind its status.
#[tactic(auto, unfolding(lnfs_results::specs::Texts::result_text, lnfs_results::specs::Texts::fields_text))]
fn append_bare(out: &mut XdrWriter, number: u32) -> Result<(), AllocError>
    ensures { OnOk result (out.new ≡ out.old ++ result_text (results.Failed number 0)) }
{
    out.u32(number)?;
    out.u32(NFS4_OK)
}

/// Appends the result of an operation that answers nothing behind its status.
pub fn say_bare(
    out: &mut XdrWriter,
    op: &Op<'_>,
    ended: Result<(), Refusal>,
) -> Result<Came, AllocError>
    ensures { IfOk result (λ came. SaysBare out.old out.new op.now ended came) }
{
    match ended {
        Ok(()) => {
            append_bare(out, op.result_number())?;
            Ok(Came::Done)
        }
        Err(why) => refuse(out, op, why),
    }
}

/// Puts the result that was kept in the place of all that was appended from a mark on.
pub fn repeat(out: &mut XdrWriter, begin: usize, kept: &[u8]) -> Result<Came, AllocError>
    ensures { IfOk result (λ came. Says begin out.old out.new (Kept kept.now) came) }
{
    out.truncate(begin);
    out.raw(kept)?;
    Ok(Came::Again)
}
