//! The operations on client records: EXCHANGE_ID, DESTROY_CLIENTID and RECLAIM_COMPLETE (RFC 8881
//! sections 18.35, 18.50 and 18.51).
ghost use Rattle.std.specs.Prelude.{◌≡◌, Option, Some, IfOk};
ghost use Rattle.lnfs_types.specs.declared.event.Moment.{Moment};
ghost use Rattle.lnfs_arguments.specs.declared.types.Op.TheVariants as ops;
ghost use Rattle.lnfs_arguments.specs.declared.types.Implementation.{Implementation};
ghost use Rattle.lnfs_results.specs.declared.types.OpResult.TheVariants as results;
ghost use Rattle.lnfs_world.specs.World.{World};
ghost use Rattle.lnfs_world.specs.Outcome.{Site, Place, begins_at};
ghost use Rattle.lnfs_operations.specs.Sequence.{Sent};
ghost use Rattle.lnfs_operations.specs.Results.{told_result};
ghost use Rattle.lnfs_operations.specs.Served.{Nowhere, row};
ghost use Rattle.lnfs_session.specs.Answers.{told_of};
ghost use Rattle.lnfs_session.specs.Standing.{standing};
ghost use Rattle.lnfs_session.specs.Listed.{id_of};
ghost use Rattle.lnfs_open.specs.Listed.{client_id};
ghost use Rattle.lnfs_engine.specs.Behind.{OpensBehind};
ghost use Rattle.lnfs_engine.specs.Nodes.{told_as};
ghost use Rattle.lnfs_engine.specs.Replies.{Acts, own_of};

use crate::reply::refused_by;
use lnfs_calipso::Level;
use lnfs_open::{ClientKey, Opens};
use lnfs_operations::Refusal;
use lnfs_session::{ClientInfo, ClientRef, Clients, client_named};
use std::alloc::AllocError;

/// A client, as the opens name it.
pub fn key_of(client: ClientRef) -> ClientKey
    ensures { client_id result ≡ id_of client }
{
    ClientKey {
        level: Level(client.level),
        number: client.number,
    }
}

/// Serves an EXCHANGE_ID of a level. The record that goes, if any, isn't confirmed, so no open is its.
pub fn exchange_id(
    clients: &mut Clients,
    level: u32,
    verifier: [u8; 8],
    owner: &[u8],
    flags: u32,
) -> Result<Result<ClientInfo, Refusal>, AllocError>
    ensures { IfOk result (λ answer. (site : Site) (sent : Sent)
        (implementation : Option Implementation) (moment : Moment) (rest : World) →
        OpensBehind clients.old.clients rest.opens →
        let op = ops.ExchangeId verifier owner.now flags implementation in
        Acts (row site sent op (begins_at level moment) (standing rest clients.old))
        (own_of op Nowhere (told_as (λ told. told_result level (told_of told)) answer))
        (begins_at level moment) (standing rest clients.old) (standing rest clients.new)) }
{
    match clients.exchange_id(level, verifier, owner, flags) {
        Ok(told) => Ok(Ok(told)),
        Err(error) => Ok(Err(refused_by(error)?)),
    }
}

/// Serves a DESTROY_CLIENTID of a level. A client that has opens stays.
pub fn destroy_clientid(
    clients: &mut Clients,
    opens: &Opens,
    level: u32,
    client: u64,
) -> Result<Result<(), Refusal>, AllocError>
    ensures { IfOk result (λ answer. (site : Site) (sent : Sent) (moment : Moment) (rest : World) →
        rest.opens ≡ opens.now.opens →
        let op = ops.DestroyClientId client in
        Acts (row site sent op (begins_at level moment) (standing rest clients.old))
        (own_of op Nowhere (told_as (λ it. results.DestroyClientId) answer))
        (begins_at level moment) (standing rest clients.old) (standing rest clients.new)) }
{
    let has_opens = opens.any_of(key_of(client_named(client)));
    match clients.destroy_clientid(level, client, has_opens) {
        Ok(()) => Ok(Ok(())),
        Err(error) => Ok(Err(refused_by(error)?)),
    }
}

/// Serves a RECLAIM_COMPLETE of a client.
pub fn reclaim_complete(
    clients: &mut Clients,
    client: ClientRef,
    one_fs: bool,
) -> Result<Result<(), Refusal>, AllocError>
    ensures acts { IfOk result (λ answer. (site : Site) (sent : Sent) (p : Place) (rest : World) →
        let op = ops.ReclaimComplete one_fs in
        let at = record p { subject = client.level; client = Some client.number } in
        Acts (row site sent op at (standing rest clients.old))
        (own_of op Nowhere (told_as (λ it. results.ReclaimComplete) answer)) at
        (standing rest clients.old) (standing rest clients.new)) }
    // It leaves the sessions.
    ensures sessions { IfOk result (λ answer. clients.new.sessions ≡ clients.old.sessions) }
{
    match clients.reclaim_complete(client, one_fs) {
        Ok(()) => Ok(Ok(())),
        Err(error) => Ok(Err(refused_by(error)?)),
    }
}
