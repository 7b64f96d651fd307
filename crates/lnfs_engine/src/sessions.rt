//! The operations on sessions: CREATE_SESSION, DESTROY_SESSION and SEQUENCE (RFC 8881 sections 18.36,
//! 18.37 and 18.46).
ghost use Rattle.std.specs.Prelude.{◌≡◌, List, ℕ, IfOk, MatchOption};
ghost use Rattle.std.specs.Option.{option_map};
ghost use Rattle.lnfs_types.specs.declared.event.Moment.{Moment};
ghost use Rattle.lnfs_arguments.specs.declared.types.Op.TheVariants as ops;
ghost use Rattle.lnfs_results.specs.declared.types.OpResult.TheVariants as results;
ghost use Rattle.lnfs_world.specs.World.{Session, World, client_at};
ghost use Rattle.lnfs_world.specs.Outcome.{Site, begins_at};
ghost use Rattle.lnfs_operations.specs.Sequence.{Sent};
ghost use Rattle.lnfs_operations.specs.Served.{Nowhere, created_keeper, row};
ghost use Rattle.lnfs_operations.specs.Identifiers.{client_named};
ghost use Rattle.lnfs_session.specs.Creates.{kept_reply, or_none};
ghost use Rattle.lnfs_session.specs.Listed.{id_of};
ghost use Rattle.lnfs_session.specs.Standing.{standing};
ghost use Rattle.lnfs_engine.specs.Places.{place_of, keeper_of, Stands, Starts};
ghost use Rattle.lnfs_engine.specs.Nodes.{told_as};
ghost use Rattle.lnfs_engine.specs.Replies.{Acts, IsPlain, own_of};
ghost use Rattle.lnfs_files.specs.Worlds.{with_opens};
ghost use Rattle.lnfs_engine.specs.Stores.{opens_left};
ghost use Rattle.lnfs_engine.specs.Performs.{made_of, site_in, sent_of, turn, Performs};

use crate::clients::key_of;
use crate::place::{InSession, Keeper, Place, Request};
use crate::reply::{Answer, Came, refused_by, repeat, say, say_sequence};
use crate::results::created_result;
use lnfs_arguments::{CreateSession, Op, Sequence};
use lnfs_open::Opens;
use lnfs_operations::Refusal;
use lnfs_session::{ClientRef, Clients, Created, Seq, client_named};
use lnfs_xdr::XdrWriter;
use std::alloc::AllocError;

/// Serves a DESTROY_SESSION of a level.
pub fn destroy_session(
    clients: &mut Clients,
    level: u32,
    session: [u8; 16],
) -> Result<Result<(), Refusal>, AllocError>
    ensures { IfOk result (λ answer. (site : Site) (sent : Sent) (moment : Moment) (rest : World) →
        let op = ops.DestroySession session in
        Acts (row site sent op (begins_at level moment) (standing rest clients.old))
        (own_of op Nowhere (told_as (λ it. results.DestroySession) answer))
        (begins_at level moment) (standing rest clients.old) (standing rest clients.new)) }
{
    match clients.destroy_session(level, session) {
        Ok(()) => Ok(Ok(())),
        Err(error) => Ok(Err(refused_by(error)?)),
    }
}

/// Where the result of a CREATE_SESSION of a level is kept, be it a refusal: in the record of its client, where it
/// brings the next sequence there.
fn created_keeper(clients: &Clients, level: u32, args: &CreateSession) -> Keeper
    ensures keeper { (moment : Moment) (rest : World) →
        keeper_of result ≡ created_keeper args.now (begins_at level moment)
        (standing rest clients.now) }
    ensures stands { (moment : Moment) (sessions : List Session) →
        Stands (begins_at level moment) sessions result }
{
    match clients.next_created(level, args) {
        Some(client) => Keeper::Client(client),
        None => Keeper::Nowhere,
    }
}

/// The answer that is kept of the last CREATE_SESSION of a client.
fn kept_created<'a>(clients: &'a Clients, args: &CreateSession) -> &'a [u8]
    ensures { result.now
        ≡ or_none (kept_reply (client_at clients.now.clients (client_named args.now.client))) }
{
    match clients.kept_created(client_named(args.client)) {
        Some(kept) => kept,
        None => &[],
    }
}

/// The opens of a client go with it, if one went.
fn drop_opens(opens: &mut Opens, gone: Option<ClientRef>)
    ensures { opens.new
        ≡ record opens.old { opens = opens_left (option_map id_of gone) opens.old.opens } }
{
    if let Some(client) = gone {
        opens.drop_client(key_of(client));
    }
}

/// Makes the session of a CREATE_SESSION of a level. The client that gives way to its client goes with its opens. Answers
/// None where the last one came again.
fn make_session(
    clients: &mut Clients,
    opens: &mut Opens,
    level: u32,
    args: &CreateSession,
    bytes: &[u8],
    secs: u64,
) -> Result<Option<Answer>, AllocError>
    ensures acts { IfOk result (λ answer. (site : Site) (size count : ℕ) (moment : Moment)
        (rest : World) → moment.secs ≡ secs →
        let sent : Sent = record { arguments = bytes.now; size = size; count = count } in
        let op = ops.CreateSession args.now in
        let before = standing (with_opens rest opens.old) clients.old in
        let after = standing (with_opens rest opens.new) clients.new in
        let keeper = created_keeper args.now (begins_at level moment) before in
        Acts (row site sent op (begins_at level moment) before)
        (made_of op keeper clients.new args.now answer) (begins_at level moment) before after) }
    ensures plain { IfOk result (λ answer. MatchOption answer (Unit {0}) IsPlain) }
{
    match clients.create_session(level, args, bytes, secs) {
        Ok(
            Created::New {
                session,
                granted,
                dropped,
            },
        ) => {
            drop_opens(opens, dropped);
            Ok(Some(Ok(created_result(level, args, session, &granted))))
        }
        Ok(Created::Replay) => Ok(None),
        Err(error) => Ok(Some(Err(refused_by(error)?))),
    }
}

/// Serves a CREATE_SESSION, the first operation of its COMPOUND.
pub fn create_session(
    clients: &mut Clients,
    opens: &mut Opens,
    request: &Request<'_>,
    args: &CreateSession,
    op: &Op<'_>,
    place: &Place,
    keeper: &mut Keeper,
    out: &mut XdrWriter,
) -> Result<Came, AllocError>
    requires op { op.now ≡ ops.CreateSession args.now }
    requires first { Starts (place_of place.now) keeper.old }
    ensures performs { IfOk result (λ came. (rest : World) →
        let before = standing (with_opens rest opens.old) clients.old in
        let after = standing (with_opens rest opens.new) clients.new in
        Performs request.now.begin out.old out.new keeper.old keeper.new (place_of place.now) after
        (turn (site_in request.now) (sent_of request.now) op.now (place_of place.now) before)
        came) }
    ensures stands { IfOk result (λ came. Stands (place_of place.now) clients.new.sessions
        keeper.new) }
{
    let level = place.subject.0;
    let created = created_keeper(clients, level, args);
    let secs = place.moment.secs;
    match make_session(clients, opens, level, args, request.bytes, secs)? {
        Some(answer) => {
            *keeper = created;
            say(out, op, answer)
        }
        None => repeat(out, request.begin, kept_created(clients, args)),
    }
}

/// Serves a SEQUENCE, the first operation of its COMPOUND. Where that is new, the lease of its client begins again.
pub fn sequence(
    clients: &mut Clients,
    request: &Request<'_>,
    args: &Sequence,
    op: &Op<'_>,
    place: &mut Place,
    keeper: &mut Keeper,
    out: &mut XdrWriter,
) -> Result<Came, AllocError>
    requires op { op.now ≡ ops.Sequence args.now }
    requires first { Starts (place_of place.old) keeper.old }
    ensures performs { IfOk result (λ came. (rest : World) →
        Performs request.now.begin out.old out.new keeper.old keeper.new (place_of place.new)
        (standing rest clients.new) (turn (site_in request.now) (sent_of request.now) op.now
        (place_of place.old) (standing rest clients.old)) came) }
    ensures stands { IfOk result (λ came. Stands (place_of place.new) clients.new.sessions
        keeper.new) }
{
    let count = request.compound.count;
    match clients.sequence(place.subject.0, args, request.bytes, request.size, count) {
        Ok(
            Seq::New {
                at,
                client,
                room,
                highest,
            },
        ) => {
            place.client = Some(client.number);
            place.session = Some(at.session.number);
            *keeper = Keeper::Session(InSession {
                at,
                sequence: args.sequence,
                client,
                room,
            });
            clients.renew(client, place.moment.secs);
            say_sequence(out, op, args, highest)
        }
        Ok(Seq::Replay(kept)) => repeat(out, request.begin, kept),
        Err(error) => say(out, op, Err(refused_by(error)?)),
    }
}
