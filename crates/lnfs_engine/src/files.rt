//! The operations on files and their opens: OPEN, CLOSE, READ, WRITE and COMMIT; and SETATTR, which may set a size (RFC 8881
//! section 18).
ghost use Rattle.std.specs.Prelude.{◌≡◌, true, List, IfOk, Some};
ghost use Rattle.std.specs.List.{AllByRecursion};
ghost use Rattle.lnfs_world.specs.World.{World, label_at};
ghost use Rattle.lnfs_world.specs.Facts.{NodeFacts, is_good_open};
ghost use Rattle.lnfs_arguments.specs.declared.types.Op.TheVariants as ops;
ghost use Rattle.lnfs_results.specs.declared.types.OpResult.TheVariants as results;
ghost use Rattle.lnfs_operations.specs.declared.numbers.TheConstants as numbers;
ghost use Rattle.lnfs_operations.specs.Served.{zeros};
ghost use Rattle.lnfs_operations.specs.Open as opening;
ghost use Rattle.lnfs_operations.specs.Close as closing;
ghost use Rattle.lnfs_operations.specs.Write as writing;
ghost use Rattle.lnfs_operations.specs.SetAttr as setting;
ghost use Rattle.lnfs_tree.specs.Rows.{id_of};
ghost use Rattle.lnfs_quota.specs.declared.quota.Row.{Row};
ghost use Rattle.lnfs_quota.specs.Totals.{AreTotals};
ghost use Rattle.lnfs_nodes.specs.Trees.{with_tree};
ghost use Rattle.lnfs_files.specs.Worlds.{with_files};
ghost use Rattle.lnfs_files.specs.Leases.{Leases};
ghost use Rattle.lnfs_files.specs.Openings.{args_of};
ghost use Rattle.lnfs_engine.specs.declared.place.Keeper as code;
ghost use Rattle.lnfs_engine.specs.Places.{place_of, IsOnFiles, IsMoved};
ghost use Rattle.lnfs_engine.specs.Replies.{IsPlain};
ghost use Rattle.lnfs_engine.specs.Nodes.{told_as};
ghost use Rattle.lnfs_engine.specs.Performs.{site_in, sent_of, turn, Performs};
ghost use Rattle.lnfs_engine.specs.Names.{Serves, landed};

use crate::leases::is_lease_over;
use crate::nodes::{plain, wrote};
use crate::place::{Place, Request, caller_of};
use crate::reply::{Answer, Came, say};
use lnfs_arguments::{Op, StateId};
use lnfs_attrs::{Bitmap, RawAttrs};
use lnfs_files::{Opened, Opening, close, commit, open, read, set_attr, write};
use lnfs_open::{ClientKey, Opens};
use lnfs_operations::Refusal;
use lnfs_operations::numbers::{FILE_SYNC4, OPEN4_RESULT_LOCKTYPE_POSIX};
use lnfs_quota::Quota;
use lnfs_results::OpResult;
use lnfs_session::Clients;
use lnfs_tree::Tree;
use lnfs_world::numbers::LAST_SEQUENCE;
use lnfs_xdr::XdrWriter;
use std::alloc::AllocError;

/// The verifier of writes (RFC 8881 section 18.32.3). It is the same in each life of the server: one begins without files,
/// clients and sessions, so that a client has nothing uncommitted of a life before.
const NO_VERIFIER: [u8; 8] = [0; 8];

/// What OPEN tells: the flag of locks as POSIX has them, and no delegation. The file becomes the current file handle.
fn take_opened(place: &mut Place, told: Result<Opened, Refusal>) -> Answer
    ensures answer { result ≡ told_as (λ o. results.Open o.id o.info numbers.OPEN4_RESULT_LOCKTYPE_POSIX o.set 0) told }
    ensures plain { IsPlain result }
    ensures place { place_of place.new ≡ landed (λ o.
        record (place_of place.old) { current = Some (id_of o.node) }) (place_of place.old) told }
{
    match told {
        Ok(
            Opened {
                id,
                node,
                info,
                set,
            },
        ) => {
            place.current = Some(node);
            Ok(OpResult::Open {
                id,
                info,
                rflags: OPEN4_RESULT_LOCKTYPE_POSIX,
                set,
                delegation: 0,
            })
        }
        Err(why) => Err(why),
    }
}

/// Answers an OPEN.
fn on_open<F: Fn(ClientKey) -> bool>(
    request: &Request<'_>,
    tree: &mut Tree,
    opens: &mut Opens,
    quota: &mut Quota,
    place: &mut Place,
    args: &Opening<'_>,
    over: &F,
) -> Result<Answer, AllocError>
    requires told { F.IsAlwaysCallable over.now }
    requires facts { NodeFacts (site_in request.now).dom tree.old.nodes tree.old.entries
        tree.old.lasts }
    requires opens { AllByRecursion (λ o. is_good_open (site_in request.now).dom
        (label_at tree.old.nodes) o ≡ true) opens.old.opens }
    requires counts { AreTotals quota.old tree.old.nodes }
    ensures serves { IfOk result (λ answer. (rest : World) →
        Leases (F.post over.now) rest place.old.moment →
        Serves (λ o. results.Open o.id o.info numbers.OPEN4_RESULT_LOCKTYPE_POSIX o.set 0)
        (opening.open_file (site_in request.now) (args_of args.now) (place_of place.old)
        (with_files rest tree.old opens.old)) answer (place_of place.new)
        (with_files rest tree.old opens.old) (with_files rest tree.new opens.new)) }
    ensures plain { IfOk result IsPlain }
    ensures moved { IfOk result (λ answer. IsMoved (place_of place.old) (place_of place.new)) }
    ensures counts { AreTotals quota.new tree.new.nodes }
{
    let caller = caller_of(place);
    let told = open(
        request.alloc,
        request.site,
        tree,
        opens,
        quota,
        &caller,
        place.client,
        args,
        over,
    )?;
    Ok(take_opened(place, told))
}

/// The state id that is told of an open that ended (RFC 8881 section 18.2.4).
fn closed() -> StateId
    ensures { result ≡ closing.closed }
{
    StateId {
        seqid: LAST_SEQUENCE,
        other: [0; 12],
    }
}

/// Answers a CLOSE.
fn on_close(tree: &Tree, opens: &mut Opens, place: &Place, id: &StateId) -> Answer
    ensures serves { (rest : World) →
        Serves (λ it. results.Close closing.closed)
        (closing.close id.now (place_of place.now) (with_files rest tree.now opens.old)) result
        (place_of place.now) (with_files rest tree.now opens.old)
        (with_files rest tree.now opens.new) }
    ensures plain { IsPlain result }
{
    let caller = caller_of(place);
    let told = close(tree, opens, &caller, place.client, id);
    plain(told, OpResult::Close { id: closed() })
}

/// What WRITE tells: how many bytes were written, all of which stand.
fn tell_written(told: Result<u32, Refusal>) -> Answer
    ensures answer { result ≡ told_as (λ many. results.Write many numbers.FILE_SYNC4 (zeros 8))
        told }
    ensures plain { IsPlain result }
{
    match told {
        Ok(count) => Ok(OpResult::Write {
            count,
            committed: FILE_SYNC4,
            verifier: NO_VERIFIER,
        }),
        Err(why) => Err(why),
    }
}

/// What a WRITE is asked.
#[derive(Clone, Copy)]
struct Written<'a> {
    id: &'a StateId,
    offset: u64,
    stable: u32,
    content: &'a [u8],
}

/// Answers a WRITE.
fn on_write<F: Fn(ClientKey) -> bool>(
    request: &Request<'_>,
    tree: &mut Tree,
    opens: &Opens,
    quota: &mut Quota,
    place: &Place,
    args: &Written<'_>,
    over: &F,
) -> Result<Answer, AllocError>
    requires told { F.IsAlwaysCallable over.now }
    requires counts { AreTotals quota.old tree.old.nodes }
    ensures serves { IfOk result (λ answer. (rest : World) →
        Leases (F.post over.now) rest place.now.moment →
        let written : writing.Arguments = record
        { id = args.now.id.now; offset = args.now.offset; stable = args.now.stable; content = args.now.content.now } in
        Serves (λ many. results.Write many numbers.FILE_SYNC4 (zeros 8))
        (writing.write (site_in request.now) written (place_of place.now)
        (with_files rest tree.old opens.now)) answer (place_of place.now)
        (with_files rest tree.old opens.now) (with_files rest tree.new opens.now)) }
    ensures plain { IfOk result IsPlain }
    ensures counts { AreTotals quota.new tree.new.nodes }
{
    let caller = caller_of(place);
    let told = write(
        request.alloc,
        request.site,
        tree,
        opens,
        quota,
        &caller,
        place.client,
        args.id,
        args.offset,
        args.stable,
        args.content,
        over,
    )?;
    Ok(tell_written(told))
}

/// Answers a COMMIT.
fn on_commit(request: &Request<'_>, tree: &Tree, place: &Place) -> Answer
    ensures serves { (rest : World) →
        Serves (λ it. results.Commit (zeros 8)) (writing.commit (site_in request.now)
        (place_of place.now) (with_tree rest tree.now)) result (place_of place.now)
        (with_tree rest tree.now) (with_tree rest tree.now) }
    ensures plain { IsPlain result }
{
    let caller = caller_of(place);
    let told = commit(request.site, tree, &caller);
    plain(
        told,
        OpResult::Commit {
            verifier: NO_VERIFIER,
        },
    )
}

/// What SETATTR tells.
fn tell_set(told: Result<Bitmap, Refusal>) -> Answer
    ensures answer { result ≡ told_as (λ set. results.SetAttr 0 set) told }
    ensures plain { IsPlain result }
{
    match told {
        Ok(set) => Ok(OpResult::SetAttr { status: 0, set }),
        Err(why) => Err(why),
    }
}

/// Answers a SETATTR.
fn on_set_attr<F: Fn(ClientKey) -> bool>(
    request: &Request<'_>,
    tree: &mut Tree,
    opens: &Opens,
    quota: &mut Quota,
    place: &Place,
    id: &StateId,
    given: &RawAttrs,
    over: &F,
) -> Result<Answer, AllocError>
    requires told { F.IsAlwaysCallable over.now }
    requires facts { NodeFacts (site_in request.now).dom tree.old.nodes tree.old.entries
        tree.old.lasts }
    requires counts { AreTotals quota.old tree.old.nodes }
    ensures serves { IfOk result (λ answer. (rest : World) →
        Leases (F.post over.now) rest place.now.moment →
        Serves (results.SetAttr 0) (setting.set_attr (site_in request.now) id.now given.now
        (place_of place.now) (with_files rest tree.old opens.now)) answer (place_of place.now)
        (with_files rest tree.old opens.now) (with_files rest tree.new opens.now)) }
    ensures plain { IfOk result IsPlain }
    ensures counts { AreTotals quota.new tree.new.nodes }
{
    let caller = caller_of(place);
    let told = set_attr(
        request.alloc,
        request.site,
        tree,
        opens,
        quota,
        &caller,
        place.client,
        id,
        given,
        over,
    )?;
    Ok(tell_set(told))
}

/// What a READ is asked.
#[derive(Clone, Copy)]
struct ReadFrom<'a> {
    id: &'a StateId,
    offset: u64,
    count: u32,
}

/// Serves a READ, and appends its result.
fn on_read<F: Fn(ClientKey) -> bool>(
    request: &Request<'_>,
    tree: &mut Tree,
    opens: &Opens,
    place: &Place,
    op: &Op<'_>,
    args: &ReadFrom<'_>,
    over: &F,
    out: &mut XdrWriter,
) -> Result<Came, AllocError>
    requires told { F.IsAlwaysCallable over.now }
    requires op { op.now ≡ ops.Read args.now.id.now args.now.offset args.now.count }
    requires facts { NodeFacts (site_in request.now).dom tree.old.nodes tree.old.entries
        tree.old.lasts }
    ensures performs { IfOk result (λ came. (keeper : code.Keeper) (rest : World) →
        Leases (F.post over.now) rest place.now.moment →
        Performs request.now.begin out.old out.new keeper keeper (place_of place.now)
        (with_files rest tree.new opens.now) (turn (site_in request.now) (sent_of request.now)
        op.now (place_of place.now) (with_files rest tree.old opens.now)) came) }
    ensures counts { (rows : List Row) (rest : World) →
        Leases (F.post over.now) rest place.now.moment → AreTotals rows tree.old.nodes →
        AreTotals rows tree.new.nodes }
{
    let caller = caller_of(place);
    let site = request.site;
    let (client, offset, count) = (place.client, args.offset, args.count);
    let answer = read(
        site, tree, opens, &caller, client, args.id, offset, count, over, out,
    )?;
    wrote(out, op, answer)
}

/// Serves an operation on files and their opens, and appends its result. `over` tells of clients whether their leases are
/// over.
fn serve_files<F: Fn(ClientKey) -> bool>(
    request: &Request<'_>,
    tree: &mut Tree,
    opens: &mut Opens,
    quota: &mut Quota,
    place: &mut Place,
    op: &Op<'_>,
    over: &F,
    out: &mut XdrWriter,
) -> Result<Came, AllocError>
    requires told { F.IsAlwaysCallable over.now }
    requires own { IsOnFiles op.now }
    requires facts { NodeFacts (site_in request.now).dom tree.old.nodes tree.old.entries
        tree.old.lasts }
    requires opens { AllByRecursion (λ o. is_good_open (site_in request.now).dom
        (label_at tree.old.nodes) o ≡ true) opens.old.opens }
    requires counts { AreTotals quota.old tree.old.nodes }
    ensures performs { IfOk result (λ came. (keeper : code.Keeper) (rest : World) →
        Leases (F.post over.now) rest place.old.moment →
        Performs request.now.begin out.old out.new keeper keeper (place_of place.new)
        (with_files rest tree.new opens.new) (turn (site_in request.now) (sent_of request.now)
        op.now (place_of place.old) (with_files rest tree.old opens.old)) came) }
    ensures moved { IfOk result (λ came. IsMoved (place_of place.old) (place_of place.new)) }
    ensures counts { (rest : World) → Leases (F.post over.now) rest place.old.moment →
        AreTotals quota.new tree.new.nodes }
{
    match op {
        Op::Open {
            access,
            deny,
            owner,
            making,
            claim,
            ..
        } => {
            let args = Opening {
                access: *access,
                deny: *deny,
                owner: owner.as_slice(),
                making,
                claim,
            };
            let answer = on_open(request, tree, opens, quota, place, &args, over)?;
            say(out, op, answer)
        }
        Op::Close { id, .. } => {
            let answer = on_close(tree, opens, place, id);
            say(out, op, answer)
        }
        Op::Read { id, offset, count } => {
            let args = ReadFrom {
                id,
                offset: *offset,
                count: *count,
            };
            on_read(request, tree, opens, place, op, &args, over, out)
        }
        Op::Write {
            id,
            offset,
            stable,
            content,
        } => {
            let args = Written {
                id,
                offset: *offset,
                stable: *stable,
                content: content.as_slice(),
            };
            let answer = on_write(request, tree, opens, quota, place, &args, over)?;
            say(out, op, answer)
        }
        Op::Commit { .. } => {
            let answer = on_commit(request, tree, place);
            say(out, op, answer)
        }
        Op::SetAttr { id, attrs } => {
            let answer = on_set_attr(request, tree, opens, quota, place, id, attrs, over)?;
            say(out, op, answer)
        }
        _ => unreachable!(),
    }
}

/// Serves an operation on files and their opens, and appends its result. The leases are those of the clients.
pub fn on_files(
    request: &Request<'_>,
    clients: &Clients,
    tree: &mut Tree,
    opens: &mut Opens,
    quota: &mut Quota,
    place: &mut Place,
    op: &Op<'_>,
    out: &mut XdrWriter,
) -> Result<Came, AllocError>
    requires own { IsOnFiles op.now }
    requires facts { NodeFacts (site_in request.now).dom tree.old.nodes tree.old.entries
        tree.old.lasts }
    requires opens { AllByRecursion (λ o. is_good_open (site_in request.now).dom
        (label_at tree.old.nodes) o ≡ true) opens.old.opens }
    requires counts { AreTotals quota.old tree.old.nodes }
    ensures performs { IfOk result (λ came. (keeper : code.Keeper) (rest : World) →
        rest.clients ≡ clients.now.clients →
        Performs request.now.begin out.old out.new keeper keeper (place_of place.new)
        (with_files rest tree.new opens.new) (turn (site_in request.now) (sent_of request.now)
        op.now (place_of place.old) (with_files rest tree.old opens.old)) came) }
    ensures moved { IfOk result (λ came. IsMoved (place_of place.old) (place_of place.new)) }
    ensures counts { AreTotals quota.new tree.new.nodes }
{
    let moment = place.moment;
    let over = |client: ClientKey| is_lease_over(clients, client, moment);
    serve_files(request, tree, opens, quota, place, op, &over, out)
}
