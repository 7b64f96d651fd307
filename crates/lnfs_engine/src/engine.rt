//! The state of a server, and a COMPOUND on it.
ghost use Rattle.std.specs.Prelude.{◌≡◌, ◌≤◌, ◌++◌, drop, length, IfOk, option_map};
ghost use Rattle.std.specs.List.{AllByRecursion};
ghost use Rattle.lnfs_policy.specs.Policy.{dominance};
ghost use Rattle.lnfs_world.specs.Usage.{bytes_of};
ghost use Rattle.lnfs_quota.specs.Totals.{IsInBounds};
ghost use Rattle.lnfs_world.specs.Outcome.{begins_at};
ghost use Rattle.lnfs_world.specs.Both.{both, BothStand};
ghost use Rattle.lnfs_site.specs.Site.{site_of};
ghost use Rattle.lnfs_operations.specs.Sequence.{Sent};
ghost use Rattle.lnfs_operations.specs.SlotRule.{served};
ghost use Rattle.lnfs_engine.specs.Places.{place_of};
ghost use Rattle.lnfs_engine.specs.Performs.{site_in, sent_of};
ghost use Rattle.lnfs_engine.specs.Served.{IsServed};
ghost use Rattle.lnfs_engine.specs.Stores.{only_tree};
ghost use Rattle.lnfs_engine.specs.Runs.{denial_of, denied_by};

use crate::extra::Extra;
use crate::head::finished;
use crate::keep::keep;
use crate::place::{Keeper, Place, Request, first_place};
use crate::run::{Denial, Ended, run_all};
use crate::store::Store;
use lnfs_arguments::Compound;
use lnfs_arguments::statuses::NFS4_OK;
use lnfs_calipso::Level;
use lnfs_results::append_head;
use lnfs_site::Site;
use lnfs_tree::Tree;
use lnfs_types::Moment;
use lnfs_xdr::XdrWriter;
use std::alloc::{AllocError, Global};

/// The state of a server: the rows of the world, and what serves further operations with rows of their own.
#[derive(Drop)]
pub struct Engine<X: Extra> {
    pub(crate) alloc: Global,
    pub store: Store,
    pub extra: X,
}

/// What a COMPOUND was answered: the reply with its result at the end, and what was refused, if anything was.
#[derive(Debug, Drop)]
pub struct Ran {
    pub reply: Vec<u8>,
    pub denial: Option<Denial>,
}

/// What was refused of a COMPOUND that ended.
fn denied(ended: &Ended) -> Option<Denial>
    ensures { result ≡ denied_by ended.now }
{
    match ended {
        Ended::New { denial, .. } => *denial,
        Ended::Again => None,
    }
}

/// The result of a COMPOUND in its reply.
fn result_in(reply: &Vec<u8>, begin: usize) -> &[u8]
    requires { begin ≤ length reply.now.items }
    ensures { result.now ≡ drop begin reply.now.items }
{
    &reply[begin..]
}

/// Serves a COMPOUND from its first place on, and appends its result to a reply.
fn serve<X: Extra>(
    request: &Request<'_>,
    store: &mut Store,
    extra: &mut X,
    first: Place,
    mut out: XdrWriter,
) -> Result<Ran, AllocError>
    requires tag { length request.now.compound.now.tag ≤ 1024 }
    requires few { length request.now.compound.now.ops ≤ 32 }
    requires begin { request.now.begin ≡ length out }
    requires first { place_of first ≡ begins_at first.subject.0 first.moment }
    requires facts { BothStand X.extra.Fact (site_in request.now).dom (place_of first)
        (both store.old (X.rows extra.old)) }
    ensures { IfOk result (λ ran. IsServed out (both store.new (X.rows extra.new))
        (served X.extra (site_in request.now) (sent_of request.now) request.now.compound.now
        (place_of first) (both store.old (X.rows extra.old))) ran) }
{
    append_head(&mut out, NFS4_OK, request.compound.tag.as_slice(), 0)?;
    let end = out.mark();
    let mut place = first;
    let mut keeper = Keeper::Nowhere;
    let ended = run_all(request, store, extra, &mut place, &mut keeper, &mut out)?;
    let reply = finished(out, request.begin, end, &ended);
    let result = result_in(&reply, request.begin);
    keep(
        request.alloc,
        &mut store.clients,
        &keeper,
        request.bytes,
        result,
    )?;
    Ok(Ran {
        reply,
        denial: denied(&ended),
    })
}

impl<X: Extra> Engine<X> {
    /// The nodes of a tree without bytes, no client, no open and no context. What each level uses is counted. The homes and
    /// the labels are levels that a policy may list.
    ///
    /// # Errors
    ///
    /// `AllocError` where there is no memory.
    pub fn new(alloc: Global, tree: Tree, extra: X) -> Result<Engine<X>, AllocError>
        requires empty { AllByRecursion (λ n. bytes_of n n.kind ≡ 0) tree.nodes }
        requires bounds { AllByRecursion IsInBounds tree.nodes }
        ensures store { IfOk result (λ engine. engine.store ≡ only_tree tree) }
        ensures extra { IfOk result (λ engine. engine.extra ≡ extra) }
    {
        Ok(Engine {
            alloc,
            store: Store::new(alloc, tree)?,
            extra,
        })
    }

    /// Serves a COMPOUND of a subject, by the bytes of its arguments and the length of its record: its
    /// operations in order up to the first that fails, or the result that was kept where it came before (RFC
    /// 8881 section 2.10.6). Its result is appended to `out`, which becomes the reply.
    pub fn run(
        &mut self,
        site: &Site<'_>,
        subject: Level,
        moment: Moment,
        size: u32,
        bytes: &[u8],
        compound: &Compound<'_>,
        out: XdrWriter,
    ) -> Result<Ran, AllocError>
        requires tag { length compound.now.tag ≤ 1024 }
        requires few { length compound.now.ops ≤ 32 }
        requires facts { BothStand X.extra.Fact (dominance site.now) (begins_at subject.0 moment)
            (both self.old.store (X.rows self.old.extra)) }
        ensures reply { IfOk result (λ ran.
            let sent : Sent = record
            { arguments = bytes.now; size = size; count = compound.now.count } in
            ran.reply.items ≡ out
            ++ (served X.extra (site_of site.now) sent compound.now (begins_at subject.0 moment)
            (both self.old.store (X.rows self.old.extra))).answer.result) }
        ensures denial { IfOk result (λ ran.
            let sent : Sent = record
            { arguments = bytes.now; size = size; count = compound.now.count } in
            option_map denial_of ran.denial
            ≡ (served X.extra (site_of site.now) sent compound.now (begins_at subject.0 moment)
            (both self.old.store (X.rows self.old.extra))).answer.denial) }
        ensures state { IfOk result (λ ran.
            let sent : Sent = record
            { arguments = bytes.now; size = size; count = compound.now.count } in
            both self.new.store (X.rows self.new.extra)
            ≡ (served X.extra (site_of site.now) sent compound.now (begins_at subject.0 moment)
            (both self.old.store (X.rows self.old.extra))).state) }
    {
        let request = Request {
            alloc: self.alloc,
            site,
            size,
            bytes,
            compound,
            begin: out.mark(),
        };
        let first = first_place(subject, moment);
        serve(&request, &mut self.store, &mut self.extra, first, out)
    }
}
