//! State ids (RFC 8881 section 8.2): those with a meaning of their own, and what the others allow.
ghost use Rattle.std.specs.Prelude.{◌≡◌, None, option_map};
ghost use Rattle.lnfs_world.specs.World.{Node, World};
ghost use Rattle.lnfs_world.specs.Outcome as outcome;
ghost use Rattle.lnfs_site.specs.Site.{site_of};
ghost use Rattle.lnfs_operations.specs.StateIds as operation;
ghost use Rattle.lnfs_tree.specs.Rows.{id_of};
ghost use Rattle.lnfs_nodes.specs.Acts.{failed, placed};
ghost use Rattle.lnfs_files.specs.Worlds.{with_opens};
ghost use Rattle.lnfs_files.specs.Leases.{Leases};
ghost use Rattle.lnfs_files.specs.Tests.{passed, refusal_in};
ghost use Rattle.lnfs_files.specs.Uses.{special_of, way_of};

use crate::references::{node_key, refer, refused_by};
use lnfs_arguments::StateId;
use lnfs_arguments::statuses::{NFS4ERR_LOCKED, NFS4ERR_OPENMODE};
use lnfs_nodes::Caller;
use lnfs_open::{ClientKey, OpenError, Opens};
use lnfs_operations::numbers::{OPEN4_SHARE_ACCESS_READ, OPEN4_SHARE_ACCESS_WRITE};
use lnfs_operations::{Gate, Refusal};
use lnfs_site::Site;
use lnfs_tree::NodeId;
use lnfs_world::numbers::LAST_SEQUENCE;

/// A state id with a meaning of its own (RFC 8881 section 8.2.3).
#[derive(Clone, Copy, Debug, PartialEq, Eq)]
pub enum Special {
    /// Of no open.
    Anonymous,
    /// Of no open, and past what is denied where it reads.
    Bypass,
    /// The one before it in the COMPOUND, which isn't served.
    Current,
}

/// What a file is used for (RFC 8881 section 9.1.2).
#[derive(Clone, Copy, Debug, PartialEq, Eq)]
pub enum Way {
    Reading,
    /// Of data, and of the size.
    Writing,
}

impl Way {
    /// The share access that a use asks of an open.
    pub fn bit(self) -> u32
        ensures { result ≡ operation.bit_of (way_of self) }
    {
        match self {
            Way::Reading => OPEN4_SHARE_ACCESS_READ,
            Way::Writing => OPEN4_SHARE_ACCESS_WRITE,
        }
    }
}

/// Whether all bytes are one.
fn are_all(byte: u8, bytes: &[u8]) -> bool
    ensures { result ≡ operation.are_all byte bytes.now }
{
    bytes.iter().all(|b| *b == byte)
}

/// The meaning of its own that a state id has, if it has one.
pub fn meaning(id: &StateId) -> Option<Special>
    ensures { option_map special_of result ≡ operation.special id.now }
{
    let zeros = are_all(0, &id.other);
    if zeros && id.seqid == 0 {
        return Some(Special::Anonymous);
    }
    if are_all(u8::MAX, &id.other) && id.seqid == LAST_SEQUENCE {
        return Some(Special::Bypass);
    }
    if zeros && id.seqid == 1 {
        return Some(Special::Current);
    }
    None
}

/// What refuses a use that an open denies. Those of levels that the subject doesn't dominate deny it nothing, and those of
/// clients whose leases are over neither.
///
/// # Errors
///
/// NFS4ERR_LOCKED.
fn check_undenied<F: Fn(ClientKey) -> bool>(
    site: &Site<'_>,
    opens: &Opens,
    caller: &Caller,
    node: NodeId,
    way: Way,
    over: &F,
) -> Result<(), Refusal>
    requires { F.IsAlwaysCallable over.now }
    ensures { (p : outcome.Place) (rest : World) (n : Node) →
        Leases (F.post over.now) rest caller.now.moment → id_of node ≡ n.id →
        let at = placed p caller.now in
        failed result
        ≡ refusal_in (operation.where_undenied (site_of site.now) at (with_opens rest opens.now)
        n (way_of way) (passed at)) }
{
    let lattice = site.policy().lattice();
    let node = node_key(node);
    if opens.conflicts(lattice, caller.subject, None, node, way.bit(), 0, over) {
        Err(Refusal {
            gate: Gate::Open,
            status: NFS4ERR_LOCKED,
        })
    } else {
        Ok(())
    }
}

/// What refuses a use by the state id of an open.
///
/// # Errors
///
/// In this order: NFS4ERR_BAD_STATEID and NFS4ERR_OLD_STATEID where it doesn't name an open of the client and the node in its
/// present state, and NFS4ERR_OPENMODE where the open isn't for that use.
fn check_opened(
    opens: &Opens,
    caller: &Caller,
    client: Option<u32>,
    node: NodeId,
    id: &StateId,
    way: Way,
) -> Result<(), Refusal>
    ensures { (site : outcome.Site) (p : outcome.Place) (rest : World) (n : Node) →
        p.client ≡ client → id_of node ≡ n.id →
        let at = placed p caller.now in
        failed result
        ≡ refusal_in (operation.where_usable_by None site at (with_opens rest opens.now) n
        id.now (way_of way) (passed at)) }
{
    let open = refer(opens, caller.subject, client, id)?;
    match opens.find(open.client, node_key(node), open.id) {
        Ok(row) => {
            if row.access & way.bit() == 0 {
                return Err(Refusal {
                    gate: Gate::Open,
                    status: NFS4ERR_OPENMODE,
                });
            }
            Ok(())
        }
        Err(error) => Err(refused_by(error)),
    }
}

/// What refuses a use of a node by a state id (RFC 8881 sections 8.2.2, 8.2.3 and 9.1.2). `over` tells of clients whether
/// their leases are over: an open of such a client denies nothing (section 8.4.3).
///
/// # Errors
///
/// NFS4ERR_LOCKED of a special state id where an open denies the use, but to a READ past what is denied;
/// NFS4ERR_BAD_STATEID of the current one, and of one that names no open of the client and the node; NFS4ERR_OLD_STATEID
/// of one of an earlier state; NFS4ERR_OPENMODE of an open that isn't for that use.
pub fn check_usable<F: Fn(ClientKey) -> bool>(
    site: &Site<'_>,
    opens: &Opens,
    caller: &Caller,
    client: Option<u32>,
    node: NodeId,
    id: &StateId,
    way: Way,
    over: &F,
) -> Result<(), Refusal>
    requires { F.IsAlwaysCallable over.now }
    ensures { (p : outcome.Place) (rest : World) (n : Node) →
        Leases (F.post over.now) rest caller.now.moment → p.client ≡ client → id_of node ≡ n.id →
        let at = placed p caller.now in
        failed result
        ≡ refusal_in (operation.where_usable (site_of site.now) at (with_opens rest opens.now) n
        id.now (way_of way) (passed at)) }
{
    match meaning(id) {
        Some(Special::Anonymous) => check_undenied(site, opens, caller, node, way, over),
        Some(Special::Bypass) => match way {
            Way::Reading => Ok(()),
            Way::Writing => check_undenied(site, opens, caller, node, Way::Writing, over),
        },
        Some(Special::Current) => Err(refused_by(OpenError::Bad)),
        None => check_opened(opens, caller, client, node, id, way),
    }
}
