//! What names an open: the client under which an operation came, and its state id (RFC 8881 section 8.2).
ghost use Rattle.std.specs.Prelude.{◌≡◌};
ghost use Rattle.lnfs_operations.specs.Handles.{handle_named};
ghost use Rattle.lnfs_tree.specs.Rows.{id_of};
ghost use Rattle.lnfs_open.specs.Listed.{node_id};
ghost use Rattle.lnfs_nodes.specs.Trees.{refusal_of};
ghost use Rattle.lnfs_files.specs.Uses.{IsReference, refusal_by};

use lnfs_arguments::StateId;
use lnfs_arguments::statuses::{NFS4ERR_BAD_STATEID, NFS4ERR_NOSPC, NFS4ERR_OLD_STATEID};
use lnfs_calipso::Level;
use lnfs_monitor::Rule;
use lnfs_open::{ClientKey, NodeKey, OpenError, OpenRef, Opens};
use lnfs_operations::{Gate, Refusal};
use lnfs_tree::NodeId;

/// An open, under the client of the subject's level.
#[derive(Clone, Copy, Debug)]
pub struct Reference {
    pub client: ClientKey,
    pub id: OpenRef,
}

/// A node, as the opens name it.
pub fn node_key(id: NodeId) -> NodeKey
    ensures { node_id result ≡ id_of id }
{
    NodeKey {
        level: id.home,
        number: id.number,
    }
}

/// What an error of the opens refuses. Want of memory is told otherwise.
pub fn refused_by(error: OpenError) -> Refusal
    ensures { refusal_of result ≡ refusal_by error }
{
    let (gate, status) = match error {
        OpenError::Bad => (Gate::Open, NFS4ERR_BAD_STATEID),
        OpenError::Old => (Gate::Open, NFS4ERR_OLD_STATEID),
        OpenError::Full | OpenError::Memory => (Gate::Quota, NFS4ERR_NOSPC),
    };
    Refusal { gate, status }
}

/// The level in which a state id was given, and the number there.
fn named(id: &StateId) -> (Level, u64)
    ensures level { result.0.0 ≡ (handle_named id.now.other).level }
    ensures number { result.1 ≡ (handle_named id.now.other).number }
{
    let bytes = &id.other;
    let level = u32::from_be_bytes([bytes[0], bytes[1], bytes[2], bytes[3]]);
    let number = u64::from_be_bytes([
        bytes[4], bytes[5], bytes[6], bytes[7], bytes[8], bytes[9], bytes[10], bytes[11],
    ]);
    (Level(level), number)
}

/// The open that a state id names under a client of the subject's level. Whether it is there isn't looked at.
///
/// # Errors
///
/// NFS4ERR_BAD_STATEID where it was given in another level than the subject's, where there is no client, and where no open
/// can have the number.
pub fn refer(
    opens: &Opens,
    subject: Level,
    client: Option<u32>,
    id: &StateId,
) -> Result<Reference, Refusal>
    ensures { IsReference subject.0 client opens.now.opens id.now result }
{
    let (level, number) = named(id);
    if level != subject {
        return Err(Refusal {
            gate: Gate::Monitor(Rule::M9),
            status: NFS4ERR_BAD_STATEID,
        });
    }
    let Some(client) = client else {
        return Err(refused_by(OpenError::Bad));
    };
    let Ok(number) = u32::try_from(number) else {
        // The number is past the last that the level was given.
        let _last = opens.last_number(subject);
        return Err(refused_by(OpenError::Bad));
    };
    Ok(Reference {
        client: ClientKey {
            level: subject,
            number: client,
        },
        id: OpenRef {
            level: subject,
            number,
            seq: id.seqid,
        },
    })
}
