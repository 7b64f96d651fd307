//! A COMPOUND as it was sent, and where its operations stand.
ghost use Rattle.std.specs.Prelude.{◌≡◌};
ghost use Rattle.lnfs_world.specs.Outcome.{begins_at};
ghost use Rattle.lnfs_nodes.specs.Acts.{placed};
ghost use Rattle.lnfs_engine.specs.Places.{place_of};

use lnfs_arguments::Compound;
use lnfs_calipso::Level;
use lnfs_nodes::Caller;
use lnfs_session::{ClientRef, SlotRef};
use lnfs_site::Site;
use lnfs_tree::NodeId;
use lnfs_types::Moment;
use std::alloc::Global;

/// A COMPOUND as it was sent, and to which site.
#[derive(Clone, Copy)]
pub struct Request<'a> {
    pub alloc: Global,
    pub site: &'a Site<'a>,
    /// The length of its record, and the bytes of its arguments.
    pub size: u32,
    pub bytes: &'a [u8],
    pub compound: &'a Compound<'a>,
    /// Where its result begins in the reply.
    pub begin: usize,
}

/// The session behind whose SEQUENCE operations stand.
#[derive(Clone, Copy)]
pub struct InSession {
    /// The slot, and the sequence under which its result is kept.
    pub at: SlotRef,
    pub sequence: u32,
    pub client: ClientRef,
    /// The most bytes of a response.
    pub room: u32,
}

/// Where the result of a COMPOUND is kept.
#[derive(Clone, Copy)]
pub enum Keeper {
    /// Nowhere: its operations stand in no session.
    Nowhere,
    /// In the record of a client, whose CREATE_SESSION it is.
    Client(ClientRef),
    /// In a slot of the session in which its operations stand.
    Session(InSession),
}

/// Where an operation of a COMPOUND stands: who asks, and when; the client and the session under which it
/// came, both numbers of the subject's level; and the two file handles (RFC 8881 section 16.2.3.1).
#[derive(Clone, Copy, Debug, PartialEq, Eq)]
pub struct Place {
    pub subject: Level,
    pub moment: Moment,
    pub client: Option<u32>,
    pub session: Option<u64>,
    pub current: Option<NodeId>,
    pub saved: Option<NodeId>,
}

/// The place of the first operation of a COMPOUND.
pub fn first_place(subject: Level, moment: Moment) -> Place
    ensures { place_of result ≡ begins_at subject.0 moment }
{
    Place {
        subject,
        moment,
        client: None,
        session: None,
        current: None,
        saved: None,
    }
}

/// Who calls where an operation stands.
pub fn caller_of(place: &Place) -> Caller
    ensures { placed (place_of place.now) result ≡ place_of place.now }
{
    Caller {
        subject: place.subject,
        moment: place.moment,
        current: place.current,
        saved: place.saved,
    }
}
