use crate::listing::Listing;
use crate::stage::Stage;
use lnfs_answers::HANDLE_SIZE;
use lnfs_arguments::StateId;
use lnfs_asking::Sent;
use lnfs_attrs::LabelValue;
use lnfs_calipso::Level;
use lnfs_script::{Action, Identity};
use lnfs_types::Octets;

/// An action that is under way.
#[derive(Debug, Drop)]
pub struct Running {
    pub action: Action,
    pub stage: Stage,
    /// The label that was read, for the comparison that guards a change.
    pub label: Option<LabelValue>,
    /// The cookie from which a List goes on.
    pub cookie: u64,
    /// What a List has seen so far.
    pub shown: Listing,
    /// The state id of the open by which a file was made.
    pub opened: StateId,
    /// The request that is unanswered.
    pub awaited: Option<Sent>,
}

/// What a client knows. Identifiers are 0 until the server has told them.
#[derive(Debug, Drop)]
pub struct Known {
    pub level: Level,
    pub identity: Identity,
    /// The name under which the client makes itself known (`co_ownerid`, RFC 8881 section 2.4).
    pub owner: Octets,
    /// The number of requests made so far, which is the transaction of the last.
    pub sent: u32,
    /// The handle of the context.
    pub context: [u8; HANDLE_SIZE],
    pub client: u64,
    /// The sequence of the next CREATE_SESSION.
    pub creating: u32,
    pub session: [u8; 16],
    /// The sequence of the next COMPOUND on slot 0.
    pub sequence: u32,
    /// Whether a Mount was answered, and no Leave since.
    pub mounted: bool,
    pub running: Option<Running>,
}
