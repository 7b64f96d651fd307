//! What the words ask for.
use crate::team::Team;
use lnfs_map::Pair;

/// What is asked under a policy, without links.
#[derive(Debug, Drop)]
pub enum Task<'a> {
    Check,
    Migrate,
    Replay {
        traffic: &'a str,
    },
    /// From the first format to the second.
    Translate {
        source: Pair,
        target: Pair,
        bytes: Vec<u8>,
    },
    /// So many events by a seed.
    Generate {
        seed: u64,
        count: u32,
    },
}

/// A command that waits for nobody.
#[derive(Debug, Drop)]
pub enum Command<'a> {
    Help,
    Version,
    /// A task under the policy of a name.
    Under { policy: &'a str, task: Task<'a> },
}

/// The service of links under the policy of a name.
#[derive(Debug, Drop)]
pub struct Service<'a> {
    pub policy: &'a str,
    pub team: Team,
}

/// The script of a name, which a client of a level talks through under the policy of a name.
#[derive(Clone, Copy, Debug, Drop)]
pub struct Visit<'a> {
    pub policy: &'a str,
    pub level: u32,
    pub script: &'a str,
}

/// The recorded replies of a name to the recording of a name, judged under the policy of a name.
#[derive(Clone, Copy, Debug, Drop)]
pub struct Audit<'a> {
    pub policy: &'a str,
    pub traffic: &'a str,
    pub replies: &'a str,
    /// Whether the replies are told level by level, each by a server that is given only what the level dominates.
    pub purged: bool,
}

/// The recording of a name, whose events a new server serves under the policy of a name, and the checkpoint of its state then.
#[derive(Clone, Copy, Debug, Drop)]
pub struct Saving<'a> {
    pub policy: &'a str,
    pub traffic: &'a str,
}

/// The checkpoint of a name, from which a server goes on with the recording of a name under the policy of a name.
#[derive(Clone, Copy, Debug, Drop)]
pub struct Resumption<'a> {
    pub policy: &'a str,
    pub checkpoint: &'a str,
    pub traffic: &'a str,
}

/// What crates above this one do: over links, in an audit, or with a checkpoint.
#[derive(Debug, Drop)]
pub enum Work<'a> {
    Serve(Service<'a>),
    Talk(Visit<'a>),
    Judge(Audit<'a>),
    Save(Saving<'a>),
    Resume(Resumption<'a>),
}

/// What the words ask for: a command, or what crates above this one do.
#[derive(Debug, Drop)]
pub enum Asked<'a> {
    Alone(Command<'a>),
    Other(Work<'a>),
}
