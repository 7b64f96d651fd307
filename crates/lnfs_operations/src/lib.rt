//! The operations of NFS 4.2 as definitions: for each its tests in order, what it answers and what
//! it changes; the run of a COMPOUND over them and over further operations; and the laws that it tells
//! a level nothing of what that level does not dominate, and that a request acts by how it came.
//!
//! `numbers` has the limits and flags of the operations.
#![tactic(auto)]

mod came_laws;
mod extra;
mod label_laws;
mod laws;
mod named_laws;
pub mod numbers;

pub use came_laws::requests_act_by_how_they_came;
pub use extra::ExtraRows;
pub use label_laws::labels_are_kept_as_given;
pub use laws::{
    attributes_are_told, bounds_are_kept, compounds_are_lawful, exchange_id_is_lawful,
    files_are_lawful, keeping_is_lawful, labels_rise, leases_end, making_is_lawful,
    naming_is_lawful, numbers_never_fall, operations_are_lawful, reading_is_lawful,
    results_are_bounded, results_leave_room, retries_are_answered_again,
    session_operations_are_lawful,
};
use lnfs_monitor::Rule;
pub use named_laws::other_sessions_stay;

/// Which kind of test refused an operation.
#[derive(Clone, Copy, Debug, PartialEq, Eq)]
pub enum Gate {
    /// Sessions, slots, client ids, and the place of an operation in its COMPOUND.
    Session,
    /// The room that is left in the reply.
    Room,
    /// The arguments.
    Argument,
    /// What is outside of the served profile.
    Outside,
    /// Names, handles and kinds of nodes.
    Namespace,
    /// A rule of labels.
    Monitor(Rule),
    /// What is open.
    Open,
    /// The limits of a level.
    Quota,
}

/// Which test refused an operation, and the status that it answers.
#[derive(Clone, Copy, Debug, PartialEq, Eq)]
pub struct Refusal {
    pub gate: Gate,
    pub status: u32,
}
