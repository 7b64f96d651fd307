//! Links before and after their service.
use lnfs_history::{LinkView, Room};
use lnfs_incoming::Ending;

/// What is left of a link that was served.
#[derive(Drop)]
pub struct LinkEnd<L> {
    /// The class of the listener that it came by.
    pub class: u32,
    pub link: L,
    pub ending: Ending,
    /// How many of its records are in the journal. The reply to the last is lost where there was no memory to seal it.
    pub records: u32,
}

/// A link that is to be served, with its place in the history.
#[derive(Drop)]
pub struct Waiting<B: Room, L> {
    pub class: u32,
    pub link: L,
    pub place: LinkView<B>,
}

/// A link whose service has ended, with its place in the history.
#[derive(Drop)]
pub struct Done<B: Room, L> {
    pub end: LinkEnd<L>,
    pub place: LinkView<B>,
}
