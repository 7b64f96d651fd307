//! What is known of a history. No value of these types is made.
use lnfs_types::{Event, Octets};
use std::collections::LinkedList;

/// An event with its reply, where one was due.
pub struct Entry {
    pub event: Event,
    pub reply: Option<Octets>,
}

/// What a seat knows. The keeper's knows all entries and the number of places made, that of a
/// link's place the entries of the link. For the time of one step the keeper has a place as well.
pub struct View {
    pub keeps: bool,
    pub log: LinkedList<Entry>,
    pub made: u32,
    pub has: bool,
    pub link: u32,
    pub entries: LinkedList<Entry>,
}
