//! Who serves which links.
ghost use Rattle.std.specs.Prelude.{◌≤◌, ◌<◌, length};

use std::alloc::Global;

/// The classes of the links that are to be served, and how many workers serve them.
#[derive(Debug, Drop)]
pub struct Team {
    pub links: Vec<u32>,
    pub workers: u32,
    pub ghost few_links: { length links.items ≤ 64 },
    pub ghost some: { 0 < workers },
    pub ghost few: { workers ≤ 16 },
}
