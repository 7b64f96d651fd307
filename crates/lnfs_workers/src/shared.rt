//! What the workers share.
ghost use Rattle.std.specs.Prelude.{◌≡◌};

use crate::desk::Desk;
use lnfs_engine::ReadExtra;
use lnfs_gss3::Mechanism;
use lnfs_history::{History, Room};
use lnfs_vault::Front;
use std::alloc::Global;
use std::sync::Mutex;

/// What the workers share, beside the codecs of labels. The policy of the front is that of the books under the lock.
#[derive(Drop)]
pub struct Shared<'a, B: Room, M: Mechanism + Drop, X: ReadExtra, C, G> {
    pub alloc: Global,
    pub front: &'a Front<M, X>,
    pub history: &'a History<B>,
    pub desk: &'a Mutex<Desk<B, M, X>>,
    pub clock: &'a C,
    pub gate: &'a G,
    pub ghost site: { front.now.policy ≡ B.policy },
}
