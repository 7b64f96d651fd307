//! A vault taken apart.
ghost use Rattle.std.specs.Prelude.{◌≡◌};

use crate::books::Books;
use crate::front::Front;
use lnfs_engine::ReadExtra;
use lnfs_gss3::Mechanism;

/// What a vault is made of. The books may go under a lock, and the front be shared beside it.
#[derive(Drop)]
pub struct Parts<M: Mechanism + Drop, X: ReadExtra> {
    pub front: Front<M, X>,
    pub books: Books<M, X>,
    pub ghost site: { books.policy ≡ front.policy },
}
