//! What operations on the data of files answer.
ghost use Rattle.std.specs.Prelude.{◌≡◌, [], None};
ghost use Rattle.lnfs_world.specs.World.{World};
ghost use Rattle.lnfs_world.specs.Outcome.{Place};
ghost use Rattle.lnfs_operations.specs.Chain.{refuse};
ghost use Rattle.lnfs_engine.specs.Further.{said_of};
ghost use Rattle.lnfs_sparse.specs.Answers.{Ends};

use lnfs_engine::ExtraRan;
use lnfs_operations::Refusal;
use lnfs_types::Octets;
use std::alloc::Global;

/// A success that tells nothing, or a refusal.
fn told_nothing(alloc: Global, refusal: Option<Refusal>) -> ExtraRan
    ensures refusal { result.refusal ≡ refusal }
    ensures bytes { result.bytes ≡ [] }
{
    ExtraRan {
        refusal,
        bytes: Octets::new(Vec::new(alloc)),
    }
}

/// What is answered of a success that tells nothing.
pub fn done(alloc: Global) -> ExtraRan
    ensures { said_of result ≡ record { refusal = None; bytes = [] } }
{
    told_nothing(alloc, None)
}

/// What is answered of a refusal.
pub fn refused(alloc: Global, why: Refusal) -> ExtraRan
    ensures { (p : Place) (w : World) → Ends (refuse p why.gate why.status) result w w }
{
    told_nothing(alloc, Some(why))
}
