//! Serving events that are only lent.
ghost use Rattle.std.specs.Prelude.{◌≡◌, ◌++◌, ◌∷◌, [], IfOk, OnOk};
ghost use Rattle.lnfs_types.specs.Moments.{Fits};
ghost use Rattle.lnfs_step.specs.Journal.{reply_with, answer_with};

use lnfs_engine::ReadExtra;
use lnfs_format::Codecs;
use lnfs_gss3::Mechanism;
use lnfs_rpc::ReplyRecord;
use lnfs_types::{Event, Octets};
use lnfs_vault::VaultOf;
use std::alloc::{AllocError, Global};

/// A copy of an event.
fn copy_of(alloc: Global, event: &Event) -> Result<Event, AllocError>
    ensures { IfOk result (λ copy. copy ≡ event.now) }
{
    Ok(Event {
        class: event.class,
        link: event.link,
        moment: event.moment,
        message: Octets::from_slice(alloc, event.message.as_slice())?,
    })
}

/// Serves a copy of an event, which the vault keeps in its journal.
pub fn serve<M: Mechanism + Drop, X: ReadExtra>(
    alloc: Global,
    codecs: &Codecs,
    vault: &mut VaultOf<M, X>,
    event: &Event,
) -> Result<Option<ReplyRecord>, AllocError>
    requires { Fits event.now }
    ensures reply { IfOk result (λ reply. reply
        ≡ reply_with X.extra M.signing vault.old.policy vault.old.journal event.now) }
    ensures answer { IfOk result (λ reply. reply
        ≡ answer_with X.extra M.signing vault.old.policy vault.old.journal event.now) }
    ensures kept { OnOk result (vault.new ≡ record vault.old
        { journal = vault.old.journal ++ event.now ∷ [] }) }
{
    let served = vault.serve(codecs, copy_of(alloc, event)?)?;
    Ok(served.reply)
}
