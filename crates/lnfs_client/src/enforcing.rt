//! What a client may take and put.
ghost use Rattle.std.specs.Prelude.{◌≡◌, ◌<◌, length, IfSome};
ghost use Rattle.lnfs_calipso.specs.Label.{dom_of};
ghost use Rattle.lnfs_client.specs.Enforcing.{enforced};

use crate::answer::Refusal;
use lnfs_calipso::{Lattice, Level};

/// Whether a subject may read what has a label of this level, or write it: it reads what it dominates, and writes what is of
/// its own level. Takes no memory.
///
/// # Errors
///
/// `UnknownLabel` where the label is that of no level, `NotDominated` where what is read isn't dominated, and `NotEqual` where
/// what is written is of another level.
pub fn enforce(
    lattice: &Lattice,
    subject: Level,
    label: Option<Level>,
    write: bool,
) -> Result<(), Refusal>
    requires subject { subject.0 < length lattice.now }
    requires label { IfSome label (λ level. level.0 < length lattice.now) }
    ensures { result ≡ enforced (dom_of lattice.now) subject.0 label write }
{
    let Some(level) = label else {
        return Err(Refusal::UnknownLabel);
    };
    if write {
        if subject.0 != level.0 {
            return Err(Refusal::NotEqual);
        }
        return Ok(());
    }
    if !lattice.dom(subject, level) {
        return Err(Refusal::NotDominated);
    }
    Ok(())
}
