//! The stages of an action.
ghost use Rattle.std.specs.Prelude.{◌≡◌};
ghost use Rattle.lnfs_client.specs.Machine.{is_mount};
ghost use Rattle.lnfs_client.specs.Stages.{first_mounting, first_stage, is_reading};

use crate::stage::Stage;
use lnfs_script::{Action, Identity};

/// The stage in which a Mount begins: a context is made first where there is to be one.
fn first_mounting(identity: Identity) -> Stage
    ensures { result ≡ first_mounting identity }
{
    match identity {
        Identity::Guest { .. } => Stage::Exchanging,
        Identity::Full { .. } => Stage::Asserting,
    }
}

/// The stage in which an action begins.
pub fn first_stage(identity: Identity, action: &Action) -> Stage
    ensures { result ≡ first_stage identity action.now }
{
    match action {
        Action::Mount => first_mounting(identity),
        Action::Leave => Stage::EndingSession,
        _ => Stage::Asking,
    }
}

/// Whether an action is a Mount.
pub fn is_mount(action: &Action) -> bool
    ensures { result ≡ is_mount action.now }
{
    matches!(action, Action::Mount)
}

/// Whether an action reads alone.
pub fn is_reading(action: &Action) -> bool
    ensures { result ≡ is_reading action.now }
{
    matches!(action, Action::List { .. } | Action::Read { .. })
}
