//! The law of rows that a request doesn't name, as the contract of a function that does nothing.
ghost use Rattle.std.specs.Prelude.{◌≡◌, ℕ, Some, false};
ghost use Rattle.std.specs.List.{list_any};
ghost use Rattle.lnfs_calipso.specs.Label.{IsPreorderWithBottom};
ghost use Rattle.lnfs_types.specs.declared.event.Moment.{Moment};
ghost use Rattle.lnfs_arguments.specs.declared.types.Compound.{Compound};
ghost use Rattle.lnfs_world.specs.World.{Session, session_at};
ghost use Rattle.lnfs_world.specs.Outcome.{Site, begins_at};
ghost use Rattle.lnfs_world.specs.Both.{Both, BothStand};
ghost use Rattle.lnfs_operations.specs.Named.{names_session, replaces_client_of};
ghost use Rattle.lnfs_operations.specs.Sequence.{Sent};
ghost use Rattle.lnfs_operations.specs.SlotRule.{served};

use crate::extra::ExtraRows;

/// A COMPOUND of which no operation names a session leaves its whole row: its slots, and what they keep. One operation
/// may end a session that it doesn't name: a CREATE_SESSION for another record of its client's owner.
pub fn other_sessions_stay<X: ExtraRows>()
    ensures { (site : Site) → IsPreorderWithBottom site.dom →
        (sent : Sent) (c : Compound) (level : ℕ) (moment : Moment) (b : Both X.extra.Row) →
        BothStand X.extra.Fact site.dom (begins_at level moment) b →
        (x : Session) → session_at b.world.sessions x.id ≡ Some x →
        list_any (names_session x.id) c.ops ≡ false →
        list_any (replaces_client_of b.world x) c.ops ≡ false →
        let t = served X.extra site sent c (begins_at level moment) b in
        session_at t.state.world.sessions x.id ≡ Some x }
{}
