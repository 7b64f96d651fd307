//! The laws of one step on any state, as contracts of functions that do nothing.
ghost use Rattle.std.specs.Prelude.{◌≡◌, ◌≤◌, ◌<◌, ℕ, false, List, Some, None, length, IfSome};
ghost use Rattle.lnfs_calipso.specs.Label.{IsPreorderWithBottom};
ghost use Rattle.lnfs_types.specs.declared.limits.TheConstants.{RECORD_LIMIT};
ghost use Rattle.lnfs_types.specs.declared.event.Event.{Event};
ghost use Rattle.lnfs_arguments.specs.declared.types.Compound.{Compound};
ghost use Rattle.lnfs_arguments.specs.declared.types.CreateSession.{CreateSession};
ghost use Rattle.lnfs_arguments.specs.declared.types.Sequence.{Sequence};
ghost use Rattle.lnfs_policy.specs.Policy.{Policy, dominance};
ghost use Rattle.lnfs_policy.specs.PolicyText.{IsPolicy};
ghost use Rattle.lnfs_world.specs.World.{Client, Slot, Session, session_at};
ghost use Rattle.lnfs_world.specs.Both.{Both};
ghost use Rattle.lnfs_world.specs.Labels.{LabelsRise};
ghost use Rattle.lnfs_world.specs.Tame.{NoneFalls};
ghost use Rattle.lnfs_operations.specs.Accepted.{AllAccepted, too_many};
ghost use Rattle.lnfs_operations.specs.InOrder.{sequence_before};
ghost use Rattle.lnfs_operations.specs.Keeping.{next_sequence};
ghost use Rattle.lnfs_operations.specs.Named.{names_session, replaces_client_of};
ghost use Rattle.lnfs_step.specs.Named.{some_operation};
ghost use Rattle.lnfs_step.specs.Request.{Call, request_with};
ghost use Rattle.lnfs_step.specs.Step.{step_with};
ghost use Rattle.lnfs_step.specs.Journal.{Holds, IsKept, first_state};
ghost use Rattle.lnfs_step.specs.Sessions.{AsksAt, ComesOnSlotAt, ComesToClientAt, IsGivenAt, IsAnsweredAt, ActsOnceAt};

use lnfs_gss3::Mechanism;
use lnfs_operations::ExtraRows;

/// One event on any state that is kept, whatever led there: the facts and the bounds of all rows, over the site of a policy
/// that was read, and the fact of further rows. So they hold of a state of which no journal is known too. The laws of
/// `purge` over journals are these from the first state on.
pub fn one_step<X: ExtraRows, M: Mechanism>()
    // All of it holds of the state before all events.
    ensures first { (p : Policy) → IsPolicy p →
        let b = first_state X.extra p in
        IsKept X.extra p b × AllAccepted X.extra.grammar b.world }
    ensures kept { (p : Policy) → IsPolicy p → (a : Both X.extra.Row) (event : Event) →
        IsKept X.extra p a →
        IsKept X.extra p (step_with X.extra M.signing p a event).state }
    ensures facts { (p : Policy) → IsPreorderWithBottom (dominance p) →
        (a : Both X.extra.Row) (event : Event) → Holds X.extra p a →
        Holds X.extra p (step_with X.extra M.signing p a event).state }
    // What slots keep was accepted: its arguments are read as a COMPOUND of no more operations than the session
    // grants (RFC 8881 section 18.36.3).
    ensures accepted { (p : Policy) → IsPolicy p →
        (a : Both X.extra.Row) (event : Event) →
        IsKept X.extra p a → AllAccepted X.extra.grammar a.world →
        AllAccepted X.extra.grammar (step_with X.extra M.signing p a event).state.world }
    // Labels go up alone: a node that stands before and after the event has a label afterwards that dominates the
    // one that it had.
    ensures labels { (p : Policy) → IsPreorderWithBottom (dominance p) →
        (a : Both X.extra.Row) (event : Event) → Holds X.extra p a →
        LabelsRise (dominance p) a.world (step_with X.extra M.signing p a event).state.world }
    // No last number of a level falls. So no identifier is given twice.
    ensures lasts { (p : Policy) → IsPreorderWithBottom (dominance p) →
        (a : Both X.extra.Row) (event : Event) → Holds X.extra p a → (level : ℕ) →
        NoneFalls level a.world.lasts
        (step_with X.extra M.signing p a event).state.world.lasts }
    // A reply is a record that a fragment holds.
    ensures short { (p : Policy) → IsPolicy p →
        (a : Both X.extra.Row) (event : Event) → IsKept X.extra p a →
        IfSome (step_with X.extra M.signing p a event).reply
        (λ reply. length reply ≤ RECORD_LIMIT) }
{}

/// Sessions on any state: a COMPOUND that comes again gets the result that is kept for it, and acts once. Each event
/// may be a guest's or come in a context. The laws of `sessions` over journals are these from the first state on.
pub fn session_step<X: ExtraRows, M: Mechanism>()
    // The COMPOUND whose result its slot keeps gets that result, and the state stays (RFC 8881 section 2.10.6.1).
    ensures retry { (p : Policy) (a : Both X.extra.Row) → AllAccepted X.extra.grammar a.world →
        (event : Event) (call : Call) (arguments : List ℕ) (c : Compound)
        (args : Sequence) (x : Session) (slot : Slot) (result : List ℕ) →
        ComesOnSlotAt X.extra M.signing p a event call arguments c args x slot →
        slot.sequence ≡ args.sequence →
        slot.kept ≡ Some (record { arguments = arguments; reply = result }) →
        IsAnsweredAt X.extra M.signing p a event call result }
    // So does the CREATE_SESSION whose result its client's record keeps (RFC 8881 section 18.36.4).
    ensures created { (p : Policy) (a : Both X.extra.Row)
        (event : Event) (call : Call) (arguments : List ℕ) (c : Compound)
        (args : CreateSession) (client : Client) (result : List ℕ) →
        ComesToClientAt X.extra M.signing p a event call arguments c args client →
        args.sequence ≡ sequence_before client.sequence →
        client.kept ≡ Some (record { arguments = arguments; reply = result }) →
        IsAnsweredAt X.extra M.signing p a event call result }
    // A new COMPOUND under the next sequence of its slot acts once: what asks the same directly behind it, at its
    // level, gets its result, and is refused nothing where they count no more operations than their session grants.
    ensures once { (p : Policy) → IsPreorderWithBottom (dominance p) →
        (a : Both X.extra.Row) → Holds X.extra p a →
        (event again : Event) (call other : Call) (arguments : List ℕ) (c : Compound)
        (args : Sequence) (x : Session) (slot : Slot) →
        ComesOnSlotAt X.extra M.signing p a event call arguments c args x slot →
        args.sequence ≡ next_sequence slot.sequence →
        let after = (step_with X.extra M.signing p a event).state in
        AsksAt X.extra M.signing p after again other arguments c →
        other.level ≡ call.level → length again.message ≤ x.channel.max_request →
        ActsOnceAt X.extra M.signing p a event again call other
        × (c.count ≤ x.channel.max_operations →
        (step_with X.extra M.signing p after again).line ≡ None) }
    // So does a CREATE_SESSION under the next sequence of its client's record, be it granted or refused (RFC 8881
    // section 18.36.4).
    ensures once_created { (p : Policy) (a : Both X.extra.Row)
        (event again : Event) (call other : Call) (arguments : List ℕ) (c : Compound)
        (args : CreateSession) (client : Client) →
        ComesToClientAt X.extra M.signing p a event call arguments c args client →
        args.sequence ≡ client.sequence →
        let after = (step_with X.extra M.signing p a event).state in
        AsksAt X.extra M.signing p after again other arguments c → other.level ≡ call.level →
        ActsOnceAt X.extra M.signing p a event again call other
        × ((step_with X.extra M.signing p after again).line ≡ None) }
    // A COMPOUND that counts more operations than its session grants is refused each time that it comes, and changes
    // nothing (RFC 8881 section 18.36.3).
    ensures refused { (p : Policy) (a : Both X.extra.Row)
        (event : Event) (call : Call) (arguments : List ℕ) (c : Compound)
        (args : Sequence) (x : Session) (slot : Slot) →
        ComesOnSlotAt X.extra M.signing p a event call arguments c args x slot →
        x.channel.max_operations < c.count →
        IsGivenAt X.extra M.signing p a event call (too_many c args).result }
    // With its wrapping the reply to a COMPOUND on a slot has no more bytes than its session's responses, be the
    // COMPOUND new, a retry or out of order (RFC 8881 section 2.10.6.4).
    ensures room { (p : Policy) → IsPolicy p →
        (a : Both X.extra.Row) → IsKept X.extra p a →
        (event : Event) (call : Call) (arguments : List ℕ) (c : Compound)
        (args : Sequence) (x : Session) (slot : Slot) →
        ComesOnSlotAt X.extra M.signing p a event call arguments c args x slot →
        IfSome (step_with X.extra M.signing p a event).reply
        (λ reply. length reply ≤ x.channel.max_response) }
    // An event of which no operation names a session leaves its row. One may end a session that it doesn't name: a
    // CREATE_SESSION for another record of its client's owner (RFC 8881 section 18.36.4).
    ensures others { (p : Policy) → IsPreorderWithBottom (dominance p) →
        (a : Both X.extra.Row) → Holds X.extra p a → (event : Event) (x : Session) →
        session_at a.world.sessions x.id ≡ Some x →
        let asked = request_with X.extra.grammar M.signing p event.class event.message in
        some_operation (names_session x.id) asked ≡ false →
        some_operation (replaces_client_of a.world x) asked ≡ false →
        session_at (step_with X.extra M.signing p a event).state.world.sessions x.id ≡ Some x }
{}
