//! The laws of requests that come again, as the contract of a function that does nothing.
ghost use Rattle.std.specs.Prelude.{◌≡◌, ◌≤◌, ◌<◌, ℕ, List, [], ◌∷◌, ◌++◌, Some, None, length, IfSome, slice_get};
ghost use Rattle.lnfs_calipso.specs.Label.{IsPreorderWithBottom};
ghost use Rattle.lnfs_types.specs.declared.event.Event.{Event};
ghost use Rattle.lnfs_arguments.specs.declared.types.Compound.{Compound};
ghost use Rattle.lnfs_arguments.specs.declared.types.CreateSession.{CreateSession};
ghost use Rattle.lnfs_arguments.specs.declared.types.Sequence.{Sequence};
ghost use Rattle.lnfs_policy.specs.Policy.{Policy, dominance};
ghost use Rattle.lnfs_policy.specs.PolicyText.{IsPolicy};
ghost use Rattle.lnfs_world.specs.World.{Id, Kept, Client, Slot, Session, client_at, session_at};
ghost use Rattle.lnfs_operations.specs.Accepted.{WasAccepted, too_many};
ghost use Rattle.lnfs_operations.specs.InOrder.{sequence_before};
ghost use Rattle.lnfs_operations.specs.Keeping.{next_sequence};
ghost use Rattle.lnfs_step.specs.Wrapping.{answer_text};
ghost use Rattle.lnfs_step.specs.Request.{Call};
ghost use Rattle.lnfs_step.specs.Journal.{state_after, reply_with, line_with};
ghost use Rattle.lnfs_step.specs.Sessions.{Asks, ComesOnSlot, ComesToClient, IsGiven, IsAnswered, HasOrigin};

use lnfs_gss3::Mechanism;
use lnfs_operations::ExtraRows;

/// Sessions over journals: a COMPOUND that comes again gets the result that it got, and acts once;
/// every result that is kept is one that an event of the journal got. Each event may be a guest's or
/// come in a context: what is kept and given again is the result without its wrapping.
pub fn sessions<X: ExtraRows, M: Mechanism>()
    // The COMPOUND whose result its slot keeps gets that result (RFC 8881 section 2.10.6.1).
    ensures retry { (p : Policy) → IsPolicy p →
        (journal : List Event) (event : Event) (call : Call) (arguments : List ℕ) (c : Compound)
        (args : Sequence) (x : Session) (slot : Slot) (result : List ℕ) →
        ComesOnSlot X.extra M.signing p journal event call arguments c args x slot →
        slot
        ≡ record { sequence = args.sequence; kept = Some (record { arguments = arguments; reply = result }) } →
        IsAnswered X.extra M.signing p journal event call result }
    // So does the CREATE_SESSION whose result its client's record keeps (RFC 8881 section 18.36.4).
    ensures created { (p : Policy) (journal : List Event) (event : Event) (call : Call)
        (arguments : List ℕ) (c : Compound) (args : CreateSession) (client : Client)
        (result : List ℕ) →
        ComesToClient X.extra M.signing p journal event call arguments c args client →
        args.sequence ≡ sequence_before client.sequence →
        client.kept ≡ Some (record { arguments = arguments; reply = result }) →
        IsAnswered X.extra M.signing p journal event call result }
    // A new COMPOUND under the next sequence of its slot acts once. Whatever event of its level asks the same
    // directly behind it, under any transaction, of any class, and in any context or none, gets its result, and what
    // stands is what the first one left. Nothing is refused where they count no more operations than their session grants.
    ensures once { (p : Policy) → IsPreorderWithBottom (dominance p) →
        (journal : List Event) (event again : Event) (call other : Call) (arguments : List ℕ)
        (c : Compound) (args : Sequence) (x : Session) (slot : Slot) →
        ComesOnSlot X.extra M.signing p journal event call arguments c args x slot →
        args.sequence ≡ next_sequence slot.sequence →
        Asks X.extra M.signing p (journal ++ event ∷ []) again other arguments c →
        other.level ≡ call.level → length again.message ≤ x.channel.max_request →
        (result : List ℕ) × (reply_with X.extra M.signing p journal event
        ≡ Some (answer_text M.signing call.wrapping call.xid result))
        × IsGiven X.extra M.signing p (journal ++ event ∷ []) again other result
        × (c.count ≤ x.channel.max_operations →
        line_with X.extra M.signing p (journal ++ event ∷ []) again ≡ None) }
    // So does a CREATE_SESSION under the next sequence of its client's record, be it granted or refused (RFC 8881
    // section 18.36.4): the same behind it gets its result, makes no session more, and leaves what the first one left.
    ensures once_created { (p : Policy) (journal : List Event) (event again : Event)
        (call other : Call) (arguments : List ℕ) (c : Compound) (args : CreateSession)
        (client : Client) →
        ComesToClient X.extra M.signing p journal event call arguments c args client →
        args.sequence ≡ client.sequence →
        Asks X.extra M.signing p (journal ++ event ∷ []) again other arguments c →
        other.level ≡ call.level →
        (result : List ℕ) × (reply_with X.extra M.signing p journal event
        ≡ Some (answer_text M.signing call.wrapping call.xid result))
        × IsAnswered X.extra M.signing p (journal ++ event ∷ []) again other result }
    // A COMPOUND that counts more operations than its session grants is refused each time that it comes, and changes
    // nothing (RFC 8881 section 18.36.3).
    ensures refused { (p : Policy) (journal : List Event) (event : Event) (call : Call)
        (arguments : List ℕ) (c : Compound) (args : Sequence) (x : Session) (slot : Slot) →
        ComesOnSlot X.extra M.signing p journal event call arguments c args x slot →
        x.channel.max_operations < c.count →
        IsGiven X.extra M.signing p journal event call (too_many c args).result }
    // What a slot of a session keeps is what an event of the journal got, of the session's level.
    ensures origin { (p : Policy) → IsPreorderWithBottom (dominance p) →
        (journal : List Event) (i : Id) (x : Session) (n : ℕ) (slot : Slot) (kept : Kept) →
        session_at (state_after X.extra M.signing p journal).world.sessions i ≡ Some x →
        slice_get x.slots n ≡ Some slot → slot.kept ≡ Some kept →
        HasOrigin X.extra M.signing p journal i.level kept }
    // So is what a client's record keeps of its last CREATE_SESSION.
    ensures origin_created { (p : Policy) → IsPreorderWithBottom (dominance p) →
        (journal : List Event) (i : Id) (client : Client) (kept : Kept) →
        client_at (state_after X.extra M.signing p journal).world.clients i ≡ Some client →
        client.kept ≡ Some kept →
        HasOrigin X.extra M.signing p journal i.level kept }
    // What a slot keeps was accepted: its arguments are read as a COMPOUND of no more operations than the session grants.
    ensures accepted { (p : Policy) → IsPolicy p →
        (journal : List Event) (i : Id) (x : Session) (n : ℕ) (slot : Slot) (kept : Kept) →
        session_at (state_after X.extra M.signing p journal).world.sessions i ≡ Some x →
        slice_get x.slots n ≡ Some slot → slot.kept ≡ Some kept →
        WasAccepted X.extra.grammar x.channel.max_operations kept }
    // With its wrapping the reply to a COMPOUND on a slot has no more bytes than its session's responses, be the COMPOUND
    // new, a retry or out of order (RFC 8881 section 2.10.6.4).
    ensures room { (p : Policy) → IsPolicy p →
        (journal : List Event) (event : Event) (call : Call) (arguments : List ℕ) (c : Compound)
        (args : Sequence) (x : Session) (slot : Slot) →
        ComesOnSlot X.extra M.signing p journal event call arguments c args x slot →
        IfSome (reply_with X.extra M.signing p journal event) (λ reply. length reply
        ≤ x.channel.max_response) }
{}
