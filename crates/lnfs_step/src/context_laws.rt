//! The laws of contexts, as contracts of functions that do nothing.
ghost use Rattle.std.specs.Prelude.{◌≡◌, ℕ, Bool, true, List, Option, Some, Ok};
ghost use Rattle.lnfs_calipso.specs.Label.{IsPreorderWithBottom};
ghost use Rattle.lnfs_xdr.specs.declared.flavors.TheConstants.{RPCSEC_GSS};
ghost use Rattle.lnfs_arguments.specs.Further.{Further};
ghost use Rattle.lnfs_rpc.specs.Calls.{CallMessage, call_of};
ghost use Rattle.lnfs_policy.specs.Policy.{Policy};
ghost use Rattle.lnfs_world.specs.World.{World};
ghost use Rattle.lnfs_world.specs.Erased.{erased};
ghost use Rattle.lnfs_world.specs.Outcome.{View, Footprint};
ghost use Rattle.lnfs_gss3.specs.Mechanism.{Signing};
ghost use Rattle.lnfs_gss3.specs.Grammar.{Assertion};
ghost use Rattle.lnfs_step.specs.Wrapping.{Wrapping, called};
ghost use Rattle.lnfs_step.specs.Request.{InContext, Call, Task, MakeContext, Refused, Asked, IsSignedUnder, request_with};
ghost use Rattle.lnfs_step.specs.Contexts.{is_there, make_context, end_context};

/// Contexts are made and ended by what their subject sees, and only rows of its level change.
pub fn contexts_are_lawful()
    ensures make_view { (dom : ℕ → ℕ → Bool) → IsPreorderWithBottom dom → (parent : ℕ) →
        View dom (make_context parent) }
    ensures make_footprint { (dom : ℕ → ℕ → Bool) (parent : ℕ) →
        Footprint dom (make_context parent) }
    ensures end_view { (dom : ℕ → ℕ → Bool) (number : ℕ) → View dom (end_context number) }
    ensures end_footprint { (dom : ℕ → ℕ → Bool) (number : ℕ) → Footprint dom (end_context number) }
    // Whether the context of a call is there is seen by each level that dominates the call's.
    ensures there { (dom : ℕ → ℕ → Bool) (level s : ℕ) (context : Option InContext) (w : World) →
        dom level s ≡ true →
        is_there (erased dom level w).contexts s context ≡ is_there w.contexts s context }
{}

/// The reply to a call in a context, and to one that makes a context, is wrapped by a signature under
/// the parent of the context, and so is that to a call by RPCSEC_GSS which is refused for its
/// arguments. What is signed goes by the header of the call (RFC 7861 section 2.3).
pub fn contexts_are_signed()
    ensures called { (g : Further) (m : Signing) (p : Policy) (class : ℕ) (bytes : List ℕ)
        (message : CallMessage) (call : Call) (task : Task) (context : InContext) →
        call_of bytes ≡ Ok message → request_with g m p class bytes ≡ Asked call task →
        call.context ≡ Some context →
        IsSignedUnder p context.parent message call.wrapping }
    ensures made { (g : Further) (m : Signing) (p : Policy) (class : ℕ) (bytes : List ℕ)
        (message : CallMessage) (call : Call) (parent : ℕ) (assertion : Assertion) →
        call_of bytes ≡ Ok message → request_with g m p class bytes
        ≡ Asked call (MakeContext parent assertion) →
        IsSignedUnder p parent message call.wrapping }
    ensures refused { (g : Further) (m : Signing) (p : Policy) (class : ℕ) (bytes : List ℕ)
        (message : CallMessage) (xid : ℕ) (wrapping : Wrapping) (stat : ℕ) →
        call_of bytes ≡ Ok message → message.credential.flavor ≡ RPCSEC_GSS →
        request_with g m p class bytes ≡ Refused xid wrapping (called stat) →
        (parent : ℕ) × IsSignedUnder p parent message wrapping }
{}
