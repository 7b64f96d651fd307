//! Laws of what is written.
ghost use Rattle.std.specs.Prelude.{◌≡◌, ◌<◌, ◌≤◌, ◌+◌, ◌^◌, ℕ, List, Ok, true, length, take};
ghost use Rattle.lnfs_types.specs.declared.limits.TheConstants.{RECORD_LIMIT};
ghost use Rattle.lnfs_format.specs.LevelRead.{level_read};
ghost use Rattle.lnfs_policy.specs.declared.rows.Parent.{Parent};
ghost use Rattle.lnfs_policy.specs.Policy.{Policy, dominance};
ghost use Rattle.lnfs_gss3.specs.declared.caller.Caller.TheVariants.{Create, Data, Destroy};
ghost use Rattle.lnfs_gss3.specs.declared.handle.ContextHandle.{ContextHandle};
ghost use Rattle.lnfs_gss3.specs.declared.numbers.TheConstants.{SIGNATURE};
ghost use Rattle.lnfs_gss3.specs.Mechanism.{keyed_digest, test_mechanism};
ghost use Rattle.lnfs_gss3.specs.Grammar.{Assertion, handle_text};
ghost use Rattle.lnfs_gss3.specs.Laws.{AssertionFits, HandleFits};
ghost use Rattle.lnfs_gss3.specs.Who.{is_cleared};
ghost use Rattle.lnfs_signed_calls.specs.SignedCalls.{signed_call, create_call, data_call, data_room, destroy_call};
ghost use Rattle.lnfs_signed_calls.specs.Laws.{Accepts, IsParentOf, IsFrom, IsAskedBy};

use lnfs_gss3::Mechanism;

/// The mechanisms take the signatures that they make.
pub fn accepting()
    ensures keyed { Accepts keyed_digest }
    ensures plain { Accepts test_mechanism }
{}

/// What is written is read as what it is, where labels are asserted, under a parent of the policy and a mechanism that takes its own
/// signatures: a CREATE for a label whose level the parent's clearance dominates, a DATA in a context of such a level with the
/// arguments that were given, and a DESTROY of it.
pub fn callers<M: Mechanism>()
    ensures created { (p : Policy) (parent : Parent) (xid : ℕ) (a : Assertion) (level : ℕ) →
        Accepts M.signing → IsParentOf p parent → xid < 2 ^ 32 → AssertionFits a →
        level_read p.formats p.labels a.lfs a.pi a.label ≡ Ok level →
        dominance p parent.clearance.0 level ≡ true →
        IsFrom M.signing p (Create (record { 0 = level }) parent.number xid a.lfs a.pi a.label)
        (create_call M.signing parent xid a).message }
    ensures asked { (p : Policy) (parent : Parent) (xid : ℕ) (h : ContextHandle)
        (arguments : List ℕ) →
        Accepts M.signing → IsParentOf p parent → xid < 2 ^ 32 → HandleFits h →
        h.parent ≡ parent.number → is_cleared p parent h.level.0 ≡ true →
        length arguments + 4 ≤ RECORD_LIMIT →
        IsAskedBy M.signing p (Data h.level h.parent h.number xid true) arguments
        (data_call M.signing parent xid (handle_text h) arguments).message }
    ensures ended { (p : Policy) (parent : Parent) (xid : ℕ) (h : ContextHandle) →
        Accepts M.signing → IsParentOf p parent → xid < 2 ^ 32 → HandleFits h →
        h.parent ≡ parent.number → is_cleared p parent h.level.0 ≡ true →
        IsFrom M.signing p (Destroy h.level h.parent h.number)
        (destroy_call M.signing parent xid (handle_text h)).message }
{}

/// A call begins with its header, and its length is that of the header and of the arguments beside 8 bytes and a signature. A DATA
/// is little longer than its handle and its arguments.
pub fn parts<M: Mechanism>(header: &[u8], arguments: &[u8])
    ensures front { (parent : Parent) →
        take (length header.now) (signed_call M.signing parent header.now arguments.now).message
        ≡ header.now }
    ensures length { (parent : Parent) →
        length (signed_call M.signing parent header.now arguments.now).message
        ≡ length header.now + 8 + SIGNATURE + length arguments.now }
    ensures asked { (parent : Parent) (xid : ℕ) (handle : List ℕ) →
        length (data_call M.signing parent xid handle arguments.now).message
        ≤ length handle + length arguments.now + data_room }
{}
