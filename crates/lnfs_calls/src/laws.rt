//! Laws of what is written.
ghost use Rattle.std.specs.Prelude.{◌≡◌, ◌<◌, ◌≤◌, ◌^◌, ℕ, List, length};
ghost use Rattle.lnfs_xdr.specs.declared.limits.TheConstants.{MACHINE_LIMIT};
ghost use Rattle.lnfs_xdr.specs.Format.{Spells};
ghost use Rattle.lnfs_xdr.specs.Message.{Tells};
ghost use Rattle.lnfs_rpc.specs.Calls.{OpaqueAuth};
ghost use Rattle.lnfs_rpc.specs.CallGrammar.{IsCall};
ghost use Rattle.lnfs_rpc.specs.Numbers.{last_procedure};
ghost use Rattle.lnfs_rpc.specs.Sys.{authsys_parms};
ghost use Rattle.lnfs_arguments.specs.declared.types.Compound.{Compound};
ghost use Rattle.lnfs_arguments.specs.Further.{Further, IsLawful};
ghost use Rattle.lnfs_arguments.specs.Whole.{compound};
ghost use Rattle.lnfs_calls.specs.CallTexts.{AuthFits, IsRequest, call_text, made_call, no_auth, user_auth};

/// A call that is written is read as that call. The credential of a user fits, and is read as that user. A call of COMPOUND by a
/// user is a request, whatever operations are read beside the table.
pub fn written()
    ensures call { (xid procedure : ℕ) (credential verifier : OpaqueAuth) (arguments : List ℕ) →
        xid < 2 ^ 32 → procedure ≤ last_procedure → AuthFits credential → AuthFits verifier →
        IsCall (made_call xid procedure credential verifier arguments)
        (call_text xid procedure credential verifier arguments) }
    ensures none { AuthFits no_auth }
    ensures fits { (machine : List ℕ) (uid : ℕ) → length machine ≤ MACHINE_LIMIT →
        AuthFits (user_auth machine uid) }
    ensures user { (machine : List ℕ) (uid : ℕ) → length machine ≤ MACHINE_LIMIT → uid < 2 ^ 32 →
        Spells authsys_parms (record { uid = uid; gid = 0 }) (user_auth machine uid).body }
    ensures request { (xid uid : ℕ) (machine : List ℕ) (asked : Compound) (arguments : List ℕ) →
        xid < 2 ^ 32 → uid < 2 ^ 32 → length machine ≤ MACHINE_LIMIT →
        ((x : Further) → IsLawful x → Tells (compound x) asked arguments) →
        IsRequest (call_text xid last_procedure (user_auth machine uid) no_auth arguments) }
{}
