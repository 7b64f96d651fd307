//! A law of what is written.
ghost use Rattle.lnfs_xdr.specs.Message.{Tells};
ghost use Rattle.lnfs_arguments.specs.declared.types.Compound.{Compound};
ghost use Rattle.lnfs_arguments.specs.Further.{Further, IsLawful};
ghost use Rattle.lnfs_arguments.specs.Whole.{compound};
ghost use Rattle.lnfs_requests.specs.Texts.{compound_text};
ghost use Rattle.lnfs_requests.specs.Fits.{CompoundFits};

/// The one spelling of a COMPOUND is read again, whatever operations are read beside the table.
pub fn written()
    ensures { (x : Further) → IsLawful x → (c : Compound) → CompoundFits c →
        Tells (compound x) c (compound_text c) }
{}
