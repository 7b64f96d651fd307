//! Calls as they are sent.
use lnfs_types::Octets;

/// A call by RPCSEC_GSS as it is sent.
#[derive(Debug, Drop)]
pub struct SignedCall {
    /// The record.
    pub message: Octets,
    /// How many bytes of the record its header has, which goes from the transaction through the credential. The call's verifier signs
    /// these bytes, and the verifier of its reply signs them as those of a reply.
    pub header: usize,
}
