//! Records, calls and replies of RPC (RFC 5531).
//!
//! A record comes as fragments on a stream. Inside it a call has a header, a credential, a verifier
//! and the arguments of its procedure; a reply has a verifier and the results, or says why the call
//! was denied.
#![tactic(auto)]

mod authsys;
mod calls;
mod framing;
mod numbers;
mod promises;
mod replies;
mod streams;

pub use authsys::{Sys, read_sys};
pub use calls::{Auth, Call, CallError, auth_of, read_call};
pub use framing::ReplyRecord;
pub use numbers::{
    CALL, NFS_PROGRAM, NFS_VERSION, PROC_COMPOUND, PROG_MISMATCH, REPLY, RPC_VERSION,
};
pub use promises::{
    call_grammar, credential_grammar, reply_grammar, stream_ends, stream_grammar, written_reply,
};
pub use replies::{Head, Reply, begin_reply, read_reply, write_reply};
pub use streams::{DeframeError, Deframed, Deframer};
