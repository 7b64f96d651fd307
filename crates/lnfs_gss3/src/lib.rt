//! Who a call comes from: a guest, or a caller who asserts a label by RPCSEC_GSS version 3 (RFC 7861 section 2, RFC 2203
//! section 5, in this project's own layout) under the secret of a parent of the policy.
//!
//! `specs/Who.antt` says who a call comes from, `specs/Mechanism.antt` what a signature is, `specs/Grammar.antt` what such a
//! call carries, `specs/Replies.antt` how it is answered, and `specs/Contexts.antt` what is kept of contexts.
//! `specs/Makes.antt` says of what rows contexts can be made.
#![tactic(auto)]

mod caller;
mod calls;
mod contexts;
mod credential;
mod digest;
mod errors;
mod guests;
mod handle;
mod held;
pub mod laws;
mod mechanism;
pub mod numbers;
mod plain;
mod replies;
mod rows;
mod signing;
mod told;
mod whose;

pub use caller::Caller;
pub use calls::{create_args, credential_body};
pub use contexts::Contexts;
pub use digest::KeyedDigest;
pub use errors::ContextError;
pub use handle::ContextHandle;
pub use mechanism::Mechanism;
pub use plain::TestMechanism;
pub use replies::{append_signed, begin_databody, is_reply_mic, put_create_results, reply_mic};
pub use signing::body;
pub use whose::who;
