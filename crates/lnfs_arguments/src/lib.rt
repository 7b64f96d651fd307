//! The arguments of a COMPOUND (RFC 8881 section 16.2, RFC 7862).
#![tactic(auto)]

mod attrs;
mod channel;
mod further;
mod halt;
mod identifiers;
pub mod numbers;
mod opaque;
mod read_files;
mod read_names;
mod read_sessions;
mod read_table;
mod reading;
mod span;
mod stateid;
pub mod statuses;
mod types;

pub use attrs::{attrs_of, put_attrs};
pub use channel::{Channel, channel_of, put_channel};
pub use further::{ExtraGrammar, NoExtraGrammar};
pub use halt::{CompoundError, Halt};
pub use identifiers::{client_id, session_id};
pub use reading::read_compound;
pub use span::Span;
pub use stateid::{Cinfo, StateId, cinfo_of, put_cinfo, put_state_id, state_id_of};
pub use types::{
    Callback, Claim, Compound, CreateSession, Implementation, Making, Op, Sequence, What,
};
