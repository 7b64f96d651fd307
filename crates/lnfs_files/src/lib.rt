//! The operations on files and their opens: OPEN, CLOSE, READ, WRITE, COMMIT and SETATTR (RFC 8881 section 18). Each answers
//! what its definition says of a world with the rows of the tree and those of the opens.
//!
//! The tests that these share are public calls, for operations beside those of the table: of the current file, of state ids
//! and of what an open denies.
//!
//! `specs/Worlds.antt` says which world that is, `specs/Acts.antt` what a success and a refusal do to it, `specs/Tests.antt`
//! how tests are told of, `specs/Leases.antt` what is told of leases, which are kept elsewhere.
#![tactic(auto)]

mod absent;
mod asked;
mod charging;
mod closing;
mod committing;
mod files;
mod labelling;
mod listing;
mod opened;
mod opening;
mod present;
mod reading;
mod references;
mod setting;
mod sharing;
mod state_ids;
mod values;
mod wanted;
mod writing;

pub use asked::Opening;
pub use charging::{byte_room, credit, room_for};
pub use closing::close;
pub use committing::commit;
pub use files::{check_file, usable_file};
pub use listing::law_listed;
pub use opened::Opened;
pub use opening::open;
pub use reading::read;
pub use references::{Reference, node_key, refer, refused_by};
pub use setting::set_attr;
pub use state_ids::{Special, Way, check_usable, meaning};
pub use writing::{past_quota, write};
