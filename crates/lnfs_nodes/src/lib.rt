//! The operations on nodes: file handles, names, attributes and listings (RFC 8881 section 18). Each answers what its
//! definition says of a world with the rows of the tree.
#![tactic(auto)]

mod accessed;
mod answers;
mod attributes;
mod calls;
mod comparing;
mod creating;
mod entries;
mod given;
mod handles;
mod held;
mod linking;
mod links;
mod listing;
mod lookups;
mod masks;
mod naming;
mod removing;
mod renaming;
mod rights;
mod showing;
mod told;
mod units;

pub use accessed::set_accessed;
pub use attributes::get_attr;
pub use calls::{Caller, check_allowed, check_directory, check_name, refused_by};
pub use comparing::{nverify, verify};
pub use creating::{Created, copied, create, kept_label, level_or, no_space};
pub use given::{GivenLabel, Wanted, argument, is_mode, label_of, read_wanted, set_of, values_of};
pub use handles::{HANDLE_SIZE, get_fh, handle_of, put_fh, put_root_fh, restore_fh, save_fh};
pub use held::{Held, denied, namespace, node_held};
pub use linking::link;
pub use links::read_link;
pub use listing::{Listing, read_dir};
pub use lookups::{lookup, lookup_parent};
pub use masks::law_whole;
pub use removing::{gone_bytes, remove};
pub use renaming::rename;
pub use rights::{AccessBits, access};
pub use showing::{Viewer, label_shown};
pub use told::cinfo;
