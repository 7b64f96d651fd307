//! The arguments of ALLOCATE, DEALLOCATE, SEEK and CLONE, read (RFC 7862 sections 15.1.1, 15.4.1, 15.11.1 and 15.13.1), what is
//! tested of them alone, and what SEEK tells.
//!
//! `lnfs_sparse_ops` has the formats. `specs/Values.antt` says which of their values those of this crate stand for.
#![tactic(auto)]

mod blocks;
mod checks;
mod grammar;
mod reading;
mod results;
mod values;

pub use checks::{check_ranges, check_region, check_sort};
pub use grammar::SparseGrammar;
pub use reading::{read_clone, read_region, read_seek};
pub use results::{Sought, seek_text};
pub use values::{CloneArgs, RegionArgs, SeekArgs};
