//! Attributes of NFS version 4 (RFC 8881 section 5, RFC 7862 section 12).
//!
//! A bitmap says which attributes; a list has their values in rising order of their numbers.
#![tactic(auto)]

mod asked;
mod bitmap;
pub mod laws;
pub mod numbers;
mod raw;
mod settable;
mod setting;
mod view;

pub use asked::{answered, asks_inner, supported, write_attrs};
pub use bitmap::{Bitmap, put_words, read_bitmap, write_bitmap};
pub use raw::RawAttrs;
pub use settable::{AttrError, AttrSet};
pub use setting::read_settable;
pub use view::{LabelValue, Moment, View};
