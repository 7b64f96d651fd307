//! Formats of labels: how a site spells them on the wire, and how a spelling is read.
#![tactic(auto)]

mod codec;
mod formats;
mod kind;
pub mod laws;
mod long;
mod name;
mod plain;
mod reading;
mod runs;
mod text;

pub use codec::{Codec, Codecs, ReadFn, WriteFn};
pub use formats::{
    AddError, FormatEntry, Formats, MAX_FORMATS, MAX_SPELLING, Pair, ReadError, WriteError,
};
pub use kind::{Kind, NameRow};
pub use long::{read_label_with, read_long, write_long};
pub use name::{read_name, write_name};
pub use plain::{read_kind, write_kind};
pub use text::{read_comps, read_text, write_comps, write_text};
