//! The words of a line of text, and what they spell: numbers, bytes in hex, paths.
#![tactic(auto)]

mod bytes;
pub mod laws;
mod numbers;
mod parts;
mod paths;
mod words;

pub use bytes::{bytes_of, lower_bytes_of, lower_secret_of};
pub use numbers::{number, number_up_to};
pub use parts::Parts;
pub use paths::{is_component, is_path, parent_of};
pub use words::{is_ascii, is_worded, spells};
