//! The rows of a world as values, which lend what they are long of: what a server keeps can be told as them, and made of
//! them again.
//!
//! Each type is a row of a world's lists, column by column; `specs/` says which row a value stands for. A value may stand for
//! a row that no server keeps: numbers are as wide as they are written, and no fact is asked of them.
#![tactic(auto)]

mod lists;
mod nodes;
mod numbers;
mod opens;
mod sessions;

pub use lists::{Lasts, Lists};
pub use nodes::{Data, EntryRow, Kind, NodeRow, StoredRow};
pub use numbers::Id;
pub use opens::OpenRow;
pub use sessions::{Channel, ClientRow, ContextRow, Kept, SessionRow, SlotRow};
