//! Scripts of the client: the text of a script, the actions that its lines ask for, and the components of their paths.
#![tactic(auto)]

mod action;
mod error;
mod forms;
mod identity;
pub mod laws;
mod limits;
mod lines;
mod paths;
mod script;

pub use action::Action;
pub use error::ScriptError;
pub use identity::Identity;
pub use limits::{MAX_CONTENT, MAX_COUNT, MAX_OFFSET};
pub use paths::{Components, is_root_or_path, last_component};
pub use script::{Script, read_script};
