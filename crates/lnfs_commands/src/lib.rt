//! The commands of the program that wait for nobody: the words of its command line, a recording that is
//! served while it is read, and what each command shows.
//!
//! `run_alone` does what words say, over any `Outside`. A command is a line in the tables of
//! specs/Commands.antt, a function, and an arm in `perform`.
#![tactic(auto)]

mod alone;
mod command;
pub mod frame;
pub mod laws;
mod perform;
pub mod replay;
mod rules;
mod server;
mod summary;
mod team;
mod texts;
mod words;

pub use alone::run_alone;
pub use command::{Asked, Audit, Command, Resumption, Saving, Service, Task, Visit, Work};
pub use rules::rules_of;
pub use server::{Server, new_server};
pub use team::Team;
