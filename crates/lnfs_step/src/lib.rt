//! One event at a time, as definitions: what a record asks and of which level, how its reply is
//! wrapped, the step of the world, the world after a journal, the journal purged for a level, and
//! the answer on it; the law that each reply is that answer, also with further operations and under
//! any mechanism of signatures; and the laws of contexts, of the lines of denials, of requests that
//! come again, and of one step on any state.
#![tactic(auto)]

mod context_bounds;
mod context_laws;
mod laws;
mod limited_laws;
mod line_laws;
pub mod numbers;
mod session_laws;
mod step_laws;

pub use context_bounds::contexts_fit;
pub use context_laws::{contexts_are_lawful, contexts_are_signed};
pub use laws::{purge, secrecy};
pub use limited_laws::labels_are_carried;
pub use line_laws::denials_are_recorded;
pub use session_laws::sessions;
pub use step_laws::{one_step, session_step};
