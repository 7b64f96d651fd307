//! The dialogue of a client with a server: what it sends, and what it shows, by the records that come.
//!
//! `specs/Talk.antt` says what a script comes to when records have come, `specs/Texts.antt` what is shown of an action, and
//! `specs/Talks.antt` what is promised of the dialogue over a link.
#![tactic(auto)]

mod dialogue;
mod driver;
mod exchange;
mod texts;

pub use dialogue::Dialogue;
pub use driver::converse;
pub use texts::{answer_text, refusal_text};
