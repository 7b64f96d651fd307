//! The rules of labels, M1 to M9: one question, one verdict (the Bell-LaPadula rules, with strict writing).
#![tactic(auto)]

mod judging;
mod question;
mod rule;

pub use judging::{dominates, judge};
pub use question::{Question, Verdict};
pub use rule::Rule;
