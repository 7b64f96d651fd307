ghost use Rattle.std.specs.Prelude.{◌≡◌, ◌==◌, ◌<◌, length, map};
ghost use Rattle.std.specs.List.{list_all};
ghost use Rattle.lnfs_calipso.specs.Label.{label_at, dom_of};
ghost use Rattle.lnfs_monitor.specs.Rules.{Raise, allows, rule_of};
ghost use Rattle.lnfs_monitor.specs.Questions.{asked, verdict};

use crate::question::{Question, Verdict};
use crate::rule::Rule;
use lnfs_calipso::{Lattice, Level};

/// A level that the lattice holds: a number past the end counts as level 0.
fn held(lattice: &Lattice, level: Level) -> Level
    ensures held { result.0 < length lattice.now }
    ensures label { label_at lattice.now result.0 ≡ label_at lattice.now level.0 }
{
    let _levels = lattice.len();
    if lattice.holds(level) {
        level
    } else {
        Level(0)
    }
}

/// Whether a level dominates another. A number that is no level of the lattice has the label of level 0.
pub fn dominates(lattice: &Lattice, a: Level, b: Level) -> bool
    ensures { result ≡ dom_of lattice.now a.0 b.0 }
{
    if b.0 == 0 || a.0 == 0 {
        return b.0 == 0;
    }
    let low = lattice.label(held(lattice, b));
    lattice.label(held(lattice, a)).dominates(low)
}

/// Whether a subject is at each of some labels.
fn is_at_each(subject: Level, labels: &[Level]) -> bool
    ensures { result ≡ list_all (λ label. subject.0 == label) (map (λ label. label.0) labels.now) }
{
    labels.iter().all(|label| subject == *label)
}

/// Whether a label may be raised.
#[tactic(auto, using(crate::proofs::Labels::empty_map))]
fn raises(lattice: &Lattice, subject: Level, old: Level, parents: &[Level], new: Level) -> bool
    ensures { result ≡ allows (dom_of lattice.now) subject.0
        (Raise old.0 (map (λ parent. parent.0) parents.now) new.0) }
{
    subject == old
        && is_at_each(subject, parents)
        && !parents.is_empty()
        && dominates(lattice, new, old)
}

fn allows(lattice: &Lattice, subject: Level, question: &Question<'_>) -> bool
    ensures { result ≡ allows (dom_of lattice.now) subject.0 (asked question.now) }
{
    match *question {
        Question::Read { label } => dominates(lattice, subject, label),
        Question::Write { label } => subject == label,
        Question::Change { dir } => subject == dir,
        Question::Child { dir, child } => dominates(lattice, child, dir),
        Question::Raise { old, parents, new } => raises(lattice, subject, old, parents, new),
        Question::Drop { child } => subject == child,
        Question::Deny { label } => subject == label,
        Question::Home { home } => dominates(lattice, subject, home),
        Question::Own { level } => subject == level,
    }
}

/// The rule that a question falls under.
fn rule_of(question: &Question<'_>) -> Rule
    ensures { result ≡ rule_of (asked question.now) }
{
    match question {
        Question::Read { .. } => Rule::M1,
        Question::Write { .. } => Rule::M2,
        Question::Change { .. } => Rule::M3,
        Question::Child { .. } => Rule::M4,
        Question::Raise { .. } => Rule::M5,
        Question::Drop { .. } => Rule::M6,
        Question::Deny { .. } => Rule::M7,
        Question::Home { .. } => Rule::M8,
        Question::Own { .. } => Rule::M9,
    }
}

/// What the rules say to a subject's question. Where levels are compared by dominance, a number that is no level of
/// the lattice counts as level 0. Takes no memory.
pub fn judge(lattice: &Lattice, subject: Level, question: &Question<'_>) -> Verdict
    ensures { result ≡ verdict (dom_of lattice.now) subject.0 (asked question.now) }
{
    if allows(lattice, subject, question) {
        Verdict::Allow
    } else {
        Verdict::Deny(rule_of(question))
    }
}
