//! The rules at four levels, of which level 3 dominates all, level 0 none but itself, and 1 and 2 neither the other.
use crate::labels::four_levels;
use lnfs_calipso::{Label, Lattice, Level};
use lnfs_monitor::{Question, Rule, Verdict, judge};
use std::process::Abort;
use std::test::Fail;

const ZERO: Level = Level(0);

const ONE: Level = Level(1);

const TWO: Level = Level(2);

const TOP: Level = Level(3);
/// No level of the four.
const NONE: Level = Level(4);

/// A subject, what it asks, and the rule that denies it.
const CASES: &[(Level, Question<'static>, Option<Rule>)] = &[
    (TOP, Question::Read { label: ONE }, None),
    (ONE, Question::Read { label: ONE }, None),
    (ONE, Question::Read { label: TWO }, Some(Rule::M1)),
    (ONE, Question::Read { label: TOP }, Some(Rule::M1)),
    // A number that is no level is dominated as level 0 is.
    (ONE, Question::Read { label: NONE }, None),
    (NONE, Question::Read { label: ONE }, Some(Rule::M1)),
    (TWO, Question::Write { label: TWO }, None),
    (TOP, Question::Write { label: TWO }, Some(Rule::M2)),
    (ZERO, Question::Write { label: TWO }, Some(Rule::M2)),
    (TWO, Question::Change { dir: TWO }, None),
    (TOP, Question::Change { dir: ZERO }, Some(Rule::M3)),
    (
        ZERO,
        Question::Child {
            dir: ONE,
            child: TOP,
        },
        None,
    ),
    (
        ONE,
        Question::Child {
            dir: ONE,
            child: ZERO,
        },
        Some(Rule::M4),
    ),
    (
        ONE,
        Question::Child {
            dir: ONE,
            child: TWO,
        },
        Some(Rule::M4),
    ),
    (
        ONE,
        Question::Raise {
            old: ONE,
            parents: &[ONE, ONE],
            new: TOP,
        },
        None,
    ),
    (
        ONE,
        Question::Raise {
            old: ONE,
            parents: &[],
            new: TOP,
        },
        Some(Rule::M5),
    ),
    (
        ONE,
        Question::Raise {
            old: ONE,
            parents: &[ONE, ZERO],
            new: TOP,
        },
        Some(Rule::M5),
    ),
    (
        ONE,
        Question::Raise {
            old: ONE,
            parents: &[ONE],
            new: TWO,
        },
        Some(Rule::M5),
    ),
    (
        TOP,
        Question::Raise {
            old: ONE,
            parents: &[TOP],
            new: TOP,
        },
        Some(Rule::M5),
    ),
    (ONE, Question::Drop { child: ONE }, None),
    (ZERO, Question::Drop { child: ONE }, Some(Rule::M6)),
    (TWO, Question::Deny { label: TWO }, None),
    (TOP, Question::Deny { label: TWO }, Some(Rule::M7)),
    (TOP, Question::Home { home: TWO }, None),
    (ONE, Question::Home { home: ZERO }, None),
    (ONE, Question::Home { home: TWO }, Some(Rule::M8)),
    (ONE, Question::Own { level: ONE }, None),
    (TOP, Question::Own { level: ONE }, Some(Rule::M9)),
];

fn expect_judged(rt: &impl Abort, lattice: &Lattice) {
    for (subject, question, denies) in CASES {
        let expected = match denies {
            Some(rule) => Verdict::Deny(*rule),
            None => Verdict::Allow,
        };
        let found = judge(lattice, *subject, question);
        assert!(rt; found == expected, "{subject:?} {question:?}");
    }
}

#[test]
fn each_rule_allows_and_denies(rt: HostRuntime) -> Result<(), Fail> {
    let alloc = rt.alloc();
    let top = Label::new(alloc, 1, 3, &[0, 1, 2, 5])?;
    let lattice = four_levels(alloc, Label::bare(alloc, 1, 0), top)?;
    expect_judged(&rt, &lattice);
    Ok(())
}
