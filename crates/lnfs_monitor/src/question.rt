use crate::rule::Rule;
use lnfs_calipso::Level;

/// What a subject asks to do, with the labels that it comes to.
#[derive(Clone, Copy, Debug)]
pub enum Question<'a> {
    /// To read what is at a label.
    Read {
        label: Level,
    },
    /// To write it.
    Write {
        label: Level,
    },
    /// To change the names of a directory.
    Change {
        dir: Level,
    },
    /// To put a child into a directory.
    Child {
        dir: Level,
        child: Level,
    },
    /// To raise the label of a node that stands in directories.
    Raise {
        old: Level,
        parents: &'a [Level],
        new: Level,
    },
    /// To take out a child.
    Drop {
        child: Level,
    },
    /// To deny others an open of what is at a label.
    Deny {
        label: Level,
    },
    /// To name a node.
    Home {
        home: Level,
    },
    /// To use an identifier of a level.
    Own {
        level: Level,
    },
}

/// What the rules say.
#[derive(Clone, Copy, Debug, PartialEq, Eq)]
pub enum Verdict {
    Allow,
    Deny(Rule),
}
