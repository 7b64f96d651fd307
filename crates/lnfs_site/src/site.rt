//! What operations look at of a policy.
ghost use Rattle.std.specs.Prelude.{◌≡◌};
ghost use Rattle.lnfs_world.specs.Given.{stored_of};
ghost use Rattle.lnfs_monitor.specs.Questions.{asked, verdict};
ghost use Rattle.lnfs_site.specs.Site.{site_of};
ghost use Rattle.lnfs_site.specs.Labels.{spellings};
ghost use Rattle.lnfs_site.specs.Reading.{read_of};

use crate::labels::Labels;
use crate::reading::LabelRead;
use lnfs_calipso::Level;
use lnfs_format::MAX_SPELLING;
use lnfs_monitor::{Question, Verdict, dominates, judge};
use lnfs_policy::{Mode, Policy};
use lnfs_world::Stored;
use std::marker::Model;

/// A policy with the labels of its levels. Its value is the policy.
#[derive(Drop)]
pub struct Site<'a> {
    policy: &'a Policy,
    labels: &'a Labels,
}

impl<'a> Model for Site<'a> {
    ghost use Rattle.std.specs.Prelude.{◌≡◌};
    ghost use Rattle.lnfs_policy.specs.Policy.{Policy as Read};
    ghost use Rattle.lnfs_site.specs.Labels.{spellings};

    ghost Value = { Read };

    ghost view = { λ s. s.policy.now };

    ghost invariant = { λ s. s.labels.now ≡ spellings s.policy.now };
}

impl<'a> Site<'a> {
    /// A policy and the labels of its levels.
    pub fn new(policy: &'a Policy, labels: &'a Labels) -> Site<'a>
        requires { labels.now ≡ spellings policy.now }
        ensures { result ≡ policy.now }
    {
        Site { policy, labels }
    }

    /// The policy.
    pub fn policy(&self) -> &'a Policy
        ensures { result.now ≡ self.now }
    {
        self.policy
    }

    /// Whether a level dominates another. A number that is no level counts as level 0.
    pub fn dominates(&self, a: Level, b: Level) -> bool
        ensures { result ≡ (site_of self.now).dom a.0 b.0 }
    {
        dominates(self.policy.lattice(), a, b)
    }

    /// What the rules of labels say to a subject's question.
    pub fn judge(&self, subject: Level, question: &Question<'_>) -> Verdict
        ensures { result ≡ verdict (site_of self.now).dom subject.0 (asked question.now) }
    {
        judge(self.policy.lattice(), subject, question)
    }

    /// How many levels there are: from 1 to 32.
    pub fn levels(&self) -> u32
        ensures { result ≡ (site_of self.now).levels }
    {
        self.policy.lattice().len()
    }

    /// Whether labels are carried alone (limited server mode, RFC 7862 section 9.6.2).
    pub fn is_limited(&self) -> bool
        ensures { result ≡ (site_of self.now).limited }
    {
        self.policy.mode() == Mode::Limited
    }

    /// The most nodes of a level.
    pub fn nodes_limit(&self, level: Level) -> u64
        ensures { result ≡ (site_of self.now).nodes level.0 }
    {
        self.policy.limit(level).nodes
    }

    /// The most bytes of a level.
    pub fn bytes_limit(&self, level: Level) -> u64
        ensures { result ≡ (site_of self.now).bytes level.0 }
    {
        self.policy.limit(level).bytes
    }

    /// The label of a level as the site writes it. A number that is no level counts as level 0. Takes no memory.
    pub fn label(&self, level: Level) -> &'a Stored
        ensures { stored_of result.now ≡ (site_of self.now).spelling level.0 }
    {
        self.labels.get(level)
    }

    /// The level of a label as it was given, in any format of the policy. Where labels are carried alone, any label of at
    /// most 1,024 bytes is level 0. Takes no memory.
    pub fn read_label(&self, lfs: u32, pi: u32, bytes: &[u8]) -> LabelRead
        ensures { read_of result ≡ (site_of self.now).reading
            (record { lfs = lfs; pi = pi; bytes = bytes.now }) }
    {
        if self.is_limited() {
            return if bytes.len() <= MAX_SPELLING {
                LabelRead::LevelOf(Level(0))
            } else {
                LabelRead::BadLabel
            };
        }
        // Each format reads what it writes, and nothing else.
        self.policy.law_policy();
        lnfs_policy::laws::site();
        lnfs_format::laws::formats();
        self.labels.read(lfs, pi, bytes)
    }
}
