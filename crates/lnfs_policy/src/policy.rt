//! The policy of a site.

ghost use Rattle.std.specs.Prelude.{◌≡◌, option_map};
ghost use Rattle.std.specs.Option.{option_copied};
ghost use Rattle.lnfs_calipso.specs.Label.{IsPreorderWithBottom};
ghost use Rattle.lnfs_policy.specs.Policy.{dominance, guest_level, parent_at, limit_of};
ghost use Rattle.lnfs_policy.specs.PolicyText.{IsPolicy};

use crate::guests::Guests;
use crate::mode::Mode;
use crate::rows::{DirLine, Guest, Limit, Parent, Quota};
use lnfs_calipso::{Lattice, Level};
use lnfs_format::Formats;
use std::collections::BTreeMap;
use std::marker::Model;

/// The limit of a level without a quota line.
const DEFAULT_LIMIT: Limit = Limit {
    nodes: 4096,
    bytes: 67_108_864,
};

/// What the policy file of a site says.
#[derive(Drop)]
pub struct Policy {
    /// The canonical text.
    pub(crate) text: Vec<u8>,
    pub(crate) version: u32,
    pub(crate) mode: Mode,
    pub(crate) lattice: Lattice,
    pub(crate) formats: Formats,
    /// The parents by their numbers.
    pub(crate) parents: BTreeMap<u32, Parent>,
    pub(crate) guests: Guests,
    pub(crate) quotas: Vec<Quota>,
    pub(crate) dirs: Vec<DirLine>,
}

impl Model for Policy {
    ghost use Rattle.lnfs_policy.specs.Policy as policy;

    ghost Value = { policy.Policy };

    ghost use Rattle.lnfs_policy.specs.Held.{held, IsHeld};

    ghost view = { held };

    ghost invariant = { IsHeld };
}

impl Policy {
    /// The version of the file: 1 or 2.
    pub fn version(&self) -> u32
        ensures { result ≡ self.now.version }
    {
        self.version
    }

    /// Who enforces the labels.
    pub fn mode(&self) -> Mode
        ensures { result ≡ self.now.mode }
    {
        self.mode
    }

    /// The labels of the levels, from 1 to 32.
    pub fn lattice(&self) -> &Lattice
        ensures { result.now ≡ self.now.labels }
    {
        &self.lattice
    }

    /// The formats, in the order of the file.
    pub fn formats(&self) -> &Formats
        ensures { result.now ≡ self.now.formats }
    {
        &self.formats
    }

    /// The parent of a number, or None where no parent line has it.
    pub fn parent(&self, number: u32) -> Option<&Parent>
        ensures { option_copied result ≡ parent_at self.now number }
    {
        self.parents.get(&number)
    }

    /// The guest lines, in the order of the file.
    pub fn guests(&self) -> &[Guest]
        ensures { result.now ≡ self.now.guests }
    {
        self.guests.as_slice()
    }

    /// The level of the first guest line that fits, or None where none fits. The uid None, of a caller
    /// without one, meets only lines for all.
    pub fn guest_level(&self, class: u32, uid: Option<u32>) -> Option<Level>
        ensures { option_map (λ level. level.0) result ≡ guest_level self.now class uid }
    {
        self.guests.level_of(class, uid)
    }

    /// How much a level may hold, in nodes and in bytes: what its quota line says, or else 4,096 nodes and
    /// 67,108,864 bytes.
    pub fn limit(&self, level: Level) -> Limit
        ensures { result ≡ limit_of self.now level.0 }
    {
        self.quotas
            .iter()
            .find(|quota| quota.level.0 == level.0)
            .map(|quota| quota.limit)
            .unwrap_or(DEFAULT_LIMIT)
    }

    /// The directories that stand from the beginning, each behind its parent.
    pub fn dirs(&self) -> &[DirLine]
        ensures { result.now ≡ self.now.dirs }
    {
        &self.dirs
    }

    /// Dominance of the levels is a preorder, with level 0 below all.
    pub fn law_preorder(&self)
        ensures { IsPreorderWithBottom (dominance self.now) }
    {
        self.lattice.law_preorder();
    }

    /// A policy is what its own text spells.
    pub fn law_policy(&self)
        ensures { IsPolicy self.now }
    {
        let _text = &self.text;
    }
}
