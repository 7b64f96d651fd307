//! Reading the lines of a policy, one after another.

ghost use Rattle.std.specs.Prelude.{◌≡◌, Ok, MatchResult};
ghost use Rattle.lnfs_policy.specs.Seen.{seen};
ghost use Rattle.lnfs_policy.specs.Rows.{label_of, spelling_of};
ghost use Rattle.lnfs_words.specs.Hex.{lower_hex_of};
ghost use Rattle.lnfs_policy.specs.PolicyText.{is_version, IsPolicy};
ghost use Rattle.lnfs_policy.specs.Reading.{nothing, add, add_label, add_format, add_name, add_parent, add_guest, add_quota, add_dir, stands, judge, judge_line, finish, IsStop};

use crate::cause::{Cause, Stop};
use crate::fits::{
    dir_fits, format_fits, guest_fits, is_known, kind_fits, label_of, level_fits, name_fits,
    quota_fits, spelling_of,
};
use crate::formats::{entries_of, spells_all};
use crate::guests::Guests;
use crate::line::{Line, line_of};
use crate::mode::Mode;
use crate::policy::Policy;
use crate::rows::{DirLine, FormatRow, Guest, LevelName, Limit, Parent, Quota, Spelling};
use lnfs_calipso::{Label, Lattice, Level};
use lnfs_format::{Codecs, Formats, Pair};
use lnfs_types::Octets;
use lnfs_words::{is_ascii, is_worded, lower_bytes_of, lower_secret_of, spells};
use std::alloc::Global;
use std::collections::BTreeMap;
use std::marker::Model;

/// The version of a text without a version line, of which there is none.
const FIRST_VERSION: u32 = 1;

/// Whether a line tells a version of the policy file.
fn is_version(text: &[u8]) -> bool
    ensures { result ≡ is_version text.now }
{
    spells(text, "lnfs-policy 1") || spells(text, "lnfs-policy 2")
}

/// What was read so far.
#[derive(Drop)]
pub struct Reading {
    alloc: Global,
    /// Whether a line was read.
    begun: bool,
    /// The rank of the last line.
    stage: u8,
    text: Vec<u8>,
    version: Option<u32>,
    mode: Option<Mode>,
    labels: Vec<Label>,
    rows: Vec<FormatRow>,
    names: Vec<LevelName>,
    parents: BTreeMap<u32, Parent>,
    guests: Vec<Guest>,
    quotas: Vec<Quota>,
    dirs: Vec<DirLine>,
}

impl Model for Reading {
    ghost use Rattle.lnfs_calipso.specs.Levels.{AreFirstLevels};
    ghost use Rattle.lnfs_policy.specs.Reading as reading;

    ghost Value = { reading.Read };

    ghost view = { λ r. record {
      begun = r.begun;
      stage = r.stage;
      text = r.text.items;
      version = r.version;
      mode = r.mode;
      labels = r.labels.items;
      rows = r.rows.items;
      names = r.names.items;
      parents = r.parents.entries;
      guests = r.guests.items;
      quotas = r.quotas.items;
      dirs = r.dirs.items;
    } };

    ghost invariant = { λ r. AreFirstLevels r.labels.items };
}

impl Reading {
    /// Nothing was read. Takes no memory.
    pub fn new(alloc: Global) -> Reading
        ensures { result ≡ nothing }
    {
        Reading {
            alloc,
            begun: false,
            stage: 0,
            text: Vec::new(alloc),
            version: None,
            mode: None,
            labels: Vec::new(alloc),
            rows: Vec::new(alloc),
            names: Vec::new(alloc),
            parents: BTreeMap::new(alloc),
            guests: Vec::new(alloc),
            quotas: Vec::new(alloc),
            dirs: Vec::new(alloc),
        }
    }

    fn add_label(&mut self, place: u32, label: Option<Label>) -> Result<(), Stop>
        ensures { MatchResult result (λ _. add_label self.old place label ≡ Ok self.new)
            (IsStop (add_label self.old place label)) }
    {
        let Some(label) = label else {
            return Err(Stop::Broken(Cause::Level));
        };
        if !level_fits(self.version, &self.labels, place, &label) {
            return Err(Stop::Broken(Cause::Level));
        }
        self.labels.push(label)?;
        Ok(())
    }

    fn add_format(&mut self, pair: Pair, spelling: Option<Spelling>) -> Result<(), Stop>
        ensures { MatchResult result (λ _. add_format self.old pair.lfs pair.pi spelling
            ≡ Ok self.new) (IsStop (add_format self.old pair.lfs pair.pi spelling)) }
    {
        let Some(spelling) = spelling else {
            return Err(Stop::Broken(Cause::Format));
        };
        if !kind_fits(self.version, spelling) || !format_fits(&self.rows, pair) {
            return Err(Stop::Broken(Cause::Format));
        }
        self.rows.push(FormatRow { pair, spelling })?;
        Ok(())
    }

    fn add_name(&mut self, pair: Pair, level: u32, hex: &[u8]) -> Result<(), Stop>
        ensures { MatchResult result (λ _. add_name self.old pair.lfs pair.pi level
            (lower_hex_of hex.now) ≡ Ok self.new) (IsStop
            (add_name self.old pair.lfs pair.pi level (lower_hex_of hex.now))) }
    {
        let Some(bytes) = lower_bytes_of(self.alloc, hex)? else {
            return Err(Stop::Broken(Cause::Name));
        };
        let name = LevelName {
            pair,
            level: Level(level),
            bytes: Octets::new(bytes),
        };
        if !name_fits(&self.labels, &self.rows, &self.names, &name) {
            return Err(Stop::Broken(Cause::Name));
        }
        self.names.push(name)?;
        Ok(())
    }

    fn add_parent(&mut self, number: u32, secret: Option<[u8; 32]>, level: u32) -> Result<(), Stop>
        ensures { MatchResult result (λ _. add_parent self.old number secret level ≡ Ok self.new)
            (IsStop (add_parent self.old number secret level)) }
    {
        let Some(secret) = secret else {
            return Err(Stop::Broken(Cause::Parent));
        };
        if self.parents.contains_key(&number) || !is_known(&self.labels, level) {
            return Err(Stop::Broken(Cause::Parent));
        }
        let parent = Parent {
            number,
            secret,
            clearance: Level(level),
        };
        self.parents.insert(number, parent)?;
        Ok(())
    }

    fn add_guest(&mut self, class: u32, uid: Option<u32>, level: u32) -> Result<(), Stop>
        ensures { MatchResult result (λ _. add_guest self.old class uid level ≡ Ok self.new)
            (IsStop (add_guest self.old class uid level)) }
    {
        if !guest_fits(&self.labels, class, level) {
            return Err(Stop::Broken(Cause::Guest));
        }
        self.guests.push(Guest {
            class,
            uid,
            level: Level(level),
        })?;
        Ok(())
    }

    fn add_quota(&mut self, level: u32, nodes: u64, bytes: u64) -> Result<(), Stop>
        ensures { MatchResult result (λ _. add_quota self.old level nodes bytes ≡ Ok self.new)
            (IsStop (add_quota self.old level nodes bytes)) }
    {
        if !quota_fits(&self.labels, &self.quotas, level) {
            return Err(Stop::Broken(Cause::Quota));
        }
        self.quotas.push(Quota {
            level: Level(level),
            limit: Limit { nodes, bytes },
        })?;
        Ok(())
    }

    fn add_dir(&mut self, path: &[u8], level: u32) -> Result<(), Stop>
        ensures { MatchResult result (λ _. add_dir self.old path.now level ≡ Ok self.new)
            (IsStop (add_dir self.old path.now level)) }
    {
        if !dir_fits(&self.labels, &self.dirs, path, level) {
            return Err(Stop::Broken(Cause::Dir));
        }
        self.dirs.push(DirLine {
            path: Octets::from_slice(self.alloc, path)?,
            level: Level(level),
        })?;
        Ok(())
    }

    fn add(&mut self, line: &Line<'_>) -> Result<(), Stop>
        ensures { MatchResult result (λ _. add self.old (seen line.now) ≡ Ok self.new)
            (IsStop (add self.old (seen line.now))) }
    {
        match *line {
            Line::Version(version) => {
                self.version = self.version.or(Some(version));
                Ok(())
            }
            Line::Mode(mode) => {
                self.mode = Some(mode);
                Ok(())
            }
            Line::Level {
                place,
                doi,
                sens,
                comps,
            } => {
                let label = label_of(self.alloc, doi, sens, comps)?;
                self.add_label(place, label)
            }
            Line::Format { pair, kind } => self.add_format(pair, spelling_of(kind)),
            Line::Name { pair, level, hex } => self.add_name(pair, level, hex),
            Line::Parent { number, hex, level } => self.add_parent(
                number,
                lower_secret_of(hex),
                level,
            ),
            Line::Guest { class, uid, level } => self.add_guest(class, uid, level),
            Line::Quota {
                level,
                nodes,
                bytes,
            } => self.add_quota(level, nodes, bytes),
            Line::Dir { path, level } => self.add_dir(path, level),
        }
    }

    /// Whether no line of a later kind was read, and a mode is the first.
    fn stands(&self, line: &Line<'_>) -> bool
        ensures { result ≡ stands self.now (seen line.now) }
    {
        self.stage <= line.rank() && !(line.is_mode() && self.mode.is_some())
    }

    fn judge_line(&mut self, ended: bool, text: &[u8]) -> Result<(), Stop>
        ensures { MatchResult result (λ _. judge_line self.old ended text.now ≡ Ok self.new)
            (IsStop (judge_line self.old ended text.now)) }
    {
        if is_version(text) == self.begun {
            return Err(Stop::Broken(Cause::Version));
        }
        if !ended || !is_worded(text) {
            return Err(Stop::Broken(Cause::Words));
        }
        let line = line_of(text)?;
        if !self.stands(&line) {
            return Err(Stop::Broken(Cause::Order));
        }
        self.add(&line)?;
        self.begun = true;
        self.stage = line.rank();
        self.text.extend_from_slice(text)?;
        self.text.push(b'\n')?;
        Ok(())
    }

    /// Reads a line, without its newline. `ended` says whether it had one. An empty line and a comment are
    /// skipped.
    pub fn judge(&mut self, ended: bool, text: &[u8]) -> Result<(), Stop>
        ensures { MatchResult result (λ _. judge self.old ended text.now ≡ Ok self.new)
            (IsStop (judge self.old ended text.now)) }
    {
        if !text.is_empty() && text[0] != b'#' {
            return self.judge_line(ended, text);
        }
        if ended && is_ascii(text) {
            Ok(())
        } else {
            Err(Stop::Broken(Cause::Words))
        }
    }

    /// The policy, behind the last line.
    pub fn finish(self, codecs: &Codecs) -> Result<Policy, Stop>
        requires { (policy : _) → finish self ≡ Ok policy → IsPolicy policy }
        ensures { MatchResult result (λ policy. finish self ≡ Ok policy) (IsStop (finish self)) }
    {
        let Reading {
            alloc,
            begun,
            stage: _,
            text,
            version,
            mode,
            labels,
            rows,
            names,
            parents,
            guests,
            quotas,
            dirs,
        } = self;
        let Some(mode) = mode else {
            return Err(Stop::Broken(Cause::Missing));
        };
        if !begun || labels.is_empty() {
            return Err(Stop::Broken(Cause::Missing));
        }
        let entries = entries_of(alloc, &labels, &names, &rows)?;
        if !spells_all(codecs, &entries, &labels)? {
            return Err(Stop::Broken(Cause::Missing));
        }
        let guests = Guests::of(alloc, guests)?;
        Ok(Policy {
            text,
            version: version.unwrap_or(FIRST_VERSION),
            mode,
            lattice: Lattice::of(labels),
            formats: Formats::of(entries),
            parents,
            guests,
            quotas,
            dirs,
        })
    }
}
