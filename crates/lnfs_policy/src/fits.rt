//! The rules of the lines after those before them, one function for each kind.

ghost use Rattle.std.specs.Prelude.{◌≡◌, ◌==◌, ◌&&◌, ◌<◌, nat_lt, false, Some, length, find, IfOk};
ghost use Rattle.std.specs.List.{list_any, list_all, slice_index_or};
ghost use Rattle.std.specs.Option.{option_copied};
ghost use Rattle.std.specs.Str.{bytes_eq};
ghost use Rattle.lnfs_calipso.specs.Label.{label_at};
ghost use Rattle.lnfs_format.specs.Entries.{is_pair};
ghost use Rattle.lnfs_policy.specs.Rows.{label_of, spelling_of};
ghost use Rattle.lnfs_policy.specs.Fits.{is_known, is_next, is_narrow, in_version, level_fits, is_table, is_old, kind_fits, format_fits, clashes, name_fits, guest_fits, quota_fits, level_at, is_above, dir_fits};

use crate::rows::{DirLine, FormatRow, LevelName, Quota, Spelling};
use lnfs_calipso::{COMPARTMENTS, Label, MAX_LEVELS};
use lnfs_format::{MAX_FORMATS, MAX_SPELLING, Pair, read_label_with};
use lnfs_words::{is_path, parent_of, spells};
use std::alloc::{AllocError, Global};

/// The highest class of a guest, and so of a link.
pub const MAX_CLASS: u32 = 7;

/// The number of compartments of version 1, from 0 to 255.
const FIRST_COMPARTMENTS: u16 = 256;

/// The most directories of a policy.
const MAX_DIRS: usize = 256;

/// Whether there is such a level.
pub fn is_known(labels: &[Label], level: u32) -> bool
    ensures { result ≡ is_known labels.now level }
{
    (level as usize) < labels.len()
}

/// The label of a level line, where its sensitivity and its compartments are some.
///
/// # Errors
///
/// `AllocError` where there is no memory.
#[tactic(auto, unfolding(crate::specs::Rows::label_of))]
pub fn label_of(
    alloc: Global,
    doi: u32,
    sens: u32,
    comps: &[u8],
) -> Result<Option<Label>, AllocError>
    ensures { IfOk result (λ label. label ≡ label_of doi sens comps.now) }
{
    if sens > 255 {
        return Ok(None);
    }
    read_label_with(alloc, doi, sens as u8, comps)
}

fn first_or<'a>(labels: &'a [Label], label: &'a Label) -> &'a Label
    ensures { result.now ≡ slice_index_or labels.now 0 label.now }
{
    labels.first().unwrap_or(label)
}

/// Whether a label may come next: there is room, and it is new.
#[tactic(auto, unfolding(crate::specs::Fits::is_next))]
pub fn is_next(labels: &[Label], label: &Label) -> bool
    ensures { result ≡ is_next labels.now label.now }
{
    labels.len() < MAX_LEVELS && !labels.contains(label)
}

/// Whether each compartment of a label is below a number.
fn is_below(label: &Label, bound: u16) -> bool
    ensures { result ≡ list_all (λ c. nat_lt c bound) label.now.comps }
{
    label.law_label();
    for comp in bound..COMPARTMENTS {
        if label.has(comp) {
            return false;
        }
    }
    true
}

/// Whether version 1 takes a label: it dominates the first, and has no compartment above 255.
#[tactic(auto, unfolding(crate::specs::Fits::is_narrow))]
fn is_narrow(labels: &[Label], label: &Label) -> bool
    ensures { result ≡ is_narrow labels.now label.now }
{
    label.dominates(first_or(labels, label)) && is_below(label, FIRST_COMPARTMENTS)
}

/// Whether a label may come next in a version.
pub fn level_fits(version: Option<u32>, labels: &[Label], place: u32, label: &Label) -> bool
    ensures { result ≡ level_fits version labels.now place (Some label.now) }
{
    place as usize == labels.len()
        && is_next(labels, label)
        && (is_new(version) || is_narrow(labels, label))
}

/// Whether a version is later than the first.
fn is_new(version: Option<u32>) -> bool
    ensures { result ≡ in_version version false }
{
    match version {
        Some(version) => version > 1,
        None => false,
    }
}

impl Spelling {
    /// Whether version 1 has the kind.
    fn is_old(&self) -> bool
        ensures { result ≡ is_old self.now }
    {
        match self {
            Spelling::Calipso | Spelling::Text | Spelling::Name => true,
            Spelling::Long => false,
        }
    }
}

/// Whether a version has a kind of format.
pub fn kind_fits(version: Option<u32>, spelling: Spelling) -> bool
    ensures { result ≡ kind_fits version (Some spelling) }
{
    is_new(version) || spelling.is_old()
}

/// The kind of format that a word names.
pub fn spelling_of(word: &[u8]) -> Option<Spelling>
    ensures { result ≡ spelling_of word.now }
{
    if spells(word, "calipso") {
        Some(Spelling::Calipso)
    } else if spells(word, "text") {
        Some(Spelling::Text)
    } else if spells(word, "name") {
        Some(Spelling::Name)
    } else if spells(word, "long") {
        Some(Spelling::Long)
    } else {
        None
    }
}

fn has_pair(rows: &[FormatRow], pair: Pair) -> bool
    ensures { result ≡ list_any (λ row. is_pair pair.lfs pair.pi row.pair) rows.now }
{
    rows.iter().any(|row| row.pair == pair)
}

/// Whether a format may come next: there is room, and its number and policy identifier are new together.
pub fn format_fits(rows: &[FormatRow], pair: Pair) -> bool
    ensures { result ≡ format_fits rows.now pair.lfs pair.pi }
{
    rows.len() < MAX_FORMATS && !has_pair(rows, pair)
}

impl Spelling {
    fn is_table(&self) -> bool
        ensures { result ≡ is_table self.now }
    {
        match self {
            Spelling::Calipso | Spelling::Text | Spelling::Long => false,
            Spelling::Name => true,
        }
    }
}

impl LevelName {
    /// Whether a later name has the level or the bytes in the same format.
    fn clashes(&self, later: &LevelName) -> bool
        ensures { result ≡ clashes later.now.pair.lfs later.now.pair.pi later.now.level.0
            later.now.bytes self.now }
    {
        self.pair == later.pair
            && (self.level == later.level || self.bytes.as_slice() == later.bytes.as_slice())
    }
}

fn has_table(rows: &[FormatRow], pair: Pair) -> bool
    ensures { result ≡ list_any (λ row. is_pair pair.lfs pair.pi row.pair && is_table row.spelling)
        rows.now }
{
    rows.iter()
        .any(|row| row.pair == pair && row.spelling.is_table())
}

fn has_clash(names: &[LevelName], name: &LevelName) -> bool
    ensures { result
        ≡ list_any (clashes name.now.pair.lfs name.now.pair.pi name.now.level.0 name.now.bytes)
        names.now }
{
    names.iter().any(|earlier| earlier.clashes(name))
}

/// Whether a name may come next: the format is one of names, the level is known, both level and bytes are new in
/// the format, and there are from 1 to 1,024 bytes.
#[tactic(auto, unfolding(crate::specs::Fits::name_fits))]
pub fn name_fits(
    labels: &[Label],
    rows: &[FormatRow],
    names: &[LevelName],
    name: &LevelName,
) -> bool
    ensures { result ≡ name_fits labels.now rows.now names.now name.now.pair.lfs name.now.pair.pi
        name.now.level.0 (Some name.now.bytes) }
{
    has_table(rows, name.pair)
        && is_known(labels, name.level.0)
        && !has_clash(names, name)
        && !name.bytes.is_empty()
        && name.bytes.len() <= MAX_SPELLING
}

/// Whether a guest's class and level are some.
pub fn guest_fits(labels: &[Label], class: u32, level: u32) -> bool
    ensures { result ≡ guest_fits labels.now class level }
{
    class <= MAX_CLASS && is_known(labels, level)
}

fn has_quota(quotas: &[Quota], level: u32) -> bool
    ensures { result ≡ list_any (λ quota. quota.level.0 == level) quotas.now }
{
    quotas.iter().any(|quota| quota.level.0 == level)
}

/// Whether the level of a quota is known, and has none yet.
pub fn quota_fits(labels: &[Label], quotas: &[Quota], level: u32) -> bool
    ensures { result ≡ quota_fits labels.now quotas.now level }
{
    is_known(labels, level) && !has_quota(quotas, level)
}

fn dir_at<'a>(dirs: &'a [DirLine], path: &[u8]) -> Option<&'a DirLine>
    ensures { option_copied result ≡ find (λ dir. bytes_eq dir.path path.now) dirs.now }
{
    dirs.iter().find(|dir| dir.path.as_slice() == path)
}

/// The level of the directory of a path, where it was made before or is the root.
fn level_at(dirs: &[DirLine], path: &[u8]) -> Option<u32>
    ensures { result ≡ level_at dirs.now path.now }
{
    if path.is_empty() {
        return Some(0);
    }
    match dir_at(dirs, path) {
        Some(dir) => Some(dir.level.0),
        None => None,
    }
}

/// The label of a level; a number past the last level counts as level 0.
pub fn label_at(labels: &[Label], level: u32) -> &Label
    requires { 0 < length labels.now }
    ensures { result.now ≡ label_at labels.now level }
{
    match labels.get(level as usize) {
        Some(label) => label,
        None => &labels[0],
    }
}

/// Whether a level dominates that of the parent, where there is a parent.
fn is_above(labels: &[Label], level: u32, parent: Option<u32>) -> bool
    requires { 0 < length labels.now }
    ensures { result ≡ is_above labels.now level parent }
{
    match parent {
        Some(0) => true,
        Some(parent) => level > 0 && label_at(labels, level).dominates(label_at(labels, parent)),
        None => false,
    }
}

fn has_path(dirs: &[DirLine], path: &[u8]) -> bool
    ensures { result ≡ list_any (λ dir. bytes_eq dir.path path.now) dirs.now }
{
    dirs.iter().any(|dir| dir.path.as_slice() == path)
}

/// Whether a directory may come next: its path is one and is new, its parent was made before or is the root, its
/// level dominates the parent's, and there is room.
#[tactic(auto, unfolding(crate::specs::Fits::dir_fits))]
pub fn dir_fits(labels: &[Label], dirs: &[DirLine], path: &[u8], level: u32) -> bool
    ensures { result ≡ dir_fits labels.now dirs.now path.now level }
{
    is_path(path)
        && dirs.len() < MAX_DIRS
        && is_known(labels, level)
        && !has_path(dirs, path)
        && is_above(labels, level, level_at(dirs, parent_of(path)))
}
