//! What the words of a line say, one function for each kind.

ghost use Rattle.std.specs.Prelude.{◌≡◌};
ghost use Rattle.lnfs_words.specs.Words.{words};
ghost use Rattle.lnfs_policy.specs.Line.{rank, is_mode, number, long_number, uid_of, says_version, says_mode, says_level, says_format, says_name, says_parent, says_guest, says_quota, says_dir, line_of};
ghost use Rattle.lnfs_policy.specs.Seen.{seen, seen_line};

use crate::cause::Cause;
use crate::mode::Mode;
use lnfs_format::Pair;
use lnfs_words::{Parts, number_up_to, spells};

/// The largest number of a quota line.
const MAX_QUOTA: u64 = 1 << 62;

/// What a line says: its kind, its numbers, and the words that are no numbers.
#[derive(Clone, Copy)]
pub enum Line<'a> {
    Version(u32),
    Mode(Mode),
    Level {
        place: u32,
        doi: u32,
        sens: u32,
        comps: &'a [u8],
    },
    Format {
        pair: Pair,
        kind: &'a [u8],
    },
    Name {
        pair: Pair,
        level: u32,
        hex: &'a [u8],
    },
    Parent {
        number: u32,
        hex: &'a [u8],
        level: u32,
    },
    Guest {
        class: u32,
        uid: Option<u32>,
        level: u32,
    },
    Quota {
        level: u32,
        nodes: u64,
        bytes: u64,
    },
    Dir {
        path: &'a [u8],
        level: u32,
    },
}

impl Line<'_> {
    /// The place of the line's kind in the order of the kinds.
    pub fn rank(&self) -> u8
        ensures { result ≡ rank (seen self.now) }
    {
        match self {
            Line::Version(_) => 0,
            Line::Mode(_) => 1,
            Line::Level { .. } => 2,
            Line::Format { .. } => 3,
            Line::Name { .. } => 4,
            Line::Parent { .. } => 5,
            Line::Guest { .. } => 6,
            Line::Quota { .. } => 7,
            Line::Dir { .. } => 8,
        }
    }

    /// Whether the line is a mode.
    pub fn is_mode(&self) -> bool
        ensures { result ≡ is_mode (seen self.now) }
    {
        match self {
            Line::Mode(_) => true,
            _ => false,
        }
    }
}

/// The line of some words. Where they have no known form the cause is Words, and where one of them should
/// be a number and isn't, Number.
#[tactic(auto, unfolding(crate::specs::Line::line_of))]
pub fn line_of<'a>(text: &'a [u8]) -> Result<Line<'a>, Cause>
    ensures { seen_line result ≡ line_of (words text.now) }
{
    let mut words = Parts::new(text, b' ');
    let Some(name) = words.next() else {
        return Err(Cause::Words);
    };
    if spells(name, "lnfs-policy") {
        version(words)
    } else if spells(name, "mode") {
        mode(words)
    } else if spells(name, "level") {
        level(words)
    } else if spells(name, "format") {
        format(words)
    } else if spells(name, "name") {
        level_name(words)
    } else if spells(name, "parent") {
        parent(words)
    } else if spells(name, "guest") {
        guest(words)
    } else if spells(name, "quota") {
        quota(words)
    } else if spells(name, "dir") {
        dir(words)
    } else {
        Err(Cause::Words)
    }
}

/// The number of 32 bits that a word spells.
fn number(word: &[u8]) -> Result<u32, Cause>
    ensures { result ≡ number word.now }
{
    lnfs_words::number(word).ok_or(Cause::Number)
}

/// The number of a quota that a word spells.
fn long_number(word: &[u8]) -> Result<u64, Cause>
    ensures { result ≡ long_number word.now }
{
    number_up_to(MAX_QUOTA, word).ok_or(Cause::Number)
}

fn version<'a>(words: Parts<'a>) -> Result<Line<'a>, Cause>
    ensures { seen_line result ≡ says_version words.entry }
{
    let one = words.one().ok_or(Cause::Words)?;
    if spells(one, "1") {
        Ok(Line::Version(1))
    } else if spells(one, "2") {
        Ok(Line::Version(2))
    } else {
        Err(Cause::Words)
    }
}

fn mode<'a>(words: Parts<'a>) -> Result<Line<'a>, Cause>
    ensures { seen_line result ≡ says_mode words.entry }
{
    let mode = words.one().ok_or(Cause::Words)?;
    if spells(mode, "enforcing") {
        Ok(Line::Mode(Mode::Enforcing))
    } else if spells(mode, "limited") {
        Ok(Line::Mode(Mode::Limited))
    } else {
        Err(Cause::Words)
    }
}

fn level<'a>(words: Parts<'a>) -> Result<Line<'a>, Cause>
    ensures { seen_line result ≡ says_level words.entry }
{
    let (place, doi, sens, comps) = words.four().ok_or(Cause::Words)?;
    Ok(Line::Level {
        place: number(place)?,
        doi: number(doi)?,
        sens: number(sens)?,
        comps,
    })
}

fn format<'a>(words: Parts<'a>) -> Result<Line<'a>, Cause>
    ensures { seen_line result ≡ says_format words.entry }
{
    let (lfs, pi, kind) = words.three().ok_or(Cause::Words)?;
    Ok(Line::Format {
        pair: Pair {
            lfs: number(lfs)?,
            pi: number(pi)?,
        },
        kind,
    })
}

fn level_name<'a>(words: Parts<'a>) -> Result<Line<'a>, Cause>
    ensures { seen_line result ≡ says_name words.entry }
{
    let (lfs, pi, level, hex) = words.four().ok_or(Cause::Words)?;
    Ok(Line::Name {
        pair: Pair {
            lfs: number(lfs)?,
            pi: number(pi)?,
        },
        level: number(level)?,
        hex,
    })
}

fn parent<'a>(words: Parts<'a>) -> Result<Line<'a>, Cause>
    ensures { seen_line result ≡ says_parent words.entry }
{
    let (place, hex, level) = words.three().ok_or(Cause::Words)?;
    Ok(Line::Parent {
        number: number(place)?,
        hex,
        level: number(level)?,
    })
}

fn uid_of(word: &[u8]) -> Result<Option<u32>, Cause>
    ensures { result ≡ uid_of word.now }
{
    if spells(word, "*") {
        return Ok(None);
    }
    Ok(Some(number(word)?))
}

fn guest<'a>(words: Parts<'a>) -> Result<Line<'a>, Cause>
    ensures { seen_line result ≡ says_guest words.entry }
{
    let (class, uid, level) = words.three().ok_or(Cause::Words)?;
    Ok(Line::Guest {
        class: number(class)?,
        uid: uid_of(uid)?,
        level: number(level)?,
    })
}

fn quota<'a>(words: Parts<'a>) -> Result<Line<'a>, Cause>
    ensures { seen_line result ≡ says_quota words.entry }
{
    let (level, nodes, bytes) = words.three().ok_or(Cause::Words)?;
    Ok(Line::Quota {
        level: number(level)?,
        nodes: long_number(nodes)?,
        bytes: long_number(bytes)?,
    })
}

fn dir<'a>(words: Parts<'a>) -> Result<Line<'a>, Cause>
    ensures { seen_line result ≡ says_dir words.entry }
{
    let (path, level) = words.two().ok_or(Cause::Words)?;
    Ok(Line::Dir {
        path,
        level: number(level)?,
    })
}
