//! The formats of a site.

ghost use Rattle.std.specs.Prelude.{◌≡◌, ◌<◌, [], length, slice_get, IfOk};
ghost use Rattle.std.specs.Option.{option_copied};
ghost use Rattle.lnfs_calipso.specs.Label.{label_at};
ghost use Rattle.lnfs_format.specs.Entries.{entry_of};
ghost use Rattle.lnfs_format.specs.Adding.{Adds};
ghost use Rattle.lnfs_format.specs.LevelRead.{level_read, IsRead};
ghost use Rattle.lnfs_format.specs.LevelWritten.{level_written, IsWritten};

use crate::codec::Codecs;
use crate::kind::Kind;
use lnfs_calipso::{Lattice, Level};
use lnfs_types::LABEL_LIMIT;
use std::alloc::{AllocError, AllocFailed, Global};
use std::marker::Model;
use thiserror::Error;

/// The largest number of formats of a site.
pub const MAX_FORMATS: usize = 8;

/// The longest spelling of a label, in bytes.
pub const MAX_SPELLING: usize = LABEL_LIMIT as usize;

/// What names a format: its number and its policy identifier (RFC 7569).
#[derive(Clone, Copy, Debug, PartialEq, Eq)]
pub struct Pair {
    pub lfs: u32,
    pub pi: u32,
}

/// A format under its number and its policy identifier (RFC 7569).
#[derive(Debug, Drop)]
pub struct FormatEntry {
    pub lfs: u32,
    pub pi: u32,
    pub kind: Kind,
}

/// The formats of a site, in order. The first is the one that a server writes.
#[derive(Debug, Drop)]
pub struct Formats {
    entries: Vec<FormatEntry>,
}

impl Model for Formats {
    ghost use Rattle.std.specs.Prelude.{List};
    ghost use Rattle.lnfs_format.specs.declared.formats.FormatEntry.{FormatEntry as Entry};

    ghost Value = { List Entry };

    ghost view = { λ f. f.entries.items };
}

/// Why a format isn't added.
#[derive(Clone, Copy, Debug, PartialEq, Eq, Error)]
pub enum AddError {
    /// There is a format of this number and policy identifier.
    #[error("there is a format of this number and policy identifier")]
    Taken,
    /// There are eight formats.
    #[error("there are eight formats")]
    TooMany,
    /// There is no memory.
    #[error("out of memory")]
    Memory,
}

impl From<AllocFailed<FormatEntry>> for AddError {
    ghost use Rattle.lnfs_format.specs.declared.formats.AddError.TheVariants.{Memory};

    ghost from_gives = { λ _ e. e ≡ Memory };

    fn from(_error: AllocFailed<FormatEntry>) -> AddError {
        AddError::Memory
    }
}

/// Why some bytes aren't read as a level.
#[derive(Clone, Copy, Debug, PartialEq, Eq, Error)]
pub enum ReadError {
    /// There is no format of this number and policy identifier.
    #[error("there is no format of this number and policy identifier")]
    WrongLfs,
    /// The bytes spell no label, or one that is no level's.
    #[error("the bytes spell no label, or one that is no level's")]
    BadLabel,
    /// There is no memory.
    #[error("out of memory")]
    Memory,
}

impl From<AllocError> for ReadError {
    ghost use Rattle.lnfs_format.specs.declared.formats.ReadError.TheVariants.{Memory};

    ghost from_gives = { λ _ e. e ≡ Memory };

    fn from(_error: AllocError) -> ReadError {
        ReadError::Memory
    }
}

/// Why a level isn't written.
#[derive(Clone, Copy, Debug, PartialEq, Eq, Error)]
pub enum WriteError {
    /// There is no format of this number and policy identifier.
    #[error("there is no format of this number and policy identifier")]
    WrongLfs,
    /// The format has no spelling of the label.
    #[error("the format has no spelling of the label")]
    NotInFormat,
    /// There is no memory.
    #[error("out of memory")]
    Memory,
}

impl From<AllocError> for WriteError {
    ghost use Rattle.lnfs_format.specs.declared.formats.WriteError.TheVariants.{Memory};

    ghost from_gives = { λ _ e. e ≡ Memory };

    fn from(_error: AllocError) -> WriteError {
        WriteError::Memory
    }
}

impl Formats {
    /// No formats. Takes no memory.
    pub fn new(alloc: Global) -> Formats
        ensures { result ≡ [] }
    {
        Formats {
            entries: Vec::new(alloc),
        }
    }

    /// The formats of a list, in its order; of two with one number and policy identifier the first counts. Takes no
    /// memory.
    pub fn of(entries: Vec<FormatEntry>) -> Formats
        ensures { result ≡ entries.items }
    {
        Formats { entries }
    }

    /// Adds a format behind the others.
    ///
    /// # Errors
    ///
    /// In this order: `Taken` where there is a format of this number and policy identifier, `TooMany` where there are
    /// eight. `Memory` where there is no memory. Then nothing has changed.
    pub fn add(&mut self, entry: FormatEntry) -> Result<(), AddError>
        ensures { Adds self.old entry self.new result }
    {
        if self.entry(entry.lfs, entry.pi).is_some() {
            return Err(AddError::Taken);
        }
        if self.entries.len() >= MAX_FORMATS {
            return Err(AddError::TooMany);
        }
        self.entries.push(entry)?;
        Ok(())
    }

    /// The formats, in order.
    pub fn as_slice(&self) -> &[FormatEntry]
        ensures { result.now ≡ self.now }
    {
        &self.entries
    }

    /// The first format.
    pub fn first(&self) -> Option<&FormatEntry>
        ensures { option_copied result ≡ slice_get self.now 0 }
    {
        self.entries.first()
    }

    /// The format of a number and a policy identifier.
    pub fn entry(&self, lfs: u32, pi: u32) -> Option<&FormatEntry>
        ensures { option_copied result ≡ entry_of self.now lfs pi }
    {
        self.entries
            .iter()
            .find(|entry| entry.lfs == lfs && entry.pi == pi)
    }

    /// The level whose label some bytes spell.
    ///
    /// # Errors
    ///
    /// In this order: `WrongLfs` where there is no such format, `BadLabel` where the bytes spell no label in it or the
    /// label is no level's. `Memory` where there is no memory.
    #[tactic(auto, unfolding(crate::specs::LevelRead::level_read))]
    pub fn read(
        &self,
        codecs: &Codecs,
        lattice: &Lattice,
        lfs: u32,
        pi: u32,
        bytes: &[u8],
    ) -> Result<Level, ReadError>
        ensures read { IsRead result (level_read self.now lattice.now lfs pi bytes.now) }
        ensures held { IfOk result (λ level. level.0 < length lattice.now) }
    {
        let Some(entry) = self.entry(lfs, pi) else {
            return Err(ReadError::WrongLfs);
        };
        let Some(label) = codecs.read(&entry.kind, bytes)? else {
            return Err(ReadError::BadLabel);
        };
        match lattice.find(&label) {
            Some(level) => Ok(level),
            None => Err(ReadError::BadLabel),
        }
    }

    /// The bytes that spell the label of a level.
    ///
    /// # Errors
    ///
    /// In this order: `WrongLfs` where there is no such format, `NotInFormat` where it has no spelling of the label.
    /// `Memory` where there is no memory.
    #[tactic(auto, unfolding(crate::specs::LevelWritten::level_written))]
    pub fn write(
        &self,
        codecs: &Codecs,
        lattice: &Lattice,
        lfs: u32,
        pi: u32,
        level: Level,
    ) -> Result<Vec<u8>, WriteError>
        requires { level.0 < length lattice.now }
        ensures { IsWritten result (level_written self.now lattice.now lfs pi level.0) }
    {
        let Some(entry) = self.entry(lfs, pi) else {
            return Err(WriteError::WrongLfs);
        };
        match codecs.write(&entry.kind, lattice.label(level))? {
            Some(bytes) => Ok(bytes),
            None => Err(WriteError::NotInFormat),
        }
    }
}
