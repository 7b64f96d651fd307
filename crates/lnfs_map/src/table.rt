ghost use Rattle.std.specs.Prelude.{◌≡◌};
ghost use Rattle.lnfs_map.specs.Translated.{translated, IsTranslated};

use lnfs_calipso::Lattice;
use lnfs_format::{Codecs, Formats, Pair, ReadError, WriteError};
use thiserror::Error;

/// Why some bytes aren't translated.
#[derive(Clone, Copy, Debug, PartialEq, Eq, Error)]
pub enum MapError {
    /// One of the two formats isn't there.
    #[error("one of the two formats is not there")]
    WrongLfs,
    /// The bytes spell no label, or one that is no level's.
    #[error("the bytes spell no label, or one that is no level's")]
    BadLabel,
    /// The format has no spelling of the label.
    #[error("the format has no spelling of the label")]
    NoRow,
    /// There is no memory.
    #[error("out of memory")]
    Memory,
}

impl From<ReadError> for MapError {
    ghost use Rattle.lnfs_map.specs.Errors.{of_reading};

    ghost from_gives = { λ error given. given ≡ of_reading error };

    fn from(error: ReadError) -> MapError {
        match error {
            ReadError::WrongLfs => MapError::WrongLfs,
            ReadError::BadLabel => MapError::BadLabel,
            ReadError::Memory => MapError::Memory,
        }
    }
}

impl From<WriteError> for MapError {
    ghost use Rattle.lnfs_map.specs.Errors.{of_writing};

    ghost from_gives = { λ error given. given ≡ of_writing error };

    fn from(error: WriteError) -> MapError {
        match error {
            WriteError::WrongLfs => MapError::WrongLfs,
            WriteError::NotInFormat => MapError::NoRow,
            WriteError::Memory => MapError::Memory,
        }
    }
}

/// The formats of a site with what reads and writes them, and the labels of its levels.
#[derive(Drop)]
pub struct TranslationTable<'a> {
    formats: &'a Formats,
    codecs: &'a Codecs,
    lattice: &'a Lattice,
}

impl<'a> TranslationTable<'a> {
    /// The table of a site.
    pub fn new(
        formats: &'a Formats,
        codecs: &'a Codecs,
        lattice: &'a Lattice,
    ) -> TranslationTable<'a>
        ensures formats { result.formats.now ≡ formats.now }
        ensures lattice { result.lattice.now ≡ lattice.now }
    {
        TranslationTable {
            formats,
            codecs,
            lattice,
        }
    }

    /// The bytes that spell the label of some bytes in another format.
    ///
    /// # Errors
    ///
    /// In this order: `WrongLfs` where one of the two formats isn't there, `BadLabel` where the bytes spell no label or
    /// one that is no level's, `NoRow` where the other format has no spelling of the label. `Memory` where there is no
    /// memory.
    pub fn translate(&self, from: Pair, to: Pair, bytes: &[u8]) -> Result<Vec<u8>, MapError>
        ensures { IsTranslated result (translated self.now.formats.now self.now.lattice.now from to
            bytes.now) }
    {
        if self.formats.entry(to.lfs, to.pi).is_none() {
            return Err(MapError::WrongLfs);
        }
        let level = self
            .formats
            .read(self.codecs, self.lattice, from.lfs, from.pi, bytes)?;
        let text = self
            .formats
            .write(self.codecs, self.lattice, to.lfs, to.pi, level)?;
        Ok(text)
    }
}
