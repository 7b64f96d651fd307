//! The spellings of all levels in a format. Codecs make labels anew and take memory for it; a table tells the level of some
//! bytes without.
ghost use Rattle.std.specs.Prelude.{◌≡◌, find, position, IfOk};
ghost use Rattle.std.specs.Option.{option_map, option_copied};
ghost use Rattle.lnfs_site.specs.Labels.{table_of, is_table, is_spelled, level_by_table, table_read};
ghost use Rattle.lnfs_site.specs.Reading.{read_of};

use crate::reading::LabelRead;
use lnfs_calipso::{Lattice, Level};
use lnfs_format::{Codecs, FormatEntry};
use lnfs_types::Octets;
use std::alloc::{AllocError, Global};
use std::marker::Model;

/// A format, and how it spells each level, where it does.
#[derive(Drop)]
pub struct Table {
    lfs: u32,
    pi: u32,
    rows: Vec<Option<Octets>>,
}

impl Model for Table {
    ghost use Rattle.std.specs.Prelude.{◌≤◌, length};
    ghost use Rattle.lnfs_calipso.specs.declared.lattice.TheConstants.{MAX_LEVELS};
    ghost use Rattle.lnfs_site.specs.Labels as labels;

    ghost Value = { labels.Table };

    ghost view = { λ t. record { lfs = t.lfs; pi = t.pi; rows = t.rows.items } };

    ghost invariant = { λ t. length t.rows.items ≤ MAX_LEVELS };
}

/// Whether a level is spelled so.
fn is_spelled(bytes: &[u8], row: &Option<Octets>) -> bool
    ensures { result ≡ is_spelled bytes.now row.now }
{
    match row {
        Some(spelled) => spelled.as_slice() == bytes,
        None => false,
    }
}

/// The first place that is spelled so.
fn place_of(rows: &[Option<Octets>], bytes: &[u8]) -> Option<usize>
    ensures { result ≡ position (is_spelled bytes.now) rows.now }
{
    rows.iter().position(|row| is_spelled(bytes, row))
}

impl Table {
    /// The table of a format.
    ///
    /// # Errors
    ///
    /// `AllocError` where there is no memory.
    pub fn new(
        alloc: Global,
        lattice: &Lattice,
        codecs: &Codecs,
        format: &FormatEntry,
    ) -> Result<Table, AllocError>
        ensures { IfOk result (λ table. table ≡ table_of lattice.now format.now) }
    {
        let mut rows = Vec::new(alloc);
        for number in 0..lattice.len() {
            let spelled = codecs.write(&format.kind, lattice.label(Level(number)))?;
            rows.push(spelled.map(Octets::new))?;
        }
        Ok(Table {
            lfs: format.lfs,
            pi: format.pi,
            rows,
        })
    }

    /// Whether the format has this number and this policy identifier.
    pub fn is(&self, lfs: u32, pi: u32) -> bool
        ensures { result ≡ is_table lfs pi self.now }
    {
        self.lfs == lfs && self.pi == pi
    }

    /// The first level that is spelled so.
    pub fn level(&self, bytes: &[u8]) -> Option<Level>
        ensures { option_map (λ level. level.0) result ≡ level_by_table self.now bytes.now }
    {
        let place = place_of(&self.rows, bytes)?;
        Some(Level(place as u32))
    }
}

/// The table of a number and a policy identifier.
fn table_at(tables: &[Table], lfs: u32, pi: u32) -> Option<&Table>
    ensures { option_copied result ≡ find (is_table lfs pi) tables.now }
{
    tables.iter().find(|table| table.is(lfs, pi))
}

/// The level of a label that is given, by the tables of the formats. Takes no memory.
pub fn read(tables: &[Table], lfs: u32, pi: u32, bytes: &[u8]) -> LabelRead
    ensures { read_of result ≡ table_read tables.now lfs pi bytes.now }
{
    let Some(table) = table_at(tables, lfs, pi) else {
        return LabelRead::WrongFormat;
    };
    match table.level(bytes) {
        Some(level) => LabelRead::LevelOf(level),
        None => LabelRead::BadLabel,
    }
}
