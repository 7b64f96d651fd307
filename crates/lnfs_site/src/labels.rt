//! The label of each level, as a server writes it, and in all formats.
ghost use Rattle.std.specs.Prelude.{◌≡◌, ◌<◌, length, map, IfOk};
ghost use Rattle.lnfs_world.specs.Given.{stored_of};
ghost use Rattle.lnfs_site.specs.Site.{spelling, unspelled};
ghost use Rattle.lnfs_site.specs.Labels.{written_of, table_of, spellings, spelled_at, table_read};
ghost use Rattle.lnfs_site.specs.Reading.{read_of};

use crate::reading::LabelRead;
use crate::table::{Table, read};
use lnfs_calipso::Level;
use lnfs_format::{Codecs, MAX_SPELLING};
use lnfs_policy::Policy;
use lnfs_types::Octets;
use lnfs_world::Stored;
use std::alloc::{AllocError, Global};
use std::marker::Model;

/// No label: the number and the policy identifier of no format, and no bytes.
fn unspelled(alloc: Global) -> Stored
    ensures { stored_of result ≡ unspelled }
{
    Stored {
        lfs: 0,
        pi: 0,
        bytes: Octets::new(Vec::new(alloc)),
    }
}

/// The label of a level in the first format.
#[tactic(auto, unfolding(crate::specs::Site::spelling))]
fn spell(
    alloc: Global,
    policy: &Policy,
    codecs: &Codecs,
    level: Level,
) -> Result<Stored, AllocError>
    requires { level.0 < length policy.now.labels }
    ensures { IfOk result (λ stored. stored_of stored ≡ spelling policy.now level.0) }
{
    let Some(format) = policy.formats().first() else {
        return Ok(unspelled(alloc));
    };
    match codecs.write(&format.kind, policy.lattice().label(level))? {
        Some(bytes) if bytes.len() <= MAX_SPELLING => Ok(Stored {
            lfs: format.lfs,
            pi: format.pi,
            bytes: Octets::new(bytes),
        }),
        _ => Ok(unspelled(alloc)),
    }
}

/// The label of each level in turn, in the first format.
fn written(alloc: Global, policy: &Policy, codecs: &Codecs) -> Result<Vec<Stored>, AllocError>
    ensures rows { IfOk result (λ rows. map stored_of rows.items ≡ written_of policy.now) }
    ensures some { IfOk result (λ rows. 0 < length rows.items) }
{
    let mut rows = Vec::new(alloc);
    for number in 0..policy.lattice().len() {
        rows.push(spell(alloc, policy, codecs, Level(number))?)?;
    }
    Ok(rows)
}

/// The table of each format in turn.
fn tables(alloc: Global, policy: &Policy, codecs: &Codecs) -> Result<Vec<Table>, AllocError>
    ensures { IfOk result (λ tables. tables.items ≡ map (table_of policy.now.labels)
        policy.now.formats) }
{
    let mut tables = Vec::new(alloc);
    for format in policy.formats().as_slice() {
        tables.push(Table::new(alloc, policy.lattice(), codecs, format)?)?;
    }
    Ok(tables)
}

/// The label of each level of a site: in its first format, which is the one that a server writes, and in all formats, which
/// it reads.
#[derive(Drop)]
pub struct Labels {
    rows: Vec<Stored>,
    tables: Vec<Table>,
}

impl Model for Labels {
    ghost use Rattle.std.specs.Prelude.{◌<◌, length, map};
    ghost use Rattle.lnfs_world.specs.Given.{stored_of};
    ghost use Rattle.lnfs_site.specs.Labels.{Spellings};

    ghost Value = { Spellings };

    ghost view = { λ l. record { written = map stored_of l.rows.items; tables = l.tables.items } };

    ghost invariant = { λ l. 0 < length l.rows.items };
}

impl Labels {
    /// The labels of a policy's levels.
    ///
    /// # Errors
    ///
    /// `AllocError` where there is no memory.
    pub fn new(alloc: Global, policy: &Policy, codecs: &Codecs) -> Result<Labels, AllocError>
        ensures { IfOk result (λ labels. labels ≡ spellings policy.now) }
    {
        Ok(Labels {
            rows: written(alloc, policy, codecs)?,
            tables: tables(alloc, policy, codecs)?,
        })
    }

    /// The label of a level. A number that is no level counts as level 0. Takes no memory.
    pub fn get(&self, level: Level) -> &Stored
        ensures value { stored_of result.now ≡ spelled_at self.now.written level.0 }
        ensures some { 0 < length self.now.written }
    {
        match self.rows.get(level.0 as usize) {
            Some(row) => row,
            None => &self.rows[0],
        }
    }

    /// The level of a label that is given, by the tables of the formats. Takes no memory.
    pub fn read(&self, lfs: u32, pi: u32, bytes: &[u8]) -> LabelRead
        ensures { read_of result ≡ table_read self.now.tables lfs pi bytes.now }
    {
        read(&self.tables, lfs, pi, bytes)
    }
}
