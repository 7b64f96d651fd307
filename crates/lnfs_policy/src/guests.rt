//! The guest lines of a policy, and the level that they give a caller.

ghost use Rattle.std.specs.Prelude.{◌≡◌, ◌++◌, ◌∷◌, [], List, IfOk, OnOk};
ghost use Rattle.lnfs_policy.specs.Guests.{level_in, first_level, AreLevelsOf};
ghost use Rattle.lnfs_policy.specs.declared.rows.Guest.{Guest};

use crate::rows::Guest;
use lnfs_calipso::Level;
use std::alloc::{AllocError, Global};
use std::collections::BTreeMap;
use std::marker::Model;

/// Whom a guest line names: of a class the callers with one uid, or, with None, all.
#[derive(Clone, Copy, Debug, PartialEq, Eq, PartialOrd, Ord)]
pub struct Named {
    pub class: u32,
    pub uid: Option<u32>,
}

/// The guest lines, seen as their list in the order of the file.
#[derive(Drop)]
pub struct Guests {
    lines: Vec<Guest>,
    levels: BTreeMap<Named, Level>,
}

impl Model for Guests {
    ghost use Rattle.std.specs.Prelude.{List};
    ghost use Rattle.lnfs_policy.specs.declared.rows.Guest.{Guest};

    ghost Value = { List Guest };

    ghost use Rattle.lnfs_policy.specs.Guests.{AreLevelsOf};

    ghost view = { λ g. g.lines.items };

    ghost invariant = { λ g. AreLevelsOf g.lines.items g.levels };
}

/// The level under the uid of a caller, or else that of all in the class.
fn level_in(levels: &BTreeMap<Named, Level>, class: u32, uid: Option<u32>) -> Option<Level>
    ensures { result ≡ level_in levels.now class uid }
{
    match levels.get(&Named { class, uid }) {
        Some(level) => Some(*level),
        None => levels.get(&Named { class, uid: None }).copied(),
    }
}

/// Notes the level of one more line, where no earlier one fits all whom it names.
fn note(levels: &mut BTreeMap<Named, Level>, line: &Guest) -> Result<(), AllocError>
    ensures { OnOk result ((lines : List Guest) → AreLevelsOf lines levels.old →
        AreLevelsOf (lines ++ line.now ∷ []) levels.new) }
{
    let (class, uid) = (line.class, line.uid);
    if level_in(levels, class, uid).is_some() {
        return Ok(());
    }
    levels.insert(Named { class, uid }, line.level)?;
    Ok(())
}

/// The levels of the lines that some caller meets first, by whom they name.
fn levels_of(alloc: Global, lines: &[Guest]) -> Result<BTreeMap<Named, Level>, AllocError>
    ensures { IfOk result (λ levels. AreLevelsOf lines.now levels) }
{
    let mut levels = BTreeMap::new(alloc);
    for line in lines {
        note(&mut levels, line)?;
    }
    Ok(levels)
}

impl Guests {
    /// The guests of the lines of a policy.
    ///
    /// # Errors
    ///
    /// `AllocError` where there is no memory.
    pub fn of(alloc: Global, lines: Vec<Guest>) -> Result<Guests, AllocError>
        ensures { IfOk result (λ guests. guests ≡ lines.items) }
    {
        let levels = levels_of(alloc, &lines)?;
        Ok(Guests { lines, levels })
    }

    /// The lines.
    pub fn as_slice(&self) -> &[Guest]
        ensures { result.now ≡ self.now }
    {
        &self.lines
    }

    /// The level of the first line that fits a caller, found without a walk over the lines.
    pub fn level_of(&self, class: u32, uid: Option<u32>) -> Option<Level>
        ensures { result ≡ first_level self.now class uid }
    {
        level_in(&self.levels, class, uid)
    }
}
