//! The entries that a List has seen so far.
ghost use Rattle.std.specs.Prelude.{◌≡◌, ◌++◌, [], OnOk, map};
ghost use Rattle.lnfs_client.specs.Told.{shown_as};

use crate::answer::Shown;
use lnfs_answers::Named;
use lnfs_asking::level_of;
use lnfs_format::Codecs;
use lnfs_policy::Policy;
use lnfs_types::{Items, Octets};
use std::alloc::{AllocError, Global};
use std::marker::Model;

/// Entries, seen as their list.
#[derive(Debug, Drop)]
pub struct Listing {
    entries: Vec<Shown>,
}

impl Model for Listing {
    ghost use Rattle.std.specs.Prelude.{List};
    ghost use Rattle.lnfs_client.specs.declared.answer.Shown.{Shown as Entry};

    ghost Value = { List Entry };

    ghost view = { λ l. l.entries.items };
}

/// Appends entries as they are shown.
fn push_all(
    alloc: Global,
    policy: &Policy,
    codecs: &Codecs,
    shown: &mut Vec<Shown>,
    entries: &[Named],
) -> Result<(), AllocError>
    ensures { OnOk result (shown.new.items
        ≡ shown.old.items ++ map (shown_as policy.now) entries.now) }
{
    for entry in entries {
        let name = Octets::from_slice(alloc, entry.name.as_slice())?;
        let level = level_of(policy, codecs, &entry.label)?;
        shown.push(Shown { name, level })?;
    }
    Ok(())
}

impl Listing {
    /// No entries. Takes no memory.
    pub fn new(alloc: Global) -> Listing
        ensures { result ≡ [] }
    {
        Listing {
            entries: Vec::new(alloc),
        }
    }

    /// Appends what a reply tells, each entry with the level of its own label.
    ///
    /// # Errors
    ///
    /// `AllocError` where there is no memory. Then some of the entries may be appended.
    pub fn append(
        &mut self,
        alloc: Global,
        policy: &Policy,
        codecs: &Codecs,
        entries: &[Named],
    ) -> Result<(), AllocError>
        ensures { OnOk result (self.new ≡ self.old ++ map (shown_as policy.now) entries.now) }
    {
        push_all(alloc, policy, codecs, &mut self.entries, entries)
    }

    /// The entries. Takes no memory.
    pub fn into_items(self) -> Items<Shown>
        ensures { result ≡ self }
    {
        Items::new(self.entries)
    }
}
