//! What is kept of each level beside its records: the last number that it was given, how many records it
//! has, and under which numbers those of an owner are. With it neither a look-up by owner nor a count goes
//! through records.
ghost use Rattle.std.specs.Prelude.{◌≡◌, ◌<◌, ◌==◌, ◌&&◌, ℕ, List, OnOk, IfOk, IsSome, Some, cond};
ghost use Rattle.std.specs.Ordering.{nat_cmp};
ghost use Rattle.std.specs.Str.{bytes_eq};
ghost use Rattle.std.specs.BTreeMap.{get};
ghost use Rattle.lnfs_world.specs.Rows.{inserted};
ghost use Rattle.lnfs_world.specs.World.{level_order};
ghost use Rattle.lnfs_session.specs.Levels.{no_numbers, place_of, numbers_of, TellSame, last_at, records_at, place_at, numbers_at, lasts_of, AllTellSame};

use std::alloc::{AllocError, Global};
use std::collections::BTreeMap;

/// The numbers of an owner's records in a level: of the one that no CREATE_SESSION has confirmed, and of the
/// one that is confirmed.
#[derive(Clone, Copy, Debug, PartialEq, Eq)]
pub struct OwnerNumbers {
    pub pending: Option<u32>,
    pub confirmed: Option<u32>,
}

/// An owner has no record.
const NO_NUMBERS: OwnerNumbers = OwnerNumbers {
    pending: None,
    confirmed: None,
};

/// What is kept of a level.
#[derive(Drop)]
pub struct LevelRecords {
    /// The last number that it was given: before the first, 0.
    last: u32,
    /// How many records it has.
    records: u32,
    owners: BTreeMap<Vec<u8>, OwnerNumbers>,
}

impl LevelRecords {
    /// A level that was given no number.
    fn new(alloc: Global) -> LevelRecords
        ensures last { result.last ≡ 0 }
        ensures records { result.records ≡ 0 }
        ensures numbers { (owner : List ℕ) → numbers_of result owner ≡ no_numbers }
    {
        LevelRecords {
            last: 0,
            records: 0,
            owners: BTreeMap::new(alloc),
        }
    }

    /// The numbers of an owner's records.
    fn numbers(&self, owner: &[u8]) -> OwnerNumbers
        ensures { result ≡ numbers_of self.now owner.now }
    {
        match self.owners.get(owner) {
            Some(numbers) => *numbers,
            None => NO_NUMBERS,
        }
    }

    /// Makes a place for an owner's numbers, where there is none, and tells them.
    fn make_place(&mut self, alloc: Global, owner: &[u8]) -> Result<OwnerNumbers, AllocError>
        ensures same { TellSame self.old self.new }
        ensures place { OnOk result (IsSome (place_of self.new owner.now)) }
        ensures numbers { IfOk result (λ numbers. numbers ≡ numbers_of self.old owner.now) }
    {
        if let Some(numbers) = self.owners.get(owner) {
            return Ok(*numbers);
        }
        self.owners
            .insert(Vec::from_slice(alloc, owner)?, NO_NUMBERS)?;
        Ok(NO_NUMBERS)
    }

    /// Sets an owner's numbers, for which there is a place, and the count of records.
    fn put(&mut self, owner: &[u8], numbers: OwnerNumbers, records: u32)
        requires { IsSome (place_of self.old owner.now) }
        ensures last { self.new.last ≡ self.old.last }
        ensures records { self.new.records ≡ records }
        ensures places { (o : List ℕ) → place_of self.new o
            ≡ cond (bytes_eq owner.now o) (Some numbers) (place_of self.old o) }
    {
        self.records = records;
        let Some(place) = self.owners.get_mut(owner) else {
            return;
        };
        *place = numbers;
    }

    /// Takes back the place of an owner that has no record.
    fn free_place(&mut self, owner: &[u8])
        ensures { TellSame self.old self.new }
    {
        if self.numbers(owner) == NO_NUMBERS {
            self.owners.remove(owner);
        }
    }
}

/// The last number that a level was given: before the first, 0.
pub fn last_given(levels: &BTreeMap<u32, LevelRecords>, level: u32) -> u32
    ensures { result ≡ last_at levels.now level }
{
    match levels.get(&level) {
        Some(found) => found.last,
        None => 0,
    }
}

/// How many records a level has.
pub fn count(levels: &BTreeMap<u32, LevelRecords>, level: u32) -> u32
    ensures { result ≡ records_at levels.now level }
{
    match levels.get(&level) {
        Some(found) => found.records,
        None => 0,
    }
}

/// The numbers of an owner's records in a level.
pub fn numbers_at(levels: &BTreeMap<u32, LevelRecords>, level: u32, owner: &[u8]) -> OwnerNumbers
    ensures { result ≡ numbers_at levels.now level owner.now }
{
    match levels.get(&level) {
        Some(found) => found.numbers(owner),
        None => NO_NUMBERS,
    }
}

/// Makes a level that was given no number, where there is none.
pub fn make_level(
    levels: &mut BTreeMap<u32, LevelRecords>,
    alloc: Global,
    level: u32,
) -> Result<(), AllocError>
    ensures same { AllTellSame levels.old levels.new }
    ensures there { OnOk result (IsSome (get nat_cmp levels.new level)) }
{
    if levels.contains_key(&level) {
        return Ok(());
    }
    levels.insert(level, LevelRecords::new(alloc))?;
    Ok(())
}

/// Makes a place for an owner's numbers in a level, where there is none, and tells them. It changes nothing that is
/// told.
pub fn make_place(
    levels: &mut BTreeMap<u32, LevelRecords>,
    alloc: Global,
    level: u32,
    owner: &[u8],
) -> Result<OwnerNumbers, AllocError>
    ensures same { AllTellSame levels.old levels.new }
    ensures place { OnOk result (IsSome (place_at levels.new level owner.now)) }
    ensures numbers { IfOk result (λ numbers. numbers ≡ numbers_at levels.old level owner.now) }
{
    make_level(levels, alloc, level)?;
    let Some(found) = levels.get_mut(&level) else {
        return Ok(NO_NUMBERS);
    };
    found.make_place(alloc, owner)
}

/// Gives a level, which is there, a number.
pub fn give(levels: &mut BTreeMap<u32, LevelRecords>, level: u32, number: u32)
    requires there { IsSome (get nat_cmp levels.old level) }
    requires positive { 0 < number }
    ensures last { (l : ℕ) →
        last_at levels.new l ≡ cond (level == l) number (last_at levels.old l) }
    ensures records { (l : ℕ) → records_at levels.new l ≡ records_at levels.old l }
    ensures places { (l : ℕ) (o : List ℕ) → place_at levels.new l o ≡ place_at levels.old l o }
    ensures lasts { lasts_of levels.new.entries ≡ inserted level_order
        (record { level = level; number = number }) (lasts_of levels.old.entries) }
{
    let Some(found) = levels.get_mut(&level) else {
        return;
    };
    found.last = number;
}

/// Sets an owner's numbers in a level, for which there is a place, and the level's count of records.
pub fn put(
    levels: &mut BTreeMap<u32, LevelRecords>,
    level: u32,
    owner: &[u8],
    numbers: OwnerNumbers,
    records: u32,
)
    requires { IsSome (place_at levels.old level owner.now) }
    ensures last { (l : ℕ) → last_at levels.new l ≡ last_at levels.old l }
    ensures records { (l : ℕ) → records_at levels.new l
        ≡ cond (level == l) records (records_at levels.old l) }
    ensures numbers { (l : ℕ) (o : List ℕ) → numbers_at levels.new l o
        ≡ cond (level == l && bytes_eq owner.now o) numbers (numbers_at levels.old l o) }
    ensures lasts { lasts_of levels.new.entries ≡ lasts_of levels.old.entries }
{
    let Some(found) = levels.get_mut(&level) else {
        return;
    };
    found.put(owner, numbers, records);
}

/// Takes back the place of an owner that has no record in a level. It changes nothing that is told.
pub fn free_place(levels: &mut BTreeMap<u32, LevelRecords>, level: u32, owner: &[u8])
    ensures { AllTellSame levels.old levels.new }
{
    let Some(found) = levels.get_mut(&level) else {
        return;
    };
    found.free_place(owner);
}
