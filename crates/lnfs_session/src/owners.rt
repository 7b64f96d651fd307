//! The records of an owner in what is kept of its level.
ghost use Rattle.std.specs.Prelude.{◌≡◌, ◌<◌, ◌+◌, ◌-◌, ◌==◌, ◌&&◌, ℕ, List, IsSome, Some, None, cond, option_map};
ghost use Rattle.std.specs.Str.{bytes_eq};
ghost use Rattle.lnfs_world.specs.Rows.{inserted};
ghost use Rattle.lnfs_world.specs.World.{level_order};
ghost use Rattle.lnfs_session.specs.Listed.{id_of};
ghost use Rattle.lnfs_session.specs.Levels.{last_at, records_at, place_at, numbers_at, number_by, cleared, without, others_in, lasts_of};

use crate::levels::{LevelRecords, OwnerNumbers, count, free_place, give, numbers_at, put};
use crate::rows::ClientRef;
use lnfs_world::numbers::LAST_NUMBER;
use std::collections::BTreeMap;

/// The identifier of a number in a level.
pub fn numbered(level: u32, number: Option<u32>) -> Option<ClientRef>
    ensures { option_map id_of result ≡ option_map (λ n. record { level = level; number = n })
        number }
{
    match number {
        Some(number) => Some(ClientRef { level, number }),
        None => None,
    }
}

/// How many records there are without one that may be there.
pub fn without(records: u32, number: Option<u32>) -> u32
    ensures { result ≡ without records number }
{
    match number {
        // The one that goes is among them.
        Some(_) => records.saturating_sub(1),
        None => records,
    }
}

/// Enters a new number as that of an owner's pending record, where the owner's numbers are known. The one that it had is
/// answered.
pub fn enter_number(
    levels: &mut BTreeMap<u32, LevelRecords>,
    id: ClientRef,
    owner: &[u8],
    numbers: OwnerNumbers,
) -> Option<ClientRef>
    requires known { numbers ≡ numbers_at levels.old id.level owner.now }
    requires place { IsSome (place_at levels.old id.level owner.now) }
    requires positive { 0 < id.number }
    requires few { records_at levels.old id.level < LAST_NUMBER }
    ensures gone { option_map id_of result ≡ option_map (λ n.
        record { level = id.level; number = n }) (numbers_at levels.old id.level
        owner.now).pending }
    ensures last { (l : ℕ) →
        last_at levels.new l ≡ cond (id.level == l) id.number (last_at levels.old l) }
    ensures records { (l : ℕ) → records_at levels.new l
        ≡ cond (id.level == l) (others_in levels.old id.level owner.now + 1)
        (records_at levels.old l) }
    ensures numbers { (l : ℕ) (o : List ℕ) → numbers_at levels.new l o
        ≡ cond (id.level == l && bytes_eq owner.now o)
        (record (numbers_at levels.old id.level owner.now) { pending = Some id.number })
        (numbers_at levels.old l o) }
    ensures lasts { lasts_of levels.new.entries ≡ inserted level_order
        (record { level = id.level; number = id.number }) (lasts_of levels.old.entries) }
{
    let others = without(count(levels, id.level), numbers.pending);
    let left = OwnerNumbers {
        pending: Some(id.number),
        confirmed: numbers.confirmed,
    };
    give(levels, id.level, id.number);
    put(levels, id.level, owner, left, others + 1);
    numbered(id.level, numbers.pending)
}

/// The number of an owner's pending record becomes that of its confirmed one. The one that it had is answered.
pub fn confirm_number(
    levels: &mut BTreeMap<u32, LevelRecords>,
    id: ClientRef,
    owner: &[u8],
) -> Option<ClientRef>
    requires { (numbers_at levels.old id.level owner.now).pending ≡ Some id.number }
    ensures gone { option_map id_of result ≡ option_map (λ n.
        record { level = id.level; number = n }) (numbers_at levels.old id.level
        owner.now).confirmed }
    ensures last { (l : ℕ) → last_at levels.new l ≡ last_at levels.old l }
    ensures records { (l : ℕ) → records_at levels.new l
        ≡ cond (id.level == l) (without (records_at levels.old id.level)
        (numbers_at levels.old id.level owner.now).confirmed) (records_at levels.old l) }
    ensures numbers { (l : ℕ) (o : List ℕ) → numbers_at levels.new l o
        ≡ cond (id.level == l && bytes_eq owner.now o)
        (record { pending = None; confirmed = Some id.number }) (numbers_at levels.old l o) }
    ensures lasts { lasts_of levels.new.entries ≡ lasts_of levels.old.entries }
{
    let replaced = numbers_at(levels, id.level, owner).confirmed;
    let records = without(count(levels, id.level), replaced);
    let left = OwnerNumbers {
        pending: None,
        confirmed: Some(id.number),
    };
    put(levels, id.level, owner, left, records);
    numbered(id.level, replaced)
}

/// An owner's confirmed record has gone, or its pending one.
pub fn clear_number(
    levels: &mut BTreeMap<u32, LevelRecords>,
    level: u32,
    owner: &[u8],
    confirmed: bool,
)
    requires { IsSome (number_by confirmed (numbers_at levels.old level owner.now)) }
    ensures last { (l : ℕ) → last_at levels.new l ≡ last_at levels.old l }
    ensures records { (l : ℕ) → records_at levels.new l
        ≡ cond (level == l) (records_at levels.old level - 1) (records_at levels.old l) }
    ensures numbers { (l : ℕ) (o : List ℕ) → numbers_at levels.new l o
        ≡ cond (level == l && bytes_eq owner.now o)
        (cleared confirmed (numbers_at levels.old level owner.now)) (numbers_at levels.old l o) }
    ensures lasts { lasts_of levels.new.entries ≡ lasts_of levels.old.entries }
{
    let mut left = numbers_at(levels, level, owner);
    if confirmed {
        left.confirmed = None;
    } else {
        left.pending = None;
    }
    let records = count(levels, level).saturating_sub(1);
    put(levels, level, owner, left, records);
    free_place(levels, level, owner);
}
