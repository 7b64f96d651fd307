//! A lock of a level that another level dominates, from its coming to its going. Each call that takes memory has ample memory.
ghost use Rattle.std.specs.Prelude.{◌≡◌, []};

use lnfs_calipso::{Label, Lattice, LatticeError, Level};
use lnfs_locking::{Key, LockRow, LockTest, Locks, Rival, Wanted};
use lnfs_open::{ClientKey, NodeKey};
use lnfs_ranges::RangeList;
use lnfs_types::Octets;
use std::alloc::{AllocError, Global};
use std::fmt::Debug;
use std::process::Abort;

const LOW: Level = Level(0);

const HIGH: Level = Level(1);

const FILE: NodeKey = NodeKey {
    level: LOW,
    number: 7,
};

const OTHER: NodeKey = NodeKey {
    level: LOW,
    number: 8,
};

/// The number of the first lock of a level.
const FIRST: Key = Key {
    level: 0,
    number: 1,
};

/// Fails where they differ, and tells both.
fn same<T: PartialEq + Debug + Copy>(rt: &impl Abort, came: T, due: T) {
    assert_eq!(rt; came, due);
}

fn client(level: Level) -> ClientKey {
    ClientKey { level, number: 1 }
}

/// Whether a lock is of another open than one.
#[derive(Clone, Copy)]
struct NotUnder {
    opening: u32,
}

impl LockTest for NotUnder {
    ghost use Rattle.std.specs.Prelude.{◌==◌, not};

    ghost passes = { λ o l. not (l.opening == o.opening) };

    fn passes(&self, _id: Key, row: &LockRow) -> bool {
        row.opening != self.opening
    }
}

fn lattice(alloc: Global) -> Result<Lattice, LatticeError> {
    Lattice::new(alloc, &[Label::bare(alloc, 1, 0), Label::bare(alloc, 1, 5)])
}

/// Bytes 0 to 9, for write.
fn begin(locks: &mut Locks, alloc: Global) -> Result<(), AllocError>
    requires locks { locks.old.locks ≡ [] }
    requires lasts { locks.old.lasts ≡ [] }
{
    let mut ranges = RangeList::new(alloc);
    ranges.set(0, 9, Some(true))?;
    let row = LockRow {
        client: ClientKey {
            level: LOW,
            number: 1,
        },
        opening: 3,
        owner: Octets::from_slice(alloc, b"a")?,
        node: FILE,
        seq: 1,
        ranges,
    };
    locks.begin(FIRST, row, &NotUnder { opening: 3 })
}

/// The sequence of the lock that stands in the way of a read of byte 9, if one does.
fn denied<'a>(
    locks: &Locks,
    lattice: &'a Lattice,
    subject: Level,
    owner: &'a [u8],
    node: NodeKey,
) -> Option<u32> {
    let rival = Rival {
        lattice,
        subject,
        client: client(LOW),
        owner,
    };
    let wanted = Wanted {
        first: 9,
        last: 9,
        write: false,
    };
    let denied = locks.conflict(&rival, &NotUnder { opening: 4 }, node, &wanted)?;
    Some(denied.row.seq)
}

/// The lock is found, and stands in the way of another owner of its file alone, also where that one is of a level above.
fn look(rt: &impl Abort, lattice: &Lattice, locks: &Locks, seq: u32) {
    same(rt, denied(locks, lattice, LOW, b"b", FILE), Some(seq));
    same(rt, denied(locks, lattice, HIGH, b"b", FILE), Some(seq));
    same(rt, denied(locks, lattice, LOW, b"a", FILE), None);
    same(rt, denied(locks, lattice, LOW, b"b", OTHER), None);
    same(rt, locks.named(1, FILE, FIRST).is_some(), true);
    same(rt, locks.named(2, FILE, FIRST).is_some(), false);
    same(rt, locks.named(1, OTHER, FIRST).is_some(), false);
    same(rt, locks.under(0, 3, b"a").is_some(), true);
    same(rt, locks.under(0, 3, b"b").is_some(), false);
    same(rt, locks.under(0, 4, b"a").is_some(), false);
    same(rt, locks.under(1, 3, b"a").is_some(), false);
    same(rt, locks.last(0), 1);
    same(rt, locks.last(1), 0);
}

/// Nothing is locked any more, and the lock is there.
fn unlock(rt: &impl Abort, lattice: &Lattice, locks: &mut Locks, alloc: Global) {
    locks.change(FIRST, 2, RangeList::new(alloc), &NotUnder { opening: 3 });
    same(rt, denied(locks, lattice, LOW, b"b", FILE), None);
    same(rt, locks.named(1, FILE, FIRST).is_some(), true);
}

/// The lock goes, and its number stays given.
fn go(rt: &impl Abort, locks: &mut Locks, alloc: Global) {
    locks.change(FIRST, 3, RangeList::new(alloc), &NotUnder { opening: 4 });
    same(rt, locks.named(1, FILE, FIRST).is_some(), false);
    same(rt, locks.under(0, 3, b"a").is_some(), false);
    same(rt, locks.last(0), 1);
}

#[test]
fn a_lock_comes_and_goes(rt: HostRuntime) -> Result<(), LatticeError> {
    let lattice = lattice(rt.alloc())?;
    let mut locks = Locks::new(rt.alloc());
    same(&rt, begin(&mut locks, rt.alloc()).is_ok(), true);
    look(&rt, &lattice, &locks, 1);
    unlock(&rt, &lattice, &mut locks, rt.alloc());
    go(&rt, &mut locks, rt.alloc());
    Ok(())
}
