//! Laws of what is written.
ghost use Rattle.std.specs.Prelude.{◌≡◌, ◌≤◌, ℕ, List, Some, length};
ghost use Rattle.lnfs_xdr.specs.Message.{Tells};
ghost use Rattle.lnfs_world.specs.World.{World};
ghost use Rattle.lnfs_rows.specs.declared.lists.Lists.{Lists};
ghost use Rattle.lnfs_rows.specs.World.{AreOf, world_of};
ghost use Rattle.lnfs_locks.specs.Locks.{Locks};
ghost use Rattle.lnfs_lock_rows.specs.declared.LockRows.{LockRows};
ghost use Rattle.lnfs_lock_rows.specs.Told.{locks_told};
ghost use Rattle.lnfs_layout.specs.declared.numbers.TheConstants.{DIGEST, MOST_EVENTS};
ghost use Rattle.lnfs_layout.specs.Lasts.{AreEach, AreOfLevels};
ghost use Rattle.lnfs_layout.specs.Fits.{AreLongs, NumbersFit, LastsFit, WorldLastsFit, RowsFit, LockRowsFit};
ghost use Rattle.lnfs_layout.specs.Texts.{layout_text};
ghost use Rattle.lnfs_layout.specs.Whole.{Told, layout};

/// What is written is read again, as the same events, the same world and the same locks.
pub fn written()
    ensures lists { (levels : ℕ) (digest : List ℕ) (events : ℕ) (s : Lists) (rows : LockRows) →
        length digest ≡ DIGEST → events ≤ MOST_EVENTS →
        AreOf levels s.lasts → length rows.lasts.items ≡ levels →
        LastsFit s.lasts → AreLongs rows.lasts.items →
        RowsFit (world_of s) → LockRowsFit (locks_told rows) →
        Tells (layout levels digest)
        (Some (record { events = events; world = world_of s; locks = locks_told rows }))
        (layout_text levels digest events (world_of s) (locks_told rows)) }
    // So is each world, with locks beside it, whose last numbers are those of the levels, where all numbers have room.
    ensures world { (levels : ℕ) (digest : List ℕ) (events : ℕ) (w : World) (own : Locks) →
        length digest ≡ DIGEST → events ≤ MOST_EVENTS →
        AreOfLevels levels w.lasts → AreEach levels own.lasts →
        WorldLastsFit w.lasts → NumbersFit own.lasts → RowsFit w → LockRowsFit own →
        Tells (layout levels digest) (Some (record { events = events; world = w; locks = own }))
        (layout_text levels digest events w own) }
    // Bytes tell one state at most.
    ensures alone { (levels : ℕ) (digest bytes : List ℕ) (t u : Told) →
        Tells (layout levels digest) (Some t) bytes →
        Tells (layout levels digest) (Some u) bytes → t ≡ u }
{}
