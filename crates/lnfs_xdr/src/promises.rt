//! What the calls of a reader and a writer have in common, for any bytes.
ghost use Rattle.std.specs.Prelude.{◌≢◌, ◌+◌, ◌<◌, ◌≤◌, length};
ghost use Rattle.std.specs.Int.{w32, w64};
ghost use Rattle.lnfs_xdr.specs.Format.{Word, Long, Boolean, Count, Fixed, Opaque, Raw, Spells, padding};
ghost use Rattle.lnfs_xdr.specs.Canon.{word, long, flag, padded, opaque};
ghost use Rattle.lnfs_xdr.specs.Reading.{number_at, boolean_at, count_at, padded_at, opaque_at, raw_at};
ghost use Rattle.lnfs_xdr.specs.Promises.{Accepts, Refused, LacksBytes, first_word};

/// When an item is refused, and for which cause.
pub fn refusals(bytes: &[u8], n: usize, max: u32)
    ensures word { Refused (number_at w32 bytes.now) (length bytes.now < 4) ⊥ ⊥ }
    ensures long { Refused (number_at w64 bytes.now) (length bytes.now < 8) ⊥ ⊥ }
    ensures boolean { Refused (boolean_at bytes.now)
        (length bytes.now < 4)
        ((4 ≤ length bytes.now) × (first_word bytes.now ≢ 0) × (first_word bytes.now ≢ 1)) ⊥ }
    ensures count { Refused (count_at max bytes.now)
        (length bytes.now < 4) ⊥ ((4 ≤ length bytes.now) × (max < first_word bytes.now)) }
    ensures fixed { Refused (padded_at n bytes.now) (length bytes.now < n + padding n) ⊥ ⊥ }
    ensures opaque { Refused (opaque_at max bytes.now)
        (LacksBytes max bytes.now) ⊥ ((4 ≤ length bytes.now) × (max < first_word bytes.now)) }
    ensures raw { Refused (raw_at n bytes.now) (length bytes.now < n) ⊥ ⊥ }
{}

/// An item is read exactly where one of its spellings stands at the front, whatever its pad bytes
/// are; what is left is what stands behind that spelling.
pub fn spellings(bytes: &[u8], n: usize, max: u32)
    ensures word { Accepts Word (number_at w32) bytes.now }
    ensures long { Accepts Long (number_at w64) bytes.now }
    ensures boolean { Accepts Boolean boolean_at bytes.now }
    ensures count { Accepts (Count max) (count_at max) bytes.now }
    ensures fixed { Accepts (Fixed n) (padded_at n) bytes.now }
    ensures opaque { Accepts (Opaque max) (opaque_at max) bytes.now }
    ensures raw { Accepts (Raw n) (raw_at n) bytes.now }
{}

/// What a writer appends is a spelling, so it is read again.
pub fn canonical(small: u32, large: u64, truth: bool, bytes: &[u8], max: u32)
    ensures word { Spells {E = ⊥} Word small (word small) }
    ensures long { Spells {E = ⊥} Long large (long large) }
    ensures boolean { Spells {E = ⊥} Boolean truth (flag truth) }
    ensures fixed { Spells {E = ⊥} (Fixed (length bytes.now)) bytes.now (padded bytes.now) }
    ensures opaque { length bytes.now ≤ max →
        Spells {E = ⊥} (Opaque max) bytes.now (opaque bytes.now) }
{}
