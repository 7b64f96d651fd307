//! The sizes of the values of attributes in units of four bytes (RFC 4506 section 3).
ghost use Rattle.std.specs.Prelude.{◌≡◌, ◌≤◌, ◌*◌, false, true, length};
ghost use Rattle.std.specs.List.{flat_map};
ghost use Rattle.lnfs_types.specs.declared.limits.TheConstants.{LABEL_LIMIT};
ghost use Rattle.lnfs_attrs.specs.declared.view.View.{View};
ghost use Rattle.lnfs_attrs.specs.declared.numbers.TheConstants.{SEC_LABEL};
ghost use Rattle.lnfs_attrs.specs.Attributes.{attr_text, list_text, label_text};
ghost use Rattle.lnfs_attrs.specs.Bitmaps.{has_attr};
ghost use Rattle.lnfs_attrs.specs.Sizes.{ViewFits};
ghost use Rattle.lnfs_operations.specs.Shown.{label_value};
ghost use Rattle.lnfs_world.specs.Given.{stored_of};
ghost use Rattle.lnfs_nodes.specs.Units.{units_at};

use lnfs_attrs::Bitmap;
use lnfs_attrs::numbers::{
    CHANGE, FH_EXPIRE_TYPE, FILEHANDLE, FILEID, FSID, LEASE_TIME, LINK_SUPPORT, LISTED, MODE,
    MOUNTED_ON_FILEID, NAMED_ATTR, NUMLINKS, OWNER, OWNER_GROUP, QUOTA_AVAIL_HARD, QUOTA_USED,
    RDATTR_ERROR, SIZE, SUPPATTR_EXCLCREAT, SUPPORTED_ATTRS, SYMLINK_SUPPORT, TIME_ACCESS,
    TIME_METADATA, TIME_MODIFY, TYPE, UNIQUE_HANDLES,
};
use lnfs_world::Stored;

/// The bytes of a unit.
pub const UNIT: u32 = 4;

/// An unsigned integer or a boolean, and the length before bytes.
const WORD: u32 = 1;
/// An unsigned hyper integer.
const LONG: u32 = 2 * WORD;
/// A time: seconds and nanoseconds.
const TIME: u32 = LONG + WORD;
/// The length of `nobody`, and its six bytes.
const NAME: u32 = WORD + 2;
/// The number of words of a bitmap, and three words.
const MASK: u32 = 4 * WORD;
/// The length of a file handle, and its twelve bytes.
const HANDLE: u32 = WORD + 3;
/// What stands before the bytes of a label: its format, the policy identifier, and the length.
const LABEL_HEAD: u32 = 3 * WORD;

/// The size of the value of an attribute, which is the same for all nodes; 0 where there is none.
#[tactic(auto, unfolding(crate::specs::Units::units_at))]
fn value_units(number: u32) -> u32
    ensures units { result ≡ units_at number }
    ensures most { result ≤ 4 }
{
    match number {
        SUPPORTED_ATTRS => MASK,
        TYPE => WORD,
        FH_EXPIRE_TYPE => WORD,
        CHANGE => LONG,
        SIZE => LONG,
        LINK_SUPPORT => WORD,
        SYMLINK_SUPPORT => WORD,
        NAMED_ATTR => WORD,
        FSID => 2 * LONG,
        UNIQUE_HANDLES => WORD,
        LEASE_TIME => WORD,
        RDATTR_ERROR => WORD,
        FILEHANDLE => HANDLE,
        FILEID => LONG,
        MODE => WORD,
        NUMLINKS => WORD,
        OWNER => NAME,
        OWNER_GROUP => NAME,
        QUOTA_AVAIL_HARD => LONG,
        QUOTA_USED => LONG,
        TIME_ACCESS => TIME,
        TIME_METADATA => TIME,
        TIME_MODIFY => TIME,
        MOUNTED_ON_FILEID => LONG,
        SUPPATTR_EXCLCREAT => MASK,
        _ => 0,
    }
}

/// The size of the value of an attribute, where it is in a set without sec_label.
#[tactic(auto, unfolding(lnfs_attrs::specs::Attributes::attr_text))]
fn attr_units(sized: &Bitmap, number: u32) -> u32
    requires { has_attr sized.now SEC_LABEL ≡ false }
    ensures units { (v : View) → ViewFits v →
        length (attr_text sized.now v true number) ≡ 4 * result }
    ensures most { result ≤ 4 }
{
    if !sized.has(number) {
        return 0;
    }
    value_units(number)
}

/// The size of the values of those of some attributes that are in a set without sec_label.
fn units_among(sized: &Bitmap, numbers: &[u32]) -> u32
    requires unlabelled { has_attr sized.now SEC_LABEL ≡ false }
    requires few { length numbers.now ≤ 256 }
    ensures { (v : View) → ViewFits v →
        length (flat_map (attr_text sized.now v true) numbers.now) ≡ 4 * result }
{
    let mut units = 0;
    for number in numbers {
        units += attr_units(sized, *number);
    }
    units
}

/// The size of the values of a set without sec_label.
#[tactic(auto, unfolding(lnfs_attrs::specs::Attributes::list_text))]
pub fn units_of(sized: &Bitmap) -> u32
    requires { has_attr sized.now SEC_LABEL ≡ false }
    ensures { (v : View) → ViewFits v → length (list_text sized.now v true) ≡ 4 * result }
{
    units_among(sized, &LISTED)
}

/// The size of the value of sec_label.
pub fn label_units(label: &Stored) -> u32
    requires { length label.now.bytes ≤ LABEL_LIMIT }
    ensures units { length (label_text (label_value (stored_of label.now))) ≡ 4 * result }
    ensures most { result ≤ 259 }
{
    LABEL_HEAD + (label.bytes.len() as u32).div_ceil(UNIT)
}
