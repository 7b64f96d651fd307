ghost use Rattle.std.specs.Prelude.{◌≡◌, ◌==◌, ◌&&◌, ◌++◌, ◌≤◌, ◌<◌, ◌↔◌, ℕ, IsTrue, true, length, slice_index, All, OnOk, OnErr};
ghost use Rattle.lnfs_types.specs.declared.limits.TheConstants.{LABEL_LIMIT};
ghost use Rattle.lnfs_xdr.specs.Written.{Extends};
ghost use Rattle.lnfs_xdr.specs.Canon.{word, long};
ghost use Rattle.std.specs.List.{list_any, flat_map};
ghost use Rattle.lnfs_attrs.specs.Bitmaps.{has_attr};
ghost use Rattle.lnfs_attrs.specs.Attributes.{table, inner_in, is_listed, is_inner, value_of, AllAsked, is_answered, attr_text, list_text, moment_text, label_text};

use crate::bitmap::Bitmap;
use crate::numbers::{
    CHANGE, FH_EXPIRE_TYPE, FILEHANDLE, FILEID, FSID, INNER, LEASE_TIME, LINK_SUPPORT, LISTED,
    MODE, MOUNTED_ON_FILEID, NAMED_ATTR, NOBODY, NUMLINKS, OUTER_WORDS, OWNER, OWNER_GROUP,
    QUOTA_AVAIL_HARD, QUOTA_USED, RDATTR_ERROR, SEC_LABEL, SETTABLE_WORDS, SIZE,
    SUPPATTR_EXCLCREAT, SUPPORTED_ATTRS, SUPPORTED_WORDS, SYMLINK_SUPPORT, TIME_ACCESS,
    TIME_METADATA, TIME_MODIFY, TYPE, UNIQUE_HANDLES,
};
use crate::view::{LabelValue, Moment, View};
use lnfs_types::LEASE;
use lnfs_xdr::XdrWriter;
use std::alloc::AllocError;

#[tactic(auto, unfolding(crate::specs::Attributes::is_inner))]
fn inner(number: u32) -> bool
    ensures { result ≡ is_inner number }
{
    INNER.contains(&number)
}

/// Whether every attribute that is asked is in the table.
pub fn supported(asked: &Bitmap) -> bool
    ensures { IsTrue result ↔ AllAsked asked.now is_listed }
{
    asked.is_within(&Bitmap::of_words(SUPPORTED_WORDS))
}

/// Whether an inner attribute is asked.
pub fn asks_inner(asked: &Bitmap) -> bool
    ensures { result ≡ list_any (λ n. has_attr asked.now n) (inner_in table) }
{
    asked.has(CHANGE)
        || asked.has(SIZE)
        || asked.has(MODE)
        || asked.has(NUMLINKS)
        || asked.has(TIME_ACCESS)
        || asked.has(TIME_METADATA)
        || asked.has(TIME_MODIFY)
}

fn put_moment(out: &mut XdrWriter, moment: &Moment) -> Result<(), AllocError>
    ensures ok { OnOk result (out.new ≡ out.old ++ moment_text moment.now) }
    ensures err { OnErr result (Extends out.old out.new) }
{
    out.u64(moment.secs)?;
    out.u32(moment.nanos)
}

fn put_label(out: &mut XdrWriter, label: &LabelValue) -> Result<(), AllocError>
    requires { length label.now.bytes ≤ LABEL_LIMIT }
    ensures ok { OnOk result (out.new ≡ out.old ++ label_text label.now) }
    ensures err { OnErr result (Extends out.old out.new) }
{
    out.u32(label.lfs)?;
    out.u32(label.pi)?;
    out.opaque(label.bytes.as_slice())
}

/// A bitmap of three words.
fn put_three(out: &mut XdrWriter, words: [u32; 3]) -> Result<(), AllocError>
    ensures ok { OnOk result (out.new ≡ out.old ++ (word 3 ++ word (slice_index words 0)
        ++ word (slice_index words 1) ++ word (slice_index words 2))) }
    ensures err { OnErr result (Extends out.old out.new) }
{
    out.u32(3)?;
    out.u32(words[0])?;
    out.u32(words[1])?;
    out.u32(words[2])
}

fn put_fsid(out: &mut XdrWriter) -> Result<(), AllocError>
    ensures ok { OnOk result (out.new ≡ out.old ++ (long 0 ++ long 0)) }
    ensures err { OnErr result (Extends out.old out.new) }
{
    out.u64(0)?;
    out.u64(0)
}

/// The value of an attribute. Outside of the table there is none.
#[tactic(auto, unfolding(crate::specs::Attributes::value_of))]
fn put_value(out: &mut XdrWriter, number: u32, view: &View) -> Result<(), AllocError>
    requires { length view.now.label.bytes ≤ LABEL_LIMIT }
    ensures ok { OnOk result (out.new ≡ out.old ++ value_of number view.now) }
    ensures err { OnErr result (Extends out.old out.new) }
{
    match number {
        SUPPORTED_ATTRS => put_three(out, SUPPORTED_WORDS),
        TYPE => out.u32(view.kind),
        FH_EXPIRE_TYPE => out.u32(0),
        CHANGE => out.u64(view.change),
        SIZE => out.u64(view.size),
        LINK_SUPPORT => out.u32(1),
        SYMLINK_SUPPORT => out.u32(1),
        NAMED_ATTR => out.u32(0),
        FSID => put_fsid(out),
        UNIQUE_HANDLES => out.u32(1),
        LEASE_TIME => out.u32(LEASE),
        RDATTR_ERROR => out.u32(view.error),
        FILEHANDLE => out.opaque(&view.handle),
        FILEID => out.u64(view.fileid),
        MODE => out.u32(view.mode),
        NUMLINKS => out.u32(view.links),
        OWNER => out.opaque(&NOBODY),
        OWNER_GROUP => out.opaque(&NOBODY),
        QUOTA_AVAIL_HARD => out.u64(view.avail),
        QUOTA_USED => out.u64(view.used),
        TIME_ACCESS => put_moment(out, &view.access),
        TIME_METADATA => put_moment(out, &view.metadata),
        TIME_MODIFY => put_moment(out, &view.modify),
        MOUNTED_ON_FILEID => out.u64(view.fileid),
        SUPPATTR_EXCLCREAT => put_three(out, SETTABLE_WORDS),
        SEC_LABEL => put_label(out, &view.label),
        _ => Ok(()),
    }
}

/// Whether an attribute is answered: it is asked, and inner only where that is allowed.
fn answers(asked: &Bitmap, allowed: bool, number: u32) -> bool
    ensures { result ≡ is_answered asked.now allowed number }
{
    asked.has(number) && (allowed || !inner(number))
}

/// The attributes whose values `write_attrs` writes.
pub fn answered(asked: &Bitmap, inner: bool) -> Bitmap
    ensures { (n : ℕ) → has_attr result n ≡ (is_listed n && is_answered asked.now inner n) }
{
    if inner {
        asked.both(&Bitmap::of_words(SUPPORTED_WORDS))
    } else {
        asked.both(&Bitmap::of_words(OUTER_WORDS))
    }
}

/// The value of an attribute, where it is answered.
#[tactic(auto, unfolding(crate::specs::Attributes::attr_text))]
fn put_attr(
    out: &mut XdrWriter,
    asked: &Bitmap,
    view: &View,
    inner: bool,
    number: u32,
) -> Result<(), AllocError>
    requires { length view.now.label.bytes ≤ LABEL_LIMIT }
    ensures ok { OnOk result (out.new ≡ out.old ++ attr_text asked.now view.now inner number) }
    ensures err { OnErr result (Extends out.old out.new) }
{
    if answers(asked, inner, number) {
        put_value(out, number, view)?;
    }
    Ok(())
}

fn put_all(
    out: &mut XdrWriter,
    asked: &Bitmap,
    view: &View,
    inner: bool,
    numbers: &[u32],
) -> Result<(), AllocError>
    requires { length view.now.label.bytes ≤ LABEL_LIMIT }
    ensures ok { OnOk result (out.new ≡ out.old ++ flat_map (attr_text asked.now view.now inner)
        numbers.now) }
    ensures err { OnErr result (Extends out.old out.new) }
{
    for number in numbers {
        put_attr(out, asked, view, inner, *number)?;
    }
    Ok(())
}

/// Appends the values of the attributes of the table that are asked, in the table's order, and
/// without the inner ones where `inner` is false. Attributes outside of the table are left out.
/// Without memory it appends nothing.
#[tactic(auto, unfolding(crate::specs::Attributes::list_text))]
pub fn write_attrs(
    asked: &Bitmap,
    view: &View,
    inner: bool,
    out: &mut XdrWriter,
) -> Result<(), AllocError>
    requires { length view.now.label.bytes ≤ LABEL_LIMIT }
    ensures ok { OnOk result (out.new ≡ out.old ++ list_text asked.now view.now inner) }
    ensures err { OnErr result (out.new ≡ out.old) }
{
    let mark = out.mark();
    let done = put_all(out, asked, view, inner, &LISTED);
    if done.is_err() {
        out.truncate(mark);
    }
    done
}
