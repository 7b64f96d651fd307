//! What holds of attributes, whatever is asked and shown.
ghost use Rattle.std.specs.Prelude.{◌≤◌, Bool, length};
ghost use Rattle.lnfs_attrs.specs.Bitmaps.{BitmapFits};
ghost use Rattle.lnfs_attrs.specs.Attributes.{AllAsked, is_listed, is_settable, list_text};
ghost use Rattle.lnfs_attrs.specs.Sizes.{IsNarrow, ViewFits, IsAnswer};
ghost use Rattle.lnfs_attrs.specs.declared.bitmap.Bitmap.{Bitmap};
ghost use Rattle.lnfs_attrs.specs.declared.raw.RawAttrs.{RawAttrs};
ghost use Rattle.lnfs_attrs.specs.declared.view.View.{View};

/// A bitmap of attributes of the table, or of those that can be set, has at most three words. The
/// values of all attributes have at most 1,248 bytes: 212, and a label of 1,024 with 12 bytes
/// before it.
pub fn sizes()
    ensures listed { (b : Bitmap) → BitmapFits b → AllAsked b is_listed → IsNarrow b }
    ensures settable { (b : Bitmap) → BitmapFits b → AllAsked b is_settable → IsNarrow b }
    ensures values { (asked : Bitmap) (v : View) (inner : Bool) → ViewFits v →
        length (list_text asked v inner) ≤ 1248 }
    ensures answer { (a : RawAttrs) → IsAnswer a → IsNarrow a.mask × (length a.list ≤ 1248) }
{}
