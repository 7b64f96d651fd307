//! Which attributes are answered, of those that are asked of nodes.
ghost use Rattle.std.specs.Prelude.{◌≡◌, ◌&&◌, ◌*◌, ℕ, true, false, length};
ghost use Rattle.lnfs_attrs.specs.declared.view.View.{View};
ghost use Rattle.lnfs_attrs.specs.Attributes.{is_listed, list_text};
ghost use Rattle.lnfs_attrs.specs.Bitmaps.{has_attr, BitmapFits};
ghost use Rattle.lnfs_attrs.specs.Sizes.{ViewFits};
ghost use Rattle.lnfs_operations.specs.Shown.{asks_inner};
ghost use Rattle.lnfs_nodes.specs.Masks.{answered_mask, is_sized};

use crate::units::units_of;
use lnfs_attrs::{Bitmap, answered, asks_inner};

/// The words of the attributes of the table whose values have one size for all nodes: all but sec_label.
const SIZED_WORDS: [u32; 3] = [0x00180fff, 0x00b0817a, 0x00000800];

/// The attributes that are answered of a node.
#[derive(Clone, Copy, Debug)]
pub struct Answered {
    pub mask: Bitmap,
    /// Those of them whose values have one size for all nodes: all but sec_label.
    pub sized: Bitmap,
    /// The size of these values in units of four bytes (RFC 4506 section 3).
    pub units: u32,
    ghost sized_is: { (n : ℕ) → has_attr sized n ≡ (is_listed n && is_sized mask n) },
    ghost units_is: { (v : View) → ViewFits v → length (list_text sized v true) ≡ 4 * units },
}

/// What is asked of each of many nodes, and what follows from that alone.
#[derive(Clone, Copy, Debug)]
pub struct Asking<'a> {
    pub asked: &'a Bitmap,
    /// Whether inner attributes are asked.
    pub inner: bool,
    /// What is answered of a node whose inner attributes are shown.
    pub whole: Answered,
    /// What is answered of another node.
    pub outer: Answered,
    ghost inner_is: { inner ≡ asks_inner asked.now },
    ghost whole_is: { whole.mask ≡ answered_mask asked.now true },
    ghost outer_is: { outer.mask ≡ answered_mask asked.now false },
}

impl<'a> Asking<'a> {
    /// What follows from what is asked.
    pub fn new(asked: &'a Bitmap) -> Asking<'a>
        ensures { result.asked.now ≡ asked.now }
    {
        let inner = asks_inner(asked);
        let whole = answered_to(asked, true);
        let outer = outer_of(asked, inner, &whole);
        Asking {
            asked,
            inner,
            whole,
            outer,
        }
    }

    /// What is answered of a node with the inner attributes or without them.
    pub fn answered(&self, inner: bool) -> &Answered
        ensures { result.now.mask ≡ answered_mask self.now.asked.now inner }
    {
        if inner { &self.whole } else { &self.outer }
    }
}

/// A bitmap has eight words of 32 bits.
pub fn law_whole(_mask: Bitmap)
    ensures { BitmapFits _mask }
{}

/// Those of the attributes asked that the server has, without the inner ones where these aren't allowed.
fn mask_of(asked: &Bitmap, inner: bool) -> Bitmap
    ensures { result ≡ answered_mask asked.now inner }
{
    let mask = answered(asked, inner);
    law_whole(mask);
    mask
}

/// Those attributes of a set whose values have one size for all nodes.
fn sized_of(mask: &Bitmap) -> Bitmap
    ensures { (n : ℕ) → has_attr result n ≡ (is_listed n && is_sized mask.now n) }
{
    mask.both(&Bitmap::of_words(SIZED_WORDS))
}

/// What is answered of a node with the inner attributes or without them.
pub fn answered_to(asked: &Bitmap, inner: bool) -> Answered
    ensures { result.mask ≡ answered_mask asked.now inner }
{
    let mask = mask_of(asked, inner);
    let sized = sized_of(&mask);
    let units = units_of(&sized);
    Answered { mask, sized, units }
}

/// What is answered of a node whose inner attributes aren't shown: the whole, where none of them is asked.
fn outer_of(asked: &Bitmap, inner: bool, whole: &Answered) -> Answered
    requires asks { inner ≡ asks_inner asked.now }
    requires whole { whole.now.mask ≡ answered_mask asked.now true }
    ensures { result.mask ≡ answered_mask asked.now false }
{
    if inner {
        answered_to(asked, false)
    } else {
        *whole
    }
}
