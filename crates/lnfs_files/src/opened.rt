//! What an OPEN answers.
ghost use Rattle.std.specs.Prelude.{◌≡◌, ◌==◌, ◌&&◌};
ghost use Rattle.lnfs_world.specs.World.{Node, Open};
ghost use Rattle.lnfs_attrs.specs.declared.numbers.TheConstants.{SIZE};
ghost use Rattle.lnfs_attrs.specs.Bitmaps.{BitmapFits};
ghost use Rattle.lnfs_operations.specs.NewNames.{unchanged};
ghost use Rattle.lnfs_operations.specs.Shown.{bitmap_of};
ghost use Rattle.lnfs_operations.specs.StateIds.{state_of};
ghost use Rattle.lnfs_operations.specs.Open as operation;
ghost use Rattle.lnfs_open.specs.Opening.{Names};

use lnfs_arguments::{Cinfo, StateId};
use lnfs_attrs::Bitmap;
use lnfs_attrs::numbers::SIZE;
use lnfs_nodes::{Held, handle_of};
use lnfs_open::OpenRef;
use lnfs_tree::NodeId;

/// A file that was opened.
#[derive(Clone, Copy, Debug)]
pub struct Opened {
    pub id: StateId,
    /// The file, which becomes the current file handle.
    pub node: NodeId,
    /// The change numbers of the directory that was looked into, if one was.
    pub info: Cinfo,
    /// The attributes that were set.
    pub set: Bitmap,
}

/// The state id of an open.
pub fn state_id_of(id: OpenRef) -> StateId
    ensures { (o : Open) → Names id o → result ≡ state_of o }
{
    // Its level and its number are spelled like those of a file handle.
    let spelled = NodeId {
        home: id.level,
        number: id.number,
    };
    StateId {
        seqid: id.seq,
        other: handle_of(spelled),
    }
}

/// The change numbers of a directory that was looked into.
pub fn unchanged(dir: &Held) -> Cinfo
    ensures { (d : Node) → dir.now.facts.change ≡ d.inner.change → result ≡ unchanged d }
{
    Cinfo {
        before: dir.facts.change,
        after: dir.facts.change,
    }
}

/// No directory was looked into.
pub fn no_change() -> Cinfo
    ensures { result ≡ operation.no_change }
{
    Cinfo {
        before: 0,
        after: 0,
    }
}

/// The words of a bitmap are words.
pub fn law_words(_set: Bitmap)
    ensures { BitmapFits _set }
{}

/// The size alone, where a file was cut.
pub fn cut_set(sized: bool) -> Bitmap
    ensures { result ≡ bitmap_of (λ attr. sized && attr == SIZE) }
{
    let mut set = Bitmap::empty();
    if sized {
        set.insert(SIZE);
    }
    law_words(set);
    set
}
