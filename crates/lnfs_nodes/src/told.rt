//! What the tree tells of a change, as it is answered.
ghost use Rattle.std.specs.Prelude.{◌≡◌};
ghost use Rattle.lnfs_nodes.specs.Told.{cinfo_of};

use lnfs_arguments::Cinfo;
use lnfs_tree::Info;

/// The change numbers of a directory that was changed.
pub fn cinfo(info: Info) -> Cinfo
    ensures { result ≡ cinfo_of info }
{
    Cinfo {
        before: info.before,
        after: info.after,
    }
}
