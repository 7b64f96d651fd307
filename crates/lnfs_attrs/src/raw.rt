use crate::bitmap::Bitmap;
use lnfs_types::Octets;

/// Attributes as they stand in a message (`fattr4`, RFC 8881 section 3.3.7): which ones, and the
/// bytes of their values.
#[derive(Debug, Drop)]
pub struct RawAttrs {
    pub mask: Bitmap,
    pub list: Octets,
}
