//! Names (RFC 8881 section 14.4).
ghost use Rattle.std.specs.Prelude.{◌≡◌};
ghost use Rattle.std.specs.Str.{is_utf8};
ghost use Rattle.lnfs_operations.specs.Names.{has_bad_byte, is_dots};
ghost use Rattle.lnfs_nodes.specs.Refusals.{name_refusal};

use lnfs_arguments::statuses::{
    NFS4ERR_BADCHAR, NFS4ERR_BADNAME, NFS4ERR_INVAL, NFS4ERR_NAMETOOLONG,
};
use lnfs_operations::numbers::LONGEST_NAME;

fn has_bad_byte(name: &[u8]) -> bool
    ensures { result ≡ has_bad_byte name.now }
{
    name.iter().any(|byte| *byte == b'/' || *byte == 0)
}

fn is_dots(name: &[u8]) -> bool
    ensures { result ≡ is_dots name.now }
{
    name == b".".as_slice() || name == b"..".as_slice()
}

fn is_utf8(name: &[u8]) -> bool
    ensures { result ≡ is_utf8 name.now }
{
    str::from_utf8(name).is_ok()
}

/// The status that refuses a name, if one does. In this order: NFS4ERR_INVAL of none, NFS4ERR_NAMETOOLONG above 255
/// bytes, NFS4ERR_INVAL of bytes that are no UTF-8, NFS4ERR_BADCHAR of a slash or a zero byte, NFS4ERR_BADNAME of `.`
/// and `..`.
pub(crate) fn name_refusal(name: &[u8]) -> Option<u32>
    ensures { result ≡ name_refusal name.now }
{
    if name.is_empty() {
        return Some(NFS4ERR_INVAL);
    }
    if name.len() > LONGEST_NAME as usize {
        return Some(NFS4ERR_NAMETOOLONG);
    }
    if !is_utf8(name) {
        return Some(NFS4ERR_INVAL);
    }
    if has_bad_byte(name) {
        return Some(NFS4ERR_BADCHAR);
    }
    if is_dots(name) {
        return Some(NFS4ERR_BADNAME);
    }
    None
}
