//! The arguments of an operation, from its bytes.
ghost use Rattle.lnfs_xdr.specs.Reading.{read};
ghost use Rattle.lnfs_sparse_ops.specs.Arguments.{region_args, seek_args, clone_args};
ghost use Rattle.lnfs_sparse_args.specs.Values.{region_args_of, seek_args_of, clone_args_of};
ghost use Rattle.lnfs_sparse_args.specs.Parsing.{Reads};

use crate::blocks::{clone_of, region_of, seek_of};
use crate::values::{CloneArgs, RegionArgs, SeekArgs};
use lnfs_xdr::{XdrError, XdrReader};

/// The arguments of ALLOCATE, or of DEALLOCATE, that the bytes begin with (RFC 7862 sections 15.1.1 and 15.4.1), whatever follows.
/// An error where an item isn't there.
pub fn read_region(args: &[u8]) -> Result<RegionArgs, XdrError>
    ensures { Reads region_args_of result (read region_args args.now) }
{
    region_of(&mut XdrReader::new(args))
}

/// The arguments of SEEK that the bytes begin with (RFC 7862 section 15.11.1), whatever follows. An error where an item isn't
/// there.
pub fn read_seek(args: &[u8]) -> Result<SeekArgs, XdrError>
    ensures { Reads seek_args_of result (read seek_args args.now) }
{
    seek_of(&mut XdrReader::new(args))
}

/// The arguments of CLONE that the bytes begin with (RFC 7862 section 15.13.1), whatever follows. An error where an item isn't
/// there.
pub fn read_clone(args: &[u8]) -> Result<CloneArgs, XdrError>
    ensures { Reads clone_args_of result (read clone_args args.now) }
{
    clone_of(&mut XdrReader::new(args))
}
