//! The arguments of an operation, from its bytes.
ghost use Rattle.lnfs_xdr.specs.Reading.{read};
ghost use Rattle.lnfs_locks.specs.Arguments.{lock_args, lockt_args, locku_args};
ghost use Rattle.lnfs_lock_args.specs.Values.{lock_args_of, lockt_args_of, locku_args_of};
ghost use Rattle.lnfs_lock_args.specs.Parsing.{Reads};

use crate::blocks::{lock_of, lockt_of, locku_of};
use crate::values::{LockArgs, LockTArgs, LockUArgs};
use lnfs_xdr::{XdrError, XdrReader};

/// The arguments of LOCK that the bytes begin with (RFC 8881 section 18.10.1), whatever follows. An error where an item isn't
/// there.
pub fn read_lock(args: &[u8]) -> Result<LockArgs<'_>, XdrError>
    ensures { Reads lock_args_of result (read lock_args args.now) }
{
    lock_of(&mut XdrReader::new(args))
}

/// The arguments of LOCKT that the bytes begin with (RFC 8881 section 18.11.1), whatever follows. An error where an item isn't
/// there.
pub fn read_lockt(args: &[u8]) -> Result<LockTArgs<'_>, XdrError>
    ensures { Reads lockt_args_of result (read lockt_args args.now) }
{
    lockt_of(&mut XdrReader::new(args))
}

/// The arguments of LOCKU that the bytes begin with (RFC 8881 section 18.12.1), whatever follows. An error where an item isn't
/// there.
pub fn read_locku(args: &[u8]) -> Result<LockUArgs, XdrError>
    ensures { Reads locku_args_of result (read locku_args args.now) }
{
    locku_of(&mut XdrReader::new(args))
}
