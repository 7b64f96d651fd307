//! The readers of the operations on names and their attributes.
ghost use Rattle.lnfs_xdr.specs.Reading.{read};
ghost use Rattle.lnfs_xdr.specs.Cursor.{Parses};
ghost use Rattle.lnfs_arguments.specs.Parsing.{ParsesInMemory};
ghost use Rattle.lnfs_arguments.specs.Grammar.{name, access, what, create, getattr, link, lookup, remove, nverify, verify, setattr, putfh, readdir, rename};

use crate::attrs::attrs_of;
use crate::halt::Halt;
use crate::numbers::{HANDLE_LIMIT, LONG_LIMIT, OP_CREATE, TYPE_DIR, TYPE_LINK};
use crate::opaque::opaque_of;
use crate::stateid::state_id_of;
use crate::statuses::NFS4ERR_BADTYPE;
use crate::types::{Op, What};
use lnfs_attrs::read_bitmap;
use lnfs_types::Octets;
use lnfs_xdr::{XdrError, XdrReader};
use std::alloc::Global;

/// A name, of whatever bytes (`component4`).
pub fn name_of(alloc: Global, reader: &mut XdrReader<'_>) -> Result<Octets, Halt>
    ensures { ParsesInMemory (λ x. x) result reader.old reader.new (read name reader.old.rest) }
{
    opaque_of(alloc, reader, LONG_LIMIT)
}

/// The arguments of ACCESS (RFC 8881 section 18.1). An error where an item isn't there.
#[tactic(auto, unfolding(crate::specs::Grammar::access))]
pub fn access_of<'a>(reader: &mut XdrReader<'a>) -> Result<Op<'a>, XdrError>
    ensures { Parses (λ x. x) result reader.old reader.new (read access reader.old.rest) }
{
    let bits = reader.u32()?;
    Ok(Op::Access { bits })
}

#[tactic(auto, unfolding(crate::specs::Grammar::what))]
fn what_of(alloc: Global, reader: &mut XdrReader<'_>) -> Result<What, Halt>
    ensures { ParsesInMemory (λ x. x) result reader.old reader.new (read what reader.old.rest) }
{
    match reader.u32()? {
        TYPE_LINK => {
            let text = name_of(alloc, reader)?;
            Ok(What::Symlink { text })
        }
        TYPE_DIR => Ok(What::Dir),
        _ => Err(Halt::Outside {
            number: OP_CREATE,
            status: NFS4ERR_BADTYPE,
        }),
    }
}

/// The arguments of CREATE (RFC 8881 section 18.4). `Fault` where an item isn't there, `Outside`
/// where neither a directory nor a symbolic link is to be made.
#[tactic(auto, unfolding(crate::specs::Grammar::create))]
pub fn create_of<'a>(alloc: Global, reader: &mut XdrReader<'a>) -> Result<Op<'a>, Halt>
    ensures { ParsesInMemory (λ x. x) result reader.old reader.new (read create reader.old.rest) }
{
    let what = what_of(alloc, reader)?;
    let name = name_of(alloc, reader)?;
    let attrs = attrs_of(alloc, reader)?;
    Ok(Op::Create { what, name, attrs })
}

/// The arguments of GETATTR (RFC 8881 section 18.7). An error where an item isn't there.
#[tactic(auto, unfolding(crate::specs::Grammar::getattr))]
pub fn getattr_of<'a>(reader: &mut XdrReader<'a>) -> Result<Op<'a>, XdrError>
    ensures { Parses (λ x. x) result reader.old reader.new (read getattr reader.old.rest) }
{
    let asked = read_bitmap(reader)?;
    Ok(Op::GetAttr { asked })
}

/// The arguments of LINK (RFC 8881 section 18.9). `Fault` where an item isn't there.
#[tactic(auto, unfolding(crate::specs::Grammar::link))]
pub fn link_of<'a>(alloc: Global, reader: &mut XdrReader<'a>) -> Result<Op<'a>, Halt>
    ensures { ParsesInMemory (λ x. x) result reader.old reader.new (read link reader.old.rest) }
{
    let name = name_of(alloc, reader)?;
    Ok(Op::Link { name })
}

/// The arguments of LOOKUP (RFC 8881 section 18.13). `Fault` where an item isn't there.
#[tactic(auto, unfolding(crate::specs::Grammar::lookup))]
pub fn lookup_of<'a>(alloc: Global, reader: &mut XdrReader<'a>) -> Result<Op<'a>, Halt>
    ensures { ParsesInMemory (λ x. x) result reader.old reader.new (read lookup reader.old.rest) }
{
    let name = name_of(alloc, reader)?;
    Ok(Op::Lookup { name })
}

/// The arguments of REMOVE (RFC 8881 section 18.25). `Fault` where an item isn't there.
#[tactic(auto, unfolding(crate::specs::Grammar::remove))]
pub fn remove_of<'a>(alloc: Global, reader: &mut XdrReader<'a>) -> Result<Op<'a>, Halt>
    ensures { ParsesInMemory (λ x. x) result reader.old reader.new (read remove reader.old.rest) }
{
    let name = name_of(alloc, reader)?;
    Ok(Op::Remove { name })
}

/// The arguments of NVERIFY (RFC 8881 section 18.15). `Fault` where an item isn't there.
#[tactic(auto, unfolding(crate::specs::Grammar::nverify))]
pub fn nverify_of<'a>(alloc: Global, reader: &mut XdrReader<'a>) -> Result<Op<'a>, Halt>
    ensures { ParsesInMemory (λ x. x) result reader.old reader.new (read nverify reader.old.rest) }
{
    let attrs = attrs_of(alloc, reader)?;
    Ok(Op::NVerify { attrs })
}

/// The arguments of VERIFY (RFC 8881 section 18.31). `Fault` where an item isn't there.
#[tactic(auto, unfolding(crate::specs::Grammar::verify))]
pub fn verify_of<'a>(alloc: Global, reader: &mut XdrReader<'a>) -> Result<Op<'a>, Halt>
    ensures { ParsesInMemory (λ x. x) result reader.old reader.new (read verify reader.old.rest) }
{
    let attrs = attrs_of(alloc, reader)?;
    Ok(Op::Verify { attrs })
}

/// The arguments of SETATTR (RFC 8881 section 18.30). `Fault` where an item isn't there.
#[tactic(auto, unfolding(crate::specs::Grammar::setattr))]
pub fn setattr_of<'a>(alloc: Global, reader: &mut XdrReader<'a>) -> Result<Op<'a>, Halt>
    ensures { ParsesInMemory (λ x. x) result reader.old reader.new (read setattr reader.old.rest) }
{
    let id = state_id_of(reader)?;
    let attrs = attrs_of(alloc, reader)?;
    Ok(Op::SetAttr { id, attrs })
}

/// The arguments of PUTFH (RFC 8881 section 18.19). `Fault` where an item isn't there.
#[tactic(auto, unfolding(crate::specs::Grammar::putfh))]
pub fn putfh_of<'a>(alloc: Global, reader: &mut XdrReader<'a>) -> Result<Op<'a>, Halt>
    ensures { ParsesInMemory (λ x. x) result reader.old reader.new (read putfh reader.old.rest) }
{
    let handle = opaque_of(alloc, reader, HANDLE_LIMIT)?;
    Ok(Op::PutFh { handle })
}

/// The arguments of READDIR (RFC 8881 section 18.23). An error where an item isn't there.
#[tactic(auto, unfolding(crate::specs::Grammar::readdir))]
pub fn readdir_of<'a>(reader: &mut XdrReader<'a>) -> Result<Op<'a>, XdrError>
    ensures { Parses (λ x. x) result reader.old reader.new (read readdir reader.old.rest) }
{
    let cookie = reader.u64()?;
    let mut verifier = [0; 8];
    verifier.copy_from_slice(reader.fixed(8)?);
    let dircount = reader.u32()?;
    let maxcount = reader.u32()?;
    let asked = read_bitmap(reader)?;
    Ok(Op::ReadDir {
        cookie,
        verifier,
        dircount,
        maxcount,
        asked,
    })
}

/// The arguments of RENAME (RFC 8881 section 18.26). `Fault` where an item isn't there.
#[tactic(auto, unfolding(crate::specs::Grammar::rename))]
pub fn rename_of<'a>(alloc: Global, reader: &mut XdrReader<'a>) -> Result<Op<'a>, Halt>
    ensures { ParsesInMemory (λ x. x) result reader.old reader.new (read rename reader.old.rest) }
{
    let old = name_of(alloc, reader)?;
    let new = name_of(alloc, reader)?;
    Ok(Op::Rename { old, new })
}
