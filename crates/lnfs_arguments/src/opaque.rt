//! Bytes behind their number.
ghost use Rattle.std.specs.Prelude.{◌≤◌};
ghost use Rattle.lnfs_xdr.specs.Format.{Opaque};
ghost use Rattle.lnfs_xdr.specs.Reading.{read};
ghost use Rattle.lnfs_arguments.specs.Parsing.{ParsesInMemory};

use crate::halt::Halt;
use lnfs_types::Octets;
use lnfs_xdr::XdrReader;
use std::alloc::Global;

/// An `opaque` of at most so many bytes (RFC 4506 section 4.10). `Fault` where it isn't there.
pub fn opaque_of(alloc: Global, reader: &mut XdrReader<'_>, limit: u32) -> Result<Octets, Halt>
    requires { limit ≤ 16777216 }
    ensures { ParsesInMemory (λ x. x) result reader.old reader.new
        (read (Opaque limit) reader.old.rest) }
{
    Ok(Octets::from_slice(alloc, reader.opaque(limit)?)?)
}
