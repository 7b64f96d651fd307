ghost use Rattle.std.specs.Prelude.{◌≡◌, ◌++◌, ◌≤◌, length, OnOk, OnErr};
ghost use Rattle.lnfs_xdr.specs.Reading.{read};
ghost use Rattle.lnfs_arguments.specs.Parsing.{ParsesInMemory};
ghost use Rattle.lnfs_arguments.specs.Shared.{attrs};
ghost use Rattle.lnfs_arguments.specs.SharedTexts.{attrs_text};

use crate::halt::Halt;
use crate::numbers::LONG_LIMIT;
use lnfs_attrs::{RawAttrs, read_bitmap, write_bitmap};
use lnfs_types::Octets;
use lnfs_xdr::{XdrReader, XdrWriter};
use std::alloc::{AllocError, Global};

/// Attributes as they stand in a message (`fattr4`). `Fault` where the bitmap or the list isn't
/// there.
#[tactic(auto, unfolding(crate::specs::Shared::attrs))]
pub fn attrs_of(alloc: Global, reader: &mut XdrReader<'_>) -> Result<RawAttrs, Halt>
    ensures { ParsesInMemory (λ x. x) result reader.old reader.new (read attrs reader.old.rest) }
{
    let mask = read_bitmap(reader)?;
    let list = Octets::from_slice(alloc, reader.opaque(LONG_LIMIT)?)?;
    Ok(RawAttrs { mask, list })
}

/// Appends attributes as they stand in a message (`fattr4`). Without memory it appends nothing.
#[tactic(auto, unfolding(crate::specs::SharedTexts::attrs_text))]
pub fn put_attrs(out: &mut XdrWriter, attrs: &RawAttrs) -> Result<(), AllocError>
    requires { length attrs.now.list ≤ 65536 }
    ensures ok { OnOk result (out.new ≡ out.old ++ attrs_text attrs.now) }
    ensures err { OnErr result (out.new ≡ out.old) }
{
    let mark = out.mark();
    write_bitmap(&attrs.mask, out)?;
    if out.opaque(attrs.list.as_slice()).is_err() {
        out.truncate(mark);
        return Err(AllocError);
    }
    Ok(())
}
