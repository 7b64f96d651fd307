ghost use Rattle.std.specs.Prelude.{◌≡◌, ◌++◌, OnOk, OnErr};
ghost use Rattle.lnfs_xdr.specs.Reading.{read};
ghost use Rattle.lnfs_xdr.specs.Written.{Extends};
ghost use Rattle.lnfs_xdr.specs.Cursor.{Parses};
ghost use Rattle.lnfs_arguments.specs.Shared.{channel};
ghost use Rattle.lnfs_arguments.specs.SharedTexts.{channel_text};

use lnfs_xdr::{XdrError, XdrReader, XdrWriter};
use std::alloc::AllocError;

/// The sizes of a session's channel (`channel_attrs4`, RFC 8881 section 18.36.1).
#[derive(Clone, Copy, Debug, PartialEq, Eq)]
pub struct Channel {
    pub headerpad: u32,
    /// The most bytes of a request.
    pub maxrequest: u32,
    /// The most bytes of a response.
    pub maxresponse: u32,
    /// The most bytes of a response that is kept.
    pub cached: u32,
    /// The most operations of a request.
    pub operations: u32,
    /// The most requests at a time.
    pub requests: u32,
    /// For RDMA alone.
    pub ird: Option<u32>,
}

/// The sizes of a channel (RFC 8881 section 18.36.1). An error where an item isn't there.
#[tactic(auto, unfolding(crate::specs::Shared::channel))]
pub fn channel_of(reader: &mut XdrReader<'_>) -> Result<Channel, XdrError>
    ensures { Parses (λ x. x) result reader.old reader.new (read channel reader.old.rest) }
{
    let headerpad = reader.u32()?;
    let maxrequest = reader.u32()?;
    let maxresponse = reader.u32()?;
    let cached = reader.u32()?;
    let operations = reader.u32()?;
    let requests = reader.u32()?;
    let ird = match reader.array_len(1)? {
        0 => None,
        _ => Some(reader.u32()?),
    };
    Ok(Channel {
        headerpad,
        maxrequest,
        maxresponse,
        cached,
        operations,
        requests,
        ird,
    })
}

#[tactic(auto, unfolding(crate::specs::SharedTexts::channel_text))]
fn put_sizes(out: &mut XdrWriter, x: &Channel) -> Result<(), AllocError>
    ensures ok { OnOk result (out.new ≡ out.old ++ channel_text x.now) }
    ensures err { OnErr result (Extends out.old out.new) }
{
    out.u32(x.headerpad)?;
    out.u32(x.maxrequest)?;
    out.u32(x.maxresponse)?;
    out.u32(x.cached)?;
    out.u32(x.operations)?;
    out.u32(x.requests)?;
    match x.ird {
        None => out.u32(0),
        Some(ird) => {
            out.u32(1)?;
            out.u32(ird)
        }
    }
}

/// Appends the sizes of a channel (RFC 8881 section 18.36.1). Without memory it appends nothing.
pub fn put_channel(out: &mut XdrWriter, x: &Channel) -> Result<(), AllocError>
    ensures ok { OnOk result (out.new ≡ out.old ++ channel_text x.now) }
    ensures err { OnErr result (out.new ≡ out.old) }
{
    let mark = out.mark();
    let done = put_sizes(out, x);
    if done.is_err() {
        out.truncate(mark);
    }
    done
}
