//! What a signed reply says, behind its verifier: a databody and the parent's signature of it.
ghost use Rattle.std.specs.Prelude.{◌≤◌, option_map};
ghost use Rattle.lnfs_xdr.specs.Cursor.{Parses};
ghost use Rattle.lnfs_xdr.specs.Format.{Opaque};
ghost use Rattle.lnfs_xdr.specs.Message.{parse};
ghost use Rattle.lnfs_answers.specs.Replies.{body, inner, wrapped};
ghost use Rattle.lnfs_answers.specs.Promises.{Hears, seen_wants, such_at};

use crate::content::{closed, content_of};
use crate::request::{Heard, Request, Wants};
use lnfs_arguments::Halt;
use lnfs_gss3::Mechanism;
use lnfs_policy::Parent;
use lnfs_types::RECORD_LIMIT;
use lnfs_xdr::{XdrError, XdrReader};
use std::alloc::Global;

/// The sequence number of the request, and what is said.
#[tactic(auto, unfolding(crate::specs::Replies::inner))]
fn inner_of(
    alloc: Global,
    xid: u32,
    wants: &Wants<'_>,
    reader: &mut XdrReader<'_>,
) -> Result<Heard, Halt>
    ensures { Hears result reader.old reader.new
        (parse (inner xid (seen_wants wants.now)) reader.old.rest) }
{
    reader.constant(xid)?;
    content_of(alloc, wants, reader)
}

/// The parent's signature of a databody.
fn checksum_of<'a, M: Mechanism>(
    mechanism: &M,
    parent: &Parent,
    databody: &[u8],
    reader: &mut XdrReader<'a>,
) -> Result<&'a [u8], XdrError>
    ensures { Parses (λ v. v.now) result reader.old reader.new
        (such_at (Opaque RECORD_LIMIT)
        (λ checksum. M.signing.good parent.now databody.now checksum) reader.old.rest) }
{
    let found = XdrReader::new(reader.rest()).opaque(RECORD_LIMIT)?;
    if !mechanism.check(parent, databody, found) {
        return Err(XdrError::BadBool);
    }
    reader.opaque(RECORD_LIMIT)
}

/// A databody and its signature, which nothing follows. `base` is the offset of the databody's
/// bytes. A fault inside of them comes before the signature, wherever it is.
#[tactic(auto, using(crate::proofs::Such::such_parse), unfolding(crate::specs::Replies::wrapped))]
fn wrapped_of<M: Mechanism>(
    alloc: Global,
    mechanism: &M,
    parent: &Parent,
    base: usize,
    request: &Request<'_>,
    reader: &mut XdrReader<'_>,
) -> Result<Heard, Halt>
    requires { base ≤ 1024 }
    ensures { Hears result reader.old reader.new
        (parse (wrapped M.signing parent.now base request.now.xid (seen_wants request.now.wants))
        reader.old.rest) }
{
    let databody = reader.opaque(RECORD_LIMIT)?;
    let mut inside = XdrReader::new(databody);
    match inner_of(alloc, request.xid, &request.wants, &mut inside) {
        Ok(heard) => {
            checksum_of(mechanism, parent, databody, reader)?;
            closed(reader, heard)
        }
        Err(Halt::Memory) => Err(Halt::Memory),
        Err(_) => Ok(Heard::Bad {
            at: base + inside.at(),
        }),
    }
}

/// What follows `accept_stat`: it is signed where the request was, but for the end of a context.
pub fn body_of<M: Mechanism>(
    alloc: Global,
    mechanism: &M,
    base: usize,
    request: &Request<'_>,
    reader: &mut XdrReader<'_>,
) -> Result<Heard, Halt>
    requires { base ≤ 1024 }
    ensures { Hears result reader.old reader.new
        (parse (body M.signing (option_map (λ p. p.now) request.now.signer) base request.now.xid
        (seen_wants request.now.wants)) reader.old.rest) }
{
    let Some(parent) = request.signer else {
        return content_of(alloc, &request.wants, reader);
    };
    match request.wants {
        Wants::End => content_of(alloc, &request.wants, reader),
        Wants::Results { .. } | Wants::Context { .. } => {
            wrapped_of(alloc, mechanism, parent, base, request, reader)
        }
    }
}
