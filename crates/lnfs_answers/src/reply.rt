//! A whole record, heard as what it is to a request.
ghost use Rattle.std.specs.Prelude.{◌≡◌, ◌≤◌, length, option_map, IfOk};
ghost use Rattle.lnfs_xdr.specs.Cursor.{Parses};
ghost use Rattle.lnfs_xdr.specs.Message.{parse};
ghost use Rattle.lnfs_xdr.specs.Reading.{read};
ghost use Rattle.lnfs_rpc.specs.Calls.{auth, seen_auth};
ghost use Rattle.lnfs_answers.specs.Replies.{accepted, before_databody, denial, denied, heard, is_verifier, opening, reply};
ghost use Rattle.lnfs_answers.specs.Promises.{Hears, ReadsInMemory, seen_request, such_at};

use crate::content::closed;
use crate::numbers::{BEFORE_DATABODY, FOR_WHO_ASKS, SUCCESS};
use crate::request::{Heard, Request};
use crate::signed::body_of;
use lnfs_arguments::Halt;
use lnfs_gss3::{Mechanism, is_reply_mic};
use lnfs_rpc::{Auth, REPLY, auth_of};
use lnfs_xdr::{AUTH_NONE, RPCSEC_GSS, XdrError, XdrReader};
use std::alloc::{AllocError, Global};

/// Whether a verifier is good.
fn is_verifier_of<M: Mechanism>(
    alloc: Global,
    mechanism: &M,
    request: &Request<'_>,
    verifier: &Auth<'_>,
) -> Result<bool, AllocError>
    ensures { IfOk result (λ good. good ≡ is_verifier M.signing
        (option_map (λ p. p.now) request.now.signer) request.now.header.now
        (seen_auth verifier.now)) }
{
    match request.signer {
        None => Ok(verifier.flavor == AUTH_NONE && verifier.body.is_empty()),
        Some(parent) => {
            if verifier.flavor != RPCSEC_GSS {
                return Ok(false);
            }
            is_reply_mic(alloc, mechanism, parent, request.header, verifier.body)
        }
    }
}

/// A verifier that is good. One that isn't is refused before its flavor.
fn verifier_of<'a, M: Mechanism>(
    alloc: Global,
    mechanism: &M,
    request: &Request<'_>,
    reader: &mut XdrReader<'a>,
) -> Result<Auth<'a>, Halt>
    ensures limit { IfOk result (λ v. length v.body.now ≤ 400) }
    ensures reads { ReadsInMemory seen_auth result reader.old reader.new
        (such_at auth (is_verifier M.signing (option_map (λ p. p.now) request.now.signer)
        request.now.header.now) reader.old.rest) }
{
    let found = auth_of(&mut XdrReader::new(reader.rest()));
    if let Ok(verifier) = found {
        if !is_verifier_of(alloc, mechanism, request, &verifier)? {
            return Err(Halt::Fault(XdrError::BadBool));
        }
    }
    Ok(auth_of(reader)?)
}

/// How many bytes stand before those of a databody.
fn before_databody_of(verifier: &Auth<'_>) -> usize
    requires { length verifier.now.body.now ≤ 400 }
    ensures value { result ≡ before_databody (seen_auth verifier.now) }
    ensures limit { result ≤ 1024 }
{
    let len = verifier.body.len();
    BEFORE_DATABODY + (len + (4 - len % 4) % 4)
}

#[tactic(auto, using(crate::proofs::Such::such_parse), unfolding(crate::specs::Replies::accepted))]
fn accepted_of<M: Mechanism>(
    alloc: Global,
    mechanism: &M,
    request: &Request<'_>,
    reader: &mut XdrReader<'_>,
) -> Result<Heard, Halt>
    ensures { Hears result reader.old reader.new
        (parse (accepted M.signing (seen_request request.now)) reader.old.rest) }
{
    let verifier = verifier_of(alloc, mechanism, request, reader)?;
    reader.constant(SUCCESS)?;
    let base = before_databody_of(&verifier);
    body_of(alloc, mechanism, base, request, reader)
}

#[tactic(auto, unfolding(crate::specs::Replies::denial))]
fn denial_of(reader: &mut XdrReader<'_>) -> Result<u32, XdrError>
    ensures { Parses (λ n. n) result reader.old reader.new (read denial reader.old.rest) }
{
    reader.constant(FOR_WHO_ASKS)?;
    reader.u32()
}

#[tactic(auto, unfolding(crate::specs::Replies::denied))]
fn denied_of(reader: &mut XdrReader<'_>) -> Result<Heard, Halt>
    ensures { Hears result reader.old reader.new (parse denied reader.old.rest) }
{
    let auth = denial_of(reader)?;
    closed(reader, Heard::Denied { auth })
}

/// Whether the record has the transaction. Where it has, that it is a reply is read too.
#[tactic(auto, unfolding(crate::specs::Replies::opening))]
fn opening_of(reader: &mut XdrReader<'_>, xid: u32) -> Result<bool, XdrError>
    ensures { Parses (λ b. b) result reader.old reader.new (read (opening xid) reader.old.rest) }
{
    let own = reader.u32()?;
    if own != xid {
        return Ok(false);
    }
    reader.constant(REPLY)?;
    Ok(true)
}

#[tactic(auto, unfolding(crate::specs::Replies::reply))]
fn reply_of<M: Mechanism>(
    alloc: Global,
    mechanism: &M,
    request: &Request<'_>,
    reader: &mut XdrReader<'_>,
) -> Result<Heard, Halt>
    ensures { Hears result reader.old reader.new
        (parse (reply M.signing (seen_request request.now)) reader.old.rest) }
{
    if !opening_of(reader, request.xid)? {
        return Ok(Heard::Other);
    }
    if reader.boolean()? {
        return denied_of(reader);
    }
    accepted_of(alloc, mechanism, request, reader)
}

/// What a record is to a request (RFC 5531 section 9; signed: RFC 2203 section 5.3.3, RFC 7861
/// section 2.3). An error comes only where memory is wanting.
///
/// `Bad` has the offset in the record of the first item that no reply to the request has there. A
/// verifier that isn't good is refused where it begins, and a checksum that isn't at its length
/// word. A fault inside a signed databody is told, whatever follows the databody.
#[tactic(auto, unfolding(crate::specs::Replies::heard))]
pub fn hear<M: Mechanism>(
    alloc: Global,
    mechanism: &M,
    request: &Request<'_>,
    message: &[u8],
) -> Result<Heard, AllocError>
    ensures heard { IfOk result
        (λ h. h ≡ heard M.signing (seen_request request.now) message.now) }
{
    let mut reader = XdrReader::new(message);
    match reply_of(alloc, mechanism, request, &mut reader) {
        Ok(heard) => Ok(heard),
        Err(Halt::Memory) => Err(AllocError),
        Err(_) => Ok(Heard::Bad { at: reader.at() }),
    }
}
