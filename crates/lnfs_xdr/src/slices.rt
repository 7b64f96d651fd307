//! Items at the front of a slice, each with what is left behind it.
ghost use Rattle.std.specs.Prelude.{◌≡◌, ◌≤◌, length, nat_le};
ghost use Rattle.std.specs.Int.{w32, w64};
ghost use Rattle.lnfs_xdr.specs.Cursor.{Takes};
ghost use Rattle.lnfs_xdr.specs.Reading.{number_at, boolean_at, byte_at, count_at, padded_at, opaque_at, raw_at};

use crate::error::XdrError;
use byteorder::{BigEndian, ByteOrder};

/// An unsigned integer (RFC 4506 section 4.2).
#[tactic(auto, using(crate::proofs::Words::number_32))]
pub fn word_of(bytes: &[u8]) -> Result<(u32, &[u8]), XdrError>
    ensures { Takes (λ x. (x.0, x.1.now)) result (number_at w32 bytes.now) }
{
    if bytes.len() < 4 {
        return Err(XdrError::Short);
    }
    let (front, rest) = bytes.split_at(4);
    Ok((BigEndian::read_u32(front), rest))
}

/// An unsigned hyper integer (RFC 4506 section 4.5).
#[tactic(auto, using(crate::proofs::Words::number_64))]
pub fn long_of(bytes: &[u8]) -> Result<(u64, &[u8]), XdrError>
    ensures { Takes (λ x. (x.0, x.1.now)) result (number_at w64 bytes.now) }
{
    if bytes.len() < 8 {
        return Err(XdrError::Short);
    }
    let (front, rest) = bytes.split_at(8);
    Ok((BigEndian::read_u64(front), rest))
}

/// A boolean (RFC 4506 section 4.4).
pub fn boolean_of(bytes: &[u8]) -> Result<(bool, &[u8]), XdrError>
    ensures { Takes (λ x. (x.0, x.1.now)) result (boolean_at bytes.now) }
{
    let (number, rest) = word_of(bytes)?;
    match number {
        0 => Ok((false, rest)),
        1 => Ok((true, rest)),
        _ => Err(XdrError::BadBool),
    }
}

/// A byte of at most `max`.
#[tactic(auto, using(crate::proofs::Words::byte_none, crate::proofs::Words::byte_some))]
pub fn byte_of(bytes: &[u8], max: u8) -> Result<(u8, &[u8]), XdrError>
    ensures { Takes (λ x. (x.0, x.1.now)) result (byte_at (λ n. nat_le n max) bytes.now) }
{
    if bytes.is_empty() {
        return Err(XdrError::Short);
    }
    let value = bytes[0];
    if value > max {
        return Err(XdrError::BadBool);
    }
    Ok((value, &bytes[1..]))
}

/// A count of at most `max`, which stands before a variable number of elements or bytes.
pub fn count_of(bytes: &[u8], max: u32) -> Result<(u32, &[u8]), XdrError>
    ensures { Takes (λ x. (x.0, x.1.now)) result (count_at max bytes.now) }
{
    let (number, rest) = word_of(bytes)?;
    if number > max {
        return Err(XdrError::TooLong);
    }
    Ok((number, rest))
}

/// So many bytes, and those that fill up their last word (RFC 4506 section 4.9).
pub fn padded_of(bytes: &[u8], len: usize) -> Result<(&[u8], &[u8]), XdrError>
    requires { len ≤ 16777216 }
    ensures { Takes (λ x. (x.0.now, x.1.now)) result (padded_at len bytes.now) }
{
    let padding = (4 - len % 4) % 4;
    if bytes.len() < len + padding {
        return Err(XdrError::Short);
    }
    let (value, rest) = bytes.split_at(len);
    let (_, rest) = rest.split_at(padding);
    Ok((value, rest))
}

/// So many bytes as they stand.
pub fn raw_of(bytes: &[u8], len: usize) -> Result<(&[u8], &[u8]), XdrError>
    ensures { Takes (λ x. (x.0.now, x.1.now)) result (raw_at len bytes.now) }
{
    if bytes.len() < len {
        return Err(XdrError::Short);
    }
    Ok(bytes.split_at(len))
}

/// A count and so many bytes (RFC 4506 section 4.10).
pub fn opaque_of(bytes: &[u8], max: u32) -> Result<(&[u8], &[u8]), XdrError>
    requires { max ≤ 16777216 }
    ensures { Takes (λ x. (x.0.now, x.1.now)) result (opaque_at max bytes.now) }
{
    let (len, rest) = count_of(bytes, max)?;
    padded_of(rest, len as usize)
}
