//! What becomes of bytes as a checkpoint, in words.
use crate::served::{Server, checkpoint_of, taken};
use lnfs_checkpoint::CheckpointError;
use lnfs_format::Codecs;
use lnfs_test_support::flaw::{Flaw, demand};
use std::alloc::{AllocError, Global};

/// A cause in words.
fn cause_of(alloc: Global, cause: CheckpointError) -> Result<String, AllocError> {
    match cause {
        CheckpointError::Damaged { at } => format!(in alloc; "damaged {at}"),
        CheckpointError::Policy => String::from_str(alloc, "policy"),
        CheckpointError::Unfit => String::from_str(alloc, "unfit"),
        CheckpointError::Memory => String::from_str(alloc, "memory"),
    }
}

/// What is said of a server that goes on from bytes: taken, where they are its checkpoint.
fn said_of(alloc: Global, server: &Server, bytes: &[u8]) -> Result<String, Flaw> {
    let told = checkpoint_of(alloc, server)?;
    let word = if told.as_slice() == bytes {
        "taken"
    } else {
        "changed"
    };
    Ok(String::from_str(alloc, word)?)
}

/// What becomes of bytes under a policy: taken, where they are the checkpoint of the server that goes on from them; or the cause.
pub fn judged(alloc: Global, codecs: &Codecs, policy: &str, bytes: &[u8]) -> Result<String, Flaw> {
    match taken(alloc, codecs, policy, bytes)? {
        Ok(server) => said_of(alloc, &server, bytes),
        Err(cause) => Ok(cause_of(alloc, cause)?),
    }
}

/// Compares what becomes of bytes with what is due.
pub fn comes_to(
    alloc: Global,
    codecs: &Codecs,
    policy: &str,
    bytes: &[u8],
    due: &str,
    row: &str,
) -> Result<(), Flaw> {
    let came = judged(alloc, codecs, policy, bytes)?;
    if came.as_str() == due {
        return Ok(());
    }
    let row = format!(in alloc; "{came} for {due}: {row}")?;
    demand(alloc, false, "what becomes of it", &row)
}
