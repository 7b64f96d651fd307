//! A site of two levels and a parent, and the scripts that are read under it.
use crate::codecs::codecs_of;
use lnfs_policy::{Policy, read_policy};
use lnfs_script::{ScriptError, read_script};
use std::alloc::Global;
use std::test::Fail;

/// Levels 0 and 1, and parent 7.
const POLICY: &str = "lnfs-policy 1\n\
mode enforcing\n\
level 0 1 0 -\n\
level 1 1 1 c0\n\
format 101 1 calipso\n\
parent 7 0101010101010101010101010101010101010101010101010101010101010101 1\n\
guest 0 * 0\n";

/// The policy of the site.
pub fn policy(alloc: Global) -> Result<Policy, Fail> {
    let codecs = codecs_of(alloc).map_err(|_| "no memory for the codecs")?;
    let policy = read_policy(alloc, POLICY.as_bytes(), &codecs).map_err(|_| "no policy")?;
    Ok(policy)
}

/// Why a text is no script, where it is none.
pub fn refusal(alloc: Global, policy: &Policy, text: &str) -> Option<ScriptError> {
    read_script(alloc, policy, text.as_bytes()).err()
}
