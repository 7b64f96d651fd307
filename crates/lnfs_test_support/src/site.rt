//! The site of the trials: policies, and files.
use lnfs_outside::MemFile;
use lnfs_types::{Octets, Text};
use std::alloc::{AllocError, Global};

/// The policy of all trials. Levels 1 and 2 don't compare, and level 3 is above all.
pub const POLICY: &str = "lnfs-policy 1
mode enforcing
level 0 1 0 -
level 1 1 1 c0
level 2 1 1 c1
level 3 1 3 c0.c2,c5
format 101 1 calipso
format 102 1 text
format 103 0 name
name 103 0 0 6f70656e
parent 7 0101010101010101010101010101010101010101010101010101010101010101 3
guest 0 * 0
guest 1 100 1
guest 1 200 2
guest 1 300 3
quota 1 8 4096
dir /one 1
dir /two 2
dir /top 3
";

/// A policy whose tenth line names a level that isn't there.
pub const BAD_POLICY: &[u8] = b"lnfs-policy 1
mode enforcing
level 0 1 0 -
level 1 1 1 -
level 2 1 2 -
level 3 1 3 -
guest 0 * 0
guest 1 100 1
guest 1 200 2
guest 1 300 4
";

/// A file of a name.
pub fn file(alloc: Global, name: &str, content: &[u8]) -> Result<MemFile, AllocError> {
    Ok(MemFile {
        name: Text::copy_of(alloc, name)?,
        content: Octets::from_slice(alloc, content)?,
    })
}
