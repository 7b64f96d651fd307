//! Numbers of RPC that a step goes by (RFC 5531 section 9). Those of the messages stand in
//! `lnfs_rpc`, and those of callers in `lnfs_gss3`.

/// The `accept_stat` of a call that was run.
pub const SUCCESS: u32 = 0;

/// The `accept_stat` of a call whose arguments can't be read.
pub const GARBAGE_ARGS: u32 = 4;

/// The `accept_stat` of a call that the server has no room for.
pub const SYSTEM_ERR: u32 = 5;
