/// The most bytes in the name of an AUTH_SYS body's machine (RFC 5531 appendix A).
pub const MACHINE_LIMIT: u32 = 255;

/// The most groups of an AUTH_SYS body (RFC 5531 appendix A).
pub const GROUP_LIMIT: u32 = 16;
