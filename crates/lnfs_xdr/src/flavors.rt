//! `auth_flavor`: the flavors of credentials and verifiers, of calls and of callbacks (RFC 5531 section 8.2).

pub const AUTH_NONE: u32 = 0;

pub const AUTH_SYS: u32 = 1;
/// RFC 2203 section 5.
pub const RPCSEC_GSS: u32 = 6;
