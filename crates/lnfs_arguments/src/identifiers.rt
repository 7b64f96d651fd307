//! The identifiers of clients and sessions as they are sent. Each has its level in it.
ghost use Rattle.std.specs.Prelude.{◌≡◌};
ghost use Rattle.lnfs_arguments.specs.Identifiers.{client_id, session_id};

/// How far a level stands above the number of a record in a client id.
const LEVEL_UNIT: u64 = 4_294_967_296;

/// A client id: the level, and the number of its record.
pub fn client_id(level: u32, number: u32) -> u64
    ensures { result ≡ client_id level number }
{
    u64::from(level) * LEVEL_UNIT + u64::from(number)
}

/// A session id: the level, the number, and four zero bytes.
pub fn session_id(level: u32, number: u32) -> [u8; 16]
    ensures { result ≡ session_id level number }
{
    let mut id = [0; 16];
    id[..4].copy_from_slice(&level.to_be_bytes());
    id[4..12].copy_from_slice(&u64::from(number).to_be_bytes());
    id
}
