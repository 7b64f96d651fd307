//! Events: records that came over a link.
ghost use Rattle.std.specs.Prelude.{◌≡◌, ◌↔◌, IsTrue};
ghost use Rattle.lnfs_types.specs.Moments.{is_moment, Fits};

use crate::limits::RECORD_LIMIT;
use crate::octets::Octets;

/// The last second that a moment may name, as in an `nfstime4` (RFC 8881 section 3.3.1).
const LAST_SECOND: u64 = 9_223_372_036_854_775_807;

const NANOS_OF_A_SECOND: u32 = 1_000_000_000;

/// A time of the clock, in seconds since 1970 and nanoseconds.
#[derive(Clone, Copy, Debug, Drop, PartialEq, Eq)]
pub struct Moment {
    pub secs: u64,
    pub nanos: u32,
}

impl Moment {
    /// Whether the seconds fit an `int64_t` and the nanoseconds are below a second (RFC 8881 section
    /// 3.3.1).
    pub fn is_valid(&self) -> bool
        ensures { result ≡ is_moment self.now.secs self.now.nanos }
    {
        self.secs <= LAST_SECOND && self.nanos < NANOS_OF_A_SECOND
    }
}

/// One whole RPC record without its fragment heads (RFC 5531 section 11), with the class of the
/// listener that it came by, the number of its link and the moment when it was whole.
#[derive(Debug, Drop)]
pub struct Event {
    pub class: u32,
    pub link: u32,
    pub moment: Moment,
    pub message: Octets,
}

impl Event {
    /// Whether the record isn't too long and the moment is valid.
    pub fn fits(&self) -> bool
        ensures { IsTrue result ↔ Fits self.now }
    {
        self.message.len() <= RECORD_LIMIT as usize && self.moment.is_valid()
    }
}
