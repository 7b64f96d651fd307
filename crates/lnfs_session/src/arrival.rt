//! How a request came: again, next, or neither.
ghost use Rattle.std.specs.Prelude.{◌≡◌};
ghost use Rattle.std.specs.Option.{option_map};
ghost use Rattle.lnfs_session.specs.Arrivals.{arrival, arrival_of};
ghost use Rattle.lnfs_session.specs.Listed.{kept_of};

use crate::rows::Kept;

/// How a request came, by its sequence (RFC 8881 section 2.10.6.1).
#[derive(Clone, Copy, Debug)]
pub enum Arrival<'a> {
    /// The last one again, with its answer.
    Again(&'a [u8]),
    /// The sequence of the last one, with other arguments.
    FalseRetry,
    /// Neither the last one nor the next.
    Misordered,
    Next,
}

/// How a request came behind the last one, whose answer may have been kept.
pub fn came<'a>(
    last: u32,
    next: u32,
    kept: &'a Option<Kept>,
    sequence: u32,
    arguments: &[u8],
) -> Arrival<'a>
    ensures { arrival_of result ≡ arrival last next (option_map kept_of kept.now) sequence
        arguments.now }
{
    if sequence == last {
        if let Some(kept) = kept {
            if kept.arguments.as_slice() == arguments {
                return Arrival::Again(kept.reply.as_slice());
            }
            return Arrival::FalseRetry;
        }
    }
    if sequence == next {
        Arrival::Next
    } else {
        Arrival::Misordered
    }
}
