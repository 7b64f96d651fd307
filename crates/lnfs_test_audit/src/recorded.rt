//! What was recorded, in words: events, and the bytes of replies.
ghost use Rattle.std.specs.Prelude.{All, IfOk};
ghost use Rattle.lnfs_types.specs.Moments.{Fits};

use lnfs_audit::Finding;
use lnfs_test_support::flaw::{Flaw, demand, read_of};
use lnfs_test_support::rows::{frames_of, recording_of};
use lnfs_traffic::read_traffic;
use lnfs_types::Event;
use std::alloc::{AllocError, Global};

/// The events of a cell.
pub fn events_of(alloc: Global, cell: &str, row: &str) -> Result<Vec<Event>, Flaw>
    ensures { IfOk result (λ events. All Fits events.items) }
{
    let traffic = read_of(alloc, recording_of(alloc, cell)?, row)?;
    let mut events = Vec::new(alloc);
    for event in read_of(alloc, read_traffic(alloc, &traffic).ok(), row)? {
        if event.fits() {
            events.push(event)?;
        }
    }
    Ok(events)
}

/// The bytes of two cells: replies, each of which is framed, and what stands behind them.
pub fn records_of(alloc: Global, replies: &str, rest: &str, row: &str) -> Result<Vec<u8>, Flaw> {
    let mut records = read_of(alloc, frames_of(alloc, replies)?, row)?;
    let rest = read_of(alloc, frames_of(alloc, rest)?, row)?;
    // what stands behind them has no frame of its own
    records.extend_from_slice(rest.get(4..).unwrap_or(&[]))?;
    Ok(records)
}

/// What was found, in words.
fn told(alloc: Global, finding: Finding) -> Result<String, AllocError> {
    match finding {
        Finding::Faithful { events } => format!(in alloc; "faithful {events}"),
        Finding::Differs { event } => format!(in alloc; "differs {event}"),
        Finding::Surplus { at } => format!(in alloc; "surplus {at}"),
    }
}

/// Goes on where what a cell tells was found.
///
/// # Errors
///
/// A flaw where it wasn't.
pub fn finds(
    alloc: Global,
    found: Option<Finding>,
    due: &str,
    by: &'static str,
    row: &str,
) -> Result<(), Flaw> {
    let found = told(alloc, read_of(alloc, found, row)?)?;
    demand(alloc, found.as_str() == due, by, row)
}
