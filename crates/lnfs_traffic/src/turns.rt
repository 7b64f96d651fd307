//! What a guest has had before its next event: how many events, and the numbers of its client and of
//! its session in its level.
ghost use Rattle.std.specs.Prelude.{◌≡◌, ◌<◌, ◌+◌, ◌==◌, ◌^◌, ℕ, IfOk, OnOk, if◌then◌else◌};
ghost use Rattle.lnfs_traffic.specs.Counts.{last_in, next_past, last_after};

use std::alloc::AllocError;
use std::collections::BTreeMap;

/// What a guest has had. A number is 0 before it is given.
#[derive(Clone, Copy, Debug, PartialEq, Eq)]
pub struct Past {
    pub events: u32,
    pub client: u32,
    pub session: u32,
}

/// An event of the guest at a place: its number from 1, what is drawn for it, and what the guest has had before it.
#[derive(Clone, Copy, Debug, PartialEq, Eq)]
pub struct Turn {
    pub event: u32,
    pub place: u32,
    pub pick: u32,
    pub past: Past,
}

/// The next number of a level.
fn next_in(counts: &mut BTreeMap<u32, u32>, level: u32) -> Result<u32, AllocError>
    requires { last_in counts.old level + 1 < 2 ^ 32 }
    ensures value { IfOk result (λ number. number ≡ last_in counts.old level + 1) }
    ensures counts { OnOk result ((other : ℕ) → last_in counts.new other
        ≡ (if level == other then last_in counts.old other + 1 else last_in counts.old other)) }
{
    let last = match counts.get(&level) {
        Some(last) => *last,
        None => 0,
    };
    counts.insert(level, last + 1)?;
    Ok(last + 1)
}

/// A guest of a level has its next event: with the first it gets the number of its client, and with
/// the second that of its session.
pub fn next_past(
    past: Past,
    level: u32,
    clients: &mut BTreeMap<u32, u32>,
    sessions: &mut BTreeMap<u32, u32>,
) -> Result<Past, AllocError>
    requires clients { last_in clients.old level + 1 < 2 ^ 32 }
    requires sessions { last_in sessions.old level + 1 < 2 ^ 32 }
    ensures past { IfOk result (λ next. next ≡ next_past past (last_in clients.old level)
        (last_in sessions.old level)) }
    ensures clients { OnOk result ((other : ℕ) → last_in clients.new other
        ≡ last_after past.events 0 level (last_in clients.old) other) }
    ensures sessions { OnOk result ((other : ℕ) → last_in sessions.new other
        ≡ last_after past.events 1 level (last_in sessions.old) other) }
{
    match past.events {
        0 => Ok(Past {
            events: 0,
            client: next_in(clients, level)?,
            session: past.session,
        }),
        1 => Ok(Past {
            events: 1,
            client: past.client,
            session: next_in(sessions, level)?,
        }),
        _ => Ok(past),
    }
}
