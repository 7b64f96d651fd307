//! Reading a whole recording.
ghost use Rattle.std.specs.Prelude.{◌≡◌, IfErr, IfOk};
ghost use Rattle.lnfs_traffic.specs.Answers.{IsDamage};
ghost use Rattle.lnfs_traffic.specs.Recording.{IsRecording};
ghost use Rattle.lnfs_traffic.specs.declared.error.TrafficError.TheVariants.{Memory};

use crate::error::TrafficError;
use crate::events::{BEGINNING, next_event};
use lnfs_types::Event;
use std::alloc::{AllocError, Global};

impl From<AllocError> for TrafficError {
    ghost from_gives = { λ _ e. e ≡ Memory };

    fn from(_error: AllocError) -> TrafficError {
        TrafficError::Memory
    }
}

/// The events of a recording.
pub fn read_traffic(alloc: Global, bytes: &[u8]) -> Result<Vec<Event>, TrafficError>
    ensures whole { IfOk result (λ events. IsRecording events.items bytes.now) }
    ensures damaged { IfErr result (λ error. IsDamage error bytes.now) }
{
    let Some(body) = bytes.strip_prefix(BEGINNING) else {
        return Err(TrafficError::Damaged { at: 0 });
    };
    let mut events = Vec::new(alloc);
    let mut rest = body;
    while let Some((event, others)) = next_event(alloc, rest)? {
        if events.push(event).is_err() {
            return Err(TrafficError::Memory);
        }
        rest = others;
    }
    if rest.is_empty() {
        Ok(events)
    } else {
        Err(TrafficError::Damaged {
            at: bytes.len() as u64 - rest.len() as u64,
        })
    }
}
