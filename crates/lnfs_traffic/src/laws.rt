//! What the definitions of a recording's parts mean.
ghost use Rattle.std.specs.Prelude.{◌≡◌, ◌≤◌, ◌↔◌, ◌++◌, List, ℕ, true, take, length};
ghost use Rattle.lnfs_types.specs.declared.event.Event.{Event};
ghost use Rattle.lnfs_traffic.specs.Parts.{begins, is_recording, place_of, recorded};
ghost use Rattle.lnfs_traffic.specs.Recording.{IsRecording};

/// The events that are recorded in bytes are those whose recording the bytes are, or begin with; the
/// place of the damage is the length of the longest front of the bytes that is a recording.
pub fn recordings(bytes: &[u8])
    ensures whole { (events : List Event) → IsRecording events bytes.now
        ↔ (is_recording bytes.now ≡ true) × (events ≡ recorded bytes.now) }
    ensures front { begins bytes.now ≡ true →
        IsRecording (recorded bytes.now) (take (place_of bytes.now) bytes.now) }
    ensures longest { (events : List Event) (front rest : List ℕ) → IsRecording events front →
        bytes.now ≡ front ++ rest → length front ≤ place_of bytes.now }
{}
