//! Audit lines.
ghost use Rattle.std.specs.Prelude.{◌≡◌, IfOk};
ghost use Rattle.lnfs_step.specs.Journal.{line_text};
ghost use Rattle.lnfs_vault.specs.Lines.{line_in};

use lnfs_types::Octets;
use std::alloc::{AllocError, Global};

/// One thing that was refused.
#[derive(Debug, Drop)]
pub struct AuditLine {
    /// The event's place in the journal, from 1.
    pub event: u64,
    /// The operation's place in its COMPOUND, from 1; 0 where the call as a whole was refused.
    pub place: u32,
    /// The operation's number; 0 where the call as a whole was refused.
    pub number: u32,
    /// Which kind of test refused: the text of a `Gate`, or `C`, who calls; `P`, what is called; `V`, the version of RPC.
    pub gate: Octets,
    /// The status of the operation; or of the call as a whole its `auth_stat` (`C`), its `accept_stat` (`P`), or 0 (`V`).
    pub status: u32,
}

/// A line's text: `EVENT PLACE NUMBER GATE STATUS` with single spaces, and a newline.
pub fn write_line(alloc: Global, line: &AuditLine) -> Result<Vec<u8>, AllocError>
    ensures { IfOk result (λ text. text.items ≡ line_text line.now.event (line_in line.now)) }
{
    let mut text = format!(in alloc;
        "{} {} {} ",
        line.event, line.place, line.number
    )?.into_bytes();
    text.extend_from_slice(line.gate.as_slice())?;
    let status = format!(in alloc; " {}\n", line.status)?;
    text.extend_from_slice(status.as_bytes())?;
    Ok(text)
}
