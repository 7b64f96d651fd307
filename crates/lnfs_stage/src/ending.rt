//! How a run ends where nothing failed on the way, unless all is well.
ghost use Rattle.std.specs.Prelude.{◌≡◌, [], ◌∷◌, ◌++◌, IfOk, string_bytes, codes};
ghost use Rattle.std.specs.Fmt.{decimal};
ghost use Rattle.lnfs_stage.specs.Ending.{checkpoint_line, fault_line, map_cause_name, number_of_ending};

use lnfs_policy::Cause;
use lnfs_types::Text;
use std::alloc::{AllocError, Global};

/// Why some bytes have no translation.
#[derive(Clone, Copy, Debug, Drop)]
pub enum MapCause {
    /// One of the two formats isn't there.
    WrongLfs,
    /// The bytes spell no label, or one that is no level's.
    BadLabel,
    /// The second format has no spelling of the label.
    NoRow,
}

impl MapCause {
    /// The name of the cause, as it is printed.
    pub fn as_str(&self) -> &'static str
        ensures { result.now ≡ map_cause_name self.now }
    {
        match self {
            MapCause::WrongLfs => "WrongLfs",
            MapCause::BadLabel => "BadLabel",
            MapCause::NoRow => "NoRow",
        }
    }
}

/// Why a checkpoint is refused.
#[derive(Clone, Copy, Debug, PartialEq, Eq)]
pub enum CheckpointCause {
    /// The file is no checkpoint. The offset of its first item that isn't there, in bytes.
    Damaged { at: u64 },
    /// It is of another policy.
    Policy,
    /// No server of the policy has such a state.
    Unfit,
}

/// An ending that is told by a line on the audit stream.
#[derive(Debug, Drop)]
pub enum Ending {
    /// The words are no form of the command line.
    Usage,
    /// The policy's text is refused: the first line that breaks a rule, counted from 1, and the rule.
    PolicyRefused { line: u64, cause: Cause },
    /// The file is no recording. The length of its longest prefix that is one, in bytes.
    TrafficDamaged { at: u64 },
    /// There is no file of this name.
    NoFile { name: Text },
    /// The bytes have no translation.
    Untranslated { cause: MapCause },
    /// The script's text is refused: the first line of no listed form, counted from 1.
    ScriptRefused { line: u64 },
    /// No further reply can come over the link of a client, and one is awaited.
    LinkClosed,
    /// The checkpoint is refused.
    CheckpointRefused { cause: CheckpointCause },
}

impl Ending {
    /// The exit status of the program.
    pub fn number(&self) -> u8
        ensures { result ≡ number_of_ending self.now }
    {
        match self {
            Ending::Usage => 2,
            Ending::PolicyRefused { line: _, cause: _ } => 3,
            Ending::TrafficDamaged { at: _ } => 4,
            Ending::NoFile { name: _ } => 9,
            Ending::Untranslated { cause: _ } => 10,
            Ending::ScriptRefused { line: _ } => 12,
            Ending::LinkClosed => 13,
            Ending::CheckpointRefused { cause: _ } => 14,
        }
    }

    /// The line that tells it, with its newline.
    ///
    /// # Errors
    ///
    /// `AllocError` where there is no memory for it.
    pub fn line(&self, alloc: Global) -> Result<String, AllocError>
        ensures { IfOk result (λ line. string_bytes line ≡ fault_line self.now) }
    {
        match self {
            Ending::Usage => format!(in alloc; "fault 2 usage\n"),
            Ending::PolicyRefused { line, cause } => refusal_line(alloc, *line, cause.as_str()),
            Ending::TrafficDamaged { at } => {
                format!(in alloc; "fault 4 traffic damaged at {at}\n")
            }
            Ending::NoFile { name } => {
                let name = name.as_str();
                format!(in alloc; "fault 9 no file {name}\n")
            }
            Ending::Untranslated { cause } => {
                let cause = cause.as_str();
                format!(in alloc; "fault 10 untranslated {cause}\n")
            }
            Ending::ScriptRefused { line } => format!(in alloc; "fault 12 script line {line}\n"),
            Ending::LinkClosed => format!(in alloc; "fault 13 link closed\n"),
            Ending::CheckpointRefused { cause } => checkpoint_line(alloc, *cause),
        }
    }
}

fn checkpoint_line(alloc: Global, cause: CheckpointCause) -> Result<String, AllocError>
    ensures { IfOk result (λ line. string_bytes line ≡ checkpoint_line cause) }
{
    match cause {
        CheckpointCause::Damaged { at } => {
            format!(in alloc; "fault 14 checkpoint damaged at {at}\n")
        }
        CheckpointCause::Policy => format!(in alloc; "fault 14 checkpoint policy\n"),
        CheckpointCause::Unfit => format!(in alloc; "fault 14 checkpoint unfit\n"),
    }
}

fn refusal_line(alloc: Global, line: u64, cause: &str) -> Result<String, AllocError>
    ensures { IfOk result (λ text. string_bytes text ≡ codes "fault 3 policy line " ++ decimal line
        ++ codes " cause " ++ cause.now ++ 10 ∷ []) }
{
    let mut text = format!(in alloc; "fault 3 policy line {line} cause ")?;
    text.push_str(cause)?;
    text.push_str("\n")?;
    Ok(text)
}
