//! The audit lines of what is refused.
ghost use Rattle.std.specs.Prelude.{◌≡◌, IfOk, Some, option_map};
ghost use Rattle.lnfs_step.specs.Step.{rule_name, letter, line_of_cause, line_of};
ghost use Rattle.lnfs_engine.specs.Runs.{denial_of};
ghost use Rattle.lnfs_vault.specs.Lines.{IsLineOf};
ghost use Rattle.lnfs_vault.specs.Requests.{seen_cause};

use crate::audit::AuditLine;
use crate::request::Cause;
use lnfs_engine::Denial;
use lnfs_monitor::Rule;
use lnfs_operations::Gate;
use lnfs_types::Octets;
use std::alloc::{AllocError, Global};

/// The letter and the status of the line of a call that is refused as a whole.
fn letter_of_cause(cause: Cause) -> (&'static [u8; 1], u32)
    ensures { record { place = 0; number = 0; gate = result.0.now; status = result.1 }
        ≡ line_of_cause (seen_cause cause) }
{
    match cause {
        Cause::Caller { stat } => (b"C", stat),
        Cause::Called { stat } => (b"P", stat),
        Cause::Version => (b"V", 0),
    }
}

/// The line of a call that is refused as a whole.
pub fn line_of_cause(alloc: Global, at: u64, cause: Cause) -> Result<AuditLine, AllocError>
    ensures { IfOk result (λ line. IsLineOf at (Some (line_of_cause (seen_cause cause)))
        (Some line)) }
{
    let (gate, status) = letter_of_cause(cause);
    Ok(AuditLine {
        event: at,
        place: 0,
        number: 0,
        gate: Octets::from_slice(alloc, gate)?,
        status,
    })
}

fn rule_name(rule: Rule) -> &'static [u8]
    ensures { result.now ≡ rule_name rule }
{
    match rule {
        Rule::M1 => b"M1",
        Rule::M2 => b"M2",
        Rule::M3 => b"M3",
        Rule::M4 => b"M4",
        Rule::M5 => b"M5",
        Rule::M6 => b"M6",
        Rule::M7 => b"M7",
        Rule::M8 => b"M8",
        Rule::M9 => b"M9",
    }
}

fn letter(gate: Gate) -> &'static [u8]
    ensures { result.now ≡ letter gate }
{
    match gate {
        Gate::Session => b"S",
        Gate::Room => b"R",
        Gate::Argument => b"A",
        Gate::Outside => b"X",
        Gate::Namespace => b"N",
        Gate::Monitor(rule) => rule_name(rule),
        Gate::Open => b"O",
        Gate::Quota => b"Q",
    }
}

/// The line of a COMPOUND, where one of its operations was refused, or it as a whole.
pub fn line_of(
    alloc: Global,
    at: u64,
    denial: &Option<Denial>,
) -> Result<Option<AuditLine>, AllocError>
    ensures { IfOk result (IsLineOf at (option_map line_of (option_map denial_of denial.now))) }
{
    let Some(denial) = denial else {
        return Ok(None);
    };
    Ok(Some(AuditLine {
        event: at,
        place: denial.place,
        number: denial.number,
        gate: Octets::from_slice(alloc, letter(denial.gate))?,
        status: denial.status,
    }))
}
