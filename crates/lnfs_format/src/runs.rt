//! Runs of compartments, and how they are written.

ghost use Rattle.std.specs.Prelude.{◌≡◌, ℕ, ◌+◌, ◌<◌, ◌≤◌, ◌++◌, true, false, List, [], ◌∷◌, OnOk, MatchOption, MatchBool};
ghost use Rattle.lnfs_calipso.specs.Label.{has_comp};
ghost use Rattle.std.specs.Fmt.{decimal};
ghost use Rattle.lnfs_format.specs.Text.{comp_text, separator, run_text, comps_text};
ghost use Rattle.lnfs_format.specs.Runs.{HasRun, HasOriginFrom, IsRun, as_run};

use itoa::Buffer;
use lnfs_calipso::{COMPARTMENTS, Label};
use std::alloc::AllocError;

/// Compartments that follow one another, from the first to the last.
#[derive(Clone, Copy)]
struct Run {
    first: u16,
    last: u16,
}

/// Appends a number in decimal, without leading zeros.
pub fn put_decimal(text: &mut Vec<u8>, n: u32) -> Result<(), AllocError>
    ensures { OnOk result (text.new.items ≡ text.old.items ++ decimal n) }
{
    let mut buffer = Buffer::new();
    text.extend_from_slice(buffer.format(n).as_bytes())
}

fn put_comp(text: &mut Vec<u8>, comp: u16) -> Result<(), AllocError>
    ensures { OnOk result (text.new.items ≡ text.old.items ++ comp_text comp) }
{
    text.push(b'c')?;
    put_decimal(text, u32::from(comp))
}

fn separator(run: Run) -> u8
    requires { run.first < COMPARTMENTS }
    ensures { result ≡ separator (as_run run) }
{
    if run.first + 1 == run.last {
        b','
    } else {
        b'.'
    }
}

#[tactic(auto, unfolding(crate::specs::Text::run_text))]
fn put_run(text: &mut Vec<u8>, run: Run) -> Result<(), AllocError>
    requires order { run.first ≤ run.last }
    requires below { run.last < COMPARTMENTS }
    ensures { OnOk result (text.new.items ≡ text.old.items ++ run_text (as_run run)) }
{
    put_comp(text, run.first)?;
    if run.first == run.last {
        return Ok(());
    }
    text.push(separator(run))?;
    put_comp(text, run.last)
}

/// The first compartment of a label that isn't below the given one.
fn first_from(label: &Label, from: u16) -> Option<u16>
    requires { from ≤ COMPARTMENTS }
    ensures { MatchOption result ((c : ℕ) → from ≤ c → c < COMPARTMENTS →
        has_comp label.now.comps c ≡ false)
        (HasOriginFrom label.now.comps from) }
{
    for comp in from..COMPARTMENTS {
        if label.has(comp) {
            return Some(comp);
        }
    }
    None
}

/// The last compartment of the run that begins with the given one.
fn last_of_run(label: &Label, first: u16) -> u16
    requires below { first < COMPARTMENTS }
    requires member { has_comp label.now.comps first ≡ true }
    ensures { IsRun label.now.comps first result }
{
    let mut last = first;
    while last + 1 < COMPARTMENTS && label.has(last + 1) {
        last += 1;
    }
    last
}

/// The first run of a label among the compartments that aren't below the given one.
fn next_run(label: &Label, from: u16) -> Option<Run>
    requires { from ≤ COMPARTMENTS }
    ensures { HasRun label.now.comps from result }
{
    let first = first_from(label, from)?;
    let last = last_of_run(label, first);
    Some(Run { first, last })
}

/// Appends the compartments of a label as their maximal runs, joined by commas.
pub fn put_comps(text: &mut Vec<u8>, label: &Label) -> Result<(), AllocError>
    ensures { OnOk result (text.new.items ≡ text.old.items ++ comps_text label.now.comps) }
{
    label.law_label();
    let Some(mut run) = next_run(label, 0) else {
        return Ok(());
    };
    put_run(text, run)?;
    while let Some(next) = next_run(label, run.last + 1) {
        text.push(b',')?;
        put_run(text, next)?;
        run = next;
    }
    Ok(())
}

/// Whether a label has a compartment.
pub fn has_comps(label: &Label) -> bool
    ensures { MatchBool result ((others : List ℕ) × (c : ℕ) × (label.now.comps ≡ c ∷ others))
        (label.now.comps ≡ []) }
{
    label.law_label();
    match first_from(label, 0) {
        Some(_comp) => true,
        None => false,
    }
}
