//! The guests whose events are generated: one row for each guest line of the policy.
ghost use Rattle.std.specs.Prelude.{◌≡◌, ◌<◌, IfOk, length};
ghost use Rattle.lnfs_traffic.specs.Generated.{level_in, row, row_of, rows};

use lnfs_policy::{Guest, Mode, Policy};
use std::alloc::{AllocError, Global};

/// A guest: the class of its links, its user, and the level that its calls get; 0 where they get none.
#[derive(Clone, Copy, Debug, PartialEq, Eq)]
pub struct Row {
    pub class: u32,
    pub uid: u32,
    pub level: u32,
}

fn level_of(policy: &Policy, class: u32, uid: u32) -> u32
    ensures { result ≡ level_in policy.now.mode policy.now class uid }
{
    match policy.mode() {
        Mode::Enforcing => match policy.guest_level(class, Some(uid)) {
            Some(level) => level.0,
            None => 0,
        },
        Mode::Limited => 0,
    }
}

fn row_with(policy: &Policy, class: u32, uid: u32) -> Row
    ensures { result ≡ row policy.now class uid }
{
    let level = level_of(policy, class, uid);
    Row { class, uid, level }
}

/// The guest of a line; of a line for all, the one with the uid 0.
fn row_of(policy: &Policy, guest: &Guest) -> Row
    ensures { result ≡ row_of policy.now guest.now }
{
    row_with(policy, guest.class, guest.uid.unwrap_or(0))
}

/// The guests of the lines, in their order; without a line, one of class 0 and uid 0.
#[tactic(auto, using(crate::proofs::Rows::rows_none, crate::proofs::Rows::rows_some))]
pub fn rows(alloc: Global, policy: &Policy) -> Result<Vec<Row>, AllocError>
    ensures rows { IfOk result (λ all. all.items ≡ rows policy.now) }
    ensures some { IfOk result (λ all. 0 < length all.items) }
{
    let guests = policy.guests();
    let mut all = Vec::new(alloc);
    if guests.is_empty() {
        all.push(row_with(policy, 0, 0))?;
        return Ok(all);
    }
    for guest in guests {
        all.push(row_of(policy, guest))?;
    }
    Ok(all)
}
