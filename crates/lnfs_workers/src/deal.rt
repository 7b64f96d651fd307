//! Lists that are dealt to hands in turn, and taken back in turn.
ghost use Rattle.std.specs.Prelude.{◌≡◌, ◌<◌, [], ◌∷◌, IfOk, OnOk, All, Some, MatchOption, slice_get, length};
ghost use Rattle.lnfs_workers.specs.Dealt.{AllAt, Hand, PutNext, TookNext};

use std::alloc::{AllocError, Global};
use std::collections::VecDeque;

/// Takes the first item of a list, if it has one.
#[tactic(auto, using(crate::proofs::Dealt::first_removed))]
pub fn take_first<T: Drop>(items: &mut Vec<T>) -> Option<T>
    ensures { MatchOption result (items.old.items ≡ []) (λ x. items.old.items
        ≡ x ∷ items.new.items) }
{
    if items.is_empty() {
        return None;
    }
    Some(items.remove(0))
}

/// So many hands, all empty.
fn empty_hands<T: Drop>(alloc: Global, count: usize) -> Result<VecDeque<VecDeque<T>>, AllocError>
    ensures count { IfOk result (λ hands. length hands.items ≡ count) }
    ensures empty { IfOk result (λ hands. All (λ hand. hand.items ≡ []) hands.items) }
{
    let mut hands = VecDeque::new(alloc);
    for _ in 0..count {
        hands.push_back(VecDeque::new(alloc))?;
    }
    Ok(hands)
}

/// Puts an item before those of the last hand, which is then the first.
fn put_next<T: Drop>(hands: &mut VecDeque<VecDeque<T>>, item: T) -> Result<(), AllocError>
    requires { 0 < length hands.old.items }
    ensures { OnOk result (PutNext (λ hand. hand.items) hands.old.items item hands.new.items) }
{
    let Some(mut hand) = hands.pop_back() else {
        unreachable!();
    };
    hand.push_front(item)?;
    hands.push_front(hand)?;
    Ok(())
}

/// Takes the first item of the first hand, which is then the last.
pub fn take_next<T: Drop>(hands: &mut VecDeque<VecDeque<T>>) -> Option<T>
    ensures { TookNext (λ hand. hand.items) hands.old.items result hands.new.items }
{
    let Some(mut hand) = hands.pop_front() else {
        return None;
    };
    let Some(item) = hand.pop_front() else {
        return None;
    };
    hands.push_back_reserved(hand);
    Some(item)
}

/// Deals a list in turn: item i goes to hand i mod `count`, and each hand has its items in order.
pub fn deal<T: Drop>(
    alloc: Global,
    items: Vec<T>,
    count: usize,
) -> Result<VecDeque<VecDeque<T>>, AllocError>
    requires { 0 < count }
    ensures hands { IfOk result (λ hands. AllAt (λ m hand.
        Hand (λ n x. slice_get items.items n ≡ Some x) (length items.items) count m hand.items) 0
        hands.items) }
    ensures count { IfOk result (λ hands. length hands.items ≡ count) }
{
    let mut hands = empty_hands(alloc, count)?;
    let mut left = items;
    while let Some(item) = left.pop() {
        put_next(&mut hands, item)?;
    }
    Ok(hands)
}
