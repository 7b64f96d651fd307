//! The desk before the first record, and after the last.
ghost use Rattle.std.specs.Prelude.{◌≡◌, ◌<◌, ◌≤◌, ℕ, [], IfOk, OnOk, All, length};
ghost use Rattle.lnfs_history.specs.Entries.{of, known};
ghost use Rattle.lnfs_types.specs.Moments.{Fits};
ghost use Rattle.lnfs_workers.specs.Served.{telling};
ghost use Rattle.lnfs_workers.specs.Links.{Comes};
ghost use Rattle.lnfs_workers.specs.Dealt.{AllAt, Hand};
ghost use Rattle.lnfs_workers.specs.Transcripts.{entries_of};
ghost use Rattle.lnfs_workers.specs.Lines.{lines_in, lines_of};

use crate::deal::take_next;
use crate::desk::{Desk, Notes};
use crate::line::{Done, LinkEnd};
use lnfs_engine::Extra;
use lnfs_gss3::Mechanism;
use lnfs_history::{History, Recorder, Room};
use lnfs_outside::{Clock, Link};
use lnfs_vault::{AuditLine, Books};
use std::alloc::{AllocError, Global};
use std::collections::VecDeque;
use std::snapshot::Snapshot;

/// The books with the keeper, before the first record.
pub fn open_desk<B: Room, M: Mechanism + Drop, X: Extra>(
    alloc: Global,
    books: Books<M, X>,
    keeper: Recorder<B>,
) -> Desk<B, M, X>
    requires journal { books.journal ≡ [] }
    requires site { books.policy ≡ B.policy }
    requires keeper { keeper ≡ known [] B.links }
    ensures { result.books ≡ books }
{
    let lines = Vec::new(alloc);
    Desk {
        books,
        notes: Notes { lines, keeper },
    }
}

/// The books that served links, the ends of the links in their order, and the audit lines.
#[derive(Drop)]
pub struct Settled<M: Mechanism, X: Extra, L> {
    pub books: Books<M, X>,
    pub ends: Vec<LinkEnd<L>>,
    pub lines: Vec<AuditLine>,
}

/// Compares each place with the whole history, and puts the ends of the links in their order. No
/// answer depends on what is compared. The clock is asked nothing.
pub fn settle<B: Room, M: Mechanism + Drop, X: Extra, C: Clock, L: Link + Drop>(
    alloc: Global,
    history: &History<B>,
    clock: &C,
    mut desk: Desk<B, M, X>,
    links: &Snapshot<Vec<(u32, L)>>,
    mut hands: VecDeque<VecDeque<Done<B, L>>>,
) -> Result<Settled<M, X, L>, AllocError>
    requires some { 0 < length hands.items }
    requires hands { AllAt (λ m hand. Hand (λ n one. (one.place.link ≡ n)
        × Comes (telling L.left L.taken L.read_faults L.write_faults) (C.may clock.now)
        links.now.value.items n one.end one.place.entries)
        (length links.now.value.items) (length hands.items) m hand.items) 0 hands.items }
    ensures books { IfOk result (λ settled. settled.books ≡ desk.books) }
    ensures lines { IfOk result (λ settled. settled.lines ≡ desk.notes.lines) }
    ensures fits { OnOk result (All Fits desk.books.journal) }
    ensures ends { IfOk result (λ settled. AllAt (λ n end.
        Comes (telling L.left L.taken L.read_faults L.write_faults) (C.may clock.now)
        links.now.value.items n end
        (of n (entries_of X.extra M.signing B.policy desk.books.journal))) 0 settled.ends.items) }
    ensures count { IfOk result (λ settled. length settled.ends.items ≡ length links.now.value.items) }
    ensures others { OnOk result ((link : ℕ) → B.links ≤ link →
        of link (entries_of X.extra M.signing B.policy desk.books.journal) ≡ []) }
{
    let mut ends = Vec::new(alloc);
    while let Some(one) = take_next(&mut hands) {
        let Done { end, place } = one;
        desk.learn(history, place);
        ends.push(end)?;
    }
    desk.look(history);
    let Desk { books, notes } = desk;
    let Notes { lines, keeper: _ } = notes;
    Ok(Settled { books, ends, lines })
}
