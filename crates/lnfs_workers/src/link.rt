//! The service of one link, and of the links of one worker.
ghost use Rattle.std.specs.Prelude.{◌≡◌, ◌<◌, [], IfOk, All, length};
ghost use Rattle.lnfs_workers.specs.Served.{telling};
ghost use Rattle.lnfs_workers.specs.Links.{IsServed, IsDone};
ghost use Rattle.lnfs_workers.specs.Pairs.{Each};

use crate::clock::moment_of;
use crate::desk::{LinkRecord, serve_record};
use crate::gate::{TurnGate, Turns};
use crate::line::{Done, LinkEnd, Waiting};
use crate::outcome::Outcome;
use crate::shared::Shared;
use crate::writing::put_reply;
use lnfs_engine::ReadExtra;
use lnfs_format::Codecs;
use lnfs_gss3::Mechanism;
use lnfs_history::{LinkView, Room};
use lnfs_incoming::{BUDGET, Ending, Incoming, next_record, read_on};
use lnfs_outside::{Clock, Link};
use std::alloc::AllocError;
use std::collections::VecDeque;
use std::sync::Wait;

/// Closes a link whose service is over, so that its client doesn't wait until all others are over,
/// and says what is told of it, with its place.
fn over<B: Room, L: Link + Drop>(
    class: u32,
    mut link: L,
    ending: Ending,
    records: u32,
    place: LinkView<B>,
) -> Done<B, L>
    ensures end { result.end
        ≡ record { class = class; link = result.end.link; ending = ending; records = records } }
    ensures link { telling L.left L.taken L.read_faults L.write_faults result.end.link
        ≡ telling L.left L.taken L.read_faults L.write_faults link }
    ensures place { result.place ≡ place }
{
    link.close();
    let end = LinkEnd {
        class,
        link,
        ending,
        records,
    };
    Done { end, place }
}

/// Serves a link to its end.
fn serve_link<
    B: Room,
    M: Mechanism + Drop,
    X: ReadExtra,
    C: Clock,
    G: TurnGate,
    L: Link + Drop,
    R: Wait,
>(
    rt: &R,
    codecs: &Codecs,
    shared: &Shared<'_, B, M, X, C, G>,
    turns: &mut Turns,
    class: u32,
    mut link: L,
    mut place: LinkView<B>,
) -> Done<B, L>
    requires { place.entries ≡ [] }
    ensures number { result.place.link ≡ place.link }
    ensures served { IsServed (telling L.left L.taken L.read_faults L.write_faults)
        (C.may shared.now.clock.now) class link result.end result.place.entries }
{
    let mut incoming = Incoming::new(shared.alloc);
    let mut records = 0;
    for _ in rt.forever() {
        let message = match next_record(&mut incoming) {
            Ok(Some(message)) => message,
            Ok(None) => match read_on(&mut link, &mut incoming) {
                None => continue,
                Some(ending) => return over(class, link, ending, records, place),
            },
            Err(ending) => return over(class, link, ending, records, place),
        };
        if records == BUDGET {
            return over(class, link, Ending::Budget, records, place);
        }
        turns.pass(shared.gate);
        let moment = moment_of(shared.clock);
        let arrival = LinkRecord {
            class,
            moment,
            message,
        };
        let (told, outcome) = serve_record(
            rt,
            codecs,
            shared.front,
            shared.history,
            shared.desk,
            place,
            arrival,
        );
        place = told;
        let reply = match outcome {
            Outcome::Replied { reply } => reply,
            Outcome::Lost => return over(class, link, Ending::Memory, records + 1, place),
            Outcome::NoMemory => return over(class, link, Ending::Memory, records, place),
        };
        records += 1;
        let Err(ending) = put_reply(&mut link, reply) else {
            continue;
        };
        return over(class, link, ending, records, place);
    }
    unreachable!()
}

/// Serves the links of one worker, one after the other.
pub fn serve_links<
    B: Room,
    M: Mechanism + Drop,
    X: ReadExtra,
    C: Clock,
    G: TurnGate,
    L: Link + Drop,
    R: Wait,
>(
    rt: &R,
    codecs: &Codecs,
    shared: &Shared<'_, B, M, X, C, G>,
    worker: u32,
    links: VecDeque<Waiting<B, L>>,
) -> Result<VecDeque<Done<B, L>>, AllocError>
    requires { All (λ one. one.place.entries ≡ []) links.items }
    ensures { IfOk result (λ done.
        Each (IsDone (telling L.left L.taken L.read_faults L.write_faults)
        (C.may shared.now.clock.now)) links.items done.items) }
{
    let mut turns = Turns::new(worker);
    let mut done = VecDeque::new(shared.alloc);
    for one in links {
        let Waiting { class, link, place } = one;
        let end = serve_link(rt, codecs, shared, &mut turns, class, link, place);
        done.push_back(end)?;
    }
    Ok(done)
}
