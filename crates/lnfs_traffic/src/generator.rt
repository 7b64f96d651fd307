//! Events that guests of a site might send, drawn by a seed.
ghost use Rattle.std.specs.Prelude.{◌≡◌, ◌<◌, ◌^◌, All, IfOk};
ghost use Rattle.lnfs_types.specs.Moments.{Fits};
ghost use Rattle.lnfs_calls.specs.CallTexts.{IsRequest};
ghost use Rattle.lnfs_traffic.specs.Generated.{next_number, message, event_of, generated};

use crate::asking::ops_of;
use crate::calls::write_request;
use crate::guests::{Row, rows};
use crate::turns::{Past, Turn, next_past};
use lnfs_arguments::Compound;
use lnfs_policy::Policy;
use lnfs_requests::write_compound;
use lnfs_types::{Event, Items, Moment, Octets};
use std::alloc::{AllocError, Global};
use std::collections::BTreeMap;

/// The number after a number.
fn next_number(x: u64) -> u64
    ensures { result ≡ next_number x }
{
    x.wrapping_mul(6_364_136_223_846_793_005)
        .wrapping_add(1_442_695_040_888_963_407)
}

/// The record of an event of a guest.
#[tactic(auto, unfolding(crate::specs::Generated::message))]
fn message_of(alloc: Global, row: &Row, turn: &Turn) -> Result<Vec<u8>, AllocError>
    ensures text { IfOk result (λ bytes. bytes.items ≡ message row.now turn.now) }
    ensures request { IfOk result (λ bytes. IsRequest bytes.items) }
{
    let Row { uid, .. } = *row;
    let Turn { event, .. } = *turn;
    let content = [(event % 256) as u8; 64];
    let ops = ops_of(alloc, row, turn, &content)?;
    let compound = Compound {
        tag: Octets::new(Vec::new(alloc)),
        minor: 2,
        count: ops.len() as u32,
        ops: Items::new(ops),
    };
    let arguments = write_compound(alloc, &compound)?;
    write_request(alloc, event, uid, &arguments)
}

fn event_of(alloc: Global, row: &Row, turn: &Turn) -> Result<Event, AllocError>
    ensures event { IfOk result (λ event. event ≡ event_of row.now turn.now) }
    ensures fits { IfOk result Fits }
    ensures request { IfOk result (λ event. IsRequest event.message) }
{
    let Turn { event, place, .. } = *turn;
    let moment = Moment {
        secs: u64::from(event),
        nanos: 0,
    };
    Ok(Event {
        class: row.class,
        link: place,
        moment,
        message: Octets::new(message_of(alloc, row, turn)?),
    })
}

/// A guest that has had nothing.
const NOTHING: Past = Past {
    events: 0,
    client: 0,
    session: 0,
};

/// The first `n` events that a seed gives of a site's guests: which guest sends, and what it asks for, is
/// drawn. Each guest makes itself a client and then a session, and then works in the root directory, on
/// files of the names `g0` to `g99`.
pub fn generate(alloc: Global, policy: &Policy, seed: u64, n: u32) -> Result<Vec<Event>, AllocError>
    ensures events { IfOk result (λ events. events.items ≡ generated policy.now seed n) }
    ensures fit { IfOk result (λ events. All Fits events.items) }
    ensures requests { IfOk result (λ events. All (λ event. IsRequest event.message) events.items) }
{
    let rows = rows(alloc, policy)?;
    let mut pasts = vec![in alloc; NOTHING; rows.len()]?;
    let mut clients = BTreeMap::new(alloc);
    let mut sessions = BTreeMap::new(alloc);
    let mut events = Vec::new(alloc);
    let mut x = seed;
    for before in 0..n {
        x = next_number(x);
        let roll = x >> 33;
        let place = (roll % rows.len() as u64) as usize;
        let row = rows[place];
        let past = next_past(pasts[place], row.level, &mut clients, &mut sessions)?;
        pasts[place] = Past {
            events: past.events + 1,
            client: past.client,
            session: past.session,
        };
        let turn = Turn {
            event: before + 1,
            place: place as u32,
            pick: (roll / 1024) as u32,
            past,
        };
        events.push(event_of(alloc, &row, &turn)?)?;
    }
    Ok(events)
}
