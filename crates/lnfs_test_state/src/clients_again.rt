//! Clients and sessions, made of rows, told as rows and made of them again, with ample memory.

ghost use Rattle.std.specs.Prelude.{◌≡◌, IfOk};
ghost use Rattle.lnfs_rows.specs.Lasts.{given_of, each_of};
ghost use Rattle.lnfs_session.specs.Makes.{MakesClients};

use crate::calls::{came, create, new_session};
use crate::compare::same;
use lnfs_rows::{Channel, ClientRow, Id, Kept, SessionRow, SlotRow};
use lnfs_session::{ClientInfo, ClientRef, Clients};
use std::alloc::{AllocError, Global};
use std::process::Abort;
use std::test::Fail;

/// A client of level 0 that has a session, and one of level 1 that hasn't confirmed its record.
const CONFIRMED: ClientRow<'static> = ClientRow {
    id: Id {
        level: 0,
        number: 3,
    },
    owner: b"one",
    verifier: [7; 8],
    confirmed: true,
    sequence: 2,
    kept: Some(Kept {
        arguments: b"create",
        reply: b"made",
    }),
    reclaimed: true,
    seen: Some(100),
};

const PENDING: ClientRow<'static> = ClientRow {
    id: Id {
        level: 1,
        number: 1,
    },
    owner: b"one",
    verifier: [8; 8],
    confirmed: false,
    sequence: 1,
    kept: None,
    reclaimed: false,
    seen: None,
};

/// The client's session.
const SESSION: Id = Id {
    level: 0,
    number: 1,
};

const CHANNEL: Channel = Channel {
    max_request: 2_048,
    max_response: 4_096,
    max_cached: 8_192,
    max_operations: 9,
    max_requests: 2,
};

/// A slot that keeps what was answered, and one that no request came on.
const USED: SlotRow<'static> = SlotRow {
    sequence: 1,
    kept: Some(Kept {
        arguments: b"call",
        reply: b"first",
    }),
};

const UNUSED: SlotRow<'static> = SlotRow {
    sequence: 0,
    kept: None,
};

/// The slots of the session.
fn slots(alloc: Global) -> Result<Vec<SlotRow<'static>>, AllocError> {
    let mut rows = Vec::new(alloc);
    rows.push(USED)?;
    rows.push(UNUSED)?;
    Ok(rows)
}

/// The two clients with the session, under numbers of which later ones went.
fn planted(alloc: Global) -> Result<Clients, AllocError>
    ensures makes { IfOk result MakesClients }
    ensures clients { IfOk result (λ c. given_of (each_of 2 c.client_lasts) ≡ c.client_lasts) }
    ensures sessions { IfOk result (λ c. given_of (each_of 2 c.session_lasts) ≡ c.session_lasts) }
{
    let session = SessionRow {
        id: SESSION,
        client: 3,
        channel: CHANNEL,
        slots: slots(alloc)?,
    };
    Clients::from_rows(alloc, &[CONFIRMED, PENDING], &[session], &[5, 1], &[7])
}

/// The clients and sessions of the rows that they tell.
fn again(alloc: Global, clients: &Clients) -> Result<Clients, AllocError>
    requires makes { MakesClients clients.now }
    requires clients { given_of (each_of 2 clients.now.client_lasts) ≡ clients.now.client_lasts }
    requires sessions { given_of (each_of 2 clients.now.session_lasts)
        ≡ clients.now.session_lasts }
{
    let records = clients.client_rows()?;
    let sessions = clients.session_rows()?;
    let last_clients = clients.last_clients(2)?;
    let last_sessions = clients.last_sessions(2)?;
    Clients::from_rows(alloc, &records, &sessions, &last_clients, &last_sessions)
}

fn same_kept(rt: &impl Abort, came: Option<Kept<'_>>, due: Option<Kept<'_>>) {
    match (came, due) {
        (Some(came), Some(due)) => {
            same(rt, came.arguments, due.arguments);
            same(rt, came.reply, due.reply);
        }
        (None, None) => {}
        _ => panic!(rt; "one is kept, and one isn't"),
    }
}

fn same_client(rt: &impl Abort, came: &ClientRow<'_>, due: &ClientRow<'_>) {
    same(rt, came.id, due.id);
    same(rt, came.owner, due.owner);
    same(rt, came.verifier, due.verifier);
    same(rt, came.confirmed, due.confirmed);
    same(rt, came.sequence, due.sequence);
    same_kept(rt, came.kept, due.kept);
    same(rt, came.reclaimed, due.reclaimed);
    same(rt, came.seen, due.seen);
}

fn same_clients(rt: &impl Abort, rows: &[ClientRow<'_>]) {
    match rows {
        [one, two] => {
            same_client(rt, one, &CONFIRMED);
            same_client(rt, two, &PENDING);
        }
        _ => panic!(rt; "not two clients"),
    }
}

fn same_slot(rt: &impl Abort, came: &SlotRow<'_>, due: &SlotRow<'_>) {
    same(rt, came.sequence, due.sequence);
    same_kept(rt, came.kept, due.kept);
}

fn same_slots(rt: &impl Abort, slots: &[SlotRow<'_>]) {
    match slots {
        [one, two] => {
            same_slot(rt, one, &USED);
            same_slot(rt, two, &UNUSED);
        }
        _ => panic!(rt; "not two slots"),
    }
}

fn same_session(rt: &impl Abort, came: &SessionRow<'_>) {
    same(rt, came.id, SESSION);
    same(rt, came.client, 3);
    same(rt, came.channel, CHANNEL);
    same_slots(rt, &came.slots);
}

fn same_sessions(rt: &impl Abort, rows: &[SessionRow<'_>]) {
    match rows {
        [one] => same_session(rt, one),
        _ => panic!(rt; "not one session"),
    }
}

/// Compares the last numbers with those that were planted.
fn same_numbers(rt: &impl Abort, clients: &Clients) -> Result<(), AllocError> {
    let last_clients = clients.last_clients(3)?;
    same(rt, last_clients.as_slice(), &[5, 1, 0]);
    let last_sessions = clients.last_sessions(3)?;
    same(rt, last_sessions.as_slice(), &[7, 0, 0]);
    Ok(())
}

/// Compares what clients and sessions tell with what was planted.
fn same_lists(rt: &impl Abort, clients: &Clients) -> Result<(), AllocError> {
    let records = clients.client_rows()?;
    same_clients(rt, &records);
    let sessions = clients.session_rows()?;
    same_sessions(rt, &sessions);
    same_numbers(rt, clients)
}

/// The session is served on: a request that comes again gets the answer that is kept.
fn requests_come(rt: &impl Abort, clients: &Clients) {
    same(rt, came(clients, 0, 1, b"call", 100, 2), "first again");
    same(rt, came(clients, 0, 2, b"call", 100, 2), "new");
    same(rt, came(clients, 1, 1, b"call", 100, 2), "new");
    same(rt, came(clients, 2, 1, b"call", 100, 2), "no slot");
    same(rt, came(clients, 0, 2, b"call", 2_049, 2), "too big");
    same(rt, came(clients, 0, 2, b"call", 100, 10), "too many");
}

/// The records are served on: the confirmed one stays under its owner's name, and new ones get the next numbers.
fn go_on(rt: &impl Abort, alloc: Global, clients: &mut Clients) {
    let one = ClientRef {
        level: 0,
        number: 3,
    };
    let next = ClientRef {
        level: 0,
        number: 6,
    };
    let stays = ClientInfo {
        client: one,
        sequence: 2,
        confirmed: true,
    };
    let fresh = ClientInfo {
        client: next,
        sequence: 1,
        confirmed: false,
    };
    same(rt, clients.kept_created(one), Some(b"made".as_slice()));
    same(rt, clients.renewed(one), Some(100));
    same(rt, clients.exchange_id(0, [7; 8], b"one", 0), Ok(stays));
    same(rt, clients.exchange_id(0, [7; 8], b"two", 0), Ok(fresh));
    same(
        rt,
        create(alloc, clients, 0, 3, 2),
        Ok(new_session(8, None)),
    );
}

#[test]
fn told_and_made_again(rt: HostRuntime) -> Result<(), Fail> {
    let first = planted(rt.alloc())?;
    same_lists(&rt, &first)?;
    let mut second = again(rt.alloc(), &first)?;
    same_lists(&rt, &second)?;
    requests_come(&rt, &second);
    go_on(&rt, rt.alloc(), &mut second);
    Ok(())
}
