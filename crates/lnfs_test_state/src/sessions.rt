//! Each call with ample memory, and requests that come again (RFC 8881 section 2.10.6).
use crate::calls::{
    MADE_AT, SESSION, SESSION_ID, begin, came, create, failed, keep_made, new_session,
};
use crate::compare::same;
use lnfs_session::{ClientInfo, ClientRef, Clients, Created, SessionError, SlotRef};
use std::alloc::{AllocError, Global};
use std::process::Abort;

/// The first client of level 0.
const CLIENT: ClientRef = ClientRef {
    level: 0,
    number: 1,
};

/// What is told of a record that waits to be confirmed, and of one that brought a session.
fn pending(level: u32, number: u32) -> ClientInfo {
    ClientInfo {
        client: ClientRef { level, number },
        sequence: 1,
        confirmed: false,
    }
}

fn confirmed(level: u32, number: u32, sequence: u32) -> ClientInfo {
    ClientInfo {
        client: ClientRef { level, number },
        sequence,
        confirmed: true,
    }
}

/// The client id of a number of level 3.
fn id(number: u64) -> u64 {
    (3 << 32) | number
}

fn number_them(rt: &impl Abort, clients: &mut Clients) {
    let verifier = [7; 8];
    same(
        rt,
        clients.exchange_id(0, verifier, b"one", 0),
        Ok(pending(0, 1)),
    );
    same(
        rt,
        clients.exchange_id(1, verifier, b"one", 0),
        Ok(pending(1, 1)),
    );
    same(
        rt,
        clients.exchange_id(0, verifier, b"two", 0),
        Ok(pending(0, 2)),
    );
    same(
        rt,
        clients.exchange_id(0, verifier, b"one", 0),
        Ok(pending(0, 3)),
    );
    // The one whose record gave way, and one that is there.
    same(
        rt,
        clients.destroy_clientid(0, 1, false),
        Err(failed(10022)),
    );
    same(rt, clients.destroy_clientid(0, 3, false), Ok(()));
}

#[test]
fn numbers_rise_in_each_level(rt: HostRuntime) {
    let mut clients = Clients::new(rt.alloc());
    number_them(&rt, &mut clients);
}

/// Which record gave way to one of level 3 that brings its first session.
fn dropped_for(
    alloc: Global,
    clients: &mut Clients,
    number: u64,
) -> Result<Option<ClientRef>, SessionError> {
    match create(alloc, clients, 3, id(number), 1)? {
        Created::New { dropped, .. } => Ok(dropped),
        Created::Replay => Err(failed(0)),
    }
}

fn wait_to_be_confirmed(rt: &impl Abort, clients: &mut Clients) {
    same(
        rt,
        clients.exchange_id(3, [1; 8], b"one", 0),
        Ok(pending(3, 1)),
    );
    same(
        rt,
        clients.exchange_id(3, [2; 8], b"two", 0),
        Ok(pending(3, 2)),
    );
    same(
        rt,
        clients.exchange_id(5, [1; 8], b"one", 0),
        Ok(pending(5, 1)),
    );
    // A pending record gives way.
    same(
        rt,
        clients.exchange_id(3, [4; 8], b"one", 0),
        Ok(pending(3, 3)),
    );
    same(
        rt,
        clients.destroy_clientid(3, id(1), false),
        Err(failed(10022)),
    );
}

/// One is confirmed.
fn confirm_one(rt: &impl Abort, alloc: Global, clients: &mut Clients) {
    same(rt, dropped_for(alloc, clients, 3), Ok(None));
    // Its sequence moves only where the answer is kept.
    same(
        rt,
        clients.exchange_id(3, [4; 8], b"one", 0),
        Ok(confirmed(3, 3, 1)),
    );
    same(
        rt,
        clients.exchange_id(5, [4; 8], b"one", 0),
        Ok(pending(5, 2)),
    );
    same(
        rt,
        clients.exchange_id(3, [5; 8], b"one", 0),
        Ok(pending(3, 4)),
    );
}

/// Then another takes its place.
fn confirm_another(
    rt: &impl Abort,
    alloc: Global,
    clients: &mut Clients,
) -> Result<(), AllocError> {
    let third = ClientRef {
        level: 3,
        number: 3,
    };
    let fourth = ClientRef {
        level: 3,
        number: 4,
    };
    same(rt, dropped_for(alloc, clients, 4), Ok(Some(third)));
    keep_made(alloc, clients, fourth)?;
    same(
        rt,
        clients.exchange_id(3, [5; 8], b"one", 0),
        Ok(confirmed(3, 4, 2)),
    );
    same(rt, clients.reclaim_complete(fourth, false), Ok(()));
    same(
        rt,
        clients.reclaim_complete(fourth, false),
        Err(failed(10054)),
    );
    Ok(())
}

/// It goes, and the next gets a new number.
fn end_it(rt: &impl Abort, clients: &mut Clients) {
    let session = [0, 0, 0, 3, 0, 0, 0, 0, 0, 0, 0, 2, 0, 0, 0, 0];
    same(rt, clients.destroy_session(3, session), Ok(()));
    same(rt, clients.destroy_clientid(3, id(4), false), Ok(()));
    same(
        rt,
        clients.exchange_id(3, [5; 8], b"one", 0),
        Ok(pending(3, 5)),
    );
    same(rt, clients.destroy_clientid(3, id(2), false), Ok(()));
}

#[test]
fn records_are_found_by_their_owners(rt: HostRuntime) -> Result<(), AllocError> {
    let alloc = rt.alloc();
    let mut clients = Clients::new(alloc);
    wait_to_be_confirmed(&rt, &mut clients);
    confirm_one(&rt, alloc, &mut clients);
    confirm_another(&rt, alloc, &mut clients)?;
    end_it(&rt, &mut clients);
    Ok(())
}

fn create_once(rt: &impl Abort, alloc: Global, clients: &mut Clients) -> Result<(), AllocError> {
    same(
        rt,
        clients.exchange_id(0, [7; 8], b"owner", 0),
        Ok(pending(0, 1)),
    );
    same(
        rt,
        create(alloc, clients, 0, 1, 1),
        Ok(new_session(1, None)),
    );
    keep_made(alloc, clients, CLIENT)?;
    same(rt, create(alloc, clients, 0, 1, 1), Ok(Created::Replay));
    same(rt, clients.kept_created(CLIENT), Some(b"made".as_slice()));
    Ok(())
}

/// Another boot of the client takes its place.
fn boot_again(rt: &impl Abort, alloc: Global, clients: &mut Clients) {
    same(
        rt,
        clients.exchange_id(0, [8; 8], b"owner", 0),
        Ok(pending(0, 2)),
    );
    same(
        rt,
        create(alloc, clients, 0, 2, 1),
        Ok(new_session(2, Some(CLIENT))),
    );
    same(
        rt,
        clients.destroy_session(0, SESSION_ID),
        Err(failed(10052)),
    );
}

#[test]
fn a_session_is_made_once_for_a_sequence(rt: HostRuntime) -> Result<(), AllocError> {
    let mut clients = Clients::new(rt.alloc());
    create_once(&rt, rt.alloc(), &mut clients)?;
    boot_again(&rt, rt.alloc(), &mut clients);
    Ok(())
}

/// A request on slot 3 of the session is settled.
fn settle_first(alloc: Global, clients: &mut Clients) -> Result<(), AllocError> {
    let at = SlotRef {
        session: SESSION,
        slot: 3,
    };
    let bytes = Vec::from_slice(alloc, b"a")?;
    let reply = Vec::from_slice(alloc, b"first")?;
    clients.settle(at, 1, bytes, reply);
    Ok(())
}

fn come_again(rt: &impl Abort, clients: &Clients) {
    same(rt, came(clients, 3, 1, b"a", 65_536, 32), "first again");
    same(rt, came(clients, 3, 1, b"b", 65_536, 32), "false retry");
    same(rt, came(clients, 3, 2, b"b", 65_536, 32), "new");
    same(rt, came(clients, 3, 3, b"b", 65_536, 32), "misordered");
    same(rt, came(clients, 4, 1, b"a", 65_536, 32), "new");
    same(rt, came(clients, 16, 1, b"a", 65_536, 32), "no slot");
    same(rt, came(clients, 3, 2, b"b", 65_537, 32), "too big");
    same(rt, came(clients, 3, 2, b"b", 65_536, 33), "too many");
}

fn come_twice(rt: &impl Abort, alloc: Global, clients: &mut Clients) -> Result<(), SessionError> {
    begin(alloc, clients)?;
    same(rt, came(clients, 3, 1, b"a", 65_536, 32), "new");
    settle_first(alloc, clients)?;
    come_again(rt, clients);
    Ok(())
}

#[test]
fn a_request_that_comes_again_gets_its_first_result(rt: HostRuntime) -> Result<(), SessionError> {
    let mut clients = Clients::new(rt.alloc());
    come_twice(&rt, rt.alloc(), &mut clients)
}

/// A sequence on slot 0 is settled, without bytes.
fn settle_empty(alloc: Global, clients: &mut Clients, sequence: u32) {
    let at = SlotRef {
        session: SESSION,
        slot: 0,
    };
    clients.settle(at, sequence, Vec::new(alloc), Vec::new(alloc));
}

fn come_round(rt: &impl Abort, alloc: Global, clients: &mut Clients) -> Result<(), SessionError> {
    begin(alloc, clients)?;
    settle_empty(alloc, clients, u32::MAX);
    same(rt, came(clients, 0, 0, b"a", 9, 1), "new");
    same(rt, came(clients, 0, 1, b"a", 9, 1), "misordered");
    let before = u32::MAX - 1;
    same(rt, came(clients, 0, before, b"a", 9, 1), "misordered");
    settle_empty(alloc, clients, 0);
    same(rt, came(clients, 0, 1, b"a", 9, 1), "new");
    Ok(())
}

/// After the last sequence of a slot comes 0.
#[test]
fn sequences_come_round(rt: HostRuntime) -> Result<(), SessionError> {
    let mut clients = Clients::new(rt.alloc());
    come_round(&rt, rt.alloc(), &mut clients)
}

fn end(rt: &impl Abort, alloc: Global, clients: &mut Clients) -> Result<(), SessionError> {
    begin(alloc, clients)?;
    same(rt, clients.reclaim_complete(CLIENT, false), Ok(()));
    let again = clients.reclaim_complete(CLIENT, false);
    same(rt, again, Err(failed(10054)));
    let with_session = clients.destroy_clientid(0, 1, false);
    same(rt, with_session, Err(failed(10074)));
    same(rt, clients.destroy_session(0, SESSION_ID), Ok(()));
    let with_opens = clients.destroy_clientid(0, 1, true);
    same(rt, with_opens, Err(failed(10074)));
    same(rt, clients.destroy_clientid(0, 1, false), Ok(()));
    Ok(())
}

#[test]
fn a_client_ends_after_its_sessions(rt: HostRuntime) -> Result<(), SessionError> {
    let mut clients = Clients::new(rt.alloc());
    end(&rt, rt.alloc(), &mut clients)
}

/// EXCHANGE_ID begins no lease, and what isn't there has none.
fn begin_lease(rt: &impl Abort, alloc: Global, clients: &mut Clients) -> Result<(), SessionError> {
    clients.exchange_id(0, [7; 8], b"owner", 0)?;
    same(rt, clients.renewed(CLIENT), None);
    same(rt, clients.over(CLIENT, u64::MAX), false);
    create(alloc, clients, 0, 1, 1)?;
    same(rt, clients.renewed(CLIENT), Some(MADE_AT));
    let other = ClientRef {
        level: 1,
        number: 1,
    };
    same(rt, clients.renewed(other), None);
    same(rt, clients.over(other, u64::MAX), false);
    Ok(())
}

/// A lease is over above 90 seconds, and not where clocks were set back.
fn be_silent(rt: &impl Abort, clients: &mut Clients) {
    same(rt, clients.over(CLIENT, 0), false);
    same(rt, clients.over(CLIENT, 190), false);
    same(rt, clients.over(CLIENT, 191), true);
    clients.renew(CLIENT, 191);
    same(rt, clients.renewed(CLIENT), Some(191));
    same(rt, clients.over(CLIENT, 281), false);
    same(rt, clients.over(CLIENT, 282), true);
}

#[test]
fn a_client_is_silent_for_longer_than_its_lease(rt: HostRuntime) -> Result<(), SessionError> {
    let mut clients = Clients::new(rt.alloc());
    begin_lease(&rt, rt.alloc(), &mut clients)?;
    be_silent(&rt, &mut clients);
    Ok(())
}
