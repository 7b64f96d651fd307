//! Opens of two levels, of which level 1 dominates level 0. Each call that takes memory has ample memory.
use crate::compare::same;
use lnfs_calipso::{Label, Lattice, LatticeError, Level};
use lnfs_open::{ClientKey, NodeKey, OpenError, OpenRef, Opens};
use lnfs_world::numbers::OPENS_OF_A_LEVEL;
use std::alloc::Global;
use std::process::Abort;

const LOW: Level = Level(0);

const HIGH: Level = Level(1);

const FILE: NodeKey = NodeKey {
    level: LOW,
    number: 7,
};

const OTHER: NodeKey = NodeKey {
    level: LOW,
    number: 8,
};

fn client(level: Level) -> ClientKey {
    ClientKey { level, number: 1 }
}

fn reference(level: Level, number: u32, seq: u32) -> OpenRef {
    OpenRef { level, number, seq }
}

fn lattice(alloc: Global) -> Result<Lattice, LatticeError> {
    Lattice::new(alloc, &[Label::bare(alloc, 1, 0), Label::bare(alloc, 1, 5)])
}

/// What is open, for what and denying what, and whether each request conflicts with it (RFC 8881 section 9.7): requests for
/// reading, for writing and for both, each denying nothing, reading, writing and both.
const CONFLICTS: &[(u32, u32, &[u8; 12])] = &[
    (1, 0, b".x.x.x.x.x.x"),
    (2, 0, b"..xx..xx..xx"),
    (3, 0, b".xxx.xxx.xxx"),
    (1, 1, b"xxxx.x.xxxxx"),
    (2, 1, b"xxxx..xxxxxx"),
    (3, 1, b"xxxx.xxxxxxx"),
    (1, 2, b".x.xxxxxxxxx"),
    (2, 2, b"..xxxxxxxxxx"),
    (3, 2, b".xxxxxxxxxxx"),
    (1, 3, b"xxxxxxxxxxxx"),
    (2, 3, b"xxxxxxxxxxxx"),
    (3, 3, b"xxxxxxxxxxxx"),
];

/// Whether an open stands in the way of what a subject asks, where no lease is over.
fn stops(
    opens: &Opens,
    lattice: &Lattice,
    subject: Level,
    own: Option<(ClientKey, &[u8])>,
    node: NodeKey,
    access: u32,
    deny: u32,
) -> bool {
    let over = |_client: ClientKey| false;
    opens.conflicts(lattice, subject, own, node, access, deny, &over)
}

/// Each one's request of one kind.
fn each_one_asks(
    rt: &impl Abort,
    lattice: &Lattice,
    opens: &Opens,
    access: u32,
    deny: u32,
    conflicts: bool,
) {
    // Another owner of the level, and one above it; one's own open, an open of another file, and one from above
    // stand in nobody's way.
    let two = Some((client(LOW), b"two".as_slice()));
    let high = Some((client(HIGH), b"one".as_slice()));
    let own = Some((client(LOW), b"one".as_slice()));
    same(
        rt,
        stops(opens, lattice, LOW, two, FILE, access, deny),
        conflicts,
    );
    same(
        rt,
        stops(opens, lattice, HIGH, high, FILE, access, deny),
        conflicts,
    );
    same(
        rt,
        stops(opens, lattice, HIGH, None, FILE, access, deny),
        conflicts,
    );
    same(
        rt,
        stops(opens, lattice, LOW, own, FILE, access, deny),
        false,
    );
    same(
        rt,
        stops(opens, lattice, LOW, None, OTHER, access, deny),
        false,
    );
}

/// Each request beside what is open, as a row of `CONFLICTS` tells.
fn each_is_asked(rt: &impl Abort, lattice: &Lattice, opens: &Opens, told: &[u8; 12]) {
    for place in 0..12 {
        let access = (place / 4 + 1) as u32;
        let deny = (place % 4) as u32;
        each_one_asks(rt, lattice, opens, access, deny, told[place] == b'x');
    }
}

/// One open, and one from above behind it.
fn one_open(
    rt: &impl Abort,
    lattice: &Lattice,
    opens: &mut Opens,
    access: u32,
    deny: u32,
    told: &[u8; 12],
) {
    let low = client(LOW);
    let opened = opens.open(low, b"one", FILE, access, deny);
    same(rt, opened, Ok(reference(LOW, 1, 1)));
    each_is_asked(rt, lattice, opens, told);
    opens.drop_client(low);
    let opened = opens.open(client(HIGH), b"one", FILE, access, deny);
    same(rt, opened, Ok(reference(HIGH, 1, 1)));
    same(rt, stops(opens, lattice, LOW, None, FILE, 3, 3), false);
}

#[test]
fn every_conflict(rt: HostRuntime) -> Result<(), LatticeError> {
    let lattice = lattice(rt.alloc())?;
    for (access, deny, told) in CONFLICTS {
        let mut opens = Opens::new(rt.alloc());
        one_open(&rt, &lattice, &mut opens, *access, *deny, told);
    }
    Ok(())
}

/// What an open is for and denies, and its sequence.
fn shares(
    opens: &Opens,
    who: ClientKey,
    node: NodeKey,
    id: OpenRef,
) -> Result<(u32, u32, u32), OpenError> {
    let row = opens.find(who, node, id)?;
    Ok((row.access, row.deny, row.seq))
}

/// Two owners, and one of the level above. The first opens the file again.
fn open_four_times(rt: &impl Abort, opens: &mut Opens) {
    let (low, high) = (client(LOW), client(HIGH));
    same(
        rt,
        opens.open(low, b"one", FILE, 1, 0),
        Ok(reference(LOW, 1, 1)),
    );
    same(
        rt,
        opens.open(low, b"two", FILE, 1, 0),
        Ok(reference(LOW, 2, 1)),
    );
    same(
        rt,
        opens.open(high, b"one", FILE, 1, 0),
        Ok(reference(HIGH, 1, 1)),
    );
    // The same owner's open is joined, and keeps what it had.
    same(
        rt,
        opens.open(low, b"one", FILE, 2, 2),
        Ok(reference(LOW, 1, 2)),
    );
    same(
        rt,
        shares(opens, low, FILE, reference(LOW, 1, 2)),
        Ok((3, 2, 2)),
    );
}

/// Why no open is found.
fn missed(opens: &Opens, who: ClientKey, node: NodeKey, id: OpenRef) -> Option<OpenError> {
    opens.find(who, node, id).err()
}

/// Any sequence; an old one, a future one; another file, another client, another level, and no such number.
fn look_for_the_first(rt: &impl Abort, opens: &Opens) {
    let low = client(LOW);
    let second = ClientKey {
        level: LOW,
        number: 2,
    };
    let bad = Some(OpenError::Bad);
    same(rt, missed(opens, low, FILE, reference(LOW, 1, 0)), None);
    same(
        rt,
        missed(opens, low, FILE, reference(LOW, 1, 1)),
        Some(OpenError::Old),
    );
    same(rt, missed(opens, low, FILE, reference(LOW, 1, 3)), bad);
    same(rt, missed(opens, low, OTHER, reference(LOW, 1, 2)), bad);
    same(rt, missed(opens, second, FILE, reference(LOW, 1, 2)), bad);
    same(
        rt,
        missed(opens, client(HIGH), FILE, reference(LOW, 1, 2)),
        bad,
    );
    same(rt, missed(opens, low, FILE, reference(HIGH, 1, 1)), bad);
    same(rt, missed(opens, low, FILE, reference(LOW, 3, 1)), bad);
}

fn close_the_first(rt: &impl Abort, opens: &mut Opens) {
    let low = client(LOW);
    same(
        rt,
        opens.close(low, FILE, reference(LOW, 1, 1)),
        Err(OpenError::Old),
    );
    same(rt, opens.close(low, FILE, reference(LOW, 1, 2)), Ok(()));
    same(
        rt,
        opens.close(low, FILE, reference(LOW, 1, 2)),
        Err(OpenError::Bad),
    );
    // Numbers aren't given again.
    same(
        rt,
        opens.open(low, b"one", FILE, 1, 0),
        Ok(reference(LOW, 3, 1)),
    );
}

#[test]
fn references(rt: HostRuntime) {
    let mut opens = Opens::new(rt.alloc());
    open_four_times(&rt, &mut opens);
    look_for_the_first(&rt, &opens);
    close_the_first(&rt, &mut opens);
}

/// Two files of two levels.
fn open_three(rt: &impl Abort, opens: &mut Opens) {
    let (low, high) = (client(LOW), client(HIGH));
    same(
        rt,
        opens.open(low, b"one", FILE, 3, 3),
        Ok(reference(LOW, 1, 1)),
    );
    same(
        rt,
        opens.open(high, b"one", FILE, 3, 3),
        Ok(reference(HIGH, 1, 1)),
    );
    same(
        rt,
        opens.open(low, b"one", OTHER, 3, 3),
        Ok(reference(LOW, 2, 1)),
    );
}

fn drop_them(rt: &impl Abort, lattice: &Lattice, opens: &mut Opens) {
    let low = client(LOW);
    opens.drop_node(FILE);
    same(rt, stops(opens, lattice, HIGH, None, FILE, 3, 3), false);
    same(rt, stops(opens, lattice, HIGH, None, OTHER, 1, 0), true);
    same(rt, opens.any_of(low), true);
    same(rt, opens.any_of(client(HIGH)), false);
    opens.drop_client(low);
    same(rt, opens.any_of(low), false);
    same(rt, stops(opens, lattice, HIGH, None, OTHER, 3, 3), false);
}

#[test]
fn nodes_and_clients_go(rt: HostRuntime) -> Result<(), LatticeError> {
    let lattice = lattice(rt.alloc())?;
    let mut opens = Opens::new(rt.alloc());
    open_three(&rt, &mut opens);
    drop_them(&rt, &lattice, &mut opens);
    Ok(())
}

/// Opens as many files as a level may have.
fn fill(rt: &impl Abort, opens: &mut Opens) {
    let low = client(LOW);
    for number in 1..OPENS_OF_A_LEVEL + 1 {
        let node = NodeKey { level: LOW, number };
        let opened = opens.open(low, b"one", node, 1, 0);
        same(rt, opened, Ok(reference(LOW, number, 1)));
    }
}

fn ask_for_room(rt: &impl Abort, opens: &mut Opens) {
    let low = client(LOW);
    same(
        rt,
        opens.open(low, b"two", FILE, 1, 0),
        Err(OpenError::Full),
    );
    same(
        rt,
        opens.room(low, b"two", Some(FILE)),
        Err(OpenError::Full),
    );
    same(rt, opens.room(low, b"one", None), Err(OpenError::Full));
    // What is there is joined, and another level has room.
    same(rt, opens.room(low, b"one", Some(FILE)), Ok(()));
    same(
        rt,
        opens.open(low, b"one", FILE, 2, 0),
        Ok(reference(LOW, 7, 2)),
    );
    same(rt, opens.room(client(HIGH), b"one", None), Ok(()));
    opens.drop_node(FILE);
    same(rt, opens.room(low, b"two", None), Ok(()));
}

#[test]
fn a_level_is_full(rt: HostRuntime) {
    let mut opens = Opens::new(rt.alloc());
    fill(&rt, &mut opens);
    ask_for_room(&rt, &mut opens);
}

/// Opens of silent clients of two levels. Each is in nobody's way, and a request of its own level ends it.
fn give_way(rt: &impl Abort, lattice: &Lattice, opens: &mut Opens) {
    let (low, high) = (client(LOW), client(HIGH));
    let over = |_client: ClientKey| true;
    let first = reference(LOW, 1, 1);
    same(rt, opens.open(low, b"one", FILE, 1, 1), Ok(first));
    same(
        rt,
        opens.conflicts(lattice, LOW, None, FILE, 1, 0, &over),
        false,
    );
    opens.revoke(HIGH, (high, b"two".as_slice()), FILE, 1, 0, &over);
    same(rt, missed(opens, low, FILE, first), None);
    // Its own, and what isn't in the way.
    opens.revoke(LOW, (low, b"one".as_slice()), FILE, 1, 0, &over);
    opens.revoke(LOW, (low, b"two".as_slice()), FILE, 2, 0, &over);
    opens.revoke(LOW, (low, b"two".as_slice()), OTHER, 1, 0, &over);
    same(rt, missed(opens, low, FILE, first), None);
    opens.revoke(LOW, (low, b"two".as_slice()), FILE, 1, 0, &over);
    same(rt, missed(opens, low, FILE, first), Some(OpenError::Bad));
}

/// Where no lease is over, nothing gives way.
fn stay(rt: &impl Abort, opens: &mut Opens) {
    let low = client(LOW);
    let over = |_client: ClientKey| false;
    let second = reference(LOW, 2, 1);
    same(rt, opens.open(low, b"one", FILE, 1, 1), Ok(second));
    opens.revoke(LOW, (low, b"two".as_slice()), FILE, 1, 0, &over);
    same(rt, missed(opens, low, FILE, second), None);
}

#[test]
fn opens_of_silent_clients_give_way(rt: HostRuntime) -> Result<(), LatticeError> {
    let lattice = lattice(rt.alloc())?;
    let mut opens = Opens::new(rt.alloc());
    give_way(&rt, &lattice, &mut opens);
    stay(&rt, &mut opens);
    Ok(())
}
