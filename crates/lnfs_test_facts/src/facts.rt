//! Facts of a server's state: where one of them is broken, a checkpoint isn't taken.
//!
//! In each table a name, the edits of the rows of a checkpoint, and what becomes of it. Before each row its list and its place
//! in it is told. Of the checkpoint after `EVENTS` these are
//!
//! - clients: 0 to 2 are (0,1), (0,2) and (3,1). The first has the owner `c1`, the second isn't confirmed.
//! - sessions: (0,1) and (3,1); contexts: (3,2).
//! - nodes: 0 to 3 are the root and `one`, `two` and `top`; 4 the file `f`; 5 the link `l`; 6 the directory `d` of the number 7;
//!   7 to 9 the links `b`, `c` and `m` of the numbers 9 to 11; 10 the file `g`; 11 the directory `e`, which is (3,1).
//! - entries: 0 to 7 are of the root, in the order of the nodes, `m` before `g`; 8 is `e` in `top`; 9 and 10 are `b` and `c` in
//!   `d`, under the cookies 4 and 5.
//! - opens: (0,1) and (3,1) of `f`, and between them (0,2) of `g`.
//! - locks: (0,1) of the owner `a` and (0,2) of `b`, under the open (0,2). The first has 0 to 3 and 6 to 9 for write, the second
//!   4 to 5 for read.
use crate::edited::check_after;
use lnfs_test_checkpoint_support::recordings::EVENTS;
use lnfs_test_support::flaw::Flaw;
use lnfs_test_support::site::POLICY;
use std::alloc::Global;

/// The nodes are one tree, whose names differ in each directory; what a row names is there.
const TREE: &str = "
an entry in a file | entry 9 directory 5 | unfit
an entry in a directory that isn't there | entry 10 directory 8 | unfit
an entry of a node that isn't there | entry 10 again; entry 11 cookie 6; entry 11 name 'h'; entry 11 node 8; node 6 cookies 7 | unfit
a node without a name | entry 10 drop | unfit
a directory of two names | entry 8 again; entry 9 cookie 4; entry 9 name 'h'; node 3 cookies 5 | unfit
a name of the root | entry 10 again; entry 11 cookie 6; entry 11 name 'h'; entry 11 node 1; node 6 cookies 7 | unfit
a directory under itself | entry 5 drop; entry 9 again; entry 10 cookie 6; entry 10 name 'd'; entry 10 node 7; node 6 cookies 7 | unfit
two directories under each other | node 7 kind directory; node 7 content ''; node 7 cookies 4; entry 5 drop; \
entry 9 again; entry 10 directory 9; entry 10 cookie 3; entry 10 name 'd'; entry 10 node 7 | unfit
a name twice | entry 10 name 'b' | unfit
a name in two directories | entry 10 name 'f' | taken
a file of two names | entry 10 again; entry 11 cookie 6; entry 11 name 'h'; node 6 cookies 7 | taken
a session of a client that isn't there | session 0 client 3 | unfit
an open of a client that isn't there | open 0 client 3 | unfit
an open of a node that isn't there | open 0 node 8 | unfit
";

/// Labels go up from a home, and from a directory to its entries.
const LABELS: &str = "
a label below the home | node 11 label 1 | unfit
a label that doesn't compare | node 11 label 2 | unfit
a label below that of the directory | \
entry 8 again; entry 9 cookie 4; entry 9 name 'f'; entry 9 home 0; entry 9 node 5; node 3 cookies 5 | unfit
a name in a directory of a level between | node 9 label 3; entry 8 again; entry 8 directory 2; entry 8 cookie 3; \
entry 8 name 'm'; entry 8 home 0; entry 8 node 11; node 1 cookies 4 | unfit
a second name in a directory of its label | entry 8 again; entry 8 directory 2; entry 8 cookie 3; \
entry 8 name 'm'; entry 8 home 0; entry 8 node 11; node 1 cookies 4 | taken
no name in a directory of its home | entry 8 again; entry 8 directory 2; entry 8 cookie 3; \
entry 8 name 'm'; entry 8 home 0; entry 8 node 11; node 1 cookies 4; entry 6 drop | unfit
an open of a node of a home above | open 0 home 3; open 0 node 1 | unfit
a label above, of a link | node 9 label 3 | taken
more bytes than the quota of a level | node 10 label 1; node 10 content x5000 | taken
";

/// Rows lie in the order of their identifiers.
const ORDER: &str = "
clients in another order | client 0 swap 1 | unfit
sessions in another order | session 0 swap 1 | unfit
contexts in another order | context 0 again; context 0 number 1; context 0 swap 1 | unfit
nodes in another order | node 0 swap 1 | unfit
entries in another order | entry 9 swap 10 | unfit
entries of two directories in another order | entry 8 swap 9 | unfit
opens in another order | open 0 swap 1 | unfit
a client twice | client 1 again; client 2 owner 'c9' | unfit
a session twice | session 0 again | unfit
a context twice | context 0 again | unfit
a node twice | node 4 again | unfit
a cookie twice | entry 10 again; entry 11 name 'h' | unfit
an open twice | open 0 again; open 1 owner 'q' | unfit
";

/// Identifiers are given from 1 on, by levels of the policy, and the last number that was given is known.
const NUMBERS: &str = "
a client above the last | last 0 clients 1 | unfit
a session above the last | last 3 sessions 0 | unfit
a context above the last | last 3 contexts 1 | unfit
a node above the last | last 0 nodes 11 | unfit
an open above the last | last 0 opens 1 | unfit
clients up to the last | last 0 clients 2 | taken
a client of the number 0 | client 0 again; client 0 number 0; client 0 owner 'c9' | unfit
a session of the number 0 | session 0 again; session 0 number 0 | unfit
a context of the number 0 | context 0 again; context 0 number 0 | unfit
a node of the number 0 | node 0 again; node 0 number 0; node 0 kind file; node 0 cookies 3; \
entry 10 again; entry 11 cookie 6; entry 11 name 'h'; entry 11 node 0; node 7 cookies 7 | unfit
an open of the number 0 | open 0 again; open 0 number 0; open 0 owner 'q' | unfit
clients up to the highest number | last 0 clients 4294967295 | taken
sessions up to the highest number | last 0 sessions 4294967295 | taken
contexts up to the highest number | last 0 contexts 4294967295 | taken
nodes up to the highest number | last 0 nodes 4294967295 | taken
opens up to the highest number | last 0 opens 4294967295 | taken
clients above the highest number | last 0 clients 4294967296 | unfit
sessions above the highest number | last 0 sessions 4294967296 | unfit
contexts above the highest number | last 0 contexts 4294967296 | unfit
nodes above the highest number | last 0 nodes 4294967296 | unfit
opens above the highest number | last 0 opens 4294967296 | unfit
";

/// Levels are of the policy.
const LEVELS: &str = "
a client of another level | client 2 again; client 3 level 4 | unfit
a session of another level | session 1 again; session 2 level 4 | unfit
a context of another level | context 0 level 4 | unfit
a node of another level | node 11 again; node 12 level 4; node 12 label 4 | unfit
a label that isn't there | node 9 label 4 | unfit
an open of another level | open 2 again; open 3 level 4 | unfit
an entry of a node of another level | entry 8 home 4 | unfit
an open of a node of another level | open 2 home 4 | unfit
the highest level that there may be | context 0 level 4294967295 | unfit
";

/// Of an owner at most one client is confirmed, and at most one isn't; those with sessions and opens are, and have a lease.
const CLIENTS: &str = "
a session of a client that isn't confirmed | open 2 drop; client 2 confirmed no | unfit
an open of a client that isn't confirmed | session 1 drop; client 2 confirmed no | unfit
a client that isn't confirmed | session 1 drop; open 2 drop; client 2 confirmed no | taken
two confirmed clients of an owner | client 1 owner 'c1'; client 1 confirmed yes; client 1 seen 5 | unfit
a confirmed client of an owner and another | client 1 owner 'c1' | taken
two clients of an owner that aren't confirmed | client 1 again; client 2 number 3; last 0 clients 3 | unfit
a confirmed client without a lease | client 0 seen none | unfit
the last moment of a lease | client 0 seen 18446744073709551615 | taken
a client that isn't confirmed, with a lease | client 1 seen 5 | taken
an owner of 1,024 bytes | client 0 owner x1024 | taken
an owner of 1,025 bytes | client 0 owner x1025 | unfit
a kept result of 1,132 bytes | client 0 reply x1132 | taken
a kept result of 1,133 bytes | client 0 reply x1133 | unfit
a kept result of a client that isn't confirmed | client 1 reply x1133 | unfit
";

/// Sessions grant what a server grants, and keep results that fit.
const SESSIONS: &str = "
requests of 2,047 bytes | session 0 request 2047 | unfit
requests of 2,048 bytes | session 0 request 2048 | taken
requests of 65,537 bytes | session 0 request 65537 | unfit
responses of 2,047 bytes | session 0 response 2047 | unfit
responses of 2,048 bytes | session 0 response 2048 | taken
responses of 65,537 bytes | session 0 response 65537 | unfit
cached responses of 2,047 bytes | session 0 cached 2047 | unfit
cached responses of 2,048 bytes | session 0 cached 2048 | taken
cached responses of 65,537 bytes | session 0 cached 65537 | unfit
no operation | session 0 operations 0 | unfit
one operation | session 0 operations 1 | taken
33 operations | session 0 operations 33 | unfit
no request | session 0 requests 0; session 0 slots 0 | unfit
one request | session 0 requests 1; session 0 slots 1 | taken
17 requests | session 0 requests 17; session 0 slots 17 | unfit
a slot less than requests | session 0 slots 15 | unfit
a slot more than requests | session 0 requests 15 | unfit
a kept result that fits | session 0 response 2048; session 0 reply x1948 | taken
a kept result that fits but for its pad bytes | session 0 response 2051; session 0 reply x1949 | unfit
a kept result that fits with its pad bytes | session 0 response 2052; session 0 reply x1949 | taken
a kept result that is too long | session 0 response 2048; session 0 reply x1949 | unfit
";

/// Nodes and opens are within their bounds.
const NODES: &str = "
a mode of 12 bits | node 4 mode 4095 | taken
a mode of 13 bits | node 4 mode 4096 | unfit
the last change | node 4 change 18446744073709551615 | taken
a text of 1,024 bytes | node 5 content x1024 | taken
a text of 1,025 bytes | node 5 content x1025 | unfit
a label of 1,024 bytes | node 4 stored x1024 | taken
a label of 1,025 bytes | node 4 stored x1025 | unfit
a directory with data | node 11 content 'x' | unfit
a directory whose cookies begin before the first | node 11 cookies 2 | unfit
a directory with the last cookie | node 6 cookies 18446744073709551615 | taken
a file with another cookie | node 4 cookies 4 | unfit
a link with another cookie | node 5 cookies 4 | unfit
an open of no access | open 0 access 0 | unfit
an open of both accesses | open 0 access 3 | taken
an open of another access | open 0 access 4 | unfit
an open that denies both | open 0 deny 3 | taken
an open that denies another | open 0 deny 4 | unfit
an open of the sequence 0 | open 0 sequence 0 | unfit
an open of the last sequence | open 0 sequence 4294967295 | taken
an open whose owner has 1,024 bytes | open 0 owner x1024 | taken
an open whose owner has 1,025 bytes | open 0 owner x1025 | unfit
two opens of a client, an owner and a node | open 1 owner 'o'; open 1 node 5 | unfit
two opens of a client and an owner | open 1 owner 'o' | taken
";

/// Names are components, and stand under cookies that their directory gave.
const NAMES: &str = "
no byte | entry 10 name '' | unfit
255 bytes | entry 10 name x255 | taken
256 bytes | entry 10 name x256 | unfit
no UTF-8 | entry 10 name bad | unfit
a zero byte | entry 10 name zero | unfit
a slash | entry 10 name 'a/b' | unfit
a dot | entry 10 name '.' | unfit
two dots | entry 10 name '..' | unfit
three dots | entry 10 name '...' | taken
a cookie before the first | entry 0 cookie 2 | unfit
the cookie of the next name | entry 10 cookie 6 | unfit
a cookie behind the next name's | entry 10 cookie 7 | unfit
a cookie below that of the next name | node 6 cookies 7; entry 10 cookie 6 | taken
";

/// Contexts are made under parents of the policy.
const CONTEXTS: &str = "
another parent | context 0 parent 8 | unfit
a parent whose low bits are those of one | context 0 parent 4294967303 | unfit
no context | context 0 drop | taken
another level | last 2 contexts 5; context 0 level 2 | taken
";

/// Locks are given, and name an open and a node; while the open is there, these are of one client and one node, and no two
/// locks have one open and one owner.
const LOCKS: &str = "
locks in another order | lock 0 swap 1 | unfit
a lock twice | lock 0 again; lock 1 owner 'q' | unfit
a lock above the last | last 0 locks 1 | unfit
a lock of the number 0 | lock 0 again; lock 0 number 0; lock 0 owner 'q' | unfit
locks up to the highest number | last 0 locks 4294967295 | taken
locks above the highest number | last 0 locks 4294967296 | unfit
a last number of another level | last 3 locks 7 | taken
a lock of another level | lock 1 again; lock 2 level 4 | unfit
a lock of another client | lock 0 client 2 | unfit
a lock of another node | lock 0 node 5 | unfit
a lock of a node of another home | lock 0 home 3; lock 0 node 1 | unfit
a lock of the open of another node | lock 0 opening 1 | unfit
a lock of an open above the last | lock 0 opening 3 | unfit
two locks of an open and an owner | lock 1 owner 'a' | unfit
locks whose open has ended | open 1 drop | taken
two of an owner whose open has ended | open 1 drop; lock 1 owner 'a' | taken
another client, where the open has ended | open 1 drop; lock 0 client 9 | taken
another node, where the open has ended | open 1 drop; lock 0 home 3; lock 0 node 99 | taken
an open that never was | open 1 drop; lock 0 opening 0 | unfit
a client that never was | open 1 drop; lock 0 client 0 | unfit
a client above the highest number | open 1 drop; lock 0 client 4294967296 | unfit
a node that never was | open 1 drop; lock 0 node 0 | unfit
a node above the highest number | open 1 drop; lock 0 node 4294967296 | unfit
a node of another level | open 1 drop; lock 0 home 4 | unfit
an owner of 1,024 bytes | lock 0 owner x1024 | taken
an owner of 1,025 bytes | lock 0 owner x1025 | unfit
no byte | lock 0 owner '' | taken
the sequence 0 | lock 0 sequence 0 | unfit
the last sequence | lock 0 sequence 4294967295 | taken
";

/// Ranges rise, and go as far as their kind does.
const RANGES: &str = "
no range | lock 0 ranges none | taken
ranges in another order | lock 0 ranges 6 9 w, 0 3 w | unfit
a byte in two ranges | lock 0 ranges 0 3 w, 3 9 r | unfit
one kind side by side | lock 0 ranges 0 3 w, 4 9 w | unfit
two kinds side by side | lock 0 ranges 0 3 w, 4 9 r | taken
a range that ends before it begins | lock 0 ranges 3 2 w | unfit
a range of one byte | lock 0 ranges 3 3 w | taken
a range up to the last offset | lock 0 ranges 5 18446744073709551615 w | taken
";

/// So many rows of a kind a level may have, and so many names a file.
const MANY_CLIENTS: &str = "
64 clients of a level | client 1 many 62; last 0 clients 64 | taken
65 clients of a level | client 1 many 63; last 0 clients 65 | unfit
";

const MANY_SESSIONS: &str = "
64 sessions of a level | session 0 many 63; last 0 sessions 64 | taken
65 sessions of a level | session 0 many 64; last 0 sessions 65 | unfit
";

const MANY_CONTEXTS: &str = "
1,024 contexts of a level | context 0 many 1023; last 3 contexts 1025 | taken
1,025 contexts of a level | context 0 many 1024; last 3 contexts 1026 | unfit
";

const MANY_NAMES: &str = "
1,024 names of a file | entry 10 many 1023; node 6 cookies 2000 | taken
1,025 names of a file | entry 10 many 1024; node 6 cookies 2000 | unfit
";

const MANY_OPENS: &str = "
4,096 opens of a level | open 1 many 4094; last 0 opens 4096 | taken
4,097 opens of a level | open 1 many 4095; last 0 opens 4097 | unfit
";

const MANY_LOCKS: &str = "
1,024 locks of a level | lock 1 many 1022; last 0 locks 1024 | taken
1,025 locks of a level | lock 1 many 1023; last 0 locks 1025 | unfit
";

const MANY_RANGES: &str = "
4,096 ranges of a level | lock 0 spread 4095 | taken
4,097 ranges of a level | lock 0 spread 4096 | unfit
";

/// A file of a byte more than it may have.
const MORE_DATA: &str = "
16,777,217 bytes | node 4 content x16777217 | unfit
";

/// Nothing is edited, or what breaks nothing.
const NOTHING: &str = "
as it was | | taken
without an open | open 0 drop | taken
a higher cookie | node 6 cookies 100 | taken
";

/// The longest bytes that an edit puts.
const LONGEST: usize = 16_777_217;

/// The same of the rich recording.
fn check_rich(alloc: Global, table: &str, count: usize) -> Result<(), Flaw> {
    check_after(alloc, POLICY, EVENTS, 6000, table, count)
}

#[test]
fn nothing(rt: HostRuntime) -> Result<(), Flaw> {
    check_rich(rt.alloc(), NOTHING, 3)
}

#[test]
fn tree(rt: HostRuntime) -> Result<(), Flaw> {
    check_rich(rt.alloc(), TREE, 14)
}

#[test]
fn labels(rt: HostRuntime) -> Result<(), Flaw> {
    check_rich(rt.alloc(), LABELS, 9)
}

#[test]
fn order(rt: HostRuntime) -> Result<(), Flaw> {
    check_rich(rt.alloc(), ORDER, 13)
}

#[test]
fn numbers(rt: HostRuntime) -> Result<(), Flaw> {
    check_rich(rt.alloc(), NUMBERS, 21)
}

#[test]
fn levels(rt: HostRuntime) -> Result<(), Flaw> {
    check_rich(rt.alloc(), LEVELS, 9)
}

#[test]
fn clients(rt: HostRuntime) -> Result<(), Flaw> {
    check_rich(rt.alloc(), CLIENTS, 14)
}

#[test]
fn sessions(rt: HostRuntime) -> Result<(), Flaw> {
    check_rich(rt.alloc(), SESSIONS, 21)
}

#[test]
fn nodes(rt: HostRuntime) -> Result<(), Flaw> {
    check_rich(rt.alloc(), NODES, 23)
}

#[test]
fn names(rt: HostRuntime) -> Result<(), Flaw> {
    check_rich(rt.alloc(), NAMES, 13)
}

#[test]
fn contexts(rt: HostRuntime) -> Result<(), Flaw> {
    check_rich(rt.alloc(), CONTEXTS, 4)
}

#[test]
fn many_clients(rt: HostRuntime) -> Result<(), Flaw> {
    check_rich(rt.alloc(), MANY_CLIENTS, 2)
}

#[test]
fn many_sessions(rt: HostRuntime) -> Result<(), Flaw> {
    check_rich(rt.alloc(), MANY_SESSIONS, 2)
}

#[test]
fn many_contexts(rt: HostRuntime) -> Result<(), Flaw> {
    check_rich(rt.alloc(), MANY_CONTEXTS, 2)
}

#[test]
fn many_names(rt: HostRuntime) -> Result<(), Flaw> {
    check_rich(rt.alloc(), MANY_NAMES, 2)
}

#[test]
fn many_opens(rt: HostRuntime) -> Result<(), Flaw> {
    check_rich(rt.alloc(), MANY_OPENS, 2)
}

#[test]
fn locks(rt: HostRuntime) -> Result<(), Flaw> {
    check_rich(rt.alloc(), LOCKS, 29)
}

#[test]
fn ranges(rt: HostRuntime) -> Result<(), Flaw> {
    check_rich(rt.alloc(), RANGES, 8)
}

#[test]
fn many_locks(rt: HostRuntime) -> Result<(), Flaw> {
    check_rich(rt.alloc(), MANY_LOCKS, 2)
}

#[test]
fn many_ranges(rt: HostRuntime) -> Result<(), Flaw> {
    check_rich(rt.alloc(), MANY_RANGES, 2)
}

#[test]
fn more_data(rt: HostRuntime) -> Result<(), Flaw> {
    check_after(rt.alloc(), POLICY, EVENTS, LONGEST, MORE_DATA, 1)
}
