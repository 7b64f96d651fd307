//! Sessions in recordings: the replies and the lines of their requests. All are laid out by hand, in
//! words, from RFC 8881 sections 2.10.6 (slots), 18.35 to 18.37, 18.46, 18.50 and 18.51.
//!
//! Of the operations' numbers, 42 is EXCHANGE_ID, 43 CREATE_SESSION, 44 DESTROY_SESSION, 53 SEQUENCE,
//! 57 DESTROY_CLIENTID and 58 RECLAIM_COMPLETE.
use lnfs_test_support::flaw::Flaw;
use lnfs_test_support::records::{check, check_row};
use lnfs_test_support::sessions::{check_opened, opened};
use std::alloc::{AllocError, Global};

/// In a table: a name, what is recorded behind the two events of OPENING, the replies behind those of
/// OPENED, and the lines of the audit stream.
///
/// Requests that come again.
const RETRIES: &str = "
a request again under another xid, others under its sequence, and the next | \
CALL SYS 0 2 2 SEQUENCE 1 0 0 1 58 0 / CALL_2 SYS 0 2 2 SEQUENCE 1 0 0 1 58 0 / \
CALL SYS 0 2 2 SEQUENCE 1 0 0 1 58 1 / CALL_2 SYS 0 2 2 SEQUENCE 1 0 0 1 58 0 / \
CALL SYS 0 2 2 SEQUENCE 2 0 0 1 58 0 | \
ACCEPTED 0 0 0 2 SEQUENCED 1 0 SLOTS 58 0 / ACCEPTED_2 0 0 0 2 SEQUENCED 1 0 SLOTS 58 0 / \
ACCEPTED 0 10076 0 1 53 10076 / ACCEPTED_2 0 0 0 2 SEQUENCED 1 0 SLOTS 58 0 / \
ACCEPTED 0 10054 0 2 SEQUENCED 2 0 SLOTS 58 10054 | \
5 1 53 S 10076 | 7 2 58 S 10054
a request again whose result wasn't to be cached | \
CALL SYS 0 2 2 SEQUENCE 1 0 0 0 58 0 / CALL_2 SYS 0 2 2 SEQUENCE 1 0 0 0 58 0 | \
ACCEPTED 0 0 0 2 SEQUENCED 1 0 SLOTS 58 0 / ACCEPTED_2 0 0 0 2 SEQUENCED 1 0 SLOTS 58 0
a request again that failed | \
CALL SYS 0 2 2 SEQUENCE 1 0 0 1 10 / CALL_2 SYS 0 2 2 SEQUENCE 1 0 0 1 10 | \
ACCEPTED 0 10020 0 2 SEQUENCED 1 0 SLOTS 10 10020 / ACCEPTED_2 0 10020 0 2 SEQUENCED 1 0 SLOTS 10 10020 | \
3 2 10 N 10020
another tag under a sequence | \
CALL SYS 3 'abc' 0x00 2 1 SEQUENCE 1 0 0 1 / CALL SYS 3 'abd' 0x00 2 1 SEQUENCE 1 0 0 1 | \
ACCEPTED 0 0 3 'abc' 0x00 1 SEQUENCED 1 0 SLOTS / ACCEPTED 0 10076 3 'abd' 0x00 1 53 10076 | \
4 1 53 S 10076
another word under a sequence, behind an operation that ends reading | \
CALL SYS 0 2 2 SEQUENCE 1 0 0 1 68 1 / CALL SYS 0 2 2 SEQUENCE 1 0 0 1 68 2 | \
ACCEPTED 0 10004 0 2 SEQUENCED 1 0 SLOTS 68 10004 / ACCEPTED 0 10076 0 1 53 10076 | \
3 2 68 X 10004 | 4 1 53 S 10076
a request again in another slot, where it is new | \
CALL SYS 0 2 2 SEQUENCE 1 0 0 1 58 0 / CALL SYS 0 2 2 SEQUENCE 1 15 0 1 58 0 | \
ACCEPTED 0 0 0 2 SEQUENCED 1 0 SLOTS 58 0 / ACCEPTED 0 10054 0 2 SEQUENCED 1 15 SLOTS 58 10054 | \
4 2 58 S 10054
a request again whose session was destroyed, and that again | \
CALL SYS 0 2 2 SEQUENCE 1 0 0 1 58 0 / CALL SYS 0 2 1 44 0 0 1 0 / \
CALL SYS 0 2 2 SEQUENCE 1 0 0 1 58 0 / CALL SYS 0 2 1 44 0 0 1 0 | \
ACCEPTED 0 0 0 2 SEQUENCED 1 0 SLOTS 58 0 / ACCEPTED 0 0 0 1 44 0 / \
ACCEPTED 0 10052 0 1 53 10052 / ACCEPTED 0 10052 0 1 44 10052 | \
5 1 53 S 10052 | 6 1 44 S 10052
a session made again, others under its sequence, and other sequences | \
CALL_2 SYS CREATE 0 1 1 0 CHANNEL CHANNEL 0 0 / CALL SYS CREATE 0 1 1 1 CHANNEL CHANNEL 0 0 / \
CALL SYS CREATE 0 1 3 0 CHANNEL CHANNEL 0 0 / CALL SYS CREATE 0 1 0 0 CHANNEL CHANNEL 0 0 / \
CALL SYS CREATE 0 1 2 0 CHANNEL CHANNEL 0 0 / CALL SYS CREATE 0 1 1 0 CHANNEL CHANNEL 0 0 / \
CALL SYS 0 2 1 44 0 0 2 0 / CALL SYS CREATE 0 1 2 0 CHANNEL CHANNEL 0 0 | \
ACCEPTED_2 0 0 0 1 43 0 0 0 1 0 1 0 CHANNEL CHANNEL / ACCEPTED 0 10076 0 1 43 10076 / \
ACCEPTED 0 10063 0 1 43 10063 / ACCEPTED 0 10063 0 1 43 10063 / \
CREATED 0 0 2 0 2 0 CHANNEL CHANNEL / ACCEPTED 0 10063 0 1 43 10063 / \
ACCEPTED 0 0 0 1 44 0 / CREATED 0 0 2 0 2 0 CHANNEL CHANNEL | \
4 1 43 S 10076 | 5 1 43 S 10063 | 6 1 43 S 10063 | 8 1 43 S 10063
";

/// Slots, their sequences, and session ids.
const SLOTS: &str = "
sequences of a slot | \
CALL SYS 0 2 1 SEQUENCE 0 0 0 1 / CALL SYS 0 2 1 SEQUENCE 2 0 0 1 / CALL SYS 0 2 1 SEQUENCE 1 0 0 1 / \
CALL SYS 0 2 1 SEQUENCE 2 0 0 1 / CALL SYS 0 2 1 SEQUENCE 3 0 0 1 / CALL SYS 0 2 1 SEQUENCE 4 0 0 1 / \
CALL SYS 0 2 1 SEQUENCE 5 0 0 1 / CALL SYS 0 2 1 SEQUENCE 7 0 0 1 / CALL SYS 0 2 1 SEQUENCE 4 0 0 1 / \
CALL SYS 0 2 1 SEQUENCE 6 0 0 1 | \
ACCEPTED 0 10063 0 1 53 10063 / ACCEPTED 0 10063 0 1 53 10063 / ACCEPTED 0 0 0 1 SEQUENCED 1 0 SLOTS / \
ACCEPTED 0 0 0 1 SEQUENCED 2 0 SLOTS / ACCEPTED 0 0 0 1 SEQUENCED 3 0 SLOTS / ACCEPTED 0 0 0 1 SEQUENCED 4 0 SLOTS / \
ACCEPTED 0 0 0 1 SEQUENCED 5 0 SLOTS / ACCEPTED 0 10063 0 1 53 10063 / ACCEPTED 0 10063 0 1 53 10063 / \
ACCEPTED 0 0 0 1 SEQUENCED 6 0 SLOTS | \
3 1 53 S 10063 | 4 1 53 S 10063 | 10 1 53 S 10063 | 11 1 53 S 10063
slots of 16 | \
CALL SYS 0 2 1 SEQUENCE 1 16 0 1 / CALL SYS 0 2 1 SEQUENCE 1 4294967295 0 1 / CALL SYS 0 2 1 SEQUENCE 1 15 0 1 | \
ACCEPTED 0 10053 0 1 53 10053 / ACCEPTED 0 10053 0 1 53 10053 / ACCEPTED 0 0 0 1 SEQUENCED 1 15 SLOTS | \
3 1 53 S 10053 | 4 1 53 S 10053
sessions that aren't there | \
CALL SYS 0 2 1 53 0 0 2 0 1 0 0 1 / CALL SYS 0 2 1 53 0 1 1 0 1 0 0 1 / CALL SYS 0 2 1 53 0 0 1 1 1 0 0 1 / \
CALL SYS 0 2 1 44 0 0 1 1 | \
ACCEPTED 0 10052 0 1 53 10052 / ACCEPTED 0 10052 0 1 53 10052 / ACCEPTED 0 10052 0 1 53 10052 / \
ACCEPTED 0 10052 0 1 44 10052 | \
3 1 53 S 10052 | 4 1 53 S 10052 | 5 1 53 S 10052 | 6 1 44 S 10052
sessions and clients of another level | \
@1 CALL SYS_300 0 2 1 SEQUENCE 1 0 0 1 / @1 CALL SYS_300 0 2 1 44 0 0 1 0 / @1 CALL SYS_300 0 2 1 57 0 1 / \
@1 CALL SYS_300 CREATE 0 1 2 0 CHANNEL CHANNEL 0 0 / CALL SYS 0 2 1 53 3 0 1 0 1 0 0 1 / \
CALL SYS 0 2 1 44 4 0 1 0 / CALL SYS 0 2 1 57 3 1 / CALL SYS 0 2 1 SEQUENCE 1 0 0 1 | \
ACCEPTED 0 10052 0 1 53 10052 / ACCEPTED 0 10052 0 1 44 10052 / ACCEPTED 0 10022 0 1 57 10022 / \
ACCEPTED 0 10022 0 1 43 10022 / ACCEPTED 0 10052 0 1 53 10052 / \
ACCEPTED 0 10052 0 1 44 10052 / ACCEPTED 0 10022 0 1 57 10022 / ACCEPTED 0 0 0 1 SEQUENCED 1 0 SLOTS | \
3 1 53 M9 10052 | 4 1 44 M9 10052 | 5 1 57 M9 10022 | 6 1 43 M9 10022 | 7 1 53 M9 10052 | 8 1 44 M9 10052 | 9 1 57 M9 10022
";

/// The places of operations in their COMPOUND.
const PLACES: &str = "
RECLAIM_COMPLETE first | CALL SYS 0 2 1 58 0 | ACCEPTED 0 10071 0 1 58 10071 | 3 1 58 S 10071
SEQUENCE second | CALL SYS 0 2 2 SEQUENCE 1 0 0 1 SEQUENCE 2 0 0 1 | \
ACCEPTED 0 10064 0 2 SEQUENCED 1 0 SLOTS 53 10064 | 3 2 53 S 10064
EXCHANGE_ID behind SEQUENCE | CALL SYS 0 2 2 SEQUENCE 1 0 0 1 42 0 0 2 'c1' REST | \
ACCEPTED 0 10081 0 2 SEQUENCED 1 0 SLOTS 42 10081 | 3 2 42 S 10081
CREATE_SESSION behind SEQUENCE, before RECLAIM_COMPLETE, and alone | \
CALL SYS 0 2 2 SEQUENCE 1 0 0 1 43 0 1 2 0 CHANNEL CHANNEL 0 0 / \
CALL SYS 0 2 2 43 0 1 2 0 CHANNEL CHANNEL 0 0 58 0 / CALL SYS CREATE 0 1 2 0 CHANNEL CHANNEL 0 0 | \
ACCEPTED 0 10081 0 2 SEQUENCED 1 0 SLOTS 43 10081 / \
ACCEPTED 0 10081 0 1 43 10081 / CREATED 0 0 2 0 2 0 CHANNEL CHANNEL | \
3 2 43 S 10081 | 4 1 43 S 10081
DESTROY_SESSION behind SEQUENCE, before RECLAIM_COMPLETE, and alone | \
CALL SYS 0 2 2 SEQUENCE 1 0 0 1 44 0 0 1 0 / CALL SYS 0 2 2 44 0 0 1 0 58 0 / CALL SYS 0 2 1 44 0 0 1 0 | \
ACCEPTED 0 10081 0 2 SEQUENCED 1 0 SLOTS 44 10081 / ACCEPTED 0 10081 0 1 44 10081 / ACCEPTED 0 0 0 1 44 0 | \
3 2 44 S 10081 | 4 1 44 S 10081
DESTROY_CLIENTID behind SEQUENCE, and before RECLAIM_COMPLETE | \
CALL SYS 0 2 2 SEQUENCE 1 0 0 1 57 0 1 / CALL SYS 0 2 2 57 0 1 58 0 | \
ACCEPTED 0 10081 0 2 SEQUENCED 1 0 SLOTS 57 10081 / ACCEPTED 0 10081 0 1 57 10081 | \
3 2 57 S 10081 | 4 1 57 S 10081
33 operations | CALL SYS 0 2 33 SEQUENCE 1 0 0 1 | ACCEPTED 0 10070 0 1 53 10070 | 3 1 53 S 10070
operations that aren't served, and one that the protocol hasn't | \
CALL SYS 0 2 2 SEQUENCE 1 0 0 1 7 0 0 0 / CALL SYS 0 2 2 SEQUENCE 2 0 0 1 68 / CALL SYS 0 2 2 SEQUENCE 3 0 0 1 72 1 2 | \
ACCEPTED 0 10004 0 2 SEQUENCED 1 0 SLOTS 7 10004 / ACCEPTED 0 10004 0 2 SEQUENCED 2 0 SLOTS 68 10004 / \
ACCEPTED 0 10044 0 2 SEQUENCED 3 0 SLOTS 10044 10044 | \
3 2 7 X 10004 | 4 2 68 X 10004 | 5 2 72 X 10044
RECLAIM_COMPLETE of one file system, and of all | \
CALL SYS 0 2 4 SEQUENCE 1 0 0 1 58 1 58 1 58 0 / CALL SYS 0 2 4 SEQUENCE 2 0 0 1 58 1 58 0 58 1 | \
ACCEPTED 0 0 0 4 SEQUENCED 1 0 SLOTS 58 0 58 0 58 0 / ACCEPTED 0 10054 0 3 SEQUENCED 2 0 SLOTS 58 0 58 10054 | \
4 3 58 S 10054
RECLAIM_COMPLETE in two sessions of a client | \
CALL SYS CREATE 0 1 2 0 CHANNEL CHANNEL 0 0 / CALL SYS 0 2 2 SEQUENCE 1 0 0 1 58 0 / \
CALL SYS 0 2 2 53 0 0 2 0 1 0 0 1 58 0 | \
CREATED 0 0 2 0 2 0 CHANNEL CHANNEL / ACCEPTED 0 0 0 2 SEQUENCED 1 0 SLOTS 58 0 / \
ACCEPTED 0 10054 0 2 53 0 0 0 2 0 1 0 SLOTS 58 10054 | \
5 2 58 S 10054
";

/// Clients that are confirmed, replaced and destroyed.
const CLIENTS: &str = "
a client with a session, without, and gone | \
CALL SYS 0 2 1 57 0 1 / CALL SYS 0 2 1 44 0 0 1 0 / CALL SYS 0 2 1 57 0 1 / CALL SYS 0 2 1 57 0 1 / \
CALL SYS CREATE 0 1 2 0 CHANNEL CHANNEL 0 0 / CALL SYS EXCHANGE 'c1' REST | \
ACCEPTED 0 10074 0 1 57 10074 / ACCEPTED 0 0 0 1 44 0 / ACCEPTED 0 0 0 1 57 0 / ACCEPTED 0 10022 0 1 57 10022 / \
ACCEPTED 0 10022 0 1 43 10022 / EXCHANGED 0 2 SERVER | \
3 1 57 S 10074 | 6 1 57 S 10022 | 7 1 43 S 10022
a confirmed owner and verifier | \
CALL SYS EXCHANGE 'c1' REST / CALL SYS CREATE 0 1 2 0 CHANNEL CHANNEL 0 0 / CALL SYS 0 2 1 SEQUENCE 1 0 0 1 | \
EXCHANGED 0 1 2 0x80010000 0 0 0 12 'labelled-nfs' 12 'labelled-nfs' 0 / \
CREATED 0 0 2 0 2 0 CHANNEL CHANNEL / ACCEPTED 0 0 0 1 SEQUENCED 1 0 SLOTS
another verifier of a confirmed owner | \
CALL SYS 0 2 1 42 0 1 2 'c1' REST / CALL SYS 0 2 1 SEQUENCE 1 0 0 1 / CALL SYS CREATE 0 2 1 0 CHANNEL CHANNEL 0 0 / \
CALL SYS 0 2 1 SEQUENCE 2 0 0 1 / CALL SYS CREATE 0 1 2 0 CHANNEL CHANNEL 0 0 / CALL SYS 0 2 1 53 0 0 2 0 1 0 0 1 | \
EXCHANGED 0 2 SERVER / ACCEPTED 0 0 0 1 SEQUENCED 1 0 SLOTS / CREATED 0 0 2 0 1 0 CHANNEL CHANNEL / \
ACCEPTED 0 10052 0 1 53 10052 / ACCEPTED 0 10022 0 1 43 10022 / ACCEPTED 0 0 0 1 53 0 0 0 2 0 1 0 SLOTS | \
6 1 53 S 10052 | 7 1 43 S 10022
";

/// In a table: a name, what is recorded, the replies, and the lines of the audit stream.
///
/// Sessions that are made, and what they are granted.
const CREATED: &str = "
no client, and one that another took the place of | \
CALL SYS CREATE 0 1 1 0 CHANNEL CHANNEL 0 0 / CALL SYS EXCHANGE 'c1' REST / CALL SYS EXCHANGE 'c1' REST / \
CALL SYS CREATE 0 1 1 0 CHANNEL CHANNEL 0 0 / CALL SYS CREATE 0 2 1 0 CHANNEL CHANNEL 0 0 | \
ACCEPTED 0 10022 0 1 43 10022 / EXCHANGED 0 1 SERVER / EXCHANGED 0 2 SERVER / \
ACCEPTED 0 10022 0 1 43 10022 / CREATED 0 0 1 0 1 0 CHANNEL CHANNEL | \
1 1 43 S 10022 | 4 1 43 S 10022
sequences of a new client | \
CALL SYS EXCHANGE 'c1' REST / CALL SYS CREATE 0 1 0 0 CHANNEL CHANNEL 0 0 / \
CALL SYS CREATE 0 1 2 0 CHANNEL CHANNEL 0 0 / CALL SYS CREATE 0 1 1 0 CHANNEL CHANNEL 0 0 | \
EXCHANGED 0 1 SERVER / ACCEPTED 0 10063 0 1 43 10063 / \
ACCEPTED 0 10063 0 1 43 10063 / CREATED 0 0 1 0 1 0 CHANNEL CHANNEL | \
2 1 43 S 10063 | 3 1 43 S 10063
sizes that are too small, one of them again, and the least | \
CALL SYS EXCHANGE 'c1' REST / \
CALL SYS CREATE 0 1 1 0 0 2047 65536 65536 32 16 0 CHANNEL 0 0 / \
CALL_2 SYS CREATE 0 1 1 0 0 2047 65536 65536 32 16 0 CHANNEL 0 0 / \
CALL SYS CREATE 0 1 2 0 0 65536 2047 65536 32 16 0 CHANNEL 0 0 / \
CALL SYS CREATE 0 1 3 0 0 65536 65536 65536 0 16 0 CHANNEL 0 0 / \
CALL SYS CREATE 0 1 4 0 0 65536 65536 65536 32 0 0 CHANNEL 0 0 / \
CALL SYS CREATE 0 1 4 0 CHANNEL CHANNEL 0 0 / \
CALL SYS CREATE 0 1 5 0 0 2048 2048 0 1 1 0 CHANNEL 0 0 / CALL SYS 0 2 1 SEQUENCE 1 0 0 1 / \
CALL SYS 0 2 1 SEQUENCE 1 1 0 1 / CALL SYS 0 2 2 SEQUENCE 2 0 0 1 58 0 | \
EXCHANGED 0 1 SERVER / \
ACCEPTED 0 10005 0 1 43 10005 / ACCEPTED_2 0 10005 0 1 43 10005 / ACCEPTED 0 10005 0 1 43 10005 / \
ACCEPTED 0 10005 0 1 43 10005 / ACCEPTED 0 10005 0 1 43 10005 / ACCEPTED 0 10076 0 1 43 10076 / \
CREATED 0 0 1 0 5 0 0 2048 2048 2048 1 1 0 CHANNEL / ACCEPTED 0 0 0 1 SEQUENCED 1 0 0 0 0 / \
ACCEPTED 0 10053 0 1 53 10053 / ACCEPTED 0 10070 0 1 53 10070 | \
2 1 43 S 10005 | 4 1 43 S 10005 | 5 1 43 S 10005 | 6 1 43 S 10005 | 7 1 43 S 10076 | 10 1 53 S 10053 | 11 1 53 S 10070
more than is granted, and a callback of each flavor | \
CALL SYS EXCHANGE 'c1' REST / \
CALL SYS CREATE 0 1 1 3 9 65537 4294967295 1 33 17 1 7 5 1 2 3 4 6 1 9 77 3 0 \
1 5 1 'a' 0x000000 6 7 2 8 9 6 1 1 'a' 0x000000 1 'b' 0x000000 | \
EXCHANGED 0 1 SERVER / CREATED 0 0 1 0 1 0 CHANNEL 5 1 2 3 4 6 0
a callback of a flavor that isn't served | \
CALL SYS EXCHANGE 'c1' REST / CALL SYS CREATE 0 1 1 0 CHANNEL CHANNEL 0 1 2 / \
CALL SYS CREATE 0 1 1 0 CHANNEL CHANNEL 0 0 | \
EXCHANGED 0 1 SERVER / ACCEPTED 0 22 0 1 43 22 / CREATED 0 0 1 0 1 0 CHANNEL CHANNEL | \
2 1 43 X 22
a session of level 3, and one of level 0 | \
@1 CALL SYS_300 EXCHANGE 'xx' REST / @1 CALL SYS_300 CREATE 3 1 1 0 CHANNEL CHANNEL 0 0 / \
@1 CALL SYS_300 0 2 2 53 3 0 1 0 1 0 0 1 58 0 / CALL SYS EXCHANGE 'c1' REST / \
CALL SYS CREATE 0 1 1 0 CHANNEL CHANNEL 0 0 / CALL SYS 0 2 2 SEQUENCE 1 0 0 1 58 0 | \
EXCHANGED 3 1 SERVER / CREATED 3 0 1 0 1 0 CHANNEL CHANNEL / \
ACCEPTED 0 0 0 2 53 0 3 0 1 0 1 0 SLOTS 58 0 / EXCHANGED 0 1 SERVER / \
CREATED 0 0 1 0 1 0 CHANNEL CHANNEL / ACCEPTED 0 0 0 2 SEQUENCED 1 0 SLOTS 58 0
";

#[test]
fn requests_of_a_session(rt: HostRuntime) -> Result<(), Flaw> {
    check_opened(&rt, rt.alloc(), RETRIES, 8)?;
    check_opened(&rt, rt.alloc(), SLOTS, 4)?;
    check_opened(&rt, rt.alloc(), PLACES, 10)
}

#[test]
fn clients_and_sessions(rt: HostRuntime) -> Result<(), Flaw> {
    check_opened(&rt, rt.alloc(), CLIENTS, 3)?;
    check(&rt, rt.alloc(), CREATED, 6)
}

/// The row of as many operations as are granted, of which each succeeds.
fn most_operations(alloc: Global) -> Result<String, AllocError> {
    let asked = " 58 1".repeat(alloc, 31)?;
    let told = " 58 0".repeat(alloc, 31)?;
    format!(in alloc;
        "32 operations | CALL SYS 0 2 32 SEQUENCE 1 0 0 1{asked} | \
ACCEPTED 0 0 0 32 SEQUENCED 1 0 SLOTS{told}"
    )
}

/// A request of 116 bytes, in words, and of so many that are zero and aren't read behind them.
fn long_request(alloc: Global, zeros: usize) -> Result<String, AllocError> {
    let digits = "00".repeat(alloc, zeros)?;
    format!(in alloc; "CALL SYS 0 2 2 SEQUENCE 1 0 0 1 68 0x{digits}")
}

/// The row of a session for requests of 2,048 bytes: one of a byte more, and one of as many.
fn longest_requests(alloc: Global) -> Result<String, AllocError> {
    let longer = long_request(alloc, 1933)?;
    let longest = long_request(alloc, 1932)?;
    format!(in alloc;
        "requests of 2,049 and 2,048 bytes | CALL SYS EXCHANGE 'c1' REST / \
CALL SYS CREATE 0 1 1 0 0 2048 65536 65536 32 16 0 CHANNEL 0 0 / {longer} / {longest} | \
EXCHANGED 0 1 SERVER / CREATED 0 0 1 0 1 0 0 2048 65536 65536 32 16 0 CHANNEL / \
ACCEPTED 0 10065 0 1 53 10065 / ACCEPTED 0 10004 0 2 SEQUENCED 1 0 SLOTS 68 10004 | \
3 1 53 S 10065 | 4 2 68 X 10004"
    )
}

#[test]
fn most_of_a_request(rt: HostRuntime) -> Result<(), Flaw> {
    let row = opened(rt.alloc(), &most_operations(rt.alloc())?)?.expect(&rt, "32 operations");
    check_row(&rt, rt.alloc(), &row)?;
    check_row(&rt, rt.alloc(), &longest_requests(rt.alloc())?)
}

/// What is recorded once a level has 64 sessions: the sixty-fifth and that again, one for another
/// verifier of the owner, whose old sessions would go, and the sixty-fifth once another is gone.
const WHEN_FULL: &str = "\
CALL SYS CREATE 0 1 65 0 CHANNEL CHANNEL 0 0 / CALL SYS CREATE 0 1 65 0 CHANNEL CHANNEL 0 0 / \
CALL SYS 0 2 1 42 0 1 2 'c1' REST / CALL SYS CREATE 0 2 1 0 CHANNEL CHANNEL 0 0 / \
CALL SYS 0 2 1 44 0 0 64 0 / CALL SYS CREATE 0 1 66 0 CHANNEL CHANNEL 0 0";

/// The replies to these, and their lines.
const FULL: &str = "\
ACCEPTED 0 28 0 1 43 28 / ACCEPTED 0 28 0 1 43 28 / \
EXCHANGED 0 2 SERVER / ACCEPTED 0 28 0 1 43 28 / \
ACCEPTED 0 0 0 1 44 0 / CREATED 0 0 65 0 66 0 CHANNEL CHANNEL | \
66 1 43 S 28 | 69 1 43 S 28";

/// The row of a level that has all its sessions.
fn full_level(alloc: Global) -> Result<String, AllocError> {
    let mut row = String::from_str(
        alloc,
        "all sessions of a level | CALL SYS EXCHANGE 'c1' REST / ",
    )?;
    for i in 1..65u8 {
        write!(row, "CALL SYS CREATE 0 1 {i} 0 CHANNEL CHANNEL 0 0 / ")?;
    }
    write!(row, "{WHEN_FULL} | EXCHANGED 0 1 SERVER / ")?;
    for i in 1..65u8 {
        write!(row, "CREATED 0 0 {i} 0 {i} 0 CHANNEL CHANNEL / ")?;
    }
    row.push_str(FULL)?;
    Ok(row)
}

#[test]
fn sessions_of_a_level(rt: HostRuntime) -> Result<(), Flaw> {
    check_row(&rt, rt.alloc(), &full_level(rt.alloc())?)
}
