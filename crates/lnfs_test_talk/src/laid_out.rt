//! Links in memory whose replies are laid out by hand.
ghost use Rattle.std.specs.Prelude.{◌≤◌, length};

use crate::codecs::codecs_of;
use crate::site::policy_of;
use crate::talked::{Talked, talk};
use lnfs_format::Codecs;
use lnfs_gss3::TestMechanism;
use lnfs_outside::MemLink;
use lnfs_policy::Policy;
use lnfs_test_support::flaw::{Flaw, demand};
use lnfs_test_support::site::POLICY;
use std::alloc::{AllocError, Global};
use std::sync::Wait;

const SCRIPT: &str = "link 1 guest 100\n";

/// Appends a record of these words in one frame.
fn put_frame(input: &mut Vec<u8>, words: &[u32]) -> Result<(), AllocError>
    requires { length words.now ≤ 100 }
{
    let head = 0x8000_0000 + words.len() as u32 * 4;
    input.extend_from_slice(&head.to_be_bytes())?;
    for word in words {
        input.extend_from_slice(&word.to_be_bytes())?;
    }
    Ok(())
}

/// What is shown, and the status, where the link gives these bytes and some of its calls fail.
fn talk_with(
    rt: &impl Wait,
    alloc: Global,
    codecs: &Codecs,
    policy: &Policy,
    link: &mut MemLink,
) -> Result<Talked, Flaw> {
    talk(rt, alloc, policy, codecs, &TestMechanism, 1, SCRIPT, link)
}

/// What a dialogue comes to over a link.
#[derive(Clone, Copy)]
struct Due<'a> {
    input: &'a [u8],
    reads: &'a [u64],
    writes: &'a [u64],
    status: u8,
    shown: &'a [u8],
}

fn check_under(
    rt: &impl Wait,
    alloc: Global,
    codecs: &Codecs,
    policy: &Policy,
    due: &Due<'_>,
) -> Result<(), Flaw> {
    let mut link = MemLink::new(alloc, due.input, due.reads, due.writes)?;
    let talked = talk_with(rt, alloc, codecs, policy, &mut link)?;
    demand(alloc, talked.status == due.status, "status", "a dialogue")?;
    let same = talked.out.as_slice() == due.shown;
    demand(alloc, same, "what is shown", "a dialogue")
}

fn check(rt: &impl Wait, alloc: Global, due: &Due<'_>) -> Result<(), Flaw> {
    let codecs = codecs_of(alloc)?;
    let policy = policy_of(alloc, &codecs, POLICY)?;
    check_under(rt, alloc, &codecs, &policy, due)
}

/// A reply that ends behind its verifier.
#[test]
fn a_bad_reply_ends_the_script(rt: HostRuntime) -> Result<(), Flaw> {
    let alloc = rt.alloc();
    let mut input = Vec::new(alloc);
    put_frame(&mut input, &[1, 1, 0, 0, 0])?;
    let due = Due {
        input: &input,
        reads: &[],
        writes: &[],
        status: 0,
        shown: b"bad reply 20\n",
    };
    check(&rt, alloc, &due)
}

/// A dialogue over a link that gives these bytes and some of whose calls fail; nothing is shown.
fn ended<'a>(input: &'a [u8], reads: &'a [u64], writes: &'a [u64], status: u8) -> Due<'a> {
    Due {
        input,
        reads,
        writes,
        status,
        shown: &[],
    }
}

/// A read or a write that fails, and an input that ends: outside a record, and inside one.
#[test]
fn links_fail_and_end(rt: HostRuntime) -> Result<(), Flaw> {
    let alloc = rt.alloc();
    check(&rt, alloc, &ended(&[], &[1], &[], 8))?;
    check(&rt, alloc, &ended(&[], &[], &[1], 8))?;
    check(&rt, alloc, &ended(&[], &[], &[], 13))?;
    check(&rt, alloc, &ended(b"\x80\x00\x00\x18\x00", &[], &[], 13))?;
    check(&rt, alloc, &ended(b"\x80\x02\x00\x01", &[], &[], 13))
}

/// So many records with another transaction, and then the one that is awaited.
fn put_many(input: &mut Vec<u8>) -> Result<(), AllocError> {
    for _ in 0..65_536 {
        put_frame(input, &[0, 1, 0, 0, 0, 0])?;
    }
    put_frame(input, &[1, 1, 0, 0, 0])
}

/// No more records are looked at.
#[test]
fn no_more_records_are_looked_at(rt: HostRuntime) -> Result<(), Flaw> {
    let alloc = rt.alloc();
    let mut input = Vec::new(alloc);
    put_many(&mut input)?;
    check(&rt, alloc, &ended(&input, &[], &[], 13))
}
