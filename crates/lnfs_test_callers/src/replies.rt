//! Signatures, what is signed, replies and contexts.
use crate::codecs::codecs_of;
use crate::drafts::{Draft, ENFORCING, header, mic, policy, put_words, record_of};
use lnfs_calipso::Level;
use lnfs_format::Codecs;
use lnfs_gss3::numbers::CONTEXTS_OF_A_LEVEL;
use lnfs_gss3::{
    Caller, ContextError, ContextHandle, Contexts, KeyedDigest, Mechanism, TestMechanism,
    append_signed, begin_databody, body, put_create_results, reply_mic, who,
};
use lnfs_policy::{Parent, Policy};
use lnfs_rpc::read_call;
use lnfs_xdr::XdrWriter;
use std::alloc::Global;
use std::process::Abort;
use std::test::Fail;

/// The parent that signs.
fn parent() -> Parent {
    Parent {
        number: 7,
        secret: [1; 32],
        clearance: Level(3),
    }
}

/// Digests by Python's hashlib, with 32 bytes of 1 as the secret.
const DIGESTS: &[(&[u8], &[u8; 32])] = &[
    (
        b"",
        &[
            0x0f, 0x77, 0x32, 0x75, 0x96, 0x3f, 0x87, 0x68, 0xd2, 0xef, 0x4c, 0x9d, 0x7c, 0x47,
            0xb7, 0xc0, 0xc6, 0x99, 0xc7, 0x76, 0xba, 0xfa, 0xc0, 0xd6, 0x3c, 0xf3, 0xf5, 0x1a,
            0xc3, 0x90, 0xb9, 0x51,
        ],
    ),
    (
        b"abc",
        &[
            0x86, 0x48, 0x5b, 0x07, 0x18, 0x38, 0xa4, 0x84, 0xb0, 0x12, 0x5a, 0xc3, 0x98, 0x9d,
            0x36, 0x9d, 0x8f, 0x09, 0x33, 0x5d, 0xfe, 0x81, 0xcc, 0xbb, 0xe7, 0x62, 0x3a, 0x36,
            0xc0, 0x94, 0xc8, 0xb6,
        ],
    ),
];

#[test]
fn keyed_digests(rt: HostRuntime) {
    let parent = parent();
    for (covered, wanted) in DIGESTS {
        let mic = KeyedDigest.sign(&parent, covered);
        assert_eq!(rt; mic.as_slice(), wanted.as_slice());
        assert!(rt; KeyedDigest.check(&parent, covered, wanted.as_slice()));
        assert!(rt; !KeyedDigest.check(&parent, covered, &wanted[..31]));
        assert!(rt; !KeyedDigest.check(&parent, b"abd", wanted.as_slice()));
        for i in 0..32 {
            let mut changed = **wanted;
            changed[i] ^= 0x80;
            assert!(rt; !KeyedDigest.check(&parent, covered, &changed));
        }
    }
}

#[test]
fn plain_signatures(rt: HostRuntime) {
    let parent = parent();
    let wanted = mic(7, 3);
    assert_eq!(rt;
        TestMechanism.sign(&parent, b"abc").as_slice(),
        wanted.as_slice()
    );
    assert!(rt; TestMechanism.check(&parent, b"xyz", &wanted));
    assert!(rt; !TestMechanism.check(&parent, b"abcd", &wanted));
    assert!(rt; !TestMechanism.check(&parent, b"abc", b""));
}

/// A call in the context (7, 3, 2), signed by the keyed digest. No byte of it is one of padding.
fn keyed_record(alloc: Global) -> Result<Vec<u8>, Fail> {
    let header = header(alloc, &Draft::data(alloc)?)?;
    let parent = parent();
    let mut out = XdrWriter::new(alloc);
    out.raw(&header)?;
    put_words(&mut out, &[6, 32])?;
    out.raw(&KeyedDigest.sign(&parent, &header))?;
    let databody = [0, 0, 0, 10, 1, 2, 3, 4];
    append_signed(&mut out, &KeyedDigest, &parent, &databody)?;
    Ok(out.into_bytes())
}

fn is_refused(caller: &Caller) -> bool {
    matches!(caller, Caller::Nobody { .. } | Caller::Garbage { .. })
}

fn is_known(caller: &Caller) -> bool {
    matches!(
        caller,
        Caller::Data {
            number: 2,
            aligned: true,
            ..
        }
    )
}

/// Whether a record with one byte changed is refused. What is no call any more is refused as such.
fn is_refused_at(
    alloc: Global,
    policy: &Policy,
    codecs: &Codecs,
    record: &[u8],
    i: usize,
) -> Result<bool, Fail> {
    let mut changed = Vec::from_slice(alloc, record)?;
    if let Some(byte) = changed.get_mut(i) {
        *byte ^= 0xff;
    }
    let Ok(call) = read_call(&changed) else {
        return Ok(true);
    };
    let caller = who(alloc, policy, codecs, &KeyedDigest, 0, &call)?;
    Ok(is_refused(&caller))
}

/// Whether the record is taken as it is, and refused with any byte changed.
fn expect_changes(
    rt: &impl Abort,
    alloc: Global,
    policy: &Policy,
    codecs: &Codecs,
) -> Result<(), Fail> {
    let record = keyed_record(alloc)?;
    assert_eq!(rt; record.len(), 156);
    let call = read_call(&record).ok().ok_or("no call")?;
    let caller = who(alloc, policy, codecs, &KeyedDigest, 0, &call)?;
    assert!(rt; is_known(&caller));
    for i in 0..record.len() {
        assert!(rt;
            is_refused_at(alloc, policy, codecs, &record, i)?,
            "byte {i}"
        );
    }
    Ok(())
}

#[test]
fn every_byte_changed(rt: HostRuntime) -> Result<(), Fail> {
    let alloc = rt.alloc();
    let codecs = codecs_of(alloc)?;
    let policy = policy(alloc, &codecs, ENFORCING)?;
    expect_changes(&rt, alloc, &policy, &codecs)
}

#[test]
fn what_is_signed(rt: HostRuntime) -> Result<(), Fail> {
    let alloc = rt.alloc();
    let record = record_of(alloc, &Draft::data(alloc)?)?;
    let call = read_call(&record).ok().ok_or("no call")?;
    assert_eq!(rt; (call.header.len(), call.args.len()), (68, 48));
    assert_eq!(rt; body(&call), Some([1, 2, 3, 4].as_slice()));
    // Arguments that are no signed body.
    let mut unsigned = Draft::data(alloc)?;
    unsigned.set(alloc, "plain", "00000001")?;
    let record = record_of(alloc, &unsigned)?;
    let call = read_call(&record).ok().ok_or("no call")?;
    assert_eq!(rt; body(&call), None);
    Ok(())
}

/// The results of a CREATE as they are sent under the sequence number 9: a databody of 64 bytes, and its signature.
const CREATED: &[u8] = &[
    0, 0, 0, 64, 0, 0, 0, 9, 0, 0, 0, 16, 0, 0, 0, 7, 0, 0, 0, 3, 0, 0, 0, 0, 0, 0, 0, 1, 0, 0, 0,
    0, 0, 0, 0, 0, 0, 0, 0, 1, 0, 0, 0, 0, 0, 0, 0, 101, 0, 0, 0, 1, 0, 0, 0, 10, 0, 0, 0, 1, 1, 3,
    0xe4, 0, 0, 0, 0, 0, 0, 0, 0, 32, 0, 0, 0, 7, 0, 0, 0, 64, 0, 0, 0, 0, 0, 0, 0, 0, 0, 0, 0, 0,
    0, 0, 0, 0, 0, 0, 0, 0, 0, 0, 0, 0,
];

/// The databody of the results.
fn created(alloc: Global) -> Result<Vec<u8>, Fail> {
    let handle = ContextHandle {
        parent: 7,
        level: Level(3),
        number: 1,
    };
    let label = [0, 0, 0, 1, 1, 3, 0xe4, 0, 0, 0];
    let mut databody = begin_databody(alloc, 9, 60)?;
    put_create_results(&mut databody, &handle, 101, 1, &label)?;
    Ok(databody.into_bytes())
}

#[test]
fn the_results_of_a_create(rt: HostRuntime) -> Result<(), Fail> {
    let alloc = rt.alloc();
    let databody = created(alloc)?;
    assert_eq!(rt; databody.len(), 64);
    let mut out = XdrWriter::new(alloc);
    append_signed(&mut out, &TestMechanism, &parent(), &databody)?;
    assert_eq!(rt; out.into_bytes().as_slice(), CREATED);
    Ok(())
}

/// The verifier signs 56 bytes, the second word of which is that of a reply.
#[test]
fn the_verifier_of_a_create(rt: HostRuntime) -> Result<(), Fail> {
    let alloc = rt.alloc();
    let parent = parent();
    let header = header(alloc, &Draft::create(alloc)?)?;
    let signed = reply_mic(alloc, &TestMechanism, &parent, &header)?;
    assert_eq!(rt; signed.as_slice(), mic(7, 56).as_slice());
    let mut replied = Vec::from_slice(alloc, &header)?;
    if let Some(byte) = replied.get_mut(7) {
        *byte = 1;
    }
    let keyed = reply_mic(alloc, &KeyedDigest, &parent, &header)?;
    assert!(rt; KeyedDigest.check(&parent, &replied, &keyed));
    assert!(rt; !KeyedDigest.check(&parent, &header, &keyed));
    Ok(())
}

const LOW: Level = Level(0);

const HIGH: Level = Level(3);

/// Levels, parents and numbers, and whether there is such a context of three.
const FOUND: &[(Level, u32, u64, bool)] = &[
    (HIGH, 7, 1, true),
    (HIGH, 5, 1, false),
    (HIGH, 5, 2, true),
    (HIGH, 7, 3, false),
    (LOW, 5, 1, true),
    (LOW, 7, 1, false),
    (LOW, 5, 4_294_967_297, false),
    (Level(9), 5, 1, false),
];

fn expect_found(rt: &impl Abort, contexts: &Contexts) {
    for (level, parent, number, there) in FOUND {
        assert_eq!(rt; contexts.find(*level, *parent, *number), *there);
    }
}

#[test]
fn contexts_come_and_go(rt: HostRuntime) -> Result<(), Fail> {
    let mut contexts = Contexts::new(rt.alloc());
    assert_eq!(rt; contexts.create(HIGH, 7), Ok(1));
    assert_eq!(rt; contexts.create(HIGH, 5), Ok(2));
    assert_eq!(rt; contexts.create(LOW, 5), Ok(1));
    expect_found(&rt, &contexts);
    assert_eq!(rt; contexts.destroy(HIGH, 5, 1), Err(ContextError::Unknown));
    assert_eq!(rt; contexts.destroy(HIGH, 7, 1), Ok(()));
    assert_eq!(rt; contexts.destroy(HIGH, 7, 1), Err(ContextError::Unknown));
    assert!(rt; contexts.find(LOW, 5, 1) && contexts.find(HIGH, 5, 2));
    // Numbers aren't given again.
    assert_eq!(rt; contexts.create(HIGH, 7), Ok(3));
    Ok(())
}

#[test]
fn a_level_is_full(rt: HostRuntime) -> Result<(), Fail> {
    let mut contexts = Contexts::new(rt.alloc());
    for number in 1..CONTEXTS_OF_A_LEVEL + 1 {
        assert_eq!(rt; contexts.create(HIGH, 7), Ok(u64::from(number)));
    }
    assert_eq!(rt; contexts.create(HIGH, 5), Err(ContextError::Full));
    assert!(rt; contexts.find(HIGH, 7, 1_024) && !contexts.find(HIGH, 5, 1_025));
    // Another level has room, and a level has room again where one ended.
    assert_eq!(rt; contexts.create(LOW, 7), Ok(1));
    assert_eq!(rt; contexts.destroy(HIGH, 7, 500), Ok(()));
    assert_eq!(rt; contexts.create(HIGH, 7), Ok(1_025));
    Ok(())
}
