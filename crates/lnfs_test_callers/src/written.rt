//! Calls as a client writes them, beside calls that are laid out by hand.
use crate::drafts::{Draft, bytes_in, put_words, record_of};
use lnfs_calipso::Level;
use lnfs_calls::{sys_body, write_call};
use lnfs_gss3::TestMechanism;
use lnfs_policy::Parent;
use lnfs_rpc::Auth;
use lnfs_signed_calls::{SignedCall, write_create, write_data, write_destroy};
use lnfs_xdr::{AUTH_NONE, AUTH_SYS, XdrWriter};
use std::alloc::Global;
use std::process::Abort;
use std::test::Fail;

/// The transaction of each draft.
const XID: u32 = 0x01020304;

/// The parent that signs.
fn parent() -> Parent {
    Parent {
        number: 7,
        secret: [1; 32],
        clearance: Level(3),
    }
}

/// Compares a call with the record of a draft whose sequence number is its transaction; the header has so many bytes.
fn expect_draft(
    rt: &impl Abort,
    alloc: Global,
    call: &SignedCall,
    draft: Draft,
    header: usize,
) -> Result<(), Fail> {
    let mut draft = draft;
    draft.seq = XID;
    draft.body_seq = XID;
    draft.service = 2;
    assert_eq!(rt;
        call.message.as_slice(),
        record_of(alloc, &draft)?.as_slice()
    );
    assert_eq!(rt; call.header, header);
    Ok(())
}

#[test]
fn signed_calls(rt: HostRuntime) -> Result<(), Fail> {
    let alloc = rt.alloc();
    let parent = parent();
    let label = bytes_in(alloc, "000000010103e4000000")?;
    assert!(rt; label.len() == 10);
    let call = write_create(alloc, &TestMechanism, &parent, XID, 101, 1, &label)?;
    expect_draft(&rt, alloc, &call, Draft::create(alloc)?, 56)?;
    let handle = bytes_in(alloc, "00000007000000030000000000000002")?;
    assert!(rt; handle.len() == 16);
    let call = write_data(alloc, &TestMechanism, &parent, XID, &handle, &[1, 2, 3, 4])?;
    expect_draft(&rt, alloc, &call, Draft::data(alloc)?, 68)?;
    let call = write_destroy(alloc, &TestMechanism, &parent, XID, &handle)?;
    expect_draft(&rt, alloc, &call, Draft::destroy(alloc)?, 68)
}

#[test]
fn call_of_a_user(rt: HostRuntime) -> Result<(), Fail> {
    let alloc = rt.alloc();
    let mut wanted = XdrWriter::new(alloc);
    put_words(&mut wanted, &[XID, 0, 2, 100003, 4, 1, 1, 28])?;
    put_words(&mut wanted, &[0, 6])?;
    wanted.raw(b"client\0\0")?;
    put_words(&mut wanted, &[1000, 0, 0, 0, 0, 0x05060708])?;
    let body = sys_body(alloc, b"client", 1000)?;
    assert!(rt; body.len() == 28);
    let credential = Auth {
        flavor: AUTH_SYS,
        body: &body,
    };
    let verifier = Auth {
        flavor: AUTH_NONE,
        body: &[],
    };
    let call = write_call(alloc, XID, 1, &credential, &verifier, &[5, 6, 7, 8])?;
    assert_eq!(rt; call.as_slice(), wanted.into_bytes().as_slice());
    Ok(())
}
