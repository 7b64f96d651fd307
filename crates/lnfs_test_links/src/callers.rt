//! What a service does with its net, which no clause says: it accepts its links and dials none, and hands them back between the
//! audit lines and their own.
use crate::ruled::serve_one;
use lnfs_test_support::flaw::{Flaw, read_of};
use lnfs_test_support::rows::recording_of;
use lnfs_test_support::runs::still;

/// The net has a link for who accepts, and none for who dials.
#[test]
fn links_are_accepted(rt: HostRuntime) -> Result<(), Flaw> {
    let clock = still(rt.alloc())?;
    let told = serve_one(&rt, rt.alloc(), "", &clock)?;
    assert_eq!(rt; told.status, 0, "status");
    assert!(rt;
        told.audit.bytes() == b"link 0 Closed 0\n".as_slice(),
        "lines"
    );
    Ok(())
}

/// A link comes back behind the recording and the audit line of its call, and before its own line.
#[test]
fn links_come_back_between_the_lines(rt: HostRuntime) -> Result<(), Flaw> {
    let alloc = rt.alloc();
    let refused = "1 0 2 100003 3 1 SYS";
    let clock = still(alloc)?;
    let told = serve_one(&rt, alloc, refused, &clock)?;
    let recording = read_of(alloc, recording_of(alloc, refused)?, refused)?;
    assert!(rt; told.out.bytes() == recording.as_slice(), "the recording");
    assert!(rt;
        told.audit.bytes() == b"1 0 0 P 2\nlink 0 Closed 1\n".as_slice(),
        "lines"
    );
    assert!(rt;
        told.noted == Some((recording.len() as u64, 10)),
        "what the streams had taken"
    );
    Ok(())
}
