ghost use Rattle.lnfs_requests.specs.Fits.{OpFits};
ghost use Rattle.lnfs_arguments.specs.SharedTexts.{AttrsFit};

use lnfs_arguments::{Channel, Claim, Compound, CreateSession, Op, Sequence, Span, StateId, What};
use lnfs_attrs::{Bitmap, RawAttrs};
use lnfs_requests::write_compound;
use lnfs_types::{Items, Octets};
use lnfs_xdr::XdrWriter;
use std::alloc::{AllocError, Global};
use std::process::Abort;

/// The bytes of the words, behind an empty tag, minor version 2 and a count of 1.
fn laid_out(alloc: Global, words: &[u32]) -> Result<Vec<u8>, AllocError> {
    let mut out = XdrWriter::new(alloc);
    out.u32(0)?;
    out.u32(2)?;
    out.u32(1)?;
    for word in words {
        out.u32(*word)?;
    }
    Ok(out.into_bytes())
}

/// One operation, written.
fn written(alloc: Global, op: Op<'_>) -> Result<Vec<u8>, AllocError>
    requires { OpFits op }
{
    let mut ops = Vec::new(alloc);
    ops.push(op)?;
    let compound = Compound {
        tag: Octets::new(Vec::new(alloc)),
        minor: 2,
        count: 1,
        ops: Items::new(ops),
    };
    write_compound(alloc, &compound)
}

/// Compares what is written of one operation with words.
fn is_written(rt: &impl Abort, alloc: Global, op: Op<'_>, words: &[u32]) -> Result<(), AllocError>
    requires { OpFits op }
{
    let found = written(alloc, op)?;
    let due = laid_out(alloc, words)?;
    assert_eq!(rt; found.as_slice(), due.as_slice());
    Ok(())
}

/// A state id of the words 7, 1, 0, 2.
const ID: StateId = StateId {
    seqid: 7,
    other: [0, 0, 0, 1, 0, 0, 0, 0, 0, 0, 0, 2],
};

/// A channel of the words 1 to 6, and nothing for RDMA.
const CHANNEL: Channel = Channel {
    headerpad: 1,
    maxrequest: 2,
    maxresponse: 3,
    cached: 4,
    operations: 5,
    requests: 6,
    ird: None,
};

/// No attributes.
fn none(alloc: Global) -> RawAttrs
    ensures { AttrsFit result }
{
    RawAttrs {
        mask: Bitmap { words: [0; 8] },
        list: Octets::new(Vec::new(alloc)),
    }
}

#[test]
fn operations_are_written(rt: HostRuntime) -> Result<(), AllocError> {
    let alloc = rt.alloc();
    is_written(&rt, alloc, Op::GetFh, &[10])?;
    is_written(&rt, alloc, Op::Access { bits: 63 }, &[3, 63])
}

#[test]
fn structures_are_written(rt: HostRuntime) -> Result<(), AllocError> {
    let alloc = rt.alloc();
    let read = Op::Read {
        id: StateId {
            seqid: 7,
            other: [0, 0, 0, 1, 0, 0, 0, 0, 0, 0, 0, 2],
        },
        offset: 8,
        count: 9,
    };
    is_written(&rt, alloc, read, &[25, 7, 1, 0, 2, 0, 8, 9])?;
    let sequence = Op::Sequence(Sequence {
        session: [0, 0, 0, 1, 0, 0, 0, 2, 0, 0, 0, 3, 0, 0, 0, 4],
        sequence: 5,
        slot: 6,
        highest: 7,
        cachethis: true,
    });
    let words = [53, 1, 2, 3, 4, 5, 6, 7, 1];
    is_written(&rt, alloc, sequence, &words)
}

#[test]
fn an_open_is_written(rt: HostRuntime) -> Result<(), AllocError> {
    let alloc = rt.alloc();
    let open = Op::Open {
        seqid: 1,
        access: 2,
        deny: 3,
        client: 4294967301,
        owner: Octets::from_slice(alloc, b"a")?,
        making: None,
        claim: Claim::Handle,
    };
    let words = [18, 1, 2, 3, 1, 5, 1, 0x61000000, 0, 4];
    is_written(&rt, alloc, open, &words)
}

#[test]
fn operations_without_arguments_are_written(rt: HostRuntime) -> Result<(), AllocError> {
    let alloc = rt.alloc();
    is_written(&rt, alloc, Op::LookupP, &[16])?;
    is_written(&rt, alloc, Op::PutRootFh, &[24])?;
    is_written(&rt, alloc, Op::ReadLink, &[27])?;
    is_written(&rt, alloc, Op::RestoreFh, &[31])?;
    is_written(&rt, alloc, Op::SaveFh, &[32])
}

#[test]
fn names_are_written(rt: HostRuntime) -> Result<(), AllocError> {
    let alloc = rt.alloc();
    let link = Op::Link {
        name: Octets::from_slice(alloc, b"ab")?,
    };
    is_written(&rt, alloc, link, &[11, 2, 0x6162_0000])?;
    let lookup = Op::Lookup {
        name: Octets::from_slice(alloc, b"abcd")?,
    };
    is_written(&rt, alloc, lookup, &[15, 4, 0x6162_6364])?;
    let remove = Op::Remove {
        name: Octets::from_slice(alloc, b"a")?,
    };
    is_written(&rt, alloc, remove, &[28, 1, 0x6100_0000])
}

#[test]
fn handles_and_two_names_are_written(rt: HostRuntime) -> Result<(), AllocError> {
    let alloc = rt.alloc();
    let putfh = Op::PutFh {
        handle: Octets::from_slice(alloc, &[0, 0, 2, 1])?,
    };
    is_written(&rt, alloc, putfh, &[22, 4, 0x0201])?;
    let rename = Op::Rename {
        old: Octets::from_slice(alloc, b"a")?,
        new: Octets::from_slice(alloc, b"b")?,
    };
    let words = [29, 1, 0x6100_0000, 1, 0x6200_0000];
    is_written(&rt, alloc, rename, &words)
}

#[test]
fn attributes_are_written(rt: HostRuntime) -> Result<(), AllocError> {
    let alloc = rt.alloc();
    let nverify = Op::NVerify { attrs: none(alloc) };
    is_written(&rt, alloc, nverify, &[17, 0, 0])?;
    let verify = Op::Verify { attrs: none(alloc) };
    is_written(&rt, alloc, verify, &[37, 0, 0])?;
    let setattr = Op::SetAttr {
        id: ID,
        attrs: none(alloc),
    };
    is_written(&rt, alloc, setattr, &[34, 7, 1, 0, 2, 0, 0])
}

#[test]
fn bitmaps_and_directories_are_written(rt: HostRuntime) -> Result<(), AllocError> {
    let alloc = rt.alloc();
    let getattr = Op::GetAttr {
        asked: Bitmap {
            words: [2, 1, 0, 0, 0, 0, 0, 0],
        },
    };
    is_written(&rt, alloc, getattr, &[9, 2, 2, 1])?;
    let create = Op::Create {
        what: What::Dir,
        name: Octets::from_slice(alloc, b"a")?,
        attrs: none(alloc),
    };
    let words = [6, 2, 1, 0x6100_0000, 0, 0];
    is_written(&rt, alloc, create, &words)
}

#[test]
fn operations_on_files_are_written(rt: HostRuntime) -> Result<(), AllocError> {
    let alloc = rt.alloc();
    let close = Op::Close { seqid: 3, id: ID };
    is_written(&rt, alloc, close, &[4, 3, 7, 1, 0, 2])?;
    let commit = Op::Commit {
        offset: 4_294_967_301,
        count: 6,
    };
    is_written(&rt, alloc, commit, &[5, 1, 5, 6])?;
    let write = Op::Write {
        id: ID,
        offset: 8,
        stable: 2,
        content: Span::new(b"hi"),
    };
    let words = [38, 7, 1, 0, 2, 0, 8, 2, 2, 0x6869_0000];
    is_written(&rt, alloc, write, &words)
}

#[test]
fn a_reading_of_a_directory_is_written(rt: HostRuntime) -> Result<(), AllocError> {
    let alloc = rt.alloc();
    let readdir = Op::ReadDir {
        cookie: 5,
        verifier: [0, 0, 0, 1, 0, 0, 0, 2],
        dircount: 3,
        maxcount: 4,
        asked: Bitmap { words: [0; 8] },
    };
    is_written(&rt, alloc, readdir, &[26, 0, 5, 1, 2, 3, 4, 0])
}

#[test]
fn clients_are_written(rt: HostRuntime) -> Result<(), AllocError> {
    let alloc = rt.alloc();
    let exchange = Op::ExchangeId {
        verifier: [0, 0, 0, 1, 0, 0, 0, 2],
        owner: Octets::from_slice(alloc, b"c1")?,
        flags: 3,
        implementation: None,
    };
    let words = [42, 1, 2, 2, 0x6331_0000, 3, 0, 0];
    is_written(&rt, alloc, exchange, &words)?;
    let destroy = Op::DestroyClientId {
        client: 4_294_967_301,
    };
    is_written(&rt, alloc, destroy, &[57, 1, 5])?;
    let reclaim = Op::ReclaimComplete { one_fs: false };
    is_written(&rt, alloc, reclaim, &[58, 0])
}

#[test]
fn sessions_are_written(rt: HostRuntime) -> Result<(), AllocError> {
    let alloc = rt.alloc();
    let create = Op::CreateSession(CreateSession {
        client: 5,
        sequence: 6,
        flags: 7,
        fore: CHANNEL,
        back: CHANNEL,
        program: 8,
        callbacks: Items::new(Vec::new(alloc)),
    });
    let words = [
        43, 0, 5, 6, 7, 1, 2, 3, 4, 5, 6, 0, 1, 2, 3, 4, 5, 6, 0, 8, 0,
    ];
    is_written(&rt, alloc, create, &words)?;
    let destroy = Op::DestroySession {
        session: [0, 0, 0, 1, 0, 0, 0, 2, 0, 0, 0, 3, 0, 0, 0, 4],
    };
    is_written(&rt, alloc, destroy, &[44, 1, 2, 3, 4])
}
