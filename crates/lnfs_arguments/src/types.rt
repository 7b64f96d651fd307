ghost use Rattle.std.specs.Prelude.{◌≡◌};
ghost use Rattle.lnfs_arguments.specs.Numbered.{number_of, result_number};

use crate::channel::Channel;
use crate::numbers::{
    OP_ACCESS, OP_CLOSE, OP_COMMIT, OP_CREATE, OP_CREATE_SESSION, OP_DESTROY_CLIENTID,
    OP_DESTROY_SESSION, OP_EXCHANGE_ID, OP_FIRST, OP_GETATTR, OP_GETFH, OP_ILLEGAL, OP_LAST,
    OP_LINK, OP_LOOKUP, OP_LOOKUPP, OP_NVERIFY, OP_OPEN, OP_PUTFH, OP_PUTROOTFH, OP_READ,
    OP_READDIR, OP_READLINK, OP_RECLAIM_COMPLETE, OP_REMOVE, OP_RENAME, OP_RESTOREFH, OP_SAVEFH,
    OP_SEQUENCE, OP_SETATTR, OP_VERIFY, OP_WRITE,
};
use crate::span::Span;
use crate::stateid::StateId;
use lnfs_attrs::{Bitmap, RawAttrs};
use lnfs_types::{Items, Octets};

/// How the server may call back (`callback_sec_parms4`, RFC 8881 section 18.36.1).
#[derive(Debug, Drop)]
pub enum Callback {
    Nothing,
    /// An AUTH_SYS body (RFC 5531 appendix A).
    Sys {
        stamp: u32,
        machine: Octets,
        uid: u32,
        gid: u32,
        gids: Items<u32>,
    },
    Gss {
        service: u32,
        server: Octets,
        client: Octets,
    },
}

/// RFC 8881 section 18.36.
#[derive(Debug, Drop)]
pub struct CreateSession {
    pub client: u64,
    pub sequence: u32,
    pub flags: u32,
    pub fore: Channel,
    pub back: Channel,
    pub program: u32,
    pub callbacks: Items<Callback>,
}

/// RFC 8881 section 18.46.
#[derive(Debug, Drop)]
pub struct Sequence {
    pub session: [u8; 16],
    pub sequence: u32,
    pub slot: u32,
    pub highest: u32,
    pub cachethis: bool,
}

/// Who made a client (`nfs_impl_id4`, RFC 8881 section 18.35.1).
#[derive(Debug, Drop)]
pub struct Implementation {
    pub domain: Octets,
    pub name: Octets,
    pub secs: u64,
    pub nanos: u32,
}

/// What CREATE makes (`createtype4`, RFC 8881 section 18.4.1).
#[derive(Debug, Drop)]
pub enum What {
    Dir,
    Symlink { text: Octets },
}

/// How OPEN makes a file (`createhow4`, RFC 8881 section 18.16.1).
#[derive(Debug, Drop)]
pub enum Making {
    Unchecked { attrs: RawAttrs },
    Guarded { attrs: RawAttrs },
    Exclusive { verifier: [u8; 8], attrs: RawAttrs },
}

/// What OPEN opens (`open_claim4`, RFC 8881 section 18.16.1): a name in the current directory, or
/// the current file.
#[derive(Debug, Drop)]
pub enum Claim {
    Name { name: Octets },
    Handle,
}

/// The arguments of one operation (RFC 8881 section 18). The bytes of a WRITE are lent from those
/// that were read.
#[derive(Debug, Drop)]
pub enum Op<'a> {
    Access {
        bits: u32,
    },
    Close {
        seqid: u32,
        id: StateId,
    },
    Commit {
        offset: u64,
        count: u32,
    },
    Create {
        what: What,
        name: Octets,
        attrs: RawAttrs,
    },
    GetAttr {
        asked: Bitmap,
    },
    GetFh,
    Link {
        name: Octets,
    },
    Lookup {
        name: Octets,
    },
    LookupP,
    NVerify {
        attrs: RawAttrs,
    },
    /// `making` is None where nothing is to be made.
    Open {
        seqid: u32,
        access: u32,
        deny: u32,
        client: u64,
        owner: Octets,
        making: Option<Making>,
        claim: Claim,
    },
    PutFh {
        handle: Octets,
    },
    PutRootFh,
    Read {
        id: StateId,
        offset: u64,
        count: u32,
    },
    ReadDir {
        cookie: u64,
        verifier: [u8; 8],
        dircount: u32,
        maxcount: u32,
        asked: Bitmap,
    },
    ReadLink,
    Remove {
        name: Octets,
    },
    Rename {
        old: Octets,
        new: Octets,
    },
    RestoreFh,
    SaveFh,
    SetAttr {
        id: StateId,
        attrs: RawAttrs,
    },
    Verify {
        attrs: RawAttrs,
    },
    Write {
        id: StateId,
        offset: u64,
        stable: u32,
        content: Span<'a>,
    },
    ExchangeId {
        verifier: [u8; 8],
        owner: Octets,
        flags: u32,
        implementation: Option<Implementation>,
    },
    CreateSession(CreateSession),
    DestroySession {
        session: [u8; 16],
    },
    Sequence(Sequence),
    DestroyClientId {
        client: u64,
    },
    ReclaimComplete {
        one_fs: bool,
    },
    /// An operation outside of what is served: its number as it was sent, and the status that it
    /// answers where there is room for it. It ends reading. The result of an operation that has no
    /// number in the protocol has `OP_ILLEGAL` as its number.
    Outside {
        number: u32,
        status: u32,
    },
    /// An operation of a further grammar, its arguments unread.
    Extra {
        number: u32,
        args: Octets,
    },
}

impl Op<'_> {
    /// The operation's number; of one outside of what is served, the number as it was sent.
    pub fn number(&self) -> u32
        ensures { result ≡ number_of self.now }
    {
        match self {
            Op::Access { .. } => OP_ACCESS,
            Op::Close { .. } => OP_CLOSE,
            Op::Commit { .. } => OP_COMMIT,
            Op::Create { .. } => OP_CREATE,
            Op::GetAttr { .. } => OP_GETATTR,
            Op::GetFh => OP_GETFH,
            Op::Link { .. } => OP_LINK,
            Op::Lookup { .. } => OP_LOOKUP,
            Op::LookupP => OP_LOOKUPP,
            Op::NVerify { .. } => OP_NVERIFY,
            Op::Open { .. } => OP_OPEN,
            Op::PutFh { .. } => OP_PUTFH,
            Op::PutRootFh => OP_PUTROOTFH,
            Op::Read { .. } => OP_READ,
            Op::ReadDir { .. } => OP_READDIR,
            Op::ReadLink => OP_READLINK,
            Op::Remove { .. } => OP_REMOVE,
            Op::Rename { .. } => OP_RENAME,
            Op::RestoreFh => OP_RESTOREFH,
            Op::SaveFh => OP_SAVEFH,
            Op::SetAttr { .. } => OP_SETATTR,
            Op::Verify { .. } => OP_VERIFY,
            Op::Write { .. } => OP_WRITE,
            Op::ExchangeId { .. } => OP_EXCHANGE_ID,
            Op::CreateSession(_) => OP_CREATE_SESSION,
            Op::DestroySession { .. } => OP_DESTROY_SESSION,
            Op::Sequence(_) => OP_SEQUENCE,
            Op::DestroyClientId { .. } => OP_DESTROY_CLIENTID,
            Op::ReclaimComplete { .. } => OP_RECLAIM_COMPLETE,
            Op::Outside { number, .. } | Op::Extra { number, .. } => *number,
        }
    }

    /// The number in the operation's result, whatever status it is answered with: `OP_ILLEGAL` of
    /// one that the protocol doesn't have (RFC 8881 section 18.52), and of any other its own.
    pub fn result_number(&self) -> u32
        ensures { result ≡ result_number self.now }
    {
        match self {
            Op::Outside { number, .. } if *number < OP_FIRST || *number > OP_LAST => OP_ILLEGAL,
            _ => self.number(),
        }
    }
}

/// The arguments of a COMPOUND (RFC 8881 section 16.2.1).
#[derive(Debug, Drop)]
pub struct Compound<'a> {
    pub tag: Octets,
    pub minor: u32,
    /// The count that was sent, which may be more than the operations that were read. It is 0 where
    /// the minor version isn't 2, since nothing behind that is read.
    pub count: u32,
    pub ops: Items<Op<'a>>,
}
