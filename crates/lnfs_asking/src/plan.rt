use lnfs_answers::HANDLE_SIZE;
use lnfs_arguments::Op;
use lnfs_attrs::LabelValue;
use lnfs_policy::Parent;
use lnfs_types::Items;

/// Whom a request comes from.
#[derive(Clone, Copy, Debug)]
pub enum Speaker {
    /// A user of the machine `client`, by AUTH_SYS (RFC 5531 appendix A).
    Guest {
        uid: u32,
    },
    /// Who signs with the secret of a parent, by RPCSEC_GSS version 3, in the context of this handle.
    Member {
        parent: Parent,
        context: [u8; HANDLE_SIZE],
    },
}

/// What a request asks for.
#[derive(Debug, Drop)]
pub enum Plan<'a> {
    /// A context that asserts a label (RFC 7861 section 2.7.1).
    Assert(LabelValue),
    /// A COMPOUND of these operations (RFC 8881 section 16.2).
    Ask(Items<Op<'a>>),
    /// The end of the context (RFC 2203 section 5.4).
    End,
}
