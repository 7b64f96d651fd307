//! What the events of a guest ask for.
ghost use Rattle.std.specs.Prelude.{◌≡◌, ◌<◌, ◌≤◌, ◌-◌, ◌++◌, ◌∷◌, [], length, All, IfOk, OnOk};
ghost use Rattle.lnfs_arguments.specs.Identifiers.{client_id, session_id};
ghost use Rattle.lnfs_requests.specs.Fits.{OpFits};
ghost use Rattle.lnfs_traffic.specs.Generated.{first_ops, second_ops, name, open_op, root_ops, later_ops, ops_of};

use crate::guests::Row;
use crate::turns::Turn;
use lnfs_arguments::{
    Channel, Claim, CreateSession, Making, Op, Sequence, Span, StateId, client_id, session_id,
};
use lnfs_attrs::{Bitmap, RawAttrs};
use lnfs_types::{Items, Octets};
use std::alloc::{AllocError, Global};

/// The sizes that are asked for, in both directions.
const CHANNEL: Channel = Channel {
    headerpad: 0,
    maxrequest: 65536,
    maxresponse: 65536,
    cached: 65536,
    operations: 32,
    requests: 16,
    ird: None,
};

/// The state id of nobody's open (RFC 8881 section 8.2.3).
const ANONYMOUS: StateId = StateId {
    seqid: 0,
    other: [0; 12],
};

const NO_ATTRS: Bitmap = Bitmap { words: [0; 8] };

const TYPE_AND_SIZE: Bitmap = Bitmap {
    words: [18, 0, 0, 0, 0, 0, 0, 0],
};

const TYPE_AND_LABEL: Bitmap = Bitmap {
    words: [2, 0, 65536, 0, 0, 0, 0, 0],
};

#[tactic(auto, using(crate::proofs::Lengths::owner_short))]
fn first_ops<'a>(alloc: Global, place: u32) -> Result<Vec<Op<'a>>, AllocError>
    ensures ops { IfOk result (λ ops. ops.items ≡ first_ops place) }
    ensures fits { IfOk result (λ ops. All OpFits ops.items) }
{
    let owner = format!(in alloc; "gen{place}")?;
    let mut ops = Vec::new(alloc);
    ops.push(Op::ExchangeId {
        verifier: [0; 8],
        owner: Octets::from_slice(alloc, owner.as_bytes())?,
        flags: 0,
        implementation: None,
    })?;
    Ok(ops)
}

fn second_ops<'a>(alloc: Global, client: u64) -> Result<Vec<Op<'a>>, AllocError>
    ensures ops { IfOk result (λ ops. ops.items ≡ second_ops client) }
    ensures fits { IfOk result (λ ops. All OpFits ops.items) }
{
    let mut ops = Vec::new(alloc);
    ops.push(Op::CreateSession(CreateSession {
        client,
        sequence: 1,
        flags: 0,
        fore: CHANNEL,
        back: CHANNEL,
        program: 0,
        callbacks: Items::new(Vec::new(alloc)),
    }))?;
    Ok(ops)
}

#[tactic(auto, using(crate::proofs::Lengths::name_short))]
fn name(alloc: Global, pick: u32) -> Result<Octets, AllocError>
    ensures name { IfOk result (λ bytes. bytes ≡ name pick) }
    ensures short { IfOk result (λ bytes. length bytes ≤ 3) }
{
    let number = pick / 4 % 100;
    let text = format!(in alloc; "g{number}")?;
    Octets::from_slice(alloc, text.as_bytes())
}

/// Appends a look-up of the name, and what is asked of the node that it names.
fn put_named<'a>(
    alloc: Global,
    ops: &mut Vec<Op<'a>>,
    pick: u32,
    asked: Op<'a>,
) -> Result<(), AllocError>
    requires { OpFits asked }
    ensures ops { OnOk result (ops.new.items ≡ ops.old.items
        ++ Op.Lookup (name pick) ∷ asked.entry ∷ []) }
    ensures fits { All OpFits ops.old.items → OnOk result (All OpFits ops.new.items) }
{
    ops.push(Op::Lookup {
        name: name(alloc, pick)?,
    })?;
    ops.push(asked)?;
    Ok(())
}

/// An OPEN for writing, which makes the file where it isn't there.
fn open<'a>(alloc: Global, client: u64, pick: u32) -> Result<Op<'a>, AllocError>
    ensures op { IfOk result (λ op. op ≡ open_op client pick) }
    ensures fits { IfOk result OpFits }
{
    let attrs = RawAttrs {
        mask: NO_ATTRS,
        list: Octets::new(Vec::new(alloc)),
    };
    Ok(Op::Open {
        seqid: 0,
        access: 2,
        deny: 0,
        client,
        owner: Octets::from_slice(alloc, b"o")?,
        making: Some(Making::Unchecked { attrs }),
        claim: Claim::Name {
            name: name(alloc, pick)?,
        },
    })
}

/// Appends what is asked in the root directory.
fn put_root_ops<'a>(
    alloc: Global,
    ops: &mut Vec<Op<'a>>,
    client: u64,
    pick: u32,
    content: &'a [u8; 64],
) -> Result<(), AllocError>
    ensures ops { OnOk result (ops.new.items ≡ ops.old.items ++ root_ops client content.now pick) }
    ensures fits { All OpFits ops.old.items → OnOk result (All OpFits ops.new.items) }
{
    match pick % 4 {
        0 => {
            ops.push(Op::ReadDir {
                cookie: 0,
                verifier: [0; 8],
                dircount: 4096,
                maxcount: 4096,
                asked: TYPE_AND_LABEL,
            })?;
            Ok(())
        }
        1 => {
            ops.push(open(alloc, client, pick)?)?;
            Ok(())
        }
        2 => put_named(
            alloc,
            ops,
            pick,
            Op::GetAttr {
                asked: TYPE_AND_SIZE,
            },
        ),
        _ => put_named(
            alloc,
            ops,
            pick,
            Op::Write {
                id: ANONYMOUS,
                offset: 0,
                stable: 0,
                content: Span::new(content),
            },
        ),
    }
}

fn later_ops<'a>(
    alloc: Global,
    row: &Row,
    turn: &Turn,
    content: &'a [u8; 64],
) -> Result<Vec<Op<'a>>, AllocError>
    requires { 1 < turn.now.past.events }
    ensures ops { IfOk result (λ ops. ops.items ≡ later_ops
        (session_id row.now.level turn.now.past.session) (turn.now.past.events - 1)
        (client_id row.now.level turn.now.past.client) content.now turn.now.pick) }
    ensures fits { IfOk result (λ ops. All OpFits ops.items) }
{
    let mut ops = Vec::new(alloc);
    ops.push(Op::Sequence(Sequence {
        session: session_id(row.level, turn.past.session),
        sequence: turn.past.events - 1,
        slot: 0,
        highest: 0,
        cachethis: true,
    }))?;
    ops.push(Op::PutRootFh)?;
    let client = client_id(row.level, turn.past.client);
    put_root_ops(alloc, &mut ops, client, turn.pick, content)?;
    Ok(ops)
}

/// The operations of an event. The content is what is written, where something is.
pub fn ops_of<'a>(
    alloc: Global,
    row: &Row,
    turn: &Turn,
    content: &'a [u8; 64],
) -> Result<Vec<Op<'a>>, AllocError>
    ensures ops { IfOk result (λ ops. ops.items ≡ ops_of row.now turn.now content.now) }
    ensures fits { IfOk result (λ ops. All OpFits ops.items) }
{
    match turn.past.events {
        0 => first_ops(alloc, turn.place),
        1 => second_ops(alloc, client_id(row.level, turn.past.client)),
        _ => later_ops(alloc, row, turn, content),
    }
}
